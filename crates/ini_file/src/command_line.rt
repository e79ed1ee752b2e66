//! The command line: which command the words give, and what it is about. This file knows no document and no
//! device.
ghost use Rattle.std.specs.Prelude.{◌≡◌, ◌&&◌, map, string_bytes};
ghost use Rattle.std.specs.Option.{option_map};
ghost use Rattle.ini_file.specs.Choices.{chosen_of};
ghost use Rattle.ini_file.specs.CommandLines.{is_over_files, line_after, line_asked, line_called, line_of};
ghost use Rattle.ini_file.specs.CommandLines.{line_of_asks, line_over_files, may_be_laid_out, may_be_layers};
ghost use Rattle.ini_file.specs.CommandLines.{reads_input_twice, writes_file};
ghost use Rattle.ini_file.specs.Fronts.{call_of, front_of};
ghost use Rattle.ini_file.specs.Requests.{asks_of};

use crate::check_words::{Check, check_of};
use crate::choices::Choices;
use crate::front::{Call, Front};
use crate::merge_words::{Merging, merge_of};
use crate::side_words::{
    Application, Comparison, ThreeWay, application_of, comparison_of, three_way_of,
};
use crate::words::{Invocation, asked_of};

/// What the words ask for.
#[derive(Clone, Copy)]
pub enum CommandLine<'a> {
    /// `check`.
    Check(Check<'a>),
    /// `merge`.
    Merge(Merging<'a>),
    /// `layers`, of one file or folder at least.
    Layers(Call<'a>),
    /// `diff`.
    Diff(Comparison<'a>),
    /// `apply`.
    Apply(Application<'a>),
    /// `merge3`.
    MergeThree(ThreeWay<'a>),
    /// `format`, of one file at least.
    Format(Call<'a>),
    /// An answer of one file in a manner of its own.
    Tell(Invocation<'a>),
    /// Any other command over one file.
    File(Invocation<'a>),
}

impl<'a> CommandLine<'a> {
    /// What the words ask for, if they are the program's: what `Front::of_words` knows; then the command's
    /// own options up to the first word that is none, or up to `--`; then its files, or the name of a file
    /// and the command's arguments, whatever they begin with. Of several files one at most is standard input.
    /// Takes no memory.
    pub fn of_words(words: &'a [String]) -> Option<CommandLine<'a>>
        ensures { option_map line_of result ≡ line_asked (map string_bytes words.now) }
    {
        CommandLine::after(Front::of_words(words)?)
    }

    // What is asked for after the front.
    fn after(front: Front<'a>) -> Option<CommandLine<'a>>
        ensures { option_map line_of result ≡ line_after (front_of front.entry) }
    {
        if front.command == "check" {
            return Some(CommandLine::Check(check_of(front)?));
        }
        CommandLine::of_call(front.command, front.call()?)
    }

    // What a command asks for that is called so.
    fn of_call(command: &str, call: Call<'a>) -> Option<CommandLine<'a>>
        ensures { option_map line_of result ≡ line_called command.now (call_of call.entry) }
    {
        if is_over_files(command) {
            return CommandLine::over_files(command, call);
        }
        Some(CommandLine::of_asked(asked_of(command, call)?))
    }

    // What is asked of files alone.
    fn over_files(command: &str, call: Call<'a>) -> Option<CommandLine<'a>>
        ensures { option_map line_of result ≡ line_over_files command.now (call_of call.entry) }
    {
        if reads_input_twice(call.words) {
            return None;
        }
        match command {
            "merge" => Some(CommandLine::Merge(merge_of(call)?)),
            "diff" => Some(CommandLine::Diff(comparison_of(call)?)),
            "apply" => Some(CommandLine::Apply(application_of(call)?)),
            "merge3" => Some(CommandLine::MergeThree(three_way_of(call)?)),
            "layers" => may_be_layers(call).then_some(CommandLine::Layers(call)),
            "format" => may_be_laid_out(call).then_some(CommandLine::Format(call)),
            _ => None,
        }
    }

    // What is asked of one file.
    fn of_asked(asked: Invocation<'a>) -> CommandLine<'a>
        ensures { line_of result ≡ line_of_asks (asks_of asked.entry) }
    {
        if asked.choices.has_manner() {
            CommandLine::Tell(asked)
        } else {
            CommandLine::File(asked)
        }
    }
}

// Whether the command is over files alone.
fn is_over_files(command: &str) -> bool
    ensures { result ≡ is_over_files command.now }
{
    matches!(
        command,
        "merge" | "diff" | "apply" | "merge3" | "layers" | "format"
    )
}

// Whether more than one of the files is standard input.
fn reads_input_twice(files: &[String]) -> bool
    ensures { result ≡ reads_input_twice (map string_bytes files.now) }
{
    files.iter().filter(|file| file.as_str() == "-").count() > 1
}

// Whether layers may be called so: of one file or folder at least.
fn may_be_layers(call: Call<'_>) -> bool
    ensures { result ≡ may_be_layers (call_of call.entry) }
{
    !call.words.is_empty()
}

// Whether a format may be called so: of one file where what is made goes to another, and with `--check`
// where nothing is about a file that is written.
fn may_be_laid_out(call: Call<'_>) -> bool
    ensures { result ≡ may_be_laid_out (call_of call.entry) }
{
    !call.words.is_empty()
        && (call.choices.output.is_none() || call.words.len() == 1)
        && !(call.choices.switches.check && writes_file(call.choices))
}

// Whether something is chosen that is about a file that is written.
fn writes_file(choices: Choices<'_>) -> bool
    ensures { result ≡ writes_file (chosen_of choices.entry) }
{
    choices.output.is_some() || choices.wait.is_some() || choices.switches.are_of_saving()
}
