//! Where the bytes go that a command makes of a file. This file knows no device.
ghost use Rattle.std.specs.Prelude.{◌≡◌, ◌||◌, codes, false, true};
ghost use Rattle.std.specs.Option.{option_map};
ghost use Rattle.ini_file.specs.Choices.{chosen_of};
ghost use Rattle.ini_file.specs.Places.{handed_on, is_filter, is_of_file, makes_file};
ghost use Rattle.ini_file.specs.Places.{place_asked, place_of, reported};
ghost use Rattle.ini_file.specs.Requests.{asks_of, request_of};

use crate::check_words::CheckChoices;
use crate::choices::{Choices, Switches};
use crate::front::Call;
use crate::further::FurtherEdit;
use crate::merge_words::Merging;
use crate::run::Outcome;
use crate::side_words::{Application, Comparison, ThreeWay};
use crate::words::{Command, Invocation};
use ini_edit::Edit;

/// The file that a command reads, and where what it makes goes.
#[derive(Clone, Copy)]
pub struct Target<'a> {
    /// The file that is read; `-` is standard input.
    pub file: &'a str,
    /// The file that is written; `-` is standard output.
    pub place: &'a str,
    /// Whether what would change in it is shown, and nothing is written.
    pub shows_change: bool,
    /// Whether the file is made where it isn't there.
    pub makes_file: bool,
    /// What is chosen of the way in which it is saved.
    pub switches: Switches,
    /// How long others are waited for that write it, in seconds.
    pub wait: Option<&'a str>,
}

impl<'a> Target<'a> {
    /// The target of a command over one file.
    pub fn of_asked(asked: Invocation<'a>) -> Target<'a>
        ensures file { result.file.now ≡ asked.entry.file.now }
        ensures place { result.place.now ≡ place_asked (asks_of asked.entry) }
        ensures shows_change { result.shows_change ≡ asked.entry.choices.switches.dry_run }
        ensures makes_file { result.makes_file ≡ makes_file (request_of asked.entry.command) }
        ensures switches { result.switches ≡ asked.entry.choices.switches }
        ensures wait { result.wait ≡ asked.entry.choices.wait }
    {
        Target {
            file: asked.file,
            place: place_of(asked.choices, asked.file, is_of_file(asked.command)),
            shows_change: asked.choices.switches.dry_run,
            makes_file: makes_file(asked.command),
            switches: asked.choices.switches,
            wait: asked.choices.wait,
        }
    }

    /// The target of a merge, which makes its file.
    pub fn of_merging(merging: Merging<'a>) -> Target<'a>
        ensures file { result.file.now ≡ merging.entry.file.now }
        ensures place { result.place.now
            ≡ place_of (chosen_of merging.entry.choices) merging.entry.file.now true }
        ensures shows_change { result.shows_change ≡ merging.entry.choices.switches.dry_run }
        ensures makes_file { result.makes_file ≡ true }
        ensures switches { result.switches ≡ merging.entry.choices.switches }
        ensures wait { result.wait ≡ merging.entry.choices.wait }
    {
        Target {
            file: merging.file,
            place: place_of(merging.choices, merging.file, true),
            shows_change: merging.choices.switches.dry_run,
            makes_file: true,
            switches: merging.choices.switches,
            wait: merging.choices.wait,
        }
    }

    /// The target of layers; of the files that are read none is the one.
    pub fn of_layers(call: Call<'a>) -> Target<'a>
        ensures file { result.file.now ≡ codes "" }
        ensures place { result.place.now ≡ place_of (chosen_of call.entry.choices) (codes "") false }
        ensures shows_change { result.shows_change ≡ false }
        ensures makes_file { result.makes_file ≡ false }
        ensures switches { result.switches ≡ call.entry.choices.switches }
        ensures wait { result.wait ≡ call.entry.choices.wait }
    {
        Target {
            file: "",
            place: place_of(call.choices, "", false),
            shows_change: false,
            makes_file: false,
            switches: call.choices.switches,
            wait: call.choices.wait,
        }
    }

    /// The target of a format, of a file of those; a check writes none.
    pub fn of_format(call: Call<'a>, file: &'a str) -> Target<'a>
        ensures file { result.file.now ≡ file.now }
        ensures place { result.place.now ≡ place_of (chosen_of call.entry.choices) file.now true }
        ensures shows_change { result.shows_change
            ≡ (call.entry.choices.switches.dry_run || call.entry.choices.switches.check) }
        ensures makes_file { result.makes_file ≡ false }
        ensures switches { result.switches ≡ call.entry.choices.switches }
        ensures wait { result.wait ≡ call.entry.choices.wait }
    {
        Target {
            file,
            place: place_of(call.choices, file, true),
            shows_change: call.choices.switches.dry_run || call.choices.switches.check,
            makes_file: false,
            switches: call.choices.switches,
            wait: call.choices.wait,
        }
    }

    /// The target of a comparison.
    pub fn of_comparison(asked: Comparison<'a>) -> Target<'a>
        ensures file { result.file.now ≡ asked.entry.from.now }
        ensures place { result.place.now
            ≡ place_of (chosen_of asked.entry.choices) asked.entry.from.now false }
        ensures shows_change { result.shows_change ≡ false }
        ensures makes_file { result.makes_file ≡ false }
        ensures switches { result.switches ≡ asked.entry.choices.switches }
        ensures wait { result.wait ≡ asked.entry.choices.wait }
    {
        Target {
            file: asked.from,
            place: place_of(asked.choices, asked.from, false),
            shows_change: false,
            makes_file: false,
            switches: asked.choices.switches,
            wait: asked.choices.wait,
        }
    }

    /// The target of an application, which makes its file.
    pub fn of_application(asked: Application<'a>) -> Target<'a>
        ensures file { result.file.now ≡ asked.entry.file.now }
        ensures place { result.place.now
            ≡ place_of (chosen_of asked.entry.choices) asked.entry.file.now true }
        ensures shows_change { result.shows_change ≡ asked.entry.choices.switches.dry_run }
        ensures makes_file { result.makes_file ≡ true }
        ensures switches { result.switches ≡ asked.entry.choices.switches }
        ensures wait { result.wait ≡ asked.entry.choices.wait }
    {
        Target {
            file: asked.file,
            place: place_of(asked.choices, asked.file, true),
            shows_change: asked.choices.switches.dry_run,
            makes_file: true,
            switches: asked.choices.switches,
            wait: asked.choices.wait,
        }
    }

    /// The target of a three-way merge, over the file in which changes are made.
    pub fn of_three_way(asked: ThreeWay<'a>) -> Target<'a>
        ensures file { result.file.now ≡ asked.entry.theirs.now }
        ensures place { result.place.now
            ≡ place_of (chosen_of asked.entry.choices) asked.entry.theirs.now false }
        ensures shows_change { result.shows_change ≡ asked.entry.choices.switches.dry_run }
        ensures makes_file { result.makes_file ≡ false }
        ensures switches { result.switches ≡ asked.entry.choices.switches }
        ensures wait { result.wait ≡ asked.entry.choices.wait }
    {
        Target {
            file: asked.theirs,
            place: place_of(asked.choices, asked.theirs, false),
            shows_change: asked.choices.switches.dry_run,
            makes_file: false,
            switches: asked.choices.switches,
            wait: asked.choices.wait,
        }
    }

    /// The target of a check that mends a file.
    pub fn of_fixing(made: CheckChoices, wait: Option<&'a str>, file: &'a str) -> Target<'a>
        ensures file { result.file.now ≡ file.now }
        ensures place { result.place.now ≡ file.now }
        ensures shows_change { result.shows_change ≡ made.switches.dry_run }
        ensures makes_file { result.makes_file ≡ false }
        ensures switches { result.switches ≡ made.switches }
        ensures wait { result.wait ≡ wait.entry }
    {
        Target {
            file,
            place: file,
            shows_change: made.switches.dry_run,
            makes_file: false,
            switches: made.switches,
            wait,
        }
    }

    /// The file that is named with a fault of writing: the one that is written; where that is standard
    /// output, the one that is read.
    pub fn reported(self) -> &'a str
        ensures { result.now ≡ reported self.entry.file.now self.entry.place.now }
    {
        if self.place == "-" {
            self.file
        } else {
            self.place
        }
    }
}

/// The bytes that are handed on once a run over a file's bytes has ended: those that it made; or the file's
/// own, where an edit whose text goes to standard output finds nothing.
pub fn handed_on<'a>(
    asked: Invocation<'_>,
    outcome: &'a Outcome,
    input: &'a [u8],
) -> Option<&'a [u8]>
    ensures { option_map (λ bytes. bytes.now) result
        ≡ handed_on (asks_of asked.entry) outcome.now input.now }
{
    match outcome {
        Outcome::Done(bytes) => Some(bytes.as_slice()),
        Outcome::NotFound if is_filter(asked) => Some(input),
        _ => None,
    }
}

/// The file that is written: the one that `--output` names; else the file itself, where what is made belongs
/// there; else standard output.
pub(crate) fn place_of<'a>(choices: Choices<'a>, file: &'a str, into_file: bool) -> &'a str
    ensures { result.now ≡ place_of (chosen_of choices.entry) file.now into_file }
{
    choices.output.unwrap_or(if into_file { file } else { "-" })
}

// Whether an edit's text goes to standard output.
fn is_filter(asked: Invocation<'_>) -> bool
    ensures { result ≡ is_filter (asks_of asked.entry) }
{
    matches!(asked.command, Command::Change(_) | Command::Further(_))
        && Target::of_asked(asked).place == "-"
}

// Whether what the command makes belongs into the file itself.
fn is_of_file(command: Command<'_>) -> bool
    ensures { result ≡ is_of_file (request_of command.entry) }
{
    matches!(
        command,
        Command::Rewrite | Command::Change(_) | Command::Further(_)
    )
}

// Whether the command makes a file that isn't there.
fn makes_file(command: Command<'_>) -> bool
    ensures { result ≡ makes_file (request_of command.entry) }
{
    matches!(
        command,
        Command::Change(Edit::Set { .. } | Edit::Add { .. })
            | Command::Further(FurtherEdit::AddSection { .. } | FurtherEdit::SetAll { .. })
    )
}
