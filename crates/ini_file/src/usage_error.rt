//! Usage errors, in one sentence each: which word is wrong, and what was expected. This file knows no file
//! and no document.
//!
//! Which words are the program's, `sort`, `in_order` and the calls of `run_words` decide, by their
//! contracts; no contract says what is printed of the others. `tests/words.sh` tests it.

use crate::choices::{goes_out, is_short_number};
use crate::commands::{COMMANDS, FORMS, Shape, nearest, shape_of};
use crate::manner::{Color, ValueKind};
use crate::order::{Sorted, before_section};
use crate::reported::names_traps;
use crate::shown::Shown;
use crate::spacing::{small_number, sorting_of};
use crate::spelling::kind_of;
use ini_check::TRAPS;
use ini_dialect::{Dialect, Encoding, dialects};
use ini_words::{lone_line_named, policy_named};
use std::alloc::AllocError;
use std::io::{self, Write};

/// What is wrong with the words.
#[derive(Clone, Copy)]
pub enum UsageError<'a> {
    /// This looks like an option, and is none.
    Unknown(&'a str),
    /// An option whose text is missing.
    NeedsText(&'a str),
    /// An option with a text that it doesn't take.
    TakesNoText(&'a str),
    /// No dialect has this name.
    Dialect(&'a str),
    /// A text that the option before it doesn't take; and what that takes, in words.
    Text(&'a str, &'static str),
    /// The command writes no form of this name.
    Format(Shape, &'a str),
    /// A form for programs with another one.
    OneForm,
    /// No trap and no level has this name.
    Trap(&'a str),
    /// No command is there.
    NoCommand,
    /// No command has this name.
    Command(&'a str),
    /// A choice that the command hasn't.
    Choice(Shape, &'a str),
    /// A choice that the command takes beside this other one alone, without it.
    Needs(Shape, &'a str, &'static str),
    /// Mends, or a form of warnings, where dialects are written.
    SuggestsAlone,
    /// A separator of new lines where none is written.
    NoNewLine,
    /// A separator where places of pairs are told.
    NoDocument,
    /// The last value, where each is got.
    LastOfAll,
    /// Standard input twice.
    InputTwice,
    /// Several files, and one that gets what is made.
    OneOutput,
    /// A choice about the file that is written, where a check writes none.
    NoFile(&'a str),
    /// A section where the command has none.
    Section(Shape, &'a str),
    /// An argument too much.
    TooMany(Shape, &'a str),
    /// The argument of this number is missing, counted from 0.
    Missing(Shape, usize),
    /// Memory was refused.
    Memory,
}

impl From<AllocError> for UsageError<'_> {
    ghost use Rattle.std.specs.Prelude.{◌≡◌};
    ghost use Rattle.ini_file.specs.declared.usage_error.UsageError.TheVariants.{Memory};

    ghost from_gives = { λ _ error. error ≡ Memory };

    fn from(_: AllocError) -> Self {
        UsageError::Memory
    }
}

/// What is wrong with sorted words that are none of the program's, as far as it is found.
pub fn usage_error_of<'a>(sorted: &Sorted<'a>) -> Option<UsageError<'a>> {
    let Some((command, arguments)) = sorted.others.as_slice().split_first() else {
        return Some(UsageError::NoCommand);
    };
    let Some(shape) = shape_of(command) else {
        return Some(UsageError::Command(*command));
    };
    dialect_error(sorted.like)
        .or(encoding_error(sorted.encoding))
        .or(option_error(sorted.options.as_slice()))
        .or(choice_error(shape, sorted.choices.as_slice()))
        .or(output_error(shape, sorted.choices.as_slice(), arguments))
        .or(argument_error(shape, arguments, sorted.section))
}

// The name that is no dialect's.
fn dialect_error(like: Option<&str>) -> Option<UsageError<'_>> {
    match Dialect::of_name(like?) {
        Some(_) => None,
        None => Some(UsageError::Dialect(like?)),
    }
}

// The name that is no encoding's.
fn encoding_error(encoding: Option<&str>) -> Option<UsageError<'_>> {
    match Encoding::of_name(encoding?) {
        Some(_) => None,
        None => Some(UsageError::Text(encoding?, NO_ENCODING)),
    }
}

// The name that the option before it doesn't take.
fn option_error<'a>(options: &[&'a str]) -> Option<UsageError<'a>> {
    let mut before = "";
    for word in options {
        let name = *word;
        before = match before {
            "--policy" if policy_named(name).is_none() => {
                return Some(UsageError::Text(name, NO_POLICY));
            }
            "--lone-lines" if lone_line_named(name).is_none() => {
                return Some(UsageError::Text(name, NO_LONE_LINE));
            }
            "--policy" | "--lone-lines" => "",
            _ => name,
        };
    }
    None
}

// The choice that the command doesn't take.
fn choice_error<'a>(shape: Shape, choices: &[&'a str]) -> Option<UsageError<'a>> {
    let mut before = "";
    for word in choices {
        let word = *word;
        if kind_of(before).is_some_and(|kind| kind.takes_text()) {
            if let Some(error) = text_error(shape, before, word) {
                return Some(error);
            }
            before = "";
            continue;
        }
        if !shape.takes(word) {
            return Some(UsageError::Choice(shape, word));
        }
        if let Some(other) = needed_beside(shape, word) {
            if !choices.contains(&other) {
                return Some(UsageError::Needs(shape, word, other));
            }
        }
        if is_of_writing(word) && choices.contains(&"--check") {
            return Some(UsageError::NoFile(word));
        }
        before = word;
    }
    pair_error(shape, choices)
}

// Choices that have no place beside each other.
fn pair_error<'a>(shape: Shape, choices: &[&'a str]) -> Option<UsageError<'a>> {
    if choices.contains(&"--suggest")
        && (choices.contains(&"--fix")
            || choices.contains(&"--null")
            || choices.contains(&"--format"))
    {
        return Some(UsageError::SuggestsAlone);
    }
    if shape.command != "check" && has_two_forms(choices) {
        return Some(UsageError::OneForm);
    }
    if choices.contains(&"--all") && choices.contains(&"--last") {
        return Some(UsageError::LastOfAll);
    }
    if choices.contains(&"--existing") && choices.contains(&"--separator") {
        return Some(UsageError::NoNewLine);
    }
    if choices.contains(&"--origin") && choices.contains(&"--separator") {
        return Some(UsageError::NoDocument);
    }
    None
}

// Whether a form for programs is chosen with another one.
fn has_two_forms(choices: &[&str]) -> bool {
    choices.contains(&"--format")
        && (choices.contains(&"--null")
            || choices.contains(&"--origin")
            || choices.contains(&"--type")
            || choices.contains(&"--comments"))
}

// Several files where one gets what is made of one.
fn output_error<'a>(
    shape: Shape,
    choices: &[&'a str],
    arguments: &[&'a str],
) -> Option<UsageError<'a>> {
    let goes_to_one = shape.command == "format" && choices.contains(&"--output");
    (goes_to_one && arguments.len() > 1).then_some(UsageError::OneOutput)
}

// What is wrong with the text of a choice.
fn text_error<'a>(shape: Shape, choice: &str, text: &'a str) -> Option<UsageError<'a>> {
    match choice {
        "--color" if Color::of_name(text).is_none() => Some(UsageError::Text(text, NO_COLOR)),
        "--wait" if !is_short_number(text) => Some(UsageError::Text(text, NO_SECONDS)),
        "--indent-pairs" | "--blank-lines" if small_number(text).is_none() => {
            Some(UsageError::Text(text, NO_NUMBER))
        }
        "--type" if ValueKind::of_name(text).is_none() => Some(UsageError::Text(text, NO_TYPE)),
        "--format" if !shape.writes(text) => Some(UsageError::Format(shape, text)),
        "--sort" if sorting_of(text).is_none() => Some(UsageError::Text(text, NO_SORTING)),
        "--allow" | "--deny" if !names_traps(text) => Some(UsageError::Trap(text)),
        _ => None,
    }
}

// The choice without which the command doesn't take this one: `--output` or `--fix` of what is about a file
// that is written, and `--origin` of what is about listed pairs.
fn needed_beside(shape: Shape, choice: &str) -> Option<&'static str> {
    let is_of_file = matches!(choice, "--in-place" | "--force" | "--wait" | "--verbose");
    if goes_out(shape.command) && is_of_file {
        return Some("--output");
    }
    if shape.command == "check" && (choice == "--dry-run" || is_of_writing(choice)) {
        return Some("--fix");
    }
    (shape.command == "layers" && choice == "--null").then_some("--origin")
}

// Whether the choice is about a file that is written.
fn is_of_writing(choice: &str) -> bool {
    matches!(
        choice,
        "--output" | "--in-place" | "--force" | "--wait" | "--verbose"
    )
}

// The argument that is missing, or one too many.
fn argument_error<'a>(
    shape: Shape,
    arguments: &[&'a str],
    section: Option<&'a str>,
) -> Option<UsageError<'a>> {
    let (least, most) = match (section, before_section(shape.command)) {
        (Some(name), None) => return Some(UsageError::Section(shape, name)),
        (Some(_), Some(count)) => (count, count),
        (None, _) => (shape.least(), shape.most()),
    };
    let inputs = arguments.iter().filter(|word| **word == "-").count();
    let reads_input = shape.command == "apply" && arguments.len() == 1;
    let inputs = if reads_input { inputs + 1 } else { inputs };
    let reads_files = matches!(
        shape.command,
        "merge" | "layers" | "diff" | "apply" | "merge3" | "format"
    );
    if reads_files && inputs > 1 {
        return Some(UsageError::InputTwice);
    }
    if arguments.len() < least {
        return Some(UsageError::Missing(shape, arguments.len()));
    }
    Some(UsageError::TooMany(shape, *arguments.get(most)?))
}

/// Prints an error, and where help is; and answers the exit status. A fault of the writer is dropped.
pub fn tell_usage_error<W: Write>(error: UsageError<'_>, err: &mut W) -> u8 {
    let _ = err.write_all(b"ini_file: ");
    let _ = print_error(error, err);
    if matches!(error, UsageError::Memory) {
        return 4;
    }
    let _ = writeln!(err, "Try 'ini_file --help'.");
    2
}

// Prints an error in one sentence.
fn print_error<W: Write>(error: UsageError<'_>, err: &mut W) -> io::Result<()> {
    match error {
        UsageError::Unknown(word) => {
            let word = Shown(word);
            writeln!(err, "{word} is no option; after -- it is an argument")
        }
        UsageError::NeedsText(name) => writeln!(err, "{name} takes {}", text_of(name)),
        UsageError::TakesNoText(name) => writeln!(err, "{name} takes no text"),
        UsageError::Dialect(name) => print_dialect(name, err),
        UsageError::Text(text, words) => print_unknown(text, words, err),
        UsageError::Trap(name) => print_trap(name, err),
        UsageError::NoCommand => writeln!(err, "a command is missing: one of {COMMANDS}"),
        UsageError::Command(word) => print_command(word, err),
        UsageError::NoNewLine => {
            writeln!(
                err,
                "--existing writes no new line, so --separator has no place"
            )
        }
        UsageError::NoDocument => {
            writeln!(
                err,
                "--origin writes no document, so --separator has no place"
            )
        }
        UsageError::OneForm => writeln!(
            err,
            "--format writes one form, so --null, --origin, --type and --comments have no place"
        ),
        UsageError::LastOfAll => writeln!(err, "--all gets each value, so --last has no place"),
        UsageError::InputTwice => writeln!(err, "- is standard input, which can't be read twice"),
        UsageError::OneOutput => writeln!(err, "--output takes what is made of one file alone"),
        UsageError::NoFile(choice) => {
            writeln!(err, "--check writes no file, so {choice} has no place")
        }
        UsageError::Memory => writeln!(err, "out of memory"),
        _ => print_command_error(error, err),
    }
}

// The same of an error that is about a command.
fn print_command_error<W: Write>(error: UsageError<'_>, err: &mut W) -> io::Result<()> {
    match error {
        UsageError::Format(shape, name) => {
            write!(err, "{} is no form; --format takes ", Shown(name))?;
            print_forms(shape, err)
        }
        UsageError::Choice(shape, choice) => {
            write!(err, "{} doesn't take {choice}", shape.command)?;
            print_choices(shape, err)
        }
        UsageError::Needs(shape, choice, other) => {
            let command = shape.command;
            writeln!(err, "{command} takes {choice} with {other} alone")
        }
        UsageError::SuggestsAlone => {
            writeln!(
                err,
                "check takes --suggest without --fix, --null and --format"
            )
        }
        UsageError::Section(shape, name) => {
            let (name, command) = (Shown(name), shape.command);
            writeln!(
                err,
                "{command} has no section, so --section {name} has no place"
            )
        }
        UsageError::TooMany(shape, word) => {
            let word = Shown(word);
            writeln!(err, "{word} is one word too many: {shape}")
        }
        UsageError::Missing(shape, index) => {
            writeln!(err, "{} is missing: {shape}", shape.argument(index))
        }
        _ => Ok(()),
    }
}

// Prints the forms that a command writes, and ends the line.
fn print_forms<W: Write>(shape: Shape, err: &mut W) -> io::Result<()> {
    let count = FORMS.iter().filter(|form| shape.writes(form)).count();
    let mut number: usize = 0;
    for form in FORMS {
        if shape.writes(form) {
            number = number.saturating_add(1);
            let before = if number == 1 {
                ""
            } else if number == count {
                " or "
            } else {
                ", "
            };
            write!(err, "{before}{form}")?;
        }
    }
    writeln!(err)
}

// Prints the choices that a command takes, if there are any, and ends the line.
fn print_choices<W: Write>(shape: Shape, err: &mut W) -> io::Result<()> {
    if !CHOICES.iter().any(|choice| shape.takes(choice)) {
        return writeln!(err);
    }
    write!(err, ", but")?;
    for choice in CHOICES {
        if shape.takes(choice) {
            write!(err, " {choice}")?;
        }
    }
    writeln!(err)
}

// Prints the text of an option, that it doesn't take it, and what it takes.
fn print_unknown<W: Write>(text: &str, words: &str, err: &mut W) -> io::Result<()> {
    let text = Shown(text);
    writeln!(err, "{text} {words}")
}

// Prints that no trap and no level has this name, and which do.
fn print_trap<W: Write>(name: &str, err: &mut W) -> io::Result<()> {
    let name = Shown(name);
    write!(
        err,
        "{name} is no warning; they are all, loses-data, surprises"
    )?;
    for trap in TRAPS {
        write!(err, ", {}", trap.name())?;
    }
    writeln!(err)
}

// Prints that no dialect has this name, and which do.
fn print_dialect<W: Write>(name: &str, err: &mut W) -> io::Result<()> {
    let name = Shown(name);
    write!(err, "{name} is no dialect; --like takes auto or one of")?;
    for named in dialects() {
        write!(err, " {}", named.name)?;
    }
    writeln!(err)
}

// Prints that no command has this name, and which one may be meant.
fn print_command<W: Write>(word: &str, err: &mut W) -> io::Result<()> {
    let shown = Shown(word);
    match nearest(word) {
        Some(command) => writeln!(err, "{shown} is no command; did you mean {command}?"),
        None => writeln!(err, "{shown} is no command; one of {COMMANDS}"),
    }
}

const CHOICES: [&str; 31] = [
    "--all",
    "--last",
    "--origin",
    "--default",
    "--type",
    "--null",
    "--format",
    "--color",
    "--allow",
    "--deny",
    "--fix",
    "--suggest",
    "--existing",
    "--separator",
    "--ours",
    "--theirs",
    "--lists",
    "--comments",
    "--reverse",
    "--indent-pairs",
    "--blank-lines",
    "--align",
    "--sort",
    "--check",
    "--section",
    "--dry-run",
    "--output",
    "--in-place",
    "--force",
    "--wait",
    "--verbose",
];

const NO_ENCODING: &str =
    "is no encoding; --encoding takes one of utf-8 utf-16le utf-16be latin1 windows1252";

const NO_POLICY: &str =
    "is no policy; --policy takes one of Nothing Basics BasicsUnicode BasicsUnicodeExtended Reserved \
    ReservedUnicode ReservedUnicodeExtended Everything";

const NO_LONE_LINE: &str = "is no word on lone lines; --lone-lines takes refused, keys or runs-on";

const NO_SECONDS: &str = "is no number of seconds; --wait takes one, as 10";

const NO_NUMBER: &str = "is no number of one or two digits";

const NO_SORTING: &str = "is nothing to sort; --sort takes keys, sections or both";

const NO_TYPE: &str = "is no type; --type takes bool, int, size, float, duration or path";

const NO_COLOR: &str = "is no colour; --color takes auto, always or never";

// What an option's text is called.
fn text_of(name: &str) -> &'static str {
    match name {
        "--output" => "FILE",
        "--default" => "VALUE",
        "--separator" => "TEXT",
        "--wait" => "SECONDS",
        "--format" => "FORM",
        "--color" => "WHEN",
        "--indent-pairs" | "--blank-lines" => "N",
        "--sort" => "WHAT",
        _ => "NAME",
    }
}
