//! The program: reads an INI file, and writes to standard output, or into the file's place, what its words
//! ask.
//!
//! `CommandLine` is what the words ask for, and `run` a command over one file as a function of its bytes;
//! this file hands it these, and hands on what it answers. Nothing goes out before all is known.
#![tactic(auto)]

mod apply;
mod apply_files;
mod auto;
mod beside;
mod bytes;
mod change_lines;
mod check;
mod check_files;
mod check_words;
mod choices;
mod coding;
mod command;
mod command_line;
mod commands;
mod compare;
mod compare_files;
mod conflict_places;
mod diagnosis;
mod diff;
mod edit;
mod edit_lines;
mod edit_reading;
mod fault_words;
mod file_names;
mod files;
mod fix;
mod format;
mod format_files;
mod front;
mod further;
mod hints;
mod json;
mod json_lines;
mod json_string;
mod layer_files;
mod layer_origins;
mod layers;
mod left_conflicts;
mod lines;
mod listed;
mod lock;
mod looks;
mod lookup;
mod manner;
mod manner_files;
mod merge;
mod merge_files;
mod merge_words;
mod notes;
mod order;
mod origins;
mod other_values;
mod over;
mod page;
mod pair_places;
mod reasons;
mod refusals;
mod report;
mod report_format;
mod reported;
mod rights;
mod ruled;
mod ruled_merge;
mod run;
mod sarif;
mod save;
mod settings;
mod shell;
mod shown;
mod side_words;
mod spacing;
mod spelling;
mod suggest;
mod target;
mod three_way;
mod three_way_files;
mod told;
mod typed;
mod typed_get;
mod unclosed;
mod uncomment;
mod unwritable;
mod usage_error;
mod value_list;
mod value_places;
mod words;
mod writing;

use apply_files::apply_to_file;
use auto::dialect_of_file;
use bytes::text_of;
use check_files::check_files;
use coding::Coding;
use command_line::CommandLine;
use commands::shape_of;
use compare_files::compare_files;
use files::{lock_place, print, read_file, write_output};
use format_files::format_files;
use further::FurtherEdit;
use hints::{hint, lacks_pair};
use ini::Error;
use ini_dialect::Encoding;
use ini_edit::{Edit, EditError, is_writable_value};
use ini_words::{Page, page_of, words_of};
use layer_files::layer_files;
use manner_files::answer_in_manner;
use merge_files::merge_files;
use notes::{note_hint, note_reason};
use order::{Sorted, in_order, sort};
use page::{help_of, text_of_page};
use refusals::refuse;
use run::{Outcome, run, status, tell};
use shown::Shown;
use std::alloc::AllocError;
use std::env::{self, VarError};
use std::io::Write;
use std::process::ExitCode;
use target::{Target, handed_on};
use three_way_files::merge_three_files;
use unwritable::reason_of;
use usage_error::{UsageError, tell_usage_error, usage_error_of};
use words::{Command, Invocation};

/// How a run over a file ended, and the file that it is reported of.
#[derive(Drop)]
struct End<'a> {
    outcome: Outcome,
    reported: &'a str,
}

/// Runs over a file and the process's own streams, and keeps the bytes that were read.
fn run_here<'a>(
    rt: &HostRuntime,
    named: Option<Encoding>,
    asked: Invocation<'a>,
    input: &mut Vec<u8>,
) -> End<'a> {
    let target = Target::of_asked(asked);
    let file = asked.file;
    let _lock = match lock_place(rt, target) {
        Ok(lock) => lock,
        Err(refusal) => return ended(Outcome::from(refusal), target.reported()),
    };
    let (is_there, coding) = match read_file(rt, named, target) {
        Ok(Some(read)) => {
            *input = read.text;
            (true, read.coding)
        }
        Ok(None) => (false, Coding::of_bytes(b"", named)),
        Err(refusal) => return ended(Outcome::from(refusal), file),
    };
    let outcome = run(rt.alloc(), asked, input.as_slice());
    let Some(output) = handed_on(asked, &outcome, input.as_slice()) else {
        return ended(outcome, file);
    };
    let old = is_there.then_some(input.as_slice());
    let coding = match asked.command {
        Command::Ask(_) => Coding::told(),
        _ => coding,
    };
    match write_output(rt, coding, target, old, output) {
        Ok(()) => ended(outcome, file),
        Err(refusal) => ended(Outcome::from(refusal), target.reported()),
    }
}

// A run over a file has ended so.
fn ended(outcome: Outcome, reported: &str) -> End<'_> {
    End { outcome, reported }
}

// Runs over what the words ask for, and answers the exit status.
fn run_given(rt: &HostRuntime, given: &[String]) -> u8 {
    if let Some(page) = page_of(given) {
        return print_page(rt, text_of_page(page));
    }
    match dialect_of_environment(rt) {
        Ok(named) => run_like(rt, given, named.as_deref()),
        Err(refusal) => tell_alone(rt, &Outcome::from(refusal)),
    }
}

// The same of words that may name a dialect; where they don't, this one is meant, if there is one.
fn run_like<'a>(rt: &HostRuntime, given: &'a [String], named: Option<&'a str>) -> u8 {
    let mut sorted = match sort(rt.alloc(), given) {
        Ok(sorted) => sorted,
        Err(error) => return tell_usage_error(error, &mut rt.stderr()),
    };
    sorted.like_if_none(named);
    if sorted.asks_help() {
        return print_help(rt, &sorted);
    }
    if sorted.like == Some("auto") {
        match dialect_of_file(rt, &sorted) {
            Ok(name) => sorted.like = Some(name),
            Err(refused) => return refused,
        }
    }
    match in_order(rt.alloc(), &sorted) {
        Ok(Some(words)) => run_words(rt, &sorted, words.as_slice()),
        Ok(None) => refuse_words(rt, &sorted),
        Err(refused) => tell_usage_error(UsageError::from(refused), &mut rt.stderr()),
    }
}

// The dialect that the environment names, if it names one.
fn dialect_of_environment(rt: &HostRuntime) -> Result<Option<String>, Error> {
    match env::var(rt, "INI_LIKE") {
        Ok(name) => Ok(Some(name).filter(|name| !name.is_empty())),
        Err(VarError::NotPresent) => Ok(None),
        Err(VarError::NotUnicode) => Err(Error::NotUtf8),
        Err(VarError::OutOfMemory) => Err(Error::Memory(AllocError)),
    }
}

// Prints what the program tells of itself.
fn print_page(rt: &HostRuntime, text: &str) -> u8 {
    match print(rt, text.as_bytes()) {
        Ok(()) => 0,
        Err(refusal) => tell_alone(rt, &Outcome::from(refusal)),
    }
}

// Prints the help, of a command where one is named.
fn print_help(rt: &HostRuntime, sorted: &Sorted<'_>) -> u8 {
    let Some(command) = sorted.command_of_help() else {
        return print_page(rt, text_of_page(Page::Help));
    };
    let Some(shape) = shape_of(command) else {
        return tell_usage_error(UsageError::Command(command), &mut rt.stderr());
    };
    match help_of(rt.alloc(), shape) {
        Ok(text) => print_page(rt, text.as_str()),
        Err(refused) => tell_usage_error(UsageError::from(refused), &mut rt.stderr()),
    }
}

// Runs over what words name that are in order.
fn run_words(rt: &HostRuntime, sorted: &Sorted<'_>, words: &[String]) -> u8 {
    let Some(named) = sorted.encoding_asked() else {
        return refuse_words(rt, sorted);
    };
    match CommandLine::of_words(words) {
        Some(CommandLine::Check(check)) => check_files(rt, named, &check),
        Some(CommandLine::Merge(merging)) => merge_files(rt, named, &merging),
        Some(CommandLine::Layers(call)) => layer_files(rt, named, call),
        Some(CommandLine::Diff(asked)) => compare_files(rt, named, &asked),
        Some(CommandLine::Apply(asked)) => apply_to_file(rt, named, &asked),
        Some(CommandLine::MergeThree(asked)) => merge_three_files(rt, named, &asked),
        Some(CommandLine::Format(call)) => format_files(rt, named, call),
        Some(CommandLine::Tell(asked)) => tell_manner(rt, named, asked),
        Some(CommandLine::File(asked)) => run_over_file(rt, named, asked),
        None => refuse_words(rt, sorted),
    }
}

// Runs a command over one file, and tells how that ended.
fn run_over_file(rt: &HostRuntime, named: Option<Encoding>, asked: Invocation<'_>) -> u8 {
    let mut input = Vec::new(rt.alloc());
    let End { outcome, reported } = run_here(rt, named, asked, &mut input);
    let input = input.as_slice();
    let ended = refuse_asked(rt, asked, reported, input, &outcome);
    tell_more(rt, asked, &outcome, input);
    ended
}

// Tells how a run ended; where a pair can't be made a comment, or that a pair, in words of its own.
fn refuse_asked(
    rt: &HostRuntime,
    asked: Invocation<'_>,
    reported: &str,
    input: &[u8],
    outcome: &Outcome,
) -> u8 {
    match no_place_of(asked.command) {
        Some(words) if matches!(outcome, Outcome::Refused(EditError::NoPlace)) => {
            let mut err = rt.stderr();
            let _ = writeln!(err, "ini_file: {}: {words}", Shown(reported));
            status(outcome)
        }
        _ => refuse(rt, asked.options.reading, reported, input, outcome),
    }
}

// What a command is refused with for want of a place, where it puts in no line.
fn no_place_of(command: Command<'_>) -> Option<&'static str> {
    match command {
        Command::Further(FurtherEdit::CommentOut { .. }) => Some(NO_COMMENT),
        Command::Further(FurtherEdit::Uncomment { .. }) => Some(NO_PAIR),
        _ => None,
    }
}

// Why a pair can't be made a comment.
const NO_COMMENT: &str =
    "this pair can't be made a comment: it doesn't begin its line, or ends it in CR alone";

// Why a comment can't be made a pair.
const NO_PAIR: &str =
    "this key's comment can't be made a pair: the key has one, the pair wouldn't count, or other lines \
    would be read otherwise";

// Answers a question in a manner of its own.
fn tell_manner(rt: &HostRuntime, named: Option<Encoding>, asked: Invocation<'_>) -> u8 {
    let mut input = Vec::new(rt.alloc());
    let (ended, is_missing) = answer_in_manner(rt, named, asked, &mut input);
    if is_missing {
        tell_more(rt, asked, &Outcome::NotFound, input.as_slice());
    }
    ended
}

// The longest text, in bytes, that is looked through for what may have hidden a pair.
const HINTED: usize = 0x100_0000;

// Whether a run found no pair of its key.
fn is_missing(rt: &HostRuntime, asked: Invocation<'_>, outcome: &Outcome, text: &str) -> bool {
    match outcome {
        Outcome::NotFound => true,
        Outcome::Done(output) => lacks_pair(rt.alloc(), asked, text, output.as_slice()),
        _ => false,
    }
}

// Tells why words can't be written where a run ended for their sake; or where it found no pair of a key,
// what its text has that may have hidden it.
fn tell_more(rt: &HostRuntime, asked: Invocation<'_>, outcome: &Outcome, input: &[u8]) {
    if let Outcome::Refused(refused) = outcome {
        if let Some((reason, help)) = reason_of(edit_alike(asked), asked.options, refused) {
            note_reason(rt, reason, help);
        }
        return;
    }
    let Ok((_, text)) = text_of(input) else {
        return;
    };
    if text.len() > HINTED || !is_missing(rt, asked, outcome, text) {
        return;
    }
    if let Ok(Some(warning)) = hint(rt.alloc(), text, asked.options.reading) {
        note_hint(rt, asked.file, warning);
    }
}

// The edit that is asked for, or one of the list that is refused for the same words.
fn edit_alike(asked: Invocation<'_>) -> Option<Edit<'_>> {
    match asked.command {
        Command::Further(
            FurtherEdit::DeleteAll { name, key }
            | FurtherEdit::CommentOut { name, key }
            | FurtherEdit::Uncomment { name, key },
        ) => Some(Edit::Delete { name, key }),
        Command::Further(FurtherEdit::SetAll { name, key, values }) => {
            let (options, policy) = (asked.options.reading, asked.options.escape_policy);
            let refused = values
                .iter()
                .find(|v| !is_writable_value(v.as_str(), policy, options));
            let value = refused.map_or("", |value| value.as_str());
            Some(Edit::Set { name, key, value })
        }
        Command::Further(FurtherEdit::AddSection { name }) => {
            Some(Edit::RenameSection {
                old: name,
                new: name,
            })
        }
        _ => asked.edit(),
    }
}

// Tells what is wrong with words that are none of the program's.
fn refuse_words(rt: &HostRuntime, sorted: &Sorted<'_>) -> u8 {
    match usage_error_of(sorted) {
        Some(error) => tell_usage_error(error, &mut rt.stderr()),
        None => tell_alone(rt, &Outcome::Usage),
    }
}

// Tells how a run ended that is about no file, and answers its status.
fn tell_alone(rt: &HostRuntime, outcome: &Outcome) -> u8 {
    tell("", outcome, &mut rt.stderr());
    status(outcome)
}

fn main(rt: HostRuntime) -> ExitCode {
    match words_of(&rt, rt.alloc()) {
        Ok(given) => ExitCode::from(run_given(&rt, given.as_slice())),
        Err(refusal) => ExitCode::from(tell_alone(&rt, &Outcome::from(refusal))),
    }
}
