//! The dialect of a file where `--like auto` names it: the one that its name tells; else of those that
//! read it the one with the fewest warnings. This file knows the process's streams, and of the program's
//! words the file and the command.
//!
//! No contract says which it is or what is told; `tests/words.sh` tests it.

use crate::bytes::text_of;
use crate::choices::answers;
use crate::coding::FileError;
use crate::file_names::dialect_told;
use crate::files::read_input;
use crate::notes::note_dialect;
use crate::order::Sorted;
use crate::run::{Outcome, status, tell};
use crate::shown::Shown;
use ini::ParseOption;
use ini_dialect::{Dialect, Guess, NamedDialect, dialects, guesses};
use ini_text::LoneLine;
use std::io::Write;

/// The dialect in place of `auto`: that of the first file. A note tells which it is where its text decides.
///
/// # Errors
///
/// The status: 2 where a file is to be changed and dialects of which none is better differ, or where the file
/// is standard input; 4 where it can't be read, or memory was refused. What is refused is told.
pub fn dialect_of_file(rt: &HostRuntime, sorted: &Sorted<'_>) -> Result<&'static str, u8> {
    let words = sorted.others.as_slice();
    let (Some(command), Some(file)) = (words.first().copied(), words.get(1).copied()) else {
        return Ok("crate");
    };
    if let Some(name) = dialect_told(file) {
        return Ok(name);
    }
    if file == "-" {
        return Err(refuse_auto(rt, file, "--like auto reads no standard input"));
    }
    let Some(named) = sorted.encoding_asked() else {
        return Ok("crate");
    };
    // the run itself tells what is wrong with the bytes
    let bytes = match read_input(rt, named, file) {
        Ok(input) => input.text,
        Err(FileError::Coding(_)) => return Ok("crate"),
        Err(refusal) => return Err(tell_refusal(rt, file, &Outcome::from(refusal))),
    };
    let Ok((_, text)) = text_of(bytes.as_slice()) else {
        return Ok("crate");
    };
    let found = match guesses(rt.alloc(), text) {
        Ok(found) => found,
        Err(refusal) => return Err(tell_refusal(rt, file, &Outcome::from(refusal))),
    };
    let asks = is_question(command, sorted.choices.as_slice());
    dialect_of_guesses(rt, file, asks, found.as_slice())
}

// Whether the command, with its choices, changes no file.
fn is_question(command: &str, choices: &[&str]) -> bool {
    match command {
        "check" => !choices.iter().any(|choice| *choice == "--fix"),
        "diff" => true,
        _ => answers(command),
    }
}

// The best of what is guessed; an edit takes it only where no other is as good that differs.
fn dialect_of_guesses(
    rt: &HostRuntime,
    file: &str,
    asks: bool,
    found: &[Guess],
) -> Result<&'static str, u8> {
    let Some((best, others)) = found.split_first() else {
        return Ok("crate");
    };
    let Some(named) = dialects().get(best.place) else {
        return Ok("crate");
    };
    let differs = others.iter().any(|other| other.warnings == best.warnings
        && differs_at(other.place, named));
    if differs && !asks {
        let words = "several dialects read it as well; name one by --like";
        return Err(refuse_auto(rt, file, words));
    }
    note_dialect(rt, file, named.name);
    Ok(named.name)
}

// Whether the dialect at a place reads, writes or looks up otherwise than this one.
fn differs_at(place: usize, named: &NamedDialect) -> bool {
    match dialects().get(place) {
        Some(other) => differ(&other.dialect, &named.dialect),
        None => false,
    }
}

// Whether two dialects differ.
fn differ(one: &Dialect, other: &Dialect) -> bool {
    !read_alike(one.read, other.read)
        || one.lookup != other.lookup
        || one.write.escape_policy != other.write.escape_policy
        || one.write.line_separator != other.write.line_separator
        || one.write.kv_separator != other.write.kv_separator
}

// Whether options of reading are the same.
fn read_alike(one: ParseOption, other: ParseOption) -> bool {
    one.enabled_quote == other.enabled_quote
        && one.enabled_escape == other.enabled_escape
        && one.enabled_indented_mutiline_value == other.enabled_indented_mutiline_value
        && one.enabled_preserve_key_leading_whitespace
            == other.enabled_preserve_key_leading_whitespace
        && one.enabled_brackets_in_section_names == other.enabled_brackets_in_section_names
        && one.enabled_raw_backslash == other.enabled_raw_backslash
        && one.enabled_indented_comment == other.enabled_indented_comment
        && one.enabled_inline_comment == other.enabled_inline_comment
        && matches!(
            (one.line_without_separator, other.line_without_separator),
            (LoneLine::RunsOn, LoneLine::RunsOn)
                | (LoneLine::Refused, LoneLine::Refused)
                | (LoneLine::Key, LoneLine::Key)
        )
}

// Tells of a file why its dialect isn't known, and answers the status.
fn refuse_auto(rt: &HostRuntime, file: &str, words: &str) -> u8 {
    let file = Shown(file);
    let _ = writeln!(rt.stderr(), "ini_file: {file}: {words}");
    2
}

// Tells how reading a file ended, and answers the status.
fn tell_refusal(rt: &HostRuntime, file: &str, outcome: &Outcome) -> u8 {
    tell(file, outcome, &mut rt.stderr());
    status(outcome)
}
