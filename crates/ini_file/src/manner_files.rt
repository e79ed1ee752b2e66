//! Answers in a manner of their own, of a file that is there. This file knows the process's streams and
//! environment, and no word of the program.

use crate::bytes::text_of;
use crate::coding::{Coding, FileError};
use crate::diagnosis::show_place;
use crate::files::{lock_place, read_file, write_output};
use crate::manner::{AnswerForm, Manner, ValueKind};
use crate::origins::origins;
use crate::refusals::refuse;
use crate::run::{Outcome, rewrite};
use crate::shown::Shown;
use crate::target::Target;
use crate::told::{get_as_json, get_as_shell, list_as_json, list_as_shell};
use crate::typed_get::{TypedEnd, get_typed};
use crate::value_places::value_place;
use crate::words::{Command, Invocation, Question, Wanted};
use ini::Error;
use ini_dialect::Encoding;
use ini_edit::EditError;
use std::alloc::AllocError;
use std::env::{self, VarError};
use std::io::Write;

/// Answers a question in a manner of its own. A value that says nothing of the kind that is asked for is told
/// with its place and what is expected, and the status is 2. The second answer is whether a key isn't there.
///
/// No contract says what a stream gets; `tests/words.sh` tests it.
pub fn answer_in_manner(
    rt: &HostRuntime,
    named: Option<Encoding>,
    asked: Invocation<'_>,
    input: &mut Vec<u8>,
) -> (u8, bool) {
    let (target, file) = (Target::of_asked(asked), asked.file);
    let home = match home_for(rt, asked.choices.manner) {
        Ok(home) => home,
        Err(refusal) => return refuse_all(rt, asked, file, &[], refusal.into()),
    };
    let _lock = match lock_place(rt, target) {
        Ok(lock) => lock,
        Err(refusal) => return refuse_all(rt, asked, target.reported(), &[], refusal),
    };
    match read_file(rt, named, target) {
        Ok(Some(read)) => *input = read.text,
        Ok(None) => {}
        Err(refusal) => return refuse_all(rt, asked, file, &[], refusal),
    }
    let bytes = input.as_slice();
    match end_of(rt, asked, home.as_deref(), bytes) {
        TypedEnd::Done(texts) => {
            let coding = Coding::told();
            match write_output(rt, coding, target, None, texts.as_slice()) {
                Ok(()) => (0, false),
                Err(refusal) => refuse_all(rt, asked, target.reported(), bytes, refusal),
            }
        }
        TypedEnd::NotFound => (1, true),
        TypedEnd::Not(index) => {
            tell_value(rt, asked, bytes, index);
            (2, false)
        }
        TypedEnd::Refused(refusal) => refuse_all(rt, asked, file, bytes, refusal.into()),
    }
}

// What is answered of a file's bytes.
fn end_of(rt: &HostRuntime, asked: Invocation<'_>, home: Option<&str>, input: &[u8]) -> TypedEnd {
    match asked.command {
        Command::Ask(Question::Get(wanted)) => end_of_get(rt, asked, wanted, home, input),
        Command::Ask(Question::List { null }) => match listed(rt, asked, null, input) {
            Ok(lines) => TypedEnd::Done(lines),
            Err(refusal) => TypedEnd::Refused(refusal),
        },
        _ => TypedEnd::NotFound,
    }
}

// What is answered of values.
fn end_of_get(
    rt: &HostRuntime,
    asked: Invocation<'_>,
    wanted: Wanted<'_>,
    home: Option<&str>,
    input: &[u8],
) -> TypedEnd {
    let (alloc, read, manner) = (rt.alloc(), asked.options.reading, asked.choices.manner);
    match (manner.form, manner.kind) {
        (Some(AnswerForm::Json), _) => get_as_json(alloc, read, wanted, input),
        (Some(AnswerForm::Shell), _) => get_as_shell(alloc, read, wanted, input),
        (_, Some(kind)) => get_typed(alloc, read, wanted, kind, home, input),
        _ => TypedEnd::NotFound,
    }
}

// What is answered of all pairs.
fn listed(
    rt: &HostRuntime,
    asked: Invocation<'_>,
    null: bool,
    input: &[u8],
) -> Result<Vec<u8>, Error> {
    let (alloc, read) = (rt.alloc(), asked.options.reading);
    let dialect = asked.dialect;
    match asked.choices.manner.form {
        Some(AnswerForm::Json) => list_as_json(alloc, read, dialect.lookup.case, input),
        Some(AnswerForm::Shell) => list_as_shell(alloc, read, input),
        Some(AnswerForm::Ini) => {
            let (_, text) = text_of(input)?;
            match rewrite(alloc, asked.options, Some(asked.separator()), text) {
                Ok(Some(bytes)) => Ok(bytes),
                Err(EditError::Text(refusal)) => Err(refusal),
                _ => Ok(Vec::new(alloc)),
            }
        }
        _ => origins(alloc, read, asked.file, null, input),
    }
}

// Tells what is refused of a file.
fn refuse_all(
    rt: &HostRuntime,
    asked: Invocation<'_>,
    file: &str,
    input: &[u8],
    refusal: FileError,
) -> (u8, bool) {
    let read = asked.options.reading;
    let outcome = Outcome::from(refusal);
    (refuse(rt, read, file, input, &outcome), false)
}

// The home folder, where values may have one in them and the environment names one.
fn home_for(rt: &HostRuntime, manner: Manner) -> Result<Option<String>, Error> {
    if manner.kind != Some(ValueKind::Path) {
        return Ok(None);
    }
    match env::var(rt, "HOME") {
        Ok(home) => Ok(Some(home)),
        Err(VarError::OutOfMemory) => Err(Error::Memory(AllocError)),
        Err(_) => Ok(None),
    }
}

// Tells where the value of this number stands, of those that are looked up, and what is expected there; or
// that it is of the default.
fn tell_value(rt: &HostRuntime, asked: Invocation<'_>, input: &[u8], index: usize) {
    let (Command::Ask(Question::Get(wanted)), Some(kind)) = (
        asked.command,
        asked.choices.manner.kind,
    ) else {
        return;
    };
    let (words, mut err) = (expected(kind), rt.stderr());
    let text = match text_of(input) {
        Ok((_, text)) => text,
        Err(_) => "",
    };
    match value_place(rt.alloc(), text, asked.options.reading, wanted, index) {
        Some(place) => show_place(rt.alloc(), asked.file, text, place, words, &mut err),
        None => {
            let file = Shown(asked.file);
            let _ = writeln!(err, "ini_file: {file}: --default: {words}");
        }
    }
}

// What is expected of a value.
fn expected(kind: ValueKind) -> &'static str {
    match kind {
        ValueKind::Bool => "expected a bool: true, yes, on, 1, false, no, off or 0",
        ValueKind::Integer => "expected a whole number, as 8080 or 16k",
        ValueKind::Size => "expected a number of bytes, as 512 or 16k",
        ValueKind::Float => "expected a number, as 0.5",
        ValueKind::Duration => "expected a span of time, as 90, 500ms or 1h",
        ValueKind::Path => "expected a file's name; ~ is the folder of HOME, before / alone",
    }
}
