//! The layout of files that are there, and the check of it: what is refused is reported. This file knows the
//! process's streams, and no word of the program.

use crate::coding::{Coding, FileError};
use crate::files::{Input, lock_place, read_file, write_output};
use crate::format::{formatted, status_of_format};
use crate::front::Call;
use crate::notes::{note, note_reason};
use crate::reasons::Reason;
use crate::refusals::refuse;
use crate::run::Outcome;
use crate::target::Target;
use ini::ParseOption;
use ini_dialect::Encoding;
use ini_edit::{EditError, Loss};

/// Lays each file out, in order, or tells with `--check` which isn't laid out so. The answer is the largest
/// of the files' statuses.
///
/// No contract says what a stream or a file gets; `tests/files.sh` tests it. With `--check` no file is
/// written.
pub fn format_files(rt: &HostRuntime, named: Option<Encoding>, call: Call<'_>) -> u8 {
    let mut worst = 0;
    for file in call.words {
        let found = format_one(rt, named, call, file.as_str());
        worst = worst.max(found);
    }
    worst
}

// Lays a file out, and answers its status; a refusal is told.
fn format_one(rt: &HostRuntime, named: Option<Encoding>, call: Call<'_>, file: &str) -> u8 {
    let (target, read) = (Target::of_format(call, file), call.options.reading);
    let _lock = match lock_place(rt, target) {
        Ok(lock) => lock,
        Err(refusal) => return refuse(rt, read, target.reported(), &[], &Outcome::from(refusal)),
    };
    let (text, coding) = match read_file(rt, named, target) {
        Ok(Some(Input { text, coding })) => (text, coding),
        Ok(None) => (Vec::new(rt.alloc()), Coding::of_bytes(b"", named)),
        Err(refusal) => return refuse(rt, read, file, &[], &Outcome::from(refusal)),
    };
    let old = text.as_slice();
    let made = formatted(rt.alloc(), read, call.choices, old);
    let made = match made {
        Ok(made) => made,
        Err(refused) => return refuse_format(rt, read, file, old, refused),
    };
    if let Some(loss) = made.loss {
        note(rt, file, words_of(loss), None);
    }
    let new = made.bytes.as_slice();
    match hand_on(rt, coding, target, old, new) {
        Ok(()) => status_of_format(target.switches.check, old, new),
        Err(refusal) => refuse(rt, read, target.reported(), old, &Outcome::from(refusal)),
    }
}

// Tells that a file isn't laid out, and why where the separator is refused; and answers the status.
fn refuse_format(
    rt: &HostRuntime,
    read: ParseOption,
    file: &str,
    old: &[u8],
    refused: EditError,
) -> u8 {
    let is_of_separator = matches!(refused, EditError::Separator);
    let status = refuse(rt, read, file, old, &Outcome::Refused(refused));
    if is_of_separator {
        note_reason(rt, Reason::NoSeparator, None);
    }
    status
}

// Why a file is left as it is.
fn words_of(loss: Loss) -> &'static str {
    match loss {
        Loss::Unreadable => "it is left as it is: laid out it couldn't be read",
        Loss::Different => "it is left as it is: laid out it would say something else",
        Loss::Unsteady => "it is left as it is: laid out it would be laid out anew",
    }
}

// Writes what was made of a file, or shows its change; a check tells whether there is one.
fn hand_on(
    rt: &HostRuntime,
    coding: Coding,
    target: Target<'_>,
    old: &[u8],
    new: &[u8],
) -> Result<(), FileError> {
    let switches = target.switches;
    if switches.check && old != new {
        note(rt, target.file, "it isn't laid out so", None);
    }
    if switches.check && !switches.dry_run {
        return Ok(());
    }
    write_output(rt, coding, target, Some(old), new)
}
