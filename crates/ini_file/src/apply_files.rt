//! Edits applied to a file that is there: both are read, what they make is handed on, and what is refused is
//! reported. This file knows the process's streams, and no word of the program.

use crate::apply::{ApplyEnd, apply_edits, changes_of};
use crate::bytes::text_of;
use crate::coding::{Coding, FileError};
use crate::edit_reading::read_edits;
use crate::files::{lock_place, read_file, read_input, write_output};
use crate::merge_files::setting_of_file;
use crate::notes::note_reason;
use crate::reasons::{Help, Reason};
use crate::refusals::refuse;
use crate::run::Outcome;
use crate::shown::Shown;
use crate::side_words::Application;
use crate::target::Target;
use crate::unwritable::reason_of;
use ini::Error;
use ini_dialect::Encoding;
use ini_edit::{Edit, EditError, RefusedEdit};
use std::alloc::{AllocError, Global};
use std::io::Write;

/// Applies edits to a file, and answers the exit status. Both are read before anything is written, and where
/// one is refused nothing is. A file that isn't there is made. Edits are in UTF-8, as `diff` tells them,
/// where no byte order mark tells otherwise.
///
/// No contract says what a disk gets; `tests/program/apply.sh` tests it.
pub fn apply_to_file(rt: &HostRuntime, named: Option<Encoding>, asked: &Application<'_>) -> u8 {
    let edits = match read_input(rt, None, asked.edits) {
        Ok(edits) => edits.text,
        Err(refusal) => return refuse_file(rt, asked, asked.edits, &[], refusal),
    };
    let target = Target::of_application(*asked);
    let _lock = match lock_place(rt, target) {
        Ok(lock) => lock,
        Err(refusal) => return refuse_file(rt, asked, target.reported(), &[], refusal),
    };
    let edits = edits.as_slice();
    match read_file(rt, named, target) {
        Ok(Some(file)) => apply_read(rt, file.coding, asked, edits, Some(file.text.as_slice())),
        Ok(None) => apply_read(rt, Coding::of_bytes(b"", named), asked, edits, None),
        Err(refusal) => refuse_file(rt, asked, asked.file, &[], refusal),
    }
}

// Applies edits that were read to a file of which nothing was read where it isn't there.
fn apply_read(
    rt: &HostRuntime,
    coding: Coding,
    asked: &Application<'_>,
    edits: &[u8],
    old: Option<&[u8]>,
) -> u8 {
    let file = old.unwrap_or(&[]);
    let is_reversed = asked.choices.switches.reverse;
    match apply_edits(rt.alloc(), asked.ruled, is_reversed, edits, file) {
        ApplyEnd::Done(bytes) => {
            let target = Target::of_application(*asked);
            match write_output(rt, coding, target, old, bytes.as_slice()) {
                Ok(()) => 0,
                Err(refusal) => refuse_file(rt, asked, target.reported(), &[], refusal),
            }
        }
        ApplyEnd::Edits(refusal) => refuse_file(rt, asked, asked.edits, edits, refusal.into()),
        ApplyEnd::Line(line) => refuse_line(rt, asked.edits, line),
        ApplyEnd::File(refusal) => refuse_file(rt, asked, asked.file, file, refusal.into()),
        ApplyEnd::Change(refused) => refuse_change(rt, asked, edits, refused),
        ApplyEnd::GetsMark => {
            let outcome = Outcome::Refused(EditError::Key);
            let status = refuse(rt, asked.ruled.options.reading, asked.file, file, &outcome);
            note_reason(rt, Reason::ByteOrderMark, None);
            status
        }
    }
}

// Tells what is refused of a file.
fn refuse_file(
    rt: &HostRuntime,
    asked: &Application<'_>,
    file: &str,
    input: &[u8],
    refusal: FileError,
) -> u8 {
    let outcome = Outcome::from(refusal);
    refuse(rt, asked.ruled.options.reading, file, input, &outcome)
}

// Tells that a line is no edit, and what one is.
fn refuse_line(rt: &HostRuntime, edits: &str, line: usize) -> u8 {
    let edits = Shown(edits);
    let _ = writeln!(
        rt.stderr(),
        "{edits}:{line}: this line is no edit\n\
         note: an edit is [section], key, -old and +new, with a tab between, as diff --format edits writes it"
    );
    3
}

// Tells that a change can't be made, and why.
fn refuse_change(
    rt: &HostRuntime,
    asked: &Application<'_>,
    edits: &[u8],
    refused: RefusedEdit,
) -> u8 {
    let (read, file) = (asked.ruled.options.reading, asked.file);
    let RefusedEdit { index, refusal } = refused;
    let found = change_at(rt.alloc(), asked, edits, index, &refusal);
    let outcome = Outcome::Refused(refusal);
    let Ok((name, reason)) = found else {
        return refuse(rt, read, file, &[], &outcome);
    };
    let status = refuse(rt, read, name.as_str(), &[], &outcome);
    if let Some((reason, help)) = reason {
        note_reason(rt, reason, help);
    }
    status
}

// The file, and the setting that the change with this index sets there; and why it is refused.
fn change_at(
    alloc: Global,
    asked: &Application<'_>,
    edits: &[u8],
    index: usize,
    refusal: &EditError,
) -> Result<(String, Option<(Reason, Option<Help>)>), Error> {
    let (_, text) = text_of(edits)?;
    let Ok(read) = read_edits(alloc, text) else {
        return Err(Error::Memory(AllocError));
    };
    let changes = changes_of(alloc, read.as_slice(), asked.choices.switches.reverse)?;
    let change = *changes.get(index).ok_or(AllocError)?;
    let (name, key) = (change.name, change.key);
    let edit = Edit::Set {
        name,
        key,
        value: change.new.unwrap_or(""),
    };
    let reason = reason_of(Some(edit), asked.ruled.options, refusal);
    Ok((setting_of_file(alloc, asked.file, name, key)?, reason))
}
