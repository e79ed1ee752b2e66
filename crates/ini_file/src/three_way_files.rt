//! A three-way merge of files that are there: they are read, what is made of them is handed on, and conflicts
//! and refusals are reported. This file knows the process's streams, and no word of the program.

use crate::coding::{Coding, FileError};
use crate::conflict_places::{flat_sides, tell_places};
use crate::files::{lock_place, read_file, read_input, write_output};
use crate::merge_files::setting_of_file;
use crate::notes::note_reason;
use crate::reasons::{Help, Reason};
use crate::refusals::refuse;
use crate::run::Outcome;
use crate::side_words::ThreeWay;
use crate::target::Target;
use crate::three_way::{ThreeWayEnd, merge_sides, side_below, three_way_status};
use crate::unwritable::reason_of;
use ini::Error;
use ini_dialect::Encoding;
use ini_edit::{Edit, EditError, RefusedEdit};
use ini_layers::{Change, FlatSides};
use std::alloc::{AllocError, Global};
use std::io::Write;

// The texts of the three files, and how the last is coded, in which the changes are made.
#[derive(Drop)]
struct Sides {
    base: Vec<u8>,
    ours: Vec<u8>,
    theirs: Vec<u8>,
    coding: Coding,
}

/// Merges three files, and answers the exit status. All of them are read before anything is written, and
/// where one is refused nothing is. With conflicts the merged text is written too.
///
/// No contract says what a disk gets; `tests/program/sides.sh` tests it.
pub fn merge_three_files(rt: &HostRuntime, named: Option<Encoding>, asked: &ThreeWay<'_>) -> u8 {
    let target = Target::of_three_way(*asked);
    let _lock = match lock_place(rt, target) {
        Ok(lock) => lock,
        Err(refusal) => return refuse_file(rt, asked, target.reported(), &[], refusal),
    };
    match read_sides(rt, named, asked, target) {
        Ok(sides) => merge_read(rt, asked, &sides),
        Err((file, refusal)) => refuse_file(rt, asked, file, &[], refusal),
    }
}

// Reads the files; else the name of one that can't be read.
fn read_sides<'a>(
    rt: &HostRuntime,
    named: Option<Encoding>,
    asked: &ThreeWay<'a>,
    target: Target<'a>,
) -> Result<Sides, (&'a str, FileError)> {
    let base = match read_input(rt, named, asked.base) {
        Ok(base) => base.text,
        Err(refusal) => return Err((asked.base, refusal)),
    };
    let ours = match read_input(rt, named, asked.ours) {
        Ok(ours) => ours.text,
        Err(refusal) => return Err((asked.ours, refusal)),
    };
    match read_file(rt, named, target) {
        Ok(Some(theirs)) => Ok(Sides {
            base,
            ours,
            theirs: theirs.text,
            coding: theirs.coding,
        }),
        Ok(None) => Ok(Sides {
            base,
            ours,
            theirs: Vec::new(rt.alloc()),
            coding: Coding::of_bytes(b"", named),
        }),
        Err(refusal) => Err((asked.theirs, refusal)),
    }
}

// Merges files that were read.
fn merge_read(rt: &HostRuntime, asked: &ThreeWay<'_>, sides: &Sides) -> u8 {
    let (base, ours) = (sides.base.as_slice(), sides.ours.as_slice());
    let theirs = sides.theirs.as_slice();
    let side = asked.choices.switches.side;
    match merge_sides(rt.alloc(), asked.ruled, side, base, ours, theirs) {
        ThreeWayEnd::Done(done) => {
            let target = Target::of_three_way(*asked);
            match write_output(
                rt,
                sides.coding,
                target,
                Some(theirs),
                done.bytes.as_slice(),
            ) {
                Ok(()) => {
                    let _ = rt.stderr().write_all(done.conflicts.as_slice());
                    if !done.conflicts.is_empty() {
                        tell_places(rt, asked, base, ours, theirs);
                    }
                    three_way_status(&done)
                }
                Err(refusal) => refuse_file(rt, asked, target.reported(), &[], refusal),
            }
        }
        ThreeWayEnd::Base(refusal) => refuse_file(rt, asked, asked.base, base, refusal.into()),
        ThreeWayEnd::Ours(refusal) => refuse_file(rt, asked, asked.ours, ours, refusal.into()),
        ThreeWayEnd::Theirs(fault) => refuse_file(rt, asked, asked.theirs, theirs, fault.into()),
        ThreeWayEnd::Change(refused) => refuse_change(rt, asked, sides, false, refused),
        ThreeWayEnd::Conflict(refused) => refuse_change(rt, asked, sides, true, refused),
        ThreeWayEnd::GetsMark => {
            let outcome = Outcome::Refused(EditError::Key);
            let refused = refuse(
                rt,
                asked.ruled.options.reading,
                asked.theirs,
                theirs,
                &outcome,
            );
            note_reason(rt, Reason::ByteOrderMark, None);
            refused
        }
    }
}

// Tells what is refused of a file.
fn refuse_file(
    rt: &HostRuntime,
    asked: &ThreeWay<'_>,
    file: &str,
    input: &[u8],
    refusal: FileError,
) -> u8 {
    let outcome = Outcome::from(refusal);
    refuse(rt, asked.ruled.options.reading, file, input, &outcome)
}

// Tells that a change of ours can't be made in theirs, and why; it may be one of those in conflict.
fn refuse_change(
    rt: &HostRuntime,
    asked: &ThreeWay<'_>,
    sides: &Sides,
    is_conflict: bool,
    refused: RefusedEdit,
) -> u8 {
    let (read, theirs) = (asked.ruled.options.reading, asked.theirs);
    let RefusedEdit { index, refusal } = refused;
    let found = change_at(rt.alloc(), asked, sides, is_conflict, index, &refusal);
    let outcome = Outcome::Refused(refusal);
    let Ok((name, reason)) = found else {
        return refuse(rt, read, theirs, &[], &outcome);
    };
    let status = refuse(rt, read, name.as_str(), &[], &outcome);
    if let Some((reason, help)) = reason {
        note_reason(rt, reason, help);
    }
    status
}

// The file, and the setting that the change with this index sets there; and why it is refused.
fn change_at(
    alloc: Global,
    asked: &ThreeWay<'_>,
    sides: &Sides,
    is_conflict: bool,
    index: usize,
    refusal: &EditError,
) -> Result<(String, Option<(Reason, Option<Help>)>), Error> {
    let (base, ours) = (sides.base.as_slice(), sides.ours.as_slice());
    let flat = flat_sides(alloc, asked.ruled, base, ours, sides.theirs.as_slice())?;
    let change = refused_change(alloc, asked, &flat, is_conflict, index)?;
    let (name, key) = (change.name, change.key);
    let edit = Edit::Set {
        name,
        key,
        value: change.new.unwrap_or(""),
    };
    let reason = reason_of(Some(edit), asked.ruled.options, refusal);
    Ok((setting_of_file(alloc, asked.theirs, name, key)?, reason))
}

// The change with this index, among those in conflict or among those that are taken.
fn refused_change<'b>(
    alloc: Global,
    asked: &ThreeWay<'_>,
    sides: &'b FlatSides,
    is_conflict: bool,
    index: usize,
) -> Result<Change<'b>, Error> {
    if is_conflict {
        let conflicts = sides.conflicts(alloc)?;
        let conflict = *conflicts.get(index).ok_or(AllocError)?;
        return Ok(conflict.change);
    }
    let side = side_below(asked.choices.switches.side);
    let changes = sides.taken(alloc, side)?;
    Ok(*changes.get(index).ok_or(AllocError)?)
}
