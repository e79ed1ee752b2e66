//! Two files that come from one, merged setting by setting, as a function of their bytes. This file knows no
//! word of the program and no device.
ghost use Rattle.std.specs.Prelude.{◌≡◌, IfErr, IfOk, MatchOption, chars};
ghost use Rattle.ini_edit.specs.Sources.{document_in};
ghost use Rattle.ini_layers.specs.Merging.{IsMergedBy, taken_by};
ghost use Rattle.ini_layers.specs.SourceChanges.{AreMadeBy, RefusesOneBy};
ghost use Rattle.ini_file.specs.Ruled.{ruled_of};
ghost use Rattle.ini_file.specs.ThreeWays.{EndsOnSides, GetsMarkWith, HasThreeWay, IsTextAfter};
ghost use Rattle.ini_file.specs.ThreeWays.{side_below, three_way_status};

use crate::bytes::{concat, text_of};
use crate::edit::gets_byte_order_mark;
use crate::left_conflicts::leave_conflicts;
use crate::merge::load;
use crate::ruled::Ruled;
use ini::{Error, Ini};
use ini_dialect::Lookup;
use ini_edit::{RefusedEdit, Source};
use ini_layers::{FlatSides, Side};
use ini_text::WriteOption;
use std::alloc::{AllocError, Global};

/// What is made of three files.
#[derive(Debug, Drop)]
pub struct ThreeWayDone {
    /// The bytes of theirs with the changes of ours.
    pub bytes: Vec<u8>,
    /// A line for each setting that both sides changed, to different values.
    pub conflicts: Vec<u8>,
}

/// How a three-way merge ended.
#[derive(Debug, Drop)]
pub enum ThreeWayEnd {
    /// What is made of the files.
    Done(ThreeWayDone),
    /// The base was refused.
    Base(Error),
    /// Ours was refused.
    Ours(Error),
    /// Theirs was refused; or memory was scarce.
    Theirs(Error),
    /// A change of ours can't be made in theirs: the one with this index among those that are taken.
    Change(RefusedEdit),
    /// A conflict can't be left there: the one with this index among the conflicts.
    Conflict(RefusedEdit),
    /// Theirs has no mark, and with the changes of ours it would get one: a key that begins with U+FEFF would
    /// come to its front.
    GetsMark,
}

/// The bytes of theirs with the changes of ours to the base, made under the rule, and a line for each
/// conflict, of which the side says whose value stands; without a side both are left. A mark (EF BB BF) at
/// the front of any file is no part of its text; that of theirs stays.
pub fn merge_sides(
    alloc: Global,
    ruled: Ruled<'_>,
    side: Option<Side>,
    base: &[u8],
    ours: &[u8],
    theirs: &[u8],
) -> ThreeWayEnd
    ensures { HasThreeWay (ruled_of ruled.entry) side base.now ours.now theirs.now result }
{
    let read = ruled.options.reading;
    let base = match load(alloc, read, base) {
        Ok(base) => base,
        Err(refused) => return ThreeWayEnd::Base(refused),
    };
    let ours = match load(alloc, read, ours) {
        Ok(ours) => ours,
        Err(refused) => return ThreeWayEnd::Ours(refused),
    };
    match text_of(theirs) {
        Ok((front, text)) => merge_into(alloc, ruled, side, (&base, &ours), front, text),
        Err(refused) => ThreeWayEnd::Theirs(refused),
    }
}

// The same of two documents, and of a text after a mark.
#[tactic(auto, using(crate::proofs::LeftValueLemmas::has_values))]
fn merge_into(
    alloc: Global,
    ruled: Ruled<'_>,
    side: Option<Side>,
    sides: (&Ini, &Ini),
    byte_order_mark: &[u8],
    text: &str,
) -> ThreeWayEnd
    ensures { EndsOnSides (ruled_of ruled.entry) side sides.entry.0.now sides.entry.1.now byte_order_mark.now
        (chars text.now) result }
{
    let (base, ours) = sides;
    let (which, below) = (ruled.which, side_below(side));
    let theirs = match Source::read(alloc, text, ruled.options.reading) {
        Ok(theirs) => theirs,
        Err(refused) => return ThreeWayEnd::Theirs(refused),
    };
    let write = match ruled.write_option(alloc) {
        Ok(write) => write,
        Err(refused) => return ThreeWayEnd::Theirs(refused),
    };
    let flat = match FlatSides::by(alloc, which, ruled.rule, base, ours, &theirs) {
        Ok(flat) => flat,
        Err(refused) => return ThreeWayEnd::Theirs(refused),
    };
    let mut new = match flat.merge_by(alloc, which, ruled.rule, &write, &theirs, below) {
        Ok(new) => new,
        Err(refused) => return ThreeWayEnd::Change(refused),
    };
    let conflicts = match leave_conflicts(alloc, which, ruled.rule, &write, side, &flat, &mut new) {
        Ok(conflicts) => conflicts,
        Err(refused) => return ThreeWayEnd::Conflict(refused),
    };
    match text_after(alloc, byte_order_mark, &new) {
        Ok(Some(bytes)) => ThreeWayEnd::Done(ThreeWayDone { bytes, conflicts }),
        Ok(None) => ThreeWayEnd::GetsMark,
        Err(AllocError) => ThreeWayEnd::Theirs(Error::Memory(AllocError)),
    }
}

/// Whose value of a conflict a merge begins with: that of theirs, in which both are left, where no side is
/// chosen.
pub fn side_below(side: Option<Side>) -> Side
    ensures { result ≡ side_below side }
{
    side.unwrap_or(Side::Theirs)
}

/// The bytes of a mark and of a text in pieces; `None` where there is no mark, and the text would get one.
/// Refused when out of memory alone.
pub(crate) fn text_after(
    alloc: Global,
    byte_order_mark: &[u8],
    source: &Source<'_>,
) -> Result<Option<Vec<u8>>, AllocError>
    ensures { IfOk result (λ bytes. MatchOption bytes (GetsMarkWith byte_order_mark.now source.now)
        (λ bytes. IsTextAfter byte_order_mark.now source.now bytes.items)) }
{
    let Ok(text) = source.to_text(alloc) else {
        return Err(AllocError);
    };
    if gets_byte_order_mark(byte_order_mark, text.as_str()) {
        return Ok(None);
    }
    match concat(alloc, byte_order_mark, text.as_str()) {
        Ok(bytes) => Ok(Some(bytes)),
        Err(_) => Err(AllocError),
    }
}

/// The exit status of a merge whose bytes were handed on: 1 where settings are in conflict.
pub fn three_way_status(done: &ThreeWayDone) -> u8
    ensures { result ≡ three_way_status done.now }
{
    if done.conflicts.is_empty() { 0 } else { 1 }
}
