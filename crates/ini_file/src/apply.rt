//! The changes that lines tell, made in a file's text, as a function of their bytes. This file knows no word
//! of the program and no device.
ghost use Rattle.std.specs.Prelude.{◌≡◌, IfOk, chars, map, reverse};
ghost use Rattle.ini_layers.specs.Differences.{setting_change};
ghost use Rattle.ini_file.specs.Applications.{EndsOnText, HasApplication, turned, undone};
ghost use Rattle.ini_file.specs.EditLines.{change_read};
ghost use Rattle.ini_file.specs.Ruled.{ruled_of};

use crate::bytes::text_of;
use crate::edit_reading::{EditsFault, OwnedChange, read_edits};
use crate::ruled::Ruled;
use crate::three_way::text_after;
use ini::Error;
use ini_edit::{RefusedEdit, Source};
use ini_layers::{Change, apply_by};
use std::alloc::{AllocError, Global};

/// How an application ended.
#[derive(Debug, Drop)]
pub enum ApplyEnd {
    /// The file's bytes with the changes.
    Done(Vec<u8>),
    /// The bytes of the edits are no text; or memory was scarce.
    Edits(Error),
    /// The line of the edits that has this number, counted from 1, is none.
    Line(usize),
    /// The file was refused.
    File(Error),
    /// The change with this index can't be made in the file.
    Change(RefusedEdit),
    /// The file has no mark, and with the changes it would get one: a key that begins with U+FEFF would come
    /// to its front.
    GetsMark,
}

/// The file's bytes with the changes that the edits tell, of what a setting's value is, made under the rule;
/// where they are reversed, each setting gets the old value of its change, the last change first. A mark (EF BB BF) at the front of either
/// is no part of its text; that of the file stays.
pub fn apply_edits(
    alloc: Global,
    ruled: Ruled<'_>,
    is_reversed: bool,
    edits: &[u8],
    file: &[u8],
) -> ApplyEnd
    ensures { HasApplication (ruled_of ruled.entry) is_reversed edits.now file.now result }
{
    let text = match text_of(edits) {
        Ok((_, text)) => text,
        Err(refused) => return ApplyEnd::Edits(refused),
    };
    let read = match read_edits(alloc, text) {
        Ok(read) => read,
        Err(EditsFault::Line(line)) => return ApplyEnd::Line(line),
        Err(EditsFault::Memory) => return ApplyEnd::Edits(Error::Memory(AllocError)),
    };
    let Ok(changes) = changes_of(alloc, read.as_slice(), is_reversed) else {
        return ApplyEnd::Edits(Error::Memory(AllocError));
    };
    match text_of(file) {
        Ok((mark, text)) => apply_to_text(alloc, ruled, changes.as_slice(), mark, text),
        Err(refused) => ApplyEnd::File(refused),
    }
}

/// The changes that were read, lent; where they are reversed, what undoes them, the last one first.
pub fn changes_of(
    alloc: Global,
    read: &[OwnedChange],
    is_reversed: bool,
) -> Result<Vec<Change<'_>>, AllocError>
    ensures { IfOk result (λ changes. map setting_change changes.items
        ≡ turned is_reversed (map change_read read.now)) }
{
    if is_reversed {
        undoing_changes(alloc, read)
    } else {
        lent_changes(alloc, read)
    }
}

// The changes, lent.
fn lent_changes(alloc: Global, read: &[OwnedChange]) -> Result<Vec<Change<'_>>, AllocError>
    ensures { IfOk result
        (λ changes. map setting_change changes.items ≡ map change_read read.now) }
{
    let mut changes = Vec::new(alloc);
    for change in read {
        changes.push(change.lent())?;
    }
    Ok(changes)
}

// What undoes the changes, the last one first.
fn undoing_changes(alloc: Global, read: &[OwnedChange]) -> Result<Vec<Change<'_>>, AllocError>
    ensures { IfOk result (λ changes. map setting_change changes.items
        ≡ reverse (map undone (map change_read read.now))) }
{
    let mut changes = Vec::new(alloc);
    for change in read {
        changes.push(undoing(change.lent()))?;
    }
    changes.reverse();
    Ok(changes)
}

// The change that undoes another one.
fn undoing(change: Change<'_>) -> Change<'_>
    ensures { setting_change result ≡ undone (setting_change change.entry) }
{
    Change {
        name: change.name,
        key: change.key,
        old: change.new,
        new: change.old,
    }
}

// The bytes of a mark and of a text, with the changes.
fn apply_to_text(
    alloc: Global,
    ruled: Ruled<'_>,
    changes: &[Change<'_>],
    byte_order_mark: &[u8],
    text: &str,
) -> ApplyEnd
    ensures { EndsOnText (ruled_of ruled.entry) (map setting_change changes.now) byte_order_mark.now
        (chars text.now) result }
{
    let source = match Source::read(alloc, text, ruled.options.reading) {
        Ok(source) => source,
        Err(refused) => return ApplyEnd::File(refused),
    };
    let write = match ruled.write_option(alloc) {
        Ok(write) => write,
        Err(refused) => return ApplyEnd::File(refused),
    };
    let new = match apply_by(alloc, ruled.which, ruled.rule, &write, changes, &source) {
        Ok(new) => new,
        Err(refused) => return ApplyEnd::Change(refused),
    };
    match text_after(alloc, byte_order_mark, &new) {
        Ok(Some(bytes)) => ApplyEnd::Done(bytes),
        Ok(None) => ApplyEnd::GetsMark,
        Err(AllocError) => ApplyEnd::File(Error::Memory(AllocError)),
    }
}
