//! The conflicts of a merge, left in a text in pieces: ours stands, and comments above the key tell the
//! values of both. This file knows the text by its calls, and no device.
ghost use Rattle.std.specs.Prelude.{◌≡◌, ◌++◌, ℕ, IfErr, IfOk, List, OnOk, chars, flat_map, map};
ghost use Rattle.ini.specs.Texts.{str_name, text_of};
ghost use Rattle.ini_layers.specs.Differences.{setting_change};
ghost use Rattle.ini_layers.specs.Merging.{conflicts_of, setting_conflict};
ghost use Rattle.ini_layers.specs.SourceChanges.{RefusesValueBy};
ghost use Rattle.ini_file.specs.ChangeLines.{conflict_line, escaped_part};
ghost use Rattle.ini_file.specs.LeftConflicts.{AreLeft, AreLeftUnless, IsLeft, IsPutAbove, MakesOurs};
ghost use Rattle.ini_file.specs.LeftConflicts.{RefusesAbove, RefusesOneToLeave, RefusesToLeave};
ghost use Rattle.ini_file.specs.LeftConflicts.{RefusesUnless, side_comment};

use crate::change_lines::{conflict_lines, push_parts};
use crate::ruled_merge::refused_first;
use ini_dialect::Lookup;
use ini_edit::{EditError, RefusedEdit, Source};
use ini_layers::{Change, Conflict, FlatSides, SettingValue, Side, apply_in_place_by};
use ini_text::{Error, WriteOption};
use std::alloc::{AllocError, Global};

/// Leaves both values of each conflict in a text in which theirs stands, unless a side is chosen, and answers
/// a line for each. Ours is set where it has a value; where it has none, the pair of theirs stays. Two
/// comment lines directly above the pair that counts, after those that stand there, tell what each side has.
///
/// # Errors
///
/// That of the first conflict that is refused, with its index; where memory is refused before, the index is
/// 0. Those before it are left then, so this is for pieces that are dropped.
pub fn leave_conflicts(
    alloc: Global,
    which: SettingValue,
    rule: Lookup,
    write: &WriteOption,
    side: Option<Side>,
    sides: &FlatSides,
    source: &mut Source<'_>,
) -> Result<Vec<u8>, RefusedEdit>
    ensures left { OnOk result (AreLeftUnless which rule write.now side source.old
        (conflicts_of sides.now.base sides.now.ours sides.now.theirs) source.new) }
    ensures lines { IfOk result (λ lines. lines.items
        ≡ flat_map conflict_line (conflicts_of sides.now.base sides.now.ours sides.now.theirs)) }
    ensures refused { IfErr result (RefusesUnless which rule write.now side source.old
        (conflicts_of sides.now.base sides.now.ours sides.now.theirs)) }
{
    let conflicts = match sides.conflicts(alloc) {
        Ok(conflicts) => conflicts,
        Err(refused) => return Err(refused_first(refused)),
    };
    let conflicts = conflicts.as_slice();
    let lines = match conflict_lines(alloc, conflicts) {
        Ok(lines) => lines,
        Err(AllocError) => return Err(refused_first(Error::Memory(AllocError))),
    };
    if side.is_none() {
        leave_each(alloc, which, rule, write, conflicts, source)?;
    }
    Ok(lines)
}

// Leaves one after another.
fn leave_each(
    alloc: Global,
    which: SettingValue,
    rule: Lookup,
    write: &WriteOption,
    conflicts: &[Conflict<'_>],
    source: &mut Source<'_>,
) -> Result<(), RefusedEdit>
    ensures left { OnOk result
        (AreLeft which rule write.now source.old (map setting_conflict conflicts.now) source.new) }
    ensures refused { IfErr result
        (RefusesOneToLeave which rule write.now source.old (map setting_conflict conflicts.now)) }
{
    for (index, conflict) in conflicts.iter().enumerate() {
        if let Err(refusal) = leave(alloc, which, rule, write, *conflict, source) {
            return Err(RefusedEdit { index, refusal });
        }
    }
    Ok(())
}

// Leaves one.
fn leave(
    alloc: Global,
    which: SettingValue,
    rule: Lookup,
    write: &WriteOption,
    conflict: Conflict<'_>,
    source: &mut Source<'_>,
) -> Result<(), EditError>
    ensures left { OnOk result
        (IsLeft which rule write.now (setting_conflict conflict.entry) source.old source.new) }
    ensures refused { IfErr result
        (RefusesToLeave which rule write.now (setting_conflict conflict.entry) source.old) }
{
    let change = conflict.change;
    let (ours, theirs) = (("; ours", change.new), ("; theirs", conflict.theirs));
    make_ours(alloc, which, rule, write, change, source)?;
    put_above(alloc, which, rule, write, change, ours, source)?;
    put_above(alloc, which, rule, write, change, theirs, source)?;
    Ok(())
}

// Sets the value of ours where it has one.
fn make_ours(
    alloc: Global,
    which: SettingValue,
    rule: Lookup,
    write: &WriteOption,
    change: Change<'_>,
    source: &mut Source<'_>,
) -> Result<(), EditError>
    ensures made { OnOk result
        (MakesOurs which rule write.now (setting_change change.entry) source.old source.new) }
    ensures refused { IfErr result (RefusesValueBy which rule write.now (str_name change.entry.name)
        (chars change.entry.key.now) (str_name change.entry.new) source.old) }
{
    match change.new {
        Some(_) => apply_in_place_by(alloc, which, rule, write, change, source),
        None => Ok(()),
    }
}

// Puts the comment that tells a side's value above the key's pair, after those that stand there: whether
// there is such a pair.
fn put_above(
    alloc: Global,
    which: SettingValue,
    rule: Lookup,
    write: &WriteOption,
    change: Change<'_>,
    told: (&str, Option<&str>),
    source: &mut Source<'_>,
) -> Result<bool, EditError>
    ensures put { OnOk result (IsPutAbove which rule write.now (str_name change.entry.name)
        (chars change.entry.key.now)
        (side_comment (chars told.entry.0.now) (str_name told.entry.1)) source.old source.new) }
    ensures refused { IfErr result
        (RefusesAbove which rule write.now (str_name change.entry.name) (chars change.entry.key.now)
        (side_comment (chars told.entry.0.now) (str_name told.entry.1)) source.old) }
{
    let (name, key) = (change.name, change.key);
    let (side, value) = told;
    let Some(above) = rule.comment_of_in_source(source, name, key) else {
        return Ok(false);
    };
    let Ok(comment) = comment_after(alloc, above, side, value) else {
        return Err(EditError::Text(Error::Memory(AllocError)));
    };
    rule.set_comment_in_source(alloc, write, source, name, key, comment.as_str())
}

// Comment lines, and after them what a side has.
fn comment_after(
    alloc: Global,
    above: &str,
    side: &str,
    value: Option<&str>,
) -> Result<String, AllocError>
    ensures { IfOk result (λ comment. text_of comment
        ≡ chars above.now ++ side_comment (chars side.now) (str_name value.entry)) }
{
    let (has, value) = shown(value);
    joined(alloc, above, side, has, value)
}

// Three texts as they are, and one with the basic escapes.
fn joined<'a>(
    alloc: Global,
    above: &'a str,
    side: &'a str,
    has: &'a str,
    value: &'a str,
) -> Result<String, AllocError>
    ensures { IfOk result (λ text. text_of text
        ≡ chars above.now ++ (chars side.now ++ (chars has.now ++ escaped_part value.now))) }
{
    let mut bytes = Vec::new(alloc);
    push_parts(
        &mut bytes,
        &[("", above), ("", side), ("", has), (value, "")],
    )?;
    Ok(String::from_utf8(bytes).unwrap())
}

// What is told of a value that may be there, and the value.
fn shown(value: Option<&str>) -> (&'static str, &str)
    ensures { (side : List ℕ) → side ++ (chars result.0.now ++ escaped_part result.1.now)
        ≡ side_comment side (str_name value.entry) }
{
    match value {
        Some(value) => (": ", value),
        None => (" has none", ""),
    }
}
