//! What is written of changes and of conflicts, a line each. This file knows no text and no device.
ghost use Rattle.std.specs.Prelude.{◌≡◌, ◌++◌, IfOk, OnOk, chars, encode_utf8_all, flat_map, map};
ghost use Rattle.ini.specs.Texts.{str_name};
ghost use Rattle.ini_layers.specs.Differences.{setting_change};
ghost use Rattle.ini_layers.specs.Merging.{setting_conflict};
ghost use Rattle.ini_file.specs.ChangeLines.{change_line, color_of, comment_line, conflict_line};
ghost use Rattle.ini_file.specs.ChangeLines.{escaped_part, front, told, words_between};
ghost use Rattle.ini_words.specs.Prints.{part_text};

use ini::Watched;
use ini_layers::{Change, Conflict};
use ini_words::lines::{Form, write_parts};
use std::alloc::{AllocError, Global};

/// What is written of changes, in order; in colours where they are asked for: red where a setting is gone,
/// green where it is new, and else yellow. Refused when out of memory alone.
pub fn change_lines(
    alloc: Global,
    is_colored: bool,
    changes: &[Change<'_>],
) -> Result<Vec<u8>, AllocError>
    ensures { IfOk result (λ lines. lines.items
        ≡ flat_map (change_line is_colored) (map setting_change changes.now)) }
{
    let mut lines = Vec::new(alloc);
    for change in changes {
        push_change(&mut lines, is_colored, *change)?;
    }
    Ok(lines)
}

/// What is written of changes of comments, in order: of those alone that are of settings of both documents;
/// in colours where they are asked for. Refused when out of memory alone.
pub fn comment_lines(
    alloc: Global,
    is_colored: bool,
    changes: &[Change<'_>],
) -> Result<Vec<u8>, AllocError>
    ensures { IfOk result (λ lines. lines.items
        ≡ flat_map (comment_line is_colored) (map setting_change changes.now)) }
{
    let mut lines = Vec::new(alloc);
    for change in changes {
        push_comment(&mut lines, is_colored, *change)?;
    }
    Ok(lines)
}

/// What is written of conflicts, in order. Refused when out of memory alone.
pub fn conflict_lines(alloc: Global, conflicts: &[Conflict<'_>]) -> Result<Vec<u8>, AllocError>
    ensures { IfOk result
        (λ lines. lines.items ≡ flat_map conflict_line (map setting_conflict conflicts.now)) }
{
    let mut lines = Vec::new(alloc);
    for conflict in conflicts {
        push_conflict(&mut lines, *conflict)?;
    }
    Ok(lines)
}

// Puts last what is written of a change.
fn push_change(lines: &mut Vec<u8>, is_colored: bool, change: Change<'_>) -> Result<(), AllocError>
    ensures { OnOk result
        (lines.new.items ≡ lines.old.items ++ change_line is_colored (setting_change change.entry)) }
{
    if is_colored {
        push_words(lines, color_of(change), change, "\x1B[m\n")
    } else {
        push_words(lines, "", change, "\n")
    }
}

// Puts last what is written of a change of a comment.
fn push_comment(lines: &mut Vec<u8>, is_colored: bool, change: Change<'_>) -> Result<(), AllocError>
    ensures { OnOk result
        (lines.new.items ≡ lines.old.items ++ comment_line is_colored (setting_change change.entry)) }
{
    if change.old.is_none() || change.new.is_none() {
        return Ok(());
    }
    if is_colored {
        push_words(lines, "\x1B[33mcomment of ", change, "\x1B[m\n")
    } else {
        push_words(lines, "comment of ", change, "\n")
    }
}

// The control sequence that begins a change's colour.
fn color_of(change: Change<'_>) -> &'static str
    ensures { result.now ≡ color_of (str_name change.entry.old) (str_name change.entry.new) }
{
    match (change.old, change.new) {
        (Some(_), Some(_)) => "\x1B[33m",
        (Some(_), None) => "\x1B[31m",
        (None, Some(_)) => "\x1B[32m",
        (None, None) => "",
    }
}

// Puts last what is written of a change, between a front and an end.
fn push_words<'a>(
    lines: &mut Vec<u8>,
    front: &'a str,
    change: Change<'a>,
    end: &'a str,
) -> Result<(), AllocError>
    ensures { OnOk result (lines.new.items ≡ lines.old.items
        ++ words_between front.now (setting_change change.entry) end.now) }
{
    let (open, name, close) = front_of(change.name);
    let key = change.key;
    match (change.old, change.new) {
        (Some(old), Some(new)) => push_parts(
            lines,
            &[
                ("", front),
                ("", open),
                (name, close),
                (key, ": "),
                (old, " -> "),
                (new, end),
            ],
        ),
        (Some(old), None) => push_parts(
            lines,
            &[
                ("", front),
                ("", "- "),
                ("", open),
                (name, close),
                (key, ": "),
                (old, end),
            ],
        ),
        (None, Some(new)) => push_parts(
            lines,
            &[
                ("", front),
                ("", "+ "),
                ("", open),
                (name, close),
                (key, ": "),
                (new, end),
            ],
        ),
        (None, None) => Ok(()),
    }
}

// Puts last what is written of a conflict.
fn push_conflict(lines: &mut Vec<u8>, conflict: Conflict<'_>) -> Result<(), AllocError>
    ensures { OnOk result
        (lines.new.items ≡ lines.old.items ++ conflict_line (setting_conflict conflict.entry)) }
{
    let change = conflict.change;
    let (open, name, close) = front_of(change.name);
    let (has_base, base) = told(change.old);
    let (has_ours, ours) = told(change.new);
    let (has_theirs, theirs) = told(conflict.theirs);
    let parts = [
        ("", "conflict: "),
        ("", open),
        (name, close),
        (change.key, ": base"),
        ("", has_base),
        (base, ", ours"),
        ("", has_ours),
        (ours, ", theirs"),
        ("", has_theirs),
        (theirs, "\n"),
    ];
    push_parts(lines, &parts)
}

/// What stands before a key: the section's name in brackets, with what stands around it.
pub(crate) fn front_of(name: Option<&str>) -> (&'static str, &str, &'static str)
    ensures { chars result.0.now ++ (escaped_part result.1.now ++ chars result.2.now)
        ≡ front (str_name name.entry) }
{
    match name {
        Some(name) => ("[", name, "] "),
        None => ("", "", ""),
    }
}

// What is told of a value that may be there, and the value.
fn told(value: Option<&str>) -> (&'static str, &str)
    ensures { chars result.0.now ++ escaped_part result.1.now ≡ told (str_name value.entry) }
{
    match value {
        Some(value) => (" = ", value),
        None => (" has none", ""),
    }
}

/// Puts texts last in the form, and after each another as it is. Refused when out of memory alone.
pub(crate) fn push_parts_in(
    lines: &mut Vec<u8>,
    form: Form,
    parts: &[(&str, &str)],
) -> Result<(), AllocError>
    ensures { OnOk result (lines.new.items
        ≡ lines.old.items ++ encode_utf8_all (flat_map (part_text form) parts.now)) }
{
    match write_parts(parts, form, &mut Watched::new(lines)) {
        Ok(()) => Ok(()),
        // Bytes in memory are refused only when out of memory.
        Err(_) => Err(AllocError),
    }
}

/// The same with the basic escapes.
pub(crate) fn push_parts(lines: &mut Vec<u8>, parts: &[(&str, &str)]) -> Result<(), AllocError>
    ensures { OnOk result (lines.new.items
        ≡ lines.old.items ++ encode_utf8_all (flat_map (part_text Form.Escaped) parts.now)) }
{
    push_parts_in(lines, Form::Escaped, parts)
}
