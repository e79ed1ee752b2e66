//! Changes as lines that `apply` reads. This file knows no text of a file and no device.
ghost use Rattle.std.specs.Prelude.{◌≡◌, ◌++◌, IfOk, OnOk, chars, codes, flat_map, map};
ghost use Rattle.ini_text.specs.Escaping.EscapedTexts.{escaped};
ghost use Rattle.ini_text.specs.declared.write.policy.EscapePolicy.TheVariants.{Basics};
ghost use Rattle.ini.specs.Texts.{str_name};
ghost use Rattle.ini_layers.specs.Differences.{setting_change};
ghost use Rattle.ini_file.specs.ChangeLines.{escaped_part};
ghost use Rattle.ini_file.specs.EditLines.{edit_line, in_brackets, signed};

use crate::change_lines::push_parts;
use ini_layers::Change;
use std::alloc::{AllocError, Global};

/// A line for each change, in order, that tells all of it. Refused when out of memory alone.
pub fn edit_lines(alloc: Global, changes: &[Change<'_>]) -> Result<Vec<u8>, AllocError>
    ensures { IfOk result (λ lines. lines.items ≡ flat_map edit_line (map setting_change changes.now)) }
{
    let mut lines = Vec::new(alloc);
    for change in changes {
        push_edit(&mut lines, *change)?;
    }
    Ok(lines)
}

// Puts the line of a change last.
fn push_edit(lines: &mut Vec<u8>, change: Change<'_>) -> Result<(), AllocError>
    ensures { OnOk result (lines.new.items ≡ lines.old.items ++ edit_line (setting_change change.entry)) }
{
    let (open, name, close) = name_of(change.name);
    let (minus, old) = old_of(change.old);
    let (plus, new) = new_of(change.new);
    let parts = [
        ("", open),
        (name, close),
        (change.key, "\t"),
        ("", minus),
        (old, "\t"),
        ("", plus),
        (new, "\n"),
    ];
    push_parts(lines, &parts)
}

// What stands before a key: the section's name, with what stands around it.
fn name_of(name: Option<&str>) -> (&'static str, &str, &'static str)
    ensures { chars result.0.now ++ (escaped_part result.1.now ++ chars result.2.now)
        ≡ escaped Basics (in_brackets (str_name name.entry)) ++ codes "\t" }
{
    match name {
        Some(name) => ("[", name, "]\t"),
        None => ("", "", "\t"),
    }
}

// The sign of an old value, if there is one, and the value.
fn old_of(value: Option<&str>) -> (&'static str, &str)
    ensures { chars result.0.now ++ escaped_part result.1.now
        ≡ escaped Basics (signed 0x2D (str_name value.entry)) }
{
    match value {
        Some(value) => ("-", value),
        None => ("", ""),
    }
}

// The sign of a new value, if there is one, and the value.
fn new_of(value: Option<&str>) -> (&'static str, &str)
    ensures { chars result.0.now ++ escaped_part result.1.now
        ≡ escaped Basics (signed 0x2B (str_name value.entry)) }
{
    match value {
        Some(value) => ("+", value),
        None => ("", ""),
    }
}
