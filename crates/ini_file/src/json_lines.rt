//! Changes as JSON objects, a line each. This file knows no text of a file and no device.
ghost use Rattle.std.specs.Prelude.{◌≡◌, ◌++◌, IfOk, OnOk, flat_map};
ghost use Rattle.ini_file.specs.JsonLines.{json_field, json_line};

use crate::json_string::push_json_string;
use ini_layers::Change;
use std::alloc::{AllocError, Global};

/// An object for each change, in order: `section`, which is null for the general section, `key`, and `old`
/// and `new`, which are null where the setting isn't there. Refused when out of memory alone.
pub fn json_lines(alloc: Global, changes: &[Change<'_>]) -> Result<Vec<u8>, AllocError>
    ensures { IfOk result (λ lines. lines.items ≡ flat_map json_line changes.now) }
{
    let mut lines = Vec::new(alloc);
    for change in changes {
        push_object(&mut lines, *change)?;
    }
    Ok(lines)
}

// Puts the object of a change last.
fn push_object(lines: &mut Vec<u8>, change: Change<'_>) -> Result<(), AllocError>
    ensures { OnOk result (lines.new.items ≡ lines.old.items ++ json_line change.entry) }
{
    push_field(lines, b"{\"section\":", change.name)?;
    push_field(lines, b",\"key\":", Some(change.key))?;
    push_field(lines, b",\"old\":", change.old)?;
    push_field(lines, b",\"new\":", change.new)?;
    lines.extend_from_slice(b"}\n")
}

// Puts the name of a field last, and its text as a string; null where there is none.
fn push_field(lines: &mut Vec<u8>, name: &[u8], text: Option<&str>) -> Result<(), AllocError>
    ensures { OnOk result (lines.new.items ≡ lines.old.items ++ json_field name.now text.entry) }
{
    lines.extend_from_slice(name)?;
    match text {
        Some(text) => push_json_string(lines, text),
        None => lines.extend_from_slice(b"null"),
    }
}
