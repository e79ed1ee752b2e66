//! Pairs as assignments to variables of a shell. This file knows no rule of looking up and no device.
ghost use Rattle.std.specs.Prelude.{◌≡◌, ◌++◌, OnOk, chars, flat_map, map};
ghost use Rattle.ini.specs.Texts.{str_name, str_text};
ghost use Rattle.ini_file.specs.Shells.{is_digit_among, is_digit_first, name_byte, named_bytes, quoted_byte};
ghost use Rattle.ini_file.specs.Shells.{quoted_bytes, shell_line, shell_pairs, shell_section};
ghost use Rattle.ini_file.specs.Shells.{variable, variable_of_name};

use ini::{Ini, Properties};
use std::alloc::AllocError;

/// Puts each pair of a document last, in order, as an assignment on a line.
pub fn push_shell(bytes: &mut Vec<u8>, document: &Ini) -> Result<(), AllocError>
    ensures { OnOk result (bytes.new.items ≡ bytes.old.items ++ flat_map shell_section document.now) }
{
    for (name, pairs) in document {
        push_shell_section(bytes, name, pairs)?;
    }
    Ok(())
}

// Puts the pairs of a section last.
fn push_shell_section(
    bytes: &mut Vec<u8>,
    name: Option<&str>,
    pairs: &Properties,
) -> Result<(), AllocError>
    ensures { OnOk result
        (bytes.new.items ≡ bytes.old.items ++ shell_pairs (str_name name.entry) pairs.now) }
{
    for (key, value) in pairs {
        push_shell_line(bytes, name, key, value)?;
    }
    Ok(())
}

/// Puts an assignment last for each of a key's values.
pub fn push_shell_values(
    bytes: &mut Vec<u8>,
    name: Option<&str>,
    key: &str,
    values: &[&str],
) -> Result<(), AllocError>
    ensures { OnOk result (bytes.new.items ≡ bytes.old.items
        ++ flat_map (shell_line (str_name name.entry) (chars key.now)) (map str_text values.now)) }
{
    for value in values {
        push_shell_line(bytes, name, key, value)?;
    }
    Ok(())
}

// Puts an assignment last: the variable, `=`, and the value within apostrophes.
fn push_shell_line(
    bytes: &mut Vec<u8>,
    name: Option<&str>,
    key: &str,
    value: &str,
) -> Result<(), AllocError>
    ensures { OnOk result (bytes.new.items ≡ bytes.old.items
        ++ shell_line (str_name name.entry) (chars key.now) (chars value.now)) }
{
    push_variable(bytes, name, key)?;
    bytes.extend_from_slice(b"='")?;
    push_quoted(bytes, value)?;
    bytes.extend_from_slice(b"'\n")
}

// Puts the variable of a key last.
fn push_variable(bytes: &mut Vec<u8>, name: Option<&str>, key: &str) -> Result<(), AllocError>
    ensures { OnOk result
        (bytes.new.items ≡ bytes.old.items ++ variable (str_name name.entry) (chars key.now)) }
{
    if let Some(name) = name {
        push_variable_name(bytes, name)?;
    }
    bytes.push(b'_')?;
    push_named(bytes, key)
}

// Puts what a variable has of its section's name last; a digit doesn't begin it.
fn push_variable_name(bytes: &mut Vec<u8>, name: &str) -> Result<(), AllocError>
    ensures { OnOk result (bytes.new.items ≡ bytes.old.items ++ variable_of_name (chars name.now)) }
{
    if is_digit_first(name) {
        bytes.push(b'_')?;
    }
    push_named(bytes, name)
}

// Whether a digit begins a text.
fn is_digit_first(text: &str) -> bool
    ensures { result ≡ is_digit_first (chars text.now) }
{
    is_digit_among(text.as_bytes())
}

// Whether a digit begins bytes.
fn is_digit_among(bytes: &[u8]) -> bool
    ensures { result ≡ is_digit_among bytes.now }
{
    match bytes {
        [first, ..] => first.is_ascii_digit(),
        [] => false,
    }
}

// Puts a text last, with `_` in place of each byte that is no letter and no digit of ASCII.
fn push_named(bytes: &mut Vec<u8>, text: &str) -> Result<(), AllocError>
    ensures { OnOk result (bytes.new.items ≡ bytes.old.items ++ named_bytes (chars text.now)) }
{
    for byte in text.as_bytes() {
        bytes.push(name_byte(*byte))?;
    }
    Ok(())
}

// The byte, if a variable may have it, else `_`.
fn name_byte(byte: u8) -> u8
    ensures { result ≡ name_byte byte }
{
    if byte.is_ascii_alphanumeric() {
        byte
    } else {
        b'_'
    }
}

// Puts a text last as it stands within apostrophes.
fn push_quoted(bytes: &mut Vec<u8>, text: &str) -> Result<(), AllocError>
    ensures { OnOk result (bytes.new.items ≡ bytes.old.items ++ quoted_bytes (chars text.now)) }
{
    for byte in text.as_bytes() {
        push_quoted_byte(bytes, *byte)?;
    }
    Ok(())
}

// Puts a byte last; an apostrophe ends the text, stands after a backslash, and begins it again.
fn push_quoted_byte(bytes: &mut Vec<u8>, byte: u8) -> Result<(), AllocError>
    ensures { OnOk result (bytes.new.items ≡ bytes.old.items ++ quoted_byte byte) }
{
    if byte == b'\'' {
        bytes.extend_from_slice(b"'\\''")
    } else {
        bytes.push(byte)?;
        Ok(())
    }
}
