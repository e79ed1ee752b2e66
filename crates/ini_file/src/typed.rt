//! What the text of a value says, in one form for each kind. This file knows no document and no device.
ghost use Rattle.std.specs.Prelude.{◌≡◌, ◌+◌, ◌++◌, ◌<◌, IfOk, OnOk};
ghost use Rattle.std.specs.Option.{option_map};
ghost use Rattle.ini_file.specs.Typed.{Appended, AreConverted, SaysBool, SaysDuration, SaysFloat};
ghost use Rattle.ini_file.specs.Typed.{SaysInteger};
ghost use Rattle.ini_file.specs.Typed.{Says, SaysBelow, SaysPath, SaysSize, is_below, seconds, six_digits};
ghost use Rattle.ini_file.specs.Order.{words_of};

use crate::manner::ValueKind;
use ini_dialect::{as_bool, as_duration, as_float, as_integer, as_size};
use std::alloc::{AllocError, Global};

/// What values say, or which of them doesn't.
#[derive(Drop)]
pub enum Converted {
    /// What each says, with its end.
    Texts(Vec<u8>),
    /// The first of them that says nothing of the kind, by its number, from 0.
    Not(usize),
}

/// What each value says, in one form for each kind, and after it a text that ends it: `true` or `false`; a
/// whole number or a number of bytes in decimal; a float as std prints it; a span of time in seconds, with
/// six digits after a point where it isn't whole; and the name of a file, in which `~` alone or before `/` at
/// the front is the home folder. Where a value says nothing of the kind it is the number of the first one.
/// Refused when out of memory alone.
pub fn convert_all(
    alloc: Global,
    kind: ValueKind,
    home: Option<&str>,
    end: &str,
    values: &[&str],
) -> Result<Converted, AllocError>
    ensures { IfOk result (AreConverted kind (option_map (λ home. home.now) home.entry) end.now
        (words_of values.now)) }
{
    let mut bytes = Vec::new(alloc);
    for (index, value) in values.iter().enumerate() {
        if !push_said(alloc, &mut bytes, kind, home, value)? {
            return Ok(Converted::Not(index));
        }
        bytes.extend_from_slice(end.as_bytes())?;
    }
    Ok(Converted::Texts(bytes))
}

// Puts what a value says last: whether it says anything of the kind.
fn push_said(
    alloc: Global,
    bytes: &mut Vec<u8>,
    kind: ValueKind,
    home: Option<&str>,
    value: &str,
) -> Result<bool, AllocError>
    ensures { IfOk result (Appended (Says kind (option_map (λ home. home.now) home.entry) value.now)
        bytes.old.items bytes.new.items) }
{
    match kind {
        ValueKind::Bool => push_bool(bytes, value),
        ValueKind::Integer => push_integer(alloc, bytes, value),
        ValueKind::Size => push_size(alloc, bytes, value),
        ValueKind::Float => push_float(alloc, bytes, value),
        ValueKind::Duration => push_duration(alloc, bytes, value),
        ValueKind::Path => push_path(bytes, home, value),
    }
}

// Puts a bool last.
fn push_bool(bytes: &mut Vec<u8>, value: &str) -> Result<bool, AllocError>
    ensures { IfOk result (Appended (SaysBool value.now) bytes.old.items bytes.new.items) }
{
    match as_bool(value) {
        Some(true) => bytes.extend_from_slice(b"true")?,
        Some(false) => bytes.extend_from_slice(b"false")?,
        None => return Ok(false),
    }
    Ok(true)
}

// Puts a whole number last.
fn push_integer(alloc: Global, bytes: &mut Vec<u8>, value: &str) -> Result<bool, AllocError>
    ensures { IfOk result (Appended (SaysInteger value.now) bytes.old.items bytes.new.items) }
{
    let Some(number) = as_integer(value) else {
        return Ok(false);
    };
    let text = format!(in alloc; "{number}")?;
    bytes.extend_from_slice(text.as_bytes())?;
    Ok(true)
}

// Puts a number of bytes last.
fn push_size(alloc: Global, bytes: &mut Vec<u8>, value: &str) -> Result<bool, AllocError>
    ensures { IfOk result (Appended (SaysSize value.now) bytes.old.items bytes.new.items) }
{
    let Some(number) = as_size(value) else {
        return Ok(false);
    };
    let text = format!(in alloc; "{number}")?;
    bytes.extend_from_slice(text.as_bytes())?;
    Ok(true)
}

// Puts a float last. How std prints it no clause says; `tests/words.sh` tests it.
fn push_float(alloc: Global, bytes: &mut Vec<u8>, value: &str) -> Result<bool, AllocError>
    ensures { IfOk result (Appended (SaysFloat value.now) bytes.old.items bytes.new.items) }
{
    let Some(number) = as_float(value) else {
        return Ok(false);
    };
    let text = format!(in alloc; "{number}")?;
    bytes.extend_from_slice(text.as_bytes())?;
    Ok(true)
}

// Puts a span of time last, in seconds.
fn push_duration(alloc: Global, bytes: &mut Vec<u8>, value: &str) -> Result<bool, AllocError>
    ensures { IfOk result (Appended (SaysDuration value.now) bytes.old.items bytes.new.items) }
{
    let Some(span) = as_duration(value) else {
        return Ok(false);
    };
    push_seconds(alloc, bytes, span.as_secs(), span.subsec_micros())?;
    Ok(true)
}

// Puts a number of seconds and microseconds last.
fn push_seconds(
    alloc: Global,
    bytes: &mut Vec<u8>,
    whole: u64,
    micros: u32,
) -> Result<(), AllocError>
    requires { micros < 1_000_000 }
    ensures { OnOk result (bytes.new.items ≡ bytes.old.items ++ seconds whole micros) }
{
    let text = format!(in alloc; "{whole}")?;
    bytes.extend_from_slice(text.as_bytes())?;
    if micros == 0 {
        return Ok(());
    }
    bytes.push(b'.')?;
    bytes.extend_from_slice(&six_digits(micros))
}

// The six digits of a number of microseconds.
fn six_digits(micros: u32) -> [u8; 6]
    requires { micros < 1_000_000 }
    ensures { result ≡ six_digits micros }
{
    [
        digit(micros / 100_000),
        digit(micros / 10_000 % 10),
        digit(micros / 1_000 % 10),
        digit(micros / 100 % 10),
        digit(micros / 10 % 10),
        digit(micros % 10),
    ]
}

// The decimal digit of a number.
fn digit(number: u32) -> u8
    requires { number < 10 }
    ensures { result ≡ 0x30 + number }
{
    b'0' + number as u8
}

// Puts the name of a file last.
fn push_path(bytes: &mut Vec<u8>, home: Option<&str>, value: &str) -> Result<bool, AllocError>
    ensures { IfOk result (Appended (SaysPath (option_map (λ home. home.now) home.entry) value.now)
        bytes.old.items bytes.new.items) }
{
    match value.as_bytes() {
        [b'~', below @ ..] => push_below_home(bytes, home, below),
        name => {
            bytes.extend_from_slice(name)?;
            Ok(true)
        }
    }
}

// Puts the home folder last, and after it what stands below it; where something else than `/` follows, or
// there is no home folder, nothing is said.
fn push_below_home(
    bytes: &mut Vec<u8>,
    home: Option<&str>,
    below: &[u8],
) -> Result<bool, AllocError>
    ensures { IfOk result (Appended (SaysBelow (option_map (λ home. home.now) home.entry) below.now)
        bytes.old.items bytes.new.items) }
{
    let Some(home) = home else {
        return Ok(false);
    };
    if !is_below(below) {
        return Ok(false);
    }
    bytes.extend_from_slice(home.as_bytes())?;
    bytes.extend_from_slice(below)?;
    Ok(true)
}

// Whether what follows `~` stands below the home folder.
fn is_below(below: &[u8]) -> bool
    ensures { result ≡ is_below below.now }
{
    match below {
        [] => true,
        [first, ..] => *first == b'/',
    }
}
