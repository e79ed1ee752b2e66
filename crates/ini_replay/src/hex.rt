//! Bytes and texts in hexadecimal: two lower-case digits for each byte, of a text for each byte of its
//! UTF-8.
ghost use Rattle.std.specs.Prelude.{◌<◌};

use std::alloc::{AllocError, Global};
use std::io::{self, ErrorKind};

fn digit(value: u8) -> char
    requires { value < 16 }
{
    if value < 10 {
        char::from(b'0' + value)
    } else {
        char::from(b'a' + (value - 10))
    }
}

/// Appends bytes in hexadecimal.
pub(crate) fn push_hex(line: &mut String, bytes: &[u8]) -> Result<(), AllocError> {
    for &byte in bytes {
        line.push(digit(byte / 16))?;
        line.push(digit(byte % 16))?;
    }
    Ok(())
}

fn byte(pair: &[u8]) -> Option<u8> {
    let [high, low] = pair else {
        return None;
    };
    let high = char::from(*high).to_digit(16)?;
    let low = char::from(*low).to_digit(16)?;
    u8::try_from(high * 16 + low).ok()
}

/// The text that stands in hexadecimal.
///
/// # Errors
///
/// `InvalidInput` where the digits are no bytes or the bytes no UTF-8, and refused memory.
pub(crate) fn text_of_hex(alloc: Global, digits: &str) -> io::Result<String> {
    let mut bytes = Vec::with_capacity(alloc, digits.len() / 2)?;
    for pair in digits.as_bytes().chunks(2) {
        let Some(byte) = byte(pair) else {
            return Err(ErrorKind::InvalidInput.into());
        };
        bytes.push(byte)?;
    }
    match String::from_utf8(bytes) {
        Ok(text) => Ok(text),
        Err(_) => Err(ErrorKind::InvalidInput.into()),
    }
}
