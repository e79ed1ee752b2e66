//! A text as a string of JSON. This file knows no document and no device.
ghost use Rattle.std.specs.Prelude.{◌≡◌, ◌<◌, ◌++◌, OnOk, flat_map};
ghost use Rattle.ini_file.specs.JsonStrings.{hex_digit, json_byte, json_string};

use std::alloc::AllocError;

/// Puts a text last as a string. Refused when out of memory alone.
pub fn push_json_string(bytes: &mut Vec<u8>, text: &str) -> Result<(), AllocError>
    ensures { OnOk result (bytes.new.items ≡ bytes.old.items ++ json_string text.now) }
{
    bytes.extend_from_slice(b"\"")?;
    push_json_bytes(bytes, text)?;
    bytes.extend_from_slice(b"\"")
}

// Puts the bytes of a text last, each as it stands in a string.
fn push_json_bytes(bytes: &mut Vec<u8>, text: &str) -> Result<(), AllocError>
    ensures { OnOk result (bytes.new.items ≡ bytes.old.items ++ flat_map json_byte text.now) }
{
    for byte in text.as_bytes() {
        push_json_byte(bytes, *byte)?;
    }
    Ok(())
}

/// Puts a byte of a string last. Refused when out of memory alone.
pub fn push_json_byte(bytes: &mut Vec<u8>, byte: u8) -> Result<(), AllocError>
    ensures { OnOk result (bytes.new.items ≡ bytes.old.items ++ json_byte byte) }
{
    if byte == b'"' || byte == b'\\' {
        bytes.extend_from_slice(&[b'\\', byte])
    } else if byte < 0x20 {
        let digits = [hex_digit(byte / 16), hex_digit(byte % 16)];
        bytes.extend_from_slice(&[b'\\', b'u', b'0', b'0', digits[0], digits[1]])
    } else {
        bytes.push(byte)?;
        Ok(())
    }
}

/// The hexadecimal digit of a number.
pub fn hex_digit(number: u8) -> u8
    requires { number < 16 }
    ensures { result ≡ hex_digit number }
{
    if number < 10 {
        b'0' + number
    } else {
        b'A' - 10 + number
    }
}
