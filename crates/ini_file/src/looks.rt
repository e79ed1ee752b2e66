//! What bytes look like that are no UTF-8. This file knows no text.
ghost use Rattle.std.specs.Prelude.{◌≡◌};
ghost use Rattle.std.specs.List.{list_any};
ghost use Rattle.ini_file.specs.Looks.{is_control, is_low_control, is_nul, look_of, look_words};

use ini_text::has_byte_order_mark;

/// What bytes look like.
#[derive(Clone, Copy)]
pub enum Look {
    /// UTF-8, by their byte order mark.
    Marked,
    /// UTF-16 without a byte order mark.
    Utf16,
    /// Latin-1.
    Latin1,
    /// Windows-1252.
    Windows1252,
    /// None of these.
    Unknown,
}

impl Look {
    /// What is reported of bytes that are no UTF-8 and look so.
    pub fn words(self) -> &'static str
        ensures { result.now ≡ look_words self }
    {
        match self {
            Look::Marked => "this byte is no UTF-8, of which the file has the byte order mark",
            Look::Utf16 => {
                "this byte is no UTF-8; the file looks like UTF-16: use --encoding utf-16le or utf-16be"
            }
            Look::Latin1 =>
                "this byte is no UTF-8; the file looks like Latin-1: use --encoding latin1",
            Look::Windows1252 => {
                "this byte is no UTF-8; the file looks like Windows-1252: use --encoding windows1252"
            }
            Look::Unknown => "this byte is no UTF-8; --encoding names another encoding",
        }
    }
}

/// What bytes look like: UTF-8 where its byte order mark begins them; UTF-16 where one is NUL; Latin-1 where
/// none is a control character there but TAB, LF and CR; Windows-1252 where none is one of ASCII.
pub fn look_of(bytes: &[u8]) -> Look
    ensures { result ≡ look_of bytes.now }
{
    if has_byte_order_mark(bytes) {
        Look::Marked
    } else if has_nul(bytes) {
        Look::Utf16
    } else if !has_controls(bytes) {
        Look::Latin1
    } else if !has_low_controls(bytes) {
        Look::Windows1252
    } else {
        Look::Unknown
    }
}

fn has_nul(bytes: &[u8]) -> bool
    ensures { result ≡ list_any is_nul bytes.now }
{
    bytes.iter().any(|byte| *byte == 0)
}

fn has_controls(bytes: &[u8]) -> bool
    ensures { result ≡ list_any is_control bytes.now }
{
    bytes.iter().any(|byte| is_control(*byte))
}

fn has_low_controls(bytes: &[u8]) -> bool
    ensures { result ≡ list_any is_low_control bytes.now }
{
    bytes.iter().any(|byte| is_low_control(*byte))
}

fn is_control(byte: u8) -> bool
    ensures { result ≡ is_control byte }
{
    is_low_control(byte) || (0x80 <= byte && byte < 0xA0)
}

fn is_low_control(byte: u8) -> bool
    ensures { result ≡ is_low_control byte }
{
    byte < 0x20 && !(byte == b'\t' || byte == b'\n' || byte == b'\r') || byte == 0x7F
}
