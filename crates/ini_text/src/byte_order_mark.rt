//! The byte order mark, which may stand before a text. This file knows no other character.
ghost use Rattle.std.specs.Prelude.{◌≡◌, chars};
ghost use Rattle.ini_text.specs.Parsing.ByteOrderMarks.{has_byte_order_mark, text_bytes, unmarked};

/// The byte order mark in UTF-8.
pub const BYTE_ORDER_MARK: [u8; 3] = [0xEF, 0xBB, 0xBF];

/// Whether a byte order mark is at the front of bytes.
pub fn has_byte_order_mark(bytes: &[u8]) -> bool
    ensures { result ≡ has_byte_order_mark bytes.now }
{
    bytes.starts_with(&BYTE_ORDER_MARK)
}

/// The bytes, without one byte order mark at their front if it is dropped.
pub fn text_bytes(bytes: &[u8], drop_mark: bool) -> &[u8]
    ensures { result.now ≡ text_bytes drop_mark bytes.now }
{
    if drop_mark && has_byte_order_mark(bytes) {
        return &bytes[BYTE_ORDER_MARK.len()..];
    }
    bytes
}

/// The text, without one byte order mark (U+FEFF) at its front.
pub fn without_byte_order_mark(text: &str) -> &str
    ensures { chars result.now ≡ unmarked (chars text.now) }
{
    match text.strip_prefix('\u{FEFF}') {
        Some(rest) => rest,
        None => text,
    }
}
