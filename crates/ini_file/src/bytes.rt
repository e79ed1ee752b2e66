//! The text of a file's bytes, and bytes of a text. This file knows no document and no edit.
ghost use Rattle.std.specs.Prelude.{◌≡◌, ◌++◌, Err, IfErr, IfOk, IsOkUnless, OnErr, OnOk, alloc_error};
ghost use Rattle.std.specs.Str.{IsUtf8};
ghost use Rattle.ini_text.specs.Parsing.ByteOrderMarks.{has_byte_order_mark, without_byte_order_mark};
ghost use Rattle.ini_file.specs.Bytes.{byte_order_mark_of};
ghost use Rattle.ini_text.specs.declared.error.Error.TheVariants.{Memory, NotUtf8};

use ini::Error;
use ini_text::{BYTE_ORDER_MARK, has_byte_order_mark};
use std::alloc::Global;

/// The byte order mark at the front of a file's bytes, if there is one, and the text after it.
///
/// Refused as `NotUtf8` where the bytes after the mark are no UTF-8.
pub fn text_of(bytes: &[u8]) -> Result<(&[u8], &str), Error>
    ensures parts { IfOk result (λ p. (p.0.now ≡ byte_order_mark_of bytes.now)
        × (p.1.now ≡ without_byte_order_mark bytes.now)) }
    ensures not_utf8 { OnErr result (¬ (IsUtf8 (without_byte_order_mark bytes.now))) }
    ensures only { IsOkUnless result NotUtf8 }
{
    let (byte_order_mark, following) = if has_byte_order_mark(bytes) {
        bytes.split_at(BYTE_ORDER_MARK.len())
    } else {
        bytes.split_at(0)
    };
    match str::from_utf8(following) {
        Ok(text) => Ok((byte_order_mark, text)),
        Err(_) => Err(Error::NotUtf8),
    }
}

/// The bytes, and those of a text after them. Refused only when out of memory.
pub fn concat(alloc: Global, front: &[u8], text: &str) -> Result<Vec<u8>, Error>
    ensures bytes { IfOk result (λ bytes. bytes.items ≡ front.now ++ text.now) }
    ensures only { IsOkUnless result (Memory alloc_error) }
{
    let mut bytes = Vec::with_capacity(alloc, front.len().saturating_add(text.len()))?;
    bytes.extend_from_slice(front)?;
    bytes.extend_from_slice(text.as_bytes())?;
    Ok(bytes)
}
