//! A text that is streamed: of its bytes only those are kept that reading may still look at.
//! This file knows bytes, whole lines and where items end, and no reader.
ghost use Rattle.std.specs.Prelude.{◌≡◌, ◌+◌, ◌^◌, ◌<◌, ◌≤◌, length, take, drop, vec_len, alloc_error};
ghost use Rattle.std.specs.Prelude.{IfErr, IfOk, IsUtf8, OnOk, IsOkUnless, [], ◌∷◌, None};
ghost use Rattle.ini.specs.Loading.{IsNotUtf8};
ghost use Rattle.ini.specs.Inside.ReadBytes.{IsMemory, IsTextRefusal};
ghost use Rattle.ini.specs.Inside.StreamLoader.{Ends, GoesBy, HasFront};

use crate::document::Ini;
use crate::items::{push_complete_items, push_items};
use ini_text::{Error, ParseError, ParseOption, front_before, whole_lines};
use std::alloc::Global;

/// What was read of a text of which whole lines were dropped: the document so far, how many of the bytes that
/// are kept have their items in it, and the number of the lines.
#[derive(Drop)]
pub(crate) struct StreamLoader {
    document: Ini,
    front: usize,
    lines: usize,
}

impl StreamLoader {
    /// Nothing was read yet.
    pub(crate) fn new(alloc: Global) -> Result<StreamLoader, Error>
        ensures document { IfOk result (λ p. p.document ≡ (None, []) ∷ []) }
        ensures front { IfOk result (λ p. p.front ≡ 0) }
        ensures lines { IfOk result (λ p. p.lines ≡ 0) }
        ensures only { IsOkUnless result (Error.Memory alloc_error) }
    {
        Ok(StreamLoader {
            document: Ini::new(alloc)?,
            front: 0,
            lines: 0,
        })
    }

    /// Takes items that stand in the bytes whatever follows, and drops the lines before the last of them.
    pub(crate) fn take_items(
        &mut self,
        alloc: Global,
        bytes: &mut Vec<u8>,
        opt: ParseOption,
    ) -> Result<(), Error>
        requires some { 0 < length self.old.document }
        requires front { HasFront self.old bytes.old.items }
        requires countable { self.old.lines + vec_len bytes.old < 2 ^ 64 }
        ensures goes_by { OnOk result (GoesBy opt self.old self.new bytes.old.items bytes.new.items) }
        ensures only { IfErr result IsMemory }
    {
        let text = text_front(bytes.as_slice());
        let Some(rest) = text.get(self.front..) else {
            return Ok(());
        };
        let left = push_complete_items(alloc, &mut self.document, text, rest, opt)?;
        let front = front_before(text, left);
        let (whole, lines) = whole_lines(front);
        let count = whole.len();
        self.front = front.len() - count;
        self.lines += lines;
        drop_front(bytes, count);
        Ok(())
    }

    /// The document with the items of what is left of the bytes, which are the last.
    pub(crate) fn finish(self, alloc: Global, bytes: &[u8], opt: ParseOption) -> Result<Ini, Error>
        requires some { 0 < length self.document }
        requires front { HasFront self bytes.now }
        requires countable { self.lines + length bytes.now + 1 < 2 ^ 64 }
        ensures ends { Ends opt self bytes.now result }
        ensures not_utf8 { IsNotUtf8 result → ¬ (IsUtf8 bytes.now) }
        ensures only { IfErr result IsTextRefusal }
    {
        let StreamLoader {
            mut document,
            front,
            lines,
        } = self;
        let Ok(text) = str::from_utf8(bytes) else {
            return Err(Error::NotUtf8);
        };
        let (_, rest) = text.split_at(front);
        match push_items(alloc, &mut document, text, rest, opt) {
            Ok(()) => Ok(document),
            Err(Error::Parse(fault)) => Err(Error::Parse(moved_down(fault, lines))),
            Err(refused) => Err(refused),
        }
    }
}

// The lines at the front of bytes, if they are text.
fn text_front(bytes: &[u8]) -> &str
    ensures { result.now ≡ take (length result.now) bytes.now }
{
    let end = match bytes.iter().rposition(|byte| *byte == b'\n') {
        Some(last) => last + 1,
        None => 0,
    };
    str::from_utf8(&bytes[..end]).unwrap_or("")
}

// The fault, that many lines further down.
fn moved_down(fault: ParseError, lines: usize) -> ParseError
    requires { fault.line + lines < 2 ^ 64 }
    ensures line { result.line ≡ fault.line + lines }
    ensures column { result.col ≡ fault.col }
    ensures message { result.msg ≡ fault.msg }
    ensures kind { result.kind ≡ fault.kind }
{
    ParseError {
        line: fault.line + lines,
        col: fault.col,
        msg: fault.msg,
        kind: fault.kind,
    }
}

/// Drops the first bytes.
pub(crate) fn drop_front(bytes: &mut Vec<u8>, count: usize)
    requires { count ≤ vec_len bytes.old }
    ensures { bytes.new.items ≡ drop count bytes.old.items }
{
    let left = bytes.len() - count;
    bytes.copy_within(count.., 0);
    bytes.truncate(left);
}
