//! Texts on their way to a device, gathered so that many of them reach it together. This file knows
//! bytes and escapes, and no section, key or value.
ghost use Rattle.std.specs.Prelude.{◌≡◌, OnOk, [], ◌++◌, chars};
ghost use Rattle.ini_text.specs.Escaping.EscapedTexts.{escape, escaped, escaped_bytes};
ghost use Rattle.ini_text.specs.Inside.Verbatim.{marked_escaped};
ghost use Rattle.ini_text.specs.Device.Gathering.{Sends, SendsBytes};
ghost use Rattle.ini_text.specs.Device.Unsent.{unsent};
ghost use Rattle.ini_text.specs.Device.Watched.{IsClear};

use crate::buffer::Buffer;
use crate::device::Watched;
use crate::error::Error;
use crate::lanes::{Marks, run_before};
use crate::text::split_first;
use crate::write::buffer::BUFFER_SIZE;
use crate::write::escape::ESCAPE_ROOM;
use crate::write::policy::EscapePolicy;
use crate::write::verbatim::{Basics, Reserved, split_verbatim};
use crate::write::write_bytes;
use std::io::Write;

/// Buffers bytes on their way to a device, so that many short texts reach it in one call.
///
/// What is buffered goes out by `flush`, or where there is no room left; a gatherer that is dropped
/// before takes it along. It takes no memory. After an error what is buffered is unspecified, and the device
/// is called no more.
#[derive(Drop)]
pub struct Gatherer {
    buffer: Buffer<BUFFER_SIZE>,
}

impl Gatherer {
    /// Nothing is buffered.
    pub fn new() -> Gatherer
        ensures { unsent result ≡ [] }
    {
        Gatherer {
            buffer: Buffer::new(),
        }
    }

    /// Sends a text as it is.
    ///
    /// # Errors
    ///
    /// `Io` where the device answers a fault, `NoProgress` where it takes no bytes.
    pub fn put<W: Write>(&mut self, text: &str, out: &mut Watched<'_, W>) -> Result<(), Error>
        requires { IsClear out.old }
        ensures { Sends W.contents out.old out.new self.old self.new result (chars text.now) }
    {
        self.put_bytes(text.as_bytes(), out)
    }

    /// Sends a text escaped. The errors are those of `put`.
    pub fn put_escaped<W: Write>(
        &mut self,
        text: &str,
        policy: EscapePolicy,
        out: &mut Watched<'_, W>,
    ) -> Result<(), Error>
        requires { IsClear out.old }
        ensures { Sends W.contents out.old out.new self.old self.new result
            (escaped policy (chars text.now)) }
    {
        match policy {
            EscapePolicy::Basics => self.put_marked(text.as_bytes(), &Basics, out),
            EscapePolicy::Reserved => self.put_marked(text.as_bytes(), &Reserved, out),
            _ => self.put_runs(text, policy, out),
        }
    }

    /// Sends a line: two texts escaped, and after each another as it is. The errors are those of `put`.
    #[inline(always)]
    pub fn put_line<W: Write>(
        &mut self,
        first: &str,
        between: &str,
        second: &str,
        end: &str,
        policy: EscapePolicy,
        out: &mut Watched<'_, W>,
    ) -> Result<(), Error>
        requires { IsClear out.old }
        ensures { Sends W.contents out.old out.new self.old self.new result
            ((escaped policy (chars first.now) ++ chars between.now)
            ++ (escaped policy (chars second.now) ++ chars end.now)) }
    {
        if self.buffer.push_line(first, between, second, end, policy) {
            return Ok(());
        }
        self.put_part(first, between, policy, out)?;
        self.put_part(second, end, policy, out)
    }

    // Sends a text escaped, and another as it is after it.
    #[inline(never)]
    fn put_part<W: Write>(
        &mut self,
        text: &str,
        following: &str,
        policy: EscapePolicy,
        out: &mut Watched<'_, W>,
    ) -> Result<(), Error>
        requires { IsClear out.old }
        ensures { Sends W.contents out.old out.new self.old self.new result
            (escaped policy (chars text.now) ++ chars following.now) }
    {
        self.put_escaped(text, policy, out)?;
        self.put(following, out)
    }

    // Sends bytes, each that is marked as the escape of its character.
    #[inline(always)]
    fn put_marked<M: Marks, W: Write>(
        &mut self,
        bytes: &[u8],
        marks: &M,
        out: &mut Watched<'_, W>,
    ) -> Result<(), Error>
        requires { IsClear out.old }
        ensures { SendsBytes W.contents out.old out.new self.old self.new result
            (marked_escaped (M.is_marked marks.now) bytes.now) }
    {
        let rest = self.buffer.push_marked(bytes, marks);
        if rest.is_empty() {
            return Ok(());
        }
        self.put_pieces(rest, marks, out)
    }

    // The same, piece by piece.
    #[inline(never)]
    fn put_pieces<M: Marks, W: Write>(
        &mut self,
        bytes: &[u8],
        marks: &M,
        out: &mut Watched<'_, W>,
    ) -> Result<(), Error>
        requires { IsClear out.old }
        ensures { SendsBytes W.contents out.old out.new self.old self.new result
            (marked_escaped (M.is_marked marks.now) bytes.now) }
    {
        let mut rest = bytes;
        'pieces: loop {
            let (run, after) = rest.split_at(run_before(rest, marks));
            self.put_bytes(run, out)?;
            let [marked, following @ ..] = after else {
                return Ok(());
            };
            self.put_escape(char::from(*marked), out)?;
            rest = self.buffer.push_marked(following, marks);
        }
    }

    // Sends a text escaped, run by run.
    #[inline(never)]
    fn put_runs<W: Write>(
        &mut self,
        text: &str,
        policy: EscapePolicy,
        out: &mut Watched<'_, W>,
    ) -> Result<(), Error>
        requires { IsClear out.old }
        ensures { SendsBytes W.contents out.old out.new self.old self.new result
            (escaped_bytes policy text.now) }
    {
        let mut rest = text;
        'runs: loop {
            let (run, after) = split_verbatim(rest, policy);
            let Some((c, following)) = split_first(after) else {
                return self.put_bytes(run.as_bytes(), out);
            };
            if self.buffer.push_run(run, c) {
                rest = following;
                continue 'runs;
            }
            self.put_bytes(run.as_bytes(), out)?;
            self.put_escape(c, out)?;
            rest = following;
        }
    }

    /// Sends all that is buffered. The errors are those of `put`.
    pub fn flush<W: Write>(&mut self, out: &mut Watched<'_, W>) -> Result<(), Error>
        requires { IsClear out.old }
        ensures sends { Sends W.contents out.old out.new self.old self.new result [] }
        ensures empty { OnOk result (unsent self.new ≡ []) }
    {
        write_bytes(self.buffer.as_bytes(), out)?;
        self.buffer.truncate(0);
        Ok(())
    }

    // Sends bytes: they are buffered if they have room, else after what is buffered.
    fn put_bytes<W: Write>(&mut self, bytes: &[u8], out: &mut Watched<'_, W>) -> Result<(), Error>
        requires { IsClear out.old }
        ensures { SendsBytes W.contents out.old out.new self.old self.new result bytes.now }
    {
        if self.buffer.has_room(bytes.len()) {
            self.buffer.push(bytes);
            return Ok(());
        }
        self.write_large(bytes, out)
    }

    // Sends bytes after what is buffered, which goes out first. They are buffered then, or go out in a
    // call of their own where they are more than there is room for.
    #[inline(never)]
    fn write_large<W: Write>(&mut self, bytes: &[u8], out: &mut Watched<'_, W>) -> Result<(), Error>
        requires { IsClear out.old }
        ensures { SendsBytes W.contents out.old out.new self.old self.new result bytes.now }
    {
        self.flush(out)?;
        if self.buffer.has_room(bytes.len()) {
            self.buffer.push(bytes);
            return Ok(());
        }
        write_bytes(bytes, out)
    }

    // Sends the escape of a character.
    fn put_escape<W: Write>(&mut self, c: char, out: &mut Watched<'_, W>) -> Result<(), Error>
        requires { IsClear out.old }
        ensures { SendsBytes W.contents out.old out.new self.old self.new result (escape c) }
    {
        if self.buffer.has_room(ESCAPE_ROOM) {
            self.buffer.push_escape(c);
            return Ok(());
        }
        self.flush(out)?;
        self.buffer.push_escape(c);
        Ok(())
    }
}
