//! Texts that are put into a buffer on their way to a device. This file knows bytes and escapes, and no
//! device.
ghost use Rattle.std.specs.Prelude.{◌≡◌, true, false, ◌+◌, ◌*◌, ◌≤◌, ◌↔◌, if◌then◌else◌};
ghost use Rattle.std.specs.Prelude.{[], ◌++◌, length, All, IsTrue};
ghost use Rattle.ini_text.specs.Buffered.{IsFront, buffered};
ghost use Rattle.ini_text.specs.Escaping.EscapedTexts.{escape, escaped_bytes};
ghost use Rattle.ini_text.specs.Inside.Verbatim.{HaveShortEscapes, begins_escaped};
ghost use Rattle.ini_text.specs.declared.lanes.TheConstants.{LANES};
ghost use Rattle.ini_text.specs.declared.write.buffer.TheConstants.{BUFFER_SIZE};
ghost use Rattle.ini_text.specs.declared.write.escape.TheConstants.{ESCAPE_ROOM, LETTER_ROOM};

use crate::buffer::Buffer;
use crate::write::escape::{ESCAPE_ROOM, place_escape};
use crate::write::policy::EscapePolicy;
use crate::write::verbatim::{Basics, Reserved, is_verbatim};

mod marked;

/// How many bytes are buffered at most.
pub(crate) const BUFFER_SIZE: usize = 16384;

impl Buffer<BUFFER_SIZE> {
    /// Appends the escape of a character.
    pub(crate) fn push_escape(&mut self, c: char)
        requires { length (buffered self.old) + ESCAPE_ROOM ≤ BUFFER_SIZE }
        ensures { buffered self.new ≡ buffered self.old ++ escape c }
    {
        self.len = place_escape(&mut self.bytes, self.len, c);
    }

    /// Appends two texts escaped, and after each another as it is, or nothing: where there is no room, at
    /// an escape by digits, and at any escape by a policy that is neither `Basics` nor `Reserved`.
    #[inline(never)]
    pub(crate) fn push_line(
        &mut self,
        first: &str,
        between: &str,
        second: &str,
        end: &str,
        policy: EscapePolicy,
    ) -> bool
        ensures pushed { buffered self.new ≡ buffered self.old ++ (if result
            then (escaped_bytes policy first.now ++ between.now)
            ++ (escaped_bytes policy second.now ++ end.now)
            else []) }
        ensures whole { HaveShortEscapes policy first.now → HaveShortEscapes policy second.now
            → length (buffered self.old) + (LETTER_ROOM * (length first.now + length second.now + LANES)
            + length between.now + length end.now) ≤ BUFFER_SIZE → result ≡ true }
    {
        let len = self.len();
        if self.push_part(first, between, policy) && self.push_part(second, end, policy) {
            return true;
        }
        self.truncate(len);
        false
    }

    // Appends a text escaped, and another as it is after it, or a front of the two.
    #[inline(always)]
    fn push_part(&mut self, text: &str, following: &str, policy: EscapePolicy) -> bool
        ensures all { result ≡ true → buffered self.new
            ≡ buffered self.old ++ (escaped_bytes policy text.now ++ following.now) }
        ensures front { IsFront (buffered self.old) (buffered self.new) }
        ensures grown { length (buffered self.new)
            ≤ length (buffered self.old) + (LETTER_ROOM * length text.now + length following.now) }
        ensures whole { HaveShortEscapes policy text.now → length (buffered self.old)
            + (LETTER_ROOM * (length text.now + LANES) + length following.now) ≤ BUFFER_SIZE → result ≡ true }
    {
        if !self.push_text(text, policy) || !self.has_room(following.len()) {
            return false;
        }
        self.push(following.as_bytes());
        true
    }

    // Appends a text escaped, or a front of it.
    #[inline(always)]
    fn push_text(&mut self, text: &str, policy: EscapePolicy) -> bool
        ensures all { result ≡ true → buffered self.new
            ≡ buffered self.old ++ escaped_bytes policy text.now }
        ensures front { IsFront (buffered self.old) (buffered self.new) }
        ensures grown { length (buffered self.new)
            ≤ length (buffered self.old) + LETTER_ROOM * length text.now }
        ensures whole { HaveShortEscapes policy text.now
            → length (buffered self.old) + LETTER_ROOM * (length text.now + LANES) ≤ BUFFER_SIZE
            → result ≡ true }
    {
        if !self.has_room(text.len()) {
            return false;
        }
        match policy {
            EscapePolicy::Basics => self.push_marked(text.as_bytes(), &Basics).is_empty(),
            EscapePolicy::Reserved => self.push_marked(text.as_bytes(), &Reserved).is_empty(),
            _ => self.push_verbatim(text, policy),
        }
    }

    // Appends a text if no character of it is escaped.
    #[inline(always)]
    fn push_verbatim(&mut self, text: &str, policy: EscapePolicy) -> bool
        requires { length (buffered self.old) + length text.now ≤ BUFFER_SIZE }
        ensures pushed { buffered self.new
            ≡ buffered self.old ++ (if result then escaped_bytes policy text.now else []) }
        ensures grown { length (buffered self.new) ≤ length (buffered self.old) + length text.now }
        ensures whole { All (λ byte. begins_escaped policy byte ≡ false) text.now → result ≡ true }
    {
        if !is_verbatim(text, policy) {
            return false;
        }
        self.push(text.as_bytes());
        true
    }

    /// Appends a run and the escape of the character after it, if there is room.
    #[inline(always)]
    pub(crate) fn push_run(&mut self, run: &str, c: char) -> bool
        ensures pushed { buffered self.new
            ≡ buffered self.old ++ (if result then run.now ++ escape c else []) }
        ensures room { IsTrue result
            ↔ (length (buffered self.old) + (length run.now + ESCAPE_ROOM) ≤ BUFFER_SIZE) }
    {
        if run.len() > BUFFER_SIZE - ESCAPE_ROOM || !self.has_room(run.len() + ESCAPE_ROOM) {
            return false;
        }
        self.push(run.as_bytes());
        self.push_escape(c);
        true
    }
}
