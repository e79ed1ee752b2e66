//! Bytes that are appended to a buffer, each that is marked as the escape of its character. This file knows
//! bytes and their marks, and no policy.
ghost use Rattle.std.specs.Prelude.{◌≡◌, ℕ, ◌+◌, ◌*◌, ◌++◌, ◌<◌, ◌≤◌, [], length, take};
ghost use Rattle.ini_text.specs.Buffered.{buffered};
ghost use Rattle.ini_text.specs.Inside.Verbatim.{HaveLetters, marked_escaped};
ghost use Rattle.ini_text.specs.declared.lanes.TheConstants.{HALF, LANES};
ghost use Rattle.ini_text.specs.declared.write.buffer.TheConstants.{BUFFER_SIZE};
ghost use Rattle.ini_text.specs.declared.write.escape.TheConstants.{LETTER_ROOM};

use crate::buffer::Buffer;
use crate::lanes::{HALF, LANES, Marks, has_no_mark, marks_ahead, place_lanes};
use crate::write::buffer::BUFFER_SIZE;
use crate::write::escape::{LETTER_ROOM, place_letter};
use std::simd::prelude::*;

impl Buffer<BUFFER_SIZE> {
    /// Appends bytes, each that is marked as the escape of its character, and answers those that are left:
    /// where there is no room, or at an escape by digits.
    #[inline(always)]
    pub(crate) fn push_marked<'a, M: Marks>(&mut self, bytes: &'a [u8], marks: &M) -> &'a [u8]
        ensures pushed { buffered self.new ++ marked_escaped (M.is_marked marks.now) result.now
            ≡ buffered self.old ++ marked_escaped (M.is_marked marks.now) bytes.now }
        ensures longer { length (buffered self.old) ≤ length (buffered self.new) }
        ensures shorter { length result.now ≤ length bytes.now }
        ensures grown { length (buffered self.new) + LETTER_ROOM * length result.now
            ≤ length (buffered self.old) + LETTER_ROOM * length bytes.now }
        ensures whole { HaveLetters (M.is_marked marks.now) bytes.now
            → length (buffered self.old) + LETTER_ROOM * (length bytes.now + LANES) ≤ BUFFER_SIZE
            → result.now ≡ [] }
    {
        let rest = self.push_lanes(bytes, marks);
        self.push_few(rest, marks)
    }

    // The same, sixteen bytes at a time, of which those before the first that is marked count.
    #[inline(always)]
    fn push_lanes<'a, M: Marks>(&mut self, bytes: &'a [u8], marks: &M) -> &'a [u8]
        ensures pushed { buffered self.new ++ marked_escaped (M.is_marked marks.now) result.now
            ≡ buffered self.old ++ marked_escaped (M.is_marked marks.now) bytes.now }
        ensures longer { length (buffered self.old) ≤ length (buffered self.new) }
        ensures shorter { length result.now ≤ length bytes.now }
        ensures grown { length (buffered self.new) + LETTER_ROOM * length result.now
            ≤ length (buffered self.old) + LETTER_ROOM * length bytes.now }
        ensures few { HaveLetters (M.is_marked marks.now) bytes.now
            → length (buffered self.old) + LETTER_ROOM * (length bytes.now + LANES) ≤ BUFFER_SIZE
            → length result.now < LANES }
        ensures letters { HaveLetters (M.is_marked marks.now) bytes.now
            → HaveLetters (M.is_marked marks.now) result.now }
    {
        let mut rest = bytes;
        let mut len = self.len;
        let mut known = 0;
        'lanes: while rest.len() >= LANES && len <= BUFFER_SIZE - LANES - LETTER_ROOM {
            known = marks_ahead(rest, known, 0, marks);
            place_lanes(&mut self.bytes, len, u8x16::from_slice(rest));
            if known == 0 {
                len += LANES;
                rest = &rest[LANES..];
                continue 'lanes;
            }
            let run = known.trailing_zeros() as usize;
            let Some(end) = place_letter(&mut self.bytes, len + run, char::from(rest[run])) else {
                break 'lanes;
            };
            len = end;
            rest = &rest[run + 1..];
            known >>= run + 1;
        }
        self.len = len;
        rest
    }

    // The same of fewer bytes than sixteen.
    #[inline(always)]
    fn push_few<'a, M: Marks>(&mut self, bytes: &'a [u8], marks: &M) -> &'a [u8]
        ensures pushed { buffered self.new ++ marked_escaped (M.is_marked marks.now) result.now
            ≡ buffered self.old ++ marked_escaped (M.is_marked marks.now) bytes.now }
        ensures longer { length (buffered self.old) ≤ length (buffered self.new) }
        ensures shorter { length result.now ≤ length bytes.now }
        ensures grown { length (buffered self.new) + LETTER_ROOM * length result.now
            ≤ length (buffered self.old) + LETTER_ROOM * length bytes.now }
        ensures whole { HaveLetters (M.is_marked marks.now) bytes.now → length bytes.now < LANES
            → length (buffered self.old) + LETTER_ROOM * LANES ≤ BUFFER_SIZE → result.now ≡ [] }
    {
        if bytes.len() >= LANES || self.len > BUFFER_SIZE - LETTER_ROOM * LANES {
            return bytes;
        }
        if has_no_mark(bytes, marks) {
            place_few(&mut self.bytes, self.len, bytes);
            self.len += bytes.len();
            return &bytes[bytes.len()..];
        }
        let mut rest = bytes;
        let mut len = self.len;
        'few: while let [byte, following @ ..] = rest {
            if marks.contains(*byte) {
                let Some(end) = place_letter(&mut self.bytes, len, char::from(*byte)) else {
                    break 'few;
                };
                len = end;
            } else {
                self.bytes[len] = *byte;
                len += 1;
            }
            rest = following;
        }
        self.len = len;
        rest
    }
}

// Puts eight to sixteen bytes after the first `len`: their first eight, and their last.
#[inline(always)]
fn place_few(bytes: &mut [u8; BUFFER_SIZE], len: usize, few: &[u8])
    requires long { HALF ≤ length few.now }
    requires within { length few.now ≤ LANES }
    requires room { len + LANES ≤ BUFFER_SIZE }
    ensures { take (len + length few.now) bytes.new ≡ take len bytes.old ++ few.now }
{
    let back = few.len() - HALF;
    place_half(bytes, len, u8x8::from_slice(few));
    place_half(bytes, len + back, u8x8::from_slice(&few[back..]));
}

// Puts eight bytes after the first `len`.
#[inline(always)]
fn place_half(bytes: &mut [u8], len: usize, half: u8x8)
    requires { len + HALF ≤ length bytes.old }
    ensures placed { (n : ℕ) → n ≤ HALF → take (len + n) bytes.new ≡ take len bytes.old ++ take n half }
    ensures length { length bytes.new ≡ length bytes.old }
{
    half.copy_to_slice(&mut bytes[len..]);
}
