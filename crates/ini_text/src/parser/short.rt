//! Short pieces of a string: a run of fewer bytes than are tested together, and an escape after it. This
//! file knows escapes, and nothing of lines, keys or names.
ghost use Rattle.std.specs.Prelude.{◌≡◌, ◌∷◌, ◌≤◌, [], ℕ, false, not, true, chars, drop, length, take, IfOk, IfSome};
ghost use Rattle.std.specs.Str.{IsCharBoundary};
ghost use Rattle.ini_text.specs.Buffered.{buffered};
ghost use Rattle.ini_text.specs.Inside.Endpoints.{ends_of};
ghost use Rattle.ini_text.specs.Inside.Lanes.{is_one_of};
ghost use Rattle.ini_text.specs.Inside.Reading.{found, prepend};
ghost use Rattle.ini_text.specs.Inside.Scans.{is_raw};
ghost use Rattle.ini_text.specs.Inside.ShortPieces.{IsEscape, IsShort, Sees};
ghost use Rattle.ini_text.specs.Options.Backslashes.{Escape};
ghost use Rattle.ini_text.specs.Options.ReadOptions.{backslash_of};
ghost use Rattle.ini_text.specs.Inside.StringReader.{coded_character, string};
ghost use Rattle.ini_text.specs.Parsing.Items.{string_text};
ghost use Rattle.ini_text.specs.declared.lanes.TheConstants.{LANES};
ghost use Rattle.ini_text.specs.declared.parser.short.TheConstants.{BLOCK_LENGTH, CODE, LONGEST_ESCAPE};

use crate::buffer::{Buffer, LONGEST_CHARACTER, place_char};
use crate::lanes::{LANES, Three, marks_ahead, place_lanes};
use crate::option::ParseOption;
use crate::parser::endpoints::Endpoints;
use crate::parser::tables::{digit, letter_value};
use crate::text::push_text;
use std::alloc::AllocError;
use std::simd::prelude::*;

// How many bytes are gathered at most, so that short parts of a string are appended together.
const BLOCK_LENGTH: usize = 128;

// How many bytes the longest escape has that is read here.
const LONGEST_ESCAPE: usize = 6;

// How many digits a code has.
const CODE: usize = 4;

/// Appends the values of some short pieces at the front of a text, if escapes are read, and gives what
/// follows them.
#[inline(always)]
pub(crate) fn read_short<'a>(
    out: &mut String,
    text: &'a str,
    read: &ParseOption,
    ends: Endpoints,
) -> Result<&'a str, AllocError>
    ensures read { IfOk result (λ rest.
        prepend (string_text out.old) (string (backslash_of read.now) (ends_of read.now ends) (chars text.now))
        ≡ prepend (string_text out.new) (string (backslash_of read.now) (ends_of read.now ends) (chars rest.now))) }
    ensures shorter { IfOk result (λ rest. length (chars rest.now) ≤ length (chars text.now)) }
{
    if !read.enabled_escape || ends.contains_notes(read) {
        return Ok(text);
    }
    let mut block: Buffer<BLOCK_LENGTH> = Buffer::new();
    let rest = block.push_pieces(text, read, ends);
    let bytes = block.as_bytes();
    if bytes.is_empty() {
        return Ok(text);
    }
    match str::from_utf8(bytes) {
        Ok(values) => {
            push_text(out, values)?;
            Ok(rest)
        }
        // The values are a text, so this isn't met.
        Err(_) => Ok(text),
    }
}

impl Buffer<BLOCK_LENGTH> {
    // Puts in the values of some short pieces, and gives what follows the pieces.
    #[inline(always)]
    fn push_pieces<'a>(&mut self, text: &'a str, read: &ParseOption, ends: Endpoints) -> &'a str
        requires empty { buffered self.old ≡ [] }
        requires no_notes { (ends_of read.now ends).notes ≡ false }
        ensures read { string Escape (ends_of read.now ends) (chars text.now)
            ≡ prepend (chars (buffered self.new)) (string Escape (ends_of read.now ends) (chars result.now)) }
        ensures shorter { length (chars result.now) ≤ length (chars text.now) }
    {
        let Some(marks) = ends.marks(read) else {
            return text;
        };
        let mut len = self.len;
        let mut rest = text;
        let mut known = 0;
        'pieces: while len <= BLOCK_LENGTH - LANES - LONGEST_CHARACTER {
            let Some((run_length, value, taken, bits)) = split_short(
                rest, known, &marks, read, ends,
            ) else {
                break 'pieces;
            };
            place_lanes(&mut self.bytes, len, u8x16::from_slice(rest.as_bytes()));
            len = place_char(&mut self.bytes, len + run_length, value);
            let (_, following) = rest.split_at(run_length + taken);
            rest = following;
            known = bits >> (run_length + taken);
        }
        self.len = len;
        rest
    }
}

/// How many bytes of a run stand before an escape, what that stands for, and how many bytes it has, with the
/// bits of the bytes that end a run.
#[inline(always)]
fn split_short(
    text: &str,
    known: u64,
    marks: &Three,
    read: &ParseOption,
    ends: Endpoints,
) -> Option<(usize, char, usize, u64)>
    requires marks { (c : ℕ) → is_raw (ends_of read.now ends) c
        ≡ not (is_one_of marks.now.0 marks.now.1 marks.now.2 c) }
    requires no_notes { (ends_of read.now ends).notes ≡ false }
    requires seen { Sees (ends_of read.now ends) known text.now }
    ensures piece { IfSome result (λ p. IsShort (ends_of read.now ends) text.now p.0 p.1 p.2) }
    ensures seen { IfSome result (λ p. Sees (ends_of read.now ends) p.3 text.now) }
{
    let _ = read;
    let _ = ends;
    // So many bytes follow that a run and an escape need no test of length.
    let bits = marks_ahead(text.as_bytes(), known, LANES, marks);
    if bits == 0 {
        return None;
    }
    let run = bits.trailing_zeros() as usize;
    let (_, next) = text.split_at(run);
    let (value, taken) = split_escape(next)?;
    Some((run, value, taken, bits))
}

/// What an escape stands for that is read without a look at what follows it, and how many bytes it has.
#[inline(always)]
fn split_escape(text: &str) -> Option<(char, usize)>
    requires { LONGEST_ESCAPE ≤ length text.now }
    ensures { IfSome result (λ p. IsEscape text.now p.0 p.1) }
{
    let bytes = text.as_bytes();
    if bytes[0] != b'\\' {
        return None;
    }
    let letter = bytes[1];
    if let Some(value) = letter_value(letter) {
        return Some((value, 2));
    }
    if letter != b'x' {
        return None;
    }
    let (_, following) = text.split_at(2);
    let value = coded_value(following)?;
    Some((value, LONGEST_ESCAPE))
}

/// The character that the four characters after `\x` spell, if they are digits, and what follows them.
#[inline(always)]
pub(crate) fn split_coded(text: &str) -> Option<(char, &str)>
    ensures { IfSome result (λ p. coded_character (chars text.now) ≡ found (p.0 ∷ []) (chars p.1.now)) }
{
    if text.len() < CODE {
        return None;
    }
    let value = coded_value(text)?;
    let (_, rest) = text.split_at(CODE);
    Some((value, rest))
}

/// The character that four characters spell, if they are digits.
#[inline(always)]
fn coded_value(text: &str) -> Option<char>
    requires { CODE ≤ length text.now }
    ensures { IfSome result (λ v.
        (coded_character (chars text.now) ≡ found (v ∷ []) (chars (drop CODE text.now)))
        × IsCharBoundary text.now CODE) }
{
    let bytes = text.as_bytes();
    let (a, b, c, d) = (
        digit(bytes[0]),
        digit(bytes[1]),
        digit(bytes[2]),
        digit(bytes[3]),
    );
    if a >= 16 || b >= 16 || c >= 16 || d >= 16 {
        return None;
    }
    char::from_u32(a * 0x1000 + b * 0x100 + c * 0x10 + d)
}
