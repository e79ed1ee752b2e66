//! The escape of a character, appended to bytes that are there. This file knows one character, and no
//! device.
ghost use Rattle.std.specs.Prelude.{◌≡◌, ◌+◌, ◌/◌, ◌%◌, ◌<◌, ◌≤◌, ◌++◌, IfSome, None, length, take};
ghost use Rattle.std.specs.Char.{digit_char};
ghost use Rattle.ini_text.specs.Escaping.EscapedTexts.{escape, escape_by, letter_of};
ghost use Rattle.ini_text.specs.declared.write.escape.TheConstants.{LETTER_ROOM, ESCAPE_ROOM};

use crate::buffer::place;

/// How long an escape is at most: a backslash, `x` and six digits.
pub(crate) const ESCAPE_ROOM: usize = 8;

/// How long an escape by a letter is.
pub(crate) const LETTER_ROOM: usize = 2;

// What follows the backslash for each character of ASCII, or 0 where one character isn't enough.
static LETTERS: [u8; 128] = *b"\
    0\0\0\0\0\0\0abtnvfr\0\0\0\0\0\0\0\0\0\0\0\0\0\0\0\0\0\0\
    \0\0\0#\0\0\0\0\0\0\0\0\0\0\0\0\0\0\0\0\0\0\0\0\0\0:;\0=\0\0\
    \0\0\0\0\0\0\0\0\0\0\0\0\0\0\0\0\0\0\0\0\0\0\0\0\0\0\0\0\\\0\0\0\
    \0\0\0\0\0\0\0\0\0\0\0\0\0\0\0\0\0\0\0\0\0\0\0\0\0\0\0\0\0\0\0\0";

/// Puts the escape of a character after the first `len` bytes, and answers how many there are then.
#[inline(always)]
#[tactic(auto, unfolding(crate::specs::Escaping::EscapedTexts::escape))]
pub(crate) fn place_escape(bytes: &mut [u8], len: usize, c: char) -> usize
    requires { len + ESCAPE_ROOM ≤ length bytes.old }
    ensures placed { take result bytes.new ≡ take len bytes.old ++ escape c }
    ensures longer { len ≤ result }
    ensures within { result ≤ len + ESCAPE_ROOM }
    ensures length { length bytes.new ≡ length bytes.old }
{
    if let Some(end) = place_letter(bytes, len, c) {
        return end;
    }
    place_digits(bytes, len, c)
}

/// The same if the escape is one by a letter.
#[inline(always)]
#[tactic(auto, unfolding(crate::specs::Escaping::EscapedTexts::escape))]
pub(crate) fn place_letter(bytes: &mut [u8], len: usize, c: char) -> Option<usize>
    requires { len + LETTER_ROOM ≤ length bytes.old }
    ensures placed { IfSome result (λ end. take end bytes.new ≡ take len bytes.old ++ escape c) }
    ensures end { IfSome result (λ end. end ≡ len + LETTER_ROOM) }
    ensures digits { result ≡ None → letter_of c ≡ None }
    ensures untouched { result ≡ None → bytes.new ≡ bytes.old }
    ensures length { length bytes.new ≡ length bytes.old }
{
    let letter = letter_of(c)?;
    Some(place(bytes, len, &[b'\\', letter]))
}

// The same by digits.
#[cold]
#[inline(never)]
fn place_digits(bytes: &mut [u8], len: usize, c: char) -> usize
    requires { len + ESCAPE_ROOM ≤ length bytes.old }
    ensures placed { take result bytes.new ≡ take len bytes.old ++ escape_by None c }
    ensures longer { len ≤ result }
    ensures within { result ≤ len + ESCAPE_ROOM }
    ensures length { length bytes.new ≡ length bytes.old }
{
    let code = u32::from(c);
    let mut end = place(bytes, len, b"\\x");
    if code >= 0x10_0000 {
        end = place(bytes, end, &[hex_digit(code, 0x10_0000)]);
    }
    if code >= 0x1_0000 {
        end = place(bytes, end, &[hex_digit(code, 0x1_0000)]);
    }
    let last = [
        hex_digit(code, 0x1000),
        hex_digit(code, 0x100),
        hex_digit(code, 0x10),
        hex_digit(code, 1),
    ];
    place(bytes, end, &last)
}

// The character that follows the backslash, where one is enough.
#[inline(always)]
fn letter_of(c: char) -> Option<u8>
    ensures { result ≡ letter_of c }
{
    if !c.is_ascii() {
        return None;
    }
    let letter = LETTERS[c as usize];
    if letter == 0 {
        return None;
    }
    Some(letter)
}

// The hexadecimal digit of a number that counts this power of sixteen.
fn hex_digit(number: u32, power: u32) -> u8
    requires { 0 < power }
    ensures { result ≡ digit_char (number / power % 16) }
{
    let digit = (number / power % 16) as u8;
    if digit < 10 {
        b'0' + digit
    } else {
        b'a' + (digit - 10)
    }
}
