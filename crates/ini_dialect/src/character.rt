//! Single characters, from bytes and to bytes. This file knows the encodings, and nothing of whole texts.
ghost use Rattle.std.specs.Prelude.{◌≡◌, ◌+◌, ◌*◌, ◌<◌, ◌≤◌, ◌==◌, ◌∷◌, ◌++◌, [], ℕ, drop};
ghost use Rattle.std.specs.Prelude.{IfNone, IfOk, IfSome, OnOk, Some, encode_utf8, length, position};
ghost use Rattle.std.specs.Prelude.{take, true};
ghost use Rattle.std.specs.Char.{IsScalar};
ghost use Rattle.std.specs.Char.Escape.{encode_utf16};
ghost use Rattle.std.specs.Str.{IsUtf8, StartsWithNoChar};
ghost use Rattle.ini_dialect.specs.Encodings.{BeginsNothing, bytes_of, windows_byte, windows_characters};
ghost use Rattle.ini_dialect.specs.Inside.Coding.{BeginsNoUnits, BeginsWith, BeginsWithUnits};
ghost use Rattle.ini_dialect.specs.Inside.Coding.{BeginsWithUtf8};
ghost use Rattle.ini_dialect.specs.Inside.Coding.{CompletesNoPair, CompletesPair, HasPushed, IsNoPair};
ghost use Rattle.ini_dialect.specs.Inside.Coding.{IsPushed, unit_in, units_in};
ghost use Rattle.ini_dialect.specs.declared.encoding.Encoding.TheVariants.{Latin1};

use crate::encoding::Encoding;
use ini_text::split_first;
use std::alloc::AllocError;

// What windows-1252 has for the bytes 0x80 to 0x9F.
const WINDOWS: [char; 32] = [
    '\u{20AC}', '\u{81}', '\u{201A}', '\u{192}', '\u{201E}', '\u{2026}', '\u{2020}', '\u{2021}',
    '\u{2C6}', '\u{2030}', '\u{160}', '\u{2039}', '\u{152}', '\u{8D}', '\u{17D}', '\u{8F}',
    '\u{90}', '\u{2018}', '\u{2019}', '\u{201C}', '\u{201D}', '\u{2022}', '\u{2013}', '\u{2014}',
    '\u{2DC}', '\u{2122}', '\u{161}', '\u{203A}', '\u{153}', '\u{9D}', '\u{17E}', '\u{178}',
];

impl Encoding {
    // The first character of bytes, and what follows it.
    pub(crate) fn split_first(self, bytes: &[u8]) -> Option<(char, &[u8])>
        ensures front { IfSome result (λ p. BeginsWith self bytes.now p.0 p.1.now) }
        ensures none { IfNone result (BeginsNothing self bytes.now) }
        ensures shorter { IfSome result (λ p. length p.1.now < length bytes.now) }
    {
        match self {
            Encoding::Utf8 => split_utf8(bytes),
            Encoding::Utf16Le => split_units(bytes, true),
            Encoding::Utf16Be => split_units(bytes, false),
            Encoding::Latin1 => {
                let (byte, rest) = bytes.split_first()?;
                Some((latin_character(*byte), rest))
            }
            Encoding::Windows1252 => {
                let (byte, rest) = bytes.split_first()?;
                Some((windows_character(*byte), rest))
            }
        }
    }

    // Puts the bytes of a character last, and tells whether it has some.
    pub(crate) fn push(self, character: char, bytes: &mut Vec<u8>) -> Result<bool, AllocError>
        ensures { IfOk result (IsPushed self character bytes.old.items bytes.new.items) }
    {
        match self {
            Encoding::Utf8 => push_utf8(character, bytes),
            Encoding::Utf16Le => push_units(character, true, bytes),
            Encoding::Utf16Be => push_units(character, false, bytes),
            Encoding::Latin1 => push_byte(u8::try_from(u32::from(character)).ok(), bytes),
            Encoding::Windows1252 => push_byte(byte_of_windows(character), bytes),
        }
    }
}

// The first character of UTF-8, and what follows it.
fn split_utf8(bytes: &[u8]) -> Option<(char, &[u8])>
    ensures front { IfSome result (λ p. BeginsWithUtf8 bytes.now p.0 p.1.now) }
    ensures none { IfNone result (StartsWithNoChar bytes.now) }
    ensures shorter { IfSome result (λ p. length p.1.now < length bytes.now) }
{
    let (character, _) = split_first(utf8_front(first_four(bytes)))?;
    let (_, rest) = bytes.split_at(character.len_utf8());
    Some((character, rest))
}

// As many bytes as a character has at most.
fn first_four(bytes: &[u8]) -> &[u8]
    ensures { result.now ≡ take 4 bytes.now }
{
    bytes.get(..4).unwrap_or(bytes)
}

// The longest front of bytes that is UTF-8.
fn utf8_front(bytes: &[u8]) -> &str
    ensures front { bytes.now ≡ result.now ++ drop (length result.now) bytes.now }
    ensures longest { (n : ℕ) → length result.now < n → n ≤ length bytes.now
        → ¬ (IsUtf8 (take n bytes.now)) }
{
    match str::from_utf8(bytes) {
        Ok(text) => text,
        Err(fault) => str::from_utf8(&bytes[..fault.valid_up_to()]).unwrap(),
    }
}

// Puts the bytes of a character last in UTF-8.
fn push_utf8(character: char, bytes: &mut Vec<u8>) -> Result<bool, AllocError>
    ensures told { IfOk result (λ done. done ≡ true) }
    ensures pushed { IfOk result (λ _. bytes.new.items ≡ bytes.old.items ++ encode_utf8 character) }
{
    let mut buffer = [0; 4];
    bytes.extend_from_slice(character.encode_utf8(&mut buffer).as_bytes())?;
    Ok(true)
}

// The first character of units, and what follows it.
fn split_units(bytes: &[u8], low_first: bool) -> Option<(char, &[u8])>
    ensures front { IfSome result (λ p. BeginsWithUnits low_first bytes.now p.0 p.1.now) }
    ensures none { IfNone result (BeginsNoUnits low_first bytes.now) }
    ensures shorter { IfSome result (λ p. length p.1.now < length bytes.now) }
{
    let (unit, rest) = split_unit(bytes, low_first)?;
    match char::from_u32(u32::from(unit)) {
        Some(character) => Some((character, rest)),
        None => split_low(unit, rest, low_first),
    }
}

// The character of a high unit and of the low one that follows.
fn split_low(high: u16, bytes: &[u8], low_first: bool) -> Option<(char, &[u8])>
    ensures front { IfSome result (λ p. CompletesPair low_first high bytes.now p.0 p.1.now) }
    ensures none { IfNone result (CompletesNoPair low_first high bytes.now) }
    ensures shorter { IfSome result (λ p. length p.1.now < length bytes.now) }
{
    let (low, rest) = split_unit(bytes, low_first)?;
    let character = character_of_pair(high, low)?;
    Some((character, rest))
}

// The character that two units are.
fn character_of_pair(high: u16, low: u16) -> Option<char>
    ensures some { IfSome result (λ c. IsScalar c × (encode_utf16 c ≡ high ∷ low ∷ [])) }
    ensures none { IfNone result (IsNoPair high low) }
{
    if high < 0xD800 || high >= 0xDC00 || low < 0xDC00 || low >= 0xE000 {
        return None;
    }
    let above = (u32::from(high) - 0xD800) * 0x400 + (u32::from(low) - 0xDC00);
    char::from_u32(0x1_0000 + above)
}

// The first unit, and what follows it.
fn split_unit(bytes: &[u8], low_first: bool) -> Option<(u16, &[u8])>
    ensures unit { IfSome result (λ p. bytes.now ≡ unit_in low_first p.0 ++ p.1.now) }
    ensures none { IfNone result (length bytes.now < 2) }
    ensures shorter { IfSome result (λ p. length p.1.now < length bytes.now) }
{
    let (first, rest) = bytes.split_first()?;
    let (second, rest) = rest.split_first()?;
    if low_first {
        Some((unit_of(*first, *second), rest))
    } else {
        Some((unit_of(*second, *first), rest))
    }
}

// The unit of two bytes.
fn unit_of(low: u8, high: u8) -> u16
    ensures { result ≡ low + high * 256 }
{
    u16::from(low) + u16::from(high) * 256
}

// The character of a byte in Latin-1.
fn latin_character(byte: u8) -> char
    ensures { bytes_of Latin1 result ≡ Some (byte ∷ []) }
{
    char::from(byte)
}

// The character of a byte in windows-1252.
fn windows_character(byte: u8) -> char
    ensures { windows_byte result ≡ Some byte }
{
    if byte < 0x80 {
        return char::from(byte);
    }
    if byte < 0xA0 {
        return WINDOWS[usize::from(byte - 0x80)];
    }
    char::from(byte)
}

// The byte of a character in windows-1252.
fn byte_of_windows(character: char) -> Option<u8>
    ensures { result ≡ windows_byte character }
{
    let code = u32::from(character);
    if code < 0x80 || code >= 0xA0 && code < 0x100 {
        return u8::try_from(code).ok();
    }
    let place = place_in_windows(character)?;
    Some(0x80 + place as u8)
}

// Where a character stands in the table.
fn place_in_windows(character: char) -> Option<usize>
    ensures place { result ≡ position (λ w. w == character) windows_characters }
    ensures within { IfSome result (λ i. i < 32) }
{
    WINDOWS.iter().position(|other| *other == character)
}

// Puts a byte last, where there is one.
fn push_byte(byte: Option<u8>, bytes: &mut Vec<u8>) -> Result<bool, AllocError>
    ensures { IfOk result (HasPushed byte bytes.old.items bytes.new.items) }
{
    match byte {
        Some(byte) => {
            bytes.push(byte)?;
            Ok(true)
        }
        None => Ok(false),
    }
}

// Puts the bytes of a character's units last.
fn push_units(character: char, low_first: bool, bytes: &mut Vec<u8>) -> Result<bool, AllocError>
    ensures told { IfOk result (λ done. done ≡ true) }
    ensures pushed { IfOk result (λ _. bytes.new.items ≡ bytes.old.items ++ units_in low_first character) }
{
    let mut units = [0; 2];
    for unit in character.encode_utf16(&mut units).iter() {
        push_unit(*unit, low_first, bytes)?;
    }
    Ok(true)
}

// Puts the bytes of a unit last.
fn push_unit(unit: u16, low_first: bool, bytes: &mut Vec<u8>) -> Result<(), AllocError>
    ensures { OnOk result (bytes.new.items ≡ bytes.old.items ++ unit_in low_first unit) }
{
    let (low, high) = ((unit % 256) as u8, (unit / 256) as u8);
    if low_first {
        bytes.push(low)?;
        bytes.push(high)?;
    } else {
        bytes.push(high)?;
        bytes.push(low)?;
    }
    Ok(())
}
