//! Which characters are escaped when a text is written: asked of a character, of the byte that it begins
//! with, and of sixteen bytes at once. This file doesn't know how an escape looks.
ghost use Rattle.std.specs.Prelude.{◌≡◌, map};
ghost use Rattle.std.specs.Simd.Lanes.{mask_l};
ghost use Rattle.ini_text.specs.Grammar.CharacterKinds.{backslash, semicolon};
ghost use Rattle.ini_text.specs.Escaping.Policies.{is_basic, is_escaped, is_reserved};
ghost use Rattle.ini_text.specs.Inside.Verbatim.{begins_escaped};

use std::simd::prelude::*;

/// Which characters of a name, a key or a value are written as escapes.
///
/// Basic are the backslash and the control characters U+0000 to U+001F and U+007F, reserved are `;`,
/// `#`, `=` and `:`. Every other ASCII character, quotes, brackets and the space among them, is escaped
/// by no policy.
#[derive(Copy, Clone, PartialEq, Debug)]
pub enum EscapePolicy {
    /// No character. A text with a backslash or a line end in it may then load back as another, or not at
    /// all.
    Nothing,
    /// The basic characters.
    Basics,
    /// The basic characters, and U+0080 to U+FFFF.
    BasicsUnicode,
    /// The basic characters, and all above U+007F.
    BasicsUnicodeExtended,
    /// The basic and the reserved characters.
    Reserved,
    /// The basic and the reserved characters, and U+0080 to U+FFFF.
    ReservedUnicode,
    /// The basic and the reserved characters, and all above U+007F.
    ReservedUnicodeExtended,
    /// All that any policy escapes, which is what `ReservedUnicodeExtended` escapes.
    Everything,
}

impl EscapePolicy {
    /// Whether this policy escapes the character.
    pub fn should_escape(self, c: char) -> bool
        ensures { result ≡ is_escaped self c }
    {
        match c {
            '\0'..='\x7F' => self.begins_escaped(c as u8),
            '\u{80}'..='\u{FFFF}' => self.escapes_unicode(),
            _ => self.escapes_extended(),
        }
    }

    /// Whether the byte begins a character that this policy escapes.
    #[inline(always)]
    pub(crate) fn begins_escaped(self, byte: u8) -> bool
        ensures { result ≡ begins_escaped self byte }
    {
        // most bytes of most texts are small letters, so they are recognized by a test of their own
        if byte > b'\\' && byte < 0x7F {
            return false;
        }
        match byte {
            b' '..=b'"' | b'$'..=b'9' | b'<' | b'>'..=b'[' | b']'..=b'~' => false,
            b';' | b'#' | b'=' | b':' => self.escapes_reserved(),
            b'\\' | 0x00..=0x1F | 0x7F => self.escapes_basic(),
            0x80..=0xBF => false,
            0xC0..=0xEF => self.escapes_unicode(),
            0xF0..=0xFF => self.escapes_extended(),
        }
    }

    // A backslash, U+0000 to U+001F and U+007F.
    fn escapes_basic(self) -> bool
        ensures { result ≡ is_escaped self backslash }
    {
        !matches!(self, EscapePolicy::Nothing)
    }

    // `;`, `#`, `=` and `:`.
    fn escapes_reserved(self) -> bool
        ensures { result ≡ is_escaped self semicolon }
    {
        matches!(
            self,
            EscapePolicy::Reserved
                | EscapePolicy::ReservedUnicode
                | EscapePolicy::ReservedUnicodeExtended
                | EscapePolicy::Everything
        )
    }

    // U+0080 to U+FFFF.
    fn escapes_unicode(self) -> bool
        ensures { result ≡ is_escaped self 0x80 }
    {
        !matches!(
            self,
            EscapePolicy::Nothing | EscapePolicy::Basics | EscapePolicy::Reserved
        )
    }

    // All above.
    fn escapes_extended(self) -> bool
        ensures { result ≡ is_escaped self 0x1_0000 }
    {
        matches!(
            self,
            EscapePolicy::BasicsUnicodeExtended
                | EscapePolicy::ReservedUnicodeExtended
                | EscapePolicy::Everything
        )
    }
}

/// The bits of the lanes that hold a basic character.
#[inline(always)]
pub(crate) fn basic_bits(lanes: u8x16) -> u64
    ensures { result ≡ mask_l (map is_basic lanes) }
{
    let backslash = lanes.simd_eq(u8x16::splat(b'\\'));
    let control = lanes.simd_lt(u8x16::splat(0x20));
    let delete = lanes.simd_eq(u8x16::splat(0x7F));
    (backslash | control | delete).to_bitmask()
}

/// The bits of the lanes that hold a reserved character.
#[inline(always)]
pub(crate) fn reserved_bits(lanes: u8x16) -> u64
    ensures { result ≡ mask_l (map is_reserved lanes) }
{
    let semicolon = lanes.simd_eq(u8x16::splat(b';'));
    let hash = lanes.simd_eq(u8x16::splat(b'#'));
    let equals = lanes.simd_eq(u8x16::splat(b'='));
    let colon = lanes.simd_eq(u8x16::splat(b':'));
    ((semicolon | hash) | (equals | colon)).to_bitmask()
}
