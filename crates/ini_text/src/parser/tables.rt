//! Tables of bytes: the digits of a code, and the letters after a backslash. This file knows bytes, and no
//! production.
ghost use Rattle.std.specs.Prelude.{◌≡◌, ◌≢◌, ◌<◌, IfSome};
ghost use Rattle.std.specs.Char.{digit_value};
ghost use Rattle.std.specs.Option.{unwrap_or};
ghost use Rattle.ini_text.specs.Grammar.CharacterKinds.{letter_x, line_feed};
ghost use Rattle.ini_text.specs.Grammar.EscapeSequences.{control};

// What stands for no digit, and for no character.
const NO: u8 = 0xFF;

// The value of each byte as a hexadecimal digit.
static DIGITS: [u8; 256] = [
    NO, NO, NO, NO, NO, NO, NO, NO, NO, NO, NO, NO, NO, NO, NO, NO, NO, NO, NO, NO, NO, NO, NO, NO,
    NO, NO, NO, NO, NO, NO, NO, NO, NO, NO, NO, NO, NO, NO, NO, NO, NO, NO, NO, NO, NO, NO, NO, NO,
    0, 1, 2, 3, 4, 5, 6, 7, 8, 9, NO, NO, NO, NO, NO, NO, NO, 10, 11, 12, 13, 14, 15, NO, NO, NO,
    NO, NO, NO, NO, NO, NO, NO, NO, NO, NO, NO, NO, NO, NO, NO, NO, NO, NO, NO, NO, NO, NO, NO, 10,
    11, 12, 13, 14, 15, NO, NO, NO, NO, NO, NO, NO, NO, NO, NO, NO, NO, NO, NO, NO, NO, NO, NO, NO,
    NO, NO, NO, NO, NO, NO, NO, NO, NO, NO, NO, NO, NO, NO, NO, NO, NO, NO, NO, NO, NO, NO, NO, NO,
    NO, NO, NO, NO, NO, NO, NO, NO, NO, NO, NO, NO, NO, NO, NO, NO, NO, NO, NO, NO, NO, NO, NO, NO,
    NO, NO, NO, NO, NO, NO, NO, NO, NO, NO, NO, NO, NO, NO, NO, NO, NO, NO, NO, NO, NO, NO, NO, NO,
    NO, NO, NO, NO, NO, NO, NO, NO, NO, NO, NO, NO, NO, NO, NO, NO, NO, NO, NO, NO, NO, NO, NO, NO,
    NO, NO, NO, NO, NO, NO, NO, NO, NO, NO, NO, NO, NO, NO, NO, NO, NO, NO, NO, NO, NO, NO, NO, NO,
    NO, NO, NO, NO, NO, NO, NO, NO, NO, NO, NO, NO, NO, NO,
];

// What each byte stands for after a backslash; 0xFF for LF, for the `x` of a code and from 0x80 on.
static LETTERS: [u8; 256] = *b"\
    \x00\x01\x02\x03\x04\x05\x06\x07\x08\x09\xFF\x0B\x0C\x0D\x0E\x0F\
    \x10\x11\x12\x13\x14\x15\x16\x17\x18\x19\x1A\x1B\x1C\x1D\x1E\x1F\
    \x20!\"#$%&'()*+,-./\x00123456789:;<=>?\
    @ABCDEFGHIJKLMNOPQRSTUVWXYZ[\\]^_\
    `\x07\x08cdefghijklm\x0Aopq\x0Ds\x09uvw\xFFyz{|}~\x7F\
    \xFF\xFF\xFF\xFF\xFF\xFF\xFF\xFF\xFF\xFF\xFF\xFF\xFF\xFF\xFF\xFF\
    \xFF\xFF\xFF\xFF\xFF\xFF\xFF\xFF\xFF\xFF\xFF\xFF\xFF\xFF\xFF\xFF\
    \xFF\xFF\xFF\xFF\xFF\xFF\xFF\xFF\xFF\xFF\xFF\xFF\xFF\xFF\xFF\xFF\
    \xFF\xFF\xFF\xFF\xFF\xFF\xFF\xFF\xFF\xFF\xFF\xFF\xFF\xFF\xFF\xFF\
    \xFF\xFF\xFF\xFF\xFF\xFF\xFF\xFF\xFF\xFF\xFF\xFF\xFF\xFF\xFF\xFF\
    \xFF\xFF\xFF\xFF\xFF\xFF\xFF\xFF\xFF\xFF\xFF\xFF\xFF\xFF\xFF\xFF\
    \xFF\xFF\xFF\xFF\xFF\xFF\xFF\xFF\xFF\xFF\xFF\xFF\xFF\xFF\xFF\xFF\
    \xFF\xFF\xFF\xFF\xFF\xFF\xFF\xFF\xFF\xFF\xFF\xFF\xFF\xFF\xFF\xFF";

/// The value of a hexadecimal digit, and 16 or more for any other byte.
#[inline(always)]
pub(crate) fn digit(byte: u8) -> u32
    ensures value { result < 16 → result ≡ digit_value byte }
    ensures ascii { result < 16 → byte < 128 }
{
    u32::from(DIGITS[usize::from(byte)])
}

/// What a backslash and a byte stand for. `None` for LF, for the `x` of a code and from 0x80 on.
#[inline(always)]
pub(crate) fn letter_value(byte: u8) -> Option<char>
    ensures value { unwrap_or result byte ≡ unwrap_or (control byte) byte }
    ensures letter { IfSome result (λ c. (byte < 128) × (byte ≢ letter_x) × (byte ≢ line_feed)) }
{
    let value = LETTERS[usize::from(byte)];
    if value >= 0x80 {
        return None;
    }
    Some(char::from(value))
}
