//! The whole lines of a text, and their number. This file knows line feeds, and no production.
ghost use Rattle.std.specs.Prelude.{◌≡◌, true, chars, count_by, length, take, IsUtf8};
ghost use Rattle.ini_text.specs.Grammar.CharacterKinds.{is_line_feed};
ghost use Rattle.ini_text.specs.Grammar.Positions.{is_column_one};

use crate::lanes::LANES;
use std::simd::prelude::*;

/// The lines of a text that LF ends, and how many they are.
///
/// It is public since `ini` drops such lines of a streamed text: what one other crate may call, all may.
pub fn whole_lines(text: &str) -> (&str, usize)
    ensures front { result.0.now ≡ take (length result.0.now) text.now }
    ensures utf8 { IsUtf8 result.0.now }
    ensures line_start { is_column_one (chars result.0.now) ≡ true }
    ensures lines { result.1 ≡ count_by is_line_feed (chars result.0.now) }
    ensures all { result.1 ≡ count_by is_line_feed (chars text.now) }
{
    let Some(last) = text.rfind('\n') else {
        return ("", 0);
    };
    let (lines, _) = text.split_at(last + 1);
    (lines, line_feeds(lines.as_bytes()))
}

// How many bytes are LF.
fn line_feeds(bytes: &[u8]) -> usize
    ensures { result ≡ count_by is_line_feed bytes.now }
{
    let line_feed = u8x16::splat(b'\n');
    let mut count = 0;
    let mut at = 0;
    'lanes: while bytes.len() - at >= LANES {
        let lanes = u8x16::from_slice(&bytes[at..]);
        count += lanes.simd_eq(line_feed).to_bitmask().count_ones() as usize;
        at += LANES;
    }
    count + bytes[at..].iter().filter(|byte| **byte == b'\n').count()
}
