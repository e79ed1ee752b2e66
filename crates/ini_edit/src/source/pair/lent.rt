//! A pair that stands in a text, as it stands there. This file knows what the parser places, and no edit.
ghost use Rattle.std.specs.Prelude.{◌≡◌, chars};
ghost use Rattle.std.specs.Option.{IfSome};
ghost use Rattle.ini_text.specs.Parsing.Items.{cow_text};
ghost use Rattle.ini_edit.specs.Inside.PairForms.{lent_piece};
ghost use Rattle.ini_edit.specs.Sources.{placed_piece};

use crate::source::lines::is_empty;
use ini_text::{PlacedPair, is_same_text};
use std::borrow::CowStr;

/// A pair whose parts all stand in the text: its value is the value's source, and neither white space nor a
/// note follows that in its line.
#[derive(Clone, Copy, Debug)]
pub(crate) struct LentPair<'a> {
    pub(crate) key: &'a str,
    pub(crate) raw_key: &'a str,
    pub(crate) separator: Option<char>,
    pub(crate) space_before: &'a str,
    pub(crate) raw_value: &'a str,
    pub(crate) trailing_lines: &'a str,
    pub(crate) after: &'a str,
}

impl<'a> LentPair<'a> {
    /// A pair without a character.
    pub(crate) fn nothing() -> LentPair<'static> {
        LentPair {
            key: "",
            raw_key: "",
            separator: None,
            space_before: "",
            raw_value: "",
            trailing_lines: "",
            after: "",
        }
    }

    /// A pair as the parser places it, where it is such a pair.
    pub(crate) fn of_placed(pair: &PlacedPair<'a>, after: &'a str) -> Option<LentPair<'a>>
        ensures { IfSome result (λ lent. lent_piece lent ≡ placed_piece pair.now (chars after.now)) }
    {
        let key = borrowed(&pair.key)?;
        let value = borrowed(&pair.value)?;
        let places = pair.places;
        if !is_empty(places.space_after) || !is_empty(places.note) {
            return None;
        }
        if !is_same_text(value, places.raw_value) {
            return None;
        }
        Some(LentPair {
            key,
            raw_key: places.key,
            separator: places.separator,
            space_before: places.space_before,
            raw_value: places.raw_value,
            trailing_lines: places.trailing_lines,
            after,
        })
    }
}

// The text that is borrowed.
fn borrowed<'a>(text: &CowStr<'a>) -> Option<&'a str>
    ensures { IfSome result (λ lent. chars lent.now ≡ cow_text text.now) }
{
    match text {
        CowStr::Borrowed(text) => Some(text),
        CowStr::Owned(_) => None,
    }
}
