//! Where values stand in a text. This file knows elements and rules of looking up, and no device.
//!
//! No contract says which place it is; `tests/words.sh` tests it.

use crate::words::Wanted;
use ini::{Error, ParseOption, Parser};
use ini_dialect::{Lookup, SectionRule, ValueRule};
use ini_text::{Content, PlacedElement};
use std::alloc::Global;

/// The number of bytes before the value of this number, from 0, of those that are looked up. `None` where
/// there is no such value; or memory was refused.
pub fn value_place(
    alloc: Global,
    text: &str,
    read: ParseOption,
    wanted: Wanted<'_>,
    index: usize,
) -> Option<usize> {
    let places = places(alloc, text, read, wanted).ok()?;
    let places = places.as_slice();
    let place = if wanted.all {
        places.get(index)
    } else {
        counting(places, wanted)
    };
    place.map(|place| place.value)
}

/// The number of bytes before the pair whose value counts. `None` where there is none; or memory was refused.
pub fn pair_place(
    alloc: Global,
    text: &str,
    read: ParseOption,
    wanted: Wanted<'_>,
) -> Option<usize> {
    let places = places(alloc, text, read, wanted).ok()?;
    counting(places.as_slice(), wanted).map(|place| place.pair)
}

// How many bytes stand before a pair, and before its value.
#[derive(Clone, Copy)]
struct Place {
    pair: usize,
    value: usize,
}

// The place of the value that counts.
fn counting<'p>(places: &'p [Place], wanted: Wanted<'_>) -> Option<&'p Place> {
    match wanted.rule.values {
        ValueRule::First => places.first(),
        ValueRule::Last => places.last(),
    }
}

// The places of all values of the key that are looked at, in order.
fn places(
    alloc: Global,
    text: &str,
    read: ParseOption,
    wanted: Wanted<'_>,
) -> Result<Vec<Place>, Error> {
    let mut parser = Parser::new(alloc, text, read);
    let mut places = Vec::new(alloc);
    let mut looks = Looks::of(wanted);
    for _ in 0..=text.len() {
        let pair = text.len().saturating_sub(parser.rest().len());
        let Some(element) = parser.next_element()? else {
            return Ok(places);
        };
        if let Some(before) = looks.before_value(&element, wanted) {
            let value = pair.saturating_add(before);
            places.push(Place { pair, value })?;
        }
    }
    Ok(places)
}

// Whether a walk is in a section that is looked at, and whether one of the name was there.
#[derive(Drop)]
struct Looks {
    is_in: bool,
    was_in: bool,
}

impl Looks {
    // At the front of a text the general section is.
    fn of(wanted: Wanted<'_>) -> Looks {
        let is_general = wanted.section.is_none();
        Looks {
            is_in: is_general,
            was_in: is_general,
        }
    }

    // Goes over an element; where it is a pair of the key in such a section, how many of its bytes stand
    // before its value.
    fn before_value(&mut self, element: &PlacedElement<'_>, wanted: Wanted<'_>) -> Option<usize> {
        match &element.content {
            Content::Header(name) => {
                self.enter(wanted.rule, wanted.section, name.as_str());
                None
            }
            Content::Pair(pair)
                if self.is_in && wanted.rule.case.fits(wanted.key, pair.key.as_str()) => {
                let places = pair.places;
                let separator = places.separator.map_or(0, |c| c.len_utf8());
                let before = places.key.len().saturating_add(separator);
                Some(before.saturating_add(places.space_before.len()))
            }
            _ => None,
        }
    }

    // Goes into a section.
    fn enter(&mut self, rule: Lookup, wanted: Option<&str>, name: &str) {
        let fits = rule.case.names_fit(wanted, Some(name));
        let is_first_alone = matches!(rule.sections, SectionRule::First);
        self.is_in = fits && !(is_first_alone && self.was_in);
        self.was_in = self.was_in || fits;
    }
}
