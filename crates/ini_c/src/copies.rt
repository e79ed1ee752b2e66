//! Bytes and listings to C, and names, keys and values from C. This file knows no document.
ghost use Rattle.std.specs.Prelude.{◌≡◌, ◌∷◌, [], ◌<◌, ◌≤◌, ◌↔◌, IsTrue, IsSome, IfSome, Some, length};
ghost use Rattle.std.specs.Prelude.{slice_get, take, false};
ghost use Rattle.std.specs.Str.{IsUtf8};
ghost use Rattle.ini.specs.Texts.{str_name};
ghost use Rattle.ini_c.specs.Inside.Gathered.{contents};
ghost use Rattle.ini_c.specs.Listings.{AreSizesOf, copied_listing, fits};
ghost use Rattle.ini_c.specs.LookUps.{AreTexts, name_if};
ghost use Rattle.ini_c.specs.Statuses.{is_among, no_room, ok};

use crate::listing::Listing;
use crate::{NO_ROOM, OK};

/// How much a listing takes: so many bytes, and so many numbers.
#[repr(C)]
#[derive(Drop)]
pub struct Sizes {
    pub bytes: usize,
    pub counts: usize,
}

// Copies bytes out, and a 0 after them, where they fit, and tells whether they did; their count in any
// case.
#[inline(always)]
pub(crate) fn copy_out(bytes: &[u8], out: &mut [u8], count: &mut usize) -> bool
    ensures fits { IsTrue result ↔ (length bytes.now < length out.old) }
    ensures count { count.new ≡ length bytes.now }
    ensures whole { IsTrue result → take (length bytes.now) out.new ≡ bytes.now }
    ensures zero { IsTrue result → slice_get out.new (length bytes.now) ≡ Some 0 }
    ensures stays { ¬ (IsTrue result) → out.new ≡ out.old }
{
    *count = bytes.len();
    if out.len() <= bytes.len() {
        return false;
    }
    let (front, rest) = out.split_at_mut(bytes.len());
    front.copy_from_slice(bytes);
    rest[0] = 0;
    true
}

// Copies a text out, and a 0 after it; the status of that, and the text's number of bytes in any case.
#[inline(always)]
pub(crate) fn give(text: &str, out: &mut [u8], count: &mut usize) -> u32
    ensures text { result ≡ ok → take count.new out.new ≡ text.now }
    ensures zero { result ≡ ok → slice_get out.new count.new ≡ Some 0 }
    ensures no_room { result ≡ no_room → length out.old ≤ count.new }
    ensures count { count.new ≡ length text.now }
    ensures stays { ¬ (result ≡ ok) → out.new ≡ out.old }
    ensures statuses { IsTrue (is_among result (ok ∷ no_room ∷ [])) }
{
    if copy_out(text.as_bytes(), out, count) {
        OK
    } else {
        NO_ROOM
    }
}

// A section's name, of UTF-8; without `named` it is the general section's.
#[inline(always)]
pub(crate) fn name_of<'a>(named: bool, section: &'a str) -> Option<&'a str>
    ensures { str_name result ≡ name_if named section.now }
{
    if named { Some(section) } else { None }
}

// A section's name and a key, of UTF-8.
#[inline(always)]
pub(crate) fn place_of<'a>(
    named: bool,
    section: &'a [u8],
    key: &'a [u8],
) -> Option<(Option<&'a str>, &'a str)>
    ensures texts { IsSome result ↔ AreTexts section.now key.now }
    ensures name { IfSome result (λ t. str_name t.0 ≡ name_if named section.now) }
    ensures key { IfSome result (λ t. t.1.now ≡ key.now) }
{
    let Ok(section) = str::from_utf8(section) else {
        return None;
    };
    let Ok(key) = str::from_utf8(key) else {
        return None;
    };
    Some((name_of(named, section), key))
}

// The same, and a value.
pub(crate) fn pair_of<'a>(
    named: bool,
    section: &'a [u8],
    key: &'a [u8],
    value: &'a [u8],
) -> Option<(Option<&'a str>, &'a str, &'a str)>
    ensures texts { IsSome result ↔ (AreTexts section.now key.now × IsUtf8 value.now) }
    ensures name { IfSome result (λ t. str_name t.0 ≡ name_if named section.now) }
    ensures key { IfSome result (λ t. t.1.now ≡ key.now) }
    ensures value { IfSome result (λ t. t.2.now ≡ value.now) }
{
    let Some((name, key)) = place_of(named, section, key) else {
        return None;
    };
    let Ok(value) = str::from_utf8(value) else {
        return None;
    };
    Some((name, key, value))
}

// Copies to the front of a buffer.
fn put_front<T: Copy>(list: &[T], out: &mut [T])
    requires { length list.now ≤ length out.old }
    ensures { take (length list.now) out.new ≡ list.now }
{
    let (front, _) = out.split_at_mut(list.len());
    front.copy_from_slice(list);
}

// Copies a listing out, where both of its parts fit; the status of that, and the listing's sizes in any
// case.
pub(crate) fn give_listing(
    listing: &Listing,
    bytes: &mut [u8],
    counts: &mut [usize],
    sizes: &mut Sizes,
) -> u32
    ensures sizes { AreSizesOf sizes.new (contents listing.now) }
    ensures whole { result ≡ ok → contents listing.now ≡ copied_listing sizes.new bytes.new counts.new }
    ensures no_room { result ≡ no_room ↔ (fits sizes.new bytes.old counts.old ≡ false) }
    ensures bytes_stay { ¬ (result ≡ ok) → bytes.new ≡ bytes.old }
    ensures counts_stay { ¬ (result ≡ ok) → counts.new ≡ counts.old }
    ensures statuses { IsTrue (is_among result (ok ∷ no_room ∷ [])) }
{
    sizes.bytes = listing.bytes.len();
    sizes.counts = listing.counts.len();
    if bytes.len() < sizes.bytes || counts.len() < sizes.counts {
        return NO_ROOM;
    }
    put_front(listing.bytes.as_slice(), bytes);
    put_front(listing.counts.as_slice(), counts);
    OK
}
