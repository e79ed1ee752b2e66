//! Values, pairs and sections in order, to C, by names and keys as bytes.
ghost use Rattle.std.specs.Prelude.{◌≡◌, ◌∷◌, [], ◌↔◌, IsTrue, IsSome, IsSomeAnd, Some, None, false};
ghost use Rattle.std.specs.Option.{option_map};
ghost use Rattle.std.specs.Str.{IsUtf8, chars};
ghost use Rattle.ini.specs.Documents.{first_section, value_in};
ghost use Rattle.ini_c.specs.Listings.{AreSizesOf, all_found_in, copied_listing, document_listed, fits};
ghost use Rattle.ini_c.specs.Listings.{pairs_found_in, pairs_listed, values_listed};
ghost use Rattle.ini_c.specs.LookUps.{AreTexts, name_if};
ghost use Rattle.ini_c.specs.Statuses.{absent, is_among, no_memory, no_room, not_utf8, ok};

use crate::copies::{Sizes, give_listing, name_of, place_of};
use crate::listing::{list_document, list_pairs, list_values};
use crate::{ABSENT, NO_MEMORY, NOT_UTF8};
use ini::Ini;
use std::alloc::Global;

// Copies all values of the key in the first section of the name out.
pub(crate) fn values(
    alloc: Global,
    document: &Ini,
    named: bool,
    section: &[u8],
    key: &[u8],
    bytes: &mut [u8],
    counts: &mut [usize],
    sizes: &mut Sizes,
) -> u32
    ensures not_utf8 { result ≡ not_utf8 ↔ ¬ (AreTexts section.now key.now) }
    ensures absent { result ≡ absent →
        value_in (name_if named section.now) (chars key.now) document.now ≡ None }
    ensures there { result ≡ ok →
        IsSome (value_in (name_if named section.now) (chars key.now) document.now) }
    ensures listed { result ≡ ok → option_map values_listed
        (all_found_in (name_if named section.now) (chars key.now) (Some document.now))
        ≡ Some (copied_listing sizes.new bytes.new counts.new) }
    ensures sizes { result ≡ no_room → IsSomeAnd (option_map values_listed
        (all_found_in (name_if named section.now) (chars key.now) (Some document.now)))
        (AreSizesOf sizes.new) }
    ensures no_room { result ≡ no_room → fits sizes.new bytes.old counts.old ≡ false }
    ensures bytes_stay { ¬ (result ≡ ok) → bytes.new ≡ bytes.old }
    ensures counts_stay { ¬ (result ≡ ok) → counts.new ≡ counts.old }
    ensures statuses { IsTrue (is_among result (ok ∷ absent ∷ no_room ∷ not_utf8 ∷ no_memory ∷ [])) }
{
    let Some((name, key)) = place_of(named, section, key) else {
        return NOT_UTF8;
    };
    let Some(section) = document.section(name) else {
        return ABSENT;
    };
    if !section.contains_key(key) {
        return ABSENT;
    }
    let Ok(listing) = list_values(alloc, section, key) else {
        return NO_MEMORY;
    };
    give_listing(&listing, bytes, counts, sizes)
}

// Copies all pairs of the first section of the name out.
pub(crate) fn pairs(
    alloc: Global,
    document: &Ini,
    named: bool,
    section: &[u8],
    bytes: &mut [u8],
    counts: &mut [usize],
    sizes: &mut Sizes,
) -> u32
    ensures not_utf8 { result ≡ not_utf8 ↔ ¬ (IsUtf8 section.now) }
    ensures absent { result ≡ absent → first_section (name_if named section.now) document.now ≡ None }
    ensures listed { result ≡ ok → option_map pairs_listed
        (pairs_found_in (name_if named section.now) (Some document.now))
        ≡ Some (copied_listing sizes.new bytes.new counts.new) }
    ensures sizes { result ≡ no_room → IsSomeAnd (option_map pairs_listed
        (pairs_found_in (name_if named section.now) (Some document.now))) (AreSizesOf sizes.new) }
    ensures no_room { result ≡ no_room → fits sizes.new bytes.old counts.old ≡ false }
    ensures bytes_stay { ¬ (result ≡ ok) → bytes.new ≡ bytes.old }
    ensures counts_stay { ¬ (result ≡ ok) → counts.new ≡ counts.old }
    ensures statuses { IsTrue (is_among result (ok ∷ absent ∷ no_room ∷ not_utf8 ∷ no_memory ∷ [])) }
{
    let Ok(section) = str::from_utf8(section) else {
        return NOT_UTF8;
    };
    let Some(section) = document.section(name_of(named, section)) else {
        return ABSENT;
    };
    let Ok(listing) = list_pairs(alloc, section) else {
        return NO_MEMORY;
    };
    give_listing(&listing, bytes, counts, sizes)
}

// Copies all sections with their pairs out.
pub(crate) fn items(
    alloc: Global,
    document: &Ini,
    bytes: &mut [u8],
    counts: &mut [usize],
    sizes: &mut Sizes,
) -> u32
    ensures listed { result ≡ ok
        → document_listed document.now ≡ copied_listing sizes.new bytes.new counts.new }
    ensures sizes { result ≡ no_room → AreSizesOf sizes.new (document_listed document.now) }
    ensures no_room { result ≡ no_room → fits sizes.new bytes.old counts.old ≡ false }
    ensures bytes_stay { ¬ (result ≡ ok) → bytes.new ≡ bytes.old }
    ensures counts_stay { ¬ (result ≡ ok) → counts.new ≡ counts.old }
    ensures statuses { IsTrue (is_among result (ok ∷ no_room ∷ no_memory ∷ [])) }
{
    let Ok(listing) = list_document(alloc, document) else {
        return NO_MEMORY;
    };
    give_listing(&listing, bytes, counts, sizes)
}
