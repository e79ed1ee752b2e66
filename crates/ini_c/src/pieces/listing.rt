//! Values, pairs and sections of a text in pieces in order, to C.
ghost use Rattle.std.specs.Prelude.{◌≡◌, ◌∷◌, [], ◌↔◌, IfErr, IfOk, IsSome, IsSomeAnd, IsTrue, None, OnOk};
ghost use Rattle.std.specs.Prelude.{Some, false, map};
ghost use Rattle.std.specs.Option.{option_map};
ghost use Rattle.std.specs.Str.{IsUtf8, chars};
ghost use Rattle.ini.specs.Texts.{str_text};
ghost use Rattle.ini_edit.specs.Sources.{document_in, given_pair, given_section};
ghost use Rattle.ini_c.specs.Held.{document_of, pieces_of};
ghost use Rattle.ini_c.specs.Inside.Gathered.{contents};
ghost use Rattle.ini_c.specs.Listings.{AreSizesOf, all_found_in, copied_listing, document_listed, fits};
ghost use Rattle.ini_c.specs.Listings.{pairs_found_in, pairs_listed, values_listed, with_section};
ghost use Rattle.ini_c.specs.LookUps.{AreTexts, HasSection, found_in, name_if};
ghost use Rattle.ini_c.specs.Statuses.{absent, is_among, no_document, no_memory, no_room, not_utf8, ok};

use crate::copies::{Sizes, give_listing, name_of, place_of};
use crate::document::Text;
use crate::listing::Listing;
use crate::{ABSENT, NO_DOCUMENT, NO_MEMORY, NOT_UTF8};
use ini_edit::{Source, SourceSection};
use std::alloc::{AllocError, Global};

// Values in order.
fn list_values(alloc: Global, values: &[&str]) -> Result<Listing, AllocError>
    ensures { IfOk result (λ listing. contents listing ≡ values_listed (map str_text values.now)) }
{
    let mut listing = Listing::new(alloc);
    for value in values {
        listing.text(*value)?;
    }
    Ok(listing)
}

// All pairs, in order.
fn list_pairs(alloc: Global, section: &SourceSection<'_>) -> Result<Listing, AllocError>
    ensures { IfOk result (λ listing. contents listing
        ≡ pairs_listed (map given_pair section.now.pairs)) }
{
    let mut listing = Listing::new(alloc);
    for pair in section.pairs() {
        listing.pair(pair.key(), pair.value())?;
    }
    Ok(listing)
}

// Puts a section last.
fn push_section(listing: &mut Listing, section: &SourceSection<'_>) -> Result<(), AllocError>
    ensures { OnOk result
        (contents listing.new ≡ with_section (contents listing.old) (given_section section.now)) }
{
    listing.name(section.name())?;
    listing.number(section.pairs().len())?;
    for pair in section.pairs() {
        listing.pair(pair.key(), pair.value())?;
    }
    Ok(())
}

// All sections with their pairs, in order.
fn list_sections(alloc: Global, source: &Source<'_>) -> Result<Listing, AllocError>
    ensures { IfOk result (λ listing. contents listing ≡ document_listed (document_in source.now)) }
{
    let mut listing = Listing::new(alloc);
    for section in source.sections() {
        push_section(&mut listing, section)?;
    }
    Ok(listing)
}

// The values of the key in the first section of the name, in order; where there is none, the status.
fn values_of(
    alloc: Global,
    source: &Source<'_>,
    named: bool,
    section: &[u8],
    key: &[u8],
) -> Result<Listing, u32>
    ensures texts { IfOk result (λ listing. AreTexts section.now key.now) }
    ensures there { IfOk result (λ listing.
        IsSome (found_in (name_if named section.now) (chars key.now) (Some (document_in source.now)))) }
    ensures listed { IfOk result (λ listing. option_map values_listed
        (all_found_in (name_if named section.now) (chars key.now) (Some (document_in source.now)))
        ≡ Some (contents listing)) }
    ensures absent { IfErr result (λ status. status ≡ absent →
        found_in (name_if named section.now) (chars key.now) (Some (document_in source.now)) ≡ None) }
    ensures not_utf8 { IfErr result (λ status. status ≡ not_utf8 ↔ ¬ (AreTexts section.now key.now)) }
    ensures statuses { IfErr result
        (λ status. IsTrue (is_among status (absent ∷ not_utf8 ∷ no_memory ∷ []))) }
{
    let Some((name, key)) = place_of(named, section, key) else {
        return Err(NOT_UTF8);
    };
    let Some(section) = source.section(name) else {
        return Err(ABSENT);
    };
    if section.get(key).is_none() {
        return Err(ABSENT);
    }
    let Ok(values) = section.get_all(alloc, key) else {
        return Err(NO_MEMORY);
    };
    match list_values(alloc, values.as_slice()) {
        Ok(listing) => Ok(listing),
        Err(_) => Err(NO_MEMORY),
    }
}

// The pairs of the first section of the name, in order; where there is none, the status.
fn pairs_of(alloc: Global, source: &Source<'_>, named: bool, section: &[u8]) -> Result<Listing, u32>
    ensures texts { IfOk result (λ listing. IsUtf8 section.now) }
    ensures listed { IfOk result (λ listing. option_map pairs_listed
        (pairs_found_in (name_if named section.now) (Some (document_in source.now)))
        ≡ Some (contents listing)) }
    ensures absent { IfErr result (λ status. status ≡ absent →
        ¬ (HasSection (name_if named section.now) (Some (document_in source.now)))) }
    ensures not_utf8 { IfErr result (λ status. status ≡ not_utf8 ↔ ¬ (IsUtf8 section.now)) }
    ensures statuses { IfErr result
        (λ status. IsTrue (is_among status (absent ∷ not_utf8 ∷ no_memory ∷ []))) }
{
    let Ok(section) = str::from_utf8(section) else {
        return Err(NOT_UTF8);
    };
    let Some(section) = source.section(name_of(named, section)) else {
        return Err(ABSENT);
    };
    match list_pairs(alloc, section) {
        Ok(listing) => Ok(listing),
        Err(_) => Err(NO_MEMORY),
    }
}

/// Copies all values of the key in the first section of the name out, in order: in `bytes` one after
/// another, each with a 0 after it, and in `counts` how many bytes each has. `sizes` has how much of both
/// that takes, where it fits and where it doesn't.
#[unsafe(no_mangle)]
pub extern "C" fn bigrosk_ini_text_get_all(
    alloc: Global,
    text: &mut Text,
    named: bool,
    section: &[u8],
    key: &[u8],
    bytes: &mut [u8],
    counts: &mut [usize],
    sizes: &mut Sizes,
) -> u32
    ensures stays { pieces_of text.new ≡ pieces_of text.old }
    ensures no_document { result ≡ no_document ↔ (pieces_of text.old ≡ None) }
    ensures not_utf8 { result ≡ not_utf8 ↔
        (IsSome (pieces_of text.old) × ¬ (AreTexts section.now key.now)) }
    ensures absent { result ≡ absent →
        found_in (name_if named section.now) (chars key.now) (document_of text.old) ≡ None }
    ensures there { result ≡ ok →
        IsSome (found_in (name_if named section.now) (chars key.now) (document_of text.old)) }
    ensures listed { result ≡ ok → option_map values_listed
        (all_found_in (name_if named section.now) (chars key.now) (document_of text.old))
        ≡ Some (copied_listing sizes.new bytes.new counts.new) }
    ensures sizes { result ≡ no_room → IsSomeAnd (option_map values_listed
        (all_found_in (name_if named section.now) (chars key.now) (document_of text.old)))
        (AreSizesOf sizes.new) }
    ensures no_room { result ≡ no_room → fits sizes.new bytes.old counts.old ≡ false }
    ensures bytes_stay { ¬ (result ≡ ok) → bytes.new ≡ bytes.old }
    ensures counts_stay { ¬ (result ≡ ok) → counts.new ≡ counts.old }
    ensures statuses { IsTrue
        (is_among result (ok ∷ absent ∷ no_room ∷ not_utf8 ∷ no_memory ∷ no_document ∷ [])) }
{
    let Some(tied) = text.tied() else {
        return NO_DOCUMENT;
    };
    let listed = tied.with(|source| values_of(alloc, source, named, section, key));
    match listed {
        Ok(listing) => give_listing(&listing, bytes, counts, sizes),
        Err(status) => status,
    }
}

/// Copies all pairs of the first section of the name out, in order, as `bigrosk_ini_text_get_all` copies
/// values: of each pair the key and then the value.
#[unsafe(no_mangle)]
pub extern "C" fn bigrosk_ini_text_pairs(
    alloc: Global,
    text: &mut Text,
    named: bool,
    section: &[u8],
    bytes: &mut [u8],
    counts: &mut [usize],
    sizes: &mut Sizes,
) -> u32
    ensures stays { pieces_of text.new ≡ pieces_of text.old }
    ensures no_document { result ≡ no_document ↔ (pieces_of text.old ≡ None) }
    ensures not_utf8 { result ≡ not_utf8 ↔ (IsSome (pieces_of text.old) × ¬ (IsUtf8 section.now)) }
    ensures absent { result ≡ absent → ¬ (HasSection (name_if named section.now) (document_of text.old)) }
    ensures listed { result ≡ ok → option_map pairs_listed
        (pairs_found_in (name_if named section.now) (document_of text.old))
        ≡ Some (copied_listing sizes.new bytes.new counts.new) }
    ensures sizes { result ≡ no_room → IsSomeAnd (option_map pairs_listed
        (pairs_found_in (name_if named section.now) (document_of text.old))) (AreSizesOf sizes.new) }
    ensures no_room { result ≡ no_room → fits sizes.new bytes.old counts.old ≡ false }
    ensures bytes_stay { ¬ (result ≡ ok) → bytes.new ≡ bytes.old }
    ensures counts_stay { ¬ (result ≡ ok) → counts.new ≡ counts.old }
    ensures statuses { IsTrue
        (is_among result (ok ∷ absent ∷ no_room ∷ not_utf8 ∷ no_memory ∷ no_document ∷ [])) }
{
    let Some(tied) = text.tied() else {
        return NO_DOCUMENT;
    };
    let listed = tied.with(|source| pairs_of(alloc, source, named, section));
    match listed {
        Ok(listing) => give_listing(&listing, bytes, counts, sizes),
        Err(status) => status,
    }
}

/// Copies all sections with their pairs out, in order, as `bigrosk_ini_items` copies a document.
#[unsafe(no_mangle)]
pub extern "C" fn bigrosk_ini_text_items(
    alloc: Global,
    text: &mut Text,
    bytes: &mut [u8],
    counts: &mut [usize],
    sizes: &mut Sizes,
) -> u32
    ensures stays { pieces_of text.new ≡ pieces_of text.old }
    ensures no_document { result ≡ no_document ↔ (pieces_of text.old ≡ None) }
    ensures listed { result ≡ ok → option_map document_listed (document_of text.old)
        ≡ Some (copied_listing sizes.new bytes.new counts.new) }
    ensures sizes { result ≡ no_room →
        IsSomeAnd (option_map document_listed (document_of text.old)) (AreSizesOf sizes.new) }
    ensures no_room { result ≡ no_room → fits sizes.new bytes.old counts.old ≡ false }
    ensures bytes_stay { ¬ (result ≡ ok) → bytes.new ≡ bytes.old }
    ensures counts_stay { ¬ (result ≡ ok) → counts.new ≡ counts.old }
    ensures statuses { IsTrue (is_among result (ok ∷ no_room ∷ no_memory ∷ no_document ∷ [])) }
{
    let Some(tied) = text.tied() else {
        return NO_DOCUMENT;
    };
    let listed = tied.with(|source| list_sections(alloc, source));
    match listed {
        Ok(listing) => give_listing(&listing, bytes, counts, sizes),
        Err(_) => NO_MEMORY,
    }
}
