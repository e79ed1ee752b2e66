//! Look-ups in a text in pieces, by names and keys as bytes.
ghost use Rattle.std.specs.Prelude.{◌≡◌, ◌∷◌, [], ◌≤◌, ◌↔◌, IfErr, IfOk, IsSome, IsSomeAnd, IsTrue};
ghost use Rattle.std.specs.Prelude.{None, Some, length, slice_get, take};
ghost use Rattle.std.specs.Borrow.{sem};
ghost use Rattle.std.specs.Option.{option_and_then, option_map};
ghost use Rattle.std.specs.Str.{IsUtf8, chars};
ghost use Rattle.ini.specs.Documents.{value_in};
ghost use Rattle.ini.specs.Texts.{str_text};
ghost use Rattle.ini_edit.specs.Sources.{document_in};
ghost use Rattle.ini_c.specs.Held.{document_of, pieces_of};
ghost use Rattle.ini_c.specs.Loans.{text_stays};
ghost use Rattle.ini_c.specs.LookUps.{AreTexts, HasSection, found_in, name_if, utf8_of};
ghost use Rattle.ini_c.specs.Statuses.{absent, is_among, no_document, no_room, not_utf8, ok};
ghost use Rattle.ini_c.specs.Texts.{TellsPlace, value_place};

use crate::copies::{give, name_of, place_of};
use crate::document::Text;
use crate::tied::Asked;
use crate::{ABSENT, NO_DOCUMENT, NOT_UTF8, OK};
use ini_edit::Source;

/// Where a value stands in a text: its line and its column, both from 1, in characters.
#[repr(C)]
#[derive(Drop)]
pub struct Place {
    pub line: usize,
    pub column: usize,
}

// The first value of the key in the first section of the name; where there is none, the status.
pub(crate) fn value_at<'a>(
    source: &'a Source<'_>,
    named: bool,
    section: &[u8],
    key: &[u8],
) -> Result<&'a str, u32>
    ensures texts { IfOk result (λ value. AreTexts section.now key.now) }
    ensures value { IfOk result (λ value. value_in (name_if named section.now) (chars key.now)
        (document_in source.now) ≡ Some (str_text value)) }
    ensures bytes { IfOk result (λ value. utf8_of (value_in (name_if named section.now) (chars key.now)
        (document_in source.now)) ≡ Some value.now) }
    ensures not_utf8 { IfErr result (λ status. status ≡ not_utf8 ↔ ¬ (AreTexts section.now key.now)) }
    ensures absent { IfErr result (λ status. status ≡ absent →
        value_in (name_if named section.now) (chars key.now) (document_in source.now) ≡ None) }
    ensures statuses { IfErr result (λ status. IsTrue (is_among status (absent ∷ not_utf8 ∷ []))) }
{
    let Some((name, key)) = place_of(named, section, key) else {
        return Err(NOT_UTF8);
    };
    match source.get(name, key) {
        Some(value) => Ok(value),
        None => Err(ABSENT),
    }
}

/// Copies the first value of the key in the first section of the name (of the general one without `named`)
/// out, and a 0 after it. `count` is the value's number of bytes, where it fits and where it doesn't.
#[unsafe(no_mangle)]
pub extern "C" fn bigrosk_ini_text_get(
    text: &mut Text,
    named: bool,
    section: &[u8],
    key: &[u8],
    value: &mut [u8],
    count: &mut usize,
) -> u32
    ensures stays { pieces_of text.new ≡ pieces_of text.old }
    ensures no_document { result ≡ no_document ↔ (pieces_of text.old ≡ None) }
    ensures not_utf8 { result ≡ not_utf8 ↔
        (IsSome (pieces_of text.old) × ¬ (AreTexts section.now key.now)) }
    ensures absent { result ≡ absent →
        found_in (name_if named section.now) (chars key.now) (document_of text.old) ≡ None }
    ensures value { result ≡ ok
        → utf8_of (found_in (name_if named section.now) (chars key.now) (document_of text.old))
        ≡ Some (take count.new value.new) }
    ensures zero { result ≡ ok → slice_get value.new count.new ≡ Some 0 }
    ensures count { result ≡ no_room → option_map length
        (utf8_of (found_in (name_if named section.now) (chars key.now) (document_of text.old)))
        ≡ Some count.new }
    ensures no_room { result ≡ no_room → length value.old ≤ count.new }
    ensures rest { ¬ (result ≡ ok) → value.new ≡ value.old }
    ensures statuses { IsTrue (is_among result (ok ∷ absent ∷ no_room ∷ not_utf8 ∷ no_document ∷ [])) }
{
    let Some(tied) = text.tied() else {
        return NO_DOCUMENT;
    };
    tied.with_both(&mut (value, count), |source, (value, count)| {
        match value_at(source, named, section, key) {
            Ok(found) => give(found, *value, *count),
            Err(status) => status,
        }
    })
}

// The value of the key, or where there is none what stood before, and the status.
#[inline(always)]
fn value_or<'a>(
    text: &'a mut Text,
    named: bool,
    section: &[u8],
    key: &[u8],
    before: &'a [u8],
) -> (&'a [u8], u32)
    ensures* stays { sem 𝓛 (text_stays text.entry) }
    ensures no_document { result.1 ≡ no_document ↔ (pieces_of text.old ≡ None) }
    ensures not_utf8 { result.1 ≡ not_utf8 ↔
        (IsSome (pieces_of text.old) × ¬ (AreTexts section.now key.now)) }
    ensures absent { result.1 ≡ absent →
        found_in (name_if named section.now) (chars key.now) (document_of text.old) ≡ None }
    ensures value { result.1 ≡ ok →
        utf8_of (found_in (name_if named section.now) (chars key.now) (document_of text.old))
        ≡ Some result.0.now }
    ensures rest { ¬ (result.1 ≡ ok) → result.0 ≡ before.entry }
    ensures statuses { IsTrue (is_among result.1 (ok ∷ absent ∷ not_utf8 ∷ no_document ∷ [])) }
{
    let Some(tied) = text.tied() else {
        return (before, NO_DOCUMENT);
    };
    match tied.found(Asked {
        named,
        section,
        key,
    }) {
        (value, OK) => (value, OK),
        (_, status) => (before, status),
    }
}

/// Lends the first value of the key in the first section of the name (of the general one without `named`):
/// `value` is then the text's own bytes, without quotes and escapes, and without a 0 after them, until the
/// next call with the text.
///
/// Refused, `value` stays. Once the loan is over the text is as it was.
#[unsafe(no_mangle)]
pub extern "C" fn bigrosk_ini_text_borrow<'a>(
    text: &'a mut Text,
    named: bool,
    section: &[u8],
    key: &[u8],
    value: &mut &'a [u8],
) -> u32
    ensures* stays { sem 𝓛 (text_stays text.entry) }
    ensures no_document { result ≡ no_document ↔ (pieces_of text.old ≡ None) }
    ensures not_utf8 { result ≡ not_utf8 ↔
        (IsSome (pieces_of text.old) × ¬ (AreTexts section.now key.now)) }
    ensures absent { result ≡ absent →
        found_in (name_if named section.now) (chars key.now) (document_of text.old) ≡ None }
    ensures value { result ≡ ok →
        utf8_of (found_in (name_if named section.now) (chars key.now) (document_of text.old))
        ≡ Some value.new.now }
    ensures rest { ¬ (result ≡ ok) → value.new ≡ value.old }
    ensures statuses { IsTrue (is_among result (ok ∷ absent ∷ not_utf8 ∷ no_document ∷ [])) }
{
    let (found, status) = value_or(text, named, section, key, *value);
    *value = found;
    status
}

/// Whether the first section of the name has the key: `OK` or `ABSENT`.
#[unsafe(no_mangle)]
pub extern "C" fn bigrosk_ini_text_has(
    text: &mut Text,
    named: bool,
    section: &[u8],
    key: &[u8],
) -> u32
    ensures stays { pieces_of text.new ≡ pieces_of text.old }
    ensures no_document { result ≡ no_document ↔ (pieces_of text.old ≡ None) }
    ensures not_utf8 { result ≡ not_utf8 ↔
        (IsSome (pieces_of text.old) × ¬ (AreTexts section.now key.now)) }
    ensures absent { result ≡ absent →
        found_in (name_if named section.now) (chars key.now) (document_of text.old) ≡ None }
    ensures there { result ≡ ok →
        IsSome (found_in (name_if named section.now) (chars key.now) (document_of text.old)) }
    ensures statuses { IsTrue (is_among result (ok ∷ absent ∷ not_utf8 ∷ no_document ∷ [])) }
{
    let Some(tied) = text.tied() else {
        return NO_DOCUMENT;
    };
    tied.with(|source| match value_at(source, named, section, key) {
        Ok(_) => OK,
        Err(status) => status,
    })
}

/// Whether a section has the name: `OK` or `ABSENT`.
#[unsafe(no_mangle)]
pub extern "C" fn bigrosk_ini_text_has_section(text: &mut Text, named: bool, section: &[u8]) -> u32
    ensures stays { pieces_of text.new ≡ pieces_of text.old }
    ensures no_document { result ≡ no_document ↔ (pieces_of text.old ≡ None) }
    ensures not_utf8 { result ≡ not_utf8 ↔ (IsSome (pieces_of text.old) × ¬ (IsUtf8 section.now)) }
    ensures absent { result ≡ absent → ¬ (HasSection (name_if named section.now) (document_of text.old)) }
    ensures there { result ≡ ok → HasSection (name_if named section.now) (document_of text.old) }
    ensures statuses { IsTrue (is_among result (ok ∷ absent ∷ not_utf8 ∷ no_document ∷ [])) }
{
    let Some(tied) = text.tied() else {
        return NO_DOCUMENT;
    };
    let Ok(section) = str::from_utf8(section) else {
        return NOT_UTF8;
    };
    tied.with(|source| match source.section(name_of(named, section)) {
        Some(_) => OK,
        None => ABSENT,
    })
}

/// Tells where the first value of the key in the first section of the name begins in the text as it now is,
/// with its quotes.
#[unsafe(no_mangle)]
pub extern "C" fn bigrosk_ini_text_place(
    text: &mut Text,
    named: bool,
    section: &[u8],
    key: &[u8],
    place: &mut Place,
) -> u32
    ensures stays { pieces_of text.new ≡ pieces_of text.old }
    ensures no_document { result ≡ no_document ↔ (pieces_of text.old ≡ None) }
    ensures not_utf8 { result ≡ not_utf8 ↔
        (IsSome (pieces_of text.old) × ¬ (AreTexts section.now key.now)) }
    ensures absent { result ≡ absent →
        option_and_then (value_place (name_if named section.now) (chars key.now)) (pieces_of text.old)
        ≡ None }
    ensures told { result ≡ ok → IsSomeAnd (option_and_then (value_place (name_if named section.now)
        (chars key.now)) (pieces_of text.old)) (λ position. TellsPlace position place.new) }
    ensures rest { ¬ (result ≡ ok) → place.new ≡ place.old }
    ensures statuses { IsTrue (is_among result (ok ∷ absent ∷ not_utf8 ∷ no_document ∷ [])) }
{
    let Some(tied) = text.tied() else {
        return NO_DOCUMENT;
    };
    tied.with_both(place, |source, place| {
        let Some((name, key)) = place_of(named, section, key) else {
            return NOT_UTF8;
        };
        let Some(position) = source.position_of_value(name, key) else {
            return ABSENT;
        };
        place.line = position.line;
        place.column = position.column;
        OK
    })
}
