//! Look-ups over a document, by names and keys as bytes.
ghost use Rattle.std.specs.Prelude.{◌≡◌, ◌∷◌, [], ◌≤◌, ◌↔◌, IsSome, Some, None, length, slice_get};
ghost use Rattle.std.specs.Prelude.{IfErr, IfOk, IfSome, IsTrue, take};
ghost use Rattle.std.specs.Option.{option_map};
ghost use Rattle.std.specs.Str.{IsUtf8, chars};
ghost use Rattle.ini.specs.Documents.{first_section, value_in};
ghost use Rattle.ini.specs.Texts.{str_name, str_text};
ghost use Rattle.ini_c.specs.LookUps.{AreTexts, name_if, utf8_of};
ghost use Rattle.ini_c.specs.Statuses.{absent, is_among, no_room, not_utf8, ok};

use crate::copies::give;
use crate::{ABSENT, NOT_UTF8, OK};
use ini::Ini;

// Whether bytes are UTF-8.
fn is_text(bytes: &[u8]) -> bool
    ensures { IsTrue result ↔ IsUtf8 bytes.now }
{
    str::from_utf8(bytes).is_ok()
}

// A section's name, by bytes; without `named` it is the general section's.
#[inline(always)]
fn name_by_bytes<'a>(named: bool, section: &'a [u8]) -> Option<&'a [u8]>
    ensures name { str_name result ≡ name_if named section.now }
    ensures text { IfSome result (λ bytes. IsUtf8 bytes.now) ↔ (IsTrue named → IsUtf8 section.now) }
{
    if named { Some(section) } else { None }
}

// The first value of the key in the first section of the name; where there is none, the status. What is
// found by bytes is UTF-8, so they are looked at only where nothing was.
#[inline(always)]
pub(crate) fn value_at<'a>(
    document: &'a Ini,
    named: bool,
    section: &[u8],
    key: &[u8],
) -> Result<&'a str, u32>
    ensures texts { IfOk result (λ value. AreTexts section.now key.now) }
    ensures value { IfOk result (λ value.
        value_in (name_if named section.now) (chars key.now) document.now ≡ Some (str_text value)) }
    ensures bytes { IfOk result (λ value.
        utf8_of (value_in (name_if named section.now) (chars key.now) document.now) ≡ Some value.now) }
    ensures not_utf8 { IfErr result (λ status. status ≡ not_utf8 ↔ ¬ (AreTexts section.now key.now)) }
    ensures absent { IfErr result (λ status. status ≡ absent →
        value_in (name_if named section.now) (chars key.now) document.now ≡ None) }
    ensures statuses { IfErr result (λ status. IsTrue (is_among status (absent ∷ not_utf8 ∷ []))) }
{
    if !named && !is_text(section) {
        return Err(NOT_UTF8);
    }
    match document.get_by_bytes(name_by_bytes(named, section), key) {
        Some(value) => Ok(value),
        None if is_text(section) && is_text(key) => Err(ABSENT),
        None => Err(NOT_UTF8),
    }
}

// Copies the first value of the key in the first section of the name out, and a 0 after it.
#[inline(always)]
pub(crate) fn find(
    document: &Ini,
    named: bool,
    section: &[u8],
    key: &[u8],
    out: &mut [u8],
    count: &mut usize,
) -> u32
    ensures not_utf8 { result ≡ not_utf8 ↔ ¬ (AreTexts section.now key.now) }
    ensures absent { result ≡ absent →
        value_in (name_if named section.now) (chars key.now) document.now ≡ None }
    ensures value { result ≡ ok → utf8_of (value_in (name_if named section.now) (chars key.now) document.now)
        ≡ Some (take count.new out.new) }
    ensures zero { result ≡ ok → slice_get out.new count.new ≡ Some 0 }
    ensures count { result ≡ no_room → option_map length
        (utf8_of (value_in (name_if named section.now) (chars key.now) document.now)) ≡ Some count.new }
    ensures no_room { result ≡ no_room → length out.old ≤ count.new }
    ensures stays { ¬ (result ≡ ok) → out.new ≡ out.old }
    ensures statuses { IsTrue (is_among result (ok ∷ absent ∷ no_room ∷ not_utf8 ∷ [])) }
{
    match value_at(document, named, section, key) {
        Ok(value) => give(value, out, count),
        Err(status) => status,
    }
}

// Whether the first section of the name has the key.
pub(crate) fn has(document: &Ini, named: bool, section: &[u8], key: &[u8]) -> u32
    ensures not_utf8 { result ≡ not_utf8 ↔ ¬ (AreTexts section.now key.now) }
    ensures absent { result ≡ absent →
        value_in (name_if named section.now) (chars key.now) document.now ≡ None }
    ensures there { result ≡ ok →
        IsSome (value_in (name_if named section.now) (chars key.now) document.now) }
    ensures statuses { IsTrue (is_among result (ok ∷ absent ∷ not_utf8 ∷ [])) }
{
    match value_at(document, named, section, key) {
        Ok(_) => OK,
        Err(status) => status,
    }
}

// Whether a section has the name.
pub(crate) fn has_section(document: &Ini, named: bool, section: &[u8]) -> u32
    ensures not_utf8 { result ≡ not_utf8 ↔ ¬ (IsUtf8 section.now) }
    ensures absent { result ≡ absent → first_section (name_if named section.now) document.now ≡ None }
    ensures there { result ≡ ok → IsSome (first_section (name_if named section.now) document.now) }
    ensures statuses { IsTrue (is_among result (ok ∷ absent ∷ not_utf8 ∷ [])) }
{
    if !named && !is_text(section) {
        return NOT_UTF8;
    }
    match document.section_by_bytes(name_by_bytes(named, section)) {
        Some(_) => OK,
        None if is_text(section) => ABSENT,
        None => NOT_UTF8,
    }
}
