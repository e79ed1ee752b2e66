//! A value to C without a copy: a loan of the document's own bytes.
ghost use Rattle.std.specs.Prelude.{◌≡◌, ◌∷◌, [], ◌↔◌, IsTrue, IsSome, Some, None};
ghost use Rattle.std.specs.Borrow.{sem};
ghost use Rattle.std.specs.Str.{chars};
ghost use Rattle.ini_c.specs.Held.{document_in};
ghost use Rattle.ini_c.specs.Loans.{document_stays};
ghost use Rattle.ini_c.specs.LookUps.{AreTexts, found_in, name_if, utf8_of};
ghost use Rattle.ini_c.specs.Statuses.{absent, is_among, no_document, not_utf8, ok};

use crate::document::Document;
use crate::look_up::value_at;
use crate::{NO_DOCUMENT, OK};

// The value of the key, or where there is none what stood before, and the status.
#[inline(always)]
fn value_or<'a>(
    document: &'a mut Document,
    named: bool,
    section: &[u8],
    key: &[u8],
    before: &'a [u8],
) -> (&'a [u8], u32)
    ensures* stays { sem 𝓛 (document_stays document.entry) }
    ensures no_document { result.1 ≡ no_document ↔ (document_in document.old ≡ None) }
    ensures not_utf8 { result.1 ≡ not_utf8 ↔
        (IsSome (document_in document.old) × ¬ (AreTexts section.now key.now)) }
    ensures absent { result.1 ≡ absent →
        found_in (name_if named section.now) (chars key.now) (document_in document.old) ≡ None }
    ensures value { result.1 ≡ ok →
        utf8_of (found_in (name_if named section.now) (chars key.now) (document_in document.old))
        ≡ Some result.0.now }
    ensures rest { ¬ (result.1 ≡ ok) → result.0 ≡ before.entry }
    ensures statuses { IsTrue (is_among result.1 (ok ∷ absent ∷ not_utf8 ∷ no_document ∷ [])) }
{
    let Some(document) = document.loaded() else {
        return (before, NO_DOCUMENT);
    };
    match value_at(document, named, section, key) {
        Ok(value) => (value.as_bytes(), OK),
        Err(status) => (before, status),
    }
}

/// Lends the first value of the key in the first section of the name (of the general one without `named`):
/// `value` is then the document's own bytes, without a 0 after them, until the next call with the document.
///
/// Refused, `value` stays. Once the loan is over the document is as it was.
#[unsafe(no_mangle)]
pub extern "C" fn bigrosk_ini_borrow<'a>(
    document: &'a mut Document,
    named: bool,
    section: &[u8],
    key: &[u8],
    value: &mut &'a [u8],
) -> u32
    ensures* stays { sem 𝓛 (document_stays document.entry) }
    ensures no_document { result ≡ no_document ↔ (document_in document.old ≡ None) }
    ensures not_utf8 { result ≡ not_utf8 ↔
        (IsSome (document_in document.old) × ¬ (AreTexts section.now key.now)) }
    ensures absent { result ≡ absent →
        found_in (name_if named section.now) (chars key.now) (document_in document.old) ≡ None }
    ensures value { result ≡ ok →
        utf8_of (found_in (name_if named section.now) (chars key.now) (document_in document.old))
        ≡ Some value.new.now }
    ensures rest { ¬ (result ≡ ok) → value.new ≡ value.old }
    ensures statuses { IsTrue (is_among result (ok ∷ absent ∷ not_utf8 ∷ no_document ∷ [])) }
{
    let (found, status) = value_or(document, named, section, key, *value);
    *value = found;
    status
}
