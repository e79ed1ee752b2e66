//! Repeated keys of a text in pieces: one pair of several set or taken out, and all of them.
ghost use Rattle.std.specs.Prelude.{◌≡◌, ◌∷◌, [], ◌↔◌, IfErr, IfOk, IfSome, IsSome, IsSomeAnd, IsTrue};
ghost use Rattle.std.specs.Prelude.{None, map, take, true};
ghost use Rattle.std.specs.Str.{IsUtf8, chars};
ghost use Rattle.ini.specs.Texts.{str_text};
ghost use Rattle.ini_edit.specs.SourceEditsAdded.{AreAllSet, RefusesOneValue};
ghost use Rattle.ini_edit.specs.SourceEditsDelete.{deleted_from, deleted_nth};
ghost use Rattle.ini_edit.specs.SourceEditsList.{with_sections};
ghost use Rattle.ini_edit.specs.SourceEditsSet.{SetsNth};
ghost use Rattle.ini_edit.specs.SourcePlaces.{pair_place};
ghost use Rattle.ini_edit.specs.SourceWritten.{HasForm};
ghost use Rattle.ini_edit.specs.declared.error.EditError.TheVariants.{Key, Name, NoPlace, Value};
ghost use Rattle.ini_c.specs.Choices.{policy_of};
ghost use Rattle.ini_c.specs.Given.{AreGiven, IsGiven, after_given, values_given};
ghost use Rattle.ini_c.specs.Held.{document_of, pieces_of};
ghost use Rattle.ini_c.specs.LookUps.{AreTexts, found_in, name_if};
ghost use Rattle.ini_c.specs.Statuses.{absent, is_among, no_document, no_memory, no_place, not_utf8, ok};
ghost use Rattle.ini_c.specs.Statuses.{unplain_key, unplain_name, unplain_value};
ghost use Rattle.ini_c.specs.Texts.{Asks, Changes};

use crate::copies::{pair_of, place_of};
use crate::document::Text;
use crate::options::WriteChoice;
use crate::refusal::status_of;
use crate::{ABSENT, NO_DOCUMENT, NO_MEMORY, NOT_UTF8, OK, UNPLAIN_VALUE};
use ini_edit::{EditError, Source};
use std::alloc::Global;

/// Sets the value of the pair of the key before which `n` others of it stand in the first section of the
/// name. The rest is as `bigrosk_ini_text_set` has it, but that other pairs stay; `ABSENT` where there is
/// no such pair.
#[unsafe(no_mangle)]
pub extern "C" fn bigrosk_ini_text_set_nth(
    alloc: Global,
    text: &mut Text,
    write: &WriteChoice,
    named: bool,
    section: &[u8],
    key: &[u8],
    n: usize,
    value: &[u8],
) -> u32
    ensures no_document { result ≡ no_document ↔ (pieces_of text.old ≡ None) }
    ensures not_utf8 { result ≡ not_utf8 ↔
        (IsSome (pieces_of text.old) × ¬ (AreTexts section.now key.now × IsUtf8 value.now)) }
    ensures set { result ≡ ok → Changes
        (λ old new. SetsNth old.option (policy_of write.now.policy) old new
        (name_if named section.now) (chars key.now) n (chars value.now) true)
        (pieces_of text.old) (pieces_of text.new) }
    ensures absent { result ≡ absent → IsSomeAnd (pieces_of text.old)
        (λ p. pair_place (name_if named section.now) (chars key.now) n p.sections ≡ None) }
    ensures unplain_value { result ≡ unplain_value → IsSomeAnd (pieces_of text.old)
        (λ p. ¬ HasForm p.option (policy_of write.now.policy) (chars value.now)) }
    ensures unchanged { ¬ (result ≡ ok) → pieces_of text.new ≡ pieces_of text.old }
    ensures statuses { IsTrue (is_among result (ok ∷ absent ∷ not_utf8 ∷ no_memory ∷ no_document
        ∷ unplain_value
        ∷ [])) }
{
    let Some(tied) = text.tied() else {
        return NO_DOCUMENT;
    };
    tied.with(|source| {
        let Some((name, key, value)) = pair_of(named, section, key, value) else {
            return NOT_UTF8;
        };
        let policy = write.to_option().escape_policy;
        match source.set_nth(alloc, policy, name, key, n, value) {
            Ok(true) => OK,
            Ok(false) => ABSENT,
            Err(EditError::Value) => UNPLAIN_VALUE,
            Err(_) => NO_MEMORY,
        }
    })
}

/// Takes out the pair of the key before which `n` others of it stand in the first section of the name.
/// The rest is as `bigrosk_ini_text_delete` has it.
#[unsafe(no_mangle)]
pub extern "C" fn bigrosk_ini_text_delete_nth(
    alloc: Global,
    text: &mut Text,
    named: bool,
    section: &[u8],
    key: &[u8],
    n: usize,
) -> u32
    ensures no_document { result ≡ no_document ↔ (pieces_of text.old ≡ None) }
    ensures not_utf8 { result ≡ not_utf8 ↔
        (IsSome (pieces_of text.old) × ¬ (AreTexts section.now key.now)) }
    ensures deleted { result ≡ ok → Changes
        (λ old new. new ≡ with_sections old
        (deleted_nth old.option (name_if named section.now) (chars key.now) n old.sections))
        (pieces_of text.old) (pieces_of text.new) }
    ensures absent { result ≡ absent → IsSomeAnd (pieces_of text.old)
        (λ p. pair_place (name_if named section.now) (chars key.now) n p.sections ≡ None) }
    ensures unchanged { ¬ (result ≡ ok) → pieces_of text.new ≡ pieces_of text.old }
    ensures statuses { IsTrue (is_among result (ok ∷ absent ∷ not_utf8 ∷ no_memory ∷ no_document ∷ [])) }
{
    let Some(tied) = text.tied() else {
        return NO_DOCUMENT;
    };
    tied.with(|source| {
        let Some((name, key)) = place_of(named, section, key) else {
            return NOT_UTF8;
        };
        match source.delete_nth(alloc, name, key, n) {
            Ok(true) => OK,
            Ok(false) => ABSENT,
            Err(_) => NO_MEMORY,
        }
    })
}

/// Takes out all pairs of the key in the first section of the name. The rest is as
/// `bigrosk_ini_text_delete` has it.
#[unsafe(no_mangle)]
pub extern "C" fn bigrosk_ini_text_delete_all(
    alloc: Global,
    text: &mut Text,
    named: bool,
    section: &[u8],
    key: &[u8],
) -> u32
    ensures no_document { result ≡ no_document ↔ (pieces_of text.old ≡ None) }
    ensures not_utf8 { result ≡ not_utf8 ↔
        (IsSome (pieces_of text.old) × ¬ (AreTexts section.now key.now)) }
    ensures deleted { result ≡ ok → Changes
        (λ old new. new ≡ with_sections old
        (deleted_from old.option (name_if named section.now) (chars key.now) 0 old.sections))
        (pieces_of text.old) (pieces_of text.new) }
    ensures there { result ≡ ok →
        IsSome (found_in (name_if named section.now) (chars key.now) (document_of text.old)) }
    ensures absent { result ≡ absent →
        found_in (name_if named section.now) (chars key.now) (document_of text.old) ≡ None }
    ensures unchanged { ¬ (result ≡ ok) → pieces_of text.new ≡ pieces_of text.old }
    ensures statuses { IsTrue (is_among result (ok ∷ absent ∷ not_utf8 ∷ no_memory ∷ no_document ∷ [])) }
{
    let Some(tied) = text.tied() else {
        return NO_DOCUMENT;
    };
    tied.with(|source| {
        let Some((name, key)) = place_of(named, section, key) else {
            return NOT_UTF8;
        };
        if source.get(name, key).is_none() {
            return ABSENT;
        }
        match source.delete_all(alloc, name, key) {
            Ok(_) => OK,
            Err(_) => NO_MEMORY,
        }
    })
}

// Gives the key the values that C gives, in the pieces of a text; the status of that.
fn set_all_given(
    alloc: Global,
    source: &mut Source<'_>,
    write: &WriteChoice,
    named: bool,
    section: &[u8],
    key: &[u8],
    bytes: &[u8],
    counts: &[usize],
) -> u32
    ensures not_utf8 { result ≡ not_utf8 →
        ¬ (AreTexts section.now key.now × AreGiven bytes.now counts.now) }
    ensures texts { ¬ (IsTrue (is_among result (not_utf8 ∷ no_memory ∷ [])))
        → (AreTexts section.now key.now × AreGiven bytes.now counts.now) }
    ensures set { result ≡ ok → Asks write.now (λ w. AreAllSet source.old.option w source.old source.new
        (name_if named section.now) (chars key.now) (values_given bytes.now counts.now)) }
    ensures unplain_value { result ≡ unplain_value → Asks write.now (λ w. RefusesOneValue
        source.old.option w source.old
        (name_if named section.now) (chars key.now) (values_given bytes.now counts.now) Value) }
    ensures unplain_key { result ≡ unplain_key → Asks write.now (λ w. RefusesOneValue
        source.old.option w source.old
        (name_if named section.now) (chars key.now) (values_given bytes.now counts.now) Key) }
    ensures unplain_name { result ≡ unplain_name → Asks write.now (λ w. RefusesOneValue
        source.old.option w source.old
        (name_if named section.now) (chars key.now) (values_given bytes.now counts.now) Name) }
    ensures no_place { result ≡ no_place → Asks write.now (λ w. RefusesOneValue
        source.old.option w source.old
        (name_if named section.now) (chars key.now) (values_given bytes.now counts.now) NoPlace) }
    ensures unchanged { ¬ (result ≡ ok) → source.new ≡ source.old }
    ensures statuses { IsTrue (is_among result (ok ∷ not_utf8 ∷ no_memory
        ∷ unplain_value ∷ unplain_key
        ∷ no_place ∷ unplain_name ∷ [])) }
{
    let Some((name, key)) = place_of(named, section, key) else {
        return NOT_UTF8;
    };
    let values = match values_given(alloc, bytes, counts) {
        Ok(values) => values,
        Err(status) => return status,
    };
    let option = write.to_option();
    match source.set_all(alloc, &option, name, key, values.as_slice()) {
        Ok(()) => OK,
        Err(refusal) => status_of(refusal),
    }
}

/// Gives the key these values, in order, in the first section of the name: its pairs get them one after
/// another, each value more stands in a new pair, and each pair more is taken out. The values stand in
/// `bytes` one after another, each with one byte after it, and `counts` has how many bytes each has, as a
/// listing does; no value takes all pairs out.
///
/// `NOT_UTF8` also where the bytes have no room for so many; else what `bigrosk_ini_text_set` answers.
#[unsafe(no_mangle)]
pub extern "C" fn bigrosk_ini_text_set_all(
    alloc: Global,
    text: &mut Text,
    write: &WriteChoice,
    named: bool,
    section: &[u8],
    key: &[u8],
    bytes: &[u8],
    counts: &[usize],
) -> u32
    ensures no_document { result ≡ no_document ↔ (pieces_of text.old ≡ None) }
    ensures not_utf8 { result ≡ not_utf8 →
        (IsSome (pieces_of text.old) × ¬ (AreTexts section.now key.now × AreGiven bytes.now counts.now)) }
    ensures texts { ¬ (IsTrue (is_among result (not_utf8 ∷ no_memory ∷ no_document ∷ [])))
        → (AreTexts section.now key.now × AreGiven bytes.now counts.now) }
    ensures set { result ≡ ok → Changes
        (λ old new. Asks write.now (λ w. AreAllSet old.option w old new
        (name_if named section.now) (chars key.now) (values_given bytes.now counts.now)))
        (pieces_of text.old) (pieces_of text.new) }
    ensures unplain_value { result ≡ unplain_value → IsSomeAnd (pieces_of text.old)
        (λ p. Asks write.now (λ w. RefusesOneValue p.option w p
        (name_if named section.now) (chars key.now) (values_given bytes.now counts.now) Value)) }
    ensures unplain_key { result ≡ unplain_key → IsSomeAnd (pieces_of text.old)
        (λ p. Asks write.now (λ w. RefusesOneValue p.option w p
        (name_if named section.now) (chars key.now) (values_given bytes.now counts.now) Key)) }
    ensures unplain_name { result ≡ unplain_name → IsSomeAnd (pieces_of text.old)
        (λ p. Asks write.now (λ w. RefusesOneValue p.option w p
        (name_if named section.now) (chars key.now) (values_given bytes.now counts.now) Name)) }
    ensures no_place { result ≡ no_place → IsSomeAnd (pieces_of text.old)
        (λ p. Asks write.now (λ w. RefusesOneValue p.option w p
        (name_if named section.now) (chars key.now) (values_given bytes.now counts.now) NoPlace)) }
    ensures unchanged { ¬ (result ≡ ok) → pieces_of text.new ≡ pieces_of text.old }
    ensures statuses { IsTrue (is_among result (ok ∷ not_utf8 ∷ no_memory ∷ no_document
        ∷ unplain_value ∷ unplain_key
        ∷ no_place ∷ unplain_name ∷ [])) }
{
    let Some(tied) = text.tied() else {
        return NO_DOCUMENT;
    };
    tied.with(|source| set_all_given(alloc, source, write, named, section, key, bytes, counts))
}

// The text of so many bytes at the front, and what follows it and one byte more; none where that is no text,
// or there is no room for it.
pub(crate) fn first_given(bytes: &[u8], count: usize) -> Option<(&str, &[u8])>
    ensures given { IsSome result ↔ IsGiven bytes.now count }
    ensures text { IfSome result (λ t. t.0.now ≡ take count bytes.now) }
    ensures rest { IfSome result (λ t. t.1.now ≡ after_given bytes.now count) }
{
    if bytes.len() <= count {
        return None;
    }
    let Ok(text) = str::from_utf8(&bytes[..count]) else {
        return None;
    };
    Some((text, &bytes[count + 1..]))
}

// The values that C gives, in order, or the status.
fn values_given<'a>(alloc: Global, bytes: &'a [u8], counts: &[usize]) -> Result<Vec<&'a str>, u32>
    ensures values { IfOk result (λ values. map str_text values.items ≡ values_given bytes.now counts.now) }
    ensures given { IfOk result (λ values. AreGiven bytes.now counts.now) }
    ensures not_utf8 { IfErr result (λ status. status ≡ not_utf8 → ¬ AreGiven bytes.now counts.now) }
    ensures statuses { IfErr result (λ status. IsTrue (is_among status (not_utf8 ∷ no_memory ∷ []))) }
{
    let mut values = Vec::new(alloc);
    let mut rest = bytes;
    for count in counts {
        let Some((value, following)) = first_given(rest, *count) else {
            return Err(NOT_UTF8);
        };
        let Ok(()) = values.push(value) else {
            return Err(NO_MEMORY);
        };
        rest = following;
    }
    Ok(values)
}
