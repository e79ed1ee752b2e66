//! Values of a text in pieces set, added and taken out, by names, keys and values as bytes.
ghost use Rattle.std.specs.Prelude.{◌≡◌, ◌∷◌, [], ◌↔◌, IsSome, IsSomeAnd, IsTrue, None};
ghost use Rattle.std.specs.Option.{option_map};
ghost use Rattle.std.specs.Str.{IsUtf8, chars};
ghost use Rattle.ini.specs.Edits.{add_in, delete_in, set_in};
ghost use Rattle.ini_edit.specs.SourceEditsAdded.{IsAddedIn, IsSetIn, RefusesAdding, RefusesToSetIn};
ghost use Rattle.ini_edit.specs.SourceEditsDelete.{deleted_nth};
ghost use Rattle.ini_edit.specs.SourceEditsList.{with_sections};
ghost use Rattle.ini_edit.specs.SourcePlaces.{pair_place};
ghost use Rattle.ini_edit.specs.Sources.{document_in};
ghost use Rattle.ini_edit.specs.declared.error.EditError.TheVariants.{Key, Name, NoPlace, Value};
ghost use Rattle.ini_edit.specs.declared.source.set.LaterPairs.TheVariants.{TakenOut};
ghost use Rattle.ini_c.specs.Held.{document_of, pieces_of};
ghost use Rattle.ini_c.specs.LookUps.{AreTexts, name_if};
ghost use Rattle.ini_c.specs.Statuses.{absent, is_among, no_document, no_memory, no_place, not_utf8, ok};
ghost use Rattle.ini_c.specs.Statuses.{unplain_key, unplain_name, unplain_value};
ghost use Rattle.ini_c.specs.Texts.{Asks, Changes};

use crate::copies::{pair_of, place_of};
use crate::document::Text;
use crate::options::WriteChoice;
use crate::refusal::status_of;
use crate::{ABSENT, NO_DOCUMENT, NO_MEMORY, NOT_UTF8, OK};
use ini_edit::{LaterPairs, Source};
use std::alloc::Global;

// Sets the value of the key in the pieces of a text; the status of that.
fn set_given(
    alloc: Global,
    source: &mut Source<'_>,
    write: &WriteChoice,
    named: bool,
    section: &[u8],
    key: &[u8],
    value: &[u8],
) -> u32
    ensures not_utf8 { result ≡ not_utf8 ↔ ¬ (AreTexts section.now key.now × IsUtf8 value.now) }
    ensures set { result ≡ ok → Asks write.now (λ w. IsSetIn source.old.option w TakenOut
        source.old source.new (name_if named section.now) (chars key.now) (chars value.now)) }
    ensures document { result ≡ ok → document_in source.new
        ≡ set_in (name_if named section.now) (chars key.now) (chars value.now) (document_in source.old) }
    ensures unplain_value { result ≡ unplain_value → Asks write.now (λ w. RefusesToSetIn
        source.old.option w source.old.sections
        (name_if named section.now) (chars key.now) (chars value.now) Value) }
    ensures unplain_key { result ≡ unplain_key → Asks write.now (λ w. RefusesToSetIn
        source.old.option w source.old.sections
        (name_if named section.now) (chars key.now) (chars value.now) Key) }
    ensures unplain_name { result ≡ unplain_name → Asks write.now (λ w. RefusesToSetIn
        source.old.option w source.old.sections
        (name_if named section.now) (chars key.now) (chars value.now) Name) }
    ensures no_place { result ≡ no_place → Asks write.now (λ w. RefusesToSetIn
        source.old.option w source.old.sections
        (name_if named section.now) (chars key.now) (chars value.now) NoPlace) }
    ensures unchanged { ¬ (result ≡ ok) → source.new ≡ source.old }
    ensures statuses { IsTrue (is_among result (ok ∷ not_utf8 ∷ no_memory
        ∷ unplain_value ∷ unplain_key
        ∷ no_place ∷ unplain_name ∷ [])) }
{
    let Some((name, key, value)) = pair_of(named, section, key, value) else {
        return NOT_UTF8;
    };
    let option = write.to_option();
    match source.set(alloc, &option, LaterPairs::TakenOut, name, key, value) {
        Ok(()) => OK,
        Err(refusal) => status_of(refusal),
    }
}

/// Sets the value of the key: of its first pair in the first section of the name, and its later pairs
/// there are taken out; where the section lacks the key, in a new pair, as `bigrosk_ini_text_add` puts
/// one in. A value that is there already stays as it is written; another one is written in the first form
/// that is read back.
///
/// `UNPLAIN_VALUE` where no form is; where the key isn't there also what `bigrosk_ini_text_add` answers.
#[unsafe(no_mangle)]
pub extern "C" fn bigrosk_ini_text_set(
    alloc: Global,
    text: &mut Text,
    write: &WriteChoice,
    named: bool,
    section: &[u8],
    key: &[u8],
    value: &[u8],
) -> u32
    ensures no_document { result ≡ no_document ↔ (pieces_of text.old ≡ None) }
    ensures not_utf8 { result ≡ not_utf8 ↔
        (IsSome (pieces_of text.old) × ¬ (AreTexts section.now key.now × IsUtf8 value.now)) }
    ensures set { result ≡ ok → Changes
        (λ old new. Asks write.now (λ w. IsSetIn old.option w TakenOut old new
        (name_if named section.now) (chars key.now) (chars value.now)))
        (pieces_of text.old) (pieces_of text.new) }
    ensures document { result ≡ ok → document_of text.new
        ≡ option_map (set_in (name_if named section.now) (chars key.now) (chars value.now))
        (document_of text.old) }
    ensures unplain_value { result ≡ unplain_value → IsSomeAnd (pieces_of text.old)
        (λ p. Asks write.now (λ w. RefusesToSetIn p.option w p.sections
        (name_if named section.now) (chars key.now) (chars value.now) Value)) }
    ensures unplain_key { result ≡ unplain_key → IsSomeAnd (pieces_of text.old)
        (λ p. Asks write.now (λ w. RefusesToSetIn p.option w p.sections
        (name_if named section.now) (chars key.now) (chars value.now) Key)) }
    ensures unplain_name { result ≡ unplain_name → IsSomeAnd (pieces_of text.old)
        (λ p. Asks write.now (λ w. RefusesToSetIn p.option w p.sections
        (name_if named section.now) (chars key.now) (chars value.now) Name)) }
    ensures no_place { result ≡ no_place → IsSomeAnd (pieces_of text.old)
        (λ p. Asks write.now (λ w. RefusesToSetIn p.option w p.sections
        (name_if named section.now) (chars key.now) (chars value.now) NoPlace)) }
    ensures unchanged { ¬ (result ≡ ok) → pieces_of text.new ≡ pieces_of text.old }
    ensures statuses { IsTrue (is_among result (ok ∷ not_utf8 ∷ no_memory ∷ no_document
        ∷ unplain_value ∷ unplain_key
        ∷ no_place ∷ unplain_name ∷ [])) }
{
    let Some(tied) = text.tied() else {
        return NO_DOCUMENT;
    };
    tied.with(|source| set_given(alloc, source, write, named, section, key, value))
}

/// Adds a further pair, whatever pairs of the key are there: in a line of its own directly after the last
/// pair of the first section of the name, written as that is; where there is no such section, in a new
/// one at the text's end.
///
/// `UNPLAIN_VALUE` or `UNPLAIN_KEY`, in this order, where that can't be written so that it is read back;
/// then `UNPLAIN_NAME` where a section would be new, and `NO_PLACE`.
#[unsafe(no_mangle)]
pub extern "C" fn bigrosk_ini_text_add(
    alloc: Global,
    text: &mut Text,
    write: &WriteChoice,
    named: bool,
    section: &[u8],
    key: &[u8],
    value: &[u8],
) -> u32
    ensures no_document { result ≡ no_document ↔ (pieces_of text.old ≡ None) }
    ensures not_utf8 { result ≡ not_utf8 ↔
        (IsSome (pieces_of text.old) × ¬ (AreTexts section.now key.now × IsUtf8 value.now)) }
    ensures added { result ≡ ok → Changes
        (λ old new. Asks write.now (λ w. IsAddedIn old.option w old new
        (name_if named section.now) (chars key.now) (chars value.now)))
        (pieces_of text.old) (pieces_of text.new) }
    ensures document { result ≡ ok → document_of text.new
        ≡ option_map (add_in (name_if named section.now) (chars key.now) (chars value.now))
        (document_of text.old) }
    ensures unplain_value { result ≡ unplain_value → IsSomeAnd (pieces_of text.old)
        (λ p. Asks write.now (λ w. RefusesAdding p.option w p.sections
        (name_if named section.now) (chars key.now) (chars value.now) Value)) }
    ensures unplain_key { result ≡ unplain_key → IsSomeAnd (pieces_of text.old)
        (λ p. Asks write.now (λ w. RefusesAdding p.option w p.sections
        (name_if named section.now) (chars key.now) (chars value.now) Key)) }
    ensures unplain_name { result ≡ unplain_name → IsSomeAnd (pieces_of text.old)
        (λ p. Asks write.now (λ w. RefusesAdding p.option w p.sections
        (name_if named section.now) (chars key.now) (chars value.now) Name)) }
    ensures no_place { result ≡ no_place → IsSomeAnd (pieces_of text.old)
        (λ p. Asks write.now (λ w. RefusesAdding p.option w p.sections
        (name_if named section.now) (chars key.now) (chars value.now) NoPlace)) }
    ensures unchanged { ¬ (result ≡ ok) → pieces_of text.new ≡ pieces_of text.old }
    ensures statuses { IsTrue (is_among result (ok ∷ not_utf8 ∷ no_memory ∷ no_document
        ∷ unplain_value ∷ unplain_key
        ∷ no_place ∷ unplain_name ∷ [])) }
{
    let Some(tied) = text.tied() else {
        return NO_DOCUMENT;
    };
    let option = write.to_option();
    let answer = tied.with(|source| {
        let (name, key, value) = pair_of(named, section, key, value)?;
        Some(source.add(alloc, &option, name, key, value))
    });
    match answer {
        Some(Ok(())) => OK,
        Some(Err(refusal)) => status_of(refusal),
        None => NOT_UTF8,
    }
}

/// Takes the first pair of the key out of the first section of the name, with its line and its line end
/// where what follows is read as before.
#[unsafe(no_mangle)]
pub extern "C" fn bigrosk_ini_text_delete(
    alloc: Global,
    text: &mut Text,
    named: bool,
    section: &[u8],
    key: &[u8],
) -> u32
    ensures no_document { result ≡ no_document ↔ (pieces_of text.old ≡ None) }
    ensures not_utf8 { result ≡ not_utf8 ↔
        (IsSome (pieces_of text.old) × ¬ (AreTexts section.now key.now)) }
    ensures deleted { result ≡ ok → Changes
        (λ old new. new ≡ with_sections old
        (deleted_nth old.option (name_if named section.now) (chars key.now) 0 old.sections))
        (pieces_of text.old) (pieces_of text.new) }
    ensures document { result ≡ ok → document_of text.new
        ≡ option_map (delete_in (name_if named section.now) (chars key.now)) (document_of text.old) }
    ensures absent { result ≡ absent → IsSomeAnd (pieces_of text.old)
        (λ p. pair_place (name_if named section.now) (chars key.now) 0 p.sections ≡ None) }
    ensures unchanged { ¬ (result ≡ ok) → pieces_of text.new ≡ pieces_of text.old }
    ensures statuses { IsTrue (is_among result (ok ∷ absent ∷ not_utf8 ∷ no_memory ∷ no_document ∷ [])) }
{
    let Some(tied) = text.tied() else {
        return NO_DOCUMENT;
    };
    tied.with(|source| {
        let Some((name, key)) = place_of(named, section, key) else {
            return NOT_UTF8;
        };
        match source.delete(alloc, name, key) {
            Ok(true) => OK,
            Ok(false) => ABSENT,
            Err(_) => NO_MEMORY,
        }
    })
}
