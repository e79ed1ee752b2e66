//! Keys and sections of a text in pieces renamed, and sections put in and taken out.
ghost use Rattle.std.specs.Prelude.{◌≡◌, ◌∷◌, [], ◌↔◌, IsSome, IsSomeAnd, IsTrue, None, Some};
ghost use Rattle.std.specs.Option.{option_map};
ghost use Rattle.std.specs.Str.{IsUtf8, chars};
ghost use Rattle.ini.specs.Documents.{section_removed};
ghost use Rattle.ini_text.specs.Laws.Plain.{IsPlainName};
ghost use Rattle.ini_edit.specs.Renamed.{IsPlainBareKey};
ghost use Rattle.ini_edit.specs.SourceEdits.{IsKeyRenamed, IsNameRenamed};
ghost use Rattle.ini_edit.specs.SourceEditsAdded.{IsSectionAdded};
ghost use Rattle.ini_edit.specs.SourceEditsList.{with_sections};
ghost use Rattle.ini_edit.specs.SourceEditsSections.{section_deleted};
ghost use Rattle.ini_edit.specs.SourcePlaces.{section_place};
ghost use Rattle.ini_c.specs.Choices.{policy_of};
ghost use Rattle.ini_c.specs.Held.{document_of, pieces_of};
ghost use Rattle.ini_c.specs.LookUps.{AreTexts, HasSection, found_in, name_if};
ghost use Rattle.ini_c.specs.Statuses.{absent, is_among, no_document, no_memory, not_utf8, ok, there};
ghost use Rattle.ini_c.specs.Statuses.{unplain_key, unplain_name};
ghost use Rattle.ini_c.specs.Texts.{Asks, Changes};

use crate::copies::pair_of;
use crate::document::Text;
use crate::options::WriteChoice;
use crate::{ABSENT, NO_DOCUMENT, NO_MEMORY, NOT_UTF8, OK, THERE, UNPLAIN_KEY, UNPLAIN_NAME};
use ini_edit::EditError;
use std::alloc::Global;

/// Gives the first pair of the key in the first section of the name another key: the key alone is written
/// anew.
///
/// `UNPLAIN_KEY` where the new key, written in any pair's place, isn't read back, whatever the text is.
#[unsafe(no_mangle)]
pub extern "C" fn bigrosk_ini_text_rename_key(
    alloc: Global,
    text: &mut Text,
    write: &WriteChoice,
    named: bool,
    section: &[u8],
    key: &[u8],
    new_key: &[u8],
) -> u32
    ensures no_document { result ≡ no_document ↔ (pieces_of text.old ≡ None) }
    ensures not_utf8 { result ≡ not_utf8 ↔
        (IsSome (pieces_of text.old) × ¬ (AreTexts section.now key.now × IsUtf8 new_key.now)) }
    ensures renamed { result ≡ ok → Changes
        (λ old new. IsKeyRenamed old.option (policy_of write.now.policy) old new
        (name_if named section.now) (chars key.now) (chars new_key.now))
        (pieces_of text.old) (pieces_of text.new) }
    ensures absent { result ≡ absent →
        found_in (name_if named section.now) (chars key.now) (document_of text.old) ≡ None }
    ensures unplain_key { result ≡ unplain_key → IsSomeAnd (pieces_of text.old)
        (λ p. ¬ IsPlainBareKey p.option (policy_of write.now.policy) (chars new_key.now)) }
    ensures unchanged { ¬ (result ≡ ok) → pieces_of text.new ≡ pieces_of text.old }
    ensures statuses { IsTrue (is_among result (ok ∷ absent ∷ not_utf8 ∷ no_memory ∷ no_document
        ∷ unplain_key
        ∷ [])) }
{
    let Some(tied) = text.tied() else {
        return NO_DOCUMENT;
    };
    tied.with(|source| {
        let Some((name, key, new_key)) = pair_of(named, section, key, new_key) else {
            return NOT_UTF8;
        };
        let policy = write.to_option().escape_policy;
        match source.rename_key(alloc, policy, name, key, new_key) {
            Ok(true) => OK,
            Ok(false) => ABSENT,
            Err(EditError::Key) => UNPLAIN_KEY,
            Err(_) => NO_MEMORY,
        }
    })
}

/// Puts another name into the header of the first section of the name; the general section has no header.
///
/// `UNPLAIN_NAME` where the new name, written, isn't read back, whatever the text is.
#[unsafe(no_mangle)]
pub extern "C" fn bigrosk_ini_text_rename_section(
    alloc: Global,
    text: &mut Text,
    write: &WriteChoice,
    section: &[u8],
    new_name: &[u8],
) -> u32
    ensures no_document { result ≡ no_document ↔ (pieces_of text.old ≡ None) }
    ensures not_utf8 { result ≡ not_utf8 ↔
        (IsSome (pieces_of text.old) × ¬ (AreTexts section.now new_name.now)) }
    ensures renamed { result ≡ ok → Changes
        (λ old new. IsNameRenamed (policy_of write.now.policy) old new
        (chars section.now) (chars new_name.now))
        (pieces_of text.old) (pieces_of text.new) }
    ensures absent { result ≡ absent → ¬ (HasSection (Some (chars section.now)) (document_of text.old)) }
    ensures unplain_name { result ≡ unplain_name → IsSomeAnd (pieces_of text.old)
        (λ p. ¬ IsPlainName p.option (policy_of write.now.policy) (chars new_name.now)) }
    ensures unchanged { ¬ (result ≡ ok) → pieces_of text.new ≡ pieces_of text.old }
    ensures statuses { IsTrue (is_among result (ok ∷ absent ∷ not_utf8 ∷ no_memory ∷ no_document
        ∷ unplain_name
        ∷ [])) }
{
    let Some(tied) = text.tied() else {
        return NO_DOCUMENT;
    };
    tied.with(|source| {
        let Ok(section) = str::from_utf8(section) else {
            return NOT_UTF8;
        };
        let Ok(new_name) = str::from_utf8(new_name) else {
            return NOT_UTF8;
        };
        let policy = write.to_option().escape_policy;
        match source.rename_section(alloc, policy, section, new_name) {
            Ok(true) => OK,
            Ok(false) => ABSENT,
            Err(EditError::Name) => UNPLAIN_NAME,
            Err(_) => NO_MEMORY,
        }
    })
}

/// Takes out the first section of the name and all that follows it, but for the comments directly above
/// the next header, and what indents this. The general section has no name, and doesn't go.
#[unsafe(no_mangle)]
pub extern "C" fn bigrosk_ini_text_delete_section(
    alloc: Global,
    text: &mut Text,
    section: &[u8],
) -> u32
    ensures no_document { result ≡ no_document ↔ (pieces_of text.old ≡ None) }
    ensures not_utf8 { result ≡ not_utf8 ↔
        (IsSome (pieces_of text.old) × ¬ (IsUtf8 section.now)) }
    ensures deleted { result ≡ ok → Changes
        (λ old new. new ≡ with_sections old
        (section_deleted old.option (chars section.now) old.sections))
        (pieces_of text.old) (pieces_of text.new) }
    ensures document { result ≡ ok → document_of text.new
        ≡ option_map (section_removed (Some (chars section.now))) (document_of text.old) }
    ensures absent { result ≡ absent → IsSomeAnd (pieces_of text.old)
        (λ p. section_place (Some (chars section.now)) p.sections ≡ None) }
    ensures unchanged { ¬ (result ≡ ok) → pieces_of text.new ≡ pieces_of text.old }
    ensures statuses { IsTrue (is_among result (ok ∷ absent ∷ not_utf8 ∷ no_memory ∷ no_document ∷ [])) }
{
    let Some(tied) = text.tied() else {
        return NO_DOCUMENT;
    };
    tied.with(|source| {
        let Ok(section) = str::from_utf8(section) else {
            return NOT_UTF8;
        };
        match source.delete_section(alloc, section) {
            Ok(true) => OK,
            Ok(false) => ABSENT,
            Err(_) => NO_MEMORY,
        }
    })
}

/// Puts a section without pairs in at the text's end, with an empty line before it. `THERE` where a
/// section has the name, and nothing is changed then.
///
/// `UNPLAIN_NAME` where the name, written, isn't read back, whatever the text is.
#[unsafe(no_mangle)]
pub extern "C" fn bigrosk_ini_text_add_section(
    alloc: Global,
    text: &mut Text,
    write: &WriteChoice,
    section: &[u8],
) -> u32
    ensures no_document { result ≡ no_document ↔ (pieces_of text.old ≡ None) }
    ensures not_utf8 { result ≡ not_utf8 ↔
        (IsSome (pieces_of text.old) × ¬ (IsUtf8 section.now)) }
    ensures added { result ≡ ok → Changes
        (λ old new. Asks write.now (λ w. IsSectionAdded old.option w old new
        (chars section.now)))
        (pieces_of text.old) (pieces_of text.new) }
    ensures there { result ≡ there → IsSomeAnd (pieces_of text.old)
        (λ p. IsSome (section_place (Some (chars section.now)) p.sections)) }
    ensures unplain_name { result ≡ unplain_name → IsSomeAnd (pieces_of text.old)
        (λ p. ¬ IsPlainName p.option (policy_of write.now.policy) (chars section.now)) }
    ensures unchanged { ¬ (result ≡ ok) → pieces_of text.new ≡ pieces_of text.old }
    ensures statuses { IsTrue (is_among result (ok ∷ there ∷ not_utf8 ∷ no_memory ∷ no_document
        ∷ unplain_name
        ∷ [])) }
{
    let Some(tied) = text.tied() else {
        return NO_DOCUMENT;
    };
    tied.with(|source| {
        let Ok(section) = str::from_utf8(section) else {
            return NOT_UTF8;
        };
        let option = write.to_option();
        match source.add_section(alloc, &option, section) {
            Ok(true) => OK,
            Ok(false) => THERE,
            Err(EditError::Name) => UNPLAIN_NAME,
            Err(_) => NO_MEMORY,
        }
    })
}
