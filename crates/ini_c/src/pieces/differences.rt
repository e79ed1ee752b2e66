//! What differs between two texts in pieces, setting by setting, listed, and changes put into one.
ghost use Rattle.std.specs.Prelude.{◌≡◌, ◌∷◌, [], ◌↔◌, IfOk, IsSome, IsSomeAnd, IsTrue, None, OnOk, Some};
ghost use Rattle.std.specs.Prelude.{false, map};
ghost use Rattle.std.specs.Option.{option_map};
ghost use Rattle.ini_dialect.specs.Rules.{default_lookup};
ghost use Rattle.ini_edit.specs.Sources.{document_in};
ghost use Rattle.ini_edit.specs.declared.error.EditError.TheVariants.{Key, Name, NoPlace, Value};
ghost use Rattle.ini_layers.specs.Applying.{HasChanged, HasChangedBy, LeadsTo, LeadsToBy};
ghost use Rattle.ini_layers.specs.Differences.{difference, setting_change};
ghost use Rattle.ini_layers.specs.SourceChanges.{AreMade, AreMadeBy};
ghost use Rattle.ini_c.specs.Changes.{AreChangesGiven, RefusesAt, changes_given, changes_listed};
ghost use Rattle.ini_c.specs.Changes.{RefusesUnder, difference_in, difference_in_under, with_change};
ghost use Rattle.ini_c.specs.Held.{document_of, pieces_of};
ghost use Rattle.ini_c.specs.Inside.Gathered.{contents};
ghost use Rattle.ini_c.specs.Inside.MadeChanges.{AreMadeOf};
ghost use Rattle.ini_c.specs.Listings.{AreSizesOf, copied_listing, fits};
ghost use Rattle.ini_c.specs.Statuses.{is_among, no_document, no_memory, no_place, no_room, not_utf8, ok};
ghost use Rattle.ini_c.specs.Statuses.{unplain_key, unplain_name, unplain_value};
ghost use Rattle.ini_c.specs.Texts.{Asks, Changes};

use crate::copies::{Sizes, give_listing};
use crate::document::Text;
use crate::listing::Listing;
use crate::options::WriteChoice;
use crate::pieces::changes::changes_given;
use crate::pieces::documents::document_under;
use crate::refusal::status_of;
use crate::rule::{OWN, SettingRule};
use crate::{NO_DOCUMENT, NO_MEMORY, OK};
use ini::{Error, Ini};
use ini_edit::Source;
use ini_layers::{Change, apply_by, diff};
use std::alloc::{AllocError, Global};

// Puts a change last.
pub(crate) fn push_change(listing: &mut Listing, change: Change<'_>) -> Result<(), AllocError>
    ensures { OnOk result
        (contents listing.new ≡ with_change (contents listing.old) (setting_change change.entry)) }
{
    listing.name(change.name)?;
    listing.text(change.key)?;
    listing.name(change.old)?;
    listing.name(change.new)
}

// Changes in order.
fn list_changes(alloc: Global, changes: &[Change<'_>]) -> Result<Listing, AllocError>
    ensures { IfOk result
        (λ listing. contents listing ≡ changes_listed (map setting_change changes.now)) }
{
    let mut listing = Listing::new(alloc);
    for change in changes {
        push_change(&mut listing, *change)?;
    }
    Ok(listing)
}

// The difference of two documents.
fn list_difference(alloc: Global, from: &Ini, to: &Ini) -> Result<Listing, Error>
    ensures { IfOk result (λ listing. contents listing
        ≡ changes_listed (difference from.now to.now)) }
{
    let changes = diff(alloc, from, to)?;
    Ok(list_changes(alloc, changes.as_slice())?)
}

// The difference of two texts under a rule, as `bigrosk_ini_text_diff` lists it.
pub(crate) fn diff_under(
    alloc: Global,
    rule: SettingRule,
    from: &mut Text,
    to: &mut Text,
    bytes: &mut [u8],
    counts: &mut [usize],
    sizes: &mut Sizes,
) -> u32
    ensures from_stays { pieces_of from.new ≡ pieces_of from.old }
    ensures to_stays { pieces_of to.new ≡ pieces_of to.old }
    ensures no_document { result ≡ no_document ↔ (difference_in_under rule.which rule.lookup
        (document_of from.old) (document_of to.old) ≡ None) }
    ensures listed { result ≡ ok → option_map changes_listed
        (difference_in_under rule.which rule.lookup (document_of from.old) (document_of to.old))
        ≡ Some (copied_listing sizes.new bytes.new counts.new) }
    ensures sizes { result ≡ no_room → IsSomeAnd (option_map changes_listed
        (difference_in_under rule.which rule.lookup (document_of from.old) (document_of to.old)))
        (AreSizesOf sizes.new) }
    ensures no_room { result ≡ no_room → fits sizes.new bytes.old counts.old ≡ false }
    ensures bytes_stay { ¬ (result ≡ ok) → bytes.new ≡ bytes.old }
    ensures counts_stay { ¬ (result ≡ ok) → counts.new ≡ counts.old }
    ensures statuses { IsTrue (is_among result (ok ∷ no_room ∷ no_memory ∷ no_document ∷ [])) }
{
    let Some(from) = from.tied() else {
        return NO_DOCUMENT;
    };
    let Some(to) = to.tied() else {
        return NO_DOCUMENT;
    };
    let Ok(from) = from.with(|source| document_under(alloc, rule, source)) else {
        return NO_MEMORY;
    };
    let Ok(to) = to.with(|source| document_under(alloc, rule, source)) else {
        return NO_MEMORY;
    };
    let Ok(listing) = list_difference(alloc, &from, &to) else {
        return NO_MEMORY;
    };
    give_listing(&listing, bytes, counts, sizes)
}

/// Lists the settings whose values differ between two texts, each once, as `bigrosk_ini_text_get_all` copies
/// values: of each the name of its section, its key, its value in the first text and in the second. What is
/// missing (the general section's name, a value) has no byte, and the greatest number as its count. Those of
/// the second text come in their order there, and then those that it lacks, in their order in the first.
#[unsafe(no_mangle)]
pub extern "C" fn bigrosk_ini_text_diff(
    alloc: Global,
    from: &mut Text,
    to: &mut Text,
    bytes: &mut [u8],
    counts: &mut [usize],
    sizes: &mut Sizes,
) -> u32
    ensures from_stays { pieces_of from.new ≡ pieces_of from.old }
    ensures to_stays { pieces_of to.new ≡ pieces_of to.old }
    ensures no_document { result ≡ no_document
        ↔ (difference_in (document_of from.old) (document_of to.old) ≡ None) }
    ensures listed { result ≡ ok → option_map changes_listed
        (difference_in (document_of from.old) (document_of to.old))
        ≡ Some (copied_listing sizes.new bytes.new counts.new) }
    ensures sizes { result ≡ no_room → IsSomeAnd (option_map changes_listed
        (difference_in (document_of from.old) (document_of to.old))) (AreSizesOf sizes.new) }
    ensures no_room { result ≡ no_room → fits sizes.new bytes.old counts.old ≡ false }
    ensures bytes_stay { ¬ (result ≡ ok) → bytes.new ≡ bytes.old }
    ensures counts_stay { ¬ (result ≡ ok) → counts.new ≡ counts.old }
    ensures statuses { IsTrue (is_among result (ok ∷ no_room ∷ no_memory ∷ no_document ∷ [])) }
{
    diff_under(alloc, OWN, from, to, bytes, counts, sizes)
}

// Makes the changes that C gives in the pieces of a text under a rule, all or none; the status of that, and
// the index of the change that is refused.
fn apply_given(
    alloc: Global,
    rule: SettingRule,
    source: &mut Source<'_>,
    write: &WriteChoice,
    bytes: &[u8],
    counts: &[usize],
    refused: &mut usize,
) -> u32
    ensures not_utf8 { result ≡ not_utf8 → ¬ AreChangesGiven bytes.now counts.now }
    ensures given { ¬ (IsTrue (is_among result (not_utf8 ∷ no_memory ∷ [])))
        → AreChangesGiven bytes.now counts.now }
    ensures made { result ≡ ok → AreMadeOf rule.which rule.lookup write.now
        (changes_given bytes.now counts.now) source.old source.new }
    ensures unplain_value { result ≡ unplain_value
        → RefusesUnder rule.which rule.lookup write.now source.old
        (changes_given bytes.now counts.now) refused.new Value }
    ensures unplain_key { result ≡ unplain_key
        → RefusesUnder rule.which rule.lookup write.now source.old
        (changes_given bytes.now counts.now) refused.new Key }
    ensures unplain_name { result ≡ unplain_name
        → RefusesUnder rule.which rule.lookup write.now source.old
        (changes_given bytes.now counts.now) refused.new Name }
    ensures no_place { result ≡ no_place
        → RefusesUnder rule.which rule.lookup write.now source.old
        (changes_given bytes.now counts.now) refused.new NoPlace }
    ensures unchanged { ¬ (result ≡ ok) → source.new ≡ source.old }
    ensures refused_stays { IsTrue (is_among result (ok ∷ not_utf8 ∷ [])) → refused.new ≡ refused.old }
    ensures statuses { IsTrue (is_among result (ok ∷ not_utf8 ∷ no_memory
        ∷ unplain_value ∷ unplain_key
        ∷ no_place ∷ unplain_name ∷ [])) }
{
    let changes = match changes_given(alloc, bytes, counts) {
        Ok(changes) => changes,
        Err(status) => return status,
    };
    let option = write.to_option();
    let (which, lookup) = (rule.which, rule.lookup);
    match apply_by(alloc, which, lookup, &option, changes.as_slice(), source) {
        Ok(new) => {
            source.replace_with(new);
            OK
        }
        Err(refusal) => {
            *refused = refusal.index;
            status_of(refusal.refusal)
        }
    }
}

// Makes the changes that C gives in a text under a rule, as `bigrosk_ini_text_apply` makes them.
pub(crate) fn apply_under(
    alloc: Global,
    rule: SettingRule,
    text: &mut Text,
    write: &WriteChoice,
    bytes: &[u8],
    counts: &[usize],
    refused: &mut usize,
) -> u32
    ensures no_document { result ≡ no_document ↔ (pieces_of text.old ≡ None) }
    ensures not_utf8 { result ≡ not_utf8
        → (IsSome (pieces_of text.old) × ¬ AreChangesGiven bytes.now counts.now) }
    ensures given { ¬ (IsTrue (is_among result (not_utf8 ∷ no_memory ∷ no_document ∷ [])))
        → AreChangesGiven bytes.now counts.now }
    ensures made { result ≡ ok → Changes
        (λ old new. Asks write.now
        (λ w. AreMadeBy rule.which rule.lookup w old (changes_given bytes.now counts.now) new))
        (pieces_of text.old) (pieces_of text.new) }
    ensures values { result ≡ ok → Changes
        (λ old new. HasChangedBy rule.which rule.lookup (changes_given bytes.now counts.now)
        (document_in old) (document_in new))
        (pieces_of text.old) (pieces_of text.new) }
    ensures leads { result ≡ ok → Changes
        (λ old new. LeadsToBy rule.which rule.lookup (changes_given bytes.now counts.now)
        (document_in old) (document_in new))
        (pieces_of text.old) (pieces_of text.new) }
    ensures unplain_value { result ≡ unplain_value → IsSomeAnd (pieces_of text.old)
        (λ p. RefusesUnder rule.which rule.lookup write.now p
        (changes_given bytes.now counts.now) refused.new Value) }
    ensures unplain_key { result ≡ unplain_key → IsSomeAnd (pieces_of text.old)
        (λ p. RefusesUnder rule.which rule.lookup write.now p
        (changes_given bytes.now counts.now) refused.new Key) }
    ensures unplain_name { result ≡ unplain_name → IsSomeAnd (pieces_of text.old)
        (λ p. RefusesUnder rule.which rule.lookup write.now p
        (changes_given bytes.now counts.now) refused.new Name) }
    ensures no_place { result ≡ no_place → IsSomeAnd (pieces_of text.old)
        (λ p. RefusesUnder rule.which rule.lookup write.now p
        (changes_given bytes.now counts.now) refused.new NoPlace) }
    ensures unchanged { ¬ (result ≡ ok) → pieces_of text.new ≡ pieces_of text.old }
    ensures refused_stays { IsTrue (is_among result (ok ∷ not_utf8 ∷ no_document ∷ []))
        → refused.new ≡ refused.old }
    ensures statuses { IsTrue (is_among result (ok ∷ not_utf8 ∷ no_memory ∷ no_document
        ∷ unplain_value ∷ unplain_key
        ∷ no_place ∷ unplain_name ∷ [])) }
{
    let Some(tied) = text.tied() else {
        return NO_DOCUMENT;
    };
    tied.with_both(refused, |source, refused| {
        apply_given(alloc, rule, source, write, bytes, counts, refused)
    })
}

/// Makes changes in a text, one after another, all or none, whatever values the settings have there: a
/// setting with a value after is set, as `bigrosk_ini_text_set` has it, and one without loses all its pairs
/// in the first section of its name. The changes stand in `bytes` and `counts` as they are listed.
///
/// `NOT_UTF8` where they don't; else what `bigrosk_ini_text_set` answers of the first change that is refused,
/// and its index, from 0, in `refused`.
#[unsafe(no_mangle)]
pub extern "C" fn bigrosk_ini_text_apply(
    alloc: Global,
    text: &mut Text,
    write: &WriteChoice,
    bytes: &[u8],
    counts: &[usize],
    refused: &mut usize,
) -> u32
    ensures no_document { result ≡ no_document ↔ (pieces_of text.old ≡ None) }
    ensures not_utf8 { result ≡ not_utf8
        → (IsSome (pieces_of text.old) × ¬ AreChangesGiven bytes.now counts.now) }
    ensures given { ¬ (IsTrue (is_among result (not_utf8 ∷ no_memory ∷ no_document ∷ [])))
        → AreChangesGiven bytes.now counts.now }
    ensures made { result ≡ ok → Changes
        (λ old new. Asks write.now
        (λ w. AreMade default_lookup w old (changes_given bytes.now counts.now) new))
        (pieces_of text.old) (pieces_of text.new) }
    ensures values { result ≡ ok → Changes
        (λ old new. HasChanged default_lookup (changes_given bytes.now counts.now)
        (document_in old) (document_in new))
        (pieces_of text.old) (pieces_of text.new) }
    ensures leads { result ≡ ok → Changes
        (λ old new. LeadsTo default_lookup (changes_given bytes.now counts.now)
        (document_in old) (document_in new))
        (pieces_of text.old) (pieces_of text.new) }
    ensures unplain_value { result ≡ unplain_value → IsSomeAnd (pieces_of text.old)
        (λ p. RefusesAt write.now p (changes_given bytes.now counts.now) refused.new Value) }
    ensures unplain_key { result ≡ unplain_key → IsSomeAnd (pieces_of text.old)
        (λ p. RefusesAt write.now p (changes_given bytes.now counts.now) refused.new Key) }
    ensures unplain_name { result ≡ unplain_name → IsSomeAnd (pieces_of text.old)
        (λ p. RefusesAt write.now p (changes_given bytes.now counts.now) refused.new Name) }
    ensures no_place { result ≡ no_place → IsSomeAnd (pieces_of text.old)
        (λ p. RefusesAt write.now p (changes_given bytes.now counts.now) refused.new NoPlace) }
    ensures unchanged { ¬ (result ≡ ok) → pieces_of text.new ≡ pieces_of text.old }
    ensures refused_stays { IsTrue (is_among result (ok ∷ not_utf8 ∷ no_document ∷ []))
        → refused.new ≡ refused.old }
    ensures statuses { IsTrue (is_among result (ok ∷ not_utf8 ∷ no_memory ∷ no_document
        ∷ unplain_value ∷ unplain_key
        ∷ no_place ∷ unplain_name ∷ [])) }
{
    apply_under(alloc, OWN, text, write, bytes, counts, refused)
}
