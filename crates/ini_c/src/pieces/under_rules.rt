//! The calls that compare texts and change them by a rule of looking up that C gives. This file knows no
//! rule.
ghost use Rattle.std.specs.Prelude.{◌≡◌, ◌∷◌, [], ◌↔◌, IsSome, IsSomeAnd, IsTrue, None, Some, false};
ghost use Rattle.std.specs.Option.{option_map};
ghost use Rattle.ini_edit.specs.Sources.{document_in};
ghost use Rattle.ini_edit.specs.declared.error.EditError.TheVariants.{Key, Name, NoPlace, Value};
ghost use Rattle.ini_layers.specs.Applying.{HasChangedBy, LeadsToBy};
ghost use Rattle.ini_layers.specs.Merging.{IsMergedBy, taken_by};
ghost use Rattle.ini_layers.specs.Settings.{AlikeBy};
ghost use Rattle.ini_layers.specs.SourceChanges.{AreMadeBy};
ghost use Rattle.ini_c.specs.Changes.{AreChangesGiven, Merges, RefusesToMergeUnder, RefusesUnder};
ghost use Rattle.ini_c.specs.Changes.{changes_given, changes_listed, conflicts_in_under, conflicts_listed};
ghost use Rattle.ini_c.specs.Changes.{difference_in_under, side_if};
ghost use Rattle.ini_c.specs.Held.{document_of, pieces_of};
ghost use Rattle.ini_c.specs.Listings.{AreSizesOf, copied_listing, fits};
ghost use Rattle.ini_c.specs.Rules.{rule_of, setting_value_of};
ghost use Rattle.ini_c.specs.Statuses.{is_among, no_document, no_memory, no_place, no_room, not_utf8, ok};
ghost use Rattle.ini_c.specs.Statuses.{unknown_option, unplain_key, unplain_name, unplain_value};
ghost use Rattle.ini_c.specs.Texts.{Asks, Changes};

use crate::UNKNOWN_OPTION;
use crate::copies::Sizes;
use crate::document::Text;
use crate::options::WriteChoice;
use crate::pieces::differences::{apply_under, diff_under};
use crate::pieces::merging::{conflicts_between, merge_under};
use crate::rule::LookupChoice;
use std::alloc::Global;

/// Lists the settings whose values differ under a rule, as `bigrosk_ini_text_diff` lists them: each name and
/// key where it first comes, with the value that counts, or the list of all as one text (a value a line), and
/// in small letters where case is ignored.
///
/// `UNKNOWN_OPTION`, before anything else, if a number stands for nothing.
#[unsafe(no_mangle)]
pub extern "C" fn bigrosk_ini_text_diff_under(
    alloc: Global,
    from: &mut Text,
    to: &mut Text,
    lookup: &LookupChoice,
    bytes: &mut [u8],
    counts: &mut [usize],
    sizes: &mut Sizes,
) -> u32
    ensures from_stays { pieces_of from.new ≡ pieces_of from.old }
    ensures to_stays { pieces_of to.new ≡ pieces_of to.old }
    ensures no_document { result ≡ no_document ↔ IsSomeAnd (rule_of lookup.now) (λ rule.
        difference_in_under (setting_value_of lookup.now) rule (document_of from.old) (document_of to.old)
        ≡ None) }
    ensures unknown { result ≡ unknown_option ↔ (rule_of lookup.now ≡ None) }
    ensures listed { result ≡ ok → IsSomeAnd (rule_of lookup.now) (λ rule.
        option_map changes_listed (difference_in_under (setting_value_of lookup.now) rule
        (document_of from.old) (document_of to.old))
        ≡ Some (copied_listing sizes.new bytes.new counts.new)) }
    ensures sizes { result ≡ no_room → IsSomeAnd (rule_of lookup.now) (λ rule.
        IsSomeAnd (option_map changes_listed (difference_in_under (setting_value_of lookup.now) rule
        (document_of from.old) (document_of to.old))) (AreSizesOf sizes.new)) }
    ensures no_room { result ≡ no_room → fits sizes.new bytes.old counts.old ≡ false }
    ensures bytes_stay { ¬ (result ≡ ok) → bytes.new ≡ bytes.old }
    ensures counts_stay { ¬ (result ≡ ok) → counts.new ≡ counts.old }
    ensures statuses { IsTrue
        (is_among result (ok ∷ unknown_option ∷ no_room ∷ no_memory ∷ no_document ∷ [])) }
{
    match lookup.to_rule() {
        Some(rule) => diff_under(alloc, rule, from, to, bytes, counts, sizes),
        None => UNKNOWN_OPTION,
    }
}

/// Makes changes in a text under a rule, as `bigrosk_ini_text_apply` makes them: the pair that counts is set,
/// and by another rule than the default one its other pairs stay; of a list each value has a pair; a setting
/// without a value after loses all its pairs that are looked at.
///
/// `UNKNOWN_OPTION`, before anything else, if a number stands for nothing.
#[unsafe(no_mangle)]
pub extern "C" fn bigrosk_ini_text_apply_under(
    alloc: Global,
    text: &mut Text,
    lookup: &LookupChoice,
    write: &WriteChoice,
    bytes: &[u8],
    counts: &[usize],
    refused: &mut usize,
) -> u32
    ensures no_document { result ≡ no_document
        ↔ (IsSome (rule_of lookup.now) × pieces_of text.old ≡ None) }
    ensures unknown { result ≡ unknown_option ↔ (rule_of lookup.now ≡ None) }
    ensures not_utf8 { result ≡ not_utf8
        → (IsSome (pieces_of text.old) × ¬ AreChangesGiven bytes.now counts.now) }
    ensures given { ¬ (IsTrue (is_among result (not_utf8 ∷ no_memory ∷ no_document ∷ unknown_option ∷ [])))
        → AreChangesGiven bytes.now counts.now }
    ensures made { result ≡ ok → IsSomeAnd (rule_of lookup.now) (λ rule.
        Changes
        (λ old new. Asks write.now
        (λ w. AreMadeBy (setting_value_of lookup.now) rule w old (changes_given bytes.now counts.now) new))
        (pieces_of text.old) (pieces_of text.new)) }
    ensures values { result ≡ ok → IsSomeAnd (rule_of lookup.now) (λ rule.
        Changes
        (λ old new. HasChangedBy (setting_value_of lookup.now) rule (changes_given bytes.now counts.now)
        (document_in old) (document_in new))
        (pieces_of text.old) (pieces_of text.new)) }
    ensures leads { result ≡ ok → IsSomeAnd (rule_of lookup.now) (λ rule.
        Changes
        (λ old new. LeadsToBy (setting_value_of lookup.now) rule (changes_given bytes.now counts.now)
        (document_in old) (document_in new))
        (pieces_of text.old) (pieces_of text.new)) }
    ensures unplain_value { result ≡ unplain_value → IsSomeAnd (rule_of lookup.now) (λ rule.
        IsSomeAnd (pieces_of text.old)
        (λ p. RefusesUnder (setting_value_of lookup.now) rule write.now p
        (changes_given bytes.now counts.now) refused.new Value)) }
    ensures unplain_key { result ≡ unplain_key → IsSomeAnd (rule_of lookup.now) (λ rule.
        IsSomeAnd (pieces_of text.old)
        (λ p. RefusesUnder (setting_value_of lookup.now) rule write.now p
        (changes_given bytes.now counts.now) refused.new Key)) }
    ensures unplain_name { result ≡ unplain_name → IsSomeAnd (rule_of lookup.now) (λ rule.
        IsSomeAnd (pieces_of text.old)
        (λ p. RefusesUnder (setting_value_of lookup.now) rule write.now p
        (changes_given bytes.now counts.now) refused.new Name)) }
    ensures no_place { result ≡ no_place → IsSomeAnd (rule_of lookup.now) (λ rule.
        IsSomeAnd (pieces_of text.old)
        (λ p. RefusesUnder (setting_value_of lookup.now) rule write.now p
        (changes_given bytes.now counts.now) refused.new NoPlace)) }
    ensures unchanged { ¬ (result ≡ ok) → pieces_of text.new ≡ pieces_of text.old }
    ensures refused_stays { IsTrue (is_among result (ok ∷ not_utf8 ∷ no_document ∷ unknown_option ∷ []))
        → refused.new ≡ refused.old }
    ensures statuses { IsTrue (is_among result (ok ∷ unknown_option ∷ not_utf8 ∷ no_memory ∷ no_document
        ∷ unplain_value ∷ unplain_key
        ∷ no_place ∷ unplain_name ∷ [])) }
{
    match lookup.to_rule() {
        Some(rule) => apply_under(alloc, rule, text, write, bytes, counts, refused),
        None => UNKNOWN_OPTION,
    }
}

/// Lists the settings in conflict under a rule, as `bigrosk_ini_text_conflicts` lists them, with names and
/// keys as `bigrosk_ini_text_diff_under` has them.
///
/// `UNKNOWN_OPTION`, before anything else, if a number stands for nothing.
#[unsafe(no_mangle)]
pub extern "C" fn bigrosk_ini_text_conflicts_under(
    alloc: Global,
    base: &mut Text,
    ours: &mut Text,
    theirs: &mut Text,
    lookup: &LookupChoice,
    bytes: &mut [u8],
    counts: &mut [usize],
    sizes: &mut Sizes,
) -> u32
    ensures base_stays { pieces_of base.new ≡ pieces_of base.old }
    ensures ours_stay { pieces_of ours.new ≡ pieces_of ours.old }
    ensures theirs_stay { pieces_of theirs.new ≡ pieces_of theirs.old }
    ensures no_document { result ≡ no_document ↔ IsSomeAnd (rule_of lookup.now) (λ rule.
        conflicts_in_under (setting_value_of lookup.now) rule
        (document_of base.old) (document_of ours.old) (document_of theirs.old) ≡ None) }
    ensures unknown { result ≡ unknown_option ↔ (rule_of lookup.now ≡ None) }
    ensures listed { result ≡ ok → IsSomeAnd (rule_of lookup.now) (λ rule.
        option_map conflicts_listed (conflicts_in_under (setting_value_of lookup.now) rule
        (document_of base.old) (document_of ours.old) (document_of theirs.old))
        ≡ Some (copied_listing sizes.new bytes.new counts.new)) }
    ensures sizes { result ≡ no_room → IsSomeAnd (rule_of lookup.now) (λ rule.
        IsSomeAnd (option_map conflicts_listed (conflicts_in_under (setting_value_of lookup.now) rule
        (document_of base.old) (document_of ours.old) (document_of theirs.old)))
        (AreSizesOf sizes.new)) }
    ensures no_room { result ≡ no_room → fits sizes.new bytes.old counts.old ≡ false }
    ensures bytes_stay { ¬ (result ≡ ok) → bytes.new ≡ bytes.old }
    ensures counts_stay { ¬ (result ≡ ok) → counts.new ≡ counts.old }
    ensures statuses { IsTrue
        (is_among result (ok ∷ unknown_option ∷ no_room ∷ no_memory ∷ no_document ∷ [])) }
{
    match lookup.to_rule() {
        Some(rule) => conflicts_between(alloc, rule, base, ours, theirs, bytes, counts, sizes),
        None => UNKNOWN_OPTION,
    }
}

/// Makes what `ours` changed in `base` in `theirs` under a rule, as `bigrosk_ini_text_merge3` does, by the
/// edits of `bigrosk_ini_text_apply_under`.
///
/// `UNKNOWN_OPTION`, before anything else, if a number stands for nothing.
#[unsafe(no_mangle)]
pub extern "C" fn bigrosk_ini_text_merge3_under(
    alloc: Global,
    base: &mut Text,
    ours: &mut Text,
    theirs: &mut Text,
    lookup: &LookupChoice,
    write: &WriteChoice,
    take_ours: bool,
    refused: &mut usize,
) -> u32
    ensures base_stays { pieces_of base.new ≡ pieces_of base.old }
    ensures ours_stay { pieces_of ours.new ≡ pieces_of ours.old }
    ensures no_document { result ≡ no_document ↔ IsSomeAnd (rule_of lookup.now) (λ rule.
        conflicts_in_under (setting_value_of lookup.now) rule
        (document_of base.old) (document_of ours.old) (document_of theirs.old) ≡ None) }
    ensures unknown { result ≡ unknown_option ↔ (rule_of lookup.now ≡ None) }
    ensures merged { result ≡ ok → IsSomeAnd (rule_of lookup.now) (λ rule.
        Merges (λ base ours old new.
        IsMergedBy (setting_value_of lookup.now) rule (side_if take_ours) base ours
        (document_in old) (document_in new))
        (document_of base.old) (document_of ours.old) (pieces_of theirs.old) (pieces_of theirs.new)) }
    ensures made { result ≡ ok → IsSomeAnd (rule_of lookup.now) (λ rule.
        Merges (λ base ours old new. Asks write.now
        (λ w. AreMadeBy (setting_value_of lookup.now) rule w old
        (taken_by (setting_value_of lookup.now) rule (side_if take_ours) base ours (document_in old)) new))
        (document_of base.old) (document_of ours.old) (pieces_of theirs.old) (pieces_of theirs.new)) }
    ensures ours_is_base { result ≡ ok → IsSomeAnd (rule_of lookup.now) (λ rule.
        Merges
        (λ base ours old new. AlikeBy (setting_value_of lookup.now) rule base ours → new ≡ old)
        (document_of base.old) (document_of ours.old) (pieces_of theirs.old) (pieces_of theirs.new)) }
    ensures theirs_is_base { result ≡ ok → IsSomeAnd (rule_of lookup.now) (λ rule.
        Merges
        (λ base ours old new. AlikeBy (setting_value_of lookup.now) rule base (document_in old)
        → AlikeBy (setting_value_of lookup.now) rule ours (document_in new))
        (document_of base.old) (document_of ours.old) (pieces_of theirs.old) (pieces_of theirs.new)) }
    ensures both_alike { result ≡ ok → IsSomeAnd (rule_of lookup.now) (λ rule.
        Merges
        (λ base ours old new. AlikeBy (setting_value_of lookup.now) rule ours (document_in old) → new ≡ old)
        (document_of base.old) (document_of ours.old) (pieces_of theirs.old) (pieces_of theirs.new)) }
    ensures unplain_value { result ≡ unplain_value → IsSomeAnd (rule_of lookup.now) (λ rule.
        RefusesToMergeUnder (setting_value_of lookup.now) rule write.now (side_if take_ours)
        (document_of base.old) (document_of ours.old) (pieces_of theirs.old) refused.new Value) }
    ensures unplain_key { result ≡ unplain_key → IsSomeAnd (rule_of lookup.now) (λ rule.
        RefusesToMergeUnder (setting_value_of lookup.now) rule write.now (side_if take_ours)
        (document_of base.old) (document_of ours.old) (pieces_of theirs.old) refused.new Key) }
    ensures unplain_name { result ≡ unplain_name → IsSomeAnd (rule_of lookup.now) (λ rule.
        RefusesToMergeUnder (setting_value_of lookup.now) rule write.now (side_if take_ours)
        (document_of base.old) (document_of ours.old) (pieces_of theirs.old) refused.new Name) }
    ensures no_place { result ≡ no_place → IsSomeAnd (rule_of lookup.now) (λ rule.
        RefusesToMergeUnder (setting_value_of lookup.now) rule write.now (side_if take_ours)
        (document_of base.old) (document_of ours.old) (pieces_of theirs.old) refused.new NoPlace) }
    ensures unchanged { ¬ (result ≡ ok) → pieces_of theirs.new ≡ pieces_of theirs.old }
    ensures refused_stays { IsTrue (is_among result (ok ∷ no_document ∷ unknown_option ∷ []))
        → refused.new ≡ refused.old }
    ensures statuses { IsTrue (is_among result (ok ∷ unknown_option ∷ no_memory ∷ no_document
        ∷ unplain_value ∷ unplain_key
        ∷ no_place ∷ unplain_name ∷ [])) }
{
    match lookup.to_rule() {
        Some(rule) => merge_under(alloc, rule, base, ours, theirs, write, take_ours, refused),
        None => UNKNOWN_OPTION,
    }
}
