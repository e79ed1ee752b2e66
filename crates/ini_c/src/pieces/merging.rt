//! Two texts in pieces that changed one base: what both made of it, and where they are in conflict.
ghost use Rattle.std.specs.Prelude.{◌≡◌, ◌∷◌, [], ◌↔◌, IfErr, IfOk, IfSome, IsSomeAnd, IsTrue, None, OnOk};
ghost use Rattle.std.specs.Prelude.{Some, false, map};
ghost use Rattle.std.specs.Option.{option_map};
ghost use Rattle.ini_dialect.specs.Rules.{default_lookup};
ghost use Rattle.ini_edit.specs.Sources.{document_in};
ghost use Rattle.ini_edit.specs.declared.error.EditError.TheVariants.{Key, Name, NoPlace, Value};
ghost use Rattle.ini_layers.specs.Merging.{IsMerged, IsMergedBy, conflicts_by, setting_conflict, taken_by};
ghost use Rattle.ini_layers.specs.Merging.{taken_under};
ghost use Rattle.ini_layers.specs.Settings.{AlikeBy, AlikeUnder};
ghost use Rattle.ini_layers.specs.SourceChanges.{AreMade, AreMadeBy, RefusesOneBy};
ghost use Rattle.ini_c.specs.Changes.{Merges, RefusesToMerge, RefusesToMergeUnder, RefusesUnder};
ghost use Rattle.ini_c.specs.Changes.{conflicts_in, conflicts_in_under, conflicts_listed, side_if};
ghost use Rattle.ini_c.specs.Changes.{with_conflict};
ghost use Rattle.ini_c.specs.Held.{document_of, pieces_of};
ghost use Rattle.ini_c.specs.Inside.Gathered.{contents};
ghost use Rattle.ini_c.specs.Inside.MadeChanges.{IsMergeOf};
ghost use Rattle.ini_c.specs.Listings.{AreSizesOf, copied_listing, fits};
ghost use Rattle.ini_c.specs.Statuses.{is_among, no_document, no_memory, no_place, no_room, ok};
ghost use Rattle.ini_c.specs.Statuses.{unplain_key, unplain_name, unplain_value};
ghost use Rattle.ini_c.specs.Texts.{Asks};

use crate::copies::{Sizes, give_listing};
use crate::document::Text;
use crate::listing::Listing;
use crate::options::WriteChoice;
use crate::pieces::differences::push_change;
use crate::refusal::status_of;
use crate::rule::{OWN, SettingRule};
use crate::tied::Tied;
use crate::{NO_DOCUMENT, NO_MEMORY, OK};
use ini::{Error, Ini, WriteOption};
use ini_edit::{RefusedEdit, Source};
use ini_layers::{Conflict, FlatSides, Side, to_document};
use std::alloc::{AllocError, Global};

// Puts a conflict last.
fn push_conflict(listing: &mut Listing, conflict: Conflict<'_>) -> Result<(), AllocError>
    ensures { OnOk result
        (contents listing.new ≡ with_conflict (contents listing.old) (setting_conflict conflict.entry)) }
{
    push_change(listing, conflict.change)?;
    listing.name(conflict.theirs)
}

// Conflicts in order.
fn list_conflicts(alloc: Global, conflicts: &[Conflict<'_>]) -> Result<Listing, AllocError>
    ensures { IfOk result
        (λ listing. contents listing ≡ conflicts_listed (map setting_conflict conflicts.now)) }
{
    let mut listing = Listing::new(alloc);
    for conflict in conflicts {
        push_conflict(&mut listing, *conflict)?;
    }
    Ok(listing)
}

// The conflicts of a document and a text with their base, under a rule.
fn list_all(
    alloc: Global,
    rule: SettingRule,
    base: &Ini,
    ours: &Ini,
    theirs: &Source<'_>,
) -> Result<Listing, Error>
    ensures { IfOk result (λ listing. contents listing ≡ conflicts_listed
        (conflicts_by rule.which rule.lookup base.now ours.now (document_in theirs.now))) }
{
    let sides = FlatSides::by(alloc, rule.which, rule.lookup, base, ours, theirs)?;
    let found = sides.conflicts(alloc)?;
    Ok(list_conflicts(alloc, found.as_slice())?)
}

// The same of texts that are open; `None` when out of memory.
fn list_between(
    alloc: Global,
    rule: SettingRule,
    base: &mut Tied,
    ours: &mut Tied,
    theirs: &mut Tied,
) -> Option<Listing>
    ensures base_stays { base.new.value ≡ base.old.value }
    ensures ours_stay { ours.new.value ≡ ours.old.value }
    ensures theirs_stay { theirs.new.value ≡ theirs.old.value }
    ensures listed { IfSome result (λ listing. contents listing
        ≡ conflicts_listed (conflicts_by rule.which rule.lookup (document_in base.old.value)
        (document_in ours.old.value) (document_in theirs.old.value))) }
{
    let Ok(base) = base.with(|source| to_document(alloc, source)) else {
        return None;
    };
    let Ok(ours) = ours.with(|source| to_document(alloc, source)) else {
        return None;
    };
    let Ok(listing) = theirs.with(|theirs| list_all(alloc, rule, &base, &ours, theirs)) else {
        return None;
    };
    Some(listing)
}

// The conflicts of two texts with their base under a rule, as `bigrosk_ini_text_conflicts` lists them.
pub(crate) fn conflicts_between(
    alloc: Global,
    rule: SettingRule,
    base: &mut Text,
    ours: &mut Text,
    theirs: &mut Text,
    bytes: &mut [u8],
    counts: &mut [usize],
    sizes: &mut Sizes,
) -> u32
    ensures base_stays { pieces_of base.new ≡ pieces_of base.old }
    ensures ours_stay { pieces_of ours.new ≡ pieces_of ours.old }
    ensures theirs_stay { pieces_of theirs.new ≡ pieces_of theirs.old }
    ensures no_document { result ≡ no_document ↔ (conflicts_in_under rule.which rule.lookup
        (document_of base.old) (document_of ours.old) (document_of theirs.old) ≡ None) }
    ensures listed { result ≡ ok → option_map conflicts_listed (conflicts_in_under rule.which rule.lookup
        (document_of base.old) (document_of ours.old) (document_of theirs.old))
        ≡ Some (copied_listing sizes.new bytes.new counts.new) }
    ensures sizes { result ≡ no_room → IsSomeAnd (option_map conflicts_listed
        (conflicts_in_under rule.which rule.lookup
        (document_of base.old) (document_of ours.old) (document_of theirs.old)))
        (AreSizesOf sizes.new) }
    ensures no_room { result ≡ no_room → fits sizes.new bytes.old counts.old ≡ false }
    ensures bytes_stay { ¬ (result ≡ ok) → bytes.new ≡ bytes.old }
    ensures counts_stay { ¬ (result ≡ ok) → counts.new ≡ counts.old }
    ensures statuses { IsTrue (is_among result (ok ∷ no_room ∷ no_memory ∷ no_document ∷ [])) }
{
    let Some(base) = base.tied() else {
        return NO_DOCUMENT;
    };
    let Some(ours) = ours.tied() else {
        return NO_DOCUMENT;
    };
    let Some(theirs) = theirs.tied() else {
        return NO_DOCUMENT;
    };
    let Some(listing) = list_between(alloc, rule, base, ours, theirs) else {
        return NO_MEMORY;
    };
    give_listing(&listing, bytes, counts, sizes)
}

/// Lists the settings that `ours` and `theirs` both changed in `base`, to different values, in the order of
/// ours, as `bigrosk_ini_text_diff` lists changes: of each the change of ours, and then the value of theirs.
#[unsafe(no_mangle)]
pub extern "C" fn bigrosk_ini_text_conflicts(
    alloc: Global,
    base: &mut Text,
    ours: &mut Text,
    theirs: &mut Text,
    bytes: &mut [u8],
    counts: &mut [usize],
    sizes: &mut Sizes,
) -> u32
    ensures base_stays { pieces_of base.new ≡ pieces_of base.old }
    ensures ours_stay { pieces_of ours.new ≡ pieces_of ours.old }
    ensures theirs_stay { pieces_of theirs.new ≡ pieces_of theirs.old }
    ensures no_document { result ≡ no_document
        ↔ (conflicts_in (document_of base.old) (document_of ours.old) (document_of theirs.old) ≡ None) }
    ensures listed { result ≡ ok → option_map conflicts_listed
        (conflicts_in (document_of base.old) (document_of ours.old) (document_of theirs.old))
        ≡ Some (copied_listing sizes.new bytes.new counts.new) }
    ensures sizes { result ≡ no_room → IsSomeAnd (option_map conflicts_listed
        (conflicts_in (document_of base.old) (document_of ours.old) (document_of theirs.old)))
        (AreSizesOf sizes.new) }
    ensures no_room { result ≡ no_room → fits sizes.new bytes.old counts.old ≡ false }
    ensures bytes_stay { ¬ (result ≡ ok) → bytes.new ≡ bytes.old }
    ensures counts_stay { ¬ (result ≡ ok) → counts.new ≡ counts.old }
    ensures statuses { IsTrue (is_among result (ok ∷ no_room ∷ no_memory ∷ no_document ∷ [])) }
{
    conflicts_between(alloc, OWN, base, ours, theirs, bytes, counts, sizes)
}

// The side whose value stands.
fn side_of(take_ours: bool) -> Side
    ensures { result ≡ side_if take_ours }
{
    if take_ours { Side::Ours } else { Side::Theirs }
}

// Theirs with the changes that `ours` made to the base, under a rule, as `ini_layers::merge` makes them.
fn merged<'a>(
    alloc: Global,
    rule: SettingRule,
    write: &WriteOption,
    base: &Ini,
    ours: &Ini,
    theirs: &Source<'a>,
    side: Side,
) -> Result<Source<'a>, RefusedEdit>
    ensures merged { IfOk result (λ new. IsMergedBy rule.which rule.lookup side base.now ours.now
        (document_in theirs.now) (document_in new)) }
    ensures made { IfOk result (AreMadeBy rule.which rule.lookup write.now theirs.now
        (taken_by rule.which rule.lookup side base.now ours.now (document_in theirs.now))) }
    ensures ours_is_base { AlikeBy rule.which rule.lookup base.now ours.now
        → IfOk result (λ new. new ≡ theirs.now) }
    ensures theirs_is_base { AlikeBy rule.which rule.lookup base.now (document_in theirs.now)
        → IfOk result (λ new. AlikeBy rule.which rule.lookup ours.now (document_in new)) }
    ensures both_alike { AlikeBy rule.which rule.lookup ours.now (document_in theirs.now)
        → IfOk result (λ new. new ≡ theirs.now) }
    ensures refused { IfErr result (RefusesOneBy rule.which rule.lookup write.now theirs.now
        (taken_by rule.which rule.lookup side base.now ours.now (document_in theirs.now))) }
{
    let (which, lookup) = (rule.which, rule.lookup);
    let sides = match FlatSides::by(alloc, which, lookup, base, ours, theirs) {
        Ok(sides) => sides,
        Err(refusal) => {
            return Err(RefusedEdit {
                index: 0,
                refusal: refusal.into(),
            });
        }
    };
    let new = sides.merge_by(alloc, which, lookup, write, theirs, side)?;
    Ok(new)
}

// Makes what `ours` changed in `base` in `theirs` under a rule; the status of that, and the index of the
// change that is refused.
fn merge_into(
    alloc: Global,
    rule: SettingRule,
    base: &Ini,
    ours: &Ini,
    theirs: &mut Source<'_>,
    write: &WriteChoice,
    take_ours: bool,
    refused: &mut usize,
) -> u32
    ensures made { result ≡ ok → IsMergeOf rule.which rule.lookup write.now
        (side_if take_ours) base.now ours.now theirs.old theirs.new }
    ensures unplain_value { result ≡ unplain_value
        → RefusesUnder rule.which rule.lookup write.now theirs.old (taken_by rule.which rule.lookup
        (side_if take_ours) base.now ours.now (document_in theirs.old)) refused.new Value }
    ensures unplain_key { result ≡ unplain_key
        → RefusesUnder rule.which rule.lookup write.now theirs.old (taken_by rule.which rule.lookup
        (side_if take_ours) base.now ours.now (document_in theirs.old)) refused.new Key }
    ensures unplain_name { result ≡ unplain_name
        → RefusesUnder rule.which rule.lookup write.now theirs.old (taken_by rule.which rule.lookup
        (side_if take_ours) base.now ours.now (document_in theirs.old)) refused.new Name }
    ensures no_place { result ≡ no_place
        → RefusesUnder rule.which rule.lookup write.now theirs.old (taken_by rule.which rule.lookup
        (side_if take_ours) base.now ours.now (document_in theirs.old)) refused.new NoPlace }
    ensures unchanged { ¬ (result ≡ ok) → theirs.new ≡ theirs.old }
    ensures refused_stays { result ≡ ok → refused.new ≡ refused.old }
    ensures statuses { IsTrue (is_among result (ok ∷ no_memory
        ∷ unplain_value ∷ unplain_key
        ∷ no_place ∷ unplain_name ∷ [])) }
{
    let option = write.to_option();
    let side = side_of(take_ours);
    match merged(alloc, rule, &option, base, ours, theirs, side) {
        Ok(new) => {
            theirs.replace_with(new);
            OK
        }
        Err(refusal) => {
            *refused = refusal.index;
            status_of(refusal.refusal)
        }
    }
}

// Makes what `ours` changed in `base` in `theirs` under a rule, as `bigrosk_ini_text_merge3` does.
pub(crate) fn merge_under(
    alloc: Global,
    rule: SettingRule,
    base: &mut Text,
    ours: &mut Text,
    theirs: &mut Text,
    write: &WriteChoice,
    take_ours: bool,
    refused: &mut usize,
) -> u32
    ensures base_stays { pieces_of base.new ≡ pieces_of base.old }
    ensures ours_stay { pieces_of ours.new ≡ pieces_of ours.old }
    ensures no_document { result ≡ no_document ↔ (conflicts_in_under rule.which rule.lookup
        (document_of base.old) (document_of ours.old) (document_of theirs.old) ≡ None) }
    ensures merged { result ≡ ok → Merges (λ base ours old new.
        IsMergedBy rule.which rule.lookup (side_if take_ours) base ours (document_in old) (document_in new))
        (document_of base.old) (document_of ours.old) (pieces_of theirs.old) (pieces_of theirs.new) }
    ensures made { result ≡ ok → Merges (λ base ours old new. Asks write.now
        (λ w. AreMadeBy rule.which rule.lookup w old
        (taken_by rule.which rule.lookup (side_if take_ours) base ours (document_in old)) new))
        (document_of base.old) (document_of ours.old) (pieces_of theirs.old) (pieces_of theirs.new) }
    ensures ours_is_base { result ≡ ok → Merges
        (λ base ours old new. AlikeBy rule.which rule.lookup base ours → new ≡ old)
        (document_of base.old) (document_of ours.old) (pieces_of theirs.old) (pieces_of theirs.new) }
    ensures theirs_is_base { result ≡ ok → Merges
        (λ base ours old new. AlikeBy rule.which rule.lookup base (document_in old)
        → AlikeBy rule.which rule.lookup ours (document_in new))
        (document_of base.old) (document_of ours.old) (pieces_of theirs.old) (pieces_of theirs.new) }
    ensures both_alike { result ≡ ok → Merges
        (λ base ours old new. AlikeBy rule.which rule.lookup ours (document_in old) → new ≡ old)
        (document_of base.old) (document_of ours.old) (pieces_of theirs.old) (pieces_of theirs.new) }
    ensures unplain_value { result ≡ unplain_value → RefusesToMergeUnder
        rule.which rule.lookup write.now (side_if take_ours)
        (document_of base.old) (document_of ours.old) (pieces_of theirs.old) refused.new Value }
    ensures unplain_key { result ≡ unplain_key → RefusesToMergeUnder
        rule.which rule.lookup write.now (side_if take_ours)
        (document_of base.old) (document_of ours.old) (pieces_of theirs.old) refused.new Key }
    ensures unplain_name { result ≡ unplain_name → RefusesToMergeUnder
        rule.which rule.lookup write.now (side_if take_ours)
        (document_of base.old) (document_of ours.old) (pieces_of theirs.old) refused.new Name }
    ensures no_place { result ≡ no_place → RefusesToMergeUnder
        rule.which rule.lookup write.now (side_if take_ours)
        (document_of base.old) (document_of ours.old) (pieces_of theirs.old) refused.new NoPlace }
    ensures unchanged { ¬ (result ≡ ok) → pieces_of theirs.new ≡ pieces_of theirs.old }
    ensures refused_stays { IsTrue (is_among result (ok ∷ no_document ∷ [])) → refused.new ≡ refused.old }
    ensures statuses { IsTrue (is_among result (ok ∷ no_memory ∷ no_document
        ∷ unplain_value ∷ unplain_key
        ∷ no_place ∷ unplain_name ∷ [])) }
{
    let Some(base) = base.tied() else {
        return NO_DOCUMENT;
    };
    let Some(ours) = ours.tied() else {
        return NO_DOCUMENT;
    };
    let Some(theirs) = theirs.tied() else {
        return NO_DOCUMENT;
    };
    let Ok(base) = base.with(|source| to_document(alloc, source)) else {
        return NO_MEMORY;
    };
    let Ok(ours) = ours.with(|source| to_document(alloc, source)) else {
        return NO_MEMORY;
    };
    theirs.with_both(refused, |theirs, refused| {
        merge_into(alloc, rule, &base, &ours, theirs, write, take_ours, refused)
    })
}

/// Makes what `ours` changed in `base` in `theirs`: each setting that only one side changed has that side's
/// value, one that both changed alike has that, and of one in conflict (`bigrosk_ini_text_conflicts`) ours
/// stands with `take_ours`, and else theirs. Every byte stays that the edits of the changes don't name.
///
/// What `bigrosk_ini_text_apply` answers of the changes that are made, all or none; `refused` is an index
/// among these.
#[unsafe(no_mangle)]
pub extern "C" fn bigrosk_ini_text_merge3(
    alloc: Global,
    base: &mut Text,
    ours: &mut Text,
    theirs: &mut Text,
    write: &WriteChoice,
    take_ours: bool,
    refused: &mut usize,
) -> u32
    ensures base_stays { pieces_of base.new ≡ pieces_of base.old }
    ensures ours_stay { pieces_of ours.new ≡ pieces_of ours.old }
    ensures no_document { result ≡ no_document
        ↔ (conflicts_in (document_of base.old) (document_of ours.old) (document_of theirs.old) ≡ None) }
    ensures merged { result ≡ ok → Merges (λ base ours old new.
        IsMerged default_lookup (side_if take_ours) base ours (document_in old) (document_in new))
        (document_of base.old) (document_of ours.old) (pieces_of theirs.old) (pieces_of theirs.new) }
    ensures made { result ≡ ok → Merges (λ base ours old new. Asks write.now
        (λ w. AreMade default_lookup w old
        (taken_under default_lookup (side_if take_ours) base ours (document_in old)) new))
        (document_of base.old) (document_of ours.old) (pieces_of theirs.old) (pieces_of theirs.new) }
    ensures ours_is_base { result ≡ ok → Merges
        (λ base ours old new. AlikeUnder default_lookup base ours → new ≡ old)
        (document_of base.old) (document_of ours.old) (pieces_of theirs.old) (pieces_of theirs.new) }
    ensures theirs_is_base { result ≡ ok → Merges
        (λ base ours old new. AlikeUnder default_lookup base (document_in old)
        → AlikeUnder default_lookup ours (document_in new))
        (document_of base.old) (document_of ours.old) (pieces_of theirs.old) (pieces_of theirs.new) }
    ensures both_alike { result ≡ ok → Merges
        (λ base ours old new. AlikeUnder default_lookup ours (document_in old) → new ≡ old)
        (document_of base.old) (document_of ours.old) (pieces_of theirs.old) (pieces_of theirs.new) }
    ensures unplain_value { result ≡ unplain_value → RefusesToMerge write.now (side_if take_ours)
        (document_of base.old) (document_of ours.old) (pieces_of theirs.old) refused.new Value }
    ensures unplain_key { result ≡ unplain_key → RefusesToMerge write.now (side_if take_ours)
        (document_of base.old) (document_of ours.old) (pieces_of theirs.old) refused.new Key }
    ensures unplain_name { result ≡ unplain_name → RefusesToMerge write.now (side_if take_ours)
        (document_of base.old) (document_of ours.old) (pieces_of theirs.old) refused.new Name }
    ensures no_place { result ≡ no_place → RefusesToMerge write.now (side_if take_ours)
        (document_of base.old) (document_of ours.old) (pieces_of theirs.old) refused.new NoPlace }
    ensures unchanged { ¬ (result ≡ ok) → pieces_of theirs.new ≡ pieces_of theirs.old }
    ensures refused_stays { IsTrue (is_among result (ok ∷ no_document ∷ [])) → refused.new ≡ refused.old }
    ensures statuses { IsTrue (is_among result (ok ∷ no_memory ∷ no_document
        ∷ unplain_value ∷ unplain_key
        ∷ no_place ∷ unplain_name ∷ [])) }
{
    merge_under(alloc, OWN, base, ours, theirs, write, take_ours, refused)
}
