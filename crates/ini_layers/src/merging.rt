//! Two sides that changed one base: what both made of it. This file knows differences and changes by their
//! calls.
ghost use Rattle.std.specs.Prelude.{◌≡◌, ◌↔◌, [], ◌∷◌, ◌++◌, IfErr, IfOk, IsOkUnless, OnOk, alloc_error};
ghost use Rattle.std.specs.Prelude.{filter, map};
ghost use Rattle.ini.specs.Documents.{Document};
ghost use Rattle.ini.specs.Texts.{str_name};
ghost use Rattle.ini_dialect.specs.Flattened.{flattened};
ghost use Rattle.ini_edit.specs.Sources.{document_in};
ghost use Rattle.ini_layers.specs.Differences.{setting_change};
ghost use Rattle.ini_layers.specs.Merging.{HasConflictsOf, HaveNoConflict, IsMerged, IsMergedBy};
ghost use Rattle.ini_layers.specs.Merging.{conflicts_of, conflicts_with, flat_sides, flat_sides_by};
ghost use Rattle.ini_layers.specs.Merging.{is_conflict, is_taken, is_taken_at};
ghost use Rattle.ini_layers.specs.Merging.{setting_conflict, taken_changes, taken_under, with_theirs};
ghost use Rattle.ini_layers.specs.Settings.{AlikeUnder, flat_by};
ghost use Rattle.ini_layers.specs.SourceChanges.{AreMade, AreMadeBy, RefusesOne, RefusesOneBy};

use crate::applying::{apply_by, refused_at};
use crate::change::{Change, SettingValue, is_same_value};
use crate::difference::diff;
use ini::{Error, Ini};
use ini_dialect::{AnyDocument, Lookup};
use ini_edit::{RefusedEdit, Source};
use ini_text::WriteOption;
use std::alloc::{AllocError, Global};

/// Whose value stands where both sides changed a setting, to different values.
#[derive(Clone, Copy, Debug)]
pub enum Side {
    Ours,
    Theirs,
}

/// A setting that both sides changed, to different values.
#[derive(Clone, Copy, Debug)]
pub struct Conflict<'a> {
    /// What ours made of the base's value.
    pub change: Change<'a>,
    /// The value of theirs; `None` where it isn't there.
    pub theirs: Option<&'a str>,
}

/// Theirs with the changes that ours made to the base, under a rule. Each setting that only one side changed
/// has that side's value, one that both changed alike has that, of one in conflict the side
/// says whose value stands, and no other is changed. Every byte stays that the edits of the taken changes
/// don't name.
///
/// # Errors
///
/// That of the first of the taken changes (`FlatSides::taken`) that is refused, with its index among them,
/// as `apply` has it; where memory is refused before, the index is 0.
pub fn merge<'a>(
    alloc: Global,
    rule: Lookup,
    write: &WriteOption,
    base: &Ini,
    ours: &Ini,
    theirs: &Source<'a>,
    side: Side,
) -> Result<Source<'a>, RefusedEdit>
    ensures merged { IfOk result
        (λ new. IsMerged rule side base.now ours.now (document_in theirs.now) (document_in new)) }
    ensures made { IfOk result (AreMade rule write.now theirs.now
        (taken_under rule side base.now ours.now (document_in theirs.now))) }
    ensures ours_is_base { AlikeUnder rule base.now ours.now → IfOk result (λ new. new ≡ theirs.now) }
    ensures theirs_is_base { AlikeUnder rule base.now (document_in theirs.now)
        → IfOk result (λ new. AlikeUnder rule ours.now (document_in new)) }
    ensures both_alike { AlikeUnder rule ours.now (document_in theirs.now)
        → IfOk result (λ new. new ≡ theirs.now) }
    ensures refused { IfErr result (RefusesOne rule write.now theirs.now
        (taken_under rule side base.now ours.now (document_in theirs.now))) }
{
    let sides = match FlatSides::new(alloc, rule, base, ours, theirs) {
        Ok(sides) => sides,
        Err(refusal) => return Err(refused_at(0, refusal.into())),
    };
    let new = sides.merge(alloc, rule, write, theirs, side)?;
    Ok(new)
}

/// The three documents of a merge, in which each setting has its value under a rule.
#[derive(Drop)]
pub struct FlatSides {
    pub base: Ini,
    pub ours: Ini,
    pub theirs: Ini,
}

impl FlatSides {
    /// What the documents answer under the rule. Refused when out of memory alone.
    pub fn new(
        alloc: Global,
        rule: Lookup,
        base: &Ini,
        ours: &Ini,
        theirs: &Source<'_>,
    ) -> Result<FlatSides, Error>
        ensures base { IfOk result (λ sides. sides.base ≡ flattened rule base.now) }
        ensures ours { IfOk result (λ sides. sides.ours ≡ flattened rule ours.now) }
        ensures theirs { IfOk result (λ sides. sides.theirs ≡ flattened rule (document_in theirs.now)) }
        ensures only_memory { IsOkUnless result (Error.Memory alloc_error) }
    {
        FlatSides::by(alloc, SettingValue::Counting, rule, base, ours, theirs)
    }

    /// What a setting's value is in the documents, under the rule. Refused when out of memory alone.
    pub fn by(
        alloc: Global,
        which: SettingValue,
        rule: Lookup,
        base: &Ini,
        ours: &Ini,
        theirs: &Source<'_>,
    ) -> Result<FlatSides, Error>
        ensures base { IfOk result (λ sides. sides.base ≡ flat_by which rule base.now) }
        ensures ours { IfOk result (λ sides. sides.ours ≡ flat_by which rule ours.now) }
        ensures theirs { IfOk result (λ sides. sides.theirs ≡ flat_by which rule (document_in theirs.now)) }
        ensures only_memory { IsOkUnless result (Error.Memory alloc_error) }
    {
        Ok(FlatSides {
            base: which.flat(alloc, rule, AnyDocument::Ini(base))?,
            ours: which.flat(alloc, rule, AnyDocument::Ini(ours))?,
            theirs: which.flat(alloc, rule, AnyDocument::Source(theirs))?,
        })
    }

    /// Theirs, of which these sides were flattened under the rule, with the changes that `taken` lists: what
    /// `merge` makes.
    ///
    /// # Errors
    ///
    /// Those of `merge`.
    pub fn merge<'a>(
        &self,
        alloc: Global,
        rule: Lookup,
        write: &WriteOption,
        theirs: &Source<'a>,
        side: Side,
    ) -> Result<Source<'a>, RefusedEdit>
        ensures merged { (base ours : Document)
            → self.now ≡ flat_sides rule base ours (document_in theirs.now)
            → IfOk result (λ new. IsMerged rule side base ours (document_in theirs.now) (document_in new)) }
        ensures made { IfOk result (AreMade rule write.now theirs.now
            (taken_changes side self.now.base self.now.ours self.now.theirs)) }
        ensures refused { IfErr result (RefusesOne rule write.now theirs.now
            (taken_changes side self.now.base self.now.ours self.now.theirs)) }
    {
        let new = self.merge_by(alloc, SettingValue::Counting, rule, write, theirs, side)?;
        Ok(new)
    }

    /// The same of sides by what a setting's value is.
    ///
    /// # Errors
    ///
    /// Those of `apply_by`, of the taken changes; where memory is refused before, the index is 0.
    pub fn merge_by<'a>(
        &self,
        alloc: Global,
        which: SettingValue,
        rule: Lookup,
        write: &WriteOption,
        theirs: &Source<'a>,
        side: Side,
    ) -> Result<Source<'a>, RefusedEdit>
        ensures merged { (base ours : Document)
            → self.now ≡ flat_sides_by which rule base ours (document_in theirs.now) → IfOk result
            (λ new. IsMergedBy which rule side base ours (document_in theirs.now) (document_in new)) }
        ensures made { IfOk result (AreMadeBy which rule write.now theirs.now
            (taken_changes side self.now.base self.now.ours self.now.theirs)) }
        ensures refused { IfErr result (RefusesOneBy which rule write.now theirs.now
            (taken_changes side self.now.base self.now.ours self.now.theirs)) }
    {
        let changes = match self.taken(alloc, side) {
            Ok(changes) => changes,
            Err(refusal) => return Err(refused_at(0, refusal.into())),
        };
        let new = apply_by(alloc, which, rule, write, changes.as_slice(), theirs)?;
        Ok(new)
    }

    /// The changes of ours to the base that a merge makes in theirs: those of settings that theirs didn't
    /// touch, and, where ours is chosen, those of settings in conflict. Refused when out of memory alone.
    pub fn taken(&self, alloc: Global, side: Side) -> Result<Vec<Change<'_>>, Error>
        ensures taken { IfOk result (λ changes. map setting_change changes.items
            ≡ taken_changes side self.now.base self.now.ours self.now.theirs) }
        ensures only_memory { IsOkUnless result (Error.Memory alloc_error) }
    {
        let changes = diff(alloc, &self.base, &self.ours)?;
        let taken = taken_among(alloc, changes.as_slice(), &self.theirs, side)?;
        Ok(taken)
    }

    /// The settings that both sides changed, to different values, in the order of ours; lent from the three.
    /// Refused when out of memory alone.
    pub fn conflicts(&self, alloc: Global) -> Result<Vec<Conflict<'_>>, Error>
        ensures conflicts { IfOk result (λ conflicts. map setting_conflict conflicts.items
            ≡ conflicts_of self.now.base self.now.ours self.now.theirs) }
        ensures none { IfOk result (λ conflicts. (conflicts.items ≡ [])
            ↔ HaveNoConflict self.now.base self.now.ours self.now.theirs) }
        ensures each { IfOk result (λ conflicts. HasConflictsOf self.now.base self.now.ours self.now.theirs
            (map setting_conflict conflicts.items)) }
        ensures only_memory { IsOkUnless result (Error.Memory alloc_error) }
    {
        let changes = diff(alloc, &self.base, &self.ours)?;
        let conflicts = conflicts_among(alloc, changes.as_slice(), &self.theirs)?;
        Ok(conflicts)
    }
}

// Those of the changes that a merge makes.
fn taken_among<'b>(
    alloc: Global,
    changes: &[Change<'b>],
    theirs: &Ini,
    side: Side,
) -> Result<Vec<Change<'b>>, Error>
    ensures taken { IfOk result (λ taken. map setting_change taken.items
        ≡ filter (is_taken side theirs.now) (map setting_change changes.now)) }
    ensures only_memory { IsOkUnless result (Error.Memory alloc_error) }
{
    let mut taken = Vec::new(alloc);
    for change in changes {
        push_taken(*change, theirs, side, &mut taken)?;
    }
    Ok(taken)
}

// Keeps the change if a merge makes it.
fn push_taken<'b>(
    change: Change<'b>,
    theirs: &Ini,
    side: Side,
    taken: &mut Vec<Change<'b>>,
) -> Result<(), Error>
    ensures taken { OnOk result (map setting_change taken.new.items ≡ map setting_change taken.old.items
        ++ filter (is_taken side theirs.now) (setting_change change.entry ∷ [])) }
    ensures only_memory { IsOkUnless result (Error.Memory alloc_error) }
{
    if takes(change, theirs.get_from(change.name, change.key), side) {
        taken.push(change).map_err(AllocError::from)?;
    }
    Ok(())
}

// Whether a merge makes the change where theirs has this value.
fn takes(change: Change<'_>, theirs: Option<&str>, side: Side) -> bool
    ensures { result ≡ is_taken_at side (setting_change change.entry) (str_name theirs.entry) }
{
    let chosen = match side {
        Side::Ours => true,
        Side::Theirs => false,
    };
    !is_same_value(change.new, theirs) && (is_same_value(change.old, theirs) || chosen)
}

// Those of the changes that are in conflict.
fn conflicts_among<'b>(
    alloc: Global,
    changes: &[Change<'b>],
    theirs: &'b Ini,
) -> Result<Vec<Conflict<'b>>, Error>
    ensures conflicts { IfOk result (λ conflicts. map setting_conflict conflicts.items
        ≡ map (with_theirs theirs.now)
        (filter (conflicts_with theirs.now) (map setting_change changes.now))) }
    ensures only_memory { IsOkUnless result (Error.Memory alloc_error) }
{
    let mut conflicts = Vec::new(alloc);
    for change in changes {
        push_conflict(*change, theirs, &mut conflicts)?;
    }
    Ok(conflicts)
}

// Lists the change if it is in conflict.
fn push_conflict<'b>(
    change: Change<'b>,
    theirs: &'b Ini,
    conflicts: &mut Vec<Conflict<'b>>,
) -> Result<(), Error>
    ensures listed { OnOk result (map setting_conflict conflicts.new.items
        ≡ map setting_conflict conflicts.old.items ++ map (with_theirs theirs.now)
        (filter (conflicts_with theirs.now) (setting_change change.entry ∷ []))) }
    ensures only_memory { IsOkUnless result (Error.Memory alloc_error) }
{
    let theirs = theirs.get_from(change.name, change.key);
    if is_in_conflict(change, theirs) {
        let conflict = Conflict { change, theirs };
        conflicts.push(conflict).map_err(AllocError::from)?;
    }
    Ok(())
}

// Whether the change is in conflict where theirs has this value.
fn is_in_conflict(change: Change<'_>, theirs: Option<&str>) -> bool
    ensures { result ≡ is_conflict (str_name change.entry.old) (str_name change.entry.new)
        (str_name theirs.entry) }
{
    !is_same_value(change.old, change.new)
        && (!is_same_value(change.old, theirs) && !is_same_value(change.new, theirs))
}
