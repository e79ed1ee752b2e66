//! Changes put into a text in pieces. This file knows the text by its calls.
ghost use Rattle.std.specs.Prelude.{◌≡◌, IfErr, IfOk, OnOk, Some, chars, map, true};
ghost use Rattle.ini.specs.Properties.{texts_of};
ghost use Rattle.ini.specs.Texts.{str_name, str_text};
ghost use Rattle.ini_edit.specs.Sources.{document_in};
ghost use Rattle.ini_dialect.specs.Rules.{is_own};
ghost use Rattle.ini_layers.specs.Applying.{HasChanged, HasChangedBy, LeadsTo, LeadsToBy};
ghost use Rattle.ini_layers.specs.Differences.{setting_change};
ghost use Rattle.ini_layers.specs.SourceChanges.{AreMade, AreMadeBy, IsMade, IsMadeBy, MakesValue, RefusesOne};
ghost use Rattle.ini_layers.specs.SourceChanges.{RefusesOneBy, RefusesValue, RefusesValueBy};
ghost use Rattle.ini_layers.specs.declared.change.SettingValue.TheVariants as SettingValues;

use crate::change::{Change, SettingValue};
use crate::finder::Finder;
use ini_dialect::{Lookup, list_values};
use ini_edit::{EditError, LaterPairs, RefusedEdit, Source};
use ini_text::WriteOption;
use std::alloc::{AllocError, Global};

/// A text in pieces with the changes made in it under a rule, one after another, all or none, whatever
/// values the settings have there. A setting with a new value has it in the pair that counts; by the default
/// rule it has one pair then, by another its other pairs stay. One without loses all its pairs that are
/// looked at. Every byte that these edits don't name stays.
///
/// By the default rule values that are set in the order of the text take time in proportion to the text and
/// to their number, and a pair that is taken out moves those behind it in its section. By another rule each
/// change goes over its section.
///
/// # Errors
///
/// That of the first change that is refused, with its index from 0: those of `Source::set`, or that memory
/// is refused.
pub fn apply<'a>(
    alloc: Global,
    rule: Lookup,
    write: &WriteOption,
    changes: &[Change<'_>],
    source: &Source<'a>,
) -> Result<Source<'a>, RefusedEdit>
    ensures made { IfOk result (AreMade rule write.now source.now (map setting_change changes.now)) }
    ensures values { IfOk result (λ new. HasChanged rule (map setting_change changes.now)
        (document_in source.now) (document_in new)) }
    ensures leads { IfOk result (λ new. LeadsTo rule (map setting_change changes.now)
        (document_in source.now) (document_in new)) }
    ensures refused { IfErr result (RefusesOne rule write.now source.now (map setting_change changes.now)) }
{
    let new = apply_by(alloc, SettingValue::Counting, rule, write, changes, source)?;
    Ok(new)
}

/// The same of changes of what a setting's value is. A list of values is set as `Lookup::set_all_in_source`
/// sets it; a text that `list_text` can't have written stands for the list that is read of it.
///
/// # Errors
///
/// Those of `apply`, and those of `set_all_in_source`.
pub fn apply_by<'a>(
    alloc: Global,
    which: SettingValue,
    rule: Lookup,
    write: &WriteOption,
    changes: &[Change<'_>],
    source: &Source<'a>,
) -> Result<Source<'a>, RefusedEdit>
    ensures made { IfOk result (AreMadeBy which rule write.now source.now (map setting_change changes.now)) }
    ensures values { IfOk result (λ new. HasChangedBy which rule (map setting_change changes.now)
        (document_in source.now) (document_in new)) }
    ensures leads { IfOk result (λ new. LeadsToBy which rule (map setting_change changes.now)
        (document_in source.now) (document_in new)) }
    ensures refused { IfErr result
        (RefusesOneBy which rule write.now source.now (map setting_change changes.now)) }
{
    let mut new = match source.copy(alloc) {
        Ok(new) => new,
        Err(refusal) => return Err(refused_at(0, refusal.into())),
    };
    put_all(alloc, which, rule, write, changes, &mut new)?;
    Ok(new)
}

// From so many changes on, a document beside the text is worth its making.
const MANY: usize = 16;

// Makes the changes one after another. Those before one that is refused stay made, so this is for pieces
// that are dropped then.
fn put_all(
    alloc: Global,
    which: SettingValue,
    rule: Lookup,
    write: &WriteOption,
    changes: &[Change<'_>],
    source: &mut Source<'_>,
) -> Result<(), RefusedEdit>
    ensures made { OnOk result
        (AreMadeBy which rule write.now source.old (map setting_change changes.now) source.new) }
    ensures refused { IfErr result
        (RefusesOneBy which rule write.now source.old (map setting_change changes.now)) }
{
    match which {
        SettingValue::Counting if changes.len() >= MANY && rule.is_own() => {
            put_found(alloc, rule, write, changes, source)
        }
        _ => put_each(alloc, which, rule, write, changes, source),
    }
}

// Makes them by the default rule, each where its pair is found from the last one's place on.
fn put_found(
    alloc: Global,
    rule: Lookup,
    write: &WriteOption,
    changes: &[Change<'_>],
    source: &mut Source<'_>,
) -> Result<(), RefusedEdit>
    requires own { is_own rule ≡ true }
    ensures made { OnOk result
        (AreMade rule write.now source.old (map setting_change changes.now) source.new) }
    ensures refused { IfErr result
        (RefusesOne rule write.now source.old (map setting_change changes.now)) }
{
    let mut finder = match Finder::new(alloc, source) {
        Ok(finder) => finder,
        Err(refusal) => return Err(refused_at(0, refusal.into())),
    };
    for (index, change) in changes.iter().enumerate() {
        if let Err(refusal) = finder.put(alloc, rule, write, *change, source) {
            return Err(refused_at(index, refusal));
        }
    }
    Ok(())
}

// Makes them, each where its pair is found from the front on.
fn put_each(
    alloc: Global,
    which: SettingValue,
    rule: Lookup,
    write: &WriteOption,
    changes: &[Change<'_>],
    source: &mut Source<'_>,
) -> Result<(), RefusedEdit>
    ensures made { OnOk result
        (AreMadeBy which rule write.now source.old (map setting_change changes.now) source.new) }
    ensures refused { IfErr result
        (RefusesOneBy which rule write.now source.old (map setting_change changes.now)) }
{
    for (index, change) in changes.iter().enumerate() {
        if let Err(refusal) = apply_in_place_by(alloc, which, rule, write, *change, source) {
            return Err(refused_at(index, refusal));
        }
    }
    Ok(())
}

pub(crate) fn refused_at(index: usize, refusal: EditError) -> RefusedEdit
    ensures { result ≡ record { index = index; refusal = refusal } }
{
    RefusedEdit { index, refusal }
}

/// Makes one change in place, as `apply` makes each.
///
/// # Errors
///
/// Those of `apply`. Nothing is changed where a value was to be set; of several pairs that were to go, some
/// may be gone.
pub fn apply_in_place(
    alloc: Global,
    rule: Lookup,
    write: &WriteOption,
    change: Change<'_>,
    source: &mut Source<'_>,
) -> Result<(), EditError>
    ensures made { OnOk result (IsMade rule write.now (setting_change change.entry) source.old source.new) }
    ensures refused { IfErr result (RefusesValue rule write.now (str_name change.entry.name)
        (chars change.entry.key.now) (str_name change.entry.new) source.old) }
{
    apply_in_place_by(alloc, SettingValue::Counting, rule, write, change, source)
}

/// Makes one change in place, as `apply_by` makes each.
///
/// # Errors
///
/// Those of `apply_by`. Refused, it may have set or taken out some of the pairs of a list.
pub fn apply_in_place_by(
    alloc: Global,
    which: SettingValue,
    rule: Lookup,
    write: &WriteOption,
    change: Change<'_>,
    source: &mut Source<'_>,
) -> Result<(), EditError>
    ensures made { OnOk result
        (IsMadeBy which rule write.now (setting_change change.entry) source.old source.new) }
    ensures refused { IfErr result (RefusesValueBy which rule write.now (str_name change.entry.name)
        (chars change.entry.key.now) (str_name change.entry.new) source.old) }
{
    let (name, key) = (change.name, change.key);
    let Some(value) = change.new else {
        rule.delete_each_in_source(alloc, source, name, key)?;
        return Ok(());
    };
    match which {
        SettingValue::List => put_list(alloc, rule, write, name, key, value, source),
        SettingValue::Counting if rule.is_own() => {
            source.set(alloc, write, LaterPairs::TakenOut, name, key, value)
        }
        SettingValue::Counting => rule.set_in_source(alloc, write, source, name, key, value),
    }
}

// Gives a key the values of a list. Refused, some may be set.
fn put_list(
    alloc: Global,
    rule: Lookup,
    write: &WriteOption,
    name: Option<&str>,
    key: &str,
    list: &str,
    source: &mut Source<'_>,
) -> Result<(), EditError>
    ensures made { OnOk result (MakesValue SettingValues.List rule write.now (str_name name.entry)
        (chars key.now) (Some (chars list.now)) source.old source.new) }
    ensures refused { IfErr result (RefusesValueBy SettingValues.List rule write.now (str_name name.entry)
        (chars key.now) (Some (chars list.now)) source.old) }
{
    let values = list_values(alloc, list)?;
    let values = lent(alloc, values.as_slice())?;
    rule.set_each_in_source(alloc, write, source, name, key, values.as_slice())
}

// Texts, lent.
fn lent(alloc: Global, texts: &[String]) -> Result<Vec<&str>, AllocError>
    ensures { IfOk result (λ lent. map str_text lent.items ≡ texts_of texts.now) }
{
    let mut lent = Vec::new(alloc);
    for text in texts {
        lent.push(text.as_str())?;
    }
    Ok(lent)
}
