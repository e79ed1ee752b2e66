//! What documents set, set in a text under a rule. This file knows no byte and no device.
ghost use Rattle.std.specs.Prelude.{◌≡◌, IfErr, IfOk, OnOk, chars, map};
ghost use Rattle.ini_text.specs.Parsing.Items.{string_text};
ghost use Rattle.ini_edit.specs.Editings.{editing_of};
ghost use Rattle.ini_edit.specs.declared.error.EditError.TheVariants as EditErrors;
ghost use Rattle.ini_dialect.specs.Rules.{is_own};
ghost use Rattle.ini_file.specs.Remade.{IsRemadeText};
ghost use Rattle.ini_file.specs.RuledMerges.{AreSettingsMade, HasSettings, MakesSetting, RefusesOneSetting};
ghost use Rattle.ini_file.specs.RuledMerges.{RefusesSetting, RefusesSettings, RefusesSettingsBy, settings_by};

use crate::settings::settings_of;
use ini_dialect::Lookup;
use ini_edit::{Edit, EditError, RefusedEdit, Source, make_edits};
use ini_layers::Layers;
use ini_text::{Error, ParseOption, WriteOption};
use std::alloc::{AllocError, Global};

/// The edits that set what the documents give: under the crate's own rule those of `settings_of`; else for
/// each document in order each key, as the rule tells keys and sections apart, with the value that counts.
/// Refused when out of memory alone.
pub fn settings_by(
    alloc: Global,
    rule: Lookup,
    documents: &Layers,
) -> Result<Vec<Edit<'_>>, AllocError>
    ensures { IfOk result (λ edits. map editing_of edits.items
        ≡ settings_by (is_own rule) rule documents.now) }
{
    if rule.is_own() {
        settings_of(alloc, documents)
    } else {
        rule.settings(alloc, documents.as_slice())
    }
}

/// The text with what the edits set, one after another: under the crate's own rule by `make_edits`, else by
/// `Lookup::set_in_source`.
///
/// # Errors
///
/// The index of the edit that is refused, and why; 0 and `Text` where reading the text stops, or memory is
/// refused.
pub fn with_settings(
    alloc: Global,
    rule: Lookup,
    text: &str,
    read: ParseOption,
    write: &WriteOption,
    edits: &[Edit<'_>],
) -> Result<String, RefusedEdit>
    ensures made { IfOk result (λ new. HasSettings (is_own rule) rule read write.now
        (map editing_of edits.now) (chars text.now) (string_text new)) }
    ensures refused { IfErr result (RefusesSettingsBy (is_own rule) rule read write.now
        (map editing_of edits.now) (chars text.now)) }
{
    if rule.is_own() {
        let edited = make_edits(alloc, text, read, write, edits)?;
        return Ok(edited.text);
    }
    set_under(alloc, rule, text, read, write, edits)
}

// The text with what the edits set under the rule.
fn set_under(
    alloc: Global,
    rule: Lookup,
    text: &str,
    read: ParseOption,
    write: &WriteOption,
    edits: &[Edit<'_>],
) -> Result<String, RefusedEdit>
    ensures made { IfOk result (λ new. IsRemadeText read (chars text.now) (string_text new)
        (AreSettingsMade rule write.now (map editing_of edits.now))) }
    ensures refused { IfErr result (RefusesSettings rule write.now read (map editing_of edits.now)
        (chars text.now)) }
{
    let mut source = match Source::read(alloc, text, read) {
        Ok(source) => source,
        Err(refused) => return Err(refused_first(refused)),
    };
    set_each(alloc, rule, write, &mut source, edits)?;
    match source.to_text(alloc) {
        Ok(text) => Ok(text),
        Err(refused) => Err(refused_first(refused)),
    }
}

// Sets in the pieces what the edits set. Refused, some may be set.
fn set_each(
    alloc: Global,
    rule: Lookup,
    write: &WriteOption,
    source: &mut Source<'_>,
    edits: &[Edit<'_>],
) -> Result<(), RefusedEdit>
    ensures made { OnOk result (AreSettingsMade rule write.now (map editing_of edits.now)
        source.old source.new) }
    ensures refused { IfErr result (RefusesOneSetting rule write.now (map editing_of edits.now)
        source.old) }
{
    for (index, edit) in edits.iter().enumerate() {
        if let Err(refusal) = set_one(alloc, rule, write, source, edit) {
            return Err(RefusedEdit { index, refusal });
        }
    }
    Ok(())
}

// Sets what the edit sets.
fn set_one(
    alloc: Global,
    rule: Lookup,
    write: &WriteOption,
    source: &mut Source<'_>,
    edit: &Edit<'_>,
) -> Result<(), EditError>
    ensures made { OnOk result
        (MakesSetting rule write.now (editing_of edit.now) source.old source.new) }
    ensures refused { IfErr result
        (RefusesSetting rule write.now (editing_of edit.now) source.old) }
{
    match *edit {
        Edit::Set { name, key, value } => {
            rule.set_in_source(alloc, write, source, name, key, value)
        }
        _ => Ok(()),
    }
}

/// The text is refused, or memory is, which is told of the first edit.
pub(crate) fn refused_first(refused: Error) -> RefusedEdit
    ensures { result ≡ record { index = 0; refusal = EditErrors.Text refused } }
{
    RefusedEdit {
        index: 0,
        refusal: EditError::Text(refused),
    }
}
