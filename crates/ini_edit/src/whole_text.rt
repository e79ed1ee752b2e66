//! Edits of a whole text: it is read in pieces, edited, and written again. This file knows the calls of
//! pieces alone.
ghost use Rattle.std.specs.Prelude.{◌≡◌, ◌↔◌, Err, IfErr, IfOk, MatchOption, OnOk, Some, chars};
ghost use Rattle.ini.specs.Loading.{IsStopOf};
ghost use Rattle.ini.specs.Texts.{str_name};
ghost use Rattle.ini_text.specs.Laws.Plain.{IsPlainName};
ghost use Rattle.ini_text.specs.Parsing.Items.{string_text};
ghost use Rattle.ini_edit.specs.Edited.{IfEditParse, IsEditParseOrMemory, IsKeyOrRefusal, IsNameOrRefusal};
ghost use Rattle.ini_edit.specs.Edited.{IsValueOrRefusal};
ghost use Rattle.ini_edit.specs.FirstPairs.{LacksPair, LacksSection};
ghost use Rattle.ini_edit.specs.Renamed.{IsPlainBareKey};
ghost use Rattle.ini_edit.specs.SourceWritten.{HasForm, IsWritableNew};
ghost use Rattle.ini_edit.specs.WholeTexts.{IsAddedText, IsDeletedText, IsKeyRenamedText, IsNameRenamedText};
ghost use Rattle.ini_edit.specs.WholeTexts.{IsSectionDeletedText, IsSetText, IsSetThereText};
ghost use Rattle.ini_edit.specs.WholeTexts.{RefusesToAddTo, RefusesToSetOf};
ghost use Rattle.ini_edit.specs.declared.error.EditError.TheVariants as EditErrors;

use crate::error::EditError;
use crate::key::is_plain_bare_key;
use crate::source::Source;
use crate::source::add::check_pair;
use crate::source::set::LaterPairs;
use crate::source::written::is_writable;
use ini_text::{EscapePolicy, ParseOption, WriteOption, is_plain_name};
use std::alloc::Global;

/// Sets the value of a key in a text where the key is there, as `Source::set_existing` does; later pairs of
/// the key are taken out. `None` where it isn't there. No name is the general section's.
///
/// # Errors
///
/// `Value` where no form of the value is read back, whatever the text is; `Text` where reading the text
/// stops, with line and column, or where memory is refused.
pub fn set_existing(
    alloc: Global,
    text: &str,
    read: ParseOption,
    policy: EscapePolicy,
    name: Option<&str>,
    key: &str,
    value: &str,
) -> Result<Option<String>, EditError>
    ensures edited { IfOk result (λ edited. MatchOption edited
        (LacksPair read (chars text.now) (str_name name.entry) (chars key.now))
        (λ new. IsSetThereText read policy (chars text.now) (str_name name.entry) (chars key.now)
        (chars value.now) (string_text new))) }
    ensures value { result ≡ Err EditErrors.Value → ¬ HasForm read policy (chars value.now) }
    ensures writable { OnOk result (HasForm read policy (chars value.now)) }
    ensures fault { IfEditParse result
        (λ e. HasForm read policy (chars value.now) × IsStopOf read (chars text.now) e) }
    ensures only { IfErr result IsValueOrRefusal }
{
    if !is_writable(alloc, value, policy, read)? {
        return Err(EditError::Value);
    }
    let mut source = Source::read(alloc, text, read)?;
    if source.set_existing(alloc, policy, LaterPairs::TakenOut, name, key, value)? {
        return Ok(Some(source.to_text(alloc)?));
    }
    Ok(None)
}

/// Sets the value of a key in a text, as `Source::set` does; later pairs of the key are taken out. No name
/// is the general section's.
///
/// # Errors
///
/// `Value` where no form of the value is read back, whatever the text is; then `Text` where reading the text
/// stops, with line and column, or memory is refused; then those of `Source::add` where the key isn't there.
pub fn set(
    alloc: Global,
    text: &str,
    read: ParseOption,
    write: &WriteOption,
    name: Option<&str>,
    key: &str,
    value: &str,
) -> Result<String, EditError>
    ensures edited { IfOk result (λ new. IsSetText read write.now (chars text.now) (str_name name.entry)
        (chars key.now) (chars value.now) (string_text new)) }
    ensures writable { OnOk result (HasForm read write.now.escape_policy (chars value.now)) }
    ensures refused { IfErr result (RefusesToSetOf read write.now (chars text.now) (str_name name.entry)
        (chars key.now) (chars value.now)) }
{
    if !is_writable(alloc, value, write.escape_policy, read)? {
        return Err(EditError::Value);
    }
    let mut source = Source::read(alloc, text, read)?;
    source.set(alloc, write, LaterPairs::TakenOut, name, key, value)?;
    Ok(source.to_text(alloc)?)
}

/// The text with a pair added, as `Source::add` adds it, whatever pairs of the key are there. No name is the
/// general section's.
///
/// # Errors
///
/// `Separator`, `Value` or `Key`, in this order, where that can't be written; then `Text` where reading the
/// text stops, with line and column, or memory is refused; then the others of `Source::add`.
pub fn add(
    alloc: Global,
    text: &str,
    read: ParseOption,
    write: &WriteOption,
    name: Option<&str>,
    key: &str,
    value: &str,
) -> Result<String, EditError>
    ensures added { IfOk result (λ new. IsAddedText read write.now (chars text.now) (str_name name.entry)
        (chars key.now) (chars value.now) (string_text new)) }
    ensures writable { OnOk result (IsWritableNew read write.now (chars key.now) (chars value.now)) }
    ensures refused { IfErr result (RefusesToAddTo read write.now (chars text.now) (str_name name.entry)
        (chars key.now) (chars value.now)) }
{
    check_pair(alloc, key, value, read, write)?;
    let mut source = Source::read(alloc, text, read)?;
    source.add(alloc, write, name, key, value)?;
    Ok(source.to_text(alloc)?)
}

/// The text without the first pair of a key in the first section of a name, as `Source::delete` takes it
/// out; `None` where there is none. No name is the general section's.
///
/// # Errors
///
/// `Text` where reading the text stops, with line and column, or where memory is refused.
pub fn delete(
    alloc: Global,
    text: &str,
    read: ParseOption,
    name: Option<&str>,
    key: &str,
) -> Result<Option<String>, EditError>
    ensures edited { IfOk result (λ edited. MatchOption edited
        (LacksPair read (chars text.now) (str_name name.entry) (chars key.now))
        (λ new. IsDeletedText read (chars text.now) (str_name name.entry) (chars key.now)
        (string_text new))) }
    ensures fault { IfEditParse result (IsStopOf read (chars text.now)) }
    ensures only { IfErr result IsEditParseOrMemory }
{
    let mut source = Source::read(alloc, text, read)?;
    if source.delete(alloc, name, key)? {
        return Ok(Some(source.to_text(alloc)?));
    }
    Ok(None)
}

/// The text in which the first pair of the key `old`, in the first section of the name, has the key `new`,
/// as `Source::rename_key` gives it; `None` where there is no such pair. No name is the general section's.
///
/// # Errors
///
/// `Key` where the new key can't be written in any pair's place, whatever the text is; `Text` where reading
/// the text stops, with line and column, or where memory is refused.
pub fn rename_key(
    alloc: Global,
    text: &str,
    read: ParseOption,
    policy: EscapePolicy,
    name: Option<&str>,
    old: &str,
    new: &str,
) -> Result<Option<String>, EditError>
    ensures edited { IfOk result (λ edited. MatchOption edited
        (LacksPair read (chars text.now) (str_name name.entry) (chars old.now))
        (λ edited. IsKeyRenamedText read policy (chars text.now) (str_name name.entry) (chars old.now)
        (chars new.now) (string_text edited))) }
    ensures key { (result ≡ Err EditErrors.Key) ↔ ¬ IsPlainBareKey read policy (chars new.now) }
    ensures fault { IfEditParse result (IsStopOf read (chars text.now)) }
    ensures only { IfErr result IsKeyOrRefusal }
{
    if !is_plain_bare_key(new, policy, read) {
        return Err(EditError::Key);
    }
    let mut source = Source::read(alloc, text, read)?;
    if source.rename_key(alloc, policy, name, old, new)? {
        return Ok(Some(source.to_text(alloc)?));
    }
    Ok(None)
}

/// The text without the first section of a name, as `Source::delete_section` takes it out; `None` where it
/// has none.
///
/// # Errors
///
/// `Text` where reading the text stops, with line and column, or where memory is refused.
pub fn delete_section(
    alloc: Global,
    text: &str,
    read: ParseOption,
    name: &str,
) -> Result<Option<String>, EditError>
    ensures edited { IfOk result (λ edited. MatchOption edited
        (LacksSection read (chars text.now) (Some (chars name.now)))
        (λ new. IsSectionDeletedText read (chars text.now) (chars name.now) (string_text new))) }
    ensures fault { IfEditParse result (IsStopOf read (chars text.now)) }
    ensures only { IfErr result IsEditParseOrMemory }
{
    let mut source = Source::read(alloc, text, read)?;
    if source.delete_section(alloc, name)? {
        return Ok(Some(source.to_text(alloc)?));
    }
    Ok(None)
}

/// The text with another name in the header of the first section of a name, as `Source::rename_section`
/// writes it; `None` where it has no such section.
///
/// # Errors
///
/// `Name` where the new name isn't plain, whatever the text is; `Text` where reading the text stops, with
/// line and column, or where memory is refused.
pub fn rename_section(
    alloc: Global,
    text: &str,
    read: ParseOption,
    policy: EscapePolicy,
    old: &str,
    new: &str,
) -> Result<Option<String>, EditError>
    ensures edited { IfOk result (λ edited. MatchOption edited
        (LacksSection read (chars text.now) (Some (chars old.now)))
        (λ edited. IsNameRenamedText read policy (chars text.now) (chars old.now) (chars new.now)
        (string_text edited))) }
    ensures name { (result ≡ Err EditErrors.Name) ↔ ¬ IsPlainName read policy (chars new.now) }
    ensures fault { IfEditParse result (IsStopOf read (chars text.now)) }
    ensures only { IfErr result IsNameOrRefusal }
{
    if !is_plain_name(new, policy, read) {
        return Err(EditError::Name);
    }
    let mut source = Source::read(alloc, text, read)?;
    if source.rename_section(alloc, policy, old, new)? {
        return Ok(Some(source.to_text(alloc)?));
    }
    Ok(None)
}
