//! Values set in a text in pieces. This file knows sections by their calls, and how values are written.
ghost use Rattle.std.specs.Prelude.{◌≡◌, ◌<◌, Err, IfErr, IfOk, IsOkUnless, Ok, OnErr, OnOk, alloc_error};
ghost use Rattle.std.specs.Prelude.{chars, length, true};
ghost use Rattle.std.specs.Option.{option_map};
ghost use Rattle.ini_text.specs.Parsing.Items.{string_text};
ghost use Rattle.ini_text.specs.declared.error.Error.TheVariants.{Memory};
ghost use Rattle.ini_edit.specs.SourcePlaces.{Place};
ghost use Rattle.ini.specs.Edits.{set_in};
ghost use Rattle.ini.specs.Texts.{str_name};
ghost use Rattle.ini_edit.specs.Edited.{IsValueOrMemory};
ghost use Rattle.ini_edit.specs.Inside.Quotes.{IsOwnSource};
ghost use Rattle.ini_edit.specs.Inside.SourceEnds.{IsPlaceAt, IsSetAlone, IsSetAt, IsWrittenOr};
ghost use Rattle.ini_edit.specs.Inside.SourceSteps.{HaveOwnSources};
ghost use Rattle.ini_edit.specs.SourceEditsAdded.{IsSetIn, RefusesToSetIn};
ghost use Rattle.ini_edit.specs.SourceEditsSet.{SetsFirst, SetsNth};
ghost use Rattle.ini_edit.specs.SourceWritten.{HasForm};
ghost use Rattle.ini_edit.specs.Sources.{PairPiece, document_in};
ghost use Rattle.ini_edit.specs.declared.error.EditError.TheVariants as EditErrors;
ghost use Rattle.ini_edit.specs.declared.source.set.LaterPairs.TheVariants as later_pairs;

use crate::error::EditError;
use crate::quote::{kept_quote, quote_before};
use crate::source::Source;
use crate::source::pair::SourcePair;
use crate::source::section::SourceSection;
use crate::source::written::{first_form, is_writable};
use ini_text::{Error, EscapePolicy, ParseOption, WriteOption, is_same_text};
use std::alloc::Global;

/// What becomes of the later pairs of a key whose first one is set.
#[derive(Clone, Copy, Debug)]
pub enum LaterPairs {
    /// They are taken out, as `delete` takes one out.
    TakenOut,
    /// They stay.
    Left,
}

impl<'a> Source<'a> {
    /// Sets the value of the first pair of a key in the first section of a name, where there is one: whether
    /// there is. No name is the general section's.
    ///
    /// A value that is there already stays as it is written. Another one is written in the first form that
    /// is read back as it: in the quotes in which the old value stands, bare as the policy escapes it, in
    /// double quotes, in single quotes. White space around the value stays, and so does every other byte. An
    /// empty value stands in quotes before a note; where quotes aren't read, the note goes. A key alone gets
    /// `=`; where a multiline value would take what follows, an empty comment stands before that.
    ///
    /// # Errors
    ///
    /// `Value` where no form of the value is read back, whatever the text is; `Text` where memory is
    /// refused. Nothing is changed then.
    pub fn set_existing(
        &mut self,
        alloc: Global,
        policy: EscapePolicy,
        later: LaterPairs,
        name: Option<&str>,
        key: &str,
        value: &str,
    ) -> Result<bool, EditError>
        ensures set { IfOk result (SetsFirst self.old.option policy later self.old self.new
            (str_name name.entry)
            (chars key.now) (chars value.now)) }
        ensures unchanged { OnErr result (self.new ≡ self.old) }
        ensures document { later ≡ later_pairs.TakenOut → result ≡ Ok true → document_in self.new
            ≡ set_in (str_name name.entry) (chars key.now) (chars value.now) (document_in self.old) }
        ensures value { result ≡ Err EditErrors.Value → ¬ HasForm self.old.option policy (chars value.now) }
        ensures writable { OnOk result (HasForm self.old.option policy (chars value.now)) }
        ensures only { IfErr result IsValueOrMemory }
    {
        if !is_writable(alloc, value, policy, self.option)? {
            return Err(EditError::Value);
        }
        self.set_writable(alloc, policy, later, name, key, value)
    }

    /// Sets the value of the pair of a key before which so many others of the key stand. The rest is as
    /// `set_existing` has it.
    pub fn set_nth(
        &mut self,
        alloc: Global,
        policy: EscapePolicy,
        name: Option<&str>,
        key: &str,
        n: usize,
        value: &str,
    ) -> Result<bool, EditError>
        ensures set { IfOk result (SetsNth self.old.option policy self.old self.new (str_name name.entry)
            (chars key.now) n (chars value.now)) }
        ensures unchanged { OnErr result (self.new ≡ self.old) }
        ensures value { result ≡ Err EditErrors.Value → ¬ HasForm self.old.option policy (chars value.now) }
        ensures writable { OnOk result (HasForm self.old.option policy (chars value.now)) }
        ensures only { IfErr result IsValueOrMemory }
    {
        if !is_writable(alloc, value, policy, self.option)? {
            return Err(EditError::Value);
        }
        self.set_found(alloc, policy, name, key, n, value)
    }

    /// Sets the value of a key: of its first pair as `set_existing` does; where the first section of the
    /// name lacks the key, in a new pair as `add` puts one in.
    ///
    /// # Errors
    ///
    /// Those of `set_existing`; where the key isn't there, those of `add`. Nothing is changed then.
    pub fn set(
        &mut self,
        alloc: Global,
        write: &WriteOption,
        later: LaterPairs,
        name: Option<&str>,
        key: &str,
        value: &str,
    ) -> Result<(), EditError>
        ensures set { OnOk result (IsSetIn self.old.option write.now later self.old self.new
            (str_name name.entry)
            (chars key.now) (chars value.now)) }
        ensures document { later ≡ later_pairs.TakenOut → OnOk result (document_in self.new
            ≡ set_in (str_name name.entry) (chars key.now) (chars value.now) (document_in self.old)) }
        ensures unchanged { OnErr result (self.new ≡ self.old) }
        ensures writable { OnOk result (HasForm self.old.option write.now.escape_policy (chars value.now)) }
        ensures refused { IfErr result (RefusesToSetIn self.old.option write.now self.old.sections
            (str_name name.entry) (chars key.now) (chars value.now)) }
    {
        if self.set_existing(alloc, write.escape_policy, later, name, key, value)? {
            return Ok(());
        }
        self.add(alloc, write, name, key, value)
    }

    // Sets a value that can be written, and does so with the later pairs.
    fn set_writable(
        &mut self,
        alloc: Global,
        policy: EscapePolicy,
        later: LaterPairs,
        name: Option<&str>,
        key: &str,
        value: &str,
    ) -> Result<bool, EditError>
        requires form { HasForm self.old.option policy (chars value.now) }
        ensures set { IfOk result (SetsFirst self.old.option policy later self.old self.new
            (str_name name.entry)
            (chars key.now) (chars value.now)) }
        ensures unchanged { OnErr result (self.new ≡ self.old) }
        ensures only { IsOkUnless result (EditErrors.Text (Memory alloc_error)) }
    {
        match later {
            LaterPairs::Left => self.set_found(alloc, policy, name, key, 0, value),
            LaterPairs::TakenOut => self.set_alone(alloc, policy, name, key, value),
        }
    }

    // Sets a value that can be written: of the pair of the key before which so many others of it stand.
    fn set_found(
        &mut self,
        alloc: Global,
        policy: EscapePolicy,
        name: Option<&str>,
        key: &str,
        n: usize,
        value: &str,
    ) -> Result<bool, EditError>
        requires form { HasForm self.old.option policy (chars value.now) }
        ensures set { IfOk result (SetsNth self.old.option policy self.old self.new (str_name name.entry)
            (chars key.now) n (chars value.now)) }
        ensures unchanged { OnErr result (self.new ≡ self.old) }
        ensures only { IsOkUnless result (EditErrors.Text (Memory alloc_error)) }
    {
        let read = self.option;
        let Some((section, pair)) = self.place(name, key, n) else {
            return Ok(false);
        };
        self.sections[section].set_at(alloc, pair, value, policy, read)?;
        Ok(true)
    }

    // Sets a value that can be written: of the first pair of the key, of which the later ones are taken out.
    fn set_alone(
        &mut self,
        alloc: Global,
        policy: EscapePolicy,
        name: Option<&str>,
        key: &str,
        value: &str,
    ) -> Result<bool, EditError>
        requires form { HasForm self.old.option policy (chars value.now) }
        ensures set { IfOk result (SetsFirst self.old.option policy later_pairs.TakenOut self.old self.new
            (str_name name.entry)
            (chars key.now) (chars value.now)) }
        ensures unchanged { OnErr result (self.new ≡ self.old) }
        ensures only { IsOkUnless result (EditErrors.Text (Memory alloc_error)) }
    {
        let read = self.option;
        let Some((section, pair)) = self.place(name, key, 0) else {
            return Ok(false);
        };
        let front = self.last_before(section);
        self.sections[section].set_alone_at(alloc, front, pair, key, value, policy, read)?;
        Ok(true)
    }
}

impl<'a> SourceSection<'a> {
    /// Sets the value of the pair at the index. Refused, the section stays.
    pub(crate) fn set_at(
        &mut self,
        alloc: Global,
        index: usize,
        value: &str,
        policy: EscapePolicy,
        read: ParseOption,
    ) -> Result<(), EditError>
        requires index { index < length self.old.pairs }
        requires own { HaveOwnSources read self.old.pairs }
        requires form { HasForm read policy (chars value.now) }
        ensures set { (p : Place PairPiece) → IsPlaceAt self.old.pairs p index
            → OnOk result (IsSetAt read policy (chars value.now) self.old self.new p) }
        ensures unchanged { OnErr result (self.new ≡ self.old) }
        ensures only { IsOkUnless result (EditErrors.Text (Memory alloc_error)) }
    {
        let Some(raw_value) = self.written_at(alloc, index, value, policy, read)? else {
            return Ok(());
        };
        let value = String::from_str(alloc, value)?;
        if self.pairs()[index].has_separator() {
            self.put_value_at(alloc, index, raw_value, value)?;
            return Ok(());
        }
        Ok(self.put_separator_at(alloc, index, raw_value, value, read)?)
    }

    // Sets the value of the pair at the index, and takes out the pairs of the key after its first. Refused,
    // the section stays.
    fn set_alone_at(
        &mut self,
        alloc: Global,
        front: char,
        index: usize,
        key: &str,
        value: &str,
        policy: EscapePolicy,
        read: ParseOption,
    ) -> Result<(), EditError>
        requires index { index < length self.old.pairs }
        requires own { HaveOwnSources read self.old.pairs }
        requires form { HasForm read policy (chars value.now) }
        ensures set { (p : Place PairPiece) → IsPlaceAt self.old.pairs p index
            → OnOk result (IsSetAlone read policy front (chars key.now) (chars value.now)
            self.old self.new p) }
        ensures unchanged { OnErr result (self.new ≡ self.old) }
        ensures only { IsOkUnless result (EditErrors.Text (Memory alloc_error)) }
    {
        let Some(_) = self.nth(key, 1) else {
            return self.set_at(alloc, index, value, policy, read);
        };
        *self = self.with_alone(alloc, front, index, key, value, policy, read)?;
        Ok(())
    }

    // The section with the value of the pair at the index set, and the pairs of the key out after its first.
    fn with_alone(
        &self,
        alloc: Global,
        front: char,
        index: usize,
        key: &str,
        value: &str,
        policy: EscapePolicy,
        read: ParseOption,
    ) -> Result<SourceSection<'a>, EditError>
        requires index { index < length self.now.pairs }
        requires own { HaveOwnSources read self.now.pairs }
        requires form { HasForm read policy (chars value.now) }
        ensures set { (p : Place PairPiece) → IsPlaceAt self.now.pairs p index
            → IfOk result (λ new. IsSetAlone read policy front (chars key.now) (chars value.now)
            self.now new p) }
        ensures only { IsOkUnless result (EditErrors.Text (Memory alloc_error)) }
    {
        let mut set = self.copy(alloc)?;
        set.set_at(alloc, index, value, policy, read)?;
        Ok(set.without(alloc, front, key, 1, read)?)
    }

    // Another raw value of the pair at the index; none where it has the value.
    fn written_at(
        &self,
        alloc: Global,
        index: usize,
        value: &str,
        policy: EscapePolicy,
        read: ParseOption,
    ) -> Result<Option<String>, EditError>
        requires index { index < length self.now.pairs }
        requires own { HaveOwnSources read self.now.pairs }
        requires form { HasForm read policy (chars value.now) }
        ensures written { (p : Place PairPiece) → IsPlaceAt self.now.pairs p index
            → IfOk result (λ raw. IsWrittenOr read policy (chars value.now) p.here
            (option_map string_text raw)) }
        ensures only { IsOkUnless result (EditErrors.Text (Memory alloc_error)) }
    {
        written_in_place(alloc, &self.pairs()[index], value, policy, read)
    }
}

// Another raw value of a pair; none where it has the value.
fn written_in_place(
    alloc: Global,
    pair: &SourcePair<'_>,
    value: &str,
    policy: EscapePolicy,
    read: ParseOption,
) -> Result<Option<String>, EditError>
    requires own { IsOwnSource read pair.now.stretches.raw_value }
    requires form { HasForm read policy (chars value.now) }
    ensures written { IfOk result
        (λ raw. IsWrittenOr read policy (chars value.now) pair.now (option_map string_text raw)) }
    ensures only { IsOkUnless result (EditErrors.Text (Memory alloc_error)) }
{
    if is_same_text(value, pair.value()) {
        return Ok(None);
    }
    let kept = kept_quote(pair.raw_value(), value, read);
    let quote = quote_before(kept, value, pair.note(), read);
    match first_form(alloc, quote, value, policy, read)? {
        Some(source) => Ok(Some(source)),
        None => Err(EditError::Value),
    }
}
