//! Edits of a whole text under a rule: it is read in pieces, edited, and written again. This file knows the
//! calls of pieces alone.
ghost use Rattle.std.specs.Prelude.{IfErr, IfOk, MatchOption, OnOk, chars};
ghost use Rattle.ini.specs.Texts.{str_name};
ghost use Rattle.ini_text.specs.Parsing.Items.{string_text};
ghost use Rattle.ini_edit.specs.Editings.{RenameKey, RenameSection, editing_of};
ghost use Rattle.ini_edit.specs.SourceEditsSet.{IsMemoryRefusal};
ghost use Rattle.ini_dialect.specs.KeyEdits.{RefusesKey};
ghost use Rattle.ini_dialect.specs.RuledTexts.{HasNothingUnder, IsAddedTextUnder, IsDeletedTextUnder};
ghost use Rattle.ini_dialect.specs.RuledTexts.{IsKeyRenamedTextUnder, IsMadeUnder, IsNameRenamedTextUnder};
ghost use Rattle.ini_dialect.specs.RuledTexts.{IsSectionDeletedTextUnder, RenamesWritably};
ghost use Rattle.ini_dialect.specs.RuledTexts.{IsSetTextUnder, IsSetThereTextUnder, LacksNamed, LacksUnder};
ghost use Rattle.ini_dialect.specs.RuledTexts.{RefusesInText, RefusesMadeUnder, RefusesToAddTextUnder};
ghost use Rattle.ini_dialect.specs.RuledTexts.{RefusesToSetTextUnder};
ghost use Rattle.ini_dialect.specs.SectionEdits.{RefusesName};
ghost use Rattle.ini_dialect.specs.SourceLookups.{RefusesValue};

use crate::rule::Lookup;
use ini_edit::{Edit, EditError, Source};
use ini_text::{EscapePolicy, ParseOption, WriteOption};
use std::alloc::Global;

impl Lookup {
    /// The text with the edit made in it under the rule: the pair that counts is set, a new pair goes where
    /// it counts, all pairs of the key that are looked at are taken out, or get the other key, and all
    /// sections of the name that are looked at are taken out, or renamed. `None` where there is no such pair
    /// or section.
    ///
    /// # Errors
    ///
    /// `Text` where reading the text stops, with line and column, or memory is refused; and those of the
    /// edit's call of pieces.
    pub fn make_edit(
        self,
        alloc: Global,
        text: &str,
        read: ParseOption,
        write: &WriteOption,
        edit: Edit<'_>,
    ) -> Result<Option<String>, EditError>
        ensures made { IfOk result (λ made. MatchOption made
            (HasNothingUnder self read (chars text.now) (editing_of edit.entry))
            (λ new. IsMadeUnder self read (chars text.now) write.now (editing_of edit.entry)
            (string_text new))) }
        ensures writable { OnOk result
            (RenamesWritably read write.now.escape_policy (editing_of edit.entry)) }
        ensures refused { IfErr result
            (RefusesMadeUnder self read (chars text.now) write.now (editing_of edit.entry)) }
    {
        match edit {
            Edit::Set { name, key, value } => {
                Ok(Some(self.set_in_text(alloc, text, read, write, name, key, value)?))
            }
            Edit::SetExisting { name, key, value } => {
                let policy = write.escape_policy;
                self.set_existing_in_text(alloc, text, read, policy, name, key, value)
            }
            Edit::Add { name, key, value } => {
                Ok(Some(self.add_in_text(alloc, text, read, write, name, key, value)?))
            }
            Edit::Delete { name, key } => self.delete_in_text(alloc, text, read, name, key),
            Edit::RenameKey { name, old, new } => {
                let policy = write.escape_policy;
                self.rename_key_in_text(alloc, text, read, policy, name, old, new)
            }
            Edit::DeleteSection { name } => self.delete_section_in_text(alloc, text, read, name),
            Edit::RenameSection { old, new } => {
                let policy = write.escape_policy;
                self.rename_section_in_text(alloc, text, read, policy, old, new)
            }
        }
    }

    // The text with the key set, as `set_in_source` sets it.
    fn set_in_text(
        self,
        alloc: Global,
        text: &str,
        read: ParseOption,
        write: &WriteOption,
        name: Option<&str>,
        key: &str,
        value: &str,
    ) -> Result<String, EditError>
        ensures set { IfOk result (λ new. IsSetTextUnder self read (chars text.now) write.now
            (str_name name.entry) (chars key.now) (chars value.now) (string_text new)) }
        ensures refused { IfErr result (RefusesToSetTextUnder self read (chars text.now) write.now
            (str_name name.entry) (chars key.now) (chars value.now)) }
    {
        let mut source = Source::read(alloc, text, read)?;
        self.set_in_source(alloc, write, &mut source, name, key, value)?;
        Ok(source.to_text(alloc)?)
    }

    // The text with the key set where it is there, as `set_existing_in_source` sets it.
    fn set_existing_in_text(
        self,
        alloc: Global,
        text: &str,
        read: ParseOption,
        policy: EscapePolicy,
        name: Option<&str>,
        key: &str,
        value: &str,
    ) -> Result<Option<String>, EditError>
        ensures set { IfOk result (λ set. MatchOption set
            (LacksUnder self read (chars text.now) (str_name name.entry) (chars key.now))
            (λ new. IsSetThereTextUnder self read (chars text.now) policy (str_name name.entry)
            (chars key.now) (chars value.now) (string_text new))) }
        ensures refused { IfErr result (RefusesInText read (chars text.now)
            (λ p. RefusesValue read policy (chars value.now))) }
    {
        let mut source = Source::read(alloc, text, read)?;
        if self.set_existing_in_source(alloc, policy, &mut source, name, key, value)? {
            return Ok(Some(source.to_text(alloc)?));
        }
        Ok(None)
    }

    // The text with a pair added, as `add_in_source` adds it.
    fn add_in_text(
        self,
        alloc: Global,
        text: &str,
        read: ParseOption,
        write: &WriteOption,
        name: Option<&str>,
        key: &str,
        value: &str,
    ) -> Result<String, EditError>
        ensures added { IfOk result (λ new. IsAddedTextUnder self read (chars text.now) write.now
            (str_name name.entry) (chars key.now) (chars value.now) (string_text new)) }
        ensures refused { IfErr result (RefusesToAddTextUnder self read (chars text.now) write.now
            (str_name name.entry) (chars key.now) (chars value.now)) }
    {
        let mut source = Source::read(alloc, text, read)?;
        self.add_in_source(alloc, write, &mut source, name, key, value)?;
        Ok(source.to_text(alloc)?)
    }

    // The text without the pairs that `delete_in_source` takes out; `None` where there is none.
    fn delete_in_text(
        self,
        alloc: Global,
        text: &str,
        read: ParseOption,
        name: Option<&str>,
        key: &str,
    ) -> Result<Option<String>, EditError>
        ensures deleted { IfOk result (λ deleted. MatchOption deleted
            (LacksUnder self read (chars text.now) (str_name name.entry) (chars key.now))
            (λ new. IsDeletedTextUnder self read (chars text.now) (str_name name.entry) (chars key.now)
            (string_text new))) }
        ensures refused { IfErr result (RefusesInText read (chars text.now) (λ p. IsMemoryRefusal)) }
    {
        let mut source = Source::read(alloc, text, read)?;
        if self.delete_in_source(alloc, &mut source, name, key)? {
            return Ok(Some(source.to_text(alloc)?));
        }
        Ok(None)
    }

    // The text in which the pairs have the key that `rename_key_in_source` gives them; `None` where there is
    // none.
    fn rename_key_in_text(
        self,
        alloc: Global,
        text: &str,
        read: ParseOption,
        policy: EscapePolicy,
        name: Option<&str>,
        old: &str,
        new: &str,
    ) -> Result<Option<String>, EditError>
        ensures renamed { IfOk result (λ renamed. MatchOption renamed
            (LacksUnder self read (chars text.now) (str_name name.entry) (chars old.now))
            (λ made. IsKeyRenamedTextUnder self read (chars text.now) policy (str_name name.entry)
            (chars old.now) (chars new.now) (string_text made))) }
        ensures writable { OnOk result (RenamesWritably read policy
            (RenameKey (str_name name.entry) (chars old.now) (chars new.now))) }
        ensures refused { IfErr result (RefusesInText read (chars text.now)
            (λ p. RefusesKey read policy (chars new.now))) }
    {
        let mut source = Source::read(alloc, text, read)?;
        if self.rename_key_in_source(alloc, policy, &mut source, name, old, new)? {
            return Ok(Some(source.to_text(alloc)?));
        }
        Ok(None)
    }

    // The text without the sections that `delete_section_in_source` takes out; `None` where there is none.
    fn delete_section_in_text(
        self,
        alloc: Global,
        text: &str,
        read: ParseOption,
        name: &str,
    ) -> Result<Option<String>, EditError>
        ensures deleted { IfOk result (λ deleted. MatchOption deleted
            (LacksNamed self read (chars text.now) (chars name.now))
            (λ new. IsSectionDeletedTextUnder self read (chars text.now) (chars name.now)
            (string_text new))) }
        ensures refused { IfErr result (RefusesInText read (chars text.now) (λ p. IsMemoryRefusal)) }
    {
        let mut source = Source::read(alloc, text, read)?;
        if self.delete_section_in_source(alloc, &mut source, name)? {
            return Ok(Some(source.to_text(alloc)?));
        }
        Ok(None)
    }

    // The text in which the sections have the name that `rename_section_in_source` gives them; `None` where
    // there is none.
    fn rename_section_in_text(
        self,
        alloc: Global,
        text: &str,
        read: ParseOption,
        policy: EscapePolicy,
        old: &str,
        new: &str,
    ) -> Result<Option<String>, EditError>
        ensures renamed { IfOk result (λ renamed. MatchOption renamed
            (LacksNamed self read (chars text.now) (chars old.now))
            (λ made. IsNameRenamedTextUnder self read (chars text.now) policy (chars old.now)
            (chars new.now) (string_text made))) }
        ensures writable { OnOk result (RenamesWritably read policy
            (RenameSection (chars old.now) (chars new.now))) }
        ensures refused { IfErr result (RefusesInText read (chars text.now)
            (λ p. RefusesName read policy (chars new.now))) }
    {
        let mut source = Source::read(alloc, text, read)?;
        if self.rename_section_in_source(alloc, policy, &mut source, old, new)? {
            return Ok(Some(source.to_text(alloc)?));
        }
        Ok(None)
    }
}
