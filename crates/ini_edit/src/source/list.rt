//! Several edits of a text in pieces, all or none. This file knows edits by their calls.
ghost use Rattle.std.specs.Prelude.{◌≡◌, ◌∷◌, [], IfErr, IfOk, IsOkUnless, OnErr, OnOk, alloc_error, chars};
ghost use Rattle.std.specs.Prelude.{map};
ghost use Rattle.ini.specs.Texts.{str_name, str_text};
ghost use Rattle.ini_edit.specs.Editings.{editing_of};
ghost use Rattle.ini_edit.specs.SourceEditsAdded.{AreAllSet, IsPut, RefusesOneValue, RefusesToPut};
ghost use Rattle.ini_edit.specs.SourceEditsList.{AreMadeOf, MakesDocument, MakesNext, MakesOf};
ghost use Rattle.ini_edit.specs.SourceEditsList.{RefusesFirstOf, RefusesOf, RefusesOneOfThem};
ghost use Rattle.ini_edit.specs.declared.source.set.LaterPairs.TheVariants as later_pairs;

use crate::edit_list::RefusedEdit;
use crate::edits::Edit;
use crate::error::EditError;
use crate::source::Source;
use crate::source::set::LaterPairs;
use ini_text::{Error, WriteOption};
use std::alloc::{AllocError, Global};

impl<'a> Source<'a> {
    /// The same pieces once more, of the same text.
    ///
    /// # Errors
    ///
    /// `Memory` where memory is refused.
    pub fn copy(&self, alloc: Global) -> Result<Source<'a>, Error>
        ensures copied { IfOk result (λ copy. copy ≡ self.now) }
        ensures only { IsOkUnless result (Error.Memory alloc_error) }
    {
        let mut sections = Vec::with_capacity(alloc, self.sections.len())?;
        for section in &self.sections {
            sections
                .push(section.copy(alloc)?)
                .map_err(AllocError::from)?;
        }
        Ok(Source {
            option: self.option,
            sections,
        })
    }

    /// Gives a key these values, in order, in the first section of a name. Its pairs get them one after
    /// another, as `set_nth` sets one; each value more stands in a new pair after that of the value before
    /// it, or as `add` puts one in where there is none; each pair more is taken out, as `delete_nth` takes
    /// one out.
    ///
    /// # Errors
    ///
    /// Those of `set_nth`, and where a pair is new those of `add`. Nothing is changed then.
    pub fn set_all(
        &mut self,
        alloc: Global,
        write: &WriteOption,
        name: Option<&str>,
        key: &str,
        values: &[&str],
    ) -> Result<(), EditError>
        ensures set { OnOk result (AreAllSet self.old.option write.now self.old self.new
            (str_name name.entry)
            (chars key.now) (map str_text values.now)) }
        ensures unchanged { OnErr result (self.new ≡ self.old) }
        ensures refused { IfErr result (RefusesOneValue self.old.option write.now self.old
            (str_name name.entry)
            (chars key.now) (map str_text values.now)) }
    {
        let new = self.all_set(alloc, write, name, key, values)?;
        self.replace_with(new);
        Ok(())
    }

    // A copy in which the key has the values.
    fn all_set(
        &self,
        alloc: Global,
        write: &WriteOption,
        name: Option<&str>,
        key: &str,
        values: &[&str],
    ) -> Result<Source<'a>, EditError>
        ensures set { IfOk result (λ new. AreAllSet self.now.option write.now self.now new
            (str_name name.entry)
            (chars key.now) (map str_text values.now)) }
        ensures refused { IfErr result (RefusesOneValue self.now.option write.now self.now
            (str_name name.entry)
            (chars key.now) (map str_text values.now)) }
    {
        let mut new = self.copy(alloc)?;
        for (n, value) in values.iter().enumerate() {
            new.put_nth(alloc, write, name, key, n, *value)?;
        }
        new.delete_from(alloc, name, key, values.len())?;
        Ok(new)
    }

    /// Puts these pieces in place of its own. Takes no memory.
    pub fn replace_with(&mut self, new: Source<'a>)
        ensures is { self.new ≡ new.entry }
    {
        let Source { option, sections } = new;
        self.option = option;
        self.sections = sections;
    }

    // Sets the value of the pair of a key before which so many others of the key stand; or puts it in after
    // those.
    fn put_nth(
        &mut self,
        alloc: Global,
        write: &WriteOption,
        name: Option<&str>,
        key: &str,
        n: usize,
        value: &str,
    ) -> Result<(), EditError>
        ensures put { OnOk result (IsPut self.old.option write.now self.old self.new (str_name name.entry)
            (chars key.now) (chars value.now) n) }
        ensures refused { IfErr result (RefusesToPut self.old.option write.now self.old.sections
            (str_name name.entry)
            (chars key.now) (chars value.now) n) }
    {
        if self.set_nth(alloc, write.escape_policy, name, key, n, value)? {
            return Ok(());
        }
        if let Some(before) = n.checked_sub(1) {
            if self.insert_after_nth(alloc, write, name, key, before, key, value)? {
                return Ok(());
            }
        }
        self.add(alloc, write, name, key, value)
    }

    /// Makes the edits one after another, all or none: whether each found what it is about. An edit that
    /// finds nothing changes nothing, and the others go on.
    ///
    /// # Errors
    ///
    /// That of the first edit that is refused, with its index from 0. Nothing is changed then.
    pub fn make_edits(
        &mut self,
        alloc: Global,
        write: &WriteOption,
        later: LaterPairs,
        edits: &[Edit<'_>],
    ) -> Result<Vec<bool>, RefusedEdit>
        ensures made { IfOk result (λ found. AreMadeOf write.now later self.old (map editing_of edits.now)
            found.items self.new) }
        ensures unchanged { OnErr result (self.new ≡ self.old) }
        ensures refused { IfErr result (RefusesOneOfThem write.now later self.old
            (map editing_of edits.now)) }
    {
        let mut new = match self.copy(alloc) {
            Ok(new) => new,
            Err(refusal) => return Err(refused_at(0, refusal.into())),
        };
        let found = new.make_each(alloc, write, later, edits)?;
        self.replace_with(new);
        Ok(found)
    }

    /// Makes the edits one after another. Those before one that is refused stay made, so this is for pieces
    /// that are dropped then.
    pub(crate) fn make_each(
        &mut self,
        alloc: Global,
        write: &WriteOption,
        later: LaterPairs,
        edits: &[Edit<'_>],
    ) -> Result<Vec<bool>, RefusedEdit>
        ensures made { IfOk result (λ found. AreMadeOf write.now later self.old (map editing_of edits.now)
            found.items self.new) }
        ensures refused { IfErr result (RefusesOneOfThem write.now later self.old
            (map editing_of edits.now)) }
    {
        let mut found = Vec::new(alloc);
        for (index, edit) in edits.iter().enumerate() {
            if let Err(refusal) = self.go_on(alloc, write, later, *edit, &mut found) {
                return Err(refused_at(index, refusal));
            }
        }
        Ok(found)
    }

    // Makes one edit more, and keeps whether it found what it is about.
    fn go_on(
        &mut self,
        alloc: Global,
        write: &WriteOption,
        later: LaterPairs,
        edit: Edit<'_>,
        found: &mut Vec<bool>,
    ) -> Result<(), EditError>
        ensures made { OnOk result (MakesNext write.now later
            (editing_of edit.entry) self.old self.new found.old.items
            found.new.items) }
        ensures refused { IfErr result (RefusesFirstOf write.now later
            (editing_of edit.entry ∷ []) self.old) }
    {
        let is_found = self.make_edit(alloc, write, later, edit)?;
        found.push(is_found).map_err(AllocError::from)?;
        Ok(())
    }

    /// Makes an edit, as the call of its name does: whether it found what it is about, which `Set` and `Add`
    /// always do.
    ///
    /// # Errors
    ///
    /// Those of its call. Nothing is changed then.
    pub fn make_edit(
        &mut self,
        alloc: Global,
        write: &WriteOption,
        later: LaterPairs,
        edit: Edit<'_>,
    ) -> Result<bool, EditError>
        ensures made { IfOk result (MakesOf write.now later (editing_of edit.entry) self.old self.new) }
        ensures option { OnOk result (self.new.option ≡ self.old.option) }
        ensures document { later ≡ later_pairs.TakenOut
            → IfOk result (MakesDocument (editing_of edit.entry) self.old self.new) }
        ensures unchanged { OnErr result (self.new ≡ self.old) }
        ensures refused { IfErr result (RefusesOf write.now later (editing_of edit.entry) self.old) }
    {
        let policy = write.escape_policy;
        match edit {
            Edit::Set { name, key, value } => {
                self.set(alloc, write, later, name, key, value)?;
                Ok(true)
            }
            Edit::SetExisting { name, key, value } => {
                self.set_existing(alloc, policy, later, name, key, value)
            }
            Edit::Add { name, key, value } => {
                self.add(alloc, write, name, key, value)?;
                Ok(true)
            }
            Edit::Delete { name, key } => Ok(self.delete(alloc, name, key)?),
            Edit::RenameKey { name, old, new } => self.rename_key(alloc, policy, name, old, new),
            Edit::DeleteSection { name } => Ok(self.delete_section(alloc, name)?),
            Edit::RenameSection { old, new } => self.rename_section(alloc, policy, old, new),
        }
    }
}

fn refused_at(index: usize, refusal: EditError) -> RefusedEdit
    ensures { result ≡ record { index = index; refusal = refusal } }
{
    RefusedEdit { index, refusal }
}
