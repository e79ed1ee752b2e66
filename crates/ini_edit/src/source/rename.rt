//! Keys and sections renamed in a text in pieces. This file knows sections by their calls.
ghost use Rattle.std.specs.Prelude.{◌≡◌, ◌↔◌, chars, Err, IfErr, IfOk, OnErr};
ghost use Rattle.ini.specs.Texts.{str_name};
ghost use Rattle.ini_text.specs.Laws.Plain.{IsPlainName};
ghost use Rattle.ini_edit.specs.Edited.{IsKeyOrMemory, IsNameOrMemory};
ghost use Rattle.ini_edit.specs.Renamed.{IsPlainBareKey};
ghost use Rattle.ini_edit.specs.SourceEdits.{RenamesKeyIn, RenamesNameIn};
ghost use Rattle.ini_edit.specs.declared.error.EditError.TheVariants as EditErrors;

use crate::error::EditError;
use crate::key::is_plain_bare_key;
use crate::source::{Source, position};
use ini_text::{EscapePolicy, is_plain_name};
use std::alloc::Global;

impl<'a> Source<'a> {
    /// Gives the first pair of the key `old` in the first section of a name the key `new`: whether there is
    /// that pair. No name is the general section's.
    ///
    /// The key alone is written anew, as the policy says. White space around it, the separator and the value
    /// stay, and so does every other byte. Where keys keep their leading white space that goes with the key.
    ///
    /// # Errors
    ///
    /// `Key` where the new key can't be written in any pair's place so that it is read back: it isn't plain
    /// (`is_plain_pair`), or a space begins it; whatever the text is. `Text` where memory is refused.
    /// Nothing is changed then.
    pub fn rename_key(
        &mut self,
        alloc: Global,
        policy: EscapePolicy,
        name: Option<&str>,
        old: &str,
        new: &str,
    ) -> Result<bool, EditError>
        ensures renamed { IfOk result (RenamesKeyIn self.old.option policy self.old self.new
            (str_name name.entry) (chars old.now) (chars new.now)) }
        ensures unchanged { OnErr result (self.new ≡ self.old) }
        ensures key { (result ≡ Err EditErrors.Key)
            ↔ ¬ IsPlainBareKey self.old.option policy (chars new.now) }
        ensures only { IfErr result IsKeyOrMemory }
    {
        if !is_plain_bare_key(new, policy, self.option) {
            return Err(EditError::Key);
        }
        let Some(index) = position(&self.sections, name) else {
            return Ok(false);
        };
        Ok(self.sections[index].rename_key(alloc, old, new, policy, self.option)?)
    }

    /// Gives the first section of the name `old` the name `new`: whether there is that section. The general
    /// section has no name.
    ///
    /// The new name stands between the header's brackets as the policy writes it: blanks within the old
    /// brackets go, and where brackets may stand in names, those up to the line end, but not those before a
    /// note. Every other byte stays.
    ///
    /// # Errors
    ///
    /// `Name` where the new name isn't plain (`is_plain_name`), whatever the text is; `Text` where memory is
    /// refused. Nothing is changed then.
    pub fn rename_section(
        &mut self,
        alloc: Global,
        policy: EscapePolicy,
        old: &str,
        new: &str,
    ) -> Result<bool, EditError>
        ensures renamed { IfOk result (RenamesNameIn policy self.old self.new (chars old.now)
            (chars new.now)) }
        ensures unchanged { OnErr result (self.new ≡ self.old) }
        ensures name { (result ≡ Err EditErrors.Name)
            ↔ ¬ IsPlainName self.old.option policy (chars new.now) }
        ensures only { IfErr result IsNameOrMemory }
    {
        if !is_plain_name(new, policy, self.option) {
            return Err(EditError::Name);
        }
        let Some(index) = position(&self.sections, Some(old)) else {
            return Ok(false);
        };
        self.sections[index].rename(alloc, new, policy)?;
        Ok(true)
    }
}
