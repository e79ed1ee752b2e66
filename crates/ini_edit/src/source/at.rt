//! Edits of a text in pieces at the index of a section, and of a pair in it. This file knows sections by
//! their calls, and how pairs are written.
ghost use Rattle.std.specs.Prelude.{◌≡◌, ◌↔◌, Err, IfErr, IfOk, IsOkUnless, OnErr, OnOk, alloc_error};
ghost use Rattle.std.specs.Prelude.{chars, false, is_some, true};
ghost use Rattle.std.specs.List.{remove};
ghost use Rattle.std.specs.Option.{option_map};
ghost use Rattle.ini.specs.Texts.{str_text};
ghost use Rattle.ini_edit.specs.Edited.{IsKeyOrMemory, IsValueOrMemory};
ghost use Rattle.ini_edit.specs.Inside.SourceEnds.{IsPairAt};
ghost use Rattle.ini_edit.specs.Renamed.{IsPlainBareKey};
ghost use Rattle.ini_edit.specs.SourceEditsAt.{AddsAtIndex, CommentsOutAtIndex, RefusesAtIndex};
ghost use Rattle.ini_edit.specs.SourceEditsAt.{RefusesCommentAtIndex, RefusesToCommentOutAtIndex};
ghost use Rattle.ini_edit.specs.SourceEditsAt.{RenamesAtIndex, SetsAtIndex, SetsCommentAtIndex, at_section};
ghost use Rattle.ini_edit.specs.SourceEditsAt.{deleted_at_index, indexed_pair};
ghost use Rattle.ini_edit.specs.SourceEditsComments.{IsCommentText, comments_above};
ghost use Rattle.ini_edit.specs.SourceEditsList.{with_sections};
ghost use Rattle.ini_edit.specs.SourceWritten.{HasForm, IsWritableNew};
ghost use Rattle.ini_edit.specs.Sources.{document_in};
ghost use Rattle.ini_edit.specs.declared.error.EditError.TheVariants as EditErrors;

use crate::error::EditError;
use crate::key::is_plain_bare_key;
use crate::source::Source;
use crate::source::add::checked_pair;
use crate::source::lines::is_comment_text;
use crate::source::written::{NewPair, is_writable};
use ini_text::{Error, EscapePolicy, WriteOption};
use std::alloc::Global;

impl<'a> Source<'a> {
    /// Sets the value of the pair at an index in the section at an index, where there is one: whether there
    /// is. Indices are those of `sections` and of a section's `pairs`. The rest is as `set_existing` has it.
    ///
    /// # Errors
    ///
    /// Those of `set_existing`. Nothing is changed then.
    pub fn set_at(
        &mut self,
        alloc: Global,
        policy: EscapePolicy,
        section: usize,
        pair: usize,
        value: &str,
    ) -> Result<bool, EditError>
        ensures set { IfOk result (SetsAtIndex self.old.option policy self.old self.new section pair
            (chars value.now)) }
        ensures unchanged { OnErr result (self.new ≡ self.old) }
        ensures value { result ≡ Err EditErrors.Value → ¬ HasForm self.old.option policy (chars value.now) }
        ensures writable { OnOk result (HasForm self.old.option policy (chars value.now)) }
        ensures only { IfErr result IsValueOrMemory }
    {
        if !is_writable(alloc, value, policy, self.option)? {
            return Err(EditError::Value);
        }
        if !self.has_at(section, pair) {
            return Ok(false);
        }
        let read = self.option;
        self.sections[section].set_at(alloc, pair, value, policy, read)?;
        Ok(true)
    }

    /// Takes out the pair at an index in the section at an index: whether there was one. The rest is as
    /// `delete` has it.
    pub fn delete_at(&mut self, alloc: Global, section: usize, pair: usize) -> Result<bool, Error>
        ensures found { IfOk result (λ found. found
            ≡ is_some (indexed_pair section pair self.old.sections)) }
        ensures deleted { OnOk result (self.new ≡ with_sections self.old
            (deleted_at_index self.old.option section pair self.old.sections)) }
        ensures document { IfOk result (λ found. found ≡ true → document_in self.new
            ≡ at_section section (λ pairs. remove pairs pair) (document_in self.old)) }
        ensures unchanged { OnErr result (self.new ≡ self.old) }
        ensures only { IsOkUnless result (Error.Memory alloc_error) }
    {
        if !self.has_at(section, pair) {
            return Ok(false);
        }
        let read = self.option;
        let front = self.last_before(section);
        self.sections[section].take_out(alloc, front, pair, read)?;
        Ok(true)
    }

    /// Adds a pair to the section at an index, where there is one: whether there is. The rest is as `add`
    /// has it.
    ///
    /// # Errors
    ///
    /// Those of `add` in a section that is there. Nothing is changed then.
    pub fn add_at(
        &mut self,
        alloc: Global,
        write: &WriteOption,
        section: usize,
        key: &str,
        value: &str,
    ) -> Result<bool, EditError>
        ensures added { IfOk result (AddsAtIndex self.old.option write.now self.old self.new section
            (chars key.now) (chars value.now)) }
        ensures unchanged { OnErr result (self.new ≡ self.old) }
        ensures writable { OnOk result (IsWritableNew self.old.option write.now (chars key.now)
            (chars value.now)) }
        ensures refused { IfErr result (RefusesAtIndex self.old.option write.now self.old.sections section
            (chars key.now) (chars value.now)) }
    {
        let read = self.option;
        let raw_value = checked_pair(alloc, key, value, read, write)?;
        let count = self.sections.len();
        if section >= count {
            return Ok(false);
        }
        let end = self.line_end(write.line_separator);
        let pairs = self.sections[section].pairs().len();
        let style = self.style(section, pairs, write);
        let pair = NewPair::new(alloc, style, key, value, raw_value, write.escape_policy)?;
        let is_last = section + 1 == count;
        self.sections[section].insert_last(alloc, pair, is_last, end, read)?;
        Ok(true)
    }

    /// Gives the pair at an index in the section at an index another key: whether there is one. The rest is
    /// as `rename_key` has it.
    ///
    /// # Errors
    ///
    /// Those of `rename_key`. Nothing is changed then.
    pub fn rename_key_at(
        &mut self,
        alloc: Global,
        policy: EscapePolicy,
        section: usize,
        pair: usize,
        key: &str,
    ) -> Result<bool, EditError>
        ensures renamed { IfOk result (RenamesAtIndex self.old.option policy self.old self.new section pair
            (chars key.now)) }
        ensures unchanged { OnErr result (self.new ≡ self.old) }
        ensures key { (result ≡ Err EditErrors.Key)
            ↔ ¬ IsPlainBareKey self.old.option policy (chars key.now) }
        ensures only { IfErr result IsKeyOrMemory }
    {
        if !is_plain_bare_key(key, policy, self.option) {
            return Err(EditError::Key);
        }
        if !self.has_at(section, pair) {
            return Ok(false);
        }
        let read = self.option;
        self.sections[section].rename_at(alloc, pair, key, policy, read)?;
        Ok(true)
    }

    /// Makes the pair at an index in the section at an index a comment: whether there was one. The rest is
    /// as `comment_out` has it.
    ///
    /// # Errors
    ///
    /// Those of `comment_out`. Nothing is changed then.
    pub fn comment_out_at(
        &mut self,
        alloc: Global,
        section: usize,
        pair: usize,
    ) -> Result<bool, EditError>
        ensures commented { IfOk result (CommentsOutAtIndex self.old.option self.old self.new section pair) }
        ensures unchanged { OnErr result (self.new ≡ self.old) }
        ensures refused { IfErr result (RefusesToCommentOutAtIndex self.old.option self.old.sections section
            pair) }
    {
        if !self.has_at(section, pair) {
            return Ok(false);
        }
        let read = self.option;
        let front = self.last_before(section);
        if self.sections[section].comment_out(alloc, front, pair, read)? {
            return Ok(true);
        }
        Err(EditError::NoPlace)
    }

    /// The comment lines directly above the pair at an index in the section at an index, as `comment_of` has
    /// them. `None` where there is no such pair.
    pub fn comment_at(&self, section: usize, pair: usize) -> Option<&str>
        ensures { option_map str_text result
            ≡ option_map comments_above (indexed_pair section pair self.now.sections) }
    {
        if !self.has_at(section, pair) {
            return None;
        }
        let front = self.last_before(section);
        Some(self.sections[section].comments_above(front, pair))
    }

    /// Puts comment lines directly above the pair at an index in the section at an index, in place of those
    /// that stand there: whether there is such a pair. The rest is as `set_comment` has it.
    ///
    /// # Errors
    ///
    /// Those of `set_comment`. Nothing is changed then.
    pub fn set_comment_at(
        &mut self,
        alloc: Global,
        write: &WriteOption,
        section: usize,
        pair: usize,
        comment: &str,
    ) -> Result<bool, EditError>
        ensures set { IfOk result (SetsCommentAtIndex self.old.option write.now self.old self.new section
            pair (chars comment.now)) }
        ensures unchanged { OnErr result (self.new ≡ self.old) }
        ensures comment { OnOk result (IsCommentText (chars comment.now)) }
        ensures refused { IfErr result (RefusesCommentAtIndex self.old.option write.now self.old.sections
            section pair (chars comment.now)) }
    {
        if !is_comment_text(comment) {
            return Err(EditError::Value);
        }
        if !self.has_at(section, pair) {
            return Ok(false);
        }
        self.put_comment(alloc, write, section, pair, comment)?;
        Ok(true)
    }

    // Whether there is a pair at the index in the section at the index.
    fn has_at(&self, section: usize, pair: usize) -> bool
        ensures there { result ≡ true → IsPairAt (indexed_pair section pair self.now.sections)
            self.now.sections section pair }
        ensures none { result ≡ false → indexed_pair section pair self.now.sections ≡ None }
    {
        let count = self.sections.len();
        if section >= count {
            return false;
        }
        pair < self.sections[section].pairs().len()
    }
}
