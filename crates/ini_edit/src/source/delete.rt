//! Pairs taken out of a text in pieces. This file knows sections by their calls.
ghost use Rattle.std.specs.Prelude.{◌≡◌, IfOk, IsOkUnless, OnErr, OnOk, alloc_error, chars, is_some};
ghost use Rattle.ini.specs.Edits.{delete_in};
ghost use Rattle.ini.specs.Texts.{str_name};
ghost use Rattle.ini_edit.specs.SourceEditsDelete.{deleted_from, deleted_nth};
ghost use Rattle.ini_edit.specs.SourceEditsList.{with_sections};
ghost use Rattle.ini_edit.specs.SourcePlaces.{pair_place};
ghost use Rattle.ini_edit.specs.Sources.{document_in};

use crate::source::Source;
use ini_text::Error;
use std::alloc::Global;

impl<'a> Source<'a> {
    /// Takes out the first pair of a key in the first section of a name: whether there was one. No name is
    /// the general section's.
    ///
    /// The pair goes with its lines and its line end. The line end stays where no line starts before the
    /// pair, and where a comment follows that must stay behind it; a blank goes before a CR that then stands
    /// behind a multiline value. Every other byte stays.
    ///
    /// # Errors
    ///
    /// `Memory` where memory is refused: nothing is changed then.
    pub fn delete(&mut self, alloc: Global, name: Option<&str>, key: &str) -> Result<bool, Error>
        ensures found { IfOk result (λ found. found
            ≡ is_some (pair_place (str_name name.entry) (chars key.now) 0 self.old.sections)) }
        ensures deleted { OnOk result (self.new ≡ with_sections self.old
            (deleted_nth self.old.option (str_name name.entry) (chars key.now) 0 self.old.sections)) }
        ensures document { OnOk result (document_in self.new
            ≡ delete_in (str_name name.entry) (chars key.now) (document_in self.old)) }
        ensures unchanged { OnErr result (self.new ≡ self.old) }
        ensures only { IsOkUnless result (Error.Memory alloc_error) }
    {
        self.delete_nth(alloc, name, key, 0)
    }

    /// Takes out the pair of a key before which so many others of the key stand in the first section of a
    /// name: whether there was one. The rest is as `delete` has it.
    pub fn delete_nth(
        &mut self,
        alloc: Global,
        name: Option<&str>,
        key: &str,
        n: usize,
    ) -> Result<bool, Error>
        ensures found { IfOk result (λ found. found
            ≡ is_some (pair_place (str_name name.entry) (chars key.now) n self.old.sections)) }
        ensures deleted { OnOk result (self.new ≡ with_sections self.old
            (deleted_nth self.old.option (str_name name.entry) (chars key.now) n self.old.sections)) }
        ensures unchanged { OnErr result (self.new ≡ self.old) }
        ensures only { IsOkUnless result (Error.Memory alloc_error) }
    {
        let read = self.option;
        let Some((section, pair)) = self.place(name, key, n) else {
            return Ok(false);
        };
        let front = self.last_before(section);
        self.sections[section].take_out(alloc, front, pair, read)?;
        Ok(true)
    }

    /// Takes out all pairs of a key in the first section of a name: whether there was one. The rest is as
    /// `delete` has it.
    pub fn delete_all(
        &mut self,
        alloc: Global,
        name: Option<&str>,
        key: &str,
    ) -> Result<bool, Error>
        ensures found { IfOk result (λ found. found
            ≡ is_some (pair_place (str_name name.entry) (chars key.now) 0 self.old.sections)) }
        ensures deleted { OnOk result (self.new ≡ with_sections self.old
            (deleted_from self.old.option (str_name name.entry) (chars key.now) 0 self.old.sections)) }
        ensures unchanged { OnErr result (self.new ≡ self.old) }
        ensures only { IsOkUnless result (Error.Memory alloc_error) }
    {
        self.delete_from(alloc, name, key, 0)
    }

    // Takes out the pairs of a key but for the first `kept` of them.
    pub(crate) fn delete_from(
        &mut self,
        alloc: Global,
        name: Option<&str>,
        key: &str,
        kept: usize,
    ) -> Result<bool, Error>
        ensures found { IfOk result (λ found. found
            ≡ is_some (pair_place (str_name name.entry) (chars key.now) kept self.old.sections)) }
        ensures deleted { OnOk result (self.new ≡ with_sections self.old
            (deleted_from self.old.option (str_name name.entry) (chars key.now) kept self.old.sections)) }
        ensures unchanged { OnErr result (self.new ≡ self.old) }
        ensures only { IsOkUnless result (Error.Memory alloc_error) }
    {
        let read = self.option;
        let Some((section, _)) = self.place(name, key, kept) else {
            return Ok(false);
        };
        let front = self.last_before(section);
        let new = self.sections[section].without(alloc, front, key, kept, read)?;
        self.sections[section] = new;
        Ok(true)
    }
}
