//! What loading does to a document: sections and pairs go last, and an index is made once, of what is whole.
ghost use Rattle.std.specs.Prelude.{◌≡◌, ◌<◌, [], ◌∷◌, ◌++◌, length, IsOkUnless, OnOk, OnErr, alloc_error};
ghost use Rattle.ini.specs.Texts.{name_of, text_of};
ghost use Rattle.ini.specs.Documents.{with_pair};

use crate::document::Ini;
use crate::name::SectionKey;
use crate::properties::Properties;
use ini_text::Error;
use std::alloc::AllocError;

#[tactic(auto, using(crate::proofs::SectionLemmas::sections))]
impl Ini {
    // Ends the last section, and opens one after it.
    pub(crate) fn open_section(&mut self, name: SectionKey) -> Result<(), Error>
        requires { 0 < length self.old }
        ensures opened { OnOk result (self.new ≡ self.old ++ (name_of name, []) ∷ []) }
        ensures only_memory { IsOkUnless result (Error.Memory alloc_error) }
    {
        self.end_section()?;
        let section = Properties::new(self.alloc);
        match self.sections.append_unindexed(name, section) {
            Ok(()) => Ok(()),
            Err(_) => Err(Error::Memory(AllocError)),
        }
    }

    // Puts a pair last in the last section.
    pub(crate) fn push_pair(&mut self, key: String, value: String) -> Result<(), Error>
        requires { 0 < length self.old }
        ensures pushed { OnOk result (self.new ≡ with_pair (text_of key) (text_of value) self.old) }
        ensures unchanged { OnErr result (self.new ≡ self.old) }
        ensures only_memory { IsOkUnless result (Error.Memory alloc_error) }
    {
        self.last_section_mut().push_unindexed(key, value)
    }

    // Ends the last section: it has all its pairs.
    fn end_section(&mut self) -> Result<(), Error>
        requires { 0 < length self.old }
        ensures same { self.new ≡ self.old }
        ensures only_memory { IsOkUnless result (Error.Memory alloc_error) }
    {
        self.last_section_mut().end()
    }

    // Ends the document: it has all its sections.
    pub(crate) fn end(&mut self) -> Result<(), Error>
        requires { 0 < length self.old }
        ensures same { self.new ≡ self.old }
        ensures only_memory { IsOkUnless result (Error.Memory alloc_error) }
    {
        self.end_section()?;
        self.sections.shrink_to_fit();
        self.sections.make_index()?;
        Ok(())
    }
}
