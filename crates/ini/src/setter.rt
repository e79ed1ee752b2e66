//! Edits of the sections of one name, one after another. This file knows the edits of a document, and of a
//! name only what stands for it.
ghost use Rattle.std.specs.Prelude.{◌≡◌, IfOk, IsOkUnless, None, alloc_error};
ghost use Rattle.std.specs.Borrow.{sem};
ghost use Rattle.std.specs.Option.{option_map};
ghost use Rattle.std.specs.Str.{chars};
ghost use Rattle.ini.specs.Texts.{str_name, str_text};
ghost use Rattle.ini.specs.Documents.{value_in};
ghost use Rattle.ini.specs.Edits.{add_in, delete_in_all, set_in};
ghost use Rattle.ini.specs.Setter.{EditsSameDocument, lent_name, rests_if_refused};
ghost use Rattle.ini.specs.Setter.{setter_document, setter_name, setter_now};

use crate::document::Ini;
use crate::name::{LentName, SectionName};
use ini_text::Error;

/// Edits the sections of one name of a document.
///
/// `set`, `add` and `delete` hand the setter on, so that edits are chained: `setter.delete("k").set("j",
/// "w")?`.
#[derive(Drop)]
pub struct SectionSetter<'a, N = LentName<'a>> {
    ini: &'a mut Ini,
    name: N,
}

impl Ini {
    /// A setter for the sections of the name. Takes no memory.
    pub fn with_section<'a>(&'a mut self, name: Option<&'a str>) -> SectionSetter<'a>
        ensures same_document { (setter_document result).ghost_name ≡ self.entry.ghost_name }
        ensures document { setter_now result ≡ self.old }
        ensures name { lent_name (setter_name result) ≡ str_name name.entry }
    {
        SectionSetter {
            ini: self,
            name: LentName::new(name),
        }
    }

    /// A setter for the general sections. Takes no memory.
    pub fn with_general_section(&mut self) -> SectionSetter<'_>
        ensures same_document { (setter_document result).ghost_name ≡ self.entry.ghost_name }
        ensures document { setter_now result ≡ self.old }
        ensures name { lent_name (setter_name result) ≡ None }
    {
        self.with_section(None)
    }
}

impl<'a, N: SectionName> SectionSetter<'a, N> {
    /// Sets the value of the key in the first section of the name, as `Properties::insert` does; where
    /// there is no such section a new one with that pair is opened last. The setter is handed on.
    ///
    /// Refused, only when out of memory, the document stays as it was, and the setter is gone.
    pub fn set(self, key: &str, value: &str) -> Result<SectionSetter<'a, N>, Error>
        ensures same_document { IfOk result (EditsSameDocument self.entry) }
        ensures set { IfOk result (λ s. setter_now s
            ≡ set_in (N.section_name (setter_name self.entry)) (chars key.now) (chars value.now)
            (setter_now self.entry)) }
        ensures name { IfOk result (λ s. setter_name s ≡ setter_name self.entry) }
        ensures only_memory { IsOkUnless result (Error.Memory alloc_error) }
        ensures* unchanged { sem 𝓛 (rests_if_refused (setter_document self.entry) result) }
    {
        let SectionSetter { ini, name } = self;
        match ini.set(name.name(), key, value) {
            Ok(()) => Ok(SectionSetter { ini, name }),
            Err(refused) => Err(refused),
        }
    }

    /// Appends the pair to the first section of the name; where there is none a new one with that pair
    /// is opened last. The setter is handed on.
    ///
    /// Refused, only when out of memory, the document stays as it was, and the setter is gone.
    pub fn add(self, key: &str, value: &str) -> Result<SectionSetter<'a, N>, Error>
        ensures same_document { IfOk result (EditsSameDocument self.entry) }
        ensures added { IfOk result (λ s. setter_now s
            ≡ add_in (N.section_name (setter_name self.entry)) (chars key.now) (chars value.now)
            (setter_now self.entry)) }
        ensures name { IfOk result (λ s. setter_name s ≡ setter_name self.entry) }
        ensures only_memory { IsOkUnless result (Error.Memory alloc_error) }
        ensures* unchanged { sem 𝓛 (rests_if_refused (setter_document self.entry) result) }
    {
        let SectionSetter { ini, name } = self;
        match ini.add(name.name(), key, value) {
            Ok(()) => Ok(SectionSetter { ini, name }),
            Err(refused) => Err(refused),
        }
    }

    /// The first value of the key in the first section of the name.
    pub fn get(&self, key: &str) -> Option<&str>
        ensures { option_map str_text result
            ≡ value_in (N.section_name (setter_name self.now)) (chars key.now) (setter_now self.now) }
    {
        self.ini.get_from(self.name.name(), key)
    }
}

impl<'a> SectionSetter<'a> {
    /// Takes the first pair of the key out of every section of the name. The setter is handed on.
    pub fn delete(self, key: &str) -> SectionSetter<'a>
        ensures same_document { EditsSameDocument self.entry result }
        ensures deleted { setter_now result
            ≡ delete_in_all (lent_name (setter_name self.entry)) (chars key.now) (setter_now self.entry) }
        ensures name { setter_name result ≡ setter_name self.entry }
    {
        let SectionSetter { ini, name } = self;
        ini.delete_from_all(name.name(), key);
        SectionSetter { ini, name }
    }
}
