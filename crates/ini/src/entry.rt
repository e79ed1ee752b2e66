//! A name's place in a document: vacant, or occupied by its first section. This file knows the calls of
//! a document.
ghost use Rattle.std.specs.Prelude.{◌≡◌, ◌++◌, ◌∷◌, [], IfErr, IfOk, IsSome, MatchOption, None, OnErr, OnOk};
ghost use Rattle.std.specs.Prelude.{Some, unwrap_or, ⊤};
ghost use Rattle.std.specs.Borrow.{sem};
ghost use Rattle.ini.specs.Texts.{name_of};
ghost use Rattle.ini.specs.Documents.{first_section};

use crate::document::Ini;
use crate::name::{SectionKey, lent};
use crate::properties::Properties;
use ini_text::Error;
use std::alloc::AllocError;

/// What a refused entry hands back.
#[derive(Debug, Drop)]
pub struct NoRoom {
    /// The properties that were to go in.
    pub value: Properties,
}

/// Out of memory: what was refused is given up.
impl From<NoRoom> for Error {
    ghost use Rattle.std.specs.Prelude.{alloc_error};
    ghost use Rattle.ini_text.specs.declared.error.Error.TheVariants.{Memory};

    ghost from_gives = { λ _ e. e ≡ Memory alloc_error };

    fn from(_refused: NoRoom) -> Error {
        Error::Memory(AllocError)
    }
}

/// A name's place in a document.
#[derive(Drop)]
pub enum SectionEntry<'a> {
    /// No section has the name.
    Vacant(SectionVacantEntry<'a>),
    /// A section has it.
    Occupied(SectionOccupiedEntry<'a>),
}

/// The place of a name that no section has.
#[derive(Drop)]
pub struct SectionVacantEntry<'a> {
    ini: &'a mut Ini,
    name: SectionKey,
    ghost absent: { first_section (name_of name) ini.now ≡ None },
}

/// The place of a name that a section has.
#[derive(Drop)]
pub struct SectionOccupiedEntry<'a> {
    ini: &'a mut Ini,
    name: SectionKey,
    ghost present: { IsSome (first_section (name_of name) ini.now) },
}

impl Ini {
    ghost use Rattle.ini.specs.Entries.{MatchEntry, entry_document, entry_name, entry_now};

    /// The name's place: occupied where a section of the name is there. Takes no memory.
    pub fn entry(&mut self, name: SectionKey) -> SectionEntry<'_>
        ensures same_document { (entry_document result).ghost_name ≡ self.entry.ghost_name }
        ensures unchanged { entry_now result ≡ self.old }
        ensures name { entry_name result ≡ name_of name }
        ensures found { let section = first_section (name_of name) self.old in
            MatchEntry result (section ≡ None) (IsSome section) }
    {
        if self.section(lent(&name)).is_some() {
            SectionEntry::Occupied(SectionOccupiedEntry { ini: self, name })
        } else {
            SectionEntry::Vacant(SectionVacantEntry { ini: self, name })
        }
    }
}

impl<'a> SectionEntry<'a> {
    ghost use Rattle.ini.specs.Entries.{MatchEntry, entry_document, entry_lends_ok, entry_now};
    ghost use Rattle.ini.specs.Entries.{entry_section};

    /// Gives the place up, and hands the document back as it is.
    pub fn into_document(self) -> &'a mut Ini
        ensures same_document { result.ghost_name ≡ (entry_document self.entry).ghost_name }
        ensures unchanged { result.now ≡ entry_now self.entry }
    {
        match self {
            SectionEntry::Vacant(entry) => entry.into_document(),
            SectionEntry::Occupied(entry) => entry.into_document(),
        }
    }

    /// The first section of the name, for writing; where there is none one with these properties is
    /// opened last.
    ///
    /// Refused, only when out of memory, it hands them back, and the document stays as it was. An
    /// occupied entry is never refused.
    pub fn or_insert(self, value: Properties) -> Result<&'a mut Properties, NoRoom>
        ensures* writes_back { sem 𝓛 (entry_lends_ok self.entry result) }
        ensures value { IfOk result (λ section. section.now ≡ unwrap_or (entry_section self.entry) value) }
        ensures handed_back { IfErr result (λ refused. refused.value ≡ value) }
        ensures refused_only_if_vacant { OnErr result (entry_section self.entry ≡ None) }
    {
        self.or_insert_with(|| value)
    }

    /// As `or_insert` of what the closure answers, which is called only where the entry is vacant.
    pub fn or_insert_with<F: FnOnce() -> Properties>(
        self,
        default: F,
    ) -> Result<&'a mut Properties, NoRoom>
        requires { MatchEntry self (F.pre default) ⊤ }
        ensures* writes_back { sem 𝓛 (entry_lends_ok self.entry result) }
        ensures value { IfOk result (λ section. MatchOption (entry_section self.entry)
            (F.post default section.now) (λ found. section.now ≡ found)) }
        ensures handed_back { IfErr result (λ refused. F.post default refused.value) }
        ensures refused_only_if_vacant { OnErr result (entry_section self.entry ≡ None) }
    {
        match self {
            SectionEntry::Vacant(entry) => entry.insert(default()),
            SectionEntry::Occupied(entry) => Ok(entry.into_mut()),
        }
    }
}

impl<'a> SectionVacantEntry<'a> {
    ghost use Rattle.ini.specs.Entries.{entry_document, entry_lends_ok, entry_now, vacant};

    /// Gives the place up, and hands the document back as it is.
    pub fn into_document(self) -> &'a mut Ini
        ensures same_document { result.ghost_name ≡ (entry_document (vacant self.entry)).ghost_name }
        ensures unchanged { result.now ≡ entry_now (vacant self.entry) }
    {
        let SectionVacantEntry { ini, name: _ } = self;
        ini
    }

    /// Opens the section with these properties, last.
    ///
    /// Refused, only when out of memory, it hands them back, and the document stays as it was.
    pub fn insert(self, value: Properties) -> Result<&'a mut Properties, NoRoom>
        ensures* writes_back { sem 𝓛 (entry_lends_ok (vacant self.entry) result) }
        ensures value { IfOk result (λ section. section.now ≡ value) }
        ensures handed_back { IfErr result (λ refused. refused.value ≡ value) }
    {
        let SectionVacantEntry { ini, name } = self;
        ini.append_section_mut(name, value)
    }
}

impl<'a> SectionOccupiedEntry<'a> {
    ghost use Rattle.ini.specs.Entries.{InSameDocument, entry_document, entry_lends, entry_name, entry_now};
    ghost use Rattle.ini.specs.Entries.{entry_section, occupied};

    /// Gives the place up, and hands the document back as it is.
    pub fn into_document(self) -> &'a mut Ini
        ensures same_document { result.ghost_name ≡ (entry_document (occupied self.entry)).ghost_name }
        ensures unchanged { result.now ≡ entry_now (occupied self.entry) }
    {
        let SectionOccupiedEntry { ini, name: _ } = self;
        ini
    }

    /// The first section of the name, for writing.
    pub fn into_mut(self) -> &'a mut Properties
        ensures* writes_back { sem 𝓛 (entry_lends (occupied self.entry) result) }
        ensures section { entry_section (occupied self.entry) ≡ Some result.now }
    {
        let SectionOccupiedEntry { ini, name } = self;
        ini.first_section_mut(&name)
    }

    /// Opens another section of the name, last.
    ///
    /// Refused, only when out of memory, it hands the properties back, and the document stays as it was.
    pub fn append(&mut self, value: Properties) -> Result<(), NoRoom>
        ensures same_document { InSameDocument (occupied self.old) (occupied self.new) }
        ensures name { entry_name (occupied self.new) ≡ entry_name (occupied self.old) }
        ensures appended { OnOk result (entry_now (occupied self.new)
            ≡ entry_now (occupied self.old) ++ (entry_name (occupied self.old), value) ∷ []) }
        ensures unchanged { OnErr result (entry_now (occupied self.new) ≡ entry_now (occupied self.old)) }
        ensures handed_back { IfErr result (λ refused. refused.value ≡ value) }
    {
        match self.name.clone() {
            Ok(name) => self.ini.append_section(name, value),
            Err(_) => Err(NoRoom { value }),
        }
    }
}
