//! Documents: sections in order. This file knows the multimap's calls and those of `Properties`, and copies
//! names, keys and values without a look at their characters.
ghost use Rattle.std.specs.Prelude.{◌≡◌, ◌==◌, ◌<◌, ◌^◌, ◌-◌, [], ◌∷◌, ◌++◌, length, slice_get};
ghost use Rattle.std.specs.Prelude.{Some, None, IsSome, IfNone, IfSome, IfErr, IfOk, IsOkUnless, OnOk};
ghost use Rattle.std.specs.Prelude.{OnErr, alloc_error, unwrap_or};
ghost use Rattle.std.specs.Borrow.{sem};
ghost use Rattle.std.specs.Map.{values_of};
ghost use Rattle.std.specs.Option.{option_map, option_copied, option_copied_mut};
ghost use Rattle.std.specs.Str.{IsUtf8, chars};
ghost use Rattle.ini.specs.Texts.{Text, name_of, str_name, str_text, text_of};
ghost use Rattle.ini.specs.Properties.{Pairs};
ghost use Rattle.ini.specs.Documents.{all_sections_removed, first_section, names, section_removed};
ghost use Rattle.ini.specs.Documents.{sections_named, value_in};
ghost use Rattle.ini.specs.Edits.{add_in, delete_in, delete_in_all, replace_in, section_set, set_in};
ghost use Rattle.ini.specs.Lends.{lends_found_section, lends_section};
ghost use Rattle.ini.specs.Inside.InnerLends.{lends_last_section, lends_new_section};
ghost use Rattle.ini.specs.Lends.{lends_value_in, lent_text};
ghost use Rattle.ini.specs.Walks.{section_all_mut_rest, section_iter_mut_rest};

mod loading;

use crate::entry::NoRoom;
use crate::iter::{
    SectionAll, SectionAllMut, SectionIntoIter, SectionIter, SectionIterMut, SectionNames,
};
use crate::name::{SectionKey, lent, name_is_text, owned_name};
use crate::properties::Properties;
use ini_multimap::Multimap;
use ini_text::Error;
use std::alloc::{AllocError, Global};
use std::marker::Model;

/// A document: sections in order, of which several may have one name.
#[derive(Debug, Drop)]
pub struct Ini {
    sections: Multimap<SectionKey, Properties>,
    alloc: Global,
}

impl Model for Ini {
    ghost use Rattle.std.specs.Prelude.{Option};
    ghost use Rattle.ini.specs.Documents.{Document, sections_of};

    ghost Value = { Document };

    ghost view = { λ d. sections_of d.sections };
}

#[tactic(auto, using(crate::proofs::SectionLemmas::sections))]
impl Ini {
    /// A document with one general section, which has no pairs. Refused only when out of memory.
    pub fn new(alloc: Global) -> Result<Self, Error>
        ensures general { IfOk result (λ d. d ≡ (None, []) ∷ []) }
        ensures only_memory { IsOkUnless result (Error.Memory alloc_error) }
    {
        let mut sections = Multimap::new(alloc);
        match sections.append(None, Properties::new(alloc)) {
            Ok(()) => Ok(Ini { sections, alloc }),
            Err(_) => Err(Error::Memory(AllocError)),
        }
    }

    /// The number of distinct names.
    pub fn len(&self) -> usize
        ensures { result ≡ length (names self.now) }
    {
        self.sections.len_keys()
    }

    /// Whether there are no sections.
    pub fn is_empty(&self) -> bool
        ensures { result ≡ (length self.now == 0) }
    {
        self.sections.is_empty()
    }

    /// The first section of the name.
    pub fn section(&self, name: Option<&str>) -> Option<&Properties>
        ensures { option_copied result ≡ first_section (str_name name.entry) self.now }
    {
        name_is_text(name);
        self.sections.get(name)
    }

    /// The first section of the name, for writing. The rest stays.
    pub fn section_mut(&mut self, name: Option<&str>) -> Option<&mut Properties>
        ensures* writes_back { sem 𝓛 (lends_section self.entry (str_name name.entry) result) }
        ensures section { option_copied_mut result ≡ first_section (str_name name.entry) self.old }
        ensures none_to_set { IfNone result
            ((pairs : Pairs) → section_set (str_name name.entry) pairs self.old ≡ self.old) }
    {
        name_is_text(name);
        self.sections.get_mut(name)
    }

    /// What `section` answers, for the bytes of a name; `None` where they are no UTF-8.
    // Inlined, as `get_by_bytes` is: a name handed on in memory is read in one step that was written in two,
    // and such a read waits for the writes before it, which may keep a look-up from overlapping the next.
    #[inline(always)]
    pub fn section_by_bytes(&self, bytes: Option<&[u8]>) -> Option<&Properties>
        ensures text { IsSome result → IfSome bytes.entry (λ name. IsUtf8 name.now) }
        ensures section { IfSome bytes.entry (λ name. IsUtf8 name.now)
            → option_copied result ≡ first_section (str_name bytes.entry) self.now }
    {
        self.sections.get(bytes)
    }

    /// The first general section, which must be there: `section` is the test.
    pub fn general_section(&self) -> &Properties
        requires { IsSome (first_section None self.now) }
        ensures { first_section None self.now ≡ Some result.now }
    {
        self.section(None).unwrap()
    }

    /// The first general section, for writing; it must be there. The rest stays.
    pub fn general_section_mut(&mut self) -> &mut Properties
        requires { IsSome (first_section None self.old) }
        ensures* writes_back { sem 𝓛 (lends_found_section self.entry None result) }
        ensures section { first_section None self.old ≡ Some result.now }
    {
        self.section_mut(None).unwrap()
    }

    /// The first value of the key in the first section of the name.
    pub fn get_from(&self, name: Option<&str>, key: &str) -> Option<&str>
        ensures { option_map str_text result ≡ value_in (str_name name.entry) (chars key.now) self.now }
    {
        match self.section(name) {
            Some(section) => section.get(key),
            None => None,
        }
    }

    /// What `get_from` answers, for the bytes of a name and of a key; `None` where one of them is no UTF-8.
    #[inline(always)]
    pub fn get_by_bytes(&self, name: Option<&[u8]>, key: &[u8]) -> Option<&str>
        ensures texts { IsSome result → (IfSome name.entry (λ bytes. IsUtf8 bytes.now) × IsUtf8 key.now) }
        ensures value { IfSome name.entry (λ bytes. IsUtf8 bytes.now) → IsUtf8 key.now
            → option_map str_text result ≡ value_in (str_name name.entry) (chars key.now) self.now }
    {
        match self.section_by_bytes(name) {
            Some(section) => section.get_by_bytes(key),
            None => None,
        }
    }

    /// What `get_from` answers, or the default.
    pub fn get_from_or<'a>(&'a self, name: Option<&str>, key: &str, default: &'a str) -> &'a str
        ensures { str_text result
            ≡ unwrap_or (value_in (str_name name.entry) (chars key.now) self.now) (chars default.now) }
    {
        self.get_from(name, key).unwrap_or(default)
    }

    /// The value that `get_from` answers, for writing. The rest stays.
    pub fn get_from_mut(&mut self, name: Option<&str>, key: &str) -> Option<&mut String>
        ensures* writes_back { sem 𝓛
            (lends_value_in self.entry (str_name name.entry) (chars key.now) result) }
        ensures value { lent_text result ≡ value_in (str_name name.entry) (chars key.now) self.old }
        ensures none_to_set { IfNone result
            ((value : Text) → replace_in (str_name name.entry) (chars key.now) value self.old ≡ self.old) }
    {
        self.section_mut(name)?.get_mut(key)
    }

    /// Sets the value of the key in the first section of the name, as `Properties::insert` does; where
    /// there is no such section a new one with that pair is opened last.
    ///
    /// Refused, only when out of memory, it changes nothing, and the two texts are given up. Where the
    /// key is there it takes no memory.
    #[tactic(auto, using(crate::proofs::EditLemmas::edits))]
    pub fn set_to(&mut self, name: Option<&str>, key: String, value: String) -> Result<(), Error>
        ensures set { OnOk result
            (self.new ≡ set_in (str_name name.entry) (text_of key) (text_of value) self.old) }
        ensures unchanged { OnErr result (self.new ≡ self.old) }
        ensures only_memory { IsOkUnless result (Error.Memory alloc_error) }
        ensures refused_only_if_new { OnErr result
            (value_in (str_name name.entry) (text_of key) self.old ≡ None) }
    {
        match self.section_mut(name) {
            Some(section) => section.put(key, value),
            None => self.append_with_pair(name, key, value),
        }
    }

    // As `set_to`, of copies.
    pub(crate) fn set(&mut self, name: Option<&str>, key: &str, value: &str) -> Result<(), Error>
        ensures set { OnOk result
            (self.new ≡ set_in (str_name name.entry) (chars key.now) (chars value.now) self.old) }
        ensures unchanged { OnErr result (self.new ≡ self.old) }
        ensures only_memory { IsOkUnless result (Error.Memory alloc_error) }
    {
        let key = String::from_str(self.alloc, key)?;
        let value = String::from_str(self.alloc, value)?;
        self.set_to(name, key, value)
    }

    // Appends the pair to the first section of the name; where there is none a new one with it is put last.
    #[tactic(auto, using(crate::proofs::EditLemmas::edits))]
    fn add_to(&mut self, name: Option<&str>, key: String, value: String) -> Result<(), Error>
        ensures added { OnOk result
            (self.new ≡ add_in (str_name name.entry) (text_of key) (text_of value) self.old) }
        ensures unchanged { OnErr result (self.new ≡ self.old) }
        ensures only_memory { IsOkUnless result (Error.Memory alloc_error) }
    {
        match self.section_mut(name) {
            Some(section) => section.push(key, value),
            None => self.append_with_pair(name, key, value),
        }
    }

    // As `add_to`, of copies.
    pub(crate) fn add(&mut self, name: Option<&str>, key: &str, value: &str) -> Result<(), Error>
        ensures added { OnOk result
            (self.new ≡ add_in (str_name name.entry) (chars key.now) (chars value.now) self.old) }
        ensures unchanged { OnErr result (self.new ≡ self.old) }
        ensures only_memory { IsOkUnless result (Error.Memory alloc_error) }
    {
        let key = String::from_str(self.alloc, key)?;
        let value = String::from_str(self.alloc, value)?;
        self.add_to(name, key, value)
    }

    // Puts a new section with one pair last.
    fn append_with_pair(
        &mut self,
        name: Option<&str>,
        key: String,
        value: String,
    ) -> Result<(), Error>
        ensures appended { OnOk result
            (self.new ≡ self.old ++ (str_name name.entry, (text_of key, text_of value) ∷ []) ∷ []) }
        ensures unchanged { OnErr result (self.new ≡ self.old) }
        ensures only_memory { IsOkUnless result (Error.Memory alloc_error) }
    {
        let name = owned_name(self.alloc, name)?;
        let mut section = Properties::new(self.alloc);
        section.push(key, value)?;
        self.append_or_error(name, section)
    }

    /// Takes the first pair of the key out of the first section of the name, and hands its value out.
    #[tactic(auto, using(crate::proofs::EditLemmas::edits))]
    pub fn delete_from(&mut self, name: Option<&str>, key: &str) -> Option<String>
        ensures value { option_map text_of result ≡ value_in (str_name name.entry) (chars key.now) self.old }
        ensures deleted { self.new ≡ delete_in (str_name name.entry) (chars key.now) self.old }
    {
        match self.section_mut(name) {
            Some(section) => section.remove(key),
            None => None,
        }
    }

    // Takes the first pair of the key out of every section of the name.
    pub(crate) fn delete_from_all(&mut self, name: Option<&str>, key: &str)
        ensures { self.new ≡ delete_in_all (str_name name.entry) (chars key.now) self.old }
    {
        name_is_text(name);
        for n in 0..self.sections.len_pairs() {
            let Some(section) = self.sections.get_nth_mut(name, n) else {
                return;
            };
            let _ = section.remove(key);
        }
    }

    /// Takes out the first section of the name, and hands it out.
    pub fn delete(&mut self, name: Option<&str>) -> Option<Properties>
        ensures section { result ≡ first_section (str_name name.entry) self.old }
        ensures removed { self.new ≡ section_removed (str_name name.entry) self.old }
    {
        name_is_text(name);
        self.sections.remove(name)
    }

    /// Takes out every section of the name; where there is none it changes nothing. Takes no memory.
    #[tactic(auto, using(crate::proofs::EverySectionLemmas::all_removed))]
    pub fn delete_all(&mut self, name: Option<&str>)
        ensures { self.new ≡ all_sections_removed (str_name name.entry) self.old }
    {
        'sections: while self.delete(name).is_some() {}
    }

    /// Takes out every section, the general one included.
    pub fn clear(&mut self)
        ensures { self.new ≡ [] }
    {
        self.sections.clear();
    }

    // No sections. Takes no memory.
    pub(crate) fn empty(alloc: Global) -> Self
        ensures { result ≡ [] }
    {
        Ini {
            sections: Multimap::new(alloc),
            alloc,
        }
    }

    // What it takes its memory from.
    pub(crate) fn allocator(&self) -> Global {
        self.alloc
    }

    // Puts a copy of a section last.
    pub(crate) fn append_copy(
        &mut self,
        name: Option<&str>,
        pairs: &Properties,
    ) -> Result<(), Error>
        ensures appended { OnOk result (self.new ≡ self.old ++ (str_name name.entry, pairs.now) ∷ []) }
        ensures only_memory { IsOkUnless result (Error.Memory alloc_error) }
    {
        let name = owned_name(self.alloc, name)?;
        self.append_or_error(name, pairs.clone()?)
    }

    // Puts a section last. Refused, it drops the properties.
    pub(crate) fn append_or_error(
        &mut self,
        name: SectionKey,
        section: Properties,
    ) -> Result<(), Error>
        ensures appended { OnOk result (self.new ≡ self.old ++ (name_of name, section) ∷ []) }
        ensures unchanged { OnErr result (self.new ≡ self.old) }
        ensures only_memory { IsOkUnless result (Error.Memory alloc_error) }
    {
        match self.append_section(name, section) {
            Ok(()) => Ok(()),
            Err(_) => Err(Error::Memory(AllocError)),
        }
    }

    /// Puts a section last, whatever sections the name has.
    ///
    /// Refused, only when out of memory, it hands the properties back, and the document stays as it was.
    pub fn append_section(&mut self, name: SectionKey, section: Properties) -> Result<(), NoRoom>
        ensures appended { OnOk result (self.new ≡ self.old ++ (name_of name, section) ∷ []) }
        ensures unchanged { OnErr result (self.new ≡ self.old) }
        ensures handed_back { IfErr result (λ refused. refused.value ≡ section) }
    {
        match self.sections.append(name, section) {
            Ok(()) => Ok(()),
            Err(refused) => Err(NoRoom {
                value: refused.value,
            }),
        }
    }

    // The last section, for writing. The rest stays.
    pub(crate) fn last_section_mut(&mut self) -> &mut Properties
        requires { 0 < length self.old }
        ensures* writes_back { sem 𝓛 (lends_last_section self.entry result) }
        ensures section { slice_get (values_of self.old) (length self.old - 1) ≡ Some result.now }
    {
        self.sections.get_last_mut().unwrap()
    }

    // Puts a section last, and gives it for writing. Refused, it hands the properties back.
    pub(crate) fn append_section_mut(
        &mut self,
        name: SectionKey,
        section: Properties,
    ) -> Result<&mut Properties, NoRoom>
        ensures* writes_back { sem 𝓛 (lends_new_section self.entry (name_of name) result) }
        ensures value { IfOk result (λ last. last.now ≡ section) }
        ensures handed_back { IfErr result (λ refused. refused.value ≡ section) }
    {
        match self.append_section(name, section) {
            Ok(()) => Ok(self.last_section_mut()),
            Err(refused) => Err(refused),
        }
    }

    // The first section of a name that is there, for writing. The rest stays.
    pub(crate) fn first_section_mut<'a>(&'a mut self, name: &SectionKey) -> &'a mut Properties
        requires { IsSome (first_section (name_of name.now) self.old) }
        ensures* writes_back { sem 𝓛 (lends_found_section self.entry (name_of name.now) result) }
        ensures section { first_section (name_of name.now) self.old ≡ Some result.now }
    {
        self.section_mut(lent(name)).unwrap()
    }

    /// An equal copy. Refused only when out of memory.
    ///
    /// std's `Clone` is there too, for code over any `T: Clone`; it answers `AllocError`.
    pub fn clone(&self) -> Result<Self, Error>
        ensures equal { IfOk result (λ copy. copy ≡ self.now) }
        ensures only_memory { IsOkUnless result (Error.Memory alloc_error) }
    {
        let copy = Clone::clone(self)?;
        Ok(copy)
    }

    /// All sections of the name, in order.
    pub fn section_all<'a, 'n>(&'a self, name: Option<&'n str>) -> SectionAll<'a, 'n>
        ensures sections { result ≡ sections_named (str_name name.entry) self.now }
        ensures countable { length result < 2 ^ 64 }
    {
        name_is_text(name);
        SectionAll::new(self.sections.get_all(name))
    }

    /// All sections of the name, in order, for writing.
    pub fn section_all_mut<'a, 'n>(&'a mut self, name: Option<&'n str>) -> SectionAllMut<'a, 'n>
        ensures sections { section_all_mut_rest result ≡ sections_named (str_name name.entry) self.old }
        ensures countable { length (section_all_mut_rest result) < 2 ^ 64 }
    {
        name_is_text(name);
        SectionAllMut::new(self.sections.get_all_mut(name))
    }

    /// Each distinct name once, in the order of first occurrence.
    pub fn sections(&self) -> SectionNames<'_>
        ensures names { result ≡ names self.now }
        ensures countable { length result < 2 ^ 64 }
    {
        SectionNames::new(self.sections.keys())
    }

    /// Every section in order.
    pub fn iter(&self) -> SectionIter<'_>
        ensures { result ≡ self.now }
    {
        SectionIter::new(self.sections.iter())
    }

    /// Every section in order, its properties for writing.
    pub fn iter_mut(&mut self) -> SectionIterMut<'_>
        ensures { section_iter_mut_rest result ≡ self.old }
    {
        SectionIterMut::new(self.sections.iter_mut())
    }

    /// The same as `iter_mut`.
    #[deprecated(note = "use `iter_mut`")]
    pub fn mut_iter(&mut self) -> SectionIterMut<'_>
        ensures { section_iter_mut_rest result ≡ self.old }
    {
        self.iter_mut()
    }
}

#[tactic(auto, using(crate::proofs::SectionLemmas::sections))]
impl Clone for Ini {
    ghost is_clone = { λ d e. e ≡ d };

    fn clone(&self) -> Result<Self, AllocError> {
        Ok(Ini {
            sections: self.sections.clone()?,
            alloc: self.alloc,
        })
    }
}

impl IntoIterator for Ini {
    type Item = (SectionKey, Properties);

    type IntoIter = SectionIntoIter;

    ghost into_iter_gives = { λ d it. it ≡ d };

    fn into_iter(self) -> SectionIntoIter {
        let Ini { sections, alloc: _ } = self;
        SectionIntoIter::new(sections.into_iter())
    }
}

impl<'a> IntoIterator for &'a Ini {
    type Item = (Option<&'a str>, &'a Properties);

    type IntoIter = SectionIter<'a>;

    ghost into_iter_gives = { λ d it. it ≡ d.now };

    fn into_iter(self) -> SectionIter<'a> {
        self.iter()
    }
}

impl<'a> IntoIterator for &'a mut Ini {
    type Item = (Option<&'a str>, &'a mut Properties);

    type IntoIter = SectionIterMut<'a>;

    ghost into_iter_gives = { λ d it. section_iter_mut_rest it ≡ d.now };

    fn into_iter(self) -> SectionIterMut<'a> {
        self.iter_mut()
    }
}
