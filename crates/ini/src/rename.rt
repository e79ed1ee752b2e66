//! Sections and keys that get another name at their place. The lists can't change a key, so they are copied,
//! and the copy takes their place. This file knows the public calls of documents and properties.
ghost use Rattle.std.specs.Prelude.{◌≡◌, ◌++◌, IfOk, IsOkUnless, IsSome, OnErr, OnOk, alloc_error, chars};
ghost use Rattle.ini.specs.Texts.{str_name};
ghost use Rattle.ini.specs.Properties.{first_value};
ghost use Rattle.ini.specs.Documents.{first_section, value_in};
ghost use Rattle.ini.specs.Edits.{key_renamed, rename_key_in, section_renamed};

use crate::document::Ini;
use crate::iter::{PropertyIter, SectionIter};
use crate::name::is_same_name;
use crate::properties::Properties;
use ini_text::{Error, is_same_text};
use std::alloc::Global;

impl Ini {
    /// Gives the first section of the name another name, at its place; other sections of either name stay
    /// where they are. Where no section has the name it changes nothing, and takes no memory.
    ///
    /// Refused, only when out of memory, it changes nothing. It takes memory for a copy of the document.
    pub fn rename_section(&mut self, name: Option<&str>, other: Option<&str>) -> Result<(), Error>
        ensures renamed { OnOk result
            (self.new ≡ section_renamed (str_name name.entry) (str_name other.entry) self.old) }
        ensures unchanged { OnErr result (self.new ≡ self.old) }
        ensures only_memory { IsOkUnless result (Error.Memory alloc_error) }
        ensures refused_only_if_there { OnErr result
            (IsSome (first_section (str_name name.entry) self.old)) }
    {
        if self.section(name).is_none() {
            return Ok(());
        }
        *self = renamed_document(self.allocator(), self, name, other)?;
        Ok(())
    }

    /// Gives the first pair of the key, in the first section of the name, another key, at its place; other
    /// pairs of either key stay where they are. Where there is no such pair it changes nothing, and takes no
    /// memory.
    ///
    /// Refused, only when out of memory, it changes nothing. It takes memory for a copy of the section.
    #[tactic(auto, using(crate::proofs::EditLemmas::edits))]
    pub fn rename_key_in(&mut self, name: Option<&str>, key: &str, other: &str) -> Result<(), Error>
        ensures renamed { OnOk result (self.new
            ≡ rename_key_in (str_name name.entry) (chars key.now) (chars other.now) self.old) }
        ensures unchanged { OnErr result (self.new ≡ self.old) }
        ensures only_memory { IsOkUnless result (Error.Memory alloc_error) }
        ensures refused_only_if_there { OnErr result
            (IsSome (value_in (str_name name.entry) (chars key.now) self.old)) }
    {
        let alloc = self.allocator();
        match self.section_mut(name) {
            Some(section) => rename_key(alloc, section, key, other),
            None => Ok(()),
        }
    }
}

// Gives the first pair of the key another key.
fn rename_key(alloc: Global, section: &mut Properties, key: &str, other: &str) -> Result<(), Error>
    ensures renamed { OnOk result (section.new ≡ key_renamed (chars key.now) (chars other.now) section.old) }
    ensures unchanged { OnErr result (section.new ≡ section.old) }
    ensures only_memory { IsOkUnless result (Error.Memory alloc_error) }
    ensures refused_only_if_there { OnErr result (IsSome (first_value (chars key.now) section.old)) }
{
    if section.get(key).is_none() {
        return Ok(());
    }
    *section = renamed_pairs(alloc, section, key, other)?;
    Ok(())
}

// A copy of pairs in which the first one of the key has another key.
fn renamed_pairs(
    alloc: Global,
    pairs: &Properties,
    key: &str,
    other: &str,
) -> Result<Properties, Error>
    ensures renamed { IfOk result
        (λ copy. copy ≡ key_renamed (chars key.now) (chars other.now) pairs.now) }
    ensures only_memory { IsOkUnless result (Error.Memory alloc_error) }
{
    let mut copy = Properties::new(alloc);
    let mut left = pairs.iter();
    'pairs: while let Some((found, value)) = left.next() {
        if is_same_text(key, found) {
            copy.append(other, value)?;
            push_pairs(&mut copy, left)?;
            return Ok(copy);
        }
        copy.append(found, value)?;
    }
    Ok(copy)
}

// Appends copies of pairs.
fn push_pairs(copy: &mut Properties, pairs: PropertyIter<'_>) -> Result<(), Error>
    ensures pushed { OnOk result (copy.new ≡ copy.old ++ pairs.entry) }
    ensures only_memory { IsOkUnless result (Error.Memory alloc_error) }
{
    for (key, value) in pairs {
        copy.append(key, value)?;
    }
    Ok(())
}

// A copy of a document in which the first section of the name has another name.
fn renamed_document(
    alloc: Global,
    document: &Ini,
    name: Option<&str>,
    other: Option<&str>,
) -> Result<Ini, Error>
    ensures renamed { IfOk result
        (λ copy. copy ≡ section_renamed (str_name name.entry) (str_name other.entry) document.now) }
    ensures only_memory { IsOkUnless result (Error.Memory alloc_error) }
{
    let mut copy = Ini::empty(alloc);
    let mut left = document.iter();
    'sections: while let Some((found, pairs)) = left.next() {
        if is_same_name(name, found) {
            copy.append_copy(other, pairs)?;
            append_copies(&mut copy, left)?;
            return Ok(copy);
        }
        copy.append_copy(found, pairs)?;
    }
    Ok(copy)
}

// Appends copies of sections.
fn append_copies(copy: &mut Ini, sections: SectionIter<'_>) -> Result<(), Error>
    ensures appended { OnOk result (copy.new ≡ copy.old ++ sections.entry) }
    ensures only_memory { IsOkUnless result (Error.Memory alloc_error) }
{
    for (name, pairs) in sections {
        copy.append_copy(name, pairs)?;
    }
    Ok(())
}
