//! Documents that own their texts, from views. This file knows the public calls of documents and views.
ghost use Rattle.std.specs.Prelude.{◌≡◌, [], ◌∷◌, ◌++◌, IfOk, IsOkUnless, OnOk, alloc_error};
ghost use Rattle.ini.specs.Texts.{name_of, str_name};

use crate::section::ViewSection;
use crate::view::View;
use ini::{Error, Ini, Properties, SectionKey};
use std::alloc::{AllocError, Global};

impl View<'_> {
    /// An `Ini` of the same sections: the text is no longer needed. Refused when out of memory alone.
    pub fn to_ini(&self, alloc: Global) -> Result<Ini, Error>
        ensures same { IfOk result (λ document. document ≡ self.now) }
        ensures only_memory { IsOkUnless result (Error.Memory alloc_error) }
    {
        let mut document = Ini::new(alloc)?;
        document.clear();
        for (name, section) in self {
            append_copy(alloc, &mut document, name, section)?;
        }
        Ok(document)
    }
}

impl ViewSection<'_> {
    /// `Properties` of the same pairs. Refused when out of memory alone.
    pub fn to_properties(&self, alloc: Global) -> Result<Properties, Error>
        ensures same { IfOk result (λ pairs. pairs ≡ self.now) }
        ensures only_memory { IsOkUnless result (Error.Memory alloc_error) }
    {
        let mut pairs = Properties::new(alloc);
        for (key, value) in self {
            pairs.append(key, value)?;
        }
        Ok(pairs)
    }
}

// Puts a copy of a section last.
fn append_copy(
    alloc: Global,
    document: &mut Ini,
    name: Option<&str>,
    section: &ViewSection<'_>,
) -> Result<(), Error>
    ensures appended { OnOk result
        (document.new ≡ document.old ++ (str_name name.entry, section.now) ∷ []) }
    ensures only_memory { IsOkUnless result (Error.Memory alloc_error) }
{
    let copy = section.to_properties(alloc)?;
    match document.append_section(owned_name(alloc, name)?, copy) {
        Ok(()) => Ok(()),
        Err(_) => Err(Error::Memory(AllocError)),
    }
}

// The name, copied.
fn owned_name(alloc: Global, name: Option<&str>) -> Result<SectionKey, AllocError>
    ensures { IfOk result (λ copy. name_of copy ≡ str_name name.entry) }
{
    match name {
        Some(text) => Ok(Some(String::from_str(alloc, text)?)),
        None => Ok(None),
    }
}
