//! The edits that set in a text what documents give. This file knows no text and no byte.
ghost use Rattle.std.specs.Prelude.{◌≡◌, ◌++◌, IfOk, OnOk, flat_map, map};
ghost use Rattle.ini.specs.Texts.{str_name};
ghost use Rattle.ini_edit.specs.Editings.{editing_of};
ghost use Rattle.ini_file.specs.Settings.{settings_in, settings_of};

use ini::{Ini, Properties};
use ini_edit::Edit;
use ini_layers::Layers;
use std::alloc::{AllocError, Global};

/// For each document in order, and each name in it, in the order of first occurrence, the edits that set each
/// key of the first section of the name to the first value that it has there. Refused when out of memory
/// alone.
pub fn settings_of(alloc: Global, documents: &Layers) -> Result<Vec<Edit<'_>>, AllocError>
    ensures { IfOk result (λ edits. map editing_of edits.items ≡ flat_map settings_of documents.now) }
{
    let mut edits = Vec::new(alloc);
    for document in documents {
        push_document(&mut edits, document)?;
    }
    Ok(edits)
}

// Puts the edits of a document last.
fn push_document<'a>(edits: &mut Vec<Edit<'a>>, document: &'a Ini) -> Result<(), AllocError>
    ensures { OnOk result (map editing_of edits.new.items
        ≡ map editing_of edits.old.items ++ settings_of document.now) }
{
    for name in document.sections() {
        if let Some(section) = document.section(name) {
            push_section(edits, name, section)?;
        }
    }
    Ok(())
}

// Puts the edits of a section last.
fn push_section<'a>(
    edits: &mut Vec<Edit<'a>>,
    name: Option<&'a str>,
    section: &'a Properties,
) -> Result<(), AllocError>
    ensures { OnOk result (map editing_of edits.new.items
        ≡ map editing_of edits.old.items ++ settings_in (str_name name.entry) section.now) }
{
    for (key, value) in section {
        let value = section.get(key).unwrap_or(value);
        edits.push(Edit::Set { name, key, value })?;
    }
    Ok(())
}
