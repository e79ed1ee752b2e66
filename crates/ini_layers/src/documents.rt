//! The document that a text in pieces means. This file copies names, keys and values without a look at them.
ghost use Rattle.std.specs.Prelude.{◌≡◌, ◌∷◌, [], ◌++◌, IfOk, IsOkUnless, OnOk, alloc_error};
ghost use Rattle.ini_edit.specs.Sources.{document_in, given_section};

use ini::{Error, Ini, Properties};
use ini_edit::{Source, SourceSection};
use std::alloc::Global;

/// A document of the text's sections and pairs, each copied. Refused when out of memory alone.
pub fn to_document(alloc: Global, source: &Source<'_>) -> Result<Ini, Error>
    ensures document { IfOk result (λ document. document ≡ document_in source.now) }
    ensures only_memory { IsOkUnless result (Error.Memory alloc_error) }
{
    let mut document = Ini::new(alloc)?;
    document.clear();
    for section in source.sections() {
        push_section(alloc, section, &mut document)?;
    }
    Ok(document)
}

// Puts a copy of a section last.
fn push_section(alloc: Global, section: &SourceSection<'_>, document: &mut Ini) -> Result<(), Error>
    ensures put { OnOk result (document.new ≡ document.old ++ given_section section.now ∷ []) }
    ensures only_memory { IsOkUnless result (Error.Memory alloc_error) }
{
    let mut pairs = Properties::new(alloc);
    for pair in section.pairs() {
        pairs.append(pair.key(), pair.value())?;
    }
    let name = match section.name() {
        Some(name) => Some(String::from_str(alloc, name)?),
        None => None,
    };
    document.append_section(name, pairs)?;
    Ok(())
}
