//! Loops over a walk. One that rebuilds keeps "what is built, with what becomes of what is left, is what
//! becomes of the whole"; one that gathers keeps the same of a list.
ghost use Rattle.std.specs.Prelude.{◌≡◌, [], IfOk, OnOk, Some, chars, unwrap_or};
ghost use Rattle.ini.specs.Texts.{is_name, name_of, str_name};
ghost use Rattle.ini.specs.Properties.{texts_of};
ghost use Rattle.ini.specs.Documents.{first_section, section_removed};
ghost use Rattle.ini_examples.specs.Walks.{all_added, all_named_anew, each_first, kept};

use ini::laws::same_characters;
use ini::{Error, Ini, Properties, SectionKey};
use std::alloc::{AllocError, Global};

// A name that is lent, as a name of one's own.
fn owned(alloc: Global, name: Option<&str>) -> Result<SectionKey, AllocError>
    ensures { IfOk result (λ copy. name_of copy ≡ str_name name.entry) }
{
    match name {
        Some(text) => Ok(Some(String::from_str(alloc, text)?)),
        None => Ok(None),
    }
}

// Whether a name that a walk gives is this one.
fn is_named(found: Option<&str>, name: &str) -> bool
    ensures { result ≡ is_name (str_name found.entry) (Some (chars name.now)) }
{
    match found {
        Some(found) => {
            same_characters(found, name);
            found == name
        }
        None => false,
    }
}

// No sections at all.
fn no_sections(alloc: Global) -> Result<Ini, Error>
    ensures { IfOk result (λ document. document ≡ []) }
{
    let mut document = Ini::new(alloc)?;
    document.clear();
    Ok(document)
}

/// A copy of the document without the sections that have no pairs.
pub fn keep(alloc: Global, document: &Ini) -> Result<Ini, Error>
    ensures { IfOk result (λ copy. copy ≡ kept document.now) }
{
    let mut copy = no_sections(alloc)?;
    for (name, pairs) in document {
        if pairs.is_empty() {
            continue;
        }
        copy.append_section(owned(alloc, name)?, pairs.clone()?)?;
    }
    Ok(copy)
}

/// A copy of the document in which each section of the name has another name.
pub fn rename(alloc: Global, document: &Ini, name: &str, other: &str) -> Result<Ini, Error>
    ensures { IfOk result
        (λ copy. copy ≡ all_named_anew (chars name.now) (chars other.now) document.now) }
{
    let mut copy = no_sections(alloc)?;
    for (found, pairs) in document {
        let kept = if is_named(found, name) {
            Some(other)
        } else {
            found
        };
        copy.append_section(owned(alloc, kept)?, pairs.clone()?)?;
    }
    Ok(copy)
}

// Puts the pairs after those of the section.
fn add_all(document: &mut Ini, to: &str, pairs: &Properties) -> Result<(), Error>
    ensures { OnOk result (document.new ≡ all_added (Some (chars to.now)) document.old pairs.now) }
{
    for (key, value) in pairs {
        document.with_section(Some(to)).add(key, value)?;
    }
    Ok(())
}

/// Takes the first section of a name out, and puts its pairs after those of another.
pub fn move_pairs(document: &mut Ini, from: &str, to: &str) -> Result<(), Error>
    ensures { OnOk result (document.new ≡ all_added (Some (chars to.now))
        (section_removed (Some (chars from.now)) document.old)
        (unwrap_or (first_section (Some (chars from.now)) document.old) [])) }
{
    match document.delete(Some(from)) {
        Some(pairs) => add_all(document, to, &pairs),
        None => Ok(()),
    }
}

/// The first value of the key in each section of the name that has it, as the hosts of a list of upstreams.
pub fn upstreams(alloc: Global, document: &Ini, name: &str, key: &str) -> Result<Vec<String>, Error>
    ensures { IfOk result (λ found. texts_of found.items
        ≡ each_first (Some (chars name.now)) (chars key.now) document.now) }
{
    let mut found = Vec::new(alloc);
    for section in document.section_all(Some(name)) {
        let Some(value) = section.get(key) else {
            continue;
        };
        found.push(String::from_str(alloc, value)?)?;
    }
    Ok(found)
}
