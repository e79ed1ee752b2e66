//! A document as an object of JSON: of each section's name its keys, and of each key its value, or a list of
//! its values where there are several. This file knows rules of looking up, and no device.
ghost use Rattle.std.specs.Prelude.{◌≡◌, ◌++◌, ◌∷◌, OnOk, chars, flat_map, map};
ghost use Rattle.ini.specs.Texts.{str_name, str_text};
ghost use Rattle.ini_dialect.specs.Walks.{any_document};
ghost use Rattle.ini_file.specs.Jsons.{json_document, json_member, json_name, json_section, json_text};
ghost use Rattle.ini_file.specs.Jsons.{json_value, with_commas};

use crate::json_string::push_json_string;
use ini::Ini;
use ini_dialect::{AnyDocument, Lookup};
use std::alloc::{AllocError, Global};

/// Puts a document last as an object, and a line feed. Sections and keys that the rule takes for one are one
/// member. The general section has the empty name.
pub fn push_document(
    alloc: Global,
    bytes: &mut Vec<u8>,
    rule: Lookup,
    document: &Ini,
) -> Result<(), AllocError>
    ensures { OnOk result (bytes.new.items ≡ bytes.old.items ++ json_document rule document.now) }
{
    let names = rule.sections(alloc, AnyDocument::Ini(document))?;
    bytes.push(b'{')?;
    push_sections(alloc, bytes, rule, document, names.as_slice())?;
    bytes.extend_from_slice(b"}\n")
}

// Puts the sections of these names last.
fn push_sections(
    alloc: Global,
    bytes: &mut Vec<u8>,
    rule: Lookup,
    document: &Ini,
    names: &[Option<&str>],
) -> Result<(), AllocError>
    ensures { OnOk result (bytes.new.items
        ≡ bytes.old.items ++ with_commas (json_section rule document.now) (map str_name names.now)) }
{
    let Some((first, more)) = names.split_first() else {
        return Ok(());
    };
    push_section(alloc, bytes, rule, document, *first)?;
    push_more_sections(alloc, bytes, rule, document, more)
}

// The same, each after a comma.
fn push_more_sections(
    alloc: Global,
    bytes: &mut Vec<u8>,
    rule: Lookup,
    document: &Ini,
    names: &[Option<&str>],
) -> Result<(), AllocError>
    ensures { OnOk result (bytes.new.items ≡ bytes.old.items
        ++ flat_map (λ name. 0x2C ∷ json_section rule document.now name) (map str_name names.now)) }
{
    for name in names {
        bytes.push(b',')?;
        push_section(alloc, bytes, rule, document, *name)?;
    }
    Ok(())
}

// Puts a section last.
fn push_section(
    alloc: Global,
    bytes: &mut Vec<u8>,
    rule: Lookup,
    document: &Ini,
    name: Option<&str>,
) -> Result<(), AllocError>
    ensures { OnOk result
        (bytes.new.items ≡ bytes.old.items ++ json_section rule document.now (str_name name.entry)) }
{
    let keys = rule.keys(alloc, AnyDocument::Ini(document), name)?;
    push_section_name(bytes, name)?;
    bytes.extend_from_slice(b":{")?;
    push_members(alloc, bytes, rule, document, name, keys.as_slice())?;
    bytes.push(b'}')?;
    Ok(())
}

// Puts a section's name last.
fn push_section_name(bytes: &mut Vec<u8>, name: Option<&str>) -> Result<(), AllocError>
    ensures { OnOk result (bytes.new.items ≡ bytes.old.items ++ json_name (str_name name.entry)) }
{
    match name {
        Some(name) => push_text(bytes, name),
        None => bytes.extend_from_slice(b"\"\""),
    }
}

// Puts the members of these keys last.
fn push_members(
    alloc: Global,
    bytes: &mut Vec<u8>,
    rule: Lookup,
    document: &Ini,
    name: Option<&str>,
    keys: &[&str],
) -> Result<(), AllocError>
    ensures { OnOk result (bytes.new.items ≡ bytes.old.items
        ++ with_commas (json_member rule document.now (str_name name.entry)) (map str_text keys.now)) }
{
    let Some((first, more)) = keys.split_first() else {
        return Ok(());
    };
    push_member(alloc, bytes, rule, document, name, first)?;
    push_more_members(alloc, bytes, rule, document, name, more)
}

// The same, each after a comma.
fn push_more_members(
    alloc: Global,
    bytes: &mut Vec<u8>,
    rule: Lookup,
    document: &Ini,
    name: Option<&str>,
    keys: &[&str],
) -> Result<(), AllocError>
    ensures { OnOk result (bytes.new.items ≡ bytes.old.items
        ++ flat_map (λ key. 0x2C ∷ json_member rule document.now (str_name name.entry) key)
        (map str_text keys.now)) }
{
    for key in keys {
        bytes.push(b',')?;
        push_member(alloc, bytes, rule, document, name, key)?;
    }
    Ok(())
}

// Puts a key last with its values.
fn push_member(
    alloc: Global,
    bytes: &mut Vec<u8>,
    rule: Lookup,
    document: &Ini,
    name: Option<&str>,
    key: &str,
) -> Result<(), AllocError>
    ensures { OnOk result (bytes.new.items ≡ bytes.old.items
        ++ json_member rule document.now (str_name name.entry) (chars key.now)) }
{
    let values = rule.get_all(alloc, AnyDocument::Ini(document), name, key)?;
    push_text(bytes, key)?;
    bytes.push(b':')?;
    push_value(bytes, values.as_slice())
}

/// Puts a value last, or a list of them where there isn't one alone.
pub fn push_value(bytes: &mut Vec<u8>, values: &[&str]) -> Result<(), AllocError>
    ensures { OnOk result (bytes.new.items ≡ bytes.old.items ++ json_value (map str_text values.now)) }
{
    match values {
        [] => bytes.extend_from_slice(b"[]"),
        [value] => push_text(bytes, value),
        [first, more @ ..] => {
            bytes.push(b'[')?;
            push_text(bytes, first)?;
            push_more_texts(bytes, more)?;
            bytes.push(b']')?;
            Ok(())
        }
    }
}

// Puts texts last, each after a comma.
fn push_more_texts(bytes: &mut Vec<u8>, texts: &[&str]) -> Result<(), AllocError>
    ensures { OnOk result (bytes.new.items
        ≡ bytes.old.items ++ flat_map (λ text. 0x2C ∷ json_text text) (map str_text texts.now)) }
{
    for text in texts {
        bytes.push(b',')?;
        push_text(bytes, text)?;
    }
    Ok(())
}

// Puts a text last, as a string.
fn push_text(bytes: &mut Vec<u8>, text: &str) -> Result<(), AllocError>
    ensures { OnOk result (bytes.new.items ≡ bytes.old.items ++ json_text (chars text.now)) }
{
    push_json_string(bytes, text)
}
