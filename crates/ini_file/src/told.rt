//! Answers for programs, of a file's bytes: pairs and values in JSON, or as assignments to variables of a
//! shell. This file knows no word and no device. A mark at the bytes' front is no part of their text.
ghost use Rattle.std.specs.Prelude.{◌≡◌, ◌++◌, IfOk, flat_map};
ghost use Rattle.ini.specs.Texts.{str_name, str_text};
ghost use Rattle.ini_file.specs.Jsons.{json_document, json_value, rule_of_all};
ghost use Rattle.ini_file.specs.Shells.{shell_line, shell_section};
ghost use Rattle.ini_file.specs.Told.{EndsWith, GotAs, IsMadeOf, json_line};

use crate::json::{push_document, push_value};
use crate::merge::load;
use crate::shell::{push_shell, push_shell_values};
use crate::typed_get::{TypedEnd, got_texts};
use crate::words::Wanted;
use ini::{Error, Ini, ParseOption};
use ini_dialect::{CaseRule, Lookup, SectionRule, ValueRule};
use std::alloc::{AllocError, Global};

/// A file's document as an object of JSON.
///
/// # Errors
///
/// Those of loading.
pub fn list_as_json(
    alloc: Global,
    read: ParseOption,
    case: CaseRule,
    input: &[u8],
) -> Result<Vec<u8>, Error>
    ensures { IsMadeOf read (λ d. json_document (rule_of_all case) d) input.now result }
{
    let document = load(alloc, read, input)?;
    let mut bytes = Vec::new(alloc);
    push_document(alloc, &mut bytes, rule_of_all(case), &document)?;
    Ok(bytes)
}

// The rule under which all sections and all values count.
fn rule_of_all(case: CaseRule) -> Lookup
    ensures { result ≡ rule_of_all case }
{
    Lookup {
        sections: SectionRule::Joined,
        values: ValueRule::First,
        case,
    }
}

/// The pairs of a file's document as assignments.
///
/// # Errors
///
/// Those of loading.
pub fn list_as_shell(alloc: Global, read: ParseOption, input: &[u8]) -> Result<Vec<u8>, Error>
    ensures { IsMadeOf read (λ d. flat_map shell_section d) input.now result }
{
    let document = load(alloc, read, input)?;
    let mut bytes = Vec::new(alloc);
    push_shell(&mut bytes, &document)?;
    Ok(bytes)
}

/// The value that is looked up in a file, or a list of them, in JSON, and a line feed.
pub fn get_as_json(alloc: Global, read: ParseOption, wanted: Wanted<'_>, input: &[u8]) -> TypedEnd
    ensures { EndsWith read wanted.entry json_line input.now result }
{
    let document = match load(alloc, read, input) {
        Ok(document) => document,
        Err(refused) => return TypedEnd::Refused(refused),
    };
    match json_of_texts(alloc, &document, wanted) {
        Ok(end) => end,
        Err(AllocError) => TypedEnd::Refused(Error::Memory(AllocError)),
    }
}

// The same of a document.
fn json_of_texts(alloc: Global, document: &Ini, wanted: Wanted<'_>) -> Result<TypedEnd, AllocError>
    ensures { IfOk result (GotAs wanted.entry json_line document.now) }
{
    let got = got_texts(alloc, document, wanted)?;
    let texts = got.as_slice();
    if texts.is_empty() {
        return Ok(TypedEnd::NotFound);
    }
    let mut bytes = Vec::new(alloc);
    push_value(&mut bytes, texts)?;
    bytes.push(b'\n')?;
    Ok(TypedEnd::Done(bytes))
}

/// The values that are looked up in a file as assignments.
pub fn get_as_shell(alloc: Global, read: ParseOption, wanted: Wanted<'_>, input: &[u8]) -> TypedEnd
    ensures { EndsWith read wanted.entry (λ texts. flat_map
        (shell_line (str_name wanted.entry.section) (str_text wanted.entry.key)) texts) input.now result }
{
    let document = match load(alloc, read, input) {
        Ok(document) => document,
        Err(refused) => return TypedEnd::Refused(refused),
    };
    match shell_of_texts(alloc, &document, wanted) {
        Ok(end) => end,
        Err(AllocError) => TypedEnd::Refused(Error::Memory(AllocError)),
    }
}

// The same of a document.
fn shell_of_texts(alloc: Global, document: &Ini, wanted: Wanted<'_>) -> Result<TypedEnd, AllocError>
    ensures { IfOk result (GotAs wanted.entry (λ texts. flat_map
        (shell_line (str_name wanted.entry.section) (str_text wanted.entry.key)) texts) document.now) }
{
    let got = got_texts(alloc, document, wanted)?;
    let texts = got.as_slice();
    if texts.is_empty() {
        return Ok(TypedEnd::NotFound);
    }
    let mut bytes = Vec::new(alloc);
    push_shell_values(&mut bytes, wanted.section, wanted.key, texts)?;
    Ok(TypedEnd::Done(bytes))
}
