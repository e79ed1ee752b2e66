//! The values of a key in one form for each kind, of a file's bytes. This file knows no word and no device.
ghost use Rattle.std.specs.Prelude.{◌≡◌, IfOk, map, option_to_list};
ghost use Rattle.std.specs.Option.{option_map};
ghost use Rattle.ini.specs.Texts.{str_name, str_text};
ghost use Rattle.ini_file.specs.TypedGets.{EndsGot, EndsTyped, end_of, got_texts};

use crate::manner::ValueKind;
use crate::merge::load;
use crate::typed::{Converted, convert_all};
use crate::words::Wanted;
use ini::{Error, Ini, ParseOption};
use ini_dialect::AnyDocument;
use std::alloc::{AllocError, Global};

/// How a look-up ended of values that are to say something of a kind.
#[derive(Drop)]
pub enum TypedEnd {
    /// What each value says, with a line feed or NUL after it.
    Done(Vec<u8>),
    /// The key isn't there, and there is no default.
    NotFound,
    /// The value of this number, from 0, of those that are looked up says nothing of the kind.
    Not(usize),
    /// The file was refused; or memory was.
    Refused(Error),
}

/// What the values say that are looked up in a file with these bytes: that of the key that counts, or all of
/// them; where the key isn't there the default. A mark (EF BB BF) at the front is no part of the text.
pub fn get_typed(
    alloc: Global,
    read: ParseOption,
    wanted: Wanted<'_>,
    kind: ValueKind,
    home: Option<&str>,
    input: &[u8],
) -> TypedEnd
    ensures { EndsTyped read wanted.entry kind (option_map (λ home. home.now) home.entry) input.now result }
{
    let document = match load(alloc, read, input) {
        Ok(document) => document,
        Err(refused) => return TypedEnd::Refused(refused),
    };
    match get_of_document(alloc, &document, wanted, kind, home) {
        Ok(end) => end,
        Err(AllocError) => TypedEnd::Refused(Error::Memory(AllocError)),
    }
}

// The same of a document.
fn get_of_document(
    alloc: Global,
    document: &Ini,
    wanted: Wanted<'_>,
    kind: ValueKind,
    home: Option<&str>,
) -> Result<TypedEnd, AllocError>
    ensures { IfOk result (EndsGot wanted.entry kind (option_map (λ home. home.now) home.entry)
        document.now) }
{
    let got = got_texts(alloc, document, wanted)?;
    let texts = got.as_slice();
    if texts.is_empty() {
        return Ok(TypedEnd::NotFound);
    }
    match convert_all(alloc, kind, home, end_of(wanted.null), texts)? {
        Converted::Texts(bytes) => Ok(TypedEnd::Done(bytes)),
        Converted::Not(index) => Ok(TypedEnd::Not(index)),
    }
}

// What ends each value.
fn end_of(null: bool) -> &'static str
    ensures { result.now ≡ end_of null }
{
    if null { "\0" } else { "\n" }
}

// The values that are looked up, or the default.
pub(crate) fn got_texts<'v>(
    alloc: Global,
    document: &'v Ini,
    wanted: Wanted<'v>,
) -> Result<Vec<&'v str>, AllocError>
    ensures { IfOk result (λ texts. map str_text texts.items ≡ got_texts wanted.entry.rule
        wanted.entry.all (str_text wanted.entry.key) (str_name wanted.entry.section)
        (str_name wanted.entry.default) document.now) }
{
    let (rule, section, key) = (wanted.rule, wanted.section, wanted.key);
    if rule.get(AnyDocument::Ini(document), section, key).is_none() {
        return texts_of(alloc, wanted.default);
    }
    if wanted.all {
        return rule.get_all(alloc, AnyDocument::Ini(document), section, key);
    }
    texts_of(alloc, rule.get(AnyDocument::Ini(document), section, key))
}

// A text alone, if there is one.
fn texts_of(alloc: Global, text: Option<&str>) -> Result<Vec<&str>, AllocError>
    ensures { IfOk result (λ texts. map str_text texts.items ≡ option_to_list (str_name text.entry)) }
{
    let mut texts = Vec::new(alloc);
    if let Some(text) = text {
        texts.push(text)?;
    }
    Ok(texts)
}
