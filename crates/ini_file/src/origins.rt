//! Each pair of a text, with the file and the line where it stands. This file knows the elements of a text in
//! pieces, and no device.
ghost use Rattle.std.specs.Prelude.{◌≡◌, ◌++◌, ◌∷◌, [], IfErr, IfOk, OnOk, chars, encode_utf8_all, flat_map};
ghost use Rattle.std.specs.Prelude.{string_bytes};
ghost use Rattle.ini.specs.Loading.{IfParse, IsParseOrMemory, IsStopOf};
ghost use Rattle.ini.specs.Texts.{str_name};
ghost use Rattle.ini_edit.specs.SourceElements.{elements_in, shown_element};
ghost use Rattle.ini_words.specs.Lines.{between_in, end_in, listed_name, listed_pair, text_in};
ghost use Rattle.ini_file.specs.Forms.{listing_form};
ghost use Rattle.ini_file.specs.Origins.{AreOrigins, HasOrigins, origin, placed_pair, place_word};

use crate::bytes::text_of;
use crate::change_lines::push_parts_in;
use ini::{Error, ParseOption};
use ini_edit::{Source, SourceContent, SourceElement};
use ini_words::lines::Form;
use std::alloc::{AllocError, Global};

/// What is written of each pair of a file with this name and these bytes, in order: the file, a colon, the
/// line on which the pair begins, a colon, and the pair as `list` has it; with `null` each of them and each
/// part of the pair with NUL after it. A mark at the bytes' front is no part of the text.
///
/// # Errors
///
/// `NotUtf8`; `Parse` where reading the text stops, with its place; `Memory`.
pub fn origins(
    alloc: Global,
    read: ParseOption,
    file: &str,
    null: bool,
    input: &[u8],
) -> Result<Vec<u8>, Error>
    ensures { AreOrigins read null file.now input.now result }
{
    match text_of(input) {
        Ok((_, text)) => origins_in_text(alloc, read, file, null, text),
        Err(refused) => Err(refused),
    }
}

// The same of a text.
fn origins_in_text(
    alloc: Global,
    read: ParseOption,
    file: &str,
    null: bool,
    text: &str,
) -> Result<Vec<u8>, Error>
    ensures lines { IfOk result
        (λ lines. HasOrigins read null file.now (chars text.now) lines.items) }
    ensures fault { IfParse result (IsStopOf read (chars text.now)) }
    ensures only { IfErr result IsParseOrMemory }
{
    let source = Source::read(alloc, text, read)?;
    let lines = origins_of(alloc, file, null, &source)?;
    Ok(lines)
}

// The same of a text in pieces.
fn origins_of(
    alloc: Global,
    file: &str,
    null: bool,
    source: &Source<'_>,
) -> Result<Vec<u8>, AllocError>
    ensures { IfOk result
        (λ lines. lines.items ≡ flat_map (origin null file.now) (elements_in source.now)) }
{
    let mut lines = Vec::new(alloc);
    for element in source.elements() {
        push_origin(alloc, &mut lines, file, null, element)?;
    }
    Ok(lines)
}

// Puts last what is written of an element.
fn push_origin(
    alloc: Global,
    lines: &mut Vec<u8>,
    file: &str,
    null: bool,
    element: SourceElement<'_, '_>,
) -> Result<(), AllocError>
    ensures { OnOk result
        (lines.new.items ≡ lines.old.items ++ origin null file.now (shown_element element.entry)) }
{
    match element.content {
        SourceContent::Pair(pair) => {
            let place = place_of_line(alloc, file, null, element.position.line)?;
            let (key, value) = (pair.key(), pair.value());
            push_placed_pair(lines, null, place.as_str(), element.section, key, value)
        }
        SourceContent::Header(_) => Ok(()),
        SourceContent::Between(_) => Ok(()),
    }
}

/// What stands before a pair.
pub(crate) fn place_of_line(
    alloc: Global,
    file: &str,
    null: bool,
    line: usize,
) -> Result<String, AllocError>
    ensures { IfOk result (λ place. string_bytes place ≡ place_word null file.now line) }
{
    if null {
        Ok(format!(in alloc; "{file}\0{line}\0")?)
    } else {
        Ok(format!(in alloc; "{file}:{line}:")?)
    }
}

/// Puts a pair last, after its place.
pub(crate) fn push_placed_pair<'x>(
    lines: &mut Vec<u8>,
    null: bool,
    place: &'x str,
    name: Option<&'x str>,
    key: &'x str,
    value: &'x str,
) -> Result<(), AllocError>
    ensures { OnOk result (lines.new.items ≡ lines.old.items ++ placed_pair null place.now
        (str_name name.entry) (chars key.now, chars value.now)) }
{
    let (open, name, close) = bracketed(null, name);
    let (between, end) = separators(null);
    let parts = [
        ("", place),
        ("", open),
        (name, close),
        ("", between),
        (key, between),
        (value, end),
    ];
    push_parts_in(lines, form_of(null), &parts)
}

// How pairs are listed.
fn form_of(null: bool) -> Form
    ensures { result ≡ listing_form null }
{
    if null { Form::Null } else { Form::Escaped }
}

// A section's name, with the brackets around it.
fn bracketed(null: bool, name: Option<&str>) -> (&'static str, &str, &'static str)
    ensures { chars result.0.now
        ++ (text_in (listing_form null) (chars result.1.now) ++ chars result.2.now)
        ≡ listed_name (listing_form null) (str_name name.entry) }
{
    match name {
        Some(name) => ("[", name, "]"),
        None => ("", "", ""),
    }
}

// What stands between the parts of a pair, and after it.
fn separators(null: bool) -> (&'static str, &'static str)
    ensures between { chars result.0.now ≡ between_in (listing_form null) ∷ [] }
    ensures end { chars result.1.now ≡ end_in (listing_form null) ∷ [] }
{
    if null { ("\0", "\0") } else { ("\t", "\n") }
}
