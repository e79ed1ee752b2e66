//! One document of several files, each pair of it with the file and the line that its value is from, as a
//! function of their names and bytes. This file knows no word of the program and no device.
ghost use Rattle.std.specs.Prelude.{◌≡◌, ◌++◌, ◌∷◌, [], IfOk, OnOk, chars, map, string_bytes, unwrap_or};
ghost use Rattle.ini.specs.Texts.{str_name, str_text};
ghost use Rattle.ini_dialect.specs.Rules.{is_own};
ghost use Rattle.ini_file.specs.LayerOrigins.{AreOriginLines, ArePlaced, HasLayerOrigins, lines_with_places};
ghost use Rattle.ini_file.specs.LayerOrigins.{name_at, pair_with_place, section_with_places, value_by};
ghost use Rattle.ini_file.specs.Merges.{bytes_of};

use crate::layers::{LayersEnd, merged_under};
use crate::merge::load_all;
use crate::origins::push_placed_pair;
use crate::pair_places::places_of_file;
use ini::{Error, Ini, ParseOption, Properties};
use ini_dialect::{AnyDocument, Lookup};
use ini_edit::EditError;
use ini_layers::{Layers, NoLayer};
use std::alloc::{AllocError, Global};

/// What is written of each pair of the files' one document, which is `layered`'s, in its order: the file and
/// the line of the pair that gives its value, and the pair, as `origins` has them. It is the pair that counts
/// in the last file whose document has the key. Each file has the name of its number, or the empty one.
///
/// A file is refused where `layered` refuses it.
pub fn layers_with_origins(
    alloc: Global,
    rule: Lookup,
    read: ParseOption,
    null: bool,
    names: &[String],
    files: &[Vec<u8>],
) -> LayersEnd
    ensures { HasLayerOrigins rule read null (map string_bytes names.now) (bytes_of files.now) result }
{
    let layers = match load_all(alloc, read, files) {
        Ok(layers) => layers,
        Err((index, refusal)) => return LayersEnd::File(index, refusal),
    };
    match origin_lines(alloc, rule, read, null, names, files, &layers) {
        Ok(lines) => LayersEnd::Done(lines),
        // A text that was read before is refused only when out of memory.
        Err(_) => LayersEnd::Refused(EditError::Text(Error::Memory(AllocError))),
    }
}

// What is written of files that have these documents.
fn origin_lines(
    alloc: Global,
    rule: Lookup,
    read: ParseOption,
    null: bool,
    names: &[String],
    files: &[Vec<u8>],
    layers: &Layers,
) -> Result<Vec<u8>, Error>
    ensures { IfOk result (λ lines. AreOriginLines rule read null (map string_bytes names.now)
        (bytes_of files.now) layers.now lines.items) }
{
    let placed = places_of_all(alloc, read, null, names, files)?;
    let places = merged_under(alloc, rule, &placed)?;
    let merged = merged_under(alloc, rule, layers)?;
    let lines = lines_of(alloc, rule, null, &places, &merged)?;
    Ok(lines)
}

// The places of files, in layers.
fn places_of_all(
    alloc: Global,
    read: ParseOption,
    null: bool,
    names: &[String],
    files: &[Vec<u8>],
) -> Result<Layers, Error>
    ensures { IfOk result (ArePlaced read null (map string_bytes names.now) (bytes_of files.now)) }
{
    let mut placed = Layers::new(alloc);
    for (index, file) in files.iter().enumerate() {
        let places = places_of_file(alloc, read, null, name_at(names, index), file.as_slice())?;
        push_layer(&mut placed, places)?;
    }
    Ok(placed)
}

// The name of this number; the empty one where there is none.
fn name_at(names: &[String], index: usize) -> &str
    ensures { result.now ≡ name_at (map string_bytes names.now) index }
{
    match names.get(index) {
        Some(name) => name.as_str(),
        None => "",
    }
}

// Puts a document last.
fn push_layer(layers: &mut Layers, document: Ini) -> Result<(), AllocError>
    ensures { OnOk result (layers.new ≡ layers.old ++ document ∷ []) }
{
    match layers.push(document) {
        Ok(()) => Ok(()),
        Err(NoLayer { doc: _ }) => Err(AllocError),
    }
}

// Each pair of a document, after its place.
fn lines_of(
    alloc: Global,
    rule: Lookup,
    null: bool,
    places: &Ini,
    document: &Ini,
) -> Result<Vec<u8>, AllocError>
    ensures { IfOk result
        (λ lines. lines.items ≡ lines_with_places rule null places.now document.now) }
{
    let mut lines = Vec::new(alloc);
    for (name, section) in document {
        push_section(rule, null, places, name, section, &mut lines)?;
    }
    Ok(lines)
}

// Puts last each pair of a section, after its place.
fn push_section(
    rule: Lookup,
    null: bool,
    places: &Ini,
    name: Option<&str>,
    section: &Properties,
    lines: &mut Vec<u8>,
) -> Result<(), AllocError>
    ensures { OnOk result (lines.new.items ≡ lines.old.items
        ++ section_with_places rule null places.now (str_name name.entry) section.now) }
{
    for (key, value) in section {
        push_pair(rule, null, places, name, key, value, lines)?;
    }
    Ok(())
}

// Puts a pair last, after its place.
fn push_pair(
    rule: Lookup,
    null: bool,
    places: &Ini,
    name: Option<&str>,
    key: &str,
    value: &str,
    lines: &mut Vec<u8>,
) -> Result<(), AllocError>
    ensures { OnOk result (lines.new.items ≡ lines.old.items
        ++ pair_with_place rule null places.now (str_name name.entry) (chars key.now, chars value.now)) }
{
    let place = place_of(rule, places, name, key);
    push_placed_pair(lines, null, place, name, key, value)
}

// The place that a key has among the places; the empty one where there is none. By the crate's own rule it is
// found by the document's index.
fn place_of<'a>(rule: Lookup, places: &'a Ini, name: Option<&str>, key: &str) -> &'a str
    ensures { str_text result ≡ unwrap_or
        (value_by (is_own rule) rule (str_name name.entry) (chars key.now) places.now) [] }
{
    if rule.is_own() {
        return places.get_from_or(name, key, "");
    }
    rule.get_or_empty(AnyDocument::Ini(places), name, key)
}
