//! One document of several files, as a function of their bytes. This file knows no word of the program and no
//! device.
ghost use Rattle.std.specs.Prelude.{◌≡◌, IfOk, IsOkUnless, alloc_error};
ghost use Rattle.ini_dialect.specs.Rules.{is_own};
ghost use Rattle.ini_file.specs.Layered.{HasLayers, IsMergedText, merged_by};
ghost use Rattle.ini_file.specs.Merges.{bytes_of};

use crate::merge::load_all;
use crate::writing::{separates, writing};
use ini::{Error, Ini};
use ini_dialect::Lookup;
use ini_edit::EditError;
use ini_layers::Layers;
use ini_words::Options;
use std::alloc::{AllocError, Global};

/// How laying files over each other ended.
#[derive(Debug, Drop)]
pub enum LayersEnd {
    /// The bytes of their document's text.
    Done(Vec<u8>),
    /// The file with this number, counted from 0, was refused.
    File(usize, Error),
    /// The separator was refused, or memory was.
    Refused(EditError),
}

/// The text of one document of the files: of those that have a key, the last one's value counts. In each the
/// rule says which section and which pair is looked at; a section without pairs is dropped.
/// A mark (EF BB BF) at the front of any is no part of its text. All files are read.
pub fn layered(
    alloc: Global,
    rule: Lookup,
    options: Options,
    separator: &str,
    files: &[Vec<u8>],
) -> LayersEnd
    ensures { HasLayers rule options separator.now (bytes_of files.now) result }
{
    if !separates(Some(separator)) {
        return LayersEnd::Refused(EditError::Separator);
    }
    let layers = match load_all(alloc, options.reading, files) {
        Ok(layers) => layers,
        Err((index, refusal)) => return LayersEnd::File(index, refusal),
    };
    match merged_text(alloc, rule, options, separator, &layers) {
        Ok(bytes) => LayersEnd::Done(bytes),
        Err(refusal) => LayersEnd::Refused(EditError::Text(refusal)),
    }
}

// The text of the layers' document. Refused only when out of memory.
fn merged_text(
    alloc: Global,
    rule: Lookup,
    options: Options,
    separator: &str,
    layers: &Layers,
) -> Result<Vec<u8>, Error>
    ensures text { IfOk result (λ bytes. IsMergedText rule options separator.now layers.now bytes.items) }
    ensures only { IsOkUnless result (Error.Memory alloc_error) }
{
    let option = writing(alloc, options, Some(separator))?;
    let merged = merged_under(alloc, rule, layers)?;
    let mut bytes = Vec::new(alloc);
    // Bytes in memory are refused only when out of memory.
    if merged.write_to_opt(&mut bytes, option).is_err() {
        return Err(Error::Memory(AllocError));
    }
    Ok(bytes)
}

/// One document of the layers: by the crate's own rule `Layers::merged`'s, under another `Lookup::merged`'s.
/// Refused only when out of memory.
pub fn merged_under(alloc: Global, rule: Lookup, layers: &Layers) -> Result<Ini, Error>
    ensures merged { IfOk result (λ document. document ≡ merged_by (is_own rule) rule layers.now) }
    ensures only { IsOkUnless result (Error.Memory alloc_error) }
{
    if rule.is_own() {
        return layers.merged();
    }
    rule.merged(alloc, layers.as_slice())
}
