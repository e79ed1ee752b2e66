//! What other files set, set in a file's text, as a function of their bytes. This file knows no word of the
//! program and no device.
ghost use Rattle.std.specs.Prelude.{◌≡◌, ◌++◌, ◌∷◌, [], IfErr, IfOk, OnOk, chars};
ghost use Rattle.ini.specs.Documents.{Document};
ghost use Rattle.ini_file.specs.Merges.{AreLoaded, EndsOnText, HasMerge, Loads, RefusesFile, RefusesOther};
ghost use Rattle.ini_file.specs.Merges.{bytes_of};
ghost use Rattle.ini_file.specs.Ruled.{ruled_of};

use crate::bytes::{concat, text_of};
use crate::edit::gets_byte_order_mark;
use crate::ruled::Ruled;
use crate::ruled_merge::{settings_by, with_settings};
use ini::{Error, Ini, ParseOption};
use ini_edit::RefusedEdit;
use ini_layers::{Layers, NoLayer};
use std::alloc::{AllocError, Global};

/// How a merge ended.
#[derive(Debug, Drop)]
pub enum MergeEnd {
    /// The file's bytes, with what the others set.
    Done(Vec<u8>),
    /// Of the other files the one with this number, counted from 0, was refused.
    Other(usize, Error),
    /// The file's bytes are no text, or one that is refused where nothing is set in it; or memory was scarce.
    File(Error),
    /// An edit of the file's text was refused, or the text was.
    Edit(RefusedEdit),
    /// The file has no mark, and with what the others set it would get one: a key that begins with U+FEFF
    /// would come to its front.
    GetsMark,
}

/// The file's bytes with what the others set under the rule: for each of them in order, each key in each
/// section is set to the value that counts there; the separator stands in new lines where the file has none
/// to go by. A mark (EF BB BF) at the front of any is no part of its text; that of the file stays. All others
/// are read before the file is, which is read too where they set nothing.
pub fn merge(alloc: Global, ruled: Ruled<'_>, input: &[u8], others: &[Vec<u8>]) -> MergeEnd
    ensures { HasMerge (ruled_of ruled.entry) input.now (bytes_of others.now) result }
{
    let documents = match load_all(alloc, ruled.options.reading, others) {
        Ok(documents) => documents,
        Err((index, refusal)) => return MergeEnd::Other(index, refusal),
    };
    match text_of(input) {
        Ok((front, text)) => merge_text(alloc, ruled, &documents, front, text),
        Err(refused) => MergeEnd::File(refused),
    }
}

// What documents set, set in a text after a mark.
fn merge_text(
    alloc: Global,
    ruled: Ruled<'_>,
    documents: &Layers,
    byte_order_mark: &[u8],
    text: &str,
) -> MergeEnd
    ensures { EndsOnText (ruled_of ruled.entry) documents.now byte_order_mark.now (chars text.now) result }
{
    let read = ruled.options.reading;
    let Ok(edits) = settings_by(alloc, ruled.rule, documents) else {
        return MergeEnd::File(Error::Memory(AllocError));
    };
    if edits.is_empty() {
        if let Err(refused) = Ini::load_from_str_opt(alloc, text, read) {
            return MergeEnd::File(refused);
        }
    }
    let write = match ruled.write_option(alloc) {
        Ok(write) => write,
        Err(refused) => return MergeEnd::File(refused),
    };
    let new = match with_settings(alloc, ruled.rule, text, read, &write, edits.as_slice()) {
        Ok(new) => new,
        Err(refused) => return MergeEnd::Edit(refused),
    };
    if gets_byte_order_mark(byte_order_mark, new.as_str()) {
        return MergeEnd::GetsMark;
    }
    match concat(alloc, byte_order_mark, new.as_str()) {
        Ok(bytes) => MergeEnd::Done(bytes),
        Err(refused) => MergeEnd::File(refused),
    }
}

/// The documents of files, in layers; else the number of the file that has none, and why.
pub fn load_all(
    alloc: Global,
    read: ParseOption,
    files: &[Vec<u8>],
) -> Result<Layers, (usize, Error)>
    ensures loaded { IfOk result (AreLoaded read (bytes_of files.now)) }
    ensures refused { IfErr result
        (λ refused. RefusesOther read (bytes_of files.now) refused.0 refused.1) }
{
    let mut documents = Layers::new(alloc);
    for (index, file) in files.iter().enumerate() {
        if let Err(refusal) = load_one(alloc, read, file.as_slice(), &mut documents) {
            return Err((index, refusal));
        }
    }
    Ok(documents)
}

// Puts the document of a file last.
fn load_one(
    alloc: Global,
    read: ParseOption,
    file: &[u8],
    documents: &mut Layers,
) -> Result<(), Error>
    ensures loaded { OnOk result ((document : Document) × Loads read file.now document
        × (documents.new ≡ documents.old ++ document ∷ [])) }
    ensures refused { IfErr result (RefusesFile read file.now) }
{
    let document = load(alloc, read, file)?;
    match documents.push(document) {
        Ok(()) => Ok(()),
        Err(NoLayer { doc: _ }) => Err(Error::Memory(AllocError)),
    }
}

// The document of a file.
pub(crate) fn load(alloc: Global, read: ParseOption, file: &[u8]) -> Result<Ini, Error>
    ensures loaded { IfOk result (Loads read file.now) }
    ensures refused { IfErr result (RefusesFile read file.now) }
{
    let (_, text) = text_of(file)?;
    Ini::load_from_str_opt(alloc, text, read)
}
