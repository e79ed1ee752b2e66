//! A list of edits made in a text, one after another. This file knows edits by their calls, and texts in
//! pieces.
ghost use Rattle.std.specs.Prelude.{◌≡◌, [], chars, map, alloc_error};
ghost use Rattle.std.specs.Prelude.{IfErr, IfOk};
ghost use Rattle.ini_text.specs.Parsing.Items.{string_text};
ghost use Rattle.ini_text.specs.declared.error.Error.TheVariants.{Memory};
ghost use Rattle.ini.specs.Documents.{Document};
ghost use Rattle.ini.specs.Loading.{IsDocumentOf};
ghost use Rattle.ini_edit.specs.Editings.{editing_of};
ghost use Rattle.ini_edit.specs.WholeTexts.{IsRefusalOf, MakesText, RefusesOfText, RefusesText};
ghost use Rattle.ini_edit.specs.Made.{all_made_in};
ghost use Rattle.ini_edit.specs.declared.error.EditError.TheVariants as EditErrors;

use crate::edits::{Edit, make_edit};
use crate::error::EditError;
use crate::source::Source;
use crate::source::set::LaterPairs;
use ini_text::{Error, ParseOption, WriteOption};
use std::alloc::Global;
use std::fmt;

/// A text that edits were made in.
#[derive(Debug, Drop)]
pub struct EditedText {
    /// The new text.
    pub text: String,
    /// Whether each edit found what it is about, in the edits' order.
    pub found: Vec<bool>,
}

/// Why a list of edits isn't made. None of it is: the text that was handed in is as it was.
#[derive(Debug, Drop)]
pub struct RefusedEdit {
    /// Which edit was refused, counted from 0.
    pub index: usize,
    /// Why it was.
    pub refusal: EditError,
}

/// Prints the word `edit`, the index, a colon, a space and the refusal.
impl fmt::Display for RefusedEdit {
    ghost use Rattle.ini_edit.specs.Messages.{printed_refusal};

    ghost output = { printed_refusal };

    fn fmt<W: fmt::Write>(&self, f: &mut fmt::Formatter<W>) -> fmt::Result {
        write!(f, "edit {}: {}", self.index, self.refusal)
    }
}

impl std::error::Error for RefusedEdit {}

/// The text with the edits made in it, one after another, each in the text that those before it made. An
/// edit that finds nothing (a key to be deleted that isn't there) changes nothing, the others go on, and
/// `found` tells. The new text loads as the document with the edits made in it. With no edit the text is
/// answered as it is, and isn't read.
///
/// The text is read once.
///
/// # Errors
///
/// That of the first edit whose call refuses, with its index; a text that is refused is so by the first
/// edit. Where memory is refused while the text is read or written, the index is 0.
pub fn make_edits(
    alloc: Global,
    text: &str,
    read: ParseOption,
    write: &WriteOption,
    edits: &[Edit<'_>],
) -> Result<EditedText, RefusedEdit>
    ensures made { IfOk result (λ new. MakesText read write.now (map editing_of edits.now) (chars text.now)
        new.found.items (string_text new.text)) }
    ensures loads { IfOk result (λ new. (d : Document) → IsDocumentOf read (chars text.now) d
        → IsDocumentOf read (string_text new.text)
        (all_made_in (map editing_of edits.now) new.found.items d)) }
    ensures refused { IfErr result (RefusesText read write.now (map editing_of edits.now) (chars text.now)) }
{
    let Some(first) = edits.first() else {
        return copied(alloc, text);
    };
    let mut source = match Source::read(alloc, text, read) {
        Ok(source) => source,
        Err(refusal) => return Err(refused_by(alloc, text, read, write, *first, refusal)),
    };
    let found = source.make_each(alloc, write, LaterPairs::TakenOut, edits)?;
    match source.to_text(alloc) {
        Ok(text) => Ok(EditedText { text, found }),
        Err(refusal) => Err(at_first(refusal.into())),
    }
}

// The text as it is.
fn copied(alloc: Global, text: &str) -> Result<EditedText, RefusedEdit>
    ensures text { IfOk result (λ new. (string_text new.text ≡ chars text.now) × (new.found.items ≡ [])) }
    ensures only { IfErr result (λ refused. refused ≡ record {
      index = 0;
      refusal = EditErrors.Text (Memory alloc_error);
    }) }
{
    match String::from_str(alloc, text) {
        Ok(text) => Ok(EditedText {
            text,
            found: Vec::new(alloc),
        }),
        Err(refusal) => Err(at_first(refusal.into())),
    }
}

// How the first edit refuses a text that reading refuses so: for its own words first.
fn refused_by(
    alloc: Global,
    text: &str,
    read: ParseOption,
    write: &WriteOption,
    edit: Edit<'_>,
    refusal: Error,
) -> RefusedEdit
    requires fault { IsRefusalOf read (chars text.now) refusal }
    ensures index { result.index ≡ 0 }
    ensures refused { RefusesOfText read write.now (editing_of edit.entry) (chars text.now) result.refusal }
{
    match make_edit(alloc, text, read, write, edit) {
        Err(refusal) => at_first(refusal),
        Ok(edited) => {
            drop(edited);
            at_first(refusal.into())
        }
    }
}

fn at_first(refusal: EditError) -> RefusedEdit
    ensures { result ≡ record { index = 0; refusal = refusal } }
{
    RefusedEdit { index: 0, refusal }
}
