//! Laws of documents, each the contract of a function that does nothing. They speak of the definitions
//! alone.
ghost use Rattle.std.specs.Prelude.{◌≡◌, ◌↔◌, chars, true};
ghost use Rattle.std.specs.Str.{all_scalars, bytes_eq};
ghost use Rattle.ini_text.specs.Laws.PlainLaws.{IsEmptyOrHeader};
ghost use Rattle.ini_text.specs.Options.WriteOptions.{IsDefaultWriteOption};
ghost use Rattle.ini_text.specs.declared.option.ParseOption.{ParseOption};
ghost use Rattle.ini_text.specs.declared.write.option.WriteOption.{WriteOption};
ghost use Rattle.ini.specs.DefaultOptions.{default_write_option};
ghost use Rattle.ini.specs.Documents.{Document};
ghost use Rattle.ini.specs.Loading.{IsDocumentOf};
ghost use Rattle.ini.specs.Outcomes.{HasOneOutcome, Inverts};
ghost use Rattle.ini.specs.Plain.{IsPlain};
ghost use Rattle.ini.specs.Texts.{is_text};
ghost use Rattle.ini.specs.Written.{written};

use crate::document::Ini;
use ini_text::{ParseOption, WriteOption};

pub mod edits;
pub mod refusals;
pub mod renames;

/// A text has one outcome: a document, or a refusal with its kind, line and column.
#[tactic(auto, using(crate::proofs::InversionLemmas::one_outcome))]
pub fn one_outcome(text: &str, read: ParseOption)
    ensures { HasOneOutcome read (chars text.now) }
{}

/// The text of a plain document loads as the document. With a text after it that is empty or begins with an
/// opening bracket, it loads as the document's sections and then those of what follows, refusals moved down.
pub fn inversion(document: &Ini, write: &WriteOption, read: ParseOption, follows: &str)
    requires plain { IsPlain document.now write.now read }
    requires follows { IsEmptyOrHeader (chars follows.now) }
    ensures characters { all_scalars (written document.now write.now) ≡ true }
    ensures document { IsDocumentOf read (written document.now write.now) document.now }
    ensures inverts { Inverts read write.now document.now (chars follows.now) }
{}

/// The text of a plain document loads as the document.
pub fn loads_back(document: &Ini, write: &WriteOption, read: ParseOption)
    requires { IsPlain document.now write.now read }
    ensures characters { all_scalars (written document.now write.now) ≡ true }
    ensures document { IsDocumentOf read (written document.now write.now) document.now }
{}

/// Whichever value has the default options, the same is written by it, and the same is plain.
#[tactic(auto, using(crate::proofs::DefaultLemmas::defaults))]
pub fn one_default()
    ensures written { (document : Document) (write : WriteOption) → IsDefaultWriteOption write
        → written document write ≡ written document default_write_option }
    ensures plain { (document : Document) (write : WriteOption) (read : ParseOption)
        → IsDefaultWriteOption write
        → IsPlain document write read ↔ IsPlain document default_write_option read }
{}

/// Texts are equal as characters exactly where they are equal as bytes, and so are the tests of both.
pub fn same_characters(one: &str, other: &str)
    ensures equal { (chars one.now ≡ chars other.now) ↔ (one.now ≡ other.now) }
    ensures test { is_text (chars one.now) (chars other.now) ≡ bytes_eq one.now other.now }
{}

/// Two documents that are plain under the same options and have one text are equal.
pub fn same_text(one: &Ini, other: &Ini, write: &WriteOption, read: ParseOption)
    requires one { IsPlain one.now write.now read }
    requires other { IsPlain other.now write.now read }
    requires same { written one.now write.now ≡ written other.now write.now }
    ensures { one.now ≡ other.now }
{}
