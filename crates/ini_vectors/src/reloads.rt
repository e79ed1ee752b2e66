//! Callers that write a document and load it again. Each proves what it answers by the laws of documents,
//! and by the contracts of writing and loading, alone.
ghost use Rattle.std.specs.Prelude.{◌≡◌, chars, true, IfErr, IfOk};
ghost use Rattle.std.specs.Str.{all_scalars};
ghost use Rattle.ini_text.specs.Laws.PlainLaws.{IsEmptyOrHeader};
ghost use Rattle.ini.specs.Outcomes.{loaded};
ghost use Rattle.ini.specs.Plain.{IsPlain};
ghost use Rattle.ini.specs.Texts.{text_of};
ghost use Rattle.ini.specs.Written.{written};
ghost use Rattle.ini_vectors.specs.Reloads.{IsNoRefusal, TellsOutcome, TellsOutcomeAfter, TellsOutcomeOf};

use ini::laws::{inversion, one_outcome};
use ini::{Error, Ini, ParseOption, WriteOption};
use std::alloc::Global;

// The text that is written of a document.
fn written_text(alloc: Global, document: &Ini, option: WriteOption) -> Result<String, Error>
    requires characters { all_scalars (written document.now option) ≡ true }
    ensures text { IfOk result (λ text. text_of text ≡ written document.now option) }
    ensures only { IfErr result IsNoRefusal }
{
    let mut bytes: Vec<u8> = Vec::new(alloc);
    document.write_to_opt(&mut bytes, option)?;
    match String::from_utf8(bytes) {
        Ok(text) => Ok(text),
        Err(_) => Err(Error::NotUtf8),
    }
}

// The outcome of a text.
fn load(alloc: Global, text: &str, read: ParseOption) -> Result<Ini, Error>
    ensures { TellsOutcomeOf read (chars text.now) result }
{
    one_outcome(text, read);
    Ini::load_from_str_opt(alloc, text, read)
}

/// Writes a plain document and loads what was written: the document.
pub fn reload(
    alloc: Global,
    document: &Ini,
    write: WriteOption,
    read: ParseOption,
) -> Result<Ini, Error>
    requires plain { IsPlain document.now write read }
    ensures { TellsOutcome (loaded document.now) result }
{
    inversion(document, &write, read, "");
    let text = written_text(alloc, document, write)?;
    load(alloc, &text, read)
}

/// Writes a plain document, and loads what was written with another text after it that is empty or begins
/// with an opening bracket: the outcome of that text, after the document.
pub fn reload_with(
    alloc: Global,
    document: &Ini,
    more: &str,
    write: WriteOption,
    read: ParseOption,
) -> Result<Ini, Error>
    requires plain { IsPlain document.now write read }
    requires begins { IsEmptyOrHeader (chars more.now) }
    ensures { TellsOutcomeAfter read write document.now (chars more.now) result }
{
    inversion(document, &write, read, more);
    let mut text = written_text(alloc, document, write)?;
    text.push_str(more)?;
    load(alloc, &text, read)
}
