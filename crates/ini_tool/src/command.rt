//! What each command writes of a document. This file knows no word and no reader.
ghost use Rattle.std.specs.Prelude.{chars};
ghost use Rattle.ini_text.specs.Device.Watched.{IsClear};
ghost use Rattle.ini.specs.Texts.{str_name};
ghost use Rattle.ini_tool.specs.Requests.{Del, Fmt, Set, change_of, question_of};
ghost use Rattle.ini_tool.specs.Outputs.{output};
ghost use Rattle.ini_words.specs.Prints.{Prints};

use crate::words::{Change, Question};
use ini::{Error, Ini, Watched, WriteOption};
use ini_view::View;
use ini_words::lines::{Form, list, value};
use std::alloc::Global;
use std::io::Write;
use std::mem;

/// Writes what is asked of the document, and answers whether it was there. `option` is how documents are
/// written, which changes no answer.
pub fn answer<W: Write>(
    question: Question<'_>,
    document: &View<'_>,
    option: WriteOption,
    out: &mut Watched<'_, W>,
) -> Result<bool, Error>
    requires { IsClear out.old }
    ensures { Prints W.contents out.old out.new result
        (output option (question_of question.entry) document.now) }
{
    match question {
        Question::List => list(document, Form::Escaped, out),
        Question::Get { key, section } => value(document.get_from(section, key), Form::AsIs, out),
    }
}

/// Writes the document with the change, and answers whether the pair that it names was there.
pub fn write<W: Write>(
    change: Change<'_>,
    alloc: Global,
    document: Ini,
    option: WriteOption,
    out: &mut Watched<'_, W>,
) -> Result<bool, Error>
    requires { IsClear out.old }
    ensures { Prints W.contents out.old out.new result (output option (change_of change.entry) document) }
{
    match change {
        Change::Fmt => fmt(document, option, out),
        Change::Set {
            key,
            value,
            section,
        } => set(alloc, document, key, value, section, option, out),
        Change::Del { key, section } => del(document, key, section, option, out),
    }
}

// The document. It is the last thing that the program holds, so its memory isn't given back piece by piece.
fn fmt<W: Write>(
    document: Ini,
    option: WriteOption,
    out: &mut Watched<'_, W>,
) -> Result<bool, Error>
    requires { IsClear out.old }
    ensures { Prints W.contents out.old out.new result (output option Fmt document) }
{
    let written = document.write_watched(out, option);
    mem::forget(document);
    written?;
    Ok(true)
}

// The document with the value set.
fn set<W: Write>(
    alloc: Global,
    document: Ini,
    key: &str,
    value: &str,
    section: Option<&str>,
    option: WriteOption,
    out: &mut Watched<'_, W>,
) -> Result<bool, Error>
    requires { IsClear out.old }
    ensures { Prints W.contents out.old out.new result
        (output option (Set (chars key.now) (chars value.now) (str_name section.entry)) document) }
{
    let mut document = document;
    let key = String::from_str(alloc, key)?;
    let value = String::from_str(alloc, value)?;
    document.set_to(section, key, value)?;
    fmt(document, option, out)
}

// The document without the first pair of the key.
fn del<W: Write>(
    document: Ini,
    key: &str,
    section: Option<&str>,
    option: WriteOption,
    out: &mut Watched<'_, W>,
) -> Result<bool, Error>
    requires { IsClear out.old }
    ensures { Prints W.contents out.old out.new result
        (output option (Del (chars key.now) (str_name section.entry)) document) }
{
    let mut document = document;
    if document.delete_from(section, key).is_none() {
        return Ok(false);
    }
    fmt(document, option, out)
}
