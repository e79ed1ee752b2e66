//! A command over one file as a function of the file's bytes. This file knows how a run ends, and what is
//! reported of it; of files it knows their names alone.
ghost use Rattle.std.specs.Prelude.{◌≡◌, ◌++◌, ◌⊎◌, IfErr, IfOk, OnOk};
ghost use Rattle.std.specs.Prelude.{[], chars, is_some, unwrap_or};
ghost use Rattle.ini_text.specs.Device.Watched.{AppendsFront};
ghost use Rattle.ini.specs.WrittenTo.{IsWrittenTo};
ghost use Rattle.ini_file.specs.Outputs.{output};
ghost use Rattle.ini_file.specs.Requests.{Rewrite, asking_of, asks_of};
ghost use Rattle.ini_file.specs.Runs.{EndsOn, IsAnsweredAs, IsDone, IsNotFound, IsUsage};
ghost use Rattle.ini_file.specs.Runs.{RefusesQuestion, status_of, usage_line};
ghost use Rattle.ini_file.specs.Writing.{word_of};

use crate::bytes::text_of;
use crate::coding::{CodingError, FileError};
use crate::command::answer;
use crate::edit::change;
use crate::further::change_further;
use crate::shown::Shown;
use crate::words::{Command, Invocation, Question, USAGE};
use crate::writing::{separates, writing};
use ini::{Error, Ini, Watched, WriteOption, write_raw};
use ini_edit::EditError;
use ini_view::View;
use ini_words::Options;
use std::alloc::{AllocError, Global};
use std::io::Write;

/// How a run ended.
#[derive(Debug, Drop)]
pub enum Outcome {
    /// What is to be written: what a command asks of the document, or the file's bytes with an edit made.
    Done(Vec<u8>),
    /// The pair or the section that the command names is not there.
    NotFound,
    /// The words are none of the program's; nothing was read.
    Usage,
    /// The text, its bytes, a device or the memory refused, or what is to be written wouldn't be read back.
    Refused(EditError),
    /// A file isn't of its encoding, or what is to be written can't be in it.
    Coding(CodingError),
}

/// What is refused of a file, and how the run ends.
impl From<FileError> for Outcome {
    ghost use Rattle.ini_file.specs.Runs.{outcome_of};

    ghost from_gives = { λ refused o. o ≡ outcome_of refused };

    fn from(refused: FileError) -> Outcome {
        match refused {
            FileError::Text(refused) => Outcome::from(refused),
            FileError::Coding(refused) => Outcome::Coding(refused),
        }
    }
}

impl From<Error> for Outcome {
    ghost use Rattle.ini_file.specs.declared.run.Outcome.TheVariants.{Refused};
    ghost use Rattle.ini_edit.specs.declared.error.EditError.TheVariants.{Text};

    ghost from_gives = { λ refused o. o ≡ Refused (Text refused) };

    fn from(refused: Error) -> Outcome {
        Outcome::Refused(EditError::Text(refused))
    }
}

/// The exit status: 0 done, 1 not found, 2 usage or words that can't be written, 3 a refused text, or one
/// that has no place for a line, 4 a device that failed or memory that was refused.
pub fn status(outcome: &Outcome) -> u8
    ensures { result ≡ status_of outcome.now }
{
    match outcome {
        Outcome::Done(_) => 0,
        Outcome::NotFound => 1,
        Outcome::Usage => 2,
        Outcome::Refused(EditError::Text(Error::Parse(_) | Error::NotUtf8)) => 3,
        Outcome::Refused(EditError::Text(Error::Io(_) | Error::Memory(_) | Error::NoProgress)) => 4,
        Outcome::Refused(EditError::NoPlace) => 3,
        Outcome::Coding(CodingError::Malformed { .. }) => 3,
        Outcome::Coding(CodingError::NoBytes { .. }) => 2,
        Outcome::Refused(
            EditError::Name | EditError::Key | EditError::Value | EditError::Separator,
        ) => 2,
    }
}

/// What a command makes of a file's bytes: what it asks of their document, or they themselves with its edit
/// made in their text. A mark (EF BB BF) at their front is no part of the text; an edit keeps it.
///
/// An answer in a manner of its own has a function of its own. `NotUtf8` is reported before any fault of the
/// words or of the text. Nothing but `Done` has anything to be written.
pub fn run(alloc: Global, asked: Invocation<'_>, input: &[u8]) -> Outcome
    ensures { EndsOn input.now (asks_of asked.entry) result }
{
    let (byte_order_mark, text) = match text_of(input) {
        Ok(parts) => parts,
        Err(refused) => return Outcome::from(refused),
    };
    let options = asked.options;
    let separator = Some(asked.separator());
    let made = match asked.command {
        Command::Rewrite => rewrite(alloc, options, separator, text),
        Command::Ask(question) => ask(alloc, options, separator, question, text),
        Command::Change(edit) => {
            let rule = asked.dialect.lookup;
            change(alloc, rule, options, separator, edit, byte_order_mark, text)
        }
        Command::Further(edit) => {
            let rule = asked.dialect.lookup;
            change_further(alloc, rule, options, separator, edit, byte_order_mark, text)
        }
    };
    match made {
        Ok(Some(bytes)) => Outcome::Done(bytes),
        Ok(None) => Outcome::NotFound,
        Err(refused) => Outcome::Refused(refused),
    }
}

/// A text's document, written anew. A separator that wouldn't be read back is refused, whatever the text is.
pub(crate) fn rewrite(
    alloc: Global,
    options: Options,
    separator: Option<&str>,
    text: &str,
) -> Result<Option<Vec<u8>>, EditError>
    ensures answered { IfOk result
        (IsAnsweredAs options (word_of separator.entry) Rewrite (chars text.now)) }
    ensures refused { IfErr result (RefusesQuestion options (word_of separator.entry) (chars text.now)) }
{
    if !separates(separator) {
        return Err(EditError::Separator);
    }
    let option = writing(alloc, options, separator)?;
    let document = Ini::load_from_str_opt(alloc, text, options.reading)?;
    let mut bytes = Vec::new(alloc);
    // Bytes in memory are refused only when out of memory.
    if document.write_to_opt(&mut bytes, option).is_err() {
        return Err(EditError::Text(Error::Memory(AllocError)));
    }
    Ok(Some(bytes))
}

// What a question is answered of a text's document, which borrows the text; `None` where what it asks for
// isn't there. The rest is as `rewrite` has it.
fn ask(
    alloc: Global,
    options: Options,
    separator: Option<&str>,
    question: Question<'_>,
    text: &str,
) -> Result<Option<Vec<u8>>, EditError>
    ensures answered { IfOk result
        (IsAnsweredAs options (word_of separator.entry) (asking_of question.entry) (chars text.now)) }
    ensures refused { IfErr result (RefusesQuestion options (word_of separator.entry) (chars text.now)) }
{
    if !separates(separator) {
        return Err(EditError::Separator);
    }
    let option = writing(alloc, options, separator)?;
    let document = View::load_from_str_opt(alloc, text, options.reading)?;
    let mut bytes = Vec::new(alloc);
    match answer_to(alloc, question, &document, option, &mut bytes) {
        Ok(true) => Ok(Some(bytes)),
        Ok(false) => Ok(None),
        Err(_) => Err(EditError::Text(Error::Memory(AllocError))),
    }
}

// The answer to a writer that is not watched yet.
fn answer_to<W: Write>(
    alloc: Global,
    question: Question<'_>,
    document: &View<'_>,
    option: WriteOption,
    writer: &mut W,
) -> Result<bool, Error>
    ensures found { IfOk result
        (λ found. found ≡ is_some (output option (asking_of question.entry) document.now)) }
    ensures written { OnOk result (IsWrittenTo W.contents writer.old writer.new
        (unwrap_or (output option (asking_of question.entry) document.now) [])) }
{
    answer(alloc, question, document, option, &mut Watched::new(writer))
}

// The usage line.
fn usage() -> &'static str
    ensures { result.now ≡ usage_line }
{
    USAGE
}

/// Prints how a run over a file ended, where there is something to say: the usage; or the program's name, the
/// file, if there is one, and the refusal. Control characters of the file's name are printed as escapes. A
/// fault of the writer is dropped.
pub fn tell<W: Write>(file: &str, outcome: &Outcome, err: &mut W)
    ensures quiet { (IsDone outcome.now ⊎ IsNotFound outcome.now) → err.new ≡ err.old }
    ensures usage { IsUsage outcome.now → AppendsFront (W.contents err.old) (W.contents err.new) usage_line }
{
    match outcome {
        Outcome::Done(_) | Outcome::NotFound => {}
        Outcome::Usage => {
            let _ = write_raw(usage(), &mut Watched::new(err));
        }
        Outcome::Coding(refusal) => {
            let file = Shown(file);
            let _ = writeln!(err, "{file}:{refusal}");
        }
        Outcome::Refused(refusal) if file == "" => {
            let _ = writeln!(err, "ini_file: {refusal}");
        }
        Outcome::Refused(refusal) => {
            let file = Shown(file);
            let _ = writeln!(err, "ini_file: {file}: {refusal}");
        }
    }
}
