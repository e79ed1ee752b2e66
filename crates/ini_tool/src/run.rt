//! The program as a function of its words and of two devices. This file knows how a run ends, and what is
//! reported of it.
ghost use Rattle.std.specs.Prelude.{◌≡◌, ◌+◌, ◌↔◌, ◌⊎◌, IfErr, IfOk, IfSome, None, true};
ghost use Rattle.ini_text.specs.Device.Watched.{AppendsFront, IsClear, SameDevice};
ghost use Rattle.ini_text.specs.Device.Watched.{device_now, failure_count, stall_count};
ghost use Rattle.ini_text.specs.Parsing.ByteOrderMarks.{text_bytes};
ghost use Rattle.ini.specs.Loading.{IfParse, IsDocumentOf, IsNotUtf8, IsStopOf, IsTextWith};
ghost use Rattle.ini.specs.Inside.ReadBytes.{IsTextRefusal};
ghost use Rattle.ini_tool.specs.Runs.{IsDone, IsNotFound, IsUsage, OnNotUtf8, OnParse, OnSilent};
ghost use Rattle.ini_tool.specs.Runs.{IsOutput, IsStop, IsText, WritesOutput, WritesOutputFront};
ghost use Rattle.ini_tool.specs.Runs.{asked_by, failures_of, outcome_of, stalls_of, status_of, usage_line};

use crate::command::{answer, write};
use crate::reading::read_all;
use crate::words::{Command, USAGE, parse};
use ini::{Error, Ini, ParseOption, Watched, write_raw};
use ini_view::View;
use std::alloc::Global;
use std::io::{Read, Write};
use std::mem;

/// How a run ended.
#[derive(Debug, Drop)]
pub enum Outcome {
    /// What the command asks of the document was written.
    Done,
    /// The pair that `get` or `del` names is not there; nothing was written.
    NotFound,
    /// The words are none of the program's; nothing was read, and nothing was written.
    Usage,
    /// The text, its bytes, a device or the memory refused.
    Refused(Error),
}

/// The exit status: 0 done, 1 not found, 2 usage, 3 a refused text, 4 a device that failed or memory that
/// was refused.
pub fn status(outcome: &Outcome) -> u8
    ensures { result ≡ status_of outcome.now }
{
    match outcome {
        Outcome::Done => 0,
        Outcome::NotFound => 1,
        Outcome::Usage => 2,
        Outcome::Refused(Error::Parse(_) | Error::NotUtf8) => 3,
        Outcome::Refused(Error::Io(_) | Error::Memory(_) | Error::NoProgress) => 4,
    }
}

/// Reads a document as the words' options say, and writes what their command asks of it. A mark (EF BB BF)
/// at the front of the input is dropped.
///
/// Words that are none of the program's are `Usage`, before anything is read. `Usage`, `NotFound`, a
/// refused text, a reader that failed and a lack of memory have written nothing; where the writer failed, a
/// front of what is asked for was written.
pub fn run<R: Read, W: Write>(
    alloc: Global,
    words: &[String],
    reader: &mut Watched<'_, R>,
    writer: &mut Watched<'_, W>,
) -> Outcome
    requires reader { IsClear reader.old }
    requires writer { IsClear writer.old }
    ensures same_reader { SameDevice reader.old reader.new }
    ensures same_writer { SameDevice writer.old writer.new }
    ensures usage { IsUsage result ↔ (asked_by words.now ≡ None) }
    ensures usage_reads_nothing { IsUsage result → device_now reader.new ≡ device_now reader.old }

    // What is read decides what is written, and which refusal is reported.
    ensures done { IsDone result
        → WritesOutput W.contents words.now (R.remaining (device_now reader.old)) writer.old writer.new }
    ensures not_found { IsNotFound result
        → IfSome (R.remaining (device_now reader.old)) (λ bytes. IsOutput words.now bytes None) }
    ensures fault { OnParse result
        (λ e. IfSome (R.remaining (device_now reader.old)) (IsStop words.now e)) }
    ensures not_utf8 { OnNotUtf8 result
        (IfSome (R.remaining (device_now reader.old)) (λ bytes. ¬ (IsText bytes))) }

    // Otherwise nothing is written, and where the writer failed a front.
    ensures silent { OnSilent result (device_now writer.new ≡ device_now writer.old) }
    ensures reader_failed { failure_count reader.new ≡ 1 → device_now writer.new ≡ device_now writer.old }
    ensures front { failure_count writer.new + stall_count writer.new ≡ 1
        → WritesOutputFront W.contents words.now (R.remaining (device_now reader.old))
        writer.old writer.new }

    // A device's fault is reported, and no call follows it.
    ensures failures { failure_count reader.new + failure_count writer.new ≡ failures_of result }
    ensures stalls { stall_count writer.new ≡ stalls_of result }
    ensures reader_stalls { stall_count reader.new ≡ 0 }
{
    let Some((options, command)) = parse(words) else {
        return Outcome::Usage;
    };
    let option = options.write_option();
    match command {
        Command::Ask(question) => {
            let bytes = match read_all(alloc, reader) {
                Ok(bytes) => bytes,
                Err(refusal) => return Outcome::Refused(refusal),
            };
            match view_of(alloc, bytes.as_slice(), options.reading) {
                Ok(document) => {
                    let answered = answer(question, &document, option, writer);
                    mem::forget(document);
                    outcome_of(answered)
                }
                Err(refusal) => Outcome::Refused(refusal),
            }
        }
        Command::Write(change) => match Ini::read_watched(alloc, reader, options.reading, true) {
            Ok(document) => outcome_of(write(change, alloc, document, option, writer)),
            Err(refusal) => Outcome::Refused(refusal),
        },
    }
}

// The document of the bytes; a mark at their front is dropped.
fn view_of<'a>(alloc: Global, bytes: &'a [u8], reading: ParseOption) -> Result<View<'a>, Error>
    ensures document { IfOk result
        (λ view. IsTextWith (λ T. IsDocumentOf reading T view) (text_bytes true bytes.now)) }
    ensures fault { IfParse result
        (λ stop. IsTextWith (λ T. IsStopOf reading T stop) (text_bytes true bytes.now)) }
    ensures not_utf8 { IsNotUtf8 result → ¬ (IsText bytes.now) }
    ensures only { IfErr result IsTextRefusal }
{
    View::load_from_bytes(alloc, bytes, reading, true)
}

// How a run ends whose command has answered.
fn outcome_of(answered: Result<bool, Error>) -> Outcome
    ensures { result ≡ outcome_of answered }
{
    match answered {
        Ok(true) => Outcome::Done,
        Ok(false) => Outcome::NotFound,
        Err(refusal) => Outcome::Refused(refusal),
    }
}

// The usage line.
fn usage() -> &'static str
    ensures { result.now ≡ usage_line }
{
    USAGE
}

/// Prints how a run ended, where there is something to say: the usage, or the program's name and the
/// refusal. A fault of the writer is dropped.
pub fn tell<W: Write>(outcome: &Outcome, err: &mut W)
    ensures quiet { (IsDone outcome.now ⊎ IsNotFound outcome.now) → err.new ≡ err.old }
    ensures usage { IsUsage outcome.now → AppendsFront (W.contents err.old) (W.contents err.new) usage_line }
{
    match outcome {
        Outcome::Done | Outcome::NotFound => {}
        Outcome::Usage => {
            let _ = write_raw(usage(), &mut Watched::new(err));
        }
        Outcome::Refused(refusal) => {
            let _ = writeln!(err, "ini_tool: {refusal}");
        }
    }
}
