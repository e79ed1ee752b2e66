//! What each question is answered of a document. This file knows no word and no reader.
ghost use Rattle.std.specs.Prelude.{◌≡◌};
ghost use Rattle.ini_text.specs.Device.Watched.{IsClear};
ghost use Rattle.ini_file.specs.Requests.{asking_of};
ghost use Rattle.ini_file.specs.Forms.{listing_form};
ghost use Rattle.ini_file.specs.Outputs.{output};
ghost use Rattle.ini_words.specs.Prints.{Prints};

use crate::listed::{list_keys, list_names};
use crate::lookup::get;
use crate::words::Question;
use ini::{Error, Watched, WriteOption};
use ini_view::View;
use ini_words::lines::{Form, list};
use std::alloc::Global;
use std::io::Write;

/// Writes what the question asks of the document, and answers whether what it asks for was there. `option`
/// is how documents are written, which changes no answer.
pub fn answer<W: Write>(
    alloc: Global,
    question: Question<'_>,
    document: &View<'_>,
    option: WriteOption,
    out: &mut Watched<'_, W>,
) -> Result<bool, Error>
    requires { IsClear out.old }
    ensures { Prints W.contents out.old out.new result
        (output option (asking_of question.entry) document.now) }
{
    match question {
        Question::List { null } => list(document, listing_form(null), out),
        Question::Sections { rule, null, all } => {
            list_names(alloc, rule, all, document, listing_form(null), out)
        }
        Question::Keys {
            rule,
            section,
            null,
        } => { list_keys(alloc, rule, document, section, listing_form(null), out) }
        Question::Get(wanted) => get(alloc, document, wanted, out),
    }
}

// How what is listed is written.
fn listing_form(null: bool) -> Form
    ensures { result ≡ listing_form null }
{
    if null { Form::Null } else { Form::Escaped }
}
