//! What an entry is put together from: texts in their form, and after each another as it is. This file knows
//! no document.
ghost use Rattle.std.specs.Prelude.{◌++◌, chars, flat_map};
ghost use Rattle.ini_text.specs.Device.Gathering.{Sends};
ghost use Rattle.ini_text.specs.Device.Watched.{IsClear};
ghost use Rattle.ini_words.specs.Lines.{entry, text_in};
ghost use Rattle.ini_words.specs.Prints.{part_text};

use crate::lines::form::Form;
use ini::{Error, EscapePolicy, Gatherer, Watched};
use std::io::Write;

// A text, and what ends it.
pub(crate) fn put_entry<W: Write>(
    lines: &mut Gatherer,
    form: Form,
    text: &str,
    out: &mut Watched<'_, W>,
) -> Result<(), Error>
    requires { IsClear out.old }
    ensures { Sends W.contents out.old out.new lines.old lines.new result
        (entry form (chars text.now)) }
{
    put_part(lines, form, text, form.end(), out)
}

// Texts in the form, and after each another as it is.
pub(crate) fn put_parts<W: Write>(
    lines: &mut Gatherer,
    form: Form,
    parts: &[(&str, &str)],
    out: &mut Watched<'_, W>,
) -> Result<(), Error>
    requires { IsClear out.old }
    ensures { Sends W.contents out.old out.new lines.old lines.new result
        (flat_map (part_text form) parts.now) }
{
    for (text, following) in parts {
        put_part(lines, form, text, following, out)?;
    }
    Ok(())
}

// A text in the form, and another as it is after it.
fn put_part<W: Write>(
    lines: &mut Gatherer,
    form: Form,
    text: &str,
    following: &str,
    out: &mut Watched<'_, W>,
) -> Result<(), Error>
    requires { IsClear out.old }
    ensures { Sends W.contents out.old out.new lines.old lines.new result
        (text_in form (chars text.now) ++ chars following.now) }
{
    put_text(lines, form, text, out)?;
    lines.put(following, out)
}

// A text in the form.
fn put_text<W: Write>(
    lines: &mut Gatherer,
    form: Form,
    text: &str,
    out: &mut Watched<'_, W>,
) -> Result<(), Error>
    requires { IsClear out.old }
    ensures { Sends W.contents out.old out.new lines.old lines.new result
        (text_in form (chars text.now)) }
{
    match form {
        Form::Escaped => lines.put_escaped(text, EscapePolicy::Basics, out),
        Form::AsIs => lines.put(text, out),
        Form::Null => lines.put(text, out),
    }
}
