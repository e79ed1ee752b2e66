//! Texts on their way to a device. This file knows no pair and no section.
ghost use Rattle.std.specs.Prelude.{◌++◌, ◌∷◌, [], chars};
ghost use Rattle.ini_text.specs.Device.Gathering.{Sends};
ghost use Rattle.ini_text.specs.Device.Watched.{IsClear};
ghost use Rattle.ini_text.specs.Grammar.Places.{separator_text};

use ini_text::{Error, Gatherer, Watched};
use std::io::Write;

/// Sends two texts as they are.
pub(crate) fn put_both<W: Write>(
    lines: &mut Gatherer,
    first: &str,
    second: &str,
    out: &mut Watched<'_, W>,
) -> Result<(), Error>
    requires { IsClear out.old }
    ensures { Sends W.contents out.old out.new lines.old lines.new result
        (chars first.now ++ chars second.now) }
{
    lines.put(first, out)?;
    lines.put(second, out)
}

/// Sends a text as it is, and a character after it, if there is one.
pub(crate) fn put_before<W: Write>(
    lines: &mut Gatherer,
    text: &str,
    c: Option<char>,
    out: &mut Watched<'_, W>,
) -> Result<(), Error>
    requires { IsClear out.old }
    ensures { Sends W.contents out.old out.new lines.old lines.new result
        (chars text.now ++ separator_text c) }
{
    match c {
        Some(c) => put_before_character(lines, text, c, out),
        None => lines.put(text, out),
    }
}

// Sends a text as it is, and a character after it.
fn put_before_character<W: Write>(
    lines: &mut Gatherer,
    text: &str,
    c: char,
    out: &mut Watched<'_, W>,
) -> Result<(), Error>
    requires { IsClear out.old }
    ensures { Sends W.contents out.old out.new lines.old lines.new result (chars text.now ++ c ∷ []) }
{
    let mut buffer = [0; 4];
    put_both(lines, text, c.encode_utf8(&mut buffer), out)
}
