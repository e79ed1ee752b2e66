//! Refusals that are handed on by `?`, and what is known of them then.
ghost use Rattle.std.specs.Prelude.{◌≡◌, [], chars};
ghost use Rattle.ini_text.specs.Device.Watched.{IsClear, device_now};

use ini::{Error, EscapePolicy, Ini, Properties, SectionKey, Watched, write_escaped, write_raw};
use std::alloc::Global;
use std::io;
use std::io::Write;

// The document of a text in quotes, which is refused as any other.
fn loaded(alloc: Global, text: &str) -> Result<Ini, Error> {
    let document = Ini::load_from_str(alloc, text)?;
    Ok(document)
}

/// How many lines stand before the one that is refused: lines count from one, after any number of `?`.
pub fn lines_before(alloc: Global, text: &str) -> usize {
    match loaded(alloc, text) {
        Err(Error::Parse(fault)) => fault.line - 1,
        _ => 0,
    }
}

/// How many characters of its line stand before the place that is refused.
pub fn characters_before(alloc: Global, text: &str) -> usize {
    match loaded(alloc, text) {
        Err(Error::Parse(fault)) => fault.col - 1,
        _ => 0,
    }
}

/// Writes a document in a function that answers as devices do.
pub fn save<W: Write>(document: &Ini, out: &mut W) -> io::Result<()> {
    document.write_to(out)?;
    Ok(())
}

/// The section of the name, opened where it is missing.
pub fn open<'a>(
    alloc: Global,
    document: &'a mut Ini,
    name: SectionKey,
) -> Result<&'a mut Properties, Error> {
    Ok(document.entry(name).or_insert(Properties::new(alloc))?)
}

/// Writes nothing twice: the writer is as it was.
pub fn write_nothing<W: Write>(out: &mut Watched<'_, W>) -> Result<(), Error>
    requires { IsClear out.old }
    ensures { device_now out.new ≡ device_now out.old }
{
    write_raw("", out)?;
    write_escaped("", EscapePolicy::Basics, out)?;
    Ok(())
}
