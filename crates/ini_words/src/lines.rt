//! The lines that the programs write of a document. This file knows no word and no reader.
//!
//! Each call answers whether what it writes is there, and its errors are these: `Io` where the writer answers
//! a fault, `NoProgress` where it takes no bytes. A front was written then.
ghost use Rattle.std.specs.Prelude.{Some, chars, encode_utf8_all, flat_map};
ghost use Rattle.std.specs.Option.{option_map};
ghost use Rattle.ini_text.specs.Device.Gathering.{Sends};
ghost use Rattle.ini_text.specs.Device.Watched.{IsClear, WritesBytes};
ghost use Rattle.ini.specs.Texts.{str_name};
ghost use Rattle.ini_words.specs.Lines.{entries_of_keys, entry, key_entries, listed_pairs, listed_pair, name_entries};
ghost use Rattle.ini_words.specs.Lines.{lent_name_entry, name_entry, text_entry};
ghost use Rattle.ini_words.specs.Prints.{Prints, part_text};

mod form;
mod parts;

use crate::lines::parts::{put_entry, put_parts};
pub use form::Form;
use ini::{Error, Gatherer, Watched};
use ini_view::{View, ViewSection};
use std::io::Write;

/// Writes each pair: its section's name in brackets, the key and the value. The answer is `true`.
pub fn list<W: Write>(
    document: &View<'_>,
    form: Form,
    out: &mut Watched<'_, W>,
) -> Result<bool, Error>
    requires { IsClear out.old }
    ensures { Prints W.contents out.old out.new result (Some (listed_pairs form document.now)) }
{
    write_listed(document, form, out)?;
    Ok(true)
}

// Each pair of each section, written as the sections are gone over.
fn write_listed<W: Write>(
    document: &View<'_>,
    form: Form,
    out: &mut Watched<'_, W>,
) -> Result<(), Error>
    requires { IsClear out.old }
    ensures { WritesBytes W.contents out.old out.new result
        (encode_utf8_all (listed_pairs form document.now)) }
{
    let mut lines = Gatherer::new();
    list_sections(&mut lines, form, document, out)?;
    lines.flush(out)
}

// Each pair of each section.
fn list_sections<W: Write>(
    lines: &mut Gatherer,
    form: Form,
    document: &View<'_>,
    out: &mut Watched<'_, W>,
) -> Result<(), Error>
    requires { IsClear out.old }
    ensures { Sends W.contents out.old out.new lines.old lines.new result
        (listed_pairs form document.now) }
{
    for (name, pairs) in document {
        list_pairs(lines, form, name, pairs, out)?;
    }
    Ok(())
}

// Each pair of a section.
fn list_pairs<W: Write>(
    lines: &mut Gatherer,
    form: Form,
    name: Option<&str>,
    pairs: &ViewSection<'_>,
    out: &mut Watched<'_, W>,
) -> Result<(), Error>
    requires { IsClear out.old }
    ensures { Sends W.contents out.old out.new lines.old lines.new result
        (flat_map (listed_pair form (str_name name.entry)) pairs.now) }
{
    for (key, value) in pairs {
        list_pair(lines, form, name, key, value, out)?;
    }
    Ok(())
}

// A pair.
fn list_pair<'a, W: Write>(
    lines: &mut Gatherer,
    form: Form,
    name: Option<&'a str>,
    key: &'a str,
    value: &'a str,
    out: &mut Watched<'_, W>,
) -> Result<(), Error>
    requires { IsClear out.old }
    ensures { Sends W.contents out.old out.new lines.old lines.new result
        (listed_pair form (str_name name.entry) (chars key.now, chars value.now)) }
{
    let (between, end) = (form.between(), form.end());
    match name {
        Some(name) => {
            let parts = [
                ("", "["),
                (name, "]"),
                ("", between),
                (key, between),
                (value, end),
            ];
            put_parts(lines, form, &parts, out)
        }
        None => put_parts(
            lines,
            form,
            &[("", between), (key, between), (value, end)],
            out,
        ),
    }
}

/// Writes each distinct name of a section, in the order of first occurrence. The general section has no name.
/// The answer is `true`.
pub fn sections<W: Write>(
    document: &View<'_>,
    form: Form,
    out: &mut Watched<'_, W>,
) -> Result<bool, Error>
    requires { IsClear out.old }
    ensures { Prints W.contents out.old out.new result (Some (name_entries form document.now)) }
{
    write_names(document, form, out)?;
    Ok(true)
}

// Each name.
fn write_names<W: Write>(
    document: &View<'_>,
    form: Form,
    out: &mut Watched<'_, W>,
) -> Result<(), Error>
    requires { IsClear out.old }
    ensures { WritesBytes W.contents out.old out.new result
        (encode_utf8_all (name_entries form document.now)) }
{
    let mut lines = Gatherer::new();
    put_names(&mut lines, form, document, out)?;
    lines.flush(out)
}

// Each name.
fn put_names<W: Write>(
    lines: &mut Gatherer,
    form: Form,
    document: &View<'_>,
    out: &mut Watched<'_, W>,
) -> Result<(), Error>
    requires { IsClear out.old }
    ensures { Sends W.contents out.old out.new lines.old lines.new result
        (name_entries form document.now) }
{
    for name in document.sections() {
        put_name(lines, form, name, out)?;
    }
    Ok(())
}

// A name.
fn put_name<W: Write>(
    lines: &mut Gatherer,
    form: Form,
    name: Option<&str>,
    out: &mut Watched<'_, W>,
) -> Result<(), Error>
    requires { IsClear out.old }
    ensures { Sends W.contents out.old out.new lines.old lines.new result
        (name_entry form (str_name name.entry)) }
{
    match name {
        Some(name) => put_entry(lines, form, name, out),
        None => put_parts(lines, form, &[], out),
    }
}

/// Writes the names, in order. The general section has no name. The answer is `true`.
pub fn names<W: Write>(
    names: &[Option<&str>],
    form: Form,
    out: &mut Watched<'_, W>,
) -> Result<bool, Error>
    requires { IsClear out.old }
    ensures { Prints W.contents out.old out.new result
        (Some (flat_map (lent_name_entry form) names.now)) }
{
    write_given_names(names, form, out)?;
    Ok(true)
}

// The names.
fn write_given_names<W: Write>(
    names: &[Option<&str>],
    form: Form,
    out: &mut Watched<'_, W>,
) -> Result<(), Error>
    requires { IsClear out.old }
    ensures { WritesBytes W.contents out.old out.new result
        (encode_utf8_all (flat_map (lent_name_entry form) names.now)) }
{
    let mut lines = Gatherer::new();
    put_given_names(&mut lines, form, names, out)?;
    lines.flush(out)
}

// The names.
fn put_given_names<W: Write>(
    lines: &mut Gatherer,
    form: Form,
    names: &[Option<&str>],
    out: &mut Watched<'_, W>,
) -> Result<(), Error>
    requires { IsClear out.old }
    ensures { Sends W.contents out.old out.new lines.old lines.new result
        (flat_map (lent_name_entry form) names.now) }
{
    for name in names {
        put_name(lines, form, *name, out)?;
    }
    Ok(())
}

/// Writes the key of each pair in the first section of the name. Where there is no such section, the answer
/// is `false`, and nothing is written.
pub fn keys<W: Write>(
    document: &View<'_>,
    section: Option<&str>,
    form: Form,
    out: &mut Watched<'_, W>,
) -> Result<bool, Error>
    requires { IsClear out.old }
    ensures { Prints W.contents out.old out.new result
        (key_entries form (str_name section.entry) document.now) }
{
    let Some(pairs) = document.section(section) else {
        return Ok(false);
    };
    write_keys(pairs, form, out)?;
    Ok(true)
}

// Each key.
fn write_keys<W: Write>(
    pairs: &ViewSection<'_>,
    form: Form,
    out: &mut Watched<'_, W>,
) -> Result<(), Error>
    requires { IsClear out.old }
    ensures { WritesBytes W.contents out.old out.new result
        (encode_utf8_all (entries_of_keys form pairs.now)) }
{
    let mut lines = Gatherer::new();
    put_keys(&mut lines, form, pairs, out)?;
    lines.flush(out)
}

// Each key.
fn put_keys<W: Write>(
    lines: &mut Gatherer,
    form: Form,
    pairs: &ViewSection<'_>,
    out: &mut Watched<'_, W>,
) -> Result<(), Error>
    requires { IsClear out.old }
    ensures { Sends W.contents out.old out.new lines.old lines.new result
        (entries_of_keys form pairs.now) }
{
    for (key, _) in pairs {
        put_entry(lines, form, key, out)?;
    }
    Ok(())
}

/// Writes a value, where there is one; the answer is whether there is.
pub fn value<W: Write>(
    value: Option<&str>,
    form: Form,
    out: &mut Watched<'_, W>,
) -> Result<bool, Error>
    requires { IsClear out.old }
    ensures { Prints W.contents out.old out.new result
        (option_map (entry form) (str_name value.entry)) }
{
    let Some(value) = value else {
        return Ok(false);
    };
    write_entry(value, form, out)?;
    Ok(true)
}

// A text alone.
fn write_entry<W: Write>(text: &str, form: Form, out: &mut Watched<'_, W>) -> Result<(), Error>
    requires { IsClear out.old }
    ensures { WritesBytes W.contents out.old out.new result
        (encode_utf8_all (entry form (chars text.now))) }
{
    let mut lines = Gatherer::new();
    put_entry(&mut lines, form, text, out)?;
    lines.flush(out)
}

/// Writes the texts, in order, each with its end. The answer is `true`.
pub fn entries<W: Write>(
    texts: &[&str],
    form: Form,
    out: &mut Watched<'_, W>,
) -> Result<bool, Error>
    requires { IsClear out.old }
    ensures { Prints W.contents out.old out.new result
        (Some (flat_map (text_entry form) texts.now)) }
{
    write_entries(texts, form, out)?;
    Ok(true)
}

// Each text.
fn write_entries<W: Write>(
    texts: &[&str],
    form: Form,
    out: &mut Watched<'_, W>,
) -> Result<(), Error>
    requires { IsClear out.old }
    ensures { WritesBytes W.contents out.old out.new result
        (encode_utf8_all (flat_map (text_entry form) texts.now)) }
{
    let mut lines = Gatherer::new();
    put_entries(&mut lines, form, texts, out)?;
    lines.flush(out)
}

// Each text.
fn put_entries<W: Write>(
    lines: &mut Gatherer,
    form: Form,
    texts: &[&str],
    out: &mut Watched<'_, W>,
) -> Result<(), Error>
    requires { IsClear out.old }
    ensures { Sends W.contents out.old out.new lines.old lines.new result
        (flat_map (text_entry form) texts.now) }
{
    for text in texts {
        put_entry(lines, form, text, out)?;
    }
    Ok(())
}

/// Writes texts in the form, and after each another as it is.
pub fn write_parts<W: Write>(
    parts: &[(&str, &str)],
    form: Form,
    out: &mut Watched<'_, W>,
) -> Result<(), Error>
    requires { IsClear out.old }
    ensures { WritesBytes W.contents out.old out.new result
        (encode_utf8_all (flat_map (part_text form) parts.now)) }
{
    let mut lines = Gatherer::new();
    put_parts(&mut lines, form, parts, out)?;
    lines.flush(out)
}
