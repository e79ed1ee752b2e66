//! What loading a text gives, or what is written of it then, for a comparison with another program for INI
//! files.
//!
//! A question is five flags (`options.rt`), a space, and the UTF-8 of a text in hexadecimal. The answer has
//! names, keys and values in hexadecimal too: `ok`, and then ` G` for the general section or ` S` and the
//! name for any other, each followed by ` KEY=VALUE` for every pair; or `err`, and the refusal as it prints.
//!
//! Where an escape policy by its name, a space, a line end (`LF` or `CRLF`) and a space stand in front of
//! that, the answer is `written`, a space, and in hexadecimal what the loaded document is written as under
//! the two; or the same refusal.
mod question;

use crate::answers::question::Question;
use crate::hex::push_hex;
use ini::{Error, Ini, Properties, WriteOption};
use std::alloc::Global;

fn push_section(
    line: &mut String,
    name: Option<&str>,
    properties: &Properties,
) -> Result<(), Error> {
    match name {
        None => line.push_str(" G")?,
        Some(name) => {
            line.push_str(" S")?;
            push_hex(line, name.as_bytes())?;
        }
    }
    for (key, value) in properties.iter() {
        line.push(' ')?;
        push_hex(line, key.as_bytes())?;
        line.push('=')?;
        push_hex(line, value.as_bytes())?;
    }
    Ok(())
}

fn document_line(alloc: Global, document: &Ini) -> Result<String, Error> {
    let mut line = String::from_str(alloc, "ok")?;
    for (name, properties) in document.iter() {
        push_section(&mut line, name, properties)?;
    }
    Ok(line)
}

fn written_line(alloc: Global, document: &Ini, option: WriteOption) -> Result<String, Error> {
    let mut written: Vec<u8> = Vec::new(alloc);
    document.write_to_opt(&mut written, option)?;
    let mut line = String::from_str(alloc, "written ")?;
    push_hex(&mut line, written.as_slice())?;
    Ok(line)
}

/// The answer to a question, without a line end.
pub(crate) fn answer(alloc: Global, question: &str) -> Result<String, Error> {
    let question = Question::parse(alloc, question)?;
    let document = match Ini::load_from_str_opt(alloc, question.text.as_str(), question.reading) {
        Ok(document) => document,
        Err(Error::Parse(fault)) => return Ok(format!(in alloc; "err {fault}")?),
        Err(refusal) => return Err(refusal),
    };
    match question.writing {
        None => document_line(alloc, &document),
        Some(option) => written_line(alloc, &document, option),
    }
}
