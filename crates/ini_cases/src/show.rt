//! Documents and refusals as texts.
//!
//! A section is shown as its name in brackets, or `general`, and a colon; each of its pairs follows as `
//! <key|value>`.
use crate::view::is_same;
use ini::{Error, Ini, ParseOption, Properties, WriteOption};
use std::alloc::Global;

/// Puts the parts last, one after another.
pub fn put(out: &mut String, parts: &[&str]) -> Result<(), Error> {
    for part in parts {
        out.push_str(part)?;
    }
    Ok(())
}

/// The pairs in order.
pub fn pairs(alloc: Global, properties: &Properties) -> Result<String, Error> {
    let mut out = String::new(alloc);
    for (key, value) in properties {
        put(&mut out, &[" <", key, "|", value, ">"])?;
    }
    Ok(out)
}

// Puts a section last.
fn put_section(
    alloc: Global,
    out: &mut String,
    name: Option<&str>,
    section: &Properties,
) -> Result<(), Error> {
    let pairs = pairs(alloc, section)?;
    match name {
        None => put(out, &["general:", pairs.as_str(), " "]),
        Some(name) => put(out, &["[", name, "]:", pairs.as_str(), " "]),
    }
}

/// The sections in order, one after another.
pub fn sections(alloc: Global, document: &Ini) -> Result<String, Error> {
    let mut out = String::new(alloc);
    for (name, section) in document {
        put_section(alloc, &mut out, name, section)?;
    }
    Ok(out)
}

/// The document's sections, or the refusal: its kind, line and column where the text is refused, else what
/// it prints.
pub fn loaded(alloc: Global, answer: Result<Ini, Error>) -> Result<String, Error> {
    match answer {
        Ok(document) => sections(alloc, &document),
        Err(Error::Parse(fault)) => Ok(format!(in alloc;
            "{:?} at {}:{}",
            fault.kind, fault.line, fault.col
        )?),
        Err(other) => Ok(other.to_string(alloc)?),
    }
}

/// What loading the text by the options shows, where a view of the text answers the same.
pub fn load(alloc: Global, text: &str, read: ParseOption) -> Result<String, Error> {
    let answer = Ini::load_from_str_opt(alloc, text, read);
    if is_same(alloc, text, read, &answer)? {
        loaded(alloc, answer)
    } else {
        Ok(String::from_str(alloc, "the view answers something else")?)
    }
}

/// The text that is written of a document.
pub fn written(alloc: Global, document: &Ini, option: WriteOption) -> Result<String, Error> {
    let mut taken: Vec<u8> = Vec::new(alloc);
    document.write_to_opt(&mut taken, option)?;
    match String::from_utf8(taken) {
        Ok(text) => Ok(text),
        Err(_) => Err(Error::NotUtf8),
    }
}

/// An answer that is yes or no.
pub fn flag(alloc: Global, yes: bool) -> Result<String, Error> {
    Ok(String::from_str(alloc, if yes { "yes" } else { "no" })?)
}

/// The answer of a call that gives nothing, once it was made.
pub fn nothing(alloc: Global, made: Result<(), Error>) -> Result<String, Error> {
    match made {
        Ok(()) => Ok(String::new(alloc)),
        Err(refused) => Err(refused),
    }
}

/// A value, or `none`.
pub fn value(alloc: Global, value: Option<&str>) -> Result<String, Error> {
    Ok(String::from_str(alloc, value.unwrap_or("none"))?)
}
