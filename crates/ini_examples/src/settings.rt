//! Looking up one value, and setting two keys of a section.
use ini::{Error, Ini, ParseOption, WriteOption};
use std::alloc::Global;

/// The port that a text sets, if it sets one.
pub fn port(alloc: Global, text: &str) -> Result<Option<u16>, Error> {
    let document = Ini::load_from_str(alloc, text)?;
    let port = document
        .get_from(None, "port")
        .and_then(|value| value.parse().ok());
    Ok(port)
}

/// Sets two keys of a section; the rest of the document stays as it is.
pub fn move_paths(document: &mut Ini, log: &str, cache: &str) -> Result<(), Error> {
    document
        .with_section(Some("paths"))
        .set("log", log)?
        .set("cache", cache)?;
    Ok(())
}

/// Whether the settings, once saved, load again as they are.
pub fn is_safe_to_save(document: &Ini) -> bool {
    document.is_plain(&WriteOption::default(), ParseOption::default())
}

/// The text with its paths moved.
pub fn moved(alloc: Global, text: &str, log: &str, cache: &str) -> Result<String, Error> {
    let mut document = Ini::load_from_str(alloc, text)?;
    move_paths(&mut document, log, cache)?;
    written(alloc, &document)
}

/// The document's text in memory.
pub fn written(alloc: Global, document: &Ini) -> Result<String, Error> {
    document.to_text(alloc, WriteOption::default())
}
