//! What is known of a document that was just loaded, and of a refusal.
use ini::laws::edits;
use ini::{Error, Ini};
use std::alloc::Global;
use std::io::Read;

/// The number of keys in the general section of a text: it is there.
pub fn general_keys(alloc: Global, text: &str) -> Result<usize, Error> {
    let document = Ini::load_from_str(alloc, text)?;
    Ok(document.general_section().len())
}

/// The same of a reader, whose bytes need not be known.
pub fn general_keys_of<R: Read>(alloc: Global, reader: &mut R) -> Result<usize, Error> {
    let mut document = Ini::read_from(alloc, reader)?;
    edits::lent_is_there();
    document.general_section_mut().append("loaded", "yes")?;
    Ok(document[None].len())
}
