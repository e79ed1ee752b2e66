//! A general section that is still there after edits, by one law.
use ini::laws::edits;
use ini::{Error, Ini};
use std::alloc::Global;

/// The number of keys in the general section of a text, once other sections were edited.
pub fn general_keys_after(alloc: Global, text: &str) -> Result<usize, Error> {
    edits::general_stays();
    let mut document = Ini::load_from_str(alloc, text)?;
    document.with_section(Some("a")).set("k", "v")?;
    document.rename_section(Some("a"), Some("b"))?;
    document.delete_all(Some("c"));
    Ok(document.general_section().len())
}
