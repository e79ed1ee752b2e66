//! What a text says that its writer may not have meant.
use ini::{Error, ParseOption};
use ini_check::check;
use std::alloc::Global;

/// The warnings of a text, a line for each, with its place.
pub fn warnings(alloc: Global, text: &str) -> Result<String, Error> {
    let mut reported = String::new(alloc);
    for warning in check(alloc, text, ParseOption::default())? {
        reported.push_str(format!(in alloc; "{warning}\n")?.as_str())?;
    }
    Ok(reported)
}
