//! Telling a user where a text is wrong.
use ini::{Error, Ini, ParseKind};
use std::alloc::Global;

/// What is said of a text: that it is well, or the line, the column and the reason of its refusal.
pub fn reported(alloc: Global, text: &str) -> Result<String, Error> {
    let reported = match Ini::load_from_str(alloc, text) {
        Ok(document) => format!(in alloc; "{} sections", document.len())?,
        Err(Error::Parse(fault)) => match fault.kind {
            ParseKind::MissingKey => format!(in alloc;
                "line {}: a value without a key",
                fault.line
            )?,
            _ => format!(in alloc; "line {}, column {}: {}", fault.line, fault.col, fault.msg)?,
        },
        Err(other) => return Err(other),
    };
    Ok(reported)
}
