//! The number of items, or elements, of a text: parsing alone, for a measurement beside other parsers.

use crate::hex::text_of_hex;
use ini_text::{Error, ParseOption, Parser};
use std::alloc::Global;

/// How many items a text has.
pub(crate) fn items(alloc: Global, text: &str) -> Result<usize, Error> {
    let mut parser = Parser::new(alloc, text, ParseOption::default());
    let mut items: usize = 0;
    for _ in 0..u64::MAX {
        if parser.next_item()?.is_none() {
            return Ok(items);
        }
        items = items.wrapping_add(1);
    }
    Ok(items)
}

/// How many elements a text has.
pub(crate) fn elements(alloc: Global, text: &str) -> Result<usize, Error> {
    let mut parser = Parser::new(alloc, text, ParseOption::default());
    let mut elements: usize = 0;
    for _ in 0..u64::MAX {
        if parser.next_element()?.is_none() {
            return Ok(elements);
        }
        elements = elements.wrapping_add(1);
    }
    Ok(elements)
}

/// How many items a text has that stands in hexadecimal, or how it is refused.
pub(crate) fn answer(alloc: Global, digits: &str) -> Result<String, Error> {
    let text = text_of_hex(alloc, digits)?;
    match items(alloc, text.as_str()) {
        Ok(items) => Ok(format!(in alloc; "{items}")?),
        Err(Error::Parse(fault)) => Ok(format!(in alloc; "err {fault}")?),
        Err(refusal) => Err(refusal),
    }
}
