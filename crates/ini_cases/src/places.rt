//! Questions about the elements of a text: where each stands, and the parts of its pairs.
//!
//! A pair is shown as `<key|separator|space_before|raw_value|space_after|note|trailing_lines>`, where a key
//! alone has no separator, a header as its source in braces, and what gives nothing as its source in
//! parentheses.
use ini::{Error, ParseOption};
use ini_text::{Content, PairPlaces, Parser, PlacedElement};
use std::alloc::Global;

// Shows a stretch after a mark, and puts it to those before it.
fn show_part(out: &mut String, together: &mut String, mark: char, part: &str) -> Result<(), Error> {
    out.push(mark)?;
    out.push_str(part)?;
    together.push_str(part)?;
    Ok(())
}

// Shows the stretches of a pair, and puts them together.
fn show_pair(out: &mut String, together: &mut String, places: &PairPlaces) -> Result<(), Error> {
    show_part(out, together, '<', places.key)?;
    out.push('|')?;
    if let Some(separator) = places.separator {
        out.push(separator)?;
        together.push(separator)?;
    }
    for part in [
        places.space_before,
        places.raw_value,
        places.space_after,
        places.note,
        places.trailing_lines,
    ] {
        show_part(out, together, '|', part)?;
    }
    out.push('>')?;
    Ok(())
}

fn show(out: &mut String, together: &mut String, element: &PlacedElement) -> Result<(), Error> {
    let (opens, closes) = match &element.content {
        Content::Pair(pair) => return show_pair(out, together, &pair.places),
        Content::Header(_) => ('{', '}'),
        Content::Nothing => ('(', ')'),
    };
    out.push(opens)?;
    out.push_str(element.source)?;
    out.push(closes)?;
    together.push_str(element.source)?;
    Ok(())
}

/// The elements in order, and after them whether put together they are the text; or, where the text is
/// refused, where that is reported, and where the refused element begins.
pub fn places(alloc: Global, text: &str, read: ParseOption) -> Result<String, Error> {
    let mut out = String::new(alloc);
    let mut together = String::new(alloc);
    let mut parser = Parser::new(alloc, text, read);
    for _ in 0..u64::MAX {
        match parser.next_element() {
            Ok(Some(element)) => show(&mut out, &mut together, &element)?,
            Ok(None) => break,
            Err(Error::Parse(fault)) => {
                let (line, column) = parser.position();
                let reported = format!(in alloc;
                    "refused at {}:{}, begun at {line}:{column}",
                    fault.line, fault.col
                )?;
                out.push_str(reported.as_str())?;
                return Ok(out);
            }
            Err(other) => return Err(other),
        }
    }
    let is_whole = together.as_str() == text;
    out.push_str(if is_whole { "whole" } else { "lost" })?;
    Ok(out)
}
