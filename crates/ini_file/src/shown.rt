//! Texts that others wrote, as a terminal is to show them: control characters stand as escapes. This file
//! knows no file and no fault.
use std::alloc::{AllocError, Global};
use std::fmt::{self, Write};

/// A text in a message, on its one line: each control character is printed as its code, as in `\x001b`, so
/// that no terminal obeys it.
#[derive(Clone, Copy)]
pub struct Shown<'a>(pub &'a str);

impl fmt::Display for Shown<'_> {
    fn fmt<W: fmt::Write>(&self, f: &mut fmt::Formatter<W>) -> fmt::Result {
        let text = self.0;
        for part in text.split_inclusive(|c: char| c.is_control()) {
            match part.chars().next_back() {
                Some(c) if c.is_control() => {
                    f.write_str(part.strip_suffix(c).unwrap_or(part))?;
                    let code = u32::from(c);
                    write!(f, "\\x{code:04x}")?;
                }
                _ => f.write_str(part)?,
            }
        }
        Ok(())
    }
}

/// A line as it is shown, and the blanks that put a caret below its character of this number: tabs stand in
/// both, so that the caret stands right however wide they are; other control characters are shown by their
/// codes.
pub fn shown_line(
    alloc: Global,
    line: &str,
    column: usize,
) -> Result<(String, String), AllocError> {
    let mut shown = String::new(alloc);
    let mut blanks = String::new(alloc);
    for (at, c) in line.chars().enumerate() {
        let blank = if c == '\t' {
            shown.push(c)?;
            "\t"
        } else if c.is_control() {
            let code = u32::from(c);
            write!(shown, "\\x{code:04x}")?;
            "      "
        } else {
            shown.push(c)?;
            " "
        };
        if at.saturating_add(1) < column {
            blanks.push_str(blank)?;
        }
    }
    Ok((shown, blanks))
}
