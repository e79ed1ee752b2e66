//! What tests look at: documents as lines, what a text is read as, texts of parts, and options.
//!
//! A section is shown as its name in brackets, or `general`, and a colon; each of its pairs follows as `
//! <key|value>`.
use ini::{Error, Ini, ParseKind, ParseOption};
use ini_text::LoneLine;
use std::alloc::{AllocError, Global};
use std::panic::Expect;
use std::process::Abort;

/// Asks that this held at a place of what is named.
pub(crate) fn expect(rt: &impl Abort, held: bool, of: &str, at: usize) {
    assert!(rt; held, "{of} at {at}");
}

// Puts the parts last.
fn put(out: &mut String, parts: &[&str]) -> Result<(), AllocError> {
    for part in parts {
        out.push_str(part)?;
    }
    Ok(())
}

/// The sections in order, one after another.
pub(crate) fn shown(alloc: Global, document: &Ini) -> Result<String, AllocError> {
    let mut out = String::new(alloc);
    for (name, section) in document {
        match name {
            None => put(&mut out, &["general:"])?,
            Some(name) => put(&mut out, &["[", name, "]:"])?,
        }
        for (key, value) in section {
            put(&mut out, &[" <", key, "|", value, ">"])?;
        }
        put(&mut out, &[" "])?;
    }
    Ok(out)
}

/// Whether the document is shown so.
pub(crate) fn is_shown(alloc: Global, document: &Ini, want: &str) -> bool {
    match shown(alloc, document) {
        Ok(text) => text.as_str() == want,
        Err(_) => false,
    }
}

/// Asks that the text is the one that is wanted.
pub(crate) fn expect_text(rt: &impl Abort, got: &str, want: &str) {
    assert!(rt; got == want, "{got}, and not {want}");
}

/// Asks that the document is shown so.
pub(crate) fn expect_shown(rt: &(impl Abort + AllocGlobal), document: &Ini, want: &str) {
    expect_text(rt, &shown(rt.alloc(), document).expect(rt, "memory"), want);
}

/// What a text is read as: a document that is shown so, or a refusal at line and column.
#[derive(Clone, Copy)]
pub(crate) enum Want<'a> {
    Shown(&'a str),
    Refused(usize, usize, ParseKind),
}

impl Want<'_> {
    /// Whether the answer is that.
    pub(crate) fn is(self, alloc: Global, answer: &Result<Ini, Error>) -> bool {
        match (self, answer) {
            (Want::Shown(want), Ok(document)) => is_shown(alloc, document, want),
            (Want::Refused(line, col, kind), Err(Error::Parse(fault))) => {
                fault.line == line && fault.col == col && fault.kind == kind
            }
            _ => false,
        }
    }
}

/// The document of a text, with ample memory.
pub(crate) fn loaded(rt: &(impl Abort + AllocGlobal), text: &str) -> Ini {
    Ini::load_from_str(rt.alloc(), text).expect(rt, "a document")
}

/// A copy of the text, with ample memory.
pub(crate) fn text(rt: &(impl Abort + AllocGlobal), text: &str) -> String {
    String::from_str(rt.alloc(), text).expect(rt, "memory")
}

/// The parts, one after another.
pub(crate) fn joined(rt: &(impl Abort + AllocGlobal), parts: &[&str]) -> String {
    parts.join(rt.alloc(), "").expect(rt, "memory")
}

/// The text once for each of so many numbers, which stand in it where it has `@`.
pub(crate) fn numbered(
    rt: &(impl Abort + AllocGlobal),
    text: &str,
    first: u32,
    count: u32,
) -> String {
    let alloc = rt.alloc();
    let mut out = String::new(alloc);
    for number in 0..count {
        let digits = format!(in alloc; "{}", first.wrapping_add(number)).expect(rt, "memory");
        let put = text.replace(alloc, '@', &digits).expect(rt, "memory");
        out.push_str(&put).expect(rt, "memory");
    }
    out
}

/// The default options, and values go on over indented lines.
pub(crate) fn multiline() -> ParseOption {
    ParseOption {
        enabled_indented_mutiline_value: true,
        ..ParseOption::default()
    }
}

/// Every option that is on or off, and what becomes of a line without separator.
pub(crate) fn all_on(line_without_separator: LoneLine) -> ParseOption {
    ParseOption {
        enabled_quote: true,
        enabled_escape: true,
        enabled_indented_mutiline_value: true,
        enabled_preserve_key_leading_whitespace: true,
        enabled_brackets_in_section_names: true,
        enabled_raw_backslash: true,
        enabled_indented_comment: true,
        enabled_inline_comment: true,
        line_without_separator,
    }
}
