//! Documents, and answers of edits, as texts.
use ini::{Error, Ini, ParseError, ParseOption};
use ini_edit::EditError;
use ini_text::LoneLine;
use std::alloc::Global;

/// What a letter turns on: quotes, escapes, multiline values, kept indentation, brackets in names, raw
/// backslashes, indented comments, notes, and that lines without separator are refused, or else that they are
/// keys alone.
pub(crate) fn options_of(letters: &str) -> ParseOption {
    ParseOption {
        enabled_quote: letters.contains('q'),
        enabled_escape: letters.contains('e'),
        enabled_indented_mutiline_value: letters.contains('m'),
        enabled_preserve_key_leading_whitespace: letters.contains('k'),
        enabled_brackets_in_section_names: letters.contains('b'),
        enabled_raw_backslash: letters.contains('r'),
        enabled_indented_comment: letters.contains('c'),
        enabled_inline_comment: letters.contains('n'),
        line_without_separator: if letters.contains('l') {
            LoneLine::Refused
        } else if letters.contains('a') {
            LoneLine::Key
        } else {
            LoneLine::RunsOn
        },
    }
}

/// Puts the parts last, one after another.
pub(crate) fn put(out: &mut String, parts: &[&str]) -> Result<(), Error> {
    for part in parts {
        out.push_str(part)?;
    }
    Ok(())
}

/// The sections in order: each a name in brackets, or `general`, and its pairs.
pub(crate) fn shown(alloc: Global, document: &Ini) -> Result<String, Error> {
    let mut out = String::new(alloc);
    for (name, section) in document {
        match name {
            None => out.push_str("general")?,
            Some(name) => put(&mut out, &[" [", name, "]"])?,
        }
        for (key, value) in section {
            put(&mut out, &[" <", key, "|", value, ">"])?;
        }
    }
    Ok(out)
}

/// A refusal's kind, line and column.
pub(crate) fn refusal(alloc: Global, fault: &ParseError) -> Result<String, Error> {
    Ok(format!(in alloc; "{:?} at {}:{}", fault.kind, fault.line, fault.col)?)
}

/// What loading the text shows: its sections, or its refusal.
pub(crate) fn loaded(alloc: Global, letters: &str, text: &str) -> Result<String, Error> {
    match Ini::load_from_str_opt(alloc, text, options_of(letters)) {
        Ok(document) => shown(alloc, &document),
        Err(Error::Parse(fault)) => refusal(alloc, &fault),
        Err(other) => Err(other),
    }
}

/// The new text that a call answered; or why there is none.
pub(crate) fn reported(
    alloc: Global,
    answer: Result<Option<String>, EditError>,
) -> Result<String, Error> {
    match answer {
        Ok(Some(new)) => Ok(new),
        Ok(None) => Ok(String::from_str(alloc, "none")?),
        Err(EditError::Text(Error::Parse(fault))) => refusal(alloc, &fault),
        Err(EditError::Text(other)) => Err(other),
        Err(other) => Ok(format!(in alloc; "{other:?}")?),
    }
}
