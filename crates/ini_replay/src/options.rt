//! Options by the words of a question: `InvalidInput` where a word is none.
use crate::hex::text_of_hex;
use ini_text::{EscapePolicy, LineSeparator, LoneLine, ParseOption};
use std::alloc::Global;
use std::io::{self, ErrorKind};

/// That a line is no question.
pub(crate) fn invalid() -> io::Error {
    ErrorKind::InvalidInput.into()
}

fn flag(digit: u8) -> io::Result<bool> {
    match digit {
        b'0' => Ok(false),
        b'1' => Ok(true),
        _ => Err(invalid()),
    }
}

// What becomes of a line without separator.
fn lone_line(digit: u8) -> io::Result<LoneLine> {
    match digit {
        b'0' => Ok(LoneLine::RunsOn),
        b'1' => Ok(LoneLine::Refused),
        b'2' => Ok(LoneLine::Key),
        _ => Err(invalid()),
    }
}

/// How a text is read, by five flags, each `0` or `1`: escapes, quotes, multiline values, kept indentation,
/// brackets in names. More of them may be left out: raw backslashes, what becomes of lines without separator,
/// indented comments, and inline comments.
pub(crate) fn reading_of_flags(flags: &str) -> io::Result<ParseOption> {
    let [escape, quote, multiline, indent, brackets, rest @ ..] = flags.as_bytes() else {
        return Err(invalid());
    };
    let (raw, lone, comment, note) = match rest {
        [] => (b'0', b'0', b'0', b'0'),
        [raw] => (*raw, b'0', b'0', b'0'),
        [raw, lone] => (*raw, *lone, b'0', b'0'),
        [raw, lone, comment] => (*raw, *lone, *comment, b'0'),
        [raw, lone, comment, note] => (*raw, *lone, *comment, *note),
        _ => return Err(invalid()),
    };
    Ok(ParseOption {
        enabled_escape: flag(*escape)?,
        enabled_quote: flag(*quote)?,
        enabled_indented_mutiline_value: flag(*multiline)?,
        enabled_preserve_key_leading_whitespace: flag(*indent)?,
        enabled_brackets_in_section_names: flag(*brackets)?,
        enabled_raw_backslash: flag(raw)?,
        enabled_indented_comment: flag(comment)?,
        enabled_inline_comment: flag(note)?,
        line_without_separator: lone_line(lone)?,
    })
}

/// The policy of a name.
pub(crate) fn policy_of_name(name: &str) -> io::Result<EscapePolicy> {
    match name {
        "Nothing" => Ok(EscapePolicy::Nothing),
        "Basics" => Ok(EscapePolicy::Basics),
        "BasicsUnicode" => Ok(EscapePolicy::BasicsUnicode),
        "BasicsUnicodeExtended" => Ok(EscapePolicy::BasicsUnicodeExtended),
        "Reserved" => Ok(EscapePolicy::Reserved),
        "ReservedUnicode" => Ok(EscapePolicy::ReservedUnicode),
        "ReservedUnicodeExtended" => Ok(EscapePolicy::ReservedUnicodeExtended),
        "Everything" => Ok(EscapePolicy::Everything),
        _ => Err(invalid()),
    }
}

/// The line separator that writes a line end. `CR` is the one that writes LF, on every platform.
pub(crate) fn separator_of_line_end(name: &str) -> io::Result<LineSeparator> {
    match name {
        "LF" => Ok(LineSeparator::CR),
        "CRLF" => Ok(LineSeparator::CRLF),
        _ => Err(invalid()),
    }
}

/// A separator is a constant of the program: these are asked for, the last two of them not plain.
pub(crate) fn separator_of_text(text: &str) -> io::Result<&'static str> {
    match text {
        "=" => Ok("="),
        ":" => Ok(":"),
        " = " => Ok(" = "),
        ":\t" => Ok(":\t"),
        "" => Ok(""),
        " ==" => Ok(" =="),
        _ => Err(invalid()),
    }
}

/// A section's name: none is the general one's.
pub(crate) fn name_of_word(alloc: Global, word: &str) -> io::Result<Option<String>> {
    if word == "G" {
        return Ok(None);
    }
    match word.strip_prefix('S') {
        Some(digits) => Ok(Some(text_of_hex(alloc, digits)?)),
        None => Err(invalid()),
    }
}
