//! What is reported of a text that is refused: its place, words for people, the line and a caret. This file
//! knows no device.
use crate::bytes::text_of;
use crate::fault_words::fault_words;
use crate::looks::look_of;
use crate::shown::{Shown, shown_line};
use crate::unclosed::{Unclosed, find_unclosed};
use ini::{ParseError, ParseKind, ParseOption, Parser};
use ini_text::{is_blank, text_bytes};
use std::alloc::Global;
use std::io::Write;

/// Prints where reading a text stops, and why; the line, and below it a caret. The place is that of the last
/// character that was looked at. Where the text ends within quotes, brackets, a key or an escape, it is that
/// of what has no end, and the text's end is reported after it; where a line ends with its key, that of the
/// key. A line without characters isn't shown. A fault of the writer, or of memory, is dropped.
///
/// No contract says what is printed; `tests/words.sh` tests it.
pub fn show_fault<W: Write>(
    alloc: Global,
    file: &str,
    input: &[u8],
    read: ParseOption,
    fault: &ParseError,
    err: &mut W,
) {
    let text = match text_of(input) {
        Ok((_, text)) => text,
        Err(_) => "",
    };
    let ((line, column), words) = match fault.kind {
        ParseKind::EndOfText => {
            let Unclosed { place, words } = find_unclosed(stopped_at(alloc, text, read), read);
            (position(text, place), words)
        }
        ParseKind::NoSeparator => {
            let key = stopped_at(alloc, text, read).trim_start_matches(|c: char| is_blank(c));
            (position(text, key), fault_words(fault.kind))
        }
        kind => (before(text, fault), fault_words(kind)),
    };
    let file = Shown(file);
    let _ = writeln!(err, "{file}:{line}:{column}: {words}");
    show(alloc, text, line, column, err);
    if matches!(&fault.kind, ParseKind::EndOfText) {
        let _ = writeln!(err, "note: the text ends at {}:{}", fault.line, fault.col);
    }
}

/// Prints where bytes are no UTF-8, and what they look like. A fault of the writer is dropped.
///
/// No contract says what is printed; `tests/words.sh` tests it.
pub fn show_byte<W: Write>(file: &str, input: &[u8], err: &mut W) {
    let bytes = text_bytes(input, true);
    let count = match str::from_utf8(bytes) {
        Ok(text) => text.len(),
        Err(fault) => fault.valid_up_to(),
    };
    let front = str::from_utf8(bytes.get(..count).unwrap_or(b"")).unwrap_or("");
    let (line, column) = end_of(front);
    let (file, words) = (Shown(file), look_of(input).words());
    let _ = writeln!(err, "{file}:{line}:{column}: {words}");
}

/// Prints words about the place in a text that has so many bytes before it; the line, and below it a caret. A
/// fault of the writer, or of memory, is dropped.
///
/// No contract says what is printed; `tests/words.sh` tests it.
pub fn show_place<W: Write>(
    alloc: Global,
    file: &str,
    text: &str,
    place: usize,
    words: &str,
    err: &mut W,
) {
    let (line, column) = end_of(text.get(..place).unwrap_or(""));
    let file = Shown(file);
    let _ = writeln!(err, "{file}:{line}:{column}: {words}");
    show(alloc, text, line, column, err);
}

// The line and the column before the place of a fault: those of the last character that was looked at.
fn before(text: &str, fault: &ParseError) -> (usize, usize) {
    if fault.col > 1 || fault.line < 2 {
        return (fault.line, fault.col.saturating_sub(1).max(1));
    }
    let line = fault.line.saturating_sub(1);
    let length = line_of(text, line).chars().count();
    (line, length.saturating_add(1))
}

// A line of a text, without its end.
fn line_of(text: &str, line: usize) -> &str {
    let line = text.split('\n').nth(line.saturating_sub(1)).unwrap_or("");
    line.strip_suffix('\r').unwrap_or(line)
}

// Prints a line of a text, if it has characters, and below it a caret at the character of this number.
fn show<W: Write>(alloc: Global, text: &str, line: usize, column: usize, err: &mut W) {
    let line = line_of(text, line);
    if line == "" {
        return;
    }
    if let Ok((shown, blanks)) = shown_line(alloc, line, column) {
        let _ = writeln!(err, "{shown}\n{blanks}^");
    }
}

// What is left of a text from the element on at which reading stops. Each element takes a character at
// least.
fn stopped_at<'a>(alloc: Global, text: &'a str, read: ParseOption) -> &'a str {
    let mut parser = Parser::new(alloc, text, read);
    for _ in 0..text.len() {
        match parser.next_element() {
            Ok(Some(_)) => {}
            _ => break,
        }
    }
    parser.rest()
}

// The line and the column at which a rest of a text begins.
fn position(text: &str, rest: &str) -> (usize, usize) {
    let count = text.len().saturating_sub(rest.len());
    end_of(text.get(..count).unwrap_or(""))
}

/// The line and the column after a text, each counted from one.
pub(crate) fn end_of(front: &str) -> (usize, usize) {
    let line = front.split('\n').count();
    let last = front.rsplit('\n').next().unwrap_or("");
    (line, last.chars().count().saturating_add(1))
}
