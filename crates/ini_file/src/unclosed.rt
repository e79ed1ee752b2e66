//! Where what has no end begins in a text that ends too early. This file knows no device.
use ini::ParseOption;
use ini_text::LoneLine;

/// What has no end: the text from there on, and what it is, in words.
#[derive(Clone, Copy)]
pub struct Unclosed<'a> {
    /// The text from there on.
    pub place: &'a str,
    /// What it is.
    pub words: &'static str,
}

/// What has no end in an element within which its text ends: its bracket, its key, the quote of its value,
/// or an escape; where a line may be a key alone, a key that is empty too.
///
/// No contract says what is found; `tests/words.sh` tests it.
pub fn find_unclosed<'a>(element: &'a str, read: ParseOption) -> Unclosed<'a> {
    let place = element.trim_start();
    if place.starts_with('[') {
        let words = "this bracket isn't closed";
        return Unclosed { place, words };
    }
    let Some(value) = after_key(place, read) else {
        return unclosed_key(place, read);
    };
    let value = value.trim_start();
    if read.enabled_quote && (value.starts_with('"') || value.starts_with('\'')) {
        let words = "this quote isn't closed";
        return Unclosed {
            place: value,
            words,
        };
    }
    let place = match value.rfind('\\') {
        Some(at) => value.get(at..).unwrap_or(value),
        None => value,
    };
    let words = "this escape has no end";
    Unclosed { place, words }
}

// What has no end in a key that the text's end cuts short; where a line may be a key alone, the last escape,
// if that lacks units, else the key, which is empty.
fn unclosed_key(key: &str, read: ParseOption) -> Unclosed<'_> {
    if !matches!(read.line_without_separator, LoneLine::Key) {
        let words = "this key has no = or : after it";
        return Unclosed { place: key, words };
    }
    let escape = match key.rfind("\\x") {
        Some(at) => key.get(at..).unwrap_or(""),
        None => "",
    };
    // each unit after \x has one character that is no backslash
    if escape != "" && escape.chars().filter(|c| *c != '\\').count() < 5 {
        let words = "this escape has no end";
        return Unclosed {
            place: escape,
            words,
        };
    }
    let words = "no key stands here";
    Unclosed { place: key, words }
}

// What stands after the first separator of a pair.
fn after_key(pair: &str, read: ParseOption) -> Option<&str> {
    let mut is_taken = false;
    for (at, c) in pair.char_indices() {
        if is_taken {
            is_taken = false;
        } else if read.begins_escape(c) {
            is_taken = true;
        } else if c == '=' || c == ':' {
            return pair.get(at.saturating_add(1)..);
        }
    }
    None
}
