//! Traps of lines with which a value goes on, at a place of a raw value.
ghost use Rattle.std.specs.Prelude.{◌≡◌, chars};
ghost use Rattle.ini_check.specs.Traps.Lines.{begins_equals, begins_other, begins_white_or_ends};
ghost use Rattle.ini_check.specs.Traps.Lines.{begins_with_blank, begins_with_line_end, goes_on_with_header};
ghost use Rattle.ini_check.specs.Traps.Lines.{goes_on_with_pair, has_bracket_last, has_key_and_separator};
ghost use Rattle.ini_check.specs.Traps.Lines.{is_blank_or_note, is_key_character, is_like_header};
ghost use Rattle.ini_check.specs.Traps.Lines.{is_like_pair, is_line_front, is_line_taken, is_list};
ghost use Rattle.ini_check.specs.Traps.Lines.{joins_lines};
ghost use Rattle.ini_check.specs.Traps.Lines.{is_word_character};

use crate::lexical::LexicalState;
use ini_text::{ParseOption, is_blank, is_comment_mark, is_line_end, split_first};

/// Whether a text begins with a line end that a backslash before it takes.
pub(crate) fn is_line_taken(text: &str) -> bool
    ensures { result ≡ is_line_taken (chars text.now) }
{
    match split_first(text) {
        Some((c, after)) => c == '\n' || (c == '\r' && begins_other(after)),
        None => false,
    }
}

// Whether a character begins a text that is no LF.
fn begins_other(text: &str) -> bool
    ensures { result ≡ begins_other (chars text.now) }
{
    match split_first(text) {
        Some((c, _)) => c != '\n',
        None => false,
    }
}

/// Whether a backslash joins its line and the next.
pub(crate) fn joins_lines(read: ParseOption, state: LexicalState, text: &str) -> bool
    ensures { result ≡ joins_lines read state (chars text.now) }
{
    match split_first(text) {
        Some((c, after)) => state.is_outside() && read.begins_escape(c) && is_line_taken(after),
        None => false,
    }
}

/// Whether a line that looks like a pair goes on with a value that is no list.
pub(crate) fn goes_on_with_pair(is_list: bool, state: LexicalState, text: &str) -> bool
    ensures { result ≡ goes_on_with_pair is_list state (chars text.now) }
{
    is_line_front(state) && !is_list && is_like_pair(text)
}

/// Whether a line that looks like a header goes on with a value.
pub(crate) fn goes_on_with_header(state: LexicalState, text: &str) -> bool
    ensures { result ≡ goes_on_with_header state (chars text.now) }
{
    is_line_front(state) && is_like_header(text)
}

fn is_line_front(state: LexicalState) -> bool
    ensures { result ≡ is_line_front state }
{
    matches!(state, LexicalState::LineFront)
}

// Whether a line looks like a pair.
fn is_like_pair(text: &str) -> bool
    ensures { result ≡ is_like_pair (chars text.now) }
{
    match split_first(text) {
        Some((c, after)) => is_word_character(c) && has_key_and_separator(after),
        None => false,
    }
}

// Whether characters of a key stand before a separator.
fn has_key_and_separator(text: &str) -> bool
    ensures { result ≡ has_key_and_separator (chars text.now) }
{
    let mut rest = text;
    'characters: while let Some((c, after)) = split_first(rest) {
        if c == '=' {
            return !begins_equals(after);
        }
        if c == ':' {
            return begins_white_or_ends(after);
        }
        if !is_key_character(c) {
            return false;
        }
        rest = after;
    }
    false
}

fn begins_equals(text: &str) -> bool
    ensures { result ≡ begins_equals (chars text.now) }
{
    match split_first(text) {
        Some((c, _)) => c == '=',
        None => false,
    }
}

fn begins_white_or_ends(text: &str) -> bool
    ensures { result ≡ begins_white_or_ends (chars text.now) }
{
    match split_first(text) {
        Some((c, _)) => c.is_whitespace(),
        None => true,
    }
}

fn is_word_character(c: char) -> bool
    ensures { result ≡ is_word_character c }
{
    c.is_ascii_alphanumeric() || c == '_' || (c > '\u{7F}' && !c.is_whitespace())
}

fn is_key_character(c: char) -> bool
    ensures { result ≡ is_key_character c }
{
    is_word_character(c) || c == '-' || c == '.' || is_blank(c)
}

// Whether a line looks like a header.
fn is_like_header(text: &str) -> bool
    ensures { result ≡ is_like_header (chars text.now) }
{
    match split_first(text) {
        Some((c, after)) => c == '[' && has_bracket_last(after),
        None => false,
    }
}

// Whether a bracket closes on the line, and ends it.
fn has_bracket_last(text: &str) -> bool
    ensures { result ≡ has_bracket_last (chars text.now) }
{
    let mut rest = text;
    'characters: while let Some((c, after)) = split_first(rest) {
        if c == ']' {
            return is_blank_or_note(after);
        }
        if is_line_end(c) {
            return false;
        }
        rest = after;
    }
    false
}

// Whether there are blanks alone up to the line's end, or a note.
fn is_blank_or_note(text: &str) -> bool
    ensures { result ≡ is_blank_or_note (chars text.now) }
{
    let mut rest = text;
    'characters: while let Some((c, after)) = split_first(rest) {
        if is_line_end(c) || is_comment_mark(c) {
            return true;
        }
        if !is_blank(c) {
            return false;
        }
        rest = after;
    }
    true
}

/// Whether a value is a list: its first line is empty, and its key isn't indented.
pub(crate) fn is_list(key: &str, value: &str) -> bool
    ensures { result ≡ is_list (chars key.now) (chars value.now) }
{
    begins_with_line_end(value) && !begins_with_blank(key)
}

fn begins_with_line_end(text: &str) -> bool
    ensures { result ≡ begins_with_line_end (chars text.now) }
{
    match split_first(text) {
        Some((c, _)) => is_line_end(c),
        None => false,
    }
}

fn begins_with_blank(text: &str) -> bool
    ensures { result ≡ begins_with_blank (chars text.now) }
{
    match split_first(text) {
        Some((c, _)) => is_blank(c),
        None => false,
    }
}
