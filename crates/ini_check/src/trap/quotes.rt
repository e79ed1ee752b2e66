//! Traps of quotes, at a place of a raw value.
ghost use Rattle.std.specs.Prelude.{◌≡◌, chars, false};
ghost use Rattle.ini_text.specs.Grammar.CharacterKinds.{is_quote_mark};
ghost use Rattle.ini_check.specs.Traps.Quotes.{ends_with_first, is_half_quoted, is_text_after_quote};
ghost use Rattle.ini_check.specs.Traps.Quotes.{is_white_to_line_end, is_white_to_text_end, leaves_line};
ghost use Rattle.ini_check.specs.Traps.Quotes.{opens_unclosed};

use crate::lexical::{LexicalState, is_before_comment};
use ini_text::{ParseOption, is_comment_mark, is_line_end, split_first};

/// Whether a character is a quote's mark.
pub(crate) fn is_quote_mark(c: char) -> bool
    ensures { result ≡ is_quote_mark c }
{
    c == '"' || c == '\''
}

/// Whether a mark opens quotes that aren't closed on its line.
pub(crate) fn opens_unclosed(read: ParseOption, state: LexicalState, text: &str) -> bool
    ensures { result ≡ opens_unclosed read state (chars text.now) }
{
    let Some((c, after)) = split_first(text) else {
        return false;
    };
    read.enabled_quote && state.may_open() && is_quote_mark(c) && leaves_line(read, c, after)
}

// Whether a line ends before the quotes of this mark do.
fn leaves_line(read: ParseOption, mark: char, text: &str) -> bool
    ensures { result ≡ leaves_line read mark false (chars text.now) }
{
    let mut escaped = false;
    let mut rest = text;
    'characters: while let Some((c, after)) = split_first(rest) {
        if is_line_end(c) {
            return true;
        }
        if c == mark && !escaped {
            return false;
        }
        escaped = read.begins_escape(c) && !escaped;
        rest = after;
    }
    false
}

/// Whether text stands after a quoted part.
pub(crate) fn is_text_after_quote(state: LexicalState, text: &str) -> bool
    ensures { result ≡ is_text_after_quote state (chars text.now) }
{
    let Some((c, _)) = split_first(text) else {
        return false;
    };
    match state {
        LexicalState::AfterQuote => !(c.is_whitespace() || is_quote_mark(c)),
        LexicalState::Trailing | LexicalState::TrailingBlank => {
            !(c.is_whitespace() || is_comment_mark(c))
        }
        _ => false,
    }
}

/// Whether a value that no mark begins ends its line with one.
pub(crate) fn is_half_quoted(read: ParseOption, state: LexicalState, text: &str) -> bool
    ensures { result ≡ is_half_quoted read state (chars text.now) }
{
    let Some((c, _)) = split_first(text) else {
        return false;
    };
    match state {
        LexicalState::Front => {
            read.enabled_quote
                && !is_quote_mark(c)
                && (ends_with_first(read, '"', text) || ends_with_first(read, '\'', text))
        }
        _ => false,
    }
}

// Whether the first such mark of the line, which no backslash takes, ends it.
fn ends_with_first(read: ParseOption, mark: char, text: &str) -> bool
    ensures { result ≡ ends_with_first read mark false (chars text.now) }
{
    let mut escaped = false;
    let mut rest = text;
    'characters: while let Some((c, after)) = split_first(rest) {
        if c == mark && !escaped {
            return is_white_to_text_end(read, after);
        }
        if is_line_end(c) || (!escaped && is_before_comment(read, c, after)) {
            return false;
        }
        escaped = read.begins_escape(c) && !escaped;
        rest = after;
    }
    false
}

// Whether there is white space alone up to the line's end, or an inline comment.
fn is_white_to_text_end(read: ParseOption, text: &str) -> bool
    ensures { result ≡ is_white_to_text_end read (chars text.now) }
{
    let mut rest = text;
    'characters: while let Some((c, after)) = split_first(rest) {
        if is_line_end(c) {
            return true;
        }
        if !c.is_whitespace() {
            return false;
        }
        if is_before_comment(read, c, after) {
            return true;
        }
        rest = after;
    }
    true
}

/// Whether there is white space alone up to the line's end.
pub(crate) fn is_white_to_line_end(text: &str) -> bool
    ensures { result ≡ is_white_to_line_end (chars text.now) }
{
    let mut rest = text;
    'characters: while let Some((c, after)) = split_first(rest) {
        if is_line_end(c) {
            return true;
        }
        if !c.is_whitespace() {
            return false;
        }
        rest = after;
    }
    true
}
