//! Traps of a pair's key and of its separator.
ghost use Rattle.std.specs.Prelude.{◌≡◌, chars, false};
ghost use Rattle.ini_check.specs.Traps.Keys.{begins_escape, begins_like_comment, begins_quoted};
ghost use Rattle.ini_check.specs.Traps.Keys.{begins_value_escape, begins_white};
ghost use Rattle.ini_check.specs.Traps.Keys.{colon_separates, comment_runs_on, has_equals, has_escape};
ghost use Rattle.ini_check.specs.Traps.Keys.{has_key_escape, has_line_end, has_value_escape, is_empty};
ghost use Rattle.ini_check.specs.Traps.Keys.{is_meant, is_unmeant, is_unplain, mark_begins_key, runs_on};
ghost use Rattle.ini_check.specs.declared.lexical.LexicalState.TheVariants.{Front};

use crate::lexical::{LexicalState, is_before_comment};
use crate::trap::lines::is_line_taken;
use crate::trap::quotes::is_quote_mark;
use crate::trap::values::value_of;
use ini_text::{ParseOption, is_blank, is_comment_mark, is_line_end, split_first};

/// Whether a line end stands in a text.
pub(crate) fn has_line_end(source: &str) -> bool
    ensures { result ≡ has_line_end (chars source.now) }
{
    source.chars().any(|c| is_line_end(c))
}

/// Whether a comment mark begins a key after blanks.
pub(crate) fn begins_like_comment(source: &str) -> bool
    ensures { result ≡ begins_like_comment (chars source.now) }
{
    let mut rest = source;
    'blanks: while let Some((c, after)) = split_first(rest) {
        if !is_blank(c) {
            return is_comment_mark(c);
        }
        rest = after;
    }
    false
}

/// Whether a key's line runs on into the next one, and is no comment.
pub(crate) fn runs_on(source: &str) -> bool
    ensures { result ≡ runs_on (chars source.now) }
{
    has_line_end(source) && !begins_like_comment(source)
}

/// Whether an indented comment runs on into the next line.
pub(crate) fn comment_runs_on(source: &str) -> bool
    ensures { result ≡ comment_runs_on (chars source.now) }
{
    has_line_end(source) && begins_like_comment(source)
}

/// Whether an indented comment, on its own line, is a key.
pub(crate) fn mark_begins_key(source: &str) -> bool
    ensures { result ≡ mark_begins_key (chars source.now) }
{
    begins_like_comment(source) && !has_line_end(source)
}

/// Whether a backslash begins an escape in a key that is no comment.
pub(crate) fn has_key_escape(escapes: bool, source: &str) -> bool
    ensures { result ≡ has_key_escape escapes (chars source.now) }
{
    !begins_like_comment(source) && has_escape(escapes, false, source)
}

/// Whether it is neither plain nor a comment, where escapes are read.
pub(crate) fn is_unplain(escapes: bool, is_plain: bool, is_comment: bool) -> bool
    ensures { result ≡ is_unplain escapes is_plain is_comment }
{
    escapes && !(is_plain || is_comment)
}

/// Whether a backslash begins an escape that may not be meant, where escapes are read.
pub(crate) fn has_escape(escapes: bool, in_name: bool, source: &str) -> bool
    ensures { result ≡ has_escape escapes in_name (chars source.now) }
{
    escapes && begins_escape(in_name, source)
}

// Whether a backslash begins an escape that may not be meant.
fn begins_escape(in_name: bool, source: &str) -> bool
    ensures { result ≡ begins_escape in_name false (chars source.now) }
{
    let mut escaped = false;
    let mut rest = source;
    'characters: while let Some((c, after)) = split_first(rest) {
        if escaped && !(is_meant(in_name, c) || is_line_taken(rest)) {
            return true;
        }
        escaped = c == '\\' && !escaped;
        rest = after;
    }
    false
}

/// Whether a backslash begins an escape in a raw value that may not be meant, where escapes are read.
pub(crate) fn has_value_escape(read: ParseOption, value: &str) -> bool
    ensures { result ≡ has_value_escape read (chars value.now) }
{
    read.enabled_escape && begins_value_escape(read, value)
}

// Whether a backslash begins an escape in a raw value that may not be meant.
fn begins_value_escape(read: ParseOption, value: &str) -> bool
    ensures { result ≡ begins_value_escape read Front (chars value.now) }
{
    let mut state = LexicalState::Front;
    let mut rest = value;
    'characters: while let Some((c, after)) = split_first(rest) {
        if is_unmeant(state, rest) {
            return true;
        }
        state = state.next(read, c);
        rest = after;
    }
    false
}

/// Whether a character of a raw value stands after a backslash that may not be meant before it.
pub(crate) fn is_unmeant(state: LexicalState, text: &str) -> bool
    ensures { result ≡ is_unmeant state (chars text.now) }
{
    match split_first(text) {
        Some((c, _)) => state.is_escaped() && !(is_meant(false, c) || is_line_taken(text)),
        None => false,
    }
}

/// Whether a backslash before the character is meant.
pub(crate) fn is_meant(in_name: bool, c: char) -> bool
    ensures { result ≡ is_meant in_name c }
{
    matches!(c, '\\' | '"' | '\'' | '=' | ':' | ';' | '#') || (in_name && c == ']')
}

/// Whether a colon separates a pair, and an equals sign follows it, of what stands after the separator.
pub(crate) fn colon_separates(read: ParseOption, key: &str, separator: char, source: &str) -> bool
    ensures { result ≡ colon_separates read (chars key.now) separator (chars source.now) }
{
    separator == ':'
        && !(begins_like_comment(key) || begins_quoted(read.enabled_quote, value_of(source)))
        && has_equals(read, !begins_white(source), source)
}

fn begins_white(text: &str) -> bool
    ensures { result ≡ begins_white (chars text.now) }
{
    match split_first(text) {
        Some((c, _)) => c.is_whitespace(),
        None => false,
    }
}

/// Whether a text is empty.
pub(crate) fn is_empty(text: &str) -> bool
    ensures { result ≡ is_empty (chars text.now) }
{
    split_first(text).is_none()
}

// Whether a mark begins a text that opens quotes.
fn begins_quoted(quotes: bool, text: &str) -> bool
    ensures { result ≡ begins_quoted quotes (chars text.now) }
{
    match split_first(text) {
        Some((c, _)) => quotes && is_quote_mark(c),
        None => false,
    }
}

// Whether an equals sign stands on a text's first line, before an inline comment: after white space, or
// anywhere.
fn has_equals(read: ParseOption, anywhere: bool, text: &str) -> bool
    ensures { result ≡ has_equals read anywhere false (chars text.now) }
{
    let mut white = false;
    let mut rest = text;
    'characters: while let Some((c, after)) = split_first(rest) {
        if is_line_end(c) {
            return false;
        }
        if c == '=' && (anywhere || white) {
            return true;
        }
        if is_before_comment(read, c, after) {
            return false;
        }
        white = c.is_whitespace();
        rest = after;
    }
    false
}
