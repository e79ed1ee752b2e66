//! Traps of a value as a whole.
ghost use Rattle.std.specs.Prelude.{◌≡◌, chars, false};
ghost use Rattle.ini_text.specs.Grammar.CharacterKinds.{is_inline_white};
ghost use Rattle.ini_check.specs.Traps.Values.{begins_like_note, goes_on_odd, has_comment_mark};
ghost use Rattle.ini_check.specs.Traps.Values.{has_mark_after_white};
ghost use Rattle.ini_check.specs.Traps.Values.{has_odd_end, has_odd_front, has_odd_space};
ghost use Rattle.ini_check.specs.Traps.Values.{is_empty_or_white_first, is_odd_white, value_of};
ghost use Rattle.ini_check.specs.declared.lexical.LexicalState.TheVariants.{Front};

use crate::lexical::LexicalState;
use ini_text::{ParseOption, is_blank, is_comment_mark, is_line_end, split_first};

/// A value, with what stands after it, of what stands after the separator.
pub(crate) fn value_of(source: &str) -> &str
    ensures { chars result.now ≡ value_of (chars source.now) }
{
    let mut rest = source;
    'characters: while let Some((c, after)) = split_first(rest) {
        if !is_inline_white(c) {
            return rest;
        }
        rest = after;
    }
    rest
}

/// Whether a comment mark is part of a value, outside quotes.
pub(crate) fn has_comment_mark(read: ParseOption, value: &str) -> bool
    ensures { result ≡ has_comment_mark read (chars value.now) }
{
    begins_like_note(value) || has_mark_after_white(read, value)
}

// Whether a comment mark stands after white space, outside quotes, and begins no comment.
fn has_mark_after_white(read: ParseOption, value: &str) -> bool
    ensures { result ≡ has_mark_after_white read Front false (chars value.now) }
{
    let mut state = LexicalState::Front;
    let mut white = false;
    let mut rest = value;
    'characters: while let Some((c, after)) = split_first(rest) {
        if white && state.is_outside() && is_comment_mark(c) && !state.is_noted(read, c) {
            return true;
        }
        white = c.is_whitespace();
        state = state.next(read, c);
        rest = after;
    }
    false
}

// Whether a value begins as a note does: with `;`, or with `#` that stands alone.
fn begins_like_note(value: &str) -> bool
    ensures { result ≡ begins_like_note (chars value.now) }
{
    let Some((c, after)) = split_first(value) else {
        return false;
    };
    c == ';' || (c == '#' && is_empty_or_white_first(after))
}

fn is_empty_or_white_first(text: &str) -> bool
    ensures { result ≡ is_empty_or_white_first (chars text.now) }
{
    match split_first(text) {
        Some((c, _)) => c.is_whitespace(),
        None => true,
    }
}

/// Whether white space stands around a value that is neither a blank nor a line end; of what stands after the
/// separator.
pub(crate) fn has_odd_space(read: ParseOption, source: &str) -> bool
    ensures { result ≡ has_odd_space read (chars source.now) }
{
    has_odd_front(source) || has_odd_end(read, value_of(source))
}

// Whether such white space stands in the white space at a text's front.
fn has_odd_front(text: &str) -> bool
    ensures { result ≡ has_odd_front (chars text.now) }
{
    let mut rest = text;
    'characters: while let Some((c, after)) = split_first(rest) {
        if !is_inline_white(c) {
            return false;
        }
        if is_odd_white(c) {
            return true;
        }
        rest = after;
    }
    false
}

// Whether such white space stands in the white space at a raw value's end.
fn has_odd_end(read: ParseOption, value: &str) -> bool
    ensures { result ≡ has_odd_end read Front false (chars value.now) }
{
    let mut odd = false;
    let mut state = LexicalState::Front;
    let mut rest = value;
    'characters: while let Some((c, after)) = split_first(rest) {
        odd = goes_on_odd(read, state, odd, c);
        state = state.next(read, c);
        rest = after;
    }
    odd
}

// Whether white space at an end, with comments in it, that goes on with a character has such white space.
fn goes_on_odd(read: ParseOption, state: LexicalState, odd: bool, c: char) -> bool
    ensures { result ≡ goes_on_odd read state odd c }
{
    if state.is_noted(read, c) {
        odd
    } else {
        c.is_whitespace() && (odd || is_odd_white(c))
    }
}

fn is_odd_white(c: char) -> bool
    ensures { result ≡ is_odd_white c }
{
    c.is_whitespace() && !(is_blank(c) || is_line_end(c))
}

/// Whether a character is white space, and no line end.
pub(crate) fn is_inline_white(c: char) -> bool
    ensures { result ≡ is_inline_white c }
{
    c.is_whitespace() && !is_line_end(c)
}
