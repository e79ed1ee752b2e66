//! The quotes that a value's source stands in. This file knows marks and backslashes, and no element.
ghost use Rattle.std.specs.Prelude.{◌≡◌, ◌↔◌, ◌∷◌, ◌&&◌, ℕ, [], false, true, not, chars, MatchOption, Some};
ghost use Rattle.ini_text.specs.Grammar.CharacterKinds.{is_quote_mark};
ghost use Rattle.ini_edit.specs.Inside.Quotes.{IsOwnSource, IsBetweenQuoteMarks, after_quote_mark};
ghost use Rattle.ini_edit.specs.Quotes.{KeepsQuote, has_quote_mark, quote_before};
ghost use Rattle.ini_edit.specs.SourceLines.{is_empty};

use crate::source::lines::is_empty;
use ini_text::{ParseOption, split_first};

/// The quote in which a value is written in another one's place: that in which the old one's source stands,
/// where its mark doesn't stand in the value; else an empty one.
pub(crate) fn kept_quote(raw_value: &str, value: &str, read: ParseOption) -> &'static str
    requires { IsOwnSource read (chars raw_value.now) }
    ensures { KeepsQuote read (chars raw_value.now) (chars value.now) (chars result.now) }
{
    if !read.enabled_quote {
        return "";
    }
    let Some(mark) = quote_mark_around(raw_value, read) else {
        return "";
    };
    if has_quote_mark(value, mark) {
        return "";
    }
    quote_mark_text(mark)
}

/// The quote that is tried first for a value before this note, which an empty bare one can't stand before.
pub(crate) fn quote_before(
    quote: &'static str,
    value: &str,
    note: &str,
    read: ParseOption,
) -> &'static str
    ensures { chars result.now ≡ quote_before read (chars note.now) (chars quote.now) (chars value.now) }
{
    if is_lost(quote, value, note, read) {
        return "\"";
    }
    quote
}

// Whether an empty value would stand bare before a note, where quotes are read.
fn is_lost(quote: &str, value: &str, note: &str, read: ParseOption) -> bool
    ensures { result ≡ (read.enabled_quote && (is_empty (chars quote.now)
        && (is_empty (chars value.now) && not (is_empty (chars note.now))))) }
{
    read.enabled_quote && (is_empty(quote) && (is_empty(value) && !is_empty(note)))
}

// The mark between which a text stands.
fn quote_mark_around(text: &str, read: ParseOption) -> Option<char>
    ensures { MatchOption result ((m : ℕ) → ¬ IsBetweenQuoteMarks read (chars text.now) m)
        (IsBetweenQuoteMarks read (chars text.now)) }
{
    let (mark, following) = split_first(text)?;
    if is_quote_mark(mark) && ends_at_quote_mark(following, mark, read) {
        return Some(mark);
    }
    None
}

// Whether the first mark that no backslash takes ends the text.
fn ends_at_quote_mark(text: &str, mark: char, read: ParseOption) -> bool
    ensures { (result ≡ true) ↔ (after_quote_mark read mark false (chars text.now) ≡ Some []) }
{
    let mut rest = text;
    let mut is_taken = false;
    'characters: while let Some((c, after)) = split_first(rest) {
        if c == mark && !is_taken {
            return split_first(after).is_none();
        }
        is_taken = read.begins_escape(c) && !is_taken;
        rest = after;
    }
    false
}

fn is_quote_mark(c: char) -> bool
    ensures { result ≡ is_quote_mark c }
{
    c == '"' || c == '\''
}

fn quote_mark_text(mark: char) -> &'static str
    requires { is_quote_mark mark ≡ true }
    ensures { chars result.now ≡ mark ∷ [] }
{
    if mark == '"' { "\"" } else { "'" }
}

// Whether a mark stands in a text.
fn has_quote_mark(text: &str, mark: char) -> bool
    ensures { result ≡ has_quote_mark (chars text.now) mark }
{
    let mut rest = text;
    'characters: while let Some((c, after)) = split_first(rest) {
        if c == mark {
            return true;
        }
        rest = after;
    }
    false
}
