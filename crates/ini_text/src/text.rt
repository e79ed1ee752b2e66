//! Texts: characters and their classes, cuts, runs and trims. This file knows kinds of characters, and no
//! production.
ghost use Rattle.std.specs.Prelude.{◌≡◌, ◌∷◌, ◌++◌, ◌<◌, [], Bool, true, false, not, chars};
ghost use Rattle.std.specs.Prelude.{take, drop, length, IfOk, IfSome, MatchOption, OnOk, string_bytes};
ghost use Rattle.std.specs.Str.{IsCharBoundary, bytes_eq};
ghost use Rattle.ini_text.specs.Grammar.CharacterKinds.{line_feed, is_line_end, is_line_feed};
ghost use Rattle.ini_text.specs.Grammar.CharacterKinds.{is_blank, is_comment_mark, is_separator};
ghost use Rattle.ini_text.specs.Grammar.Positions.{last_or, starts_line, is_column_one};
ghost use Rattle.ini_text.specs.Parsing.Fronts.{IsRest, front_of};
ghost use Rattle.ini_text.specs.Inside.Scans.{begins_white, is_in, is_line_part, is_visible, skipped};
ghost use Rattle.ini_text.specs.Inside.Scans.{trimmed_at};
ghost use Rattle.ini_text.specs.Parsing.Items.{string_text};

use crate::lanes::{Three, run_before};
use std::alloc::{AllocError, Global};

/// A kind of characters that are gone over together.
#[derive(Clone, Copy)]
pub(crate) enum Class {
    Space,
    Blank,
    InlineWhite,
    LineFeed,
}

impl Class {
    pub(crate) fn contains(self, c: char) -> bool
        ensures { result ≡ is_in self c }
    {
        match self {
            Class::Space => c == ' ',
            Class::Blank => is_blank(c),
            Class::InlineWhite => c.is_whitespace() && !is_line_end(c),
            Class::LineFeed => c == '\n',
        }
    }
}

/// Whether a character is a space or a tab.
pub fn is_blank(c: char) -> bool
    ensures { result ≡ is_blank c }
{
    c == ' ' || c == '\t'
}

/// Whether a character ends a line.
pub fn is_line_end(c: char) -> bool
    ensures { result ≡ is_line_end c }
{
    c == '\n' || c == '\r'
}

/// Whether a character begins a comment.
pub fn is_comment_mark(c: char) -> bool
    ensures { result ≡ is_comment_mark c }
{
    c == ';' || c == '#'
}

/// Whether a character stands between a key and its value.
pub(crate) fn is_separator(c: char) -> bool
    ensures { result ≡ is_separator c }
{
    c == '=' || c == ':'
}

/// The first character of a text, and what follows it.
pub fn split_first(text: &str) -> Option<(char, &str)>
    ensures characters { MatchOption result
        (chars text.now ≡ []) (λ p. chars text.now ≡ p.0 ∷ chars p.1.now) }
    ensures shorter { IfSome result (λ p. length p.1.now < length text.now) }
{
    let mut characters = text.chars();
    let first = characters.next()?;
    Some((first, characters.as_str()))
}

/// The last character of a text, and what stands before it.
pub fn split_last(text: &str) -> Option<(&str, char)>
    ensures { MatchOption result (chars text.now ≡ []) (λ p. chars text.now ≡ chars p.0.now ++ p.1 ∷ []) }
{
    let mut characters = text.chars();
    let last = characters.next_back()?;
    Some((characters.as_str(), last))
}

/// Whether two texts are the same.
#[tactic(auto, using(crate::proofs::StringLemmas::SameTextLemmas::same_text))]
pub fn is_same_text(one: &str, other: &str) -> bool
    ensures { result ≡ bytes_eq (chars one.now) (chars other.now) }
{
    one == other
}

/// What follows the first character.
pub(crate) fn after_first(text: &str) -> &str
    ensures { chars result.now ≡ drop 1 (chars text.now) }
{
    match split_first(text) {
        Some((_, after)) => after,
        None => text,
    }
}

/// What follows the characters of a class that begin a text.
#[inline(always)]
pub(crate) fn skip(text: &str, class: Class) -> &str
    ensures { chars result.now ≡ skipped (is_in class) (chars text.now) }
{
    let mut rest = text;
    'characters: while let Some((c, after)) = split_first(rest) {
        if !class.contains(c) {
            return rest;
        }
        rest = after;
    }
    rest
}

/// What follows the characters of a line, from its line feed on.
pub(crate) fn skip_line(text: &str) -> &str
    ensures { chars result.now ≡ skipped (λ c. not (is_line_feed c)) (chars text.now) }
{
    let line_feed = Three(b'\n', b'\n', b'\n');
    let (_, rest) = text.split_at(run_before(text.as_bytes(), &line_feed));
    rest
}

/// What follows the characters of a line, from its line end on.
pub(crate) fn skip_note(text: &str) -> &str
    ensures { chars result.now ≡ skipped is_line_part (chars text.now) }
{
    let line_ends = Three(b'\n', b'\r', b'\r');
    let (_, rest) = text.split_at(run_before(text.as_bytes(), &line_ends));
    rest
}

/// Appends a character: std's call, with a clause that speaks of characters where std's speaks of bytes.
pub(crate) fn push(out: &mut String, c: char) -> Result<(), AllocError>
    ensures { OnOk result (string_text out.new ≡ string_text out.old ++ c ∷ []) }
{
    out.push(c)
}

/// Appends a text.
#[inline(always)]
pub(crate) fn push_text(out: &mut String, text: &str) -> Result<(), AllocError>
    ensures { OnOk result (string_text out.new ≡ string_text out.old ++ chars text.now) }
{
    // Between escapes few characters stand.
    match text.as_bytes() {
        [] => Ok(()),
        [byte] if *byte < 0x80 => push(out, char::from(*byte)),
        _ => out.push_str(text),
    }
}

/// The part of a text before the rest of it, which must be one.
///
/// It is public since `ini` calls it for a streamed text: what one other crate may call, all may.
pub fn front_before<'a>(text: &'a str, rest: &str) -> &'a str
    requires { IsRest (chars text.now) (chars rest.now) }
    ensures { chars result.now ≡ front_of (chars text.now) (chars rest.now) }
{
    let (front, _) = text.split_at(text.len() - rest.len());
    front
}

/// The last character of a front, and LF where it is empty.
#[tactic(auto, using(crate::proofs::StringLemmas::ScanLemmas::last_or_append))]
pub(crate) fn last_or_line_feed(front: &str) -> char
    ensures { result ≡ last_or line_feed (chars front.now) }
{
    match split_last(front) {
        Some((_, c)) => c,
        None => '\n',
    }
}

/// Whether a line starts after a front.
pub fn starts_line(front: &str) -> bool
    ensures { result ≡ starts_line (chars front.now) }
{
    is_line_end(last_or_line_feed(front))
}

/// Whether column one is after a front.
pub fn is_column_one(front: &str) -> bool
    ensures { result ≡ is_column_one (chars front.now) }
{
    last_or_line_feed(front) == '\n'
}

/// Whether a text begins with white space.
fn begins_white(text: &str) -> bool
    ensures { result ≡ begins_white (chars text.now) }
{
    match split_first(text) {
        Some((c, _)) => c.is_whitespace(),
        None => false,
    }
}

/// The part of a text without the white space at its end or at both ends.
pub(crate) fn trimmed(text: &str, both: bool) -> &str
    ensures { chars result.now ≡ trimmed_at both (chars text.now) }
{
    if has_visible_ends(text) {
        return text;
    }
    cut_ends(text, both)
}

// The same, where an end may be white space: one space at the end is looked for first.
#[inline(never)]
fn cut_ends(text: &str, both: bool) -> &str
    ensures { chars result.now ≡ trimmed_at both (chars text.now) }
{
    let front = without_space(text);
    if has_visible_ends(front) {
        return front;
    }
    if both { text.trim() } else { text.trim_end() }
}

// What stands before a space at a text's end; the text where none stands there.
#[inline(always)]
fn without_space(text: &str) -> &str
    ensures { (both : Bool) → trimmed_at both (chars text.now) ≡ trimmed_at both (chars result.now) }
{
    match split_last(text) {
        Some((front, ' ')) => front,
        _ => text,
    }
}

// Whether the first and the last byte of a text are seen to be no white space: marks, letters and digits
// of ASCII.
#[inline(always)]
fn has_visible_ends(text: &str) -> bool
    ensures { result ≡ true → (both : Bool) → trimmed_at both (chars text.now) ≡ chars text.now }
{
    let bytes = text.as_bytes();
    let [first, ..] = bytes else {
        return false;
    };
    is_visible(*first) && is_visible(bytes[bytes.len() - 1])
}

fn is_visible(byte: u8) -> bool
    ensures { result ≡ is_visible byte }
{
    byte > b' ' && byte < 0x7F
}

/// Trims what stands from `start` on, at its end or at both ends.
#[inline(always)]
pub(crate) fn trim_from(
    alloc: Global,
    out: &mut String,
    start: usize,
    both: bool,
) -> Result<(), AllocError>
    requires { IsCharBoundary (string_bytes out.old) start }
    ensures { OnOk result (string_text out.new
        ≡ chars (take start (string_bytes out.old))
        ++ trimmed_at both (chars (drop start (string_bytes out.old)))) }
{
    let part = &out.as_str()[start..];
    if both && begins_white(part) {
        let trimmed = String::from_str(alloc, part.trim())?;
        out.truncate(start);
        return push_text(out, trimmed.as_str());
    }
    let kept = part.trim_end().len();
    out.truncate(start + kept);
    Ok(())
}

/// Trims a text, at its end or at both ends.
pub(crate) fn trim(alloc: Global, text: String, both: bool) -> Result<String, AllocError>
    ensures { IfOk result (λ trimmed. string_text trimmed ≡ trimmed_at both (string_text text)) }
{
    let mut text = text;
    trim_from(alloc, &mut text, 0, both)?;
    Ok(text)
}
