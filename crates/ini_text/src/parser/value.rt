//! Values: a line, and in multiline values the lines with which it goes on, less the line feeds at both
//! ends. This file knows lines, and no key.
ghost use Rattle.std.specs.Prelude.{◌≡◌, [], true, not, chars, drop, option_map, IfOk, MatchResult};
ghost use Rattle.std.specs.List.{list_all};
ghost use Rattle.std.specs.Str.{IsCharBoundary};
ghost use Rattle.ini_text.specs.Grammar.CharacterKinds.{BeginsWithNo, is_blank, is_inline_white};
ghost use Rattle.ini_text.specs.Grammar.CharacterKinds.{is_line_end, is_line_feed};
ghost use Rattle.ini_text.specs.Grammar.WhiteSpace.{without_outer_line_feeds};
ghost use Rattle.ini_text.specs.Inside.PlaceReader.{HasLines, HasTail, TailSoFar};
ghost use Rattle.ini_text.specs.Inside.Reading.{Appends, Gives, StopsBy};
ghost use Rattle.ini_text.specs.Inside.Scans.{skipped};
ghost use Rattle.ini_text.specs.Inside.ValueReader.{after_end, comment_end, empty_cr, value};
ghost use Rattle.ini_text.specs.Parsing.Items.{cow_text, string_text};

use crate::error::ParseKind;
use crate::option::ParseOption;
use crate::parser::fault::Stop;
use crate::parser::line::{past_note, read_first_line, read_line};
use crate::parser::rests::Rests;
use crate::text::{Class, is_line_end, push, skip, skip_note, split_first, split_last};
use std::alloc::{AllocError, Global};
use std::borrow::CowStr;

// value = *inline-white line [line-end more-lines]
/// The value that begins after a separator, and what follows it. With `places` its lines' rests are kept.
#[inline(always)]
pub(crate) fn read_value<'a>(
    alloc: Global,
    scratch: &mut String,
    rests: &mut Rests<'a>,
    places: bool,
    text: &'a str,
    read: &ParseOption,
) -> Result<(CowStr<'a>, &'a str), Stop<'a>>
    ensures gives { Gives cow_text result (value read.now (chars text.now)) }
    ensures rests { places ≡ true → HasLines read.now (chars text.now) rests.new result }
{
    if read.enabled_indented_mutiline_value {
        return read_multiline(alloc, scratch, rests, places, text, read);
    }
    let start = skip(text, Class::InlineWhite);
    let (value, tail) = read_first_line(alloc, scratch, start, read)?;
    rests.keep_lines(places, start, tail);
    Ok((value, past_note(tail, *read)))
}

/// The same, where values are multiline.
fn read_multiline<'a>(
    alloc: Global,
    scratch: &mut String,
    rests: &mut Rests<'a>,
    places: bool,
    text: &'a str,
    read: &ParseOption,
) -> Result<(CowStr<'a>, &'a str), Stop<'a>>
    requires { read.now.enabled_indented_mutiline_value ≡ true }
    ensures gives { Gives cow_text result (value read.now (chars text.now)) }
    ensures rests { places ≡ true → HasLines read.now (chars text.now) rests.new result }
{
    let start = skip(text, Class::InlineWhite);
    let (first, tail) = read_first_line(alloc, scratch, start, read)?;
    let end = past_note(tail, *read);
    let Some(next) = after_line_end(end) else {
        let value = trim_line_feeds(alloc, first)?;
        rests.keep_lines(places, start, tail);
        return Ok((value, end));
    };
    if ends_before(next) {
        let value = trim_line_feeds(alloc, first)?;
        rests.keep_lines(places, start, tail);
        return Ok((value, next));
    }
    let mut lines = first.into_owned(alloc)?;
    let (tail, rest) = read_more(alloc, &mut lines, text, start, tail, next, read)?;
    let value = trim_line_feeds(alloc, CowStr::Owned(lines))?;
    rests.keep_lines(places, start, tail);
    Ok((value, rest))
}

/// Whether a value ends before what follows its line end: none of its lines begins there.
fn ends_before(text: &str) -> bool
    ensures blank { result ≡ true → BeginsWithNo is_blank (chars text.now) }
    ensures line_end { result ≡ true → BeginsWithNo is_line_end (chars text.now) }
{
    let Some((c, _)) = split_first(text) else {
        return true;
    };
    if Class::Blank.contains(c) {
        return false;
    }
    !is_line_end(c)
}

/// What follows a line end, if the text begins with one.
pub(crate) fn after_line_end(text: &str) -> Option<&str>
    ensures { after_end (chars text.now) ≡ option_map (λ rest. chars rest.now) result }
{
    let (c, after) = split_first(text)?;
    if c == '\n' {
        return Some(after);
    }
    if c != '\r' {
        return None;
    }
    let Some((d, end)) = split_first(after) else {
        return Some(after);
    };
    if d == '\n' {
        return Some(end);
    }
    Some(after)
}

/// What follows an empty line after its CR.
pub(crate) fn after_cr(text: &str) -> Result<&str, Stop<'_>>
    ensures { Appends [] result (empty_cr (chars text.now)) }
{
    let message = "\\r is not followed by \\n";
    match split_first(text) {
        None => Err(Stop::new(ParseKind::CrAlone, message, text)),
        Some(('\n', end)) => Ok(end),
        Some((_, end)) => Err(Stop::new(ParseKind::CrAlone, message, end)),
    }
}

// more-lines = *(LF / CR LF / blank *inline-white (line / note) (line-end / end))
/// Appends the lines with which a value goes on after its first line end, and gives what follows the text of
/// the last that gives more than line feeds, and what follows all. The value's text and where it starts are
/// named for the clauses alone.
fn read_more<'a>(
    alloc: Global,
    out: &mut String,
    text: &str,
    start: &str,
    first_tail: &'a str,
    next: &'a str,
    read: &ParseOption,
) -> Result<(&'a str, &'a str), Stop<'a>>
    requires multiline { read.now.enabled_indented_mutiline_value ≡ true }
    requires starts { chars start.now ≡ skipped is_inline_white (chars text.now) }
    requires known { TailSoFar read.now (chars text.now) (chars start.now) (chars first_tail.now)
        (chars next.now) (string_text out.old) }
    ensures { MatchResult result
        (λ p. HasTail read.now (chars text.now) (chars start.now) (chars p.0.now)
        (without_outer_line_feeds (string_text out.new)) (chars p.1.now))
        (StopsBy (value read.now (chars text.now))) }
{
    let _ = (text, start);
    let mut tail = first_tail;
    let mut rest = next;
    'lines: while let Some((c, after)) = split_first(rest) {
        if c == '\n' {
            push(out, '\n')?;
            rest = after;
        } else if c == '\r' {
            rest = after_cr(after)?;
            push(out, '\n')?;
        } else if let Some(end) = comment_end(c, after, read) {
            let Some(next) = after_line_end(end) else {
                return Ok((tail, end));
            };
            rest = next;
        } else if Class::Blank.contains(c) {
            push(out, '\n')?;
            let len = out.len();
            let line_tail = read_line(alloc, out, skip(rest, Class::InlineWhite), read, false)?;
            if gives_more(out.as_str(), len) {
                tail = line_tail;
            }
            let end = past_note(line_tail, *read);
            let Some(next) = after_line_end(end) else {
                return Ok((tail, end));
            };
            rest = next;
        } else {
            return Ok((tail, rest));
        }
    }
    Ok((tail, rest))
}

/// What follows the note of an indented comment that begins with `c`.
fn comment_end<'a>(c: char, after: &'a str, read: &ParseOption) -> Option<&'a str>
    ensures { comment_end read.now c (chars after.now) ≡ option_map (λ rest. chars rest.now) result }
{
    if !read.enabled_indented_comment || !Class::Blank.contains(c) {
        return None;
    }
    let start = skip(after, Class::InlineWhite);
    let (mark, _) = split_first(start)?;
    if !read.begins_note(mark) {
        return None;
    }
    Some(skip_note(start))
}

/// Whether what stands after so many bytes is more than line feeds.
fn gives_more(text: &str, len: usize) -> bool
    requires { IsCharBoundary text.now len }
    ensures { result ≡ not (list_all is_line_feed (chars (drop len text.now))) }
{
    match split_first(skip(&text[len..], Class::LineFeed)) {
        Some(_) => true,
        _ => false,
    }
}

/// A text without the line feeds at its ends. What is borrowed stays so.
fn trim_line_feeds<'a>(alloc: Global, text: CowStr<'a>) -> Result<CowStr<'a>, AllocError>
    ensures { IfOk result (λ trimmed. cow_text trimmed ≡ without_outer_line_feeds (cow_text text.entry)) }
{
    match text {
        CowStr::Borrowed(text) => Ok(CowStr::Borrowed(without_line_feeds(text))),
        CowStr::Owned(text) => {
            let trimmed = String::from_str(alloc, without_line_feeds(text.as_str()))?;
            Ok(CowStr::Owned(trimmed))
        }
    }
}

/// The part of a text without the line feeds at its ends.
fn without_line_feeds(text: &str) -> &str
    ensures { chars result.now ≡ without_outer_line_feeds (chars text.now) }
{
    let mut rest = skip(text, Class::LineFeed);
    'ends: while let Some((before, c)) = split_last(rest) {
        if c != '\n' {
            return rest;
        }
        rest = before;
    }
    rest
}
