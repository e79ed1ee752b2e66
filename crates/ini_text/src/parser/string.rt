//! Strings: rows of pieces up to an endpoint. This file knows escapes, and nothing of lines, keys or names.
ghost use Rattle.std.specs.Prelude.{◌≡◌, ◌∷◌, ◌++◌, [], chars, unwrap_or, IfSome, OnOk};
ghost use Rattle.ini_text.specs.Inside.Endpoints.{ends_of};
ghost use Rattle.ini_text.specs.Grammar.EscapeSequences.{control, spelled, spelled_by};
ghost use Rattle.ini_text.specs.Inside.Reading.{prepend, Appends, Gives};
ghost use Rattle.ini_text.specs.Options.ReadOptions.{backslash_of};
ghost use Rattle.ini_text.specs.Inside.StringReader.{ReadsRaw, coded_character, string, unit, value_after_backslash};
ghost use Rattle.ini_text.specs.Parsing.Items.{string_text};

use crate::error::ParseKind;
use crate::option::ParseOption;
use crate::parser::endpoints::{Endpoints, split_run};
use crate::parser::fault::Stop;
use crate::parser::short::{read_short, split_coded};
use crate::parser::tables::letter_value;
use crate::text::{push, push_text, split_first};
use std::alloc::AllocError;

/// A string of one run, and what follows it, from its endpoint on. `None` where it has a backslash, or
/// isn't ended.
#[inline(always)]
pub(crate) fn split_raw<'a>(
    text: &'a str,
    read: &ParseOption,
    ends: Endpoints,
) -> Option<(&'a str, &'a str)>
    ensures { IfSome result
        (λ p. ReadsRaw (ends_of read.now ends) (chars text.now) (chars p.0.now) (chars p.1.now)) }
{
    let (run, rest) = split_run(text, read, ends);
    if rest.is_empty() {
        if !ends.contains_text_end(read) {
            return None;
        }
        return Some((run, rest));
    }
    if rest.as_bytes()[0] == b'\\' {
        return None;
    }
    Some((run, rest))
}

// string = *(escape / character) [lone-backslash], up to an endpoint
/// Appends the value of a string up to an endpoint, and gives what follows it, from its endpoint on.
pub(crate) fn read_string<'a>(
    out: &mut String,
    text: &'a str,
    read: &ParseOption,
    ends: Endpoints,
) -> Result<&'a str, Stop<'a>>
    ensures { Appends (string_text out.new) result
        (prepend (string_text out.old) (string (backslash_of read.now) (ends_of read.now ends) (chars text.now))) }
{
    let mut rest = text;
    'pieces: loop {
        let (run, next) = split_run(rest, read, ends);
        push_text(out, run)?;
        let Some((c, after)) = split_first(next) else {
            if ends.contains_text_end(read) {
                return Ok(next);
            }
            return Err(Stop::new(ParseKind::EndOfText, ends.expected(), next));
        };
        if c != '\\' {
            return Ok(next);
        }
        if !read.has_special_backslash() {
            push(out, '\\')?;
            rest = after;
            continue;
        }
        let Some((d, following)) = split_first(after) else {
            if !ends.contains_text_end(read) {
                return Err(Stop::new(ParseKind::EndOfText, ends.expected(), after));
            }
            push(out, '\\')?;
            return Ok(after);
        };
        rest = if read.enabled_escape && d == 'x' {
            read_coded(out, following, ends)?
        } else {
            push_escaped(out, d, read.enabled_escape)?;
            following
        };
        rest = read_short(out, rest, read, ends)?;
    }
}

/// Appends what a backslash and a character stand for, other than the `x` of a code.
#[inline(always)]
fn push_escaped(out: &mut String, c: char, escapes: bool) -> Result<(), AllocError>
    ensures { OnOk result (string_text out.new ≡ string_text out.old ++ value_after_backslash escapes c) }
{
    if c == '\n' {
        return Ok(());
    }
    if !escapes {
        push(out, '\\')?;
        return push(out, c);
    }
    push(out, escaped_value(c))
}

/// What a backslash and a character other than `x` or LF stand for.
fn escaped_value(c: char) -> char
    ensures { result ≡ unwrap_or (control c) c }
{
    if !c.is_ascii() {
        return c;
    }
    letter_value(c as u8).unwrap_or(c)
}

// coded = "\x" 4unit
/// Appends the character that the four units after `\x` spell.
#[tactic(auto, unfolding(crate::specs::Inside::StringReader::coded_character))]
fn read_coded<'a>(out: &mut String, text: &'a str, ends: Endpoints) -> Result<&'a str, Stop<'a>>
    ensures { Appends (string_text out.new) result
        (prepend (string_text out.old) (coded_character (chars text.now))) }
{
    if let Some((value, rest)) = split_coded(text) {
        push(out, value)?;
        return Ok(rest);
    }
    let (a, rest) = read_unit(text, ends)?;
    let (b, rest) = read_unit(rest, ends)?;
    let (c, rest) = read_unit(rest, ends)?;
    let (d, rest) = read_unit(rest, ends)?;
    let Some(value) = spelled_by(a, b, c, d) else {
        return Err(Stop::new(
            ParseKind::UnknownCharacter,
            "unknown character in \\xHH form",
            rest,
        ));
    };
    push(out, value)?;
    Ok(rest)
}

// unit = character / "\" LF
/// A unit: a character other than a backslash, or a backslash and LF, which is `None`.
fn read_unit(text: &str, ends: Endpoints) -> Result<(Option<char>, &str), Stop<'_>>
    ensures { Gives (λ u. u ∷ []) result (unit (chars text.now)) }
{
    let Some((c, after)) = split_first(text) else {
        return Err(Stop::new(ParseKind::EndOfText, ends.expected(), text));
    };
    if c != '\\' {
        return Ok((Some(c), after));
    }
    let Some((d, following)) = split_first(after) else {
        return Err(Stop::new(ParseKind::EndOfText, ends.expected(), after));
    };
    if d == '\n' {
        return Ok((None, following));
    }
    Err(Stop::new(
        ParseKind::BrokenEscape,
        "expecting \"\\n\" after a backslash in \\xHH form",
        following,
    ))
}

/// The character that four units spell.
fn spelled_by(a: Option<char>, b: Option<char>, c: Option<char>, d: Option<char>) -> Option<char>
    ensures { result ≡ spelled_by (a ∷ b ∷ c ∷ d ∷ []) }
{
    spelled(a?, b?, c?, d?)
}

/// The character that four characters spell.
#[inline(always)]
#[tactic(auto, unfolding(crate::specs::Grammar::EscapeSequences::spelled))]
fn spelled(a: char, b: char, c: char, d: char) -> Option<char>
    ensures { result ≡ spelled a b c d }
{
    let first = if a == '+' { 0 } else { a.to_digit(16)? };
    let value = first * 0x1000 + b.to_digit(16)? * 0x100 + c.to_digit(16)? * 0x10 + d.to_digit(16)?;
    char::from_u32(value)
}
