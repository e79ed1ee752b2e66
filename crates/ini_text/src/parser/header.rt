//! Headers, with and without brackets in names. This file knows strings, and no element.
ghost use Rattle.std.specs.Prelude.{◌≡◌, ◌∷◌, [], chars, option_map, IfOk, MatchResult};
ghost use Rattle.ini_text.specs.Grammar.Strings.{bracketed_name_ends, noted};
ghost use Rattle.ini_text.specs.Grammar.Elements.{Header};
ghost use Rattle.ini_text.specs.Inside.ElementReader.{after_bracket, bracketed_header, given};
ghost use Rattle.ini_text.specs.Inside.ElementReader.{header_of_name, name_in};
ghost use Rattle.ini_text.specs.Inside.PlaceReader.{IsHeader};
ghost use Rattle.ini_text.specs.Inside.Reading.{Gives, StopsBy, found};
ghost use Rattle.ini_text.specs.Options.ReadOptions.{backslash_of};
ghost use Rattle.ini_text.specs.Inside.StringReader.{string};

use crate::error::ParseKind;
use crate::item::BorrowedItem;
use crate::option::ParseOption;
use crate::parser::endpoints::Endpoints;
use crate::parser::fault::Stop;
use crate::parser::string::{read_string, split_raw};
use crate::parser::trimmed::read_trimmed;
use crate::text::{Class, after_first, split_last, trimmed};
use std::alloc::Global;
use std::borrow::CowStr;

// header = "[" name "]" / bracketed-header
/// A header after its bracket.
pub(crate) fn read_header<'a>(
    alloc: Global,
    scratch: &mut String,
    text: &'a str,
    read: &ParseOption,
) -> Result<(Option<BorrowedItem<'a>>, &'a str), Stop<'a>>
    ensures gives { Gives given result (after_bracket read.now (chars text.now)) }
    ensures header { IfOk result (λ p. IsHeader p.0) }
{
    if read.enabled_brackets_in_section_names {
        return read_bracketed_header(alloc, scratch, text, read);
    }
    let (name, rest) = read_trimmed(alloc, scratch, text, read, Endpoints::Name, true)?;
    Ok((Some(BorrowedItem::Header(name)), after_first(rest)))
}

// bracketed-header = "[" name "]" *blank, up to LF, CR or a note
/// A header after its bracket that goes up to its line's end, or to a note. Its name is borrowed where it is
/// one run.
fn read_bracketed_header<'a>(
    alloc: Global,
    scratch: &mut String,
    text: &'a str,
    read: &ParseOption,
) -> Result<(Option<BorrowedItem<'a>>, &'a str), Stop<'a>>
    ensures header { IfOk result (λ p. IsHeader p.0) }
    ensures gives { Gives given result
        (bracketed_header (string (backslash_of read.now) (noted read.now bracketed_name_ends) (chars text.now))) }
{
    if let Some((run, rest)) = split_raw(text, read, Endpoints::BracketedName) {
        let name = name_before(run, rest)?;
        return Ok((Some(BorrowedItem::Header(CowStr::Borrowed(name))), rest));
    }
    scratch.clear();
    let rest = read_string(scratch, text, read, Endpoints::BracketedName)?;
    let name = name_before(scratch.as_str(), rest)?;
    let kept = String::from_str(alloc, name)?;
    Ok((Some(BorrowedItem::Header(CowStr::Owned(kept))), rest))
}

/// The name in a header's line, before what follows that.
fn name_before<'l, 'a>(line: &'l str, rest: &'a str) -> Result<&'l str, Stop<'a>>
    ensures { MatchResult result
        (λ name. header_of_name (name_in (chars line.now)) (chars rest.now)
        ≡ found (Header (chars name.now) ∷ []) (chars rest.now))
        (StopsBy (header_of_name (name_in (chars line.now)) (chars rest.now))) }
{
    match before_bracket(line) {
        Some(before) => Ok(trimmed(before, true)),
        None => Err(Stop::new(
            ParseKind::HeaderEnd,
            "section must be ended with ']'",
            after_first(rest),
        )),
    }
}

/// What stands before the last closing bracket of a text, if blanks alone stand after that.
fn before_bracket(text: &str) -> Option<&str>
    ensures { name_in (chars text.now) ≡ option_map (λ name. chars name.now) result }
{
    let mut rest = text;
    'blanks: while let Some((before, c)) = split_last(rest) {
        if c == ']' {
            return Some(before);
        }
        if !Class::Blank.contains(c) {
            return None;
        }
        rest = before;
    }
    None
}
