//! Pairs: keys, indented or not, and what follows them; and what else a line may give that begins with
//! blanks. This file knows strings and values.
ghost use Rattle.std.specs.Prelude.{◌≡◌, ℕ, true, chars, drop, IfOk};
ghost use Rattle.ini_text.specs.Grammar.CharacterKinds.{is_blank};
ghost use Rattle.ini_text.specs.Inside.ElementReader.{after_blanks, after_key, given};
ghost use Rattle.ini_text.specs.Inside.ElementReader.{indented_pair_of_key, kept_blanks, key_string};
ghost use Rattle.ini_text.specs.Inside.ElementReader.{lone_key, trimmed_key};
ghost use Rattle.ini_text.specs.Inside.ElementReader.{unindented_pair};
ghost use Rattle.ini_text.specs.Inside.PlaceReader.{HasRests, HasValueRests, IsHeader};
ghost use Rattle.ini_text.specs.Inside.Reading.{Answer, Gives, StopsBy, prepend};
ghost use Rattle.ini_text.specs.Inside.Scans.{run_of, skipped};
ghost use Rattle.ini_text.specs.Parsing.Items.{cow_text};
ghost use Rattle.ini_text.specs.declared.option.ParseOption.{ParseOption};

use crate::error::ParseKind;
use crate::item::BorrowedItem;
use crate::option::{LoneLine, ParseOption};
use crate::parser::endpoints::Endpoints;
use crate::parser::fault::Stop;
use crate::parser::rests::Rests;
use crate::parser::string::read_string;
use crate::parser::trimmed::read_trimmed;
use crate::parser::value::read_value;
use crate::text::{
    Class, after_first, front_before, is_line_end, is_separator, skip, skip_note, split_first, trim,
};
use std::alloc::Global;
use std::borrow::CowStr;

// pair = key separator value
/// A pair whose key isn't indented.
#[inline(always)]
pub(crate) fn read_unindented<'a>(
    alloc: Global,
    scratch: &mut String,
    rests: &mut Rests<'a>,
    places: bool,
    text: &'a str,
    read: &ParseOption,
) -> Result<(Option<BorrowedItem<'a>>, &'a str), Stop<'a>>
    requires { skipped is_blank (chars text.now) ≡ chars text.now }
    ensures gives { Gives given result (unindented_pair read.now (chars text.now)) }
    ensures rests { places ≡ true
        → IfOk result (λ p. HasRests read.now (chars text.now) rests.new p.0 (chars p.1.now)) }
{
    let both = !read.enabled_preserve_key_leading_whitespace;
    let ends = Endpoints::Key;
    let (key, rest) = read_trimmed(alloc, scratch, text, read, ends, both)?;
    read_pair(alloc, scratch, rests, places, key, rest, read)
}

// gap / 1*blank note / 1*blank key separator value / dropped-tail, where blanks begin a line
/// What a line gives that begins with blanks: nothing, or a pair whose key is indented.
pub(crate) fn read_indented<'a>(
    alloc: Global,
    scratch: &mut String,
    rests: &mut Rests<'a>,
    places: bool,
    text: &'a str,
    read: &ParseOption,
) -> Result<(Option<BorrowedItem<'a>>, &'a str), Stop<'a>>
    ensures rests { places ≡ true
        → IfOk result (λ p. HasRests read.now (chars text.now) rests.new p.0 (chars p.1.now)) }
    ensures gives { Gives given result
        (after_blanks read.now (run_of is_blank (chars text.now)) (skipped is_blank (chars text.now))) }
{
    let start = skip(text, Class::Blank);
    let Some((c, after)) = split_first(start) else {
        return Ok((None, start));
    };
    if is_line_end(c) {
        return Ok((None, after));
    }
    if c == '[' {
        return Ok((None, start));
    }
    if read.begins_note(c) {
        return Ok((None, skip_note(after)));
    }
    match read_indented_key(alloc, scratch, front_before(text, start), start, read) {
        Ok((key, rest)) => read_pair(alloc, scratch, rests, places, key, rest, read),
        Err(stop) => drop_tail(stop, read.line_without_separator),
    }
}

/// An indented key, which stands after its blanks, and what follows it, from what ends it on. It is
/// borrowed where its blanks aren't kept.
fn read_indented_key<'a>(
    alloc: Global,
    scratch: &mut String,
    blanks: &str,
    text: &'a str,
    read: &ParseOption,
) -> Result<(CowStr<'a>, &'a str), Stop<'a>>
    ensures { Gives cow_text result (trimmed_key read.now (prepend (kept_blanks read.now (chars blanks.now))
        (key_string read.now (chars text.now)))) }
{
    let ends = Endpoints::Key;
    if !read.enabled_preserve_key_leading_whitespace {
        return read_trimmed(alloc, scratch, text, read, ends, true);
    }
    let mut key = String::from_str(alloc, blanks)?;
    let rest = read_string(&mut key, text, read, ends)?;
    let key = trim(alloc, key, false)?;
    Ok((CowStr::Owned(key), rest))
}

/// Where keys run on, what is left of a text that ends within an indented one gives nothing; other stops
/// stay.
fn drop_tail<'a>(
    stop: Stop<'a>,
    line: LoneLine,
) -> Result<(Option<BorrowedItem<'a>>, &'a str), Stop<'a>>
    ensures gives { (o : ParseOption) (a : Answer ℕ) → o.line_without_separator ≡ line
        → StopsBy a stop.entry → Gives given result (indented_pair_of_key o a) }
    ensures nothing { IfOk result (λ p. IsHeader p.0) }
{
    if !matches!(line, LoneLine::RunsOn) {
        return Err(stop);
    }
    match stop {
        Stop::Memory => Err(stop),
        Stop::Fault(fault) => match fault.kind {
            ParseKind::EndOfText => Ok((None, fault.rest)),
            _ => Err(stop),
        },
    }
}

// separator value, after a key
/// What follows a key, from what ends it on: a separator and a value; else the key stands alone.
#[inline(always)]
fn read_pair<'a>(
    alloc: Global,
    scratch: &mut String,
    rests: &mut Rests<'a>,
    places: bool,
    key: CowStr<'a>,
    rest: &'a str,
    read: &ParseOption,
) -> Result<(Option<BorrowedItem<'a>>, &'a str), Stop<'a>>
    ensures gives { Gives given result (after_key read.now (cow_text key.entry) (chars rest.now)) }
    ensures rests { places ≡ true
        → IfOk result (λ p. HasValueRests read.now (chars rest.now) rests.new p.0 (chars p.1.now)) }
{
    let Some((c, after)) = split_first(rest) else {
        rests.keep_key(places, rest);
        return read_lone_key(key, rest, read.line_without_separator);
    };
    if !is_separator(c) {
        rests.keep_key(places, rest);
        return read_lone_key(key, rest, read.line_without_separator);
    }
    if key.as_str().is_empty() {
        return Err(Stop::new(ParseKind::MissingKey, "missing key", after));
    }
    let (value, end) = read_value(alloc, scratch, rests, places, after, read)?;
    rests.keep_key(places, rest);
    Ok((Some(BorrowedItem::Pair(key, value)), end))
}

// after a key that ends with its line, or with the text
/// A key alone: refused, or a pair with the empty value.
fn read_lone_key<'a>(
    key: CowStr<'a>,
    rest: &'a str,
    line: LoneLine,
) -> Result<(Option<BorrowedItem<'a>>, &'a str), Stop<'a>>
    ensures { Gives given result (lone_key line (cow_text key.entry) (chars rest.now)) }
{
    let after = after_first(rest);
    if !matches!(line, LoneLine::Key) {
        return Err(Stop::new(
            ParseKind::NoSeparator,
            "no separator follows the key in its line",
            after,
        ));
    }
    if !key.as_str().is_empty() {
        return Ok((Some(BorrowedItem::Pair(key, CowStr::Borrowed(""))), rest));
    }
    if rest.is_empty() {
        let expected = Endpoints::Key.expected();
        return Err(Stop::new(ParseKind::EndOfText, expected, rest));
    }
    Err(Stop::new(ParseKind::MissingKey, "missing key", after))
}
