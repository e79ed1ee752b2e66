//! Elements with their places: what each gives, as `element` reads it, and the stretches of a pair's source.
//! This file knows what a pair is made of, and no escape.
ghost use Rattle.std.specs.Prelude.{◌≡◌, ◌++◌, [], chars, None, Ok, IfSome, IsOkAnd, IsErrAnd};
ghost use Rattle.std.specs.Prelude.{OnErr};
ghost use Rattle.ini_text.specs.Grammar.Places.{SpaceAfter};
ghost use Rattle.ini_text.specs.Grammar.Positions.{line_of, column_of};
ghost use Rattle.ini_text.specs.Options.ReadOptions.{backslash_of};
ghost use Rattle.ini_text.specs.Inside.PlaceReader.{BeginsPair, FindsElement, HasRestsOf};
ghost use Rattle.ini_text.specs.Inside.PlaceReader.{IsBeforeSpace, PlacesPair};
ghost use Rattle.ini_text.specs.Parsing.Fronts.{IsRest};
ghost use Rattle.ini_text.specs.Parsing.Parser.{KeepsRefusal, TellsRefusal};
ghost use Rattle.ini_text.specs.Parsing.Places.{AnswersElement};

use crate::error::Error;
use crate::item::BorrowedItem;
use crate::option::ParseOption;
use crate::parser::element::read_element;
use crate::parser::fault::Stop;
use crate::parser::line::past_note;
use crate::parser::position::position;
use crate::parser::rests::Rests;
use crate::parser::{Parser, error_at};
use crate::text::{Class, front_before, is_separator, split_first, split_last};
use std::alloc::Global;
use std::borrow::CowStr;

/// One element of a text, as it stands there.
#[derive(Debug, Drop)]
pub struct PlacedElement<'a> {
    /// The stretch of the text that the element takes.
    pub source: &'a str,
    /// What it gives.
    pub content: Content<'a>,
}

/// What an element gives.
#[derive(Debug, Drop)]
pub enum Content<'a> {
    /// Nothing: the element is white space, a comment, or an indented key that the text's end cuts short.
    Nothing,
    /// The name of a section that begins here.
    Header(CowStr<'a>),
    /// A pair of the section that began last.
    Pair(PlacedPair<'a>),
}

/// A pair, and where its parts stand.
#[derive(Debug, Drop)]
pub struct PlacedPair<'a> {
    /// The key.
    pub key: CowStr<'a>,
    /// The value, without quotes and escapes.
    pub value: CowStr<'a>,
    /// Where the parts stand.
    pub places: PairPlaces<'a>,
}

/// The stretches of a pair's source, in order: put together they are the source.
#[derive(Debug, Clone, Copy)]
pub struct PairPlaces<'a> {
    /// The key as it is written, with the blanks before and after it.
    pub key: &'a str,
    /// `=` or `:`, and `None` after a key alone, which nothing follows.
    pub separator: Option<char>,
    /// The white space after the separator.
    pub space_before: &'a str,
    /// The value as it is written, with its quotes and escapes: what an edit of the value replaces.
    pub raw_value: &'a str,
    /// The white space after the value, up to a note or its line's end. It is the value's own where a
    /// backslash stands before it that takes it along.
    pub space_after: &'a str,
    /// Where inline comments are on, the note after the value, up to its line's end.
    pub note: &'a str,
    /// Where values are multiline, the line end after the value, and the lines after it that give nothing;
    /// else nothing: the line end is no part of the pair.
    pub trailing_lines: &'a str,
}

impl<'a> Parser<'a> {
    /// The next element, and `None` at the text's end. Their sources put together are the text.
    ///
    /// It gives the items that `next_item` gives, one after another, and what stands between them. The text
    /// is refused as there. After a refusal the parser stands before the refused element, so `position`
    /// tells where a quote, a bracket or a key stands that isn't ended; and it answers the same refusal from
    /// then on.
    pub fn next_element(&mut self) -> Result<Option<PlacedElement<'a>>, Error>
        ensures option { self.new.option ≡ self.old.option }
        ensures text { self.new.text ≡ self.old.text }
        ensures element { self.old.refusal ≡ None
            → AnswersElement self.old.option self.old.text self.old.front self.new.front result }
        ensures ended { self.old.refusal ≡ None → self.old.front ≡ self.old.text → result ≡ Ok None }
        ensures refused_again { IfSome self.old.refusal (λ refusal. IsErrAnd result (TellsRefusal refusal)) }
        ensures refusal { KeepsRefusal self.old.refusal self.new.refusal result }
        ensures stays { OnErr result (self.new.front ≡ self.old.front) }
    {
        if let Some(stop) = self.refusal {
            return Err(error_at(self.text, stop));
        }
        match find_element(
            self.alloc,
            &mut self.scratch,
            &mut self.rests,
            self.text,
            self.rest,
            &self.option,
        ) {
            Ok((element, rest)) => {
                self.rest = rest;
                Ok(element)
            }
            Err(stop) => Err(self.refuse(stop)),
        }
    }

    /// The line and the column where the parser stands, each counted from one, the column in characters.
    pub fn position(&self) -> (usize, usize)
        ensures line { result.0 ≡ line_of self.now.front }
        ensures column { result.1 ≡ column_of self.now.front }
    {
        position(front_before(self.text, self.rest))
    }
}

/// The element with which a rest of a text begins, and what follows it.
fn find_element<'a>(
    alloc: Global,
    scratch: &mut String,
    rests: &mut Rests<'a>,
    text: &'a str,
    start: &'a str,
    read: &ParseOption,
) -> Result<(Option<PlacedElement<'a>>, &'a str), Stop<'a>>
    requires { IsRest (chars text.now) (chars start.now) }
    ensures element { FindsElement read.now (chars text.now) (chars start.now) result }
    ensures ended { chars start.now ≡ [] → IsOkAnd result (λ p. p.0 ≡ None) }
{
    let Some((c, after)) = split_first(start) else {
        return Ok((None, start));
    };
    let front = front_before(text, start);
    let (given, rest) = read_element(alloc, scratch, rests, true, front, start, c, after, read)?;
    let source = front_before(start, rest);
    let content = match given {
        None => Content::Nothing,
        Some(BorrowedItem::Header(name)) => Content::Header(name),
        Some(BorrowedItem::Pair(key, value)) => {
            let places = place_pair(start, *rests, value.as_str(), rest, read);
            Content::Pair(PlacedPair { key, value, places })
        }
    };
    Ok((Some(PlacedElement { source, content }), rest))
}

/// The places of the pair with which a text begins, and which ends at a rest of it, by the rests that were
/// seen while it was read.
fn place_pair<'a>(
    text: &'a str,
    rests: Rests<'a>,
    value: &str,
    end: &'a str,
    read: &ParseOption,
) -> PairPlaces<'a>
    requires pair { BeginsPair read.now (chars text.now) (chars end.now) }
    requires rests { HasRestsOf read.now (chars text.now) rests (chars value.now) (chars end.now) }
    ensures { PlacesPair read.now (chars text.now) (chars end.now) result }
{
    let _ = value;
    let after_key = rests.after_key;
    let start = rests.start;
    let tail = rests.tail;
    let key = front_before(text, after_key);
    match split_first(after_key) {
        Some((separator, after)) if is_separator(separator) => {
            let (raw_value, space_after) = split_space_after(front_before(start, tail), read);
            let after_note = past_note(tail, *read);
            PairPlaces {
                key,
                separator: Some(separator),
                space_before: front_before(after, start),
                raw_value,
                space_after,
                note: front_before(tail, after_note),
                trailing_lines: front_before(after_note, end),
            }
        }
        _ => PairPlaces {
            key,
            separator: None,
            space_before: "",
            raw_value: "",
            space_after: "",
            note: "",
            trailing_lines: "",
        },
    }
}

/// A value's own lines without the white space at their end, and that; all of them where a backslash stands
/// before it that takes it along.
fn split_space_after<'a>(lines: &'a str, read: &ParseOption) -> (&'a str, &'a str)
    ensures whole { chars lines.now ≡ chars result.0.now ++ chars result.1.now }
    ensures space_after { SpaceAfter (backslash_of read.now) (chars result.0.now) (chars result.1.now) }
{
    lines.split_at(without_space_after(lines, read).len())
}

/// What stands before the white space at the end of a value's own lines.
fn without_space_after<'a>(lines: &'a str, read: &ParseOption) -> &'a str
    ensures { IsBeforeSpace (backslash_of read.now) (chars lines.now) (chars result.now) }
{
    let mut raw_value = lines;
    'white: while let Some((before, c)) = split_last(raw_value) {
        if read.begins_escape(c) {
            return lines;
        }
        if !Class::InlineWhite.contains(c) {
            return raw_value;
        }
        raw_value = before;
    }
    raw_value
}
