//! The parser: the items of a text, one at a time. This file knows fronts, elements and refusals, and
//! nothing of what an element is made of.
//!
//! The files below, from the least part to the greatest: `tables`, `endpoints`, `short`, `string`, `trimmed`,
//! `line`, `value`, `pair` and `header`, `element`. Beside them `placed` has elements with their places,
//! `trivia` what is skipped between items, `fault` why reading stops, and `position` where.
ghost use Rattle.std.specs.Prelude.{◌≡◌, ◌++◌, chars, [], None, Some, Ok, IfSome, IsOkAnd, IsErrAnd, OnErr};
ghost use Rattle.ini_text.specs.Parsing.Fronts.{IsRest, front_of};
ghost use Rattle.ini_text.specs.Parsing.Parser.{AnswersItem, KeepsRefusal, TellsRefusal, refusal_of};
ghost use Rattle.ini_text.specs.Inside.ItemSearch.{FindsBorrowed, FindsItem, StopIsWithin};

use crate::error::{Error, ParseError};
use crate::item::{BorrowedItem, Item};
use crate::option::ParseOption;
use crate::parser::element::read_element;
use crate::parser::fault::Stop;
use crate::parser::position::position;
use crate::parser::rests::Rests;
use crate::text::{front_before, split_first};
use std::alloc::{AllocError, Global};
use std::borrow::CowStr;
use std::marker::Model;

mod borrowed;
mod element;
mod endpoints;
mod fault;
mod header;
pub(crate) mod line;
mod pair;
pub(crate) mod placed;
mod position;
mod rests;
mod short;
mod string;
mod tables;
mod trimmed;
mod trivia;
mod value;

/// Gives the items of a text one by one.
///
/// A clause sees where a parser stands: its options, the text, the front of the text that was read, and
/// the refusal that it has answered.
#[derive(Drop)]
pub struct Parser<'a> {
    alloc: Global,
    text: &'a str,
    rest: &'a str,
    option: ParseOption,
    refusal: Option<Stop<'a>>,
    scratch: String,
    rests: Rests<'a>,
}

impl<'a> Model for Parser<'a> {
    ghost use Rattle.std.specs.Prelude.{chars};
    ghost use Rattle.std.specs.Option.{option_map};
    ghost use Rattle.ini_text.specs.Inside.ItemSearch.{StandsIn};
    ghost use Rattle.ini_text.specs.Parsing.Fronts.{front_of};
    ghost use Rattle.ini_text.specs.Parsing.Parser.{Place, refusal_of};

    ghost Value = { Place };

    ghost view = { λ p. record {
      option = p.option;
      text = chars p.text.now;
      front = front_of (chars p.text.now) (chars p.rest.now);
      refusal = option_map (refusal_of (chars p.text.now)) p.refusal;
    } };

    ghost invariant = { λ p. StandsIn (chars p.text.now) (chars p.rest.now) p.refusal };
}

impl<'a> Parser<'a> {
    /// A parser at the front of a text. It takes no memory.
    pub fn new(alloc: Global, text: &'a str, opt: ParseOption) -> Self
        ensures option { result.option ≡ opt }
        ensures text { result.text ≡ chars text.now }
        ensures front { result.front ≡ [] }
        ensures refusal { result.refusal ≡ None }
    {
        Parser::resume_at(alloc, text, text, opt)
    }

    /// A parser at the rest of a text, which must be one. It takes no memory.
    ///
    /// It is public since `ini` goes on so in a streamed text: what one other crate may call, all may.
    pub fn resume_at(alloc: Global, text: &'a str, rest: &'a str, opt: ParseOption) -> Self
        requires { IsRest (chars text.now) (chars rest.now) }
        ensures option { result.option ≡ opt }
        ensures text { result.text ≡ chars text.now }
        ensures front { result.front ≡ front_of (chars text.now) (chars rest.now) }
        ensures refusal { result.refusal ≡ None }
    {
        Parser {
            alloc,
            text,
            rest,
            option: opt,
            refusal: None,
            scratch: String::new(alloc),
            rests: Rests::new(rest),
        }
    }

    /// What is left of the text.
    #[inline(always)]
    pub fn rest(&self) -> &'a str
        ensures { self.now.front ++ chars result.now ≡ self.now.text }
    {
        self.rest
    }

    /// The next item, and `None` at the text's end.
    ///
    /// The text is refused by `Error::Parse` where reading it stops, and by `Error::Memory` when out of
    /// memory. After a refusal the parser stays where it was, and answers the same refusal from then on.
    #[inline(always)]
    pub fn next_item(&mut self) -> Result<Option<Item>, Error>
        ensures option { self.new.option ≡ self.old.option }
        ensures text { self.new.text ≡ self.old.text }
        ensures item { self.old.refusal ≡ None
            → AnswersItem self.old.option self.old.text self.old.front self.new.front result }
        ensures ended { self.old.refusal ≡ None → self.old.front ≡ self.old.text → result ≡ Ok None }

        // A refusal is kept, and reported again.
        ensures refused_again { IfSome self.old.refusal (λ refusal. IsErrAnd result (TellsRefusal refusal)) }
        ensures refusal { KeepsRefusal self.old.refusal self.new.refusal result }
        ensures stays { OnErr result (self.new.front ≡ self.old.front) }
    {
        if let Some(stop) = self.refusal {
            return Err(error_at(self.text, stop));
        }
        match find_owned(
            self.alloc,
            &mut self.scratch,
            &mut self.rests,
            self.text,
            self.rest,
            &self.option,
        ) {
            Ok((item, rest)) => {
                self.rest = rest;
                Ok(item)
            }
            Err(stop) => Err(self.refuse(stop)),
        }
    }

    /// Stays, keeps why reading stopped, and gives the error that says so.
    fn refuse(&mut self, stop: Stop<'a>) -> Error
        requires { StopIsWithin self.now.text stop }
        ensures option { self.new.option ≡ self.old.option }
        ensures text { self.new.text ≡ self.old.text }
        ensures front { self.new.front ≡ self.old.front }
        ensures refusal { self.new.refusal ≡ Some (refusal_of self.old.text stop.entry) }
        ensures error { TellsRefusal (refusal_of self.old.text stop.entry) result }
    {
        self.refusal = Some(stop);
        error_at(self.text, stop)
    }
}

/// The first item of what is left of a text, in strings of its own, and what follows it.
#[inline(always)]
fn find_owned<'a>(
    alloc: Global,
    scratch: &mut String,
    rests: &mut Rests<'a>,
    text: &'a str,
    start: &'a str,
    read: &ParseOption,
) -> Result<(Option<Item>, &'a str), Stop<'a>>
    requires { IsRest (chars text.now) (chars start.now) }
    ensures item { FindsItem read.now (chars text.now) (chars start.now) result }
    ensures ended { chars start.now ≡ [] → IsOkAnd result (λ p. p.0 ≡ None) }
{
    let (found, rest) = find_item(alloc, scratch, rests, text, start, read)?;
    let Some(item) = found else {
        return Ok((None, rest));
    };
    let owned = item.into_owned(alloc)?;
    Ok((Some(owned), rest))
}

/// The first item of what is left of a text, and what follows it.
#[inline(always)]
fn find_item<'a>(
    alloc: Global,
    scratch: &mut String,
    rests: &mut Rests<'a>,
    text: &'a str,
    start: &'a str,
    read: &ParseOption,
) -> Result<(Option<BorrowedItem<'a>>, &'a str), Stop<'a>>
    requires { IsRest (chars text.now) (chars start.now) }
    ensures item { FindsBorrowed read.now (chars text.now) (chars start.now) result }
    ensures ended { chars start.now ≡ [] → IsOkAnd result (λ p. p.0 ≡ None) }
{
    let mut rest = start;
    'elements: while let Some((c, after)) = split_first(rest) {
        let front = front_before(text, rest);
        let (given, end) = read_element(alloc, scratch, rests, false, front, rest, c, after, read)?;
        if let Some(item) = given {
            return Ok((Some(item), end));
        }
        rest = end;
    }
    Ok((None, rest))
}

/// The error of a text that stops: its line and column are counted anew each time, without memory.
fn error_at(text: &str, stop: Stop<'_>) -> Error
    requires { StopIsWithin (chars text.now) stop }
    ensures { TellsRefusal (refusal_of (chars text.now) stop.entry) result }
{
    match stop {
        Stop::Memory => Error::Memory(AllocError),
        Stop::Fault(fault) => {
            let (line, col) = position(front_before(text, fault.rest));
            Error::Parse(ParseError {
                line,
                col,
                msg: CowStr::Borrowed(fault.message),
                kind: fault.kind,
            })
        }
    }
}
