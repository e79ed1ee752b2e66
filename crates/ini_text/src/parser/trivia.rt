//! White space and comments between items, which are skipped where they stand whatever follows. This file
//! knows no item.
ghost use Rattle.std.specs.Prelude.{◌≡◌, chars, option_map};
ghost use Rattle.ini_text.specs.Parsing.Fronts.{IsRest, front_of};
ghost use Rattle.ini_text.specs.Parsing.Trivia.{SkipsTrivia};
ghost use Rattle.ini_text.specs.Inside.TriviaSearch.{past_first, past_line_end};

use crate::option::ParseOption;
use crate::parser::Parser;
use crate::text::{
    Class, front_before, is_column_one, is_comment_mark, is_line_end, skip, skip_line, skip_note,
    split_first, starts_line,
};

impl<'a> Parser<'a> {
    /// Skips white space and comments before the next item that stand there whatever follows the text: each
    /// comment that LF ends, each other one with its line end, each empty line, and each white character
    /// that isn't the indentation of a line.
    pub fn skip_trivia(&mut self)
        ensures option { self.new.option ≡ self.old.option }
        ensures text { self.new.text ≡ self.old.text }
        ensures refusal { self.new.refusal ≡ self.old.refusal }
        ensures skipped { SkipsTrivia self.old.option self.old.text self.old.front self.new.front }
    {
        self.rest = after_trivia(self.text, self.rest, &self.option);
    }
}

// What follows the trivia that stand before what is left of a text.
fn after_trivia<'a>(text: &str, start: &'a str, read: &ParseOption) -> &'a str
    requires { IsRest (chars text.now) (chars start.now) }
    ensures is_rest { IsRest (chars text.now) (chars result.now) }
    ensures skipped { SkipsTrivia read.now (chars text.now)
        (front_of (chars text.now) (chars start.now)) (front_of (chars text.now) (chars result.now)) }
{
    let mut rest = start;
    'trivia: while let Some(after) = past_first(front_before(text, rest), rest, read) {
        rest = after;
    }
    rest
}

// What follows the first of the trivia with which a text begins after a front.
fn past_first<'a>(front: &str, text: &'a str, read: &ParseOption) -> Option<&'a str>
    ensures { past_first read.now (chars front.now) (chars text.now)
        ≡ option_map (λ after. chars after.now) result }
{
    let (c, after) = split_first(text)?;
    if Class::Blank.contains(c) && starts_line(front) {
        return past_line_end(skip(after, Class::Blank), read);
    }
    if c.is_whitespace() {
        return Some(after);
    }
    if is_comment_mark(c) && is_column_one(front) {
        let (_, following) = split_first(skip_line(after))?;
        return Some(following);
    }
    if is_comment_mark(c) && read.may_have_note(front) {
        let (end, following) = split_first(skip_note(after))?;
        return if is_line_end(end) {
            Some(following)
        } else {
            None
        };
    }
    None
}

// What follows the line end with which a text begins, or that a note has with which it begins.
fn past_line_end<'a>(text: &'a str, read: &ParseOption) -> Option<&'a str>
    ensures { past_line_end read.now (chars text.now) ≡ option_map (λ after. chars after.now) result }
{
    let (c, _) = split_first(text)?;
    let rest = if read.begins_note(c) {
        skip_note(text)
    } else {
        text
    };
    let (end, next) = split_first(rest)?;
    if is_line_end(end) { Some(next) } else { None }
}
