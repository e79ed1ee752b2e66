//! Elements: white space, comments, and where a header or a pair begins. This file knows headers and
//! pairs, and no string.
ghost use Rattle.std.specs.Prelude.{◌≡◌, ◌∷◌, true, chars, IfOk};
ghost use Rattle.ini_text.specs.Inside.ElementReader.{after_mark, element, given};
ghost use Rattle.ini_text.specs.Inside.PlaceReader.{HasRests, IsHeader};
ghost use Rattle.ini_text.specs.Inside.Reading.{Gives};

use crate::error::ParseKind;
use crate::item::BorrowedItem;
use crate::option::ParseOption;
use crate::parser::fault::Stop;
use crate::parser::header::read_header;
use crate::parser::pair::{read_indented, read_unindented};
use crate::parser::rests::Rests;
use crate::text::{
    Class, after_first, is_column_one, is_comment_mark, skip_line, skip_note, starts_line,
};
use std::alloc::Global;

// element = gap / comment / header / pair / dropped-tail
/// The element with which a text that begins with `c` goes on after a front, if it gives an item, and
/// what follows it. With `places` the rests of a pair are kept.
#[inline(always)]
#[tactic(auto, unfolding(crate::specs::Inside::ElementReader::element))]
pub(crate) fn read_element<'a>(
    alloc: Global,
    scratch: &mut String,
    rests: &mut Rests<'a>,
    places: bool,
    front: &str,
    text: &'a str,
    c: char,
    after: &'a str,
    read: &ParseOption,
) -> Result<(Option<BorrowedItem<'a>>, &'a str), Stop<'a>>
    requires { chars text.now ≡ c ∷ chars after.now }
    ensures gives { Gives given result (element read.now (chars front.now) (chars text.now)) }
    ensures rests { places ≡ true
        → IfOk result (λ p. HasRests read.now (chars text.now) rests.new p.0 (chars p.1.now)) }
{
    if Class::Blank.contains(c) {
        if starts_line(front) {
            return read_indented(alloc, scratch, rests, places, text, read);
        }
        return Ok((None, after));
    }
    if c.is_whitespace() {
        return Ok((None, after));
    }
    if is_comment_mark(c) {
        return read_comment(front, after, read);
    }
    if c == '[' {
        return read_header(alloc, scratch, after, read);
    }
    read_unindented(alloc, scratch, rests, places, text, read)
}

// comment = mark *(any but LF) [LF], in column one; elsewhere a note, where one may stand
/// A comment after its mark.
fn read_comment<'a>(
    front: &str,
    after: &'a str,
    read: &ParseOption,
) -> Result<(Option<BorrowedItem<'a>>, &'a str), Stop<'a>>
    ensures gives { Gives given result (after_mark read.now (chars front.now) (chars after.now)) }
    ensures nothing { IfOk result (λ p. IsHeader p.0) }
{
    if is_column_one(front) {
        return Ok((None, after_first(skip_line(after))));
    }
    if read.may_have_note(front) {
        return Ok((None, skip_note(after)));
    }
    Err(Stop::new(
        ParseKind::InlineComment,
        "doesn't support inline comment",
        after,
    ))
}
