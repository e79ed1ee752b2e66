//! Lines of a value: quoted parts, and then one plain part to the line's end. This file knows strings,
//! and no key.
ghost use Rattle.std.specs.Prelude.{◌≡◌, true, chars, option_map};
ghost use Rattle.ini_text.specs.Inside.LineReader.{line_text, past_note, quote_at};
ghost use Rattle.ini_text.specs.Inside.Endpoints.{ends_of};
ghost use Rattle.ini_text.specs.Inside.Reading.{prepend, Appends, Gives};
ghost use Rattle.ini_text.specs.Parsing.Items.{cow_text, string_text};

use crate::option::ParseOption;
use crate::parser::endpoints::Endpoints;
use crate::parser::fault::Stop;
use crate::parser::string::read_string;
use crate::parser::trimmed::read_trimmed;
use crate::text::{after_first, is_comment_mark, skip_note, split_first, trim_from};
use std::alloc::Global;
use std::borrow::CowStr;

/// Where the quoted part that begins here ends, and what follows its mark.
fn split_quote_mark<'a>(text: &'a str, read: &ParseOption) -> Option<(Endpoints, &'a str)>
    ensures { quote_at read.now (chars text.now) ≡ option_map (λ p. (ends_of read.now p.0, chars p.1.now)) result }
{
    let (c, after) = split_first(text)?;
    if !read.enabled_quote {
        return None;
    }
    match c {
        '"' => Some((Endpoints::DoubleQuotes, after)),
        '\'' => Some((Endpoints::SingleQuotes, after)),
        _ => None,
    }
}

/// The value of a first line, and what follows its text, from its note or its end on.
#[inline(always)]
pub(crate) fn read_first_line<'a>(
    alloc: Global,
    scratch: &mut String,
    text: &'a str,
    read: &ParseOption,
) -> Result<(CowStr<'a>, &'a str), Stop<'a>>
    ensures { Gives cow_text result (line_text read.now true (chars text.now)) }
{
    match split_quote_mark(text, read) {
        None => read_trimmed(alloc, scratch, text, read, Endpoints::Plain, true),
        Some(_) => {
            scratch.clear();
            let end = read_line(alloc, scratch, text, read, true)?;
            let value = String::from_str(alloc, scratch.as_str())?;
            Ok((CowStr::Owned(value), end))
        }
    }
}

// line = *quoted-part plain-part [note]
/// Appends the value of a line, and gives what follows its text, from its note or its end on.
#[inline(always)]
pub(crate) fn read_line<'a>(
    alloc: Global,
    out: &mut String,
    text: &'a str,
    read: &ParseOption,
    is_first: bool,
) -> Result<&'a str, Stop<'a>>
    ensures { Appends (string_text out.new) result
        (prepend (string_text out.old) (line_text read.now is_first (chars text.now))) }
{
    let mut rest = text;
    let mut is_quoted = false;
    'parts: while let Some((ends, after)) = split_quote_mark(rest, read) {
        let end = read_string(out, after, read, ends)?;
        rest = after_first(end);
        is_quoted = true;
    }
    let start = out.len();
    let end = read_string(out, rest, read, Endpoints::Plain)?;
    trim_from(alloc, out, start, is_first && !is_quoted)?;
    Ok(end)
}

/// What follows a note with which a text begins, where inline comments are on.
#[inline(always)]
pub fn past_note(text: &str, read: ParseOption) -> &str
    ensures { chars result.now ≡ past_note read (chars text.now) }
{
    if !read.enabled_inline_comment {
        return text;
    }
    match split_first(text) {
        Some((c, _)) if is_comment_mark(c) => skip_note(text),
        _ => text,
    }
}
