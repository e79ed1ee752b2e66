//! Strings that are trimmed: names, keys, and values without quotes. This file knows strings and trims, and
//! no line.
ghost use Rattle.std.specs.Prelude.{chars};
ghost use Rattle.ini_text.specs.Inside.Endpoints.{ends_of};
ghost use Rattle.ini_text.specs.Inside.Reading.{altered_answer, Gives};
ghost use Rattle.ini_text.specs.Inside.Scans.{trimmed_at};
ghost use Rattle.ini_text.specs.Options.ReadOptions.{backslash_of};
ghost use Rattle.ini_text.specs.Inside.StringReader.{string};
ghost use Rattle.ini_text.specs.Parsing.Items.{cow_text};

use crate::option::ParseOption;
use crate::parser::endpoints::Endpoints;
use crate::parser::fault::Stop;
use crate::parser::string::{read_string, split_raw};
use crate::text::trimmed;
use std::alloc::Global;
use std::borrow::CowStr;

/// A string up to an endpoint, trimmed at its end or at both ends, and what follows it, from its endpoint
/// on. What `scratch` holds is lost.
#[inline(always)]
pub(crate) fn read_trimmed<'a>(
    alloc: Global,
    scratch: &mut String,
    text: &'a str,
    read: &ParseOption,
    ends: Endpoints,
    both: bool,
) -> Result<(CowStr<'a>, &'a str), Stop<'a>>
    ensures { Gives cow_text result
        (altered_answer (trimmed_at both) (string (backslash_of read.now) (ends_of read.now ends) (chars text.now))) }
{
    // Most strings are one run of the text: they are borrowed.
    if let Some((run, rest)) = split_raw(text, read, ends) {
        return Ok((CowStr::Borrowed(trimmed(run, both)), rest));
    }
    scratch.clear();
    let rest = read_string(scratch, text, read, ends)?;
    let kept = String::from_str(alloc, trimmed(scratch.as_str(), both))?;
    Ok((CowStr::Owned(kept), rest))
}
