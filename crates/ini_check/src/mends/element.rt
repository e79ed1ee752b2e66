//! One element with a trap mended. This file knows its stretches, and no other element.
ghost use Rattle.std.specs.Prelude.{◌≡◌, ◌++◌, OnOk, chars, if◌then◌else◌};
ghost use Rattle.ini_text.specs.Grammar.CharacterKinds.{backslash};
ghost use Rattle.ini_text.specs.Grammar.Places.{pair_source};
ghost use Rattle.ini_text.specs.Parsing.Items.{string_text};
ghost use Rattle.ini_text.specs.Parsing.Places.{HasPlaces, stretches_of};
ghost use Rattle.ini.specs.Texts.{Text};
ghost use Rattle.ini_check.specs.Mends.Characters.{space};
ghost use Rattle.ini_check.specs.Mends.Elements.{mended, mended_header, mended_key, mended_nothing};
ghost use Rattle.ini_check.specs.Mends.Elements.{mended_value};
ghost use Rattle.ini_check.specs.Traps.Values.{space_of};
ghost use Rattle.ini_text.specs.declared.parser.placed.Content.TheVariants.{Pair};

use crate::lower::push;
use crate::mends::characters::{
    push_closed, push_comments_moved, push_escapes_doubled, push_line_ended, push_text,
};
use crate::mends::values::{push_lines_parted, push_quote_closed, push_value_escapes_doubled};
use crate::trap::keys::{comment_runs_on, has_key_escape, has_line_end, mark_begins_key};
use crate::trap::lost_lines::begins_with_mark;
use crate::trap::values::{is_inline_white, value_of};
use crate::warn::after_separator;
use crate::warning::Trap;
use ini_text::{Content, ParseOption, PlacedElement, PlacedPair, split_first};
use std::alloc::AllocError;

/// Appends an element's source, in which the trap is mended where it is there.
pub(crate) fn push_mended(
    out: &mut String,
    element: &PlacedElement,
    read: ParseOption,
    trap: Trap,
) -> Result<(), AllocError>
    requires places { (b : Text) × ((r : Text)
        × HasPlaces read b (chars element.now.source.now) r element.now.content) }
    ensures { OnOk result (string_text out.new ≡ string_text out.old
        ++ mended read trap (chars element.now.source.now) element.now.content) }
{
    let source = element.source;
    match &element.content {
        Content::Nothing => push_nothing(out, source, trap),
        Content::Header(_) => push_header(out, source, read.enabled_escape, trap),
        Content::Pair(pair) => push_pair(out, source, pair, read, trap),
    }
}

// Of what gives nothing.
fn push_nothing(out: &mut String, source: &str, trap: Trap) -> Result<(), AllocError>
    ensures { OnOk result (string_text out.new
        ≡ string_text out.old ++ mended_nothing trap (chars source.now)) }
{
    match trap {
        Trap::LoneCr if begins_with_mark(source) => push_line_ended(out, source),
        _ => push_text(out, source),
    }
}

fn push_header(out: &mut String, source: &str, escapes: bool, trap: Trap) -> Result<(), AllocError>
    ensures { OnOk result (string_text out.new
        ≡ string_text out.old ++ mended_header escapes trap (chars source.now)) }
{
    match trap {
        Trap::UnclosedBracket if has_line_end(source) => push_closed(out, ']', source),
        Trap::EscapeInName if escapes => push_escapes_doubled(out, true, source),
        _ => push_text(out, source),
    }
}

fn push_pair(
    out: &mut String,
    source: &str,
    pair: &PlacedPair,
    read: ParseOption,
    trap: Trap,
) -> Result<(), AllocError>
    requires source { chars source.now ≡ pair_source (stretches_of pair.now.places) }
    ensures { OnOk result (string_text out.new
        ≡ string_text out.old ++ mended read trap (chars source.now) (Pair pair.now)) }
{
    let key = pair.places.key;
    push_key(out, key, read.enabled_escape, trap)?;
    let Some(separator) = pair.places.separator else {
        return Ok(());
    };
    let value_source = after_separator(source, key);
    push(out, separator)?;
    push_space(out, value_source)?;
    push_value(out, value_of(value_source), read, trap)
}

// The source of a key.
fn push_key(out: &mut String, key: &str, escapes: bool, trap: Trap) -> Result<(), AllocError>
    ensures { OnOk result (string_text out.new
        ≡ string_text out.old ++ mended_key escapes trap (chars key.now)) }
{
    match trap {
        Trap::CommentRunsOn if comment_runs_on(key) => push_comments_moved(out, key),
        Trap::MarkBeginsKey if mark_begins_key(key) => push_comments_moved(out, key),
        Trap::EscapeInKey if has_key_escape(escapes, key) => push_escapes_doubled(out, false, key),
        _ => push_text(out, key),
    }
}

// The white space before a value, of what stands after the separator.
fn push_space(out: &mut String, source: &str) -> Result<(), AllocError>
    ensures { OnOk result (string_text out.new ≡ string_text out.old ++ space_of (chars source.now)) }
{
    let mut rest = source;
    'characters: while let Some((c, after)) = split_first(rest) {
        if !is_inline_white(c) {
            return Ok(());
        }
        push(out, c)?;
        rest = after;
    }
    Ok(())
}

// A raw value, with what stands after it.
fn push_value(
    out: &mut String,
    value: &str,
    read: ParseOption,
    trap: Trap,
) -> Result<(), AllocError>
    ensures { OnOk result (string_text out.new
        ≡ string_text out.old ++ mended_value read trap (chars value.now)) }
{
    match trap {
        Trap::UnclosedQuote => push_quote_closed(out, read, value),
        Trap::JoinedLine => {
            push_lines_parted(out, part_of_lines(read.enabled_escape), read, value)
        }
        Trap::Escape if read.enabled_escape => push_value_escapes_doubled(out, read, value),
        _ => push_text(out, value),
    }
}

// What parts two lines after a backslash: another one where escapes are read, else a space.
fn part_of_lines(escapes: bool) -> char
    ensures { result ≡ (if escapes then backslash else space) }
{
    if escapes { '\\' } else { ' ' }
}
