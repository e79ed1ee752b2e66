//! Gaps laid out, line by line. This file knows kinds of characters and the rules of a layout, and no piece.
ghost use Rattle.std.specs.Prelude.{◌≡◌, ◌==◌, ◌&&◌, ◌++◌, not, IsOkUnless, OnOk, alloc_error, chars};
ghost use Rattle.ini_text.specs.Grammar.CharacterKinds.{carriage_return, is_blank, is_line_feed};
ghost use Rattle.ini_text.specs.Grammar.CharacterKinds.{begins};
ghost use Rattle.ini_text.specs.Parsing.Items.{string_text};
ghost use Rattle.ini_text.specs.Options.WriteOptions.{line_end};
ghost use Rattle.ini_edit.specs.Inside.SourceLayouts.{rules_of};
ghost use Rattle.ini_edit.specs.SourceLayout.{laid_gap, line_ends, one_more, white_before};

use crate::append::{push, push_text};
use crate::source::layout::rules::Rules;
use crate::source::lines::begins_with_line_feed;
use ini_text::{Error, LineSeparator, front_before, is_blank, split_first};

/// What follows a gap: what stays where it is, a header, before which goes a blank line, or the text's end.
#[derive(Clone, Copy, Debug)]
pub(crate) enum Follower {
    AsItIs,
    Header,
    End,
}

/// Appends a gap, laid out.
pub(crate) fn push_gap(
    out: &mut String,
    rules: &Rules<'_>,
    follower: Follower,
    gap: &str,
) -> Result<(), Error>
    ensures pushed { OnOk result (string_text out.new
        ≡ string_text out.old ++ laid_gap (rules_of rules.now) follower (chars gap.now)) }
    ensures only { IsOkUnless result (Error.Memory alloc_error) }
{
    let mut rest = gap;
    let mut line = gap;
    let mut ends = 0;
    let mut is_inside = false;
    'characters: while let Some((c, after)) = split_first(rest) {
        if c == '\n' {
            ends = one_more(rules.blank_lines, ends);
            is_inside = false;
            line = after;
            rest = after;
            continue;
        }
        if is_before_line_feed(c, after) {
            line = after;
            rest = after;
            continue;
        }
        if is_pending(is_inside, c) {
            rest = after;
            continue;
        }
        push_line_ends(out, rules.line_end, ends)?;
        push_text(out, front_before(line, rest))?;
        push(out, c)?;
        ends = 0;
        is_inside = true;
        line = after;
        rest = after;
    }
    push_white(out, rules, follower, ends, line)?;
    Ok(())
}

// Whether a character is a CR of the line end CR LF.
fn is_before_line_feed(c: char, after: &str) -> bool
    ensures { result ≡ (c == carriage_return && begins is_line_feed (chars after.now)) }
{
    c == '\r' && begins_with_line_feed(after)
}

// Whether a character is a blank of which it isn't known yet whether it stays.
fn is_pending(is_inside: bool, c: char) -> bool
    ensures { result ≡ (not is_inside && is_blank c) }
{
    !is_inside && is_blank(c)
}

// One line end more, of which no more count than one more than blank lines may stand.
fn one_more(blank_lines: u8, ends: usize) -> usize
    ensures { result ≡ one_more blank_lines ends }
{
    if ends <= blank_lines as usize {
        ends + 1
    } else {
        ends
    }
}

// Appends the white space before what follows a gap.
fn push_white(
    out: &mut String,
    rules: &Rules<'_>,
    follower: Follower,
    ends: usize,
    blanks: &str,
) -> Result<(), Error>
    ensures pushed { OnOk result (string_text out.new
        ≡ string_text out.old ++ white_before (rules_of rules.now) follower ends (chars blanks.now)) }
    ensures only { IsOkUnless result (Error.Memory alloc_error) }
{
    match follower {
        Follower::End => Ok(()),
        Follower::AsItIs => push_line(out, rules, ends, blanks),
        Follower::Header => push_line(out, rules, if ends == 0 { 0 } else { 2 }, blanks),
    }
}

// Appends line ends, and blanks.
fn push_line(out: &mut String, rules: &Rules<'_>, ends: usize, blanks: &str) -> Result<(), Error>
    ensures pushed { OnOk result (string_text out.new ≡ string_text out.old
        ++ (line_ends (rules_of rules.now).line_end ends ++ chars blanks.now)) }
    ensures only { IsOkUnless result (Error.Memory alloc_error) }
{
    push_line_ends(out, rules.line_end, ends)?;
    push_text(out, blanks)?;
    Ok(())
}

// Appends so many line ends.
fn push_line_ends(out: &mut String, end: LineSeparator, count: usize) -> Result<(), Error>
    ensures pushed { OnOk result (string_text out.new
        ≡ string_text out.old ++ line_ends (line_end end) count) }
    ensures only { IsOkUnless result (Error.Memory alloc_error) }
{
    let mut left = count;
    'ends: while left > 0 {
        push_text(out, end.as_str())?;
        left -= 1;
    }
    Ok(())
}
