//! What mends put in, or take out, of characters, wherever they stand. This file knows no element.
ghost use Rattle.std.specs.Prelude.{◌≡◌, ◌++◌, OnOk, chars, false, true};
ghost use Rattle.ini_text.specs.Parsing.Items.{string_text};
ghost use Rattle.ini_check.specs.Mends.Characters.{closed, with_comments_moved, with_escapes_doubled};
ghost use Rattle.ini_check.specs.Mends.Characters.{with_line_ended};

use crate::lower::push;
use crate::trap::keys::{begins_like_comment, is_meant};
use crate::trap::lines::is_line_taken;
use crate::trap::lost_lines::swallows_line;
use crate::trap::quotes::is_white_to_line_end;
use ini_text::{is_blank, split_first};
use std::alloc::AllocError;

/// Appends a text.
pub(crate) fn push_text(out: &mut String, text: &str) -> Result<(), AllocError>
    ensures { OnOk result (string_text out.new ≡ string_text out.old ++ chars text.now) }
{
    out.push_str(text)
}

/// Appends a text with a mark put in at the end of its first line, before the white space there.
pub(crate) fn push_closed(out: &mut String, mark: char, text: &str) -> Result<(), AllocError>
    ensures { OnOk result (string_text out.new ≡ string_text out.old ++ closed mark true (chars text.now)) }
{
    let mut after_text = true;
    let mut rest = text;
    'characters: while let Some((c, after)) = split_first(rest) {
        if after_text && is_white_to_line_end(rest) {
            push(out, mark)?;
            return push_text(out, rest);
        }
        push(out, c)?;
        after_text = !c.is_whitespace();
        rest = after;
    }
    push(out, mark)
}

/// Appends a text with the blanks taken out that stand before comments at the front of lines.
pub(crate) fn push_comments_moved(out: &mut String, text: &str) -> Result<(), AllocError>
    ensures { OnOk result (string_text out.new
        ≡ string_text out.old ++ with_comments_moved true false (chars text.now)) }
{
    let mut at_front = true;
    let mut within = false;
    let mut rest = text;
    'characters: while let Some((c, after)) = split_first(rest) {
        if is_blank(c) && (within || (at_front && begins_like_comment(rest))) {
            at_front = false;
            within = true;
        } else {
            push(out, c)?;
            at_front = c == '\n';
            within = false;
        }
        rest = after;
    }
    Ok(())
}

/// Appends a text with the backslash of each escape doubled that may not be meant.
pub(crate) fn push_escapes_doubled(
    out: &mut String,
    in_name: bool,
    text: &str,
) -> Result<(), AllocError>
    ensures { OnOk result (string_text out.new
        ≡ string_text out.old ++ with_escapes_doubled in_name false (chars text.now)) }
{
    let mut escaped = false;
    let mut rest = text;
    'characters: while let Some((c, after)) = split_first(rest) {
        if escaped && !(is_meant(in_name, c) || is_line_taken(rest)) {
            push(out, '\\')?;
            push(out, c)?;
            escaped = false;
        } else {
            push(out, c)?;
            escaped = c == '\\' && !escaped;
        }
        rest = after;
    }
    Ok(())
}

/// Appends a comment with LF put in after its first CR that is a trap.
pub(crate) fn push_line_ended(out: &mut String, comment: &str) -> Result<(), AllocError>
    ensures { OnOk result (string_text out.new
        ≡ string_text out.old ++ with_line_ended (chars comment.now)) }
{
    let mut rest = comment;
    'characters: while let Some((c, after)) = split_first(rest) {
        push(out, c)?;
        if swallows_line(rest) {
            push(out, '\n')?;
            return push_text(out, after);
        }
        rest = after;
    }
    Ok(())
}
