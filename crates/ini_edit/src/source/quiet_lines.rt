//! The lines after a multiline value: where one ends, and the quiet ones at their end, which are blank or
//! hold an indented comment.
ghost use Rattle.std.specs.Prelude.{◌≡◌, chars};
ghost use Rattle.ini_edit.specs.Inside.Lines.{place_of};
ghost use Rattle.ini_edit.specs.SourceLines.{ends_in_line, ends_line, is_line, next_place};
ghost use Rattle.ini_edit.specs.SourceLines.{next_within, quiet_lines_at_end, stays_quiet};

use crate::source::lines::begins_with_line_feed;
use ini_text::{ParseOption, is_blank, is_comment_mark, is_line_end, split_first};

// Where a walk over the lines after a value stands: where a line starts, in the white space that begins it,
// further within it, there behind a raw blank, after a backslash that takes what follows, or in a note.
#[derive(Clone, Copy, Debug)]
enum LinePlace {
    Line,
    Lead,
    Within,
    Space,
    Escape,
    Note,
}

/// The quiet lines with which the lines after a value end, from a line's start on: those of blanks alone, and
/// indented comments after blanks.
pub(crate) fn quiet_lines_at_end(text: &str, read: ParseOption) -> &str
    ensures { chars result.now ≡ quiet_lines_at_end read (chars text.now) }
{
    let mut rest = text;
    let mut lines = text;
    let mut place = LinePlace::Within;
    let mut is_quiet = false;
    'characters: while let Some((c, after)) = split_first(rest) {
        let starts = is_line_start(place);
        let stays = stays_quiet(place, c, read);
        if stays && starts && !is_quiet {
            lines = rest;
        }
        is_quiet = stays && (is_quiet || starts);
        place = next_place(place, c, after, read);
        rest = after;
    }
    if is_quiet {
        return lines;
    }
    rest
}

/// Whether a line ends where the lines after a value end, of which no backslash takes the line end.
pub(crate) fn ends_line(text: &str, read: ParseOption) -> bool
    ensures { result ≡ ends_in_line read (chars text.now) }
{
    let mut rest = text;
    let mut place = LinePlace::Within;
    'characters: while let Some((c, after)) = split_first(rest) {
        place = next_place(place, c, after, read);
        rest = after;
    }
    is_line_start(place)
}

// Whether a line starts there.
fn is_line_start(place: LinePlace) -> bool
    ensures { result ≡ is_line (place_of place) }
{
    matches!(place, LinePlace::Line)
}

// Whether a quiet line may go on with this character.
fn stays_quiet(place: LinePlace, c: char, read: ParseOption) -> bool
    ensures { result ≡ stays_quiet read (place_of place) c }
{
    match place {
        LinePlace::Line => is_blank(c) || is_line_end(c),
        LinePlace::Lead => is_blank(c) || is_line_end(c) || read.begins_note(c),
        LinePlace::Within => is_line_end(c),
        LinePlace::Space | LinePlace::Escape => false,
        LinePlace::Note => true,
    }
}

// The place one character on, where a CR with no LF after it ends a line too.
fn next_place(place: LinePlace, c: char, after: &str, read: ParseOption) -> LinePlace
    ensures { place_of result ≡ next_place read (place_of place) c (chars after.now) }
{
    if matches!(place, LinePlace::Escape) {
        return LinePlace::Within;
    }
    if is_line_end_before(c, after) {
        return LinePlace::Line;
    }
    match place {
        LinePlace::Note if !is_line_end(c) => LinePlace::Note,
        LinePlace::Line if is_blank(c) => LinePlace::Lead,
        LinePlace::Lead if c.is_whitespace() && !is_line_end(c) => LinePlace::Lead,
        LinePlace::Lead if read.begins_note(c) => LinePlace::Note,
        LinePlace::Space if read.enabled_inline_comment && is_comment_mark(c) => LinePlace::Note,
        _ => next_within(c, read),
    }
}

// Whether a line ends with this character, before this text.
fn is_line_end_before(c: char, after: &str) -> bool
    ensures { result ≡ ends_line c (chars after.now) }
{
    c == '\n' || (c == '\r' && !begins_with_line_feed(after))
}

// The place after a character within a line.
fn next_within(c: char, read: ParseOption) -> LinePlace
    ensures { place_of result ≡ next_within read c }
{
    if read.begins_escape(c) {
        return LinePlace::Escape;
    }
    if is_blank(c) {
        return LinePlace::Space;
    }
    LinePlace::Within
}
