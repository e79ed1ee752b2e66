//! Places in a text in pieces where a line goes that follows no pair: after a header, at the text's front,
//! and at its end. This file knows lines, and no piece.
ghost use Rattle.std.specs.Prelude.{◌≡◌, ◌++◌, MatchOption, None, Some, chars, drop, length};
ghost use Rattle.std.specs.Option.{option_map};
ghost use Rattle.ini_text.specs.Parsing.Fronts.{IsRest, front_of};
ghost use Rattle.ini_edit.specs.Inside.SourceEnds.{place_of};
ghost use Rattle.ini_edit.specs.SourceEditsAdd.{after_header, after_header_comments, after_licence};
ghost use Rattle.ini_edit.specs.SourceEditsAdd.{at_front, first_place, freed};
ghost use Rattle.ini_edit.specs.SourceEditsAdd.{past_blank_lines};
ghost use Rattle.ini_edit.specs.SourceEditsSections.{after_new_section};

use crate::source::lines::{
    after_comments, after_line_end, blanks_at_end, dropped_key, from_last_solid, has_lone_return,
    is_empty, last_or, line_end_at_end, split_blank_lines, split_line,
};
use ini_text::{ParseOption, front_before};

/// A place in a gap, where a pair's line goes.
#[derive(Clone, Copy, Debug)]
pub(crate) struct GapPlace<'t> {
    /// What stands before the place.
    pub(crate) before: &'t str,
    /// Whether a line starts there.
    pub(crate) is_line_start: bool,
    /// Blank lines after it that a multiline value takes.
    pub(crate) lines: &'t str,
    /// What follows.
    pub(crate) after: &'t str,
}

/// The place after a header, or at the text's front, for a section's first pair, where there is one.
pub(crate) fn place_for_first<'t>(
    gap: &'t str,
    is_general: bool,
    is_last: bool,
    read: ParseOption,
) -> Option<GapPlace<'t>>
    ensures { option_map place_of result ≡ first_place read is_general is_last (chars gap.now) }
{
    let wanted = if is_general {
        after_licence(gap)
    } else {
        after_header_comments(gap)
    };
    if !read.enabled_indented_mutiline_value {
        return Some(wanted);
    }
    if let Some(place) = freed(wanted, is_last) {
        return Some(place);
    }
    let first = if is_general {
        at_front(gap)
    } else {
        after_header(gap)
    };
    if let Some(place) = freed(first, is_last) {
        return Some(place);
    }
    past_blank_lines(gap, first.after)
}

// At the front of a gap, where a line starts.
fn at_front(gap: &str) -> GapPlace<'_>
    ensures { place_of result ≡ at_front (chars gap.now) }
{
    GapPlace {
        before: "",
        is_line_start: true,
        lines: "",
        after: gap,
    }
}

// After the header's own line.
fn after_header(gap: &str) -> GapPlace<'_>
    ensures { place_of result ≡ after_header (chars gap.now) }
{
    let (before, after) = split_line(gap);
    GapPlace {
        before,
        is_line_start: !is_empty(line_end_at_end(before)),
        lines: "",
        after,
    }
}

// After the header's own line and the comments in column one directly below it.
fn after_header_comments(gap: &str) -> GapPlace<'_>
    ensures { place_of result ≡ after_header_comments (chars gap.now) }
{
    let header = after_header(gap);
    let after = after_comments(header.after);
    let comments = front_before(header.after, after);
    if is_empty(comments) || last_or('\n', header.before) != '\n' {
        return header;
    }
    GapPlace {
        before: front_before(gap, after),
        is_line_start: last_or('\r', comments) == '\n',
        lines: "",
        after,
    }
}

// After the comments at a text's front, and the empty line that ends them; at the front where none does.
fn after_licence(gap: &str) -> GapPlace<'_>
    ensures { place_of result ≡ after_licence (chars gap.now) }
{
    let rest = after_comments(gap);
    let after = after_line_end(rest);
    let comments = front_before(gap, rest);
    if is_empty(comments) || last_or('\r', front_before(rest, after)) != '\n' {
        return at_front(gap);
    }
    GapPlace {
        before: front_before(gap, after),
        is_line_start: true,
        lines: "",
        after,
    }
}

// The place, with the blank lines after it, where a multiline value may stand before what follows.
fn freed(place: GapPlace<'_>, is_last: bool) -> Option<GapPlace<'_>>
    ensures { option_map place_of result ≡ freed is_last (place_of place.entry) }
{
    let (lines, after) = split_blank_lines(place.after);
    let goes_on = !is_empty(blanks_at_end(lines)) && !(is_last && is_empty(after));
    if goes_on || has_lone_return(lines) {
        return None;
    }
    Some(GapPlace {
        before: place.before,
        is_line_start: place.is_line_start,
        lines,
        after,
    })
}

// The place after the blank lines with which the rest of a gap begins, but not before an indented key.
fn past_blank_lines<'t>(gap: &'t str, rest: &'t str) -> Option<GapPlace<'t>>
    requires { IsRest (chars gap.now) (chars rest.now) }
    ensures { option_map place_of result ≡ past_blank_lines (chars gap.now) (chars rest.now) }
{
    let (lines, after) = split_blank_lines(rest);
    if !is_empty(blanks_at_end(lines)) && !is_empty(after) {
        return None;
    }
    Some(GapPlace {
        before: front_before(gap, after),
        is_line_start: !is_empty(line_end_at_end(lines)),
        lines: "",
        after,
    })
}

/// The last gap of a text, cut where a new section goes: at its end, but before an indented key that the
/// text's end cuts short. Where a multiline value would take that key, it is before the last comment in
/// column one, if there is one.
pub(crate) fn place_for_section<'t>(
    before: char,
    gap: &'t str,
    has_pair: bool,
    read: ParseOption,
) -> Option<(&'t str, &'t str)>
    ensures { MatchOption result (after_new_section read has_pair before (chars gap.now) ≡ None)
        (λ p. (after_new_section read has_pair before (chars gap.now) ≡ Some (chars p.1.now))
        × (chars p.0.now ≡ front_of (chars gap.now) (chars p.1.now))) }
{
    let dropped = dropped_key(before, gap, read);
    let front = front_before(gap, dropped);
    if is_empty(dropped) || !has_pair || !read.enabled_indented_mutiline_value {
        return Some((front, dropped));
    }
    let solid = from_last_solid(before, front)?;
    Some(cut_after(gap, front_before(front, solid)))
}

/// A text cut after a front of it.
pub(crate) fn cut_after<'t>(text: &'t str, front: &str) -> (&'t str, &'t str)
    requires { chars front.now ++ drop (length (chars front.now)) (chars text.now) ≡ chars text.now }
    ensures front { chars result.0.now ≡ chars front.now }
    ensures rest { chars result.1.now ≡ drop (length (chars front.now)) (chars text.now) }
{
    text.split_at(front.len())
}
