//! Lines of what stands between items: where one ends, comments, blank lines, what indents a header, and a
//! dropped tail. This file knows kinds of characters, and no piece.
ghost use Rattle.std.specs.Prelude.{◌≡◌, ◌↔◌, ◌++◌, ◌&&◌, [], ◌∷◌, false, true, chars};
ghost use Rattle.std.specs.Option.{option_map};
ghost use Rattle.ini.specs.Texts.{Text, str_text};
ghost use Rattle.ini_text.specs.Grammar.CharacterKinds.{is_blank, is_line_end, is_line_feed};
ghost use Rattle.ini_text.specs.Grammar.Places.{separator_text};
ghost use Rattle.ini_text.specs.Grammar.Positions.{last_or};
ghost use Rattle.ini_text.specs.Grammar.CharacterKinds.{begins};
ghost use Rattle.ini_text.specs.Parsing.Fronts.{front_of};
ghost use Rattle.ini_edit.specs.Inside.CommentStates.{comment_state_of};
ghost use Rattle.ini_edit.specs.Inside.SourceSearches.{IsSearched};
ghost use Rattle.ini_edit.specs.SourceEditsComments.{IsCommentText};
ghost use Rattle.ini_edit.specs.SourceLines.{after_blank_lines, after_blanks, after_comment, after_comments};
ghost use Rattle.ini_edit.specs.SourceLines.{after_line, after_line_end, after_line_feed};
ghost use Rattle.ini_edit.specs.SourceLines.{begins_solid};
ghost use Rattle.ini_edit.specs.SourceLines.{blanks_at_end, comments_at_end, dropped_key};
ghost use Rattle.ini_edit.specs.SourceLines.{from_last_solid, has_lone_return, indentation_at_end};
ghost use Rattle.ini_edit.specs.SourceLines.{is_empty, is_outside, line_end_at_end, may_begin_key};
ghost use Rattle.ini_edit.specs.SourceLines.{next_comment};

use crate::text::begins_with_comment;
use ini_text::{
    LineSeparator, ParseOption, front_before, is_blank, is_comment_mark, is_line_end, split_first,
    split_last,
};

/// The last character of a text, and `before` where it is empty.
pub(crate) fn last_or(before: char, text: &str) -> char
    ensures { result ≡ last_or before (chars text.now) }
{
    match split_last(text) {
        Some((_, last)) => last,
        None => before,
    }
}

/// Whether a text is empty: std's call, with a clause that speaks of characters where std's speaks of bytes.
pub(crate) fn is_empty(text: &str) -> bool
    ensures { result ≡ is_empty (chars text.now) }
{
    text.is_empty()
}

/// What follows the line end with which a text begins; the text itself where it begins with none.
pub(crate) fn after_line_end(text: &str) -> &str
    ensures { chars result.now ≡ after_line_end (chars text.now) }
{
    match split_first(text) {
        Some(('\n', after)) => after,
        Some(('\r', after)) => after_line_feed(after),
        _ => text,
    }
}

// What follows the line feed with which a text begins; the text itself where it begins with none.
fn after_line_feed(text: &str) -> &str
    ensures { chars result.now ≡ after_line_feed (chars text.now) }
{
    match split_first(text) {
        Some(('\n', after)) => after,
        _ => text,
    }
}

/// A text up to its first line end, that included, and what follows; all of it where it has none.
pub(crate) fn split_line(text: &str) -> (&str, &str)
    ensures line { chars result.0.now ≡ front_of (chars text.now) (after_line (chars text.now)) }
    ensures rest { chars result.1.now ≡ after_line (chars text.now) }
{
    let mut rest = text;
    'characters: while let Some((c, after)) = split_first(rest) {
        if is_line_end(c) {
            let following = after_line_end(rest);
            return (front_before(text, following), following);
        }
        rest = after;
    }
    (text, rest)
}

/// What follows the first line feed of a text; nothing where it has none.
fn after_comment(text: &str) -> &str
    ensures { chars result.now ≡ after_comment (chars text.now) }
{
    let mut rest = text;
    'characters: while let Some((c, after)) = split_first(rest) {
        rest = after;
        if c == '\n' {
            return rest;
        }
    }
    rest
}

/// What follows the comment lines with which a text begins.
pub(crate) fn after_comments(text: &str) -> &str
    ensures { chars result.now ≡ after_comments false (chars text.now) }
{
    let mut rest = text;
    'lines: while begins_with_comment(rest) {
        rest = after_comment(rest);
    }
    rest
}

/// The comment lines, each with its line feed, with which a text ends; `before` is the last character of
/// what stands before the text.
pub(crate) fn comments_at_end(before: char, text: &str) -> &str
    ensures { chars result.now ≡ comments_at_end before (chars text.now) }
{
    let mut rest = text;
    let mut comments = text;
    let mut is_column_one = before == '\n';
    let mut is_comment = false;
    'characters: while let Some((c, after)) = split_first(rest) {
        if is_column_one {
            if is_comment_mark(c) && !is_comment {
                comments = rest;
            }
            is_comment = is_comment_mark(c);
        }
        is_column_one = c == '\n';
        rest = after;
    }
    if is_comment && is_column_one {
        return comments;
    }
    rest
}

/// The blanks at a text's end that begin a line.
pub(crate) fn indentation_at_end(before: char, text: &str) -> &str
    ensures { chars result.now ≡ indentation_at_end before (chars text.now) }
{
    let mut rest = text;
    let mut blanks = text;
    let mut is_line_start = is_line_end(before);
    let mut is_indentation = false;
    'characters: while let Some((c, after)) = split_first(rest) {
        if is_line_start && is_blank(c) {
            blanks = rest;
            is_indentation = true;
        }
        is_indentation = is_indentation && is_blank(c);
        is_line_start = is_line_end(c);
        rest = after;
    }
    if is_indentation {
        return blanks;
    }
    rest
}

/// The blanks with which a text begins, and what follows.
pub(crate) fn split_blanks(text: &str) -> (&str, &str)
    ensures blanks { chars result.0.now ≡ front_of (chars text.now) (after_blanks (chars text.now)) }
    ensures rest { chars result.1.now ≡ after_blanks (chars text.now) }
{
    let mut rest = text;
    'characters: while let Some((c, after)) = split_first(rest) {
        if !is_blank(c) {
            return (front_before(text, rest), rest);
        }
        rest = after;
    }
    (text, rest)
}

/// The blanks with which a text ends.
pub(crate) fn blanks_at_end(text: &str) -> &str
    ensures { chars result.now ≡ blanks_at_end (chars text.now) }
{
    let mut rest = text;
    let mut blanks = text;
    'characters: while let Some((c, after)) = split_first(rest) {
        if !is_blank(c) {
            blanks = after;
        }
        rest = after;
    }
    blanks
}

/// Whether LF begins a text.
pub(crate) fn begins_with_line_feed(text: &str) -> bool
    ensures { result ≡ begins is_line_feed (chars text.now) }
{
    match split_first(text) {
        Some((c, _)) => c == '\n',
        None => false,
    }
}

/// Whether a blank begins a text.
pub(crate) fn begins_with_blank(text: &str) -> bool
    ensures { result ≡ begins is_blank (chars text.now) }
{
    match split_first(text) {
        Some((c, _)) => is_blank(c),
        None => false,
    }
}

/// Where an indented key that the text's end cuts short begins, among gaps and comments; the end where there
/// is none.
pub(crate) fn dropped_key(before: char, text: &str, read: ParseOption) -> &str
    ensures { chars result.now ≡ dropped_key read before (chars text.now) }
{
    let mut rest = text;
    let mut last = before;
    let mut state = CommentState::Outside;
    'characters: while let Some((c, after)) = split_first(rest) {
        if state.is_outside() && is_line_end(last) && begins_indented_key(rest, read) {
            return rest;
        }
        state = state.next(last, c);
        last = c;
        rest = after;
    }
    rest
}

// Whether blanks begin a text, and a key follows them.
fn begins_indented_key(text: &str, read: ParseOption) -> bool
    ensures { result ≡ (begins is_blank (chars text.now)
        && begins (may_begin_key read) (after_blanks (chars text.now))) }
{
    begins_with_blank(text) && begins_key(split_blanks(text).1, read)
}

// Whether what follows blanks is a key.
fn begins_key(text: &str, read: ParseOption) -> bool
    ensures { result ≡ begins (may_begin_key read) (chars text.now) }
{
    match split_first(text) {
        Some((c, _)) => !is_line_end(c) && !read.begins_note(c),
        None => false,
    }
}

// What a walk over gaps and comments is in: no comment; one in column one, which LF ends; or a note, which
// LF or CR ends.
#[derive(Clone, Copy, Debug)]
enum CommentState {
    Outside,
    Comment,
    Note,
}

impl CommentState {
    fn is_outside(self) -> bool
        ensures { result ≡ is_outside (comment_state_of self) }
    {
        matches!(self, CommentState::Outside)
    }

    // What it is in after this character, which stands after `last`.
    fn next(self, last: char, c: char) -> Self
        ensures { comment_state_of result ≡ next_comment (comment_state_of self) last c }
    {
        match self {
            CommentState::Outside if !is_comment_mark(c) => CommentState::Outside,
            CommentState::Outside if last == '\n' => CommentState::Comment,
            CommentState::Outside => CommentState::Note,
            CommentState::Comment if c != '\n' => CommentState::Comment,
            CommentState::Note if !is_line_end(c) => CommentState::Note,
            _ => CommentState::Outside,
        }
    }
}

/// Gaps and comments from the last comment in column one on, or from white space that is no blank: what no
/// value goes on with. `None` where there is neither.
pub(crate) fn from_last_solid(before: char, text: &str) -> Option<&str>
    ensures { option_map str_text result ≡ from_last_solid before (chars text.now) }
{
    let mut rest = text;
    let mut solid = None;
    let mut last = before;
    let mut state = CommentState::Outside;
    'characters: while let Some((c, after)) = split_first(rest) {
        if state.is_outside() && begins_solid(last, c) {
            solid = Some(rest);
        }
        state = state.next(last, c);
        last = c;
        rest = after;
    }
    solid
}

// Whether this character, after `last`, begins such a comment, or is such white space.
fn begins_solid(last: char, c: char) -> bool
    ensures { result ≡ begins_solid last c }
{
    !is_blank(c) && !is_line_end(c) && (last == '\n' || !is_comment_mark(c))
}

/// The blanks and line ends with which a text begins, and what follows.
pub(crate) fn split_blank_lines(text: &str) -> (&str, &str)
    ensures lines { chars result.0.now ≡ front_of (chars text.now) (after_blank_lines (chars text.now)) }
    ensures rest { chars result.1.now ≡ after_blank_lines (chars text.now) }
{
    let mut rest = text;
    'characters: while let Some((c, after)) = split_first(rest) {
        if !is_blank(c) && !is_line_end(c) {
            return (front_before(text, rest), rest);
        }
        rest = after;
    }
    (text, rest)
}

/// Whether a CR begins one of the lines of a text whose line feed isn't next.
pub(crate) fn has_lone_return(lines: &str) -> bool
    ensures { result ≡ has_lone_return true (chars lines.now) }
{
    let mut rest = lines;
    let mut is_line_start = true;
    'characters: while let Some((c, after)) = split_first(rest) {
        if is_line_start && c == '\r' && !begins_with_line_feed(after) {
            return true;
        }
        is_line_start = c == '\n' || (c == '\r' && !begins_with_line_feed(after));
        rest = after;
    }
    false
}

/// Whether each line of a text is a comment; the last one may lack its line feed.
pub(crate) fn is_comment_text(text: &str) -> bool
    ensures { (result ≡ true) ↔ IsCommentText (chars text.now) }
{
    let mut rest = text;
    'lines: while begins_with_comment(rest) {
        rest = after_comment(rest);
    }
    split_first(rest).is_none()
}

/// The line end with which a text ends; nothing where it ends with none.
pub(crate) fn line_end_at_end(text: &str) -> &'static str
    ensures { chars result.now ≡ line_end_at_end (chars text.now) }
{
    let Some((before, last)) = split_last(text) else {
        return "";
    };
    if last == '\n' {
        if last_or('\n', before) == '\r' {
            return "\r\n";
        }
        return "\n";
    }
    if last == '\r' { "\r" } else { "" }
}

/// What is known of a text's first line end, on the way to it.
#[derive(Clone, Copy, Debug)]
pub(crate) struct LineEndSearch {
    last: char,
    found: Option<LineSeparator>,
}

impl LineEndSearch {
    pub(crate) fn new() -> Self
        ensures { IsSearched [] result }
    {
        LineEndSearch {
            last: '\n',
            found: None,
        }
    }

    pub(crate) fn found(self) -> Option<LineSeparator>
        ensures { result ≡ self.found }
    {
        self.found
    }

    /// The search gone on over a character, if there is one.
    pub(crate) fn after_separator(self, c: Option<char>) -> Self
        ensures { (front : Text) → IsSearched front self → IsSearched (front ++ separator_text c) result }
    {
        match c {
            Some(c) => self.after_char(c),
            None => self,
        }
    }

    // The search gone on over a character.
    fn after_char(self, c: char) -> Self
        ensures { (front : Text) → IsSearched front self → IsSearched (front ++ c ∷ []) result }
    {
        let mut buffer = [0; 4];
        self.after(c.encode_utf8(&mut buffer))
    }

    /// The search gone on over a text.
    pub(crate) fn after(self, text: &str) -> Self
        ensures { (front : Text) → IsSearched front self → IsSearched (front ++ chars text.now) result }
    {
        if self.found.is_some() {
            return self;
        }
        let mut last = self.last;
        let mut rest = text;
        'characters: while let Some((c, after)) = split_first(rest) {
            if c == '\n' {
                let found = if last == '\r' {
                    LineSeparator::CRLF
                } else {
                    LineSeparator::SystemDefault
                };
                return LineEndSearch {
                    last: c,
                    found: Some(found),
                };
            }
            last = c;
            rest = after;
        }
        LineEndSearch { last, found: None }
    }
}
