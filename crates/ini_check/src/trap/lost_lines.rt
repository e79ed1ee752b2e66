//! Traps of what gives nothing: a comment that goes on over a lone CR, and a last line that is dropped.
ghost use Rattle.std.specs.Prelude.{◌≡◌, chars};
ghost use Rattle.ini_check.specs.Traps.LostLines.{begins_bare, begins_with_mark, drops_line};
ghost use Rattle.ini_check.specs.Traps.LostLines.{has_later_bare_line, swallows_line};

use ini_text::{is_blank, is_comment_mark, is_line_end, split_first};

/// Whether a comment mark begins a text.
pub(crate) fn begins_with_mark(text: &str) -> bool
    ensures { result ≡ begins_with_mark (chars text.now) }
{
    match split_first(text) {
        Some((c, _)) => is_comment_mark(c),
        None => false,
    }
}

/// Whether indented text that gives nothing has a line that is no comment.
pub(crate) fn drops_line(source: &str) -> bool
    ensures { result ≡ drops_line (chars source.now) }
{
    match split_first(source) {
        Some((c, _)) => is_blank(c) && (begins_bare(source) || has_later_bare_line(source)),
        None => false,
    }
}

/// Whether a comment goes on here over a lone CR, after which a line begins that is no comment.
pub(crate) fn swallows_line(text: &str) -> bool
    ensures { result ≡ swallows_line (chars text.now) }
{
    match split_first(text) {
        Some((c, after)) => c == '\r' && begins_bare(after),
        None => false,
    }
}

// Whether after a line end a line begins that is no comment.
fn has_later_bare_line(text: &str) -> bool
    ensures { result ≡ has_later_bare_line (chars text.now) }
{
    let mut rest = text;
    'characters: while let Some((c, after)) = split_first(rest) {
        if is_line_end(c) && begins_bare(after) {
            return true;
        }
        rest = after;
    }
    false
}

// Whether after blanks a character begins a text that ends no line and begins no comment.
fn begins_bare(text: &str) -> bool
    ensures { result ≡ begins_bare (chars text.now) }
{
    let mut rest = text;
    'blanks: while let Some((c, after)) = split_first(rest) {
        if !is_blank(c) {
            return !(is_line_end(c) || is_comment_mark(c));
        }
        rest = after;
    }
    false
}
