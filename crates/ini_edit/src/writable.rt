//! Which values an edit writes. This file knows kinds of characters and a text's end, and no
//! element.
ghost use Rattle.std.specs.Prelude.{◌≡◌, ◌↔◌, ◌||◌, IsTrue, chars, not};
ghost use Rattle.ini_text.specs.Grammar.CharacterKinds.{is_quote_mark};
ghost use Rattle.ini_text.specs.Grammar.CharacterKinds.{begins};
ghost use Rattle.ini_text.specs.Inside.PlainTests.{escapes_nothing, is_trimmed};
ghost use Rattle.ini_edit.specs.Endings.{ending};
ghost use Rattle.ini_edit.specs.Inside.RawTests.{is_closed, is_one_line, is_raw_value, stands_so};
ghost use Rattle.ini_edit.specs.Writable.{IsWritableValue, has_note};

use crate::glue::{TextEnd, text_end};
use crate::text::begins_with_comment;
use ini_text::{EscapePolicy, ParseOption, is_blank, is_plain_value, split_first};

/// Whether a value can be written so that it is read back: it is plain; or escapes are neither read nor
/// written, and it is trimmed, without a quote's mark at its front where quotes are read, without `;` or `#`
/// behind a blank where inline comments are on, without LF and CR, and with an even number of backslashes at
/// its end, unless these are characters like any other.
pub fn is_writable_value(value: &str, policy: EscapePolicy, read: ParseOption) -> bool
    ensures { IsTrue result ↔ IsWritableValue read policy (chars value.now) }
{
    is_plain_value(value, policy, read) || is_raw_value(value, policy, read)
}

fn is_raw_value(value: &str, policy: EscapePolicy, read: ParseOption) -> bool
    ensures { result ≡ is_raw_value read policy (chars value.now) }
{
    !read.enabled_escape && escapes_nothing(policy) && is_trimmed(value) && stands_so(value, read)
}

// Whether nothing in a value ends it, or begins something else.
fn stands_so(value: &str, read: ParseOption) -> bool
    ensures { result ≡ stands_so read (chars value.now) }
{
    if !opens_no_quote(value, read) || !begins_no_note(value, read) {
        return false;
    }
    is_one_line(value) && !ends_in_lone_backslash(value, read)
}

fn escapes_nothing(policy: EscapePolicy) -> bool
    ensures { result ≡ escapes_nothing policy }
{
    matches!(policy, EscapePolicy::Nothing)
}

fn is_trimmed(text: &str) -> bool
    ensures { result ≡ is_trimmed (chars text.now) }
{
    text.trim() == text
}

// Whether no quote begins the value, where quotes are read.
fn opens_no_quote(value: &str, read: ParseOption) -> bool
    ensures { result ≡ (not read.enabled_quote || not (begins is_quote_mark (chars value.now))) }
{
    !read.enabled_quote || !begins_with_quote_mark(value)
}

// Whether no note begins in the value, where inline comments are on.
fn begins_no_note(value: &str, read: ParseOption) -> bool
    ensures { result ≡ (not read.enabled_inline_comment || not (has_note (chars value.now))) }
{
    !read.enabled_inline_comment || !has_note(value)
}

fn begins_with_quote_mark(value: &str) -> bool
    ensures { result ≡ begins is_quote_mark (chars value.now) }
{
    match split_first(value) {
        Some((c, _)) => c == '"' || c == '\'',
        None => false,
    }
}

// Whether a comment mark stands behind a blank.
fn has_note(value: &str) -> bool
    ensures { result ≡ has_note (chars value.now) }
{
    let mut rest = value;
    'characters: while let Some((c, after)) = split_first(rest) {
        if is_blank(c) && begins_with_comment(after) {
            return true;
        }
        rest = after;
    }
    false
}

fn is_one_line(value: &str) -> bool
    ensures { result ≡ is_one_line (chars value.now) }
{
    value.chars().all(|c| c != '\n' && c != '\r')
}

// Whether a backslash at the end takes what follows it.
fn ends_in_lone_backslash(value: &str, read: ParseOption) -> bool
    ensures { result ≡ not (is_closed (ending read (chars value.now))) }
{
    matches!(text_end(value, read), TextEnd::Escape)
}
