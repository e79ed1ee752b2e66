//! Whether a name, a pair and a separator are plain: read back as they were written. This file knows kinds
//! of characters and what a policy escapes, and no escape's text. Each function goes over its text a few
//! times at most, and takes no memory.
ghost use Rattle.std.specs.Prelude.{◌≡◌, ◌&&◌, ◌↔◌, IsTrue, chars, not};
ghost use Rattle.std.specs.Char.{is_whitespace};
ghost use Rattle.std.specs.List.{list_all};
ghost use Rattle.ini_text.specs.Grammar.CharacterKinds.{begins, is_blank, is_comment_mark};
ghost use Rattle.ini_text.specs.Grammar.CharacterKinds.{is_quote_mark, is_separator};
ghost use Rattle.ini_text.specs.Laws.Plain.{IsPlainName, IsPlainPair, IsPlainSeparator, IsPlainValue};
ghost use Rattle.ini_text.specs.Laws.Plain.{has_bare_note};
ghost use Rattle.ini_text.specs.Escaping.Policies.{is_escaped};
ghost use Rattle.ini_text.specs.Inside.PlainTests.{escapes_nothing, has_no_close_bracket};
ghost use Rattle.ini_text.specs.Inside.PlainTests.{has_key_note, has_no_escapes, has_no_name_end};
ghost use Rattle.ini_text.specs.Inside.PlainTests.{has_no_raw_separator, has_note, has_read_escapes};
ghost use Rattle.ini_text.specs.Inside.PlainTests.{is_bare_key, is_end_trimmed, is_indented_by_escape};
ghost use Rattle.ini_text.specs.Inside.PlainTests.{is_plain_key, is_read_back};
ghost use Rattle.ini_text.specs.Inside.PlainTests.{is_read_escaped, is_read_raw, is_trimmed};
ghost use Rattle.ini_text.specs.Inside.PlainTests.{may_begin_key, may_indent};

use crate::option::{LoneLine, ParseOption};
use crate::text::{Class, is_blank, is_comment_mark, is_line_end, is_separator, skip, split_first};
use crate::write::policy::EscapePolicy;

/// Whether the text is a plain separator: one `=` or `:` with no more than spaces and tabs around it. Written
/// between a key and its value it is read as that alone; so are some that aren't plain.
pub fn is_plain_separator(text: &str) -> bool
    ensures { IsTrue result ↔ IsPlainSeparator (chars text.now) }
{
    match split_first(skip(text, Class::Blank)) {
        Some((c, after)) => is_separator(c) && is_blank_text(after),
        None => false,
    }
}

/// Whether a section's name is plain: it is trimmed, without `]` unless brackets may stand in names, then
/// without a note where inline comments are on, and what the policy writes for its characters is read by the
/// options as those. A plain name is read back just as it was; so are some that aren't plain.
pub fn is_plain_name(name: &str, policy: EscapePolicy, read: ParseOption) -> bool
    ensures { IsTrue result ↔ IsPlainName read policy (chars name.now) }
{
    is_trimmed(name) && has_no_name_end(name, policy, read) && is_read_back(name, policy, read)
}

/// Whether a key and its value are plain: written by the policy with a plain separator, they are read back by
/// the options just as they were. Some that aren't plain are read back too.
///
/// The key is not empty, trimmed, without `[` at its front, and with `=` and `:`, and `;` and `#` at
/// its front, only where the policy escapes them; where keys keep their indentation it may begin with white
/// space that the policy escapes, and where besides values aren't multiline, with spaces. The value is
/// trimmed, and where quotes are read it doesn't begin with one. Where inline comments are on, neither the
/// value nor a key that ends with its line has `;` or `#` behind a blank, neither of them escaped. What is
/// written for the characters of both is read as those.
pub fn is_plain_pair(key: &str, value: &str, policy: EscapePolicy, read: ParseOption) -> bool
    ensures { IsTrue result ↔ IsPlainPair read policy (chars key.now) (chars value.now) }
{
    is_plain_key(key, policy, read)
        && !has_key_note(key, policy, read)
        && is_read_back(key, policy, read)
        && is_plain_value(value, policy, read)
}

/// Whether a value is plain: what `is_plain_pair` asks of a pair's value alone, after any key.
pub fn is_plain_value(value: &str, policy: EscapePolicy, read: ParseOption) -> bool
    ensures { IsTrue result ↔ IsPlainValue read policy (chars value.now) }
{
    is_trimmed(value)
        && (!read.enabled_quote || !begins_with_mark(value))
        && !has_note(value, policy, read)
        && is_read_back(value, policy, read)
}

fn is_quote_mark(c: char) -> bool
    ensures { result ≡ is_quote_mark c }
{
    c == '"' || c == '\''
}

// Whether blanks are all of the text.
fn is_blank_text(text: &str) -> bool
    ensures { result ≡ list_all is_blank (chars text.now) }
{
    text.chars().all(|c| Class::Blank.contains(c))
}

fn is_trimmed(text: &str) -> bool
    ensures { result ≡ is_trimmed (chars text.now) }
{
    text.trim() == text
}

fn is_end_trimmed(text: &str) -> bool
    ensures { result ≡ is_end_trimmed (chars text.now) }
{
    text.trim_end() == text
}

// Whether what is written for each character is read as that character, by escapes or without any.
fn is_read_back(text: &str, policy: EscapePolicy, read: ParseOption) -> bool
    ensures { result ≡ is_read_back read policy (chars text.now) }
{
    has_read_escapes(text, policy, read) || has_no_escapes(text, policy, read)
}

fn has_read_escapes(text: &str, policy: EscapePolicy, read: ParseOption) -> bool
    ensures { result ≡ has_read_escapes read policy (chars text.now) }
{
    read.enabled_escape && !escapes_nothing(policy) && are_read_escaped(text, policy)
}

fn escapes_nothing(policy: EscapePolicy) -> bool
    ensures { result ≡ escapes_nothing policy }
{
    matches!(policy, EscapePolicy::Nothing)
}

fn are_read_escaped(text: &str, policy: EscapePolicy) -> bool
    ensures { result ≡ list_all (is_read_escaped policy) (chars text.now) }
{
    text.chars().all(|c| is_read_escaped(c, policy))
}

// U+000B and U+000C are written as letters that aren't read; above U+FFFF more digits are written than
// read.
fn is_read_escaped(c: char, policy: EscapePolicy) -> bool
    ensures { result ≡ is_read_escaped policy c }
{
    c != '\u{B}' && c != '\u{C}' && !(c >= '\u{10000}' && policy.should_escape(c))
}

fn has_no_escapes(text: &str, policy: EscapePolicy, read: ParseOption) -> bool
    ensures { result ≡ has_no_escapes read policy (chars text.now) }
{
    text.chars().all(|c| is_read_raw(c, policy, read))
}

fn is_read_raw(c: char, policy: EscapePolicy, read: ParseOption) -> bool
    ensures { result ≡ is_read_raw read policy c }
{
    !policy.should_escape(c) && !read.begins_escape(c) && !is_line_end(c)
}

// Whether inline comments are on, and the text has a note.
fn has_note(text: &str, policy: EscapePolicy, read: ParseOption) -> bool
    ensures { result ≡ has_note read policy (chars text.now) }
{
    read.enabled_inline_comment && has_bare_note(text, policy)
}

// Whether a comment mark that isn't escaped stands behind a blank that isn't.
fn has_bare_note(text: &str, policy: EscapePolicy) -> bool
    ensures { result ≡ has_bare_note policy (chars text.now) }
{
    let mut rest = text;
    'characters: while let Some((c, after)) = split_first(rest) {
        if is_blank(c) && !policy.should_escape(c) && begins_bare_mark(after, policy) {
            return true;
        }
        rest = after;
    }
    false
}

fn begins_bare_mark(text: &str, policy: EscapePolicy) -> bool
    ensures { result ≡ begins (λ c. is_comment_mark c && not (is_escaped policy c)) (chars text.now) }
{
    match split_first(text) {
        Some((c, _)) => is_comment_mark(c) && !policy.should_escape(c),
        None => false,
    }
}

// Whether nothing in a name ends it: a bracket, or, where brackets may stand in it, a note.
fn has_no_name_end(name: &str, policy: EscapePolicy, read: ParseOption) -> bool
    ensures { result ≡ has_no_name_end read policy (chars name.now) }
{
    if read.enabled_brackets_in_section_names {
        !has_note(name, policy, read)
    } else {
        has_no_close_bracket(name)
    }
}

fn has_no_close_bracket(name: &str) -> bool
    ensures { result ≡ has_no_close_bracket (chars name.now) }
{
    name.chars().all(|c| c != ']')
}

// Whether keys end with their lines, where inline comments are on before notes too, and the key has one.
fn has_key_note(key: &str, policy: EscapePolicy, read: ParseOption) -> bool
    ensures { result ≡ has_key_note read policy (chars key.now) }
{
    match read.line_without_separator {
        LoneLine::RunsOn => false,
        LoneLine::Refused | LoneLine::Key => has_note(key, policy, read),
    }
}

// Whether a key is plain but for the characters that need escapes. Spaces before it are kept, if at all.
fn is_plain_key(key: &str, policy: EscapePolicy, read: ParseOption) -> bool
    ensures { result ≡ is_plain_key read policy (chars key.now) }
{
    if may_indent(read) {
        is_bare_key(skip(key, Class::Space), policy, read)
    } else {
        is_bare_key(key, policy, read)
    }
}

// Whether spaces may stand before a key: indentation is kept, and makes no value go on.
fn may_indent(read: ParseOption) -> bool
    ensures { result ≡ may_indent read }
{
    read.enabled_preserve_key_leading_whitespace && !read.enabled_indented_mutiline_value
}

fn is_bare_key(key: &str, policy: EscapePolicy, read: ParseOption) -> bool
    ensures { result ≡ is_bare_key read policy (chars key.now) }
{
    begins_as_key(key, policy)
        && (is_trimmed(key) || is_indented_by_escape(key, policy, read))
        && has_no_raw_separator(key, policy)
}

fn begins_as_key(key: &str, policy: EscapePolicy) -> bool
    ensures { result ≡ begins (may_begin_key policy) (chars key.now) }
{
    match split_first(key) {
        Some((c, _)) => may_begin_key(c, policy),
        None => false,
    }
}

fn may_begin_key(c: char, policy: EscapePolicy) -> bool
    ensures { result ≡ may_begin_key policy c }
{
    c != '[' && (!is_comment_mark(c) || policy.should_escape(c))
}

// Whether white space that is escaped begins the key, and its end alone is trimmed.
fn is_indented_by_escape(key: &str, policy: EscapePolicy, read: ParseOption) -> bool
    ensures { result ≡ is_indented_by_escape read policy (chars key.now) }
{
    read.enabled_preserve_key_leading_whitespace
        && begins_escaped_white(key, policy)
        && is_end_trimmed(key)
}

fn begins_escaped_white(key: &str, policy: EscapePolicy) -> bool
    ensures { result ≡ begins (λ c. is_whitespace c && is_escaped policy c) (chars key.now) }
{
    match split_first(key) {
        Some((c, _)) => c.is_whitespace() && policy.should_escape(c),
        None => false,
    }
}

fn has_no_raw_separator(key: &str, policy: EscapePolicy) -> bool
    ensures { result ≡ has_no_raw_separator policy (chars key.now) }
{
    key.chars()
        .all(|c| !is_separator(c) || policy.should_escape(c))
}

fn begins_with_mark(value: &str) -> bool
    ensures { result ≡ begins is_quote_mark (chars value.now) }
{
    match split_first(value) {
        Some((c, _)) => is_quote_mark(c),
        None => false,
    }
}
