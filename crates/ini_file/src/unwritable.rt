//! Why words can't be written so that they are read back that can't be, and an option with which they can.
//! This file knows kinds of characters, and no text of a file.
ghost use Rattle.std.specs.Prelude.{◌≡◌, ◌&&◌, ◌==◌, ◌∷◌, [], IfSome, chars, not};
ghost use Rattle.std.specs.List.{list_any};
ghost use Rattle.ini_text.specs.Escaping.Policies.{is_escaped};
ghost use Rattle.ini_text.specs.Grammar.CharacterKinds.{backslash, close_bracket};
ghost use Rattle.ini_text.specs.Grammar.CharacterKinds.{is_line_end, is_quote_mark, is_separator};
ghost use Rattle.ini_text.specs.Grammar.CharacterKinds.{begins};
ghost use Rattle.ini_text.specs.Inside.PlainTests.{escapes_nothing, is_trimmed};
ghost use Rattle.ini_text.specs.Laws.Plain.{IsPlainName, IsPlainPair, has_unread_letter};
ghost use Rattle.ini_edit.specs.Writable.{IsWritableValue};
ghost use Rattle.ini_file.specs.Reasons.{key_reason, name_reason, policy_with, reading_with};
ghost use Rattle.ini_file.specs.Reasons.{unread_reason, value_reason};

use crate::reasons::{HELPS, Help, Reason};
use ini::{EscapePolicy, ParseOption, is_plain_name, is_plain_pair};
use ini_edit::{Edit, EditError, is_writable_value};
use ini_text::{is_comment_mark, is_line_end, split_first};
use ini_words::Options;

/// Why an edit is refused for its words, and what helps; `None` where it is refused for the text's or the
/// machine's sake.
pub fn reason_of(
    edit: Option<Edit<'_>>,
    options: Options,
    refused: &EditError,
) -> Option<(Reason, Option<Help>)> {
    let (read, policy) = (options.reading, options.escape_policy);
    if matches!(refused, EditError::Separator) {
        return Some((Reason::NoSeparator, None));
    }
    match (refused, edit?) {
        (
            EditError::Value,
            Edit::Set { value, .. } | Edit::SetExisting { value, .. } | Edit::Add { value, .. },
        ) => {
            let help = value_help(value, policy, read);
            Some((value_reason(value, policy, read), help))
        }
        (EditError::Key, Edit::Set { key, .. } | Edit::Add { key, .. }) => {
            Some(key_refusal(key, policy, read))
        }
        // a key that a space begins can be written at a line's front alone
        (EditError::Key, Edit::RenameKey { new, .. }) => match key_refusal(new, policy, read) {
            (reason, _) if new.starts_with(' ') => Some((reason, None)),
            refusal => Some(refusal),
        },
        (
            EditError::Name,
            Edit::Set {
                name: Some(name),
                ..
            }
            | Edit::Add {
                name: Some(name),
                ..
            }
            | Edit::RenameSection { new: name, .. },
        ) => Some((
            name_reason(name, policy, read),
            name_help(name, policy, read),
        )),
        // what was taken out leaves another key at the front of a file without a mark
        (EditError::Key, _) => Some((Reason::ByteOrderMark, None)),
        _ => None,
    }
}

// Why a key can't be written in a line of its own, and what helps.
fn key_refusal(key: &str, policy: EscapePolicy, read: ParseOption) -> (Reason, Option<Help>) {
    match key_reason(key, policy, read) {
        Reason::ByteOrderMark => (Reason::ByteOrderMark, None),
        reason => (reason, key_help(key, policy, read)),
    }
}

/// Why a value can't be written that can't be.
pub fn value_reason(value: &str, policy: EscapePolicy, read: ParseOption) -> Reason
    ensures { result ≡ value_reason read policy (chars value.now) }
{
    if !is_trimmed(value) {
        Reason::Edges
    } else if read.enabled_quote && begins_with_quote_mark(value) {
        Reason::QuoteMark
    } else if !read.enabled_escape && escapes_nothing(policy) && !has_line_end(value) {
        Reason::LoneBackslash
    } else {
        unread_reason(value, policy, read)
    }
}

/// Why a section's name can't be written that can't be.
pub fn name_reason(name: &str, policy: EscapePolicy, read: ParseOption) -> Reason
    ensures { result ≡ name_reason read policy (chars name.now) }
{
    if !is_trimmed(name) {
        Reason::Edges
    } else if !read.enabled_brackets_in_section_names && has_close_bracket(name) {
        Reason::CloseBracket
    } else {
        unread_reason(name, policy, read)
    }
}

/// Why a key can't be written that can't be.
pub fn key_reason(key: &str, policy: EscapePolicy, read: ParseOption) -> Reason
    ensures { result ≡ key_reason read policy (chars key.now) }
{
    let Some((first, _)) = split_first(key) else {
        return Reason::Empty;
    };
    if first == '[' {
        Reason::OpenBracket
    } else if is_comment_mark(first) && !policy.should_escape(first) {
        Reason::CommentMark
    } else if has_raw_separator(key, policy) {
        Reason::Separator
    } else if !is_trimmed(key) {
        Reason::Edges
    } else if first == '\u{FEFF}' {
        Reason::ByteOrderMark
    } else {
        unread_reason(key, policy, read)
    }
}

/// An option with which a value can be written.
pub fn value_help(value: &str, policy: EscapePolicy, read: ParseOption) -> Option<Help>
    ensures { IfSome result
        (λ help. IsWritableValue (reading_with help read) (policy_with help policy) (chars value.now)) }
{
    for help in &HELPS {
        let help = *help;
        if is_writable_value(value, help.policy(policy), help.reading(read)) {
            return Some(help);
        }
    }
    None
}

/// An option with which a section's name can be written.
pub fn name_help(name: &str, policy: EscapePolicy, read: ParseOption) -> Option<Help>
    ensures { IfSome result
        (λ help. IsPlainName (reading_with help read) (policy_with help policy) (chars name.now)) }
{
    for help in &HELPS {
        let help = *help;
        if is_plain_name(name, help.policy(policy), help.reading(read)) {
            return Some(help);
        }
    }
    None
}

/// An option with which a key can be written in a line of its own.
pub fn key_help(key: &str, policy: EscapePolicy, read: ParseOption) -> Option<Help>
    ensures { IfSome result
        (λ help. IsPlainPair (reading_with help read) (policy_with help policy) (chars key.now) []) }
{
    for help in &HELPS {
        let help = *help;
        if is_plain_pair(key, "", help.policy(policy), help.reading(read)) {
            return Some(help);
        }
    }
    None
}

// Why the characters of a text aren't read back that aren't.
fn unread_reason(text: &str, policy: EscapePolicy, read: ParseOption) -> Reason
    ensures { result ≡ unread_reason read policy (chars text.now) }
{
    if read.enabled_escape && !escapes_nothing(policy) {
        if has_unread_letter(text) {
            Reason::UnreadLetter
        } else {
            Reason::Extended
        }
    } else if has_line_end(text) {
        Reason::LineEnd
    } else if has_backslash(text) {
        Reason::Backslash
    } else {
        Reason::Escaped
    }
}

fn is_trimmed(text: &str) -> bool
    ensures { result ≡ is_trimmed (chars text.now) }
{
    text.trim() == text
}

fn escapes_nothing(policy: EscapePolicy) -> bool
    ensures { result ≡ escapes_nothing policy }
{
    matches!(policy, EscapePolicy::Nothing)
}

fn begins_with_quote_mark(value: &str) -> bool
    ensures { result ≡ begins is_quote_mark (chars value.now) }
{
    match split_first(value) {
        Some((c, _)) => c == '"' || c == '\'',
        None => false,
    }
}

fn has_close_bracket(name: &str) -> bool
    ensures { result ≡ list_any (λ c. c == close_bracket) (chars name.now) }
{
    name.chars().any(|c| c == ']')
}

fn has_raw_separator(key: &str, policy: EscapePolicy) -> bool
    ensures { result ≡ list_any (λ c. is_separator c && not (is_escaped policy c)) (chars key.now) }
{
    key.chars()
        .any(|c| (c == '=' || c == ':') && !policy.should_escape(c))
}

fn has_unread_letter(text: &str) -> bool
    ensures { result ≡ list_any has_unread_letter (chars text.now) }
{
    text.chars().any(|c| c == '\u{B}' || c == '\u{C}')
}

fn has_line_end(text: &str) -> bool
    ensures { result ≡ list_any is_line_end (chars text.now) }
{
    text.chars().any(|c| is_line_end(c))
}

fn has_backslash(text: &str) -> bool
    ensures { result ≡ list_any (λ c. c == backslash) (chars text.now) }
{
    text.chars().any(|c| c == '\\')
}
