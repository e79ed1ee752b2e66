//! Where a character of a raw value stands: in quotes, after them, in the plain part, after a backslash that
//! takes it along, or in a comment.
ghost use Rattle.std.specs.Prelude.{◌≡◌, chars};
ghost use Rattle.ini_check.specs.Traps.LexicalStates.{after_outside, after_quoted, after_white, is_escaped};
ghost use Rattle.ini_check.specs.Traps.LexicalStates.{is_before_comment, is_noted, is_outside, may_open};
ghost use Rattle.ini_check.specs.Traps.LexicalStates.{next_state};

use crate::trap::quotes::is_quote_mark;
use ini_text::{ParseOption, is_blank, is_comment_mark, is_line_end, split_first};

/// Where a character of a raw value stands.
#[derive(Clone, Copy)]
pub(crate) enum LexicalState {
    /// At the value's front.
    Front,
    /// At the front of a later line, after its blanks.
    LineFront,
    /// Between quotes of this mark.
    Quoted(char),
    /// The same, after a backslash that takes the next character along.
    QuotedEscape(char),
    /// Right after a quoted part.
    AfterQuote,
    /// After a quoted part and white space.
    Trailing,
    /// The same, right behind a blank.
    TrailingBlank,
    /// In the plain part.
    Plain,
    /// The same, right behind a blank.
    PlainBlank,
    /// The same, after such a backslash.
    PlainEscape,
    /// In a comment, indented or behind text.
    Note,
}

impl LexicalState {
    /// Whether a quote's mark opens quotes here.
    pub(crate) fn may_open(self) -> bool
        ensures { result ≡ may_open self }
    {
        matches!(
            self,
            LexicalState::Front | LexicalState::LineFront | LexicalState::AfterQuote
        )
    }

    /// Whether it is neither in quotes nor in a comment, nor after such a backslash.
    pub(crate) fn is_outside(self) -> bool
        ensures { result ≡ is_outside self }
    {
        !matches!(
            self,
            LexicalState::Quoted(_)
                | LexicalState::QuotedEscape(_)
                | LexicalState::PlainEscape
                | LexicalState::Note
        )
    }

    /// Whether it is after such a backslash.
    pub(crate) fn is_escaped(self) -> bool
        ensures { result ≡ is_escaped self }
    {
        matches!(
            self,
            LexicalState::QuotedEscape(_) | LexicalState::PlainEscape
        )
    }

    /// Whether the character is part of a comment, or ends its line: a mark begins one at the front of a
    /// later line, or behind a blank, as the options say.
    pub(crate) fn is_noted(self, read: ParseOption, c: char) -> bool
        ensures { result ≡ is_noted read self c }
    {
        match self {
            LexicalState::Note => true,
            LexicalState::LineFront => read.begins_note(c),
            LexicalState::TrailingBlank | LexicalState::PlainBlank => {
                read.enabled_inline_comment && is_comment_mark(c)
            }
            _ => false,
        }
    }

    /// The state after a character.
    pub(crate) fn next(self, read: ParseOption, c: char) -> LexicalState
        ensures { result ≡ next_state read self c }
    {
        match self {
            LexicalState::Quoted(mark) => after_quoted(read, mark, c),
            LexicalState::QuotedEscape(mark) => LexicalState::Quoted(mark),
            LexicalState::PlainEscape => LexicalState::Plain,
            LexicalState::Front => after_outside(read, LexicalState::Front, c),
            LexicalState::LineFront => after_outside(read, LexicalState::LineFront, c),
            LexicalState::AfterQuote => after_outside(read, LexicalState::AfterQuote, c),
            LexicalState::Trailing => after_outside(read, LexicalState::Trailing, c),
            LexicalState::TrailingBlank => after_outside(read, LexicalState::TrailingBlank, c),
            LexicalState::Plain => after_outside(read, LexicalState::Plain, c),
            LexicalState::PlainBlank => after_outside(read, LexicalState::PlainBlank, c),
            LexicalState::Note => after_outside(read, LexicalState::Note, c),
        }
    }

    // The state after this white space outside quotes.
    fn after_white(self, c: char) -> LexicalState
        ensures { result ≡ after_white self c }
    {
        match self {
            LexicalState::LineFront => LexicalState::LineFront,
            LexicalState::AfterQuote | LexicalState::Trailing | LexicalState::TrailingBlank => {
                if is_blank(c) {
                    LexicalState::TrailingBlank
                } else {
                    LexicalState::Trailing
                }
            }
            _ => {
                if is_blank(c) {
                    LexicalState::PlainBlank
                } else {
                    LexicalState::Plain
                }
            }
        }
    }
}

/// Whether a character is a blank, and an inline comment begins the text behind it.
pub(crate) fn is_before_comment(read: ParseOption, c: char, after: &str) -> bool
    ensures { result ≡ is_before_comment read c (chars after.now) }
{
    if !read.enabled_inline_comment || !is_blank(c) {
        return false;
    }
    match split_first(after) {
        Some((mark, _)) => is_comment_mark(mark),
        None => false,
    }
}

// The state after a character outside quotes.
fn after_outside(read: ParseOption, state: LexicalState, c: char) -> LexicalState
    ensures { result ≡ after_outside read state c }
{
    if is_line_end(c) {
        LexicalState::LineFront
    } else if state.is_noted(read, c) {
        LexicalState::Note
    } else if read.begins_escape(c) {
        LexicalState::PlainEscape
    } else if read.enabled_quote && state.may_open() && is_quote_mark(c) {
        LexicalState::Quoted(c)
    } else if c.is_whitespace() {
        state.after_white(c)
    } else {
        LexicalState::Plain
    }
}

// The state after a character between quotes of this mark.
fn after_quoted(read: ParseOption, mark: char, c: char) -> LexicalState
    ensures { result ≡ after_quoted read mark c }
{
    if read.begins_escape(c) {
        LexicalState::QuotedEscape(mark)
    } else if c == mark {
        LexicalState::AfterQuote
    } else {
        LexicalState::Quoted(mark)
    }
}
