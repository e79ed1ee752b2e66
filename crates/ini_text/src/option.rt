//! The options by which a text is read. This file knows no grammar.
ghost use Rattle.std.specs.Prelude.{◌≡◌, chars};
ghost use Rattle.ini_text.specs.Grammar.Elements.{may_have_note};
ghost use Rattle.ini_text.specs.Grammar.Keys.{begins_note};
ghost use Rattle.ini_text.specs.Options.Backslashes.{begins_escape, is_special};
ghost use Rattle.ini_text.specs.Options.ReadOptions.{backslash_of, default_parse_option};

use crate::text::{is_comment_mark, starts_line};

/// What becomes of a line in which no separator follows the key.
#[derive(Clone, Copy, Debug)]
pub enum LoneLine {
    /// The key runs on over the lines below, up to a separator.
    RunsOn,
    /// The text is refused at the line's end.
    Refused,
    /// The key is a pair with the empty value. It may end with the text too, and has no further lines.
    Key,
}

/// What the reader of a text allows.
#[derive(Clone, Copy)]
pub struct ParseOption {
    /// A part of a value may stand in double or single quotes.
    pub enabled_quote: bool,
    /// A backslash begins an escape. Without it a backslash and the character after it stay, and that
    /// character ends nothing; before LF both go, with and without it.
    pub enabled_escape: bool,
    /// A value goes on over the lines below it that begin with a space or a tab.
    pub enabled_indented_mutiline_value: bool,
    /// The spaces and tabs before a key belong to it.
    pub enabled_preserve_key_leading_whitespace: bool,
    /// Brackets may stand in the name of a section: its header goes up to the line's end, and the last
    /// closing bracket ends the name.
    pub enabled_brackets_in_section_names: bool,
    /// Where escapes are off, a backslash is a character like any other, before LF too.
    pub enabled_raw_backslash: bool,
    /// Where a line starts, blanks and a comment mark begin a comment, which ends before LF or CR. So it is
    /// among the lines of a value too.
    pub enabled_indented_comment: bool,
    /// Behind a blank a comment mark begins a note, which ends before LF or CR and gives nothing: in a value
    /// outside quotes, in a key that ends with its line, and in a header in whose name brackets may stand.
    /// Behind a header or a key alone a mark needs no blank.
    pub enabled_inline_comment: bool,
    /// What becomes of a line in which no separator follows the key.
    pub line_without_separator: LoneLine,
}

impl ParseOption {
    /// Whether the character is a backslash that takes the one after it along.
    pub fn begins_escape(self, c: char) -> bool
        ensures { result ≡ begins_escape (backslash_of self) c }
    {
        c == '\\' && self.has_special_backslash()
    }

    /// Whether the character begins an indented comment: it is a comment mark, and such comments are on.
    pub fn begins_note(self, c: char) -> bool
        ensures { result ≡ begins_note self c }
    {
        self.enabled_indented_comment && is_comment_mark(c)
    }

    /// Whether out of column one a note may stand after the front of a text.
    pub fn may_have_note(self, front: &str) -> bool
        ensures { result ≡ may_have_note self (chars front.now) }
    {
        self.enabled_inline_comment || self.enabled_indented_comment && starts_line(front)
    }

    /// Whether a backslash takes the character after it along.
    pub(crate) fn has_special_backslash(self) -> bool
        ensures { result ≡ is_special (backslash_of self) }
    {
        self.enabled_escape || !self.enabled_raw_backslash
    }
}

/// Quotes and escapes are read; all else is off; a key without separator runs on.
impl Default for ParseOption {
    ghost is_default = { λ o. o ≡ default_parse_option };

    fn default() -> ParseOption {
        ParseOption {
            enabled_quote: true,
            enabled_escape: true,
            enabled_indented_mutiline_value: false,
            enabled_preserve_key_leading_whitespace: false,
            enabled_brackets_in_section_names: false,
            enabled_raw_backslash: false,
            enabled_indented_comment: false,
            enabled_inline_comment: false,
            line_without_separator: LoneLine::RunsOn,
        }
    }
}
