//! Options as C gives them: numbers and bools. This file knows their names in `ini`.
ghost use Rattle.std.specs.Prelude.{◌≡◌, chars};
ghost use Rattle.ini_text.specs.Laws.Plain.{IsPlainSeparator};
ghost use Rattle.ini_c.specs.Choices.{IsWriteOption, flag_of, indented_comments_there, inline_comments_there};
ghost use Rattle.ini_c.specs.Choices.{lone_line_there, parse_option, reading_option, separator_of};

use ini::{EscapePolicy, LineSeparator, ParseOption, WriteOption};
use ini_text::LoneLine;

/// How a text is read, by the options of version 0.3.0.
#[repr(C)]
#[derive(Drop)]
pub struct ReadChoice {
    /// A part of a value may stand in quotes.
    pub quotes: bool,
    /// A backslash begins an escape.
    pub escapes: bool,
    /// A value goes on over indented lines.
    pub multiline: bool,
    /// Blanks before a key belong to it.
    pub keep_indentation: bool,
    /// Brackets may stand in names of sections.
    pub brackets: bool,
}

/// How a text is read. The struct may grow: an option that its size doesn't reach has its default.
#[repr(C)]
#[derive(Drop)]
pub struct Reading {
    /// How many bytes the struct has.
    pub size: u8,
    /// A part of a value may stand in quotes.
    pub quotes: bool,
    /// A backslash begins an escape.
    pub escapes: bool,
    /// A value goes on over indented lines.
    pub multiline: bool,
    /// Blanks before a key belong to it.
    pub keep_indentation: bool,
    /// Brackets may stand in names of sections.
    pub brackets: bool,
    /// Where escapes are off, a backslash is a character like any other, before LF too.
    pub raw_backslash: bool,
    /// What becomes of a line without separator: 0 its key runs on, 1 the text is refused, 2 the key has the
    /// empty value; no other number.
    pub lone_lines: u8,
    /// Whether blanks and a comment mark begin a comment where a line starts: 0 or 1; no other number.
    pub indented_comments: u8,
    /// Whether a comment may stand behind a value, a header or a key alone: 0 or 1; no other number.
    pub inline_comments: u8,
}

/// How a document is written.
#[repr(C)]
#[derive(Drop)]
pub struct WriteChoice {
    /// Which characters are escaped: 0 none, 1 basic ones, and so on; any number from 7 on, all that can be.
    pub policy: u32,
    /// CR LF at line ends.
    pub crlf: bool,
    /// What stands between a key and its value: 0 `=`, 1 ` = `, 2 `:`, any other number `: `.
    pub separator: u32,
}

impl ReadChoice {
    pub(crate) fn to_option(&self) -> ParseOption
        ensures { result ≡ parse_option self.now }
    {
        ParseOption {
            enabled_quote: self.quotes,
            enabled_escape: self.escapes,
            enabled_indented_mutiline_value: self.multiline,
            enabled_preserve_key_leading_whitespace: self.keep_indentation,
            enabled_brackets_in_section_names: self.brackets,
            enabled_raw_backslash: false,
            enabled_indented_comment: false,
            enabled_inline_comment: false,
            line_without_separator: LoneLine::RunsOn,
        }
    }
}

impl Reading {
    /// `None` where a number stands for no option.
    pub(crate) fn to_option(&self) -> Option<ParseOption>
        ensures { result ≡ reading_option self.now }
    {
        Some(ParseOption {
            enabled_quote: self.quotes,
            enabled_escape: self.escapes,
            enabled_indented_mutiline_value: self.multiline,
            enabled_preserve_key_leading_whitespace: self.keep_indentation,
            enabled_brackets_in_section_names: self.brackets,
            enabled_raw_backslash: self.size >= 7 && self.raw_backslash,
            enabled_indented_comment: self.indented_comments()?,
            enabled_inline_comment: self.inline_comments()?,
            line_without_separator: self.lone_line()?,
        })
    }

    // What becomes of a line without separator, if the number stands for that.
    fn lone_line(&self) -> Option<LoneLine>
        ensures { result ≡ lone_line_there self.now }
    {
        if self.size < 8 {
            return Some(LoneLine::RunsOn);
        }
        match self.lone_lines {
            0 => Some(LoneLine::RunsOn),
            1 => Some(LoneLine::Refused),
            2 => Some(LoneLine::Key),
            _ => None,
        }
    }

    // Whether indented comments are on, if the number stands for that.
    fn indented_comments(&self) -> Option<bool>
        ensures { result ≡ indented_comments_there self.now }
    {
        if self.size < 9 {
            return Some(false);
        }
        flag(self.indented_comments)
    }

    // The same of inline comments.
    fn inline_comments(&self) -> Option<bool>
        ensures { result ≡ inline_comments_there self.now }
    {
        if self.size < 10 {
            return Some(false);
        }
        flag(self.inline_comments)
    }
}

// Whether an option is on, if the number stands for that.
fn flag(number: u8) -> Option<bool>
    ensures { result ≡ flag_of number }
{
    match number {
        0 => Some(false),
        1 => Some(true),
        _ => None,
    }
}

// What stands between a key and its value.
fn separator(number: u32) -> &'static str
    ensures text { result.now ≡ separator_of number }
    ensures plain { IsPlainSeparator (chars result.now) }
{
    match number {
        0 => "=",
        1 => " = ",
        2 => ":",
        _ => ": ",
    }
}

impl WriteChoice {
    pub(crate) fn to_option(&self) -> WriteOption
        ensures asked { IsWriteOption self.now result }
        ensures separates { IsPlainSeparator (chars result.kv_separator.now) }
    {
        WriteOption {
            escape_policy: match self.policy {
                0 => EscapePolicy::Nothing,
                1 => EscapePolicy::Basics,
                2 => EscapePolicy::BasicsUnicode,
                3 => EscapePolicy::BasicsUnicodeExtended,
                4 => EscapePolicy::Reserved,
                5 => EscapePolicy::ReservedUnicode,
                6 => EscapePolicy::ReservedUnicodeExtended,
                _ => EscapePolicy::Everything,
            },
            line_separator: if self.crlf {
                LineSeparator::CRLF
            } else {
                LineSeparator::SystemDefault
            },
            kv_separator: separator(self.separator),
        }
    }
}
