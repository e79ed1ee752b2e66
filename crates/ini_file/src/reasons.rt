//! Why a value, a key or a name can't be written so that it is read back, and which options help, in words.
//! This file knows no text.
ghost use Rattle.std.specs.Prelude.{◌≡◌};
ghost use Rattle.ini_file.specs.Reasons.{help_words, policy_with, reading_with, reason_words};

use ini::{EscapePolicy, ParseOption};

/// Why words can't be written so that they are read back.
#[derive(Clone, Copy)]
pub enum Reason {
    /// White space begins or ends them.
    Edges,
    /// A quote's mark begins a value.
    QuoteMark,
    /// A line end, and no escapes.
    LineEnd,
    /// A backslash, and no escapes.
    Backslash,
    /// A backslash at a value's end, which isn't one of a pair.
    LoneBackslash,
    /// A character that is written as an escape, where none is read.
    Escaped,
    /// A character whose escape is a letter that isn't read.
    UnreadLetter,
    /// A character whose escape has more digits than are read.
    Extended,
    /// No character, of a key.
    Empty,
    /// An opening bracket begins a key.
    OpenBracket,
    /// A closing bracket in a name.
    CloseBracket,
    /// A separator in a key.
    Separator,
    /// A comment mark begins a key.
    CommentMark,
    /// A byte order mark begins a key, and would begin the file.
    ByteOrderMark,
    /// No separator between key and value.
    NoSeparator,
}

/// An option with which words can be written.
#[derive(Clone, Copy)]
pub enum Help {
    /// The basic escapes.
    Basics,
    /// No escapes.
    Nothing,
    /// The basic escapes, and those up to U+FFFF.
    Unicode,
    /// The basic escapes, and those of separators and comment marks.
    Reserved,
    /// No quotes are read.
    NoQuote,
    /// Brackets are read in names.
    Brackets,
    /// White space before a key is read.
    Indent,
    /// A backslash is read as a character like any other.
    RawBackslash,
}

impl Reason {
    /// The reason in words.
    pub fn words(self) -> &'static str
        ensures { result.now ≡ reason_words self }
    {
        match self {
            Reason::Edges => "white space begins or ends it",
            Reason::QuoteMark => "a quote begins it",
            Reason::LineEnd => "it has a line end",
            Reason::Backslash => "it has a backslash",
            Reason::LoneBackslash => "a backslash at its end would take what follows",
            Reason::Escaped => {
                "it has a character that is written as an escape, and --noescape reads none"
            }
            Reason::UnreadLetter => "it has U+000B or U+000C, whose escapes aren't read",
            Reason::Extended => "it has a character above U+FFFF, whose escape isn't read",
            Reason::Empty => "it is empty",
            Reason::OpenBracket => "[ begins it",
            Reason::CloseBracket => "it has ]",
            Reason::Separator => "= or : stands in it",
            Reason::CommentMark => "; or # begins it",
            Reason::ByteOrderMark => {
                "it begins with U+FEFF, which reading drops at the front of a file"
            }
            Reason::NoSeparator => "it isn't one = or : with spaces and tabs alone around it",
        }
    }
}

impl Help {
    /// The option in words.
    pub fn words(self) -> &'static str
        ensures { result.now ≡ help_words self }
    {
        match self {
            Help::Basics => "--policy Basics",
            Help::Nothing => "--policy Nothing",
            Help::Unicode => "--policy BasicsUnicode",
            Help::Reserved => "--policy Reserved",
            Help::NoQuote => "--noquote",
            Help::Brackets => "--brackets",
            Help::Indent => "--indent",
            Help::RawBackslash => "--raw-backslash",
        }
    }

    /// The policy with the option.
    pub fn policy(self, policy: EscapePolicy) -> EscapePolicy
        ensures { result ≡ policy_with self policy }
    {
        match self {
            Help::Basics => EscapePolicy::Basics,
            Help::Nothing => EscapePolicy::Nothing,
            Help::Unicode => EscapePolicy::BasicsUnicode,
            Help::Reserved => EscapePolicy::Reserved,
            _ => policy,
        }
    }

    /// How texts are read with the option.
    pub fn reading(self, read: ParseOption) -> ParseOption
        ensures { result ≡ reading_with self read }
    {
        let mut read = read;
        match self {
            Help::NoQuote => read.enabled_quote = false,
            Help::Brackets => read.enabled_brackets_in_section_names = true,
            Help::Indent => read.enabled_preserve_key_leading_whitespace = true,
            Help::RawBackslash => read.enabled_raw_backslash = true,
            _ => {}
        }
        read
    }
}

/// The options that may help, each tried before the next.
pub const HELPS: [Help; 8] = [
    Help::Basics,
    Help::Nothing,
    Help::Unicode,
    Help::Reserved,
    Help::NoQuote,
    Help::Brackets,
    Help::Indent,
    Help::RawBackslash,
];
