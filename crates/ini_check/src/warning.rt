//! A warning: its trap and its place. This file knows no text.
ghost use Rattle.std.specs.Prelude.{◌≡◌, Some};
ghost use Rattle.ini_check.specs.Kinds.{level, level_name, name, trap_named};
ghost use Rattle.ini_check.specs.Messages.{message, printed_warning};

use std::fmt;

/// What a text says that its writer may not have meant.
#[derive(Clone, Copy, PartialEq, Eq, Debug)]
pub enum Trap {
    /// A header's bracket isn't closed on its line: a line end stands in its source, and the name goes on
    /// up to the next `]`. At the header: `[server⏎port=80⏎[client]`. Mend: `]` at the end of its first
    /// line, before the white space there.
    UnclosedBracket,
    /// A quote isn't closed on its line, so the value goes on up to the next such mark. At the quote:
    /// `a = 'tis⏎port = 80⏎b = don't`. Mend: the mark at its line's end, before the white space there.
    UnclosedQuote,
    /// A backslash at a line's end joins the next line to a value: outside quotes, before LF, or before CR
    /// without LF. At the backslash: `p=C:\⏎q=1`. Mend: it is doubled; where escapes are off a space stands
    /// after it, which trimming takes.
    JoinedLine,
    /// A line without a separator runs on into the next one: a line end stands in the key's source, also
    /// after a backslash; there alone where keys end with their lines. At the key: `one⏎two = 2`.
    RunsOn,
    /// The same where after blanks a comment mark begins the key, as it does where indented comments are off.
    /// At the key: `  ; note⏎k = v`. Mend: the blanks before comments that stand in the key go.
    CommentRunsOn,
    /// The text ends in indented text without a separator, which gives nothing, with a line in it that is
    /// no comment. At the text: `a=1⏎  port 80`.
    DroppedLine,
    /// A CR without LF doesn't end a comment, which goes on over the next line, and that is none. At the
    /// CR: `; c␍k=v`. Mend: LF after it.
    LoneCr,
    /// A line of a multiline value is a bracket and what it closes. At the line: `k = v⏎  [b]`.
    HeaderInValue,
    /// A line of a multiline value begins with a word, and has a separator after what keys have; but in a
    /// list: below an empty first line, after a key that isn't indented. At the line: `k = v⏎  port = 80`.
    PairInValue,
    /// An earlier pair since the last header has the key. At the later key: `k=1⏎k=2`.
    RepeatedKey,
    /// An earlier header has the name. At the later header: `[a]⏎[a]`.
    RepeatedSection,
    /// A header or a pair stands on the line of a header. At the key or header: `[a] k=v`.
    AfterHeader,
    /// The name of a section is empty. At the header: `[]`.
    EmptyName,
    /// An earlier header has a name that differs in the case of ASCII letters alone. At the later header:
    /// `[a]⏎[A]`.
    SectionCase,
    /// An earlier pair of the section has a key that differs in the case of ASCII letters alone. At the
    /// later key: `Port=1⏎port=2`.
    KeyCase,
    /// Where indented comments are off, after blanks a comment mark begins a key, on one line. At the key:
    /// `  #k = v`. Mend: the blanks before comments that stand in the key go.
    MarkBeginsKey,
    /// A colon separates a pair, and `=` follows on its line: no white space stands after the colon, or
    /// some before the `=`. At the colon: `12:30 = job`.
    ColonSeparates,
    /// Where escapes are read, a backslash stands in a name before another character than a backslash, a
    /// quote, a separator, a comment mark, a line end or `]`. At the header: `[C:\temp]`. Mend: the
    /// backslash of each such escape is doubled.
    EscapeInName,
    /// The same in a key; `\]` is one there too. At the key: `a\tb = 1`. Mend: the same.
    EscapeInKey,
    /// The same in a value; `\]` is one there too. At the value: `path = C:\temp`. Mend: the same.
    Escape,
    /// Outside quotes and comments a mark stands in a value after white space; or `;` begins the value, or
    /// `#` with white space or nothing after it. At the value: `k = v ; note`.
    MarkInValue,
    /// Text stands after a quoted part of a value, is no other and no note, and is part of the value. At
    /// the text: `k="a"b`.
    TextAfterQuote,
    /// No quote begins a value, and the first of its kind ends its line. At the value: `k=a"`.
    HalfQuote,
    /// White space that is neither a blank nor a line end stands beside a value, and is taken off. At the
    /// value: `k=␣v` where ␣ is U+00A0.
    OddSpace,
    /// Where escapes are read, a name, or a key with its value, isn't plain: written by the default
    /// options, it isn't sure to be read back as it is. At the key or header: `k = " a "`.
    NotPlain,
}

/// Each trap, the levels one after another.
pub const TRAPS: [Trap; 25] = [
    Trap::UnclosedBracket,
    Trap::UnclosedQuote,
    Trap::JoinedLine,
    Trap::RunsOn,
    Trap::CommentRunsOn,
    Trap::DroppedLine,
    Trap::LoneCr,
    Trap::HeaderInValue,
    Trap::PairInValue,
    Trap::RepeatedKey,
    Trap::RepeatedSection,
    Trap::AfterHeader,
    Trap::EmptyName,
    Trap::SectionCase,
    Trap::KeyCase,
    Trap::MarkBeginsKey,
    Trap::ColonSeparates,
    Trap::EscapeInName,
    Trap::EscapeInKey,
    Trap::Escape,
    Trap::MarkInValue,
    Trap::TextAfterQuote,
    Trap::HalfQuote,
    Trap::OddSpace,
    Trap::NotPlain,
];

/// What a trap does.
#[derive(Clone, Copy, PartialEq, Eq, Debug)]
pub enum Level {
    /// A line is swallowed or dropped, or what stands in it isn't found by a look-up.
    LosesData,
    /// What is read is all there, but may be other than what was meant.
    Surprises,
}

impl Level {
    /// The level's name, as users give it.
    pub fn name(self) -> &'static str
        ensures { result.now ≡ level_name self }
    {
        match self {
            Level::LosesData => "loses-data",
            Level::Surprises => "surprises",
        }
    }
}

impl Trap {
    /// The trap in words, always a constant.
    pub fn message(self) -> &'static str
        ensures { result.now ≡ message self }
    {
        match self {
            Trap::UnclosedBracket => {
                "this bracket isn't closed on its line and takes in the lines up to the next one that closes"
            }
            Trap::UnclosedQuote => {
                "this quote isn't closed on its line and takes in the lines up to the next one"
            }
            Trap::JoinedLine => "this backslash joins the next line to this value",
            Trap::RunsOn => "this line has no separator and runs on into the next",
            Trap::CommentRunsOn => {
                "an indented comment mark begins a key, which runs on into the next line"
            }
            Trap::DroppedLine => {
                "this last line is indented and has no separator, so it is dropped"
            }
            Trap::LoneCr => {
                "this CR without LF doesn't end the comment, which takes in the next line"
            }
            Trap::HeaderInValue => "this line looks like a header and goes on with the value above",
            Trap::PairInValue => "this line looks like a pair and goes on with the value above",
            Trap::RepeatedKey => "this key was there before in its section",
            Trap::RepeatedSection => "a section of this name was there before",
            Trap::AfterHeader => "this stands on the line of a header",
            Trap::EmptyName => "the name of this section is empty",
            Trap::SectionCase => "a section was there before whose name differs in case alone",
            Trap::KeyCase => "a key was there before in its section that differs in case alone",
            Trap::MarkBeginsKey => "an indented comment mark begins a key",
            Trap::ColonSeparates => "this colon ends the key, before the equals sign",
            Trap::EscapeInName => "a backslash begins an escape in this name",
            Trap::EscapeInKey => "a backslash begins an escape in this key",
            Trap::Escape => "a backslash begins an escape in this value",
            Trap::MarkInValue => "a comment mark is part of this value",
            Trap::TextAfterQuote => "this text after the closing quote is part of the value",
            Trap::HalfQuote => "this value ends with a quote that nothing opens",
            Trap::OddSpace => {
                "white space other than spaces and tabs around this value is taken off"
            }
            Trap::NotPlain => "this may not be read back once it is written",
        }
    }

    /// The trap's name, as users give it, always a constant.
    pub fn name(self) -> &'static str
        ensures { result.now ≡ name self }
    {
        match self {
            Trap::UnclosedBracket => "unclosed-bracket",
            Trap::UnclosedQuote => "unclosed-quote",
            Trap::JoinedLine => "joined-line",
            Trap::RunsOn => "runs-on",
            Trap::CommentRunsOn => "comment-runs-on",
            Trap::DroppedLine => "dropped-line",
            Trap::LoneCr => "lone-cr",
            Trap::HeaderInValue => "header-in-value",
            Trap::PairInValue => "pair-in-value",
            Trap::RepeatedKey => "repeated-key",
            Trap::RepeatedSection => "repeated-section",
            Trap::AfterHeader => "after-header",
            Trap::EmptyName => "empty-name",
            Trap::SectionCase => "section-case",
            Trap::KeyCase => "key-case",
            Trap::MarkBeginsKey => "mark-begins-key",
            Trap::ColonSeparates => "colon-separates",
            Trap::EscapeInName => "escape-in-name",
            Trap::EscapeInKey => "escape-in-key",
            Trap::Escape => "escape",
            Trap::MarkInValue => "mark-in-value",
            Trap::TextAfterQuote => "text-after-quote",
            Trap::HalfQuote => "half-quote",
            Trap::OddSpace => "odd-space",
            Trap::NotPlain => "not-plain",
        }
    }

    /// The trap of a name.
    pub fn of_name(name: &str) -> Option<Trap>
        ensures { result ≡ trap_named name.now }
    {
        match name {
            "unclosed-bracket" => Some(Trap::UnclosedBracket),
            "unclosed-quote" => Some(Trap::UnclosedQuote),
            "joined-line" => Some(Trap::JoinedLine),
            "runs-on" => Some(Trap::RunsOn),
            "comment-runs-on" => Some(Trap::CommentRunsOn),
            "dropped-line" => Some(Trap::DroppedLine),
            "lone-cr" => Some(Trap::LoneCr),
            "header-in-value" => Some(Trap::HeaderInValue),
            "pair-in-value" => Some(Trap::PairInValue),
            "repeated-key" => Some(Trap::RepeatedKey),
            "repeated-section" => Some(Trap::RepeatedSection),
            "after-header" => Some(Trap::AfterHeader),
            "empty-name" => Some(Trap::EmptyName),
            "section-case" => Some(Trap::SectionCase),
            "key-case" => Some(Trap::KeyCase),
            "mark-begins-key" => Some(Trap::MarkBeginsKey),
            "colon-separates" => Some(Trap::ColonSeparates),
            "escape-in-name" => Some(Trap::EscapeInName),
            "escape-in-key" => Some(Trap::EscapeInKey),
            "escape" => Some(Trap::Escape),
            "mark-in-value" => Some(Trap::MarkInValue),
            "text-after-quote" => Some(Trap::TextAfterQuote),
            "half-quote" => Some(Trap::HalfQuote),
            "odd-space" => Some(Trap::OddSpace),
            "not-plain" => Some(Trap::NotPlain),
            _ => None,
        }
    }

    /// What the trap does.
    pub fn level(self) -> Level
        ensures { result ≡ level self }
    {
        match self {
            Trap::UnclosedBracket
            | Trap::UnclosedQuote
            | Trap::JoinedLine
            | Trap::RunsOn
            | Trap::CommentRunsOn
            | Trap::DroppedLine
            | Trap::LoneCr
            | Trap::HeaderInValue
            | Trap::PairInValue
            | Trap::RepeatedKey
            | Trap::RepeatedSection => Level::LosesData,
            _ => Level::Surprises,
        }
    }
}

/// Prints the message.
impl fmt::Display for Trap {
    ghost output = { λ trap. Some (message trap) };

    fn fmt<W: fmt::Write>(&self, f: &mut fmt::Formatter<W>) -> fmt::Result {
        f.write_str(self.message())
    }
}

/// A trap, and where in the text it is: at a stretch, from its first character up to the one after its last.
///
/// Lines and columns count from 1, and columns count characters. LF alone ends a line here. Which stretch it
/// is stands at each trap.
#[derive(Clone, Copy, PartialEq, Eq, Debug)]
pub struct Warning {
    /// The line where the stretch begins.
    pub line: usize,
    /// The column where it begins.
    pub column: usize,
    /// The line where it ends.
    pub end_line: usize,
    /// The column after its last character.
    pub end_column: usize,
    /// What is there.
    pub trap: Trap,
}

/// Prints the line, a colon, the column, a colon, a space and the trap's message.
impl fmt::Display for Warning {
    ghost output = { λ w. Some (printed_warning w) };

    fn fmt<W: fmt::Write>(&self, f: &mut fmt::Formatter<W>) -> fmt::Result {
        write!(f, "{}:{}: {}", self.line, self.column, self.trap)
    }
}
