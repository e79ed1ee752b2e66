//! Where strings end, and the runs up to there. This file knows endpoints, and no production.
ghost use Rattle.std.specs.Prelude.{◌≡◌, ◌++◌, ◌≤◌, ℕ, false, true, not, chars, length, MatchOption};
ghost use Rattle.std.specs.List.{list_all, prefix_len};
ghost use Rattle.ini_text.specs.Grammar.CharacterKinds.{BeginsWithNo};
ghost use Rattle.ini_text.specs.Grammar.Strings.{ends_with_line, is_endpoint};
ghost use Rattle.ini_text.specs.Inside.Endpoints.{ends_of, is_key_mark};
ghost use Rattle.ini_text.specs.Inside.Lanes.{is_one_of};
ghost use Rattle.ini_text.specs.Inside.Scans.{EndsRun, from_note, is_no_mark, is_raw, is_run};

use crate::lanes::{Five, Three, run_before};
use crate::option::{LoneLine, ParseOption};
use crate::text::{is_blank, is_line_end, is_separator, last_or_line_feed, split_first};

// The bytes at which a run of a key ends that ends with its line.
const KEY_MARKS: Five = Five(Three(b'\\', b'=', b':'), b'\n', b'\r');

/// Where a string ends.
#[derive(Clone, Copy)]
pub(crate) enum Endpoints {
    Name,
    /// A name in which brackets may stand.
    BracketedName,
    Key,
    DoubleQuotes,
    SingleQuotes,
    Plain,
}

impl Endpoints {
    pub(crate) fn contains(self, c: char, read: &ParseOption) -> bool
        ensures { result ≡ is_endpoint (ends_of read.now self) c }
    {
        match self {
            Endpoints::Name => c == ']',
            Endpoints::BracketedName => c == '\n' || c == '\r',
            Endpoints::Key => is_separator(c) || ends_with_line(read) && is_line_end(c),
            Endpoints::DoubleQuotes => c == '"',
            Endpoints::SingleQuotes => c == '\'',
            Endpoints::Plain => c == '\n' || c == '\r',
        }
    }

    /// The bytes at which a run of characters ends: a backslash, and the characters at which the string
    /// ends. `None` where they are those of `KEY_MARKS`.
    #[tactic(auto, using(crate::proofs::StringLemmas::LaneLemmas::no_marks, crate::proofs::StringLemmas::LaneLemmas::no_key_marks))]
    pub(crate) fn marks(self, read: &ParseOption) -> Option<Three>
        ensures { MatchOption result ((c : ℕ) → is_raw (ends_of read.now self) c ≡ not (is_key_mark c))
            (λ three. (c : ℕ) → is_raw (ends_of read.now self) c ≡ not (is_one_of three.0 three.1 three.2 c)) }
    {
        match self {
            Endpoints::Name => Some(Three(b'\\', b']', b']')),
            Endpoints::BracketedName => Some(Three(b'\\', b'\n', b'\r')),
            Endpoints::Key if ends_with_line(read) => None,
            Endpoints::Key => Some(Three(b'\\', b'=', b':')),
            Endpoints::DoubleQuotes => Some(Three(b'\\', b'"', b'"')),
            Endpoints::SingleQuotes => Some(Three(b'\\', b'\'', b'\'')),
            Endpoints::Plain => Some(Three(b'\\', b'\n', b'\r')),
        }
    }

    pub(crate) fn contains_text_end(self, read: &ParseOption) -> bool
        ensures { result ≡ (ends_of read.now self).text }
    {
        match self {
            Endpoints::Plain => true,
            Endpoints::Key => matches!(read.line_without_separator, LoneLine::Key),
            _ => false,
        }
    }

    /// Whether the string ends before notes too.
    pub(crate) fn contains_notes(self, read: &ParseOption) -> bool
        ensures { result ≡ (ends_of read.now self).notes }
    {
        match self {
            Endpoints::Plain | Endpoints::BracketedName => read.enabled_inline_comment,
            Endpoints::Key => ends_with_line(read) && read.enabled_inline_comment,
            _ => false,
        }
    }

    /// The message of a text that ends before one of the endpoints.
    pub(crate) fn expected(self) -> &'static str {
        match self {
            Endpoints::Name => "expecting \"[Some(']')]\" but found EOF.",
            Endpoints::BracketedName => "expecting \"[Some('\\r'), Some('\\n')]\" but found EOF.",
            Endpoints::Key => "expecting \"[Some('='), Some(':')]\" but found EOF.",
            Endpoints::DoubleQuotes => "expecting \"[Some('\"')]\" but found EOF.",
            Endpoints::SingleQuotes => "expecting \"[Some('\\'')]\" but found EOF.",
            Endpoints::Plain => "expecting \"[Some('\\n'), Some('\\r'), None]\" but found EOF.",
        }
    }
}

// Whether a key ends with its line.
fn ends_with_line(read: &ParseOption) -> bool
    ensures { result ≡ ends_with_line read.now.line_without_separator }
{
    !matches!(read.line_without_separator, LoneLine::RunsOn)
}

#[inline(always)]
fn run_len(bytes: &[u8], read: &ParseOption, ends: Endpoints) -> usize
    ensures len { result ≡ prefix_len (is_raw (ends_of read.now ends)) bytes.now }
    ensures within { result ≤ length bytes.now }
{
    match ends.marks(read) {
        Some(three) => run_before(bytes, &three),
        None => run_before(bytes, &KEY_MARKS),
    }
}

/// The run at the front of a text, and what follows it: characters that are neither a backslash nor an
/// endpoint, up to a note where the string ends before one.
#[inline(always)]
pub(crate) fn split_run<'a>(
    text: &'a str,
    read: &ParseOption,
    ends: Endpoints,
) -> (&'a str, &'a str)
    ensures parts { chars text.now ≡ chars result.0.now ++ chars result.1.now }
    ensures run { is_run (ends_of read.now ends) (chars result.0.now) ≡ true }
    ensures next { EndsRun (ends_of read.now ends) (chars result.0.now) (chars result.1.now) }
{
    let len = run_len(text.as_bytes(), read, ends);
    // Where notes are off, they cost this test alone.
    if read.enabled_inline_comment {
        return split_noted_run(text, len, read, ends);
    }
    text.split_at(len)
}

/// The same, where so many bytes stand before a backslash or an endpoint.
#[inline(never)]
fn split_noted_run<'a>(
    text: &'a str,
    len: usize,
    read: &ParseOption,
    ends: Endpoints,
) -> (&'a str, &'a str)
    requires { len ≡ prefix_len (is_raw (ends_of read.now ends)) text.now }
    ensures parts { chars text.now ≡ chars result.0.now ++ chars result.1.now }
    ensures run { is_run (ends_of read.now ends) (chars result.0.now) ≡ true }
    ensures next { EndsRun (ends_of read.now ends) (chars result.0.now) (chars result.1.now) }
{
    let (run, rest) = text.split_at(len);
    if !ends.contains_notes(read) {
        return (run, rest);
    }
    text.split_at(run.len() - from_note(run).len())
}

/// What stands in a text from the first comment mark behind a blank on; nothing where there is none.
fn from_note(text: &str) -> &str
    ensures { chars result.now ≡ from_note (chars text.now) }
{
    let mut rest = text;
    'marks: loop {
        let (before, next) = split_mark(rest);
        let Some((_, after)) = split_first(next) else {
            return next;
        };
        if is_blank(last_or_line_feed(before)) {
            return next;
        }
        rest = after;
    }
}

/// What stands in a text before the first comment mark, and from it on.
fn split_mark(text: &str) -> (&str, &str)
    ensures parts { chars text.now ≡ chars result.0.now ++ chars result.1.now }
    ensures before { list_all is_no_mark (chars result.0.now) ≡ true }
    ensures next { BeginsWithNo is_no_mark (chars result.1.now) }
{
    let marks = Three(b';', b'#', b'#');
    text.split_at(run_before(text.as_bytes(), &marks))
}
