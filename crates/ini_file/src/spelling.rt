//! How the program's options may be spelled, and what each is. This file knows no command.
ghost use Rattle.std.specs.Prelude.{◌≡◌, Some};
ghost use Rattle.std.specs.Option.{option_map};
ghost use Rattle.ini_file.specs.Spelling.{is_like_option, kind_of, parted, spelled, takes_text};

/// What an option is.
#[derive(Clone, Copy)]
pub enum Kind {
    /// It is of reading and writing, and stands alone.
    Reading,
    /// It is of reading and writing, and a text follows it.
    ReadingText,
    /// It is a choice, and stands alone.
    Choice,
    /// It is a choice, and a text follows it.
    ChoiceText,
    /// It names a section.
    Section,
    /// It names a dialect.
    Like,
    /// It names an encoding.
    Encoding,
    /// It asks for help.
    Help,
}

impl Kind {
    /// Whether a text follows.
    pub fn takes_text(self) -> bool
        ensures { result ≡ takes_text self }
    {
        matches!(
            self,
            Kind::ReadingText | Kind::ChoiceText | Kind::Section | Kind::Like | Kind::Encoding
        )
    }
}

/// What an option's long name names.
pub fn kind_of(name: &str) -> Option<Kind>
    ensures { result ≡ kind_of name.now }
{
    match name {
        "--noescape"
        | "--noquote"
        | "--multiline"
        | "--indent"
        | "--brackets"
        | "--raw-backslash"
        | "--indented-comments"
        | "--inline-comments"
        | "--crlf" => { Some(Kind::Reading) }
        "--policy" | "--lone-lines" => Some(Kind::ReadingText),
        "--existing"
        | "--all"
        | "--last"
        | "--origin"
        | "--null"
        | "--dry-run"
        | "--in-place"
        | "--force"
        | "--verbose"
        | "--fix"
        | "--suggest"
        | "--ours"
        | "--theirs"
        | "--check"
        | "--reverse"
        | "--align"
        | "--lists"
        | "--comments" => { Some(Kind::Choice) }
        "--output"
        | "--default"
        | "--separator"
        | "--wait"
        | "--format"
        | "--allow"
        | "--deny"
        | "--indent-pairs"
        | "--blank-lines"
        | "--color"
        | "--type"
        | "--sort" => { Some(Kind::ChoiceText) }
        "--section" => Some(Kind::Section),
        "--like" => Some(Kind::Like),
        "--encoding" => Some(Kind::Encoding),
        "--help" => Some(Kind::Help),
        _ => None,
    }
}

/// The long name that a word spells, and the text after `=` in the same word. A word that isn't like an
/// option spells itself.
pub fn spelled(word: &str) -> (&str, Option<&str>)
    ensures { (result.0.now, option_map (λ text. text.now) result.1) ≡ spelled word.now }
{
    match word {
        "-h" => ("--help", None),
        "-n" | "--diff" => ("--dry-run", None),
        "-s" => ("--section", None),
        _ if word.as_bytes().starts_with(b"--") => parted(word),
        _ => (word, None),
    }
}

// What stands before the first `=` of a word, and after it, if there is one.
fn parted(word: &str) -> (&str, Option<&str>)
    ensures { (result.0.now, option_map (λ text. text.now) result.1) ≡ parted word.now }
{
    match word.split_once('=') {
        Some((name, text)) => (name, Some(text)),
        None => (word, None),
    }
}

/// Whether a word looks like an option: two hyphens begin it, or one and a letter.
pub fn is_like_option(word: &str) -> bool
    ensures { result ≡ is_like_option word.now }
{
    match word.as_bytes() {
        [b'-', second, ..] => *second == b'-' || second.is_ascii_alphabetic(),
        _ => false,
    }
}
