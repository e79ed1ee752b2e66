//! The options that stand at the front of a program's words. This file knows no command and no device.
ghost use Rattle.std.specs.Prelude.{◌≡◌, ◌≤◌, IfSome, length, map, string_bytes};
ghost use Rattle.ini_words.specs.Words.{IsWriteOption, default_options, given, given_by, lone_line_named};
ghost use Rattle.ini_words.specs.Words.{policy_named, with_switch};

use ini_text::{EscapePolicy, LineSeparator, LoneLine, ParseOption, WriteOption};

/// How a program reads and writes.
#[derive(Clone, Copy)]
pub struct Options {
    /// How texts are read.
    pub reading: ParseOption,
    /// Which characters are written as escapes.
    pub escape_policy: EscapePolicy,
    /// What ends a written line.
    pub line_separator: LineSeparator,
}

/// The options where no word sets one: the defaults of reading and writing.
impl Default for Options {
    ghost is_default = { λ o. o ≡ default_options };

    fn default() -> Options {
        Options {
            reading: ParseOption::default(),
            escape_policy: EscapePolicy::Basics,
            line_separator: LineSeparator::SystemDefault,
        }
    }
}

impl Options {
    /// The options that words have at their front, in any order and each as often as one likes, and the
    /// words after them: those from the first one on that is no option. The last `--policy` holds, and the
    /// last `--lone-lines`. `None` where the name after one is missing, or unknown. Takes no memory.
    pub fn of_words(words: &[String]) -> Option<(Options, &[String])>
        ensures given { given_by result ≡ given default_options (map string_bytes words.now) }
        ensures no_more { IfSome result (λ p. length p.1.now ≤ length words.now) }
    {
        Options::default().with_words(words)
    }

    /// The same where other options than the default ones hold before the words.
    pub fn with_words(self, words: &[String]) -> Option<(Options, &[String])>
        ensures given { given_by result ≡ given self (map string_bytes words.now) }
        ensures no_more { IfSome result (λ p. length p.1.now ≤ length words.now) }
    {
        let mut options = self;
        let mut rest = words;
        'words: while let Some((word, after)) = rest.split_first() {
            let word = word.as_str();
            if word == "--policy" {
                let (name, after) = after.split_first()?;
                options.escape_policy = policy_named(name.as_str())?;
                rest = after;
            } else if word == "--lone-lines" {
                let (name, after) = after.split_first()?;
                options.reading.line_without_separator = lone_line_named(name.as_str())?;
                rest = after;
            } else if let Some(changed) = options.with_switch(word) {
                options = changed;
                rest = after;
            } else {
                return Some((options, rest));
            }
        }
        Some((options, rest))
    }

    /// How documents are written: by the policy and the line end of the options, and with `=` alone between
    /// a key and its value.
    pub fn write_option(self) -> WriteOption
        ensures { IsWriteOption self result }
    {
        WriteOption {
            escape_policy: self.escape_policy,
            line_separator: self.line_separator,
            ..WriteOption::default()
        }
    }

    // The options after a word that is one by itself.
    fn with_switch(self, word: &str) -> Option<Options>
        ensures { result ≡ with_switch word.now self }
    {
        let mut options = self;
        match word {
            "--noescape" => options.reading.enabled_escape = false,
            "--noquote" => options.reading.enabled_quote = false,
            "--multiline" => options.reading.enabled_indented_mutiline_value = true,
            "--indent" => options.reading.enabled_preserve_key_leading_whitespace = true,
            "--brackets" => options.reading.enabled_brackets_in_section_names = true,
            "--raw-backslash" => options.reading.enabled_raw_backslash = true,
            "--indented-comments" => options.reading.enabled_indented_comment = true,
            "--inline-comments" => options.reading.enabled_inline_comment = true,
            "--crlf" => options.line_separator = LineSeparator::CRLF,
            _ => return None,
        }
        Some(options)
    }
}

/// The policy of a name, which is spelled as its variant.
pub fn policy_named(name: &str) -> Option<EscapePolicy>
    ensures { result ≡ policy_named name.now }
{
    match name {
        "Nothing" => Some(EscapePolicy::Nothing),
        "Basics" => Some(EscapePolicy::Basics),
        "BasicsUnicode" => Some(EscapePolicy::BasicsUnicode),
        "BasicsUnicodeExtended" => Some(EscapePolicy::BasicsUnicodeExtended),
        "Reserved" => Some(EscapePolicy::Reserved),
        "ReservedUnicode" => Some(EscapePolicy::ReservedUnicode),
        "ReservedUnicodeExtended" => Some(EscapePolicy::ReservedUnicodeExtended),
        "Everything" => Some(EscapePolicy::Everything),
        _ => None,
    }
}

/// What becomes of lines without separator, by its name.
pub fn lone_line_named(name: &str) -> Option<LoneLine>
    ensures { result ≡ lone_line_named name.now }
{
    match name {
        "runs-on" => Some(LoneLine::RunsOn),
        "refused" => Some(LoneLine::Refused),
        "keys" => Some(LoneLine::Key),
        _ => None,
    }
}
