//! The options by which texts are read and written, by their words.
use crate::token::{Token, unreadable};
use ini::{Error, EscapePolicy, LineSeparator, ParseOption, WriteOption};
use ini_text::LoneLine;
use std::alloc::Global;

/// Every policy.
pub const POLICIES: [EscapePolicy; 8] = [
    EscapePolicy::Nothing,
    EscapePolicy::Basics,
    EscapePolicy::BasicsUnicode,
    EscapePolicy::BasicsUnicodeExtended,
    EscapePolicy::Reserved,
    EscapePolicy::ReservedUnicode,
    EscapePolicy::ReservedUnicodeExtended,
    EscapePolicy::Everything,
];

/// How texts are read and written. The default ones, but for what words have set.
#[derive(Drop)]
pub struct Options {
    /// How a text is read.
    pub reading: ParseOption,
    /// The policies that were named, of which the last one writes.
    pub policies: Vec<EscapePolicy>,
    line_separator: LineSeparator,
    kv_separator: &'static str,
}

fn policy_of(name: &str) -> Option<EscapePolicy> {
    match name {
        "Nothing" => Some(EscapePolicy::Nothing),
        "Basics" => Some(EscapePolicy::Basics),
        "BasicsUnicode" => Some(EscapePolicy::BasicsUnicode),
        "BasicsUnicodeExtended" => Some(EscapePolicy::BasicsUnicodeExtended),
        "Reserved" => Some(EscapePolicy::Reserved),
        "ReservedUnicode" => Some(EscapePolicy::ReservedUnicode),
        "ReservedUnicodeExtended" => Some(EscapePolicy::ReservedUnicodeExtended),
        "Everything" => Some(EscapePolicy::Everything),
        _ => None,
    }
}

fn line_separator_of(name: &str) -> Option<LineSeparator> {
    match name {
        "SystemDefault" => Some(LineSeparator::SystemDefault),
        "CR" => Some(LineSeparator::CR),
        "CRLF" => Some(LineSeparator::CRLF),
        _ => None,
    }
}

// The options, and what the word turns off or on.
fn reading_with(read: ParseOption, word: &str) -> Option<ParseOption> {
    match word {
        "noescape" => Some(ParseOption {
            enabled_escape: false,
            ..read
        }),
        "noquote" => Some(ParseOption {
            enabled_quote: false,
            ..read
        }),
        "multiline" => Some(ParseOption {
            enabled_indented_mutiline_value: true,
            ..read
        }),
        "indented" => Some(ParseOption {
            enabled_preserve_key_leading_whitespace: true,
            ..read
        }),
        "brackets" => Some(ParseOption {
            enabled_brackets_in_section_names: true,
            ..read
        }),
        "rawbackslash" => Some(ParseOption {
            enabled_raw_backslash: true,
            ..read
        }),
        "indentedcomments" => Some(ParseOption {
            enabled_indented_comment: true,
            ..read
        }),
        "inlinecomments" => Some(ParseOption {
            enabled_inline_comment: true,
            ..read
        }),
        "refusedlines" => Some(ParseOption {
            line_without_separator: LoneLine::Refused,
            ..read
        }),
        "lonekeys" => Some(ParseOption {
            line_without_separator: LoneLine::Key,
            ..read
        }),
        _ => None,
    }
}

// The separators that cases write by; an option keeps one for the whole run.
const SEPARATORS: [&'static str; 16] = [
    "=", ":", " = ", ": ", "\t: \t", "", " ", "==", " :=", "x=", "= x", "=x", "=\n", "\n=",
    "\u{a0}=", "-",
];

fn separator_of(text: &[u8]) -> Option<&'static str> {
    for separator in SEPARATORS {
        if separator.as_bytes() == text {
            return Some(separator);
        }
    }
    None
}

impl Options {
    /// The default options.
    pub fn new(alloc: Global) -> Options {
        Options {
            reading: ParseOption::default(),
            policies: Vec::new(alloc),
            line_separator: LineSeparator::SystemDefault,
            kv_separator: "=",
        }
    }

    /// How a document is written.
    pub fn writing(&self) -> WriteOption {
        WriteOption {
            escape_policy: self
                .policies
                .last()
                .copied()
                .unwrap_or(EscapePolicy::Basics),
            line_separator: self.line_separator,
            kv_separator: self.kv_separator,
        }
    }

    /// Sets what a word names.
    pub fn set_word(&mut self, word: &str) -> Result<(), Error> {
        if let Some(policy) = policy_of(word) {
            self.policies.push(policy)?;
            return Ok(());
        }
        if let Some(separator) = line_separator_of(word) {
            self.line_separator = separator;
            return Ok(());
        }
        match reading_with(self.reading, word) {
            Some(reading) => {
                self.reading = reading;
                Ok(())
            }
            None => Err(unreadable("no option")),
        }
    }

    /// Sets what a word names, or the separator of keys and values that a text is.
    pub fn set(&mut self, token: &Token) -> Result<(), Error> {
        match token {
            Token::Word(word) => self.set_word(word.as_str()),
            Token::Text(text) => match separator_of(text.as_slice()) {
                Some(separator) => {
                    self.kv_separator = separator;
                    Ok(())
                }
                None => Err(unreadable("no separator")),
            },
        }
    }
}
