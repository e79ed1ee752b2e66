//! Questions: a text, the options that it is to be loaded by, and those that it is then to be written by.
use crate::hex::text_of_hex;
use crate::options::{invalid, policy_of_name, reading_of_flags, separator_of_line_end};
use ini::{ParseOption, WriteOption};
use std::alloc::Global;
use std::io;

/// What a line asks.
#[derive(Drop)]
pub(crate) struct Question {
    /// The text that is loaded.
    pub(crate) text: String,
    /// How the text is to be loaded.
    pub(crate) reading: ParseOption,
    /// How the loaded document is to be written, where its text is asked for and not the document itself.
    pub(crate) writing: Option<WriteOption>,
}

fn split(line: &str) -> io::Result<(&str, &str)> {
    match line.split_once(' ') {
        Some(parts) => Ok(parts),
        None => Err(invalid()),
    }
}

impl Question {
    /// The question of a line.
    ///
    /// # Errors
    ///
    /// `InvalidInput` where the line is none, and refused memory.
    pub(crate) fn parse(alloc: Global, line: &str) -> io::Result<Question> {
        let (first, rest) = split(line)?;
        let Some((second, rest)) = rest.split_once(' ') else {
            return Question::of_words(alloc, first, rest, None);
        };
        let (flags, digits) = split(rest)?;
        let option = WriteOption {
            escape_policy: policy_of_name(first)?,
            line_separator: separator_of_line_end(second)?,
            ..WriteOption::default()
        };
        Question::of_words(alloc, flags, digits, Some(option))
    }

    fn of_words(
        alloc: Global,
        flags: &str,
        digits: &str,
        writing: Option<WriteOption>,
    ) -> io::Result<Question> {
        let reading = reading_of_flags(flags)?;
        let text = text_of_hex(alloc, digits)?;
        Ok(Question {
            text,
            reading,
            writing,
        })
    }
}
