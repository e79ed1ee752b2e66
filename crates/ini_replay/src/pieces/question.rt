//! Questions: a text, the options by which it is read and written, and edits.
use crate::hex::text_of_hex;
use crate::options::{
    invalid, name_of_word, policy_of_name, reading_of_flags, separator_of_line_end,
    separator_of_text,
};
use ini_text::{ParseOption, WriteOption};
use std::alloc::{AllocError, Global};
use std::io;

/// An edit that is asked for.
#[derive(Debug, Drop)]
pub(crate) struct EditAsked {
    pub(crate) call: String,
    pub(crate) name: Option<String>,
    pub(crate) key: String,
    pub(crate) other: String,
    pub(crate) value: String,
    pub(crate) number: usize,
}

/// What a line asks.
#[derive(Drop)]
pub(crate) struct Question {
    pub(crate) read: ParseOption,
    pub(crate) write: WriteOption,
    pub(crate) text: String,
    pub(crate) edits: Vec<EditAsked>,
}

fn asked(alloc: Global, words: &str) -> io::Result<EditAsked> {
    let mut words = words.split(',');
    let mut word = || words.next().ok_or(invalid());
    let call = String::from_str(alloc, word()?)?;
    let name = name_of_word(alloc, word()?)?;
    let key = text_of_hex(alloc, word()?)?;
    let other = text_of_hex(alloc, word()?)?;
    let value = text_of_hex(alloc, word()?)?;
    let number = match word()?.parse() {
        Ok(number) => number,
        Err(_) => return Err(invalid()),
    };
    Ok(EditAsked {
        call,
        name,
        key,
        other,
        value,
        number,
    })
}

impl Question {
    /// The question of a line: `InvalidInput` where the line is none.
    pub(crate) fn parse(alloc: Global, line: &str) -> io::Result<Question> {
        let mut words = line.split(' ');
        let mut word = || words.next().ok_or(invalid());
        let read = reading_of_flags(word()?)?;
        let escape_policy = policy_of_name(word()?)?;
        let line_separator = separator_of_line_end(word()?)?;
        let separator = text_of_hex(alloc, word()?)?;
        let text = text_of_hex(alloc, word()?)?;
        let mut edits = Vec::new(alloc);
        for edit in words {
            edits.push(asked(alloc, edit)?).map_err(AllocError::from)?;
        }
        Ok(Question {
            read,
            write: WriteOption {
                escape_policy,
                line_separator,
                kv_separator: separator_of_text(separator.as_str())?,
            },
            text,
            edits,
        })
    }
}
