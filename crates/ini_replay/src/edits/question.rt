//! Questions: an edit of a text, and the options by which it is read and written.
use crate::hex::text_of_hex;
use crate::options::{
    invalid, name_of_word, policy_of_name, reading_of_flags, separator_of_line_end,
    separator_of_text,
};
use ini_text::{ParseOption, WriteOption};
use std::alloc::Global;
use std::io;

/// The calls of `ini_edit`.
#[derive(Clone, Copy, Debug)]
pub(crate) enum Call {
    SetExisting,
    Delete,
    Set,
    Add,
    RenameKey,
    DeleteSection,
    RenameSection,
}

/// What a line asks.
#[derive(Drop)]
pub(crate) struct Question {
    pub(crate) call: Call,
    pub(crate) read: ParseOption,
    pub(crate) write: WriteOption,
    /// The section's name; none is the general one's.
    pub(crate) name: Option<String>,
    pub(crate) key: String,
    pub(crate) value: String,
    pub(crate) text: String,
}

fn call_of_name(name: &str) -> io::Result<Call> {
    match name {
        "set_existing" => Ok(Call::SetExisting),
        "delete" => Ok(Call::Delete),
        "set" => Ok(Call::Set),
        "add" => Ok(Call::Add),
        "rename_key" => Ok(Call::RenameKey),
        "delete_section" => Ok(Call::DeleteSection),
        "rename_section" => Ok(Call::RenameSection),
        _ => Err(invalid()),
    }
}

impl Question {
    /// The question of a line: `InvalidInput` where the line is none.
    pub(crate) fn parse(alloc: Global, line: &str) -> io::Result<Question> {
        let mut words = line.split(' ');
        let mut word = || words.next().ok_or(invalid());
        let call = call_of_name(word()?)?;
        let read = reading_of_flags(word()?)?;
        let escape_policy = policy_of_name(word()?)?;
        let line_separator = separator_of_line_end(word()?)?;
        let separator = text_of_hex(alloc, word()?)?;
        let write = WriteOption {
            escape_policy,
            line_separator,
            kv_separator: separator_of_text(separator.as_str())?,
        };
        Ok(Question {
            call,
            read,
            write,
            name: name_of_word(alloc, word()?)?,
            key: text_of_hex(alloc, word()?)?,
            value: text_of_hex(alloc, word()?)?,
            text: text_of_hex(alloc, word()?)?,
        })
    }
}
