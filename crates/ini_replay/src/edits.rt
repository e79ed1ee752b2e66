//! The new text that an edit of a text gives, or why there is none, for a comparison with another program.
//!
//! A question has nine words with a space between them: the call, as `set_existing`; five flags
//! (`options.rt`); the escape policy by its name; the line end, `LF` or `CRLF`; the separator; the section,
//! `G` for the general one or `S` and its name; the key; the value, or the new key or name; and the text.
//! Separator, name, key, value and text stand as the hexadecimal of their UTF-8, which may be nothing. A
//! call takes of these what it has a use for. The general section has no header, so there is none to take
//! out or to name.
//!
//! The answer is `new` and the new text in hexadecimal; `none`, where there is nothing to edit; or `refused`
//! and why, a refused text with line, column and kind.
mod question;
pub(crate) mod timed;

use crate::edits::question::{Call, Question};
use crate::hex::push_hex;
use ini_edit::{
    EditError, add, delete, delete_section, rename_key, rename_section, set, set_existing,
};
use ini_text::Error;
use std::alloc::Global;

/// The new text of a question's edit.
fn edited(alloc: Global, asked: &Question) -> Result<Option<String>, EditError> {
    let (text, read, write) = (asked.text.as_str(), asked.read, &asked.write);
    let name = asked.name.as_deref();
    let (key, value) = (asked.key.as_str(), asked.value.as_str());
    match asked.call {
        Call::SetExisting => {
            set_existing(alloc, text, read, write.escape_policy, name, key, value)
        }
        Call::Delete => delete(alloc, text, read, name, key),
        Call::Set => Ok(Some(set(alloc, text, read, write, name, key, value)?)),
        Call::Add => Ok(Some(add(alloc, text, read, write, name, key, value)?)),
        Call::RenameKey => rename_key(alloc, text, read, write.escape_policy, name, key, value),
        Call::DeleteSection | Call::RenameSection => match name {
            Some(name) => section_edited(alloc, asked, name),
            None => Ok(None),
        },
    }
}

/// The new text of an edit that is about the first section of a name.
fn section_edited(
    alloc: Global,
    asked: &Question,
    name: &str,
) -> Result<Option<String>, EditError> {
    let (text, read, policy) = (asked.text.as_str(), asked.read, asked.write.escape_policy);
    match asked.call {
        Call::RenameSection => rename_section(
            alloc,
            text,
            read,
            policy,
            name,
            asked.value.as_str(),
        ),
        _ => delete_section(alloc, text, read, name),
    }
}

fn new_line(alloc: Global, text: &str) -> Result<String, Error> {
    let mut line = String::from_str(alloc, "new ")?;
    push_hex(&mut line, text.as_bytes())?;
    Ok(line)
}

/// The answer to a question, without a line end.
pub(crate) fn answer(alloc: Global, question: &str) -> Result<String, Error> {
    let asked = Question::parse(alloc, question)?;
    match edited(alloc, &asked) {
        Ok(Some(new)) => new_line(alloc, new.as_str()),
        Ok(None) => Ok(String::from_str(alloc, "none")?),
        Err(EditError::Text(Error::Parse(fault))) => {
            let (line, column, kind) = (fault.line, fault.col, fault.kind);
            Ok(format!(in alloc; "refused {line}:{column} {kind:?}")?)
        }
        Err(EditError::Text(refusal)) => Err(refusal),
        Err(refusal) => Ok(format!(in alloc; "refused {refusal:?}")?),
    }
}
