//! Questions about edits of a text, by the calls of `ini_edit`.
//!
//! A row is a text, a call and its operands: a name (`general`, or a text), a key, a value or what takes its
//! place. After them may stand `like` and another text, which was edited by hand.
use crate::document::{add_key, name_of, set_key};
use crate::option::Options;
use crate::show::{load, sections};
use crate::token::{Token, text_of, unreadable};
use ini::{Error, Ini, ParseOption};
use ini_edit::{
    Edit, EditError, add, delete, delete_section, find_pair, make_edits, rename_key,
    rename_section, set, set_existing,
};
use std::alloc::Global;

/// The edit that a call and its operands are.
pub fn edit_of<'a>(call: &str, operands: &'a [Token]) -> Result<Edit<'a>, Error> {
    match operands {
        [old] if call == "delete_section" => Ok(Edit::DeleteSection {
            name: text_of(old)?,
        }),
        [name, key] if call == "delete" => Ok(Edit::Delete {
            name: name_of(name)?,
            key: text_of(key)?,
        }),
        [old, new] if call == "rename_section" => Ok(Edit::RenameSection {
            old: text_of(old)?,
            new: text_of(new)?,
        }),
        [name, key, value] => of_key(call, name_of(name)?, text_of(key)?, text_of(value)?),
        _ => Err(unreadable("no such edit")),
    }
}

// The edit of a key that a call is.
fn of_key<'a>(
    call: &str,
    name: Option<&'a str>,
    key: &'a str,
    value: &'a str,
) -> Result<Edit<'a>, Error> {
    match call {
        "set" => Ok(Edit::Set { name, key, value }),
        "set_existing" => Ok(Edit::SetExisting { name, key, value }),
        "add" => Ok(Edit::Add { name, key, value }),
        "rename_key" => Ok(Edit::RenameKey {
            name,
            old: key,
            new: value,
        }),
        _ => Err(unreadable("no such edit of a key")),
    }
}

/// What the edit's own call answers.
pub fn by_call(
    alloc: Global,
    text: &str,
    edit: Edit<'_>,
    options: &Options,
) -> Result<Option<String>, EditError> {
    let (read, write) = (options.reading, options.writing());
    let policy = write.escape_policy;
    match edit {
        Edit::Set { name, key, value } => {
            Ok(Some(set(alloc, text, read, &write, name, key, value)?))
        }
        Edit::SetExisting { name, key, value } => {
            set_existing(alloc, text, read, policy, name, key, value)
        }
        Edit::Add { name, key, value } => {
            Ok(Some(add(alloc, text, read, &write, name, key, value)?))
        }
        Edit::Delete { name, key } => delete(alloc, text, read, name, key),
        Edit::RenameKey { name, old, new } => {
            rename_key(alloc, text, read, policy, name, old, new)
        }
        Edit::DeleteSection { name } => delete_section(alloc, text, read, name),
        Edit::RenameSection { old, new } => rename_section(alloc, text, read, policy, old, new),
    }
}

// What a list of the edit alone answers: none where it finds nothing, and the text stays.
fn by_list(
    alloc: Global,
    text: &str,
    edit: Edit<'_>,
    options: &Options,
) -> Result<Option<String>, EditError> {
    match make_edits(alloc, text, options.reading, &options.writing(), &[edit]) {
        Ok(new) => match new.found.as_slice() {
            [true] => Ok(Some(new.text)),
            [false] if new.text.as_str() == text => Ok(None),
            _ => Err(EditError::Text(unreadable("another list"))),
        },
        Err(refused) if refused.index == 0 => Err(refused.refusal),
        Err(_) => Err(EditError::Text(unreadable("another edit's refusal"))),
    }
}

/// Makes the edit in a document, by the document's own calls.
pub fn edit_document(document: &mut Ini, edit: Edit<'_>) -> Result<(), Error> {
    match edit {
        Edit::Set { name, key, value } | Edit::SetExisting { name, key, value } => {
            set_key(document, name, key, value)
        }
        Edit::Add { name, key, value } => add_key(document, name, key, value),
        Edit::Delete { name, key } => {
            let _ = document.delete_from(name, key);
            Ok(())
        }
        Edit::RenameKey { name, old, new } => document.rename_key_in(name, old, new),
        Edit::DeleteSection { name } => {
            let _ = document.delete(Some(name));
            Ok(())
        }
        Edit::RenameSection { old, new } => document.rename_section(Some(old), Some(new)),
    }
}

// What the edited document of the text shows.
fn edited(alloc: Global, text: &str, edit: Edit<'_>, read: ParseOption) -> Result<String, Error> {
    let mut document = Ini::load_from_str_opt(alloc, text, read)?;
    edit_document(&mut document, edit)?;
    sections(alloc, &document)
}

// What both the edited document and the text that was edited by hand show; or what each does.
fn by_hand(
    alloc: Global,
    text: &str,
    edit: Edit<'_>,
    new: &str,
    read: ParseOption,
) -> Result<String, Error> {
    let want = edited(alloc, text, edit, read)?;
    let is = load(alloc, new, read)?;
    if is == want {
        Ok(want)
    } else {
        Ok(format!(in alloc; "{is}, and not {want}")?)
    }
}

// The new text, which has to load as the edited document; or why there is none.
fn reported(
    alloc: Global,
    text: &str,
    edit: Edit<'_>,
    read: ParseOption,
    answer: Result<Option<String>, EditError>,
) -> Result<String, Error> {
    match answer {
        Ok(Some(new)) => {
            let want = edited(alloc, text, edit, read)?;
            let is = load(alloc, new.as_str(), read)?;
            if is == want {
                Ok(new)
            } else {
                Ok(format!(in alloc; "{new}, which shows {is}, and not {want}")?)
            }
        }
        Ok(None) => Ok(String::from_str(alloc, "none")?),
        Err(EditError::Text(refused)) => refusal(alloc, refused),
        Err(other) => Ok(format!(in alloc; "{other:?}")?),
    }
}

// What the edit's own call answers, if a list of the edit alone answers the same; or what each does.
fn new_text(alloc: Global, text: &str, edit: Edit<'_>, options: &Options) -> Result<String, Error> {
    let read = options.reading;
    let call = reported(alloc, text, edit, read, by_call(alloc, text, edit, options))?;
    let list = reported(alloc, text, edit, read, by_list(alloc, text, edit, options))?;
    if list == call {
        Ok(call)
    } else {
        Ok(format!(in alloc; "{call}, and in a list {list}")?)
    }
}

// How a text is refused.
fn refusal(alloc: Global, refused: Error) -> Result<String, Error> {
    match refused {
        Error::Parse(fault) => Ok(format!(in alloc;
            "{:?} at {}:{}",
            fault.kind, fault.line, fault.col
        )?),
        other => Err(other),
    }
}

// How many bytes stand before the first pair of the key, the value's own stretch and the value; or why there
// is no such pair.
fn found(
    alloc: Global,
    text: &str,
    read: ParseOption,
    name: Option<&str>,
    key: &str,
) -> Result<String, Error> {
    match find_pair(alloc, text, read, name, key) {
        Ok(Some(pair)) => Ok(format!(in alloc;
            "{} <{}> <{}>",
            pair.front.len(),
            pair.places.raw_value,
            pair.value.as_str()
        )?),
        Ok(None) => Ok(String::from_str(alloc, "none")?),
        Err(refused) => refusal(alloc, refused),
    }
}

/// The answer to a row: what a new text is or shows, or why there is none.
pub fn answer(alloc: Global, row: &[Token], options: &Options) -> Result<String, Error> {
    let [text, Token::Word(call), operands @ ..] = row else {
        return Err(unreadable("no call of an edit"));
    };
    let (text, call, read) = (text_of(text)?, call.as_str(), options.reading);
    match operands {
        [] if call == "load" => load(alloc, text, read),
        [name, key] if call == "find" => found(alloc, text, read, name_of(name)?, text_of(key)?),
        [operands @ .., Token::Word(like), new] if like.as_str() == "like" => {
            by_hand(alloc, text, edit_of(call, operands)?, text_of(new)?, read)
        }
        operands => new_text(alloc, text, edit_of(call, operands)?, options),
    }
}
