//! Edits as values, and what each makes of a text. This file knows the calls, and no element.
ghost use Rattle.std.specs.Prelude.{chars, IfErr, IfOk, MatchOption, OnOk};
ghost use Rattle.ini_text.specs.Parsing.Items.{string_text};
ghost use Rattle.ini_edit.specs.Editings.{editing_of};
ghost use Rattle.ini_edit.specs.Made.{HasNothing, HasUnwritableWord};
ghost use Rattle.ini_edit.specs.WholeTexts.{IsMadeText, RefusesOfText};

use crate::error::EditError;
use crate::whole_text::{
    add, delete, delete_section, rename_key, rename_section, set, set_existing,
};
use ini_text::{ParseOption, WriteOption};
use std::alloc::Global;

/// An edit of a text, as the call of its name makes it. No name is the general section's.
#[derive(Clone, Copy, Debug)]
pub enum Edit<'a> {
    /// The value of the key is set, in a new pair where the key isn't there: `set`.
    Set {
        name: Option<&'a str>,
        key: &'a str,
        value: &'a str,
    },
    /// The value of the key is set where the key is there: `set_existing`.
    SetExisting {
        name: Option<&'a str>,
        key: &'a str,
        value: &'a str,
    },
    /// A pair is added, whatever pairs of the key are there: `add`.
    Add {
        name: Option<&'a str>,
        key: &'a str,
        value: &'a str,
    },
    /// The first pair of the key in the first section of the name is taken out: `delete`.
    Delete {
        name: Option<&'a str>,
        key: &'a str,
    },
    /// The first pair of the key `old` gets the key `new`: `rename_key`.
    RenameKey {
        name: Option<&'a str>,
        old: &'a str,
        new: &'a str,
    },
    /// The first section of the name is taken out: `delete_section`.
    DeleteSection {
        name: &'a str,
    },
    /// The first section of the name `old` gets the name `new`: `rename_section`.
    RenameSection {
        old: &'a str,
        new: &'a str,
    },
}

/// The text with the edit made in it, as the call of its name answers it; `None` where what it is about
/// isn't there, which `Set` and `Add` never answer. The write options' policy is that of the calls which
/// take one.
///
/// # Errors
///
/// Those of the edit's call.
pub fn make_edit(
    alloc: Global,
    text: &str,
    read: ParseOption,
    write: &WriteOption,
    edit: Edit<'_>,
) -> Result<Option<String>, EditError>
    ensures made { IfOk result (λ made. MatchOption made
        (HasNothing read (editing_of edit.entry) (chars text.now))
        (λ new. IsMadeText read write.now (editing_of edit.entry) (chars text.now) (string_text new))) }
    ensures writable { OnOk result
        (¬ HasUnwritableWord read write.now.escape_policy (editing_of edit.entry)) }
    ensures refused { IfErr result
        (RefusesOfText read write.now (editing_of edit.entry) (chars text.now)) }
{
    let policy = write.escape_policy;
    match edit {
        Edit::Set { name, key, value } => {
            Ok(Some(set(alloc, text, read, write, name, key, value)?))
        }
        Edit::SetExisting { name, key, value } => {
            set_existing(alloc, text, read, policy, name, key, value)
        }
        Edit::Add { name, key, value } => {
            Ok(Some(add(alloc, text, read, write, name, key, value)?))
        }
        Edit::Delete { name, key } => delete(alloc, text, read, name, key),
        Edit::RenameKey { name, old, new } => {
            rename_key(alloc, text, read, policy, name, old, new)
        }
        Edit::DeleteSection { name } => delete_section(alloc, text, read, name),
        Edit::RenameSection { old, new } => rename_section(alloc, text, read, policy, old, new),
    }
}
