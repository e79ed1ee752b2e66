//! Edits of random texts by random options: the new text loads as the document that is edited by its own calls,
//! or there is none for a reason that the document and the options give.
use crate::edit::{by_call, edit_document};
use crate::option::Options;
use crate::random::Random;
use crate::show::{load, sections};
use crate::token::{Token, unreadable};
use crate::view::is_same_fault;
use ini::{Error, Ini, ParseOption};
use ini_edit::{Edit, EditError};
use std::alloc::Global;

/// How many texts are edited.
const TEXTS: u64 = 12_000;

/// How many edits have to be made of them at least.
const LEAST: u64 = 500;

// An edit of a kind, which is named as its call.
fn random_edit(random: &mut Random, kind: &str) -> Result<Edit<'static>, Error> {
    let name = match random.piece(&["", "a", "a", "b"]) {
        "" => None,
        name => Some(name),
    };
    let value = random.piece(&["new", "", "x y", "#", "a\\", "it's", "a\"b"]);
    match kind {
        "set" => Ok(Edit::Set {
            name,
            key: "k",
            value,
        }),
        "set_existing" => Ok(Edit::SetExisting {
            name,
            key: "k",
            value,
        }),
        "add" => Ok(Edit::Add {
            name,
            key: "k",
            value,
        }),
        "delete" => Ok(Edit::Delete { name, key: "k" }),
        "rename_key" => Ok(Edit::RenameKey {
            name,
            old: random.piece(&["k", "k", "j", " k"]),
            new: random.piece(&["new", "x y", "j", "k", "\"", "a\tb"]),
        }),
        "delete_section" => Ok(Edit::DeleteSection { name: "a" }),
        _ => Err(unreadable("no such edit")),
    }
}

// What the edited document shows, and whether it had what the edit is about.
#[derive(Drop)]
struct Wanted {
    shown: String,
    found: bool,
}

// Whether the document has what the edit is about; one that may put a pair finds a place for it.
fn finds(document: &Ini, edit: Edit<'_>) -> bool {
    match edit {
        Edit::Set { .. } | Edit::Add { .. } => true,
        Edit::SetExisting { name, key, .. } | Edit::Delete { name, key } => {
            document.get_from(name, key).is_some()
        }
        Edit::RenameKey { name, old, .. } => document.get_from(name, old).is_some(),
        Edit::DeleteSection { name } => document.section(Some(name)).is_some(),
        Edit::RenameSection { old, .. } => document.section(Some(old)).is_some(),
    }
}

fn edited_document(
    alloc: Global,
    text: &str,
    edit: Edit<'_>,
    read: ParseOption,
) -> Result<Wanted, Error> {
    let mut document = Ini::load_from_str_opt(alloc, text, read)?;
    let found = finds(&document, edit);
    edit_document(&mut document, edit)?;
    let shown = sections(alloc, &document)?;
    Ok(Wanted { shown, found })
}

// Whether the options give this reason: a value, or the only new key that takes an escape, can't be written;
// or values go on over lines, so that a new line may have no place.
fn is_reason(refused: &EditError, edit: Edit<'_>, read: ParseOption) -> bool {
    match (refused, edit) {
        (EditError::Key, Edit::RenameKey { new, .. }) => new == "a\tb" && !read.enabled_escape,
        (_, Edit::RenameKey { .. } | Edit::DeleteSection { .. }) => false,
        (EditError::Value, _) => !read.enabled_escape,
        (EditError::NoPlace, _) => read.enabled_indented_mutiline_value,
        _ => false,
    }
}

// Whether the new text loads as the edited document.
fn is_wanted(alloc: Global, new: &str, want: &Wanted, read: ParseOption) -> Result<bool, Error> {
    if !want.found {
        return Ok(false);
    }
    let shown = load(alloc, new, read)?;
    Ok(shown == want.shown)
}

// Whether the answer is the text of the edited document, or tells rightly why there is none.
fn agrees(
    alloc: Global,
    edit: Edit<'_>,
    read: ParseOption,
    answer: &Result<Option<String>, EditError>,
    want: &Result<Wanted, Error>,
) -> Result<bool, Error> {
    match (answer, want) {
        (Ok(Some(new)), Ok(want)) => is_wanted(alloc, new.as_str(), want, read),
        (Ok(None), Ok(want)) => Ok(!want.found),
        (Err(EditError::Text(Error::Parse(one))), Err(Error::Parse(other))) => {
            Ok(is_same_fault(one, other))
        }
        (Err(EditError::NoPlace), Err(_)) => Ok(false),
        (Err(refused), _) => Ok(is_reason(refused, edit, read)),
        _ => Ok(false),
    }
}

// Edits a text: whether a new text was answered, or none where the answer doesn't agree.
fn made(
    alloc: Global,
    text: &str,
    edit: Edit<'_>,
    options: &Options,
) -> Result<Option<bool>, Error> {
    let answer = by_call(alloc, text, edit, options);
    let want = edited_document(alloc, text, edit, options.reading);
    if agrees(alloc, edit, options.reading, &answer, &want)? {
        Ok(Some(matches!(&answer, Ok(Some(_)))))
    } else {
        Ok(None)
    }
}

// The first edit of a kind whose answer doesn't agree, or how many were made where that is too few; else
// nothing.
fn differing(alloc: Global, kind: &str) -> Result<String, Error> {
    let mut random = Random::new(88172645463325252);
    let mut count: u64 = 0;
    for _ in 0..TEXTS {
        let options = random.options(alloc)?;
        let text = random.text(alloc)?;
        let edit = random_edit(&mut random, kind)?;
        let Some(is_made) = made(alloc, &text, edit, &options)? else {
            return Ok(format!(in alloc; "{edit:?} of {text:?}")?);
        };
        count = count.saturating_add(u64::from(is_made));
    }
    if count < LEAST {
        return Ok(format!(in alloc; "{count} edits")?);
    }
    Ok(String::new(alloc))
}

/// The answer to a row, which names a kind of edit.
pub fn answer(alloc: Global, row: &[Token]) -> Result<String, Error> {
    match row {
        [Token::Word(kind)] => differing(alloc, kind.as_str()),
        _ => Err(unreadable("one kind of edit is wanted")),
    }
}
