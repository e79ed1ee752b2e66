//! One edit of a text, to be timed: its answer is a length, so that nothing is written which takes time.
use ini::Ini;
use ini_edit::{Edit, EditError, LaterPairs, RefusedEdit, Source, add, delete, set, set_existing};
use ini_text::{Error, EscapePolicy, ParseOption, WriteOption};
use std::alloc::Global;
use std::io::ErrorKind;

// The length of an edited text, and zero where there is nothing to edit.
fn length(edited: Result<Option<String>, EditError>) -> Result<usize, Error> {
    match edited {
        Ok(new) => Ok(new.map_or(0, |new| new.len())),
        Err(EditError::Text(refusal)) => Err(refusal),
        Err(_) => Err(Error::Io(ErrorKind::InvalidInput.into())),
    }
}

fn length_of(edited: Result<String, EditError>) -> Result<usize, Error> {
    match edited {
        Ok(new) => length(Ok(Some(new))),
        Err(refusal) => length(Err(refusal)),
    }
}

// So many edits of one text in pieces: a key set, to another value than before each time.
fn edit_times(alloc: Global, source: &mut Source, times: usize) -> Result<usize, EditError> {
    let write = WriteOption::default();
    for time in 0..times {
        let value = if time % 2 == 0 { "even" } else { "odd" };
        source.set(
            alloc,
            &write,
            LaterPairs::TakenOut,
            Some("last"),
            "key",
            value,
        )?;
    }
    Ok(
        source
            .get(Some("last"), "key")
            .map_or(0, |value| value.len()),
    )
}

// The names of a thousand sections, one in six of `tools/speed/edits.py`.
fn spread_names(alloc: Global) -> Result<Vec<String>, Error> {
    let mut names = Vec::new(alloc);
    for number in (0..6_000usize).step_by(6) {
        names.push(format!(in alloc; "section{number}")?)?;
    }
    Ok(names)
}

// A key set in each of these sections: in turn one that is there, and a new one.
fn spread_edits(alloc: Global, names: &[String]) -> Result<Vec<Edit<'_>>, Error> {
    let mut edits = Vec::new(alloc);
    for (number, name) in names.iter().enumerate() {
        edits.push(Edit::Set {
            name: Some(name.as_str()),
            key: if number % 2 == 0 { "port" } else { "new key" },
            value: "new value",
        })?;
    }
    Ok(edits)
}

// The length of the text after a list of a thousand edits.
fn length_after_list(alloc: Global, source: &mut Source) -> Result<usize, Error> {
    let names = spread_names(alloc)?;
    let edits = spread_edits(alloc, names.as_slice())?;
    let write = WriteOption::default();
    match source.make_edits(alloc, &write, LaterPairs::TakenOut, edits.as_slice()) {
        Ok(_) => Ok(source.to_text(alloc)?.len()),
        Err(refused) => {
            let RefusedEdit { refusal, .. } = refused;
            length(Err(refusal))
        }
    }
}

// What a call over a text in pieces answers: `source` the number of its sections, `source_get` a value's
// length, `source_text` that of the text, `source_edit` and `source_edits` that of the value after one edit and
// after a thousand, `source_list` that of the text after a list of a thousand.
fn timed_source(alloc: Global, call: &str, text: &str) -> Result<usize, Error> {
    let mut source = Source::read(alloc, text, ParseOption::default())?;
    let edits = match call {
        "source" => return Ok(source.sections().len()),
        "source_get" => {
            return Ok(
                source
                    .get(Some("last"), "key")
                    .map_or(0, |value| value.len()),
            );
        }
        "source_text" => return Ok(source.to_text(alloc)?.len()),
        "source_list" => return length_after_list(alloc, &mut source),
        "source_edit" => 1,
        "source_edits" => 1_000,
        _ => return Err(Error::Io(ErrorKind::InvalidInput.into())),
    };
    match edit_times(alloc, &mut source, edits) {
        Ok(length) => Ok(length),
        Err(EditError::Text(refusal)) => Err(refusal),
        Err(_) => Err(Error::Io(ErrorKind::InvalidInput.into())),
    }
}

/// What a call answers: `read` the text's length, `load` the number of its sections, and `set_existing`,
/// `delete`, `set` and `add` the new text's length, each of the key `key` in the section `last`. `set_pair`
/// sets another key there, and `set_section` and `add_section` are about the section `new`. Those that begin
/// with `source` are about a text in pieces.
pub(crate) fn timed(alloc: Global, call: &str, text: &str) -> Result<usize, Error> {
    let read = ParseOption::default();
    let write = WriteOption::default();
    let policy = EscapePolicy::Basics;
    let (name, key, value) = (Some("last"), "key", "new value");
    let (new_name, new_key) = (Some("new"), "new key");
    match call {
        "read" => Ok(text.len()),
        "load" => Ok(Ini::load_from_str(alloc, text)?.len()),
        "set_existing" => length(set_existing(alloc, text, read, policy, name, key, value)),
        "delete" => length(delete(alloc, text, read, name, key)),
        "set" => length_of(set(alloc, text, read, &write, name, key, value)),
        "set_pair" => length_of(set(alloc, text, read, &write, name, new_key, value)),
        "set_section" => length_of(set(alloc, text, read, &write, new_name, key, value)),
        "add" => length_of(add(alloc, text, read, &write, name, key, value)),
        "add_section" => length_of(add(alloc, text, read, &write, new_name, key, value)),
        _ => timed_source(alloc, call, text),
    }
}
