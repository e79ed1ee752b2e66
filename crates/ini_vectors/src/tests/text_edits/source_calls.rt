//! Edits of texts in pieces, by their names: what each makes of a text, and whether the text read anew shows
//! what the pieces do.
use super::random::Random;
use super::show::{options_of, put, reported};
use super::source_pairs::{
    AFTER_KEYS_ALONE, BESIDE_OTHERS, DELETED_PAIRS, KEYS_ALONE, NEW_PAIRS, NOTED_KEYS,
    NOTED_VALUES, REPEATED_KEYS, VALUES,
};
use super::source_sections::{
    COMMENTS, DELETED_SECTIONS, FIRST_PAIRS, NEW_SECTIONS, NOTED_HEADERS, RENAMED,
};
use ini::{Error, WriteOption};
use ini_edit::{EditError, LaterPairs, Source};
use std::alloc::Global;
use std::test::Fail;

/// A call, the letters of the options, its words, the text, and what the call makes of it or answers. The
/// words have bars between them: the section, `-` for the general one; the key; another key, or a new name;
/// the value, or values with a slash between them; and a number.
pub(crate) type Row = (
    &'static str,
    &'static str,
    &'static str,
    &'static str,
    &'static str,
);

/// The words of a row.
#[derive(Clone, Copy)]
pub(crate) struct Words<'a> {
    pub(crate) name: Option<&'a str>,
    pub(crate) key: &'a str,
    pub(crate) other: &'a str,
    pub(crate) value: &'a str,
    pub(crate) number: usize,
}

fn words_of(words: &str) -> Words<'_> {
    let mut parts = words.split('|');
    let name = parts.next().unwrap_or("-");
    Words {
        name: if name == "-" { None } else { Some(name) },
        key: parts.next().unwrap_or(""),
        other: parts.next().unwrap_or(""),
        value: parts.next().unwrap_or(""),
        number: parts.next().unwrap_or("").parse().unwrap_or(0),
    }
}

fn done(made: Result<(), EditError>) -> Result<bool, EditError> {
    made?;
    Ok(true)
}

/// Makes a call that sets values, and answers whether it found something.
fn set_by(
    alloc: Global,
    source: &mut Source<'_>,
    call: &str,
    words: Words<'_>,
) -> Result<bool, EditError> {
    let write = &WriteOption::default();
    let policy = write.escape_policy;
    let (name, key, value) = (words.name, words.key, words.value);
    match call {
        "set" => done(source.set(alloc, write, LaterPairs::TakenOut, name, key, value)),
        "set_first" => done(source.set(alloc, write, LaterPairs::Left, name, key, value)),
        "set_existing" => {
            source.set_existing(alloc, policy, LaterPairs::TakenOut, name, key, value)
        }
        "set_nth" => source.set_nth(alloc, policy, name, key, words.number, value),
        _ => all_set(alloc, source, write, words),
    }
}

fn all_set(
    alloc: Global,
    source: &mut Source<'_>,
    write: &WriteOption,
    words: Words<'_>,
) -> Result<bool, EditError> {
    let mut values = Vec::new(alloc);
    for value in words.value.split('/') {
        values.push(value).map_err(std::alloc::AllocError::from)?;
    }
    done(source.set_all(alloc, write, words.name, words.key, values.as_slice()))
}

/// Makes a call that is about a pair, and answers whether it found something.
fn edited(
    alloc: Global,
    source: &mut Source<'_>,
    call: &str,
    words: Words<'_>,
) -> Result<bool, EditError> {
    let write = &WriteOption::default();
    let policy = write.escape_policy;
    let Words {
        name,
        key,
        other,
        value,
        ..
    } = words;
    match call {
        "set" | "set_first" | "set_existing" | "set_nth" | "set_all" => {
            set_by(alloc, source, call, words)
        }
        "add" => done(source.add(alloc, write, name, key, value)),
        "insert_after" => source.insert_after(alloc, write, name, key, other, value),
        "insert_before" => source.insert_before(alloc, write, name, key, other, value),
        "rename_key" => source.rename_key(alloc, policy, name, key, other),
        "comment_out" => source.comment_out(alloc, name, key),
        "set_comment" => source.set_comment(alloc, write, name, key, value),
        _ => taken_out(alloc, source, call, words),
    }
}

/// Makes a call that takes pairs out, or is about a section.
fn taken_out(
    alloc: Global,
    source: &mut Source<'_>,
    call: &str,
    words: Words<'_>,
) -> Result<bool, EditError> {
    let write = &WriteOption::default();
    let Words {
        name,
        key,
        other,
        number,
        ..
    } = words;
    let section = name.unwrap_or("");
    match call {
        "delete" => Ok(source.delete(alloc, name, key)?),
        "delete_nth" => Ok(source.delete_nth(alloc, name, key, number)?),
        "delete_all" => Ok(source.delete_all(alloc, name, key)?),
        "add_section" => source.add_section(alloc, write, section),
        "delete_section" => Ok(source.delete_section(alloc, section)?),
        _ => source.rename_section(alloc, write.escape_policy, section, other),
    }
}

/// The sections in order, as a document's are shown.
pub(crate) fn shown(alloc: Global, source: &Source<'_>) -> Result<String, Error> {
    let mut out = String::new(alloc);
    for section in source.sections() {
        match section.name() {
            None => out.push_str("general")?,
            Some(name) => put(&mut out, &[" [", name, "]"])?,
        }
        for pair in section.pairs() {
            put(&mut out, &[" <", pair.key(), "|", pair.value(), ">"])?;
        }
    }
    Ok(out)
}

/// The text of the pieces, where read anew it shows what they do.
fn text_of(alloc: Global, source: &Source<'_>) -> Result<String, Error> {
    let text = source.to_text(alloc)?;
    let alike = {
        let anew = Source::read(alloc, text.as_str(), source.option())?;
        shown(alloc, &anew)? == shown(alloc, source)?
    };
    if alike {
        return Ok(text);
    }
    Ok(String::from_str(alloc, "another document")?)
}

/// The comment of a pair, if it is there.
fn comment_of(
    alloc: Global,
    source: &Source<'_>,
    words: Words<'_>,
) -> Result<Option<String>, EditError> {
    match source.comment_of(words.name, words.key) {
        Some(comment) => Ok(Some(String::from_str(alloc, comment)?)),
        None => Ok(None),
    }
}

/// What a call makes of the pieces, or answers; a refused one must have changed nothing.
pub(crate) fn made(
    alloc: Global,
    source: &mut Source<'_>,
    call: &str,
    words: Words<'_>,
) -> Result<String, Error> {
    if call == "comment_of" {
        return reported(alloc, comment_of(alloc, source, words));
    }
    let before = source.to_text(alloc)?;
    match edited(alloc, source, call, words) {
        Ok(true) => text_of(alloc, source),
        Ok(false) => Ok(String::from_str(alloc, "none")?),
        Err(refusal) => {
            if source.to_text(alloc)? != before {
                return Ok(String::from_str(alloc, "refused, and changed")?);
            }
            reported(alloc, Err(refusal))
        }
    }
}

/// The rows by what they are about.
const ROWS: [&[Row]; 15] = [
    VALUES,
    NEW_PAIRS,
    DELETED_PAIRS,
    REPEATED_KEYS,
    BESIDE_OTHERS,
    KEYS_ALONE,
    AFTER_KEYS_ALONE,
    NOTED_VALUES,
    NOTED_KEYS,
    FIRST_PAIRS,
    RENAMED,
    DELETED_SECTIONS,
    NEW_SECTIONS,
    COMMENTS,
    NOTED_HEADERS,
];

/// Each call changes what it says, and no other byte.
#[test]
fn each_call_makes_its_text(rt: HostRuntime) -> Result<(), Fail> {
    let alloc = rt.alloc();
    for rows in ROWS {
        for row in rows {
            let (call, letters, words, text, want) = *row;
            let mut source = Source::read(alloc, text, options_of(letters))?;
            let is = made(alloc, &mut source, call, words_of(words))?;
            assert!(rt; is.as_str() == want, "{call} {words}, {text}: {is}");
        }
    }
    Ok(())
}

/// The calls that a random edit is chosen from.
fn calls() -> &'static [&'static str] {
    &[
        "set",
        "set_first",
        "set_nth",
        "add",
        "delete",
        "delete_all",
        "rename_key",
        "insert_after",
        "insert_before",
        "set_comment",
        "comment_out",
        "add_section",
        "delete_section",
        "rename_section",
    ]
}

/// Many edits one after another: the text read anew shows what the pieces do after each.
#[test]
fn edits_in_a_row_of_random_texts(rt: HostRuntime) -> Result<(), Fail> {
    let alloc = rt.alloc();
    let mut random = Random::new(88172645463325252);
    for _ in 0..300 {
        let letters = random.letters(alloc)?;
        let text = random.text(alloc)?;
        let read = options_of(letters.as_str());
        if let Ok(source) = Source::read(alloc, text.as_str(), read) {
            let mut source = source;
            for _ in 0..20 {
                let call = random.piece(calls());
                let words = Words {
                    name: if random.is_even() { Some("a") } else { None },
                    key: random.piece(&["k", "j"]),
                    other: random.piece(&["k", "j", "a"]),
                    value: random.piece(&["v", "# c\n", " w ", "x\ny"]),
                    number: 1,
                };
                let is = made(alloc, &mut source, call, words)?;
                let alike = !is.starts_with("another") && is.as_str() != "refused, and changed";
                assert!(&rt; alike, "{text:?} {letters} {call}");
            }
        }
    }
    Ok(())
}
