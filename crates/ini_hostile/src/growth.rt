//! Each request for memory of a growing call refused in turn: refused, the call tells that and leaves all as
//! it was; else it answers as it does with ample memory.
use crate::scarce::{Attempt, refusals, refused};
use crate::show::{expect_shown, is_shown, loaded};
use ini::{Error, Ini, Properties, SectionEntry};
use std::alloc::Global;
use std::process::Abort;

/// The calls.
#[derive(Clone, Copy)]
enum Call {
    Append,
    Insert,
    RemoveAll,
    CloneProperties,
    CloneDocument,
    SetTo,
    Set,
    Add,
    OrInsert,
    OrInsertWith,
    /// `insert` of a vacant entry, `append` of an occupied one.
    OfEntry,
}

/// What a call is given: a name, a key, the value `v`, and properties of one pair.
#[derive(Drop)]
struct Given {
    name: Option<String>,
    key: String,
    value: String,
    section: Properties,
}

impl Given {
    fn new(alloc: Global, name: &str, key: &str) -> Result<Given, Error> {
        let mut section = Properties::new(alloc);
        section.append("k", "v")?;
        Ok(Given {
            name: Some(String::from_str(alloc, name)?),
            key: String::from_str(alloc, key)?,
            value: String::from_str(alloc, "v")?,
            section,
        })
    }
}

impl Call {
    /// Makes a call of the document, or of the properties of the first section of the name. A copy takes the
    /// document's place.
    fn make(self, document: &mut Ini, given: Given) -> Result<(), Error> {
        let Given {
            name,
            key,
            value,
            section,
        } = given;
        let name = match self {
            Call::OrInsert | Call::OrInsertWith | Call::OfEntry => {
                return self.make_of_entry(document, name, section);
            }
            _ => name.as_deref(),
        };
        match self {
            Call::SetTo => document.set_to(name, key, value),
            Call::CloneDocument => {
                *document = document.clone()?;
                Ok(())
            }
            Call::Set => {
                document.with_section(name).set(&key, "v")?;
                Ok(())
            }
            Call::Add => {
                document.with_section(name).add(&key, "v")?;
                Ok(())
            }
            _ => match document.section_mut(name) {
                Some(section) => self.make_of_pairs(section, &key),
                None => Err(Error::NotUtf8),
            },
        }
    }

    fn make_of_pairs(self, section: &mut Properties, key: &str) -> Result<(), Error> {
        match self {
            Call::Append => section.append(key, "v"),
            Call::Insert => section.insert(key, "v"),
            Call::RemoveAll => match section.remove_all(key) {
                Ok(_) => Ok(()),
                Err(refused) => Err(refused),
            },
            _ => match section.clone() {
                Ok(copy) if copy == *section => Ok(()),
                Ok(_) => Err(Error::NotUtf8),
                Err(refused) => Err(refused),
            },
        }
    }

    // Refused, the entry hands the properties back.
    fn make_of_entry(
        self,
        document: &mut Ini,
        name: Option<String>,
        section: Properties,
    ) -> Result<(), Error> {
        let answer = match (self, document.entry(name)) {
            (Call::OrInsert, entry) => match entry.or_insert(section) {
                Ok(_) => Ok(()),
                Err(back) => Err(back),
            },
            (Call::OrInsertWith, entry) => match entry.or_insert_with(move || section) {
                Ok(_) => Ok(()),
                Err(back) => Err(back),
            },
            (_, SectionEntry::Vacant(entry)) => match entry.insert(section) {
                Ok(_) => Ok(()),
                Err(back) => Err(back),
            },
            (_, SectionEntry::Occupied(mut entry)) => entry.append(section),
        };
        match answer {
            Ok(()) => Ok(()),
            Err(back) => refused(back.value.get("k") == Some("v") && back.value.len() == 1),
        }
    }
}

/// A document that each call is made on, and what it shows.
const TEXT: &'static str = "[p]\nk=1\nk=2\na=3\nb=4\n[q]\n[r]\n";

const SHOWN: &'static str = "general: [p]: <k|1> <k|2> <a|3> <b|4> [q]: [r]: ";

const WITH_J: &'static str = "general: [p]: <k|1> <k|2> <a|3> <b|4> <j|v> [q]: [r]: ";

const REPLACED: &'static str = "general: [p]: <k|v> <a|3> <b|4> [q]: [r]: ";

const ADDED: &'static str = "general: [p]: <k|1> <k|2> <a|3> <b|4> <k|v> [q]: [r]: ";

const OPENED: &'static str = "general: [p]: <k|1> <k|2> <a|3> <b|4> [q]: [r]: [n]: <k|v> ";

/// The calls, with name and key, and what the document or its copy shows then.
const ROWS: [(Call, &'static str, &'static str, &'static str); 19] = [
    (Call::Append, "p", "k", ADDED),
    (Call::Append, "p", "j", WITH_J),
    (
        Call::Append,
        "q",
        "j",
        "general: [p]: <k|1> <k|2> <a|3> <b|4> [q]: <j|v> [r]: ",
    ),
    (Call::Insert, "p", "k", REPLACED),
    (Call::Insert, "p", "j", WITH_J),
    (
        Call::RemoveAll,
        "p",
        "k",
        "general: [p]: <a|3> <b|4> [q]: [r]: ",
    ),
    (Call::CloneProperties, "p", "k", SHOWN),
    (Call::CloneDocument, "p", "k", SHOWN),
    (Call::SetTo, "p", "j", WITH_J),
    (Call::SetTo, "n", "k", OPENED),
    (Call::Set, "p", "k", REPLACED),
    (Call::Set, "p", "j", WITH_J),
    (Call::Set, "n", "k", OPENED),
    (Call::Add, "p", "k", ADDED),
    (Call::Add, "n", "k", OPENED),
    (Call::OrInsert, "n", "k", OPENED),
    (Call::OrInsertWith, "n", "k", OPENED),
    (Call::OfEntry, "n", "k", OPENED),
    (
        Call::OfEntry,
        "p",
        "k",
        "general: [p]: <k|1> <k|2> <a|3> <b|4> [q]: [r]: [p]: <k|v> ",
    ),
];

/// A call that is made on a document.
#[derive(Drop)]
struct Growth<'a> {
    call: Call,
    name: &'a str,
    key: &'a str,
    document: Ini,
    given: Option<Given>,
}

impl Attempt for Growth<'_> {
    fn is_ready(&mut self, alloc: Global) -> bool {
        self.given = Given::new(alloc, self.name, self.key).ok();
        is_shown(alloc, &self.document, SHOWN)
    }

    fn make(&mut self, _alloc: Global) -> Result<(), Error> {
        match self.given.take() {
            Some(given) => self.call.make(&mut self.document, given),
            None => Err(Error::NotUtf8),
        }
    }
}

/// Asks that the call, with enough memory, does so, and answers how often it was refused before.
fn expect_growth(
    rt: &(impl Abort + AllocGlobal),
    (call, name, key, want): (Call, &str, &str, &str),
) -> usize {
    let mut growth = Growth {
        call,
        name,
        key,
        document: loaded(rt, TEXT),
        given: None,
    };
    let refused = refusals(rt, want, 1, &mut growth);
    expect_shown(rt, &growth.document, want);
    refused
}

#[test]
fn each_request_of_a_document_is_refused(rt: HostRuntime) {
    let mut refused: usize = 0;
    for row in ROWS {
        refused = refused.saturating_add(expect_growth(&rt, row));
    }
    assert!(rt; refused > ROWS.len());
}
