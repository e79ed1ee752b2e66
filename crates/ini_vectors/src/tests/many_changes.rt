//! Many changes made in a text at once: of keys with one pair and with several, in sections of a name of their
//! own and of a repeated one, in the text's order and against it.
use ini::{Error, Ini, ParseOption, WriteOption};
use ini_dialect::Lookup;
use ini_edit::{RefusedEdit, Source};
use ini_layers::{Change, apply, diff};
use std::alloc::Global;
use std::panic::Expect;

/// Changes to these values, or to none.
fn listed<'a>(
    alloc: Global,
    rows: &[(Option<&'a str>, &'a str, Option<&'a str>)],
) -> Result<Vec<Change<'a>>, Error> {
    let mut changes = Vec::new(alloc);
    for (name, key, new) in rows {
        changes.push(Change {
            name: *name,
            key: *key,
            old: None,
            new: *new,
        })?;
    }
    Ok(changes)
}

/// The text with the changes made by the default rule; or the refusal, as it is printed.
fn changed(alloc: Global, text: &str, changes: &[Change<'_>]) -> Result<String, Error> {
    let source = Source::read(alloc, text, ParseOption::default())?;
    let write = WriteOption::default();
    match apply(alloc, Lookup::default(), &write, changes, &source) {
        Ok(new) => new.to_text(alloc),
        Err(refused) => format!(in alloc; "{refused}").map_err(Error::from),
    }
}

const TEXT: &str =
    "; head\na = 1\nb = 2\nb = 3\n\n[s]\nk = 1\n; of l\nl = 2\nm=3\nn=4\n[t]\no = 5\no=6\np=7\n\
    [s]\nk = 8\nq = 9\n[u]\n";

/// Eighteen changes, forwards and backwards through the text.
const CHANGES: [(Option<&str>, &str, Option<&str>); 18] = [
    (None, "a", Some("10")),
    // the later pair goes
    (None, "b", Some("20")),
    (None, "c", Some("30")),
    // the first of two sections of the name
    (Some("s"), "k", Some("11")),
    (Some("s"), "q", Some("90")),
    (Some("t"), "o", Some("50")),
    (Some("t"), "p", Some("70")),
    // back to a pair before the last one, and to the one that was set
    (None, "a", Some("100")),
    (Some("t"), "p", Some("77")),
    (Some("u"), "r", Some("12")),
    (Some("v"), "w", Some("13")),
    // what was added is found
    (Some("v"), "w", Some("14")),
    (Some("u"), "r", None),
    (Some("s"), "l", None),
    (Some("t"), "o", None),
    (None, "b", None),
    // nothing is there
    (None, "b", None),
    (Some("x"), "y", None),
];

const CHANGED: &str = "; head\na = 100\nc = 30\n\n[s]\nk = 11\n; of l\nm=3\nn=4\nq=90\n[t]\np=77\n\
    [s]\nk = 8\nq = 9\n[u]\n\n[v]\nw = 14\n";

#[test]
fn many_changes_are_made_in_order(rt: HostRuntime) {
    let alloc = rt.alloc();
    let changes = listed(alloc, &CHANGES).expect(&rt, "memory");
    let got = changed(alloc, TEXT, changes.as_slice()).expect(&rt, "memory");
    assert!(rt; got.as_str() == CHANGED, "{got}");
}

/// The changes and one more, which is refused.
fn refused_last(alloc: Global) -> Result<String, Error> {
    let mut changes = listed(alloc, &CHANGES)?;
    changes.push(Change {
        name: None,
        key: "",
        old: None,
        new: Some("v"),
    })?;
    changed(alloc, TEXT, changes.as_slice())
}

#[test]
fn one_of_many_changes_is_refused(rt: HostRuntime) {
    let got = refused_last(rt.alloc()).expect(&rt, "memory");
    assert!(rt;
        got.as_str() == "edit 18: this key can't be written so that it is read back",
        "{got}"
    );
}

/// A section with so many keys, each with this value.
fn many_keys(alloc: Global, count: usize, value: &str) -> Result<String, Error> {
    let mut text = String::from_str(alloc, "[a]\n")?;
    for number in 0..count {
        text.push_str(format!(in alloc; "key{number}={value}\n")?.as_str())?;
    }
    Ok(text)
}

/// The first text with the changes that lead to what the second one answers.
fn led(alloc: Global, from: &str, to: &str) -> Result<String, Error> {
    let from_document = Ini::load_from_str(alloc, from)?;
    let to = Ini::load_from_str(alloc, to)?;
    let changes = diff(alloc, &from_document, &to)?;
    changed(alloc, from, changes.as_slice())
}

#[test]
fn every_key_of_a_large_section_is_changed(rt: HostRuntime) {
    let alloc = rt.alloc();
    let from = many_keys(alloc, 3000, "old").expect(&rt, "memory");
    let to = many_keys(alloc, 3000, "new").expect(&rt, "memory");
    let got = led(alloc, from.as_str(), to.as_str()).expect(&rt, "memory");
    assert!(rt; got == to, "{got}");
    let got = led(alloc, "[a]\n", to.as_str()).expect(&rt, "memory");
    assert!(rt; got == to, "{got}");
    let got = led(alloc, from.as_str(), "").expect(&rt, "memory");
    assert!(rt; got.as_str() == "[a]\n", "{got}");
}
