//! Rows of look-ups and edits under a rule over a text in pieces. Each text afterwards is read from the
//! definitions by hand.
use crate::tests::dialects::{answers, rule};
use ini_dialect::{AnyDocument, Lookup, PairNumber};
use ini_edit::{Edit, EditError, Source};
use ini_text::{Error, ParseOption, WriteOption};
use std::alloc::Global;
use std::panic::Expect;
use std::process::Abort;
use std::test::Fail;

/// Two sections of one name with a section of other case between, comments, a quoted value.
const TEXT: &'static str = "# top\n[a]\nk = 1\n# two\nk=\"2\"\n\n[A]\n  K=3\n[a]\nk=4\n";

fn read(rt: &(impl Abort + AllocGlobal)) -> Source<'static> {
    Source::read(rt.alloc(), TEXT, ParseOption::default()).expect(rt, "pieces")
}

/// A rule, a name, a key, its value, and where that pair stands: its section and its place there.
const FOUND: [(
    &'static str,
    &'static str,
    &'static str,
    &'static str,
    usize,
    usize,
); 5] = [
    ("ffk", "a", "k", "1", 1, 0),
    ("flk", "a", "k", "2", 1, 1),
    ("jlk", "a", "k", "4", 3, 0),
    ("jfi", "A", "K", "1", 1, 0),
    ("jlk", "A", "K", "3", 2, 0),
];

#[test]
fn a_text_in_pieces_is_looked_up_by_the_rule(rt: HostRuntime) {
    let source = read(&rt);
    for (letters, name, key, value, section, pair) in FOUND {
        let lookup = rule(&rt, letters);
        let row = (Some(name), key, Some(value));
        let found = answers(lookup, AnyDocument::Source(&source), row);
        let at = lookup.find_in_source(&source, Some(name), key);
        let is_there = at == Some(PairNumber { section, pair });
        assert!(rt; found && is_there, "{letters} {key}");
    }
    let none = rule(&rt, "ffk").find_in_source(&source, Some("A"), "k");
    assert!(rt; none.is_none());
}

/// Makes a call of the pieces, and answers whether it found something. What is to be set is `v`, another key
/// is `x`.
fn edited(
    alloc: Global,
    lookup: Lookup,
    source: &mut Source<'_>,
    (call, name, key): (&str, &str, &str),
) -> Result<bool, EditError> {
    let write = WriteOption::default();
    let policy = write.escape_policy;
    match call {
        "set" => {
            lookup.set_in_source(alloc, &write, source, Some(name), key, "v")?;
            Ok(true)
        }
        "set_existing" => Ok(lookup.set_existing_in_source(
            alloc,
            policy,
            source,
            Some(name),
            key,
            "v",
        )?),
        "delete_section" => Ok(lookup.delete_section_in_source(alloc, source, name)?),
        "rename_section" => lookup.rename_section_in_source(alloc, policy, source, name, key),
        "rename_key" => lookup.rename_key_in_source(alloc, policy, source, Some(name), key, "x"),
        "comment_out" => lookup.comment_out_in_source(alloc, source, Some(name), key),
        _ => Ok(lookup.delete_in_source(alloc, source, Some(name), key)?),
    }
}

/// A rule, a call, a name, a key or a new name, and the text of the pieces afterwards; none where the call
/// finds nothing, and the text stays.
const PIECES: [(
    &'static str,
    &'static str,
    &'static str,
    &'static str,
    Option<&'static str>,
); 28] = [
    (
        "ffk",
        "set",
        "a",
        "k",
        Some("# top\n[a]\nk = v\n# two\nk=\"2\"\n\n[A]\n  K=3\n[a]\nk=4\n"),
    ),
    (
        "flk",
        "set",
        "a",
        "k",
        Some("# top\n[a]\nk = 1\n# two\nk=\"v\"\n\n[A]\n  K=3\n[a]\nk=4\n"),
    ),
    (
        "jlk",
        "set",
        "a",
        "k",
        Some("# top\n[a]\nk = 1\n# two\nk=\"2\"\n\n[A]\n  K=3\n[a]\nk=v\n"),
    ),
    (
        "ffi",
        "set",
        "A",
        "K",
        Some("# top\n[a]\nk = v\n# two\nk=\"2\"\n\n[A]\n  K=3\n[a]\nk=4\n"),
    ),
    (
        "ffk",
        "set",
        "A",
        "K",
        Some("# top\n[a]\nk = 1\n# two\nk=\"2\"\n\n[A]\n  K=v\n[a]\nk=4\n"),
    ),
    (
        "ffk",
        "set",
        "a",
        "x",
        Some("# top\n[a]\nk = 1\n# two\nk=\"2\"\nx=v\n\n[A]\n  K=3\n[a]\nk=4\n"),
    ),
    (
        "jfk",
        "set",
        "a",
        "x",
        Some("# top\n[a]\nk = 1\n# two\nk=\"2\"\n\n[A]\n  K=3\n[a]\nk=4\nx=v\n"),
    ),
    (
        "jfk",
        "set",
        "b",
        "x",
        Some("# top\n[a]\nk = 1\n# two\nk=\"2\"\n\n[A]\n  K=3\n[a]\nk=4\n\n[b]\nx=v\n"),
    ),
    ("ffk", "set_existing", "A", "k", None),
    (
        "ffk",
        "delete",
        "a",
        "k",
        Some("# top\n[a]\n# two\n\n[A]\n  K=3\n[a]\nk=4\n"),
    ),
    (
        "jlk",
        "delete",
        "a",
        "k",
        Some("# top\n[a]\n# two\n\n[A]\n  K=3\n[a]\n"),
    ),
    (
        "jli",
        "delete",
        "a",
        "K",
        Some("# top\n[a]\n# two\n\n[A]\n[a]\n"),
    ),
    ("jlk", "delete", "a", "K", None),
    (
        "ffi",
        "delete_section",
        "A",
        "",
        Some("# top\n[A]\n  K=3\n[a]\nk=4\n"),
    ),
    (
        "jlk",
        "delete_section",
        "a",
        "",
        Some("# top\n[A]\n  K=3\n"),
    ),
    ("jli", "delete_section", "A", "", Some("# top\n")),
    ("jli", "delete_section", "b", "", None),
    (
        "fli",
        "rename_section",
        "A",
        "b",
        Some("# top\n[b]\nk = 1\n# two\nk=\"2\"\n\n[A]\n  K=3\n[a]\nk=4\n"),
    ),
    (
        "jfi",
        "rename_section",
        "a",
        "b",
        Some("# top\n[b]\nk = 1\n# two\nk=\"2\"\n\n[b]\n  K=3\n[b]\nk=4\n"),
    ),
    (
        "jli",
        "rename_section",
        "a",
        "A",
        Some("# top\n[A]\nk = 1\n# two\nk=\"2\"\n\n[A]\n  K=3\n[A]\nk=4\n"),
    ),
    ("jli", "rename_section", "b", "a", None),
    (
        "fli",
        "rename_key",
        "A",
        "K",
        Some("# top\n[a]\nx = 1\n# two\nx=\"2\"\n\n[A]\n  K=3\n[a]\nk=4\n"),
    ),
    (
        "jlk",
        "rename_key",
        "a",
        "k",
        Some("# top\n[a]\nx = 1\n# two\nx=\"2\"\n\n[A]\n  K=3\n[a]\nx=4\n"),
    ),
    (
        "jfi",
        "rename_key",
        "a",
        "K",
        Some("# top\n[a]\nx = 1\n# two\nx=\"2\"\n\n[A]\n  x=3\n[a]\nx=4\n"),
    ),
    ("jlk", "rename_key", "a", "K", None),
    (
        "flk",
        "comment_out",
        "a",
        "k",
        Some("# top\n[a]\nk = 1\n# two\n; k=\"2\"\n\n[A]\n  K=3\n[a]\nk=4\n"),
    ),
    (
        "jli",
        "comment_out",
        "A",
        "K",
        Some("# top\n[a]\nk = 1\n# two\nk=\"2\"\n\n[A]\n  K=3\n[a]\n; k=4\n"),
    ),
    ("jli", "comment_out", "a", "x", None),
];

/// Makes the edit of the pieces.
fn expect_edited(
    rt: &(impl Abort + AllocGlobal),
    (letters, call, name, key, want): (&str, &str, &str, &str, Option<&str>),
) -> Result<(), Fail> {
    let alloc = rt.alloc();
    let lookup = rule(rt, letters);
    let mut source = read(rt);
    let found = edited(alloc, lookup, &mut source, (call, name, key))?;
    let text = source.to_text(alloc)?;
    let is_wanted = found == want.is_some() && text.as_str() == want.unwrap_or(TEXT);
    assert!(rt; is_wanted, "{letters} {call}: {text}");
    if call == "set" {
        let row = (Some(name), key, Some("v"));
        assert!(rt;
            answers(lookup, AnyDocument::Source(&source), row),
            "{letters} {key}"
        );
    }
    Ok(())
}

#[test]
fn one_pair_is_set_and_all_that_are_looked_at_go(rt: HostRuntime) -> Result<(), Fail> {
    for row in PIECES {
        expect_edited(&rt, row)?;
    }
    Ok(())
}

#[test]
fn each_pair_that_is_looked_at_is_found(rt: HostRuntime) -> Result<(), Fail> {
    let source = read(&rt);
    for (letters, name, key, want) in [
        ("jfi", "A", "k", [(1, 0), (1, 1), (2, 0), (3, 0)].as_slice()),
        ("jlk", "a", "k", &[(1, 0), (1, 1), (3, 0)]),
        ("flk", "a", "k", &[(1, 0), (1, 1)]),
        ("jlk", "a", "x", &[]),
    ] {
        let lookup = rule(&rt, letters);
        let found = lookup.find_all_in_source(rt.alloc(), &source, Some(name), key)?;
        let mut numbers = Vec::new(rt.alloc());
        for (section, pair) in want {
            numbers.push(PairNumber {
                section: *section,
                pair: *pair,
            })?;
        }
        assert!(rt; found == numbers, "{letters} {name} {key}");
    }
    Ok(())
}

#[test]
fn what_cannot_be_written_changes_nothing(rt: HostRuntime) -> Result<(), Fail> {
    let alloc = rt.alloc();
    let lookup = rule(&rt, "jfk");
    let mut source = read(&rt);
    let policy = WriteOption::default().escape_policy;
    for key in ["k", "lacking"] {
        let renamed = lookup.rename_key_in_source(alloc, policy, &mut source, Some("a"), key, " x");
        assert!(rt; matches!(renamed, Err(EditError::Key)), "{key}");
    }
    assert_eq!(rt; source.to_text(alloc)?.as_str(), TEXT);
    let text = "[a]\nk=1\n[A] K=3\n";
    let mut behind = Source::read(alloc, text, ParseOption::default())?;
    let commented = lookup.comment_out_in_source(alloc, &mut behind, Some("A"), "K");
    assert!(rt; matches!(commented, Err(EditError::NoPlace)));
    assert_eq!(rt; behind.to_text(alloc)?.as_str(), text);
    Ok(())
}

/// The edit that a call is.
fn edit_of<'a>(call: &str, key: &'a str) -> Edit<'a> {
    let (name, value) = (Some("a"), "v");
    match call {
        "set" => Edit::Set { name, key, value },
        "set_existing" => Edit::SetExisting { name, key, value },
        "add" => Edit::Add { name, key, value },
        "delete" => Edit::Delete { name, key },
        "delete_section" => Edit::DeleteSection { name: key },
        "rename_key" => Edit::RenameKey {
            name,
            old: key,
            new: "x",
        },
        _ => Edit::RenameSection { old: "a", new: key },
    }
}

/// A rule, an edit of section `a`, a key or a new name, and the text afterwards, if there is another one.
const TEXTS: [(
    &'static str,
    &'static str,
    &'static str,
    Option<&'static str>,
); 11] = [
    (
        "jlk",
        "set",
        "k",
        Some("# top\n[a]\nk = 1\n# two\nk=\"2\"\n\n[A]\n  K=3\n[a]\nk=v\n"),
    ),
    (
        "jlk",
        "set_existing",
        "k",
        Some("# top\n[a]\nk = 1\n# two\nk=\"2\"\n\n[A]\n  K=3\n[a]\nk=v\n"),
    ),
    ("jlk", "set_existing", "x", None),
    (
        "jfk",
        "add",
        "x",
        Some("# top\n[a]\nk = 1\n# two\nk=\"2\"\n\n[A]\n  K=3\n[a]\nk=4\nx=v\n"),
    ),
    ("jlk", "delete", "x", None),
    (
        "jlk",
        "delete",
        "k",
        Some("# top\n[a]\n# two\n\n[A]\n  K=3\n[a]\n"),
    ),
    (
        "jlk",
        "rename_section",
        "b",
        Some("# top\n[b]\nk = 1\n# two\nk=\"2\"\n\n[A]\n  K=3\n[b]\nk=4\n"),
    ),
    ("jlk", "delete_section", "a", Some("# top\n[A]\n  K=3\n")),
    ("jlk", "delete_section", "b", None),
    (
        "jfk",
        "rename_key",
        "k",
        Some("# top\n[a]\nx = 1\n# two\nx=\"2\"\n\n[A]\n  K=3\n[a]\nx=4\n"),
    ),
    ("jfk", "rename_key", "x", None),
];

#[test]
fn an_edit_of_a_whole_text_goes_by_the_rule(rt: HostRuntime) -> Result<(), Fail> {
    let (read, write) = (ParseOption::default(), WriteOption::default());
    for (letters, call, key, want) in TEXTS {
        let edit = edit_of(call, key);
        let made = rule(&rt, letters).make_edit(rt.alloc(), TEXT, read, &write, edit)?;
        assert!(rt; made.as_deref() == want, "{letters} {call}");
    }
    Ok(())
}

#[test]
fn another_key_that_cannot_be_written_is_refused(rt: HostRuntime) {
    let (read, write) = (ParseOption::default(), WriteOption::default());
    let (name, new) = (Some("a"), " x");
    for old in ["k", "lacking"] {
        let edit = Edit::RenameKey { name, old, new };
        let made = rule(&rt, "jlk").make_edit(rt.alloc(), TEXT, read, &write, edit);
        assert!(rt; matches!(made, Err(EditError::Key)), "{old}");
    }
}

#[test]
fn a_text_that_reading_refuses_is_not_edited(rt: HostRuntime) {
    let (name, key, value) = (None, "k", "v");
    let (read, write) = (ParseOption::default(), WriteOption::default());
    for edit in [
        Edit::Set { name, key, value },
        Edit::SetExisting { name, key, value },
        Edit::Add { name, key, value },
        Edit::Delete { name, key },
        Edit::RenameKey {
            name,
            old: key,
            new: value,
        },
        Edit::DeleteSection { name: key },
        Edit::RenameSection {
            old: key,
            new: value,
        },
    ] {
        let made = rule(&rt, "jlk").make_edit(rt.alloc(), "k = 1\n[a\n", read, &write, edit);
        let is_refused = matches!(made, Err(EditError::Text(Error::Parse(_))));
        assert!(rt; is_refused, "{edit:?}");
    }
}
