//! Rows of keys with several values under a rule: their lists as texts, set, compared and merged. Each text
//! is read from the definitions by hand.
use crate::tests::dialects::rule;
use crate::tests::text_edits::show::shown;
use ini::{Error, Ini, WriteOption};
use ini_dialect::{AnyDocument, Lookup, list_text, list_values};
use ini_edit::{EditError, Source};
use ini_layers::{Change, FlatSides, SettingValue, Side, apply_by, apply_in_place_by, diff};
use ini_text::ParseOption;
use std::alloc::Global;
use std::panic::Expect;
use std::test::Fail;

/// Values, and the text of their list.
const TEXTS: [(&'static [&'static str], &'static str); 8] = [
    (&["a"], "a"),
    (&[""], ""),
    (&["", ""], "\n"),
    (&["a", "b c", "ü"], "a\nb c\nü"),
    (&["a\nb", "c"], "a\\nb\nc"),
    (&["C:\\new", "\\"], "C:\\\\new\n\\\\"),
    (&["\n", "\\n"], "\\n\n\\\\n"),
    (&["n", "\r"], "n\n\r"),
];

#[test]
fn a_list_is_read_back(rt: HostRuntime) -> Result<(), Fail> {
    let alloc = rt.alloc();
    for (values, want) in TEXTS {
        let list = list_text(alloc, values)?.expect(&rt, "a list");
        assert!(rt; list.as_str() == want, "{list}");
        let back = list_values(alloc, &list)?;
        assert!(rt; back.len() == values.len(), "{list}");
        for (one, other) in back.iter().zip(values) {
            assert!(rt; one.as_str() == *other, "{list}: {one}");
        }
    }
    assert!(rt; list_text(alloc, &[])?.is_none());
    // what no list is written as
    let values = list_values(alloc, "\\a\\\nb\\")?;
    let [read] = values.as_slice() else {
        panic!(rt; "not one value");
    };
    let again = list_text(alloc, &[read.as_str()])?.expect(&rt, "a list");
    assert!(rt; again.as_str() == "a\\nb\\\\", "{again}");
    Ok(())
}

const TEXT: &'static str = "k=0\n[a]\nk=1\nx=5\nk=2\n[A]\nK=3\n[a]\nk=4\nx='a\\nb'\n";

/// A rule, and what the text shows under it.
const LISTED: [(&'static str, &'static str); 5] = [
    ("ffk", "general <k|0> [a] <k|1\n2> <x|5> [A] <K|3>"),
    (
        "jlk",
        "general <k|0> [a] <k|1\n2\n4> <x|5\na\\nb> [A] <K|3>",
    ),
    (
        "jfk",
        "general <k|0> [a] <k|1\n2\n4> <x|5\na\\nb> [A] <K|3>",
    ),
    ("flk", "general <k|0> [a] <k|1\n2> <x|5> [A] <K|3>"),
    ("jli", "general <k|0> [a] <k|1\n2\n3\n4> <x|5\na\\nb>"),
];

#[test]
fn a_document_has_lists_by_the_rule(rt: HostRuntime) -> Result<(), Fail> {
    let alloc = rt.alloc();
    let document = Ini::load_from_str(alloc, TEXT)?;
    let source = Source::read(alloc, TEXT, ParseOption::default())?;
    for (letters, want) in LISTED {
        let lookup = rule(&rt, letters);
        for document in [AnyDocument::Ini(&document), AnyDocument::Source(&source)] {
            let lists = lookup.listed(alloc, document)?;
            let shown = shown(alloc, &lists)?;
            assert!(rt; shown.as_str() == want, "{letters}: {shown}");
        }
    }
    Ok(())
}

/// A rule, values, a text, and that with the values given to the key `k` of section `a`.
const SET: [(
    &'static str,
    &'static [&'static str],
    &'static str,
    &'static str,
); 9] = [
    // each pair keeps its place
    (
        "jlk",
        &["7", "8"],
        "[a]\n k = 1 \n# two\nk=2\nm=0\n",
        "[a]\n k = 7 \n# two\nk=8\nm=0\n",
    ),
    // one more goes last in the last section of the name
    (
        "jlk",
        &["1", "2", "9"],
        "[a]\nk=1\nk=2\n[b]\n[a]\nm=0\n",
        "[a]\nk=1\nk=2\n[b]\n[a]\nm=0\nk=9\n",
    ),
    // or in the first, where that alone is looked at
    (
        "ffk",
        &["1", "2", "9"],
        "[a]\nk=1\nm=0\n[a]\nk=3\n",
        "[a]\nk=1\nm=0\nk=2\nk=9\n[a]\nk=3\n",
    ),
    // those of no value go, from the back
    (
        "jfk",
        &["8"],
        "[a]\nk=1\nk=2\nj=0\n[b]\nk=3\n[a]\nk=4\n",
        "[a]\nk=8\nj=0\n[b]\nk=3\n[a]\n",
    ),
    (
        "jfk",
        &[],
        "[a]\nk=1\n[A]\nk=2\n[a]\nk=3\n",
        "[a]\n[A]\nk=2\n[a]\n",
    ),
    // where there is none they are new
    (
        "jlk",
        &["1", "2"],
        "[b]\nk=0\n",
        "[b]\nk=0\n\n[a]\nk=1\nk=2\n",
    ),
    // keys and names of other case fit
    (
        "jli",
        &["5", "6", "7"],
        "[A]\nK=1\n[a]\nk=2\n",
        "[A]\nK=5\n[a]\nk=6\nk=7\n",
    ),
    // a pair that has its value stays as it is spelled
    (
        "jlk",
        &["1", "x"],
        "[a]\nk = '1'\nk = 2\n",
        "[a]\nk = '1'\nk = x\n",
    ),
    ("jlk", &[""], "[a]\nk=1\nk=2\n", "[a]\nk=\n"),
];

#[test]
fn all_values_are_set_by_the_rule(rt: HostRuntime) -> Result<(), Fail> {
    let alloc = rt.alloc();
    let write = WriteOption::default();
    for (letters, values, text, want) in SET {
        let lookup = rule(&rt, letters);
        let mut source = Source::read(alloc, text, ParseOption::default())?;
        let name = Some("a");
        lookup
            .set_all_in_source(alloc, &write, &mut source, name, "k", values)
            .expect(&rt, "they are set");
        let new = source.to_text(alloc)?;
        assert!(rt; new.as_str() == want, "{letters} {text}: {new}");
        let mut other = Source::read(alloc, text, ParseOption::default())?;
        lookup
            .set_each_in_source(alloc, &write, &mut other, name, "k", values)
            .expect(&rt, "they are set");
        let new = other.to_text(alloc)?;
        assert!(rt; new.as_str() == want, "{letters} {text}: {new}");
        let found = lookup.get_all(alloc, AnyDocument::Source(&source), name, "k")?;
        assert!(rt; found.len() == values.len(), "{letters} {text}");
        for (one, other) in found.iter().zip(values) {
            assert!(rt; *one == *other, "{letters} {text}");
        }
    }
    Ok(())
}

#[test]
fn a_list_that_is_refused_changes_nothing(rt: HostRuntime) -> Result<(), Fail> {
    let alloc = rt.alloc();
    let write = WriteOption::default();
    let lookup = rule(&rt, "jlk");
    let mut source = Source::read(alloc, "[a]\n", ParseOption::default())?;
    // a blank before a key isn't read back
    let made = lookup.set_all_in_source(alloc, &write, &mut source, Some("a"), " k", &["1"]);
    assert!(rt; matches!(made, Err(EditError::Key)));
    assert_eq!(rt; source.to_text(alloc)?.as_str(), "[a]\n");
    Ok(())
}

/// The lists of the text's document.
fn lists_of(alloc: Global, lookup: Lookup, text: &str) -> Result<Ini, Error> {
    let document = Ini::load_from_str(alloc, text)?;
    SettingValue::List.flat(alloc, lookup, AnyDocument::Ini(&document))
}

/// The text once these changes of lists are made in it.
fn changed(
    alloc: Global,
    lookup: Lookup,
    changes: &[Change<'_>],
    text: &str,
) -> Result<String, EditError> {
    let (which, write) = (SettingValue::List, WriteOption::default());
    let source = Source::read(alloc, text, ParseOption::default())?;
    match apply_by(alloc, which, lookup, &write, changes, &source) {
        Ok(new) => Ok(new.to_text(alloc)?),
        Err(refused) => Err(refused.refusal),
    }
}

/// The changes of lists from the first of the texts to the second, made in a third one.
fn applied(
    alloc: Global,
    lookup: Lookup,
    (from, to, text): (&str, &str, &str),
) -> Result<String, EditError> {
    let from = lists_of(alloc, lookup, from)?;
    let to = lists_of(alloc, lookup, to)?;
    let changes = diff(alloc, &from, &to)?;
    changed(alloc, lookup, changes.as_slice(), text)
}

/// A rule, two texts, a third one, and that after the changes from the first to the second.
const APPLIED: [(
    &'static str,
    &'static str,
    &'static str,
    &'static str,
    &'static str,
); 6] = [
    // a value more, by a rule where the last counts
    (
        "jlk",
        "[s]\nEnvironment=A=1\n",
        "[s]\nEnvironment=A=1\nEnvironment=B=2\n",
        "# unit\n[s]\nEnvironment = A=1\nUser = x\n",
        "# unit\n[s]\nEnvironment = A=1\nUser = x\nEnvironment = B=2\n",
    ),
    // the same values in other sections of the name are no difference
    (
        "jlk",
        "[a]\nk=1\nk=2\n",
        "[a]\nk=1\n[b]\n[a]\nk=2\n",
        "[a]\nk=3\n",
        "[a]\nk=3\n",
    ),
    // and in another order are one
    (
        "jlk",
        "[a]\nk=1\nk=2\n",
        "[a]\nk=2\nk=1\n",
        "[a]\nk=1\nk=2\n",
        "[a]\nk=2\nk=1\n",
    ),
    // a key that is lost loses every value
    (
        "jli",
        "[a]\nk=1\nK=2\n",
        "[a]\n",
        "[A]\nk=1\nm=0\nK=2\n",
        "[A]\nm=0\n",
    ),
    // a value that doesn't count is compared too
    (
        "ffk",
        "[a]\nk=1\nk=2\n",
        "[a]\nk=1\nk=3\n",
        "[a]\nk=1\nk=2\n",
        "[a]\nk=1\nk=3\n",
    ),
    ("jlk", "k='a\\nb'\n", "k=a\nk=b\n", "k=0\n", "k=a\nk=b\n"),
];

#[test]
fn changes_of_lists_are_made(rt: HostRuntime) {
    let alloc = rt.alloc();
    for (letters, from, to, text, want) in APPLIED {
        let got = applied(alloc, rule(&rt, letters), (from, to, text)).expect(&rt, "memory");
        assert!(rt; got.as_str() == want, "{letters} {text}: {got}");
    }
}

#[test]
fn one_list_is_set_in_place(rt: HostRuntime) -> Result<(), Fail> {
    let alloc = rt.alloc();
    let write = WriteOption::default();
    let mut source = Source::read(alloc, "k=1\nj=0\n", ParseOption::default())?;
    let change = Change {
        name: None,
        key: "k",
        old: None,
        new: Some("2\n3"),
    };
    let lookup = rule(&rt, "jlk");
    apply_in_place_by(
        alloc,
        SettingValue::List,
        lookup,
        &write,
        change,
        &mut source,
    )
    .expect(&rt, "a change");
    assert_eq!(rt; source.to_text(alloc)?.as_str(), "k=2\nj=0\nk=3\n");
    Ok(())
}

/// Theirs with the changes of lists of ours, for a side; and the key of each conflict after a stroke.
fn merged(
    alloc: Global,
    lookup: Lookup,
    (base, ours, theirs): (&Ini, &Ini, &Source<'_>),
    side: Side,
) -> Result<String, EditError> {
    let which = SettingValue::List;
    let sides = FlatSides::by(alloc, which, lookup, base, ours, theirs)?;
    let write = WriteOption::default();
    let mut out = match sides.merge_by(alloc, which, lookup, &write, theirs, side) {
        Ok(new) => new.to_text(alloc)?,
        Err(refused) => return Err(refused.refusal),
    };
    for conflict in &sides.conflicts(alloc)? {
        out.push_str("|").map_err(Error::from)?;
        out.push_str(conflict.change.key).map_err(Error::from)?;
    }
    Ok(out)
}

/// Base, ours and theirs, and what is made of them by a rule like git's, for ours and for theirs.
const MERGED: [(
    &'static str,
    &'static str,
    &'static str,
    &'static str,
    &'static str,
); 4] = [
    // each side changed another key
    (
        "[r]\nfetch=a\nurl=u\n",
        "[r]\nfetch=a\nfetch=b\nurl=u\n",
        "[r]\nfetch = a\nurl = v\n",
        "[r]\nfetch = a\nurl = v\nfetch = b\n",
        "[r]\nfetch = a\nurl = v\nfetch = b\n",
    ),
    // both made the same list
    (
        "[r]\nfetch=a\n",
        "[r]\nfetch=b\nfetch=c\n",
        "[R]\nFetch = b\n[r]\nfetch = c\n",
        "[R]\nFetch = b\n[r]\nfetch = c\n",
        "[R]\nFetch = b\n[r]\nfetch = c\n",
    ),
    // a value that each added is a conflict of the whole list
    (
        "[r]\nfetch=a\n",
        "[r]\nfetch=a\nfetch=b\n",
        "[r]\nfetch=a\nfetch=c\n",
        "[r]\nfetch=a\nfetch=b\n|fetch",
        "[r]\nfetch=a\nfetch=c\n|fetch",
    ),
    // what counts is the same, and the lists aren't
    (
        "[r]\nfetch=a\nfetch=z\n",
        "[r]\nfetch=z\n",
        "[r]\nfetch=a\nfetch=z\n# end\n",
        "[r]\nfetch=z\n# end\n",
        "[r]\nfetch=z\n# end\n",
    ),
];

#[test]
fn lists_are_merged_as_a_whole(rt: HostRuntime) -> Result<(), Fail> {
    let alloc = rt.alloc();
    let lookup = rule(&rt, "jli");
    for (base, ours, text, by_ours, by_theirs) in MERGED {
        let base = Ini::load_from_str(alloc, base)?;
        let ours = Ini::load_from_str(alloc, ours)?;
        let theirs = Source::read(alloc, text, ParseOption::default())?;
        for (side, want) in [(Side::Ours, by_ours), (Side::Theirs, by_theirs)] {
            let got = merged(alloc, lookup, (&base, &ours, &theirs), side).expect(&rt, "memory");
            assert!(rt; got.as_str() == want, "{text}: {got}");
        }
    }
    Ok(())
}
