//! What differs between two documents, setting by setting, and what changes and merges make of a text.
use super::text_edits::show::put;
use ini::{Error, Ini, ParseOption, WriteOption};
use ini_dialect::{AnyDocument, Lookup};
use ini_edit::{EditError, Source};
use ini_layers::{Change, Conflict, FlatSides, Side, apply, commented, diff, merge};
use std::alloc::Global;
use std::panic::Expect;
use std::process::Abort;

/// Changes, a line each: the section's name, the key, and the two values.
fn shown(alloc: Global, changes: &[Change<'_>]) -> Result<String, Error> {
    let mut out = String::new(alloc);
    for change in changes {
        let Change {
            name,
            key,
            old,
            new,
        } = *change;
        let (name, old) = (name.unwrap_or("general"), old.unwrap_or("none"));
        let new = new.unwrap_or("none");
        put(&mut out, &[name, " ", key, ": ", old, ", ", new, "\n"])?;
    }
    Ok(out)
}

/// What differs between the documents of two texts.
fn difference(alloc: Global, from: &str, to: &str) -> Result<String, Error> {
    let from = Ini::load_from_str(alloc, from)?;
    let to = Ini::load_from_str(alloc, to)?;
    let changes = diff(alloc, &from, &to)?;
    shown(alloc, changes.as_slice())
}

/// Two texts, and what differs from the first to the second.
const ROWS: [(&str, &str, &str); 17] = [
    ("", "", ""),
    ("k=1\n", "k=1\n", ""),
    ("k=1\n", "k=2\n", "general k: 1, 2\n"),
    ("", "k=1\n", "general k: none, 1\n"),
    ("k=1\n", "", "general k: 1, none\n"),
    // an empty value is a value
    ("k=\n", "", "general k: , none\n"),
    ("k=1\n", "k=\n", "general k: 1, \n"),
    // comments, blanks, quotes and order are no difference
    (
        "; c\n[a]\nk=1\nj = 2\n[b]\nl=3\n",
        "[b]\nl='3'\n[a]\n  j=2\n\n# d\nk=1\n",
        "",
    ),
    // the order of the second document, and then that of the first
    (
        "z=1\n[a]\nk=1\nj=2\ngone=3\n[old]\nm=4\n",
        "[b]\nn=5\n[a]\nj=3\nk=2\n",
        "b n: none, 5\na j: 2, 3\na k: 1, 2\ngeneral z: 1, none\na gone: 3, none\nold m: 4, none\n",
    ),
    // of a repeated key the first value counts, and it is listed once
    ("k=1\nk=2\n", "k=1\nk=3\n", ""),
    ("k=1\nk=2\n", "k=3\nk=2\n", "general k: 1, 3\n"),
    (
        "k=1\n",
        "k=2\nj=0\nk=3\n",
        "general k: 1, 2\ngeneral j: none, 0\n",
    ),
    ("k=1\nk=2\n", "", "general k: 1, none\n"),
    // of a repeated name the first section counts
    ("[a]\nk=1\n", "[a]\nk=1\n[a]\nk=2\nj=3\n", ""),
    ("[a]\nk=1\n[a]\nj=2\n", "[a]\nk=1\n", ""),
    // sections without pairs have no settings; names and keys keep their case
    ("[a]\n[b]\n", "[c]\n", ""),
    ("[a]\nk=1\n", "[A]\nK=1\n", "A K: none, 1\na k: 1, none\n"),
];

/// Which comments differ between two texts.
fn comment_difference(alloc: Global, from: &str, to: &str) -> Result<String, Error> {
    let from = Source::read(alloc, from, ParseOption::default())?;
    let to = Source::read(alloc, to, ParseOption::default())?;
    let from = commented(alloc, &from)?;
    let to = commented(alloc, &to)?;
    let changes = diff(alloc, &from, &to)?;
    shown(alloc, changes.as_slice())
}

/// Two texts, and which comments differ.
const COMMENTS: [(&str, &str, &str); 6] = [
    ("; a\nk=1\n", "\n; a\n k = 2\n; b\n", ""),
    (
        "; a\nk=1\nj=2\n",
        "# b\n; a\nk=1\n; c\nj=3\n",
        "general k: ; a\n, # b\n; a\n\ngeneral j: , ; c\n\n",
    ),
    // a blank line, or the section's header, stands between
    ("; a\nk=1\n", "; a\n\nk=1\n", "general k: ; a\n, \n"),
    ("; a\n[s]\nk=1\n", "[s]\nk=1\n", ""),
    // the first pair in the first section
    (
        "[s]\n; x\nk=1\n; c\nk=2\n",
        "[s]\n; y\nk=1\n; d\nk=2\n[s]\n; z\nk=1\n",
        "s k: ; x\n, ; y\n\n",
    ),
    ("; a\nk=1\n", "", "general k: ; a\n, none\n"),
];

/// A text of one section with so many keys, each with its number as a value; `changed` has another one.
fn many_keys(alloc: Global, count: usize, changed: usize) -> Result<String, Error> {
    let mut text = String::from_str(alloc, "[a]\n")?;
    for number in 0..count {
        let value = if number == changed { 0 } else { number };
        text.push_str(format!(in alloc; "key{number}={value}\n")?.as_str())?;
    }
    Ok(text)
}

#[test]
fn settings_that_differ_are_listed_once(rt: HostRuntime) {
    let alloc = rt.alloc();
    for (from, to, want) in ROWS {
        let got = difference(alloc, from, to).expect(&rt, "memory");
        assert!(rt; got.as_str() == want, "{from}: {got}");
    }
    for (from, to, want) in COMMENTS {
        let got = comment_difference(alloc, from, to).expect(&rt, "memory");
        assert!(rt; got.as_str() == want, "{from}: {got}");
    }
    let from = many_keys(alloc, 3000, 7).expect(&rt, "memory");
    let to = many_keys(alloc, 3000, 2999).expect(&rt, "memory");
    let got = difference(alloc, from.as_str(), to.as_str()).expect(&rt, "memory");
    assert!(rt;
        got.as_str() == "a key7: 0, 7\na key2999: 2999, 0\n",
        "{got}"
    );
}

/// The document of a text, flattened under the rule.
fn flattened(alloc: Global, rule: Lookup, text: &str) -> Result<Ini, Error> {
    let document = Ini::load_from_str(alloc, text)?;
    rule.flattened(alloc, AnyDocument::Ini(&document))
}

/// A text after the changes from one text to another are made in it under the rule.
pub(crate) fn applied(
    alloc: Global,
    rule: Lookup,
    from: &str,
    to: &str,
    text: &str,
) -> Result<String, EditError> {
    let from = flattened(alloc, rule, from)?;
    let to = flattened(alloc, rule, to)?;
    let changes = diff(alloc, &from, &to)?;
    let source = Source::read(alloc, text, ParseOption::default())?;
    let write = WriteOption::default();
    match apply(alloc, rule, &write, changes.as_slice(), &source) {
        Ok(new) => Ok(new.to_text(alloc)?),
        Err(refused) => Err(refused.refusal),
    }
}

/// Two texts, a third one, and that after the changes from the first to the second.
const APPLIED: [(&str, &str, &str, &str); 8] = [
    ("k=1\n", "k=1\n", "; c\n k = 3 \n", "; c\n k = 3 \n"),
    (
        "k=1\n",
        "k=2\n",
        "; c\n k = 1 \n\nj=0",
        "; c\n k = 2 \n\nj=0",
    ),
    // whatever value is there
    ("k=1\n", "k=2\n", "k=9\nj=0\n", "k=2\nj=0\n"),
    // all pairs of the key go, and later ones where it is set
    ("k=1\n", "", "k=1\nj=0\nk=2\n", "j=0\n"),
    ("k=1\n", "k=2\n", "k=1\nj=0\nk=3\n", "k=2\nj=0\n"),
    ("", "[a]\nx=1\n", "[a]\ny=2\n", "[a]\ny=2\nx=1\n"),
    ("", "[b]\nx=1\n", "[a]\ny=2\n", "[a]\ny=2\n\n[b]\nx=1\n"),
    // of a repeated name the first section is looked at
    ("[a]\nk=1\n", "", "[a]\nk=1\n[a]\nk=2\n", "[a]\n[a]\nk=2\n"),
];

/// Conflicts, a line each: the section's name, the key, and the three values.
fn shown_conflicts(alloc: Global, conflicts: &[Conflict<'_>]) -> Result<String, Error> {
    let mut out = String::new(alloc);
    for conflict in conflicts {
        let Conflict { change, theirs } = *conflict;
        let (name, key) = (change.name.unwrap_or("general"), change.key);
        let (base, ours) = (change.old.unwrap_or("none"), change.new.unwrap_or("none"));
        let theirs = theirs.unwrap_or("none");
        put(
            &mut out,
            &[name, " ", key, ": ", base, ", ", ours, ", ", theirs, "\n"],
        )?;
    }
    Ok(out)
}

/// The changes that a merge makes where this side is chosen.
fn taken_for(
    alloc: Global,
    rule: Lookup,
    (base, ours, theirs): (&Ini, &Ini, &Source<'_>),
    side: Side,
) -> Result<String, Error> {
    let sides = FlatSides::new(alloc, rule, base, ours, theirs)?;
    let changes = sides.taken(alloc, side)?;
    shown(alloc, changes.as_slice())
}

/// The text of a merge where this side is chosen.
fn text_for(
    alloc: Global,
    rule: Lookup,
    (base, ours, theirs): (&Ini, &Ini, &Source<'_>),
    side: Side,
) -> Result<String, EditError> {
    let write = WriteOption::default();
    match merge(alloc, rule, &write, base, ours, theirs, side) {
        Ok(new) => Ok(new.to_text(alloc)?),
        Err(refused) => Err(refused.refusal),
    }
}

/// That text, and those changes; a bar after each.
fn merged_for(
    alloc: Global,
    rule: Lookup,
    texts: (&Ini, &Ini, &Source<'_>),
    side: Side,
) -> Result<String, EditError> {
    let mut out = text_for(alloc, rule, texts, side)?;
    let changes = taken_for(alloc, rule, texts, side)?;
    put(&mut out, &["|", changes.as_str(), "|"])?;
    Ok(out)
}

/// The conflicts of a merge.
fn conflicts_of(
    alloc: Global,
    rule: Lookup,
    (base, ours, theirs): (&Ini, &Ini, &Source<'_>),
) -> Result<String, Error> {
    let sides = FlatSides::new(alloc, rule, base, ours, theirs)?;
    let found = sides.conflicts(alloc)?;
    shown_conflicts(alloc, found.as_slice())
}

/// What is merged for each side.
fn merged_both(
    alloc: Global,
    rule: Lookup,
    texts: (&Ini, &Ini, &Source<'_>),
) -> Result<String, EditError> {
    let mut out = merged_for(alloc, rule, texts, Side::Ours)?;
    let by_theirs = merged_for(alloc, rule, texts, Side::Theirs)?;
    put(&mut out, &[by_theirs.as_str()])?;
    Ok(out)
}

/// That, and then the conflicts.
fn merged_all(
    alloc: Global,
    rule: Lookup,
    texts: (&Ini, &Ini, &Source<'_>),
) -> Result<String, EditError> {
    let mut out = merged_both(alloc, rule, texts)?;
    let found = conflicts_of(alloc, rule, texts)?;
    put(&mut out, &[found.as_str()])?;
    Ok(out)
}

/// That of the documents of three texts.
pub(crate) fn merged(
    alloc: Global,
    rule: Lookup,
    base: &str,
    ours: &str,
    theirs: &str,
) -> Result<String, EditError> {
    let base = Ini::load_from_str(alloc, base)?;
    let ours = Ini::load_from_str(alloc, ours)?;
    let theirs = Source::read(alloc, theirs, ParseOption::default())?;
    merged_all(alloc, rule, (&base, &ours, &theirs))
}

/// Base, ours and theirs; and what a merge makes of them.
const MERGED: [(&str, &str, &str, &str); 10] = [
    // theirs where ours is the base, ours where theirs is, what both have
    ("k=1\n", "; c\nk=1\n", "; d\nk=2", "; d\nk=2||; d\nk=2||"),
    (
        "k=1\nj=1\n",
        "k=2\nj=1\n",
        "; new\nk = 1\n\nj=3\n",
        "; new\nk = 2\n\nj=3\n|general k: 1, 2\n|; new\nk = 2\n\nj=3\n|general k: 1, 2\n|",
    ),
    ("k=1\n", "k=2\n", "k = '2'\n", "k = '2'\n||k = '2'\n||"),
    (
        "",
        "[a]\nk=2\n",
        "",
        "[a]\nk=2\n|a k: none, 2\n|[a]\nk=2\n|a k: none, 2\n|",
    ),
    // a key that ours took out stays out, and one that theirs took out
    (
        "k=1\nj=1\n",
        "j=1\n",
        "k=1\nj=1\ni=1\n",
        "j=1\ni=1\n|general k: 1, none\n|j=1\ni=1\n|general k: 1, none\n|",
    ),
    ("k=1\nj=1\n", "k=1\nj=1\n", "j=1\n", "j=1\n||j=1\n||"),
    // conflicts
    (
        "k=1\n",
        "k=2\n",
        "k=3\n",
        "k=2\n|general k: 1, 2\n|k=3\n||general k: 1, 2, 3\n",
    ),
    (
        "k=1\n",
        "",
        "k=3\n",
        "|general k: 1, none\n|k=3\n||general k: 1, none, 3\n",
    ),
    (
        "[a]\nk=1\nj=0\n",
        "[a]\nk=2\nj=0\n",
        "[a]\nj=0\n",
        "[a]\nj=0\nk=2\n|a k: 1, 2\n|[a]\nj=0\n||a k: 1, 2, none\n",
    ),
    (
        "",
        "[a]\nk=2\n",
        "[a]\nk=3\n",
        "[a]\nk=2\n|a k: none, 2\n|[a]\nk=3\n||a k: none, 2, 3\n",
    ),
];

#[test]
fn changes_are_made_and_both_sides_are_merged(rt: HostRuntime) {
    let alloc = rt.alloc();
    for (from, to, text, want) in APPLIED {
        let got = applied(alloc, Lookup::default(), from, to, text).expect(&rt, "memory");
        assert!(rt; got.as_str() == want, "{text}: {got}");
    }
    for (base, ours, theirs, want) in MERGED {
        let got = merged(alloc, Lookup::default(), base, ours, theirs).expect(&rt, "memory");
        assert!(rt; got.as_str() == want, "{theirs}: {got}");
    }
}
