//! Rows of changes made, and of three-way merges, under a rule. Each text afterwards is read from the
//! definitions by hand.
use crate::tests::dialects::rule;
use crate::tests::differences::{applied, merged};
use ini::{Ini, WriteOption};
use ini_edit::{EditError, Source};
use ini_layers::{Change, Side, apply, apply_in_place, merge};
use ini_text::ParseOption;
use std::panic::Expect;
use std::test::Fail;

/// A rule, two texts, a third one, and that after the changes from the first to the second.
const APPLIED: [(
    &'static str,
    &'static str,
    &'static str,
    &'static str,
    &'static str,
); 17] = [
    // the value that counts is set, in a later section, and the others stay
    (
        "jli",
        "[a]\nk=1\n",
        "[a]\nk=9\n",
        "[a]\nk = 0\n# c\n[b]\nm=1\n[A]\nK = 1 \n",
        "[a]\nk = 0\n# c\n[b]\nm=1\n[A]\nK = 9 \n",
    ),
    (
        "jli",
        "[a]\nk=1\n",
        "[a]\nk=9\n",
        "[a]\nk=1\nk=2\nj=3\n[a]\n",
        "[a]\nk=1\nk=9\nj=3\n[a]\n",
    ),
    (
        "jfk",
        "[a]\nk=1\n",
        "[a]\nk=9\n",
        "[a]\n[a]\nk=1\nk=2\n[A]\nk=3\n",
        "[a]\n[a]\nk=9\nk=2\n[A]\nk=3\n",
    ),
    // by the default rule they don't
    (
        "ffk",
        "[a]\nk=1\n",
        "[a]\nk=9\n",
        "[a]\nk=1\nk=2\n[a]\nk=3\n",
        "[a]\nk=9\n[a]\nk=3\n",
    ),
    // the first section alone is looked at, and a new pair goes there
    (
        "flk",
        "[a]\nk=1\n",
        "[a]\nk=9\n",
        "[a]\nj=1\n[a]\nk=3\n",
        "[a]\nj=1\nk=9\n[a]\nk=3\n",
    ),
    // a setting that is lost loses its pairs in every section of the name
    (
        "jli",
        "[a]\nk=1\nj=0\n",
        "[a]\nj=0\n",
        "[a]\nk=1\nj=0\n[b]\nk=2\n[A]\nK=3\nk=4\nm=5\n[a]\n",
        "[a]\nj=0\n[b]\nk=2\n[A]\nm=5\n[a]\n",
    ),
    (
        "jlk",
        "[a]\nk=1\n",
        "",
        "[a]\nk=1\n[A]\nk=2\n[a]\nK=3\nk=4\n",
        "[a]\n[A]\nk=2\n[a]\nK=3\n",
    ),
    (
        "flk",
        "[a]\nk=1\n",
        "",
        "[a]\nk=1\nk=2\n[a]\nk=3\n",
        "[a]\n[a]\nk=3\n",
    ),
    // a new one goes last in the last section of the name, or in a new one, in small letters
    (
        "jli",
        "",
        "[a]\nX=1\n",
        "[a]\ny=2\n[b]\nz=3\n[A]\nw=4\n",
        "[a]\ny=2\n[b]\nz=3\n[A]\nw=4\nx=1\n",
    ),
    (
        "jli",
        "",
        "[B]\nX=1\n",
        "[a]\ny=2\n",
        "[a]\ny=2\n\n[b]\nx=1\n",
    ),
    // keys and names of other case are the same
    (
        "jli",
        "[A]\nKey=1\n",
        "[a]\nkEY=1\n",
        "[a]\nKEY = 7\n",
        "[a]\nKEY = 7\n",
    ),
    (
        "jli",
        "[A]\nKey=1\n",
        "[a]\nkEY=2\n",
        "[a]\nKEY = 7\n",
        "[a]\nKEY = 2\n",
    ),
    // of both texts the values that count are compared
    (
        "jli",
        "[a]\nk=1\n[a]\nk=2\n",
        "[a]\nk=2\n",
        "[a]\nk=3\n",
        "[a]\nk=3\n",
    ),
    (
        "jli",
        "[a]\nk=1\n[a]\nk=2\n",
        "[a]\nk=1\n",
        "[a]\nk=3\n",
        "[a]\nk=1\n",
    ),
    (
        "jfi",
        "[a]\nk=1\n[a]\nk=2\n",
        "[a]\nk=1\n",
        "[a]\nk=3\n",
        "[a]\nk=3\n",
    ),
    (
        "ffi",
        "[a]\nk=1\n[A]\nj=2\n",
        "[a]\nk=1\n",
        "[a]\nj=3\n",
        "[a]\nj=3\n",
    ),
    // the general section has no case
    ("jli", "K=1\n", "k=2\n", "k=0\nK=1\n", "k=0\nK=2\n"),
];

#[test]
fn changes_are_made_by_the_rule(rt: HostRuntime) {
    let alloc = rt.alloc();
    for (letters, from, to, text, want) in APPLIED {
        let got = applied(alloc, rule(&rt, letters), from, to, text).expect(&rt, "memory");
        assert!(rt; got.as_str() == want, "{letters} {text}: {got}");
    }
}

/// Base, ours and theirs; and what a merge makes of them for each side, with its changes, and the conflicts.
const MERGED: [(
    &'static str,
    &'static str,
    &'static str,
    &'static str,
    &'static str,
); 14] = [
    // the change of ours is made where the last value counts, and every other byte stays
    (
        "jli",
        "[a]\nk=1\n[a]\nk=2\nj=0\n",
        "[a]\nk=1\n[A]\nK=3\nj=0\n",
        "; t\n[a]\nk = 1\n; u\n[a]\n  k = 2 \nj=0\nnew=1",
        "; t\n[a]\nk = 1\n; u\n[a]\n  k = 3 \nj=0\nnew=1|a k: 2, 3\n|\
         ; t\n[a]\nk = 1\n; u\n[a]\n  k = 3 \nj=0\nnew=1|a k: 2, 3\n|",
    ),
    // by the first value there is none
    (
        "jfi",
        "[a]\nk=1\n[a]\nk=2\nj=0\n",
        "[a]\nk=1\n[A]\nK=3\nj=0\n",
        "; t\n[a]\nk = 1\n; u\n[a]\n  k = 2 \n",
        "; t\n[a]\nk = 1\n; u\n[a]\n  k = 2 \n||; t\n[a]\nk = 1\n; u\n[a]\n  k = 2 \n||",
    ),
    // one conflict, once
    (
        "jli",
        "[a]\nk=1\n[a]\nk=1\n",
        "[a]\nk=1\nK=5\n[a]\nk=2\n",
        "[A]\nK=3\n[a]\nk=4\n",
        "[A]\nK=3\n[a]\nk=2\n|a k: 1, 2\n|[A]\nK=3\n[a]\nk=4\n||a k: 1, 2, 4\n",
    ),
    // two, in the order of ours
    (
        "jli",
        "[a]\nk=1\n[b]\nj=1\n",
        "[B]\nJ=2\n[A]\nK=2\n",
        "[a]\nk=3\n[b]\nj=3\n",
        "[a]\nk=2\n[b]\nj=2\n|b j: 1, 2\na k: 1, 2\n|[a]\nk=3\n[b]\nj=3\n||\
         b j: 1, 2, 3\na k: 1, 2, 3\n",
    ),
    // what ours took out is gone in every section of the name
    (
        "jli",
        "[a]\nk=1\nj=0\n",
        "[a]\nj=0\n",
        "[a]\nk=0\n[b]\nk=1\n[A]\nK=1\nj=0\n",
        "[a]\n[b]\nk=1\n[A]\nj=0\n|a k: 1, none\n|[a]\n[b]\nk=1\n[A]\nj=0\n|a k: 1, none\n|",
    ),
    // and in conflict where theirs has another value that counts
    (
        "jli",
        "[a]\nk=1\n",
        "",
        "[a]\nk=1\n[A]\nK=2\n",
        "[a]\n[A]\n|a k: 1, none\n|[a]\nk=1\n[A]\nK=2\n||a k: 1, none, 2\n",
    ),
    // what theirs took out of the last section counts
    (
        "jlk",
        "[a]\nk=1\n[a]\nk=2\n",
        "[a]\nk=1\n[a]\nk=2\n",
        "[a]\nk=1\n[a]\n",
        "[a]\nk=1\n[a]\n||[a]\nk=1\n[a]\n||",
    ),
    // ours is the base, though other texts: theirs to the byte
    (
        "jli",
        "[a]\nk=1\n[A]\nK=2\n",
        "; ours\n[A]\nk = '2'\n",
        "\n;; c\n[a]\r\n  K : 7 \nk='8' \n\n\n[a]\nx:",
        "\n;; c\n[a]\r\n  K : 7 \nk='8' \n\n\n[a]\nx:||\n;; c\n[a]\r\n  K : 7 \nk='8' \n\n\n[a]\nx:||",
    ),
    // theirs is the base: it gets what ours has
    (
        "jli",
        "[a]\nk=1\n",
        "[a]\nk=2\n[b]\nj=3\n",
        "[A]\nK=0\nK=1",
        "[A]\nK=0\nK=2\n\n[b]\nj=3\n|a k: 1, 2\nb j: none, 3\n|\
         [A]\nK=0\nK=2\n\n[b]\nj=3\n|a k: 1, 2\nb j: none, 3\n|",
    ),
    // both made the same change, in other letters and in other sections
    (
        "jli",
        "[a]\nk=1\n",
        "[a]\nk=1\n[A]\nK=2\n",
        "[a]\nk = 0\nk = '2'\n",
        "[a]\nk = 0\nk = '2'\n||[a]\nk = 0\nk = '2'\n||",
    ),
    // keys of other case are the same setting
    (
        "jli",
        "[A]\nKey=1\n",
        "[a]\nkey=2\n",
        "[a]\nKEY = 1\n",
        "[a]\nKEY = 2\n|a key: 1, 2\n|[a]\nKEY = 2\n|a key: 1, 2\n|",
    ),
    // and where case tells apart they are two
    (
        "jlk",
        "[a]\nKey=1\n",
        "[a]\nKey=2\n",
        "[a]\nKEY = 1\nKey = 1\n",
        "[a]\nKEY = 1\nKey = 2\n|a Key: 1, 2\n|[a]\nKEY = 1\nKey = 2\n|a Key: 1, 2\n|",
    ),
    // the first section alone: what stands in a later one is no setting
    (
        "flk",
        "[a]\nk=1\n",
        "[a]\nk=1\n[a]\nk=2\nj=3\n",
        "[a]\nk=4\n[a]\nk=1\n",
        "[a]\nk=4\n[a]\nk=1\n||[a]\nk=4\n[a]\nk=1\n||",
    ),
    (
        "flk",
        "[a]\nk=0\nk=1\n",
        "[a]\nk=0\nk=2\n",
        "[a]\nk=0\nk=1\n[a]\nk=1\n",
        "[a]\nk=0\nk=2\n[a]\nk=1\n|a k: 1, 2\n|[a]\nk=0\nk=2\n[a]\nk=1\n|a k: 1, 2\n|",
    ),
];

#[test]
fn both_sides_are_merged_by_the_rule(rt: HostRuntime) {
    let alloc = rt.alloc();
    for (letters, base, ours, theirs, want) in MERGED {
        let got = merged(alloc, rule(&rt, letters), base, ours, theirs).expect(&rt, "memory");
        assert!(rt; got.as_str() == want, "{letters} {theirs}: {got}");
    }
}

/// A text in which a value is set before another change is refused.
const STAYS: &'static str = "[a]\nk=0\n[A]\nK = 1\n";

/// The change of a setting of section `a`.
fn change_of<'a>(key: &'a str, new: &'a str) -> Change<'a> {
    Change {
        name: Some("a"),
        key,
        old: None,
        new: Some(new),
    }
}

#[test]
fn a_change_that_is_refused_changes_nothing(rt: HostRuntime) -> Result<(), Fail> {
    let alloc = rt.alloc();
    let (write, lookup) = (WriteOption::default(), rule(&rt, "jli"));
    let mut source = Source::read(alloc, STAYS, ParseOption::default())?;
    // a blank before a key isn't read back
    let changes = [
        change_of("k", "2"),
        change_of("j", "3"),
        change_of(" x", "v"),
    ];
    match apply(alloc, lookup, &write, &changes, &source) {
        Ok(_) => panic!(rt; "it is made"),
        Err(refused) => {
            assert!(rt; refused.index == 2 && matches!(refused.refusal, EditError::Key));
        }
    }
    assert_eq!(rt; source.to_text(alloc)?.as_str(), STAYS);
    let made = apply_in_place(alloc, lookup, &write, changes[2], &mut source);
    assert!(rt; matches!(made, Err(EditError::Key)));
    assert_eq!(rt; source.to_text(alloc)?.as_str(), STAYS);
    apply_in_place(alloc, lookup, &write, changes[0], &mut source).expect(&rt, "a change");
    assert_eq!(rt; source.to_text(alloc)?.as_str(), "[a]\nk=0\n[A]\nK = 2\n");
    Ok(())
}

#[test]
fn a_merge_that_is_refused_changes_nothing(rt: HostRuntime) -> Result<(), Fail> {
    let alloc = rt.alloc();
    let (write, lookup) = (WriteOption::default(), rule(&rt, "jli"));
    let base = Ini::load_from_str(alloc, "[a]\nk=1\nl=1\n")?;
    let mut ours = Ini::load_from_str(alloc, "[a]\nk=2\nl=1\n")?;
    ours.with_section(Some("A")).add(" X", "v")?;
    let theirs = Source::read(alloc, STAYS, ParseOption::default())?;
    match merge(alloc, lookup, &write, &base, &ours, &theirs, Side::Ours) {
        Ok(_) => panic!(rt; "it is made"),
        Err(refused) => {
            assert!(rt; refused.index == 1 && matches!(refused.refusal, EditError::Key));
        }
    }
    assert_eq!(rt; theirs.to_text(alloc)?.as_str(), STAYS);
    Ok(())
}
