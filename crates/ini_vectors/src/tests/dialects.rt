//! Rows of questions with their answers: look-ups and edits under each rule, and dialects. The answers are
//! read from the definitions by hand; what a dialect answers, from the manuals of its programs.
use crate::tests::text_edits::show::shown;
use ini::{Ini, WriteOption};
use ini_dialect::{
    AnyDocument, CaseRule, Dialect, Lookup, SectionRule, ValueRule, dialects, guesses,
};
use ini_view::View;
use std::alloc::{AllocError, Global};
use std::panic::Expect;
use std::process::Abort;
use std::test::Fail;

mod encoding;
mod flattened;
mod layers;
mod lists;
mod merges;
mod source;
mod types;

/// What is edited.
const EDITED: &'static str = "[a]\nk=1\nk=2\n[A]\nK=3\n[a]\nk=4\n";

/// Two sections of one name, one of other case, and keys that come again.
const TEXT: &'static str = "k=0\n[a]\nk=1\nk=2\n[A]\nK=3\n[a]\nk=4\nx=5\n";

/// The rule of three letters: `f` or `j` for sections, `f` or `l` for values, `k` or `i` for case.
fn rule(rt: &impl Abort, letters: &str) -> Lookup {
    let [sections, values, case] = letters.as_bytes() else {
        panic!(rt; "not three letters");
    };
    Lookup {
        sections: if *sections == b'j' {
            SectionRule::Joined
        } else {
            SectionRule::First
        },
        values: if *values == b'l' {
            ValueRule::Last
        } else {
            ValueRule::First
        },
        case: if *case == b'i' {
            CaseRule::Ignored
        } else {
            CaseRule::Kept
        },
    }
}

/// Whether the document answers so.
fn answers(
    lookup: Lookup,
    document: AnyDocument<'_, '_>,
    (name, key, want): (Option<&str>, &str, Option<&str>),
) -> bool {
    match lookup.get(document, name, key) {
        Some(value) => match want {
            Some(want) => value == want,
            None => false,
        },
        None => want.is_none(),
    }
}

/// A rule, a name, a key, and the value that counts.
const VALUES: [(
    &'static str,
    Option<&'static str>,
    &'static str,
    Option<&'static str>,
); 16] = [
    ("ffk", Some("a"), "k", Some("1")),
    ("flk", Some("a"), "k", Some("2")),
    ("jfk", Some("a"), "k", Some("1")),
    ("jlk", Some("a"), "k", Some("4")),
    ("ffk", Some("A"), "K", Some("3")),
    ("ffk", Some("A"), "k", None),
    ("ffi", Some("A"), "K", Some("1")),
    ("fli", Some("A"), "K", Some("2")),
    ("jli", Some("A"), "K", Some("4")),
    ("ffk", Some("a"), "x", None),
    ("jfk", Some("a"), "x", Some("5")),
    ("jfk", Some("A"), "x", None),
    ("jfi", Some("A"), "X", Some("5")),
    ("ffk", None, "k", Some("0")),
    ("jli", None, "K", Some("0")),
    ("jli", Some("b"), "k", None),
];

#[test]
fn the_rule_says_which_value_counts(rt: HostRuntime) {
    let alloc = rt.alloc();
    let document = Ini::load_from_str(alloc, TEXT).expect(&rt, "a document");
    let view = View::load_from_str(alloc, TEXT).expect(&rt, "a view");
    for (letters, name, key, want) in VALUES {
        let (lookup, row) = (rule(&rt, letters), (name, key, want));
        let by_document = answers(lookup, AnyDocument::Ini(&document), row);
        let by_view = answers(lookup, AnyDocument::View(&view), row);
        assert!(rt; by_document && by_view, "{letters} {key}");
    }
}

/// The texts with a stroke after each.
fn joined(alloc: Global, texts: &[&str]) -> Result<String, AllocError> {
    let mut all = String::new(alloc);
    for text in texts {
        all.push_str(text)?;
        all.push('|')?;
    }
    Ok(all)
}

/// A rule, all values of `k` in section `a`, the keys there, and how many sections there are.
const LISTS: [(&'static str, &'static str, &'static str, usize); 6] = [
    ("ffk", "1|2|", "k|", 3),
    ("flk", "1|2|", "k|", 3),
    ("jfk", "1|2|4|", "k|x|", 3),
    ("jlk", "1|2|4|", "k|x|", 3),
    ("ffi", "1|2|", "k|", 2),
    ("jli", "1|2|3|4|", "k|x|", 2),
];

/// All values of `k` in section `a`, with a stroke after each.
fn values_of(alloc: Global, lookup: Lookup, document: &Ini) -> Result<String, AllocError> {
    let all = lookup.get_all(alloc, AnyDocument::Ini(document), Some("a"), "k")?;
    joined(alloc, all.as_slice())
}

/// The keys there.
fn keys_of(alloc: Global, lookup: Lookup, document: &Ini) -> Result<String, AllocError> {
    let listed = lookup.keys(alloc, AnyDocument::Ini(document), Some("a"))?;
    joined(alloc, listed.as_slice())
}

/// How many sections there are.
fn section_count(alloc: Global, lookup: Lookup, document: &Ini) -> Result<usize, AllocError> {
    let names = lookup.sections(alloc, AnyDocument::Ini(document))?;
    Ok(names.len())
}

/// Asks the document of the text for its lists under the rule.
fn expect_lists(
    rt: &(impl Abort + AllocGlobal),
    document: &Ini,
    (letters, values, keys, count): (&str, &str, &str, usize),
) -> Result<(), Fail> {
    let (alloc, lookup) = (rt.alloc(), rule(rt, letters));
    let all = values_of(alloc, lookup, document)?;
    assert!(rt; all.as_str() == values, "{letters}");
    let listed = keys_of(alloc, lookup, document)?;
    assert!(rt; listed.as_str() == keys, "{letters}");
    assert!(rt;
        section_count(alloc, lookup, document)? == count,
        "{letters}"
    );
    Ok(())
}

#[test]
fn the_rule_says_which_sections_are_looked_at(rt: HostRuntime) -> Result<(), Fail> {
    let document = Ini::load_from_str(rt.alloc(), TEXT)?;
    for row in LISTS {
        expect_lists(&rt, &document, row)?;
    }
    Ok(())
}

/// A rule, a name, a key, and what the document shows once it is set to `v`, or else is deleted.
const EDITS: [(
    &'static str,
    Option<&'static str>,
    &'static str,
    bool,
    &'static str,
); 10] = [
    (
        "ffk",
        Some("a"),
        "k",
        true,
        "general [a] <k|v> <k|2> [A] <K|3> [a] <k|4>",
    ),
    (
        "flk",
        Some("a"),
        "k",
        true,
        "general [a] <k|1> <k|v> [A] <K|3> [a] <k|4>",
    ),
    (
        "jlk",
        Some("a"),
        "k",
        true,
        "general [a] <k|1> <k|2> [A] <K|3> [a] <k|v>",
    ),
    (
        "ffi",
        Some("A"),
        "K",
        true,
        "general [a] <k|v> <k|2> [A] <K|3> [a] <k|4>",
    ),
    (
        "ffk",
        Some("a"),
        "x",
        true,
        "general [a] <k|1> <k|2> <x|v> [A] <K|3> [a] <k|4>",
    ),
    (
        "jfk",
        Some("a"),
        "x",
        true,
        "general [a] <k|1> <k|2> [A] <K|3> [a] <k|4> <x|v>",
    ),
    (
        "jfk",
        Some("b"),
        "x",
        true,
        "general [a] <k|1> <k|2> [A] <K|3> [a] <k|4> [b] <x|v>",
    ),
    (
        "ffk",
        Some("a"),
        "k",
        false,
        "general [a] [A] <K|3> [a] <k|4>",
    ),
    ("jlk", Some("a"), "k", false, "general [a] [A] <K|3> [a]"),
    ("jli", Some("a"), "k", false, "general [a] [A] [a]"),
];

/// Sets or deletes the key.
fn expect_edited(
    rt: &(impl Abort + AllocGlobal),
    (letters, name, key, is_set, want): (&str, Option<&str>, &str, bool, &str),
) -> Result<(), Fail> {
    let alloc = rt.alloc();
    let mut document = Ini::load_from_str(alloc, EDITED)?;
    let lookup = rule(rt, letters);
    if is_set {
        lookup.set(alloc, &mut document, name, key, "v")?;
        let row = (name, key, Some("v"));
        assert!(rt; answers(lookup, AnyDocument::Ini(&document), row), "{want}");
    } else {
        lookup.delete(alloc, &mut document, name, key)?;
    }
    assert!(rt; shown(alloc, &document)?.as_str() == want, "{want}");
    Ok(())
}

#[test]
fn the_pair_that_counts_is_set_and_all_are_deleted(rt: HostRuntime) -> Result<(), Fail> {
    for row in EDITS {
        expect_edited(&rt, row)?;
    }
    Ok(())
}

/// A dialect, a text, a section, a key, and the value that it has there.
const READ: [(
    &'static str,
    &'static str,
    &'static str,
    &'static str,
    Option<&'static str>,
); 41] = [
    ("crate", "[a]\nk=1\nk=2\n[a]\nk=3\n", "a", "k", Some("1")),
    (
        "git",
        "[core]\n\teditor = vi\n[Core]\n\tEditor = ed\n",
        "core",
        "editor",
        Some("ed"),
    ),
    (
        "systemd",
        "[Unit]\nA=\"a\"\n[Unit]\nB=C:\\x\n",
        "Unit",
        "A",
        Some("\"a\""),
    ),
    (
        "systemd",
        "[Unit]\nA=1\n[Unit]\nB=C:\\x\n",
        "Unit",
        "B",
        Some("C:\\x"),
    ),
    ("systemd", "[Unit]\nA=1\n", "Unit", "a", None),
    (
        "desktop",
        "[Desktop Entry]\nName=\"a\"\n",
        "Desktop Entry",
        "Name",
        Some("\"a\""),
    ),
    ("python", "[a]\nK = 1\n  2\n", "a", "k", Some("1\n2")),
    ("python", "[a]\nk = C:\\\nl = 2\n", "a", "l", Some("2")),
    ("python", "[a]\nk = C:\\\n  2\n", "a", "k", Some("C:\\\n2")),
    ("fail2ban", "[a]\nk = \\\nl = 2\n", "a", "k", Some("\\")),
    ("hg", "[a]\nk = C:\\\nl = 2\n", "a", "k", Some("C:\\")),
    ("mysql", "[a]\nk=C:\\x\\\nl=2\n", "a", "k", Some("C:\\x\\")),
    ("systemd", "[a]\nk=1 \\\n2\n", "a", "k", Some("1 2")),
    ("git", "[a]\n  ; c\nk=v\n", "a", "k", Some("v")),
    ("git", "[a]\n  \\;a=b\n", "a", ";a", Some("b")),
    ("openttd", "[a]\n  ; c\nk=v\n", "a", "; c\nk", Some("v")),
    ("mysql", "[a]\nskip-x\nk=v\n", "a", "skip-x", Some("")),
    ("mysql", "[a]\nk\\\nl=2\n", "a", "k\\", Some("")),
    ("mysql", "[a]\n!include /x\nk=v\n", "a", "k", Some("v")),
    ("pulseaudio", "[a]\nl=1\n  k", "a", "k", Some("")),
    ("openssl", "[a]\n.include /x\nk=v\n", "a", "k", Some("v")),
    ("php", "[a]\nl\nk=v\n", "a", "l\nk", Some("v")),
    ("desktop", "[a]\n\t# a=b", "a", "# a", None),
    ("odbc", "[a]\nk=v\r# c\rj=w\n", "a", "j", Some("w")),
    ("freetds", "[a]\nk=v\r  # c\rj=w\n", "a", "j", Some("w")),
    ("git", "[a]\n# c\rj=w\n", "a", "j", None),
    ("python", "[a]\nk=a\n ; c\n b\n", "a", "k", Some("a\nb")),
    ("python", "[a]\nk=a\n; c\n b\n", "a", "k", Some("a")),
    ("aws", "[a]\nk=a\n ; c\n b\n", "a", "k", Some("a\n; c\nb")),
    ("supervisor", "[a]\nk=v ; n\n", "a", "k", Some("v")),
    ("supervisor", "[a] ; n\nk=a;b\n", "a", "K", Some("a;b")),
    (
        "fail2ban",
        "[a]\nk = a # n\n  b ; m\n",
        "a",
        "k",
        Some("a\nb"),
    ),
    (
        "fail2ban",
        "[a]\nk=a\n ; c\n b\n",
        "a",
        "k",
        Some("a\n; c\nb"),
    ),
    (
        "openssl",
        "[a]\nk=\"v # w\"\t# n\n",
        "a",
        "k",
        Some("v # w"),
    ),
    (
        "openssl",
        "[a]\n.include /x # n\n",
        "a",
        ".include /x",
        Some(""),
    ),
    ("python", "[a]\nk=v ; n\n", "a", "k", Some("v ; n")),
    ("mysql", "[a]\nk=v # n\n", "a", "k", Some("v # n")),
    (
        "windows",
        "[A]\nk=C:\\new\n[a]\nK=2\n",
        "a",
        "K",
        Some("C:\\new"),
    ),
    ("kde", "[a][b]\nk=1\n", "a][b", "k", Some("1")),
    (
        "editorconfig",
        "[[ab].c]\nindent_size = 4\n",
        "[ab].c",
        "Indent_Size",
        Some("4"),
    ),
    (
        "openttd",
        "[a]\nk = \"1\"\nk = 2\n",
        "a",
        "k",
        Some("\"1\""),
    ),
];

/// Looks the key up as the dialect does.
fn expect_read(
    rt: &(impl Abort + AllocGlobal),
    (name, text, section, key, want): (&str, &str, &str, &str, Option<&str>),
) -> Result<(), Fail> {
    let dialect = Dialect::of_name(name).expect(rt, "a dialect");
    let document = Ini::load_from_str_opt(rt.alloc(), text, dialect.read)?;
    let asked = (Some(section), key, want);
    let found = answers(dialect.lookup, AnyDocument::Ini(&document), asked);
    assert!(rt; found, "{name}: {text}");
    Ok(())
}

#[test]
fn a_dialect_reads_as_its_program_does(rt: HostRuntime) -> Result<(), Fail> {
    for row in READ {
        expect_read(&rt, row)?;
    }
    Ok(())
}

/// A dialect, and the pair of `k` that it writes.
const WRITTEN: [(&'static str, &'static str); 4] = [
    ("crate", "k=a\\tb\n"),
    ("git", "k = a\\tb\n"),
    ("samba", "k = a\tb\n"),
    ("windows", "k=a\tb\r\n"),
];

#[test]
fn a_dialect_writes_as_its_program_reads(rt: HostRuntime) -> Result<(), Fail> {
    let alloc = rt.alloc();
    for (name, want) in WRITTEN {
        let dialect = Dialect::of_name(name).expect(&rt, "a dialect");
        let mut document = Ini::new(alloc)?;
        dialect.lookup.set(alloc, &mut document, None, "k", "a\tb")?;
        let option = WriteOption {
            escape_policy: dialect.write.escape_policy,
            line_separator: dialect.write.line_separator,
            kv_separator: dialect.write.kv_separator,
        };
        let text = document.to_text(alloc, option)?;
        assert!(rt; text.as_str() == want, "{name}: {text}");
    }
    Ok(())
}

#[test]
fn other_names_are_none(rt: HostRuntime) {
    for name in ["", "Git", "git ", "ini", "Strict"] {
        assert!(rt; Dialect::of_name(name).is_none(), "{name}");
    }
    for named in dialects() {
        let name = named.name;
        assert!(rt;
            Dialect::of_name(name).is_some() && !named.files.is_empty(),
            "{name}"
        );
    }
}

/// How many warnings a text has as the dialect of a name.
fn warnings_as(rt: &(impl Abort + AllocGlobal), text: &str, name: &str) -> Option<usize> {
    let found = guesses(rt.alloc(), text).expect(rt, "memory");
    let all = dialects();
    for guess in found.as_slice() {
        assert!(rt; guess.place < all.len());
        if all[guess.place].name == name {
            return Some(guess.warnings);
        }
    }
    None
}

/// A text, a dialect, and how many warnings the text has as that.
const GUESSED: [(&'static str, &'static str, Option<usize>); 27] = [
    ("[a]\nk = v\n", "crate", Some(0)),
    ("[a]\nk = v\n", "openttd", Some(0)),
    ("[a]\nk = v\n", "strict", Some(0)),
    ("one\ntwo = 2\n", "crate", Some(1)),
    ("one\ntwo = 2\n", "strict", None),
    ("one\ntwo = 2\n", "mysql", Some(0)),
    ("a\\\nb = 1\n", "mysql", Some(0)),
    ("a\\\nb = 1\n", "openssl", Some(1)),
    ("  ; c\nk = v\n", "openssl", Some(1)),
    ("  k", "pulseaudio", Some(0)),
    ("  k", "qt", Some(1)),
    ("  ; c\nk = v\n", "git", Some(0)),
    ("  ; c\nk = v\n", "crate", Some(1)),
    ("k = v\r# c\n", "odbc", Some(0)),
    ("k = v\r# c\n", "php", None),
    ("k = v\n  ; 'tis C:\\\n", "python", Some(0)),
    ("k = v\n  ; 'tis C:\\\n", "aws", Some(1)),
    ("k = v ; 'tis C:\\\n", "fail2ban", Some(0)),
    ("k = v ; 'tis C:\\\n", "aws", Some(1)),
    ("[a] ; n\n", "supervisor", Some(0)),
    ("[a] ; n\n", "samba", None),
    ("k = v # n\nk2 # n\n", "openssl", Some(0)),
    ("k = v # n\nk2 # n\n", "pulseaudio", Some(1)),
    ("path = C:\\temp\n", "crate", Some(1)),
    ("path = C:\\temp\n", "samba", Some(0)),
    ("k = \"v\n", "crate", None),
    ("k\n", "git", None),
];

#[test]
fn a_text_is_guessed_by_its_warnings(rt: HostRuntime) {
    for (text, name, want) in GUESSED {
        let found = warnings_as(&rt, text, name);
        assert!(rt; found == want, "{text} as {name}");
    }
    let found = guesses(rt.alloc(), "path = C:\\temp\n").expect(&rt, "memory");
    assert!(rt; found.len() == 26 && found[0].place == 2 && found[0].warnings == 0);
}
