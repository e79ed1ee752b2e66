//! Rows of documents under a rule as documents of their own. What each shows is read from the definitions by
//! hand.
use crate::tests::dialects::{TEXT, rule};
use crate::tests::text_edits::show::shown;
use ini::{Ini, Properties};
use ini_dialect::{AnyDocument, Lookup};
use ini_edit::Source;
use ini_text::ParseOption;
use ini_view::View;
use std::alloc::Global;
use std::process::Abort;
use std::test::Fail;

/// Sections and keys that come again, in other orders.
const AGAIN: &'static str = "[b]\ny=1\nx=2\n[a]\nz=3\n[b]\nx=4\nw=5\ny=6\n";

/// Names and keys of other case, some of letters beyond ASCII, which are not folded.
const CASES: &'static str = "K=1\nk=2\n[ÄB]\nÖ=3\nö=4\nÖ=5\n[äb]\nC=6\n[Äb]\nc=7\n";

/// A first section without pairs.
const EMPTY_FIRST: &'static str = "[A]\n[a]\nk=1\n";

/// A rule, a text, and what its document shows under the rule.
const FLAT: [(&'static str, &'static str, &'static str); 23] = [
    ("ffk", TEXT, "general <k|0> [a] <k|1> [A] <K|3>"),
    ("flk", TEXT, "general <k|0> [a] <k|2> [A] <K|3>"),
    ("jfk", TEXT, "general <k|0> [a] <k|1> <x|5> [A] <K|3>"),
    ("jlk", TEXT, "general <k|0> [a] <k|4> <x|5> [A] <K|3>"),
    ("ffi", TEXT, "general <k|0> [a] <k|1>"),
    ("fli", TEXT, "general <k|0> [a] <k|2>"),
    ("jfi", TEXT, "general <k|0> [a] <k|1> <x|5>"),
    ("jli", TEXT, "general <k|0> [a] <k|4> <x|5>"),
    ("ffk", AGAIN, "general [b] <y|1> <x|2> [a] <z|3>"),
    ("flk", AGAIN, "general [b] <y|1> <x|2> [a] <z|3>"),
    ("jfk", AGAIN, "general [b] <y|1> <x|2> <w|5> [a] <z|3>"),
    ("jlk", AGAIN, "general [b] <y|6> <x|4> <w|5> [a] <z|3>"),
    (
        "ffk",
        CASES,
        "general <K|1> <k|2> [ÄB] <Ö|3> <ö|4> [äb] <C|6> [Äb] <c|7>",
    ),
    (
        "flk",
        CASES,
        "general <K|1> <k|2> [ÄB] <Ö|5> <ö|4> [äb] <C|6> [Äb] <c|7>",
    ),
    ("ffi", CASES, "general <k|1> [Äb] <Ö|3> <ö|4> [äb] <c|6>"),
    (
        "jfi",
        CASES,
        "general <k|1> [Äb] <Ö|3> <ö|4> <c|7> [äb] <c|6>",
    ),
    (
        "jli",
        CASES,
        "general <k|2> [Äb] <Ö|5> <ö|4> <c|7> [äb] <c|6>",
    ),
    ("ffk", EMPTY_FIRST, "general [A] [a] <k|1>"),
    // the first section alone is looked at, and it has no pair
    ("ffi", EMPTY_FIRST, "general [a]"),
    ("fli", EMPTY_FIRST, "general [a]"),
    ("jfi", EMPTY_FIRST, "general [a] <k|1>"),
    ("jli", "", "general"),
    // what is shown is what was read: quotes and escapes are gone
    (
        "jlk",
        "[a]\nk=\\x0041\nk=' a\\tb '\n",
        "general [a] <k| a\tb >",
    ),
];

/// What the document shows under the rule.
fn flat(
    alloc: Global,
    lookup: Lookup,
    document: AnyDocument<'_, '_>,
) -> Result<String, ini::Error> {
    let flat = lookup.flattened(alloc, document)?;
    shown(alloc, &flat)
}

/// What the text's document shows under the rule.
fn flat_document(alloc: Global, lookup: Lookup, text: &str) -> Result<String, ini::Error> {
    let document = Ini::load_from_str(alloc, text)?;
    flat(alloc, lookup, AnyDocument::Ini(&document))
}

/// What the text's view does.
fn flat_view(alloc: Global, lookup: Lookup, text: &str) -> Result<String, ini::Error> {
    let view = View::load_from_str(alloc, text)?;
    flat(alloc, lookup, AnyDocument::View(&view))
}

/// What the text in pieces does.
fn flat_pieces(alloc: Global, lookup: Lookup, text: &str) -> Result<String, ini::Error> {
    let source = Source::read(alloc, text, ParseOption::default())?;
    flat(alloc, lookup, AnyDocument::Source(&source))
}

/// Fails where something else is shown.
fn expect_shown(rt: &impl Abort, form: &str, shown: &str, want: &str) {
    assert!(rt; shown == want, "{form}: {shown}");
}

/// Asks all three.
fn expect_flat(
    rt: &(impl Abort + AllocGlobal),
    (letters, text, want): (&str, &str, &str),
) -> Result<(), Fail> {
    let (alloc, lookup) = (rt.alloc(), rule(rt, letters));
    expect_shown(rt, letters, &flat_document(alloc, lookup, text)?, want);
    expect_shown(rt, letters, &flat_view(alloc, lookup, text)?, want);
    expect_shown(rt, letters, &flat_pieces(alloc, lookup, text)?, want);
    Ok(())
}

#[test]
fn a_document_is_flattened_by_the_rule(rt: HostRuntime) -> Result<(), Fail> {
    for row in FLAT {
        expect_flat(&rt, row)?;
    }
    Ok(())
}

/// A document that begins with no general section, and has one further down.
fn general_later(alloc: Global) -> Result<Ini, ini::Error> {
    let mut document = Ini::new(alloc)?;
    document.clear();
    for (name, key, value) in [
        (Some("A"), "K", "1"),
        (None, "G", "2"),
        (Some("a"), "k", "3"),
        (None, "g", "4"),
    ] {
        let mut pairs = Properties::new(alloc);
        pairs.append(key, value)?;
        let name = match name {
            Some(name) => Some(String::from_str(alloc, name)?),
            None => None,
        };
        document.append_section(name, pairs)?;
    }
    Ok(document)
}

/// A rule, and what that document shows under it.
const GENERAL_LATER: [(&'static str, &'static str); 4] = [
    ("ffk", " [A] <K|1>general <G|2> [a] <k|3>"),
    ("jlk", " [A] <K|1>general <G|2> <g|4> [a] <k|3>"),
    ("ffi", " [a] <k|1>general <g|2>"),
    ("jli", " [a] <k|3>general <g|4>"),
];

#[test]
fn no_general_section_is_made(rt: HostRuntime) -> Result<(), Fail> {
    let alloc = rt.alloc();
    let document = general_later(alloc)?;
    for (letters, want) in GENERAL_LATER {
        let shown = flat(alloc, rule(&rt, letters), AnyDocument::Ini(&document))?;
        assert!(rt; shown.as_str() == want, "{letters}: {shown}");
    }
    let mut none = Ini::new(alloc)?;
    none.clear();
    let shown = flat(alloc, rule(&rt, "jli"), AnyDocument::Ini(&none))?;
    assert_eq!(rt; shown.as_str(), "");
    Ok(())
}
