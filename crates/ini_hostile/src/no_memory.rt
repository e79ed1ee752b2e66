//! The calls that take no memory, each made where not one byte is left, and again where one block is free:
//! it is whole afterwards, so none of them asked for memory and passed the refusal over.
use crate::scarce::{FREE, Famine};
use crate::show::{expect_shown, joined, loaded, numbered, text};
use ini::{
    Error, EscapePolicy, Ini, ParseKind, ParseOption, Properties, SectionEntry, Watched,
    WriteOption, write_escaped, write_raw,
};
use ini_multimap::Multimap;
use ini_text::Parser;
use ini_view::View;
use std::alloc::Global;
use std::panic::Expect;
use std::process::Abort;

/// A document that the calls are made on.
const TEXT: &'static str = "g=0\n[p]\nk=1\nk=2\nj=3\n[q]\n[p]\nk=4\n";

/// The name of its second section and of its last.
const P: Option<&'static str> = Some("p");

#[test]
fn a_request_is_noticed(rt: HostRuntime) {
    let mut famine = Famine::new(&rt);
    for size in [1, 1000] {
        famine.leave_blocks(&rt, 1);
        assert!(rt; Vec::<u8>::with_capacity(rt.alloc(), size).is_ok());
        assert!(rt; !famine.is_whole());
    }
}

// `len`, `is_empty`, `section`, `get_from`, `get_from_or`, `section_all`, `sections`, `iter`, a walk.
fn is_looked_up(document: &Ini) -> bool {
    let counted = document.len() == 3 && !document.is_empty();
    let listed = document.section_all(P).count() == 2 && document.sections().count() == 3;
    let there = document.get_from(P, "k") == Some("1");
    let mut as_expected = counted && listed && document.iter().size_hint() == (4, Some(4));
    match document.section(P) {
        Some(section) => as_expected = as_expected && section.len() == 2,
        None => return false,
    }
    for (name, section) in document {
        as_expected = as_expected && section.is_empty() == (name == Some("q"));
    }
    as_expected && there && document.get_from_or(P, "z", "d") == "d"
}

// `section_mut`, `get_from_mut`, `section_all_mut`, `iter_mut`, and a walk for writing over all values.
fn is_looked_up_for_writing(document: &mut Ini) -> bool {
    let section = document.section_mut(P).is_some();
    let value = document.get_from_mut(P, "k").is_some();
    let counted = document.section_all_mut(P).count() == 2;
    let walked = document.iter_mut().size_hint() == (4, Some(4));
    let mut as_expected = section && value && counted && walked;
    for (_, section) in document {
        for (_, value) in section {
            as_expected = as_expected && !value.is_empty();
        }
    }
    as_expected
}

fn is_walked_by_value(document: Ini) -> bool {
    let mut as_expected = true;
    for (_, section) in document {
        for (key, _) in section {
            as_expected = as_expected && !key.is_empty();
        }
    }
    as_expected
}

// Setters that look up.
fn is_got(document: &mut Ini, want: &str) -> bool {
    let got = document.with_section(P).get("j") == Some(want);
    got && document.with_general_section().get("g") == Some("0")
}

/// How an entry is used: by `or_insert`, `or_insert_with`, `into_mut`.
const USES: [&'static str; 3] = ["or_insert", "or_insert_with", "into_mut"];

// Opens no section where one of the name is there.
fn is_entered(alloc: Global, document: &mut Ini, name: String, way: &str) -> bool {
    let answer = match document.entry(Some(name)) {
        entry if way == "or_insert" => entry.or_insert(Properties::new(alloc)),
        entry if way == "or_insert_with" => entry.or_insert_with(move || Properties::new(alloc)),
        SectionEntry::Occupied(entry) => Ok(entry.into_mut()),
        SectionEntry::Vacant(_) => return false,
    };
    match answer {
        Ok(section) => section.len() == 2,
        Err(_refused) => false,
    }
}

#[test]
fn look_ups_walks_and_entries_of_documents(rt: HostRuntime) {
    for free in FREE {
        let mut document = loaded(&rt, TEXT);
        let names = [text(&rt, "p"), text(&rt, "p"), text(&rt, "p")];
        let mut famine = Famine::leaving(&rt, free);
        let plain = document.is_plain(&WriteOption::default(), ParseOption::default());
        let found = plain && is_looked_up(&document);
        let found = found && is_looked_up_for_writing(&mut document);
        famine.expect(
            &rt,
            found && is_got(&mut document, "3"),
            "look-ups and walks",
        );
        for (name, way) in names.into_iter().zip(USES) {
            famine.expect(&rt, is_entered(rt.alloc(), &mut document, name, way), way);
        }
        famine.expect(&rt, is_walked_by_value(document), "walks by value");
    }
}

// A section p of 40 pairs, which are more than those that have no index.
fn many_pairs(rt: &(impl Abort + AllocGlobal)) -> Ini {
    let pairs = numbered(rt, "@=v\n", 10, 40);
    loaded(rt, &joined(rt, &["[p]\n", pairs.as_str()]))
}

/// The keys of those pairs that are taken out, so that holes are closed.
const DELETED: &'static str = "10 11 12 13 14 15 16 17 18 19 20 21 22 23 24 25 26 27 28 29 \
    30 31 32 33 34 35 36 37 38 39";

// Takes the pairs of these keys out, those from 20 to 29 by a setter. Whether each was there.
fn is_deleted(document: &mut Ini) -> bool {
    let mut as_expected = true;
    for key in DELETED.split(' ') {
        if key.starts_with('2') {
            let _ = document.with_section(P).delete(key);
        } else {
            as_expected = as_expected && document.delete_from(P, key).is_some();
        }
    }
    as_expected
}

// Takes all out: `delete` of a section, `clear`.
fn expect_cleared(rt: &(impl Abort + AllocGlobal), famine: &mut Famine, mut document: Ini) {
    famine.expect(rt, document.delete(P).is_some(), "delete of a section");
    document.clear();
    famine.expect(rt, document.is_empty(), "clear");
}

#[test]
fn replacements_and_removals(rt: HostRuntime) {
    for free in FREE {
        let (mut document, mut many) = (loaded(&rt, TEXT), many_pairs(&rt));
        let (key, value) = (text(&rt, "j"), text(&rt, "v"));
        let mut famine = Famine::leaving(&rt, free);
        let set = document.set_to(P, key, value).is_ok();
        famine.expect(&rt, set, "set_to of a key that is there");
        famine.expect(&rt, is_got(&mut document, "v"), "get of a setter");
        let _ = document.with_section(P).delete("k");
        famine.expect(&rt, true, "delete of a setter");
        let deleted = document.delete_from(P, "k").is_some();
        famine.expect(&rt, deleted, "delete_from");
        famine.expect(
            &rt,
            is_deleted(&mut many),
            "delete_from, delete of many pairs",
        );
        expect_cleared(&rt, &mut famine, many);
        let deleted = document.delete(P).is_some();
        famine.expect(&rt, deleted, "delete");
        drop(famine);
        expect_shown(&rt, &document, "general: <g|0> [q]: [p]: ");
        let mut famine = Famine::leaving(&rt, free);
        document.clear();
        famine.expect(&rt, document.is_empty(), "clear of sections");
    }
}

// The properties of the first section p.
fn peer(rt: &(impl Abort + AllocGlobal)) -> Properties {
    loaded(rt, TEXT).delete(P).expect(rt, "a section")
}

// `==`, `len`, `is_empty`, `contains_key`, `get`, `get_all`, `iter`.
fn are_pairs_looked_up(pairs: &Properties, same: &Properties) -> bool {
    let counted = pairs.len() == 2 && !pairs.is_empty();
    let found = pairs.contains_key("k") && pairs.get("k") == Some("1");
    let listed = pairs.get_all("k").count() == 2 && pairs.iter().size_hint() == (3, Some(3));
    counted && found && listed && pairs == same
}

// `remove_all` of a key that isn't there.
fn is_none_removed(pairs: &mut Properties) -> bool {
    match pairs.remove_all("z") {
        Ok(removed) => removed.count() == 0,
        Err(_) => false,
    }
}

#[test]
fn calls_of_properties(rt: HostRuntime) {
    for free in FREE {
        let (mut pairs, same) = (peer(&rt), peer(&rt));
        let mut famine = Famine::leaving(&rt, free);
        let found = Properties::new(rt.alloc()).is_empty() && are_pairs_looked_up(&pairs, &same);
        let walked = pairs.iter_mut().size_hint() == (3, Some(3));
        famine.expect(&rt, found && walked, "new, look-ups, iter_mut");
        let none = is_none_removed(&mut pairs);
        famine.expect(&rt, none, "remove_all of a key that isn't there");
        let removed = pairs.remove("k").is_some();
        famine.expect(&rt, removed, "remove");
        let walked = pairs.into_iter().size_hint() == (2, Some(2));
        famine.expect(&rt, walked, "into_iter");
    }
}

/// Texts under texts.
type Map = Multimap<String, String>;

// Two pairs of k, one of j.
fn texts(rt: &(impl Abort + AllocGlobal)) -> Map {
    let mut map = Multimap::new(rt.alloc());
    for (key, value) in [("k", "1"), ("j", "3"), ("k", "2")] {
        assert!(rt; map.append(text(rt, key), text(rt, value)).is_ok());
    }
    map
}

// `len_pairs`, `len_keys`, `is_empty`, `get`, `get_all`, `keys`, `iter`.
fn are_texts_looked_up(map: &Map) -> bool {
    let counted = map.len_pairs() == 3 && map.len_keys() == 2 && !map.is_empty();
    let found = match map.get("k") {
        Some(value) => value.as_str() == "1",
        None => false,
    };
    let listed = map.get_all("k").count() == 2 && map.keys().count() == 2;
    counted && found && listed && map.iter().size_hint() == (3, Some(3))
}

// `get_mut`, `get_nth_mut`, `get_last_mut`, `get_all_mut`, `iter_mut`.
fn are_texts_lent(map: &mut Map) -> bool {
    let first = map.get_mut("k").is_some();
    let second = map.get_nth_mut("k", 1).is_some();
    let last = map.get_last_mut().is_some();
    let all = map.get_all_mut("k").count() == 2;
    first && second && last && all && map.iter_mut().size_hint() == (3, Some(3))
}

// Removals: `remove_all` of a key that isn't there, `remove`.
fn is_one_left(map: &mut Map) -> bool {
    let none = map.remove_all("z").is_ok();
    let removed = map.remove("k").is_some();
    none && removed && map.len_pairs() == 1
}

#[test]
fn calls_of_a_multimap(rt: HostRuntime) {
    for free in FREE {
        let (mut map, other) = (texts(&rt), texts(&rt));
        let (key, value) = (text(&rt, "k"), text(&rt, "v"));
        let mut famine = Famine::leaving(&rt, free);
        let none: Map = Multimap::new(rt.alloc());
        let found = none.is_empty() && are_texts_looked_up(&map) && are_texts_lent(&mut map);
        famine.expect(&rt, found, "new, look-ups, look-ups for writing");
        let inserted = map.insert(key, value).is_ok();
        famine.expect(&rt, inserted, "insert of a key that is there");
        famine.expect(&rt, is_one_left(&mut map), "remove_all, remove");
        map.clear();
        famine.expect(&rt, map.is_empty(), "clear");
        let walked = other.into_iter().size_hint() == (3, Some(3));
        famine.expect(&rt, walked, "into_iter");
    }
}

// Writes the document by each form, and texts, one escaped and one as it is.
fn is_written(document: &Ini, writer: &mut &mut [u8]) -> bool {
    let policy = EscapePolicy::Everything;
    let written = document.write_to(writer).is_ok();
    let by_policy = document.write_to_policy(writer, policy).is_ok();
    let by_option = document
        .write_to_opt(writer, WriteOption::default())
        .is_ok();
    let watched = document.write_watched(&mut Watched::new(writer), WriteOption::default());
    let escaped = write_escaped("\u{e9}", policy, &mut Watched::new(writer)).is_ok();
    let raw = write_raw("!", &mut Watched::new(writer)).is_ok();
    written && by_policy && by_option && watched.is_ok() && escaped && raw
}

#[test]
fn writing(rt: HostRuntime) {
    let document = loaded(&rt, "k=\u{e9}\n");
    for free in FREE {
        let mut famine = Famine::leaving(&rt, free);
        let mut place = [0u8; 64];
        let mut writer: &mut [u8] = &mut place;
        famine.expect(&rt, is_written(&document, &mut writer), "writing");
        let want = "k=é\nk=\\x00e9\nk=é\nk=é\n\\x00e9!";
        assert!(rt; place.starts_with(want.as_bytes()), "what was written");
    }
}

// Whether the fault after the line's second column is reported.
fn is_refused(parser: &mut Parser<'_>) -> bool {
    match parser.next_item() {
        Err(Error::Parse(fault)) => {
            fault.kind == ParseKind::InlineComment && (fault.line, fault.col) == (1, 3)
        }
        _ => false,
    }
}

#[test]
fn refusals_of_a_text(rt: HostRuntime) {
    for free in FREE {
        let mut famine = Famine::leaving(&rt, free);
        let mut parser = Parser::new(rt.alloc(), "\u{B}#", ParseOption::default());
        let mut refused = true;
        for _ in 0..3 {
            refused = is_refused(&mut parser) && refused;
        }
        famine.expect(&rt, refused, "Parser::new, next_item of a refused text");
    }
}

/// The text of a view that the calls are made on.
const VIEWED: &'static str = "g=0\n[p]\nk=1\nk=\"2\"\nj=3\n[q]\n[p]\nk=4\n";

// `len`, `is_empty`, `section`, `get_from`, `get_from_or`, `sections`, `iter`; of each section `is_empty`,
// `get_all`, `iter`.
fn is_view_looked_up(view: &View<'_>) -> bool {
    let counted = view.len() == 3 && !view.is_empty() && view.sections().count() == 3;
    let there = view.get_from(P, "k") == Some("1") && view.get_from_or(P, "z", "d") == "d";
    let mut as_expected = counted && there && view.iter().size_hint() == (4, Some(4));
    match view.section(P) {
        Some(section) => {
            as_expected = as_expected && section.len() == 2 && section.contains_key("j");
        }
        None => return false,
    }
    for (name, section) in view {
        as_expected = as_expected && section.is_empty() == (name == Some("q"));
        for (key, value) in section {
            as_expected = as_expected && section.get_all(key).count() > 0 && !value.is_empty();
        }
    }
    as_expected
}

#[test]
fn look_ups_and_walks_of_views(rt: HostRuntime) {
    for free in FREE {
        let view = View::load_from_str(rt.alloc(), VIEWED).expect(&rt, "a view");
        let mut famine = Famine::leaving(&rt, free);
        famine.expect(&rt, is_view_looked_up(&view), "look-ups and walks of views");
    }
}
