//! Calls in a chain, forms that are printed, and the proved callers of `reloads`.
ghost use Rattle.std.specs.Prelude.{◌≡◌, chars, true};
ghost use Rattle.ini_text.specs.Laws.PlainLaws.{IsEmptyOrHeader};

use crate::reloads::{reload, reload_with};
use ini::{
    Error, EscapePolicy, Ini, LineSeparator, ParseOption, Properties, SectionSetter, WriteOption,
};
use ini_text::{
    has_byte_order_mark, is_blank, is_column_one, is_comment_mark, is_line_end, is_same_text,
    split_first, split_last, starts_line, text_bytes, without_byte_order_mark,
};
use std::alloc::Global;
use std::test::Fail;

// Whether a setter gets these values of a, b and c.
fn gets(setter: &SectionSetter<'_>, a: Option<&str>, b: Option<&str>, c: Option<&str>) -> bool {
    (setter.get("a"), setter.get("b"), setter.get("c")) == (a, b, c)
}

// What is set in a chain is there, the last value of each key; what is deleted is gone.
fn chain_of_one_section(document: &mut Ini) -> Result<bool, Error> {
    let setter = document.with_section(Some("section"));
    let setter = setter.set("a", "1")?.set("b", "2")?.set("c", "3")?;
    let first = gets(&setter, Some("1"), Some("2"), Some("3"));
    let setter = setter.set("a", "4")?.set("b", "5")?.set("c", "6")?;
    let second = gets(&setter, Some("4"), Some("5"), Some("6"));
    let setter = setter.delete("a").delete("b").delete("c");
    Ok(first && second && gets(&setter, None, None, None))
}

#[test]
fn section_setter_chain(rt: HostRuntime) -> Result<(), Fail> {
    let mut document = Ini::new(rt.alloc())?;
    assert!(rt; chain_of_one_section(&mut document)?);
    let setter = document.with_general_section().set("a", "7")?;
    assert!(rt; setter.delete("b").add("a", "8")?.get("a") == Some("7"));
    Ok(())
}

/// Three pairs of the general section, whose keys are in no order of letters.
const THREE: &'static str = "\nx2 = nc\nx1 = na\nx3 = nb\n";

// Whether the pair has this key and this value.
fn is_pair(pair: Option<(&str, &str)>, key: &str, value: &str) -> bool {
    pair == Some((key, value))
}

// Appends to each value its place, from 0.
fn number(section: &mut Properties) -> Result<(), Error> {
    for ((_, value), place) in section.iter_mut().zip("012".chars()) {
        value.push(place)?;
    }
    Ok(())
}

#[test]
fn iter_mut_preserve_order_in_section(rt: HostRuntime) -> Result<(), Fail> {
    let mut document = Ini::load_from_str(rt.alloc(), THREE)?;
    let section = document.section_mut(None).ok_or("no section")?;
    number(section)?;
    let mut pairs = section.iter();
    let is_first = is_pair(pairs.next(), "x2", "nc0");
    let is_second = is_pair(pairs.next(), "x1", "na1");
    let is_third = is_pair(pairs.next(), "x3", "nb2");
    assert!(rt; is_first && is_second && is_third && pairs.next().is_none());
    Ok(())
}

// Whether the pair that is handed out has this key and this value.
fn is_handed_out(pair: Option<(String, String)>, key: &str, value: &str) -> bool {
    match pair {
        Some((k, v)) => k.as_str() == key && v.as_str() == value,
        None => false,
    }
}

#[test]
fn preserve_order_properties_into_iter(rt: HostRuntime) -> Result<(), Fail> {
    let document = Ini::load_from_str(rt.alloc(), THREE)?;
    let (_, section) = document.into_iter().next().ok_or("no section")?;
    let mut pairs = section.into_iter();
    let is_first = is_handed_out(pairs.next(), "x2", "nc");
    let is_second = is_handed_out(pairs.next(), "x1", "na");
    let is_third = is_handed_out(pairs.next(), "x3", "nb");
    assert!(rt; is_first && is_second && is_third && pairs.next().is_none());
    Ok(())
}

/// A text for look-ups by bytes.
const BY_BYTES: &'static str = "k=v\n[ä]\nö=w\n";

/// A name and a key as bytes, the value that they find, and whether there is a section of the name.
const LOOK_UPS: [(
    Option<&'static [u8]>,
    &'static [u8],
    Option<&'static str>,
    bool,
); 7] = [
    (Some(b"\xc3\xa4"), b"\xc3\xb6", Some("w"), true),
    (Some(b"\xc3\xa4"), b"\xc3\xa4", None, true),
    (Some(b"\xc3\xa4"), b"\xc3", None, true),
    (Some(b"\xc3"), b"\xc3\xb6", None, false),
    (Some(b"\xc3\xb6"), b"k", None, false),
    (None, b"k", Some("v"), true),
    (None, b"\xc3\xb6", None, true),
];

// Bytes find what the text finds that they are; those that are no UTF-8 find nothing.
#[test]
fn look_ups_by_bytes(rt: HostRuntime) -> Result<(), Fail> {
    let document = Ini::load_from_str(rt.alloc(), BY_BYTES)?;
    for (name, key, want, is_there) in LOOK_UPS {
        let found = document.get_by_bytes(name, key) == want;
        let has_section = document.section_by_bytes(name).is_some();
        assert!(rt; found && has_section == is_there, "{key:?}");
    }
    Ok(())
}

/// A text, whether a line starts behind it, and whether that is in column one.
const FRONTS: [(&'static str, bool, bool); 4] = [
    ("", true, true),
    ("a\n", true, true),
    ("a\r", true, false),
    ("a", false, false),
];

/// A character, and whether it is a blank, a line end or a comment mark.
const CHARACTERS: [(char, bool, bool, bool); 6] = [
    ('\t', true, false, false),
    (' ', true, false, false),
    ('\n', false, true, false),
    ('\r', false, true, false),
    (';', false, false, true),
    ('k', false, false, false),
];

#[test]
fn parts_of_texts_are_known(rt: HostRuntime) {
    for (front, starts, is_at_column_one) in FRONTS {
        let is_known = starts_line(front) == starts && is_column_one(front) == is_at_column_one;
        assert!(rt; is_known, "{front}");
    }
    for (c, blank, line_end, comment_mark) in CHARACTERS {
        let is_known = (is_blank(c), is_line_end(c)) == (blank, line_end);
        assert!(rt; is_known && is_comment_mark(c) == comment_mark, "{c}");
    }
    assert!(rt; is_same_text("k", "k") && !is_same_text("k", "K"));
    assert!(rt; matches!(split_first("äb"), Some(('ä', "b"))) && split_first("").is_none());
    assert!(rt; matches!(split_last("bä"), Some(("b", 'ä'))) && split_last("").is_none());
}

#[test]
fn byte_order_marks_are_left_out(rt: HostRuntime) {
    let text = "\u{FEFF}k";
    let bytes = text.as_bytes();
    assert!(rt; has_byte_order_mark(bytes) && !has_byte_order_mark(b"\xEF\xBB".as_slice()));
    assert!(rt; text_bytes(bytes, true) == b"k".as_slice() && text_bytes(bytes, false) == bytes);
    assert!(rt; without_byte_order_mark(text) == "k" && without_byte_order_mark("k") == "k");
}

/// Line ends, and what each is.
const LINE_ENDS: [(LineSeparator, &'static str); 3] = [
    (LineSeparator::SystemDefault, "\n"),
    (LineSeparator::CR, "\n"),
    (LineSeparator::CRLF, "\r\n"),
];

#[test]
fn forms_that_are_printed_and_the_default(rt: HostRuntime) -> Result<(), Fail> {
    let alloc = rt.alloc();
    let shown = format!(in alloc; "{:?}{:?}", Ini::new(alloc)?, Properties::new(alloc))?;
    assert!(rt; shown.contains("Ini") && shown.contains("Properties"));
    for (separator, text) in LINE_ENDS {
        let printed = format!(in alloc; "{separator}")?;
        assert!(rt; separator.as_str() == text && printed.as_str() == text);
    }
    let default = WriteOption::default().clone()?;
    let is_basic = default.escape_policy == EscapePolicy::Basics && default.kv_separator == "=";
    assert!(rt; is_basic && default.line_separator == LineSeparator::SystemDefault);
    Ok(())
}

// Whether the document of a text is plain, and is written and loaded again with the value that it has.
fn is_reloaded(alloc: Global, text: &str) -> Result<bool, Error> {
    let (write, read) = (WriteOption::default(), ParseOption::default());
    let document = Ini::load_from_str(alloc, text)?;
    if document.general_section().len() != 1 || !document.is_plain(&write, read) {
        return Ok(false);
    }
    let back = reload(alloc, &document, write, read)?;
    Ok(back.get_from(Some("a"), "j") == Some("w"))
}

// Whether a text may stand after a document.
fn may_follow(text: &str) -> bool
    ensures { result ≡ true → IsEmptyOrHeader (chars text.now) }
{
    match text.chars().next() {
        Some(c) => c == '[',
        None => true,
    }
}

// Whether the document of a text is plain, and is loaded again with a section that stands after it.
fn is_reloaded_with(alloc: Global, text: &str, more: &str) -> Result<bool, Error> {
    let (write, read) = (WriteOption::default(), ParseOption::default());
    let document = Ini::load_from_str(alloc, text)?;
    if !may_follow(more) || !document.is_plain(&write, read) {
        return Ok(false);
    }
    let back = reload_with(alloc, &document, more, write, read)?;
    Ok(back.get_from(Some("a"), "j") == Some("w") && back.get_from(Some("b"), "k") == Some("v"))
}

#[test]
fn a_plain_document_is_reloaded(rt: HostRuntime) {
    let alloc = rt.alloc();
    assert!(rt; matches!(is_reloaded(alloc, "k=v\n[a]\nj=w\n"), Ok(true)));
    assert!(rt; matches!(is_reloaded_with(alloc, "[a]\nj=w\n", "[b]\nk=v"), Ok(true)));
    let mut empty = Ini::read_from(alloc, &mut b"".as_slice()).expect(&rt, "memory");
    assert!(rt; empty.general_section_mut().len() == 0);
}
