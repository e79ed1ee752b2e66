//! What a parser skips between items, and what it leaves.
use crate::tests::text_edits::show::options_of;
use ini_text::{Error, Item, Parser};
use std::alloc::Global;

/// The letters of the options, a text, and what is left of it after white space and comments at its front.
const LEFT: [(&'static str, &'static str, &'static str); 18] = [
    ("qe", "; a\n# b\n\n \t\r\n\u{B}\r\nk=v\n", "k=v\n"),
    ("qe", "; a\n\n", ""),
    ("qe", "[a]", "[a]"),
    ("qe", "", ""),
    // a comment that the text's end cuts short may go on
    ("qe", "; a\n; b", "; b"),
    // blanks at the start of a line belong to what follows
    ("qe", "\n  k=v", "  k=v"),
    ("qe", "\n  [a]", "  [a]"),
    ("qe", "\n  ", "  "),
    // a comment that isn't in column one is refused
    ("qe", "\n\r; a\n", "; a\n"),
    ("qec", "; a\n  ; b\r\n\t# c\r; d\r  k=v", "  k=v"),
    (
        "qe",
        "; a\n  ; b\r\n\t# c\r; d\r  k=v",
        "  ; b\r\n\t# c\r; d\r  k=v",
    ),
    ("qec", "\n  ; a", "  ; a"),
    ("qec", "\r; a", "; a"),
    ("qec", "\n  \\; a\n", "  \\; a\n"),
    ("qen", "; a\n\u{B}; b\r\n\r# c\r\u{A0}#\n k=v", " k=v"),
    (
        "qe",
        "; a\n\u{B}; b\r\n\r# c\r\u{A0}#\n k=v",
        "; b\r\n\r# c\r\u{A0}#\n k=v",
    ),
    ("qen", "\n  ; a\n", "  ; a\n"),
    ("qen", "\u{B}; a", "; a"),
];

#[test]
fn what_can_not_change_any_more_is_skipped(rt: HostRuntime) {
    for (letters, text, left) in LEFT {
        let mut parser = Parser::new(rt.alloc(), text, options_of(letters));
        parser.skip_trivia();
        assert!(rt; parser.rest() == left, "{text}");
    }
}

// The key of the next item, if it is a pair.
fn next_key(parser: &mut Parser<'_>) -> Result<Option<String>, Error> {
    match parser.next_item()? {
        Some(Item::Pair(key, _)) => Ok(Some(key)),
        _ => Ok(None),
    }
}

// Skipped before, between and after items, it is all the same.
fn keys(alloc: Global) -> Result<bool, Error> {
    let mut parser = Parser::new(alloc, "; a\nk=v\n; b\n\nj=w\n\n", options_of("qe"));
    parser.skip_trivia();
    let first = next_key(&mut parser)?;
    parser.skip_trivia();
    parser.skip_trivia();
    let is_at_second = parser.rest() == "j=w\n\n";
    let second = next_key(&mut parser)?;
    parser.skip_trivia();
    let Some(first) = first else { return Ok(false) };
    let Some(second) = second else {
        return Ok(false)
    };
    Ok(first.as_str() == "k" && is_at_second && second.as_str() == "j" && parser.rest().is_empty())
}

#[test]
fn trivia_between_items(rt: HostRuntime) {
    assert!(rt; matches!(keys(rt.alloc()), Ok(true)));
}
