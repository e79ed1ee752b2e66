//! What stands in a text as it is read is borrowed from it, and the rest is owned.
use super::text_edits::show::options_of;
use ini_text::{BorrowedItem, ParseOption, Parser};
use std::alloc::Global;
use std::borrow::CowStr;

// Whether the first item of a text is borrowed: the name of a header, the key and the value of a pair.
fn is_borrowed(alloc: Global, text: &str, opt: ParseOption) -> bool {
    let mut parser = Parser::new(alloc, text, opt);
    match parser.next_borrowed() {
        Ok(Some(BorrowedItem::Header(CowStr::Borrowed(_)))) => true,
        Ok(Some(BorrowedItem::Pair(CowStr::Borrowed(_), CowStr::Borrowed(_)))) => true,
        _ => false,
    }
}

/// The letters of the options, a text, and whether its first item is borrowed.
const ITEMS: [(&'static str, &'static str, bool); 10] = [
    ("qe", "[ a ]", true),
    ("qeb", "[ a[0] ] \n", true),
    ("qe", "[a\\n]", false),
    ("qeb", "[a\\n]\n", false),
    ("qe", "k = v ", true),
    ("qem", "k = v ", true),
    ("qem", "k = v \n", true),
    ("qem", "k = v \r\nj = w\n", true),
    ("qem", "k = v\n w\n", false),
    ("qem", "k = 'v'\n", false),
];

#[test]
fn what_stands_as_it_is_read_is_borrowed(rt: HostRuntime) {
    for (letters, text, want) in ITEMS {
        let is_borrowed = is_borrowed(rt.alloc(), text, options_of(letters));
        assert!(rt; is_borrowed == want, "{text}");
    }
}
