//! Texts longer than two reads: what is read of them from a device, beside what loading the same text gives
//! or what follows from how the text was made.
use crate::devices::{READ_FAULTS, StepReader};
use crate::loading::expect_read;
use crate::show::{Want, all_on, expect, joined, multiline, numbered, shown};
use ini::{Error, Ini, ParseKind, ParseOption, Watched};
use ini_text::LoneLine;
use std::alloc::Global;
use std::io::ErrorKind;
use std::panic::Expect;
use std::process::Abort;

/// How many bytes reading asks for at a time.
const PIECE: usize = 0x1_0000;

/// How many bytes a reader gives at most in a call: all that it is asked for, some, one.
const STEPS: [usize; 3] = [usize::MAX, 4093, 1];

/// Asks that the text, which is longer than two reads, is read so, however many bytes a call gives, and where
/// no mark is dropped is loaded so.
fn expect_reads(
    rt: &(impl Abort + AllocGlobal),
    (text, opt, drop_mark): (&str, ParseOption, bool),
    want: Want<'_>,
) {
    let loaded = Ini::load_from_str_opt(rt.alloc(), text, opt);
    let same = drop_mark || want.is(rt.alloc(), &loaded);
    expect(rt, same && text.len() > 2 * PIECE, "bytes", text.len());
    for step in STEPS {
        expect_read(rt, (text.as_bytes(), opt, drop_mark), step, want);
    }
}

/// Front and end of a text, and what stands between them some times over.
type Parts<'a> = (&'a str, &'a str, &'a str);

/// A pair that may follow a text.
const FOLLOWING: &'static str = "key=value\n";

// The text in which the middle stands so often, and so many pairs that follow it.
fn long(
    rt: &(impl Abort + AllocGlobal),
    (front, middle, end): Parts<'_>,
    (times, pairs): (usize, usize),
) -> String {
    let middle = middle.repeat(rt.alloc(), times).expect(rt, "memory");
    let following = FOLLOWING.repeat(rt.alloc(), pairs).expect(rt, "memory");
    joined(rt, &[front, middle.as_str(), end, following.as_str()])
}

// Asks that the text is read so, where the middle stands so often.
fn expect_whole(
    rt: &(impl Abort + AllocGlobal),
    (written, times, opt, wanted): (Parts<'_>, usize, ParseOption, Parts<'_>),
) {
    let text = long(rt, written, (times, 0));
    let want = long(rt, wanted, (times, 0));
    expect_reads(rt, (&text, opt, false), Want::Shown(&want));
}

/// A pair before a value, and one that follows it.
const VALUE: (&'static str, &'static str) = ("general: <a|1> [p]: <k|", "> <j|2> ");

#[test]
fn a_value_longer_than_two_reads_is_whole(rt: HostRuntime) {
    let (opt, lines) = (ParseOption::default(), multiline());
    let (shown, more) = VALUE;
    let digits = "0123456789";
    let quoted = "[q]\nx=w\n; \n=\n";
    for row in [
        (
            ("a=1\n[p]\nk=\"", digits, "\"\nj=2\n"),
            15_000,
            opt,
            (shown, digits, more),
        ),
        (
            ("a=1\n[p]\nk=\"", quoted, "\"\nj=2\n"),
            15_000,
            opt,
            (shown, quoted, more),
        ),
        (
            ("a=1\n[p]\nk=", "first\r\n  x = w\n\n\t[q]\n ", "end\nj=2\n"),
            8_000,
            lines,
            (shown, "first\nx = w\n\n[q]\n", "end> <j|2> "),
        ),
    ] {
        expect_whole(&rt, row);
    }
}

/// Notes and indented comments between a front and an end, and what is read.
const NOTES: [(&'static str, &'static str, &'static str); 10] = [
    ("\t;", "\nk=v", "general: <k|v> "),
    ("\t;", "\r\nk=v", "general: <k|v> "),
    ("\t;", "\rk=v", "general: <k|v> "),
    ("k=a\n\t;", "\n b", "general: <k|a\nb> "),
    ("k=a\n\t;", "\r\n b", "general: <k|a\nb> "),
    ("k=a\n\t;", "\r b", "general: <k|a\nb> "),
    ("k=v\t;", "\nj=w", "general: <k|v> <j|w> "),
    ("[a]\t;", "\r\nk=v", "general: [a]: <k|v> "),
    ("k=a\t;", "\r b", "general: <k|a\nb> "),
    ("k='a ;b'\t;", "", "general: <k|a ;b> "),
];

#[test]
fn a_comment_longer_than_two_reads_gives_nothing(rt: HostRuntime) {
    let all = all_on(LoneLine::RunsOn);
    for (front, end, want) in NOTES {
        expect_whole(&rt, ((front, "é", end), 75_000, all, (want, "", "")));
    }
    let alone = all_on(LoneLine::Key);
    let want = "general: <k|> <j|> ";
    expect_whole(&rt, (("k\t;", "é", "\rj"), 75_000, alone, (want, "", "")));
}

/// Keys alone between a front and an end, and what is read around them.
const KEYS: [((&'static str, &'static str), (&'static str, &'static str)); 4] = [
    (("\n", "\nk=v"), ("general: <", "|> <k|v> ")),
    (("\n", "\r\n\r\nk=v"), ("general: <", "|> <k|v> ")),
    (("\n", "\rk=v"), ("general: <", "|> <k|v> ")),
    (("k=v\n  ; c\n", ""), ("general: <k|v> <", "|> ")),
];

#[test]
fn a_key_alone_longer_than_two_reads_is_whole(rt: HostRuntime) {
    let alone = all_on(LoneLine::Key);
    for ((front, end), (before, after)) in KEYS {
        expect_whole(
            &rt,
            ((front, "é", end), 75_000, alone, (before, "é", after)),
        );
    }
}

/// Pairs of each kind of value and lines that may go on, in sections.
const SECTIONS: &'static str = "; comment @\n[section @]\n\tkept = @ ; note\n\
    k: \"quoted\n@\" rest\n# other\r\nescaped=\\x0041\\\n@\n  more = @\n\
    \t; less = @\n\n   \n[a[@]]\nlast=''\r\n";

// Fifteen hundred times those two sections, all numbered.
fn sections(rt: &(impl Abort + AllocGlobal)) -> String {
    numbered(rt, SECTIONS, 0, 1500)
}

// What the text loads as.
fn loaded_shown(rt: &(impl Abort + AllocGlobal), text: &str, opt: ParseOption) -> String {
    let document = Ini::load_from_str_opt(rt.alloc(), text, opt).expect(rt, "a document");
    shown(rt.alloc(), &document).expect(rt, "memory")
}

// Whether the general section, two for each number and the last of them are there.
fn has_sections(answer: &Result<Ini, Error>) -> bool {
    match answer {
        Ok(document) => {
            let last = document.get_from(Some("section 1499"), "more");
            document.len() == 3001 && last == Some("1499")
        }
        Err(_) => false,
    }
}

#[test]
fn sections_are_read_as_they_are_loaded(rt: HostRuntime) {
    let text = sections(&rt);
    for opt in [
        ParseOption::default(),
        multiline(),
        all_on(LoneLine::RunsOn),
        all_on(LoneLine::Refused),
        all_on(LoneLine::Key),
    ] {
        let want = loaded_shown(&rt, &text, opt);
        expect_reads(&rt, (&text, opt, false), Want::Shown(&want));
    }
    for step in STEPS {
        let (answer, _) = read_failing(rt.alloc(), text.as_bytes(), (step, 0), ErrorKind::Other);
        expect(&rt, has_sections(&answer), "sections", step);
    }
}

#[test]
fn a_mark_before_a_long_text_is_dropped_or_text(rt: HostRuntime) {
    let opt = ParseOption::default();
    let body = sections(&rt);
    let text = joined(&rt, &["k=v\n", body.as_str()]);
    let marked = joined(&rt, &["\u{FEFF}", text.as_str()]);
    let unmarked = loaded_shown(&rt, &text, opt);
    let kept = loaded_shown(&rt, &marked, opt);
    assert!(rt; unmarked.starts_with("general: <k|v> [section 0]: "));
    assert!(rt; kept.starts_with("general: <\u{FEFF}k|v> [section 0]: "));
    expect_reads(&rt, (&marked, opt, true), Want::Shown(&unmarked));
    expect_reads(&rt, (&text, opt, true), Want::Shown(&unmarked));
    expect_reads(&rt, (&marked, opt, false), Want::Shown(&kept));
}

// Whether a character stands across the place.
fn is_cut(text: &str, place: usize) -> bool {
    match text.as_bytes().get(place) {
        Some(byte) => byte & 0xC0 == 0x80,
        None => false,
    }
}

/// Comments whose lengths differ by one, so that what is after them is shifted.
const FRONTS: [&'static str; 4] = [";\n", ";x\n", ";xx\n", ";xxx\n"];

/// Asks that so many pairs of so many such characters are read whole after each front, and that each cut
/// within the character comes at the ends of the first two reads.
fn expect_characters(
    rt: &(impl Abort + AllocGlobal),
    character: &str,
    (length, pairs): (usize, usize),
) {
    let pair = long(rt, ("k=", character, "\n"), (length, 0));
    let want = long(rt, ("<k|", character, "> "), (length, 0));
    let want = long(rt, ("general: ", &want, ""), (pairs, 0));
    let mut cuts = (0usize, 0usize);
    for front in FRONTS {
        let text = long(rt, (front, &pair, ""), (pairs, 0));
        cuts.0 = cuts.0.saturating_add(usize::from(is_cut(&text, PIECE)));
        cuts.1 = cuts.1.saturating_add(usize::from(is_cut(&text, 2 * PIECE)));
        expect_reads(
            rt,
            (&text, ParseOption::default(), false),
            Want::Shown(&want),
        );
    }
    let least = character.len().saturating_sub(1);
    expect(rt, cuts.0 >= least && cuts.1 >= least, character, cuts.0);
}

#[test]
fn characters_across_the_ends_of_reads_are_whole(rt: HostRuntime) {
    for character in ["é", "€", "🐱"] {
        for counts in [(75_000, 1), (21, 3_400)] {
            expect_characters(&rt, character, counts);
        }
    }
}

// Asks that the text is refused so, where the middle and following pairs stand so often.
fn expect_refusal(
    rt: &(impl Abort + AllocGlobal),
    parts: Parts<'_>,
    counts: (usize, usize),
    opt: ParseOption,
    (line, col, kind): (usize, usize, ParseKind),
) {
    let text = long(rt, parts, counts);
    expect_reads(rt, (&text, opt, false), Want::Refused(line, col, kind));
}

/// What is refused at the end of a text, column and kind, and how many pairs follow.
const REFUSED: [(&'static str, usize, ParseKind, usize); 4] = [
    ("=v\n", 2, ParseKind::MissingKey, 7_000),
    ("[é] # c\n", 6, ParseKind::InlineComment, 7_000),
    ("k=\\x00g1\n", 9, ParseKind::UnknownCharacter, 7_000),
    ("key", 4, ParseKind::EndOfText, 0),
];

#[test]
fn a_refusal_after_two_reads_is_reported_at_its_place(rt: HostRuntime) {
    let opt = ParseOption::default();
    for (end, col, kind, pairs) in REFUSED {
        // pairs of one line, and of two
        let place = (15_001, col, kind);
        expect_refusal(&rt, ("", FOLLOWING, end), (15_000, pairs), opt, place);
        let place = (30_001, col, kind);
        expect_refusal(
            &rt,
            ("", "key=\"a\nb\"\r\n", end),
            (15_000, pairs),
            opt,
            place,
        );
    }
    let place = (2, 75_004, ParseKind::MissingKey);
    expect_refusal(&rt, ("\n[", "é", "]=v\n"), (75_000, 0), opt, place);
}

#[test]
fn a_line_without_separator_is_reported_after_two_reads(rt: HostRuntime) {
    let opt = all_on(LoneLine::Refused);
    let place = (2, 75_004, ParseKind::NoSeparator);
    expect_refusal(&rt, ("\n  ", "é", "\r\nk=v"), (75_000, 0), opt, place);
    let place = (2, 75_003, ParseKind::EndOfText);
    expect_refusal(&rt, ("\n  ", "é", ""), (75_000, 0), opt, place);
    // across the end of a read
    for less in 5..11usize {
        for (end, line, col) in [("\nabc\n", 3, 1), ("\nabc\r\n", 2, 5)] {
            let place = (line, col, ParseKind::NoSeparator);
            let counts = (PIECE.saturating_sub(less), 7_000);
            expect_refusal(&rt, ("k=", "v", end), counts, opt, place);
        }
    }
}

/// How texts begin: some are refused there, one is never whole.
const BEGINNINGS: [&'static str; 4] = ["k=v\n", "=v\n", "[p] # c\n", "k=\""];

// The beginning, 150,000 bytes of pairs, and bytes after them.
fn long_bytes(rt: &(impl Abort + AllocGlobal), beginning: &str, end: &[u8]) -> Vec<u8> {
    let pairs = long(rt, (beginning, FOLLOWING, ""), (15_000, 0));
    let mut out = Vec::new(rt.alloc());
    for part in [pairs.as_bytes(), end] {
        out.extend_from_slice(part).expect(rt, "memory");
    }
    out
}

// What is read of the bytes, by calls that give so many of which one fails; and how many calls were made, if
// a fault is counted where it is reported, and else none.
fn read_failing(
    alloc: Global,
    bytes: &[u8],
    (step, call): (usize, usize),
    fault: ErrorKind,
) -> (Result<Ini, Error>, usize) {
    let mut device = StepReader::failing(bytes, step, call, fault);
    let mut reader = Watched::new(&mut device);
    let answer = Ini::read_watched(alloc, &mut reader, ParseOption::default(), false);
    let faults = u64::from(matches!(&answer, Err(Error::Io(_))));
    let counted = reader.failures() == faults && reader.stalls() == 0;
    let calls = if counted { device.calls } else { 0 };
    (answer, calls)
}

/// Calls after two reads, by how many bytes each gives.
const LATE_CALLS: [(usize, usize); 4] = [
    (usize::MAX, 3),
    (usize::MAX, 4),
    (4093, 36),
    (1, 140_000),
];

// A fault ends reading.
#[test]
fn a_fault_after_two_reads_is_reported(rt: HostRuntime) {
    for beginning in BEGINNINGS {
        let bytes = long_bytes(&rt, beginning, b"\xFF");
        for late in LATE_CALLS {
            for fault in READ_FAULTS {
                let (answer, calls) = read_failing(rt.alloc(), bytes.as_slice(), late, fault);
                let reported = matches!(&answer, Err(Error::Io(told)) if told.kind() == fault);
                expect(&rt, reported && calls == late.1, beginning, calls);
            }
        }
    }
}

#[test]
fn bytes_that_are_no_text_are_reported_before_a_refusal(rt: HostRuntime) {
    for beginning in BEGINNINGS {
        let ends: [&'static [u8]; 4] = [b"\xFF", b"\xC3", b"\xE2\x82\nk=v\n", b"k=\xF0\x9F\x90"];
        for end in ends {
            let bytes = long_bytes(&rt, beginning, end);
            for step in STEPS {
                let slow = (step, 0);
                let (answer, calls) = read_failing(
                    rt.alloc(),
                    bytes.as_slice(),
                    slow,
                    ErrorKind::Other,
                );
                let reported = matches!(answer, Err(Error::NotUtf8));
                expect(&rt, reported && calls > 0, beginning, step);
            }
        }
    }
}
