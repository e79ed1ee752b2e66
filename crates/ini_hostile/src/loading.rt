//! Each request for memory of loading refused in turn: of a text, of a reader's bytes, of a view and of its
//! copy. And what lines without separator are read as, however many bytes a call gives.
use crate::devices::{StepReader, is_quiet};
use crate::reading::{CONTINUED, CONTINUED_SHOWN};
use crate::scarce::{Attempt, Famine, refusals};
use crate::show::{Want, all_on, expect, loaded, multiline};
use ini::{Error, Ini, ParseKind, ParseOption, Watched};
use ini_text::{LoneLine, Parser};
use ini_view::View;
use std::alloc::Global;
use std::process::Abort;

/// A text with each production of the grammar in it, where every option is on.
const EACH: &'static str = "; comment\n# other\r\n \t# third\r;fourth\n\
    x=0\t; note\r[a]] #\n  key = \"q\" rest ;\\\n  more\n\t; less\r\n\n  \"w\" #\n\
    k\\x0041=v\\n\n\n[]\n\tz : 1\n \n[b]\n  tail";

/// What it loads as.
const EACH_SHOWN: &'static str =
    "general: <x|0> [a]]: <  key|q rest\nmore\n\nw> <kA|v> []: <\tz|1> [b]: ";

/// A section of so many pairs has an index.
const MANY_PAIRS: &'static str =
    "a=1\nb=2\nc=3\nd=4\ne=5\nf=6\ng=7\nh=8\ni=9\na=10\nb=11\nc=12\nd=13\ne=14\nf=15\ng=16\n\
    h=17\ni=18\nj=19\n[s]\nk=20";

/// What they load as.
const MANY_PAIRS_SHOWN: &'static str =
    "general: <a|1> <b|2> <c|3> <d|4> <e|5> <f|6> <g|7> <h|8> <i|9> \
    <a|10> <b|11> <c|12> <d|13> <e|14> <f|15> <g|16> <h|17> <i|18> <j|19> [s]: <k|20> ";

/// A document of so many sections has an index.
const MANY_SECTIONS: &'static str =
    "[a]\n[b]\n[c]\n[d]\n[e]\n[f]\n[g]\n[h]\n[i]\n[a]\n[b]\n[c]\n[d]\n[e]\n[f]\n[g]\n[h]\nk=v";

/// What they load as.
const MANY_SECTIONS_SHOWN: &'static str = "general: [a]: [b]: [c]: [d]: [e]: [f]: [g]: [h]: [i]: \
    [a]: [b]: [c]: [d]: [e]: [f]: [g]: [h]: <k|v> ";

/// The ways to load.
#[derive(Clone, Copy)]
enum Way {
    Load,
    View,
    Copy,
    Read,
}

/// The names of the ways.
const WAYS: [(Way, &'static str); 4] = [
    (Way::Load, "load"),
    (Way::View, "view"),
    (Way::Copy, "copy"),
    (Way::Read, "read"),
];

// Reads what a device gives byte by byte, which counts no fault.
fn read(alloc: Global, text: &str, opt: ParseOption) -> Result<Ini, Error> {
    let mut device = StepReader::new(text.as_bytes(), 1);
    let mut reader = Watched::new(&mut device);
    let answer = Ini::read_watched(alloc, &mut reader, opt, true);
    if is_quiet(&reader) {
        answer
    } else {
        Err(Error::NoProgress)
    }
}

// Loads a view, and copies it where that is asked for.
fn view(alloc: Global, text: &str, opt: ParseOption, copies: bool) -> Result<Option<Ini>, Error> {
    let view = match View::load_from_str_opt(alloc, text, opt) {
        Ok(view) => view,
        Err(refused) => return Err(refused),
    };
    if !copies {
        return Ok(None);
    }
    match view.to_ini(alloc) {
        Ok(document) => Ok(Some(document)),
        Err(refused) => Err(refused),
    }
}

/// A text that is loaded.
#[derive(Drop)]
struct Loading<'a> {
    way: Way,
    text: &'a str,
    opt: ParseOption,
    /// What it is loaded as. A view alone isn't shown.
    want: Want<'a>,
    answer: Option<Result<Ini, Error>>,
}

impl Loading<'_> {
    // Loads the text; none is a view alone.
    fn load(&self, alloc: Global) -> Result<Option<Ini>, Error> {
        let answer = match self.way {
            Way::Load => Ini::load_from_str_opt(alloc, self.text, self.opt),
            Way::Read => read(alloc, self.text, self.opt),
            Way::View => return view(alloc, self.text, self.opt, false),
            Way::Copy => return view(alloc, self.text, self.opt, true),
        };
        match answer {
            Ok(document) => Ok(Some(document)),
            Err(refused) => Err(refused),
        }
    }

    // Whether the answer is the one that is wanted.
    fn is_as_wanted(&self, alloc: Global) -> bool {
        match &self.answer {
            Some(answer) => self.want.is(alloc, answer),
            None => matches!((self.way, self.want), (Way::View, Want::Shown(_))),
        }
    }
}

impl Attempt for Loading<'_> {
    fn is_ready(&mut self, _alloc: Global) -> bool {
        self.answer.is_none()
    }

    fn make(&mut self, alloc: Global) -> Result<(), Error> {
        match self.load(alloc) {
            Ok(Some(document)) => self.answer = Some(Ok(document)),
            Ok(None) => {}
            Err(Error::Memory(refused)) => return Err(Error::Memory(refused)),
            Err(fault) => self.answer = Some(Err(fault)),
        }
        Ok(())
    }
}

/// Asks that the text is loaded so in the first so many ways, each of whose requests for memory is refused
/// before.
fn expect_loading(
    rt: &(impl Abort + AllocGlobal),
    (text, ways, opt, want): (&str, usize, ParseOption, Want<'_>),
) {
    let mut before = 0;
    for (_, (way, of)) in (0..ways).zip(WAYS) {
        let mut loading = Loading {
            way,
            text,
            opt,
            want,
            answer: None,
        };
        let refused = refusals(rt, of, 1, &mut loading);
        // a copy takes memory too, after its view
        let least = if matches!((way, want), (Way::Copy, Want::Shown(_))) {
            before
        } else {
            0
        };
        let held = refused > least && loading.is_as_wanted(rt.alloc());
        expect(rt, held, of, text.len());
        before = refused;
    }
}

#[test]
fn each_request_of_loading_is_refused(rt: HostRuntime) {
    let all = all_on(LoneLine::RunsOn);
    let raw = ParseOption {
        enabled_escape: false,
        ..all
    };
    let refused = all_on(LoneLine::Refused);
    for row in [
        (EACH, 4, all, Want::Shown(EACH_SHOWN)),
        (CONTINUED, 3, multiline(), Want::Shown(CONTINUED_SHOWN)),
        (
            "p = \"C:\\\" x\\\nk\\=v\n",
            1,
            raw,
            Want::Shown("general: <p|C:\\ x\\> <k\\|v> "),
        ),
        (
            "  a long key that keeps its blanks = 1\n[a]\nk\\x0041\\\n that goes on=v\n\n\n",
            1,
            refused,
            Want::Shown(
                "general: <  a long key that keeps its blanks|1> [a]: <kA that goes on|v> ",
            ),
        ),
        (
            "  a long key that keeps its blanks\n[a]\nk\\x0041\\\n that goes on\r\n  more",
            1,
            all_on(LoneLine::Key),
            Want::Shown(
                "general: <  a long key that keeps its blanks|> [a]: <kA that goes on|> <  more|> ",
            ),
        ),
    ] {
        expect_loading(&rt, row);
    }
}

#[test]
fn a_refused_text_is_reported_where_memory_is_enough(rt: HostRuntime) {
    let refused = all_on(LoneLine::Refused);
    for row in [
        (
            "key=value\n=v",
            2,
            ParseOption::default(),
            Want::Refused(2, 2, ParseKind::MissingKey),
        ),
        (
            "key=value\nk\\x0041\\\n that goes on\n",
            1,
            refused,
            Want::Refused(4, 1, ParseKind::NoSeparator),
        ),
    ] {
        expect_loading(&rt, row);
    }
}

/// What is found in documents that have an index, by section and key.
const FOUND: [(
    &'static str,
    Option<&'static str>,
    &'static str,
    Option<&'static str>,
); 4] = [
    (MANY_PAIRS, None, "j", Some("19")),
    (MANY_PAIRS, None, "h", Some("8")),
    (MANY_PAIRS, Some("s"), "k", Some("20")),
    (MANY_SECTIONS, Some("h"), "k", None),
];

#[test]
fn each_request_of_loading_an_index_is_refused(rt: HostRuntime) {
    let all = all_on(LoneLine::RunsOn);
    for row in [
        (MANY_PAIRS, 3, all, Want::Shown(MANY_PAIRS_SHOWN)),
        (MANY_SECTIONS, 3, all, Want::Shown(MANY_SECTIONS_SHOWN)),
    ] {
        expect_loading(&rt, row);
    }
    for (text, name, key, want) in FOUND {
        let document = loaded(&rt, text);
        assert!(rt; document.get_from(name, key) == want, "{key}");
    }
    let document = loaded(&rt, MANY_SECTIONS);
    let found = document.section(Some("i")).is_some() && document.section(Some("j")).is_none();
    assert!(rt; found);
}

/// Lines without separator, and what they are read as: refused where such lines are, else as keys alone.
const LINES: [(&'static str, Want<'static>); 11] = [
    ("k=v\nabc\nj=w", Want::Refused(3, 1, ParseKind::NoSeparator)),
    (
        "k=v ; n\nab ; c\nj=w",
        Want::Refused(2, 5, ParseKind::NoSeparator),
    ),
    (
        "\u{e9}\u{1f431}\r\nk=v",
        Want::Refused(1, 4, ParseKind::NoSeparator),
    ),
    (
        "[a]\n\ta\\\nb\rk=v",
        Want::Refused(3, 3, ParseKind::NoSeparator),
    ),
    ("[a]\n\n  abc", Want::Refused(3, 6, ParseKind::EndOfText)),
    (
        "k=v\n\n=w\nabc\n",
        Want::Refused(3, 2, ParseKind::MissingKey),
    ),
    (
        "k\t# n\r[a] ;\r\nj=v ; \u{e9}\n  w",
        Want::Shown("general: <k|> [a]: <j|v\nw> "),
    ),
    ("k=v\nabc\nj=w", Want::Shown("general: <k|v> <abc|> <j|w> ")),
    (
        "\u{e9}\u{1f431}\r\nk=v",
        Want::Shown("general: <\u{e9}\u{1f431}|> <k|v> "),
    ),
    (
        "[a]\n\ta\\\nb\rk",
        Want::Shown("general: [a]: <\tab|> <k|> "),
    ),
    ("k\n\n\r  abc\\", Want::Shown("general: <k|> <  abc\\|> ")),
];

/// Asks that the bytes are read so by calls that give so many.
pub(crate) fn expect_read(
    rt: &(impl Abort + AllocGlobal),
    (bytes, opt, drop_mark): (&[u8], ParseOption, bool),
    step: usize,
    want: Want<'_>,
) {
    let mut device = StepReader::new(bytes, step);
    let answer = Ini::read_watched(rt.alloc(), &mut Watched::new(&mut device), opt, drop_mark);
    expect(rt, want.is(rt.alloc(), &answer), "bytes of a call", step);
}

#[test]
fn lines_are_read_however_many_bytes_a_call_gives(rt: HostRuntime) {
    for (text, want) in LINES {
        let lone = match want {
            Want::Refused(..) => LoneLine::Refused,
            Want::Shown(_) => LoneLine::Key,
        };
        for step in 1..text.len().saturating_add(1) {
            expect_read(&rt, (text.as_bytes(), all_on(lone), true), step, want);
        }
    }
}

// Whether the next item is refused when out of memory.
fn wants_memory(parser: &mut Parser<'_>) -> bool {
    matches!(parser.next_item(), Err(Error::Memory(_)))
}

#[test]
fn out_of_memory_is_reported_from_then_on(rt: HostRuntime) {
    let famine = Famine::leaving(&rt, 0);
    let mut parser = Parser::new(rt.alloc(), "key=value\n", ParseOption::default());
    assert!(rt; wants_memory(&mut parser));
    drop(famine);
    for _ in 0..3 {
        assert!(rt; wants_memory(&mut parser));
    }
}
