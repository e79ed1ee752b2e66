//! Readers that fail at each of their calls: what each form of reading answers.
use crate::devices::{READ_FAULTS, StepReader};
use crate::show::{expect, expect_shown, multiline};
use ini::{Error, Ini, Watched};
use std::alloc::Global;
use std::io::ErrorKind;
use std::panic::Expect;
use std::process::Abort;

/// The forms of reading. The watched ones drop a mark or keep it.
#[derive(Clone, Copy)]
enum Form {
    ReadFrom,
    Noescape,
    Opt,
    Bom,
    Watched(bool),
}

impl Form {
    /// Reads the device, with lines that go on where the form takes options.
    fn read(self, alloc: Global, device: &mut StepReader<'_>) -> Result<Ini, Error> {
        match self {
            Form::ReadFrom => Ini::read_from(alloc, device),
            Form::Noescape => Ini::read_from_noescape(alloc, device),
            Form::Opt => Ini::read_from_opt(alloc, device, multiline()),
            Form::Bom => Ini::read_from_bom(alloc, device, multiline()),
            Form::Watched(drop_mark) => read_watched(alloc, device, drop_mark),
        }
    }
}

// Where the answer is a fault, it must be counted once, and else none.
fn read_watched(alloc: Global, device: &mut StepReader<'_>, drop_mark: bool) -> Result<Ini, Error> {
    let mut reader = Watched::new(device);
    let answer = Ini::read_watched(alloc, &mut reader, multiline(), drop_mark);
    let faults = u64::from(matches!(&answer, Err(Error::Io(_))));
    if reader.failures() == faults && reader.stalls() == 0 {
        answer
    } else {
        Err(Error::NoProgress)
    }
}

/// A text with a mark, an escape and a line that goes on.
const MARKED: &'static str = "\u{FEFF}k=a\\tb\n  w\n";

/// What it is read as.
const READINGS: [(Form, &'static str); 6] = [
    (Form::ReadFrom, "general: <\u{FEFF}k|a\tb> "),
    (Form::Noescape, "general: <\u{FEFF}k|a\\tb> "),
    (Form::Opt, "general: <\u{FEFF}k|a\tb\nw> "),
    (Form::Bom, "general: <k|a\tb\nw> "),
    (Form::Watched(true), "general: <k|a\tb\nw> "),
    (Form::Watched(false), "general: <\u{FEFF}k|a\tb\nw> "),
];

/// A text whose values go on over lines, some of them empty.
pub(crate) const CONTINUED: &'static str = "\n[Foo]\nbar =\n    u\n    v\n\n\
    baz = w\n  x # intentional trailing whitespace below\n   y \n\n z #2\nbla = a\n";

/// What it loads as.
pub(crate) const CONTINUED_SHOWN: &'static str =
    "general: [Foo]: <bar|u\nv> <baz|w\nx # intentional trailing whitespace below\ny\n\nz #2> <bla|a> ";

// By one call for each byte and one after the last.
#[test]
fn each_form_asks_once_after_the_last_byte(rt: HostRuntime) {
    for (form, want) in READINGS {
        let mut device = StepReader::new(MARKED.as_bytes(), 1);
        let document = form.read(rt.alloc(), &mut device).expect(&rt, "a document");
        expect_shown(&rt, &document, want);
        let calls = MARKED.len().saturating_add(1);
        expect(&rt, device.calls == calls, want, device.calls);
    }
}

// Whether a fault at the call is reported as it is, and no call follows it.
fn is_reported(alloc: Global, form: Form, bytes: &[u8], call: usize, fault: ErrorKind) -> bool {
    let mut device = StepReader::failing(bytes, 1, call, fault);
    let answer = form.read(alloc, &mut device);
    let reported = match &answer {
        Err(Error::Io(reported)) => reported.kind() == fault,
        _ => false,
    };
    reported && device.calls == call
}

/// Asks that each form tells a fault after so many good calls as it is, and that no call follows it.
fn expect_faults(rt: &(impl Abort + AllocGlobal), bytes: &[u8], good_calls: usize) {
    let call = good_calls.saturating_add(1);
    for (form, want) in READINGS {
        for fault in READ_FAULTS {
            expect(
                rt,
                is_reported(rt.alloc(), form, bytes, call, fault),
                want,
                call,
            );
        }
    }
}

#[test]
fn each_form_fails_at_each_call(rt: HostRuntime) {
    for text in [MARKED, CONTINUED] {
        for good_calls in 0..=text.len() {
            expect_faults(&rt, text.as_bytes(), good_calls);
        }
    }
    // before what was read is reported
    let rows: [&'static [u8]; 5] = [b"\xC3", b"\xEF\xBB", b"=v", b"[p", b""];
    for bytes in rows {
        expect_faults(&rt, bytes, bytes.len());
    }
}

#[test]
fn what_a_slow_reader_gives_has_a_general_section(rt: HostRuntime) {
    let mut device = StepReader::new(b"k=v\n[p]\n", 1);
    let document = Ini::read_from(rt.alloc(), &mut device).expect(&rt, "a document");
    assert!(rt; document.general_section().get("k") == Some("v"));
}
