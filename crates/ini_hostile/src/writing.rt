//! Writers that fail at each of their calls or bytes: what each form of writing answers.
use crate::devices::{LimitedWriter, Limits, StepReader, WRITE_FAULTS, is_counted};
use crate::edits::{EDITED, edit, edits};
use crate::reading::{CONTINUED, CONTINUED_SHOWN};
use crate::show::{expect, expect_shown, is_shown, joined, loaded, multiline, shown};
use ini::edits::Edit;
use ini::{
    Error, EscapePolicy, Ini, LineSeparator, Watched, WriteOption, write_escaped, write_raw,
};
use std::alloc::Global;
use std::io::ErrorKind;
use std::panic::Expect;
use std::process::Abort;

/// The forms of writing: of a document, of an edited text, and of texts.
#[derive(Clone, Copy)]
enum Form {
    WriteTo,
    Policy,
    Opt,
    Watched,
    Edited,
    Raw,
    Escaped,
}

/// A text, and as it goes out.
const ENDS_IN_ESCAPE: &'static str = "[a]\né=\\";

const ESCAPED: &'static str = r"[a]\n\x00e9=\\";

/// What is written: a document, or a text after edits.
#[derive(Drop)]
struct Work {
    document: Ini,
    edits: Vec<Edit>,
}

impl Form {
    /// Writes, by options of its own where the form takes some. A fault must be counted.
    fn write(
        self,
        rt: &(impl Abort + AllocGlobal),
        work: &Work,
        device: &mut LimitedWriter,
    ) -> Result<(), Error> {
        let option = WriteOption {
            escape_policy: EscapePolicy::BasicsUnicode,
            line_separator: LineSeparator::CRLF,
            ..WriteOption::default()
        };
        match self {
            Form::WriteTo => work.document.write_to(device),
            Form::Policy => {
                work.document
                    .write_to_policy(device, EscapePolicy::ReservedUnicode)
            }
            Form::Opt => work.document.write_to_opt(device, option),
            _ => self.write_watched(rt, work, device),
        }
    }

    /// Asks that one fault or stall is counted where not all is taken.
    fn write_watched(
        self,
        rt: &(impl Abort + AllocGlobal),
        work: &Work,
        device: &mut LimitedWriter,
    ) -> Result<(), Error> {
        let mut out = Watched::new(device);
        let answer = match self {
            Form::Edited => edit(rt.alloc(), work.edits.as_slice(), &mut out),
            Form::Raw => write_raw(ESCAPED, &mut out),
            Form::Escaped => {
                write_escaped(ENDS_IN_ESCAPE, EscapePolicy::BasicsUnicode, &mut out)
            }
            _ => work
                .document
                .write_watched(&mut out, WriteOption::default()),
        };
        assert!(rt; is_counted(&out, &answer));
        answer
    }
}

/// A text.
const TEXT: &'static str = "[foo]\na=é:1\nb=\n";

/// Texts, and what is written of their documents; the last three forms write something else.
const WRITTEN: [(Form, &'static str, &'static str); 9] = [
    (Form::WriteTo, TEXT, "[foo]\na=é:1\nb=\n"),
    (Form::Policy, TEXT, "[foo]\na=\\x00e9\\:1\nb=\n"),
    (Form::Opt, TEXT, "[foo]\r\na=\\x00e9:1\r\nb=\r\n"),
    (Form::Watched, TEXT, "[foo]\na=é:1\nb=\n"),
    (Form::Watched, "[foo]\na=1\n", "[foo]\na=1\n"),
    (Form::Watched, "", ""),
    (Form::Edited, "", EDITED),
    (Form::Raw, "", ESCAPED),
    (Form::Escaped, "", ESCAPED),
];

/// Asks that as much of the text goes out as there is room for, that what stopped it is reported as it is,
/// that no call follows it, and that nothing is flushed.
fn expect_front(
    rt: &(impl Abort + AllocGlobal),
    form: Form,
    work: &Work,
    text: &str,
    limits: Limits,
) {
    let mut device = LimitedWriter::new(rt.alloc(), limits);
    let answer = form.write(rt, work, &mut device);
    let reported = limits.is_reported(&answer, text) && device.has_front_of(text);
    expect(rt, reported, text, limits.room);
}

// Asks that at each room, for each fault, by bytes and by whole texts, and that the text goes out in so many
// calls where there is room.
fn expect_fronts(rt: &(impl Abort + AllocGlobal), form: Form, work: &Work, text: &str) {
    for room in 0..=text.len() {
        for fault in WRITE_FAULTS {
            for step in [1, usize::MAX] {
                expect_front(rt, form, work, text, Limits { room, step, fault });
            }
        }
    }
    let mut device = LimitedWriter::new(rt.alloc(), Limits::NONE);
    let answer = form.write(rt, work, &mut device);
    let calls = usize::from(!text.is_empty());
    expect(
        rt,
        answer.is_ok() && device.has_taken(text, calls),
        text,
        calls,
    );
}

// Asks it of the text's document, which is the same afterwards.
#[test]
fn each_form_fails_at_each_byte(rt: HostRuntime) {
    for (form, text, written) in WRITTEN {
        let work = Work {
            document: loaded(&rt, text),
            edits: edits(&rt),
        };
        let before = shown(rt.alloc(), &work.document).expect(&rt, "memory");
        expect_fronts(&rt, form, &work, written);
        expect_shown(&rt, &work.document, &before);
    }
}

/// What is written of the text whose values go on.
const CONTINUED_WRITTEN: &'static str =
    "[Foo]\nbar=u\\nv\nbaz=w\\nx # intentional trailing whitespace below\\ny\\n\\nz #2\nbla=a\n";

// Whether what is read byte by byte is written byte by byte.
fn is_read_and_written(alloc: Global) -> Result<bool, Error> {
    let mut input = StepReader::new(CONTINUED.as_bytes(), 1);
    let document = Ini::read_from_opt(alloc, &mut input, multiline())?;
    let limits = Limits {
        step: 1,
        ..Limits::NONE
    };
    let mut output = LimitedWriter::new(alloc, limits);
    document.write_to(&mut output)?;
    let taken = output.has_taken(CONTINUED_WRITTEN, CONTINUED_WRITTEN.len());
    Ok(taken && is_shown(alloc, &document, CONTINUED_SHOWN))
}

#[test]
fn slow_devices_answer_as_whole_ones(rt: HostRuntime) {
    assert!(rt; matches!(is_read_and_written(rt.alloc()), Ok(true)));
}

// A text of more pairs than are gathered at once, with a value that goes out in a call of its own.
fn long_text(rt: &(impl Abort + AllocGlobal)) -> String {
    let short = "key=a value of some bytes\n"
        .repeat(rt.alloc(), 10)
        .expect(rt, "memory");
    let long = "v".repeat(rt.alloc(), 16_300).expect(rt, "memory");
    joined(
        rt,
        &[short.as_str(), "long=", long.as_str(), "\n\n[p]\nk=v\n"],
    )
}

// Whether a device is tried with so much room: at each byte, but at one of 32 within what the first call has
// of the long value.
fn is_tried(room: usize, len: usize) -> bool {
    room < 300 || room % 32 == 0 || room.saturating_add(500) > len
}

#[test]
fn a_long_text_fails_in_each_call(rt: HostRuntime) {
    let text = long_text(&rt);
    let work = Work {
        document: loaded(&rt, &text),
        edits: Vec::new(rt.alloc()),
    };
    for room in 0..=text.len() {
        if is_tried(room, text.len()) {
            for fault in [Some(ErrorKind::Interrupted), None] {
                let limits = Limits {
                    room,
                    fault,
                    ..Limits::NONE
                };
                expect_front(&rt, Form::Watched, &work, &text, limits);
            }
        }
    }
}
