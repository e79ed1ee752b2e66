//! Watched devices that fail, are full or end: what is reported and counted, what they took, and how often
//! they are called.
use crate::devices::{LimitedWriter, Limits, StepReader, is_quiet};
use crate::show::expect;
use ini_text::{Error, EscapePolicy, Watched, write_escaped, write_raw};
use std::alloc::Global;
use std::io::ErrorKind;
use std::process::Abort;

// Whether the answer is this fault.
fn is_fault(answer: Result<usize, Error>, kind: ErrorKind) -> bool {
    match answer {
        Err(Error::Io(fault)) => fault.kind() == kind,
        _ => false,
    }
}

// Whether three bytes are read by pieces of two, and then the fault that stands in place of the end is
// reported and counted.
fn is_read_up_to(kind: ErrorKind) -> bool {
    let mut device = StepReader::failing(b"abc", usize::MAX, 3, kind);
    let mut input = Watched::new(&mut device);
    let mut piece = [0u8; 2];
    if !matches!(input.read(&mut piece), Ok(2)) || piece != [b'a', b'b'] {
        return false;
    }
    if !matches!(input.read(&mut piece), Ok(1)) || piece != [b'c', b'b'] {
        return false;
    }
    let none = is_quiet(&input);
    let reported = is_fault(input.read(&mut piece), kind);
    none && reported && (input.failures(), input.stalls()) == (1, 0)
}

// Whether a reader whose first call fails, and no other, is called once, and the fault reported and counted.
fn is_read_once(kind: ErrorKind) -> bool {
    let mut device = StepReader::failing(b"", 1, 1, kind);
    let mut input = Watched::new(&mut device);
    let reported = is_fault(input.read(&mut [0u8; 2]), kind);
    let counted = (input.failures(), input.stalls()) == (1, 0);
    reported && counted && device.calls == 1
}

// Whether a piece without room takes nothing and counts nothing, and one with room then takes all bytes.
fn is_read_by_pieces(bytes: &[u8]) -> bool {
    let mut device = StepReader::new(bytes, 1);
    let mut input = Watched::new(&mut device);
    let none = matches!(input.read(&mut []), Ok(0));
    if !none || !is_quiet(&input) {
        return false;
    }
    let mut piece = [0u8; 2];
    let all = matches!(input.read(&mut piece), Ok(count) if count == bytes.len());
    all && is_quiet(&input)
}

// A device at its end answers no bytes.
#[test]
fn reads_go_up_to_the_fault_or_the_end(rt: HostRuntime) {
    for kind in [ErrorKind::Other, ErrorKind::Interrupted] {
        assert!(rt; is_read_up_to(kind) && is_read_once(kind), "a fault");
    }
    assert!(rt;
        is_read_by_pieces(b"k") && is_read_by_pieces(b""),
        "the end"
    );
}

// So many times this character or escape, the run, and so many times the character or escape again.
fn ended(
    alloc: Global,
    run: &str,
    end: &str,
    (front, back): (usize, usize),
) -> Result<String, Error> {
    let (front, back) = (end.repeat(alloc, front)?, end.repeat(alloc, back)?);
    Ok([front.as_str(), run, back.as_str()].join(alloc, "")?)
}

// How often a device is called for so many times this run, with so many escapes at its ends, where it takes
// the escaped text.
fn calls_for(
    alloc: Global,
    run: &str,
    count: usize,
    escapes: (usize, usize),
) -> Result<usize, Error> {
    let run = run.repeat(alloc, count)?;
    let text = ended(alloc, &run, "\x1B", escapes)?;
    let want = ended(alloc, &run, r"\x001b", escapes)?;
    let mut device = LimitedWriter::new(alloc, Limits::NONE);
    write_escaped(
        text.as_str(),
        EscapePolicy::Basics,
        &mut Watched::new(&mut device),
    )?;
    if device.has_taken(&want, device.calls) {
        Ok(device.calls)
    } else {
        Err(Error::NotUtf8)
    }
}

// How often a device is called for an empty text, as it is and escaped, where a call would fail.
fn calls_for_nothing(alloc: Global) -> Result<usize, Error> {
    let limits = Limits {
        room: 0,
        fault: Some(ErrorKind::Other),
        ..Limits::NONE
    };
    let mut device = LimitedWriter::new(alloc, limits);
    write_raw("", &mut Watched::new(&mut device))?;
    write_escaped("", EscapePolicy::Everything, &mut Watched::new(&mut device))?;
    Ok(device.calls)
}

/// A run, how often, the escapes at its ends, and the fewest and the most calls.
const RUNS: [(&'static str, usize, (usize, usize), usize, usize); 5] = [
    ("a", 0, (1, 1), 1, 1),
    ("a", 20, (1, 1), 1, 1),
    ("a", 16_000, (1, 1), 1, 1),
    ("a", 40_000, (1, 1), 3, 3),
    ("plain é 字 ", 4000, (0, 25), 0, 4),
];

#[test]
fn a_long_run_goes_out_in_few_calls(rt: HostRuntime) {
    for (run, count, escapes, least, most) in RUNS {
        let calls = calls_for(rt.alloc(), run, count, escapes);
        let few = matches!(calls, Ok(calls) if least <= calls && calls <= most);
        expect(&rt, few, run, count);
    }
    assert!(rt; matches!(calls_for_nothing(rt.alloc()), Ok(0)));
}
