//! What refusals print, and what they are as errors of a device.
use ini_text::{Error, ParseError, ParseKind};
use std::alloc::{AllocError, Global};
use std::borrow::CowStr;
use std::io;
use std::io::ErrorKind;
use std::test::Fail;

// A refusal of a text at this place.
fn refused_text(line: usize, col: usize, msg: CowStr<'static>, kind: ParseKind) -> Error {
    Error::Parse(ParseError {
        line: line.max(1),
        col: col.max(1),
        msg,
        kind,
    })
}

/// Whether the refusal prints so, and is an error of a device of this kind and in these words.
fn is_told(
    alloc: Global,
    refused: Error,
    printed: &str,
    kind: ErrorKind,
    words: &str,
) -> Result<bool, AllocError> {
    let is_printed = refused.to_string(alloc)?.as_str() == printed;
    let reported = io::Error::from(refused);
    let is_so = reported.kind() == kind && reported.to_string(alloc)?.as_str() == words;
    Ok(is_printed && is_so)
}

#[test]
fn a_refused_text_is_an_error_of_a_device(rt: HostRuntime) -> Result<(), Fail> {
    let (alloc, kind) = (rt.alloc(), ErrorKind::InvalidData);
    let words = CowStr::Borrowed("missing key");
    let refused = refused_text(1, 2, words, ParseKind::MissingKey);
    assert!(rt; is_told(alloc, refused, "1:2 missing key", kind, "missing key")?);
    let words = CowStr::Owned(String::from_str(alloc, "no end of it")?);
    let refused = refused_text(70_000, 1, words, ParseKind::EndOfText);
    assert!(rt; is_told(alloc, refused, "70000:1 no end of it", kind, "no end of it")?);
    // a long message prints whole
    let long = "x".repeat(alloc, 4096)?;
    let printed = format!(in alloc; "1:2 {long}")?;
    let refused = refused_text(1, 2, CowStr::Owned(long), ParseKind::EndOfText);
    assert!(rt; refused.to_string(alloc)?.as_str() == printed.as_str());
    Ok(())
}

#[test]
fn other_refusals_are_errors_of_a_device(rt: HostRuntime) -> Result<(), Fail> {
    let (alloc, words) = (rt.alloc(), "the input is not UTF-8");
    assert!(rt; is_told(alloc, Error::NotUtf8, words, ErrorKind::InvalidData, words)?);
    let words = "a write took no bytes";
    assert!(rt; is_told(alloc, Error::NoProgress, words, ErrorKind::WriteZero, words)?);
    let (refused, words) = (Error::Memory(AllocError), "out of memory");
    assert!(rt; is_told(alloc, refused, words, ErrorKind::OutOfMemory, words)?);
    // a fault of a device stays as it was
    let refused = Error::from(io::Error::new(ErrorKind::BrokenPipe, "cut"));
    assert!(rt; is_told(alloc, refused, "cut", ErrorKind::BrokenPipe, "cut")?);
    Ok(())
}
