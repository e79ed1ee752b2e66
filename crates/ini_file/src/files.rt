//! The bytes of files and streams: those that are read, and where those go that a command makes: into the
//! file's place, into another file or a stream, or nowhere, where what would change is shown. Commands
//! take and make texts in UTF-8; a file has them in its own encoding. This file knows no word of the program
//! and no document.
//!
//! No contract says what a disk gets; `tests/files.sh` tests it.
use crate::coding::{Coding, FileError};
use crate::diff::diff;
use crate::lock::{Lock, lock_file};
use crate::notes::tell_change;
use crate::save::{find_room, save};
use crate::target::Target;
use ini::Error;
use ini_dialect::Encoding;
use ini_words::with_name;
use std::fs::{self, OpenOptions};
use std::io::{self, Read, Write};

/// A file's text in UTF-8, as far as its bytes are that, and how the file has it.
#[derive(Drop)]
pub(crate) struct Input {
    pub(crate) text: Vec<u8>,
    pub(crate) coding: Coding,
}

/// The text of a file; `-` is standard input. Without a byte order mark its encoding is the named one.
pub(crate) fn read_input(
    rt: &HostRuntime,
    named: Option<Encoding>,
    file: &str,
) -> Result<Input, FileError> {
    let bytes = read_bytes(rt, file)?;
    let coding = Coding::of_bytes(bytes.as_slice(), named);
    let text = match coding.read(rt.alloc(), bytes.as_slice())? {
        Some(text) => text.into_bytes(),
        None => bytes,
    };
    Ok(Input { text, coding })
}

// The bytes of a file; `-` is standard input.
fn read_bytes(rt: &HostRuntime, file: &str) -> Result<Vec<u8>, Error> {
    if file == "-" {
        let mut bytes = Vec::new(rt.alloc());
        match rt.stdin().read_to_end(&mut bytes) {
            Ok(_) => Ok(bytes),
            Err(fault) => Err(Error::Io(fault)),
        }
    } else {
        fs::read(rt, file).map_err(Error::Io)
    }
}

/// Locks the file that a command writes, before anything of it is read. A stream isn't locked, nor is a file
/// of which the change is shown alone.
pub(crate) fn lock_place(rt: &HostRuntime, target: Target<'_>) -> Result<Lock, FileError> {
    let place = target.place;
    if place == "-" || target.shows_change {
        return Ok(Lock::none());
    }
    let lock = lock_file(rt, place, target.wait)?;
    Ok(lock)
}

/// The text of the file that a command is over; `None` where it isn't there and is made. What is no regular
/// file isn't read where it is the one that is written.
pub(crate) fn read_file(
    rt: &HostRuntime,
    named: Option<Encoding>,
    target: Target<'_>,
) -> Result<Option<Input>, FileError> {
    let file = target.file;
    let found = if file != "-" && file == target.place {
        match fs::metadata(rt, file) {
            Ok(metadata) if metadata.is_file() => read_input(rt, named, file),
            Ok(_) => Err(not_regular()),
            Err(fault) => Err(FileError::Text(Error::Io(fault))),
        }
    } else {
        read_input(rt, named, file)
    };
    match found {
        Ok(input) => Ok(Some(input)),
        Err(FileError::Text(Error::Io(fault))) if target.makes_file && is_missing(&fault) => {
            Ok(None)
        }
        Err(refusal) => Err(refusal),
    }
}

// The refusal of what is no regular file.
fn not_regular() -> FileError {
    FileError::Text(io::Error::new(io::ErrorKind::InvalidInput, "not a regular file").into())
}

// Whether a file can't be read because it isn't there.
fn is_missing(fault: &io::Error) -> bool {
    fault.kind() == io::ErrorKind::NotFound
}

/// Writes to standard output.
pub(crate) fn print(rt: &HostRuntime, output: &[u8]) -> Result<(), Error> {
    match rt.stdout().write_all(output) {
        Ok(()) => Ok(()),
        Err(fault) => Err(Error::Io(with_name(rt.alloc(), "standard output", fault))),
    }
}

/// Hands on what a command makes of a file, in its encoding; of the file nothing was read where it wasn't
/// there. A file that would not change is not written. What would change is shown in UTF-8.
pub(crate) fn write_output(
    rt: &HostRuntime,
    coding: Coding,
    target: Target<'_>,
    old: Option<&[u8]>,
    output: &[u8],
) -> Result<(), FileError> {
    let place = target.place;
    let coded = coded(rt, coding, output)?;
    let new = Both {
        text: output,
        bytes: coded.as_deref().unwrap_or(output),
    };
    if place == "-" && !target.shows_change {
        print(rt, new.bytes)?;
        return Ok(());
    }
    let shown = if place == "-" {
        diff(rt.alloc(), target.file, old, output)?
    } else if place == target.file {
        put_back(rt, coding, target, old, new)?
    } else {
        put_elsewhere(rt, coding, target, new)?
    };
    print(rt, shown.as_slice())?;
    Ok(())
}

// A text in UTF-8, and the bytes of it that a file has.
#[derive(Clone, Copy)]
struct Both<'a> {
    text: &'a [u8],
    bytes: &'a [u8],
}

// The bytes of a text that a file has, where these are others.
fn coded(rt: &HostRuntime, coding: Coding, text: &[u8]) -> Result<Option<Vec<u8>>, FileError> {
    if coding.encoding == Encoding::Utf8 {
        return Ok(None);
    }
    match str::from_utf8(text) {
        Ok(text) => coding.write(rt.alloc(), text),
        Err(_) => Err(FileError::Text(Error::NotUtf8)),
    }
}

// Puts bytes into the file that was read. The bytes that it has are those of its text.
fn put_back(
    rt: &HostRuntime,
    coding: Coding,
    target: Target<'_>,
    old: Option<&[u8]>,
    new: Both<'_>,
) -> Result<Vec<u8>, FileError> {
    let Some(text) = old else {
        return put(rt, target, None, new);
    };
    let coded = coded(rt, coding, text)?;
    let bytes = coded.as_deref().unwrap_or(text);
    put(rt, target, Some(Both { text, bytes }), new)
}

// Puts bytes into a file, whatever it has, into a new one, or into a pipe, a terminal or a device, of which
// nothing is read. The answer is what is to be shown of it.
fn put_elsewhere(
    rt: &HostRuntime,
    coding: Coding,
    target: Target<'_>,
    new: Both<'_>,
) -> Result<Vec<u8>, FileError> {
    let (place, shows_change) = (target.place, target.shows_change);
    match fs::metadata(rt, place) {
        Ok(metadata) if metadata.is_file() || metadata.is_dir() => {
            let there = fs::read(rt, place).map_err(Error::Io)?;
            put_over(rt, coding, target, there.as_slice(), new)
        }
        Ok(_) if shows_change => Ok(diff(rt.alloc(), place, None, new.text)?),
        Ok(_) => {
            let mut stream = OpenOptions::new()
                .write(true)
                .open(rt, place)
                .map_err(Error::Io)?;
            stream.write_all(new.bytes).map_err(Error::Io)?;
            Ok(Vec::new(rt.alloc()))
        }
        Err(fault) if is_missing(&fault) => put(rt, target, None, new),
        Err(fault) => Err(FileError::Text(Error::Io(fault))),
    }
}

// Puts bytes over those of another file. What goes is shown as a text where it is one.
fn put_over(
    rt: &HostRuntime,
    coding: Coding,
    target: Target<'_>,
    there: &[u8],
    new: Both<'_>,
) -> Result<Vec<u8>, FileError> {
    let read = Coding::of_bytes(there, Some(coding.encoding)).read(rt.alloc(), there);
    let text = read.unwrap_or(None);
    let old = Both {
        text: text.as_deref().map_or(there, |text| text.as_bytes()),
        bytes: there,
    };
    put(rt, target, Some(old), new)
}

// Puts bytes in the place of those that a file has, if they are other bytes, or into a new file. Where the
// change is shown it is the answer, and the file stands.
fn put(
    rt: &HostRuntime,
    target: Target<'_>,
    there: Option<Both<'_>>,
    new: Both<'_>,
) -> Result<Vec<u8>, FileError> {
    let (place, how) = (target.place, target.switches);
    let is_same = match there {
        Some(there) => there.bytes == new.bytes,
        None => false,
    };
    let shown = if is_same {
        Vec::new(rt.alloc())
    } else if target.shows_change {
        find_room(rt, how, place, there.is_some())?;
        diff(rt.alloc(), place, there.map(|there| there.text), new.text)?
    } else {
        save(rt, how, place, there.map(|there| there.bytes), new.bytes)?;
        Vec::new(rt.alloc())
    };
    if how.verbose {
        tell_change(rt, !is_same);
    }
    Ok(shown)
}
