//! A file that is written itself, in place of a new one that takes its name: owner, rights, further names
//! and attributes stay, and a fault may leave it in halves, so a copy of its text stands beside it
//! meanwhile.
//!
//! No contract says what a disk holds; `tests/saving.sh` tests it.

use crate::beside::{Beside, clear, make_beside, sync_folder};
use crate::notes::note;
use ini::Error;
use std::fs::{File, OpenOptions};
use std::io::{self, Read, Seek, SeekFrom, Write};

// The mode of the copy.
const CLOSED: u32 = 0o600;

// How many bytes are compared at once.
const CHUNK: usize = 65536;

/// Writes bytes over those of a file. Before that a copy of the old ones is made beside it, for its owner
/// alone, and brought to the disk; where the folder may not be written there is none.
///
/// # Errors
///
/// `Io` of the kind `Other` where the file no longer has the bytes that were read; `Io` where a call of the
/// system fails; `Memory`. Where that happens within the writing, the old bytes are written back; where
/// these can't be written either, a note names the copy, which stays.
pub fn write_over(rt: &HostRuntime, target: &str, old: &[u8], bytes: &[u8]) -> Result<(), Error> {
    let copy = copy_beside(rt, target, old)?;
    let written = match open_unchanged(rt, target, old) {
        Ok(file) => write_or_restore(file, old, bytes),
        Err(fault) => Written::Not(fault),
    };
    if let Written::InHalves(fault) = written {
        tell_halves(rt, target, copy.as_deref())?;
        return Err(Error::Io(fault));
    }
    if let Some(copy) = copy {
        clear(rt, copy.as_str());
    }
    match written {
        Written::Not(fault) => Err(Error::Io(fault)),
        _ => Ok(()),
    }
}

// How a file was written.
#[derive(Drop)]
enum Written {
    // It has the new bytes.
    Whole,
    // It has the old ones.
    Not(io::Error),
    // It may have some of both.
    InHalves(io::Error),
}

// A copy of the bytes beside a file, brought to the disk; none where the folder may not be written.
fn copy_beside(rt: &HostRuntime, target: &str, old: &[u8]) -> Result<Option<String>, Error> {
    let Beside { path, file } = match make_beside(rt, target, CLOSED) {
        Err(Error::Io(fault)) if is_closed(&fault) => return Ok(None),
        made => made?,
    };
    let copied = match fill_copy(file, old) {
        Ok(()) => sync_folder(rt, target),
        Err(fault) => Err(fault),
    };
    match copied {
        Err(fault) if !is_closed(&fault) => {
            clear(rt, path.as_str());
            Err(Error::Io(fault))
        }
        _ => Ok(Some(path)),
    }
}

// Gives a copy its bytes, and brings it to the disk.
fn fill_copy(file: File, old: &[u8]) -> io::Result<()> {
    let mut file = file;
    file.write_all(old)?;
    file.sync_all()
}

// Whether a folder may not be written or read by this user, or not at all.
fn is_closed(fault: &io::Error) -> bool {
    matches!(fault.raw_os_error(), Some(1 | 13 | 22 | 30 | 95))
}

// The file, open to be written, if it still has these bytes.
fn open_unchanged(rt: &HostRuntime, target: &str, old: &[u8]) -> io::Result<File> {
    refuse_changed(rt, target, old)?;
    OpenOptions::new().write(true).open(rt, target)
}

// Writes the new bytes over the old ones; where that fails, the old ones again.
fn write_or_restore(file: File, old: &[u8], bytes: &[u8]) -> Written {
    let mut file = file;
    let Err(fault) = put_all(&mut file, bytes) else {
        return Written::Whole;
    };
    match put_all(&mut file, old) {
        Ok(()) => Written::Not(fault),
        Err(_) => Written::InHalves(fault),
    }
}

// Tells where the old text of a file is that may have some of both.
fn tell_halves(rt: &HostRuntime, target: &str, copy: Option<&str>) -> Result<(), Error> {
    let words = match copy {
        Some(copy) => format!(in rt.alloc(); "it isn't whole; its old text is in {copy}")?,
        None => format!(in rt.alloc(); "it isn't whole")?,
    };
    note(rt, target, words.as_str(), None);
    Ok(())
}

// Makes these bytes all that a file has, and brings it to the disk.
fn put_all(file: &mut File, bytes: &[u8]) -> io::Result<()> {
    file.seek(SeekFrom::Start(0))?;
    file.write_all(bytes)?;
    file.set_len(u64::try_from(bytes.len()).unwrap_or(u64::MAX))?;
    file.sync_all()
}

/// Refuses a file that no longer has these bytes.
pub fn refuse_changed(rt: &HostRuntime, target: &str, old: &[u8]) -> io::Result<()> {
    if has_bytes(rt, target, old)? {
        Ok(())
    } else {
        Err(io::Error::new(io::ErrorKind::Other, "changed since it was read"))
    }
}

// Whether a file has these bytes. Few of them are held at once.
fn has_bytes(rt: &HostRuntime, target: &str, old: &[u8]) -> io::Result<bool> {
    let mut file = File::open(rt, target)?;
    let mut chunk = vec![in rt.alloc(); 0; CHUNK]?;
    let mut rest = old;
    for _ in 0..u64::MAX {
        let count = match file.read(chunk.as_mut_slice()) {
            Ok(0) => return Ok(rest.is_empty()),
            Ok(count) => count,
            Err(fault) if fault.kind() == io::ErrorKind::Interrupted => continue,
            Err(fault) => return Err(fault),
        };
        match rest.split_at_checked(count) {
            Some((same, following)) if Some(same) == chunk.get(..count) => rest = following,
            _ => return Ok(false),
        }
    }
    Ok(false)
}
