//! A file's new bytes, put in its place whole or not at all. This file knows no text and no document.
//!
//! No contract says what a disk holds; `tests/saving.sh` tests it, each call of the system failing in turn.

use crate::beside::{Beside, clear, create, make_beside, sync_folder};
use crate::choices::Switches;
use crate::notes::note;
use crate::over::{refuse_changed, write_over};
use crate::rights::{Kept, give_rights};
use ini::Error;
use ini_words::with_name;
use std::alloc::Global;
use std::fs::{self, File, Metadata, OpenOptions};
use std::io::{self, Write};
use std::os::unix::fs::MetadataExt;

// The modes of a new file, less the user's mask, and of one that is to have an old one's rights.
const NEW: u32 = 0o666;

const CLOSED: u32 = 0o600;

// Numbers of faults.
const NOT_PERMITTED: i32 = 1;

const DENIED: i32 = 13;

const BUSY: i32 = 16;

const ANOTHER_DEVICE: i32 = 18;

const INVALID: i32 = 22;

const READ_ONLY: i32 = 30;

const NO_SUCH_CALL: i32 = 38;

const NOT_SUPPORTED: i32 = 95;

/// Puts bytes in the place of those that were read of a file, or into a new file where none was read. They
/// are written to a new file beside it, which none but its owner may read until it has the old one's owner,
/// group and mode, is brought to the disk, and then takes its name; the folder is brought to the disk after
/// that. Where the name is a symbolic link, the file that it stands for is replaced, and the link stays.
/// With `in_place` the file itself is written, after a copy beside it.
///
/// # Errors
///
/// `Io` of the kind `AlreadyExists` where a new file's name is taken by then, or is a link to no file; of
/// the kind `InvalidInput` where the name is a pipe's or a device's; of the kind `PermissionDenied` where
/// the file is write-protected, but with `force`; of the kind `Other` where the file no longer has the bytes
/// that were read, once the new one is there; `Io` where a call of the system fails; `Memory`. Until the
/// call that renames the old file stands whole; where a call fails before, the new one is taken away. Where
/// the last one fails, which brings the folder to the disk, the words say that the file is written.
pub fn save(
    rt: &HostRuntime,
    how: Switches,
    path: &str,
    old: Option<&[u8]>,
    bytes: &[u8],
) -> Result<(), Error> {
    let Some(old) = old else {
        make(rt, path, bytes)?;
        return finish(rt, path, path);
    };
    let target = fs::canonicalize(rt, path)?;
    let metadata = regular(rt, target.as_str())?;
    let _writable = if how.force {
        None
    } else {
        refuse_protected(rt, target.as_str(), &metadata)?
    };
    if how.in_place {
        return write_over(rt, target.as_str(), old, bytes);
    }
    let kept = replace(rt, target.as_str(), &metadata, old, bytes)?;
    if let Some(words) = kept.words() {
        note(rt, path, words, None);
    }
    if metadata.nlink() > 1 {
        let words =
            "it has other names (hard links), which keep the old text; --in-place writes all";
        note(rt, path, words, None);
    }
    finish(rt, path, target.as_str())
}

/// Refuses what `save` refuses before it makes a file: a link to no file, what is no regular file or is
/// write-protected, or a folder that isn't there. Nothing is written, and nothing is opened to be written.
pub fn find_room(rt: &HostRuntime, how: Switches, path: &str, is_there: bool) -> Result<(), Error> {
    if is_there {
        let target = fs::canonicalize(rt, path)?;
        let metadata = regular(rt, target.as_str())?;
        if !how.force && metadata.permissions().readonly() {
            return Err(protected());
        }
        return Ok(());
    }
    refuse_link(rt, path)?;
    match path.rsplit_once('/') {
        Some((folder, _)) if folder != "" => {
            fs::metadata(rt, folder)?;
            Ok(())
        }
        _ => Ok(()),
    }
}

// What is known of a regular file.
fn regular(rt: &HostRuntime, path: &str) -> io::Result<Metadata> {
    let metadata = fs::metadata(rt, path)?;
    if metadata.is_file() {
        Ok(metadata)
    } else {
        Err(io::Error::new(io::ErrorKind::InvalidInput, "not a regular file"))
    }
}

// Refuses the name of a new file that is a symbolic link's.
fn refuse_link(rt: &HostRuntime, path: &str) -> io::Result<()> {
    match fs::symlink_metadata(rt, path) {
        Ok(metadata) if metadata.is_symlink() => {
            Err(io::Error::new(io::ErrorKind::AlreadyExists, "a symbolic link to no file"))
        }
        _ => Ok(()),
    }
}

// Refuses a file that nobody may write by its mode, or that this user may not write; and holds it open.
fn refuse_protected(
    rt: &HostRuntime,
    path: &str,
    metadata: &Metadata,
) -> Result<Option<File>, Error> {
    if metadata.permissions().readonly() {
        return Err(protected());
    }
    match OpenOptions::new().write(true).open(rt, path) {
        Ok(file) => Ok(Some(file)),
        Err(fault) if fault.raw_os_error() == Some(DENIED) => Err(protected()),
        Err(fault) => Err(Error::Io(fault)),
    }
}

// The refusal of a file that may not be written.
fn protected() -> Error {
    let words = "it is write-protected; --force writes it all the same";
    Error::Io(io::Error::new(io::ErrorKind::PermissionDenied, words))
}

// Puts a new file with the bytes in the old one's place, and tells what it has of the old one's rights.
fn replace(
    rt: &HostRuntime,
    target: &str,
    metadata: &Metadata,
    old: &[u8],
    bytes: &[u8],
) -> Result<Kept, Error> {
    let alloc = rt.alloc();
    let Beside { path, file } = match make_beside(rt, target, CLOSED) {
        Err(Error::Io(fault)) => return Err(Error::Io(advised(alloc, fault))),
        made => made?,
    };
    let replaced = match fill_as(file, metadata, bytes) {
        Ok(kept) => match take_name(rt, path.as_str(), target, old) {
            Ok(()) => Ok(kept),
            Err(fault) => Err(fault),
        },
        Err(fault) => Err(fault),
    };
    if replaced.is_err() {
        clear(rt, path.as_str());
    }
    replaced.map_err(Error::Io)
}

// Gives a new file the rights of the old one and its bytes, brings it to the disk, and closes it.
fn fill_as(file: File, old: &Metadata, bytes: &[u8]) -> io::Result<Kept> {
    let kept = give_rights(&file, old)?;
    fill(file, bytes)?;
    Ok(kept)
}

// Gives a new file its bytes, brings it to the disk, and closes it.
fn fill(file: File, bytes: &[u8]) -> io::Result<()> {
    let mut file = file;
    file.write_all(bytes)?;
    file.sync_all()
}

// Gives the new file the name of the old one, if that still has the bytes that were read.
fn take_name(rt: &HostRuntime, beside: &str, target: &str, old: &[u8]) -> io::Result<()> {
    refuse_changed(rt, target, old)?;
    fs::rename(rt, beside, target).map_err(|fault| advised(rt.alloc(), fault))
}

// The fault of a folder that may not be written, or of a name that can't be given to another file, with what
// helps.
fn advised(alloc: Global, fault: io::Error) -> io::Error {
    let is_of_place = matches!(
        fault.raw_os_error(),
        Some(NOT_PERMITTED | DENIED | BUSY | ANOTHER_DEVICE | READ_ONLY)
    );
    if !is_of_place {
        return fault;
    }
    match format!(in alloc; "{fault}; --in-place writes the file itself") {
        Ok(words) => io::Error::new(fault.kind(), words.as_str()),
        Err(_) => fault,
    }
}

// A new file with the bytes, which takes its name only where no file has it.
fn make(rt: &HostRuntime, path: &str, bytes: &[u8]) -> Result<(), Error> {
    refuse_link(rt, path)?;
    let Beside { path: beside, file } = make_beside(rt, path, NEW)?;
    let beside = beside.as_str();
    let is_named = match fill(file, bytes) {
        Ok(()) => give_name(rt, beside, path),
        Err(fault) => Err(fault),
    };
    let removed = match &is_named {
        Ok(Named::Renamed) => Ok(()),
        _ => fs::remove_file(rt, beside),
    };
    is_named?;
    if removed.is_err() {
        let words = format!(in rt.alloc(); "it is written, but {beside} stays beside it")?;
        note(rt, path, words.as_str(), None);
    }
    removed.map_err(Error::Io)
}

// How a new file came to its name.
#[derive(Clone, Copy)]
enum Named {
    // It has its first name too.
    Linked,
    // It has the one name alone.
    Renamed,
}

// Gives a new file a name that no file has: by a link; where the file system has none, by an empty file of
// the name, which the new one then replaces.
fn give_name(rt: &HostRuntime, beside: &str, path: &str) -> io::Result<Named> {
    match fs::hard_link(rt, beside, path) {
        Ok(()) => return Ok(Named::Linked),
        Err(fault) if has_no_links(&fault) => {}
        Err(fault) => return Err(fault),
    }
    create(rt, path, CLOSED)?;
    match fs::rename(rt, beside, path) {
        Ok(()) => Ok(Named::Renamed),
        Err(fault) => {
            clear(rt, path);
            Err(fault)
        }
    }
}

// Whether the fault of a link is one of a file system that has no links.
fn has_no_links(fault: &io::Error) -> bool {
    matches!(
        fault.raw_os_error(),
        Some(NOT_PERMITTED | NO_SUCH_CALL | NOT_SUPPORTED)
    )
}

// Brings the folder of a file to the disk that has its bytes by now. Where that can't be asked of the folder
// or of its file system a note says so.
fn finish(rt: &HostRuntime, path: &str, target: &str) -> Result<(), Error> {
    let Err(fault) = sync_folder(rt, target) else {
        return Ok(());
    };
    if matches!(fault.raw_os_error(), Some(DENIED | INVALID | NOT_SUPPORTED)) {
        note(
            rt,
            path,
            "its folder can't be brought to the disk",
            Some(&fault),
        );
        return Ok(());
    }
    let words = "written, but not on the disk yet";
    Err(Error::Io(with_name(rt.alloc(), words, fault)))
}
