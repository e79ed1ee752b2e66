//! Files that a save makes beside the one that it writes, and their folder. Their names begin with
//! `.ini_file.` and the number of the process, so that they are short, nobody else uses them, and a list of
//! files passes over them. This file knows no text.
//!
//! No contract says what a disk holds; `tests/saving.sh` tests it.

use ini::Error;
use std::fs::{self, File, OpenOptions};
use std::os::unix::fs::OpenOptionsExt;
use std::{io, process};

/// How many names are tried.
const TRIES: u32 = 1000;

/// A new file beside another one.
#[derive(Drop)]
pub struct Beside {
    /// Its name.
    pub path: String,
    /// The file, open to be written.
    pub file: File,
}

/// Makes a file beside the one of this name, with this mode, less the user's mask.
pub fn make_beside(rt: &HostRuntime, target: &str, mode: u32) -> Result<Beside, Error> {
    let (front, id) = (front_of(target), process::id(rt.process()));
    for number in 0..TRIES {
        let path = format!(in rt.alloc(); "{front}.ini_file.{id}.{number}")?;
        match create(rt, path.as_str(), mode) {
            Ok(file) => return Ok(Beside { path, file }),
            Err(fault) if fault.kind() == io::ErrorKind::AlreadyExists => {}
            Err(fault) => return Err(Error::Io(fault)),
        }
    }
    let words = "no name is free for a file beside it (.ini_file.*)";
    Err(Error::Io(io::Error::new(io::ErrorKind::AlreadyExists, words)))
}

/// Makes a file of a name that no file has, with this mode, less the user's mask.
pub fn create(rt: &HostRuntime, path: &str, mode: u32) -> io::Result<File> {
    OpenOptions::new()
        .write(true)
        .create_new(true)
        .mode(mode)
        .open(rt, path)
}

/// Brings the folder of a file to the disk, so that a name that was given in it stays after a loss of power.
pub fn sync_folder(rt: &HostRuntime, path: &str) -> io::Result<()> {
    File::open(rt, folder_of(path))?.sync_all()
}

/// The folder of a file.
pub fn folder_of(path: &str) -> &str {
    match path.rsplit_once('/') {
        Some(("", _)) => "/",
        Some((folder, _)) => folder,
        None => ".",
    }
}

// The name of a file up to that in its folder.
fn front_of(path: &str) -> &str {
    match path.rsplit_once('/') {
        Some((folder, _)) => path.get(..folder.len().saturating_add(1)).unwrap_or(""),
        None => "",
    }
}

/// Takes a file away that was made beside another one; one that can't be taken away stays.
pub fn clear(rt: &HostRuntime, path: &str) {
    let _ = fs::remove_file(rt, path);
}
