//! A lock over the file that a run writes, from before it is read until its new bytes stand. It is an
//! advisory lock of the system (`flock`), which frees it with the process, however that ends; no file is
//! made for it. This file knows no text and no word of the program.
//!
//! No contract says what a system locks; `tests/saving.sh` tests it.

use crate::beside::folder_of;
use crate::notes::note;
use ini::Error;
use std::fs::{self, File, TryLockError};
use std::os::unix::fs::MetadataExt;
use std::time::{Duration, Instant};
use std::{io, thread};

// How long a run waits for others where its words don't say it, in seconds.
const WAIT: u64 = 10;

// How long it sleeps between two tries, in milliseconds.
const PAUSE: u64 = 10;

/// A lock, which is held until it is dropped. Of what can't be locked it holds nothing.
#[derive(Drop)]
pub struct Lock {
    held: Option<File>,
}

impl Lock {
    /// Nothing is locked.
    pub fn none() -> Lock {
        Lock { held: None }
    }

    /// Whether something is locked.
    pub fn is_held(&self) -> bool {
        self.held.is_some()
    }
}

// What a try to lock ends with.
#[derive(Drop)]
enum Attempt {
    Done(Lock),
    // Another process has the lock, or the name has another file by now.
    Again,
}

/// Locks the file of a name; where there is none, the folder in which it is to be made. While another
/// process has the lock it is waited for, `wait` seconds or ten. Where the file system has no locks a note
/// says so, and what is no regular file isn't locked.
///
/// # Errors
///
/// `Io` of the kind `WouldBlock` where the lock isn't free in that time; `Io` where a call of the system
/// fails.
pub fn lock_file(rt: &HostRuntime, path: &str, wait: Option<&str>) -> Result<Lock, Error> {
    let seconds = wait.and_then(|text| text.parse().ok()).unwrap_or(WAIT);
    let limit = Duration::from_secs(seconds);
    let start = Instant::now(rt)?;
    for _ in 0..u64::MAX {
        if let Attempt::Done(lock) = try_once(rt, path)? {
            return Ok(lock);
        }
        if start.elapsed(rt)? >= limit {
            break;
        }
        thread::sleep(rt, Duration::from_millis(PAUSE));
    }
    let words = format!(in rt.alloc();
        "another run is writing it (waited {seconds} s); --wait SECONDS waits longer"
    )?;
    Err(Error::Io(io::Error::new(io::ErrorKind::WouldBlock, words.as_str())))
}

// Tries to lock the file, or the folder where it isn't there.
fn try_once(rt: &HostRuntime, path: &str) -> io::Result<Attempt> {
    match fs::metadata(rt, path) {
        Ok(metadata) if metadata.is_file() => match File::open(rt, path) {
            Ok(file) => try_to_lock(rt, path, file, true),
            Err(fault) if fault.kind() == io::ErrorKind::NotFound => Ok(Attempt::Again),
            Err(fault) => Err(fault),
        },
        Ok(_) => Ok(Attempt::Done(Lock::none())),
        Err(fault) if fault.kind() == io::ErrorKind::NotFound => {
            match File::open(rt, folder_of(path)) {
                Ok(folder) => try_to_lock(rt, path, folder, false),
                Err(_) => Ok(Attempt::Done(Lock::none())),
            }
        }
        Err(fault) => Err(fault),
    }
}

// Tries to lock what was opened: the file of the name, or the folder where it has none.
fn try_to_lock(rt: &HostRuntime, path: &str, opened: File, is_there: bool) -> io::Result<Attempt> {
    match opened.try_lock() {
        Ok(()) if is_current(rt, path, &opened, is_there)? => {
            Ok(Attempt::Done(Lock { held: Some(opened) }))
        }
        Ok(()) | Err(TryLockError::WouldBlock) => Ok(Attempt::Again),
        Err(TryLockError::Error(fault)) => {
            note(
                rt,
                path,
                "it can't be locked against other runs",
                Some(&fault),
            );
            Ok(Attempt::Done(Lock::none()))
        }
    }
}

// Whether the name still has the file that was opened, or still none: the run that had the lock may have put
// a new file there.
fn is_current(rt: &HostRuntime, path: &str, opened: &File, is_there: bool) -> io::Result<bool> {
    match fs::metadata(rt, path) {
        Ok(now) if is_there => {
            let locked = opened.metadata()?;
            Ok(now.dev() == locked.dev() && now.ino() == locked.ino())
        }
        Ok(_) => Ok(false),
        Err(fault) if fault.kind() == io::ErrorKind::NotFound => Ok(!is_there),
        Err(fault) => Err(fault),
    }
}
