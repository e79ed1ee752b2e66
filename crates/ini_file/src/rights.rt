//! Owner, group and mode of a file that takes another one's place. This file knows no text and no name.

use std::fs::{File, Metadata, Permissions};
use std::io;
use std::os::unix::fs::{MetadataExt, PermissionsExt, fchown};

/// What a new file has of the old one.
#[derive(Clone, Copy)]
pub struct Kept {
    /// Its owner.
    pub owner: bool,
    /// Its group.
    pub group: bool,
}

impl Kept {
    /// What isn't kept, in words.
    pub fn words(self) -> Option<&'static str> {
        match (self.owner, self.group) {
            (true, true) => None,
            (true, false) => Some("its group can't be kept"),
            (false, true) => Some("its owner can't be kept"),
            (false, false) => Some("its owner and group can't be kept"),
        }
    }
}

/// Gives a new file, which none but its owner may open yet, the old one's owner and group, as far as the
/// system lets this user do so, and then its mode.
///
/// No contract says what a disk holds; `tests/saving.sh` tests it.
pub fn give_rights(file: &File, old: &Metadata) -> io::Result<Kept> {
    let (owner, group) = (old.uid(), old.gid());
    let kept = match fchown(file, Some(owner), Some(group)) {
        Ok(()) => Kept {
            owner: true,
            group: true,
        },
        Err(fault) if is_not_allowed(&fault) => {
            let group = fchown(file, None, Some(group)).is_ok();
            let owner = file.metadata()?.uid() == owner;
            Kept { owner, group }
        }
        Err(fault) => return Err(fault),
    };
    file.set_permissions(Permissions::from_mode(mode_kept(old.mode(), kept)))?;
    Ok(kept)
}

// Whether this user may not give a file another owner or group, or the file system has none.
fn is_not_allowed(fault: &io::Error) -> bool {
    matches!(
        fault.kind(),
        io::ErrorKind::PermissionDenied | io::ErrorKind::InvalidInput | io::ErrorKind::Unsupported
    )
}

// The mode of the new file. Where owner or group isn't kept no bit lets it run as another user. Where the
// group isn't kept, its members are others now, and others may be of the new group: both may do what both
// could do.
fn mode_kept(mode: u32, kept: Kept) -> u32 {
    if kept.owner && kept.group {
        mode & 0o7777
    } else if kept.group {
        mode & 0o777
    } else {
        let shared = mode & mode >> 3 & 0o7;
        mode & 0o700 | shared << 3 | shared
    }
}
