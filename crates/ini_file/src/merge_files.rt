//! A merge of files that are there: they are read, what they make is handed on, and what is refused is
//! reported. This file knows the process's streams, and no word of the program.

use crate::coding::{Coding, FileError};
use crate::files::{lock_place, read_file, read_input, write_output};
use crate::merge::{MergeEnd, load_all, merge};
use crate::merge_words::Merging;
use crate::notes::note_reason;
use crate::reasons::{Help, Reason};
use crate::refusals::refuse;
use crate::ruled_merge::settings_by;
use crate::run::Outcome;
use crate::target::Target;
use crate::unwritable::reason_of;
use ini_dialect::Encoding;
use ini_edit::{Edit, EditError};
use std::alloc::{AllocError, Global};

/// Merges the files, and answers the exit status. All of them are read before anything is written, and where
/// one is refused nothing is. A file that isn't there is made; another one must be there.
///
/// No contract says what a disk gets; `tests/files.sh` tests it.
pub fn merge_files(rt: &HostRuntime, named: Option<Encoding>, merging: &Merging<'_>) -> u8 {
    let read = merging.ruled.options.reading;
    let mut others = Vec::new(rt.alloc());
    for other in merging.others {
        let refused = match read_input(rt, named, other.as_str()) {
            Ok(input) => others
                .push(input.text)
                .is_err()
                .then_some(FileError::from(AllocError)),
            Err(refusal) => Some(refusal),
        };
        if let Some(refusal) = refused {
            return refuse(rt, read, other.as_str(), &[], &Outcome::from(refusal));
        }
    }
    let target = Target::of_merging(*merging);
    let _lock = match lock_place(rt, target) {
        Ok(lock) => lock,
        Err(refusal) => return refuse(rt, read, target.reported(), &[], &Outcome::from(refusal)),
    };
    let others = others.as_slice();
    match read_file(rt, named, target) {
        Ok(Some(input)) => {
            let (text, coding) = (input.text.as_slice(), input.coding);
            merge_read(rt, coding, merging, Some(text), others)
        }
        Ok(None) => merge_read(rt, Coding::of_bytes(b"", named), merging, None, others),
        Err(refusal) => refuse(rt, read, merging.file, &[], &Outcome::from(refusal)),
    }
}

// Merges files that were read; of the file nothing was read where it isn't there.
fn merge_read(
    rt: &HostRuntime,
    coding: Coding,
    merging: &Merging<'_>,
    old: Option<&[u8]>,
    others: &[Vec<u8>],
) -> u8 {
    let (read, file) = (merging.ruled.options.reading, merging.file);
    let input = old.unwrap_or(&[]);
    match merge(rt.alloc(), merging.ruled, input, others) {
        MergeEnd::Done(bytes) => {
            let target = Target::of_merging(*merging);
            match write_output(rt, coding, target, old, bytes.as_slice()) {
                Ok(()) => 0,
                Err(refusal) => refuse(rt, read, target.reported(), &[], &Outcome::from(refusal)),
            }
        }
        MergeEnd::Other(index, refusal) => {
            let name = merging.others.get(index).map_or("", |name| name.as_str());
            let bytes = others.get(index).map_or(input, |bytes| bytes.as_slice());
            refuse(rt, read, name, bytes, &Outcome::from(refusal))
        }
        MergeEnd::File(refusal) => refuse(rt, read, file, input, &Outcome::from(refusal)),
        MergeEnd::GetsMark => {
            let refused = refuse(rt, read, file, input, &Outcome::Refused(EditError::Key));
            note_reason(rt, Reason::ByteOrderMark, None);
            refused
        }
        MergeEnd::Edit(refused) => match refused.refusal {
            EditError::Text(refusal) => refuse(rt, read, file, input, &Outcome::from(refusal)),
            refusal => refuse_setting(rt, merging, others, refused.index, refusal),
        },
    }
}

// Tells that a pair of other files can't be set, and why.
fn refuse_setting(
    rt: &HostRuntime,
    merging: &Merging<'_>,
    others: &[Vec<u8>],
    index: usize,
    refusal: EditError,
) -> u8 {
    let (read, file) = (merging.ruled.options.reading, merging.file);
    let found = setting_at(rt.alloc(), merging, others, index, &refusal);
    let outcome = Outcome::Refused(refusal);
    let Ok((name, reason)) = found else {
        return refuse(rt, read, file, &[], &outcome);
    };
    let refused = refuse(rt, read, name.as_str(), &[], &outcome);
    if let Some((reason, help)) = reason {
        note_reason(rt, reason, help);
    }
    refused
}

// The file, and the section and the key that the edit with this number sets there; and why it is refused.
fn setting_at(
    alloc: Global,
    merging: &Merging<'_>,
    others: &[Vec<u8>],
    index: usize,
    refusal: &EditError,
) -> Result<(String, Option<(Reason, Option<Help>)>), AllocError> {
    let Ok(documents) = load_all(alloc, merging.ruled.options.reading, others) else {
        return Err(AllocError);
    };
    let edits = settings_by(alloc, merging.ruled.rule, &documents)?;
    let file = merging.file;
    let edit = *edits.get(index).ok_or(AllocError)?;
    let reason = reason_of(Some(edit), merging.ruled.options, refusal);
    let Edit::Set { name, key, .. } = edit else {
        return Err(AllocError);
    };
    Ok((setting_of_file(alloc, file, name, key)?, reason))
}

/// A setting of a file, as it is told.
pub(crate) fn setting_of_file(
    alloc: Global,
    file: &str,
    name: Option<&str>,
    key: &str,
) -> Result<String, AllocError> {
    match name {
        None => Ok(format!(in alloc; "{file}: {key}")?),
        Some(name) => Ok(format!(in alloc; "{file}: [{name}] {key}")?),
    }
}
