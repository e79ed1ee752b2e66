//! A refusal, reported on standard error. This file knows the process's streams, and no word of the program.

use crate::diagnosis::{show_byte, show_fault};
use crate::run::{Outcome, status, tell};
use ini::{Error, ParseOption};
use ini_edit::EditError;

/// Tells of a file how a run over it ended, and shows the place of a text's fault; and answers the status.
///
/// No contract says what is printed; `tests/files.sh` tests it.
pub fn refuse(
    rt: &HostRuntime,
    read: ParseOption,
    file: &str,
    input: &[u8],
    outcome: &Outcome,
) -> u8 {
    let mut err = rt.stderr();
    match outcome {
        Outcome::Refused(EditError::Text(Error::Parse(fault))) => {
            show_fault(rt.alloc(), file, input, read, fault, &mut err);
        }
        Outcome::Refused(EditError::Text(Error::NotUtf8)) => show_byte(file, input, &mut err),
        _ => tell(file, outcome, &mut err),
    }
    status(outcome)
}
