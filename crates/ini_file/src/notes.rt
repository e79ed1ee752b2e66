//! Lines on standard error after a run: what its caller may want to know. This file knows no text.
//!
//! No contract says what is printed; `tests/saving.sh` and `tests/words.sh` test it.

use crate::reasons::{Help, Reason};
use crate::shown::Shown;
use ini_check::Warning;
use std::io::{self, Write};

/// Prints what is to be known of a file, with the fault that it comes from. A fault of the stream is
/// dropped.
pub fn note(rt: &HostRuntime, file: &str, words: &str, fault: Option<&io::Error>) {
    let file = Shown(file);
    let mut err = rt.stderr();
    let _ = match fault {
        Some(fault) => writeln!(err, "ini_file: {file}: note: {words}: {fault}"),
        None => writeln!(err, "ini_file: {file}: note: {words}"),
    };
}

/// Prints why words can't be written, and which option helps, if one does.
pub fn note_reason(rt: &HostRuntime, reason: Reason, help: Option<Help>) {
    let (words, mut err) = (reason.words(), rt.stderr());
    let _ = match help {
        Some(help) => writeln!(err, "note: {words}: use {}", help.words()),
        None => writeln!(err, "note: {words}"),
    };
}

/// Prints what may have hidden a pair in a file.
pub fn note_hint(rt: &HostRuntime, file: &str, warning: Warning) {
    let (file, words) = (Shown(file), warning.trap.message());
    let _ = writeln!(
        rt.stderr(),
        "note: {file}:{}:{}: {words}",
        warning.line,
        warning.column
    );
}

/// Prints as which dialect a file is read.
pub fn note_dialect(rt: &HostRuntime, file: &str, name: &str) {
    let file = Shown(file);
    let _ = writeln!(rt.stderr(), "note: {file}: read as {name}");
}

/// Prints whether a file is changed.
pub fn tell_change(rt: &HostRuntime, is_changed: bool) {
    let line: &[u8] = if is_changed {
        b"changed\n"
    } else {
        b"unchanged\n"
    };
    let _ = rt.stderr().write_all(line);
}
