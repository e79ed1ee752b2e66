//! The check of files that are there: their warnings go to standard output, and what is refused is reported.
//! This file knows the process's streams, and no word of the program.

use crate::check::{check_file, status_of_check};
use crate::check_words::Check;
use crate::coding::FileError;
use crate::files::{Input, lock_place, read_file, read_input, write_output};
use crate::fix::fix;
use crate::refusals::refuse;
use crate::report_format::Format;
use crate::run::Outcome;
use crate::sarif::document_of;
use crate::suggest::suggestions;
use crate::target::Target;
use ini::Error;
use ini_dialect::Encoding;
use std::alloc::AllocError;
use std::io::Write;

/// Looks at each file, in order, and tells its refusal; then writes what is reported of all warnings to
/// standard output, or to standard error where that gets mended text or its change. The answer is the
/// largest of the files' statuses, or 4 where it can't be written.
///
/// No contract says what a stream or a file gets; `tests/files.sh` tests it. Only what is mended is written.
pub fn check_files(rt: &HostRuntime, named: Option<Encoding>, check: &Check<'_>) -> u8 {
    let mut reports = Vec::new(rt.alloc());
    let mut worst = 0;
    for file in check.files {
        let found = check_one(rt, named, check, file.as_str(), &mut reports);
        worst = worst.max(found);
    }
    match write_reports(rt, check, reports) {
        Ok(()) => worst,
        Err(refusal) => {
            let outcome = Outcome::from(refusal);
            let status = refuse(rt, check.reading, "standard output", &[], &outcome);
            worst.max(status)
        }
    }
}

// Writes what is reported, in SARIF as one document.
fn write_reports(rt: &HostRuntime, check: &Check<'_>, reports: Vec<u8>) -> Result<(), Error> {
    let output = if check.made.format == Format::Sarif {
        document_of(rt.alloc(), reports.as_slice())?
    } else {
        reports
    };
    if writes_text(check) {
        return rt.stderr().write_all(output.as_slice()).map_err(Error::Io);
    }
    rt.stdout().write_all(output.as_slice()).map_err(Error::Io)
}

// Whether standard output gets mended text, or what would change.
fn writes_text(check: &Check<'_>) -> bool {
    let shows_change = check.made.switches.dry_run;
    check.made.fix && (shows_change || check.files.iter().any(|file| file.as_str() == "-"))
}

// Puts last what is reported of a file's warnings, or tells its refusal; and answers its status.
fn check_one(
    rt: &HostRuntime,
    named: Option<Encoding>,
    check: &Check<'_>,
    file: &str,
    reports: &mut Vec<u8>,
) -> u8 {
    let read = check.reading;
    let looked_at = if check.made.fix {
        fix_one(rt, named, check, file)
    } else {
        read_input(rt, named, file).map(|input| input.text)
    };
    let input = match looked_at {
        Ok(input) => input,
        Err(refusal) => return refuse(rt, read, file, &[], &Outcome::from(refusal)),
    };
    if check.made.suggest {
        return suggest_one(rt, check, file, input.as_slice(), reports);
    }
    let checked = check_file(rt.alloc(), check, file, input.as_slice());
    let found = status_of_check(&checked);
    let refusal = match checked {
        Ok(more) => match reports.extend_from_slice(more.as_slice()) {
            Ok(()) => return found,
            Err(_) => Error::Memory(AllocError),
        },
        Err(refusal) => refusal,
    };
    refuse(rt, read, file, input.as_slice(), &Outcome::from(refusal))
}

// Mends a file, and answers the bytes that it has then, or would have; where they are refused, its own.
fn fix_one(
    rt: &HostRuntime,
    named: Option<Encoding>,
    check: &Check<'_>,
    file: &str,
) -> Result<Vec<u8>, FileError> {
    let target = Target::of_fixing(check.made, check.wait, file);
    let _lock = lock_place(rt, target)?;
    let Some(Input { text, coding }) = read_file(rt, named, target)? else {
        return Ok(Vec::new(rt.alloc()));
    };
    let fixed = match fix(rt.alloc(), check, text.as_slice()) {
        Ok(fixed) => fixed,
        Err(Error::Parse(_) | Error::NotUtf8) => return Ok(text),
        Err(refusal) => return Err(FileError::Text(refusal)),
    };
    let (old, new) = (text.as_slice(), fixed.as_slice());
    write_output(rt, coding, target, Some(old), new)?;
    Ok(fixed)
}

// Puts last as which dialects a file can be read, or tells its refusal; and answers its status, 1 where there
// is none.
fn suggest_one(
    rt: &HostRuntime,
    check: &Check<'_>,
    file: &str,
    input: &[u8],
    reports: &mut Vec<u8>,
) -> u8 {
    let refusal = match suggestions(rt.alloc(), file, input) {
        Ok(lines) => match reports.extend_from_slice(lines.as_slice()) {
            Ok(()) => return u8::from(lines.is_empty()),
            Err(_) => Error::Memory(AllocError),
        },
        Err(refusal) => refusal,
    };
    refuse(rt, check.reading, file, input, &Outcome::from(refusal))
}
