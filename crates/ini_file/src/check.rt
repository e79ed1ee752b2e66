//! The check of a file: what is reported of its warnings, and the exit status. This file knows no word of the
//! program and no device.
ghost use Rattle.std.specs.Prelude.{◌≡◌, ◌++◌, IfErr, IfOk, IsOkUnless, OnOk, alloc_error, chars, flat_map};
ghost use Rattle.ini_text.specs.declared.error.Error.TheVariants.{Memory};
ghost use Rattle.ini.specs.Loading.{IfParse, IsParseOrMemory, IsStopOf};
ghost use Rattle.ini_file.specs.CheckWords.{reporter_of};
ghost use Rattle.ini_file.specs.Checks.{AreReports, IsChecked, check_status, report};

use crate::bytes::text_of;
use crate::check_words::Check;
use crate::report::push_report;
use ini::Error;
use ini_check::{Warning, check};
use std::alloc::{AllocError, Global};

/// What is written of the warnings of a file with this name and these bytes, those that the check reports, in
/// its form: as a line, the file, the line, the column and the trap, as in
/// `settings.ini:1:8: warning: a backslash begins an escape in this value`. A mark at the bytes' front is no
/// part of the text. In SARIF a result stands after a comma.
///
/// # Errors
///
/// `NotUtf8`; `Parse` where reading the text stops, with its place; `Memory`. Nothing is written then.
pub fn check_file(
    alloc: Global,
    asked: &Check<'_>,
    file: &str,
    input: &[u8],
) -> Result<Vec<u8>, Error>
    ensures { IsChecked asked.now.reading asked.now.made.format (reporter_of asked.now.reporting)
        file.now input.now result }
{
    match text_of(input) {
        Ok((_, text)) => reports_of_text(alloc, asked, file, text),
        Err(refused) => Err(refused),
    }
}

// What is written of the warnings of a text.
fn reports_of_text(
    alloc: Global,
    asked: &Check<'_>,
    file: &str,
    text: &str,
) -> Result<Vec<u8>, Error>
    ensures reports { IfOk result (λ reports. AreReports asked.now.reading asked.now.made.format
        (reporter_of asked.now.reporting) file.now (chars text.now) reports.items) }
    ensures fault { IfParse result (IsStopOf asked.now.reading (chars text.now)) }
    ensures only { IfErr result IsParseOrMemory }
{
    let warnings = check(alloc, text, asked.reading)?;
    reports_of(alloc, asked, file, warnings.as_slice())
}

// What is written of warnings.
fn reports_of(
    alloc: Global,
    asked: &Check<'_>,
    file: &str,
    warnings: &[Warning],
) -> Result<Vec<u8>, Error>
    ensures reports { IfOk result (λ reports. reports.items ≡ flat_map
        (report asked.now.made.format (reporter_of asked.now.reporting) file.now) warnings.now) }
    ensures only { IsOkUnless result (Memory alloc_error) }
{
    let mut reports = Vec::new(alloc);
    for warning in warnings {
        push_reported(alloc, &mut reports, asked, file, *warning)?;
    }
    Ok(reports)
}

// Puts last what is written of a warning, if the check reports its trap.
fn push_reported(
    alloc: Global,
    reports: &mut Vec<u8>,
    asked: &Check<'_>,
    file: &str,
    warning: Warning,
) -> Result<(), AllocError>
    ensures { OnOk result (reports.new.items ≡ reports.old.items
        ++ report asked.now.made.format (reporter_of asked.now.reporting) file.now warning) }
{
    if asked.reporting.reports(warning.trap) {
        push_report(alloc, reports, asked.made.format, file, warning)
    } else {
        Ok(())
    }
}

/// The exit status of a file's check: 0 nothing reported, 1 warnings, 3 a refused text, 4 refused memory or a
/// device that failed.
pub fn status_of_check(checked: &Result<Vec<u8>, Error>) -> u8
    ensures { result ≡ check_status checked.now }
{
    match checked {
        Ok(reports) if reports.is_empty() => 0,
        Ok(_) => 1,
        Err(Error::Parse(_) | Error::NotUtf8) => 3,
        Err(Error::Io(_) | Error::Memory(_) | Error::NoProgress) => 4,
    }
}
