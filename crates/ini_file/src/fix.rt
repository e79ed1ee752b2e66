//! A file's bytes with the traps mended that a check reports. This file knows no word of the program and no
//! device.
ghost use Rattle.std.specs.Prelude.{◌≡◌, ◌++◌, ◌∷◌, [], IfErr, IfOk, OnOk, chars, filter};
ghost use Rattle.ini.specs.Loading.{IfParse, IsParseOrMemory, IsStopOf};
ghost use Rattle.ini_file.specs.CheckWords.{reporter_of, reports};
ghost use Rattle.ini_file.specs.Fixes.{IsFixed, IsMendedAfter, fixed_traps};

use crate::bytes::{concat, text_of};
use crate::check_words::Check;
use crate::reported::Reporting;
use ini::Error;
use ini_check::{Trap, mend, mended_traps};
use std::alloc::{AllocError, Global};

/// The bytes of a file with the traps mended that the check reports, where that is better. A mark at their
/// front stays.
///
/// # Errors
///
/// `NotUtf8`; `Parse` where reading the text stops, with its place; `Memory`.
pub fn fix(alloc: Global, asked: &Check<'_>, input: &[u8]) -> Result<Vec<u8>, Error>
    ensures { IsFixed asked.now.reading (reporter_of asked.now.reporting) input.now result }
{
    match text_of(input) {
        Ok((mark, text)) => fix_text(alloc, asked, mark, text),
        Err(refused) => Err(refused),
    }
}

// The bytes of a mark and of a text with its traps mended.
fn fix_text(alloc: Global, asked: &Check<'_>, mark: &[u8], text: &str) -> Result<Vec<u8>, Error>
    ensures mended { IfOk result (λ fixed. IsMendedAfter asked.now.reading
        (fixed_traps (reporter_of asked.now.reporting)) mark.now (chars text.now) fixed.items) }
    ensures fault { IfParse result (IsStopOf asked.now.reading (chars text.now)) }
    ensures only { IfErr result IsParseOrMemory }
{
    let traps = reported_of(alloc, mended_traps(), asked.reporting)?;
    let made = mend(alloc, text, asked.reading, traps.as_slice())?;
    let fixed = concat(alloc, mark, made.as_str())?;
    Ok(fixed)
}

// Those of some traps that are reported.
fn reported_of(
    alloc: Global,
    given: &[Trap],
    reporting: Reporting<'_>,
) -> Result<Vec<Trap>, AllocError>
    ensures { IfOk result (λ traps. traps.items
        ≡ filter (reports (reporter_of reporting.entry)) given.now) }
{
    let mut traps = Vec::new(alloc);
    let mut rest = given;
    'traps: while let Some((trap, more)) = rest.split_first() {
        push_reported(&mut traps, *trap, reporting)?;
        rest = more;
    }
    Ok(traps)
}

// Puts a trap last, if it is reported.
fn push_reported(
    traps: &mut Vec<Trap>,
    trap: Trap,
    reporting: Reporting<'_>,
) -> Result<(), AllocError>
    ensures { OnOk result (traps.new.items ≡ traps.old.items
        ++ filter (reports (reporter_of reporting.entry)) (trap ∷ [])) }
{
    if reporting.reports(trap) {
        traps.push(trap)?;
    }
    Ok(())
}
