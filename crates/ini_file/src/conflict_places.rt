//! Where the pairs of a conflict stand in the three files of a merge, told on standard error. This file knows
//! no word of the program.
//!
//! No contract says what a stream gets; `tests/program/sides.sh` tests it.

use crate::bytes::text_of;
use crate::diagnosis::end_of;
use crate::merge::load;
use crate::ruled::Ruled;
use crate::shown::Shown;
use crate::side_words::ThreeWay;
use crate::value_places::pair_place;
use crate::words::Wanted;
use ini::Error;
use ini_edit::Source;
use ini_layers::{Change, FlatSides};
use std::alloc::Global;
use std::io::Write;

/// Tells of each conflict where its pairs begin, a line each, by file, line and column.
pub fn tell_places(
    rt: &HostRuntime,
    asked: &ThreeWay<'_>,
    base: &[u8],
    ours: &[u8],
    theirs: &[u8],
) {
    if let Ok(lines) = place_lines(rt.alloc(), asked, [base, ours, theirs]) {
        let _ = rt.stderr().write_all(lines.as_bytes());
    }
}

// A line for each conflict.
fn place_lines(alloc: Global, asked: &ThreeWay<'_>, files: [&[u8]; 3]) -> Result<String, Error> {
    let [base_bytes, ours_bytes, theirs_bytes] = files;
    let sides = flat_sides(alloc, asked.ruled, base_bytes, ours_bytes, theirs_bytes)?;
    let mut lines = String::new(alloc);
    for conflict in sides.conflicts(alloc)?.as_slice() {
        push_line(alloc, &mut lines, asked, files, conflict.change)?;
    }
    Ok(lines)
}

// Puts the line of a conflict last: the places of the pairs that are there.
fn push_line(
    alloc: Global,
    lines: &mut String,
    asked: &ThreeWay<'_>,
    files: [&[u8]; 3],
    change: Change<'_>,
) -> Result<(), Error> {
    let names = [asked.base, asked.ours, asked.theirs];
    let key = Shown(change.key);
    let setting = match change.name.map(Shown) {
        Some(name) => format!(in alloc; "note: [{name}] {key}")?,
        None => format!(in alloc; "note: {key}")?,
    };
    lines.push_str(setting.as_str())?;
    let mut is_first = true;
    for (name, bytes) in names.iter().zip(files.iter()) {
        if let Some((line, column)) = place_of(alloc, asked.ruled, *bytes, change)? {
            let (between, name) = (if is_first { ": " } else { ", " }, Shown(*name));
            let place = format!(in alloc; "{between}{name}:{line}:{column}")?;
            lines.push_str(place.as_str())?;
            is_first = false;
        }
    }
    lines.push_str("\n")?;
    Ok(())
}

/// What three files answer under a rule.
pub fn flat_sides(
    alloc: Global,
    ruled: Ruled<'_>,
    base: &[u8],
    ours: &[u8],
    theirs: &[u8],
) -> Result<FlatSides, Error> {
    let read = ruled.options.reading;
    let base = load(alloc, read, base)?;
    let ours = load(alloc, read, ours)?;
    let (_, text) = text_of(theirs)?;
    let theirs = Source::read(alloc, text, read)?;
    FlatSides::by(alloc, ruled.which, ruled.rule, &base, &ours, &theirs)
}

// The line and the column at which the pair of a setting that counts begins in a file, if it is there.
fn place_of(
    alloc: Global,
    ruled: Ruled<'_>,
    file: &[u8],
    change: Change<'_>,
) -> Result<Option<(usize, usize)>, Error> {
    let (_, text) = text_of(file)?;
    let (section, default) = (change.name, None);
    let wanted = Wanted {
        rule: ruled.rule,
        key: change.key,
        section,
        all: false,
        default,
        null: false,
    };
    let Some(place) = pair_place(alloc, text, ruled.options.reading, wanted) else {
        return Ok(None);
    };
    Ok(text.get(..place).map(end_of))
}
