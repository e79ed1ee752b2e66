//! A comparison of files that are there. This file knows the process's streams, and no word of the program.

use crate::coding::{Coding, FileError};
use crate::compare::{CompareEnd, Telling, compare, compare_status};
use crate::files::{lock_place, read_input, write_output};
use crate::manner::{AnswerForm, Color};
use crate::refusals::refuse;
use crate::run::Outcome;
use crate::side_words::Comparison;
use crate::target::Target;
use ini_dialect::Encoding;
use std::io::{IsTerminal, Write};

/// Compares two files, and answers the exit status, which is 2 after whatever is refused.
///
/// No contract says what a stream gets; `tests/program/sides.sh` tests it.
pub fn compare_files(rt: &HostRuntime, named: Option<Encoding>, asked: &Comparison<'_>) -> u8 {
    let target = Target::of_comparison(*asked);
    let _lock = match lock_place(rt, target) {
        Ok(lock) => lock,
        Err(refusal) => return refuse_comparison(rt, asked, target.reported(), &[], refusal),
    };
    let from = match read_input(rt, named, asked.from) {
        Ok(input) => input.text,
        Err(refusal) => return refuse_comparison(rt, asked, asked.from, &[], refusal),
    };
    let to = match read_input(rt, named, asked.to) {
        Ok(input) => input.text,
        Err(refusal) => return refuse_comparison(rt, asked, asked.to, &[], refusal),
    };
    let (from, to) = (from.as_slice(), to.as_slice());
    let telling = Telling {
        form: asked.choices.manner.form.unwrap_or(AnswerForm::Lines),
        is_colored: has_colors(rt, asked, target),
        with_comments: asked.choices.switches.comments,
    };
    let end = compare(rt.alloc(), asked.ruled, telling, from, to);
    let status = compare_status(&end);
    match end {
        CompareEnd::Done(files) => {
            let lines = files.lines.as_slice();
            let written = write_output(rt, Coding::told(), target, None, lines);
            let _ = rt.stderr().write_all(files.others.as_slice());
            match written {
                Ok(()) => status,
                Err(refusal) => refuse_comparison(rt, asked, target.reported(), &[], refusal),
            }
        }
        CompareEnd::From(refusal) => refuse_comparison(rt, asked, asked.from, from, refusal.into()),
        CompareEnd::To(refusal) => refuse_comparison(rt, asked, asked.to, to, refusal.into()),
    }
}

// Whether lines have colours: `auto` stands for a terminal.
fn has_colors(rt: &HostRuntime, asked: &Comparison<'_>, target: Target<'_>) -> bool {
    match asked.choices.manner.color.unwrap_or(Color::Auto) {
        Color::Always => true,
        Color::Never => false,
        Color::Auto => target.place == "-" && rt.stdout().is_terminal(),
    }
}

// Tells what is refused of a file.
fn refuse_comparison(
    rt: &HostRuntime,
    asked: &Comparison<'_>,
    file: &str,
    input: &[u8],
    refusal: FileError,
) -> u8 {
    let outcome = Outcome::from(refusal);
    refuse(rt, asked.ruled.options.reading, file, input, &outcome);
    2
}
