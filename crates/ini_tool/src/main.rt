//! The program: reads an INI text from standard input, and writes to standard output what its words ask.
//!
//! `run` is the program as a function of its words and of two devices; this file hands it those of the
//! process, and nothing else: what is written is gathered in `run`, and no call of the output follows it.
#![tactic(auto)]

mod command;
mod reading;
mod run;
mod words;

use ini::{Error, Watched};
use ini_words::{Page, page_of, with_name, words_of};
use run::{Outcome, run, status, tell};
use std::io::Write;
use std::process::ExitCode;
use words::USAGE;

/// Runs over the process's own words and streams. A fault of a stream has its name.
fn run_here(rt: &HostRuntime) -> Result<Outcome, Error> {
    let words = words_of(rt, rt.alloc())?;
    if let Some(page) = page_of(words.as_slice()) {
        return print_page(rt, page);
    }
    let mut input = rt.stdin();
    let mut output = rt.stdout();
    let mut reader = Watched::new(&mut input);
    let mut writer = Watched::new(&mut output);
    let outcome = run(rt.alloc(), words.as_slice(), &mut reader, &mut writer);
    let stream = if reader.failures() > 0 {
        "standard input"
    } else {
        "standard output"
    };
    match outcome {
        Outcome::Refused(Error::Io(fault)) => Err(Error::Io(with_name(rt.alloc(), stream, fault))),
        outcome => Ok(outcome),
    }
}

// Prints what the program tells of itself.
fn print_page(rt: &HostRuntime, page: Page) -> Result<Outcome, Error> {
    let text = match page {
        Page::Help => USAGE,
        Page::Version => "ini_tool 0.3.0\n",
    };
    match rt.stdout().write_all(text.as_bytes()) {
        Ok(()) => Ok(Outcome::Done),
        Err(fault) => Err(Error::Io(with_name(rt.alloc(), "standard output", fault))),
    }
}

fn main(rt: HostRuntime) -> ExitCode {
    let outcome = match run_here(&rt) {
        Ok(outcome) => outcome,
        Err(refusal) => Outcome::Refused(refusal),
    };
    tell(&outcome, &mut rt.stderr());
    ExitCode::from(status(&outcome))
}
