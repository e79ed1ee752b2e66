//! Replays cases: rows of files, each with the answer that it wants beside it, asked of the public calls of
//! `ini` and `ini_edit`.
//!
//! The words of the program name the files. It prints each row that answers something else or can't be
//! read, and last the number of rows and of those.
//!
//! In a file an empty line, or one that begins with `#`, says nothing. A line that begins with a letter is
//! a heading: what is asked, a name, and the options that differ from the default ones. A line that begins
//! with a blank is a row: words, texts in quotes as Rust spells them (`"..."` or `r"..."`), then `=>` and
//! the answer, a text too. A line that begins with `=>`, `with` or `then` goes on with the row above it. A
//! row without an answer is to answer nothing.
#![tactic(auto)]

mod document;
mod edit;
mod edit_list;
mod file;
mod option;
mod places;
mod plain;
mod properties;
mod random;
mod random_edits;
mod replay;
mod show;
mod text;
mod token;
mod view;
mod walk;

use crate::replay::Replay;
use ini::Error;
use std::process::ExitCode;
use std::{env, fs};

// Asks the rows of the files that the process's words name, and prints what comes of it.
fn run(rt: &HostRuntime) -> Result<bool, Error> {
    let mut replay = Replay::new(rt.alloc());
    for name in env::args(rt)?.skip(1) {
        let text = fs::read_to_string(rt, name.as_str())?;
        replay.ask_file(rt, text.as_str())?;
    }
    let report = replay.report()?;
    println!(rt; "{report}")?;
    Ok(replay.agrees())
}

fn main(rt: HostRuntime) -> Result<ExitCode, Error> {
    if run(&rt)? {
        Ok(ExitCode::SUCCESS)
    } else {
        Ok(ExitCode::FAILURE)
    }
}
