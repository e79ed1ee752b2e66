//! Questions, each a line, with their answers: for a comparison with another program, and to be measured.
//!
//! The first word of a line of standard input says what it asks, and what follows it is the question. With
//! one of these words as the program's own, every line asks that, and is the question alone:
//!
//! - `answers`: what loading a text gives, or what is written of it then (`answers.rt`);
//! - `edits`: the new text that an edit gives (`edits.rt`);
//! - `pieces`: what edits of a text in pieces make of it, one after another (`pieces.rt`);
//! - `merges`: what a three-way merge makes of three texts (`merges.rt`);
//! - `calls`: many calls of one kind on one document (`calls.rt`);
//! - `files`: a file that is loaded or saved again and again (`calls/files.rt`);
//! - `pairs`: steps on a multimap (`calls/multimap.rt`);
//! - `counts`: how many items a text has (`items.rt`).
//!
//! For each there is a line of standard output. It is `no question` where the line is none.
//!
//! With another word standard input is one text: `items` and `elements` write how many of these it has, any
//! other what one call makes of it (`edits/timed.rt`).
#![tactic(auto)]

mod answers;
mod calls;
mod edits;
mod hex;
mod items;
mod merges;
mod options;
mod pieces;

use crate::edits::timed::timed;
use crate::items::{elements, items};
use ini::Error;
use std::env;
use std::io::{self, BufRead, BufReader, BufWriter, ErrorKind, Write};

// What a question is answered.
fn answer(rt: &HostRuntime, asks: &str, question: &str) -> Result<String, Error> {
    match asks {
        "answers" => answers::answer(rt.alloc(), question),
        "edits" => edits::answer(rt.alloc(), question),
        "pieces" => pieces::answer(rt.alloc(), question),
        "merges" => merges::answer(rt.alloc(), question),
        "calls" => calls::answer(rt.alloc(), question),
        "files" => calls::files::answer(rt, question),
        "pairs" => calls::multimap::answer(rt.alloc(), question),
        "counts" => items::answer(rt.alloc(), question),
        _ => Err(io::Error::from(ErrorKind::InvalidInput).into()),
    }
}

// Whether the line was no question.
fn asks_nothing(answer: &Result<String, Error>) -> bool {
    match answer {
        Err(Error::Io(refusal)) => refusal.kind() == ErrorKind::InvalidInput,
        _ => false,
    }
}

// The answer to a line, whose first word says what it asks where no word of the program does.
fn answer_of_line(rt: &HostRuntime, asks: Option<&str>, line: &str) -> Result<String, Error> {
    let answer = match asks {
        Some(asks) => answer(rt, asks, line),
        None => match line.split_once(' ') {
            Some((asks, question)) => answer(rt, asks, question),
            None => answer(rt, "", line),
        },
    };
    if asks_nothing(&answer) {
        return Ok(String::from_str(rt.alloc(), "no question")?);
    }
    answer
}

// Answers each line of standard input.
fn replay(rt: &HostRuntime, asks: Option<&str>) -> Result<(), Error> {
    let mut output = BufWriter::new(rt.alloc(), rt.stdout())?;
    let input = BufReader::new(rt.alloc(), rt.stdin())?;
    for line in input.lines(rt.alloc()) {
        let answer = answer_of_line(rt, asks, line?.as_str())?;
        writeln!(output, "{answer}")?;
    }
    output.flush()?;
    Ok(())
}

// Makes the call of standard input's text, and writes the number that it answers.
fn measure(rt: &HostRuntime, call: &str) -> Result<(), Error> {
    let text = io::read_to_string(rt.alloc(), rt.stdin())?;
    let number = match call {
        "items" => items(rt.alloc(), text.as_str())?,
        "elements" => elements(rt.alloc(), text.as_str())?,
        _ => timed(rt.alloc(), call, text.as_str())?,
    };
    println!(rt; "{number}")?;
    Ok(())
}

fn main(rt: HostRuntime) -> Result<(), Error> {
    let word = env::args(&rt)?.nth(1);
    match word.as_deref() {
        Some("answers" | "edits" | "pieces" | "merges" | "calls" | "files" | "pairs") | None => {
            replay(&rt, word.as_deref())
        }
        Some(call) => measure(&rt, call),
    }
}
