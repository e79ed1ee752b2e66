//! Case files, line by line: rows under headings, and whether a row's answer is the one beside it.
use crate::document::Desk;
use crate::option::Options;
use crate::plain::count_over;
use crate::properties::List;
use crate::token::{Token, tokens, unreadable};
use crate::{edit, edit_list, file, random_edits, text};
use ini::Error;
use std::alloc::Global;
use std::mem;

// What the rows under a heading ask.
#[derive(Drop)]
enum Subject {
    Document(Desk),
    Properties(List),
    Text(Question),
}

// What is asked of each text, and the options.
#[derive(Drop)]
struct Question {
    asks: String,
    options: Options,
}

/// How many rows were asked, how many differed, and what is reported of those.
#[derive(Drop)]
pub struct Replay {
    alloc: Global,
    report: String,
    rows: u64,
    differing: u64,
    heading: String,
    subject: Option<Subject>,
    has_rows: bool,
    row: String,
}

// The subject of a heading: what it asks, its name, and its options.
fn subject_of(alloc: Global, heading: &str) -> Result<Subject, Error> {
    let words = tokens(alloc, heading)?;
    let mut options = Options::new(alloc);
    for word in words.iter().skip(2) {
        options.set(word)?;
    }
    match words.as_slice() {
        [Token::Word(asks), Token::Word(_), ..] if asks.as_str() == "document" => {
            Ok(Subject::Document(Desk::new(alloc, options)?))
        }
        [Token::Word(asks), Token::Word(_)] if asks.as_str() == "properties" => {
            Ok(Subject::Properties(List::new(alloc)))
        }
        [Token::Word(asks), Token::Word(_), ..] => {
            let asks = asks.clone()?;
            Ok(Subject::Text(Question { asks, options }))
        }
        _ => Err(unreadable("no heading")),
    }
}

// A row's question, and the answer that it wants. One that wants none is to answer nothing.
fn parted(row: &[Token]) -> (&[Token], &[u8]) {
    match row {
        [question @ .., Token::Word(arrow), Token::Text(want)] if arrow.as_str() == "=>" => {
            (question, want.as_slice())
        }
        question => (question, b"".as_slice()),
    }
}

// Whether a line goes on with the row above it.
fn goes_on(line: &str) -> bool {
    for front in ["=>", "with ", "then "] {
        if line.starts_with(front) {
            return true;
        }
    }
    false
}

fn answer(rt: &HostRuntime, subject: &mut Subject, row: &[Token]) -> Result<String, Error> {
    match subject {
        Subject::Document(desk) => desk.answer(row),
        Subject::Properties(list) => list.answer(row),
        Subject::Text(question) => question.answer(rt, row),
    }
}

impl Question {
    fn answer(&self, rt: &HostRuntime, row: &[Token]) -> Result<String, Error> {
        let asks = self.asks.as_str();
        match row {
            row if asks == "edit" => edit::answer(rt.alloc(), row, &self.options),
            row if asks == "edit_list" => edit_list::answer(rt.alloc(), row, &self.options),
            row if asks == "random_edits" => random_edits::answer(rt.alloc(), row),
            [Token::Text(bytes)] if asks.contains("_file") => {
                file::answer(rt, asks, bytes.as_slice(), &self.options)
            }
            [Token::Text(bytes)] => {
                text::answer(rt.alloc(), asks, bytes.as_slice(), &self.options)
            }
            row => of_texts(rt.alloc(), asks, row),
        }
    }
}

// A question about some texts, the word `with`, and some more.
fn of_texts(alloc: Global, asks: &str, row: &[Token]) -> Result<String, Error> {
    for (at, token) in row.iter().enumerate() {
        match token {
            Token::Word(word) if word.as_str() == "with" => {
                let (firsts, rest) = row.split_at(at);
                return count_over(alloc, asks, firsts, rest.get(1..).unwrap_or(&[]));
            }
            _ => {}
        }
    }
    Err(unreadable("one text is wanted"))
}

impl Replay {
    /// No row yet.
    pub fn new(alloc: Global) -> Replay {
        Replay {
            alloc,
            report: String::new(alloc),
            rows: 0,
            differing: 0,
            heading: String::new(alloc),
            subject: None,
            has_rows: true,
            row: String::new(alloc),
        }
    }

    /// Asks the rows of a file.
    pub fn ask_file(&mut self, rt: &HostRuntime, text: &str) -> Result<(), Error> {
        for line in text.lines() {
            self.take(rt, line)?;
        }
        self.head(rt, "")
    }

    fn take(&mut self, rt: &HostRuntime, line: &str) -> Result<(), Error> {
        if line.is_empty() || line.starts_with('#') {
            return Ok(());
        }
        if !line.starts_with(' ') {
            return self.head(rt, line);
        }
        if !goes_on(line.trim_start()) {
            self.ask(rt)?;
        }
        self.row.push_str(line)?;
        Ok(())
    }

    // Ends the rows of a heading, which has to have some.
    fn end_rows(&mut self, rt: &HostRuntime) -> Result<(), Error> {
        self.ask(rt)?;
        if self.has_rows {
            Ok(())
        } else {
            self.tell("no rows")
        }
    }

    // Ends the rows of a heading, and begins those of another; of none where the line is empty.
    fn head(&mut self, rt: &HostRuntime, line: &str) -> Result<(), Error> {
        self.end_rows(rt)?;
        self.heading.clear();
        self.heading.push_str(line)?;
        self.has_rows = line.is_empty();
        self.subject = None;
        if line.is_empty() {
            return Ok(());
        }
        match subject_of(self.alloc, line) {
            Ok(subject) => {
                self.subject = Some(subject);
                Ok(())
            }
            Err(fault) => self.tell(fault.to_string(self.alloc)?.as_str()),
        }
    }

    // Asks the row that was gathered, if there is one.
    fn ask(&mut self, rt: &HostRuntime) -> Result<(), Error> {
        if self.row.is_empty() {
            return Ok(());
        }
        let row = mem::replace(&mut self.row, String::new(self.alloc));
        self.rows = self.rows.saturating_add(1);
        self.has_rows = true;
        match self.difference(rt, row.as_str()) {
            Ok(None) => Ok(()),
            Ok(Some(answer)) => {
                let reported = format!(in self.alloc; "{row}\n    gave {answer:?}")?;
                self.tell(reported.as_str())
            }
            Err(fault) => {
                let reported = format!(in self.alloc; "{row}\n    was refused: {fault}")?;
                self.tell(reported.as_str())
            }
        }
    }

    // What the row answers, where that isn't what it wants.
    fn difference(&mut self, rt: &HostRuntime, row: &str) -> Result<Option<String>, Error> {
        let row = tokens(self.alloc, row)?;
        let (question, want) = parted(row.as_slice());
        let Some(subject) = &mut self.subject else {
            return Err(unreadable("no heading"));
        };
        let answer = answer(rt, subject, question)?;
        if answer.as_bytes() == want {
            Ok(None)
        } else {
            Ok(Some(answer))
        }
    }

    fn tell(&mut self, fault: &str) -> Result<(), Error> {
        self.differing = self.differing.saturating_add(1);
        let reported = format!(in self.alloc; "{}:\n{fault}\n", self.heading)?;
        self.report.push_str(reported.as_str())?;
        Ok(())
    }

    /// Whether every row was answered as it wants.
    pub fn agrees(&self) -> bool {
        self.differing == 0
    }

    /// What is reported of the rows that differ, and the numbers of both.
    pub fn report(&self) -> Result<String, Error> {
        Ok(format!(in self.alloc;
            "{}{} rows, {} differ",
            self.report, self.rows, self.differing
        )?)
    }
}
