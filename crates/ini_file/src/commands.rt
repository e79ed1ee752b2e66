//! The commands of the program and their arguments, as the help has them. This file knows no word that was
//! typed.
//!
//! No contract says what the help is; `tests/words.sh` compares what is printed of each command with it.

use crate::choices::{answers, writes_pairs, writes_texts};
use crate::manner::AnswerForm;
use crate::order::before_section;
use crate::page::HELP;
use crate::report_format::Format;
use std::fmt;

/// The commands.
pub const COMMANDS: &str =
    "get keys sections list set add delete unset-all comment uncomment add-section delete-section \
    rename-key rename-section merge layers diff apply merge3 rewrite format check";

/// The names of the forms that commands write.
pub const FORMS: [&str; 7] = ["lines", "json", "sh", "ini", "edits", "sarif", "github"];

/// A command and what it takes.
#[derive(Clone, Copy)]
pub struct Shape {
    /// Its name.
    pub command: &'static str,
    /// Its arguments, as the help has them; one in brackets may be missing, and of one before `..` there may
    /// be more.
    pub arguments: &'static str,
}

impl Shape {
    /// Whether the command takes the choice of this name; what is about a file that is written, where it
    /// writes one.
    pub fn takes(self, choice: &str) -> bool {
        let command = self.command;
        match choice {
            "--existing" => command == "set",
            "--all" => matches!(command, "get" | "sections" | "set"),
            "--origin" => matches!(command, "list" | "layers"),
            "--last" | "--default" | "--type" => command == "get",
            "--null" => writes_texts(command) || matches!(command, "check" | "layers"),
            "--format" => FORMS.iter().any(|form| self.writes(form)),
            "--color" | "--comments" => command == "diff",
            "--lists" => matches!(command, "diff" | "apply" | "merge3"),
            "--reverse" => command == "apply",
            "--allow" | "--deny" | "--fix" | "--suggest" => command == "check",
            "--check" | "--align" | "--indent-pairs" | "--blank-lines" | "--sort" => {
                command == "format"
            }
            "--separator" => writes_pairs(command),
            "--section" => before_section(command).is_some(),
            "--dry-run" => !answers(command),
            "--ours" | "--theirs" => command == "merge3",
            "--output" => command != "check",
            _ => true,
        }
    }

    /// Whether the command writes a form of this name.
    pub fn writes(self, form: &str) -> bool {
        if self.command == "check" {
            return Format::of_name(form).is_some();
        }
        AnswerForm::of_name(form).is_some_and(|form| form.is_of(self.command))
    }

    /// How many arguments there are at least.
    pub fn least(self) -> usize {
        let words = self.arguments.split(' ');
        words
            .filter(|word| !word.starts_with('[') && *word != "..")
            .count()
    }

    /// How many arguments there are at most.
    pub fn most(self) -> usize {
        if self.arguments.ends_with("..") {
            usize::MAX
        } else {
            self.arguments.split(' ').count()
        }
    }

    /// What the argument of this number is called, counted from 0.
    pub fn argument(self, index: usize) -> &'static str {
        let word = self.arguments.split(' ').nth(index).unwrap_or("a word");
        word.trim_matches(|c: char| c == '[' || c == ']')
    }
}

/// Prints the command and what it takes.
impl fmt::Display for Shape {
    fn fmt<W: fmt::Write>(&self, f: &mut fmt::Formatter<W>) -> fmt::Result {
        write!(f, "{} takes {}", self.command, self.arguments)
    }
}

/// The shape of a command, if there is one of the name.
pub fn shape_of(command: &str) -> Option<Shape> {
    for line in HELP.split('\n') {
        let Some(shape) = shape_in(line) else {
            continue;
        };
        if shape.command == command {
            return Some(shape);
        }
    }
    None
}

// The shape that a line of the help tells of, if it tells of a command.
fn shape_in(line: &'static str) -> Option<Shape> {
    let (words, _) = line.strip_prefix("  ")?.split_once("  ")?;
    let (command, arguments) = words.split_once(' ')?;
    if !command.starts_with(|c: char| c.is_ascii_lowercase()) {
        return None;
    }
    Some(Shape { command, arguments })
}

/// The command whose name is nearest to a word: of those that share two characters with it, at the front and
/// at the end, the one that shares most.
pub fn nearest(word: &str) -> Option<&'static str> {
    let mut best = None;
    let mut most = 1;
    for command in COMMANDS.split(' ') {
        let shared = shared_ends(word, command);
        if shared > most {
            most = shared;
            best = Some(command);
        }
    }
    best
}

// How many characters two words share at their front and at their end.
fn shared_ends(one: &str, other: &str) -> usize {
    let front = one.chars().zip(other.chars()).take_while(|p| p.0 == p.1);
    let back = one
        .chars()
        .rev()
        .zip(other.chars().rev())
        .take_while(|p| p.0 == p.1);
    front.count().saturating_add(back.count())
}
