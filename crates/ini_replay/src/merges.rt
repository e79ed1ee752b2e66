//! What a three-way merge makes of three texts, for a comparison with another program.
//!
//! A question has words with a space between them: five flags (`options.rt`); the escape policy by its name;
//! the line end, `LF` or `CRLF`; the separator; `ours` or `theirs`, whose values stand in conflicts; and the
//! texts: the base, ours and theirs. Separator and texts stand as the hexadecimal of their UTF-8.
//!
//! The answer is `new:` and the merged text, or `refused:` and why; and then a word for each conflict, whose
//! parts have a comma between them: the section, `G` or `S` and its name; the key; and the values of base,
//! ours and theirs, `-` for none, else `=` and the value. A text that is refused is answered alone.
use crate::hex::{push_hex, text_of_hex};
use crate::options::{
    invalid, policy_of_name, reading_of_flags, separator_of_line_end, separator_of_text,
};
use ini::{Error, Ini};
use ini_dialect::Lookup;
use ini_edit::{EditError, RefusedEdit, Source};
use ini_layers::{Conflict, FlatSides, SettingValue, Side, merge};
use ini_text::{ParseOption, WriteOption};
use std::alloc::Global;
use std::io;

// What a line asks.
#[derive(Drop)]
struct Question {
    read: ParseOption,
    write: WriteOption,
    side: Side,
    which: SettingValue,
    base: String,
    ours: String,
    theirs: String,
}

fn side_of_word(word: &str) -> io::Result<(Side, SettingValue)> {
    match word {
        "ours" => Ok((Side::Ours, SettingValue::Counting)),
        "theirs" => Ok((Side::Theirs, SettingValue::Counting)),
        "ours-lists" => Ok((Side::Ours, SettingValue::List)),
        "theirs-lists" => Ok((Side::Theirs, SettingValue::List)),
        _ => Err(invalid()),
    }
}

impl Question {
    // The question of a line: `InvalidInput` where the line is none.
    fn parse(alloc: Global, line: &str) -> io::Result<Question> {
        let mut words = line.split(' ');
        let mut word = || words.next().ok_or(invalid());
        let read = reading_of_flags(word()?)?;
        let escape_policy = policy_of_name(word()?)?;
        let line_separator = separator_of_line_end(word()?)?;
        let separator = text_of_hex(alloc, word()?)?;
        let (side, which) = side_of_word(word()?)?;
        let base = text_of_hex(alloc, word()?)?;
        let ours = text_of_hex(alloc, word()?)?;
        let theirs = text_of_hex(alloc, word()?)?;
        Ok(Question {
            read,
            write: WriteOption {
                escape_policy,
                line_separator,
                kv_separator: separator_of_text(separator.as_str())?,
            },
            side,
            which,
            base,
            ours,
            theirs,
        })
    }
}

fn push_value(line: &mut String, value: Option<&str>) -> Result<(), Error> {
    match value {
        Some(value) => {
            line.push_str(",=")?;
            push_hex(line, value.as_bytes())?;
        }
        None => line.push_str(",-")?,
    }
    Ok(())
}

fn push_conflict(line: &mut String, conflict: &Conflict<'_>) -> Result<(), Error> {
    match conflict.change.name {
        Some(name) => {
            line.push_str(" S")?;
            push_hex(line, name.as_bytes())?;
        }
        None => line.push_str(" G")?,
    }
    line.push(',')?;
    push_hex(line, conflict.change.key.as_bytes())?;
    push_value(line, conflict.change.old)?;
    push_value(line, conflict.change.new)?;
    push_value(line, conflict.theirs)
}

// Theirs with the changes of ours.
fn merged<'a>(
    alloc: Global,
    question: &Question,
    (base, ours, theirs): (&Ini, &Ini, &Source<'a>),
    sides: &FlatSides,
) -> Result<Source<'a>, RefusedEdit> {
    let (write, side, rule) = (&question.write, question.side, Lookup::default());
    match question.which {
        SettingValue::Counting => merge(alloc, rule, write, base, ours, theirs, side),
        which => sides.merge_by(alloc, which, rule, write, theirs, side),
    }
}

// The merged text, or why there is none.
fn push_merged(
    alloc: Global,
    line: &mut String,
    merged: Result<Source<'_>, RefusedEdit>,
) -> Result<(), Error> {
    match merged {
        Ok(new) => {
            line.push_str("new:")?;
            push_hex(line, new.to_text(alloc)?.as_bytes())?;
            Ok(())
        }
        Err(refused) => match refused.refusal {
            EditError::Text(refusal) => Err(refusal),
            refusal => Ok(line.push_str(format!(in alloc; "refused:{refusal:?}")?.as_str())?),
        },
    }
}

fn answered(alloc: Global, question: &Question) -> Result<String, Error> {
    let base = Ini::load_from_str_opt(alloc, question.base.as_str(), question.read)?;
    let ours = Ini::load_from_str_opt(alloc, question.ours.as_str(), question.read)?;
    let theirs = Source::read(alloc, question.theirs.as_str(), question.read)?;
    let mut line = String::new(alloc);
    let (which, rule) = (question.which, Lookup::default());
    let sides = FlatSides::by(alloc, which, rule, &base, &ours, &theirs)?;
    let new = merged(alloc, question, (&base, &ours, &theirs), &sides);
    push_merged(alloc, &mut line, new)?;
    for conflict in &sides.conflicts(alloc)? {
        push_conflict(&mut line, conflict)?;
    }
    Ok(line)
}

/// The answer to a question, without a line end.
pub(crate) fn answer(alloc: Global, line: &str) -> Result<String, Error> {
    let question = Question::parse(alloc, line)?;
    match answered(alloc, &question) {
        Err(Error::Parse(fault)) => {
            let (row, column, kind) = (fault.line, fault.col, fault.kind);
            Ok(format!(in alloc; "refused {row}:{column} {kind:?}")?)
        }
        other => other,
    }
}
