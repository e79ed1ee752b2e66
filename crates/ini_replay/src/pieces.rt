//! What edits of a text in pieces make of it, one after another, for a comparison with another program.
//!
//! A question has words with a space between them: five flags (`options.rt`); the escape policy by its name;
//! the line end, `LF` or `CRLF`; the separator; the text; and then each edit, whose words have a comma
//! between them: the call, as `set`; the section, `G` or `S` and its name; the key; another key, or the new
//! name; the value; and a number. Separator, text, names, keys and values stand as the hexadecimal of their
//! UTF-8. A call takes of these what it has a use for.
//!
//! The answer has a word for each edit: `none` where there was nothing to edit, `refused:` and why, or
//! `new:` and the new text; for a comment that is asked for `is:` and the comment. A text that is refused is
//! answered alone. Where the text read anew shows another document than the pieces do, the word is
//! `differs:` and the text.
mod question;

use crate::hex::push_hex;
use crate::pieces::question::{EditAsked, Question};
use ini::Error;
use ini_edit::{EditError, LaterPairs, Source};
use ini_text::{ParseOption, WriteOption};
use std::alloc::Global;

// What an edit answers.
#[derive(Debug, Drop)]
enum Found {
    Done(bool),
    Comment(Option<String>),
}

fn done(is_done: bool) -> Result<Found, EditError> {
    Ok(Found::Done(is_done))
}

fn edited<'a>(
    alloc: Global,
    source: &mut Source<'a>,
    write: &WriteOption,
    asked: &EditAsked,
) -> Result<Found, EditError> {
    let name = asked.name.as_deref();
    let (key, other, value) = (
        asked.key.as_str(),
        asked.other.as_str(),
        asked.value.as_str(),
    );
    let policy = write.escape_policy;
    match asked.call.as_str() {
        "set" => {
            source.set(alloc, write, LaterPairs::TakenOut, name, key, value)?;
            done(true)
        }
        "set_first" => {
            source.set(alloc, write, LaterPairs::Left, name, key, value)?;
            done(true)
        }
        "set_existing" => {
            done(source.set_existing(alloc, policy, LaterPairs::TakenOut, name, key, value)?)
        }
        "set_nth" => done(source.set_nth(alloc, policy, name, key, asked.number, value)?),
        "add" => {
            source.add(alloc, write, name, key, value)?;
            done(true)
        }
        "insert_after" => done(source.insert_after(alloc, write, name, key, other, value)?),
        "insert_before" => done(source.insert_before(alloc, write, name, key, other, value)?),
        "delete" => done(source.delete(alloc, name, key)?),
        "delete_nth" => done(source.delete_nth(alloc, name, key, asked.number)?),
        "delete_all" => done(source.delete_all(alloc, name, key)?),
        "rename_key" => done(source.rename_key(alloc, policy, name, key, other)?),
        "set_comment" => done(source.set_comment(alloc, write, name, key, value)?),
        "comment_out" => done(source.comment_out(alloc, name, key)?),
        "comment_of" => match source.comment_of(name, key) {
            Some(comment) => Ok(Found::Comment(Some(String::from_str(alloc, comment)?))),
            None => Ok(Found::Comment(None)),
        },
        _ => section_edited(alloc, source, write, asked),
    }
}

fn section_edited<'a>(
    alloc: Global,
    source: &mut Source<'a>,
    write: &WriteOption,
    asked: &EditAsked,
) -> Result<Found, EditError> {
    let Some(name) = asked.name.as_deref() else {
        return done(false);
    };
    match asked.call.as_str() {
        "add_section" => done(source.add_section(alloc, write, name)?),
        "delete_section" => done(source.delete_section(alloc, name)?),
        "rename_section" => {
            done(source.rename_section(alloc, write.escape_policy, name, asked.other.as_str())?)
        }
        _ => done(false),
    }
}

// The sections of a text in pieces, with their pairs.
fn shown(alloc: Global, source: &Source<'_>) -> Result<String, Error> {
    let mut out = String::new(alloc);
    for section in source.sections() {
        out.push_str(format!(in alloc; "[{:?}]", section.name())?.as_str())?;
        for pair in section.pairs() {
            out.push_str(format!(in alloc; "<{:?}|{:?}>", pair.key(), pair.value())?.as_str())?;
        }
    }
    Ok(out)
}

// Whether a text read anew shows what the pieces do.
fn is_alike(
    alloc: Global,
    source: &Source<'_>,
    text: &str,
    read: ParseOption,
) -> Result<bool, Error> {
    match Source::read(alloc, text, read) {
        Ok(anew) => Ok(shown(alloc, &anew)?.as_str() == shown(alloc, source)?.as_str()),
        Err(Error::Parse(_)) => Ok(false),
        Err(refusal) => Err(refusal),
    }
}

fn push_text_word(alloc: Global, line: &mut String, source: &Source<'_>) -> Result<(), Error> {
    let text = source.to_text(alloc)?;
    if is_alike(alloc, source, text.as_str(), source.option())? {
        line.push_str("new:")?;
    } else {
        line.push_str("differs:")?;
    }
    push_hex(line, text.as_bytes())?;
    Ok(())
}

fn push_answer(
    alloc: Global,
    line: &mut String,
    source: &mut Source<'_>,
    write: &WriteOption,
    asked: &EditAsked,
) -> Result<(), Error> {
    match edited(alloc, source, write, asked) {
        Ok(Found::Done(true)) => push_text_word(alloc, line, source),
        Ok(Found::Done(false)) | Ok(Found::Comment(None)) => Ok(line.push_str("none")?),
        Ok(Found::Comment(Some(comment))) => {
            line.push_str("is:")?;
            push_hex(line, comment.as_bytes())?;
            Ok(())
        }
        Err(EditError::Text(refusal)) => Err(refusal),
        Err(refusal) => Ok(line.push_str(format!(in alloc; "refused:{refusal:?}")?.as_str())?),
    }
}

/// The answer to a question, without a line end.
pub(crate) fn answer(alloc: Global, line: &str) -> Result<String, Error> {
    let Question {
        read,
        write,
        text,
        edits,
    } = Question::parse(alloc, line)?;
    let mut out = String::new(alloc);
    match Source::read(alloc, text.as_str(), read) {
        Ok(source) => {
            let mut source = source;
            for (number, asked) in edits.iter().enumerate() {
                if number > 0 {
                    out.push(' ')?;
                }
                push_answer(alloc, &mut out, &mut source, &write, asked)?;
            }
            Ok(out)
        }
        Err(Error::Parse(fault)) => {
            let (row, column, kind) = (fault.line, fault.col, fault.kind);
            Ok(format!(in alloc; "refused {row}:{column} {kind:?}")?)
        }
        Err(refusal) => Err(refusal),
    }
}
