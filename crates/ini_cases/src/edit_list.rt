//! Questions about lists of edits.
//!
//! A row is a text and the edits, each a call and its operands, with the word `then` between two.
use crate::edit::edit_of;
use crate::option::Options;
use crate::token::{Token, text_of, unreadable};
use ini::Error;
use ini_edit::{Edit, EditedText, make_edits};
use std::alloc::Global;

// One edit.
fn one_edit(words: &[Token]) -> Result<Edit<'_>, Error> {
    match words {
        [Token::Word(call), operands @ ..] => edit_of(call.as_str(), operands),
        _ => Err(unreadable("no call of an edit")),
    }
}

fn is_then(token: &Token) -> bool {
    match token {
        Token::Word(word) => word.as_str() == "then",
        Token::Text(_) => false,
    }
}

// The edits in order; none where there are no words.
fn edits_of<'a>(alloc: Global, words: &'a [Token]) -> Result<Vec<Edit<'a>>, Error> {
    let mut edits = Vec::new(alloc);
    if words.is_empty() {
        return Ok(edits);
    }
    let mut begins: usize = 0;
    for (at, token) in words.iter().enumerate() {
        if is_then(token) {
            edits.push(one_edit(words.get(begins..at).unwrap_or(&[]))?)?;
            begins = at.saturating_add(1);
        }
    }
    edits.push(one_edit(words.get(begins..).unwrap_or(&[]))?)?;
    Ok(edits)
}

// The new text, a bar, and a sign for each edit: `+` where it found something, else `-`.
fn with_signs(new: EditedText) -> Result<String, Error> {
    let mut out = new.text;
    out.push('|')?;
    for is_found in &new.found {
        out.push(if *is_found { '+' } else { '-' })?;
    }
    Ok(out)
}

/// The answer to a row: the new text, and which edits found something; or which was refused, and why.
pub fn answer(alloc: Global, row: &[Token], options: &Options) -> Result<String, Error> {
    let [text, words @ ..] = row else {
        return Err(unreadable("no text"));
    };
    let (text, edits) = (text_of(text)?, edits_of(alloc, words)?);
    match make_edits(
        alloc,
        text,
        options.reading,
        &options.writing(),
        edits.as_slice(),
    ) {
        Ok(new) => with_signs(new),
        Err(refused) => Ok(refused.to_string(alloc)?),
    }
}
