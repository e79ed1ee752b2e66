//! The words that a program was started with. This file knows no option.
ghost use Rattle.std.specs.Prelude.{IfErr};
ghost use Rattle.ini_words.specs.Refusals.{IsMemoryOrIo};

use ini_text::Error;
use std::alloc::{AllocError, Global};
use std::env::{Env, FillError};
use std::io;

// How many bytes a word has room for at first.
const FIRST_ROOM: usize = 256;

/// The words after the program's name, in order.
///
/// # Errors
///
/// `Memory`; `Io` of the kind `InvalidData` where a word is not UTF-8, which tells the first such word by
/// its number: words count from 1.
pub fn words_of<R: Env>(rt: &R, alloc: Global) -> Result<Vec<String>, Error>
    ensures { IfErr result IsMemoryOrIo }
{
    let mut words = Vec::new(alloc);
    for number in 1..usize::MAX {
        let Some(bytes) = bytes_of(rt, alloc, number)? else {
            return Ok(words);
        };
        match String::from_utf8(bytes) {
            Ok(word) => words.push(word)?,
            Err(_) => return Err(not_utf8(alloc, number)),
        }
    }
    Ok(words)
}

// The bytes of the word of that number, if there is one. Their room is doubled until they fit.
fn bytes_of<R: Env>(rt: &R, alloc: Global, number: usize) -> Result<Option<Vec<u8>>, Error>
    ensures { IfErr result IsMemoryOrIo }
{
    let mut room = FIRST_ROOM;
    for _ in 0..usize::BITS {
        let mut bytes = vec![in alloc; 0u8; room]?;
        match rt.arg(number, &mut bytes) {
            Ok(len) => {
                bytes.truncate(len);
                return Ok(Some(bytes));
            }
            Err(FillError::NotPresent) => return Ok(None),
            Err(FillError::TooLong) => room = room.saturating_mul(2),
        }
    }
    Err(Error::Memory(AllocError))
}

// What is reported of a word that is not UTF-8.
fn not_utf8(alloc: Global, number: usize) -> Error
    ensures { IsMemoryOrIo result }
{
    match format!(in alloc; "word {number} is not UTF-8") {
        Ok(text) => Error::Io(io::Error::new(io::ErrorKind::InvalidData, text.as_str())),
        Err(refused) => Error::from(refused),
    }
}
