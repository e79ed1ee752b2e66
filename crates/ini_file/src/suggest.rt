//! The dialects as which a file can be read. This file knows no word of the program and no device.
ghost use Rattle.std.specs.Prelude.{◌≡◌, ◌++◌, IfOk, IsOkUnless, OnOk, alloc_error, chars, flat_map};
ghost use Rattle.std.specs.Prelude.{string_bytes};
ghost use Rattle.ini_text.specs.declared.error.Error.TheVariants.{Memory};
ghost use Rattle.ini_file.specs.Suggestions.{AreSuggestions, IsSuggested, suggestion, suggestion_line};

use crate::bytes::text_of;
use ini::Error;
use ini_dialect::{Guess, dialects, guesses};
use std::alloc::{AllocError, Global};

/// A line for each dialect as which a file with this name and these bytes can be read, the one with the
/// fewest warnings first: the file, the dialect, and how many warnings there are, as in
/// `settings.ini: samba: 0`. A mark at the bytes' front is no part of the text.
///
/// # Errors
///
/// `NotUtf8`; `Memory`.
pub fn suggestions(alloc: Global, file: &str, input: &[u8]) -> Result<Vec<u8>, Error>
    ensures { IsSuggested file.now input.now result }
{
    match text_of(input) {
        Ok((_, text)) => suggestions_of_text(alloc, file, text),
        Err(refused) => Err(refused),
    }
}

// The lines of a text.
fn suggestions_of_text(alloc: Global, file: &str, text: &str) -> Result<Vec<u8>, Error>
    ensures lines { IfOk result (λ lines. AreSuggestions file.now (chars text.now) lines.items) }
    ensures only { IsOkUnless result (Memory alloc_error) }
{
    let found = guesses(alloc, text)?;
    lines_of(alloc, file, found.as_slice())
}

// A line for each of these.
fn lines_of(alloc: Global, file: &str, found: &[Guess]) -> Result<Vec<u8>, Error>
    ensures lines { IfOk result (λ lines. lines.items ≡ flat_map (suggestion file.now) found.now) }
    ensures only { IsOkUnless result (Memory alloc_error) }
{
    let mut lines = Vec::new(alloc);
    for guess in found {
        push_line(alloc, &mut lines, file, *guess)?;
    }
    Ok(lines)
}

// Puts the line of a dialect last.
fn push_line(alloc: Global, lines: &mut Vec<u8>, file: &str, guess: Guess) -> Result<(), AllocError>
    ensures { OnOk result (lines.new.items ≡ lines.old.items ++ suggestion file.now guess) }
{
    match dialects().get(guess.place) {
        Some(named) => {
            let line = line_of(alloc, file, named.name, guess.warnings)?;
            lines.extend_from_slice(line.as_bytes())
        }
        None => Ok(()),
    }
}

// The line of a dialect of this name.
fn line_of(alloc: Global, file: &str, name: &str, count: usize) -> Result<String, AllocError>
    ensures { IfOk result (λ line. string_bytes line ≡ suggestion_line file.now name.now count) }
{
    Ok(format!(in alloc; "{file}: {name}: {count}\n")?)
}
