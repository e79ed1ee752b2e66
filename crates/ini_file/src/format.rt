//! A file's bytes laid out, and the exit status of that. This file knows no word of the program and no
//! device.
ghost use Rattle.std.specs.Prelude.{◌≡◌, IfErr, IfOk, IsOkUnless, Some, alloc_error, chars};
ghost use Rattle.std.specs.Option.{option_map};
ghost use Rattle.ini_text.specs.Parsing.Items.{string_text};
ghost use Rattle.ini_text.specs.declared.error.Error.TheVariants.{Memory};
ghost use Rattle.ini_edit.specs.LaidOut.{RefusesLayout};
ghost use Rattle.ini_file.specs.Choices.{chosen_of};
ghost use Rattle.ini_file.specs.Formats.{AreChosen, IsFormatted, IsFormattedAfter, IsInOrder, IsLayout};
ghost use Rattle.ini_file.specs.Formats.{RefusesFormat, format_status, text_after};

use crate::bytes::{concat, text_of};
use crate::choices::Choices;
use ini::{Error, ParseOption};
use ini_edit::{EditError, LaidOut, Layout, Loss, Separators, Sorting, lay_out, sort_text};
use ini_text::has_byte_order_mark;
use std::alloc::Global;

/// A file laid out.
#[derive(Drop)]
pub struct FormattedFile {
    /// Its bytes.
    pub bytes: Vec<u8>,
    /// What the layout would lose, where they are the old ones for that.
    pub loss: Option<Loss>,
}

/// The bytes of a file laid out. A mark at their front stays.
///
/// # Errors
///
/// `NotUtf8` before any other; those of `ini_edit`'s `lay_out`.
pub fn formatted(
    alloc: Global,
    reading: ParseOption,
    choices: Choices<'_>,
    input: &[u8],
) -> Result<FormattedFile, EditError>
    ensures { IsFormatted reading (chosen_of choices.entry) input.now result }
{
    match text_of(input) {
        Ok((mark, text)) => format_text(alloc, reading, choices, mark, text),
        Err(refused) => Err(EditError::Text(refused)),
    }
}

// The bytes of a mark and of a text laid out.
fn format_text(
    alloc: Global,
    reading: ParseOption,
    choices: Choices<'_>,
    mark: &[u8],
    text: &str,
) -> Result<FormattedFile, EditError>
    ensures formatted { IfOk result (λ formatted.
        IsFormattedAfter reading (chosen_of choices.entry) mark.now text.now formatted) }
    ensures refused { IfErr result (RefusesFormat reading (chosen_of choices.entry) (chars text.now)) }
{
    let layout = layout_of(choices);
    let laid = in_order(alloc, text, reading, &layout, choices.spacing.sorting)?;
    let new = text_after(mark, text, laid.text.as_str());
    let bytes = concat(alloc, mark, new)?;
    Ok(FormattedFile {
        bytes,
        loss: laid.loss,
    })
}

// A text laid out, sorted if that is chosen, and then laid out again.
fn in_order(
    alloc: Global,
    text: &str,
    reading: ParseOption,
    layout: &Layout<'_>,
    sorting: Option<Sorting>,
) -> Result<LaidOut, EditError>
    ensures made { IfOk result (λ new.
        IsInOrder reading layout.now sorting new.loss (chars text.now) (string_text new.text)) }
    ensures refused { IfErr result (RefusesLayout reading layout.now (chars text.now)) }
{
    let laid = lay_out(alloc, text, reading, layout)?;
    let Some(sorting) = sorting else {
        return Ok(laid);
    };
    if let Some(loss) = laid.loss {
        return Ok(as_it_is(alloc, text, loss)?);
    }
    let sorted = sort_text(alloc, laid.text.as_str(), reading, sorting)?;
    if let Some(loss) = sorted.loss {
        return Ok(as_it_is(alloc, text, loss)?);
    }
    let again = lay_out(alloc, sorted.text.as_str(), reading, layout)?;
    match again.loss {
        Some(loss) => Ok(as_it_is(alloc, text, loss)?),
        None => Ok(again),
    }
}

// A text that would lose something.
fn as_it_is(alloc: Global, text: &str, loss: Loss) -> Result<LaidOut, Error>
    ensures text { IfOk result (λ new. string_text new.text ≡ chars text.now) }
    ensures loss { IfOk result (λ new. new.loss ≡ Some loss) }
    ensures only { IsOkUnless result (Memory alloc_error) }
{
    let text = String::from_str(alloc, text)?;
    Ok(LaidOut {
        text,
        loss: Some(loss),
    })
}

// The layout that is chosen.
fn layout_of(choices: Choices<'_>) -> Layout<'_>
    ensures { IsLayout (chosen_of choices.entry) result }
{
    Layout {
        separator: separators_of(choices.separator),
        pair_indentation: choices.spacing.pair_indentation,
        blank_lines: choices.spacing.blank_lines.unwrap_or(1),
        aligned: choices.switches.align,
    }
}

// The separators that a text chooses: `keep` leaves each as it is.
fn separators_of(choice: Option<&str>) -> Separators<'_>
    ensures { AreChosen (option_map (λ text. text.now) choice.entry) result }
{
    match choice {
        Some("keep") => Separators::Kept,
        Some(text) => Separators::Given(text),
        None => Separators::Prevailing,
    }
}

// The text that stands after a mark, or without one: the new one, unless it would bring a mark.
fn text_after<'a>(mark: &[u8], old: &'a str, new: &'a str) -> &'a str
    ensures { result.now ≡ text_after mark.now old.now new.now }
{
    if mark.is_empty() && has_byte_order_mark(new.as_bytes()) {
        old
    } else {
        new
    }
}

/// The exit status of a file that has a layout: 0 it is so, or was made so; 1 a check finds that it isn't.
pub fn status_of_format(check: bool, old: &[u8], new: &[u8]) -> u8
    ensures { result ≡ format_status check old.now new.now }
{
    if check && old != new { 1 } else { 0 }
}
