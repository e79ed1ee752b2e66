//! What mends put into raw values. This file knows quotes, and no element.
ghost use Rattle.std.specs.Prelude.{◌≡◌, ◌++◌, OnOk, chars};
ghost use Rattle.ini_text.specs.Parsing.Items.{string_text};
ghost use Rattle.ini_check.specs.Mends.Characters.{with_lines_parted, with_quote_closed};
ghost use Rattle.ini_check.specs.Mends.Characters.{with_value_escapes_doubled};
ghost use Rattle.ini_check.specs.declared.lexical.LexicalState.TheVariants.{Front};

use crate::lexical::LexicalState;
use crate::lower::push;
use crate::mends::characters::push_closed;
use crate::trap::keys::is_unmeant;
use crate::trap::lines::joins_lines;
use crate::trap::quotes::opens_unclosed;
use ini_text::{ParseOption, split_first};
use std::alloc::AllocError;

/// Appends a raw value in which the first quotes that aren't closed on their line are closed at its end.
pub(crate) fn push_quote_closed(
    out: &mut String,
    read: ParseOption,
    value: &str,
) -> Result<(), AllocError>
    ensures { OnOk result (string_text out.new
        ≡ string_text out.old ++ with_quote_closed read Front (chars value.now)) }
{
    let mut state = LexicalState::Front;
    let mut rest = value;
    'characters: while let Some((c, after)) = split_first(rest) {
        push(out, c)?;
        if opens_unclosed(read, state, rest) {
            return push_closed(out, c, after);
        }
        state = state.next(read, c);
        rest = after;
    }
    Ok(())
}

/// Appends a raw value with the backslash of each escape doubled that may not be meant.
pub(crate) fn push_value_escapes_doubled(
    out: &mut String,
    read: ParseOption,
    value: &str,
) -> Result<(), AllocError>
    ensures { OnOk result (string_text out.new
        ≡ string_text out.old ++ with_value_escapes_doubled read Front (chars value.now)) }
{
    let mut state = LexicalState::Front;
    let mut rest = value;
    'characters: while let Some((c, after)) = split_first(rest) {
        if is_unmeant(state, rest) {
            push(out, '\\')?;
        }
        push(out, c)?;
        state = state.next(read, c);
        rest = after;
    }
    Ok(())
}

/// Appends a raw value with a character put in after each backslash that joins lines.
pub(crate) fn push_lines_parted(
    out: &mut String,
    put: char,
    read: ParseOption,
    value: &str,
) -> Result<(), AllocError>
    ensures { OnOk result (string_text out.new
        ≡ string_text out.old ++ with_lines_parted put read Front (chars value.now)) }
{
    let mut state = LexicalState::Front;
    let mut rest = value;
    'characters: while let Some((c, after)) = split_first(rest) {
        push(out, c)?;
        if joins_lines(read, state, rest) {
            push(out, put)?;
        }
        state = state.next(read, c);
        rest = after;
    }
    Ok(())
}
