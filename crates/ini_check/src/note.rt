//! Warnings of a stretch, and of each place of one. This file knows places and characters, and no element.
ghost use Rattle.std.specs.Prelude.{◌≡◌, ◌++◌, ◌∷◌, [], chars, OnOk, length, IsOkUnless, alloc_error};
ghost use Rattle.ini.specs.Texts.{Text};
ghost use Rattle.ini_check.specs.Warnings.{comment_warnings, inner_warnings, trap_at, warned, warned_all};
ghost use Rattle.ini_check.specs.Warnings.{warned_of, warning};
ghost use Rattle.ini_check.specs.Inside.Positions.{HasRoom, IsAt};
ghost use Rattle.ini_check.specs.declared.lexical.LexicalState.TheVariants.{Front};

use crate::lexical::LexicalState;
use crate::position::Position;
use crate::trap::lines::{goes_on_with_header, goes_on_with_pair, joins_lines};
use crate::trap::lost_lines::swallows_line;
use crate::trap::quotes::{is_half_quoted, is_text_after_quote, opens_unclosed};
use crate::warning::{Trap, Warning};
use ini_text::{Error, ParseOption, split_first};

/// Puts last a warning of a stretch between two places, for each of the traps that is there.
pub(crate) fn warn_all(
    warnings: &mut Vec<Warning>,
    begins: Position,
    ends: Position,
    traps: &[(bool, Trap)],
) -> Result<(), Error>
    ensures warned { OnOk result ((b s : Text) → IsAt b begins → IsAt (b ++ s) ends
        → warnings.new.items ≡ warnings.old.items ++ warned_all b s traps.now) }
    ensures only { IsOkUnless result (Error.Memory alloc_error) }
{
    let mut rest = traps;
    'traps: while let Some((found, more)) = rest.split_first() {
        let (is_there, trap) = *found;
        warn_where(warnings, begins, ends, is_there, trap)?;
        rest = more;
    }
    Ok(())
}

/// Puts last a warning of a stretch between two places, if the trap is there.
pub(crate) fn warn_where(
    warnings: &mut Vec<Warning>,
    begins: Position,
    ends: Position,
    is_there: bool,
    trap: Trap,
) -> Result<(), Error>
    ensures warned { OnOk result ((b s : Text) → IsAt b begins → IsAt (b ++ s) ends
        → warnings.new.items ≡ warnings.old.items ++ warned b s is_there trap) }
    ensures only { IsOkUnless result (Error.Memory alloc_error) }
{
    if !is_there {
        return Ok(());
    }
    push(warnings, begins, ends, trap)?;
    Ok(())
}

/// Puts last a warning of the character that stands here, if a trap is there.
pub(crate) fn warn_character(
    warnings: &mut Vec<Warning>,
    position: Position,
    c: char,
    trap: Option<Trap>,
) -> Result<(), Error>
    requires room { HasRoom 1 position }
    ensures warned { OnOk result ((b : Text) → IsAt b position → warnings.new.items
        ≡ warnings.old.items ++ warned_of b (c ∷ []) trap) }
    ensures only { IsOkUnless result (Error.Memory alloc_error) }
{
    let Some(trap) = trap else {
        return Ok(());
    };
    push(warnings, position, position.after(c), trap)?;
    Ok(())
}

// Puts a warning last.
fn push(
    warnings: &mut Vec<Warning>,
    begins: Position,
    ends: Position,
    trap: Trap,
) -> Result<(), Error>
    ensures warned { OnOk result ((b s : Text) → IsAt b begins → IsAt (b ++ s) ends
        → warnings.new.items ≡ warnings.old.items ++ warning b s trap ∷ []) }
    ensures only { IsOkUnless result (Error.Memory alloc_error) }
{
    warnings.push(Warning {
        line: begins.line,
        column: begins.column,
        end_line: ends.line,
        end_column: ends.column,
        trap,
    })?;
    Ok(())
}

/// Puts last the warnings of the places of a value that begins here.
pub(crate) fn warn_within(
    warnings: &mut Vec<Warning>,
    position: Position,
    value: &str,
    is_list: bool,
    read: ParseOption,
) -> Result<(), Error>
    requires room { HasRoom (length (chars value.now)) position }
    ensures warned { OnOk result ((b : Text) → IsAt b position → warnings.new.items
        ≡ warnings.old.items ++ inner_warnings read is_list Front b (chars value.now)) }
    ensures only { IsOkUnless result (Error.Memory alloc_error) }
{
    let mut state = LexicalState::Front;
    let mut position = position;
    let mut rest = value;
    'characters: while let Some((c, after)) = split_first(rest) {
        let trap = trap_at(read, is_list, state, rest);
        warn_character(warnings, position, c, trap)?;
        state = state.next(read, c);
        position = position.after(c);
        rest = after;
    }
    Ok(())
}

// The trap at a place of a value: the first that is there.
fn trap_at(read: ParseOption, is_list: bool, state: LexicalState, text: &str) -> Option<Trap>
    ensures { result ≡ trap_at read is_list state (chars text.now) }
{
    if opens_unclosed(read, state, text) {
        Some(Trap::UnclosedQuote)
    } else if joins_lines(read, state, text) {
        Some(Trap::JoinedLine)
    } else if is_text_after_quote(state, text) {
        Some(Trap::TextAfterQuote)
    } else if is_half_quoted(read, state, text) {
        Some(Trap::HalfQuote)
    } else if goes_on_with_header(state, text) {
        Some(Trap::HeaderInValue)
    } else if goes_on_with_pair(is_list, state, text) {
        Some(Trap::PairInValue)
    } else {
        None
    }
}

/// Puts last the warning of the first CR in a comment, which begins here, that is a trap.
pub(crate) fn warn_comment(
    warnings: &mut Vec<Warning>,
    position: Position,
    comment: &str,
) -> Result<(), Error>
    requires room { HasRoom (length (chars comment.now)) position }
    ensures warned { OnOk result ((b : Text) → IsAt b position → warnings.new.items
        ≡ warnings.old.items ++ comment_warnings b (chars comment.now)) }
    ensures only { IsOkUnless result (Error.Memory alloc_error) }
{
    let mut position = position;
    let mut rest = comment;
    'characters: while let Some((c, after)) = split_first(rest) {
        if swallows_line(rest) {
            push(warnings, position, position.after(c), Trap::LoneCr)?;
            return Ok(());
        }
        position = position.after(c);
        rest = after;
    }
    Ok(())
}
