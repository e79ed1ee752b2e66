//! What a run that finds no pair of a key may have met in its text: a trap that swallows a line, or makes a
//! key another one. This file knows no device.
ghost use Rattle.std.specs.Prelude.{◌≡◌, IfErr, IfOk, chars};
ghost use Rattle.ini.specs.Loading.{IfParse, IsParseOrMemory, IsStopOf};
ghost use Rattle.ini_file.specs.Hints.{IsHint, first_hint, hides_key};

use crate::words::{Command, Invocation, Question};
use ini::{Error, ParseOption};
use ini_check::{Trap, Warning, check};
use ini_edit::{Edit, find_pair};
use std::alloc::Global;

/// The first warning of a text that is of a trap that hides a key, if there is any.
///
/// # Errors
///
/// Those of `check`.
pub fn hint(alloc: Global, text: &str, read: ParseOption) -> Result<Option<Warning>, Error>
    ensures hint { IfOk result (IsHint read (chars text.now)) }
    ensures fault { IfParse result (IsStopOf read (chars text.now)) }
    ensures only { IfErr result IsParseOrMemory }
{
    let warnings = check(alloc, text, read)?;
    Ok(first_hint(warnings.as_slice()))
}

// The first warning of such a trap.
fn first_hint(warnings: &[Warning]) -> Option<Warning>
    ensures { result ≡ first_hint warnings.now }
{
    let mut rest = warnings;
    'warnings: while let Some((warning, after)) = rest.split_first() {
        if hides_key(warning.trap) {
            return Some(*warning);
        }
        rest = after;
    }
    None
}

// Whether the trap hides a key.
fn hides_key(trap: Trap) -> bool
    ensures { result ≡ hides_key trap }
{
    matches!(
        trap,
        Trap::UnclosedBracket
            | Trap::UnclosedQuote
            | Trap::JoinedLine
            | Trap::RunsOn
            | Trap::CommentRunsOn
            | Trap::DroppedLine
            | Trap::LoneCr
            | Trap::HeaderInValue
            | Trap::PairInValue
            | Trap::MarkBeginsKey
    )
}

/// Whether the pair that the words name isn't in a text over which a run has made an output all the same: of
/// a default, or with a new line.
pub fn lacks_pair(alloc: Global, asked: Invocation<'_>, text: &str, output: &[u8]) -> bool {
    let grown = output.len().saturating_sub(text.len());
    let (section, key) = match asked.command {
        Command::Ask(Question::Get(lookup)) if lookup.default.is_some() => (
            lookup.section,
            lookup.key,
        ),
        // a new line takes its key, a separator, its value and a line end
        Command::Change(Edit::Set { name, key, value })
            if grown > key.len().saturating_add(value.len()) => { (name, key) }
        _ => return false,
    };
    matches!(
        find_pair(alloc, text, asked.options.reading, section, key),
        Ok(None)
    )
}
