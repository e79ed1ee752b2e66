//! Which of two texts has the better warnings. This file knows no text.
ghost use Rattle.std.specs.Prelude.{◌≡◌, IfOk, IsOkUnless, MatchOption, alloc_error, chars};
ghost use Rattle.ini_text.specs.declared.error.ParseError.{ParseError};
ghost use Rattle.ini.specs.Loading.{IsStopOf};
ghost use Rattle.ini_check.specs.Warnings.{AreWarningsOf};
ghost use Rattle.ini_check.specs.Mends.Texts.{IsJudged, count_hurting, count_of, hurts, is_better};

use crate::walk::check;
use crate::warning::{Trap, Warning};
use ini_text::{Error, ParseOption};
use std::alloc::{AllocError, Global};

/// Whether the new text is better than the old one: both are read, fewer warnings are of the trap, and no
/// more of those that no mend helps.
pub(crate) fn is_improved(
    alloc: Global,
    old: &str,
    new: &str,
    read: ParseOption,
    trap: Trap,
) -> Result<bool, Error>
    ensures judged { IfOk result (IsJudged read trap (chars old.now) (chars new.now)) }
    ensures only { IsOkUnless result (Error.Memory alloc_error) }
{
    let Some(olds) = warnings_of(alloc, old, read)? else {
        return Ok(false);
    };
    let Some(news) = warnings_of(alloc, new, read)? else {
        return Ok(false);
    };
    Ok(is_better(trap, olds.as_slice(), news.as_slice()))
}

/// The warnings of a text; `None` where it is refused.
pub(crate) fn warnings_of(
    alloc: Global,
    text: &str,
    read: ParseOption,
) -> Result<Option<Vec<Warning>>, Error>
    ensures warnings { IfOk result (λ found. MatchOption found
        ((e : ParseError) × IsStopOf read (chars text.now) e)
        (λ warnings. AreWarningsOf read (chars text.now) warnings.items)) }
    ensures only { IsOkUnless result (Error.Memory alloc_error) }
{
    match check(alloc, text, read) {
        Ok(warnings) => Ok(Some(warnings)),
        Err(Error::Parse(_)) => Ok(None),
        Err(_) => Err(Error::Memory(AllocError)),
    }
}

/// Whether fewer warnings are of the trap, and no more of traps that hurt.
pub(crate) fn is_better(trap: Trap, olds: &[Warning], news: &[Warning]) -> bool
    ensures { result ≡ is_better trap olds.now news.now }
{
    count_of(trap, news) < count_of(trap, olds) && count_hurting(news) <= count_hurting(olds)
}

/// How many warnings are of the trap.
pub(crate) fn count_of(trap: Trap, warnings: &[Warning]) -> usize
    ensures { result ≡ count_of trap warnings.now }
{
    let mut count = 0;
    let mut rest = warnings;
    'warnings: while let Some((warning, after)) = rest.split_first() {
        if warning.trap.name() == trap.name() {
            count += 1;
        }
        rest = after;
    }
    count
}

// How many warnings are of traps that hurt.
fn count_hurting(warnings: &[Warning]) -> usize
    ensures { result ≡ count_hurting warnings.now }
{
    let mut count = 0;
    let mut rest = warnings;
    'warnings: while let Some((warning, after)) = rest.split_first() {
        if hurts(warning.trap) {
            count += 1;
        }
        rest = after;
    }
    count
}

// Whether a mend must not make the trap.
fn hurts(trap: Trap) -> bool
    ensures { result ≡ hurts trap }
{
    matches!(
        trap,
        Trap::RunsOn
            | Trap::DroppedLine
            | Trap::LoneCr
            | Trap::HeaderInValue
            | Trap::PairInValue
            | Trap::TextAfterQuote
            | Trap::HalfQuote
    )
}
