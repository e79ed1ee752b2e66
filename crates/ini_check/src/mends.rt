//! A text with its traps mended: what a trap has read otherwise than it is meant is written so that it is
//! read so. This file knows texts and their warnings, and no element.
ghost use Rattle.std.specs.Prelude.{◌≡◌, ◌∷◌, IfErr, IfOk, IsOkUnless, List, MatchOption, alloc_error};
ghost use Rattle.std.specs.Prelude.{chars, true};
ghost use Rattle.ini.specs.Loading.{IfParse, IsParseOrMemory, IsStopOf};
ghost use Rattle.ini.specs.Texts.{Text};
ghost use Rattle.ini_text.specs.Parsing.Items.{string_text};
ghost use Rattle.ini_check.specs.Warnings.{AreWarningsOf};
ghost use Rattle.ini_check.specs.Mends.Texts.{AreMended, IsMended, count_of, is_better, mended_traps};
ghost use Rattle.ini_check.specs.declared.warning.Trap.{Trap};

mod better;
mod characters;
mod element;
mod elements;
mod values;

use crate::walk::check;
use crate::warning::{Trap, Warning};
use better::{count_of, is_better, warnings_of};
use elements::mend_elements;
use ini_text::{Error, ParseOption};
use std::alloc::Global;

/// The traps that have a mend, in the order in which they are mended.
pub fn mended_traps() -> &'static [Trap]
    ensures { result.now ≡ mended_traps }
{
    &[
        Trap::LoneCr,
        Trap::UnclosedBracket,
        Trap::UnclosedQuote,
        Trap::JoinedLine,
        Trap::CommentRunsOn,
        Trap::MarkBeginsKey,
        Trap::EscapeInName,
        Trap::EscapeInKey,
        Trap::Escape,
    ]
}

/// The text with the traps mended, one after another. An element becomes the mended one only where that, read
/// by itself, is better: it is read, with fewer warnings of the trap, and no more of `runs-on`,
/// `dropped-line`, `lone-cr`, `header-in-value`, `pair-in-value`, `text-after-quote` and `half-quote`; so a
/// quote that is closed further down on purpose stays. The whole text is judged in the same way. No character
/// changes but those that mends put in or take out.
///
/// # Errors
///
/// `Parse` where reading the text stops, as in loading; `Memory` where memory is refused.
pub fn mend(alloc: Global, text: &str, read: ParseOption, traps: &[Trap]) -> Result<String, Error>
    ensures mended { IfOk result (λ made. IsMended read traps.now (chars text.now) (string_text made)) }
    ensures fault { IfParse result (IsStopOf read (chars text.now)) }
    ensures only { IfErr result IsParseOrMemory }
{
    let mut made = String::from_str(alloc, text)?;
    let mut warnings = check(alloc, text, read)?;
    let mut rest = traps;
    'traps: while let Some((trap, more)) = rest.split_first() {
        (made, warnings) = mend_trap(alloc, made, warnings, read, *trap)?;
        rest = more;
    }
    Ok(made)
}

// A text and its warnings, once a trap is mended in it as often as that makes it better.
fn mend_trap(
    alloc: Global,
    text: String,
    warnings: Vec<Warning>,
    read: ParseOption,
    trap: Trap,
) -> Result<(String, Vec<Warning>), Error>
    requires { AreWarningsOf read (string_text text) warnings.items }
    ensures mended { IfOk result (λ p. (traps : List Trap) (last : Text)
        → IsMended read traps (string_text p.0) last
        → IsMended read (trap ∷ traps) (string_text text) last) }
    ensures warnings { IfOk result (λ p. AreWarningsOf read (string_text p.0) p.1.items) }
    ensures only { IsOkUnless result (Error.Memory alloc_error) }
{
    let mut made = text;
    let mut warnings = warnings;
    'rounds: while let Some((next, news)) = mend_once(
        alloc,
        made.as_str(),
        warnings.as_slice(),
        read,
        trap,
    )? {
        made = next;
        warnings = news;
    }
    Ok((made, warnings))
}

// The text with a trap mended, and its warnings, where that is better than it is.
fn mend_once(
    alloc: Global,
    text: &str,
    warnings: &[Warning],
    read: ParseOption,
    trap: Trap,
) -> Result<Option<(String, Vec<Warning>)>, Error>
    requires { AreWarningsOf read (chars text.now) warnings.now }
    ensures found { IfOk result (λ found. MatchOption found
        ((traps : List Trap) (last : Text)
        → IsMended read traps (chars text.now) last → IsMended read (trap ∷ traps) (chars text.now) last)
        (λ p. AreMended read trap (chars text.now) (string_text p.0)
        × AreWarningsOf read (string_text p.0) p.1.items
        × (is_better trap warnings.now p.1.items ≡ true))) }
    ensures only { IsOkUnless result (Error.Memory alloc_error) }
{
    if count_of(trap, warnings) == 0 {
        return Ok(None);
    }
    let made = mend_elements(alloc, text, read, trap)?;
    let Some(news) = warnings_of(alloc, made.as_str(), read)? else {
        return Ok(None);
    };
    if is_better(trap, warnings, news.as_slice()) {
        Ok(Some((made, news)))
    } else {
        Ok(None)
    }
}
