//! Which dialects a text can be read as, and how many warnings it has as each. This file knows no rule of
//! looking up.
ghost use Rattle.std.specs.Prelude.{◌≡◌, ◌++◌, ℕ, IfOk, IsOkUnless, OnOk, Option, alloc_error, chars};
ghost use Rattle.std.specs.List.Sorted.{IsSorted};
ghost use Rattle.ini_dialect.specs.Dialects.{named_shown};
ghost use Rattle.ini_dialect.specs.Guesses.{AreRanked, HasCount, guesses_of};

use crate::presets::{NamedDialect, dialects};
use ini::Error;
use ini_check::check;
use ini_text::ParseOption;
use std::alloc::Global;

/// A dialect as which a text can be read. Of two the one with fewer warnings comes first, then the one that
/// comes first in `dialects`.
#[derive(Clone, Copy, PartialEq, Eq, PartialOrd, Ord, Debug)]
pub struct Guess {
    /// How many warnings the text has.
    pub warnings: usize,
    /// The dialect's place in `dialects`, from 0.
    pub place: usize,
}

/// The dialects as which the text can be read without being refused, the one with the fewest warnings first.
///
/// # Errors
///
/// `Memory` alone.
pub fn guesses(alloc: Global, text: &str) -> Result<Vec<Guess>, Error>
    ensures ranked { IfOk result (λ guesses. AreRanked (chars text.now) guesses.items) }
    ensures sorted { IfOk result (λ guesses. IsSorted ⟦<Guess as Ord>⟧.cmp guesses.items) }
    ensures only_memory { IsOkUnless result (Error.Memory alloc_error) }
{
    let mut guesses = Vec::new(alloc);
    let all = dialects();
    for (place, named) in all.iter().enumerate() {
        push_guess(alloc, text, place, named, &mut guesses)?;
    }
    guesses.sort_unstable();
    Ok(guesses)
}

// Puts a dialect last, if the text can be read so.
fn push_guess(
    alloc: Global,
    text: &str,
    place: usize,
    named: &NamedDialect,
    guesses: &mut Vec<Guess>,
) -> Result<(), Error>
    ensures pushed { OnOk result ((count : Option ℕ)
        × HasCount (named_shown named.now).1.read (chars text.now) count
        × (guesses.new.items ≡ guesses.old.items ++ guesses_of place count)) }
    ensures only_memory { IsOkUnless result (Error.Memory alloc_error) }
{
    if let Some(warnings) = count_warnings(alloc, text, named.dialect.read)? {
        guesses.push(Guess { warnings, place })?;
    }
    Ok(())
}

/// How many warnings a text has that is read so; `None` where it is refused.
///
/// # Errors
///
/// `Memory` alone.
pub fn count_warnings(alloc: Global, text: &str, read: ParseOption) -> Result<Option<usize>, Error>
    ensures counted { IfOk result (HasCount read (chars text.now)) }
    ensures only_memory { IsOkUnless result (Error.Memory alloc_error) }
{
    match check(alloc, text, read) {
        Ok(warnings) => Ok(Some(warnings.as_slice().len())),
        Err(Error::Parse(_)) => Ok(None),
        Err(refused) => Err(refused),
    }
}
