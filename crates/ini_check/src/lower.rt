//! Texts in lower case. This file knows characters alone.
ghost use Rattle.std.specs.Prelude.{◌≡◌, ◌++◌, ◌∷◌, [], chars, IfOk, OnOk};
ghost use Rattle.ini_text.specs.Parsing.Items.{string_text};
ghost use Rattle.ini_check.specs.Traps.Keys.{lower};

use ini_text::split_first;
use std::alloc::{AllocError, Global};

/// A text with each ASCII letter in lower case.
pub(crate) fn lowered(alloc: Global, text: &str) -> Result<String, AllocError>
    ensures { IfOk result (λ made. string_text made ≡ lower (chars text.now)) }
{
    let mut made = String::new(alloc);
    let mut rest = text;
    'characters: while let Some((c, after)) = split_first(rest) {
        push(&mut made, c.to_ascii_lowercase())?;
        rest = after;
    }
    Ok(made)
}

/// Appends a character.
pub(crate) fn push(out: &mut String, c: char) -> Result<(), AllocError>
    ensures { OnOk result (string_text out.new ≡ string_text out.old ++ c ∷ []) }
{
    out.push(c)
}
