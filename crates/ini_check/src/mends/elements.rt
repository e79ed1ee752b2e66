//! The elements of a text, each with a trap mended. This file knows no trap.
ghost use Rattle.std.specs.Prelude.{◌≡◌, ◌++◌, IfOk, IsOkUnless, List, OnOk, alloc_error, chars};
ghost use Rattle.ini.specs.Texts.{Text};
ghost use Rattle.ini_text.specs.Parsing.Items.{string_text};
ghost use Rattle.ini_text.specs.Parsing.Places.{HasPlaces};
ghost use Rattle.ini_check.specs.Mends.Texts.{AreMended, BecomesMended};
ghost use Rattle.ini_check.specs.Warnings.{AreWarningsOf};
ghost use Rattle.ini_check.specs.declared.warning.Warning.{Warning};

use crate::mends::better::is_improved;
use crate::mends::characters::push_text;
use crate::mends::element::push_mended;
use crate::walk::step;
use crate::warning::Trap;
use ini_text::{Error, ParseOption, Parser, PlacedElement, is_same_text};
use std::alloc::Global;

/// A text that is read, with the trap mended in each element where that is better.
pub(crate) fn mend_elements(
    alloc: Global,
    text: &str,
    read: ParseOption,
    trap: Trap,
) -> Result<String, Error>
    requires { (ws : List Warning) × AreWarningsOf read (chars text.now) ws }
    ensures mended { IfOk result (λ made. AreMended read trap (chars text.now) (string_text made)) }
    ensures only { IsOkUnless result (Error.Memory alloc_error) }
{
    let mut parser = Parser::new(alloc, text, read);
    let mut made = String::new(alloc);
    'elements: while let Some(element) = step(&mut parser)? {
        push_better(alloc, &mut made, &element, read, trap)?;
        drop(element);
    }
    Ok(made)
}

// Appends an element's source, in which the trap is mended where that is better.
fn push_better(
    alloc: Global,
    out: &mut String,
    element: &PlacedElement,
    read: ParseOption,
    trap: Trap,
) -> Result<(), Error>
    requires places { (b : Text) × ((r : Text)
        × HasPlaces read b (chars element.now.source.now) r element.now.content) }
    ensures mended { OnOk result ((source : Text) × (string_text out.new ≡ string_text out.old ++ source)
        × BecomesMended read trap (chars element.now.source.now) element.now.content source) }
    ensures only { IsOkUnless result (Error.Memory alloc_error) }
{
    let source = element.source;
    let mut made = String::new(alloc);
    push_mended(&mut made, element, read, trap)?;
    let made = made.as_str();
    if is_same_text(made, source) {
        push_text(out, source)?;
        return Ok(());
    }
    let is_so = is_improved(alloc, source, made, read, trap)?;
    if is_so {
        push_text(out, made)?;
        return Ok(());
    }
    push_text(out, source)?;
    Ok(())
}
