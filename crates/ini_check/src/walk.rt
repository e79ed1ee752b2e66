//! The warnings of a text. This file knows elements and places, and of characters nothing.
ghost use Rattle.std.specs.Prelude.{chars, IfOk, IfErr, MatchOption};
ghost use Rattle.ini.specs.Loading.{IfParse, IsParseOrMemory, IsStopOf};
ghost use Rattle.ini_check.specs.Warnings.{AreWarningsOf};
ghost use Rattle.ini_check.specs.Inside.Walks.{IsPastLast, StandsWithin, Steps};

use crate::position::Position;
use crate::seen::Seen;
use crate::warn::warn_element;
use crate::warning::Warning;
use ini_text::{Error, ParseOption, Parser, PlacedElement};
use std::alloc::Global;

/// The warnings of a text that is read by these options, element after element.
///
/// The whole text is read, and no document is made. A byte order mark at its front is text.
///
/// # Errors
///
/// `Parse` where reading the text stops, as in loading; `Memory` where memory is refused.
pub fn check(alloc: Global, text: &str, read: ParseOption) -> Result<Vec<Warning>, Error>
    ensures warnings { IfOk result (λ warnings. AreWarningsOf read (chars text.now) warnings.items) }
    ensures fault { IfParse result (IsStopOf read (chars text.now)) }
    ensures only { IfErr result IsParseOrMemory }
{
    let mut parser = Parser::new(alloc, text, read);
    let mut warnings = Vec::new(alloc);
    let mut seen = Seen::none(alloc);
    let mut position = Position::at_front();
    'elements: while let Some(element) = step(&mut parser)? {
        let known = seen.take_note(alloc, &element)?;
        warn_element(&mut warnings, position, &element, known, read)?;
        position = position.advance(element.source);
        drop(element);
    }
    Ok(warnings)
}

/// The next element, and `None` at the text's end.
pub(crate) fn step<'a>(parser: &mut Parser<'a>) -> Result<Option<PlacedElement<'a>>, Error>
    requires { StandsWithin parser.old }
    ensures element { IfOk result (λ found. MatchOption found
        (IsPastLast parser.old.option parser.old.text parser.old.front parser.new)
        (Steps parser.old.option parser.old.text parser.old.front parser.new)) }
    ensures fault { IfParse result (IsStopOf parser.old.option parser.old.text) }
    ensures only { IfErr result IsParseOrMemory }
{
    parser.next_element()
}
