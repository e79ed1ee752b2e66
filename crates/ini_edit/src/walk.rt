//! One element of a text after another. This file knows parsers alone.
ghost use Rattle.std.specs.Prelude.{IfOk, IfErr, MatchOption, OnOk};
ghost use Rattle.ini.specs.Loading.{IfParse, IsParseOrMemory, IsStopOf};
ghost use Rattle.ini_edit.specs.Inside.Walks.{IsPastLast, ReadsOn, StandsWithin, Steps};

use ini_text::{Error, Parser, PlacedElement};

/// The next element, and `None` at the text's end.
pub(crate) fn step<'a>(parser: &mut Parser<'a>) -> Result<Option<PlacedElement<'a>>, Error>
    requires { StandsWithin parser.old }
    ensures element { IfOk result (λ found. MatchOption found
        (IsPastLast parser.old.option parser.old.text parser.old.front parser.new)
        (Steps parser.old.option parser.old.text parser.old.front parser.new)) }
    ensures fault { IfParse result (IsStopOf parser.old.option parser.old.text) }
    ensures only { IfErr result IsParseOrMemory }
{
    parser.next_element()
}

/// Goes over the elements to the text's end.
pub(crate) fn read_on(parser: &mut Parser) -> Result<(), Error>
    requires { StandsWithin parser.old }
    ensures end { OnOk result (ReadsOn parser.old.option parser.old.text parser.old.front) }
    ensures fault { IfParse result (IsStopOf parser.old.option parser.old.text) }
    ensures only { IfErr result IsParseOrMemory }
{
    'elements: while let Some(element) = step(parser)? {
        drop(element);
    }
    Ok(())
}
