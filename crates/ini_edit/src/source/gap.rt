//! What stands between the items of a text: gaps and comments, up to the next item. This file knows
//! elements, and no item.
ghost use Rattle.std.specs.Prelude.{◌≡◌, ◌≢◌, [], false, true, IfErr, IfOk};
ghost use Rattle.ini_text.specs.Parsing.Places.{gives};
ghost use Rattle.ini.specs.Loading.{IfParse, IsParseOrMemory, IsStopOf};
ghost use Rattle.ini_edit.specs.Inside.Walks.{StandsWithin};
ghost use Rattle.ini_edit.specs.Inside.SourceWalks.{ReachesItem};

use crate::walk::step;
use ini_text::{Content, Error, Parser, PlacedElement, front_before};

/// The elements that give nothing, up to the next one that gives an item, and that one; up to the text's end
/// where none does.
#[derive(Debug, Drop)]
pub(crate) struct Reached<'a> {
    /// The text of the elements that give nothing.
    pub(crate) gap: &'a str,
    /// The element that gives an item.
    pub(crate) item: Option<PlacedElement<'a>>,
}

/// Goes over gaps and comments to the next item, and over that.
pub(crate) fn reach_item<'a>(parser: &mut Parser<'a>) -> Result<Reached<'a>, Error>
    requires { StandsWithin parser.old }
    ensures reached { IfOk result
        (ReachesItem parser.old.option parser.old.text parser.old.front parser.new) }
    ensures fault { IfParse result (IsStopOf parser.old.option parser.old.text) }
    ensures only { IfErr result IsParseOrMemory }
{
    let start = parser.rest();
    'elements: loop {
        let gap = front_before(start, parser.rest());
        let Some(element) = step(parser)? else {
            return Ok(Reached { gap, item: None });
        };
        if !gives_nothing(&element.content) {
            return Ok(Reached {
                gap,
                item: Some(element),
            });
        }
        drop(element);
    }
}

fn gives_nothing(content: &Content) -> bool
    ensures yes { result ≡ true → gives content.now ≡ [] }
    ensures no { result ≡ false → gives content.now ≢ [] }
{
    match content {
        Content::Nothing => true,
        Content::Header(_) => false,
        Content::Pair(_) => false,
    }
}
