//! The items of a text, put into a document. This file knows parsers, headers and pairs, and no character.
ghost use Rattle.std.specs.Prelude.{◌≡◌, ◌<◌, length, chars, alloc_error, IfErr, IfOk, IsOkUnless, OnOk};
ghost use Rattle.std.specs.Prelude.{IsUtf8};
ghost use Rattle.ini_text.specs.Parsing.Fronts.{IsRest, front_of};
ghost use Rattle.ini_text.specs.Parsing.Items.{item_of};
ghost use Rattle.ini_text.specs.Parsing.Trivia.{SkipsTrivia};
ghost use Rattle.ini.specs.Documents.{with_item};
ghost use Rattle.ini.specs.Loading.{IfParse, IsParseOrMemory};
ghost use Rattle.ini.specs.Inside.ReadBytes.{IsMemory};
ghost use Rattle.ini.specs.Inside.StreamLoader.{Makes, Settles, StopsLater};

use crate::document::Ini;
use ini_text::{Error, Item, ParseOption, Parser};
use std::alloc::Global;

// All items of what is left of a text, which are the document's last.
pub(crate) fn push_items(
    alloc: Global,
    document: &mut Ini,
    text: &str,
    rest: &str,
    opt: ParseOption,
) -> Result<(), Error>
    requires some { 0 < length document.old }
    requires is_rest { IsRest (chars text.now) (chars rest.now) }
    ensures document { OnOk result (Makes opt (chars text.now) (front_of (chars text.now) (chars rest.now))
        (chars text.now) document.old document.new) }
    ensures fault { IfParse result
        (StopsLater opt (chars text.now) (front_of (chars text.now) (chars rest.now)) 0) }
    ensures only { IfErr result IsParseOrMemory }
{
    let mut parser = Parser::resume_at(alloc, text, rest, opt);
    'items: while let Some(item) = parser.next_item()? {
        push_item(document, item)?;
    }
    document.end()?;
    Ok(())
}

// The items of what is left of a text that stand there whatever follows the text: what follows them is left,
// without the white space and comments that stand there whatever follows.
pub(crate) fn push_complete_items<'a>(
    alloc: Global,
    document: &mut Ini,
    text: &'a str,
    rest: &'a str,
    opt: ParseOption,
) -> Result<&'a str, Error>
    requires some { 0 < length document.old }
    requires is_rest { IsRest (chars text.now) (chars rest.now) }
    ensures settled { IfOk result (λ left. Settles opt (chars text.now) (chars rest.now) (chars left.now)
        document.old document.new) }
    ensures utf8 { IfOk result (λ left. IsUtf8 left.now) }
    ensures only { IfErr result IsMemory }
{
    let mut left = rest;
    let mut parser = Parser::resume_at(alloc, text, rest, opt);
    'items: loop {
        let item = match parser.next_item() {
            Ok(Some(item)) => item,
            Ok(None) | Err(Error::Parse(_)) => return Ok(after_trivia(alloc, text, left, opt)),
            Err(refused) => return Err(refused),
        };
        // An item that ends the text may go on.
        let following = parser.rest();
        if following.is_empty() {
            return Ok(after_trivia(alloc, text, left, opt));
        }
        push_item(document, item)?;
        left = following;
    }
}

// What is left of a text after its trivia.
fn after_trivia<'a>(alloc: Global, text: &'a str, left: &'a str, opt: ParseOption) -> &'a str
    requires { IsRest (chars text.now) (chars left.now) }
    ensures skipped { SkipsTrivia opt (chars text.now)
        (front_of (chars text.now) (chars left.now)) (front_of (chars text.now) (chars result.now)) }
    ensures is_rest { IsRest (chars text.now) (chars result.now) }
    ensures utf8 { IsUtf8 result.now }
{
    let mut parser = Parser::resume_at(alloc, text, left, opt);
    parser.skip_trivia();
    parser.rest()
}

// A header opens a section last, a pair goes last in the last section.
#[inline(always)]
fn push_item(document: &mut Ini, item: Item) -> Result<(), Error>
    requires { 0 < length document.old }
    ensures pushed { OnOk result (document.new ≡ with_item document.old (item_of item)) }
    ensures only_memory { IsOkUnless result (Error.Memory alloc_error) }
{
    match item {
        Item::Header(name) => document.open_section(Some(name)),
        Item::Pair(key, value) => document.push_pair(key, value),
    }
}
