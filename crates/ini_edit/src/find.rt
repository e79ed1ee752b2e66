//! The first pair of a key in the first section of a name, and where it stands. This file knows elements,
//! and of characters nothing.
ghost use Rattle.std.specs.Prelude.{◌≡◌, [], ◌∷◌, Ok, Some, true, false, chars, IfOk, IfErr, MatchOption};
ghost use Rattle.std.specs.Prelude.{None};
ghost use Rattle.ini.specs.Texts.{str_name};
ghost use Rattle.ini.specs.Loading.{IfParse, IsParseOrMemory, IsStopOf};
ghost use Rattle.ini_text.specs.Grammar.Elements.{Header};
ghost use Rattle.ini_text.specs.Parsing.Items.{cow_text};
ghost use Rattle.ini_text.specs.Parsing.Places.{gives};
ghost use Rattle.ini_edit.specs.FirstPairs.{IsFirstPair, LacksPair, LacksSection, stretches_of};
ghost use Rattle.ini_edit.specs.Inside.Walks.{OpensFirst, OpensNone, ReachesEnd, ReachesPair, StandsWithin};

use crate::walk::{read_on, step};
use ini_text::{
    Content, Error, PairPlaces, ParseOption, Parser, PlacedElement, front_before, is_same_text,
};
use std::alloc::Global;
use std::borrow::CowStr;

/// A pair of a text, and where it stands there.
#[derive(Debug, Drop)]
pub struct FoundPair<'a> {
    /// What stands before the pair's element. Its end is where the pair begins, for a line and a column.
    pub front: &'a str,
    /// The value, without quotes and escapes.
    pub value: CowStr<'a>,
    /// The stretches of the pair's element.
    pub places: PairPlaces<'a>,
    /// What follows the element.
    pub rest: &'a str,
}

/// The first pair of a key in the first section of a name, and `None` where there is none. No name is the
/// general section's, which a text begins with.
///
/// The whole text is read, and no document is made.
///
/// # Errors
///
/// `Parse` where reading the text stops, with line and column, also where the pair stands before that;
/// `Memory` where memory is refused.
pub fn find_pair<'a>(
    alloc: Global,
    text: &'a str,
    read: ParseOption,
    name: Option<&str>,
    key: &str,
) -> Result<Option<FoundPair<'a>>, Error>
    ensures found { IfOk result (λ found. MatchOption found
        (LacksPair read (chars text.now) (str_name name.entry) (chars key.now))
        (λ pair. IsFirstPair read (chars text.now) (str_name name.entry) (chars key.now)
        (stretches_of pair) (cow_text pair.value))) }
    ensures fault { IfParse result (IsStopOf read (chars text.now)) }
    ensures only { IfErr result IsParseOrMemory }
{
    let mut parser = Parser::new(alloc, text, read);
    if !reach_section(&mut parser, name)? {
        return Ok(None);
    }
    let found = reach_pair(&mut parser, text, key)?;
    read_on(&mut parser)?;
    Ok(found)
}

/// Goes past the header of the first section of the name: whether there is one. Where there is none, the
/// text is read to its end.
pub(crate) fn reach_section(parser: &mut Parser, name: Option<&str>) -> Result<bool, Error>
    requires refusal { parser.old.refusal ≡ None }
    requires front { parser.old.front ≡ [] }
    ensures opened { result ≡ Ok true →
        OpensFirst parser.old.option parser.old.text parser.new (str_name name.entry) }
    ensures absent { result ≡ Ok false
        → LacksSection parser.old.option parser.old.text (str_name name.entry) }
    ensures fault { IfParse result (IsStopOf parser.old.option parser.old.text) }
    ensures only { IfErr result IsParseOrMemory }
{
    let Some(name) = name else {
        return Ok(true);
    };
    'elements: while let Some(element) = step(parser)? {
        if opens(&element, name) {
            return Ok(true);
        }
        drop(element);
    }
    Ok(false)
}

/// Whether an element is a header with the name.
pub(crate) fn opens(element: &PlacedElement, name: &str) -> bool
    ensures yes { result ≡ true → gives element.now.content ≡ Header (chars name.now) ∷ [] }
    ensures no { result ≡ false → OpensNone (Some (chars name.now)) (gives element.now.content) }
{
    match &element.content {
        Content::Header(header) => is_same_text(name, header.as_str()),
        Content::Pair(_) => false,
        Content::Nothing => false,
    }
}

/// Goes over a section's pairs to the first of the key, and over that; or to the section's end.
pub(crate) fn reach_pair<'a>(
    parser: &mut Parser<'a>,
    text: &'a str,
    key: &str,
) -> Result<Option<FoundPair<'a>>, Error>
    requires text { parser.old.text ≡ chars text.now }
    requires within { StandsWithin parser.old }
    ensures found { IfOk result (λ found. MatchOption found
        (ReachesEnd parser.old.option parser.old.text parser.old.front parser.new (chars key.now))
        (ReachesPair parser.old.option parser.old.text parser.old.front parser.new (chars key.now))) }
    ensures fault { IfParse result (IsStopOf parser.old.option parser.old.text) }
    ensures only { IfErr result IsParseOrMemory }
{
    'elements: loop {
        let start = parser.rest();
        let Some(element) = step(parser)? else {
            return Ok(None);
        };
        match element.content {
            Content::Nothing => {}
            Content::Header(_) => return Ok(None),
            Content::Pair(pair) => {
                if is_same_text(key, pair.key.as_str()) {
                    return Ok(Some(FoundPair {
                        front: front_before(text, start),
                        value: pair.value,
                        places: pair.places,
                        rest: parser.rest(),
                    }));
                }
                drop(pair);
            }
        }
    }
}
