//! A comment that holds a pair of a key, made that pair again: what makes pairs comments, undone. This file
//! knows elements and their fronts, and that a text is tried by reading it.
ghost use Rattle.std.specs.Prelude.{◌≡◌, ◌++◌, IfErr, IfOk, IsOkUnless, MatchOption, None, Some, chars};
ghost use Rattle.std.specs.Prelude.{alloc_error, map};
ghost use Rattle.std.specs.Option.{option_map};
ghost use Rattle.ini.specs.Equality.{is_pair, is_pairs};
ghost use Rattle.ini.specs.Loading.{IfParse, IsParseOrMemory, IsStopOf};
ghost use Rattle.ini.specs.Texts.{str_name};
ghost use Rattle.ini_text.specs.Parsing.Fronts.{front_of};
ghost use Rattle.ini_text.specs.Parsing.Items.{string_text};
ghost use Rattle.ini_text.specs.Parsing.Places.{gives};
ghost use Rattle.ini_text.specs.declared.error.Error.TheVariants.{Memory};
ghost use Rattle.ini_edit.specs.Inside.Walks.{IsPastLast, StandsWithin, Steps};
ghost use Rattle.ini_edit.specs.SourceLines.{after_blanks};
ghost use Rattle.ini_edit.specs.Sources.{document_in, given_pair, given_section};
ghost use Rattle.ini_file.specs.Uncomment.{FindsComment, HoldsPair, IsOneMore, IsUncommentedText};
ghost use Rattle.ini_file.specs.Uncomment.{OfElement, RefusesToUncomment, Uncomments, after_blank};
ghost use Rattle.ini_file.specs.Uncomment.{goes_inside, is_document, is_one_pair, is_pair_alone};
ghost use Rattle.ini_file.specs.Uncomment.{is_section, said};

use ini_dialect::{CaseRule, Lookup};
use ini_edit::{EditError, Source, SourcePair, SourceSection};
use ini_text::{
    Content, Error, ParseOption, Parser, PlacedElement, front_before, is_blank, is_comment_mark,
    is_same_text, split_first, starts_line,
};
use std::alloc::{AllocError, Global};

/// The text in which the first comment that holds a pair of the key, in a section of the name, is that pair:
/// its mark is left out, with one blank after it if there is one. `None` where there is no such comment.
///
/// # Errors
///
/// `NoPlace` where the key has a pair already, and where the text would not be read as before with this pair
/// more, which counts; and those of reading the text.
pub(crate) fn uncommented(
    alloc: Global,
    rule: Lookup,
    text: &str,
    read: ParseOption,
    name: Option<&str>,
    key: &str,
) -> Result<Option<String>, EditError>
    ensures made { IfOk result (λ made. MatchOption made
        (FindsComment read rule.case (chars key.now) (str_name name.entry) (chars text.now) None)
        (λ new. IsUncommentedText rule read (str_name name.entry) (chars key.now) (chars text.now)
        (string_text new))) }
    ensures refused { IfErr result
        (RefusesToUncomment rule read (str_name name.entry) (chars key.now) (chars text.now)) }
{
    let source = Source::read(alloc, text, read)?;
    let Some(new) = first_uncommented(alloc, rule.case, text, read, name, key)? else {
        return Ok(None);
    };
    if let Some(_) = rule.find_in_source(&source, name, key) {
        return Err(EditError::NoPlace);
    }
    if !is_one_more(alloc, rule, &source, new.as_str(), read, name, key)? {
        return Err(EditError::NoPlace);
    }
    Ok(Some(new))
}

// Whether a text reads as pieces with one pair of the key more, which counts.
fn is_one_more(
    alloc: Global,
    rule: Lookup,
    source: &Source<'_>,
    new: &str,
    read: ParseOption,
    name: Option<&str>,
    key: &str,
) -> Result<bool, Error>
    ensures more { IfOk result (IsOneMore rule read (str_name name.entry) (chars key.now)
        (document_in source.now) (chars new.now)) }
    ensures only { IsOkUnless result (Memory alloc_error) }
{
    let mut more = match Source::read(alloc, new, read) {
        Ok(more) => more,
        Err(Error::Parse(_)) => return Ok(false),
        Err(refused) => return Err(refused),
    };
    let Some(at) = rule.find_in_source(&more, name, key) else {
        return Ok(false);
    };
    more.delete_at(alloc, at.section, at.pair)?;
    Ok(is_document(more.sections(), source.sections()))
}

// Whether sections have the names and the pairs of others.
fn is_document(sections: &[SourceSection<'_>], others: &[SourceSection<'_>]) -> bool
    ensures { result ≡ is_document (map given_section sections.now) (map given_section others.now) }
{
    if sections.len() != others.len() {
        return false;
    }
    for (i, section) in sections.iter().enumerate() {
        if !is_section(section, &others[i]) {
            return false;
        }
    }
    true
}

// Whether a section has the name and the pairs of another.
fn is_section(section: &SourceSection<'_>, other: &SourceSection<'_>) -> bool
    ensures { result ≡ is_section (given_section section.now) (given_section other.now) }
{
    CaseRule::Kept.names_fit(section.name(), other.name())
        && is_pairs(section.pairs(), other.pairs())
}

// Whether pairs have the keys and the values of others.
fn is_pairs(pairs: &[SourcePair<'_>], others: &[SourcePair<'_>]) -> bool
    ensures { result ≡ is_pairs (map given_pair pairs.now) (map given_pair others.now) }
{
    if pairs.len() != others.len() {
        return false;
    }
    for (i, pair) in pairs.iter().enumerate() {
        if !is_pair(pair, &others[i]) {
            return false;
        }
    }
    true
}

// Whether a pair has the key and the value of another.
fn is_pair(pair: &SourcePair<'_>, other: &SourcePair<'_>) -> bool
    ensures { result ≡ is_pair (given_pair pair.now) (given_pair other.now) }
{
    is_same_text(pair.key(), other.key()) && is_same_text(pair.value(), other.value())
}

// The text without the mark of the first comment that holds a pair of the key, in a section of the name.
fn first_uncommented(
    alloc: Global,
    case: CaseRule,
    text: &str,
    read: ParseOption,
    name: Option<&str>,
    key: &str,
) -> Result<Option<String>, Error>
    ensures found { IfOk result (λ found. FindsComment read case (chars key.now) (str_name name.entry)
        (chars text.now) (option_map string_text found)) }
    ensures fault { IfParse result (IsStopOf read (chars text.now)) }
    ensures only { IfErr result IsParseOrMemory }
{
    let mut parser = Parser::new(alloc, text, read);
    let mut inside = case.names_fit(name, None);
    'elements: loop {
        let start = parser.rest();
        let Some(element) = step(&mut parser)? else {
            return Ok(None);
        };
        let front = front_before(text, start);
        let rest = parser.rest();
        if let Some(new) = of_element(alloc, case, read, key, inside, front, &element, rest)? {
            return Ok(Some(new));
        }
        inside = goes_inside(case, name, inside, &element.content);
        drop(element);
    }
}

// The next element, and `None` at the text's end.
fn step<'a>(parser: &mut Parser<'a>) -> Result<Option<PlacedElement<'a>>, Error>
    requires { StandsWithin parser.old }
    ensures element { IfOk result (λ found. MatchOption found
        (IsPastLast parser.old.option parser.old.text parser.old.front parser.new)
        (Steps parser.old.option parser.old.text parser.old.front parser.new)) }
    ensures fault { IfParse result (IsStopOf parser.old.option parser.old.text) }
    ensures only { IfErr result IsParseOrMemory }
{
    parser.next_element()
}

// Whether what follows an element is inside a section of the name.
fn goes_inside(case: CaseRule, name: Option<&str>, inside: bool, content: &Content<'_>) -> bool
    ensures { result ≡ goes_inside case (str_name name.entry) inside (gives content.now) }
{
    match content {
        Content::Nothing => inside,
        Content::Header(found) => case.names_fit(name, Some(found.as_str())),
        Content::Pair(_) => inside,
    }
}

// The text without the mark of a comment, of an element between a front and a rest; `None` where it is no
// comment that is looked for.
fn of_element(
    alloc: Global,
    case: CaseRule,
    read: ParseOption,
    key: &str,
    inside: bool,
    front: &str,
    element: &PlacedElement<'_>,
    rest: &str,
) -> Result<Option<String>, Error>
    ensures made { IfOk result (λ made. OfElement read case (chars key.now) inside (chars front.now)
        (chars element.now.source.now) (chars rest.now) (gives element.now.content)
        (option_map string_text made)) }
    ensures only { IsOkUnless result (Memory alloc_error) }
{
    match &element.content {
        Content::Nothing => {
            without_mark(alloc, case, read, key, inside, front, element.source, rest)
        }
        Content::Header(_) => Ok(None),
        Content::Pair(_) => Ok(None),
    }
}

// The text without the mark of a comment, of a source that gives nothing between a front and a rest, if it is
// looked for inside the sections of the name, and holds a pair of the key.
fn without_mark(
    alloc: Global,
    case: CaseRule,
    read: ParseOption,
    key: &str,
    inside: bool,
    front: &str,
    source: &str,
    rest: &str,
) -> Result<Option<String>, Error>
    ensures made { IfOk result (λ made. Uncomments read case (chars key.now) inside (chars front.now)
        (chars source.now) (chars rest.now) (option_map string_text made)) }
    ensures only { IsOkUnless result (Memory alloc_error) }
{
    if !inside {
        return Ok(None);
    }
    if !starts_line(front) {
        return Ok(None);
    }
    let (blanks, comment) = split_blanks(source);
    let Some(line) = said(comment) else {
        return Ok(None);
    };
    if !holds_pair(alloc, case, read, key, line)? {
        return Ok(None);
    }
    Ok(Some(joined(alloc, front, blanks, line, rest)?))
}

// The blanks with which a text begins, and what follows.
fn split_blanks(text: &str) -> (&str, &str)
    ensures blanks { chars result.0.now ≡ front_of (chars text.now) (after_blanks (chars text.now)) }
    ensures rest { chars result.1.now ≡ after_blanks (chars text.now) }
{
    let mut rest = text;
    'characters: while let Some((c, after)) = split_first(rest) {
        if !is_blank(c) {
            return (front_before(text, rest), rest);
        }
        rest = after;
    }
    (text, rest)
}

// What a comment says: what follows its mark, and one blank after that. `None` where none begins the text.
fn said(text: &str) -> Option<&str>
    ensures { option_map (λ line. chars line.now) result ≡ said (chars text.now) }
{
    match split_first(text) {
        Some((c, after)) if is_comment_mark(c) => Some(after_blank(after)),
        _ => None,
    }
}

// What follows the blank with which a text begins; the text itself where it begins with none.
fn after_blank(text: &str) -> &str
    ensures { chars result.now ≡ after_blank (chars text.now) }
{
    match split_first(text) {
        Some((c, after)) if is_blank(c) => after,
        _ => text,
    }
}

// Whether a text that is read alone is one pair, of the key.
fn holds_pair(
    alloc: Global,
    case: CaseRule,
    read: ParseOption,
    key: &str,
    text: &str,
) -> Result<bool, Error>
    ensures holds { IfOk result (HoldsPair read case (chars key.now) (chars text.now)) }
    ensures only { IsOkUnless result (Memory alloc_error) }
{
    match Source::read(alloc, text, read) {
        Ok(source) => Ok(is_pair_alone(source.sections(), case, key)),
        Err(Error::Parse(_)) => Ok(false),
        Err(refused) => Err(refused),
    }
}

// Whether sections are one, of one pair, which is of the key.
fn is_pair_alone(sections: &[SourceSection<'_>], case: CaseRule, key: &str) -> bool
    ensures { result ≡ is_pair_alone case (chars key.now) (map given_section sections.now) }
{
    match sections {
        [section] => is_one_pair(section.pairs(), case, key),
        _ => false,
    }
}

// Whether pairs are one, of the key.
fn is_one_pair(pairs: &[SourcePair<'_>], case: CaseRule, key: &str) -> bool
    ensures { result ≡ is_one_pair case (chars key.now) (map given_pair pairs.now) }
{
    match pairs {
        [pair] => case.fits(key, pair.key()),
        _ => false,
    }
}

// Four texts, one after another.
fn joined(
    alloc: Global,
    first: &str,
    second: &str,
    third: &str,
    fourth: &str,
) -> Result<String, AllocError>
    ensures { IfOk result (λ whole. string_text whole
        ≡ chars first.now ++ (chars second.now ++ (chars third.now ++ chars fourth.now))) }
{
    Ok(format!(in alloc; "{first}{second}{third}{fourth}")?)
}
