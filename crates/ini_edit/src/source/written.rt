//! How a value, and a new pair, are written in a text in pieces. This file knows what is written, and reads
//! it back.
ghost use Rattle.std.specs.Prelude.{◌≡◌, ◌↔◌, IfOk, IsOkUnless, MatchOption, alloc_error, chars, true};
ghost use Rattle.std.specs.Option.{option_map};
ghost use Rattle.ini_text.specs.Laws.Plain.{IsPlainSeparator};
ghost use Rattle.ini_text.specs.Parsing.Items.{string_text};
ghost use Rattle.ini_edit.specs.Inside.SourceEnds.{GivesValue, IsNewPair, IsTried, made_pair};
ghost use Rattle.ini_edit.specs.Inside.SourceEnds.{parted_lines, style_of};
ghost use Rattle.ini_text.specs.Grammar.CharacterKinds.{is_blank};
ghost use Rattle.ini_text.specs.Grammar.CharacterKinds.{begins};
ghost use Rattle.ini_edit.specs.SourceWritten.{HasForm, IsFirstReadAs, IsReadAs, option_style, style_like};
ghost use Rattle.ini_edit.specs.SourceWritten.{value_forms};

use crate::append::push_text;
use crate::escape::{push_escaped, push_in_quote};
use crate::source::lines::{blanks_at_end, is_empty, split_blanks};
use crate::source::pair::SourcePair;
use crate::source::pair::own::PairParts;
use ini_text::{
    Content, Error, EscapePolicy, ParseOption, Parser, PlacedElement, WriteOption, is_same_text,
    split_first,
};
use std::alloc::Global;
use std::borrow::CowStr;

/// The first of the forms of a value that is read back: in the quote that is kept, bare, in double quotes,
/// in single quotes. `None` where none is.
pub(crate) fn first_form(
    alloc: Global,
    kept_quote: &str,
    value: &str,
    policy: EscapePolicy,
    read: ParseOption,
) -> Result<Option<String>, Error>
    ensures form { IfOk result (λ form. MatchOption form (¬ HasForm read policy (chars value.now))
        (λ source. IsFirstReadAs read (chars value.now) (value_forms policy (chars kept_quote.now)
        (chars value.now))
        (string_text source))) }
    ensures only { IsOkUnless result (Error.Memory alloc_error) }
{
    if let Some(kept) = tried_form(alloc, kept_quote, value, policy, read)? {
        return Ok(Some(kept));
    }
    if let Some(bare) = tried_form(alloc, "", value, policy, read)? {
        return Ok(Some(bare));
    }
    if let Some(double) = tried_form(alloc, "\"", value, policy, read)? {
        return Ok(Some(double));
    }
    tried_form(alloc, "'", value, policy, read)
}

// What is written of a value in this quote, where it is read back.
fn tried_form(
    alloc: Global,
    quote: &str,
    value: &str,
    policy: EscapePolicy,
    read: ParseOption,
) -> Result<Option<String>, Error>
    ensures form { IfOk result (λ form. IsTried read policy (chars quote.now) (chars value.now)
        (option_map string_text form)) }
    ensures only { IsOkUnless result (Error.Memory alloc_error) }
{
    let mut source = String::new(alloc);
    push_in_quote(alloc, &mut source, quote, value, policy)?;
    if is_read_back(alloc, source.as_str(), value, read)? {
        return Ok(Some(source));
    }
    Ok(None)
}

/// Whether one of the forms of a value is read back.
pub(crate) fn is_writable(
    alloc: Global,
    value: &str,
    policy: EscapePolicy,
    read: ParseOption,
) -> Result<bool, Error>
    ensures form { IfOk result (λ is. (is ≡ true) ↔ HasForm read policy (chars value.now)) }
    ensures only { IsOkUnless result (Error.Memory alloc_error) }
{
    let form = first_form(alloc, "", value, policy, read)?;
    Ok(form.is_some())
}

// Whether a value that is written so, alone in its line, is read as the value.
fn is_read_back(alloc: Global, source: &str, value: &str, read: ParseOption) -> Result<bool, Error>
    ensures read { IfOk result (λ is. (is ≡ true) ↔ IsReadAs read (chars source.now) (chars value.now)) }
    ensures only { IsOkUnless result (Error.Memory alloc_error) }
{
    let mut line = String::from_str(alloc, "k=")?;
    push_text(&mut line, source)?;
    push_text(&mut line, "\n")?;
    let mut parser = Parser::new(alloc, line.as_str(), read);
    match parser.next_element() {
        Ok(Some(element)) => Ok(gives_value(element, source, value)),
        Ok(None) => Ok(false),
        Err(Error::Memory(refusal)) => Err(Error::Memory(refusal)),
        Err(Error::Parse(_)) => Ok(false),
        Err(Error::Io(_) | Error::NotUtf8 | Error::NoProgress) => Ok(false),
    }
}

// Whether an element is a pair of the value, of which the source is all that is written.
fn gives_value(element: PlacedElement<'_>, source: &str, value: &str) -> bool
    ensures { (result ≡ true) ↔ GivesValue (chars source.now) (chars value.now) element.entry }
{
    let PlacedElement { content, .. } = element;
    match content {
        Content::Pair(pair) => {
            is_same_text(pair.places.raw_value, source) && is_same_text(pair.value.as_str(), value)
        }
        Content::Header(_) => false,
        Content::Nothing => false,
    }
}

/// What stands around a key: what indents it, and the separator with its blanks.
#[derive(Clone, Copy, Debug)]
pub(crate) struct PairStyle<'s> {
    pub(crate) indent: &'s str,
    pub(crate) pad: &'s str,
    pub(crate) separator: char,
    pub(crate) space_before: &'s str,
}

impl<'a> SourcePair<'a> {
    /// How a pair like this one is written. Where keys keep the blanks that indent them, none are.
    pub(crate) fn style(&self, read: ParseOption) -> PairStyle<'_>
        ensures { style_of result ≡ style_like read self.now }
    {
        let (blanks, _) = split_blanks(self.raw_key());
        let (space_before, _) = split_blanks(self.space_before());
        PairStyle {
            indent: if read.enabled_preserve_key_leading_whitespace {
                ""
            } else {
                blanks
            },
            pad: blanks_at_end(self.raw_key()),
            separator: self.separator().unwrap_or('='),
            space_before,
        }
    }
}

/// How the options write a pair, whose separator is plain.
pub(crate) fn option_style<'s>(write: &WriteOption) -> PairStyle<'s>
    requires { IsPlainSeparator (chars write.now.kv_separator.now) }
    ensures { style_of result ≡ option_style (chars write.now.kv_separator.now) }
{
    separator_style(write.kv_separator)
}

/// How a pair is written whose separator is this plain text.
pub(crate) fn separator_style<'t>(separator: &'t str) -> PairStyle<'t>
    requires { IsPlainSeparator (chars separator.now) }
    ensures { style_of result ≡ option_style (chars separator.now) }
{
    let (pad, rest) = split_blanks(separator);
    match split_first(rest) {
        Some((separator, space_before)) => PairStyle {
            indent: "",
            pad,
            separator,
            space_before,
        },
        None => PairStyle {
            indent: "",
            pad: "",
            separator: '=',
            space_before: "",
        },
    }
}

/// A pair that is about to be put in: as it is written, but for what follows its line.
#[derive(Debug, Drop)]
pub(crate) struct NewPair<'a> {
    key: String,
    value: String,
    indent: String,
    raw_key: String,
    separator: char,
    space_before: CowStr<'a>,
    raw_value: String,
}

impl<'a> NewPair<'a> {
    pub(crate) fn new(
        alloc: Global,
        style: PairStyle<'_>,
        key: &str,
        value: &str,
        raw_value: String,
        policy: EscapePolicy,
    ) -> Result<NewPair<'a>, Error>
        ensures new { IfOk result (IsNewPair policy (style_of style.entry) (chars key.now) (chars value.now)
            (string_text raw_value)) }
        ensures only { IsOkUnless result (Error.Memory alloc_error) }
    {
        let mut raw_key = String::new(alloc);
        push_escaped(alloc, &mut raw_key, key, policy)?;
        push_text(&mut raw_key, style.pad)?;
        Ok(NewPair {
            key: String::from_str(alloc, key)?,
            value: String::from_str(alloc, value)?,
            indent: String::from_str(alloc, style.indent)?,
            raw_key,
            separator: style.separator,
            space_before: CowStr::Owned(String::from_str(alloc, style.space_before)?),
            raw_value,
        })
    }

    /// The pair, indented or not, before these lines and this gap, which where values are in one line follow
    /// it together.
    pub(crate) fn before(
        self,
        alloc: Global,
        is_indented: bool,
        lines: String,
        gap: &str,
        read: ParseOption,
    ) -> Result<SourcePair<'a>, Error>
        ensures pair { IfOk result (λ pair. pair
            ≡ made_pair read self.entry is_indented (string_text lines) (chars gap.now)) }
        ensures only { IsOkUnless result (Error.Memory alloc_error) }
    {
        let NewPair {
            key,
            value,
            mut indent,
            raw_key,
            separator,
            space_before,
            raw_value,
        } = self;
        if is_indented {
            push_text(&mut indent, raw_key.as_str())?;
        }
        let raw_key = if is_indented { indent } else { raw_key };
        let (trailing_lines, after) = parted(alloc, lines, gap, read)?;
        let parts = PairParts::of_new(
            key,
            value,
            raw_key,
            separator,
            space_before,
            raw_value,
            trailing_lines,
            after,
        );
        SourcePair::kept(alloc, parts)
    }
}

// The lines after a value, and the gap: where values are in one line, both are the gap.
fn parted(
    alloc: Global,
    lines: String,
    gap: &str,
    read: ParseOption,
) -> Result<(String, String), Error>
    ensures parted { IfOk result (λ parts. (string_text parts.0, string_text parts.1)
        ≡ parted_lines read (string_text lines) (chars gap.now)) }
    ensures only { IsOkUnless result (Error.Memory alloc_error) }
{
    if read.enabled_indented_mutiline_value {
        return Ok((lines, String::from_str(alloc, gap)?));
    }
    let mut after = lines;
    push_text(&mut after, gap)?;
    Ok((String::new(alloc), after))
}

/// Whether blanks indent a pair's key.
pub(crate) fn is_indented(pair: &SourcePair<'_>) -> bool
    ensures { result ≡ begins is_blank pair.now.stretches.key }
{
    let (blanks, _) = split_blanks(pair.raw_key());
    !is_empty(blanks)
}
