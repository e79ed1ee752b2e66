//! A text that was read once, in pieces: look-ups and edits without reading it again. This file knows
//! sections by their calls.
ghost use Rattle.std.specs.Prelude.{◌≡◌, ◌++◌, ◌∷◌, [], chars, IfErr, IfOk, IsOkUnless, OnErr};
ghost use Rattle.std.specs.Prelude.{MatchOption, None, OnOk, alloc_error, encode_utf8_all};
ghost use Rattle.std.specs.Option.{option_map};
ghost use Rattle.ini.specs.Documents.{first_section, value_in};
ghost use Rattle.ini.specs.Loading.{IfParse, IsDocumentOf, IsParseOrMemory, IsStopOf};
ghost use Rattle.ini.specs.Texts.{is_name, str_name, str_text};
ghost use Rattle.ini.specs.WrittenTo.{IsFrontWrittenTo, IsWrittenTo};
ghost use Rattle.ini_text.specs.Device.DeviceRefusals.{IsIoOrNoProgress};
ghost use Rattle.ini_text.specs.Device.Gathering.{Sends};
ghost use Rattle.ini_text.specs.Device.Watched.{IsClear, WritesBytes};
ghost use Rattle.ini_text.specs.Parsing.Items.{string_text};
ghost use Rattle.ini_edit.specs.Inside.SourceSteps.{IsFirstAt};
ghost use Rattle.ini_edit.specs.SourceEdits.{first_fitting};
ghost use Rattle.ini_edit.specs.SourceReads.{AreRead};
ghost use Rattle.ini_edit.specs.Sources.{document_in, given_pairs, sections_text, text_in};

use crate::source::gap::reach_item;
use crate::source::pair::SourcePair;
use crate::source::section::SourceSection;
use ini_text::{
    Content, Error, Gatherer, ParseOption, Parser, PlacedElement, Watched, is_same_text,
};
use std::alloc::{AllocError, Global};
use std::io::Write;
use std::marker::Model;

pub(crate) mod add;
mod at;
mod comments;
mod delete;
pub(crate) mod elements;
mod find;
mod gap;
pub(crate) mod layout;
pub(crate) mod lines;
mod list;
pub(crate) mod pair;
mod place;
mod quiet_lines;
mod rename;
pub(crate) mod section;
mod sections;
mod sending;
pub(crate) mod set;
mod values;
pub(crate) mod written;

/// A text that was read once, in pieces: sections in order, of which the first is the general one, each with
/// its pairs. Every byte is kept: comments, blank lines, white space, quotes.
#[derive(Drop)]
pub struct Source<'a> {
    option: ParseOption,
    sections: Vec<SourceSection<'a>>,
}

impl<'a> Model for Source<'a> {
    ghost use Rattle.ini_edit.specs.Sources.{Pieces};
    ghost use Rattle.ini_edit.specs.Inside.Spans.{AreSections};

    ghost Value = { Pieces };

    ghost view = { λ s. record { option = s.option; sections = s.sections.items } };

    ghost invariant = { λ s. AreSections s.option s.sections.items };
}

impl<'a> Source<'a> {
    /// The pieces of a text.
    ///
    /// # Errors
    ///
    /// `Parse` where reading the text stops, with line and column; `Memory` where memory is refused.
    pub fn read(alloc: Global, text: &'a str, option: ParseOption) -> Result<Source<'a>, Error>
        ensures option { IfOk result (λ source. source.option ≡ option) }
        ensures text { IfOk result (λ source. text_in source ≡ chars text.now) }
        ensures document { IfOk result (λ source. IsDocumentOf option (chars text.now)
            (document_in source)) }
        ensures placed { IfOk result (λ source. AreRead option source.sections) }
        ensures fault { IfParse result (IsStopOf option (chars text.now)) }
        ensures only { IfErr result IsParseOrMemory }
    {
        let mut parser = Parser::new(alloc, text, option);
        let mut sections: Vec<SourceSection<'a>> = Vec::new(alloc);
        let first = reach_item(&mut parser)?;
        let mut section = SourceSection::general(alloc, first.gap);
        let mut next = first.item;
        'items: while let Some(element) = next {
            let PlacedElement { source, content } = element;
            let following = reach_item(&mut parser)?;
            match content {
                Content::Nothing => {}
                Content::Header(name) => {
                    push_section(&mut sections, section)?;
                    section = SourceSection::new(alloc, name, source, following.gap);
                }
                Content::Pair(pair) => {
                    let new = SourcePair::new(alloc, pair, following.gap)?;
                    section.push(new)?;
                }
            }
            next = following.item;
        }
        push_section(&mut sections, section)?;
        Ok(Source { option, sections })
    }

    /// The options that the text was read by.
    pub fn option(&self) -> ParseOption
        ensures { result ≡ self.now.option }
    {
        self.option
    }

    /// The sections in order; the first is the general one.
    pub fn sections(&self) -> &[SourceSection<'a>]
        ensures { result.now ≡ self.now.sections }
    {
        self.sections.as_slice()
    }

    /// The first section of a name. No name is the general section's.
    pub fn section(&self, name: Option<&str>) -> Option<&SourceSection<'a>>
        ensures { option_map given_pairs result ≡ first_section (str_name name.entry)
            (document_in self.now) }
    {
        match position(&self.sections, name) {
            Some(index) => Some(&self.sections[index]),
            None => None,
        }
    }

    /// The value of the first pair of a key in the first section of a name.
    pub fn get(&self, name: Option<&str>, key: &str) -> Option<&str>
        ensures { option_map str_text result
            ≡ value_in (str_name name.entry) (chars key.now) (document_in self.now) }
    {
        match self.section(name) {
            Some(section) => section.get(key),
            None => None,
        }
    }

    /// The text, every byte that was not edited as it was read.
    pub fn to_text(&self, alloc: Global) -> Result<String, Error>
        ensures text { IfOk result (λ text. string_text text ≡ text_in self.now) }
        ensures document { IfOk result (λ text. IsDocumentOf self.now.option (string_text text)
            (document_in self.now)) }
        ensures only { IsOkUnless result (Error.Memory alloc_error) }
    {
        let mut out = String::new(alloc);
        for section in &self.sections {
            section.push_to(&mut out)?;
        }
        Ok(out)
    }

    /// Writes the text to a watched writer, in UTF-8. Takes no memory, and flushes nothing.
    ///
    /// # Errors
    ///
    /// `Io` where the writer answers a fault, `NoProgress` where it takes no bytes. A front of the text
    /// was written then, and nothing more is asked of the writer.
    pub fn write_watched<W: Write>(&self, out: &mut Watched<'_, W>) -> Result<(), Error>
        requires { IsClear out.old }
        ensures { WritesBytes W.contents out.old out.new result (encode_utf8_all (text_in self.now)) }
    {
        let mut lines = Gatherer::new();
        send_sections(&mut lines, &self.sections, out)?;
        lines.flush(out)
    }

    /// Writes the text to a writer. The rest is as `write_watched` has it.
    pub fn write_to<W: Write>(&self, writer: &mut W) -> Result<(), Error>
        ensures bytes { OnOk result (IsWrittenTo W.contents writer.old writer.new (text_in self.now)) }
        ensures front { IsFrontWrittenTo W.contents writer.old writer.new (text_in self.now) }
        ensures only { IfErr result IsIoOrNoProgress }
    {
        self.write_watched(&mut Watched::new(writer))
    }
}

// Sends the texts of sections.
fn send_sections<W: Write>(
    lines: &mut Gatherer,
    sections: &[SourceSection<'_>],
    out: &mut Watched<'_, W>,
) -> Result<(), Error>
    requires { IsClear out.old }
    ensures { Sends W.contents out.old out.new lines.old lines.new result (sections_text sections.now) }
{
    for section in sections {
        section.send_to(lines, out)?;
    }
    Ok(())
}

// Puts a section last, which has all its pairs.
fn push_section<'a>(
    sections: &mut Vec<SourceSection<'a>>,
    section: SourceSection<'a>,
) -> Result<(), Error>
    ensures pushed { OnOk result (sections.new.items ≡ sections.old.items ++ section.entry ∷ []) }
    ensures kept { OnErr result (sections.new.items ≡ sections.old.items) }
    ensures only { IsOkUnless result (Error.Memory alloc_error) }
{
    let mut section = section;
    section.shrink();
    match sections.push(section) {
        Ok(()) => Ok(()),
        Err(_) => Err(Error::Memory(AllocError)),
    }
}

// Where the first section of a name stands.
fn position(sections: &[SourceSection<'_>], name: Option<&str>) -> Option<usize>
    ensures { MatchOption result (first_fitting (λ s. is_name
        (str_name name.entry) s.name) sections.now ≡ None)
        (IsFirstAt (λ s. is_name (str_name name.entry) s.name) sections.now) }
{
    for (i, section) in sections.iter().enumerate() {
        if is_same_name(name, section.name()) {
            return Some(i);
        }
    }
    None
}

// Whether two names are the same.
pub(crate) fn is_same_name(one: Option<&str>, other: Option<&str>) -> bool
    ensures { result ≡ is_name (str_name one.entry) (str_name other.entry) }
{
    match (one, other) {
        (Some(one), Some(other)) => is_same_text(one, other),
        (None, None) => true,
        _ => false,
    }
}
