//! The document of a text with the place of each pair for its value. This file knows the elements of a text
//! in pieces, and no device.
ghost use Rattle.std.specs.Prelude.{◌≡◌, ◌++◌, ◌∷◌, [], IfOk, None, OnOk, chars};
ghost use Rattle.ini.specs.Documents.{with_pair};
ghost use Rattle.ini.specs.Texts.{name_of, str_name};
ghost use Rattle.ini_edit.specs.SourceElements.{shown_element};
ghost use Rattle.ini_file.specs.LayerOrigins.{HasPlaces, IsPlaced, places_in, with_element};

use crate::bytes::text_of;
use crate::origins::place_of_line;
use ini::{Error, Ini, ParseOption, Properties, SectionKey};
use ini_edit::{Source, SourceContent, SourceElement};
use std::alloc::{AllocError, Global};
use std::marker::Model;
use std::mem;

/// The document of a file's text, in which each pair has for its value what `list --origin` writes before it:
/// the file and the line.
///
/// # Errors
///
/// `NotUtf8`; `Parse` where reading the text stops; `Memory`.
pub fn places_of_file(
    alloc: Global,
    read: ParseOption,
    null: bool,
    file: &str,
    input: &[u8],
) -> Result<Ini, Error>
    ensures { IfOk result (IsPlaced read null file.now input.now) }
{
    let (_, text) = text_of(input)?;
    places_of_text(alloc, read, null, file, text)
}

// The same of a text.
fn places_of_text(
    alloc: Global,
    read: ParseOption,
    null: bool,
    file: &str,
    text: &str,
) -> Result<Ini, Error>
    ensures { IfOk result (HasPlaces read null file.now (chars text.now)) }
{
    let source = Source::read(alloc, text, read)?;
    let places = places_of(alloc, null, file, &source)?;
    Ok(places)
}

// The same of a text in pieces.
fn places_of(alloc: Global, null: bool, file: &str, source: &Source<'_>) -> Result<Ini, Error>
    ensures { IfOk result (λ places. places ≡ places_in null file.now source.now) }
{
    let mut placing = Placing::new(alloc)?;
    for element in source.elements() {
        placing.take(null, file, element)?;
    }
    placing.finish()
}

// A document that has the places of some elements: of its last section the name and the pairs stand by
// themselves.
#[derive(Drop)]
struct Placing {
    alloc: Global,
    sections: Ini,
    name: SectionKey,
    pairs: Properties,
}

impl Model for Placing {
    ghost use Rattle.std.specs.Prelude.{[], ◌∷◌, ◌++◌};
    ghost use Rattle.ini.specs.Documents.{Document};
    ghost use Rattle.ini.specs.Texts.{name_of};

    ghost Value = { Document };

    ghost view = { λ p. p.sections ++ (name_of p.name, p.pairs) ∷ [] };
}

impl Placing {
    // A general section without pairs.
    fn new(alloc: Global) -> Result<Placing, Error>
        ensures { IfOk result (λ placing. placing ≡ (None, []) ∷ []) }
    {
        let mut sections = Ini::new(alloc)?;
        sections.clear();
        Ok(Placing {
            alloc,
            sections,
            name: None,
            pairs: Properties::new(alloc),
        })
    }

    // Takes one element more.
    fn take(&mut self, null: bool, file: &str, element: SourceElement<'_, '_>) -> Result<(), Error>
        ensures { OnOk result
            (self.new ≡ with_element null file.now self.old (shown_element element.entry)) }
    {
        match element.content {
            SourceContent::Header(_) => self.begin(element.section),
            SourceContent::Pair(pair) => {
                let place = place_of_line(self.alloc, file, null, element.position.line)?;
                self.push(pair.key(), place.as_str())
            }
            SourceContent::Between(_) => Ok(()),
        }
    }

    // Puts a pair last in the last section.
    fn push(&mut self, key: &str, place: &str) -> Result<(), Error>
        ensures { OnOk result (self.new ≡ with_pair (chars key.now) (chars place.now) self.old) }
    {
        self.pairs.append(key, place)
    }

    // Begins a section after the last.
    fn begin(&mut self, name: Option<&str>) -> Result<(), Error>
        ensures { OnOk result (self.new ≡ self.old ++ (str_name name.entry, []) ∷ []) }
    {
        let name = owned_name(self.alloc, name)?;
        let pairs = mem::replace(&mut self.pairs, Properties::new(self.alloc));
        let last = mem::replace(&mut self.name, name);
        match self.sections.append_section(last, pairs) {
            Ok(()) => Ok(()),
            Err(_) => Err(Error::Memory(AllocError)),
        }
    }

    // The document, which has all its elements.
    fn finish(self) -> Result<Ini, Error>
        ensures { IfOk result (λ document. document ≡ self) }
    {
        let Placing {
            alloc: _,
            mut sections,
            name,
            pairs,
        } = self;
        match sections.append_section(name, pairs) {
            Ok(()) => Ok(sections),
            Err(_) => Err(Error::Memory(AllocError)),
        }
    }
}

// The name, copied.
fn owned_name(alloc: Global, name: Option<&str>) -> Result<SectionKey, AllocError>
    ensures { IfOk result (λ copy. name_of copy ≡ str_name name.entry) }
{
    match name {
        Some(text) => Ok(Some(String::from_str(alloc, text)?)),
        None => Ok(None),
    }
}
