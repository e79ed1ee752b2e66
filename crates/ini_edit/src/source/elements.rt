//! The elements of a text in pieces, in order: each with its section and where it begins. This file knows
//! sections and pairs by their calls, and of characters the line feed.
ghost use Rattle.std.specs.Prelude.{◌≡◌, ◌++◌, [], chars, map};
ghost use Rattle.ini.specs.Texts.{str_text};
ghost use Rattle.std.specs.Iterator.{YieldsFirstBy, item_count};
ghost use Rattle.ini_text.specs.Grammar.Places.{pair_source, separator_text};
ghost use Rattle.ini_edit.specs.Inside.SourceElementWalks.{GoesOn, GoesOverPair, elements_left, passed};
ghost use Rattle.ini_edit.specs.Inside.SourceElementWalks.{passed_character};
ghost use Rattle.ini_edit.specs.SourceElements.{content_text, elements_in, position_of, shown_content};
ghost use Rattle.ini_edit.specs.SourceElements.{shown_element, up_to_value};
ghost use Rattle.ini_edit.specs.SourceLines.{is_empty};

use crate::source::Source;
use crate::source::lines::is_empty;
use crate::source::pair::SourcePair;
use crate::source::section::SourceSection;
use ini_text::split_first;
use std::marker::Model;
use std::slice::Iter;

/// A place in a text: its line and its column, both from 1, in characters. A byte order mark counts as one,
/// and a number that doesn't fit is `usize::MAX`.
#[derive(Clone, Copy, Debug, PartialEq, Eq)]
pub struct Position {
    pub line: usize,
    pub column: usize,
}

impl Position {
    pub(crate) fn first() -> Self
        ensures { result ≡ position_of [] }
    {
        Position { line: 1, column: 1 }
    }

    // The position after one character more.
    fn next(self, c: char) -> Self
        ensures { result ≡ passed_character self c }
    {
        if c == '\n' {
            return Position {
                line: self.line.saturating_add(1),
                column: 1,
            };
        }
        Position {
            line: self.line,
            column: self.column.saturating_add(1),
        }
    }

    // The position after a text.
    pub(crate) fn after(self, text: &str) -> Self
        ensures { result ≡ passed self (chars text.now) }
    {
        let mut position = self;
        let mut rest = text;
        'characters: while let Some((c, following)) = split_first(rest) {
            position = position.next(c);
            rest = following;
        }
        position
    }
}

/// What an element of a text in pieces is.
#[derive(Clone, Copy, Debug)]
pub enum SourceContent<'s, 'a> {
    /// The source of a section's header.
    Header(&'s str),
    /// A pair.
    Pair(&'s SourcePair<'a>),
    /// White space and comments up to the next header or pair, or to the text's end.
    Between(&'s str),
}

impl<'s, 'a> SourceContent<'s, 'a> {
    fn is_empty(self) -> bool
        ensures { result ≡ is_empty (content_text (shown_content self.entry)) }
    {
        match self {
            SourceContent::Header(source) => is_empty(source),
            SourceContent::Pair(pair) => pair.is_empty(),
            SourceContent::Between(source) => is_empty(source),
        }
    }

    // Where the content ends that begins at the position.
    fn end(self, position: Position) -> Position
        ensures { result ≡ passed position (content_text (shown_content self.entry)) }
    {
        match self {
            SourceContent::Header(source) => position.after(source),
            SourceContent::Pair(pair) => end_of_pair(pair, position),
            SourceContent::Between(source) => position.after(source),
        }
    }
}

// Where the value of a pair begins that begins at the position.
pub(crate) fn value_of_pair(pair: &SourcePair<'_>, position: Position) -> Position
    ensures { result ≡ passed position (up_to_value pair.now.stretches) }
{
    end_of_key(pair, position).after(pair.space_before())
}

// Where the key and the separator of a pair end, or a key alone, which begins at the position.
fn end_of_key(pair: &SourcePair<'_>, position: Position) -> Position
    ensures { result ≡ passed position
        (pair.now.stretches.key ++ separator_text pair.now.stretches.separator) }
{
    let end = position.after(pair.raw_key());
    match pair.separator() {
        Some(separator) => end.next(separator),
        None => end,
    }
}

// Where a pair ends that begins at the position.
pub(crate) fn end_of_pair(pair: &SourcePair<'_>, position: Position) -> Position
    ensures { result ≡ passed position (pair_source pair.now.stretches) }
{
    end_of_key(pair, position)
        .after(pair.space_before())
        .after(pair.raw_value())
        .after(pair.space_after())
        .after(pair.note())
        .after(pair.trailing_lines())
}

/// An element of a text in pieces.
#[derive(Clone, Copy, Debug)]
pub struct SourceElement<'s, 'a> {
    /// The name of its section, also of that which it opens; none is the general section's.
    pub section: Option<&'s str>,
    pub content: SourceContent<'s, 'a>,
    /// Where it begins.
    pub position: Position,
}

// The elements that are left, each at its place, also those without any character.
#[derive(Drop)]
struct ElementWalk<'s, 'a> {
    section: Option<&'s str>,
    between: Option<&'s str>,
    pairs: Option<Iter<'s, SourcePair<'a>>>,
    sections: Iter<'s, SourceSection<'a>>,
    position: Position,
}

impl<'s, 'a> ElementWalk<'s, 'a> {
    fn step(&mut self) -> Option<SourceElement<'s, 'a>>
        ensures { YieldsFirstBy shown_element elements_left self.old result self.new }
    {
        let position = self.position;
        let content = self.next_content()?;
        self.position = content.end(position);
        Some(SourceElement {
            section: self.section,
            content,
            position,
        })
    }

    // The next content. The position stays.
    fn next_content(&mut self) -> Option<SourceContent<'s, 'a>>
        ensures { GoesOn self.old result self.new }
    {
        if let Some(between) = self.between.take() {
            return Some(SourceContent::Between(between));
        }
        if let Some(pair) = self.next_pair() {
            self.between = Some(pair.after());
            return Some(SourceContent::Pair(pair));
        }
        let Some(section) = self.sections.next() else {
            return None;
        };
        self.section = section.name();
        self.between = Some(section.after());
        self.pairs = Some(section.pairs().iter());
        Some(SourceContent::Header(section.header()))
    }

    // The next pair of the section.
    fn next_pair(&mut self) -> Option<&'s SourcePair<'a>>
        ensures { GoesOverPair self.old result self.new }
    {
        match &mut self.pairs {
            Some(pairs) => pairs.next(),
            None => None,
        }
    }
}

/// Every element of a text in pieces in order, each of at least one character. Seen as the list of those
/// that are left.
#[derive(Drop)]
pub struct SourceElements<'s, 'a> {
    walk: ElementWalk<'s, 'a>,
}

impl<'s, 'a> Model for SourceElements<'s, 'a> {
    ghost use Rattle.std.specs.Prelude.{List, filter};
    ghost use Rattle.ini_edit.specs.Inside.SourceElementWalks.{elements_left};
    ghost use Rattle.ini_edit.specs.SourceElements.{ElementPiece, has_characters};

    ghost Value = { List ElementPiece };

    ghost view = { λ it. filter has_characters (elements_left it.walk) };
}

impl<'s, 'a> Iterator for SourceElements<'s, 'a> {
    type Item = SourceElement<'s, 'a>;

    ghost next_gives = { YieldsFirstBy shown_element (λ it. it) };

    ghost remaining = { item_count (λ it. it) };

    fn next(&mut self) -> Option<SourceElement<'s, 'a>> {
        'elements: while let Some(element) = self.walk.step() {
            if !element.content.is_empty() {
                return Some(element);
            }
        }
        None
    }

    /// Nothing is counted ahead.
    fn size_hint(&self) -> (usize, Option<usize>) {
        (0, None)
    }
}

impl<'a> Source<'a> {
    /// Every element in order: headers, pairs, and what stands between these, each with its place.
    pub fn elements(&self) -> SourceElements<'_, 'a>
        ensures { result ≡ elements_in self.now }
    {
        SourceElements {
            walk: ElementWalk {
                section: None,
                between: None,
                pairs: None,
                sections: self.sections().iter(),
                position: Position::first(),
            },
        }
    }
}

/// The keys of a section's pairs in order, also those that repeat. Seen as the list of those that are left.
#[derive(Drop)]
pub struct SourceKeys<'s, 'a> {
    pairs: Iter<'s, SourcePair<'a>>,
}

impl<'s, 'a> Model for SourceKeys<'s, 'a> {
    ghost use Rattle.std.specs.Prelude.{List, map};
    ghost use Rattle.std.specs.Slice.Iter.{iter_rest};
    ghost use Rattle.ini.specs.Texts.{Text};

    ghost Value = { List Text };

    ghost view = { λ it. map (λ p. p.key) (iter_rest it.pairs) };
}

impl<'s, 'a> Iterator for SourceKeys<'s, 'a> {
    type Item = &'s str;

    ghost next_gives = { YieldsFirstBy str_text (λ it. it) };

    ghost remaining = { item_count (λ it. it) };

    fn next(&mut self) -> Option<&'s str> {
        let pair = self.pairs.next()?;
        Some(pair.key())
    }

    /// Nothing is counted ahead.
    fn size_hint(&self) -> (usize, Option<usize>) {
        (0, None)
    }
}

impl<'a> SourceSection<'a> {
    /// The keys of its pairs in order.
    pub fn keys(&self) -> SourceKeys<'_, 'a>
        ensures { result ≡ map (λ p. p.key) self.now.pairs }
    {
        SourceKeys {
            pairs: self.pairs().iter(),
        }
    }
}
