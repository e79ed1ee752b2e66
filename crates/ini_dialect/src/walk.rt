//! The sections and the pairs of a document that is looked at, from the end that counts. This file knows the
//! walks of `ini`, of `ini_view` and of `ini_edit`, and nothing of names and keys.
ghost use Rattle.std.specs.Prelude.{◌≡◌, length};
ghost use Rattle.std.specs.Iterator.{YieldsFirstBy, YieldsLastBy, item_count};
ghost use Rattle.ini.specs.Walks.{str_pair};
ghost use Rattle.ini_dialect.specs.Inside.{turned};
ghost use Rattle.ini_dialect.specs.Walks.{any_document, any_section, pair_walk_rest};
ghost use Rattle.ini_dialect.specs.Walks.{section_walk_rest, shown_section};

use crate::rule::ValueRule;
use ini::{Ini, Properties, PropertyIter, SectionIter};
use ini_edit::{Source, SourcePair, SourceSection};
use ini_view::{View, ViewIter, ViewPairs, ViewSection};
use std::marker::Model;
use std::slice::Iter;

/// A document to look up in.
#[derive(Clone, Copy)]
pub enum AnyDocument<'v, 'a> {
    /// One that owns its texts.
    Ini(&'v Ini),
    /// One that borrows them.
    View(&'v View<'a>),
    /// The one that a text in pieces means.
    Source(&'v Source<'a>),
}

impl<'v, 'a> AnyDocument<'v, 'a> {
    // Its sections, from the front or from the back.
    pub(crate) fn sections(self, order: ValueRule) -> Sections<'v, 'a>
        ensures { result ≡ turned order (any_document self.entry) }
    {
        Sections {
            walk: self.walk(),
            order,
        }
    }

    fn walk(self) -> SectionWalk<'v, 'a>
        ensures { section_walk_rest result ≡ any_document self.entry }
    {
        match self {
            AnyDocument::Ini(document) => SectionWalk::Ini(document.iter()),
            AnyDocument::View(document) => SectionWalk::View(document.iter()),
            AnyDocument::Source(source) => SectionWalk::Source(source.sections().iter()),
        }
    }

    // How many sections it has.
    pub(crate) fn len(self) -> usize
        ensures { result ≡ length (any_document self.entry) }
    {
        match self {
            AnyDocument::Ini(document) => document.iter().size_hint().0,
            AnyDocument::View(document) => document.iter().size_hint().0,
            AnyDocument::Source(source) => source.sections().len(),
        }
    }
}

// A section of such a document.
#[derive(Clone, Copy)]
pub(crate) enum AnySection<'v, 'a> {
    Ini(&'v Properties),
    View(&'v ViewSection<'a>),
    Source(&'v SourceSection<'a>),
}

impl<'v, 'a> AnySection<'v, 'a> {
    // Its pairs, from the front or from the back.
    pub(crate) fn pairs(self, order: ValueRule) -> Pairs<'v, 'a>
        ensures { result ≡ turned order (any_section self.entry) }
    {
        Pairs {
            walk: self.walk(),
            order,
        }
    }

    fn walk(self) -> PairWalk<'v, 'a>
        ensures { pair_walk_rest result ≡ any_section self.entry }
    {
        match self {
            AnySection::Ini(section) => PairWalk::Ini(section.iter()),
            AnySection::View(section) => PairWalk::View(section.iter()),
            AnySection::Source(section) => PairWalk::Source(section.pairs().iter()),
        }
    }

    // How many pairs it has.
    pub(crate) fn len(self) -> usize
        ensures { result ≡ length (any_section self.entry) }
    {
        match self {
            AnySection::Ini(section) => section.iter().size_hint().0,
            AnySection::View(section) => section.iter().size_hint().0,
            AnySection::Source(section) => section.pairs().len(),
        }
    }
}

#[derive(Drop)]
enum SectionWalk<'v, 'a> {
    Ini(SectionIter<'v>),
    View(ViewIter<'v, 'a>),
    Source(Iter<'v, SourceSection<'a>>),
}

impl<'v, 'a> SectionWalk<'v, 'a> {
    fn first(&mut self) -> Option<(Option<&'v str>, AnySection<'v, 'a>)>
        ensures { YieldsFirstBy shown_section section_walk_rest self.old result self.new }
    {
        match self {
            SectionWalk::Ini(walk) => {
                let (name, section) = walk.next()?;
                Some((name, AnySection::Ini(section)))
            }
            SectionWalk::View(walk) => {
                let (name, section) = walk.next()?;
                Some((name, AnySection::View(section)))
            }
            SectionWalk::Source(walk) => {
                let section = walk.next()?;
                Some((section.name(), AnySection::Source(section)))
            }
        }
    }

    fn last(&mut self) -> Option<(Option<&'v str>, AnySection<'v, 'a>)>
        ensures { YieldsLastBy shown_section section_walk_rest self.old result self.new }
    {
        match self {
            SectionWalk::Ini(walk) => {
                let (name, section) = walk.next_back()?;
                Some((name, AnySection::Ini(section)))
            }
            SectionWalk::View(walk) => {
                let (name, section) = walk.next_back()?;
                Some((name, AnySection::View(section)))
            }
            SectionWalk::Source(walk) => {
                let section = walk.next_back()?;
                Some((section.name(), AnySection::Source(section)))
            }
        }
    }
}

// The sections of a document. Seen as the list of those that are left, in the order in which they come.
#[derive(Drop)]
pub(crate) struct Sections<'v, 'a> {
    walk: SectionWalk<'v, 'a>,
    order: ValueRule,
}

impl<'v, 'a> Model for Sections<'v, 'a> {
    ghost use Rattle.ini.specs.Documents.{Document};
    ghost use Rattle.ini_dialect.specs.Inside.{turned};
    ghost use Rattle.ini_dialect.specs.Walks.{section_walk_rest};

    ghost Value = { Document };

    ghost view = { λ s. turned s.order (section_walk_rest s.walk) };
}

impl<'v, 'a> Iterator for Sections<'v, 'a> {
    type Item = (Option<&'v str>, AnySection<'v, 'a>);

    ghost next_gives = { YieldsFirstBy shown_section (λ it. it) };

    ghost remaining = { item_count (λ it. it) };

    fn next(&mut self) -> Option<(Option<&'v str>, AnySection<'v, 'a>)> {
        match self.order {
            ValueRule::First => self.walk.first(),
            ValueRule::Last => self.walk.last(),
        }
    }
}

#[derive(Drop)]
enum PairWalk<'v, 'a> {
    Ini(PropertyIter<'v>),
    View(ViewPairs<'v, 'a>),
    Source(Iter<'v, SourcePair<'a>>),
}

impl<'v, 'a> PairWalk<'v, 'a> {
    fn first(&mut self) -> Option<(&'v str, &'v str)>
        ensures { YieldsFirstBy str_pair pair_walk_rest self.old result self.new }
    {
        match self {
            PairWalk::Ini(walk) => walk.next(),
            PairWalk::View(walk) => walk.next(),
            PairWalk::Source(walk) => {
                let pair = walk.next()?;
                Some((pair.key(), pair.value()))
            }
        }
    }

    fn last(&mut self) -> Option<(&'v str, &'v str)>
        ensures { YieldsLastBy str_pair pair_walk_rest self.old result self.new }
    {
        match self {
            PairWalk::Ini(walk) => walk.next_back(),
            PairWalk::View(walk) => walk.next_back(),
            PairWalk::Source(walk) => {
                let pair = walk.next_back()?;
                Some((pair.key(), pair.value()))
            }
        }
    }
}

// The pairs of a section. Seen as the list of those that are left, in the order in which they come.
#[derive(Drop)]
pub(crate) struct Pairs<'v, 'a> {
    walk: PairWalk<'v, 'a>,
    order: ValueRule,
}

impl<'v, 'a> Model for Pairs<'v, 'a> {
    ghost use Rattle.ini.specs.Properties as properties;
    ghost use Rattle.ini_dialect.specs.Inside.{turned};
    ghost use Rattle.ini_dialect.specs.Walks.{pair_walk_rest};

    ghost Value = { properties.Pairs };

    ghost view = { λ p. turned p.order (pair_walk_rest p.walk) };
}

impl<'v, 'a> Iterator for Pairs<'v, 'a> {
    type Item = (&'v str, &'v str);

    ghost next_gives = { YieldsFirstBy str_pair (λ it. it) };

    ghost remaining = { item_count (λ it. it) };

    fn next(&mut self) -> Option<(&'v str, &'v str)> {
        match self.order {
            ValueRule::First => self.walk.first(),
            ValueRule::Last => self.walk.last(),
        }
    }
}
