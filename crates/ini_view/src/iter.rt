//! The walks, which go from both ends: front items and back items together are the list, each item once.
//! They know the multimap's walks.
ghost use Rattle.std.specs.Prelude.{◌≡◌, length, IfSome, Some};
ghost use Rattle.std.specs.Iterator.{YieldsFirstBy, YieldsLastBy, item_count, at_most, UpTo};
ghost use Rattle.std.specs.Iterator.SizeHint.{IsWithinCount};
ghost use Rattle.ini.specs.Texts.{str_name, str_text};
ghost use Rattle.ini.specs.Walks.{str_pair, str_section};

use crate::section::ViewSection;
use crate::text::{ViewName, ViewText};
use ini_multimap::{Iter, Keys, Values};
use std::marker::Model;

/// Every pair of a section in order, lent. Seen as the list of the pairs that are left.
#[derive(Drop)]
pub struct ViewPairs<'v, 'a> {
    rest: Iter<'v, ViewText<'a>, ViewText<'a>>,
}

impl<'v, 'a> Model for ViewPairs<'v, 'a> {
    ghost use Rattle.ini.specs.Properties.{Pairs};

    ghost Value = { Pairs };

    ghost view = { λ it. it.rest };
}

impl<'v, 'a> ViewPairs<'v, 'a> {
    pub(crate) fn new(rest: Iter<'v, ViewText<'a>, ViewText<'a>>) -> Self
        ensures { result ≡ rest.entry }
    {
        ViewPairs { rest }
    }
}

impl<'v, 'a> Iterator for ViewPairs<'v, 'a> {
    type Item = (&'v str, &'v str);

    ghost next_gives = { YieldsFirstBy str_pair (λ it. it) };

    ghost remaining = { item_count (λ it. it) };

    fn next(&mut self) -> Option<(&'v str, &'v str)> {
        let (key, value) = self.rest.next()?;
        Some((key.as_str(), value.as_str()))
    }

    /// The number of pairs left, twice.
    fn size_hint(&self) -> (usize, Option<usize>)
        ensures lower { IsWithinCount result.0 (at_most (length self.now)) }
        ensures upper { IfSome result.1 (UpTo (at_most (length self.now))) }
        ensures exact { result ≡ (length self.now, Some (length self.now)) }
    {
        self.rest.size_hint()
    }
}

impl<'v, 'a> DoubleEndedIterator for ViewPairs<'v, 'a> {
    ghost next_back_gives = { YieldsLastBy str_pair (λ it. it) };

    fn next_back(&mut self) -> Option<(&'v str, &'v str)> {
        let (key, value) = self.rest.next_back()?;
        Some((key.as_str(), value.as_str()))
    }
}

/// The values of one key in order, lent. Seen as the list of the values that are left.
#[derive(Drop)]
pub struct ViewValues<'v, 'a, 'k> {
    rest: Values<'v, ViewText<'a>, ViewText<'a>, &'k str>,
}

impl<'v, 'a, 'k> Model for ViewValues<'v, 'a, 'k> {
    ghost use Rattle.std.specs.Prelude.{List};
    ghost use Rattle.ini.specs.Texts.{Text};

    ghost Value = { List Text };

    ghost view = { λ it. it.rest };
}

impl<'v, 'a, 'k> ViewValues<'v, 'a, 'k> {
    pub(crate) fn new(rest: Values<'v, ViewText<'a>, ViewText<'a>, &'k str>) -> Self
        ensures { result ≡ rest.entry }
    {
        ViewValues { rest }
    }
}

impl<'v, 'a, 'k> Iterator for ViewValues<'v, 'a, 'k> {
    type Item = &'v str;

    ghost next_gives = { YieldsFirstBy str_text (λ it. it) };

    ghost remaining = { item_count (λ it. it) };

    fn next(&mut self) -> Option<&'v str> {
        let value = self.rest.next()?;
        Some(value.as_str())
    }

    /// Nothing is counted ahead.
    fn size_hint(&self) -> (usize, Option<usize>) {
        (0, None)
    }
}

impl<'v, 'a, 'k> DoubleEndedIterator for ViewValues<'v, 'a, 'k> {
    ghost next_back_gives = { YieldsLastBy str_text (λ it. it) };

    fn next_back(&mut self) -> Option<&'v str> {
        let value = self.rest.next_back()?;
        Some(value.as_str())
    }
}

/// Each distinct name once, in the order of first occurrence, lent. Seen as the list of the names that
/// are left.
#[derive(Drop)]
pub struct ViewNames<'v, 'a> {
    rest: Keys<'v, ViewName<'a>, ViewSection<'a>>,
}

impl<'v, 'a> Model for ViewNames<'v, 'a> {
    ghost use Rattle.std.specs.Prelude.{List, Option};
    ghost use Rattle.ini.specs.Texts.{Text};

    ghost Value = { List (Option Text) };

    ghost view = { λ it. it.rest };
}

impl<'v, 'a> ViewNames<'v, 'a> {
    pub(crate) fn new(rest: Keys<'v, ViewName<'a>, ViewSection<'a>>) -> Self
        ensures { result ≡ rest.entry }
    {
        ViewNames { rest }
    }
}

impl<'v, 'a> Iterator for ViewNames<'v, 'a> {
    type Item = Option<&'v str>;

    ghost next_gives = { YieldsFirstBy str_name (λ it. it) };

    ghost remaining = { item_count (λ it. it) };

    fn next(&mut self) -> Option<Option<&'v str>> {
        let name = self.rest.next()?;
        Some(name.lent())
    }

    /// Nothing is counted ahead.
    fn size_hint(&self) -> (usize, Option<usize>) {
        (0, None)
    }
}

impl<'v, 'a> DoubleEndedIterator for ViewNames<'v, 'a> {
    ghost next_back_gives = { YieldsLastBy str_name (λ it. it) };

    fn next_back(&mut self) -> Option<Option<&'v str>> {
        let name = self.rest.next_back()?;
        Some(name.lent())
    }
}

/// Every section in order, lent. Seen as the list of the sections that are left.
#[derive(Drop)]
pub struct ViewIter<'v, 'a> {
    rest: Iter<'v, ViewName<'a>, ViewSection<'a>>,
}

impl<'v, 'a> Model for ViewIter<'v, 'a> {
    ghost use Rattle.ini.specs.Documents.{Document};

    ghost Value = { Document };

    ghost view = { λ it. it.rest };
}

impl<'v, 'a> ViewIter<'v, 'a> {
    pub(crate) fn new(rest: Iter<'v, ViewName<'a>, ViewSection<'a>>) -> Self
        ensures { result ≡ rest.entry }
    {
        ViewIter { rest }
    }
}

impl<'v, 'a> Iterator for ViewIter<'v, 'a> {
    type Item = (Option<&'v str>, &'v ViewSection<'a>);

    ghost next_gives = { YieldsFirstBy str_section (λ it. it) };

    ghost remaining = { item_count (λ it. it) };

    fn next(&mut self) -> Option<(Option<&'v str>, &'v ViewSection<'a>)> {
        let (name, section) = self.rest.next()?;
        Some((name.lent(), section))
    }

    /// The number of sections left, twice.
    fn size_hint(&self) -> (usize, Option<usize>)
        ensures lower { IsWithinCount result.0 (at_most (length self.now)) }
        ensures upper { IfSome result.1 (UpTo (at_most (length self.now))) }
        ensures exact { result ≡ (length self.now, Some (length self.now)) }
    {
        self.rest.size_hint()
    }
}

impl<'v, 'a> DoubleEndedIterator for ViewIter<'v, 'a> {
    ghost next_back_gives = { YieldsLastBy str_section (λ it. it) };

    fn next_back(&mut self) -> Option<(Option<&'v str>, &'v ViewSection<'a>)> {
        let (name, section) = self.rest.next_back()?;
        Some((name.lent(), section))
    }
}
