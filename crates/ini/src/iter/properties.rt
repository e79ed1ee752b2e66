//! The walks over pairs, and over the values of one key. This file knows the multimap's walks, and
//! nothing of sections.
ghost use Rattle.std.specs.Prelude.{◌≡◌, length, IfSome, Some};
ghost use Rattle.std.specs.Iterator.{YieldsFirstBy, YieldsLastBy, item_count, at_most, UpTo};
ghost use Rattle.std.specs.Iterator.SizeHint.{IsWithinCount};
ghost use Rattle.ini_multimap.specs.Iter.{iter_mut_rest};
ghost use Rattle.ini.specs.Texts.{str_text, text_of};
ghost use Rattle.ini.specs.Properties.{pairs_of, texts_of};
ghost use Rattle.ini.specs.Walks.{str_pair, str_pair_mut, string_pair, property_iter_mut_rest};

use ini_multimap::{IntoIter, Iter, IterMut, Removed, Values};
use std::marker::Model;

/// Every pair in order, lent. Seen as the list of the pairs that are left.
#[derive(Drop)]
pub struct PropertyIter<'a> {
    rest: Iter<'a, String, String>,
}

impl<'a> Model for PropertyIter<'a> {
    ghost use Rattle.std.specs.Prelude.{List};
    ghost use Rattle.ini.specs.Properties.{Pairs, pairs_of};

    ghost Value = { Pairs };

    ghost view = { λ it. pairs_of it.rest };
}

impl<'a> PropertyIter<'a> {
    pub(crate) fn new(rest: Iter<'a, String, String>) -> Self
        ensures { result ≡ pairs_of rest.entry }
    {
        PropertyIter { rest }
    }
}

impl<'a> Iterator for PropertyIter<'a> {
    type Item = (&'a str, &'a str);

    ghost next_gives = { YieldsFirstBy str_pair (λ it. it) };

    ghost remaining = { item_count (λ it. it) };

    fn next(&mut self) -> Option<(&'a str, &'a str)> {
        let (key, value) = self.rest.next()?;
        Some((key.as_str(), value.as_str()))
    }

    /// The number of pairs left, twice.
    fn size_hint(&self) -> (usize, Option<usize>)
        ensures lower { IsWithinCount result.0 (at_most (length self.now)) }
        ensures upper { IfSome result.1 (UpTo (at_most (length self.now))) }
        ensures exact { result ≡ (length self.now, Some (length self.now)) }
    {
        self.rest.size_hint()
    }
}

impl<'a> DoubleEndedIterator for PropertyIter<'a> {
    ghost next_back_gives = { YieldsLastBy str_pair (λ it. it) };

    fn next_back(&mut self) -> Option<(&'a str, &'a str)> {
        let (key, value) = self.rest.next_back()?;
        Some((key.as_str(), value.as_str()))
    }
}

/// Every pair in order, its value lent for writing. `property_iter_mut_rest` is the list of the pairs
/// that are left; what is written through the walk is not followed.
#[derive(Drop)]
pub struct PropertyIterMut<'a> {
    rest: IterMut<'a, String, String>,
}

impl<'a> PropertyIterMut<'a> {
    pub(crate) fn new(rest: IterMut<'a, String, String>) -> Self
        ensures { property_iter_mut_rest result ≡ pairs_of (iter_mut_rest rest.entry) }
    {
        PropertyIterMut { rest }
    }
}

impl<'a> Iterator for PropertyIterMut<'a> {
    type Item = (&'a str, &'a mut String);

    ghost next_gives = { YieldsFirstBy str_pair_mut property_iter_mut_rest };

    ghost remaining = { item_count property_iter_mut_rest };

    fn next(&mut self) -> Option<(&'a str, &'a mut String)> {
        let (key, value) = self.rest.next()?;
        Some((key.as_str(), value))
    }

    /// The number of pairs left, twice.
    fn size_hint(&self) -> (usize, Option<usize>)
        ensures lower { IsWithinCount result.0 (at_most (length (property_iter_mut_rest self.now))) }
        ensures upper { IfSome result.1 (UpTo (at_most (length (property_iter_mut_rest self.now)))) }
        ensures exact { let left = length (property_iter_mut_rest self.now) in result ≡ (left, Some left) }
    {
        self.rest.size_hint()
    }
}

impl<'a> DoubleEndedIterator for PropertyIterMut<'a> {
    ghost next_back_gives = { YieldsLastBy str_pair_mut property_iter_mut_rest };

    fn next_back(&mut self) -> Option<(&'a str, &'a mut String)> {
        let (key, value) = self.rest.next_back()?;
        Some((key.as_str(), value))
    }
}

/// Every pair in order, by value. Seen as the list of the pairs that are left.
#[derive(Drop)]
pub struct PropertiesIntoIter {
    rest: IntoIter<String, String>,
}

impl Model for PropertiesIntoIter {
    ghost use Rattle.std.specs.Prelude.{List};
    ghost use Rattle.ini.specs.Properties.{Pairs, pairs_of};

    ghost Value = { Pairs };

    ghost view = { λ it. pairs_of it.rest };
}

impl PropertiesIntoIter {
    pub(crate) fn new(rest: IntoIter<String, String>) -> Self
        ensures { result ≡ pairs_of rest }
    {
        PropertiesIntoIter { rest }
    }
}

impl Iterator for PropertiesIntoIter {
    type Item = (String, String);

    ghost next_gives = { YieldsFirstBy string_pair (λ it. it) };

    ghost remaining = { item_count (λ it. it) };

    fn next(&mut self) -> Option<(String, String)> {
        self.rest.next()
    }

    /// The number of pairs left, twice.
    fn size_hint(&self) -> (usize, Option<usize>)
        ensures lower { IsWithinCount result.0 (at_most (length self.now)) }
        ensures upper { IfSome result.1 (UpTo (at_most (length self.now))) }
        ensures exact { result ≡ (length self.now, Some (length self.now)) }
    {
        self.rest.size_hint()
    }
}

impl DoubleEndedIterator for PropertiesIntoIter {
    ghost next_back_gives = { YieldsLastBy string_pair (λ it. it) };

    fn next_back(&mut self) -> Option<(String, String)> {
        self.rest.next_back()
    }
}

/// The values of one key in order, lent. Seen as the list of the values that are left.
#[derive(Drop)]
pub struct PropertyValues<'a, 'k> {
    rest: Values<'a, String, String, &'k str>,
}

impl<'a, 'k> Model for PropertyValues<'a, 'k> {
    ghost use Rattle.std.specs.Prelude.{List};
    ghost use Rattle.ini.specs.Texts.{Text};
    ghost use Rattle.ini.specs.Properties.{texts_of};

    ghost Value = { List Text };

    ghost view = { λ it. texts_of it.rest };
}

impl<'a, 'k> PropertyValues<'a, 'k> {
    pub(crate) fn new(rest: Values<'a, String, String, &'k str>) -> Self
        ensures { result ≡ texts_of rest.entry }
    {
        PropertyValues { rest }
    }
}

impl<'a, 'k> Iterator for PropertyValues<'a, 'k> {
    type Item = &'a str;

    ghost next_gives = { YieldsFirstBy str_text (λ it. it) };

    ghost remaining = { item_count (λ it. it) };

    fn next(&mut self) -> Option<&'a str> {
        let value = self.rest.next()?;
        Some(value.as_str())
    }

    /// Nothing is counted ahead.
    fn size_hint(&self) -> (usize, Option<usize>) {
        (0, None)
    }
}

impl<'a, 'k> DoubleEndedIterator for PropertyValues<'a, 'k> {
    ghost next_back_gives = { YieldsLastBy str_text (λ it. it) };

    fn next_back(&mut self) -> Option<&'a str> {
        let value = self.rest.next_back()?;
        Some(value.as_str())
    }
}

/// The values that `remove_all` took, in order. Seen as the list of the values that are left.
#[derive(Drop)]
pub struct RemovedValues {
    rest: Removed<String>,
}

impl Model for RemovedValues {
    ghost use Rattle.std.specs.Prelude.{List};
    ghost use Rattle.ini.specs.Texts.{Text};
    ghost use Rattle.ini.specs.Properties.{texts_of};

    ghost Value = { List Text };

    ghost view = { λ it. texts_of it.rest };
}

impl RemovedValues {
    pub(crate) fn new(rest: Removed<String>) -> Self
        ensures { result ≡ texts_of rest }
    {
        RemovedValues { rest }
    }
}

impl Iterator for RemovedValues {
    type Item = String;

    ghost next_gives = { YieldsFirstBy text_of (λ it. it) };

    ghost remaining = { item_count (λ it. it) };

    fn next(&mut self) -> Option<String> {
        self.rest.next()
    }

    /// Nothing is counted ahead.
    fn size_hint(&self) -> (usize, Option<usize>) {
        (0, None)
    }
}

impl DoubleEndedIterator for RemovedValues {
    ghost next_back_gives = { YieldsLastBy text_of (λ it. it) };

    fn next_back(&mut self) -> Option<String> {
        self.rest.next_back()
    }
}
