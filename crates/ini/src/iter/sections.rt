//! The walks over sections. This file knows the multimap's walks over pairs.
ghost use Rattle.std.specs.Prelude.{◌≡◌, length, IfSome, Some};
ghost use Rattle.std.specs.Iterator.{YieldsFirstBy, YieldsLastBy, item_count, at_most, UpTo};
ghost use Rattle.std.specs.Iterator.SizeHint.{IsWithinCount};
ghost use Rattle.ini_multimap.specs.Iter.{iter_mut_rest};
ghost use Rattle.ini.specs.Texts.{str_name};
ghost use Rattle.ini.specs.Documents.{sections_of};
ghost use Rattle.ini.specs.Walks.{str_section, str_section_mut, string_section, section_iter_mut_rest};

use crate::name::lent;
use crate::properties::Properties;
use ini_multimap::{IntoIter, Iter, IterMut};
use std::marker::Model;

/// Every section in order, lent. Seen as the list of the sections that are left.
#[derive(Drop)]
pub struct SectionIter<'a> {
    rest: Iter<'a, Option<String>, Properties>,
}

impl<'a> Model for SectionIter<'a> {
    ghost use Rattle.std.specs.Prelude.{Option};
    ghost use Rattle.ini.specs.Documents.{Document, sections_of};

    ghost Value = { Document };

    ghost view = { λ it. sections_of it.rest };
}

impl<'a> SectionIter<'a> {
    pub(crate) fn new(rest: Iter<'a, Option<String>, Properties>) -> Self
        ensures { result ≡ sections_of rest.entry }
    {
        SectionIter { rest }
    }
}

impl<'a> Iterator for SectionIter<'a> {
    type Item = (Option<&'a str>, &'a Properties);

    ghost next_gives = { YieldsFirstBy str_section (λ it. it) };

    ghost remaining = { item_count (λ it. it) };

    fn next(&mut self) -> Option<(Option<&'a str>, &'a Properties)> {
        let (name, section) = self.rest.next()?;
        Some((lent(name), section))
    }

    /// The number of sections left, twice.
    fn size_hint(&self) -> (usize, Option<usize>)
        ensures lower { IsWithinCount result.0 (at_most (length self.now)) }
        ensures upper { IfSome result.1 (UpTo (at_most (length self.now))) }
        ensures exact { result ≡ (length self.now, Some (length self.now)) }
    {
        self.rest.size_hint()
    }
}

impl<'a> DoubleEndedIterator for SectionIter<'a> {
    ghost next_back_gives = { YieldsLastBy str_section (λ it. it) };

    fn next_back(&mut self) -> Option<(Option<&'a str>, &'a Properties)> {
        let (name, section) = self.rest.next_back()?;
        Some((lent(name), section))
    }
}

/// Every section in order, its properties lent for writing. `section_iter_mut_rest` is the list of the
/// sections that are left; what is written through the walk is not followed.
#[derive(Drop)]
pub struct SectionIterMut<'a> {
    rest: IterMut<'a, Option<String>, Properties>,
}

impl<'a> SectionIterMut<'a> {
    pub(crate) fn new(rest: IterMut<'a, Option<String>, Properties>) -> Self
        ensures { section_iter_mut_rest result ≡ sections_of (iter_mut_rest rest.entry) }
    {
        SectionIterMut { rest }
    }
}

impl<'a> Iterator for SectionIterMut<'a> {
    type Item = (Option<&'a str>, &'a mut Properties);

    ghost next_gives = { YieldsFirstBy str_section_mut section_iter_mut_rest };

    ghost remaining = { item_count section_iter_mut_rest };

    fn next(&mut self) -> Option<(Option<&'a str>, &'a mut Properties)> {
        let (name, section) = self.rest.next()?;
        Some((lent(name), section))
    }

    /// The number of sections left, twice.
    fn size_hint(&self) -> (usize, Option<usize>)
        ensures lower { IsWithinCount result.0 (at_most (length (section_iter_mut_rest self.now))) }
        ensures upper { IfSome result.1 (UpTo (at_most (length (section_iter_mut_rest self.now)))) }
        ensures exact { let left = length (section_iter_mut_rest self.now) in result ≡ (left, Some left) }
    {
        self.rest.size_hint()
    }
}

impl<'a> DoubleEndedIterator for SectionIterMut<'a> {
    ghost next_back_gives = { YieldsLastBy str_section_mut section_iter_mut_rest };

    fn next_back(&mut self) -> Option<(Option<&'a str>, &'a mut Properties)> {
        let (name, section) = self.rest.next_back()?;
        Some((lent(name), section))
    }
}

/// Every section in order, by value. Seen as the list of the sections that are left.
#[derive(Drop)]
pub struct SectionIntoIter {
    rest: IntoIter<Option<String>, Properties>,
}

impl Model for SectionIntoIter {
    ghost use Rattle.std.specs.Prelude.{Option};
    ghost use Rattle.ini.specs.Documents.{Document, sections_of};

    ghost Value = { Document };

    ghost view = { λ it. sections_of it.rest };
}

impl SectionIntoIter {
    pub(crate) fn new(rest: IntoIter<Option<String>, Properties>) -> Self
        ensures { result ≡ sections_of rest }
    {
        SectionIntoIter { rest }
    }
}

impl Iterator for SectionIntoIter {
    type Item = (Option<String>, Properties);

    ghost next_gives = { YieldsFirstBy string_section (λ it. it) };

    ghost remaining = { item_count (λ it. it) };

    fn next(&mut self) -> Option<(Option<String>, Properties)> {
        self.rest.next()
    }

    /// The number of sections left, twice.
    fn size_hint(&self) -> (usize, Option<usize>)
        ensures lower { IsWithinCount result.0 (at_most (length self.now)) }
        ensures upper { IfSome result.1 (UpTo (at_most (length self.now))) }
        ensures exact { result ≡ (length self.now, Some (length self.now)) }
    {
        self.rest.size_hint()
    }
}

impl DoubleEndedIterator for SectionIntoIter {
    ghost next_back_gives = { YieldsLastBy string_section (λ it. it) };

    fn next_back(&mut self) -> Option<(Option<String>, Properties)> {
        self.rest.next_back()
    }
}
