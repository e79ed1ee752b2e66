//! The walks over the sections of one name, and over names. This file knows the multimap's walks over
//! values and keys.
ghost use Rattle.std.specs.Prelude.{◌≡◌};
ghost use Rattle.std.specs.Iterator.{YieldsFirstBy, YieldsLastBy, YieldsFirstMut, YieldsFirstRef};
ghost use Rattle.std.specs.Iterator.{YieldsLastMut, YieldsLastRef, item_count};
ghost use Rattle.ini_multimap.specs.Iter.{values_mut_rest};
ghost use Rattle.ini_multimap.specs.Keys.{name_fits};
ghost use Rattle.ini.specs.Texts.{str_name};
ghost use Rattle.ini.specs.Documents.{names_of};
ghost use Rattle.ini.specs.Walks.{section_all_mut_rest};

use crate::name::lent;
use crate::properties::Properties;
use ini_multimap::{Keys, Values, ValuesMut};
use std::marker::Model;

/// The sections of one name in order, lent. Seen as the list of the sections' pairs that are left.
#[derive(Drop)]
pub struct SectionAll<'a, 'n> {
    rest: Values<'a, Option<String>, Properties, Option<&'n str>>,
}

impl<'a, 'n> Model for SectionAll<'a, 'n> {
    ghost use Rattle.std.specs.Prelude.{List};
    ghost use Rattle.ini.specs.Properties.{Pairs};

    ghost Value = { List Pairs };

    ghost view = { λ it. it.rest };
}

impl<'a, 'n> SectionAll<'a, 'n> {
    pub(crate) fn new(rest: Values<'a, Option<String>, Properties, Option<&'n str>>) -> Self
        ensures { result ≡ rest.entry }
    {
        SectionAll { rest }
    }
}

impl<'a, 'n> Iterator for SectionAll<'a, 'n> {
    type Item = &'a Properties;

    ghost next_gives = { YieldsFirstRef (λ it. it) };

    ghost remaining = { item_count (λ it. it) };

    fn next(&mut self) -> Option<&'a Properties> {
        self.rest.next()
    }

    /// Nothing is counted ahead.
    fn size_hint(&self) -> (usize, Option<usize>) {
        (0, None)
    }
}

impl<'a, 'n> DoubleEndedIterator for SectionAll<'a, 'n> {
    ghost next_back_gives = { YieldsLastRef (λ it. it) };

    fn next_back(&mut self) -> Option<&'a Properties> {
        self.rest.next_back()
    }
}

/// The sections of one name in order, lent for writing. `section_all_mut_rest` is the list of the
/// sections' pairs that are left; what is written through the walk is not followed.
#[derive(Drop)]
pub struct SectionAllMut<'a, 'n> {
    rest: ValuesMut<'a, Option<String>, Properties, Option<&'n str>>,
}

impl<'a, 'n> SectionAllMut<'a, 'n> {
    pub(crate) fn new(rest: ValuesMut<'a, Option<String>, Properties, Option<&'n str>>) -> Self
        ensures { section_all_mut_rest result ≡ values_mut_rest name_fits rest.entry }
    {
        SectionAllMut { rest }
    }
}

impl<'a, 'n> Iterator for SectionAllMut<'a, 'n> {
    type Item = &'a mut Properties;

    ghost next_gives = { YieldsFirstMut section_all_mut_rest };

    ghost remaining = { item_count section_all_mut_rest };

    fn next(&mut self) -> Option<&'a mut Properties> {
        self.rest.next()
    }

    /// Nothing is counted ahead.
    fn size_hint(&self) -> (usize, Option<usize>) {
        (0, None)
    }
}

impl<'a, 'n> DoubleEndedIterator for SectionAllMut<'a, 'n> {
    ghost next_back_gives = { YieldsLastMut section_all_mut_rest };

    fn next_back(&mut self) -> Option<&'a mut Properties> {
        self.rest.next_back()
    }
}

/// Each distinct name once, in the order of first occurrence, lent. Seen as the list of the names that
/// are left.
#[derive(Drop)]
pub struct SectionNames<'a> {
    rest: Keys<'a, Option<String>, Properties>,
}

impl<'a> Model for SectionNames<'a> {
    ghost use Rattle.std.specs.Prelude.{List, Option};
    ghost use Rattle.ini.specs.Texts.{Text};
    ghost use Rattle.ini.specs.Documents.{names_of};

    ghost Value = { List (Option Text) };

    ghost view = { λ it. names_of it.rest };
}

impl<'a> SectionNames<'a> {
    pub(crate) fn new(rest: Keys<'a, Option<String>, Properties>) -> Self
        ensures { result ≡ names_of rest.entry }
    {
        SectionNames { rest }
    }
}

impl<'a> Iterator for SectionNames<'a> {
    type Item = Option<&'a str>;

    ghost next_gives = { YieldsFirstBy str_name (λ it. it) };

    ghost remaining = { item_count (λ it. it) };

    fn next(&mut self) -> Option<Option<&'a str>> {
        let name = self.rest.next()?;
        Some(lent(name))
    }

    /// Nothing is counted ahead.
    fn size_hint(&self) -> (usize, Option<usize>) {
        (0, None)
    }
}

impl<'a> DoubleEndedIterator for SectionNames<'a> {
    ghost next_back_gives = { YieldsLastBy str_name (λ it. it) };

    fn next_back(&mut self) -> Option<Option<&'a str>> {
        let name = self.rest.next_back()?;
        Some(lent(name))
    }
}
