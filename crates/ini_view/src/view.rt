//! Documents that borrow: sections in order. This file knows the multimap's calls, and those of a section.
ghost use Rattle.std.specs.Prelude.{◌≡◌, ◌==◌, ◌<◌, ◌^◌, length, chars, unwrap_or};
ghost use Rattle.std.specs.Option.{option_copied, option_map};
ghost use Rattle.ini.specs.Texts.{str_name, str_text};
ghost use Rattle.ini.specs.Documents.{first_section, names, value_in};

use crate::iter::{ViewIter, ViewNames};
use crate::section::ViewSection;
use crate::text::ViewName;
use ini_multimap::Multimap;
use std::marker::Model;

/// A document that is only read: sections in order, of which several may have one name. Names, keys and
/// values are borrowed from the text, but for those that don't stand there as they are read.
#[derive(Debug, Drop)]
pub struct View<'a> {
    sections: Multimap<ViewName<'a>, ViewSection<'a>>,
}

impl<'a> Model for View<'a> {
    ghost use Rattle.ini.specs.Documents.{Document};

    ghost Value = { Document };

    ghost view = { λ d. d.sections };
}

impl<'a> View<'a> {
    // The document of sections.
    pub(crate) fn of_sections(sections: Multimap<ViewName<'a>, ViewSection<'a>>) -> Self
        ensures { result ≡ sections.entry }
    {
        View { sections }
    }

    /// The number of distinct names.
    pub fn len(&self) -> usize
        ensures { result ≡ length (names self.now) }
    {
        self.sections.len_keys()
    }

    /// Whether there are no sections.
    pub fn is_empty(&self) -> bool
        ensures { result ≡ (length self.now == 0) }
    {
        self.sections.is_empty()
    }

    /// The first section of the name.
    pub fn section(&self, name: Option<&str>) -> Option<&ViewSection<'a>>
        ensures { option_copied result ≡ first_section (str_name name.entry) self.now }
    {
        self.sections.get(name)
    }

    /// The first value of the key in the first section of the name.
    pub fn get_from(&self, name: Option<&str>, key: &str) -> Option<&str>
        ensures { option_map str_text result ≡ value_in (str_name name.entry) (chars key.now) self.now }
    {
        match self.section(name) {
            Some(section) => section.get(key),
            None => None,
        }
    }

    /// What `get_from` answers, or the default.
    pub fn get_from_or<'v>(&'v self, name: Option<&str>, key: &str, default: &'v str) -> &'v str
        ensures { str_text result
            ≡ unwrap_or (value_in (str_name name.entry) (chars key.now) self.now) (chars default.now) }
    {
        self.get_from(name, key).unwrap_or(default)
    }

    /// Each distinct name once, in the order of first occurrence.
    pub fn sections<'v>(&'v self) -> ViewNames<'v, 'a>
        ensures names { result ≡ names self.now }
        ensures countable { length result < 2 ^ 64 }
    {
        ViewNames::new(self.sections.keys())
    }

    /// Every section in order.
    pub fn iter<'v>(&'v self) -> ViewIter<'v, 'a>
        ensures { result ≡ self.now }
    {
        ViewIter::new(self.sections.iter())
    }
}

impl<'v, 'a> IntoIterator for &'v View<'a> {
    type Item = (Option<&'v str>, &'v ViewSection<'a>);

    type IntoIter = ViewIter<'v, 'a>;

    ghost into_iter_gives = { λ d it. it ≡ d.now };

    fn into_iter(self) -> ViewIter<'v, 'a> {
        self.iter()
    }
}
