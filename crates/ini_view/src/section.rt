//! The pairs of a section. This file knows the multimap's calls, and nothing of sections.
ghost use Rattle.std.specs.Prelude.{◌≡◌, ◌==◌, ◌<◌, ◌^◌, [], ◌∷◌, ◌++◌, length, chars, is_some, alloc_error};
ghost use Rattle.std.specs.Prelude.{IsOkUnless, OnOk};
ghost use Rattle.std.specs.Option.{option_map};
ghost use Rattle.ini_text.specs.Parsing.Items.{cow_text};
ghost use Rattle.ini.specs.Texts.{str_text};
ghost use Rattle.ini.specs.Properties.{distinct, first_value, values};

use crate::iter::{ViewPairs, ViewValues};
use crate::text::ViewText;
use ini::Error;
use ini_multimap::Multimap;
use std::alloc::{AllocError, Global};
use std::borrow::CowStr;
use std::marker::Model;

/// The pairs of a section of a `View`, in order. A key may be there more than once.
#[derive(Debug, Drop)]
pub struct ViewSection<'a> {
    pairs: Multimap<ViewText<'a>, ViewText<'a>>,
}

impl<'a> Model for ViewSection<'a> {
    ghost use Rattle.ini.specs.Properties.{Pairs};

    ghost Value = { Pairs };

    ghost view = { λ s. s.pairs };
}

impl<'a> ViewSection<'a> {
    // No pairs. Takes no memory.
    pub(crate) fn new(alloc: Global) -> Self
        ensures { result ≡ [] }
    {
        ViewSection {
            pairs: Multimap::new(alloc),
        }
    }

    /// The number of distinct keys.
    pub fn len(&self) -> usize
        ensures { result ≡ length (distinct self.now) }
    {
        self.pairs.len_keys()
    }

    /// Whether there are no pairs.
    pub fn is_empty(&self) -> bool
        ensures { result ≡ (length self.now == 0) }
    {
        self.pairs.is_empty()
    }

    /// Whether a pair of the key is there.
    pub fn contains_key(&self, key: &str) -> bool
        ensures { result ≡ is_some (first_value (chars key.now) self.now) }
    {
        self.get(key).is_some()
    }

    /// The first value of the key.
    pub fn get(&self, key: &str) -> Option<&str>
        ensures { option_map str_text result ≡ first_value (chars key.now) self.now }
    {
        match self.pairs.get(key) {
            Some(value) => Some(value.as_str()),
            None => None,
        }
    }

    /// All values of the key, in order.
    pub fn get_all<'v, 'k>(&'v self, key: &'k str) -> ViewValues<'v, 'a, 'k>
        ensures values { result ≡ values (chars key.now) self.now }
        ensures countable { length result < 2 ^ 64 }
    {
        ViewValues::new(self.pairs.get_all(key))
    }

    /// Every pair in order.
    pub fn iter<'v>(&'v self) -> ViewPairs<'v, 'a>
        ensures { result ≡ self.now }
    {
        ViewPairs::new(self.pairs.iter())
    }

    // Puts the pair last, and makes no index.
    pub(crate) fn push(&mut self, key: CowStr<'a>, value: CowStr<'a>) -> Result<(), Error>
        ensures pushed { OnOk result
            (self.new ≡ self.old ++ (cow_text key.entry, cow_text value.entry) ∷ []) }
        ensures only_memory { IsOkUnless result (Error.Memory alloc_error) }
    {
        match self
            .pairs
            .append_unindexed(ViewText::new(key), ViewText::new(value))
        {
            Ok(()) => Ok(()),
            Err(_) => Err(Error::Memory(AllocError)),
        }
    }

    // Ends the section, which has all its pairs: gives back the room that they don't take, and makes the
    // index of the keys, where pairs are many.
    pub(crate) fn end(&mut self) -> Result<(), Error>
        ensures same { self.new ≡ self.old }
        ensures only_memory { IsOkUnless result (Error.Memory alloc_error) }
    {
        self.pairs.shrink_to_fit();
        self.pairs.make_index()?;
        Ok(())
    }
}

impl<'v, 'a> IntoIterator for &'v ViewSection<'a> {
    type Item = (&'v str, &'v str);

    type IntoIter = ViewPairs<'v, 'a>;

    ghost into_iter_gives = { λ s it. it ≡ s.now };

    fn into_iter(self) -> ViewPairs<'v, 'a> {
        self.iter()
    }
}
