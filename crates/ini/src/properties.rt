//! The pairs of a section. This file knows the multimap's calls, and nothing of sections.
ghost use Rattle.std.specs.Prelude.{◌≡◌, ◌==◌, ◌<◌, ◌^◌, ◌↔◌, [], ◌∷◌, ◌++◌, length, is_some};
ghost use Rattle.std.specs.Prelude.{IsTrue, IsSome, Some, None, IfOk, IsOkUnless, OnOk, OnErr, alloc_error};
ghost use Rattle.std.specs.Borrow.{sem};
ghost use Rattle.std.specs.Option.{option_map};
ghost use Rattle.std.specs.Str.{IsUtf8, chars};
ghost use Rattle.ini.specs.Texts.{str_text, text_of};
ghost use Rattle.ini.specs.Properties.{all_removed, distinct, first_value, inserted};
ghost use Rattle.ini.specs.Properties.{pairs_of, removed, values};
ghost use Rattle.ini.specs.Equality.{is_pairs, is_pairs_laws};
ghost use Rattle.ini.specs.Lends.{lent_text};
ghost use Rattle.ini.specs.Inside.InnerLends.{lends_value};
ghost use Rattle.ini.specs.Walks.{property_iter_mut_rest};

use crate::iter::{
    PropertiesIntoIter, PropertyIter, PropertyIterMut, PropertyValues, RemovedValues,
};
use ini_multimap::Multimap;
use ini_text::Error;
use std::alloc::{AllocError, Global};
use std::marker::Model;
use std::ops::Index;

/// The key of a pair.
pub type PropertyKey = String;

/// The pairs of a section, in order. A key may be there more than once.
#[derive(Debug, Drop)]
pub struct Properties {
    pairs: Multimap<PropertyKey, String>,
    alloc: Global,
}

impl Model for Properties {
    ghost use Rattle.ini.specs.Properties.{Pairs, pairs_of};

    ghost Value = { Pairs };

    ghost view = { λ p. pairs_of p.pairs };
}

#[tactic(auto, using(crate::proofs::PropertyLemmas::reads))]
impl Properties {
    /// No pairs. Takes no memory.
    pub fn new(alloc: Global) -> Self
        ensures { result ≡ [] }
    {
        Properties {
            pairs: Multimap::new(alloc),
            alloc,
        }
    }

    /// The number of distinct keys.
    pub fn len(&self) -> usize
        ensures { result ≡ length (distinct self.now) }
    {
        self.pairs.len_keys()
    }

    /// Whether there are no pairs.
    pub fn is_empty(&self) -> bool
        ensures { result ≡ (length self.now == 0) }
    {
        self.pairs.is_empty()
    }

    /// Whether a pair of the key is there.
    pub fn contains_key(&self, key: &str) -> bool
        ensures { result ≡ is_some (first_value (chars key.now) self.now) }
    {
        self.get(key).is_some()
    }

    /// The first value of the key.
    pub fn get(&self, key: &str) -> Option<&str>
        ensures { option_map str_text result ≡ first_value (chars key.now) self.now }
    {
        match self.pairs.get(key) {
            Some(value) => Some(value.as_str()),
            None => None,
        }
    }

    // What `get` answers, for the bytes of a key; `None` where they are no UTF-8.
    #[inline(always)]
    pub(crate) fn get_by_bytes(&self, key: &[u8]) -> Option<&str>
        ensures text { IsSome result → IsUtf8 key.now }
        ensures value { IsUtf8 key.now → option_map str_text result ≡ first_value (chars key.now) self.now }
    {
        match self.pairs.get(key) {
            Some(text) => Some(text.as_str()),
            None => None,
        }
    }

    /// All values of the key, in order.
    pub fn get_all<'a, 'k>(&'a self, key: &'k str) -> PropertyValues<'a, 'k>
        ensures values { result ≡ values (chars key.now) self.now }
        ensures countable { length result < 2 ^ 64 }
    {
        PropertyValues::new(self.pairs.get_all(key))
    }

    // The first value of the key, for writing. The rest stays.
    pub(crate) fn get_mut(&mut self, key: &str) -> Option<&mut String>
        ensures* writes_back { sem 𝓛 (lends_value self.entry (chars key.now) result) }
        ensures value { lent_text result ≡ first_value (chars key.now) self.old }
    {
        self.pairs.get_mut(key)
    }

    /// Puts the pair last.
    ///
    /// Refused, only when out of memory, it changes nothing.
    pub fn append(&mut self, key: &str, value: &str) -> Result<(), Error>
        ensures appended { OnOk result (self.new ≡ self.old ++ (chars key.now, chars value.now) ∷ []) }
        ensures unchanged { OnErr result (self.new ≡ self.old) }
        ensures only_memory { IsOkUnless result (Error.Memory alloc_error) }
    {
        let key = String::from_str(self.alloc, key)?;
        let value = String::from_str(self.alloc, value)?;
        self.push(key, value)
    }

    /// Gives the first pair of the key the value, at its place, and takes out its later pairs. A new
    /// pair goes last.
    ///
    /// Refused, only when out of memory, it changes nothing.
    pub fn insert(&mut self, key: &str, value: &str) -> Result<(), Error>
        ensures inserted { OnOk result (self.new ≡ inserted (chars key.now) (chars value.now) self.old) }
        ensures unchanged { OnErr result (self.new ≡ self.old) }
        ensures only_memory { IsOkUnless result (Error.Memory alloc_error) }
    {
        let key = String::from_str(self.alloc, key)?;
        let value = String::from_str(self.alloc, value)?;
        self.put(key, value)
    }

    /// Takes out the first pair of the key, and hands its value out.
    pub fn remove(&mut self, key: &str) -> Option<String>
        ensures value { option_map text_of result ≡ first_value (chars key.now) self.old }
        ensures removed { self.new ≡ removed (chars key.now) self.old }
    {
        self.pairs.remove(key)
    }

    /// Takes out all pairs of the key, and hands their values out, in order.
    ///
    /// Refused, only when out of memory, it changes nothing. Where no pair has the key it takes no memory.
    pub fn remove_all(&mut self, key: &str) -> Result<RemovedValues, Error>
        ensures values { IfOk result (λ removed. removed ≡ values (chars key.now) self.old) }
        ensures countable { IfOk result (λ removed. length removed < 2 ^ 64) }
        ensures removed { OnOk result (self.new ≡ all_removed (chars key.now) self.old) }
        ensures refused_only_if_there { OnErr result (IsSome (first_value (chars key.now) self.old)) }
        ensures unchanged { OnErr result (self.new ≡ self.old) }
        ensures only_memory { IsOkUnless result (Error.Memory alloc_error) }
    {
        let removed = self.pairs.remove_all(key)?;
        Ok(RemovedValues::new(removed))
    }

    /// An equal copy. Refused only when out of memory.
    ///
    /// std's `Clone` is there too, for code over any `T: Clone`; it answers `AllocError`.
    pub fn clone(&self) -> Result<Self, Error>
        ensures equal { IfOk result (λ copy. copy ≡ self.now) }
        ensures only_memory { IsOkUnless result (Error.Memory alloc_error) }
    {
        let copy = Clone::clone(self)?;
        Ok(copy)
    }

    /// Every pair in order.
    pub fn iter(&self) -> PropertyIter<'_>
        ensures { result ≡ self.now }
    {
        PropertyIter::new(self.pairs.iter())
    }

    /// Every pair in order, its value for writing.
    pub fn iter_mut(&mut self) -> PropertyIterMut<'_>
        ensures { property_iter_mut_rest result ≡ self.old }
    {
        PropertyIterMut::new(self.pairs.iter_mut())
    }

    // As `insert`, without a copy. A key that is there takes no memory.
    pub(crate) fn put(&mut self, key: String, value: String) -> Result<(), Error>
        ensures inserted { OnOk result (self.new ≡ inserted (text_of key) (text_of value) self.old) }
        ensures unchanged { OnErr result (self.new ≡ self.old) }
        ensures only_memory { IsOkUnless result (Error.Memory alloc_error) }
        ensures refused_only_if_new { OnErr result (first_value (text_of key) self.old ≡ None) }
    {
        match self.pairs.insert(key, value) {
            Ok(_) => Ok(()),
            Err(_) => Err(Error::Memory(AllocError)),
        }
    }

    // As `append`, without a copy.
    pub(crate) fn push(&mut self, key: String, value: String) -> Result<(), Error>
        ensures appended { OnOk result (self.new ≡ self.old ++ (text_of key, text_of value) ∷ []) }
        ensures unchanged { OnErr result (self.new ≡ self.old) }
        ensures only_memory { IsOkUnless result (Error.Memory alloc_error) }
    {
        match self.pairs.append(key, value) {
            Ok(()) => Ok(()),
            Err(_) => Err(Error::Memory(AllocError)),
        }
    }

    // As `push`, but makes no index where there is none yet.
    pub(crate) fn push_unindexed(&mut self, key: String, value: String) -> Result<(), Error>
        ensures appended { OnOk result (self.new ≡ self.old ++ (text_of key, text_of value) ∷ []) }
        ensures unchanged { OnErr result (self.new ≡ self.old) }
        ensures only_memory { IsOkUnless result (Error.Memory alloc_error) }
    {
        match self.pairs.append_unindexed(key, value) {
            Ok(()) => Ok(()),
            Err(_) => Err(Error::Memory(AllocError)),
        }
    }

    // Ends the section, which has all its pairs: gives back the room that they don't take, and makes the
    // index of the keys, where pairs are many and have none yet.
    pub(crate) fn end(&mut self) -> Result<(), Error>
        ensures same { self.new ≡ self.old }
        ensures only_memory { IsOkUnless result (Error.Memory alloc_error) }
    {
        self.pairs.shrink_to_fit();
        self.pairs.make_index()?;
        Ok(())
    }
}

#[tactic(auto, using(crate::proofs::PropertyLemmas::reads))]
impl Clone for Properties {
    ghost is_clone = { λ p q. q ≡ p };

    fn clone(&self) -> Result<Self, AllocError> {
        Ok(Properties {
            pairs: self.pairs.clone()?,
            alloc: self.alloc,
        })
    }
}

// Whether both show the same pairs in the same order.
#[tactic(auto, using(crate::proofs::TextLemmas::same_keys))]
fn same_pairs(left: &Multimap<String, String>, right: &Multimap<String, String>) -> bool
    ensures { result ≡ is_pairs (pairs_of left.now) (pairs_of right.now) }
{
    let mut others = right.iter();
    for pair in left {
        let Some(other) = others.next() else {
            return false;
        };
        if pair != other {
            return false;
        }
    }
    others.next().is_none()
}

/// The same pairs in the same order.
#[tactic(auto, using(crate::specs::Equality::is_pairs_decides))]
impl PartialEq for Properties {
    ghost eq = { is_pairs };

    ghost laws = { is_pairs_laws };

    fn eq(&self, other: &Self) -> bool
        ensures eq { result ≡ is_pairs self.now other.now }
        ensures equal { IsTrue result ↔ (self.now ≡ other.now) }
    {
        same_pairs(&self.pairs, &other.pairs)
    }
}

/// The first value of a key that is there: `contains_key` is the test.
#[tactic(auto, using(crate::proofs::PropertyLemmas::reads))]
impl Index<&str> for Properties {
    type Output = String;

    ghost can_index = { λ p key. IsSome (first_value (chars key.now) p) };

    ghost index_gives = { λ p key value. first_value (chars key.now) p ≡ Some (text_of value) };

    fn index(&self, key: &str) -> &String {
        self.pairs.get(key).unwrap()
    }
}

impl IntoIterator for Properties {
    type Item = (String, String);

    type IntoIter = PropertiesIntoIter;

    ghost into_iter_gives = { λ p it. it ≡ p };

    fn into_iter(self) -> PropertiesIntoIter {
        let Properties { pairs, alloc: _ } = self;
        PropertiesIntoIter::new(pairs.into_iter())
    }
}

impl<'a> IntoIterator for &'a Properties {
    type Item = (&'a str, &'a str);

    type IntoIter = PropertyIter<'a>;

    ghost into_iter_gives = { λ p it. it ≡ p.now };

    fn into_iter(self) -> PropertyIter<'a> {
        self.iter()
    }
}

impl<'a> IntoIterator for &'a mut Properties {
    type Item = (&'a str, &'a mut String);

    type IntoIter = PropertyIterMut<'a>;

    ghost into_iter_gives = { λ p it. property_iter_mut_rest it ≡ p.now };

    fn into_iter(self) -> PropertyIterMut<'a> {
        self.iter_mut()
    }
}
