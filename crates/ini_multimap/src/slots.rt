//! The slots of a multimap: a slot holds a pair or a hole. Keys stand in one column and values in
//! another of the same length, so that values can be lent for writing while nothing that a look-up
//! rests on can change.
//!
//! Where slots are many, those of one code are a chain, and a look-up goes along that, so it asks a probe
//! about keys of that code alone. Where they are few, it begins at the first that has a byte of the code, and
//! asks about each key from there on. These files know keys and codes, and no multimap.
ghost use Rattle.std.specs.Prelude.{◌≡◌, ◌<◌, ◌^◌, [], length, IfSome, IsSome, Some};
ghost use Rattle.std.specs.Borrow.{sem};
ghost use Rattle.std.specs.Option.{option_copied};
ghost use Rattle.ini_multimap.specs.Pairs.{distinct_keys};
ghost use Rattle.ini_multimap.specs.Slots.{pairs_in, pairs_of};
ghost use Rattle.ini_multimap.specs.Inside.Fits.{HasLeadingHoles, value_in};
ghost use Rattle.ini_multimap.specs.Inside.Loans.{lends_slot};

mod anew;
mod append;
mod chains;
mod close;
mod distinct;
mod find;
mod index;
mod tags;
mod take;

use crate::key::MapKey;
use chains::Chains;
pub(crate) use find::count_pairs;
pub(crate) use index::FEW;
use std::alloc::Global;
use std::marker::Model;
use tags::Tags;

/// Slots of pairs. Seen as the two columns, and whether the codes are chained.
#[derive(Debug)]
pub(crate) struct Slots<K: MapKey, V> {
    // The key and the value in each slot, `None` at a hole.
    keys: Vec<Option<K>>,
    values: Vec<Option<V>>,
    // A byte of the code of each of the first keys.
    tags: Tags,
    // The chains of the codes, where slots are many.
    index: Option<Box<Chains>>,
    // How many holes there are.
    holes: usize,
    // So many slots at the front are known to be holes. Walks begin after them.
    leading: usize,
    // Whether each key is known to have its value. What a walk for writing leaves isn't followed, so it
    // forgets that, until holes are closed.
    is_paired: bool,
    // Whether each code in the index is known to be that of one key. It isn't where there is no index.
    is_injective: bool,
}

impl<K: MapKey, V> Model for Slots<K, V> {
    ghost use Rattle.std.specs.Prelude.{is_some};
    ghost use Rattle.ini_multimap.specs.Slots.{Columns};

    ghost Value = { Columns K V };

    ghost use Rattle.ini_multimap.specs.Inside.Filled.{AreFilled};

    ghost view = { λ s. record {
      keys = s.keys.items;
      values = s.values.items;
      is_chained = is_some s.index;
    } };

    ghost invariant = { λ s. AreFilled K.eq K.key_code s };
}

impl<K: MapKey, V> Slots<K, V> {
    // No slots.
    pub(crate) fn new(alloc: Global) -> Self
        ensures { pairs_of result ≡ [] }
    {
        Slots {
            keys: Vec::new(alloc),
            values: Vec::new(alloc),
            tags: Tags::new(),
            index: None,
            holes: 0,
            leading: 0,
            is_paired: true,
            is_injective: false,
        }
    }

    pub(crate) fn alloc(&self) -> Global {
        *self.values.allocator()
    }

    // How many slots there are.
    pub(crate) fn len(&self) -> usize
        ensures { result ≡ length self.now.keys }
    {
        self.keys.len()
    }

    // So many at the front are holes.
    pub(crate) fn leading(&self) -> usize
        ensures { HasLeadingHoles self.now.keys result }
    {
        self.leading
    }

    // How many pairs there are.
    pub(crate) fn len_pairs(&self) -> usize
        ensures { result ≡ length (pairs_of self.now) }
    {
        if self.is_paired {
            self.keys.len() - self.holes
        } else {
            count_pairs(self.keys.as_slice(), self.values.as_slice())
        }
    }

    // How many distinct keys there are, where that is known.
    pub(crate) fn len_keys(&self) -> Option<usize>
        ensures { IfSome result (λ n. n ≡ length (distinct_keys K.eq (pairs_of self.now))) }
    {
        match &self.index {
            Some(chains) if self.is_paired && self.is_injective => Some(chains.codes()),
            _ => None,
        }
    }

    // The value in slot s.
    #[inline(always)]
    pub(crate) fn value(&self, s: usize) -> Option<&V>
        requires { s < length self.now.keys }
        ensures { option_copied result ≡ value_in self.now.values s }
    {
        self.values[s].as_ref()
    }

    // The same, for writing.
    pub(crate) fn value_mut(&mut self, s: usize) -> &mut V
        requires { IsSome (value_in self.old.values s) }
        ensures* writes_back { sem 𝓛 (lends_slot K.row V.row K.MapKey self.entry s result) }
        ensures value { value_in self.old.values s ≡ Some result.now }
    {
        match self.values[s].as_mut() {
            Some(value) => value,
            None => unreachable!(),
        }
    }

    // The columns, without the holes that are known to lead.
    pub(crate) fn columns(&self) -> (&[Option<K>], &[Option<V>])
        ensures long { length result.1.now ≡ length result.0.now }
        ensures pairs { pairs_in result.0.now result.1.now ≡ pairs_of self.now }
    {
        let leading = self.leading;
        (
            &self.keys.as_slice()[leading..],
            &self.values.as_slice()[leading..],
        )
    }

    // The same, the values for writing.
    pub(crate) fn columns_mut(&mut self) -> (&[Option<K>], &mut [Option<V>])
        ensures long { length result.1.now ≡ length result.0.now }
        ensures pairs { pairs_in result.0.now result.1.now ≡ pairs_of self.old }
    {
        self.is_paired = false;
        let leading = self.leading;
        (
            &self.keys.as_slice()[leading..],
            &mut self.values.as_mut_slice()[leading..],
        )
    }

    // The same, by value.
    pub(crate) fn into_columns(self) -> (Vec<Option<K>>, Vec<Option<V>>)
        ensures long { length result.1.items ≡ length result.0.items }
        ensures pairs { pairs_in result.0.items result.1.items ≡ pairs_of self }
    {
        let Slots {
            keys,
            values,
            tags: _,
            index: _,
            holes: _,
            leading: _,
            is_paired: _,
            is_injective: _,
        } = self;
        (keys, values)
    }

    // Gives back the room that no slot takes.
    pub(crate) fn shrink_to_fit(&mut self)
        ensures { pairs_of self.new ≡ pairs_of self.old }
    {
        self.keys.shrink_to_fit();
        self.values.shrink_to_fit();
    }

    // Takes out every pair.
    pub(crate) fn clear(&mut self)
    where
        K: Drop,
        V: Drop,
        ensures { pairs_of self.new ≡ [] }
    {
        self.keys.clear();
        self.values.clear();
        self.index = None;
        self.holes = 0;
        self.leading = 0;
        self.is_paired = true;
        self.is_injective = false;
    }
}

// Written out: a caller's proof then meets a call here, and no case for the chains.
impl<K: MapKey + Drop, V: Drop> Drop for Slots<K, V> {
    fn drop(self) {
        let (keys, values) = self.into_columns();
        drop(keys);
        drop(values);
    }
}
