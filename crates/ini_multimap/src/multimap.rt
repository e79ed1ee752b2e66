//! The multimap: a list of pairs, kept as slots in list order. Where pairs are many, a look-up asks the
//! probe only about those of its code, but for `get_all_mut`, which asks about each.
//! A removal leaves a hole, and the holes are closed where they outnumber the pairs.
//!
//! A growing call makes its room before anything changes, so a refused one changes nothing.
ghost use Rattle.std.specs.Prelude.{◌-◌, ◌^◌, ◌≡◌, ◌+◌, ◌<◌, ◌≤◌, ◌==◌, [], ◌∷◌, ◌++◌, length};
ghost use Rattle.std.specs.Prelude.{IsSome, IfOk, IfErr, OnOk, OnErr, IfNone, slice_get, Some, None};
ghost use Rattle.std.specs.Option.{option_copied, option_copied_mut};
ghost use Rattle.std.specs.Borrow.{sem};
ghost use Rattle.std.specs.Map.{values_of, lookup, remove_entry, set_value};
ghost use Rattle.ini_multimap.specs.Iter.{iter_mut_rest, values_mut_rest};
ghost use Rattle.ini_multimap.specs.Lends.{lends_first, lends_nth, lends_last};
ghost use Rattle.ini_multimap.specs.Pairs.{AreClones, distinct_keys, values_at, insert_pair};
ghost use Rattle.ini_multimap.specs.Pairs.{set_nth_value, without};
ghost use Rattle.ini_multimap.specs.Inside.Fits.{without_nth};

use crate::iter::{IntoIter, Iter, IterMut, Keys, Removed, Values, ValuesMut};
use crate::key::{MapKey, Probe};
use crate::slots::{FEW, Slots};
use std::alloc::{AllocError, Global};
use std::marker::Model;
use std::mem;

/// What a refused growth hands back: the key and the value that it was given.
#[derive(Debug, Drop)]
pub struct Refused<K, V> {
    /// The key that was to go in.
    pub key: K,
    /// The value that was to go in.
    pub value: V,
}

/// Pairs of a key and a value in the order of insertion; several may have one key.
///
/// Seen as the list of its pairs. A probe `q` fits a pair whose key it stands for.
#[derive(Debug, Drop)]
pub struct Multimap<K: MapKey, V> {
    slots: Slots<K, V>,
}

impl<K: MapKey, V> Model for Multimap<K, V> {
    ghost use Rattle.std.specs.Prelude.{List};
    ghost use Rattle.std.specs.Coded.{coded_list, coded×};

    ghost Value = { List (K × V) };

    ghost coded = { coded_list (coded× K.code V.code) };

    ghost use Rattle.ini_multimap.specs.Slots.{pairs_of};

    ghost view = { λ m. pairs_of m.slots };
}

impl<K: MapKey, V> Multimap<K, V> {
    /// No pairs. Takes no memory.
    pub fn new(alloc: Global) -> Self
        ensures { result ≡ [] }
    {
        Multimap {
            slots: Slots::new(alloc),
        }
    }

    /// The number of pairs.
    pub fn len_pairs(&self) -> usize
        ensures { result ≡ length self.now }
    {
        self.slots.len_pairs()
    }

    /// The number of distinct keys.
    pub fn len_keys(&self) -> usize
        ensures { result ≡ length (distinct_keys K.eq self.now) }
    {
        match self.slots.len_keys() {
            Some(keys) => keys,
            None => self.keys().count(),
        }
    }

    /// Whether there are no pairs.
    pub fn is_empty(&self) -> bool
        ensures { result ≡ (length self.now == 0) }
    {
        self.iter().next().is_none()
    }

    /// Puts the pair last. Refused, it hands back key and value, and the pairs stay.
    pub fn append(&mut self, key: K, value: V) -> Result<(), Refused<K, V>>
        ensures ok { OnOk result (self.new ≡ self.old ++ (key, value) ∷ []) }
        ensures unchanged_if_refused { OnErr result (self.new ≡ self.old) }
        ensures key_handed_back { IfErr result (λ refused. refused.key ≡ key) }
        ensures value_handed_back { IfErr result (λ refused. refused.value ≡ value) }
    {
        self.append_from(key, value, FEW)
    }

    /// Puts the pair last, as by `append`, but makes no index where there is none yet. A look-up then goes
    /// over all pairs, until `make_index` or `append` makes the index of all of them at once: for many pairs
    /// that goes faster than pair by pair. Where there is an index already, the pair goes into it.
    ///
    /// Refused, it hands back key and value, and the pairs stay.
    pub fn append_unindexed(&mut self, key: K, value: V) -> Result<(), Refused<K, V>>
        ensures ok { OnOk result (self.new ≡ self.old ++ (key, value) ∷ []) }
        ensures unchanged_if_refused { OnErr result (self.new ≡ self.old) }
        ensures key_handed_back { IfErr result (λ refused. refused.key ≡ key) }
        ensures value_handed_back { IfErr result (λ refused. refused.value ≡ value) }
    {
        self.append_from(key, value, usize::MAX)
    }

    /// Makes the index by which look-ups find a key among many, where there is none yet. Few pairs need
    /// none. The pairs stay, also where it is refused, only when out of memory.
    pub fn make_index(&mut self) -> Result<(), AllocError>
        ensures { self.new ≡ self.old }
    {
        self.slots.chain_from(FEW + 1)
    }

    /// Gives back the room that no pair takes, where the heap can take it back. The pairs stay.
    pub fn shrink_to_fit(&mut self)
        ensures { self.new ≡ self.old }
    {
        self.slots.shrink_to_fit();
    }

    /// Sets the value of the key: its first pair keeps place and key and takes the value, its later
    /// pairs go, and the old first value is handed out. This takes no memory and always succeeds.
    ///
    /// A new key goes last, as by `append`, with `None` for the old value. Only this may be refused;
    /// it then hands back key and value, and the pairs stay.
    pub fn insert(&mut self, key: K, value: V) -> Result<Option<V>, Refused<K, V>>
    where
        K: Drop,
        V: Drop,
        ensures old_value { IfOk result (λ old. old ≡ lookup (K.eq key) self.old) }
        ensures ok { OnOk result (self.new ≡ insert_pair (K.eq key) key value self.old) }
        ensures refused_only_if_new { OnErr result (lookup (K.eq key) self.old ≡ None) }
        ensures unchanged_if_refused { OnErr result (self.new ≡ self.old) }
        ensures key_handed_back { IfErr result (λ refused. refused.key ≡ key) }
        ensures value_handed_back { IfErr result (λ refused. refused.value ≡ value) }
    {
        match self.get_mut(&key) {
            Some(place) => {
                let old = mem::replace(place, value);
                self.keep_first(&key);
                Ok(Some(old))
            }
            None => match self.append(key, value) {
                Ok(()) => Ok(None),
                Err(refused) => Err(refused),
            },
        }
    }

    /// The first value of the key.
    #[inline(always)]
    pub fn get<Q: Probe<K> + Copy>(&self, q: Q) -> Option<&V>
        ensures { option_copied result ≡ lookup (Q.fits q) self.now }
    {
        let s = self.slots.nth_slot(q, 0)?;
        self.slots.value(s)
    }

    /// The first value of the key, for writing. The rest stays.
    pub fn get_mut<Q: Probe<K> + Copy>(&mut self, q: Q) -> Option<&mut V>
        ensures* writes_back { sem 𝓛 (lends_first K.row V.row K.MapKey self.entry (Q.fits q) result) }
        ensures value { option_copied_mut result ≡ lookup (Q.fits q) self.old }
        ensures none_to_set { IfNone result ((v : V) → set_value (Q.fits q) self.old v ≡ self.old) }
    {
        match self.get_nth_mut(q, 0) {
            Some(value) => Some(value),
            None => None,
        }
    }

    /// The value of the last pair, for writing. The rest stays.
    pub fn get_last_mut(&mut self) -> Option<&mut V>
        ensures* writes_back { sem 𝓛 (lends_last K.row V.row K.MapKey self.entry result) }
        ensures value { option_copied_mut result ≡ slice_get (values_of self.old) (length self.old - 1) }
    {
        match self.slots.last_slot() {
            Some(s) => Some(self.slots.value_mut(s)),
            None => None,
        }
    }

    /// All values of the key, in list order.
    pub fn get_all<Q: Probe<K> + Copy>(&self, q: Q) -> Values<'_, K, V, Q>
        ensures values { result ≡ values_at (Q.fits q) self.now }
        ensures countable { length result < 2 ^ 64 }
    {
        Values::new(&self.slots, q)
    }

    /// All values of the key, in list order, for writing.
    pub fn get_all_mut<Q: Probe<K> + Copy>(&mut self, q: Q) -> ValuesMut<'_, K, V, Q>
        ensures values { values_mut_rest Q.fits result ≡ values_at (Q.fits q) self.old }
        ensures countable { length (values_mut_rest Q.fits result) < 2 ^ 64 }
    {
        ValuesMut::new(self.iter_mut(), q)
    }

    /// The value of the key's pair number `n` in list order, from 0, for writing. The rest stays.
    pub fn get_nth_mut<Q: Probe<K> + Copy>(&mut self, q: Q, n: usize) -> Option<&mut V>
        ensures* writes_back { sem 𝓛 (lends_nth K.row V.row K.MapKey self.entry (Q.fits q) n result) }
        ensures value { option_copied_mut result ≡ slice_get (values_at (Q.fits q) self.old) n }
        ensures none_to_set { IfNone result ((v : V) → set_nth_value (Q.fits q) self.old n v ≡ self.old) }
    {
        match self.slots.nth_slot(q, n) {
            Some(s) => Some(self.slots.value_mut(s)),
            None => None,
        }
    }

    /// Takes out the first pair of the key, and hands out its value.
    pub fn remove<Q: Probe<K> + Copy>(&mut self, q: Q) -> Option<V>
    where
        K: Drop,
        ensures value { result ≡ lookup (Q.fits q) self.old }
        ensures pairs { self.new ≡ remove_entry (Q.fits q) self.old }
    {
        let value = self.take_nth(q, 0)?;
        self.slots.close_if_sparse();
        Some(value)
    }

    /// Takes out all pairs of the key, and hands out their values in list order.
    ///
    /// It makes room for the list of values first. Refused, the pairs stay. Where no pair has the
    /// key it succeeds, and takes no memory.
    #[tactic(auto, using(crate::proofs::PairLemmas::found_if_some))]
    pub fn remove_all<Q: Probe<K> + Copy>(&mut self, q: Q) -> Result<Removed<V>, AllocError>
    where
        K: Drop,
        V: Drop,
        ensures values { IfOk result (λ removed. removed ≡ values_at (Q.fits q) self.old) }
        ensures countable { IfOk result (λ removed. length removed < 2 ^ 64) }
        ensures ok { OnOk result (self.new ≡ without (Q.fits q) self.old) }
        ensures refused_only_if_there { OnErr result (IsSome (lookup (Q.fits q) self.old)) }
        ensures unchanged_if_refused { OnErr result (self.new ≡ self.old) }
    {
        let mut values = Vec::with_capacity(self.slots.alloc(), self.count(q))?;
        while let Some(value) = self.take_nth(q, 0) {
            values.push_reserved(value);
        }
        self.slots.close_if_sparse();
        Ok(Removed::new(values))
    }

    /// Takes out every pair.
    pub fn clear(&mut self)
    where
        K: Drop,
        V: Drop,
        ensures { self.new ≡ [] }
    {
        self.slots.clear();
    }

    /// Every pair in order.
    pub fn iter(&self) -> Iter<'_, K, V>
        ensures { result ≡ self.now }
    {
        let (keys, values) = self.slots.columns();
        Iter::new(keys, values)
    }

    /// Every pair in order, its value for writing.
    pub fn iter_mut(&mut self) -> IterMut<'_, K, V>
        ensures { iter_mut_rest result ≡ self.old }
    {
        let (keys, values) = self.slots.columns_mut();
        IterMut::new(keys, values)
    }

    /// Each distinct key once, in the order of first occurrence.
    pub fn keys(&self) -> Keys<'_, K, V>
        ensures keys { result ≡ distinct_keys K.eq self.now }
        ensures countable { length result < 2 ^ 64 }
    {
        Keys::new(&self.slots)
    }
}

impl<'a, K: MapKey, V> IntoIterator for &'a Multimap<K, V> {
    type Item = (&'a K, &'a V);

    type IntoIter = Iter<'a, K, V>;

    ghost into_iter_gives = { λ m it. it ≡ m.now };

    fn into_iter(self) -> Iter<'a, K, V> {
        self.iter()
    }
}

impl<'a, K: MapKey, V> IntoIterator for &'a mut Multimap<K, V> {
    type Item = (&'a K, &'a mut V);

    type IntoIter = IterMut<'a, K, V>;

    ghost into_iter_gives = { λ m it. iter_mut_rest it ≡ m.now };

    fn into_iter(self) -> IterMut<'a, K, V> {
        self.iter_mut()
    }
}

impl<K: MapKey + Drop, V: Drop> IntoIterator for Multimap<K, V> {
    type Item = (K, V);

    type IntoIter = IntoIter<K, V>;

    ghost into_iter_gives = { λ m it. it ≡ m };

    fn into_iter(self) -> IntoIter<K, V> {
        let Multimap { slots } = self;
        let (keys, values) = slots.into_columns();
        IntoIter::new(keys, values)
    }
}

impl<K: MapKey + Clone, V: Clone> Clone for Multimap<K, V> {
    ghost is_clone = { AreClones K.is_clone V.is_clone };

    /// The same pairs in the same order, each key and each value cloned: an equal list, where clones
    /// equal their elements. Refused, nothing is left.
    fn clone(&self) -> Result<Self, AllocError>
        ensures clones { IfOk result (AreClones K.is_clone V.is_clone self.now) }
        ensures equal_if_clones_are { IfOk result (λ copy. ((x y : K) → K.is_clone x y → y ≡ x)
            → ((x y : V) → V.is_clone x y → y ≡ x) → copy ≡ self.now) }
    {
        let mut copy = Multimap::new(self.slots.alloc());
        let mut rest = self.iter();
        while let Some((key, value)) = rest.next() {
            match copy.append_unindexed(key.clone()?, value.clone()?) {
                Ok(()) => {}
                Err(_) => return Err(AllocError),
            }
        }
        copy.make_index()?;
        Ok(copy)
    }
}

// What the edits share. None of these takes memory, but for the first.
impl<K: MapKey, V> Multimap<K, V> {
    ghost use Rattle.ini_multimap.specs.Inside.Fits.{first_alone};

    // Puts the pair last, and makes an index where as many slots as `many` have none.
    #[inline(always)]
    fn append_from(&mut self, key: K, value: V, many: usize) -> Result<(), Refused<K, V>>
        ensures ok { OnOk result (self.new ≡ self.old ++ (key, value) ∷ []) }
        ensures unchanged_if_refused { OnErr result (self.new ≡ self.old) }
        ensures key_handed_back { IfErr result (λ refused. refused.key ≡ key) }
        ensures value_handed_back { IfErr result (λ refused. refused.value ≡ value) }
    {
        match self.slots.append(key, value, many) {
            Ok(()) => Ok(()),
            Err((key, value)) => Err(Refused { key, value }),
        }
    }

    // Takes out pair number n of those that fit, and leaves a hole.
    fn take_nth<Q: Probe<K> + Copy>(&mut self, q: Q, n: usize) -> Option<V>
    where
        K: Drop,
        ensures value { result ≡ slice_get (values_at (Q.fits q) self.old) n }
        ensures pairs { self.new ≡ without_nth (Q.fits q) self.old n }
    {
        let s = self.slots.nth_slot(q, n)?;
        self.slots.take(s, q.code())
    }

    // Takes out the pairs that have the key but for the first.
    fn keep_first(&mut self, key: &K)
    where
        K: Drop,
        V: Drop,
        ensures { self.new ≡ first_alone (K.eq key.now) self.old }
    {
        while let Some(_) = self.take_nth(key, 1) {}
        self.slots.close_if_sparse();
    }

    // How many pairs fit.
    fn count<Q: Probe<K> + Copy>(&self, q: Q) -> usize
        ensures { result ≡ length (values_at (Q.fits q) self.now) }
    {
        let mut fits = 0;
        let mut rest = self.get_all(q);
        while let Some(_) = rest.next() {
            fits += 1;
        }
        fits
    }
}
