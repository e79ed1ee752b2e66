//! The walks over the values of one key: lent, lent for writing, and taken out. This file knows
//! keys by a probe alone.
ghost use Rattle.std.specs.Prelude.{◌≡◌, ◌<◌, ◌^◌, length};
ghost use Rattle.std.specs.Iterator.{item_count, YieldsFirst, YieldsLast, YieldsFirstRef, YieldsLastRef};
ghost use Rattle.std.specs.Iterator.{YieldsFirstMut, YieldsLastMut};
ghost use Rattle.ini_multimap.specs.Pairs.{values_at};
ghost use Rattle.ini_multimap.specs.Iter.{iter_mut_rest, values_mut_rest};
ghost use Rattle.ini_multimap.specs.Slots.{pairs_of};

use super::pairs::IterMut;
use crate::key::{MapKey, Probe};
use crate::slots::Slots;
use std::marker::Model;
use std::vec;

/// The values of one key in list order, lent. Seen as the list of the values that are left.
#[derive(Drop)]
pub struct Values<'a, K: MapKey, V, Q: Probe<K> + Copy> {
    slots: &'a Slots<K, V>,
    q: Q,
    // The candidates that are left go from the one to the other.
    first: Option<usize>,
    last: Option<usize>,
}

impl<'a, K: MapKey, V, Q: Probe<K> + Copy> Model for Values<'a, K, V, Q> {
    ghost use Rattle.std.specs.Prelude.{List};
    ghost use Rattle.ini_multimap.specs.Inside.Candidates.{AreBetween, values_from};

    ghost Value = { List V };

    ghost view = { λ it. values_from (Q.fits it.q) it.slots.now.keys it.slots.now.values it.first it.last };

    ghost invariant = { λ it.
        AreBetween it.slots.now.is_chained K.key_code (Q.probe_code it.q) it.slots.now.keys
        it.first it.last };
}

impl<'a, K: MapKey, V, Q: Probe<K> + Copy> Values<'a, K, V, Q> {
    pub(crate) fn new(slots: &'a Slots<K, V>, q: Q) -> Self
        ensures values { result ≡ values_at (Q.fits q) (pairs_of slots.now) }
        ensures countable { length result < 2 ^ 64 }
    {
        Values {
            slots,
            q,
            first: slots.first_candidate(q),
            last: slots.last_candidate(q),
        }
    }
}

impl<'a, K: MapKey, V, Q: Probe<K> + Copy> Iterator for Values<'a, K, V, Q> {
    type Item = &'a V;

    ghost next_gives = { YieldsFirstRef (λ it. it) };

    ghost remaining = { item_count (λ it. it) };

    fn next(&mut self) -> Option<&'a V> {
        let last = self.last?;
        while let Some(s) = self.first {
            if last < s {
                return None;
            }
            self.first = self.slots.candidate_after(s);
            if let Some(value) = self.slots.fitting_value(s, self.q) {
                return Some(value);
            }
        }
        None
    }

    /// Nothing is counted ahead.
    fn size_hint(&self) -> (usize, Option<usize>) {
        (0, None)
    }
}

impl<'a, K: MapKey, V, Q: Probe<K> + Copy> DoubleEndedIterator for Values<'a, K, V, Q> {
    ghost next_back_gives = { YieldsLastRef (λ it. it) };

    fn next_back(&mut self) -> Option<&'a V> {
        let first = self.first?;
        while let Some(s) = self.last {
            if s < first {
                return None;
            }
            self.last = self.slots.candidate_before(s);
            if let Some(value) = self.slots.fitting_value(s, self.q) {
                return Some(value);
            }
        }
        None
    }
}

/// The values of one key in list order, lent for writing. `values_mut_rest` is the list of the
/// values that are left; what is written through the walk is not followed.
#[derive(Drop)]
pub struct ValuesMut<'a, K: MapKey, V, Q: Probe<K> + Copy> {
    rest: IterMut<'a, K, V>,
    q: Q,
}

impl<'a, K: MapKey, V, Q: Probe<K> + Copy> ValuesMut<'a, K, V, Q> {
    pub(crate) fn new(pairs: IterMut<'a, K, V>, q: Q) -> Self
        ensures { values_mut_rest Q.fits result ≡ values_at (Q.fits q) (iter_mut_rest pairs.entry) }
    {
        ValuesMut { rest: pairs, q }
    }
}

impl<'a, K: MapKey, V, Q: Probe<K> + Copy> Iterator for ValuesMut<'a, K, V, Q> {
    type Item = &'a mut V;

    ghost next_gives = { YieldsFirstMut (values_mut_rest Q.fits) };

    ghost remaining = { item_count (values_mut_rest Q.fits) };

    fn next(&mut self) -> Option<&'a mut V> {
        while let Some((key, value)) = self.rest.next() {
            if self.q.is(key) {
                return Some(value);
            }
        }
        None
    }

    /// Nothing is counted ahead.
    fn size_hint(&self) -> (usize, Option<usize>) {
        (0, None)
    }
}

impl<'a, K: MapKey, V, Q: Probe<K> + Copy> DoubleEndedIterator for ValuesMut<'a, K, V, Q> {
    ghost next_back_gives = { YieldsLastMut (values_mut_rest Q.fits) };

    fn next_back(&mut self) -> Option<&'a mut V> {
        while let Some((key, value)) = self.rest.next_back() {
            if self.q.is(key) {
                return Some(value);
            }
        }
        None
    }
}

/// The values that `remove_all` took out, in list order. Seen as the list of those that are left;
/// the others are dropped with the walk.
#[derive(Drop)]
pub struct Removed<V> {
    values: vec::IntoIter<V>,
}

impl<V> Model for Removed<V> {
    ghost use Rattle.std.specs.Prelude.{List};
    ghost use Rattle.std.specs.Vec.Iter.{into_iter_items};

    ghost Value = { List V };

    ghost view = { λ it. into_iter_items it.values };
}

impl<V> Removed<V> {
    pub(crate) fn new(values: Vec<V>) -> Self
        ensures { result ≡ values.items }
    {
        Removed {
            values: values.into_iter(),
        }
    }
}

impl<V: Drop> Iterator for Removed<V> {
    type Item = V;

    ghost next_gives = { YieldsFirst (λ it. it) };

    ghost remaining = { item_count (λ it. it) };

    fn next(&mut self) -> Option<V> {
        self.values.next()
    }
}

impl<V: Drop> DoubleEndedIterator for Removed<V> {
    ghost next_back_gives = { YieldsLast (λ it. it) };

    fn next_back(&mut self) -> Option<V> {
        self.values.next_back()
    }
}
