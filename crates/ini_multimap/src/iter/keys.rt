//! The iterator over the distinct keys.
ghost use Rattle.std.specs.Prelude.{◌≡◌, ◌<◌, ◌^◌, length};
ghost use Rattle.std.specs.Iterator.{item_count, YieldsFirstRef, YieldsLastRef};
ghost use Rattle.ini_multimap.specs.Pairs.{distinct_keys};
ghost use Rattle.ini_multimap.specs.Slots.{pairs_of};

use crate::key::MapKey;
use crate::slots::Slots;
use std::marker::Model;

/// Each distinct key once, in the order of first occurrence, lent. Seen as the list of the keys
/// that are left.
#[derive(Drop)]
pub struct Keys<'a, K: MapKey, V> {
    slots: &'a Slots<K, V>,
    // The slots from `passed` up to `end` are left.
    passed: usize,
    end: usize,
}

impl<'a, K: MapKey, V> Model for Keys<'a, K, V> {
    ghost use Rattle.std.specs.Prelude.{List, ◌≤◌, length, take};
    ghost use Rattle.std.specs.Coded.{coded_list};

    ghost Value = { List K };

    ghost coded = { coded_list K.code };

    ghost use Rattle.ini_multimap.specs.Inside.Fits.{fresh_between};

    ghost view = { λ it. fresh_between K.eq it.slots.now it.passed it.end };

    ghost invariant = { λ it. (it.passed ≤ it.end) × (it.end ≤ length it.slots.now.keys) };
}

impl<'a, K: MapKey, V> Keys<'a, K, V> {
    pub(crate) fn new(slots: &'a Slots<K, V>) -> Self
        ensures keys { result ≡ distinct_keys K.eq (pairs_of slots.now) }
        ensures countable { length result < 2 ^ 64 }
    {
        Keys {
            slots,
            passed: slots.leading(),
            end: slots.len(),
        }
    }
}

impl<'a, K: MapKey, V> Iterator for Keys<'a, K, V> {
    type Item = &'a K;

    ghost next_gives = { YieldsFirstRef (λ it. it) };

    ghost remaining = { item_count (λ it. it) };

    fn next(&mut self) -> Option<&'a K> {
        while self.passed < self.end {
            let at = self.passed;
            self.passed += 1;
            if let Some(key) = self.slots.new_key(at) {
                return Some(key);
            }
        }
        None
    }

    /// Nothing is counted ahead.
    fn size_hint(&self) -> (usize, Option<usize>) {
        (0, None)
    }
}

impl<'a, K: MapKey, V> DoubleEndedIterator for Keys<'a, K, V> {
    ghost next_back_gives = { YieldsLastRef (λ it. it) };

    fn next_back(&mut self) -> Option<&'a K> {
        while self.passed < self.end {
            self.end -= 1;
            if let Some(key) = self.slots.new_key(self.end) {
                return Some(key);
            }
        }
        None
    }
}
