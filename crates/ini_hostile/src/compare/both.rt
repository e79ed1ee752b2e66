//! A multimap and the plain list beside it: each call is made on both, and the replies are compared.
use super::TextKey;
use super::calls::{Call, expect_answer};
use super::list::PlainList;
use super::walks::{ORDERS, Order, same_values, same_walk};
use crate::show::{expect, text};
use ini_multimap::{Multimap, Probe};
use std::alloc::Global;
use std::mem;
use std::panic::Expect;
use std::process::Abort;

// The key of a text.
fn key<K: TextKey>(rt: &(impl Abort + AllocGlobal), of: &str) -> K {
    K::of_text(text(rt, of))
}

/// The two, which hold the same pairs.
#[derive(Drop)]
pub struct Both<K: TextKey> {
    map: Multimap<K, u32>,
    list: PlainList<K>,
}

impl<K: TextKey> Both<K> {
    /// No pairs.
    pub fn new(alloc: Global) -> Self {
        Both {
            map: Multimap::new(alloc),
            list: PlainList::new(alloc),
        }
    }

    /// Makes the call at the key of a text.
    pub fn call<'t>(&mut self, rt: &(impl Abort + AllocGlobal), call: Call, text: &'t str)
    where
        &'t str: Probe<K>,
    {
        let want = self.list.ask(rt, call, key(rt, text));
        expect_answer(rt, &mut self.map, call, text, want);
    }

    pub fn remove_all<'t>(&mut self, rt: &(impl Abort + AllocGlobal), text: &'t str)
    where
        &'t str: Probe<K>,
    {
        let key: K = key(rt, text);
        let places = self.list.places(&key).expect(rt, "memory");
        let removed = self.map.remove_all(text).expect(rt, "memory");
        same_walk(rt, Order::Front, removed, &self.list, places.as_slice());
        self.list.remove_past(&key, 0).expect(rt, "memory");
    }

    /// Writes each value of the key.
    pub fn set_all<'t>(&mut self, rt: &(impl Abort + AllocGlobal), text: &'t str, value: u32)
    where
        &'t str: Probe<K>,
    {
        let places = self.list.places(&key(rt, text)).expect(rt, "memory");
        let Both { map, list } = self;
        let mut values = map.get_all_mut(text);
        for at in places {
            let old = values.next().map(|place| mem::replace(place, value));
            let same = old.is_some() && list.set_at(at, value) == old;
            expect(rt, same, text, at);
        }
        expect(rt, values.next().is_none(), text, 0);
    }

    /// Asks for the key by its text, and walks over its values from each end.
    pub fn look_up<'t>(&mut self, rt: &(impl Abort + AllocGlobal), text: &'t str)
    where
        &'t str: Probe<K>,
    {
        self.call(rt, Call::Get, text);
        let same: K = key(rt, text);
        let places = self.list.places(&same).expect(rt, "memory");
        for order in ORDERS {
            same_values(rt, order, &self.map, text, &self.list, places.as_slice());
        }
    }

    /// Asks for the key by a key.
    pub fn look_up_key(&self, rt: &(impl Abort + AllocGlobal), text: &str) {
        let key: K = key(rt, text);
        let value = self.map.get(&key).copied();
        expect(rt, value == self.list.get(&key), text, 0);
    }

    /// Compares the numbers and the walks from each end.
    pub fn same_walks<'t>(&mut self, rt: &(impl Abort + AllocGlobal), text: &'t str)
    where
        &'t str: Probe<K>,
    {
        for call in [Call::LenPairs, Call::LenKeys, Call::IsEmpty] {
            self.call(rt, call, text);
        }
        let all = self.list.all_places().expect(rt, "memory");
        let keys = self.list.key_places().expect(rt, "memory");
        let Both { map, list } = self;
        for order in ORDERS {
            same_walk(rt, order, map.keys(), list, keys.as_slice());
            same_walk(rt, order, map.iter(), list, all.as_slice());
            same_walk(rt, order, map.iter_mut(), list, all.as_slice());
        }
    }

    /// Compares the pairs as they are handed out from both ends, which ends the two.
    pub fn same_items(self, rt: &impl Abort) {
        let Both { map, list } = self;
        let all = list.all_places().expect(rt, "memory");
        same_walk(
            rt,
            Order::BothInTurn,
            map.into_iter(),
            &list,
            all.as_slice(),
        );
    }
}
