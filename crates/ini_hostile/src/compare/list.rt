//! The reference: the pairs in one plain list, where each call goes over all of them.
ghost use Rattle.std.specs.Prelude.{◌≡◌, ◌++◌, ◌∷◌, [], OnOk};
ghost use Rattle.std.specs.List.{position};

use super::TextKey;
use super::calls::{Call, number};
use ini_multimap::MapKey;
use std::alloc::{AllocError, Global};
use std::marker::Model;
use std::mem;
use std::panic::Expect;
use std::process::Abort;

/// Pairs of a key and a number in the order of insertion. Seen as the list of its pairs.
#[derive(Drop)]
pub struct PlainList<K> {
    pairs: Vec<(K, u32)>,
}

impl<K> Model for PlainList<K> {
    ghost use Rattle.std.specs.Prelude.{List, ℕ};

    ghost Value = { List (K × ℕ) };

    ghost view = { λ l. l.pairs.items };
}

impl<K: MapKey + Drop> PlainList<K> {
    /// No pairs.
    pub fn new(alloc: Global) -> Self
        ensures { result ≡ [] }
    {
        PlainList {
            pairs: Vec::new(alloc),
        }
    }

    /// Puts the pair last.
    pub fn append(&mut self, key: K, value: u32) -> Result<(), AllocError>
        ensures { OnOk result (self.new ≡ self.old ++ (key, value) ∷ []) }
    {
        match self.pairs.push((key, value)) {
            Ok(()) => Ok(()),
            Err(_) => Err(AllocError),
        }
    }

    /// Where the first pair of the key stands.
    pub fn find(&self, key: &K) -> Option<usize>
        ensures { result ≡ position (λ p. K.eq key.now p.0) self.now }
    {
        self.pairs.iter().position(|pair| *key == pair.0)
    }

    /// The first value of the key.
    pub fn get(&self, key: &K) -> Option<u32> {
        let at = self.find(key)?;
        Some(self.pairs[at].1)
    }

    /// Where the pairs of the key stand.
    pub fn places(&self, key: &K) -> Result<Vec<usize>, AllocError> {
        let mut places = Vec::new(*self.pairs.allocator());
        for (at, (k, _)) in self.pairs.iter().enumerate() {
            if *k == *key {
                places.push(at)?;
            }
        }
        Ok(places)
    }

    /// Where the pairs stand whose keys are equal to none before them.
    pub fn key_places(&self) -> Result<Vec<usize>, AllocError> {
        let mut places = Vec::new(*self.pairs.allocator());
        for (at, (key, _)) in self.pairs.iter().enumerate() {
            if self.find(key) == Some(at) {
                places.push(at)?;
            }
        }
        Ok(places)
    }

    /// Where all pairs stand.
    pub fn all_places(&self) -> Result<Vec<usize>, AllocError> {
        let mut places = Vec::new(*self.pairs.allocator());
        for at in 0..self.pairs.len() {
            places.push(at)?;
        }
        Ok(places)
    }

    /// Sets the value of the pair at `at`, where there is one.
    pub fn set_at(&mut self, at: usize, value: u32) -> Option<u32> {
        let pair = self.pairs.get_mut(at)?;
        Some(mem::replace(&mut pair.1, value))
    }

    /// Sets the value of the key's first pair and takes out its later ones, or puts the pair last.
    pub fn insert(&mut self, key: K, value: u32) -> Result<Option<u32>, AllocError> {
        match self.find(&key) {
            None => {
                self.append(key, value)?;
                Ok(None)
            }
            Some(at) => {
                let old = self.set_at(at, value);
                self.remove_past(&key, 1)?;
                Ok(old)
            }
        }
    }

    /// Takes out the first pair of the key, and hands out its value.
    pub fn remove(&mut self, key: &K) -> Option<u32> {
        let at = self.find(key)?;
        Some(self.pairs.remove(at).1)
    }

    /// Takes out the pairs of the key but for the first `kept`.
    pub fn remove_past(&mut self, key: &K, kept: usize) -> Result<(), AllocError> {
        let alloc = *self.pairs.allocator();
        let mut seen: usize = 0;
        for (k, value) in mem::replace(&mut self.pairs, Vec::new(alloc)) {
            if k == *key {
                seen = seen.saturating_add(1);
            }
            if k != *key || seen <= kept {
                self.append(k, value)?;
            }
        }
        Ok(())
    }

    // Sets the value of the key's pair number `n`, and answers the old one.
    fn set_nth(&mut self, rt: &impl Abort, key: &K, n: usize, value: u32) -> Option<u32> {
        let places = self.places(key).expect(rt, "memory");
        match places.get(n) {
            Some(at) => self.set_at(*at, value),
            None => None,
        }
    }

    /// Answers the call as the multimap is to answer it.
    pub fn ask(&mut self, rt: &impl Abort, call: Call, key: K) -> Option<usize> {
        match call {
            Call::Append(value) | Call::AppendUnindexed(value) => {
                self.append(key, value).expect(rt, "memory");
                Some(0)
            }
            Call::MakeIndex => Some(0),
            Call::Insert(value) => number(self.insert(key, value).expect(rt, "memory")),
            Call::Remove => number(self.remove(&key)),
            Call::Get => number(self.get(&key)),
            Call::SetFirst(value) => number(self.set_nth(rt, &key, 0, value)),
            Call::SetNth(n, value) => number(self.set_nth(rt, &key, n, value)),
            Call::SetLast(value) => {
                let last = self.pairs.len().saturating_sub(1);
                number(self.set_at(last, value))
            }
            Call::LenPairs => Some(self.pairs.len()),
            Call::LenKeys => Some(self.key_places().expect(rt, "memory").len()),
            Call::IsEmpty => Some(usize::from(self.pairs.is_empty())),
            Call::Clear => {
                self.pairs.clear();
                Some(0)
            }
        }
    }
}

impl<K: TextKey> PlainList<K> {
    /// The text of the key and the value of the pair at `at`, where there is one.
    pub fn reported(&self, at: usize) -> Option<(&str, u32)> {
        match self.pairs.get(at) {
            Some((key, value)) => Some((key.text(), *value)),
            None => None,
        }
    }
}
