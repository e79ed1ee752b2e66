//! Calls on a multimap, one after another, so that what each asks of the memory can be counted.
//!
//! A question is steps, each with how often it is made, as `append 17 remove 3`. The answer is the question,
//! the number of the multimap's pairs, and of those that are found.

use ini::Error;
use ini_multimap::Multimap;
use std::alloc::{AllocError, Global};

/// A multimap, and how many keys were made for it.
#[derive(Drop)]
struct Pairs {
    alloc: Global,
    map: Multimap<String, u64>,
    made: u64,
}

impl Pairs {
    // A key that no pair has.
    fn new_key(&mut self) -> Result<String, AllocError> {
        self.made = self.made.wrapping_add(1);
        format!(in self.alloc; "{}", self.made)
    }

    // The first pair's key, or a new one.
    fn first_key(&mut self) -> Result<String, AllocError> {
        match self.map.keys().next() {
            Some(key) => key.clone(),
            None => self.new_key(),
        }
    }

    // Puts a pair last.
    fn append(&mut self, key: String) -> Result<(), AllocError> {
        match self.map.append(key, 7) {
            Ok(()) => Ok(()),
            Err(_) => Err(AllocError),
        }
    }

    // The same, without an index.
    fn append_unindexed(&mut self, key: String) -> Result<(), AllocError> {
        match self.map.append_unindexed(key, 7) {
            Ok(()) => Ok(()),
            Err(_) => Err(AllocError),
        }
    }

    // Inserts the pair.
    fn insert(&mut self, key: String) -> Result<(), AllocError> {
        match self.map.insert(key, 8) {
            Ok(_) => Ok(()),
            Err(_) => Err(AllocError),
        }
    }

    // Makes the step once.
    fn make(&mut self, step: &str) -> Result<(), AllocError> {
        match step {
            "append" => {
                let key = self.new_key()?;
                self.append(key)?;
            }
            "append_unindexed" => {
                let key = self.new_key()?;
                self.append_unindexed(key)?;
            }
            "append_again" => {
                let key = self.first_key()?;
                self.append_unindexed(key)?;
            }
            "insert" => {
                let key = self.new_key()?;
                self.insert(key)?;
            }
            "replace" => {
                let key = self.first_key()?;
                self.insert(key)?;
            }
            "remove" => {
                let key = self.first_key()?;
                let _ = self.map.remove(&key);
            }
            "key" => {
                let _ = self.new_key()?;
            }
            "first_key" => {
                let _ = self.first_key()?;
            }
            "make_index" => self.map.make_index()?,
            "shrink_to_fit" => self.map.shrink_to_fit(),
            "clone" => self.map = self.map.clone()?,
            _ => {}
        }
        Ok(())
    }

    // The number of pairs whose key is found.
    fn found(&self) -> usize {
        let mut found: usize = 0;
        for (key, _) in &self.map {
            if self.map.get(key).is_some() {
                found = found.wrapping_add(1);
            }
        }
        found
    }
}

// Makes the steps.
fn steps(alloc: Global, steps: &str) -> Result<Pairs, AllocError> {
    let mut pairs = Pairs {
        alloc,
        map: Multimap::new(alloc),
        made: 0,
    };
    let mut words = steps.split(' ');
    while let Some(step) = words.next() {
        let times: usize = words.next().unwrap_or("").parse().unwrap_or(1);
        for _ in 0..times {
            pairs.make(step)?;
        }
    }
    Ok(pairs)
}

/// The answer to a question, without a line end.
pub(crate) fn answer(alloc: Global, question: &str) -> Result<String, Error> {
    let pairs = steps(alloc, question)?;
    let (len, found) = (pairs.map.len_pairs(), pairs.found());
    Ok(format!(in alloc; "{question}: {len} {found}")?)
}
