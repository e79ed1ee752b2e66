//! Properties that rows change and ask, by the public calls of `ini`.
//!
//! A row is a call and its operands: a key, a value; or the ends that a walk goes by, a letter a step: `f`
//! from the front and `b` from the back.
use crate::show::{flag, nothing, pairs, put, value};
use crate::token::{Token, text_of, unreadable};
use crate::walk::step;
use ini::{Error, Properties};
use std::alloc::Global;
use std::mem;

/// Properties, and others beside them.
#[derive(Drop)]
pub struct List {
    alloc: Global,
    properties: Properties,
    other: Properties,
}

impl List {
    /// No pairs.
    pub fn new(alloc: Global) -> List {
        List {
            alloc,
            properties: Properties::new(alloc),
            other: Properties::new(alloc),
        }
    }

    /// Makes the call of a row, and answers what it gives; nothing where it gives nothing.
    pub fn answer(&mut self, row: &[Token]) -> Result<String, Error> {
        match row {
            [Token::Word(call)] => self.of_all(call.as_str()),
            [Token::Word(call), key] => self.of_key(call.as_str(), text_of(key)?),
            [Token::Word(call), key, value] => {
                self.of_pair(call.as_str(), text_of(key)?, text_of(value)?)
            }
            _ => Err(unreadable("no such call")),
        }
    }

    // The number of keys, whether there is no pair, and the pairs.
    fn state(&self) -> Result<String, Error> {
        let (keys, empty) = (self.properties.len(), self.properties.is_empty());
        let pairs = pairs(self.alloc, &self.properties)?;
        Ok(format!(in self.alloc; "{keys} {empty}{pairs}")?)
    }

    fn of_all(&mut self, call: &str) -> Result<String, Error> {
        let alloc = self.alloc;
        match call {
            "state" => self.state(),
            "pairs" => pairs(alloc, &self.properties),
            "equals" => flag(alloc, self.properties == self.other),
            "clone" => {
                self.other = self.properties.clone()?;
                Ok(String::new(alloc))
            }
            "clone_by_trait" => {
                self.other = Clone::clone(&self.properties)?;
                Ok(String::new(alloc))
            }
            "new" => {
                self.properties = Properties::new(alloc);
                Ok(String::new(alloc))
            }
            "swap" => {
                mem::swap(&mut self.properties, &mut self.other);
                Ok(String::new(alloc))
            }
            _ => Err(unreadable("no such call")),
        }
    }

    fn of_key(&mut self, call: &str, key: &str) -> Result<String, Error> {
        let alloc = self.alloc;
        match call {
            "get" => value(alloc, self.properties.get(key)),
            "contains_key" => flag(alloc, self.properties.contains_key(key)),
            "index" => value(alloc, indexed(&self.properties, key)),
            "remove" => value(alloc, self.properties.remove(key).as_deref()),
            "iter" => self.walk(key),
            "iter_mut" => self.clear_values(key),
            "into_iter" => self.hand_out(key),
            "counts" => self.counts(key),
            "push_to_all" => self.push_to_all(key),
            _ => Err(unreadable("no such call of a key")),
        }
    }

    fn of_pair(&mut self, call: &str, key: &str, value: &str) -> Result<String, Error> {
        match call {
            "append" => nothing(self.alloc, self.properties.append(key, value)),
            "insert" => nothing(self.alloc, self.properties.insert(key, value)),
            "get_all" => self.values(key, value),
            "remove_all" => self.removed(key, value),
            _ => Err(unreadable("no such call of a pair")),
        }
    }

    // What a walk gives at each end, and how many pairs are left.
    fn walk(&self, ends: &str) -> Result<String, Error> {
        let mut out = String::new(self.alloc);
        let mut walk = self.properties.iter();
        for end in ends.chars() {
            let given = step(&mut walk, end);
            let (key, value) = given.unwrap_or(("", "none"));
            put(&mut out, &[key, value, " "])?;
        }
        push_left(&mut out, self.alloc, walk.size_hint())?;
        Ok(out)
    }

    // The same of a walk that hands the pairs of a copy out.
    fn hand_out(&self, ends: &str) -> Result<String, Error> {
        let mut out = String::new(self.alloc);
        let mut walk = self.properties.clone()?.into_iter();
        for end in ends.chars() {
            let given = step(&mut walk, end);
            put_handed_out(&mut out, given)?;
        }
        push_left(&mut out, self.alloc, walk.size_hint())?;
        Ok(out)
    }

    // The same of the values of a key.
    fn values(&self, key: &str, ends: &str) -> Result<String, Error> {
        let mut out = String::new(self.alloc);
        let mut walk = self.properties.get_all(key);
        for end in ends.chars() {
            let given = step(&mut walk, end);
            put(&mut out, &[given.unwrap_or("none"), " "])?;
        }
        Ok(out)
    }

    // The same of the values that are removed.
    fn removed(&mut self, key: &str, ends: &str) -> Result<String, Error> {
        let mut out = String::new(self.alloc);
        let mut walk = self.properties.remove_all(key)?;
        for end in ends.chars() {
            let given = step(&mut walk, end);
            put(&mut out, &[given.as_deref().unwrap_or("none"), " "])?;
        }
        Ok(out)
    }

    // How many values of a key there are, and how many are removed, by the walks over both.
    fn counts(&mut self, key: &str) -> Result<String, Error> {
        let there = self.properties.get_all(key).count();
        let removed = self.properties.remove_all(key)?.count();
        Ok(format!(in self.alloc; "{there} {removed}")?)
    }

    // Clears the values that a walk lends; answers their keys, and how many pairs are left of it.
    fn clear_values(&mut self, ends: &str) -> Result<String, Error> {
        let mut out = String::new(self.alloc);
        let mut walk = self.properties.iter_mut();
        for end in ends.chars() {
            let lent = step(&mut walk, end);
            if let Some((key, value)) = lent {
                value.clear();
                out.push_str(key)?;
                out.push(' ')?;
            }
        }
        push_left(&mut out, self.alloc, walk.size_hint())?;
        Ok(out)
    }

    // Pushes each key and the text to the key's values.
    fn push_to_all(&mut self, text: &str) -> Result<String, Error> {
        for (key, value) in &mut self.properties {
            put(value, &[key, text])?;
        }
        Ok(String::new(self.alloc))
    }
}

// Puts the pair that is handed out last, or `none`.
fn put_handed_out(out: &mut String, pair: Option<(String, String)>) -> Result<(), Error> {
    match pair {
        Some((key, value)) => put(out, &[key.as_str(), value.as_str(), " "]),
        None => put(out, &["none "]),
    }
}

// How many pairs are left of a walk, and whether its hint is exact.
fn push_left(
    out: &mut String,
    alloc: Global,
    (least, most): (usize, Option<usize>),
) -> Result<(), Error> {
    let left = format!(in alloc; "{least} {}", most == Some(least))?;
    out.push_str(left.as_str())?;
    Ok(())
}

fn indexed<'a>(properties: &'a Properties, key: &str) -> Option<&'a str> {
    if properties.contains_key(key) {
        Some(properties[key].as_str())
    } else {
        None
    }
}
