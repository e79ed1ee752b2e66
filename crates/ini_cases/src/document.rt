//! A document that rows load, change and ask, by the public calls of `ini`.
//!
//! A row is a call and its operands: a name (`general`, or a text), a key, a value.
use crate::option::Options;
use crate::plain::count_plain;
use crate::show::{flag, load, nothing, pairs, sections, value, written};
use crate::token::{Token, text_of, unreadable};
use crate::view::is_same;
use crate::walk;
use ini::{
    Error, Ini, NoRoom, Properties, SectionEntry, is_plain_name, is_plain_pair, is_plain_separator,
};
use std::alloc::Global;
use std::mem;

/// A document, another one beside it, and the options that both are read and written by.
#[derive(Drop)]
pub struct Desk {
    alloc: Global,
    options: Options,
    document: Ini,
    other: Ini,
}

/// The name that a row has: `general`, or a text.
pub fn name_of(token: &Token) -> Result<Option<&str>, Error> {
    match token {
        Token::Word(word) if word.as_str() == "general" => Ok(None),
        token => Ok(Some(text_of(token)?)),
    }
}

// A name's bytes.
fn bytes_of(name: Option<&str>) -> Option<&[u8]> {
    match name {
        Some(name) => Some(name.as_bytes()),
        None => None,
    }
}

impl Desk {
    /// A new document, and the options.
    pub fn new(alloc: Global, options: Options) -> Result<Desk, Error> {
        Ok(Desk {
            alloc,
            options,
            document: Ini::new(alloc)?,
            other: Ini::new(alloc)?,
        })
    }

    /// Makes the call of a row, and answers what it gives; nothing where it gives nothing.
    pub fn answer(&mut self, row: &[Token]) -> Result<String, Error> {
        match row {
            [Token::Word(call), words @ ..] if call.as_str() == "by" => self.choose(words),
            [Token::Word(call)] => self.of_document(call.as_str()),
            [Token::Word(call), name] => self.of_section(call.as_str(), name_of(name)?),
            [Token::Word(call), name, key] => {
                self.of_key(call.as_str(), name_of(name)?, text_of(key)?)
            }
            [Token::Word(call), name, key, value] => {
                let (name, key, value) = (name_of(name)?, text_of(key)?, text_of(value)?);
                self.put(call.as_str(), name, key, value)
            }
            _ => Err(unreadable("no such call")),
        }
    }

    // The default options, but for those that the words name.
    fn choose(&mut self, words: &[Token]) -> Result<String, Error> {
        self.options = Options::new(self.alloc);
        for word in words {
            self.options.set(word)?;
        }
        Ok(String::new(self.alloc))
    }

    // The document, written and loaded again.
    fn reloaded(&self, following: &str) -> Result<String, Error> {
        let mut text = written(self.alloc, &self.document, self.options.writing())?;
        text.push_str(following)?;
        load(self.alloc, text.as_str(), self.options.reading)
    }

    fn is_plain(&self) -> bool {
        self.document
            .is_plain(&self.options.writing(), self.options.reading)
    }

    fn is_plain_separator(&self) -> bool {
        is_plain_separator(self.options.writing().kv_separator)
    }

    fn is_plain_name(&self, name: &str) -> bool {
        is_plain_name(
            name,
            self.options.writing().escape_policy,
            self.options.reading,
        )
    }

    fn is_plain_pair(&self, key: &str, value: &str) -> bool {
        let policy = self.options.writing().escape_policy;
        is_plain_pair(key, value, policy, self.options.reading)
    }

    // The number of names, whether there is no section, and the sections.
    fn state(&self) -> Result<String, Error> {
        let (names, empty) = (self.document.len(), self.document.is_empty());
        let sections = sections(self.alloc, &self.document)?;
        Ok(format!(in self.alloc; "{names} {empty} {sections}")?)
    }

    fn count_plain(&self) -> Result<String, Error> {
        let plain = count_plain(self.alloc, &self.document, &self.options.writing())?;
        Ok(format!(in self.alloc; "{plain}")?)
    }

    fn of_document(&mut self, call: &str) -> Result<String, Error> {
        let alloc = self.alloc;
        match call {
            "sections" => sections(alloc, &self.document),
            "state" => self.state(),
            "text" => written(alloc, &self.document, self.options.writing()),
            "reload" => self.reloaded(""),
            "is_plain" => flag(alloc, self.is_plain()),
            "is_plain_separator" => flag(alloc, self.is_plain_separator()),
            "count_plain" => self.count_plain(),
            "general_section" => general_section(alloc, &self.document),
            "name_all" => nothing(alloc, walk::name_all(&mut self.document)),
            "clear" => {
                self.document.clear();
                Ok(String::new(alloc))
            }
            "clone" => {
                self.other = self.document.clone()?;
                Ok(String::new(alloc))
            }
            "clone_by_trait" => {
                self.other = Clone::clone(&self.document)?;
                Ok(String::new(alloc))
            }
            "swap" => {
                mem::swap(&mut self.document, &mut self.other);
                Ok(String::new(alloc))
            }
            _ => Err(unreadable("no such call")),
        }
    }

    // A section's pairs, or `none`.
    fn shown(&self, section: Option<&Properties>) -> Result<String, Error> {
        match section {
            Some(section) => pairs(self.alloc, section),
            None => value(self.alloc, None),
        }
    }

    // The text becomes the document, if a view of it answers the same.
    fn load(&mut self, text: &str) -> Result<String, Error> {
        let answer = Ini::load_from_str_opt(self.alloc, text, self.options.reading);
        if !is_same(self.alloc, text, self.options.reading, &answer)? {
            return Err(unreadable("the view answers something else"));
        }
        self.document = answer?;
        Ok(String::new(self.alloc))
    }

    fn load_bom(&mut self, text: &str) -> Result<String, Error> {
        self.document = Ini::load_from_str_bom(self.alloc, text, self.options.reading)?;
        Ok(String::new(self.alloc))
    }

    fn delete(&mut self, name: Option<&str>) -> Result<String, Error> {
        let deleted = self.document.delete(name);
        self.shown(deleted.as_ref())
    }

    fn of_section(&mut self, call: &str, name: Option<&str>) -> Result<String, Error> {
        let (alloc, text) = (self.alloc, name.unwrap_or(""));
        match call {
            "load" => self.load(text),
            "load_bom" => self.load_bom(text),
            "reload" => self.reloaded(text),
            "section" => self.shown(self.document.section(name)),
            "section_by_bytes" => self.shown(self.document.section_by_bytes(bytes_of(name))),
            "delete" => self.delete(name),
            "delete_all" => {
                self.document.delete_all(name);
                Ok(String::new(alloc))
            }
            "make_general" => nothing(alloc, self.document.rename_section(name, None)),
            "iter" => walk::iter(alloc, &self.document, text),
            "into_iter" => walk::into_iter(alloc, &self.document, text),
            "iter_mut" => walk::iter_mut(alloc, &mut self.document, text),
            "names" => walk::names(alloc, &self.document, text),
            "counts" => walk::counts(alloc, &mut self.document, name),
            "is_plain_name" => flag(alloc, self.is_plain_name(text)),
            "entry" | "or_insert" | "or_insert_with" | "append" => self.enter(call, name, None),
            _ => Err(unreadable("no such call of a section")),
        }
    }

    fn key_of(&self, name: Option<&str>) -> Result<Option<String>, Error> {
        match name {
            Some(name) => Ok(Some(String::from_str(self.alloc, name)?)),
            None => Ok(None),
        }
    }

    // What an entry gives: whether it is occupied, or the pairs of the section that it lends, once the pair
    // is appended there.
    fn enter(
        &mut self,
        call: &str,
        name: Option<&str>,
        pair: Option<(&str, &str)>,
    ) -> Result<String, Error> {
        let alloc = self.alloc;
        let mut given = Properties::new(alloc);
        given.append("given", "1")?;
        let empty = Properties::new(alloc);
        let name = self.key_of(name)?;
        match (call, self.document.entry(name)) {
            ("or_insert", entry) => extended(alloc, entry.or_insert(given), pair),
            ("or_insert_with", entry) => {
                let lent = entry.or_insert_with(|| Properties::new(alloc));
                extended(alloc, lent, pair)
            }
            ("append", SectionEntry::Occupied(mut entry)) => {
                room(entry.append(empty))?;
                extended(alloc, Ok(entry.into_mut()), pair)
            }
            ("append", SectionEntry::Vacant(entry)) => extended(alloc, entry.insert(empty), pair),
            (_, SectionEntry::Occupied(_)) => flag(alloc, true),
            (_, SectionEntry::Vacant(_)) => flag(alloc, false),
        }
    }

    // The value that is taken out of a section; `none` where there is no such section.
    fn remove(&mut self, name: Option<&str>, key: &str) -> Result<String, Error> {
        match self.document.section_mut(name) {
            Some(section) => value(self.alloc, section.remove(key).as_deref()),
            None => value(self.alloc, None),
        }
    }

    fn get_by_bytes(&self, name: Option<&str>, key: &str) -> Result<String, Error> {
        let found = self.document.get_by_bytes(bytes_of(name), key.as_bytes());
        value(self.alloc, found)
    }

    fn of_key(&mut self, call: &str, name: Option<&str>, key: &str) -> Result<String, Error> {
        let (alloc, text) = (self.alloc, name.unwrap_or(""));
        match call {
            "get_from" => value(alloc, self.document.get_from(name, key)),
            "get_by_bytes" => self.get_by_bytes(name, key),
            "get_from_or" => value(alloc, Some(self.document.get_from_or(name, key, "d"))),
            "get" => value(alloc, self.document.with_section(name).get(key)),
            "index" => value(alloc, indexed(&self.document, name, key)),
            "index_by_text" => value(alloc, indexed_by_text(&self.document, text, key)),
            "section_all" => walk::section_all(alloc, &self.document, name, key),
            "section_all_mut" => walk::section_all_mut(alloc, &mut self.document, name, key),
            "is_plain_pair" => flag(alloc, self.is_plain_pair(text, key)),
            "delete_from" => value(alloc, self.document.delete_from(name, key).as_deref()),
            "remove" => self.remove(name, key),
            "rename_section" => nothing(alloc, self.document.rename_section(name, Some(key))),
            "delete" => {
                self.document.with_section(name).delete(key);
                Ok(String::new(alloc))
            }
            _ => Err(unreadable("no such call of a key")),
        }
    }

    fn put(
        &mut self,
        call: &str,
        name: Option<&str>,
        key: &str,
        value: &str,
    ) -> Result<String, Error> {
        let alloc = self.alloc;
        match call {
            "set_to" => nothing(alloc, self.set_to(name, key, value)),
            "set" => nothing(alloc, set_key(&mut self.document, name, key, value)),
            "add" => nothing(alloc, add_key(&mut self.document, name, key, value)),
            "rename_key_in" => nothing(alloc, self.document.rename_key_in(name, key, value)),
            "append_section" => nothing(alloc, self.append_section(name, key, value)),
            "pair" => self.only_pair(name, key, value),
            "push_str" => self.push_str(name, key, value),
            "or_insert" | "or_insert_with" | "append" => {
                self.enter(call, name, Some((key, value)))
            }
            _ => self.put_in_section(call, name, key, value),
        }
    }

    fn set_to(&mut self, name: Option<&str>, key: &str, value: &str) -> Result<(), Error> {
        let key = String::from_str(self.alloc, key)?;
        let value = String::from_str(self.alloc, value)?;
        self.document.set_to(name, key, value)
    }

    // Appends a section with this pair.
    fn append_section(&mut self, name: Option<&str>, key: &str, value: &str) -> Result<(), Error> {
        let name = self.key_of(name)?;
        let mut pairs = Properties::new(self.alloc);
        pairs.append(key, value)?;
        Ok(self.document.append_section(name, pairs)?)
    }

    // A document of this pair alone: whether it is plain, and what its text loads as.
    fn only_pair(&mut self, name: Option<&str>, key: &str, value: &str) -> Result<String, Error> {
        self.document = Ini::new(self.alloc)?;
        self.document.with_section(name).add(key, value)?;
        let plain = if self.is_plain() {
            "plain"
        } else {
            "not plain"
        };
        let shown = self.reloaded("")?;
        Ok(format!(in self.alloc; "{plain}, {shown}")?)
    }

    // Pushes the text to the value; `none` where it isn't lent.
    fn push_str(&mut self, name: Option<&str>, key: &str, text: &str) -> Result<String, Error> {
        let Some(lent) = self.document.get_from_mut(name, key) else {
            return value(self.alloc, None);
        };
        lent.push_str(text)?;
        Ok(String::new(self.alloc))
    }

    // Puts the pair by a reference to the section; `none` where it isn't lent.
    fn put_in_section(
        &mut self,
        call: &str,
        name: Option<&str>,
        key: &str,
        text: &str,
    ) -> Result<String, Error> {
        let (alloc, document) = (self.alloc, &mut self.document);
        let Some(section) = document.section_mut(name) else {
            return value(alloc, None);
        };
        match call {
            "insert_in" => nothing(alloc, section.insert(key, text)),
            "append_to" => nothing(alloc, section.append(key, text)),
            "insert_by_index" => nothing(alloc, put_by_index(document, name, key, text)),
            "insert_by_text" => {
                nothing(alloc, put_by_text(document, name.unwrap_or(""), key, text))
            }
            "insert_in_general" => nothing(alloc, put_in_general(document, key, text)),
            _ => Err(unreadable("no such call of a pair")),
        }
    }
}

/// Sets the key in the first section of the name, which is opened where there is none.
pub fn set_key(
    document: &mut Ini,
    name: Option<&str>,
    key: &str,
    value: &str,
) -> Result<(), Error> {
    document.with_section(name).set(key, value)?;
    Ok(())
}

/// Adds a pair to the first section of the name, which is opened where there is none.
pub fn add_key(
    document: &mut Ini,
    name: Option<&str>,
    key: &str,
    value: &str,
) -> Result<(), Error> {
    document.with_section(name).add(key, value)?;
    Ok(())
}

// The pairs of the section that an entry lent, once the pair is appended there.
fn extended(
    alloc: Global,
    lent: Result<&mut Properties, NoRoom>,
    pair: Option<(&str, &str)>,
) -> Result<String, Error> {
    let section = room(lent)?;
    if let Some((key, value)) = pair {
        section.append(key, value)?;
    }
    pairs(alloc, section)
}

fn room<T>(answer: Result<T, NoRoom>) -> Result<T, Error> {
    Ok(answer?)
}

// The value of the key in the section that an index by an optional name gives.
fn indexed<'a>(document: &'a Ini, name: Option<&str>, key: &str) -> Option<&'a str> {
    if document.section(name).is_some() {
        document[name].get(key)
    } else {
        None
    }
}

// The same by an index of a text.
fn indexed_by_text<'a>(document: &'a Ini, name: &str, key: &str) -> Option<&'a str> {
    if document.section(Some(name)).is_some() {
        document[name].get(key)
    } else {
        None
    }
}

fn put_by_index(
    document: &mut Ini,
    name: Option<&str>,
    key: &str,
    value: &str,
) -> Result<(), Error> {
    if document.section(name).is_some() {
        document[name].insert(key, value)?;
    }
    Ok(())
}

fn put_by_text(document: &mut Ini, name: &str, key: &str, value: &str) -> Result<(), Error> {
    if document.section(Some(name)).is_some() {
        document[name].insert(key, value)?;
    }
    Ok(())
}

fn put_in_general(document: &mut Ini, key: &str, value: &str) -> Result<(), Error> {
    if document.section(None).is_some() {
        document.general_section_mut().insert(key, value)?;
    }
    Ok(())
}

// The number of pairs of the general section; `none` where there is no such section.
fn general_section(alloc: Global, document: &Ini) -> Result<String, Error> {
    if document.section(None).is_some() {
        let count = document.general_section().len();
        Ok(format!(in alloc; "{count}")?)
    } else {
        value(alloc, None)
    }
}
