//! The calls on a document, by the texts that name its parts.
use ini::{Error, Ini, ParseOption, WriteOption};
use ini_layers::{Layers, NoLayer};
use std::alloc::{AllocError, Global};

/// The document as the only layer.
pub(crate) fn layers_of(alloc: Global, document: Ini) -> Result<Layers, Error> {
    let mut layers = Layers::new(alloc);
    match layers.push(document) {
        Ok(()) => Ok(layers),
        Err(NoLayer { doc: _ }) => Err(Error::Memory(AllocError)),
    }
}

/// The texts of a document, and after them those that it doesn't have.
#[derive(Drop)]
pub(crate) struct Names {
    alloc: Global,
    // Whether each text names a section, and not a key of one section.
    has_sections: bool,
    texts: Vec<String>,
}

impl Names {
    /// So many texts.
    pub(crate) fn new(alloc: Global, has_sections: bool, len: usize) -> Result<Names, AllocError> {
        let mut texts = Vec::new(alloc);
        for number in 0..len {
            texts.push(format!(in alloc; "the name {number}")?)?;
        }
        Ok(Names {
            alloc,
            has_sections,
            texts,
        })
    }

    // The section and the key that have the number.
    fn place(&self, number: usize) -> (&str, &str) {
        let text = match self.texts.get(number) {
            Some(text) => text.as_str(),
            None => "",
        };
        if self.has_sections {
            (text, "key")
        } else {
            ("one", text)
        }
    }

    fn own(&self, text: &str) -> Result<String, AllocError> {
        String::from_str(self.alloc, text)
    }

    /// Sets a value at the number.
    pub(crate) fn set(&self, document: &mut Ini, number: usize) -> Result<usize, Error> {
        let (section, key) = self.place(number);
        let (key, value) = (self.own(key)?, self.own("its value")?);
        document.set_to(Some(section), key, value)?;
        Ok(0)
    }

    // Appends a pair to the section: a new key, where one section holds the keys, else the key again.
    fn append(&self, document: &mut Ini, there: usize, new: usize) -> Result<usize, Error> {
        let section = self.place(there).0;
        let key = self.place(new).1;
        match document.section_mut(Some(section)) {
            Some(pairs) => pairs.append(key, "more")?,
            None => {}
        }
        Ok(0)
    }

    fn set_by_setter(&self, document: &mut Ini, number: usize) -> Result<usize, Error> {
        let (section, key) = self.place(number);
        document.with_section(Some(section)).set(key, "set")?;
        Ok(0)
    }

    /// What the layers have at the number: the length of the value.
    pub(crate) fn layered(&self, layers: &Layers, number: usize) -> usize {
        let (section, key) = self.place(number);
        layers
            .get_from(Some(section), key)
            .map_or(0, |value| value.len())
    }

    /// Makes one call at a number that is there, or at one that is new, and answers the length of what it
    /// gives.
    pub(crate) fn call(
        &self,
        document: &mut Ini,
        call: &str,
        there: usize,
        new: usize,
    ) -> Result<usize, Error> {
        let (section, key) = self.place(there);
        match call {
            "get_from" => Ok(document.get_from(Some(section), key).map_or(0, |v| v.len())),
            "delete_from" => Ok(
                document
                    .delete_from(Some(section), key)
                    .map_or(0, |v| v.len()),
            ),
            "section" => Ok(document.section(Some(section)).is_some() as usize),
            "len" if self.has_sections => Ok(document.len()),
            "len" => Ok(document.section(Some(section)).map_or(0, |s| s.len())),
            "sections" => Ok(document.sections().count()),
            "is_plain" => {
                let plain = document.is_plain(&WriteOption::default(), ParseOption::default());
                Ok(plain as usize)
            }
            "clone" => Ok(document.clone()?.len()),
            "merged" => Ok(layers_of(self.alloc, document.clone()?)?.merged()?.len()),
            "delete" => {
                let _ = document.with_section(Some(section)).delete(key);
                Ok(0)
            }
            "set_there" => self.set(document, there),
            "set_new" => self.set(document, new),
            "append" => self.append(document, there, new),
            "setter" => self.set_by_setter(document, there),
            _ => Ok(0),
        }
    }
}
