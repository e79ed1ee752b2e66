//! The layers: documents in the order in which they were pushed. This file knows a document's look-up, and
//! leaves merging to `layering`.
ghost use Rattle.std.specs.Prelude.{◌≡◌, ◌==◌, [], ◌∷◌, ◌++◌, length};
ghost use Rattle.std.specs.Prelude.{IfErr, IfNone, IfOk, IfSome, IsOkUnless, IsSome, None, OnErr, OnOk};
ghost use Rattle.std.specs.Prelude.{alloc_error};
ghost use Rattle.std.specs.Option.{option_map};
ghost use Rattle.std.specs.Str.{chars};
ghost use Rattle.ini.specs.Texts.{str_name, str_text};
ghost use Rattle.ini.specs.Documents.{first_section};
ghost use Rattle.ini_layers.specs.Layers.{HasLayeredValues, IsOrigin, layered_value};
ghost use Rattle.ini_layers.specs.Layering.{merged};

use crate::iter::DocumentIter;
use crate::layering::merge_document;
use ini::{Error, Ini};
use std::alloc::Global;
use std::marker::Model;

/// What a refused `push` hands back.
#[derive(Debug, Drop)]
pub struct NoLayer {
    /// The document that was to go in.
    pub doc: Ini,
}

/// Documents in layers: of those that have a key, the last one's value counts.
#[derive(Debug, Drop)]
pub struct Layers {
    documents: Vec<Ini>,
    alloc: Global,
}

impl Model for Layers {
    ghost use Rattle.std.specs.Prelude.{List};
    ghost use Rattle.ini.specs.Documents.{Document};

    ghost Value = { List Document };

    ghost view = { λ layers. layers.documents.items };
}

impl Layers {
    /// No documents. Takes no memory.
    pub fn new(alloc: Global) -> Self
        ensures { result ≡ [] }
    {
        Layers {
            documents: Vec::new(alloc),
            alloc,
        }
    }

    /// The number of documents.
    pub fn len(&self) -> usize
        ensures { result ≡ length self.now }
    {
        self.documents.len()
    }

    /// Whether there are no documents.
    pub fn is_empty(&self) -> bool
        ensures { result ≡ (length self.now == 0) }
    {
        self.documents.is_empty()
    }

    /// The documents, in order.
    pub fn as_slice(&self) -> &[Ini]
        ensures { result.now ≡ self.now }
    {
        self.documents.as_slice()
    }

    /// Puts the document last, so that its values count before those of all others.
    ///
    /// Refused, only when out of memory, it hands the document back, and the layers stay as they were.
    pub fn push(&mut self, document: Ini) -> Result<(), NoLayer>
        ensures pushed { OnOk result (self.new ≡ self.old ++ document ∷ []) }
        ensures unchanged { OnErr result (self.new ≡ self.old) }
        ensures handed_back { IfErr result (λ refused. refused.doc ≡ document) }
    {
        match self.documents.push(document) {
            Ok(()) => Ok(()),
            Err(refused) => Err(NoLayer { doc: refused.value }),
        }
    }

    /// The value of the last document whose first section of the name has the key. Takes no memory.
    pub fn get_from(&self, name: Option<&str>, key: &str) -> Option<&str>
        ensures { option_map str_text result ≡ layered_value (str_name name.entry) (chars key.now) self.now }
    {
        for document in self.iter().rev() {
            if let Some(value) = document.get_from(name, key) {
                return Some(value);
            }
        }
        None
    }

    /// Which layer gives the value that `get_from` answers: its number, from 0, in the order in which layers
    /// were pushed. Takes no memory.
    pub fn origin(&self, name: Option<&str>, key: &str) -> Option<usize>
        ensures origin { IfSome result (IsOrigin (str_name name.entry) (chars key.now) self.now) }
        ensures none { IfNone result (layered_value (str_name name.entry) (chars key.now) self.now ≡ None) }
    {
        let mut number = self.documents.len();
        for document in self.iter().rev() {
            number -= 1;
            if document.get_from(name, key).is_some() {
                return Some(number);
            }
        }
        None
    }

    /// One document that answers `get_from` as the layers do, for every name and key.
    ///
    /// The general section comes first, and each other name where a document first has a pair in its first
    /// section of the name; each key where it first comes. A name whose first sections have no pairs is left
    /// out, the general one excepted, and each name and each key is there once. Refused when out of memory
    /// alone; the layers stay in any case.
    pub fn merged(&self) -> Result<Ini, Error>
        ensures values { IfOk result (HasLayeredValues self.now) }
        ensures document { IfOk result (λ document. document ≡ merged self.now) }
        ensures general { IfOk result (λ document. IsSome (first_section None document)) }
        ensures only_memory { IsOkUnless result (Error.Memory alloc_error) }
    {
        let mut merged = Ini::new(self.alloc)?;
        for document in self {
            merge_document(self.alloc, document, &mut merged)?;
        }
        Ok(merged)
    }

    /// Every document in order.
    pub fn iter(&self) -> DocumentIter<'_>
        ensures { result ≡ self.now }
    {
        DocumentIter::new(self.documents.as_slice())
    }
}

impl<'a> IntoIterator for &'a Layers {
    type Item = &'a Ini;

    type IntoIter = DocumentIter<'a>;

    ghost into_iter_gives = { λ layers it. it ≡ layers.now };

    fn into_iter(self) -> DocumentIter<'a> {
        self.iter()
    }
}
