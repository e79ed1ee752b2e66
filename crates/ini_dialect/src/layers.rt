//! Documents in layers under a rule: what they set, and one document of them. This file knows no text and no
//! byte.
ghost use Rattle.std.specs.Prelude.{◌≡◌, ◌++◌, IfOk, IsOkUnless, OnOk, alloc_error, map};
ghost use Rattle.ini.specs.Texts.{str_name};
ghost use Rattle.ini_edit.specs.Editings.{editing_of};
ghost use Rattle.ini_dialect.specs.RuledLayers.{all_set, settings_in_layers, settings_named_under};
ghost use Rattle.ini_dialect.specs.RuledLayers.{settings_under};

use crate::rule::Lookup;
use crate::walk::AnyDocument;
use ini::{Error, Ini};
use ini_edit::Edit;
use std::alloc::{AllocError, Global};

impl Lookup {
    /// One document of documents in layers. It has each key that is looked at in one of them, with the value
    /// that counts there, of several documents the last one's; spelled and placed as it first comes. Of
    /// sections without such a key the general one alone is there. Refused only when out of memory.
    ///
    /// Takes time in proportion to the square of sections and pairs, and for each pair a copy of the
    /// document so far.
    pub fn merged(self, alloc: Global, documents: &[Ini]) -> Result<Ini, Error>
        ensures merged { IfOk result (λ document. document
            ≡ all_set self (settings_in_layers self documents.now)) }
        ensures only { IsOkUnless result (Error.Memory alloc_error) }
    {
        let edits = self.settings(alloc, documents)?;
        self.all_set(alloc, edits.as_slice())
    }

    /// The edits that set what the documents give: of each in order, for each key that is looked at, as the
    /// rule tells keys and sections apart, the value that counts. Refused when out of memory.
    pub fn settings<'a>(
        self,
        alloc: Global,
        documents: &'a [Ini],
    ) -> Result<Vec<Edit<'a>>, AllocError>
        ensures { IfOk result (λ edits. map editing_of edits.items ≡ settings_in_layers self documents.now) }
    {
        let mut edits = Vec::new(alloc);
        for document in documents {
            self.push_document(alloc, &mut edits, document)?;
        }
        Ok(edits)
    }

    // The document in which the edits set what they set, one after another.
    fn all_set(self, alloc: Global, edits: &[Edit<'_>]) -> Result<Ini, Error>
        ensures set { IfOk result (λ document. document ≡ all_set self (map editing_of edits.now)) }
        ensures only { IsOkUnless result (Error.Memory alloc_error) }
    {
        let mut document = Ini::new(alloc)?;
        for edit in edits {
            if let Edit::Set { name, key, value } = *edit {
                self.set(alloc, &mut document, name, key, value)?;
            }
        }
        Ok(document)
    }

    // Puts the edits of a document last.
    fn push_document<'a>(
        self,
        alloc: Global,
        edits: &mut Vec<Edit<'a>>,
        document: &'a Ini,
    ) -> Result<(), AllocError>
        ensures { OnOk result (map editing_of edits.new.items
            ≡ map editing_of edits.old.items ++ settings_under self document.now) }
    {
        let found = self.sections(alloc, AnyDocument::Ini(document))?;
        let names = found.as_slice();
        for name in names {
            self.push_section(alloc, edits, document, *name)?;
        }
        Ok(())
    }

    // Puts the edits of a section last.
    fn push_section<'a>(
        self,
        alloc: Global,
        edits: &mut Vec<Edit<'a>>,
        document: &'a Ini,
        name: Option<&'a str>,
    ) -> Result<(), AllocError>
        ensures { OnOk result (map editing_of edits.new.items ≡ map editing_of edits.old.items
            ++ settings_named_under self document.now (str_name name.entry)) }
    {
        let found = self.keys(alloc, AnyDocument::Ini(document), name)?;
        let keys = found.as_slice();
        for key in keys {
            let key = *key;
            let value = self.get_or_empty(AnyDocument::Ini(document), name, key);
            edits.push(Edit::Set { name, key, value })?;
        }
        Ok(())
    }
}
