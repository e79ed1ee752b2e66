//! A document is lent for a call, taken out, or put in.
ghost use Rattle.std.specs.Prelude.{◌≡◌, Some, None};
ghost use Rattle.std.specs.Borrow.{sem};
ghost use Rattle.std.specs.Option.{option_copied, option_map};
ghost use Rattle.ini_c.specs.Held.{document_in};
ghost use Rattle.ini_c.specs.Loans.{document_stays};
ghost use Rattle.ini_c.specs.Inside.Lent.{lends_document};
ghost use Rattle.ini_c.specs.Inside.Taken.{kept_document};

use crate::document::{Document, Kept};
use crate::handle::Handle;
use ini::Ini;
use std::alloc::Global;
use std::mem;

impl Document {
    // The document that is loaded.
    #[inline(always)]
    pub(crate) fn loaded(&mut self) -> Option<&Ini>
        ensures* stays { sem 𝓛 (document_stays self.entry) }
        ensures document { option_copied result ≡ document_in self.old }
    {
        if self.is_open {
            Some(&self.handle.kept_mut().document)
        } else {
            None
        }
    }

    // The same, for writing.
    #[inline(always)]
    pub(crate) fn loaded_mut(&mut self) -> Option<&mut Ini>
        ensures* writes_back { sem 𝓛 (lends_document self.entry result) }
        ensures document { option_map (λ document. document.now) result ≡ document_in self.old }
    {
        if self.is_open {
            Some(&mut self.handle.kept_mut().document)
        } else {
            None
        }
    }

    // Takes the document out, which leaves none.
    #[inline(always)]
    pub(crate) fn take(&mut self, alloc: Global) -> Option<Box<Kept>>
        ensures left { document_in self.new ≡ None }
        ensures taken { kept_document result ≡ document_in self.old }
    {
        if !self.is_open {
            return None;
        }
        let Document { is_open: _, handle } = mem::replace(
            self,
            Document {
                is_open: false,
                handle: Handle::closed(alloc),
            },
        );
        Some(handle.into_box())
    }

    // Puts a document in, in place of the one that is here, which is freed.
    #[inline(always)]
    pub(crate) fn put(&mut self, alloc: Global, kept: Box<Kept>)
        ensures { document_in self.new ≡ Some kept.value.document }
    {
        let _before = self.take(alloc);
        let Document { is_open: _, handle } = mem::replace(
            self,
            Document {
                is_open: true,
                handle: Handle::of(kept),
            },
        );
        handle.end();
    }
}
