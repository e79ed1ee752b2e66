//! A text in pieces is lent for a call, taken out, or put in.
ghost use Rattle.std.specs.Prelude.{◌≡◌, Some, None, false};
ghost use Rattle.std.specs.Borrow.{sem};
ghost use Rattle.std.specs.Option.{option_copied, option_map};
ghost use Rattle.ini_c.specs.Held.{pieces_kept, pieces_of};
ghost use Rattle.ini_c.specs.Loans.{text_stays};
ghost use Rattle.ini_c.specs.Inside.Lent.{lends_text};
ghost use Rattle.ini_c.specs.Inside.Taken.{kept_text};

use crate::document::{Kept, Text};
use crate::handle::Handle;
use crate::tied::Tied;
use std::alloc::Global;
use std::mem;

impl Text {
    // The text that is open, with its pieces.
    #[inline(always)]
    pub(crate) fn tied(&mut self) -> Option<&mut Tied>
        ensures* writes_back { sem 𝓛 (lends_text self.entry result) }
        ensures text { option_map (λ tied. tied.now.value) result ≡ pieces_of self.old }
    {
        if !self.is_open {
            return None;
        }
        match &mut self.handle.kept_mut().text {
            Some(tied) => Some(tied),
            None => None,
        }
    }

    // Takes the text out, which leaves none.
    #[inline(always)]
    pub(crate) fn take(&mut self, alloc: Global) -> Option<Box<Kept>>
        ensures closed { self.new.is_open ≡ false }
        ensures left { pieces_of self.new ≡ None }
        ensures taken { kept_text result ≡ pieces_of self.old }
    {
        if !self.is_open {
            return None;
        }
        let Text { is_open: _, handle } = mem::replace(
            self,
            Text {
                is_open: false,
                handle: Handle::closed(alloc),
            },
        );
        Some(handle.into_box())
    }

    // Puts a text in, in place of the one that is here, which is freed.
    #[inline(always)]
    pub(crate) fn put(&mut self, alloc: Global, kept: Box<Kept>)
        ensures { pieces_of self.new ≡ pieces_kept kept.value }
    {
        let _before = self.take(alloc);
        let Text { is_open: _, handle } = mem::replace(
            self,
            Text {
                is_open: true,
                handle: Handle::of(kept),
            },
        );
        handle.end();
    }
}
