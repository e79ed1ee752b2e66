//! A box as a pointer that C keeps. This file knows how a box is parted, and not what it holds.
ghost use Rattle.std.specs.Prelude.{◌≡◌, Bool, true, false};
ghost use Rattle.ini_c.specs.declared.document.Kept.{Kept};
ghost use Rattle.ini_c.specs.Inside.Ownership.{held_or_closed, kept_coded};

use crate::document::Kept;
use crate::parts::Parts;
use std::alloc::Global;
use std::marker::{Model, Send};
use std::ptr;

/// A box, or none. It is no `Drop`: derived, that would forget the box, so that no code may let one go.
/// `into_box` and `end` use it up.
#[repr(C)]
pub struct Handle {
    at: *mut u8,
    alloc: Global,
    pub ghost is_open: { Bool },
    pub ghost value: { Kept } by { kept_coded },
}

impl Model for Handle {
    ghost also_owns = { λ h. held_or_closed h.is_open h.at h.alloc h.value };
}

// Between calls C may pass it to another thread: what it owns, a box of a document, may go there.
unsafe impl Send for Handle {}

impl Handle {
    ghost use Rattle.std.specs.Borrow.{sem};
    ghost use Rattle.ini_c.specs.Inside.Lent.{lends_kept};

    // No box.
    #[inline(always)]
    pub(crate) fn closed(alloc: Global) -> Handle
        ensures { result.is_open ≡ false }
    {
        Handle {
            at: ptr::null_mut(),
            alloc,
        }
    }

    // The box.
    #[inline(always)]
    pub(crate) fn of(kept: Box<Kept>) -> Handle
        ensures { (result.is_open ≡ true) × (result.value ≡ kept.value) }
    {
        Handle::of_parts(Parts::of(kept))
    }

    // The box again.
    #[inline(always)]
    pub(crate) fn into_box(self) -> Box<Kept>
        requires { self.is_open ≡ true }
        ensures { result.value ≡ self.value }
    {
        self.into_parts().into_box()
    }

    // Lets it go, where there is no box.
    #[inline(always)]
    pub(crate) fn end(self)
        requires { self.is_open ≡ false }
    {
        let Handle { at: _, alloc: _ } = self;
    }

    // What it keeps, lent.
    #[inline(always)]
    pub(crate) fn kept_mut(&mut self) -> &mut Kept
        requires { self.old.is_open ≡ true }
        ensures* writes_back { sem 𝓛 (lends_kept self.entry result) }
        ensures value { result.now ≡ self.old.value }
    {
        unsafe { &mut *(self.at as *mut Kept) }
    }

    #[inline(always)]
    fn of_parts(parts: Parts<Kept, Global>) -> Handle
        ensures { (result.is_open ≡ true) × (result.value ≡ parts.value) }
    {
        let Parts { at, alloc } = parts;
        Handle {
            at: at as *mut u8,
            alloc,
        }
    }

    #[inline(always)]
    fn into_parts(self) -> Parts<Kept, Global>
        requires { self.is_open ≡ true }
        ensures { result.value ≡ self.value }
    {
        let Handle { at, alloc } = self;
        Parts {
            at: at as *mut Kept,
            alloc,
        }
    }
}
