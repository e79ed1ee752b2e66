//! Room for a pair's parts in memory of their own. This file knows no part.
ghost use Rattle.std.specs.Prelude.{◌≡◌, IfOk, IsOkUnless, alloc_error};

use crate::source::pair::own::PairParts;
use ini_text::Error;
use std::alloc::{AllocError, Global};
use std::marker::Model;
use std::mem;

/// The parts of a pair in memory of their own: a list of one, whose lifetime may be made shorter, as that
/// of a box may not.
#[derive(Debug, Drop)]
pub(crate) struct KeptParts<'a> {
    list: Vec<PairParts<'a>>,
}

impl<'a> Model for KeptParts<'a> {
    ghost use Rattle.std.specs.Prelude.{◌≡◌, length};
    ghost use Rattle.ini_edit.specs.Inside.KeptPieces.{only_piece};
    ghost use Rattle.ini_edit.specs.Sources.{PairPiece};

    ghost Value = { PairPiece };

    ghost view = { λ k. only_piece k.list.items };

    ghost invariant = { λ k. length k.list.items ≡ 1 };
}

impl<'a> KeptParts<'a> {
    /// These parts.
    pub(crate) fn new(alloc: Global, parts: PairParts<'a>) -> Result<Self, Error>
        ensures kept { IfOk result (λ kept. kept ≡ parts.entry) }
        ensures only { IsOkUnless result (Error.Memory alloc_error) }
    {
        let mut list = Vec::with_capacity(alloc, 1)?;
        list.push(parts).map_err(AllocError::from)?;
        Ok(KeptParts { list })
    }

    /// Room for the parts of a pair that has none.
    pub(crate) fn room(alloc: Global) -> Result<Self, Error>
        ensures only { IsOkUnless result (Error.Memory alloc_error) }
    {
        KeptParts::new(alloc, PairParts::nothing())
    }

    pub(crate) fn parts(&self) -> &PairParts<'a>
        ensures { result.now ≡ self.now }
    {
        &self.list[0]
    }

    /// The parts, and the room that they were in.
    pub(crate) fn parted(self) -> (PairParts<'a>, KeptParts<'a>)
        ensures { result.0 ≡ self.entry }
    {
        let mut room = self;
        let parts = mem::replace(&mut room.list[0], PairParts::nothing());
        (parts, room)
    }

    /// These parts in place of those that are in the room.
    pub(crate) fn with(self, parts: PairParts<'a>) -> KeptParts<'a>
        ensures { result ≡ parts.entry }
    {
        let mut room = self;
        room.list[0] = parts;
        room
    }
}
