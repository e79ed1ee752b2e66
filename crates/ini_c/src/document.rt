//! What C keeps between calls: a document or a text in pieces, in a box, or none.
ghost use Rattle.std.specs.Prelude.{◌≡◌};

use crate::handle::Handle;
use crate::tied::Tied;
use ini::Ini;

/// What a handle keeps: a document, beside no text, or a text and its pieces, beside a document without
/// pairs.
#[derive(Drop)]
pub struct Kept {
    pub document: Ini,
    pub text: Option<Tied>,
}

/// A document that stays loaded between calls, or none.
#[repr(C)]
pub struct Document {
    pub(crate) is_open: bool,
    pub(crate) handle: Handle,
    pub ghost agrees: { handle.is_open ≡ is_open },
}

/// A text in pieces that stays open between calls, or none.
#[repr(C)]
pub struct Text {
    pub(crate) is_open: bool,
    pub(crate) handle: Handle,
    pub ghost agrees: { handle.is_open ≡ is_open },
}
