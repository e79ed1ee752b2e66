//! A document's text to C, and whether it loads back.
ghost use Rattle.std.specs.Prelude.{◌≡◌, ◌∷◌, [], ◌≤◌, IsTrue, Some, length, slice_get, take};
ghost use Rattle.ini_c.specs.Choices.{IsCountOf, IsTextOf, TellsPlain};
ghost use Rattle.ini_c.specs.Statuses.{is_among, no_memory, no_room, ok};

use crate::copies::copy_out;
use crate::options::WriteChoice;
use crate::{NO_MEMORY, NO_ROOM, OK};
use ini::{Ini, ParseOption};
use std::alloc::Global;

// Copies the document's text out, and a 0 after it.
pub(crate) fn write(
    alloc: Global,
    document: &Ini,
    choice: &WriteChoice,
    out: &mut [u8],
    count: &mut usize,
) -> u32
    ensures text { result ≡ ok → IsTextOf choice.now (Some document.now) (take count.new out.new) }
    ensures zero { result ≡ ok → slice_get out.new count.new ≡ Some 0 }
    ensures no_room { result ≡ no_room → length out.old ≤ count.new }
    ensures count { result ≡ no_room → IsCountOf choice.now (Some document.now) count.new }
    ensures stays { ¬ (result ≡ ok) → out.new ≡ out.old }
    ensures statuses { IsTrue (is_among result (ok ∷ no_room ∷ no_memory ∷ [])) }
{
    let mut text = Vec::new(alloc);
    if document
        .write_to_opt(&mut text, choice.to_option())
        .is_err()
    {
        return NO_MEMORY;
    }
    if copy_out(text.as_slice(), out, count) {
        OK
    } else {
        NO_ROOM
    }
}

// Whether the document, written by one option, loads by the other as it is.
pub(crate) fn is_plain(document: &Ini, choice: &WriteChoice, read: ParseOption) -> bool
    ensures { TellsPlain choice.now read result (Some document.now) }
{
    document.is_plain(&choice.to_option(), read)
}
