//! A text in pieces opened, copied out and closed. This file knows no piece.
ghost use Rattle.std.specs.Prelude.{◌≡◌, ◌∷◌, [], ◌≤◌, ◌↔◌, IfOk, IsOkUnless, IsSomeAnd, IsTrue, None, Some};
ghost use Rattle.std.specs.Prelude.{alloc_error, length, slice_get, take};
ghost use Rattle.std.specs.Option.{option_map};
ghost use Rattle.std.specs.Str.{IsUtf8, chars};
ghost use Rattle.ini.specs.Loading.{IfParse, IsNotUtf8, IsStopOf};
ghost use Rattle.ini_c.specs.Choices.{parse_option};
ghost use Rattle.ini_c.specs.Faults.{IsStopAt};
ghost use Rattle.ini_c.specs.Held.{pieces_kept, pieces_of};
ghost use Rattle.ini_c.specs.Statuses.{broken, is_among, no_document, no_memory, no_room, not_utf8, ok};
ghost use Rattle.ini_c.specs.Texts.{IsOpened, bytes_in};

use crate::copies::give;
use crate::document::{Kept, Text};
use crate::fault::{Fault, tell};
use crate::options::ReadChoice;
use crate::parts::Parts;
use crate::tied::Tied;
use crate::{BROKEN, NO_DOCUMENT, NO_MEMORY, NOT_UTF8, OK};
use ini::{Error, Ini, ParseOption};
use ini_edit::Source;
use std::alloc::{AllocError, Global};

// The text of bytes, which are copied, and its pieces, in a box.
fn opened(alloc: Global, bytes: &[u8], read: ParseOption) -> Result<Box<Kept>, Error>
    ensures text { IfOk result (λ kept. IsUtf8 bytes.now) }
    ensures pieces { IfOk result
        (λ kept. IsSomeAnd (pieces_kept kept.value) (IsOpened read (chars bytes.now))) }
    ensures fault { IfParse result (IsStopOf read (chars bytes.now)) }
    ensures fault_of_text { IfParse result (λ refused. IsUtf8 bytes.now) }
    ensures not_utf8 { IsNotUtf8 result ↔ ¬ (IsUtf8 bytes.now) }
{
    let Ok(text) = str::from_utf8(bytes) else {
        return Err(Error::NotUtf8);
    };
    let whole = Box::new(alloc, String::from_str(alloc, text)?)?;
    let room = Box::new(alloc, no_text(alloc, read)?)?;
    let document = Ini::new(alloc)?;
    let (tied, refused) = Tied::of(Parts::of(whole), Parts::of(room), read);
    if let Some(error) = refused {
        return Err(error);
    }
    let kept = Kept {
        document,
        text: Some(tied),
    };
    Ok(Box::new(alloc, kept)?)
}

// The pieces of no text.
fn no_text(alloc: Global, read: ParseOption) -> Result<Source<'static>, Error>
    ensures { IsOkUnless result (Error.Memory alloc_error) }
{
    match Source::read(alloc, "", read) {
        Ok(source) => Ok(source),
        Err(_) => Err(Error::Memory(AllocError)),
    }
}

// Opens a text in pieces, in place of the one that is open, or tells C of the fault.
pub(crate) fn open_into(
    alloc: Global,
    bytes: &[u8],
    read: ParseOption,
    text: &mut Text,
    fault: &mut Fault,
) -> u32
    ensures opened { result ≡ ok → IsSomeAnd (pieces_of text.new) (IsOpened read (chars bytes.now)) }
    ensures broken { result ≡ broken → IsStopAt read (chars bytes.now) fault.new }
    ensures not_utf8 { result ≡ not_utf8 ↔ ¬ (IsUtf8 bytes.now) }
    ensures statuses { IsTrue (is_among result (ok ∷ broken ∷ not_utf8 ∷ no_memory ∷ [])) }
    ensures unchanged { ¬ (result ≡ ok) → pieces_of text.new ≡ pieces_of text.old }
    ensures fault_stays { ¬ (result ≡ broken) → fault.new ≡ fault.old }
{
    match opened(alloc, bytes, read) {
        Ok(kept) => {
            text.put(alloc, kept);
            OK
        }
        Err(Error::Parse(refused)) => {
            tell(&refused, fault);
            BROKEN
        }
        Err(Error::NotUtf8) => NOT_UTF8,
        Err(_) => NO_MEMORY,
    }
}

/// Opens a text in pieces, in place of the one that is open: parsed once, and copied, so that the bytes may
/// go after the call.
///
/// `NOT_UTF8` if the bytes are no text, and else `BROKEN` where reading it stops: the fault tells kind,
/// line, column and message. Refused, for that or when out of memory, the text that is open stays.
#[unsafe(no_mangle)]
pub extern "C" fn bigrosk_ini_text_open(
    alloc: Global,
    bytes: &[u8],
    option: &ReadChoice,
    text: &mut Text,
    fault: &mut Fault,
) -> u32
    ensures opened { result ≡ ok → IsSomeAnd (pieces_of text.new)
        (IsOpened (parse_option option.now) (chars bytes.now)) }
    ensures broken { result ≡ broken → IsStopAt (parse_option option.now) (chars bytes.now) fault.new }
    ensures not_utf8 { result ≡ not_utf8 ↔ ¬ (IsUtf8 bytes.now) }
    ensures statuses { IsTrue (is_among result (ok ∷ broken ∷ not_utf8 ∷ no_memory ∷ [])) }
    ensures unchanged { ¬ (result ≡ ok) → pieces_of text.new ≡ pieces_of text.old }
    ensures fault_stays { ¬ (result ≡ broken) → fault.new ≡ fault.old }
{
    open_into(alloc, bytes, option.to_option(), text, fault)
}

/// Closes the text, which leaves none.
#[unsafe(no_mangle)]
pub extern "C" fn bigrosk_ini_text_close(alloc: Global, text: &mut Text)
    ensures { pieces_of text.new ≡ None }
{
    let _before = text.take(alloc);
}

/// Copies the text out, every byte that was not edited as it was opened, and a 0 after it. `count` is its
/// number of bytes, where it fits and where it doesn't.
#[unsafe(no_mangle)]
pub extern "C" fn bigrosk_ini_text_write(
    alloc: Global,
    text: &mut Text,
    out: &mut [u8],
    count: &mut usize,
) -> u32
    ensures stays { pieces_of text.new ≡ pieces_of text.old }
    ensures no_document { result ≡ no_document ↔ (pieces_of text.old ≡ None) }
    ensures text { result ≡ ok → bytes_in (pieces_of text.old) ≡ Some (take count.new out.new) }
    ensures zero { result ≡ ok → slice_get out.new count.new ≡ Some 0 }
    ensures count { result ≡ no_room → option_map length (bytes_in (pieces_of text.old)) ≡ Some count.new }
    ensures no_room { result ≡ no_room → length out.old ≤ count.new }
    ensures rest { ¬ (result ≡ ok) → out.new ≡ out.old }
    ensures statuses { IsTrue (is_among result (ok ∷ no_room ∷ no_memory ∷ no_document ∷ [])) }
{
    let Some(tied) = text.tied() else {
        return NO_DOCUMENT;
    };
    match tied.with(|source| source.to_text(alloc)) {
        Ok(text) => give(text.as_str(), out, count),
        Err(_) => NO_MEMORY,
    }
}
