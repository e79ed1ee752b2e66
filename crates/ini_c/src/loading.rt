//! Loading: bytes in, a document kept, or a fault reported. This file knows no character.
ghost use Rattle.std.specs.Prelude.{◌≡◌, ◌∷◌, [], ◌↔◌, IsTrue, IsSomeAnd, IfOk};
ghost use Rattle.std.specs.Str.{IsUtf8, chars};
ghost use Rattle.ini.specs.Loading.{IsDocumentOf, IsStopOf, IfParse, IsNotUtf8};
ghost use Rattle.ini_c.specs.Faults.{IsStopAt};
ghost use Rattle.ini_c.specs.Held.{document_in};
ghost use Rattle.ini_c.specs.Statuses.{broken, is_among, no_memory, not_utf8, ok};

use crate::document::{Document, Kept};
use crate::fault::{Fault, tell};
use crate::{BROKEN, NO_MEMORY, NOT_UTF8, OK};
use ini::{Error, Ini, ParseOption};
use std::alloc::Global;

// The document of bytes, in a box.
fn load(alloc: Global, bytes: &[u8], read: ParseOption) -> Result<Box<Kept>, Error>
    ensures text { IfOk result (λ kept. IsUtf8 bytes.now) }
    ensures document { IfOk result (λ kept. IsDocumentOf read (chars bytes.now) kept.value.document) }
    ensures fault { IfParse result (IsStopOf read (chars bytes.now)) }
    ensures fault_of_text { IfParse result (λ refused. IsUtf8 bytes.now) }
    ensures not_utf8 { IsNotUtf8 result ↔ ¬ (IsUtf8 bytes.now) }
{
    let Ok(text) = str::from_utf8(bytes) else {
        return Err(Error::NotUtf8);
    };
    let document = Ini::load_from_str_opt(alloc, text, read)?;
    let kept = Box::new(
        alloc,
        Kept {
            document,
            text: None,
        },
    )?;
    Ok(kept)
}

// Loads the document of bytes in place of the one that is there, or tells C of the fault.
pub(crate) fn load_into(
    alloc: Global,
    bytes: &[u8],
    read: ParseOption,
    document: &mut Document,
    fault: &mut Fault,
) -> u32
    ensures loaded { result ≡ ok
        → IsSomeAnd (document_in document.new) (IsDocumentOf read (chars bytes.now)) }
    ensures broken { result ≡ broken → IsStopAt read (chars bytes.now) fault.new }
    ensures not_utf8 { result ≡ not_utf8 ↔ ¬ (IsUtf8 bytes.now) }
    ensures statuses { IsTrue (is_among result (ok ∷ broken ∷ not_utf8 ∷ no_memory ∷ [])) }
    ensures unchanged { ¬ (result ≡ ok) → document_in document.new ≡ document_in document.old }
    ensures fault_stays { ¬ (result ≡ broken) → fault.new ≡ fault.old }
{
    match load(alloc, bytes, read) {
        Ok(kept) => {
            document.put(alloc, kept);
            OK
        }
        Err(Error::Parse(refused)) => {
            tell(&refused, fault);
            BROKEN
        }
        Err(Error::NotUtf8) => NOT_UTF8,
        Err(_) => NO_MEMORY,
    }
}
