//! The calls that read a text, by a struct of options that may grow. This file knows no option.
ghost use Rattle.std.specs.Prelude.{◌≡◌, ◌∷◌, [], ◌↔◌, IsSomeAnd, IsTrue, None};
ghost use Rattle.std.specs.Str.{IsUtf8, chars};
ghost use Rattle.ini_text.specs.Parsing.ByteOrderMarks.{text_bytes};
ghost use Rattle.ini.specs.Loading.{IsDocumentOf};
ghost use Rattle.ini_c.specs.Choices.{TellsPlainBy, reading_option};
ghost use Rattle.ini_c.specs.Faults.{IsStopAt};
ghost use Rattle.ini_c.specs.Held.{document_in, pieces_of};
ghost use Rattle.ini_c.specs.Statuses.{broken, is_among, no_memory, not_utf8, ok, unknown_option};
ghost use Rattle.ini_c.specs.Texts.{IsOpened};

use crate::document::{Document, Text};
use crate::fault::Fault;
use crate::loading::load_into;
use crate::options::{Reading, WriteChoice};
use crate::pieces::opening::open_into;
use crate::{NOT_UTF8, UNKNOWN_OPTION, writing};
use ini_text::text_bytes;
use std::alloc::Global;

// Why a text is refused whose options have an unknown one: that it is none goes before.
fn refused_unread(text: &[u8]) -> u32
    ensures not_utf8 { result ≡ not_utf8 ↔ ¬ (IsUtf8 text.now) }
    ensures unknown { result ≡ unknown_option ↔ IsUtf8 text.now }
    ensures statuses { IsTrue (is_among result (not_utf8 ∷ unknown_option ∷ [])) }
{
    match str::from_utf8(text) {
        Ok(_) => UNKNOWN_OPTION,
        Err(_) => NOT_UTF8,
    }
}

/// Loads the document of a text, as `bigrosk_ini_load` does: `UNKNOWN_OPTION` if a number stands for none.
#[unsafe(no_mangle)]
pub extern "C" fn bigrosk_ini_load_by(
    alloc: Global,
    text: &[u8],
    drop_mark: bool,
    reading: &Reading,
    document: &mut Document,
    fault: &mut Fault,
) -> u32
    ensures loaded { result ≡ ok → IsSomeAnd (reading_option reading.now) (λ read.
        IsSomeAnd (document_in document.new) (IsDocumentOf read (chars (text_bytes drop_mark text.now)))) }
    ensures broken { result ≡ broken → IsSomeAnd (reading_option reading.now) (λ read.
        IsStopAt read (chars (text_bytes drop_mark text.now)) fault.new) }
    ensures not_utf8 { result ≡ not_utf8 ↔ ¬ (IsUtf8 (text_bytes drop_mark text.now)) }
    ensures unknown { result ≡ unknown_option ↔
        (reading_option reading.now ≡ None × IsUtf8 (text_bytes drop_mark text.now)) }
    ensures statuses { IsTrue (is_among result (ok ∷ broken ∷ not_utf8 ∷ no_memory ∷ unknown_option ∷ [])) }
    ensures unchanged { ¬ (result ≡ ok) → document_in document.new ≡ document_in document.old }
    ensures fault_stays { ¬ (result ≡ broken) → fault.new ≡ fault.old }
{
    let bytes = text_bytes(text, drop_mark);
    match reading.to_option() {
        Some(read) => load_into(alloc, bytes, read, document, fault),
        None => refused_unread(bytes),
    }
}

/// Whether the document, written by one option, loads by the other as it is: not so of no document, and
/// where a number stands for no option.
#[unsafe(no_mangle)]
pub extern "C" fn bigrosk_ini_is_plain_by(
    document: &mut Document,
    choice: &WriteChoice,
    reading: &Reading,
) -> bool
    ensures stays { document_in document.new ≡ document_in document.old }
    ensures plain { TellsPlainBy choice.now (reading_option reading.now) result (document_in document.old) }
{
    let Some(document) = document.loaded() else {
        return false;
    };
    match reading.to_option() {
        Some(read) => writing::is_plain(document, choice, read),
        None => false,
    }
}

/// Opens a text in pieces, as `bigrosk_ini_text_open` does: `UNKNOWN_OPTION` where a number stands for none.
#[unsafe(no_mangle)]
pub extern "C" fn bigrosk_ini_text_open_by(
    alloc: Global,
    bytes: &[u8],
    reading: &Reading,
    text: &mut Text,
    fault: &mut Fault,
) -> u32
    ensures opened { result ≡ ok → IsSomeAnd (reading_option reading.now) (λ read.
        IsSomeAnd (pieces_of text.new) (IsOpened read (chars bytes.now))) }
    ensures broken { result ≡ broken → IsSomeAnd (reading_option reading.now) (λ read.
        IsStopAt read (chars bytes.now) fault.new) }
    ensures not_utf8 { result ≡ not_utf8 ↔ ¬ (IsUtf8 bytes.now) }
    ensures unknown { result ≡ unknown_option ↔
        (reading_option reading.now ≡ None × IsUtf8 bytes.now) }
    ensures statuses { IsTrue (is_among result (ok ∷ broken ∷ not_utf8 ∷ no_memory ∷ unknown_option ∷ [])) }
    ensures unchanged { ¬ (result ≡ ok) → pieces_of text.new ≡ pieces_of text.old }
    ensures fault_stays { ¬ (result ≡ broken) → fault.new ≡ fault.old }
{
    match reading.to_option() {
        Some(read) => open_into(alloc, bytes, read, text, fault),
        None => refused_unread(bytes),
    }
}
