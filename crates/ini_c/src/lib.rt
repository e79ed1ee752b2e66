//! Documents for programs in C.
//!
//! This file knows what crosses to C: numbers, structs of numbers, slices, and a `Document`, which C keeps
//! between calls. Loading puts a document there, freeing takes it out, and other calls lend it to `ini`.
#![tactic(auto)]

ghost use Rattle.std.specs.Prelude.{◌≡◌, ◌∷◌, [], ◌≤◌, ◌↔◌, IsTrue, IsSome, IsSomeAnd, None, length, take};
ghost use Rattle.std.specs.Prelude.{Some, false, slice_get};
ghost use Rattle.std.specs.Option.{option_map};
ghost use Rattle.std.specs.Str.{IsUtf8, chars};
ghost use Rattle.ini_text.specs.Parsing.ByteOrderMarks.{text_bytes};
ghost use Rattle.ini.specs.Documents.{section_removed};
ghost use Rattle.ini.specs.Edits.{add_in, delete_in, set_in};
ghost use Rattle.ini.specs.Loading.{IsDocumentOf};
ghost use Rattle.ini_c.specs.Choices.{IsCountOf, IsTextOf, TellsPlain, parse_option};
ghost use Rattle.ini_c.specs.Faults.{IsStopAt};
ghost use Rattle.ini_c.specs.Held.{document_in};
ghost use Rattle.ini_c.specs.Listings.{AreSizesOf, all_found_in, copied_listing, document_listed, fits};
ghost use Rattle.ini_c.specs.Listings.{pairs_found_in, pairs_listed, values_listed};
ghost use Rattle.ini_c.specs.LookUps.{AreTexts, HasSection, found_in, name_if, utf8_of};
ghost use Rattle.ini_c.specs.Statuses.{absent, broken, is_among, no_document};
ghost use Rattle.ini_c.specs.Statuses.{no_memory, no_room, not_utf8, ok};

mod borrowing;
mod by_reading;
mod copies;
mod dialects;
mod document;
mod edits;
mod fault;
mod handle;
mod keeping;
mod listing;
mod loading;
mod look_up;
mod options;
mod parts;
mod pieces;
mod refusal;
mod rule;
mod text_edits;
mod text_keeping;
mod text_renames;
mod text_sections;
mod tied;
mod walks;
mod writing;

pub use crate::borrowing::bigrosk_ini_borrow;
pub use crate::by_reading::{
    bigrosk_ini_is_plain_by, bigrosk_ini_load_by, bigrosk_ini_text_open_by,
};
pub use crate::copies::Sizes;
pub use crate::dialects::{bigrosk_ini_dialect, bigrosk_ini_dialect_by};
pub use crate::document::{Document, Kept, Text};
pub use crate::fault::Fault;
pub use crate::options::{ReadChoice, Reading, WriteChoice};
pub use crate::pieces::comments::{
    bigrosk_ini_text_comment, bigrosk_ini_text_comment_out, bigrosk_ini_text_set_comment,
};
pub use crate::pieces::differences::{bigrosk_ini_text_apply, bigrosk_ini_text_diff};
pub use crate::pieces::listing::{
    bigrosk_ini_text_get_all, bigrosk_ini_text_items, bigrosk_ini_text_pairs,
};
pub use crate::pieces::look_ups::{
    Place, bigrosk_ini_text_borrow, bigrosk_ini_text_get, bigrosk_ini_text_has,
    bigrosk_ini_text_has_section, bigrosk_ini_text_place,
};
pub use crate::pieces::merging::{bigrosk_ini_text_conflicts, bigrosk_ini_text_merge3};
pub use crate::pieces::names::{
    bigrosk_ini_text_add_section, bigrosk_ini_text_delete_section, bigrosk_ini_text_rename_key,
    bigrosk_ini_text_rename_section,
};
pub use crate::pieces::opening::{
    bigrosk_ini_text_close, bigrosk_ini_text_open, bigrosk_ini_text_write,
};
pub use crate::pieces::repeated::{
    bigrosk_ini_text_delete_all, bigrosk_ini_text_delete_nth, bigrosk_ini_text_set_all,
    bigrosk_ini_text_set_nth,
};
pub use crate::pieces::under_rules::{
    bigrosk_ini_text_apply_under, bigrosk_ini_text_conflicts_under, bigrosk_ini_text_diff_under,
    bigrosk_ini_text_merge3_under,
};
pub use crate::pieces::values::{
    bigrosk_ini_text_add, bigrosk_ini_text_delete, bigrosk_ini_text_set,
};
pub use crate::rule::{LookupChoice, bigrosk_ini_dialect_lookup};
pub use crate::text_edits::{bigrosk_ini_edit_add, bigrosk_ini_edit_delete, bigrosk_ini_edit_set};
pub use crate::text_renames::{bigrosk_ini_edit_rename_key, bigrosk_ini_edit_rename_section};
pub use crate::text_sections::bigrosk_ini_edit_delete_section;
use ini_text::text_bytes;
use std::alloc::Global;

/// Done, or there.
pub const OK: u32 = 0;
/// No such pair or section.
pub const ABSENT: u32 = 1;
/// What was to be copied out does not fit.
pub const NO_ROOM: u32 = 2;
/// The text breaks the grammar.
pub const BROKEN: u32 = 3;
/// Bytes that should be a text are no UTF-8.
pub const NOT_UTF8: u32 = 4;
/// Memory was refused.
pub const NO_MEMORY: u32 = 5;
/// No document is loaded.
pub const NO_DOCUMENT: u32 = 6;
/// The value of an edit can't be written so that it is read back.
pub const UNPLAIN_VALUE: u32 = 7;
/// The key of an edit can't be written so that it is read back.
pub const UNPLAIN_KEY: u32 = 8;
/// A new line can be put into the text nowhere.
pub const NO_PLACE: u32 = 9;
/// The name of a new section can't be written so that it is read back.
pub const UNPLAIN_NAME: u32 = 10;
/// A section of the name is there.
pub const THERE: u32 = 11;
/// A number stands for no option of reading.
pub const UNKNOWN_OPTION: u32 = 12;

/// The version: a hundred for each minor one, ten thousand for each major one.
#[unsafe(no_mangle)]
pub extern "C" fn bigrosk_ini_version() -> u32
    ensures { result ≡ 300 }
{
    300
}

/// Loads the document of a text, in place of the one that is there; with `drop_mark` without one mark (the
/// bytes EF BB BF) at the text's front.
///
/// `NOT_UTF8` if the bytes are no text, and else `BROKEN` where reading it stops: the fault tells kind,
/// line, column and message. Refused, for that or when out of memory, the document stays.
#[unsafe(no_mangle)]
pub extern "C" fn bigrosk_ini_load(
    alloc: Global,
    text: &[u8],
    drop_mark: bool,
    option: &ReadChoice,
    document: &mut Document,
    fault: &mut Fault,
) -> u32
    ensures loaded { result ≡ ok → IsSomeAnd (document_in document.new)
        (IsDocumentOf (parse_option option.now) (chars (text_bytes drop_mark text.now))) }
    ensures broken { result ≡ broken →
        IsStopAt (parse_option option.now) (chars (text_bytes drop_mark text.now)) fault.new }
    ensures not_utf8 { result ≡ not_utf8 ↔ ¬ (IsUtf8 (text_bytes drop_mark text.now)) }
    ensures statuses { IsTrue (is_among result (ok ∷ broken ∷ not_utf8 ∷ no_memory ∷ [])) }
    ensures unchanged { ¬ (result ≡ ok) → document_in document.new ≡ document_in document.old }
    ensures fault_stays { ¬ (result ≡ broken) → fault.new ≡ fault.old }
{
    let bytes = text_bytes(text, drop_mark);
    loading::load_into(alloc, bytes, option.to_option(), document, fault)
}

/// Frees the document, which leaves none.
#[unsafe(no_mangle)]
pub extern "C" fn bigrosk_ini_free(alloc: Global, document: &mut Document)
    ensures { document_in document.new ≡ None }
{
    let _before = document.take(alloc);
}

/// Copies the first value of the key in the first section of the name (of the general one without `named`)
/// out, and a 0 after it. `count` is the value's number of bytes, where it fits and where it doesn't.
#[unsafe(no_mangle)]
pub extern "C" fn bigrosk_ini_get(
    document: &mut Document,
    named: bool,
    section: &[u8],
    key: &[u8],
    value: &mut [u8],
    count: &mut usize,
) -> u32
    ensures stays { document_in document.new ≡ document_in document.old }
    ensures no_document { result ≡ no_document ↔ (document_in document.old ≡ None) }
    ensures not_utf8 { result ≡ not_utf8 ↔
        (IsSome (document_in document.old) × ¬ (AreTexts section.now key.now)) }
    ensures absent { result ≡ absent →
        found_in (name_if named section.now) (chars key.now) (document_in document.old) ≡ None }
    ensures value { result ≡ ok
        → utf8_of (found_in (name_if named section.now) (chars key.now) (document_in document.old))
        ≡ Some (take count.new value.new) }
    ensures zero { result ≡ ok → slice_get value.new count.new ≡ Some 0 }
    ensures count { result ≡ no_room → option_map length
        (utf8_of (found_in (name_if named section.now) (chars key.now) (document_in document.old)))
        ≡ Some count.new }
    ensures no_room { result ≡ no_room → length value.old ≤ count.new }
    ensures rest { ¬ (result ≡ ok) → value.new ≡ value.old }
    ensures statuses { IsTrue (is_among result (ok ∷ absent ∷ no_room ∷ not_utf8 ∷ no_document ∷ [])) }
{
    let Some(document) = document.loaded() else {
        return NO_DOCUMENT;
    };
    look_up::find(document, named, section, key, value, count)
}

/// Whether the first section of the name has the key: `OK` or `ABSENT`.
#[unsafe(no_mangle)]
pub extern "C" fn bigrosk_ini_has(
    document: &mut Document,
    named: bool,
    section: &[u8],
    key: &[u8],
) -> u32
    ensures stays { document_in document.new ≡ document_in document.old }
    ensures no_document { result ≡ no_document ↔ (document_in document.old ≡ None) }
    ensures not_utf8 { result ≡ not_utf8 ↔
        (IsSome (document_in document.old) × ¬ (AreTexts section.now key.now)) }
    ensures absent { result ≡ absent →
        found_in (name_if named section.now) (chars key.now) (document_in document.old) ≡ None }
    ensures there { result ≡ ok →
        IsSome (found_in (name_if named section.now) (chars key.now) (document_in document.old)) }
    ensures statuses { IsTrue (is_among result (ok ∷ absent ∷ not_utf8 ∷ no_document ∷ [])) }
{
    let Some(document) = document.loaded() else {
        return NO_DOCUMENT;
    };
    look_up::has(document, named, section, key)
}

/// Whether a section has the name: `OK` or `ABSENT`.
#[unsafe(no_mangle)]
pub extern "C" fn bigrosk_ini_has_section(
    document: &mut Document,
    named: bool,
    section: &[u8],
) -> u32
    ensures stays { document_in document.new ≡ document_in document.old }
    ensures no_document { result ≡ no_document ↔ (document_in document.old ≡ None) }
    ensures not_utf8 { result ≡ not_utf8 ↔ (IsSome (document_in document.old) × ¬ (IsUtf8 section.now)) }
    ensures absent { result ≡ absent → ¬ (HasSection (name_if named section.now) (document_in document.old)) }
    ensures there { result ≡ ok → HasSection (name_if named section.now) (document_in document.old) }
    ensures statuses { IsTrue (is_among result (ok ∷ absent ∷ not_utf8 ∷ no_document ∷ [])) }
{
    let Some(document) = document.loaded() else {
        return NO_DOCUMENT;
    };
    look_up::has_section(document, named, section)
}

/// Copies all values of the key in the first section of the name out, in order: in `bytes` one after
/// another, each with a 0 after it, and in `counts` how many bytes each has. `sizes` has how much of both
/// that takes, where it fits and where it doesn't.
#[unsafe(no_mangle)]
pub extern "C" fn bigrosk_ini_get_all(
    alloc: Global,
    document: &mut Document,
    named: bool,
    section: &[u8],
    key: &[u8],
    bytes: &mut [u8],
    counts: &mut [usize],
    sizes: &mut Sizes,
) -> u32
    ensures stays { document_in document.new ≡ document_in document.old }
    ensures no_document { result ≡ no_document ↔ (document_in document.old ≡ None) }
    ensures not_utf8 { result ≡ not_utf8 ↔
        (IsSome (document_in document.old) × ¬ (AreTexts section.now key.now)) }
    ensures absent { result ≡ absent →
        found_in (name_if named section.now) (chars key.now) (document_in document.old) ≡ None }
    ensures there { result ≡ ok →
        IsSome (found_in (name_if named section.now) (chars key.now) (document_in document.old)) }
    ensures listed { result ≡ ok → option_map values_listed
        (all_found_in (name_if named section.now) (chars key.now) (document_in document.old))
        ≡ Some (copied_listing sizes.new bytes.new counts.new) }
    ensures sizes { result ≡ no_room → IsSomeAnd (option_map values_listed
        (all_found_in (name_if named section.now) (chars key.now) (document_in document.old)))
        (AreSizesOf sizes.new) }
    ensures no_room { result ≡ no_room → fits sizes.new bytes.old counts.old ≡ false }
    ensures bytes_stay { ¬ (result ≡ ok) → bytes.new ≡ bytes.old }
    ensures counts_stay { ¬ (result ≡ ok) → counts.new ≡ counts.old }
    ensures statuses { IsTrue
        (is_among result (ok ∷ absent ∷ no_room ∷ not_utf8 ∷ no_memory ∷ no_document ∷ [])) }
{
    let Some(document) = document.loaded() else {
        return NO_DOCUMENT;
    };
    walks::values(alloc, document, named, section, key, bytes, counts, sizes)
}

/// Copies all pairs of the first section of the name out, in order, as `bigrosk_ini_get_all` copies values:
/// of each pair the key and then the value.
#[unsafe(no_mangle)]
pub extern "C" fn bigrosk_ini_pairs(
    alloc: Global,
    document: &mut Document,
    named: bool,
    section: &[u8],
    bytes: &mut [u8],
    counts: &mut [usize],
    sizes: &mut Sizes,
) -> u32
    ensures stays { document_in document.new ≡ document_in document.old }
    ensures no_document { result ≡ no_document ↔ (document_in document.old ≡ None) }
    ensures not_utf8 { result ≡ not_utf8 ↔ (IsSome (document_in document.old) × ¬ (IsUtf8 section.now)) }
    ensures absent { result ≡ absent → ¬ (HasSection (name_if named section.now) (document_in document.old)) }
    ensures listed { result ≡ ok → option_map pairs_listed
        (pairs_found_in (name_if named section.now) (document_in document.old))
        ≡ Some (copied_listing sizes.new bytes.new counts.new) }
    ensures sizes { result ≡ no_room → IsSomeAnd (option_map pairs_listed
        (pairs_found_in (name_if named section.now) (document_in document.old))) (AreSizesOf sizes.new) }
    ensures no_room { result ≡ no_room → fits sizes.new bytes.old counts.old ≡ false }
    ensures bytes_stay { ¬ (result ≡ ok) → bytes.new ≡ bytes.old }
    ensures counts_stay { ¬ (result ≡ ok) → counts.new ≡ counts.old }
    ensures statuses { IsTrue
        (is_among result (ok ∷ absent ∷ no_room ∷ not_utf8 ∷ no_memory ∷ no_document ∷ [])) }
{
    let Some(document) = document.loaded() else {
        return NO_DOCUMENT;
    };
    walks::pairs(alloc, document, named, section, bytes, counts, sizes)
}

/// Copies the whole document out, in order, as `bigrosk_ini_get_all` copies values: of each section the name
/// (of the general one no byte, and the greatest number as its count), in `counts` the number of its pairs,
/// and then its pairs.
#[unsafe(no_mangle)]
pub extern "C" fn bigrosk_ini_items(
    alloc: Global,
    document: &mut Document,
    bytes: &mut [u8],
    counts: &mut [usize],
    sizes: &mut Sizes,
) -> u32
    ensures stays { document_in document.new ≡ document_in document.old }
    ensures no_document { result ≡ no_document ↔ (document_in document.old ≡ None) }
    ensures listed { result ≡ ok → option_map document_listed (document_in document.old)
        ≡ Some (copied_listing sizes.new bytes.new counts.new) }
    ensures sizes { result ≡ no_room →
        IsSomeAnd (option_map document_listed (document_in document.old)) (AreSizesOf sizes.new) }
    ensures no_room { result ≡ no_room → fits sizes.new bytes.old counts.old ≡ false }
    ensures bytes_stay { ¬ (result ≡ ok) → bytes.new ≡ bytes.old }
    ensures counts_stay { ¬ (result ≡ ok) → counts.new ≡ counts.old }
    ensures statuses { IsTrue (is_among result (ok ∷ no_room ∷ no_memory ∷ no_document ∷ [])) }
{
    let Some(document) = document.loaded() else {
        return NO_DOCUMENT;
    };
    walks::items(alloc, document, bytes, counts, sizes)
}

/// Sets the value of the key in the first section of the name: its first pair there takes the value, and
/// later ones go. Where the key, or the section, is new, it comes last.
#[unsafe(no_mangle)]
pub extern "C" fn bigrosk_ini_set(
    document: &mut Document,
    named: bool,
    section: &[u8],
    key: &[u8],
    value: &[u8],
) -> u32
    ensures no_document { result ≡ no_document ↔ (document_in document.old ≡ None) }
    ensures not_utf8 { result ≡ not_utf8 ↔
        (IsSome (document_in document.old) × ¬ (AreTexts section.now key.now × IsUtf8 value.now)) }
    ensures set { result ≡ ok → document_in document.new
        ≡ option_map (set_in (name_if named section.now) (chars key.now) (chars value.now))
        (document_in document.old) }
    ensures unchanged { ¬ (result ≡ ok) → document_in document.new ≡ document_in document.old }
    ensures statuses { IsTrue (is_among result (ok ∷ not_utf8 ∷ no_memory ∷ no_document ∷ [])) }
{
    let Some(document) = document.loaded_mut() else {
        return NO_DOCUMENT;
    };
    edits::set(document, named, section, key, value)
}

/// Appends the pair to the first section of the name, or opens one with it, last.
#[unsafe(no_mangle)]
pub extern "C" fn bigrosk_ini_add(
    document: &mut Document,
    named: bool,
    section: &[u8],
    key: &[u8],
    value: &[u8],
) -> u32
    ensures no_document { result ≡ no_document ↔ (document_in document.old ≡ None) }
    ensures not_utf8 { result ≡ not_utf8 ↔
        (IsSome (document_in document.old) × ¬ (AreTexts section.now key.now × IsUtf8 value.now)) }
    ensures added { result ≡ ok → document_in document.new
        ≡ option_map (add_in (name_if named section.now) (chars key.now) (chars value.now))
        (document_in document.old) }
    ensures unchanged { ¬ (result ≡ ok) → document_in document.new ≡ document_in document.old }
    ensures statuses { IsTrue (is_among result (ok ∷ not_utf8 ∷ no_memory ∷ no_document ∷ [])) }
{
    let Some(document) = document.loaded_mut() else {
        return NO_DOCUMENT;
    };
    edits::add(document, named, section, key, value)
}

/// Takes the first pair of the key out of the first section of the name.
#[unsafe(no_mangle)]
pub extern "C" fn bigrosk_ini_delete(
    document: &mut Document,
    named: bool,
    section: &[u8],
    key: &[u8],
) -> u32
    ensures no_document { result ≡ no_document ↔ (document_in document.old ≡ None) }
    ensures not_utf8 { result ≡ not_utf8 ↔
        (IsSome (document_in document.old) × ¬ (AreTexts section.now key.now)) }
    ensures deleted { result ≡ ok → document_in document.new
        ≡ option_map (delete_in (name_if named section.now) (chars key.now)) (document_in document.old) }
    ensures there { result ≡ ok →
        IsSome (found_in (name_if named section.now) (chars key.now) (document_in document.old)) }
    ensures absent { result ≡ absent →
        found_in (name_if named section.now) (chars key.now) (document_in document.old) ≡ None }
    ensures unchanged { ¬ (result ≡ ok) → document_in document.new ≡ document_in document.old }
    ensures statuses { IsTrue (is_among result (ok ∷ absent ∷ not_utf8 ∷ no_document ∷ [])) }
{
    let Some(document) = document.loaded_mut() else {
        return NO_DOCUMENT;
    };
    edits::delete(document, named, section, key)
}

/// Takes the first section of the name out.
#[unsafe(no_mangle)]
pub extern "C" fn bigrosk_ini_delete_section(
    document: &mut Document,
    named: bool,
    section: &[u8],
) -> u32
    ensures no_document { result ≡ no_document ↔ (document_in document.old ≡ None) }
    ensures not_utf8 { result ≡ not_utf8 ↔ (IsSome (document_in document.old) × ¬ (IsUtf8 section.now)) }
    ensures deleted { result ≡ ok → document_in document.new
        ≡ option_map (section_removed (name_if named section.now)) (document_in document.old) }
    ensures there { result ≡ ok → HasSection (name_if named section.now) (document_in document.old) }
    ensures absent { result ≡ absent → ¬ (HasSection (name_if named section.now) (document_in document.old)) }
    ensures unchanged { ¬ (result ≡ ok) → document_in document.new ≡ document_in document.old }
    ensures statuses { IsTrue (is_among result (ok ∷ absent ∷ not_utf8 ∷ no_document ∷ [])) }
{
    let Some(document) = document.loaded_mut() else {
        return NO_DOCUMENT;
    };
    edits::delete_section(document, named, section)
}

/// Copies the document's text out, and a 0 after it. `count` is the text's number of bytes, where it fits
/// and where it doesn't.
#[unsafe(no_mangle)]
pub extern "C" fn bigrosk_ini_write(
    alloc: Global,
    document: &mut Document,
    choice: &WriteChoice,
    text: &mut [u8],
    count: &mut usize,
) -> u32
    ensures stays { document_in document.new ≡ document_in document.old }
    ensures no_document { result ≡ no_document ↔ (document_in document.old ≡ None) }
    ensures text { result ≡ ok → IsTextOf choice.now (document_in document.old) (take count.new text.new) }
    ensures zero { result ≡ ok → slice_get text.new count.new ≡ Some 0 }
    ensures count { result ≡ no_room → IsCountOf choice.now (document_in document.old) count.new }
    ensures no_room { result ≡ no_room → length text.old ≤ count.new }
    ensures rest { ¬ (result ≡ ok) → text.new ≡ text.old }
    ensures statuses { IsTrue (is_among result (ok ∷ no_room ∷ no_memory ∷ no_document ∷ [])) }
{
    let Some(document) = document.loaded() else {
        return NO_DOCUMENT;
    };
    writing::write(alloc, document, choice, text, count)
}

/// Whether the document, written by one option, loads by the other as it is; of no document it is not so.
#[unsafe(no_mangle)]
pub extern "C" fn bigrosk_ini_is_plain(
    document: &mut Document,
    choice: &WriteChoice,
    option: &ReadChoice,
) -> bool
    ensures stays { document_in document.new ≡ document_in document.old }
    ensures plain { TellsPlain choice.now (parse_option option.now) result (document_in document.old) }
{
    let Some(document) = document.loaded() else {
        return false;
    };
    writing::is_plain(document, choice, option.to_option())
}
