//! Edits of a text itself, which keep every byte that they aren't about. No document is kept between these
//! calls: a text comes in as bytes, and the new one goes into the caller's buffer.
ghost use Rattle.std.specs.Prelude.{◌≡◌, ◌∷◌, [], ◌≤◌, ◌↔◌, Err, IfErr, IfOk, IsTrue, OnOk, Some, length};
ghost use Rattle.std.specs.Prelude.{slice_get, take};
ghost use Rattle.std.specs.Str.{IsUtf8, chars};
ghost use Rattle.ini.specs.Loading.{IsStopOf, IsTextWith};
ghost use Rattle.ini.specs.Texts.{str_name, text_of};
ghost use Rattle.ini_text.specs.Laws.Plain.{IsPlainSeparator};
ghost use Rattle.ini_edit.specs.Edited.{IfEditParse};
ghost use Rattle.ini_edit.specs.FirstPairs.{LacksPair};
ghost use Rattle.ini_edit.specs.Made.{IsWritableLine};
ghost use Rattle.ini_edit.specs.SourceWritten.{HasForm};
ghost use Rattle.ini_edit.specs.WholeTexts.{IsAddedText, IsDeletedText, IsSetText, RefusesToAddTo};
ghost use Rattle.ini_edit.specs.WholeTexts.{RefusesToSetOf};
ghost use Rattle.ini_edit.specs.declared.error.EditError.TheVariants.{Key, Name, NoPlace, Value};
ghost use Rattle.ini_c.specs.Choices.{parse_option, policy_of};
ghost use Rattle.ini_c.specs.Faults.{IsStopAt};
ghost use Rattle.ini_c.specs.LookUps.{name_if};
ghost use Rattle.ini_c.specs.Statuses.{absent, broken, is_among, no_memory, no_place, no_room};
ghost use Rattle.ini_c.specs.Statuses.{not_utf8, ok, unplain_key, unplain_name, unplain_value};
ghost use Rattle.ini_c.specs.TextEdits.{AreEdit, HasUnwritableKey, IsAddedBy, IsCountOfText, IsSetBy};
ghost use Rattle.ini_c.specs.TextEdits.{RefusesToAddBy, RefusesToSetBy};

use crate::copies::{give, pair_of, place_of};
use crate::fault::Fault;
use crate::options::{ReadChoice, WriteChoice};
use crate::refusal::refused;
use crate::{ABSENT, NOT_UTF8};
use ini_edit::{EditError, add, delete, set};
use ini_text::{ParseOption, WriteOption};
use std::alloc::Global;

// The text with the key set.
fn with_set(
    alloc: Global,
    text: &str,
    read: ParseOption,
    write: &WriteOption,
    name: Option<&str>,
    key: &str,
    value: &str,
) -> Result<String, EditError>
    ensures edited { IfOk result (λ new. IsSetText read write.now (chars text.now) (str_name name.entry)
        (chars key.now) (chars value.now) (text_of new)) }
    ensures refused { IfErr result (RefusesToSetOf read write.now (chars text.now) (str_name name.entry)
        (chars key.now) (chars value.now)) }
    ensures value { result ≡ Err Value → ¬ HasForm read write.now.escape_policy (chars value.now) }
    ensures writable { OnOk result (HasForm read write.now.escape_policy (chars value.now)) }
    ensures fault { IfEditParse result
        (λ e. HasForm read write.now.escape_policy (chars value.now) × IsStopOf read (chars text.now) e) }
{
    set(alloc, text, read, write, name, key, value)
}

/// Copies the text out with the key's value set: in the place of that of its first pair in the first section
/// of the name, where the later pairs of the key then go; where the section lacks the key, in a new line
/// there; and where the text lacks the section, in a new one at its end. Every other byte stays.
///
/// `NOT_UTF8`, then `UNPLAIN_VALUE` where the value, written, isn't read back, then `BROKEN` where reading
/// the text stops; and where the pair isn't there, `UNPLAIN_KEY`, `UNPLAIN_NAME` where a section would be
/// new, and `NO_PLACE` where no place for a line was found. `count` is the new text's number of bytes, where
/// it fits and where it doesn't.
#[unsafe(no_mangle)]
pub extern "C" fn bigrosk_ini_edit_set(
    alloc: Global,
    text: &[u8],
    read: &ReadChoice,
    write: &WriteChoice,
    named: bool,
    section: &[u8],
    key: &[u8],
    value: &[u8],
    out: &mut [u8],
    count: &mut usize,
    fault: &mut Fault,
) -> u32
    ensures not_utf8 { result ≡ not_utf8 ↔ ¬ (AreEdit text.now section.now key.now × IsUtf8 value.now) }
    ensures edited { result ≡ ok → IsTextWith
        (IsSetBy (parse_option read.now) write.now (chars text.now)
        (name_if named section.now) (chars key.now) (chars value.now)) (take count.new out.new) }
    ensures zero { result ≡ ok → slice_get out.new count.new ≡ Some 0 }
    ensures count { result ≡ no_room → IsCountOfText
        (IsSetBy (parse_option read.now) write.now (chars text.now)
        (name_if named section.now) (chars key.now) (chars value.now)) count.new }
    ensures no_room { result ≡ no_room → length out.old ≤ count.new }
    ensures unplain_value { result ≡ unplain_value
        → ¬ HasForm (parse_option read.now) (policy_of write.now.policy) (chars value.now) }
    ensures writable { IsTrue (is_among result (ok ∷ no_room ∷ broken ∷ []))
        → HasForm (parse_option read.now) (policy_of write.now.policy) (chars value.now) }
    ensures unplain_key { result ≡ unplain_key → RefusesToSetBy (parse_option read.now) write.now
        (chars text.now) (name_if named section.now) (chars key.now) (chars value.now) Key }
    ensures unplain_name { result ≡ unplain_name → RefusesToSetBy (parse_option read.now) write.now
        (chars text.now) (name_if named section.now) (chars key.now) (chars value.now) Name }
    ensures no_place { result ≡ no_place → RefusesToSetBy (parse_option read.now) write.now
        (chars text.now) (name_if named section.now) (chars key.now) (chars value.now) NoPlace }
    ensures broken { result ≡ broken → IsStopAt (parse_option read.now) (chars text.now) fault.new }
    ensures stays { ¬ (result ≡ ok) → out.new ≡ out.old }
    ensures fault_stays { ¬ (result ≡ broken) → fault.new ≡ fault.old }
    ensures statuses { IsTrue (is_among result (ok ∷ no_room ∷ broken ∷ not_utf8 ∷ no_memory
        ∷ unplain_value ∷ unplain_key ∷ no_place ∷ unplain_name ∷ [])) }
{
    let Ok(text) = str::from_utf8(text) else {
        return NOT_UTF8;
    };
    let Some((name, key, value)) = pair_of(named, section, key, value) else {
        return NOT_UTF8;
    };
    let option = write.to_option();
    match with_set(alloc, text, read.to_option(), &option, name, key, value) {
        Ok(new) => give(new.as_str(), out, count),
        Err(refusal) => refused(refusal, fault),
    }
}

// The text with the pair added, by a separator that is plain.
fn added(
    alloc: Global,
    text: &str,
    read: ParseOption,
    write: &WriteOption,
    name: Option<&str>,
    key: &str,
    value: &str,
) -> Result<String, EditError>
    requires { IsPlainSeparator (chars write.now.kv_separator.now) }
    ensures added { IfOk result (λ new. IsAddedText read write.now (chars text.now) (str_name name.entry)
        (chars key.now) (chars value.now) (text_of new)) }
    ensures refused { IfErr result (RefusesToAddTo read write.now (chars text.now) (str_name name.entry)
        (chars key.now) (chars value.now)) }
    ensures value { result ≡ Err Value → ¬ HasForm read write.now.escape_policy (chars value.now) }
    ensures key { result ≡ Err Key
        → HasUnwritableKey read write.now.escape_policy (chars key.now) (chars value.now) }
    ensures writable { OnOk result
        (IsWritableLine read write.now.escape_policy (chars key.now) (chars value.now)) }
    ensures name { result ≡ Err Name
        → IsWritableLine read write.now.escape_policy (chars key.now) (chars value.now) }
    ensures no_place { result ≡ Err NoPlace
        → IsWritableLine read write.now.escape_policy (chars key.now) (chars value.now) }
    ensures fault { IfEditParse result
        (λ e. IsWritableLine read write.now.escape_policy (chars key.now) (chars value.now)
        × IsStopOf read (chars text.now) e) }
{
    add(alloc, text, read, write, name, key, value)
}

/// Copies the text out with a further pair, whatever pairs of the key are there: in a new line directly after
/// the last pair of the first section of the name, or, where the text lacks the section, in a new one at its
/// end. Every byte stays.
///
/// `NOT_UTF8`, then `UNPLAIN_VALUE` or `UNPLAIN_KEY`, in this order, where that, written, isn't read back,
/// then `BROKEN` where reading the text stops; then `UNPLAIN_NAME` where a section would be new, and
/// `NO_PLACE` where no place for a line was found. `count` is as with `bigrosk_ini_edit_set`.
#[unsafe(no_mangle)]
pub extern "C" fn bigrosk_ini_edit_add(
    alloc: Global,
    text: &[u8],
    read: &ReadChoice,
    write: &WriteChoice,
    named: bool,
    section: &[u8],
    key: &[u8],
    value: &[u8],
    out: &mut [u8],
    count: &mut usize,
    fault: &mut Fault,
) -> u32
    ensures not_utf8 { result ≡ not_utf8 ↔ ¬ (AreEdit text.now section.now key.now × IsUtf8 value.now) }
    ensures edited { result ≡ ok → IsTextWith
        (IsAddedBy (parse_option read.now) write.now (chars text.now)
        (name_if named section.now) (chars key.now) (chars value.now)) (take count.new out.new) }
    ensures zero { result ≡ ok → slice_get out.new count.new ≡ Some 0 }
    ensures count { result ≡ no_room → IsCountOfText
        (IsAddedBy (parse_option read.now) write.now (chars text.now)
        (name_if named section.now) (chars key.now) (chars value.now)) count.new }
    ensures no_room { result ≡ no_room → length out.old ≤ count.new }
    ensures unplain_value { result ≡ unplain_value
        → ¬ HasForm (parse_option read.now) (policy_of write.now.policy) (chars value.now) }
    ensures unplain_key { result ≡ unplain_key → HasUnwritableKey (parse_option read.now)
        (policy_of write.now.policy) (chars key.now) (chars value.now) }
    ensures writable { IsTrue (is_among result (ok ∷ no_room ∷ broken ∷ unplain_name ∷ no_place ∷ []))
        → IsWritableLine (parse_option read.now) (policy_of write.now.policy) (chars key.now)
        (chars value.now) }
    ensures unplain_name { result ≡ unplain_name → RefusesToAddBy (parse_option read.now) write.now
        (chars text.now) (name_if named section.now) (chars key.now) (chars value.now) Name }
    ensures no_place { result ≡ no_place → RefusesToAddBy (parse_option read.now) write.now
        (chars text.now) (name_if named section.now) (chars key.now) (chars value.now) NoPlace }
    ensures broken { result ≡ broken → IsStopAt (parse_option read.now) (chars text.now) fault.new }
    ensures stays { ¬ (result ≡ ok) → out.new ≡ out.old }
    ensures fault_stays { ¬ (result ≡ broken) → fault.new ≡ fault.old }
    ensures statuses { IsTrue (is_among result (ok ∷ no_room ∷ broken ∷ not_utf8 ∷ no_memory
        ∷ unplain_value ∷ unplain_key ∷ no_place ∷ unplain_name ∷ [])) }
{
    let Ok(text) = str::from_utf8(text) else {
        return NOT_UTF8;
    };
    let Some((name, key, value)) = pair_of(named, section, key, value) else {
        return NOT_UTF8;
    };
    let option = write.to_option();
    match added(alloc, text, read.to_option(), &option, name, key, value) {
        Ok(new) => give(new.as_str(), out, count),
        Err(refusal) => refused(refusal, fault),
    }
}

/// Copies the text out without the first pair of the key in the first section of the name; every other byte
/// stays, but for a line end that goes with the pair. `ABSENT` where it isn't there.
///
/// `NOT_UTF8`, and then `BROKEN` where reading the text stops. `count` is as with `bigrosk_ini_edit_set`.
#[unsafe(no_mangle)]
pub extern "C" fn bigrosk_ini_edit_delete(
    alloc: Global,
    text: &[u8],
    read: &ReadChoice,
    named: bool,
    section: &[u8],
    key: &[u8],
    out: &mut [u8],
    count: &mut usize,
    fault: &mut Fault,
) -> u32
    ensures not_utf8 { result ≡ not_utf8 ↔ ¬ (AreEdit text.now section.now key.now) }
    ensures edited { result ≡ ok → IsTextWith (IsDeletedText (parse_option read.now) (chars text.now)
        (name_if named section.now) (chars key.now)) (take count.new out.new) }
    ensures zero { result ≡ ok → slice_get out.new count.new ≡ Some 0 }
    ensures count { result ≡ no_room → IsCountOfText (IsDeletedText (parse_option read.now) (chars text.now)
        (name_if named section.now) (chars key.now)) count.new }
    ensures no_room { result ≡ no_room → length out.old ≤ count.new }
    ensures absent { result ≡ absent → LacksPair (parse_option read.now) (chars text.now)
        (name_if named section.now) (chars key.now) }
    ensures broken { result ≡ broken → IsStopAt (parse_option read.now) (chars text.now) fault.new }
    ensures stays { ¬ (result ≡ ok) → out.new ≡ out.old }
    ensures fault_stays { ¬ (result ≡ broken) → fault.new ≡ fault.old }
    ensures statuses { IsTrue (is_among result
        (ok ∷ absent ∷ no_room ∷ broken ∷ not_utf8 ∷ no_memory ∷ [])) }
{
    let Ok(text) = str::from_utf8(text) else {
        return NOT_UTF8;
    };
    let Some((name, key)) = place_of(named, section, key) else {
        return NOT_UTF8;
    };
    match delete(alloc, text, read.to_option(), name, key) {
        Ok(Some(new)) => give(new.as_str(), out, count),
        Ok(None) => ABSENT,
        Err(refusal) => refused(refusal, fault),
    }
}
