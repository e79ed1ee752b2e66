//! A key or a section of a text itself under another name, and every other byte as it is.
ghost use Rattle.std.specs.Prelude.{◌≡◌, ◌∷◌, [], ◌≤◌, ◌↔◌, IsTrue, Some, length, slice_get, take};
ghost use Rattle.std.specs.Str.{IsUtf8, chars};
ghost use Rattle.ini.specs.Loading.{IsTextWith};
ghost use Rattle.ini_text.specs.Laws.Plain.{IsPlainName};
ghost use Rattle.ini_edit.specs.FirstPairs.{LacksPair, LacksSection};
ghost use Rattle.ini_edit.specs.Renamed.{IsPlainBareKey};
ghost use Rattle.ini_edit.specs.WholeTexts.{IsKeyRenamedText, IsNameRenamedText};
ghost use Rattle.ini_c.specs.Choices.{parse_option, policy_of};
ghost use Rattle.ini_c.specs.Faults.{IsStopAt};
ghost use Rattle.ini_c.specs.LookUps.{name_if};
ghost use Rattle.ini_c.specs.Statuses.{absent, broken, is_among, no_memory, no_room, not_utf8, ok};
ghost use Rattle.ini_c.specs.Statuses.{unplain_key, unplain_name};
ghost use Rattle.ini_c.specs.TextEdits.{AreEdit, IsCountOfText};

use crate::copies::{give, pair_of};
use crate::fault::Fault;
use crate::options::{ReadChoice, WriteChoice};
use crate::refusal::refused;
use crate::{ABSENT, NOT_UTF8};
use ini_edit::{rename_key, rename_section};
use std::alloc::Global;

/// Copies the text out with another key in the place of that of the first pair of the key in the first
/// section of the name; every other byte stays. `ABSENT` where that pair isn't there.
///
/// `NOT_UTF8`, then `UNPLAIN_KEY` where the new key, written in any pair's place, isn't read back, and then
/// `BROKEN` where reading the text stops. `count` is as with `bigrosk_ini_edit_set`.
#[unsafe(no_mangle)]
pub extern "C" fn bigrosk_ini_edit_rename_key(
    alloc: Global,
    text: &[u8],
    read: &ReadChoice,
    write: &WriteChoice,
    named: bool,
    section: &[u8],
    key: &[u8],
    new_key: &[u8],
    out: &mut [u8],
    count: &mut usize,
    fault: &mut Fault,
) -> u32
    ensures not_utf8 { result ≡ not_utf8 ↔ ¬ (AreEdit text.now section.now key.now × IsUtf8 new_key.now) }
    ensures unplain_key { result ≡ unplain_key ↔ ((AreEdit text.now section.now key.now × IsUtf8 new_key.now)
        × ¬ IsPlainBareKey (parse_option read.now) (policy_of write.now.policy) (chars new_key.now)) }
    ensures edited { result ≡ ok → IsTextWith
        (IsKeyRenamedText (parse_option read.now) (policy_of write.now.policy) (chars text.now)
        (name_if named section.now) (chars key.now) (chars new_key.now)) (take count.new out.new) }
    ensures zero { result ≡ ok → slice_get out.new count.new ≡ Some 0 }
    ensures count { result ≡ no_room → IsCountOfText
        (IsKeyRenamedText (parse_option read.now) (policy_of write.now.policy) (chars text.now)
        (name_if named section.now) (chars key.now) (chars new_key.now)) count.new }
    ensures no_room { result ≡ no_room → length out.old ≤ count.new }
    ensures absent { result ≡ absent → LacksPair (parse_option read.now) (chars text.now)
        (name_if named section.now) (chars key.now) }
    ensures broken { result ≡ broken → IsStopAt (parse_option read.now) (chars text.now) fault.new }
    ensures stays { ¬ (result ≡ ok) → out.new ≡ out.old }
    ensures fault_stays { ¬ (result ≡ broken) → fault.new ≡ fault.old }
    ensures statuses { IsTrue (is_among result
        (ok ∷ absent ∷ no_room ∷ broken ∷ not_utf8 ∷ no_memory ∷ unplain_key ∷ [])) }
{
    let Ok(text) = str::from_utf8(text) else {
        return NOT_UTF8;
    };
    let Some((name, key, new_key)) = pair_of(named, section, key, new_key) else {
        return NOT_UTF8;
    };
    let policy = write.to_option().escape_policy;
    match rename_key(alloc, text, read.to_option(), policy, name, key, new_key) {
        Ok(Some(new)) => give(new.as_str(), out, count),
        Ok(None) => ABSENT,
        Err(refusal) => refused(refusal, fault),
    }
}

/// Copies the text out with another name in the header of the first section of the name. Blanks within the
/// old brackets go; every other byte stays. `ABSENT` where the text has no such section.
///
/// `NOT_UTF8`, then `UNPLAIN_NAME` where the new name, written, isn't read back, and then `BROKEN` where
/// reading the text stops. `count` is as with `bigrosk_ini_edit_set`.
#[unsafe(no_mangle)]
pub extern "C" fn bigrosk_ini_edit_rename_section(
    alloc: Global,
    text: &[u8],
    read: &ReadChoice,
    write: &WriteChoice,
    section: &[u8],
    new_name: &[u8],
    out: &mut [u8],
    count: &mut usize,
    fault: &mut Fault,
) -> u32
    ensures not_utf8 { result ≡ not_utf8 ↔ ¬ (AreEdit text.now section.now new_name.now) }
    ensures unplain_name { result ≡ unplain_name ↔ (AreEdit text.now section.now new_name.now
        × ¬ IsPlainName (parse_option read.now) (policy_of write.now.policy) (chars new_name.now)) }
    ensures edited { result ≡ ok → IsTextWith
        (IsNameRenamedText (parse_option read.now) (policy_of write.now.policy) (chars text.now)
        (chars section.now) (chars new_name.now)) (take count.new out.new) }
    ensures zero { result ≡ ok → slice_get out.new count.new ≡ Some 0 }
    ensures count { result ≡ no_room → IsCountOfText
        (IsNameRenamedText (parse_option read.now) (policy_of write.now.policy) (chars text.now)
        (chars section.now) (chars new_name.now)) count.new }
    ensures no_room { result ≡ no_room → length out.old ≤ count.new }
    ensures absent { result ≡ absent → LacksSection (parse_option read.now) (chars text.now)
        (Some (chars section.now)) }
    ensures broken { result ≡ broken → IsStopAt (parse_option read.now) (chars text.now) fault.new }
    ensures stays { ¬ (result ≡ ok) → out.new ≡ out.old }
    ensures fault_stays { ¬ (result ≡ broken) → fault.new ≡ fault.old }
    ensures statuses { IsTrue (is_among result
        (ok ∷ absent ∷ no_room ∷ broken ∷ not_utf8 ∷ no_memory ∷ unplain_name ∷ [])) }
{
    let Ok(text) = str::from_utf8(text) else {
        return NOT_UTF8;
    };
    let Ok(section) = str::from_utf8(section) else {
        return NOT_UTF8;
    };
    let Ok(new_name) = str::from_utf8(new_name) else {
        return NOT_UTF8;
    };
    let policy = write.to_option().escape_policy;
    match rename_section(alloc, text, read.to_option(), policy, section, new_name) {
        Ok(Some(new)) => give(new.as_str(), out, count),
        Ok(None) => ABSENT,
        Err(refusal) => refused(refusal, fault),
    }
}
