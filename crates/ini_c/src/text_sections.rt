//! A section taken out of a text itself. This file knows nothing of what a section holds.
ghost use Rattle.std.specs.Prelude.{◌≡◌, ◌∷◌, [], ◌≤◌, ◌↔◌, IsTrue, Some, length, slice_get, take};
ghost use Rattle.std.specs.Str.{chars};
ghost use Rattle.ini.specs.Loading.{IsTextWith};
ghost use Rattle.ini_edit.specs.FirstPairs.{LacksSection};
ghost use Rattle.ini_edit.specs.WholeTexts.{IsSectionDeletedText};
ghost use Rattle.ini_c.specs.Choices.{parse_option};
ghost use Rattle.ini_c.specs.Faults.{IsStopAt};
ghost use Rattle.ini_c.specs.LookUps.{AreTexts};
ghost use Rattle.ini_c.specs.Statuses.{absent, broken, is_among, no_memory, no_room, not_utf8, ok};
ghost use Rattle.ini_c.specs.TextEdits.{IsCountOfText};

use crate::copies::give;
use crate::fault::Fault;
use crate::options::ReadChoice;
use crate::refusal::refused;
use crate::{ABSENT, NOT_UTF8};
use ini_edit::delete_section;
use std::alloc::Global;

/// Copies the text out without the first section of the name and all that follows it, but for the comments
/// directly above the next header, and what indents that, which stay. Every other byte stays. `ABSENT` where
/// the text has no such section; the general one, which has no name, doesn't go.
///
/// `NOT_UTF8`, and then `BROKEN` where reading the text stops. `count` is as with `bigrosk_ini_edit_set`.
#[unsafe(no_mangle)]
pub extern "C" fn bigrosk_ini_edit_delete_section(
    alloc: Global,
    text: &[u8],
    read: &ReadChoice,
    section: &[u8],
    out: &mut [u8],
    count: &mut usize,
    fault: &mut Fault,
) -> u32
    ensures not_utf8 { result ≡ not_utf8 ↔ ¬ (AreTexts text.now section.now) }
    ensures edited { result ≡ ok → IsTextWith (IsSectionDeletedText (parse_option read.now) (chars text.now)
        (chars section.now)) (take count.new out.new) }
    ensures zero { result ≡ ok → slice_get out.new count.new ≡ Some 0 }
    ensures count { result ≡ no_room → IsCountOfText (IsSectionDeletedText (parse_option read.now)
        (chars text.now) (chars section.now)) count.new }
    ensures no_room { result ≡ no_room → length out.old ≤ count.new }
    ensures absent { result ≡ absent → LacksSection (parse_option read.now) (chars text.now)
        (Some (chars section.now)) }
    ensures broken { result ≡ broken → IsStopAt (parse_option read.now) (chars text.now) fault.new }
    ensures stays { ¬ (result ≡ ok) → out.new ≡ out.old }
    ensures fault_stays { ¬ (result ≡ broken) → fault.new ≡ fault.old }
    ensures statuses { IsTrue (is_among result
        (ok ∷ absent ∷ no_room ∷ broken ∷ not_utf8 ∷ no_memory ∷ [])) }
{
    let Ok(text) = str::from_utf8(text) else {
        return NOT_UTF8;
    };
    let Ok(section) = str::from_utf8(section) else {
        return NOT_UTF8;
    };
    match delete_section(alloc, text, read.to_option(), section) {
        Ok(Some(new)) => give(new.as_str(), out, count),
        Ok(None) => ABSENT,
        Err(refusal) => refused(refusal, fault),
    }
}
