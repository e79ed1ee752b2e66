//! Edits of a text that are refused, as C sees them. This file knows the kinds of refusals, and no edit.
ghost use Rattle.std.specs.Prelude.{◌≡◌, ◌∷◌, [], ◌↔◌, IsTrue};
ghost use Rattle.ini_edit.specs.declared.error.EditError.TheVariants.{Key, Name, NoPlace, Value};
ghost use Rattle.ini_c.specs.Statuses.{broken, is_among, no_memory, no_place};
ghost use Rattle.ini_c.specs.Statuses.{unplain_key, unplain_name, unplain_value};
ghost use Rattle.ini_c.specs.TextEdits.{IsTextFault, TellsEditError};

use crate::fault::{Fault, tell};
use crate::{BROKEN, NO_MEMORY, NO_PLACE, UNPLAIN_KEY, UNPLAIN_NAME, UNPLAIN_VALUE};
use ini_edit::EditError;
use ini_text::Error;

// The status of a refusal of an edit of a text in pieces, which breaks no grammar. Of the kinds without a
// status none comes here but memory's.
pub(crate) fn status_of(refusal: EditError) -> u32
    ensures value { result ≡ unplain_value ↔ (refusal ≡ Value) }
    ensures key { result ≡ unplain_key ↔ (refusal ≡ Key) }
    ensures name { result ≡ unplain_name ↔ (refusal ≡ Name) }
    ensures no_place { result ≡ no_place ↔ (refusal ≡ NoPlace) }
    ensures statuses { IsTrue (is_among result
        (no_memory ∷ unplain_value ∷ unplain_key ∷ no_place ∷ unplain_name ∷ [])) }
{
    match refusal {
        EditError::Value => UNPLAIN_VALUE,
        EditError::Key => UNPLAIN_KEY,
        EditError::Name => UNPLAIN_NAME,
        EditError::NoPlace => NO_PLACE,
        EditError::Text(_) | EditError::Separator => NO_MEMORY,
    }
}

// The status of a refusal. Where the text breaks the grammar the fault tells of it. Of the kinds without a
// status none comes here but memory's.
pub(crate) fn refused(refusal: EditError, fault: &mut Fault) -> u32
    ensures broken { result ≡ broken ↔ IsTextFault refusal }
    ensures told { result ≡ broken → TellsEditError refusal fault.new }
    ensures value { result ≡ unplain_value ↔ (refusal ≡ Value) }
    ensures key { result ≡ unplain_key ↔ (refusal ≡ Key) }
    ensures name { result ≡ unplain_name ↔ (refusal ≡ Name) }
    ensures no_place { result ≡ no_place ↔ (refusal ≡ NoPlace) }
    ensures fault_stays { ¬ (result ≡ broken) → fault.new ≡ fault.old }
    ensures statuses { IsTrue (is_among result
        (broken ∷ no_memory ∷ unplain_value ∷ unplain_key ∷ no_place ∷ unplain_name ∷ [])) }
{
    match refusal {
        EditError::Text(Error::Parse(stop)) => {
            tell(&stop, fault);
            BROKEN
        }
        EditError::Value => UNPLAIN_VALUE,
        EditError::Key => UNPLAIN_KEY,
        EditError::Name => UNPLAIN_NAME,
        EditError::NoPlace => NO_PLACE,
        EditError::Text(_) | EditError::Separator => NO_MEMORY,
    }
}
