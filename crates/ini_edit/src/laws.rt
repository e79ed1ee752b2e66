//! Laws of edited texts, each the contract of a function that does nothing: a caller whose proof needs one
//! calls it beside the edit.
ghost use Rattle.std.specs.Prelude.{chars};
ghost use Rattle.ini_edit.specs.Exchanges.{EditsChangePlaces};
ghost use Rattle.ini_edit.specs.KeptPlaces.{ColumnsStay};

use ini_text::{EscapePolicy, ParseOption};

/// Two pairs that are there are edited, each given another value or taken out: in either order the texts load
/// as one document, where the keys are different ones, or those of sections with different names.
pub fn edits_change_places(text: &str, policy: EscapePolicy, read: ParseOption)
    ensures { EditsChangePlaces read policy (chars text.now) }
{}

/// After a line feed a place has its column in the old text and in the new one, if what stands after the
/// edited stretches is the same: where a text is edited, only places of that line move.
pub fn columns_stay(old: &str, new: &str, line: &str)
    ensures { ColumnsStay (chars old.now) (chars new.now) (chars line.now) }
{}
