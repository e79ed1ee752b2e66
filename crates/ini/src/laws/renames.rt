//! Laws of sections and keys that get another name at their place. They speak of the definitions alone.
//!
//! Each law goes over all names, keys, values and documents, so it takes nothing: a caller whose proof
//! needs it calls it beside the edit.
ghost use Rattle.std.specs.Prelude.{◌≡◌, false, None, Option, Some};
ghost use Rattle.std.specs.Map.{values_of};
ghost use Rattle.ini.specs.Texts.{Text, is_name, is_text};
ghost use Rattle.ini.specs.Properties.{Pairs};
ghost use Rattle.ini.specs.Documents.{Document, first_section, sections_named, value_in};
ghost use Rattle.ini.specs.Edits.{rename_key_in, section_renamed};
ghost use Rattle.ini.specs.EditLaws.{KeepsLaterSections, KeepsNames, KeepsOtherNames, KeepsOtherSections};

/// A section is there by the name that it got, and a value by its key, where nothing had that name or key.
#[tactic(auto, using(crate::proofs::RenameLawLemmas::there))]
pub fn renamed_is_there()
    ensures section { (name other : Option Text) (pairs : Pairs) (d : Document)
        → first_section name d ≡ Some pairs → first_section other d ≡ None
        → first_section other (section_renamed name other d) ≡ Some pairs }
    ensures key { (name : Option Text) (key other value : Text) (d : Document)
        → value_in name key d ≡ Some value → value_in name other d ≡ None
        → value_in name other (rename_key_in name key other d) ≡ Some value }
{}

/// Names but the old and the new one keep their sections, all of them, in order.
#[tactic(auto, using(crate::proofs::RenameLawLemmas::names))]
pub fn other_names_stay()
    ensures first { (name other third : Option Text) (d : Document)
        → is_name third name ≡ false → is_name third other ≡ false
        → first_section third (section_renamed name other d) ≡ first_section third d }
    ensures sections { (name other third : Option Text) (d : Document)
        → is_name third name ≡ false → is_name third other ≡ false
        → sections_named third (section_renamed name other d) ≡ sections_named third d }
    ensures pairs { (name other : Option Text) (d : Document)
        → values_of (section_renamed name other d) ≡ values_of d }
{}

/// Where a key is another one, the keys but these two keep their first values in that section, and the other
/// sections stay.
#[tactic(auto, using(crate::proofs::RenameLawLemmas::keys))]
pub fn other_keys_stay()
    ensures keys { (name : Option Text) (key other third : Text) (d : Document)
        → is_text third key ≡ false → is_text third other ≡ false
        → value_in name third (rename_key_in name key other d) ≡ value_in name third d }
    ensures first { (name : Option Text) (key other : Text)
        → KeepsOtherNames name (rename_key_in name key other) }
    ensures sections { (name : Option Text) (key other : Text)
        → KeepsOtherSections name (rename_key_in name key other) }
    ensures there { (name : Option Text) (key other : Text) → KeepsNames (rename_key_in name key other) }
    ensures later { (name : Option Text) (key other : Text)
        → KeepsLaterSections name (rename_key_in name key other) }
{}
