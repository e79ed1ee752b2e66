//! Laws of edits: what is there after one, and what it leaves as it is. They speak of the definitions alone.
//!
//! Each law goes over all names, keys, values and documents, so it takes nothing: a caller whose proof
//! needs it calls it beside the edit.
ghost use Rattle.std.specs.Prelude.{◌≡◌, ◌≤◌, ◌++◌, [], ◌∷◌, IsSome, None, Option, Some, length};
ghost use Rattle.ini.specs.Texts.{Text};
ghost use Rattle.ini.specs.Properties.{Pairs, all_removed, first_value, inserted, removed};
ghost use Rattle.ini.specs.Documents.{Document, all_sections_removed, first_section, section_removed};
ghost use Rattle.ini.specs.Documents.{value_in};
ghost use Rattle.ini.specs.Edits.{add_in, delete_in, delete_in_all, replace_in, section_put};
ghost use Rattle.ini.specs.Edits.{rename_key_in, section_renamed, section_set, set_in};
ghost use Rattle.ini.specs.EditLaws.{KeepsGeneral, KeepsLaterSections, KeepsNames};
ghost use Rattle.ini.specs.EditLaws.{KeepsOtherKeys, KeepsOtherKeysIn};
ghost use Rattle.ini.specs.EditLaws.{KeepsOtherNames, KeepsOtherPairs, KeepsOtherSections};
ghost use Rattle.ini.specs.EditLaws.{KeepsOtherValues, KeepsRest, values_in};

/// What was inserted is there.
#[tactic(auto, using(crate::proofs::EditLawLemmas::there))]
pub fn inserted_is_there()
    ensures { (key value : Text) (pairs : Pairs) → first_value key (inserted key value pairs) ≡ Some value }
{}

/// What was set is there.
#[tactic(auto, using(crate::proofs::EditLawLemmas::there))]
pub fn set_is_there()
    ensures { (name : Option Text) (key value : Text) (d : Document)
        → value_in name key (set_in name key value d) ≡ Some value }
{}

/// What was written through a reference into a section, an entry, or a reference to a value, is there.
#[tactic(auto, using(crate::proofs::EditLawLemmas::there))]
pub fn lent_is_there()
    ensures section { (name : Option Text) (pairs : Pairs) (d : Document)
        → IsSome (first_section name d) → first_section name (section_set name pairs d) ≡ Some pairs }
    ensures entry { (name : Option Text) (pairs : Pairs) (d : Document)
        → first_section name (section_put name pairs d) ≡ Some pairs }
    ensures value { (name : Option Text) (key value : Text) (d : Document)
        → IsSome (value_in name key d) → value_in name key (replace_in name key value d) ≡ Some value }
{}

/// Where a section has one pair of the key at most, the key isn't there once it was deleted.
#[tactic(auto, using(crate::proofs::EditLawLemmas::gone))]
pub fn deleted_is_gone()
    ensures delete { (name : Option Text) (key : Text) (d : Document)
        → length (values_in name key d) ≤ 1 → value_in name key (delete_in_all name key d) ≡ None }
    ensures delete_from { (name : Option Text) (key : Text) (d : Document)
        → length (values_in name key d) ≤ 1 → value_in name key (delete_in name key d) ≡ None }
{}

/// The other keys keep their first values.
#[tactic(auto, using(crate::proofs::EditLawLemmas::keys))]
pub fn other_keys_stay()
    ensures insert { (key value : Text) → KeepsOtherKeys key (inserted key value) }
    ensures append { (key value : Text) → KeepsOtherKeys key (λ pairs. pairs ++ (key, value) ∷ []) }
    ensures remove { (key : Text) → KeepsOtherKeys key (removed key) }
    ensures remove_all { (key : Text) → KeepsOtherKeys key (all_removed key) }
{}

/// The other keys keep all their values, in order.
#[tactic(auto, using(crate::proofs::EditLawLemmas::values))]
pub fn other_values_stay()
    ensures insert { (key value : Text) → KeepsOtherValues key (inserted key value) }
    ensures append { (key value : Text) → KeepsOtherValues key (λ pairs. pairs ++ (key, value) ∷ []) }
    ensures remove { (key : Text) → KeepsOtherValues key (removed key) }
    ensures remove_all { (key : Text) → KeepsOtherValues key (all_removed key) }
{}

/// The pairs of the other keys stay, in order, repeated keys among them.
#[tactic(auto, using(crate::proofs::EditLawLemmas::pairs))]
pub fn other_pairs_stay()
    ensures insert { (key value : Text) → KeepsOtherPairs key (inserted key value) }
    ensures append { (key value : Text) → KeepsOtherPairs key (λ pairs. pairs ++ (key, value) ∷ []) }
    ensures remove { (key : Text) → KeepsOtherPairs key (removed key) }
{}

/// The other names keep their first sections.
#[tactic(auto, using(crate::proofs::EditLawLemmas::names))]
pub fn other_names_stay()
    ensures set { (name : Option Text) (key value : Text) → KeepsOtherNames name (set_in name key value) }
    ensures add { (name : Option Text) (key value : Text) → KeepsOtherNames name (add_in name key value) }
    ensures delete { (name : Option Text) (key : Text) → KeepsOtherNames name (delete_in_all name key) }
    ensures delete_from { (name : Option Text) (key : Text) → KeepsOtherNames name (delete_in name key) }
    ensures replace { (name : Option Text) (key value : Text)
        → KeepsOtherNames name (replace_in name key value) }
    ensures delete_section { (name : Option Text) → KeepsOtherNames name (section_removed name) }
    ensures delete_sections { (name : Option Text) → KeepsOtherNames name (all_sections_removed name) }
    ensures lent { (name : Option Text) (pairs : Pairs) → KeepsOtherNames name (section_set name pairs) }
    ensures entry { (name : Option Text) (pairs : Pairs) → KeepsOtherNames name (section_put name pairs) }
{}

/// The other names keep all their sections, in order.
#[tactic(auto, using(crate::proofs::EditLawLemmas::sections))]
pub fn other_sections_stay()
    ensures set { (name : Option Text) (key value : Text) → KeepsOtherSections name (set_in name key value) }
    ensures add { (name : Option Text) (key value : Text) → KeepsOtherSections name (add_in name key value) }
    ensures delete { (name : Option Text) (key : Text) → KeepsOtherSections name (delete_in_all name key) }
    ensures delete_from { (name : Option Text) (key : Text) → KeepsOtherSections name (delete_in name key) }
    ensures replace { (name : Option Text) (key value : Text)
        → KeepsOtherSections name (replace_in name key value) }
    ensures delete_section { (name : Option Text) → KeepsOtherSections name (section_removed name) }
    ensures delete_sections { (name : Option Text) → KeepsOtherSections name (all_sections_removed name) }
    ensures lent { (name : Option Text) (pairs : Pairs) → KeepsOtherSections name (section_set name pairs) }
    ensures entry { (name : Option Text) (pairs : Pairs) → KeepsOtherSections name (section_put name pairs) }
{}

/// In the first section of the name the other keys keep their first values.
#[tactic(auto, using(crate::proofs::EditLawLemmas::keys_in))]
pub fn other_keys_in_the_section_stay()
    ensures set { (name : Option Text) (key value : Text)
        → KeepsOtherKeysIn name key (set_in name key value) }
    ensures add { (name : Option Text) (key value : Text)
        → KeepsOtherKeysIn name key (add_in name key value) }
    ensures delete { (name : Option Text) (key : Text)
        → KeepsOtherKeysIn name key (delete_in_all name key) }
    ensures delete_from { (name : Option Text) (key : Text)
        → KeepsOtherKeysIn name key (delete_in name key) }
    ensures replace { (name : Option Text) (key value : Text)
        → KeepsOtherKeysIn name key (replace_in name key value) }
{}

/// A section that is there stays there.
#[tactic(auto, using(crate::proofs::EditLawLemmas::names_there))]
pub fn sections_stay_there()
    ensures set { (name : Option Text) (key value : Text) → KeepsNames (set_in name key value) }
    ensures add { (name : Option Text) (key value : Text) → KeepsNames (add_in name key value) }
    ensures delete { (name : Option Text) (key : Text) → KeepsNames (delete_in_all name key) }
    ensures delete_from { (name : Option Text) (key : Text) → KeepsNames (delete_in name key) }
    ensures replace { (name : Option Text) (key value : Text) → KeepsNames (replace_in name key value) }
    ensures lent { (name : Option Text) (pairs : Pairs) → KeepsNames (section_set name pairs) }
    ensures entry { (name : Option Text) (pairs : Pairs) → KeepsNames (section_put name pairs) }
{}

/// A general section stays there, but where it is itself taken out or renamed. `clear` takes it out.
#[tactic(auto, using(crate::proofs::GeneralLawLemmas::general))]
pub fn general_stays()
    ensures set { (name : Option Text) (key value : Text) → KeepsGeneral (set_in name key value) }
    ensures add { (name : Option Text) (key value : Text) → KeepsGeneral (add_in name key value) }
    ensures delete { (name : Option Text) (key : Text) → KeepsGeneral (delete_in_all name key) }
    ensures delete_from { (name : Option Text) (key : Text) → KeepsGeneral (delete_in name key) }
    ensures replace { (name : Option Text) (key value : Text) → KeepsGeneral (replace_in name key value) }
    ensures rename_key { (name : Option Text) (key other : Text)
        → KeepsGeneral (rename_key_in name key other) }
    ensures lent { (name : Option Text) (pairs : Pairs) → KeepsGeneral (section_set name pairs) }
    ensures entry { (name : Option Text) (pairs : Pairs) → KeepsGeneral (section_put name pairs) }
    ensures append { (name : Option Text) (pairs : Pairs) → KeepsGeneral (λ d. d ++ (name, pairs) ∷ []) }
    ensures delete_section { (name : Text) → KeepsGeneral (section_removed (Some name)) }
    ensures delete_sections { (name : Text) → KeepsGeneral (all_sections_removed (Some name)) }
    ensures rename_section { (name : Text) (other : Option Text)
        → KeepsGeneral (section_renamed (Some name) other) }
{}

/// All stays in order but the pairs of the key in the sections of the name.
#[tactic(auto, using(crate::proofs::EditLawLemmas::rest))]
pub fn rest_stays()
    ensures set { (name : Option Text) (key value : Text) → KeepsRest name key (set_in name key value) }
    ensures add { (name : Option Text) (key value : Text) → KeepsRest name key (add_in name key value) }
    ensures delete { (name : Option Text) (key : Text) → KeepsRest name key (delete_in_all name key) }
    ensures delete_from { (name : Option Text) (key : Text) → KeepsRest name key (delete_in name key) }
    ensures replace { (name : Option Text) (key value : Text)
        → KeepsRest name key (replace_in name key value) }
{}

/// The later sections of the name stay.
#[tactic(auto, using(crate::proofs::EditLawLemmas::later))]
pub fn later_sections_stay()
    ensures set { (name : Option Text) (key value : Text) → KeepsLaterSections name (set_in name key value) }
    ensures add { (name : Option Text) (key value : Text) → KeepsLaterSections name (add_in name key value) }
    ensures delete_from { (name : Option Text) (key : Text) → KeepsLaterSections name (delete_in name key) }
    ensures replace { (name : Option Text) (key value : Text)
        → KeepsLaterSections name (replace_in name key value) }
{}

/// Where the name has no section, the document stays whole, and a new section, with the one pair or with
/// the pairs of an entry, comes after it.
#[tactic(auto, using(crate::proofs::EditLawLemmas::opened))]
pub fn new_section_comes_last()
    ensures set { (name : Option Text) (key value : Text) (d : Document)
        → first_section name d ≡ None → set_in name key value d ≡ d ++ (name, (key, value) ∷ []) ∷ [] }
    ensures add { (name : Option Text) (key value : Text) (d : Document)
        → first_section name d ≡ None → add_in name key value d ≡ d ++ (name, (key, value) ∷ []) ∷ [] }
    ensures entry { (name : Option Text) (pairs : Pairs) (d : Document)
        → first_section name d ≡ None → section_put name pairs d ≡ d ++ (name, pairs) ∷ [] }
{}
