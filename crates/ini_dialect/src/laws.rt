//! Laws of look-ups and edits under a rule, and of encodings, each the contract of a function that does
//! nothing. They speak of the definitions alone.
ghost use Rattle.std.specs.Prelude.{◌≡◌, ◌++◌, ℕ, List, Option, Some};
ghost use Rattle.ini.specs.Texts.{Text};
ghost use Rattle.ini_dialect.specs.EncodingLaws.{BeginsWithMark, ChangesInside};
ghost use Rattle.ini_dialect.specs.EncodingNames.{marked};
ghost use Rattle.ini_dialect.specs.Encodings.{IsDecoded, IsMalformedAt, IsUnencodableAt, encoded};
ghost use Rattle.ini_dialect.specs.Lists.{AreReadBack, list_text};
ghost use Rattle.ini_dialect.specs.LookupLaws.{AnswersAsCrate, AnswersNothing, AnswersSet};
ghost use Rattle.ini_dialect.specs.LookupLaws.{KeepsOtherLookups, KeepsOtherSections, KeepsUnrenamed};
ghost use Rattle.ini_dialect.specs.LookupLaws.{LosesSections, MovesValues};
ghost use Rattle.ini_dialect.specs.Lookups.{delete_under, set_under};
ghost use Rattle.ini_dialect.specs.Rules.{default_lookup};
ghost use Rattle.ini_dialect.specs.declared.encoding.Encoding.{Encoding};
ghost use Rattle.ini_dialect.specs.declared.rule.Lookup.{Lookup};

/// After `set` the look-up answers the value; by each name or key that doesn't fit it answers what it
/// answered.
pub fn set_is_found()
    ensures found { (rule : Lookup) (name : Option Text) (key value : Text)
        → AnswersSet rule name key value }
    ensures others { (rule : Lookup) (name : Option Text) (key value : Text)
        → KeepsOtherLookups rule name key (set_under rule name key value) }
{}

/// After `delete` the look-up answers nothing; by each name or key that doesn't fit, what it answered.
pub fn deleted_is_gone()
    ensures gone { (rule : Lookup) (name : Option Text) (key : Text) → AnswersNothing rule name key }
    ensures others { (rule : Lookup) (name : Option Text) (key : Text)
        → KeepsOtherLookups rule name key (delete_under rule name key) }
{}

/// After the pairs of a key have another key a look-up by the old one answers nothing, where the other
/// doesn't fit it; by the other one what it answered by the old one, where the other had no value; by each
/// name that doesn't fit, and each key that fits neither, what it answered.
pub fn renamed_keys_are_found()
    ensures moved { (rule : Lookup) (name : Option Text) (key other : Text)
        → MovesValues rule name key other }
    ensures others { (rule : Lookup) (name : Option Text) (key other : Text)
        → KeepsUnrenamed rule name key other }
{}

/// After the sections of a name are taken out a look-up there answers nothing, where sections are joined; by
/// each name that doesn't fit it answers what it answered.
pub fn deleted_sections_are_gone()
    ensures gone { (rule : Lookup) (name : Text) → LosesSections rule name }
    ensures others { (rule : Lookup) (name : Text) → KeepsOtherSections rule name }
{}

/// The list of values that `list_text` writes is read back by `list_values`; so two lists of values have the
/// same text only where they are the same.
pub fn lists_are_read_back()
    ensures back { (values : List Text) → AreReadBack values }
    ensures same { (values others : List Text) → list_text values ≡ list_text others → values ≡ others }
{}

/// By the default rule a look-up answers what `get_from`, `get_all`, `sections` and a walk over the first
/// section's keys answer.
pub fn default_is_the_crates()
    ensures { AnswersAsCrate default_lookup }
{}

/// Encoding what was decoded gives the bytes back, and decoding what was encoded gives the text back;
/// neither is refused.
pub fn codings_are_inverse()
    ensures bytes_back { (encoding : Encoding) (bytes text : List ℕ) → IsDecoded encoding bytes text
        → encoded encoding text ≡ Some bytes }
    ensures text_back { (encoding : Encoding) (bytes text other : List ℕ) → IsDecoded encoding bytes text
        → IsDecoded encoding bytes other → other ≡ text }
    ensures decodes { (encoding : Encoding) (bytes text : List ℕ) (line column : ℕ)
        → IsDecoded encoding bytes text → ¬ (IsMalformedAt encoding bytes line column) }
    ensures encodes { (encoding : Encoding) (text bytes : List ℕ) (character line column : ℕ)
        → encoded encoding text ≡ Some bytes → ¬ (IsUnencodableAt encoding text character line column) }
{}

/// A change of a part of a text changes the bytes of that part alone.
pub fn other_bytes_stay()
    ensures { (encoding : Encoding) (front old new back before after : List ℕ)
        → encoded encoding (front ++ (old ++ back)) ≡ Some before
        → encoded encoding (front ++ (new ++ back)) ≡ Some after
        → ChangesInside encoding front old new back before after }
{}

/// A byte order mark that tells an encoding is the text's first character, U+FEFF.
pub fn mark_is_a_character()
    ensures { (encoding : Encoding) (bytes text : List ℕ) → marked bytes ≡ Some encoding
        → IsDecoded encoding bytes text → BeginsWithMark encoding bytes text }
{}
