//! A law of merges, the contract of a function that does nothing. It speaks of the definitions alone.
ghost use Rattle.ini.specs.Documents.{Document};
ghost use Rattle.ini_dialect.specs.declared.rule.Lookup.{Lookup};
ghost use Rattle.ini_layers.specs.Merging.{ChangePlaces};
ghost use Rattle.ini_layers.specs.declared.change.SettingValue.{SettingValue};

/// Where no setting is in conflict both ways round give the same values under the rule: theirs with the
/// changes of ours, and ours with the changes of theirs.
pub fn sides_change_places()
    ensures { (which : SettingValue) (rule : Lookup) (base ours theirs : Document)
        → ChangePlaces which rule base ours theirs }
{}
