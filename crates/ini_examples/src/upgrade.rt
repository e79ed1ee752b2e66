//! A new default file with a user's own changes in it: those between the old default and the user's file.
ghost use Rattle.std.specs.Prelude.{IfOk};
ghost use Rattle.ini_dialect.specs.Rules.{default_lookup};
ghost use Rattle.ini_edit.specs.Sources.{document_in};
ghost use Rattle.ini_layers.specs.Merging.{IsMerged};
ghost use Rattle.ini_layers.specs.declared.merging.Side.TheVariants.{Ours};

use ini::{Ini, WriteOption};
use ini_dialect::Lookup;
use ini_edit::{RefusedEdit, Source};
use ini_layers::{Side, merge};
use std::alloc::Global;

/// The new default, where the user's value stands if both changed a setting.
pub fn upgraded<'n>(
    alloc: Global,
    old_default: &Ini,
    users: &Ini,
    new_default: &Source<'n>,
) -> Result<Source<'n>, RefusedEdit>
    ensures { IfOk result (λ new. IsMerged default_lookup Ours old_default.now users.now
        (document_in new_default.now) (document_in new)) }
{
    let write = WriteOption::default();
    merge(
        alloc,
        Lookup::default(),
        &write,
        old_default,
        users,
        new_default,
        Side::Ours,
    )
}

/// The same of three texts, as a text.
pub fn upgraded_text(
    alloc: Global,
    old_default: &str,
    users: &str,
    new_default: &str,
) -> Result<Option<String>, ini::Error> {
    let old_default = Ini::load_from_str(alloc, old_default)?;
    let users = Ini::load_from_str(alloc, users)?;
    let new_default = Source::read(alloc, new_default, ini::ParseOption::default())?;
    let Ok(new) = upgraded(alloc, &old_default, &users, &new_default) else {
        return Ok(None);
    };
    let text = new.to_text(alloc)?;
    Ok(Some(text))
}
