//! What differs between two documents. This file knows look-ups and walks of documents by their calls.
ghost use Rattle.std.specs.Prelude.{◌≡◌, ◌↔◌, ◌++◌, [], IfOk, IsOkUnless, OnOk, alloc_error, chars, map};
ghost use Rattle.std.specs.Prelude.{option_and_then};
ghost use Rattle.std.specs.Option.{option_copied};
ghost use Rattle.ini.specs.Properties.{first_value};
ghost use Rattle.ini.specs.Texts.{str_name};
ghost use Rattle.ini_layers.specs.Differences.{HasChangesOf, difference, setting_change};
ghost use Rattle.ini_layers.specs.Inside.Listings.{is_listed, listed_from, listed_in, listed_under};
ghost use Rattle.ini_layers.specs.Inside.Listings.{with_change, with_seen};
ghost use Rattle.ini_layers.specs.Settings.{AnswerAlike};

use crate::change::{Change, is_same_value};
use ini::{Error, Ini, Properties};
use std::alloc::{AllocError, Global};

/// The settings whose values differ, each once: those of `to` in their order there, and then those that `to`
/// lacks, in their order in `from`. A setting's value is that of the first pair of its key in the first
/// section of its name; for another rule the documents are flattened under it before (`Lookup::flattened`).
/// The changes are lent from the two documents.
///
/// # Errors
///
/// `Memory` where memory is refused.
pub fn diff<'a>(alloc: Global, from: &'a Ini, to: &'a Ini) -> Result<Vec<Change<'a>>, Error>
    ensures changes { IfOk result (λ changes. map setting_change changes.items
        ≡ difference from.now to.now) }
    ensures none { IfOk result (λ changes. (changes.items ≡ []) ↔ AnswerAlike from.now to.now) }
    ensures each { IfOk result (λ changes. HasChangesOf from.now to.now (map setting_change changes.items)) }
    ensures only_memory { IsOkUnless result (Error.Memory alloc_error) }
{
    let mut changes = Vec::new(alloc);
    push_changes(alloc, Listing::Differing, from, to, &mut changes)?;
    push_changes(alloc, Listing::Lost, from, to, &mut changes)?;
    Ok(changes)
}

// Which settings are listed.
#[derive(Clone, Copy)]
enum Listing {
    // Those of `to` whose values differ.
    Differing,
    // Those of `from` that `to` lacks.
    Lost,
}

impl Listing {
    // The document whose settings are gone through.
    fn document<'a>(self, from: &'a Ini, to: &'a Ini) -> &'a Ini
        ensures { result.now ≡ listed_in self from.now to.now }
    {
        match self {
            Listing::Differing => to,
            Listing::Lost => from,
        }
    }

    // Whether the change is listed.
    fn has(self, change: Change<'_>) -> bool
        ensures { result ≡ is_listed self (setting_change change.entry) }
    {
        match self {
            Listing::Differing => !is_same_value(change.old, change.new),
            Listing::Lost => change.new.is_none(),
        }
    }
}

// Lists the changes of each section.
fn push_changes<'a>(
    alloc: Global,
    which: Listing,
    from: &'a Ini,
    to: &'a Ini,
    changes: &mut Vec<Change<'a>>,
) -> Result<(), Error>
    ensures listed { OnOk result (map setting_change changes.new.items
        ≡ map setting_change changes.old.items ++ listed_from which from.now to.now) }
    ensures only_memory { IsOkUnless result (Error.Memory alloc_error) }
{
    for name in which.document(from, to).sections() {
        push_section(alloc, which, name, from, to, changes)?;
    }
    Ok(())
}

// Lists the changes of the first section of a name, each key once.
fn push_section<'a>(
    alloc: Global,
    which: Listing,
    name: Option<&'a str>,
    from: &'a Ini,
    to: &'a Ini,
    changes: &mut Vec<Change<'a>>,
) -> Result<(), Error>
    ensures listed { OnOk result (map setting_change changes.new.items
        ≡ map setting_change changes.old.items ++ listed_under which from.now to.now (str_name name.entry)) }
    ensures only_memory { IsOkUnless result (Error.Memory alloc_error) }
{
    let Some(section) = which.document(from, to).section(name) else {
        return Ok(());
    };
    let old = from.section(name);
    let new = to.section(name);
    let mut seen = Properties::new(alloc);
    for (key, _) in section {
        let change = Change {
            name,
            key,
            old: value_in(old, key),
            new: value_in(new, key),
        };
        push_change(which, change, &mut seen, changes)?;
    }
    Ok(())
}

// Lists a change, unless its key was seen.
fn push_change<'a>(
    which: Listing,
    change: Change<'a>,
    seen: &mut Properties,
    changes: &mut Vec<Change<'a>>,
) -> Result<(), Error>
    ensures listed { OnOk result (map setting_change changes.new.items
        ≡ with_change which (setting_change change.entry) seen.old (map setting_change changes.old.items)) }
    ensures seen { OnOk result (seen.new ≡ with_seen which (setting_change change.entry) seen.old) }
    ensures only_memory { IsOkUnless result (Error.Memory alloc_error) }
{
    if !which.has(change) || seen.contains_key(change.key) {
        return Ok(());
    }
    seen.append(change.key, "")?;
    changes.push(change).map_err(AllocError::from)?;
    Ok(())
}

// The first value of a key in a section that may be there.
fn value_in<'a>(section: Option<&'a Properties>, key: &str) -> Option<&'a str>
    ensures { str_name result ≡ option_and_then (first_value (chars key.now))
        (option_copied section.entry) }
{
    match section {
        Some(section) => section.get(key),
        None => None,
    }
}
