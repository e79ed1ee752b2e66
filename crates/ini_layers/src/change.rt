//! A change of a setting, and what its value is. This file knows documents by the rule's calls.
ghost use Rattle.std.specs.Prelude.{◌≡◌, IfOk, IsOkUnless, alloc_error};
ghost use Rattle.ini.specs.Texts.{is_name, str_name};
ghost use Rattle.ini_dialect.specs.Walks.{any_document};
ghost use Rattle.ini_layers.specs.Settings.{flat_by};

use ini::{Error, Ini};
use ini_dialect::{AnyDocument, Lookup};
use ini_text::is_same_text;
use std::alloc::Global;

/// A setting whose value differs between two documents.
#[derive(Clone, Copy, Debug)]
pub struct Change<'a> {
    /// The name of its section; `None` is the general section's.
    pub name: Option<&'a str>,
    /// Its key.
    pub key: &'a str,
    /// Its value in the first document; `None` where it isn't there.
    pub old: Option<&'a str>,
    /// Its value in the second one; `None` where it isn't there.
    pub new: Option<&'a str>,
}

/// What a setting's value is where its key has several.
#[derive(Clone, Copy, PartialEq, Eq, Debug)]
pub enum SettingValue {
    /// The one that counts under the look-up rule.
    Counting,
    /// The list of all that are looked at, as `list_text` writes it: compared, changed and merged as a whole.
    List,
}

impl SettingValue {
    /// A document in which each setting has its value under the rule, and no other: `Lookup::flattened`, or
    /// `Lookup::listed`. Refused when out of memory alone.
    pub fn flat(
        self,
        alloc: Global,
        rule: Lookup,
        document: AnyDocument<'_, '_>,
    ) -> Result<Ini, Error>
        ensures flat { IfOk result (λ flat. flat ≡ flat_by self rule (any_document document.entry)) }
        ensures only_memory { IsOkUnless result (Error.Memory alloc_error) }
    {
        match self {
            SettingValue::Counting => rule.flattened(alloc, document),
            SettingValue::List => rule.listed(alloc, document),
        }
    }
}

// Whether two look-ups answer the same.
pub(crate) fn is_same_value(one: Option<&str>, other: Option<&str>) -> bool
    ensures { result ≡ is_name (str_name one.entry) (str_name other.entry) }
{
    match (one, other) {
        (Some(one), Some(other)) => is_same_text(one, other),
        (None, None) => true,
        _ => false,
    }
}
