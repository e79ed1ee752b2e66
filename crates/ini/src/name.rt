//! Names of sections: owned, lent, copied, and what stands for one in a setter. This file knows no document.
ghost use Rattle.std.specs.Prelude.{◌≡◌, IfOk, Option};
ghost use Rattle.ini.specs.Texts.{Text, is_name, name_of, str_name};
ghost use Rattle.ini.specs.Setter.{lent_name};
ghost use Rattle.ini.specs.Inside.LentNames.{IsTextName};

use ini_text::is_same_text;
use std::alloc::{AllocError, Global};

/// The name of a section; `None` is the general section's.
pub type SectionKey = Option<String>;

// The name, lent.
pub(crate) fn lent(name: &SectionKey) -> Option<&str>
    ensures { str_name result ≡ name_of name.now }
{
    match name {
        Some(text) => Some(text.as_str()),
        None => None,
    }
}

// The name, copied.
pub(crate) fn owned_name(alloc: Global, name: Option<&str>) -> Result<SectionKey, AllocError>
    ensures { IfOk result (λ copy. name_of copy ≡ str_name name.entry) }
{
    match name {
        Some(text) => Ok(Some(String::from_str(alloc, text)?)),
        None => Ok(None),
    }
}

// A name that is lent is UTF-8: nothing to do, a fact for the proofs of the callers, which have the name
// by its type alone.
pub(crate) fn name_is_text(name: Option<&str>)
    ensures { IsTextName name.entry }
{
    let _ = name;
}

// Whether two names are the same.
pub(crate) fn is_same_name(one: Option<&str>, other: Option<&str>) -> bool
    ensures { result ≡ is_name (str_name one.entry) (str_name other.entry) }
{
    match (one, other) {
        (Some(one), Some(other)) => is_same_text(one, other),
        (None, None) => true,
        _ => false,
    }
}

/// What stands for the name of a section. It is public since setters name it in their type. Anyone may
/// implement it, to no use: `with_section` makes setters by `LentName` alone.
pub trait SectionName: Copy + Drop {
    // The name that it stands for.
    ghost section_name: { Self → Option Text };

    /// The name; `None` is the general section's.
    fn name(&self) -> Option<&str>
        ensures { str_name result ≡ section_name self.now };
}

/// A name that is lent.
#[derive(Clone, Copy)]
pub struct LentName<'n> {
    named: bool,
    text: &'n str,
}

impl<'n> LentName<'n> {
    pub(crate) fn new(name: Option<&'n str>) -> LentName<'n>
        ensures { lent_name result ≡ str_name name.entry }
    {
        match name {
            Some(text) => LentName { named: true, text },
            None => LentName {
                named: false,
                text: "",
            },
        }
    }
}

impl<'n> SectionName for LentName<'n> {
    ghost section_name = { lent_name };

    fn name(&self) -> Option<&str> {
        if self.named { Some(self.text) } else { None }
    }
}
