//! Numbers, from 0, of the sections and pairs that count. This file knows the walks over sections and pairs.
ghost use Rattle.std.specs.Prelude.{◌≡◌, ◌&&◌, IfNone, IfSome, Some, chars, if◌then◌else◌};
ghost use Rattle.ini.specs.Texts.{str_name};
ghost use Rattle.ini_dialect.specs.Inside.{IsSettingAt, takes_first_value};
ghost use Rattle.ini_dialect.specs.Lookups.{has_key, text_fits};
ghost use Rattle.ini_dialect.specs.Numbers.{CountsAt, NonePasses, has_key_or_any, holder_key, holder_order};
ghost use Rattle.ini_dialect.specs.Numbers.{new_order, passes_key};
ghost use Rattle.ini_dialect.specs.Walks.{any_document, any_section, shown_section};

use crate::rule::{Lookup, SectionRule, ValueRule};
use crate::walk::{AnyDocument, AnySection};

impl Lookup {
    // The number of the section that a value is set in; nothing where a new one is opened.
    pub(crate) fn setting_number(
        self,
        document: AnyDocument<'_, '_>,
        name: Option<&str>,
        key: &str,
    ) -> Option<usize>
        ensures { IsSettingAt self (str_name name.entry) (chars key.now) (any_document document.entry)
            result }
    {
        match self.sections {
            SectionRule::First => self.section_number(document, name, None, ValueRule::First),
            SectionRule::Joined => {
                match self.section_number(document, name, Some(key), self.values) {
                    Some(number) => Some(number),
                    None => self.section_number(document, name, None, ValueRule::Last),
                }
            }
        }
    }

    // The number of the section in which the pair of the key is that counts.
    pub(crate) fn holder_number(
        self,
        document: AnyDocument<'_, '_>,
        name: Option<&str>,
        key: &str,
    ) -> Option<usize>
        ensures found { IfSome result (CountsAt (holder_order self)
            (passes_key self (str_name name.entry) (holder_key self (chars key.now)))
            (any_document document.entry)) }
        ensures none { IfNone result (NonePasses
            (passes_key self (str_name name.entry) (holder_key self (chars key.now)))
            (any_document document.entry)) }
    {
        match self.sections {
            SectionRule::First => self.section_number(document, name, None, ValueRule::First),
            SectionRule::Joined => self.section_number(document, name, Some(key), self.values),
        }
    }

    // The number of the section that a new pair goes into; nothing where a new one is opened.
    pub(crate) fn adding_number(
        self,
        document: AnyDocument<'_, '_>,
        name: Option<&str>,
    ) -> Option<usize>
        ensures found { IfSome result (CountsAt (new_order self)
            (passes_key self (str_name name.entry) None) (any_document document.entry)) }
        ensures none { IfNone result (NonePasses (passes_key self (str_name name.entry) None)
            (any_document document.entry)) }
    {
        match self.sections {
            SectionRule::First => self.section_number(document, name, None, ValueRule::First),
            SectionRule::Joined => self.section_number(document, name, None, ValueRule::Last),
        }
    }

    // The number of the first or the last section of the name, and, where a key is given, with the key.
    fn section_number(
        self,
        document: AnyDocument<'_, '_>,
        name: Option<&str>,
        key: Option<&str>,
        order: ValueRule,
    ) -> Option<usize>
        ensures found { IfSome result (CountsAt order
            (passes_key self (str_name name.entry) (str_name key.entry)) (any_document document.entry)) }
        ensures none { IfNone result (NonePasses
            (passes_key self (str_name name.entry) (str_name key.entry)) (any_document document.entry)) }
    {
        let mut found = None;
        let len = document.len();
        let mut sections = document.sections(ValueRule::First);
        for number in 0..len {
            let Some((other, section)) = sections.next() else {
                return found;
            };
            let passes = self.is_section(name, key, other, section);
            if ends_at(order, passes) {
                return Some(number);
            }
            found = latest(passes, number, found);
        }
        found
    }

    // Whether the section is one of the name, and, where a key is given, has the key.
    fn is_section(
        self,
        name: Option<&str>,
        key: Option<&str>,
        other: Option<&str>,
        section: AnySection<'_, '_>,
    ) -> bool
        ensures { result ≡ passes_key self (str_name name.entry) (str_name key.entry)
            (shown_section (other.entry, section.entry)) }
    {
        self.case.names_fit(name, other) && self.has_key_or_any(section, key)
    }

    // Whether the section has the key, where one is given.
    fn has_key_or_any(self, section: AnySection<'_, '_>, key: Option<&str>) -> bool
        ensures { result ≡ has_key_or_any self (str_name key.entry) (any_section section.entry) }
    {
        match key {
            Some(key) => self.has_key(section, key),
            None => true,
        }
    }

    // Whether the section has the key.
    fn has_key(self, section: AnySection<'_, '_>, key: &str) -> bool
        ensures { result ≡ has_key self (chars key.now) (any_section section.entry) }
    {
        for (other, _) in section.pairs(ValueRule::First) {
            if self.case.fits(key, other) {
                return true;
            }
        }
        false
    }

    // The number of the pair of the key that counts.
    pub(crate) fn pair_number(self, section: AnySection<'_, '_>, key: &str) -> Option<usize>
        ensures found { IfSome result
            (CountsAt self.values (λ p. text_fits self.case (chars key.now) p.0)
            (any_section section.entry)) }
        ensures none { IfNone result
            (NonePasses (λ p. text_fits self.case (chars key.now) p.0) (any_section section.entry)) }
    {
        let mut found = None;
        let len = section.len();
        let mut pairs = section.pairs(ValueRule::First);
        for number in 0..len {
            let Some((other, _)) = pairs.next() else {
                return found;
            };
            let passes = self.case.fits(key, other);
            if ends_at(self.values, passes) {
                return Some(number);
            }
            found = latest(passes, number, found);
        }
        found
    }
}

// Whether a search ends at an item: it passes, and the first one counts.
fn ends_at(order: ValueRule, passes: bool) -> bool
    ensures { result ≡ (takes_first_value order && passes) }
{
    match order {
        ValueRule::First => passes,
        ValueRule::Last => false,
    }
}

// The number where the item passes, else what was found before.
fn latest(passes: bool, number: usize, found: Option<usize>) -> Option<usize>
    ensures { result ≡ (if passes then Some number else found) }
{
    if passes { Some(number) } else { found }
}
