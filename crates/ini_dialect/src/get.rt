//! Look-ups under a rule. This file knows the walks over sections and pairs, from the front and the back.
ghost use Rattle.std.specs.Prelude.{◌≡◌, ◌++◌, [], fold, map, chars, IfOk, OnOk, unwrap_or};
ghost use Rattle.std.specs.List.{list_any};
ghost use Rattle.std.specs.Map.{lookup};
ghost use Rattle.std.specs.Option.{option_map};
ghost use Rattle.ini_multimap.specs.Pairs.{values_at};
ghost use Rattle.ini.specs.Texts.{str_name, str_text};
ghost use Rattle.ini_dialect.specs.Inside.{kept, turned, value_in_first, value_in_joined};
ghost use Rattle.ini_dialect.specs.Lookups.{all_values, has_section, keys_under, name_fits, names_under};
ghost use Rattle.ini_dialect.specs.Lookups.{text_fits, value_under};
ghost use Rattle.ini_dialect.specs.Walks.{any_document, any_section};

use crate::rule::{CaseRule, Lookup, SectionRule, ValueRule};
use crate::walk::{AnyDocument, AnySection};
use std::alloc::{AllocError, Global};

impl CaseRule {
    /// Whether two keys fit: they are equal, or, where case is ignored, equal but for that of ASCII letters.
    #[tactic(auto, using(crate::proofs::TextLemmas::fits))]
    pub fn fits(self, one: &str, other: &str) -> bool
        ensures { result ≡ text_fits self (chars one.now) (chars other.now) }
    {
        match self {
            CaseRule::Kept => one == other,
            CaseRule::Ignored => one.eq_ignore_ascii_case(other),
        }
    }

    /// Whether two names fit; no name, the general section's, fits itself alone.
    pub fn names_fit(self, one: Option<&str>, other: Option<&str>) -> bool
        ensures { result ≡ name_fits self (str_name one.entry) (str_name other.entry) }
    {
        match one {
            None => other.is_none(),
            Some(one) => match other {
                None => false,
                Some(other) => self.fits(one, other),
            },
        }
    }

    /// Whether a document has a section of the name; no name is the general section's.
    pub fn has_section(self, document: AnyDocument<'_, '_>, name: Option<&str>) -> bool
        ensures { result ≡ has_section self (str_name name.entry) (any_document document.entry) }
    {
        for (other, _) in document.sections(ValueRule::First) {
            if self.names_fit(name, other) {
                return true;
            }
        }
        false
    }
}

#[tactic(auto, using(crate::proofs::ReadLemmas::reads))]
impl Lookup {
    /// The value of the key that counts, in the sections of the name that are looked at. Takes no memory.
    pub fn get<'v>(
        self,
        document: AnyDocument<'v, '_>,
        name: Option<&str>,
        key: &str,
    ) -> Option<&'v str>
        ensures { option_map str_text result
            ≡ value_under self (str_name name.entry) (chars key.now) (any_document document.entry) }
    {
        match self.sections {
            SectionRule::First => self.get_in_first(document, name, key),
            SectionRule::Joined => self.get_in_joined(document, name, key),
        }
    }

    /// The value of the key that counts; the empty one where there is none. Takes no memory.
    pub fn get_or_empty<'v>(
        self,
        document: AnyDocument<'v, '_>,
        name: Option<&str>,
        key: &str,
    ) -> &'v str
        ensures { str_text result ≡ unwrap_or
            (value_under self (str_name name.entry) (chars key.now) (any_document document.entry)) [] }
    {
        match self.get(document, name, key) {
            Some(value) => value,
            None => "",
        }
    }

    /// All values of the key in those sections, in order. Refused when out of memory.
    pub fn get_all<'v>(
        self,
        alloc: Global,
        document: AnyDocument<'v, '_>,
        name: Option<&str>,
        key: &str,
    ) -> Result<Vec<&'v str>, AllocError>
        ensures { IfOk result (λ values. map str_text values.items
            ≡ all_values self (str_name name.entry) (chars key.now) (any_document document.entry)) }
    {
        let mut values = Vec::new(alloc);
        for (other, section) in document.sections(ValueRule::First) {
            if self.case.names_fit(name, other) {
                self.push_values(section, key, &mut values)?;
                match self.sections {
                    SectionRule::First => return Ok(values),
                    SectionRule::Joined => {}
                }
            }
        }
        Ok(values)
    }

    /// Each key in those sections once, as it is spelled where it first comes, in that order. Refused when
    /// out of memory. Takes time in proportion to the square of their number.
    pub fn keys<'v>(
        self,
        alloc: Global,
        document: AnyDocument<'v, '_>,
        name: Option<&str>,
    ) -> Result<Vec<&'v str>, AllocError>
        ensures { IfOk result (λ keys. map str_text keys.items
            ≡ keys_under self (str_name name.entry) (any_document document.entry)) }
    {
        let mut keys = Vec::new(alloc);
        for (other, section) in document.sections(ValueRule::First) {
            if self.case.names_fit(name, other) {
                self.push_keys(section, &mut keys)?;
                match self.sections {
                    SectionRule::First => return Ok(keys),
                    SectionRule::Joined => {}
                }
            }
        }
        Ok(keys)
    }

    /// Each name once, as it is spelled where it first comes, in that order; no name is the general
    /// section's. Refused when out of memory. Takes time in proportion to the square of their number.
    pub fn sections<'v>(
        self,
        alloc: Global,
        document: AnyDocument<'v, '_>,
    ) -> Result<Vec<Option<&'v str>>, AllocError>
        ensures { IfOk result (λ names. map str_name names.items
            ≡ names_under self (any_document document.entry)) }
    {
        let mut names = Vec::new(alloc);
        for (name, _) in document.sections(ValueRule::First) {
            if !self.is_among_names(names.as_slice(), name) {
                names.push(name)?;
            }
        }
        Ok(names)
    }

    // In the first section of the name.
    fn get_in_first<'v>(
        self,
        document: AnyDocument<'v, '_>,
        name: Option<&str>,
        key: &str,
    ) -> Option<&'v str>
        ensures { option_map str_text result
            ≡ value_in_first self (str_name name.entry) (chars key.now) (any_document document.entry) }
    {
        for (other, section) in document.sections(ValueRule::First) {
            if self.case.names_fit(name, other) {
                return self.get_in(section, key);
            }
        }
        None
    }

    // In all sections of the name.
    fn get_in_joined<'v>(
        self,
        document: AnyDocument<'v, '_>,
        name: Option<&str>,
        key: &str,
    ) -> Option<&'v str>
        ensures { option_map str_text result ≡ value_in_joined self (str_name name.entry) (chars key.now)
            (turned self.values (any_document document.entry)) }
    {
        for (other, section) in document.sections(self.values) {
            if self.case.names_fit(name, other) {
                if let Some(value) = self.get_in(section, key) {
                    return Some(value);
                }
            }
        }
        None
    }

    // The value of the key that counts in the section.
    fn get_in<'v>(self, section: AnySection<'v, '_>, key: &str) -> Option<&'v str>
        ensures { option_map str_text result
            ≡ lookup (text_fits self.case (chars key.now)) (turned self.values (any_section section.entry)) }
    {
        for (other, value) in section.pairs(self.values) {
            if self.case.fits(key, other) {
                return Some(value);
            }
        }
        None
    }

    // Puts the values of the key in the section last, in order.
    fn push_values<'v>(
        self,
        section: AnySection<'v, '_>,
        key: &str,
        values: &mut Vec<&'v str>,
    ) -> Result<(), AllocError>
        ensures { OnOk result (map str_text values.new.items ≡ map str_text values.old.items
            ++ values_at (text_fits self.case (chars key.now)) (any_section section.entry)) }
    {
        for (other, value) in section.pairs(ValueRule::First) {
            if self.case.fits(key, other) {
                values.push(value)?;
            }
        }
        Ok(())
    }

    // Puts the keys of the section last that fit none before them.
    fn push_keys<'v>(
        self,
        section: AnySection<'v, '_>,
        keys: &mut Vec<&'v str>,
    ) -> Result<(), AllocError>
        ensures { OnOk result (map str_text keys.new.items
            ≡ fold (kept (text_fits self.case)) (map str_text keys.old.items) (any_section section.entry)) }
    {
        for (key, _) in section.pairs(ValueRule::First) {
            if !self.is_among(keys.as_slice(), key) {
                keys.push(key)?;
            }
        }
        Ok(())
    }

    // Whether one of the keys fits.
    fn is_among(self, keys: &[&str], key: &str) -> bool
        ensures { result ≡ list_any (λ k. text_fits self.case (str_text k) (chars key.now)) keys.now }
    {
        for other in keys {
            if self.case.fits(other, key) {
                return true;
            }
        }
        false
    }

    // Whether one of the names does.
    fn is_among_names(self, names: &[Option<&str>], name: Option<&str>) -> bool
        ensures { result
            ≡ list_any (λ n. name_fits self.case (str_name n) (str_name name.entry)) names.now }
    {
        for other in names {
            if self.case.names_fit(*other, name) {
                return true;
            }
        }
        false
    }
}
