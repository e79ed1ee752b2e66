//! A document under a rule as one of its own, in which `Ini`'s calls answer what the rule answers. This file
//! knows the walks over sections and pairs, and the calls of `Ini` and of `Properties`.
ghost use Rattle.std.specs.Prelude.{◌≡◌, IfOk, IsOkUnless, OnOk, alloc_error, chars, fold};
ghost use Rattle.ini.specs.Texts.{str_name, text_of};
ghost use Rattle.ini_dialect.specs.Flattened.{AnswersFlat, AnswersLists, as_lists, flattened, listed};
ghost use Rattle.ini_dialect.specs.Flattened.{put_in, put_together, told, with_list, with_told};
ghost use Rattle.ini_dialect.specs.Flattened.{with_told_section};
ghost use Rattle.ini_dialect.specs.Inside.{put_of};
ghost use Rattle.ini_dialect.specs.Walks.{any_document, any_section};

use crate::edit::owned_name;
use crate::lists::list_in;
use crate::rule::{CaseRule, Lookup, SectionRule, ValueRule};
use crate::walk::{AnyDocument, AnySection};
use ini::{Error, Ini, Properties};
use std::alloc::{AllocError, Global};

impl Lookup {
    /// A document in which `Ini::get_from` answers what `get` answers in this one. It has each name and each
    /// key that is looked at once, in the order in which they first come, with the value that counts; where
    /// case is ignored they are in small letters, and are to be asked for so. Refused when out of memory.
    ///
    /// Takes time in proportion to the pairs.
    pub fn flattened(self, alloc: Global, document: AnyDocument<'_, '_>) -> Result<Ini, Error>
        ensures flattened { IfOk result (λ flat. flat ≡ flattened self (any_document document.entry)) }
        ensures answers { IfOk result (λ flat. AnswersFlat self (any_document document.entry) flat) }
        ensures only { IsOkUnless result (Error.Memory alloc_error) }
    {
        let flattening = Flattening {
            rule: self,
            pairs: WhichPairs::Counting(self.values),
        };
        let flat = flattening.put_together(alloc, document)?;
        Ok(flat)
    }

    /// A document in which `Ini::get_from` answers the list of the values that `get_all` answers in this one,
    /// as `list_text` writes it; names and keys are as `flattened` has them. Refused when out of memory.
    ///
    /// Takes time in proportion to the pairs.
    pub fn listed(self, alloc: Global, document: AnyDocument<'_, '_>) -> Result<Ini, Error>
        ensures listed { IfOk result (λ lists. lists ≡ listed self (any_document document.entry)) }
        ensures answers { IfOk result (λ lists. AnswersLists self (any_document document.entry) lists) }
        ensures only { IsOkUnless result (Error.Memory alloc_error) }
    {
        let flattening = Flattening {
            rule: self,
            pairs: WhichPairs::All,
        };
        let collected = flattening.put_together(alloc, document)?;
        let mut lists = Ini::new(alloc)?;
        lists.clear();
        for (name, section) in &collected {
            let section = as_lists(alloc, section)?;
            lists.append_section(owned_name(alloc, name)?, section)?;
        }
        Ok(lists)
    }
}

// How documents are put together: under which rule, and which pairs of a key they get.
#[derive(Clone, Copy)]
struct Flattening {
    rule: Lookup,
    pairs: WhichPairs,
}

#[derive(Clone, Copy)]
enum WhichPairs {
    // One, with the value that counts by this rule.
    Counting(ValueRule),
    // Each.
    All,
}

impl Flattening {
    // A document of the pairs that are looked at.
    fn put_together(self, alloc: Global, document: AnyDocument<'_, '_>) -> Result<Ini, Error>
        ensures put { IfOk result (λ flat. flat
            ≡ put_together (put_of self.pairs) self.rule (any_document document.entry)) }
        ensures only { IsOkUnless result (Error.Memory alloc_error) }
    {
        let mut flat = Ini::new(alloc)?;
        flat.clear();
        for (name, section) in document.sections(ValueRule::First) {
            self.put_section(alloc, &mut flat, name, section)?;
        }
        Ok(flat)
    }

    // Puts the pairs of a section where its name has them. Refused, some may be there.
    fn put_section(
        self,
        alloc: Global,
        flat: &mut Ini,
        name: Option<&str>,
        section: AnySection<'_, '_>,
    ) -> Result<(), Error>
        ensures put { OnOk result (flat.new ≡ with_told_section (put_of self.pairs) self.rule flat.old
            (str_name name.entry, any_section section.entry)) }
        ensures only { IsOkUnless result (Error.Memory alloc_error) }
    {
        match name {
            Some(name) => {
                let name = self.rule.case.told(alloc, name)?;
                self.put_named(alloc, flat, Some(name.as_str()), section)
            }
            None => self.put_named(alloc, flat, None, section),
        }
    }

    // Puts the pairs of a section where this name has them. Refused, some may be there.
    #[tactic(auto, using(crate::proofs::FlattenedLemmas::sections_put))]
    fn put_named(
        self,
        alloc: Global,
        flat: &mut Ini,
        name: Option<&str>,
        section: AnySection<'_, '_>,
    ) -> Result<(), Error>
        ensures put { OnOk result (flat.new ≡ put_in (put_of self.pairs) self.rule (str_name name.entry)
            (any_section section.entry) flat.old) }
        ensures only { IsOkUnless result (Error.Memory alloc_error) }
    {
        if let Some(there) = flat.section_mut(name) {
            return match self.rule.sections {
                SectionRule::First => Ok(()),
                SectionRule::Joined => self.put_pairs(alloc, there, section),
            };
        }
        let mut new = Properties::new(alloc);
        self.put_pairs(alloc, &mut new, section)?;
        flat.append_section(owned_name(alloc, name)?, new)?;
        Ok(())
    }

    // Puts the pairs of a section among these. Refused, some may be there.
    fn put_pairs(
        self,
        alloc: Global,
        pairs: &mut Properties,
        section: AnySection<'_, '_>,
    ) -> Result<(), Error>
        ensures put { OnOk result (pairs.new
            ≡ fold (with_told (put_of self.pairs) self.rule) pairs.old (any_section section.entry)) }
        ensures only { IsOkUnless result (Error.Memory alloc_error) }
    {
        for (key, value) in section.pairs(ValueRule::First) {
            self.put_pair(alloc, pairs, key, value)?;
        }
        Ok(())
    }

    // Puts a pair among these.
    fn put_pair(
        self,
        alloc: Global,
        pairs: &mut Properties,
        key: &str,
        value: &str,
    ) -> Result<(), Error>
        ensures put { OnOk result (pairs.new
            ≡ with_told (put_of self.pairs) self.rule pairs.old (chars key.now, chars value.now)) }
        ensures only { IsOkUnless result (Error.Memory alloc_error) }
    {
        let key = self.rule.case.told(alloc, key)?;
        match self.pairs {
            WhichPairs::Counting(ValueRule::First) if pairs.contains_key(key.as_str()) => Ok(()),
            WhichPairs::Counting(_) => pairs.insert(key.as_str(), value),
            WhichPairs::All => pairs.append(key.as_str(), value),
        }
    }
}

// The pairs with each key once, and the list of its values.
fn as_lists(alloc: Global, section: &Properties) -> Result<Properties, Error>
    ensures lists { IfOk result (λ lists. lists ≡ as_lists section.now) }
    ensures only { IsOkUnless result (Error.Memory alloc_error) }
{
    let mut lists = Properties::new(alloc);
    for (key, _) in section {
        put_list(alloc, &mut lists, section, key)?;
    }
    Ok(lists)
}

// Puts the list of a key's values in the section among these, unless the key is there.
fn put_list(
    alloc: Global,
    lists: &mut Properties,
    section: &Properties,
    key: &str,
) -> Result<(), Error>
    ensures put { OnOk result (lists.new
        ≡ with_list section.now lists.old (chars key.now, chars key.now)) }
    ensures only { IsOkUnless result (Error.Memory alloc_error) }
{
    if lists.contains_key(key) {
        return Ok(());
    }
    match list_in(alloc, section, key)? {
        Some(list) => lists.insert(key, list.as_str()),
        None => Ok(()),
    }
}

impl CaseRule {
    // A key or a name as one that stands for all that fit it: in small letters where case is ignored.
    #[tactic(auto, using(crate::proofs::TextLemmas::fits))]
    fn told(self, alloc: Global, key: &str) -> Result<String, AllocError>
        ensures { IfOk result (λ text. text_of text ≡ told self (chars key.now)) }
    {
        match self {
            CaseRule::Kept => String::from_str(alloc, key),
            CaseRule::Ignored => key.to_ascii_lowercase(alloc),
        }
    }
}
