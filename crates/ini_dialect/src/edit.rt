//! Edits under a rule. Each makes a new document, which takes the old one's place once it is whole: so one
//! that is refused changes nothing. This file knows the calls of `Ini` and of `Properties`.
ghost use Rattle.std.specs.Prelude.{◌≡◌, ◌&&◌, [], ◌∷◌, ◌++◌, chars, alloc_error, false, not};
ghost use Rattle.std.specs.Prelude.{IfOk, IsOkUnless, OnErr, OnOk, if◌then◌else◌};
ghost use Rattle.ini_multimap.specs.Pairs.{without};
ghost use Rattle.ini.specs.Texts.{name_of, str_name};
ghost use Rattle.ini_edit.specs.SourceEditsAt.{at_index};
ghost use Rattle.ini_dialect.specs.Inside.{is_here, less, takes_first};
ghost use Rattle.ini_dialect.specs.Lookups.{delete_under, set_under, text_fits, valued};
ghost use Rattle.ini_dialect.specs.Lookups.{with_value};

use crate::rule::{Lookup, SectionRule};
use crate::walk::{AnyDocument, AnySection};
use ini::{Error, Ini, Properties, SectionKey};
use std::alloc::{AllocError, Global};

#[tactic(auto, using(crate::proofs::EditLemmas::edits))]
impl Lookup {
    /// Sets the key's value: the pair that `get` answers from keeps its place and its key and takes the
    /// value, and all others stay. Where there is none a new pair goes last, in the last section that is
    /// looked at, or in a new section, last.
    ///
    /// Refused, only when out of memory, it changes nothing. It takes the time and the memory of a copy.
    pub fn set(
        self,
        alloc: Global,
        document: &mut Ini,
        name: Option<&str>,
        key: &str,
        value: &str,
    ) -> Result<(), Error>
        ensures set { OnOk result (document.new
            ≡ set_under self (str_name name.entry) (chars key.now) (chars value.now) document.old) }
        ensures unchanged { OnErr result (document.new ≡ document.old) }
        ensures only_memory { IsOkUnless result (Error.Memory alloc_error) }
    {
        let edited = self.set_in_copy(alloc, document, name, key, value)?;
        *document = edited;
        Ok(())
    }

    /// Takes out every pair of the key, in the sections of the name that are looked at.
    ///
    /// Refused, only when out of memory, it changes nothing. It takes the time and the memory of a copy.
    pub fn delete(
        self,
        alloc: Global,
        document: &mut Ini,
        name: Option<&str>,
        key: &str,
    ) -> Result<(), Error>
        ensures deleted { OnOk result (document.new
            ≡ delete_under self (str_name name.entry) (chars key.now) document.old) }
        ensures unchanged { OnErr result (document.new ≡ document.old) }
        ensures only_memory { IsOkUnless result (Error.Memory alloc_error) }
    {
        let edited = self.delete_in_copy(alloc, document, name, key)?;
        *document = edited;
        Ok(())
    }

    // A copy of the document in which the value is set.
    fn set_in_copy(
        self,
        alloc: Global,
        document: &Ini,
        name: Option<&str>,
        key: &str,
        value: &str,
    ) -> Result<Ini, Error>
        ensures set { IfOk result (λ edited. edited
            ≡ set_under self (str_name name.entry) (chars key.now) (chars value.now) document.now) }
        ensures only_memory { IsOkUnless result (Error.Memory alloc_error) }
    {
        match self.setting_number(AnyDocument::Ini(document), name, key) {
            Some(number) => {
                let edited = self.set_in_section(alloc, document, number, key, value)?;
                Ok(edited)
            }
            None => {
                let edited = with_section(alloc, document, name, key, value)?;
                Ok(edited)
            }
        }
    }

    // A copy of the document in which the section of the number has the value.
    fn set_in_section(
        self,
        alloc: Global,
        document: &Ini,
        number: usize,
        key: &str,
        value: &str,
    ) -> Result<Ini, Error>
        ensures set { IfOk result (λ edited. edited
            ≡ at_index number (with_value self (chars key.now) (chars value.now)) document.now) }
        ensures only_memory { IsOkUnless result (Error.Memory alloc_error) }
    {
        let mut edited = empty_document(alloc)?;
        let mut left = Some(number);
        for (name, section) in document {
            let pairs = self.set_if(alloc, section, key, value, comes_now(left))?;
            append_section(alloc, &mut edited, name, pairs)?;
            left = one_less(left);
        }
        Ok(edited)
    }

    // A copy of the pairs, in which the value is set where it is to be.
    fn set_if(
        self,
        alloc: Global,
        section: &Properties,
        key: &str,
        value: &str,
        here: bool,
    ) -> Result<Properties, Error>
        ensures set { IfOk result (λ pairs. pairs
            ≡ (if here then valued self (chars key.now) (chars value.now) section.now else section.now)) }
        ensures only_memory { IsOkUnless result (Error.Memory alloc_error) }
    {
        if here {
            self.set_in_pairs(alloc, section, key, value)
        } else {
            section.clone()
        }
    }

    // A copy of the pairs in which the value is set.
    fn set_in_pairs(
        self,
        alloc: Global,
        section: &Properties,
        key: &str,
        value: &str,
    ) -> Result<Properties, Error>
        ensures set { IfOk result (λ pairs. pairs
            ≡ valued self (chars key.now) (chars value.now) section.now) }
        ensures only_memory { IsOkUnless result (Error.Memory alloc_error) }
    {
        match self.pair_number(AnySection::Ini(section), key) {
            Some(number) => {
                let pairs = set_pair(alloc, section, number, value)?;
                Ok(pairs)
            }
            None => {
                let mut pairs = section.clone()?;
                pairs.append(key, value)?;
                Ok(pairs)
            }
        }
    }

    // A copy of the document without the pairs of the key, in the sections of the name that are looked at.
    fn delete_in_copy(
        self,
        alloc: Global,
        document: &Ini,
        name: Option<&str>,
        key: &str,
    ) -> Result<Ini, Error>
        ensures deleted { IfOk result (λ edited. edited
            ≡ delete_under self (str_name name.entry) (chars key.now) document.now) }
        ensures only_memory { IsOkUnless result (Error.Memory alloc_error) }
    {
        let mut edited = empty_document(alloc)?;
        let mut looking = true;
        for (other, section) in document {
            let named = self.case.names_fit(name, other);
            let pairs = self.cleared_if(alloc, section, key, both(looking, named))?;
            append_section(alloc, &mut edited, other, pairs)?;
            looking = self.looks_on(looking, named);
        }
        Ok(edited)
    }

    // Whether later sections are looked at, after one that has the name or not.
    fn looks_on(self, looking: bool, named: bool) -> bool
        ensures { result ≡ (looking && not (takes_first self.sections && named)) }
    {
        match self.sections {
            SectionRule::First => looking && !named,
            SectionRule::Joined => looking,
        }
    }

    // A copy of the pairs, without those of the key where these go.
    fn cleared_if(
        self,
        alloc: Global,
        section: &Properties,
        key: &str,
        goes: bool,
    ) -> Result<Properties, Error>
        ensures copied { IfOk result (λ pairs. pairs ≡ (if goes
            then without (text_fits self.case (chars key.now)) section.now else section.now)) }
        ensures only_memory { IsOkUnless result (Error.Memory alloc_error) }
    {
        if goes {
            self.cleared(alloc, section, key)
        } else {
            section.clone()
        }
    }

    // A copy of the pairs without those of the key.
    fn cleared(self, alloc: Global, section: &Properties, key: &str) -> Result<Properties, Error>
        ensures copied { IfOk result (λ pairs. pairs
            ≡ without (text_fits self.case (chars key.now)) section.now) }
        ensures only_memory { IsOkUnless result (Error.Memory alloc_error) }
    {
        let mut pairs = Properties::new(alloc);
        for (other, value) in section {
            if !self.case.fits(key, other) {
                pairs.append(other, value)?;
            }
        }
        Ok(pairs)
    }
}

// Whether both hold.
fn both(one: bool, other: bool) -> bool
    ensures { result ≡ (one && other) }
{
    one && other
}

// A copy of the pairs in which the one of the number has the value.
#[tactic(auto, using(crate::proofs::EditLemmas::edits))]
fn set_pair(
    alloc: Global,
    section: &Properties,
    number: usize,
    value: &str,
) -> Result<Properties, Error>
    ensures set { IfOk result (λ pairs. pairs
        ≡ at_index number (λ p. (p.0, chars value.now)) section.now) }
    ensures only_memory { IsOkUnless result (Error.Memory alloc_error) }
{
    let mut pairs = Properties::new(alloc);
    let mut left = Some(number);
    for (key, old) in section {
        pairs.append(key, chosen(comes_now(left), value, old))?;
        left = one_less(left);
    }
    Ok(pairs)
}

// The one text or the other.
fn chosen<'a>(first: bool, one: &'a str, other: &'a str) -> &'a str
    ensures { chars result.now ≡ (if first then chars one.now else chars other.now) }
{
    if first { one } else { other }
}

// Whether the number that is left is 0.
fn comes_now(left: Option<usize>) -> bool
    ensures { result ≡ is_here left }
{
    match left {
        Some(number) => number == 0,
        None => false,
    }
}

// One less, while there is a number above 0.
fn one_less(left: Option<usize>) -> Option<usize>
    ensures { result ≡ less left }
{
    match left {
        Some(number) => { if number == 0 { None } else { Some(number - 1) } }
        None => None,
    }
}

// A copy of the document with a new section of one pair, last.
fn with_section(
    alloc: Global,
    document: &Ini,
    name: Option<&str>,
    key: &str,
    value: &str,
) -> Result<Ini, Error>
    ensures opened { IfOk result (λ edited. edited
        ≡ document.now ++ (str_name name.entry, (chars key.now, chars value.now) ∷ []) ∷ []) }
    ensures only_memory { IsOkUnless result (Error.Memory alloc_error) }
{
    let mut edited = document.clone()?;
    let mut section = Properties::new(alloc);
    section.append(key, value)?;
    append_section(alloc, &mut edited, name, section)?;
    Ok(edited)
}

// A document without sections.
fn empty_document(alloc: Global) -> Result<Ini, Error>
    ensures empty { IfOk result (λ document. document ≡ []) }
    ensures only_memory { IsOkUnless result (Error.Memory alloc_error) }
{
    let mut document = Ini::new(alloc)?;
    document.clear();
    Ok(document)
}

// Puts a section last.
fn append_section(
    alloc: Global,
    document: &mut Ini,
    name: Option<&str>,
    section: Properties,
) -> Result<(), Error>
    ensures appended { OnOk result (document.new ≡ document.old ++ (str_name name.entry, section) ∷ []) }
    ensures only_memory { IsOkUnless result (Error.Memory alloc_error) }
{
    match document.append_section(owned_name(alloc, name)?, section) {
        Ok(()) => Ok(()),
        Err(_) => Err(Error::Memory(AllocError)),
    }
}

// The name, copied.
pub(crate) fn owned_name(alloc: Global, name: Option<&str>) -> Result<SectionKey, AllocError>
    ensures { IfOk result (λ copy. name_of copy ≡ str_name name.entry) }
{
    match name {
        Some(text) => Ok(Some(String::from_str(alloc, text)?)),
        None => Ok(None),
    }
}
