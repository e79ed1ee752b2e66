//! Edits under a rule of a text in pieces. This file knows the edits of pieces at an index.
ghost use Rattle.std.specs.Prelude.{◌≡◌, ◌++◌, IfErr, IfNone, IfOk, IfSome, IsOkUnless, OnErr, OnOk, None};
ghost use Rattle.std.specs.Prelude.{alloc_error, chars, is_some, map};
ghost use Rattle.ini.specs.Texts.{str_name};
ghost use Rattle.ini_edit.specs.Sources.{document_in, given_pair};
ghost use Rattle.ini_dialect.specs.KeyEdits.{numbers_in, numbers_under};
ghost use Rattle.ini_dialect.specs.Lookups.{delete_under, set_under, value_under};
ghost use Rattle.ini_dialect.specs.SourceLookups.{AreDeletedUnder, IsAddedUnder, IsCountingPair, IsPutUnder};
ghost use Rattle.ini_dialect.specs.SourceLookups.{RefusesToPutUnder, RefusesUnder, RefusesValue, SetsUnder};
ghost use Rattle.ini_dialect.specs.SourceLookups.{TakesNew, by_first};

use crate::rule::{CaseRule, Lookup, SectionRule, ValueRule};
use crate::walk::{AnyDocument, AnySection};
use ini_edit::{EditError, Source, SourceSection};
use ini_text::{Error, EscapePolicy, WriteOption};
use std::alloc::{AllocError, Global};

/// Where a pair stands: the number of its section, and its own in that, both from 0.
#[derive(Clone, Copy, PartialEq, Eq, Debug)]
pub struct PairNumber {
    pub section: usize,
    pub pair: usize,
}

impl Lookup {
    /// Where the pair stands from which `get` answers. Takes no memory.
    pub fn find_in_source(
        self,
        source: &Source<'_>,
        name: Option<&str>,
        key: &str,
    ) -> Option<PairNumber>
        ensures found { IfSome result (IsCountingPair self (str_name name.entry) (chars key.now)
            (document_in source.now)) }
        ensures none { IfNone result (value_under self (str_name name.entry) (chars key.now)
            (document_in source.now) ≡ None) }
    {
        let section = self.holder_number(AnyDocument::Source(source), name, key)?;
        let pair = self.pair_number(AnySection::Source(&source.sections()[section]), key)?;
        Some(PairNumber { section, pair })
    }

    /// Where the pairs stand from which `get_all` answers, in order. Refused when out of memory.
    pub fn find_all_in_source(
        self,
        alloc: Global,
        source: &Source<'_>,
        name: Option<&str>,
        key: &str,
    ) -> Result<Vec<PairNumber>, AllocError>
        ensures { IfOk result (λ numbers. numbers.items
            ≡ numbers_under self (str_name name.entry) (chars key.now) (document_in source.now)) }
    {
        let sections = source.sections();
        let mut numbers = Vec::new(alloc);
        for (number, section) in sections.iter().enumerate() {
            if !self.case.names_fit(name, section.name()) {
                continue;
            }
            self.case.push_numbers(section, number, key, &mut numbers)?;
            match self.sections {
                SectionRule::First => return Ok(numbers),
                SectionRule::Joined => {}
            }
        }
        Ok(numbers)
    }

    /// Sets the value of the pair from which `get` answers, where there is one: whether there is. It is
    /// written as `Source::set_existing` writes it, and every other byte stays.
    ///
    /// # Errors
    ///
    /// `Value` where there is such a pair, and no form of the value is read back; `Text` where memory is
    /// refused. Nothing is changed then.
    pub fn set_existing_in_source(
        self,
        alloc: Global,
        policy: EscapePolicy,
        source: &mut Source<'_>,
        name: Option<&str>,
        key: &str,
        value: &str,
    ) -> Result<bool, EditError>
        ensures set { IfOk result (SetsUnder self (str_name name.entry) (chars key.now)
            source.old.option policy source.old source.new (chars value.now)) }
        ensures unchanged { OnErr result (source.new ≡ source.old) }
        ensures refused { IfErr result (RefusesValue source.old.option policy (chars value.now)) }
    {
        let Some(at) = self.find_in_source(source, name, key) else {
            return Ok(false);
        };
        source.set_at(alloc, policy, at.section, at.pair, value)
    }

    /// Adds a pair, whatever pairs of the key are there: last in the first section of the name, where
    /// sections are joined in the last; where there is none, in a new one, last. It is written as
    /// `Source::add` writes it.
    ///
    /// # Errors
    ///
    /// Those of `Source::add`. Nothing is changed then.
    pub fn add_in_source(
        self,
        alloc: Global,
        write: &WriteOption,
        source: &mut Source<'_>,
        name: Option<&str>,
        key: &str,
        value: &str,
    ) -> Result<(), EditError>
        ensures added { OnOk result (IsAddedUnder self (str_name name.entry) (chars key.now)
            source.old.option write.now source.old source.new (chars value.now)) }
        ensures unchanged { OnErr result (source.new ≡ source.old) }
        ensures refused { IfErr result (RefusesUnder self (str_name name.entry) (chars key.now)
            source.old.option write.now source.old (chars value.now)) }
    {
        match self.adding_number(AnyDocument::Source(source), name) {
            Some(section) => {
                self.add_in_section(alloc, write, source, section, name, key, value)
            }
            None => source.add(alloc, write, name, key, value),
        }
    }

    // Adds a pair to the section of the number, which takes the new ones of the name.
    fn add_in_section(
        self,
        alloc: Global,
        write: &WriteOption,
        source: &mut Source<'_>,
        section: usize,
        name: Option<&str>,
        key: &str,
        value: &str,
    ) -> Result<(), EditError>
        requires { TakesNew self (str_name name) (chars key.now) (document_in source.old) section }
        ensures added { OnOk result (IsAddedUnder self (str_name name.entry) (chars key.now)
            source.old.option write.now source.old source.new (chars value.now)) }
        ensures unchanged { OnErr result (source.new ≡ source.old) }
        ensures refused { IfErr result (RefusesUnder self (str_name name.entry) (chars key.now)
            source.old.option write.now source.old (chars value.now)) }
    {
        source.add_at(alloc, write, section, key, value)?;
        Ok(())
    }

    /// Sets the key's value, as `set` does in a document: in the pair from which `get` answers, as
    /// `set_existing_in_source` does; where there is none, in a new one, as `add_in_source` does.
    ///
    /// # Errors
    ///
    /// Those of these two. Nothing is changed then.
    pub fn set_in_source(
        self,
        alloc: Global,
        write: &WriteOption,
        source: &mut Source<'_>,
        name: Option<&str>,
        key: &str,
        value: &str,
    ) -> Result<(), EditError>
        ensures set { OnOk result (IsPutUnder self (str_name name.entry) (chars key.now)
            source.old.option write.now source.old source.new (chars value.now)) }
        ensures document { OnOk result (document_in source.new ≡ set_under self
            (str_name name.entry) (chars key.now) (chars value.now) (document_in source.old)) }
        ensures unchanged { OnErr result (source.new ≡ source.old) }
        ensures refused { IfErr result (RefusesToPutUnder self (str_name name.entry) (chars key.now)
            source.old.option write.now source.old (chars value.now)) }
    {
        let policy = write.escape_policy;
        if self.set_existing_in_source(alloc, policy, source, name, key, value)? {
            return Ok(());
        }
        self.add_in_source(alloc, write, source, name, key, value)?;
        Ok(())
    }

    /// Takes out every pair of the key, in the sections of the name that are looked at, each as
    /// `Source::delete` takes one out: whether there was one. Takes memory for a copy of the pieces.
    ///
    /// # Errors
    ///
    /// `Memory` where memory is refused. Nothing is changed then.
    pub fn delete_in_source(
        self,
        alloc: Global,
        source: &mut Source<'_>,
        name: Option<&str>,
        key: &str,
    ) -> Result<bool, Error>
        ensures found { IfOk result (λ found. found ≡ is_some
            (value_under self (str_name name.entry) (chars key.now) (document_in source.old))) }
        ensures deleted { OnOk result (AreDeletedUnder self (str_name name.entry) (chars key.now)
            source.old.option source.old.sections source.new.sections) }
        ensures option { OnOk result (source.new.option ≡ source.old.option) }
        ensures document { OnOk result (document_in source.new
            ≡ delete_under self (str_name name.entry) (chars key.now) (document_in source.old)) }
        ensures unchanged { OnErr result (source.new ≡ source.old) }
        ensures only { IsOkUnless result (Error.Memory alloc_error) }
    {
        let mut edited = source.copy(alloc)?;
        let found = self.delete_each_in_source(alloc, &mut edited, name, key)?;
        source.replace_with(edited);
        Ok(found)
    }

    /// Takes these pairs out as `delete_in_source` does, but without a copy: refused, which is for want of
    /// memory alone, some may be out. So it is for pieces that are dropped then.
    pub fn delete_each_in_source(
        self,
        alloc: Global,
        source: &mut Source<'_>,
        name: Option<&str>,
        key: &str,
    ) -> Result<bool, Error>
        ensures found { IfOk result (λ found. found ≡ is_some
            (value_under self (str_name name.entry) (chars key.now) (document_in source.old))) }
        ensures deleted { OnOk result (AreDeletedUnder self (str_name name.entry) (chars key.now)
            source.old.option source.old.sections source.new.sections) }
        ensures option { OnOk result (source.new.option ≡ source.old.option) }
        ensures document { OnOk result (document_in source.new
            ≡ delete_under self (str_name name.entry) (chars key.now) (document_in source.old)) }
        ensures only { IsOkUnless result (Error.Memory alloc_error) }
    {
        let mut found = false;
        'pairs: while let Some(at) = self.first_in_source(source, name, key) {
            source.delete_at(alloc, at.section, at.pair)?;
            found = true;
        }
        Ok(found)
    }

    // Where the first pair of the key stands that is looked at.
    fn first_in_source(
        self,
        source: &Source<'_>,
        name: Option<&str>,
        key: &str,
    ) -> Option<PairNumber>
        ensures found { IfSome result (IsCountingPair (by_first self) (str_name name.entry) (chars key.now)
            (document_in source.now)) }
        ensures none { IfNone result (value_under (by_first self) (str_name name.entry) (chars key.now)
            (document_in source.now) ≡ None) }
    {
        let first = Lookup {
            sections: self.sections,
            values: ValueRule::First,
            case: self.case,
        };
        first.find_in_source(source, name, key)
    }
}

impl CaseRule {
    // Puts the numbers of the pairs of the key in the section of this number last, in order.
    fn push_numbers(
        self,
        section: &SourceSection<'_>,
        number: usize,
        key: &str,
        numbers: &mut Vec<PairNumber>,
    ) -> Result<(), AllocError>
        ensures { OnOk result (numbers.new.items ≡ numbers.old.items
            ++ numbers_in self (chars key.now) number 0 (map given_pair section.now.pairs)) }
    {
        let pairs = section.pairs();
        for (pair, other) in pairs.iter().enumerate() {
            if self.fits(key, other.key()) {
                numbers.push(PairNumber {
                    section: number,
                    pair,
                })?;
            }
        }
        Ok(())
    }
}
