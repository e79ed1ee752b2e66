//! All values of a key set under a rule in a text in pieces. This file knows the edits of pieces at an index.
ghost use Rattle.std.specs.Prelude.{◌≡◌, IfErr, IsOkUnless, OnErr, OnOk, alloc_error, chars, drop, length, map};
ghost use Rattle.ini.specs.Texts.{str_name, str_text};
ghost use Rattle.ini_edit.specs.Sources.{document_in};
ghost use Rattle.ini_dialect.specs.Inside.{taken_out, values_put};
ghost use Rattle.ini_dialect.specs.ListEdits.{AreAdded, AreAllSetUnder, AreTakenOut, AreValuesSet};
ghost use Rattle.ini_dialect.specs.ListEdits.{RefusesToAdd, RefusesToSetAll, RefusesOneValue, all_added};

use crate::rule::Lookup;
use crate::source::PairNumber;
use ini_edit::{EditError, Source};
use ini_text::{Error, EscapePolicy, WriteOption};
use std::alloc::{AllocError, Global};

impl Lookup {
    /// Gives the key these values, in order, in the sections of the name that are looked at, so that
    /// `get_all` answers them. Its pairs get them one after another, as `Source::set_at` sets one; each pair
    /// more is taken out, as `Source::delete_at` takes one out; each value more stands in a new pair, as
    /// `add_in_source` adds one. Takes memory for a copy of the pieces, and for the pairs' numbers.
    ///
    /// # Errors
    ///
    /// Those of these three. Nothing is changed then.
    pub fn set_all_in_source(
        self,
        alloc: Global,
        write: &WriteOption,
        source: &mut Source<'_>,
        name: Option<&str>,
        key: &str,
        values: &[&str],
    ) -> Result<(), EditError>
        ensures set { OnOk result (AreAllSetUnder self (str_name name.entry) (chars key.now) write.now
            source.old source.new (map str_text values.now)) }
        ensures unchanged { OnErr result (source.new ≡ source.old) }
        ensures refused { IfErr result (RefusesToSetAll self (str_name name.entry) (chars key.now) write.now
            source.old (map str_text values.now)) }
    {
        let mut edited = source.copy(alloc)?;
        self.set_each_in_source(alloc, write, &mut edited, name, key, values)?;
        source.replace_with(edited);
        Ok(())
    }

    /// Gives the key these values as `set_all_in_source` does, but without a copy: refused, some may be set.
    /// So it is for pieces that are dropped then.
    pub fn set_each_in_source(
        self,
        alloc: Global,
        write: &WriteOption,
        source: &mut Source<'_>,
        name: Option<&str>,
        key: &str,
        values: &[&str],
    ) -> Result<(), EditError>
        ensures set { OnOk result (AreAllSetUnder self (str_name name.entry) (chars key.now) write.now
            source.old source.new (map str_text values.now)) }
        ensures refused { IfErr result (RefusesToSetAll self (str_name name.entry) (chars key.now) write.now
            source.old (map str_text values.now)) }
    {
        let found = self.find_all_in_source(alloc, source, name, key)?;
        let numbers = found.as_slice();
        set_values(alloc, write.escape_policy, source, numbers, values)?;
        take_out_from(alloc, source, numbers, values.len())?;
        self.add_from(alloc, write, source, name, key, values, numbers.len())?;
        Ok(())
    }

    // Adds a pair for each value from one on. Refused, some may be added.
    fn add_from(
        self,
        alloc: Global,
        write: &WriteOption,
        source: &mut Source<'_>,
        name: Option<&str>,
        key: &str,
        values: &[&str],
        first: usize,
    ) -> Result<(), EditError>
        ensures added { OnOk result (AreAdded self (str_name name.entry) (chars key.now) write.now
            (drop first (map str_text values.now)) source.old source.new) }
        ensures option { OnOk result (source.new.option ≡ source.old.option) }
        ensures document { OnOk result (document_in source.new ≡ all_added self (str_name name.entry)
            (chars key.now) (drop first (map str_text values.now)) (document_in source.old)) }
        ensures refused { IfErr result (RefusesToAdd self (str_name name.entry) (chars key.now) write.now
            source.old (drop first (map str_text values.now))) }
    {
        for index in first..values.len() {
            self.add_in_source(alloc, write, source, name, key, values[index])?;
        }
        Ok(())
    }
}

// Gives the pairs of these numbers these values, as far as there are both. Refused, some may have theirs.
fn set_values(
    alloc: Global,
    policy: EscapePolicy,
    source: &mut Source<'_>,
    numbers: &[PairNumber],
    values: &[&str],
) -> Result<(), EditError>
    ensures set { OnOk result (AreValuesSet policy numbers.now (map str_text values.now) source.old source.new) }
    ensures option { OnOk result (source.new.option ≡ source.old.option) }
    ensures document { OnOk result (document_in source.new
        ≡ values_put numbers.now (map str_text values.now) (document_in source.old)) }
    ensures refused { IfErr result (RefusesOneValue source.old.option policy (map str_text values.now)) }
{
    for (index, value) in values.iter().enumerate() {
        if numbers.len() <= index {
            return Ok(());
        }
        let PairNumber { section, pair } = numbers[index];
        source.set_at(alloc, policy, section, pair, *value)?;
    }
    Ok(())
}

// Takes out the pairs of the numbers from one on, the last one first, so that the others' numbers stay right.
// Refused, some may be out.
fn take_out_from(
    alloc: Global,
    source: &mut Source<'_>,
    numbers: &[PairNumber],
    first: usize,
) -> Result<(), Error>
    ensures out { OnOk result (AreTakenOut (drop first numbers.now) source.old source.new) }
    ensures option { OnOk result (source.new.option ≡ source.old.option) }
    ensures document { OnOk result (document_in source.new
        ≡ taken_out (drop first numbers.now) (document_in source.old)) }
    ensures only { IsOkUnless result (Error.Memory alloc_error) }
{
    let mut left = numbers.len();
    'numbers: while first < left {
        left -= 1;
        let PairNumber { section, pair } = numbers[left];
        source.delete_at(alloc, section, pair)?;
    }
    Ok(())
}
