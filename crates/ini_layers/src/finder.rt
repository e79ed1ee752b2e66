//! Changes made by the default rule in a text in pieces, one after another. A document that is kept beside
//! the text tells whether a key has one pair, and that is looked for from where the last one stood: so
//! changes in the order of the text don't walk it again for each. This file knows the text and the document
//! by their calls.
ghost use Rattle.std.specs.Prelude.{◌≡◌, ◌≤◌, IfErr, IfOk, IfSome, IsOkUnless, OnOk, alloc_error, chars};
ghost use Rattle.std.specs.Prelude.{false, length, true};
ghost use Rattle.ini.specs.Edits.{set_in};
ghost use Rattle.ini.specs.Texts.{str_name};
ghost use Rattle.ini_edit.specs.SourceEditsAdded.{IsSetIn, RefusesToSetIn};
ghost use Rattle.ini_edit.specs.Sources.{document_in};
ghost use Rattle.ini_edit.specs.declared.source.set.LaterPairs.TheVariants.{TakenOut};
ghost use Rattle.ini_dialect.specs.Lookups.{delete_under};
ghost use Rattle.ini_dialect.specs.Rules.{default_lookup, is_own};
ghost use Rattle.ini_dialect.specs.SourceLookups.{AreDeletedUnder};
ghost use Rattle.ini_layers.specs.Differences.{setting_change};
ghost use Rattle.ini_layers.specs.Inside.Finding.{Finds, HasCount, IsPairThere, PassesAt, is_keyed, is_named};
ghost use Rattle.ini_layers.specs.SourceChanges.{IsMade, RefusesValue};

use crate::change::{Change, is_same_value};
use crate::documents::to_document;
use ini::{Error, Ini};
use ini_dialect::{Lookup, PairNumber};
use ini_edit::{EditError, LaterPairs, Source, SourcePair, SourceSection};
use ini_text::{WriteOption, is_same_text};
use std::alloc::Global;

// The document that a text in pieces means, and where the pair stood that was found last.
#[derive(Drop)]
pub(crate) struct Finder {
    document: Ini,
    last: PairNumber,
}

// How many pairs a key has.
#[derive(Clone, Copy)]
pub(crate) enum PairCount {
    Nothing,
    // The name has one section, too.
    One,
    // There may be several.
    Several,
}

// What is known of the pairs of a key.
#[derive(Clone, Copy)]
pub(crate) enum Found {
    // There is none.
    Nothing,
    // There is one, and it stands there.
    Only(PairNumber),
    // There may be several, or the place of the only one wasn't found.
    Unknown,
}

impl Finder {
    // Refused when out of memory alone.
    pub(crate) fn new(alloc: Global, source: &Source<'_>) -> Result<Finder, Error>
        ensures document { IfOk result (λ finder. finder.document ≡ document_in source.now) }
        ensures only_memory { IsOkUnless result (Error.Memory alloc_error) }
    {
        Ok(Finder {
            document: to_document(alloc, source)?,
            last: PairNumber {
                section: 0,
                pair: 0,
            },
        })
    }

    // Makes a change in the text, as `apply_in_place` does by the default rule. Refused, the text may be
    // changed, so this is for pieces that are dropped then.
    pub(crate) fn put(
        &mut self,
        alloc: Global,
        rule: Lookup,
        write: &WriteOption,
        change: Change<'_>,
        source: &mut Source<'_>,
    ) -> Result<(), EditError>
        requires own { is_own rule ≡ true }
        requires document { self.old.document ≡ document_in source.old }
        ensures made { OnOk result
            (IsMade rule write.now (setting_change change.entry) source.old source.new) }
        ensures kept { OnOk result (self.new.document ≡ document_in source.new) }
        ensures refused { IfErr result (RefusesValue rule write.now (str_name change.entry.name)
            (chars change.entry.key.now) (str_name change.entry.new) source.old) }
    {
        match change.new {
            Some(value) => self.set(alloc, write, change.name, change.key, value, source),
            None => Ok(self.delete(alloc, change.name, change.key, source)?),
        }
    }

    // Sets a value, as `Source::set` does with the later pairs taken out.
    fn set(
        &mut self,
        alloc: Global,
        write: &WriteOption,
        name: Option<&str>,
        key: &str,
        value: &str,
        source: &mut Source<'_>,
    ) -> Result<(), EditError>
        requires document { self.old.document ≡ document_in source.old }
        ensures set { OnOk result (IsSetIn source.old.option write.now TakenOut source.old source.new
            (str_name name.entry) (chars key.now) (chars value.now)) }
        ensures document { OnOk result (document_in source.new
            ≡ set_in (str_name name.entry) (chars key.now) (chars value.now) (document_in source.old)) }
        ensures kept { OnOk result (self.new.document ≡ document_in source.new) }
        ensures refused { IfErr result (RefusesToSetIn source.old.option write.now source.old.sections
            (str_name name.entry) (chars key.now) (chars value.now)) }
    {
        let found = self.find(source, name, key);
        set_found(alloc, write, found, name, key, value, source)?;
        let key = String::from_str(alloc, key)?;
        let value = String::from_str(alloc, value)?;
        self.document.set_to(name, key, value)?;
        Ok(())
    }

    // Takes out the pairs of a key in the first section of a name.
    fn delete(
        &mut self,
        alloc: Global,
        name: Option<&str>,
        key: &str,
        source: &mut Source<'_>,
    ) -> Result<(), Error>
        requires document { self.old.document ≡ document_in source.old }
        ensures deleted { OnOk result (AreDeletedUnder default_lookup (str_name name.entry) (chars key.now)
            source.old.option source.old.sections source.new.sections) }
        ensures option { OnOk result (source.new.option ≡ source.old.option) }
        ensures document { OnOk result (document_in source.new ≡ delete_under default_lookup
            (str_name name.entry) (chars key.now) (document_in source.old)) }
        ensures kept { OnOk result (self.new.document ≡ document_in source.new) }
        ensures only_memory { IsOkUnless result (Error.Memory alloc_error) }
    {
        match self.find(source, name, key) {
            Found::Nothing => Ok(()),
            Found::Only(at) => {
                source.delete_at(alloc, at.section, at.pair)?;
                drop(self.document.delete_from(name, key));
                Ok(())
            }
            Found::Unknown => {
                Lookup::default().delete_each_in_source(alloc, source, name, key)?;
                self.document = to_document(alloc, source)?;
                Ok(())
            }
        }
    }

    // What is known of the pairs of a key in the first section of a name.
    fn find(&mut self, source: &Source<'_>, name: Option<&str>, key: &str) -> Found
        requires document { self.old.document ≡ document_in source.now }
        ensures found { Finds (str_name name.entry) (chars key.now) source.now.sections result }
        ensures kept { self.new.document ≡ self.old.document }
    {
        match self.count(name, key) {
            PairCount::Nothing => Found::Nothing,
            PairCount::Several => Found::Unknown,
            PairCount::One => match self.near(source, name, key) {
                Some(at) => {
                    self.last = at;
                    Found::Only(at)
                }
                None => Found::Unknown,
            },
        }
    }

    // How many pairs of the key the document has.
    fn count(&self, name: Option<&str>, key: &str) -> PairCount
        ensures { HasCount (str_name name.entry) (chars key.now) self.now.document result }
    {
        let mut sections = self.document.section_all(name);
        let Some(section) = sections.next() else {
            return PairCount::Nothing;
        };
        let None = sections.next() else {
            return PairCount::Several;
        };
        let mut values = section.get_all(key);
        let Some(_) = values.next() else {
            return PairCount::Nothing;
        };
        match values.next() {
            Some(_) => PairCount::Several,
            None => PairCount::One,
        }
    }

    // A pair of the key in a section of the name, looked for from where the last one stood.
    fn near(&self, source: &Source<'_>, name: Option<&str>, key: &str) -> Option<PairNumber>
        ensures { IfSome result (λ at. IsPairThere (str_name name.entry) (chars key.now)
            source.now.sections at.section at.pair) }
    {
        let sections = source.sections();
        let section = section_near(sections, self.last.section, name)?;
        let pair = pair_near(sections[section].pairs(), self.last.pair, key)?;
        Some(PairNumber { section, pair })
    }
}

// Sets a value, as `Source::set` does with the later pairs taken out, by what is known of the key's pairs.
fn set_found(
    alloc: Global,
    write: &WriteOption,
    found: Found,
    name: Option<&str>,
    key: &str,
    value: &str,
    source: &mut Source<'_>,
) -> Result<(), EditError>
    requires found { Finds (str_name name) (chars key.now) source.old.sections found }
    ensures set { OnOk result (IsSetIn source.old.option write.now TakenOut source.old source.new
        (str_name name.entry) (chars key.now) (chars value.now)) }
    ensures document { OnOk result (document_in source.new
        ≡ set_in (str_name name.entry) (chars key.now) (chars value.now) (document_in source.old)) }
    ensures refused { IfErr result (RefusesToSetIn source.old.option write.now source.old.sections
        (str_name name.entry) (chars key.now) (chars value.now)) }
{
    if sets_found(alloc, write, found, name, key, value, source) {
        return Ok(());
    }
    source.set(alloc, write, LaterPairs::TakenOut, name, key, value)
}

// Sets it where its pair was found, or in a new one where there is none: whether that was done.
fn sets_found(
    alloc: Global,
    write: &WriteOption,
    found: Found,
    name: Option<&str>,
    key: &str,
    value: &str,
    source: &mut Source<'_>,
) -> bool
    requires found { Finds (str_name name) (chars key.now) source.old.sections found }
    ensures set { result ≡ true → IsSetIn source.old.option write.now TakenOut source.old source.new
        (str_name name.entry) (chars key.now) (chars value.now) }
    ensures document { result ≡ true → document_in source.new
        ≡ set_in (str_name name.entry) (chars key.now) (chars value.now) (document_in source.old) }
    ensures unchanged { result ≡ false → source.new ≡ source.old }
{
    match found {
        Found::Nothing => source.add(alloc, write, name, key, value).is_ok(),
        Found::Only(at) => {
            match source.set_at(alloc, write.escape_policy, at.section, at.pair, value) {
                Ok(set) => set,
                Err(_) => false,
            }
        }
        Found::Unknown => false,
    }
}

// A section of the name, looked for from one on, and then before that.
fn section_near(sections: &[SourceSection<'_>], from: usize, name: Option<&str>) -> Option<usize>
    ensures { IfSome result (PassesAt (is_named (str_name name.entry)) sections.now) }
{
    let count = sections.len();
    let from = from.min(count);
    match section_within(sections, from, count, name) {
        Some(section) => Some(section),
        None => section_within(sections, 0, from, name),
    }
}

fn section_within(
    sections: &[SourceSection<'_>],
    from: usize,
    to: usize,
    name: Option<&str>,
) -> Option<usize>
    requires { to ≤ length sections.now }
    ensures { IfSome result (PassesAt (is_named (str_name name.entry)) sections.now) }
{
    for index in from..to {
        if is_same_value(name, sections[index].name()) {
            return Some(index);
        }
    }
    None
}

// A pair of the key, looked for so.
fn pair_near(pairs: &[SourcePair<'_>], from: usize, key: &str) -> Option<usize>
    ensures { IfSome result (PassesAt (is_keyed (chars key.now)) pairs.now) }
{
    let count = pairs.len();
    let from = from.min(count);
    match pair_within(pairs, from, count, key) {
        Some(pair) => Some(pair),
        None => pair_within(pairs, 0, from, key),
    }
}

fn pair_within(pairs: &[SourcePair<'_>], from: usize, to: usize, key: &str) -> Option<usize>
    requires { to ≤ length pairs.now }
    ensures { IfSome result (PassesAt (is_keyed (chars key.now)) pairs.now) }
{
    for index in from..to {
        if is_same_text(key, pairs[index].key()) {
            return Some(index);
        }
    }
    None
}
