//! All values of a key, set in a text in pieces. This file knows the calls of pieces, and of rules.
ghost use Rattle.std.specs.Prelude.{◌≡◌, IfErr, IfOk, OnOk, chars, map};
ghost use Rattle.ini.specs.Texts.{str_name, str_text};
ghost use Rattle.ini_dialect.specs.Rules.{is_own};
ghost use Rattle.ini_file.specs.ValueLists.{AreAddedUnder, AreReplacedUnder, HaveValues, RefusesAdded};
ghost use Rattle.ini_file.specs.ValueLists.{RefusesReplaced, RefusesValues, texts_in};

use ini_dialect::Lookup;
use ini_edit::{EditError, Source};
use ini_text::WriteOption;
use std::alloc::{AllocError, Global};

/// Gives the key these values, and no others: by the crate's own rule as `Source::set_all` does, under
/// another in new pairs, each where `add` puts one, once all pairs of the key that are looked at are taken
/// out. Refused, some of this may be done.
///
/// # Errors
///
/// Those of these calls.
pub fn set_values(
    alloc: Global,
    rule: Lookup,
    write: &WriteOption,
    source: &mut Source<'_>,
    name: Option<&str>,
    key: &str,
    values: &[String],
) -> Result<(), EditError>
    ensures set { OnOk result (HaveValues rule write.now (str_name name.entry) (chars key.now)
        (is_own rule) (texts_in values.now) source.old source.new) }
    ensures refused { IfErr result (RefusesValues rule write.now (str_name name.entry) (chars key.now)
        (texts_in values.now) source.old) }
{
    if rule.is_own() {
        let texts = texts_of(alloc, values)?;
        return source.set_all(alloc, write, name, key, texts.as_slice());
    }
    replace_values(alloc, rule, write, source, name, key, values)
}

// The words, lent.
fn texts_of(alloc: Global, words: &[String]) -> Result<Vec<&str>, AllocError>
    ensures { IfOk result (λ texts. map str_text texts.items ≡ texts_in words.now) }
{
    let mut texts = Vec::new(alloc);
    for word in words {
        texts.push(word.as_str())?;
    }
    Ok(texts)
}

// Takes the pairs of the key out that are looked at, and adds one for each value.
fn replace_values(
    alloc: Global,
    rule: Lookup,
    write: &WriteOption,
    source: &mut Source<'_>,
    name: Option<&str>,
    key: &str,
    values: &[String],
) -> Result<(), EditError>
    ensures set { OnOk result (AreReplacedUnder rule write.now (str_name name.entry) (chars key.now)
        (texts_in values.now) source.old source.new) }
    ensures refused { IfErr result (RefusesReplaced rule write.now (str_name name.entry) (chars key.now)
        (texts_in values.now) source.old) }
{
    rule.delete_in_source(alloc, source, name, key)?;
    add_each(alloc, rule, write, source, name, key, values)
}

// Adds a pair for each value.
fn add_each(
    alloc: Global,
    rule: Lookup,
    write: &WriteOption,
    source: &mut Source<'_>,
    name: Option<&str>,
    key: &str,
    values: &[String],
) -> Result<(), EditError>
    ensures added { OnOk result (AreAddedUnder rule write.now (str_name name.entry) (chars key.now)
        (texts_in values.now) source.old source.new) }
    ensures refused { IfErr result (RefusesAdded rule write.now (str_name name.entry) (chars key.now)
        (texts_in values.now) source.old) }
{
    for value in values {
        rule.add_in_source(alloc, write, source, name, key, value.as_str())?;
    }
    Ok(())
}
