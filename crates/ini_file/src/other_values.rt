//! Where keys have several values, and one is compared: a line on the first of which others differ. This file
//! knows documents by their calls, and no device.
ghost use Rattle.std.specs.Prelude.{◌≡◌, ◌||◌, ◌==◌, [], IfOk, chars, map};
ghost use Rattle.std.specs.List.{find, list_any};
ghost use Rattle.std.specs.Option.{option_map, option_map_or};
ghost use Rattle.ini_text.specs.Grammar.CharacterKinds.{line_feed};
ghost use Rattle.ini.specs.Properties.{values};
ghost use Rattle.ini.specs.Texts.{str_name};
ghost use Rattle.ini_dialect.specs.Flattened.{listed};
ghost use Rattle.ini_layers.specs.Differences.{difference, setting_change};
ghost use Rattle.ini_file.specs.OtherValues.{are_several, has_repeated, lists_several, may_have_several};
ghost use Rattle.ini_file.specs.OtherValues.{others_line, others_told};

use crate::change_lines::{front_of, push_parts};
use ini::{Ini, Properties};
use ini_dialect::{AnyDocument, Lookup};
use ini_layers::{Change, SettingValue, diff};
use std::alloc::{AllocError, Global};

/// A line on the first setting whose lists of values differ under the rule, of which one has several; nothing
/// where there is none, or lists are compared. Refused when out of memory alone.
///
/// Without a key that stands twice in a section the default rule copies nothing.
pub fn other_values(
    alloc: Global,
    which: SettingValue,
    rule: Lookup,
    from: &Ini,
    to: &Ini,
) -> Result<Vec<u8>, AllocError>
    ensures { IfOk result (λ line. line.items ≡ others_told which rule from.now to.now) }
{
    let compares_one = which == SettingValue::Counting;
    if compares_one && (may_have_several(rule, from) || may_have_several(rule, to)) {
        return differing_lists(alloc, rule, from, to);
    }
    Ok(Vec::new(alloc))
}

// Whether a key may have several values under the rule.
fn may_have_several(rule: Lookup, document: &Ini) -> bool
    ensures { result ≡ may_have_several rule document.now }
{
    !rule.is_own() || has_repeats(document)
}

// Whether a key has several values in one of the sections.
fn has_repeats(document: &Ini) -> bool
    ensures { result ≡ list_any (λ s. has_repeated s.1) document.now }
{
    for (_, section) in document {
        if has_repeated(section) {
            return true;
        }
    }
    false
}

// Whether one of its keys has several.
fn has_repeated(section: &Properties) -> bool
    ensures { result ≡ has_repeated section.now }
{
    for (key, _) in section {
        if are_several(section, key) {
            return true;
        }
    }
    false
}

// Whether this one has.
fn are_several(section: &Properties, key: &str) -> bool
    ensures { result ≡ are_several (values (chars key.now) section.now) }
{
    let mut values = section.get_all(key);
    values.next().is_some() && values.next().is_some()
}

// A line on the first setting whose lists differ, of which one has several values.
fn differing_lists(alloc: Global, rule: Lookup, from: &Ini, to: &Ini) -> Result<Vec<u8>, AllocError>
    ensures { IfOk result (λ line. line.items ≡ option_map_or others_line
        (find (λ c. lists_several c.old || lists_several c.new)
        (difference (listed rule from.now) (listed rule to.now))) []) }
{
    let Ok(from) = rule.listed(alloc, AnyDocument::Ini(from)) else {
        return Err(AllocError);
    };
    let Ok(to) = rule.listed(alloc, AnyDocument::Ini(to)) else {
        return Err(AllocError);
    };
    let Ok(changes) = diff(alloc, &from, &to) else {
        return Err(AllocError);
    };
    first_line(alloc, changes.as_slice())
}

// A line on the first of the changes of lists that have several values.
fn first_line(alloc: Global, changes: &[Change<'_>]) -> Result<Vec<u8>, AllocError>
    ensures { IfOk result (λ line. line.items ≡ option_map_or others_line
        (find (λ c. lists_several c.old || lists_several c.new) (map setting_change changes.now)) []) }
{
    for change in changes {
        if lists_several(change.old) || lists_several(change.new) {
            return others_line(alloc, *change);
        }
    }
    Ok(Vec::new(alloc))
}

// Whether a list has several values.
fn lists_several(list: Option<&str>) -> bool
    ensures { result ≡ lists_several (str_name list.entry) }
{
    match list {
        Some(lines) => has_line_feed(lines),
        None => false,
    }
}

// Whether a line feed is in the text.
fn has_line_feed(text: &str) -> bool
    ensures { result ≡ list_any (λ c. c == line_feed) (chars text.now) }
{
    text.chars().any(|c| c == '\n')
}

// What is told of the change.
fn others_line(alloc: Global, change: Change<'_>) -> Result<Vec<u8>, AllocError>
    ensures { IfOk result (λ line. line.items ≡ others_line (setting_change change.entry)) }
{
    let mut line = Vec::new(alloc);
    let (open, name, close) = front_of(change.name);
    let told = " has several values, which differ: --lists compares them all\n";
    let parts = [
        ("", "ini_file: "),
        ("", open),
        (name, close),
        (change.key, told),
    ];
    push_parts(&mut line, &parts)?;
    Ok(line)
}
