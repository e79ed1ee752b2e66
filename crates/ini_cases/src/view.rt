//! The view of a text beside its document: both have to answer the same.
//!
//! A comparison ends at the first answer that differs.
use crate::walk::step;
use ini::{Error, Ini, ParseError, ParseOption, Properties};
use ini_view::{View, ViewSection};
use std::alloc::Global;

/// Whether the view of the text is refused as the document is, or else answers as it does.
pub fn is_same(
    alloc: Global,
    text: &str,
    read: ParseOption,
    answer: &Result<Ini, Error>,
) -> Result<bool, Error> {
    match (View::load_from_str_opt(alloc, text, read), answer) {
        (Ok(view), Ok(document)) => are_same_and_copied(alloc, &view, document),
        (Err(Error::Parse(one)), Err(Error::Parse(other))) => Ok(is_same_fault(&one, other)),
        (Err(Error::Memory(refused)), _) => Err(Error::Memory(refused)),
        _ => Ok(false),
    }
}

/// Whether both are the same fault, at one place.
pub fn is_same_fault(one: &ParseError, other: &ParseError) -> bool {
    (one.line, one.col) == (other.line, other.col) && one.msg == other.msg
}

fn are_same_and_copied(alloc: Global, view: &View<'_>, document: &Ini) -> Result<bool, Error> {
    if !are_same(view, document) {
        return Ok(false);
    }
    is_copied(alloc, view)
}

// Counts, walks and look-ups.
fn are_same(view: &View<'_>, document: &Ini) -> bool {
    if (view.len(), view.is_empty()) != (document.len(), document.is_empty()) {
        return false;
    }
    if !are_sections_same(view, document) {
        return false;
    }
    if !are_names_same(view, document) {
        return false;
    }
    are_looked_up(view, document)
}

// From which end the step of this number goes, of a walk from both ends in turn.
fn end_of(turn: usize) -> char {
    if turn % 2 == 0 { 'b' } else { 'f' }
}

// The sections, walked over from both ends.
fn are_sections_same(view: &View<'_>, document: &Ini) -> bool {
    let (mut lent, mut owned) = (view.iter(), document.iter());
    if lent.size_hint() != owned.size_hint() {
        return false;
    }
    for turn in 0..document.iter().count() {
        let (one, other) = (
            step(&mut lent, end_of(turn)),
            step(&mut owned, end_of(turn)),
        );
        if !is_named_same(one, other) {
            return false;
        }
    }
    lent.next().is_none()
}

// Whether both are there, with one name and the same pairs.
fn is_named_same(
    one: Option<(Option<&str>, &ViewSection<'_>)>,
    other: Option<(Option<&str>, &Properties)>,
) -> bool {
    match (one, other) {
        (Some((name, pairs)), Some((named, owned))) => {
            name == named && is_section_same(pairs, owned)
        }
        _ => false,
    }
}

// The names, walked over from both ends.
fn are_names_same(view: &View<'_>, document: &Ini) -> bool {
    let (mut lent, mut owned) = (view.sections(), document.sections());
    for turn in 0..document.sections().count() {
        let (one, other) = (
            step(&mut lent, end_of(turn)),
            step(&mut owned, end_of(turn)),
        );
        if one != other {
            return false;
        }
    }
    lent.next().is_none()
}

// Counts, and the pairs of a section, walked over from both ends; each key, looked up.
fn is_section_same(view: &ViewSection<'_>, section: &Properties) -> bool {
    if (view.len(), view.is_empty()) != (section.len(), section.is_empty()) {
        return false;
    }
    if view.contains_key("\0 no such key") {
        return false;
    }
    are_pairs_same(view, section)
}

fn are_pairs_same(view: &ViewSection<'_>, section: &Properties) -> bool {
    let (mut lent, mut owned) = (view.iter(), section.iter());
    if lent.size_hint() != owned.size_hint() {
        return false;
    }
    for turn in 0..section.iter().count() {
        let (one, other) = (
            step(&mut lent, end_of(turn)),
            step(&mut owned, end_of(turn)),
        );
        if one != other {
            return false;
        }
    }
    lent.next().is_none() && are_keys_same(view, section)
}

// Each key, looked up in its own section.
fn are_keys_same(view: &ViewSection<'_>, section: &Properties) -> bool {
    for (key, _) in section {
        if !view.contains_key(key) {
            return false;
        }
        if view.get(key) != section.get(key) {
            return false;
        }
        if !are_values_same(view, section, key) {
            return false;
        }
    }
    true
}

// The values of a key, walked over from both ends.
fn are_values_same(view: &ViewSection<'_>, section: &Properties, key: &str) -> bool {
    let (mut lent, mut owned) = (view.get_all(key), section.get_all(key));
    for turn in 0..section.get_all(key).count() {
        let (one, other) = (
            step(&mut lent, end_of(turn)),
            step(&mut owned, end_of(turn)),
        );
        if one != other {
            return false;
        }
    }
    lent.next().is_none()
}

// Each key under each name, also where the key isn't there.
fn are_looked_up(view: &View<'_>, document: &Ini) -> bool {
    if view.section(Some("\0 no such name")).is_some() {
        return false;
    }
    for name in document.sections() {
        if view.section(name).is_none() {
            return false;
        }
        if !is_name_looked_up(view, document, name) {
            return false;
        }
    }
    true
}

// Each key, under a name.
fn is_name_looked_up(view: &View<'_>, document: &Ini, name: Option<&str>) -> bool {
    for (_, section) in document {
        for (key, _) in section {
            if !is_key_looked_up(view, document, name, key) {
                return false;
            }
        }
    }
    true
}

fn is_key_looked_up(view: &View<'_>, document: &Ini, name: Option<&str>, key: &str) -> bool {
    if view.get_from(name, key) != document.get_from(name, key) {
        return false;
    }
    view.get_from_or(name, key, "d") == document.get_from_or(name, key, "d")
}

// Copies of the view and of its sections have what it has.
fn is_copied(alloc: Global, view: &View<'_>) -> Result<bool, Error> {
    if !are_same(view, &view.to_ini(alloc)?) {
        return Ok(false);
    }
    for (_, section) in view {
        if !is_section_same(section, &section.to_properties(alloc)?) {
            return Ok(false);
        }
    }
    Ok(true)
}
