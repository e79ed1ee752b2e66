//! Walks over the sections of a document. Each goes by a text of ends, a letter a step: `f` from the front
//! and `b` from the back.
use crate::show::{pairs, put};
use ini::{Error, Ini, Properties};
use std::alloc::Global;

/// A step of a walk: from the front where the letter is `f`, else from the back.
pub fn step<I: DoubleEndedIterator>(walk: &mut I, end: char) -> Option<I::Item>
    requires front { I.can_next walk.old }
    requires back { I.can_next_back walk.old }
{
    if end == 'f' {
        walk.next()
    } else {
        walk.next_back()
    }
}

fn push_section(
    out: &mut String,
    alloc: Global,
    name: Option<&str>,
    section: &Properties,
) -> Result<(), Error> {
    let pairs = pairs(alloc, section)?;
    put(out, &[name.unwrap_or("general"), pairs.as_str(), ";"])
}

// Puts a name last, as `none` where the walk has ended.
fn push_name(out: &mut String, given: Option<Option<&str>>) -> Result<(), Error> {
    match given {
        Some(name) => put(out, &[name.unwrap_or("general"), ";"]),
        None => put(out, &["none;"]),
    }
}

// How many sections are left of a walk, where its hint is exact.
fn push_left(
    out: &mut String,
    alloc: Global,
    (least, most): (usize, Option<usize>),
) -> Result<(), Error> {
    if most == Some(least) {
        out.push_str(format!(in alloc; "{least}")?.as_str())?;
    }
    Ok(())
}

/// What a walk over the sections gives, and how many are left.
pub fn iter(alloc: Global, document: &Ini, ends: &str) -> Result<String, Error> {
    let mut out = String::new(alloc);
    let mut walk = document.iter();
    for end in ends.chars() {
        let given = step(&mut walk, end);
        match given {
            Some((name, section)) => push_section(&mut out, alloc, name, section)?,
            None => out.push_str("none;")?,
        }
    }
    push_left(&mut out, alloc, walk.size_hint())?;
    Ok(out)
}

/// The same of one that hands the sections of a copy out.
pub fn into_iter(alloc: Global, document: &Ini, ends: &str) -> Result<String, Error> {
    let mut out = String::new(alloc);
    let mut walk = document.clone()?.into_iter();
    for end in ends.chars() {
        let given = step(&mut walk, end);
        match given {
            Some((name, section)) => push_section(&mut out, alloc, name.as_deref(), &section)?,
            None => out.push_str("none;")?,
        }
    }
    push_left(&mut out, alloc, walk.size_hint())?;
    Ok(out)
}

/// The names that a walk over them gives.
pub fn names(alloc: Global, document: &Ini, ends: &str) -> Result<String, Error> {
    let mut out = String::new(alloc);
    let mut walk = document.sections();
    for end in ends.chars() {
        let given = step(&mut walk, end);
        push_name(&mut out, given)?;
    }
    Ok(out)
}

// Takes k out of a section, if one is lent.
fn is_rid_of_k(lent: Option<&mut Properties>) -> bool {
    match lent {
        Some(section) => {
            let _ = section.remove("k");
            true
        }
        None => false,
    }
}

/// The pairs of the sections of a name that a walk over those gives.
pub fn section_all(
    alloc: Global,
    document: &Ini,
    name: Option<&str>,
    ends: &str,
) -> Result<String, Error> {
    let mut out = String::new(alloc);
    let mut walk = document.section_all(name);
    for end in ends.chars() {
        let given = step(&mut walk, end);
        match given {
            Some(section) => push_section(&mut out, alloc, name, section)?,
            None => out.push_str("none;")?,
        }
    }
    Ok(out)
}

/// Takes k out of the sections of a name that a walk lends; answers at each step whether one was lent.
pub fn section_all_mut(
    alloc: Global,
    document: &mut Ini,
    name: Option<&str>,
    ends: &str,
) -> Result<String, Error> {
    let mut out = String::new(alloc);
    let mut walk = document.section_all_mut(name);
    for end in ends.chars() {
        let lent = step(&mut walk, end);
        out.push_str(if is_rid_of_k(lent) { "lent;" } else { "none;" })?;
    }
    Ok(out)
}

/// Takes k out of the sections that a walk lends; answers their names, and how many are left.
pub fn iter_mut(alloc: Global, document: &mut Ini, ends: &str) -> Result<String, Error> {
    let mut out = String::new(alloc);
    let mut walk = document.iter_mut();
    for end in ends.chars() {
        let lent = step(&mut walk, end);
        match lent {
            Some((name, section)) => {
                let _ = section.remove("k");
                out.push_str(name.unwrap_or("general"))?;
            }
            None => out.push_str("none")?,
        }
        out.push(';')?;
    }
    push_left(&mut out, alloc, walk.size_hint())?;
    Ok(out)
}

/// Appends the pair of `name` and each section's name to the section; `mut_iter` lends the first one before.
#[allow(deprecated)]
pub fn name_all(document: &mut Ini) -> Result<(), Error> {
    if let Some((_, section)) = document.mut_iter().next() {
        section.append("first", "1")?;
    }
    for (name, section) in document {
        section.append("name", name.unwrap_or("none"))?;
    }
    Ok(())
}

/// How many names there are, and sections of this name, by both walks over those.
pub fn counts(alloc: Global, document: &mut Ini, name: Option<&str>) -> Result<String, Error> {
    let (names, all) = (
        document.sections().count(),
        document.section_all(name).count(),
    );
    let lent = document.section_all_mut(name).count();
    Ok(format!(in alloc; "{names} {all} {lent}")?)
}
