//! The names and the keys that are listed of a document under a rule. This file knows no word and no reader.
ghost use Rattle.std.specs.Prelude.{◌≡◌, IfOk, Some, map};
ghost use Rattle.ini_text.specs.Device.Watched.{IsClear};
ghost use Rattle.ini.specs.Texts.{str_name};
ghost use Rattle.ini_file.specs.Forms.{keys_listed, keys_once, names_by, names_listed};
ghost use Rattle.ini_words.specs.Prints.{Prints};

use ini::{Error, Watched};
use ini_dialect::{AnyDocument, CaseRule, Lookup, SectionRule};
use ini_view::View;
use ini_words::lines::{Form, entries, keys, names, sections};
use std::alloc::{AllocError, Global};
use std::io::Write;

/// Writes each name of a section, in the order of first occurrence; where case is ignored, one of those that
/// differ in it alone. With `all` the name of each section is written. The answer is `true`.
///
/// # Errors
///
/// Those of `get`; `Memory` only where case is ignored, and with `all`.
#[tactic(auto, using(crate::proofs::ListedLemmas::lists))]
pub fn list_names<W: Write>(
    alloc: Global,
    rule: Lookup,
    all: bool,
    document: &View<'_>,
    form: Form,
    out: &mut Watched<'_, W>,
) -> Result<bool, Error>
    requires { IsClear out.old }
    ensures { Prints W.contents out.old out.new result
        (Some (names_listed rule all form document.now)) }
{
    if all {
        let all = all_names(alloc, document)?;
        return names(all.as_slice(), form, out);
    }
    list_distinct_names(alloc, rule, document, form, out)
}

// The name of each section, in order.
fn all_names<'v>(alloc: Global, document: &'v View<'_>) -> Result<Vec<Option<&'v str>>, AllocError>
    ensures { IfOk result (λ names. map str_name names.items ≡ map (λ s. s.0) document.now) }
{
    let mut names = Vec::new(alloc);
    for (name, _) in document {
        names.push(name)?;
    }
    Ok(names)
}

// Writes each name of a section once.
#[tactic(auto, using(crate::proofs::ListedLemmas::lists))]
fn list_distinct_names<W: Write>(
    alloc: Global,
    rule: Lookup,
    document: &View<'_>,
    form: Form,
    out: &mut Watched<'_, W>,
) -> Result<bool, Error>
    requires { IsClear out.old }
    ensures { Prints W.contents out.old out.new result (Some (names_by rule.case rule form document.now)) }
{
    match rule.case {
        CaseRule::Kept => sections(document, form, out),
        CaseRule::Ignored => {
            let all = rule.sections(alloc, AnyDocument::View(document))?;
            names(all.as_slice(), form, out)
        }
    }
}

/// Writes the keys of the sections of the name that are looked at: of the first one alone, with case kept,
/// the key of each pair; else each key once. Where there is no such section, the answer is `false`, and
/// nothing is written.
///
/// # Errors
///
/// Those of `get`; `Memory` only where each key is written once.
pub fn list_keys<W: Write>(
    alloc: Global,
    rule: Lookup,
    document: &View<'_>,
    section: Option<&str>,
    form: Form,
    out: &mut Watched<'_, W>,
) -> Result<bool, Error>
    requires { IsClear out.old }
    ensures { Prints W.contents out.old out.new result
        (keys_listed rule form (str_name section.entry) document.now) }
{
    match (rule.sections, rule.case) {
        (SectionRule::First, CaseRule::Kept) => keys(document, section, form, out),
        _ => list_keys_once(alloc, rule, document, section, form, out),
    }
}

// Each key once.
#[tactic(auto, using(crate::proofs::ListedLemmas::lists))]
fn list_keys_once<W: Write>(
    alloc: Global,
    rule: Lookup,
    document: &View<'_>,
    section: Option<&str>,
    form: Form,
    out: &mut Watched<'_, W>,
) -> Result<bool, Error>
    requires { IsClear out.old }
    ensures { Prints W.contents out.old out.new result
        (keys_once rule form (str_name section.entry) document.now) }
{
    if !rule.case.has_section(AnyDocument::View(document), section) {
        return Ok(false);
    }
    let all = rule.keys(alloc, AnyDocument::View(document), section)?;
    entries(all.as_slice(), form, out)
}
