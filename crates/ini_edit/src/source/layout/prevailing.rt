//! The separator that most pairs of a text have. This file knows pairs and sections, and no layout.
ghost use Rattle.std.specs.Prelude.{◌≡◌, ◌++◌, chars, flat_map, not, IfOk, IsOkUnless, OnOk, alloc_error};
ghost use Rattle.std.specs.List.{best_of};
ghost use Rattle.std.specs.Option.{option_map};
ghost use Rattle.ini_edit.specs.Inside.SourceEnds.{style_of};
ghost use Rattle.ini_edit.specs.Prevailing.{blank_if, comes_first, count_of, form_of, form_style, form_with};
ghost use Rattle.ini_edit.specs.Prevailing.{forms_of, is_form, other_forms, prevailing};
ghost use Rattle.ini_edit.specs.Prevailing.{prevailing_style, prevails};
ghost use Rattle.ini_edit.specs.SourceLines.{blanks_at_end, is_empty};

use crate::source::layout::pair::leaves_line_empty;
use crate::source::lines::{begins_with_blank, blanks_at_end, is_empty};
use crate::source::pair::SourcePair;
use crate::source::section::SourceSection;
use crate::source::written::PairStyle;
use ini_text::Error;
use std::alloc::Global;

/// How a separator stands: which it is, and whether blanks stand before it and after it.
#[derive(Clone, Copy)]
pub(crate) struct Form {
    separator: char,
    padded: bool,
    spaced: bool,
}

/// The separator that prevails in sections, where they are to be aligned or not; `None` where no pair shows
/// one.
pub(crate) fn prevailing_style<'s>(
    alloc: Global,
    aligned: bool,
    sections: &[SourceSection<'_>],
) -> Result<Option<PairStyle<'s>>, Error>
    ensures style { IfOk result
        (λ style. option_map style_of style ≡ prevailing_style aligned sections.now) }
    ensures only { IsOkUnless result (Error.Memory alloc_error) }
{
    let mut forms = Vec::new(alloc);
    for section in sections {
        push_forms(&mut forms, aligned, section.pairs())?;
    }
    match prevailing(forms.as_slice()) {
        Some(form) => Ok(Some(form_style(form))),
        None => Ok(None),
    }
}

// Appends the forms that pairs show.
fn push_forms(forms: &mut Vec<Form>, aligned: bool, pairs: &[SourcePair<'_>]) -> Result<(), Error>
    ensures pushed { OnOk result (forms.new.items
        ≡ forms.old.items ++ flat_map (forms_of aligned) pairs.now) }
    ensures only { IsOkUnless result (Error.Memory alloc_error) }
{
    for pair in pairs {
        pair.push_form(forms, aligned)?;
    }
    Ok(())
}

impl<'a> SourcePair<'a> {
    // Appends the form that the pair shows, if it shows one.
    fn push_form(&self, forms: &mut Vec<Form>, aligned: bool) -> Result<(), Error>
        ensures pushed { OnOk result (forms.new.items ≡ forms.old.items ++ forms_of aligned self.now) }
        ensures only { IsOkUnless result (Error.Memory alloc_error) }
    {
        if leaves_line_empty(self.raw_value()) {
            return Ok(());
        }
        forms.push(self.form(aligned))?;
        Ok(())
    }

    // The form of the pair's separator.
    fn form(&self, aligned: bool) -> Form
        ensures { result ≡ form_of aligned self.now }
    {
        let spaced = begins_with_blank(self.space_before());
        let padded = if aligned { spaced } else { self.is_padded() };
        Form::new(self.separator().unwrap_or('='), padded, spaced)
    }

    // Whether blanks stand before the separator.
    fn is_padded(&self) -> bool
        ensures { result ≡ not (is_empty (blanks_at_end self.now.stretches.key)) }
    {
        !is_empty(blanks_at_end(self.raw_key()))
    }
}

// The form that prevails among these.
fn prevailing(forms: &[Form]) -> Option<Form>
    ensures { result ≡ prevailing forms.now }
{
    if forms.is_empty() {
        return None;
    }
    let first = Form::new('=', false, false);
    let others = other_forms();
    Some(first_best(forms, first, &others))
}

// All forms but that of `=` alone.
fn other_forms() -> [Form; 7]
    ensures { result ≡ other_forms }
{
    [
        Form::new('=', false, true),
        Form::new('=', true, false),
        Form::new('=', true, true),
        Form::new(':', false, false),
        Form::new(':', false, true),
        Form::new(':', true, false),
        Form::new(':', true, true),
    ]
}

// Of a first form and others the one that prevails.
fn first_best(forms: &[Form], first: Form, others: &[Form]) -> Form
    ensures { result ≡ best_of (prevails forms.now) first others.now }
{
    let mut best = first;
    for other in others {
        if !prevails(forms, *other, best) {
            continue;
        }
        best = *other;
    }
    best
}

// Whether a form prevails over another.
fn prevails(forms: &[Form], form: Form, other: Form) -> bool
    ensures { result ≡ prevails forms.now form other }
{
    let count = count_of(forms, form);
    let others = count_of(forms, other);
    others < count || (others == count && comes_first(forms, form, other))
}

// How many of the forms are this one.
fn count_of(forms: &[Form], form: Form) -> usize
    ensures { result ≡ count_of form forms.now }
{
    let mut count = 0;
    for one in forms {
        if !one.is(form) {
            continue;
        }
        count += 1;
    }
    count
}

// Whether a form is one of these, and the other one doesn't come before it.
fn comes_first(forms: &[Form], form: Form, other: Form) -> bool
    ensures { result ≡ comes_first form other forms.now }
{
    for one in forms {
        if one.is(form) {
            return true;
        }
        if one.is(other) {
            return false;
        }
    }
    false
}

impl Form {
    // A separator with blanks, or none, before it and after it.
    fn new(separator: char, padded: bool, spaced: bool) -> Form
        ensures { result ≡ form_with separator padded spaced }
    {
        Form {
            separator,
            padded,
            spaced,
        }
    }

    // Whether it is this one.
    fn is(self, other: Form) -> bool
        ensures { result ≡ is_form self other }
    {
        self.separator == other.separator
            && self.padded == other.padded
            && self.spaced == other.spaced
    }
}

// How a form is written.
fn form_style<'s>(form: Form) -> PairStyle<'s>
    ensures { style_of result ≡ form_style form }
{
    let separator = form.separator;
    PairStyle {
        indent: "",
        pad: blank_if(form.padded),
        separator,
        space_before: blank_if(form.spaced),
    }
}

// A blank, or none.
fn blank_if(is_there: bool) -> &'static str
    ensures { chars result.now ≡ blank_if is_there }
{
    if is_there { " " } else { "" }
}
