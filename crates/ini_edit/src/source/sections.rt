//! Sections put into a text in pieces and taken out. This file knows sections by their calls.
ghost use Rattle.std.specs.Prelude.{◌≡◌, ◌↔◌, ◌<◌, ◌+◌, Err, IfErr, IfOk, IsOkUnless, OnErr, OnOk, Some, alloc_error};
ghost use Rattle.std.specs.List.{remove};
ghost use Rattle.std.specs.Prelude.{IfSome, MatchOption, None, [], ◌∷◌, chars, get_or, is_some, length};
ghost use Rattle.std.specs.Prelude.{set, take};
ghost use Rattle.ini.specs.Documents.{section_removed};
ghost use Rattle.ini_text.specs.Laws.Plain.{IsPlainName};
ghost use Rattle.ini_text.specs.Options.WriteOptions.{line_end};
ghost use Rattle.ini_text.specs.Parsing.Fronts.{front_of};
ghost use Rattle.ini_text.specs.Parsing.Items.{string_text};
ghost use Rattle.ini_edit.specs.Inside.SourceEnds.{IsPlaceAt, IsSectionPut, RefusesSection, end_put_last};
ghost use Rattle.ini_edit.specs.Inside.SourceEnds.{MakesPairs, maker_of, place_in};
ghost use Rattle.ini_text.specs.declared.write.policy.EscapePolicy.{EscapePolicy};
ghost use Rattle.ini_edit.specs.Sections.{header_of};
ghost use Rattle.ini_edit.specs.SourceEditsList.{with_sections};
ghost use Rattle.ini_edit.specs.Edited.{IsNameOrMemory};
ghost use Rattle.ini_edit.specs.SourceEditsAdded.{AddsSection};
ghost use Rattle.ini_edit.specs.SourceEditsSections.{new_section, section_deleted, section_deleted_at};
ghost use Rattle.ini_edit.specs.SourcePlaces.{Place, last_gap, section_place};
ghost use Rattle.ini_edit.specs.Sources.{SectionPiece, document_in};
ghost use Rattle.ini_edit.specs.declared.error.EditError.TheVariants as EditErrors;

use crate::append::push_text;
use crate::error::EditError;
use crate::source::pair::SourcePair;
use crate::source::pair::ends::NewEnd;
use crate::source::place::place_for_section;
use crate::source::section::{SourceSection, written_header};
use crate::source::written::NewPair;
use crate::source::{Source, push_section};
use ini_text::{Error, EscapePolicy, LineSeparator, WriteOption, is_plain_name};
use std::alloc::{AllocError, Global};

impl<'a> Source<'a> {
    /// Takes out the first section of a name: whether there was one. The general section has no name, and
    /// doesn't go.
    ///
    /// The section goes with its header, what indents that, its pairs and all that follows them, but for the
    /// comments directly above the next header, and what indents this one; at the text's end an indented key
    /// stays that the end cuts short. The line end before what stays does too where no line starts before
    /// the section, and where a comment must stay in column one. Every other byte stays.
    ///
    /// # Errors
    ///
    /// `Memory` where memory is refused: nothing is changed then.
    pub fn delete_section(&mut self, alloc: Global, name: &str) -> Result<bool, Error>
        ensures found { IfOk result (λ found. found
            ≡ is_some (section_place (Some (chars name.now)) self.old.sections)) }
        ensures deleted { OnOk result (self.new ≡ with_sections self.old
            (section_deleted self.old.option (chars name.now) self.old.sections)) }
        ensures document { OnOk result (document_in self.new
            ≡ section_removed (Some (chars name.now)) (document_in self.old)) }
        ensures unchanged { OnErr result (self.new ≡ self.old) }
        ensures only { IsOkUnless result (Error.Memory alloc_error) }
    {
        let Some(index) = self.position(Some(name)) else {
            return Ok(false);
        };
        let Some(before) = index.checked_sub(1) else {
            return Ok(false);
        };
        let end = self.end_without(alloc, index, before)?;
        let section = self.sections.remove(index);
        drop(section);
        let count = self.sections[before].pairs().len();
        self.sections[before].put_new_end(count, end);
        Ok(true)
    }

    // The last parts of the section before the one at the index, once that is taken out.
    fn end_without(&self, alloc: Global, index: usize, before: usize) -> Result<NewEnd<'a>, Error>
        requires within { index < length self.now.sections }
        requires next { index ≡ before + 1 }
        ensures put { IfOk result (λ end. (p : Place SectionPiece) → IsPlaceAt self.now.sections p index
            → (s : SectionPiece) → s ≡ get_or self.now.sections before s
            → set (remove self.now.sections index) before (end_put_last end s)
            ≡ section_deleted_at self.now.option p) }
        ensures only { IsOkUnless result (Error.Memory alloc_error) }
    {
        let count = self.sections.len();
        let is_last = index + 1 == count;
        let section = &self.sections[index];
        let rest = section.rest(self.last_before(index), is_last, self.option);
        let line_end = section.line_end_before(alloc, rest.before)?;
        let front = self.last_before(before);
        self.sections[before].with_rest_of_next(alloc, front, rest.gap, line_end, self.option)
    }

    /// Puts a section without pairs in at the text's end, with an empty line before it, where there is none
    /// of the name: whether it was put in. A key that the text's end cuts short stays the last.
    ///
    /// # Errors
    ///
    /// `Name` where the name isn't plain (`is_plain_name`), whatever the text is; `Text` where memory is
    /// refused. Nothing is changed then.
    pub fn add_section(
        &mut self,
        alloc: Global,
        write: &WriteOption,
        name: &str,
    ) -> Result<bool, EditError>
        ensures added { IfOk result (AddsSection self.old.option write.now self.old self.new
            (chars name.now)) }
        ensures unchanged { OnErr result (self.new ≡ self.old) }
        ensures name { (result ≡ Err EditErrors.Name)
            ↔ ¬ IsPlainName self.old.option write.now.escape_policy (chars name.now) }
        ensures only { IfErr result IsNameOrMemory }
    {
        if !is_plain_name(name, write.escape_policy, self.option) {
            return Err(EditError::Name);
        }
        if self.position(Some(name)).is_some() {
            return Ok(false);
        }
        let end = self.line_end(write.line_separator);
        self.add_new_section(alloc, write.escape_policy, end, name, None)?;
        Ok(true)
    }

    // Puts a section in at the text's end, with a pair or without. The pair is read where a line starts.
    pub(crate) fn add_new_section(
        &mut self,
        alloc: Global,
        policy: EscapePolicy,
        end: LineSeparator,
        name: &str,
        pair: Option<NewPair<'a>>,
    ) -> Result<(), EditError>
        requires pair { IfSome (maker_of self.old.option pair) (MakesPairs self.old.option) }
        ensures put { OnOk result (IsSectionPut (maker_of self.old.option pair.entry) self.old.option policy
            (line_end end) (chars name.now) self.old self.new) }
        ensures unchanged { OnErr result (self.new ≡ self.old) }
        ensures refused { IfErr result (RefusesSection
            (maker_of self.old.option pair.entry) self.old.option policy
            (line_end end) (chars name.now) self.old.sections) }
    {
        if !is_plain_name(name, policy, self.option) {
            return Err(EditError::Name);
        }
        let Some(last) = self.sections.len().checked_sub(1) else {
            return Ok(());
        };
        let Some((before, after)) = self.place_after(last, pair.is_some()) else {
            return Err(EditError::NoPlace);
        };
        let ended = self.sections[last].with_empty_line(alloc, before, end, self.option)?;
        let header = written_header(alloc, name, policy)?;
        let new = new_section(alloc, name, header, pair, after, end, self.option)?;
        let count = self.sections[last].pairs().len();
        push_section(&mut self.sections, new)?;
        self.sections[last].put_new_end(count, ended);
        Ok(())
    }

    // Where a new section goes in the gap after the last section, if there is a place.
    fn place_after(&self, last: usize, has_pair: bool) -> Option<(&str, &str)>
        requires last { last + 1 ≡ length self.now.sections }
        ensures { (t : SectionPiece) → t ≡ get_or self.now.sections last t
            → MatchOption result (place_in self.now.option has_pair
            (take last self.now.sections) t ≡ None)
            (λ p. (place_in self.now.option has_pair (take last self.now.sections) t ≡ Some (chars p.1.now))
            × (chars p.0.now ≡ front_of (last_gap t) (chars p.1.now))) }
    {
        let section = &self.sections[last];
        let count = section.pairs().len();
        let before_gap = section.last_before_gap(self.last_before(last), count);
        place_for_section(before_gap, section.last_gap(), has_pair, self.option)
    }
}

// A section of this name and header, with a pair or without, before a gap.
fn new_section<'a>(
    alloc: Global,
    name: &str,
    header: String,
    pair: Option<NewPair<'a>>,
    gap: &str,
    end: LineSeparator,
    read: ini_text::ParseOption,
) -> Result<SourceSection<'a>, Error>
    ensures new { (policy : EscapePolicy) → string_text header ≡ header_of policy (chars name.now)
        → IfOk result (λ section. section ≡ new_section read policy (line_end end) (chars name.now)
        (maker_of read pair.entry) (chars gap.now)) }
    ensures only { IsOkUnless result (Error.Memory alloc_error) }
{
    let name = String::from_str(alloc, name)?;
    let mut after = String::from_str(alloc, end.as_str())?;
    let Some(pair) = pair else {
        push_text(&mut after, gap)?;
        return Ok(SourceSection::of_parts(name, header, after, Vec::new(alloc)));
    };
    let lines = String::from_str(alloc, end.as_str())?;
    let pair = pair.before(alloc, true, lines, gap, read)?;
    let pairs = one_pair(alloc, pair)?;
    Ok(SourceSection::of_parts(name, header, after, pairs))
}

// A list of one pair.
fn one_pair<'a>(alloc: Global, pair: SourcePair<'a>) -> Result<Vec<SourcePair<'a>>, Error>
    ensures pair { IfOk result (λ pairs. pairs.items ≡ pair.entry ∷ []) }
    ensures only { IsOkUnless result (Error.Memory alloc_error) }
{
    let mut pairs = Vec::new(alloc);
    match pairs.push(pair) {
        Ok(()) => Ok(pairs),
        Err(_) => Err(Error::Memory(AllocError)),
    }
}
