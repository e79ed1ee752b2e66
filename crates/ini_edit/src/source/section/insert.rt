//! A pair put into a section. This file knows what follows a pair or a header, and no text of the pair.
ghost use Rattle.std.specs.Prelude.{◌≡◌, ◌==◌, ◌+◌, ◌<◌, ◌≤◌, ◌||◌, ◌++◌, [], IfErr, IfOk, IsOkUnless};
ghost use Rattle.std.specs.Prelude.{OnErr};
ghost use Rattle.std.specs.Prelude.{OnOk, Some, alloc_error, chars, if◌then◌else◌, length, not, take};
ghost use Rattle.ini_text.specs.Options.WriteOptions.{line_end};
ghost use Rattle.ini_text.specs.Parsing.Items.{string_text};
ghost use Rattle.ini_edit.specs.Inside.SourceEnds.{IsNoPlaceOrMemory, IsPlaceAt, made_pair, place_of};
ghost use Rattle.ini_edit.specs.Inside.SourceEnds.{trailing_of};
ghost use Rattle.ini_edit.specs.SourceEditsAdd.{end_after, end_at, made_after, pair_put_after};
ghost use Rattle.ini_edit.specs.SourceEditsAdd.{pair_put_before};
ghost use Rattle.ini_edit.specs.SourceEditsAdd.{pair_put_last, would_go_on};
ghost use Rattle.ini_edit.specs.SourceEditsDelete.{line_end_after};
ghost use Rattle.ini_edit.specs.SourceLines.{is_empty};
ghost use Rattle.ini_edit.specs.SourcePlaces.{Place};
ghost use Rattle.ini_edit.specs.Sources.{PairPiece};

use crate::append::push_text;
use crate::error::EditError;
use crate::source::lines::{comments_at_end, is_empty, last_or};
use crate::source::pair::SourcePair;
use crate::source::pair::ends::{NewEnd, PairEnd, after_empty_comment};
use crate::source::pair::kept::KeptParts;
use crate::source::place::{GapPlace, place_for_first};
use crate::source::section::SourceSection;
use crate::source::written::{NewPair, is_indented};
use crate::text::begins_with_comment;
use ini_text::{Error, LineSeparator, ParseOption, front_before, is_line_end};
use std::alloc::{AllocError, Global};

impl<'a> SourceSection<'a> {
    /// Puts a pair directly after the last one; in a section without pairs, after the header and its
    /// comments.
    pub(crate) fn insert_last(
        &mut self,
        alloc: Global,
        pair: NewPair<'a>,
        is_last: bool,
        end: LineSeparator,
        read: ParseOption,
    ) -> Result<(), EditError>
        ensures put { OnOk result (pair_put_last read (line_end end)
            (made_pair read pair.entry) is_last self.old
            self.old.pairs ≡ Some self.new) }
        ensures unchanged { OnErr result (self.new ≡ self.old) }
        ensures refused { IfErr result (IsNoPlaceOrMemory (pair_put_last read (line_end end)
            (made_pair read pair.entry) is_last self.old self.old.pairs)) }
    {
        match self.pairs.len().checked_sub(1) {
            Some(index) => Ok(self.insert_after(alloc, index, pair, end, read)?),
            None => self.insert_first(alloc, pair, is_last, end, read),
        }
    }

    /// Puts a pair directly after the one at the index.
    pub(crate) fn insert_after(
        &mut self,
        alloc: Global,
        index: usize,
        pair: NewPair<'a>,
        end: LineSeparator,
        read: ParseOption,
    ) -> Result<(), Error>
        requires { index < length self.old.pairs }
        ensures put { (p : Place PairPiece) → IsPlaceAt self.old.pairs p index → OnOk result (self.new
            ≡ pair_put_after read (line_end end) (made_pair read pair.entry) self.old p) }
        ensures unchanged { OnErr result (self.new ≡ self.old) }
        ensures only { IsOkUnless result (Error.Memory alloc_error) }
    {
        let pair = self.made_after(alloc, index, pair, end, read)?;
        let new = self.pairs[index].with_line_end(alloc, end.as_str(), read)?;
        self.pairs
            .insert(index + 1, pair)
            .map_err(AllocError::from)?;
        self.pairs[index].put_new_end(new);
        Ok(())
    }

    // A new pair as it stands directly after the one at the index.
    fn made_after(
        &self,
        alloc: Global,
        index: usize,
        pair: NewPair<'a>,
        end: LineSeparator,
        read: ParseOption,
    ) -> Result<SourcePair<'a>, Error>
        requires { index < length self.now.pairs }
        ensures made { (p : Place PairPiece) → IsPlaceAt self.now.pairs p index → IfOk result (λ new. new
            ≡ made_after read (line_end end) (made_pair read pair.entry) p.here p.after) }
        ensures only { IsOkUnless result (Error.Memory alloc_error) }
    {
        let before = &self.pairs[index];
        let old = before.end(read);
        if before.would_be_taken(self.is_before_blank(index), read) {
            let lines = String::from_str(alloc, end.as_str())?;
            let gap = after_empty_comment(alloc, end.as_str(), old.gap)?;
            return pair.before(alloc, false, lines, gap.as_str(), read);
        }
        let lines = ended(alloc, end_after(end, old, read), old.lines)?;
        let is_indented = !read.enabled_indented_mutiline_value;
        pair.before(alloc, is_indented, lines, old.gap, read)
    }

    /// The index after that of a pair.
    pub(crate) fn index_after(&self, index: usize) -> usize
        requires { index < length self.now.pairs }
        ensures { result ≡ index + 1 }
    {
        self.pairs.len().min(index + 1)
    }

    // Puts a pair into a section that has none.
    fn insert_first(
        &mut self,
        alloc: Global,
        pair: NewPair<'a>,
        is_last: bool,
        end: LineSeparator,
        read: ParseOption,
    ) -> Result<(), EditError>
        requires { self.old.pairs ≡ [] }
        ensures put { OnOk result (pair_put_last read (line_end end)
            (made_pair read pair.entry) is_last self.old
            self.old.pairs ≡ Some self.new) }
        ensures unchanged { OnErr result (self.new ≡ self.old) }
        ensures refused { IfErr result (IsNoPlaceOrMemory (pair_put_last read (line_end end)
            (made_pair read pair.entry) is_last self.old self.old.pairs)) }
    {
        let is_general = self.name.is_none();
        let Some(place) = place_for_first(self.after(), is_general, is_last, read) else {
            return Err(EditError::NoPlace);
        };
        let before = with_line_end(alloc, place.before, place.is_line_start, end)?;
        let lines = ended(alloc, end_at(end, place), place.lines)?;
        let pair = pair.before(alloc, true, lines, place.after, read)?;
        self.pairs.insert(0, pair).map_err(AllocError::from)?;
        self.put_after(before);
        Ok(())
    }

    /// Puts a pair before the one at the index and the comments directly above that; `front` is the last
    /// character before the section.
    pub(crate) fn insert_before(
        &mut self,
        alloc: Global,
        front: char,
        index: usize,
        pair: NewPair<'a>,
        end: LineSeparator,
        read: ParseOption,
    ) -> Result<(), EditError>
        requires { index < length self.old.pairs }
        ensures put { (p : Place PairPiece) → IsPlaceAt self.old.pairs p index → OnOk result
            (pair_put_before read (line_end end) (made_pair read pair.entry) front self.old p
            ≡ Some self.new) }
        ensures unchanged { OnErr result (self.new ≡ self.old) }
        ensures refused { (p : Place PairPiece) → IsPlaceAt self.old.pairs p index
            → IfErr result (IsNoPlaceOrMemory
            (pair_put_before read (line_end end) (made_pair read pair.entry) front self.old p)) }
    {
        let gap = self.gap_before(index);
        let before_gap = self.last_before_gap(front, index);
        let comments = comments_at_end(before_gap, gap);
        if is_empty(comments) && self.would_go_on(index, read) {
            return Err(EditError::NoPlace);
        }
        let kept = front_before(gap, comments);
        let starts = is_line_end(last_or(before_gap, kept));
        let after = with_line_end(alloc, kept, starts, end)?;
        let trailing_lines = self.trailing_lines_before(alloc, index)?;
        let lines = ended(alloc, end.as_str(), "")?;
        let is_indented = may_be_indented(read, index, kept);
        let pair = pair.before(alloc, is_indented, lines, comments, read)?;
        let room = KeptParts::room(alloc)?;
        let new = NewEnd {
            last_word: None,
            trailing_lines,
            after,
            room,
        };
        self.pairs.insert(index, pair).map_err(AllocError::from)?;
        self.put_new_end(index, new);
        Ok(())
    }

    /// Whether a multiline value directly before the pair at the index would take it.
    pub(crate) fn would_go_on(&self, index: usize, read: ParseOption) -> bool
        requires { index < length self.now.pairs }
        ensures { (p : Place PairPiece) → IsPlaceAt self.now.pairs p index
            → result ≡ would_go_on read p.here }
    {
        read.enabled_indented_mutiline_value && is_indented(&self.pairs[index])
    }

    // The trailing lines of the pair before the index; none where that is the header.
    pub(crate) fn trailing_lines_before(&self, alloc: Global, index: usize) -> Result<String, Error>
        requires { index ≤ length self.now.pairs }
        ensures lines { IfOk result (λ lines. string_text lines ≡ trailing_of (take index self.now.pairs)) }
        ensures only { IsOkUnless result (Error.Memory alloc_error) }
    {
        match index.checked_sub(1) {
            Some(before) => Ok(String::from_str(alloc, self.pairs[before].trailing_lines())?),
            None => Ok(String::new(alloc)),
        }
    }
}

// The line end of a new pair after one of this end: CR alone after that, where notes may stand behind it.
fn end_after(end: LineSeparator, old: PairEnd<'_>, read: ParseOption) -> &'static str
    ensures { (p : PairPiece) → chars old.entry.line_end.now ≡ line_end_after read p
        → chars result.now ≡ end_after read (line_end end) p }
{
    if read.may_have_note("\r") && last_or('\n', old.line_end) == '\r' {
        return "\r";
    }
    end.as_str()
}

// The line end of a new pair at a place: CR alone before a comment behind CR.
fn end_at(end: LineSeparator, place: GapPlace<'_>) -> &'static str
    ensures { chars result.now ≡ end_at (line_end end) (place_of place.entry) }
{
    let is_comment = if is_empty(place.lines) {
        begins_with_comment(place.after)
    } else {
        begins_with_comment(place.lines)
    };
    if is_comment && last_or('\n', place.before) != '\n' {
        return "\r";
    }
    end.as_str()
}

// A line end, and lines after it.
fn ended(alloc: Global, end: &str, lines: &str) -> Result<String, Error>
    ensures text { IfOk result (λ text. string_text text ≡ chars end.now ++ chars lines.now) }
    ensures only { IsOkUnless result (Error.Memory alloc_error) }
{
    let mut text = String::from_str(alloc, end)?;
    push_text(&mut text, lines)?;
    Ok(text)
}

// A text with the line end of a new line after it, unless a line starts there.
fn with_line_end(
    alloc: Global,
    text: &str,
    starts: bool,
    end: LineSeparator,
) -> Result<String, Error>
    ensures text { IfOk result (λ new. string_text new
        ≡ chars text.now ++ (if starts then [] else line_end end)) }
    ensures only { IsOkUnless result (Error.Memory alloc_error) }
{
    let mut new = String::from_str(alloc, text)?;
    if !starts {
        push_text(&mut new, end.as_str())?;
    }
    Ok(new)
}

// Whether blanks may indent a new pair before the one at the index, after this front of the gap there: no
// multiline value stands directly before it.
fn may_be_indented(read: ParseOption, index: usize, kept: &str) -> bool
    ensures { result
        ≡ (not read.enabled_indented_mutiline_value || (index == 0 || not (is_empty (chars kept.now)))) }
{
    !read.enabled_indented_mutiline_value || index == 0 || !is_empty(kept)
}
