//! The end of a section: what another one is put after, and what stays of it once it is taken out. This file
//! knows lines.
ghost use Rattle.std.specs.Prelude.{◌≡◌, ◌++◌, ◌∷◌, ◌&&◌, ◌||◌, if◌then◌else◌, not, List, IfOk, IsOkUnless};
ghost use Rattle.std.specs.Prelude.{[], alloc_error, chars, length};
ghost use Rattle.ini_text.specs.Grammar.CharacterKinds.{is_blank, is_comment_mark, is_line_end};
ghost use Rattle.ini_text.specs.Grammar.CharacterKinds.{is_line_feed};
ghost use Rattle.ini_text.specs.Grammar.Positions.{is_column_one};
ghost use Rattle.ini_text.specs.Grammar.CharacterKinds.{begins};
ghost use Rattle.ini_text.specs.Options.WriteOptions.{line_end};
ghost use Rattle.ini_text.specs.Parsing.Fronts.{front_of};
ghost use Rattle.ini_text.specs.Parsing.Items.{string_text};
ghost use Rattle.ini.specs.Texts.{Text, str_text};
ghost use Rattle.ini_edit.specs.Inside.SourceEnds.{IsKept, end_put_last, takes_lines, word_of};
ghost use Rattle.ini_edit.specs.SourceEditsAdd.{closed_word};
ghost use Rattle.ini_edit.specs.SourceEditsSections.{ended_for_section, ends_empty, is_ended_for};
ghost use Rattle.ini_edit.specs.SourceEditsSections.{is_pair_ended, line_end_before, rest_before_header};
ghost use Rattle.ini_edit.specs.SourceEditsSections.{section_rest, with_rest_of_next};
ghost use Rattle.ini_edit.specs.SourceLines.{is_empty};
ghost use Rattle.ini_edit.specs.SourcePlaces.{is_nil, last_before_gap, last_gap, last_word};
ghost use Rattle.ini_edit.specs.Sources.{PairPiece, section_text};

use crate::append::push_text;
use crate::line_end::empty_line;
use crate::source::lines::{
    begins_with_blank, comments_at_end, dropped_key, indentation_at_end, is_empty, last_or,
    line_end_at_end,
};
use crate::source::pair::ends::NewEnd;
use crate::source::pair::kept::KeptParts;
use crate::source::place::cut_after;
use crate::source::section::SourceSection;
use crate::text::begins_with_comment;
use ini_text::{Error, LineSeparator, ParseOption, front_before, is_line_end};
use std::alloc::Global;

/// What stays of a section that is taken out.
#[derive(Clone, Copy, Debug)]
pub(crate) struct SectionRest<'t> {
    /// Comments directly above what follows the section, what indents that, or a dropped key.
    pub(crate) gap: &'t str,
    /// The section's last gap, up to that.
    pub(crate) before: &'t str,
}

impl<'a> SourceSection<'a> {
    /// What follows the last pair, or the header.
    pub(crate) fn last_gap(&self) -> &str
        ensures { str_text result ≡ last_gap self.now }
    {
        self.gap_before(self.pairs.len())
    }

    // How many pairs there are.
    fn count(&self) -> usize
        ensures { result ≡ length self.now.pairs }
    {
        self.pairs.len()
    }

    /// What stays of the section where another header follows, or none; `front` is the last character before
    /// it.
    pub(crate) fn rest(&self, front: char, is_last: bool, read: ParseOption) -> SectionRest<'_>
        ensures gap { chars result.gap.now
            ≡ section_rest read is_last (last_before_gap front self.now self.now.pairs) (last_gap self.now) }
        ensures before { chars result.before.now ≡ front_of (last_gap self.now) (chars result.gap.now) }
    {
        if !is_last {
            return self.rest_before_header(front);
        }
        let gap = self.last_gap();
        let rest = dropped_key(self.last_before_gap(front, self.count()), gap, read);
        SectionRest {
            gap: rest,
            before: front_before(gap, rest),
        }
    }

    /// The comments directly above the header that follows the section, and what indents that.
    pub(crate) fn rest_before_header(&self, front: char) -> SectionRest<'_>
        ensures gap { chars result.gap.now
            ≡ rest_before_header (last_before_gap front self.now self.now.pairs) (last_gap self.now) }
        ensures before { chars result.before.now ≡ front_of (last_gap self.now) (chars result.gap.now) }
    {
        let gap = self.last_gap();
        let before_gap = self.last_before_gap(front, self.count());
        let indentation = indentation_at_end(before_gap, gap);
        let before_indentation = front_before(gap, indentation);
        let comments = comments_at_end(before_gap, before_indentation);
        let before = front_before(before_indentation, comments);
        let (_, rest) = cut_after(gap, before);
        SectionRest { gap: rest, before }
    }

    // The section's text up to a front of its last gap.
    fn text_before(&self, alloc: Global, gap: &str) -> Result<String, Error>
        ensures text { IfOk result (λ text. (rest : Text) → last_gap self.now ≡ chars gap.now ++ rest
            → string_text text ≡ front_of (section_text self.now) rest) }
        ensures only { IsOkUnless result (Error.Memory alloc_error) }
    {
        let mut text = String::from_str(alloc, self.header())?;
        for (i, pair) in self.pairs.iter().enumerate() {
            push_text(&mut text, self.gap_before(i))?;
            pair.push_source(&mut text)?;
        }
        push_text(&mut text, gap)?;
        Ok(text)
    }

    /// The line end before what stays of the section; nothing where none stands there.
    pub(crate) fn line_end_before(&self, alloc: Global, before: &str) -> Result<&'static str, Error>
        ensures line_end { IfOk result (λ end. (rest : Text) → last_gap self.now ≡ chars before.now ++ rest
            → chars end.now ≡ line_end_before rest self.now) }
        ensures only { IsOkUnless result (Error.Memory alloc_error) }
    {
        let text = self.text_before(alloc, before)?;
        Ok(line_end_at_end(text.as_str()))
    }

    /// The last parts of the section with what stays of the section after it in place of its own last
    /// blanks, which indented that one's header; `end` is the line end before what stays.
    pub(crate) fn with_rest_of_next(
        &self,
        alloc: Global,
        front: char,
        rest: &str,
        end: &str,
        read: ParseOption,
    ) -> Result<NewEnd<'a>, Error>
        ensures put { IfOk result (λ new. end_put_last new self.now
            ≡ with_rest_of_next read front self.now (chars end.now) (chars rest.now)) }
        ensures only { IsOkUnless result (Error.Memory alloc_error) }
    {
        let gap = self.last_gap();
        let before_gap = self.last_before_gap(front, self.count());
        let indentation = indentation_at_end(before_gap, gap);
        let kept = front_before(gap, indentation);
        let last = last_or(before_gap, kept);
        let lines = unless(goes_before(last, rest), end);
        let following = unless(self.would_take(kept, rest, read), rest);
        self.gap_put(alloc, kept, lines, following, read)
    }

    // Whether the last value would take the rest of another section, after what is kept of the gap.
    fn would_take(&self, kept: &str, rest: &str, read: ParseOption) -> bool
        ensures { result ≡ (read.enabled_indented_mutiline_value && (is_empty (chars kept.now)
            && (not (is_nil self.now.pairs) && begins is_blank (chars rest.now)))) }
    {
        read.enabled_indented_mutiline_value
            && (is_empty(kept) && (self.has_pairs() && begins_with_blank(rest)))
    }

    fn has_pairs(&self) -> bool
        ensures { result ≡ not (is_nil self.now.pairs) }
    {
        self.count() > 0
    }

    // Whether the last value takes the lines after what is kept of the gap.
    fn takes_lines(&self, kept: &str, read: ParseOption) -> bool
        ensures { result ≡ takes_lines read (chars kept.now) self.now.pairs }
    {
        is_empty(kept) && self.ends_in_value(self.count(), read)
    }

    // The last parts of the section with another last gap: what is kept of it, lines, and the rest.
    fn gap_put(
        &self,
        alloc: Global,
        kept: &str,
        lines: &str,
        rest: &str,
        read: ParseOption,
    ) -> Result<NewEnd<'a>, Error>
        ensures kept { IfOk result (IsKept read (chars kept.now) (chars lines.now) (chars rest.now)
            self.now.pairs) }
        ensures only { IsOkUnless result (Error.Memory alloc_error) }
    {
        let mut trailing_lines = self.trailing_lines_before(alloc, self.count())?;
        let mut after = String::from_str(alloc, kept)?;
        if self.takes_lines(kept, read) {
            push_text(&mut trailing_lines, lines)?;
        } else {
            push_text(&mut after, lines)?;
        }
        push_text(&mut after, rest)?;
        let room = KeptParts::room(alloc)?;
        Ok(NewEnd {
            last_word: None,
            trailing_lines,
            after,
            room,
        })
    }

    /// The last parts of the section with its last line ended, where it isn't, and an empty line after it,
    /// where none stands last; with nothing where the text is empty.
    pub(crate) fn with_empty_line(
        &self,
        alloc: Global,
        before: &str,
        end: LineSeparator,
        read: ParseOption,
    ) -> Result<NewEnd<'a>, Error>
        ensures ended { IfOk result (λ new. (after : Text) → last_gap self.now ≡ chars before.now ++ after
            → end_put_last new self.now ≡ ended_for_section read (line_end end) self.now after) }
        ensures only { IsOkUnless result (Error.Memory alloc_error) }
    {
        let text = self.text_before(alloc, before)?;
        let is_ended = self.is_ended_for(text.as_str(), before, read);
        let lines = lines_between(alloc, text, is_ended, end)?;
        let last_word = self.last_closed(alloc, !is_ended, read)?;
        let kept = self.gap_put(alloc, before, lines.as_str(), "", read)?;
        let NewEnd {
            last_word: none,
            trailing_lines,
            after,
            room,
        } = kept;
        drop(none);
        Ok(NewEnd {
            last_word,
            trailing_lines,
            after,
            room,
        })
    }

    // The source of the last pair's value, or of a key alone, where it is closed and is another then.
    fn last_closed(
        &self,
        alloc: Global,
        closes: bool,
        read: ParseOption,
    ) -> Result<Option<String>, Error>
        ensures closed { IfOk result (λ word. (front : List PairPiece) (p : PairPiece)
            → self.now.pairs ≡ front ++ p ∷ []
            → word_of (last_word p) word ≡ (if closes then closed_word read p else last_word p)) }
        ensures only { IsOkUnless result (Error.Memory alloc_error) }
    {
        if !closes {
            return Ok(None);
        }
        match self.count().checked_sub(1) {
            Some(last) => self.pairs[last].closed_word(alloc, read),
            None => Ok(None),
        }
    }

    // Whether nothing is to go between the text, which ends in a front of the section's last gap, and
    // another line.
    fn is_ended_for(&self, text: &str, before: &str, read: ParseOption) -> bool
        ensures { result ≡ is_ended_for read (chars text.now) (chars before.now) self.now }
    {
        is_empty(text) || self.is_line_ended(before, read)
    }

    // Whether LF ends the section's last line, up to a front of its last gap.
    fn is_line_ended(&self, before: &str, read: ParseOption) -> bool
        ensures { result ≡ (if is_empty (chars before.now) then is_pair_ended read self.now.pairs
            else is_column_one (chars before.now)) }
    {
        if !is_empty(before) {
            return last_or('\n', before) == '\n';
        }
        match self.count().checked_sub(1) {
            Some(last) => self.pairs[last].is_line_ended(read),
            None => false,
        }
    }
}

/// A text, or nothing.
pub(crate) fn unless<'t>(goes: bool, text: &'t str) -> &'t str
    ensures { chars result.now ≡ (if goes then [] else chars text.now) }
{
    if goes { "" } else { text }
}

// Whether no line end is to go between a text that ends so and the rest of a section.
fn goes_before(last: char, rest: &str) -> bool
    ensures { result ≡ (is_line_end last
        && (is_line_feed last || not (begins is_comment_mark (chars rest.now)))) }
{
    is_line_end(last) && (last == '\n' || !begins_with_comment(rest))
}

// A line end, where the text isn't ended, and an empty line, where none stands last then.
fn lines_between(
    alloc: Global,
    text: String,
    is_ended: bool,
    end: LineSeparator,
) -> Result<String, Error>
    ensures lines { IfOk result (λ lines. string_text lines
        ≡ (let glue = if is_ended then [] else line_end end in
        glue ++ (if ends_empty (string_text text ++ glue) then [] else line_end end))) }
    ensures only { IsOkUnless result (Error.Memory alloc_error) }
{
    let glue = unless(is_ended, end.as_str());
    let mut text = text;
    push_text(&mut text, glue)?;
    let mut lines = String::from_str(alloc, glue)?;
    push_text(&mut lines, empty_line(text.as_str(), end))?;
    Ok(lines)
}
