//! Comments in a section, directly above a pair, and a pair made one. This file knows lines.
ghost use Rattle.std.specs.Prelude.{◌≡◌, ◌<◌, ◌≤◌, ◌∷◌, ◌++◌, ◌&&◌, ◌||◌, if◌then◌else◌, [], not, IfOk};
ghost use Rattle.std.specs.Prelude.{IsOkUnless, List, MatchOption, None, OnErr, Some, alloc_error, chars};
ghost use Rattle.std.specs.Prelude.{length, take};
ghost use Rattle.ini_text.specs.Grammar.CharacterKinds.{is_line_feed, semicolon, space};
ghost use Rattle.ini_text.specs.Options.WriteOptions.{line_end};
ghost use Rattle.ini_text.specs.Parsing.Items.{string_text};
ghost use Rattle.ini.specs.Texts.{str_text};
ghost use Rattle.ini_edit.specs.Inside.SourceEnds.{IsPlaceAt, PutsOr, end_put, end_put_at, put_over_kept};
ghost use Rattle.ini_edit.specs.Inside.SourceEnds.{takes_lines};
ghost use Rattle.ini_edit.specs.SourceEditsAdd.{would_go_on};
ghost use Rattle.ini_edit.specs.SourceEditsComments.{comment_put, comments_over, lines_of_comment, marked};
ghost use Rattle.ini_edit.specs.SourceEditsComments.{pair_commented_out, pair_lines};
ghost use Rattle.ini_edit.specs.SourceEditsDelete.{gap_after, line_end_after, lines_after};
ghost use Rattle.ini_edit.specs.SourceLines.{is_empty};
ghost use Rattle.ini_edit.specs.SourcePlaces.{Place, is_nil};
ghost use Rattle.ini_edit.specs.Sources.{PairPiece};

use crate::append::{push, push_text};
use crate::source::lines::{comments_at_end, is_empty, last_or};
use crate::source::pair::SourcePair;
use crate::source::pair::ends::NewEnd;
use crate::source::pair::kept::KeptParts;
use crate::source::section::SourceSection;
use ini_text::{Error, LineSeparator, ParseOption, front_before, is_same_text, split_first};
use std::alloc::Global;

impl<'a> SourceSection<'a> {
    /// The comment lines directly above the pair at the index; `front` is the last character before the
    /// section.
    pub(crate) fn comments_above(&self, front: char, index: usize) -> &str
        requires { index < length self.now.pairs }
        ensures { (p : Place PairPiece) → IsPlaceAt self.now.pairs p index
            → str_text result ≡ comments_over front self.now p }
    {
        comments_at_end(self.last_before_gap(front, index), self.gap_before(index))
    }

    /// The last parts of what stands before the pair at the index, with these comments in place of those
    /// directly above it. `None` where a multiline value would take the pair.
    pub(crate) fn with_comments(
        &self,
        alloc: Global,
        front: char,
        index: usize,
        comments: &str,
        end: LineSeparator,
        read: ParseOption,
    ) -> Result<Option<NewEnd<'a>>, Error>
        requires { index < length self.now.pairs }
        ensures put { (p : Place PairPiece) → IsPlaceAt self.now.pairs p index
            → IfOk result (λ new. MatchOption new
            (comment_put read (line_end end) (chars comments.now) front self.now p ≡ None)
            (λ new. comment_put read (line_end end) (chars comments.now) front self.now p
            ≡ Some (end_put_at new index self.now))) }
        ensures only { IsOkUnless result (Error.Memory alloc_error) }
    {
        let gap = self.gap_before(index);
        let before_gap = self.last_before_gap(front, index);
        let kept = front_before(gap, comments_at_end(before_gap, gap));
        if self.would_take_pair(comments, kept, index, read) {
            return Ok(None);
        }
        let lines = line_end_before(comments, last_or(before_gap, kept), end);
        Ok(Some(self.comments_put(alloc, index, kept, lines, comments, end, read)?))
    }

    // Whether a multiline value would take the pair at the index, once nothing is put after what is kept of
    // the gap before it.
    fn would_take_pair(&self, comments: &str, kept: &str, index: usize, read: ParseOption) -> bool
        requires { index < length self.now.pairs }
        ensures { (p : Place PairPiece) → IsPlaceAt self.now.pairs p index
            → result ≡ (is_empty (chars comments.now) && (is_empty (chars kept.now)
            && (not (is_nil p.before) && would_go_on read p.here))) }
    {
        is_empty(comments) && is_empty(kept) && index > 0 && self.would_go_on(index, read)
    }

    // Whether a multiline value takes the lines after what is kept of the gap before the index.
    fn takes_lines_at(&self, kept: &str, index: usize, read: ParseOption) -> bool
        requires { index ≤ length self.now.pairs }
        ensures { result ≡ takes_lines read (chars kept.now) (take index self.now.pairs) }
    {
        is_empty(kept) && self.ends_in_value(index, read)
    }

    // The last parts of what stands before the pair at the index: what is kept of the gap there, a line end
    // or nothing, and comments.
    fn comments_put(
        &self,
        alloc: Global,
        index: usize,
        kept: &str,
        lines: &str,
        comments: &str,
        end: LineSeparator,
        read: ParseOption,
    ) -> Result<NewEnd<'a>, Error>
        requires { index ≤ length self.now.pairs }
        ensures put { IfOk result (λ new. (after : List PairPiece)
            → end_put new self.now (take index self.now.pairs) after
            ≡ put_over_kept read (chars kept.now) (chars lines.now)
            (lines_of_comment (line_end end) (chars comments.now)) self.now (take index self.now.pairs) after) }
        ensures only { IsOkUnless result (Error.Memory alloc_error) }
    {
        let mut trailing_lines = self.trailing_lines_before(alloc, index)?;
        let mut after = String::from_str(alloc, kept)?;
        if self.takes_lines_at(kept, index, read) {
            push_text(&mut trailing_lines, lines)?;
        } else {
            push_text(&mut after, lines)?;
        }
        push_text(&mut after, comments)?;
        push_text(&mut after, line_end_lacking(comments, end))?;
        let room = KeptParts::room(alloc)?;
        Ok(NewEnd {
            last_word: None,
            trailing_lines,
            after,
            room,
        })
    }

    /// Makes the pair at the index a comment: whether it can be one. Refused, the section stays.
    pub(crate) fn comment_out(
        &mut self,
        alloc: Global,
        front: char,
        index: usize,
        read: ParseOption,
    ) -> Result<bool, Error>
        requires { index < length self.old.pairs }
        ensures commented { (p : Place PairPiece) → IsPlaceAt self.old.pairs p index
            → IfOk result (PutsOr (pair_commented_out read front self.old p) self.old self.new) }
        ensures unchanged { OnErr result (self.new ≡ self.old) }
        ensures only { IsOkUnless result (Error.Memory alloc_error) }
    {
        let end = self.pairs[index].end(read);
        if self.last_before(front, index) != '\n' {
            return Ok(false);
        }
        if is_same_text(end.line_end, "\r") {
            return Ok(false);
        }
        let gap = self.commented(alloc, index, read)?;
        let new = self.rest_put(alloc, index, "", gap.as_str(), read)?;
        let pair = self.pairs.remove(index);
        drop(pair);
        self.put_new_end(index, new);
        Ok(true)
    }

    // The lines of the pair at the index, each a comment, and what follows them.
    fn commented(&self, alloc: Global, index: usize, read: ParseOption) -> Result<String, Error>
        requires { index < length self.now.pairs }
        ensures lines { (p : Place PairPiece) → IsPlaceAt self.now.pairs p index
            → IfOk result (λ lines. string_text lines
            ≡ semicolon ∷ space ∷ (marked (pair_lines read p.here) ++ (line_end_after read p.here
            ++ (lines_after read p.here ++ gap_after read p.here)))) }
        ensures only { IsOkUnless result (Error.Memory alloc_error) }
    {
        let end = self.pairs[index].end(read);
        let text = self.pairs[index].lines(alloc, read)?;
        let mut comments = marked(alloc, text.as_str())?;
        push_text(&mut comments, end.line_end)?;
        push_text(&mut comments, end.lines)?;
        push_text(&mut comments, end.gap)?;
        Ok(comments)
    }
}

impl<'a> SourcePair<'a> {
    // The pair's lines, without the line end of the last one.
    fn lines(&self, alloc: Global, read: ParseOption) -> Result<String, Error>
        ensures lines { IfOk result (λ lines. string_text lines ≡ pair_lines read self.now) }
        ensures only { IsOkUnless result (Error.Memory alloc_error) }
    {
        let end = self.end(read);
        let mut lines = String::new(alloc);
        self.push_line(&mut lines)?;
        push_text(&mut lines, front_before(end.own, end.line_end))?;
        Ok(lines)
    }
}

// Each line of a text after a mark and a space.
fn marked(alloc: Global, text: &str) -> Result<String, Error>
    ensures marked { IfOk result (λ marks. string_text marks
        ≡ semicolon ∷ space ∷ marked (chars text.now)) }
    ensures only { IsOkUnless result (Error.Memory alloc_error) }
{
    let mut marks = String::from_str(alloc, "; ")?;
    let mut rest = text;
    'characters: while let Some((c, after)) = split_first(rest) {
        push(&mut marks, c)?;
        if c == '\n' {
            push_text(&mut marks, "; ")?;
        }
        rest = after;
    }
    Ok(marks)
}

// The line end that comments take before them, after this character: none in column one.
fn line_end_before(comments: &str, last: char, end: LineSeparator) -> &'static str
    ensures { chars result.now
        ≡ (if is_empty (chars comments.now) || is_line_feed last then [] else line_end end) }
{
    if is_empty(comments) {
        return "";
    }
    if last == '\n' {
        return "";
    }
    end.as_str()
}

// The line end that the last of the comments lacks.
fn line_end_lacking(comments: &str, end: LineSeparator) -> &'static str
    ensures { chars comments.now ++ chars result.now ≡ lines_of_comment (line_end end) (chars comments.now) }
{
    if last_or('\n', comments) == '\n' {
        return "";
    }
    end.as_str()
}
