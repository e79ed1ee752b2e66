//! What stands after a pair's value: the end of its line, and what the next line begins with. This file
//! knows lines, and of a pair its last parts.
ghost use Rattle.std.specs.Prelude.{◌≡◌, ◌∷◌, ◌++◌, ◌&&◌, [], not, List, None, IfOk, IsOkUnless, OnErr};
ghost use Rattle.std.specs.Prelude.{OnOk};
ghost use Rattle.std.specs.Prelude.{alloc_error, chars, false, if◌then◌else◌};
ghost use Rattle.ini_text.specs.Grammar.CharacterKinds.{line_feed};
ghost use Rattle.ini_text.specs.Grammar.Positions.{is_column_one, last_or};
ghost use Rattle.ini_text.specs.Parsing.Items.{string_text};
ghost use Rattle.ini_text.specs.Inside.LineReader.{past_note};
ghost use Rattle.ini_text.specs.Parsing.Fronts.{front_of};
ghost use Rattle.ini_edit.specs.Inside.SourceEnds.{ends_of_value, with_new_end, word_of};
ghost use Rattle.ini_edit.specs.Endings.{ending};
ghost use Rattle.ini_edit.specs.SourceEditsAdd.{closed_word, ended_lines, is_escape, with_line_ended};
ghost use Rattle.ini_edit.specs.SourceEditsDelete.{gap_after, line_end_after, lines_after, own_lines};
ghost use Rattle.ini_edit.specs.SourceEditsDelete.{begin_with_blank, empty_comment, to_line_feed, with_rest};
ghost use Rattle.ini_edit.specs.SourceEditsDelete.{would_be_taken};
ghost use Rattle.ini_edit.specs.SourceEditsSet.{with_separator};
ghost use Rattle.ini_edit.specs.SourcePlaces.{last_word};
ghost use Rattle.ini_edit.specs.Sources.{PairPiece, has_separator};
ghost use Rattle.ini_edit.specs.SourceLines.{is_empty};

use crate::append::{push, push_text};
use crate::glue::{TextEnd, text_end};
use crate::source::lines::{after_line_end, is_empty, last_or, line_end_at_end};
use crate::source::pair::SourcePair;
use crate::source::pair::kept::KeptParts;
use crate::source::quiet_lines::{ends_line, quiet_lines_at_end};
use ini_text::{Error, ParseOption, front_before, is_blank, is_line_end, past_note, split_first};
use std::alloc::Global;

/// What follows a pair's value: the lines that go with the pair, up to the line end after them; quiet lines;
/// and where values are multiline, the gap after these.
#[derive(Clone, Copy, Debug)]
pub(crate) struct PairEnd<'t> {
    pub(crate) own: &'t str,
    pub(crate) line_end: &'static str,
    pub(crate) lines: &'t str,
    pub(crate) gap: &'t str,
}

/// A pair's last parts, once a line is put in after it, or lines are.
#[derive(Debug, Drop)]
pub(crate) struct NewEnd<'a> {
    /// Another source of the value, or of a key alone, where the old one ends in a backslash that would take
    /// the line end.
    pub(crate) last_word: Option<String>,
    pub(crate) trailing_lines: String,
    pub(crate) after: String,
    /// Room for the pair's parts, where it has none.
    pub(crate) room: KeptParts<'a>,
}

impl<'a> SourcePair<'a> {
    /// What follows the value.
    pub(crate) fn end(&self, read: ParseOption) -> PairEnd<'_>
        ensures own { chars result.own.now ≡ own_lines read self.now }
        ensures line_end { chars result.line_end.now ≡ line_end_after read self.now }
        ensures lines { chars result.lines.now ≡ lines_after read self.now }
        ensures gap { chars result.gap.now ≡ gap_after read self.now }
    {
        if self.is_multiline(read) {
            let trailing_lines = self.trailing_lines();
            let lines = quiet_lines_at_end(trailing_lines, read);
            let own = front_before(trailing_lines, lines);
            let line_end = if ends_line(own, read) {
                line_end_at_end(own)
            } else {
                ""
            };
            return PairEnd {
                own,
                line_end,
                lines,
                gap: self.after(),
            };
        }
        let rest = after_line_end(past_note(self.after(), read));
        let own = front_before(self.after(), rest);
        let line_end = line_end_at_end(own);
        if read.enabled_indented_mutiline_value {
            return PairEnd {
                own,
                line_end,
                lines: "",
                gap: rest,
            };
        }
        PairEnd {
            own,
            line_end,
            lines: rest,
            gap: "",
        }
    }

    /// The pair's last parts with its line ended, and nothing after that.
    pub(crate) fn with_line_end(
        &self,
        alloc: Global,
        line_end: &str,
        read: ParseOption,
    ) -> Result<NewEnd<'a>, Error>
        ensures ended { IfOk result (λ new. with_new_end new self.now
            ≡ with_line_ended read (chars line_end.now) self.now) }
        ensures only { IsOkUnless result (Error.Memory alloc_error) }
    {
        let (last_word, own) = self.ended_lines(alloc, line_end, read)?;
        let nothing = String::new(alloc);
        let room = KeptParts::room(alloc)?;
        if self.is_multiline(read) {
            return Ok(NewEnd {
                last_word,
                trailing_lines: own,
                after: nothing,
                room,
            });
        }
        Ok(NewEnd {
            last_word,
            trailing_lines: nothing,
            after: own,
            room,
        })
    }

    // The pair's last word, where it is another, and its own lines, with its line ended.
    fn ended_lines(
        &self,
        alloc: Global,
        line_end: &str,
        read: ParseOption,
    ) -> Result<(Option<String>, String), Error>
        ensures last_word { IfOk result (λ ended. word_of (last_word self.now) ended.0
            ≡ closed_word read self.now) }
        ensures lines { IfOk result (λ ended. string_text ended.1
            ≡ ended_lines read (chars line_end.now) self.now) }
        ensures only { IsOkUnless result (Error.Memory alloc_error) }
    {
        let end = self.end(read);
        let mut own = String::from_str(alloc, end.own)?;
        if !is_empty(end.line_end) {
            return Ok((None, own));
        }
        push_text(&mut own, line_end)?;
        let last_word = self.closed_word(alloc, read)?;
        Ok((last_word, own))
    }

    /// The source of the value, or of a key alone, with its last backslash made one that stands for itself,
    /// where it would take what follows.
    pub(crate) fn closed_word(
        &self,
        alloc: Global,
        read: ParseOption,
    ) -> Result<Option<String>, Error>
        ensures closed { IfOk result (λ word.
            word_of (last_word self.now) word ≡ closed_word read self.now) }
        ensures only { IsOkUnless result (Error.Memory alloc_error) }
    {
        if !self.takes_next(read) {
            return Ok(None);
        }
        let mut word = String::from_str(alloc, self.last_word())?;
        push(&mut word, if read.enabled_escape { '\\' } else { ' ' })?;
        Ok(Some(word))
    }

    /// Whether LF, which no backslash takes, ends the pair's last line.
    pub(crate) fn is_line_ended(&self, read: ParseOption) -> bool
        ensures { result ≡ (not (is_empty (line_end_after read self.now)
            && is_empty (lines_after read self.now))
            && is_column_one self.now.stretches.trailing_lines) }
    {
        let end = self.end(read);
        !(is_empty(end.line_end) && is_empty(end.lines))
            && last_or('\n', self.trailing_lines()) == '\n'
    }

    // Whether the last backslash of the value, or of a key alone, would take what follows the pair.
    fn takes_next(&self, read: ParseOption) -> bool
        ensures { result ≡ (is_empty self.now.stretches.note && (is_empty self.now.stretches.trailing_lines
            && (is_empty self.now.after && is_escape (ending read (last_word self.now))))) }
    {
        is_empty(self.note())
            && (is_empty(self.trailing_lines())
                && (is_empty(self.after()) && ends_in_escape(self.last_word(), read)))
    }

    /// The pair's last parts with lines and a gap after them, which stood elsewhere.
    pub(crate) fn with_rest(
        &self,
        alloc: Global,
        lines: &str,
        gap: &str,
        read: ParseOption,
    ) -> Result<NewEnd<'a>, Error>
        ensures put { IfOk result (λ new. with_new_end new self.now
            ≡ with_rest read (chars lines.now) (chars gap.now) self.now) }
        ensures only { IsOkUnless result (Error.Memory alloc_error) }
    {
        let mut trailing_lines = String::from_str(alloc, self.trailing_lines())?;
        let mut after = String::from_str(alloc, self.after())?;
        if self.is_multiline(read) && self.after().is_empty() {
            push_text(&mut trailing_lines, lines)?;
        } else {
            push_text(&mut after, lines)?;
        }
        push_text(&mut after, gap)?;
        let room = KeptParts::room(alloc)?;
        Ok(NewEnd {
            last_word: None,
            trailing_lines,
            after,
            room,
        })
    }

    /// Whether a multiline value would take what stands after a key alone, whose next pair is indented or
    /// not.
    pub(crate) fn would_be_taken(&self, before_blank: bool, read: ParseOption) -> bool
        ensures { (ps : List PairPiece) → before_blank ≡ begin_with_blank ps
            → result ≡ would_be_taken read self.now ps }
    {
        if self.has_separator() || !read.enabled_indented_mutiline_value {
            return false;
        }
        match split_first(self.end(read).gap) {
            Some((c, _)) => is_blank(c) || is_line_end(c),
            None => before_blank,
        }
    }

    /// Puts a separator after a key alone, and this value directly after that, before a note that followed.
    /// Refused, the pair stays.
    pub(crate) fn put_separator(
        &mut self,
        alloc: Global,
        raw_value: String,
        value: String,
        is_taken: bool,
        read: ParseOption,
    ) -> Result<(), Error>
        requires { has_separator self.old ≡ false }
        ensures put { (ps : List PairPiece) → is_taken ≡ would_be_taken read self.old ps
            → OnOk result (self.new
            ≡ with_separator read (string_text raw_value) (string_text value) ps self.old) }
        ensures unchanged { OnErr result (self.new ≡ self.old) }
        ensures only { IsOkUnless result (Error.Memory alloc_error) }
    {
        let key = self.closed_word(alloc, read)?;
        let note = self.note_after(alloc, read)?;
        let (trailing_lines, after) = self.end_of_value(alloc, is_taken, read)?;
        let (mut parts, room) = self.take_parts(alloc)?;
        parts.put_first_value(key, raw_value, value, note);
        parts.put_end(trailing_lines, after);
        self.put_parts(parts, room);
        Ok(())
    }

    // The note with which what follows a key alone begins.
    fn note_after(&self, alloc: Global, read: ParseOption) -> Result<String, Error>
        ensures note { IfOk result (λ note. string_text note
            ≡ front_of self.now.after (past_note read self.now.after)) }
        ensures only { IsOkUnless result (Error.Memory alloc_error) }
    {
        let rest = past_note(self.after(), read);
        Ok(String::from_str(alloc, front_before(self.after(), rest))?)
    }

    // What stands after the line of a key alone and its note, once a value stands in that line: of a
    // multiline value its line end, and what follows.
    fn end_of_value(
        &self,
        alloc: Global,
        is_taken: bool,
        read: ParseOption,
    ) -> Result<(String, String), Error>
        requires { has_separator self.now ≡ false }
        ensures ends { IfOk result (λ end. (string_text end.0, string_text end.1)
            ≡ ends_of_value read is_taken self.now) }
        ensures only { IsOkUnless result (Error.Memory alloc_error) }
    {
        let rest = past_note(self.after(), read);
        if !read.enabled_indented_mutiline_value {
            return Ok((String::new(alloc), String::from_str(alloc, rest)?));
        }
        let gap = after_line_end(rest);
        let end = front_before(rest, gap);
        let mut lines = String::from_str(alloc, end)?;
        if !is_taken {
            return Ok((lines, String::from_str(alloc, gap)?));
        }
        push_text(&mut lines, to_line_feed(last_or('\n', end)))?;
        Ok((lines, after_empty_comment(alloc, "\n", gap)?))
    }
}

// Whether a text ends in a backslash that takes what follows.
fn ends_in_escape(text: &str, read: ParseOption) -> bool
    ensures { result ≡ is_escape (ending read (chars text.now)) }
{
    matches!(text_end(text, read), TextEnd::Escape)
}

/// What a text that ends so lacks for a comment in column one after it.
pub(crate) fn to_line_feed(last: char) -> &'static str
    ensures { chars result.now ≡ to_line_feed last }
{
    if last == '\n' { "" } else { "\n" }
}

/// A gap after an empty comment.
pub(crate) fn after_empty_comment(alloc: Global, line_end: &str, gap: &str) -> Result<String, Error>
    ensures text { IfOk result (λ text. string_text text
        ≡ empty_comment (chars line_end.now) ++ chars gap.now) }
    ensures only { IsOkUnless result (Error.Memory alloc_error) }
{
    let mut text = String::from_str(alloc, ";")?;
    push_text(&mut text, line_end)?;
    push_text(&mut text, gap)?;
    Ok(text)
}
