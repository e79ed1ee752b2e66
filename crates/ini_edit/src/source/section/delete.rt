//! Pairs taken out of a section. This file knows what follows a pair, and the mark of a comment.
ghost use Rattle.std.specs.Prelude.{◌≡◌, ◌<◌, ◌&&◌, ◌++◌, List, [], ◌∷◌, IfOk, IsOkUnless, OnErr, OnOk};
ghost use Rattle.std.specs.Prelude.{alloc_error, chars, length};
ghost use Rattle.ini.specs.Texts.{is_text};
ghost use Rattle.ini_text.specs.Grammar.CharacterKinds.{carriage_return, is_line_end};
ghost use Rattle.ini_edit.specs.Inside.SourceEnds.{IsPlaceAt, IsWithout, end_put};
ghost use Rattle.ini_edit.specs.SourceEdits.{with_pairs};
ghost use Rattle.ini_edit.specs.SourceEditsDelete.{follows_value, goes_after, left_after, pair_taken_out};
ghost use Rattle.ini_edit.specs.SourceEditsDelete.{would_be_taken};
ghost use Rattle.ini_edit.specs.SourceLines.{ends_alike};
ghost use Rattle.ini_edit.specs.SourcePlaces.{Place};
ghost use Rattle.ini_edit.specs.Sources.{PairPiece};

use crate::append::push_text;
use crate::source::lines::last_or;
use crate::source::pair::SourcePair;
use crate::source::pair::ends::{NewEnd, PairEnd, after_empty_comment, to_line_feed};
use crate::source::section::SourceSection;
use crate::text::begins_with_comment;
use ini_text::{Error, ParseOption, is_comment_mark, is_line_end, is_same_text, split_first};
use std::alloc::Global;

impl<'a> SourceSection<'a> {
    /// Takes the pair at the index out, with its line end where a line starts before it and what follows
    /// goes on as it was; `front` is the last character before the section. Refused, the section stays.
    pub(crate) fn take_out(
        &mut self,
        alloc: Global,
        front: char,
        index: usize,
        read: ParseOption,
    ) -> Result<(), Error>
        requires { index < length self.old.pairs }
        ensures deleted { (p : Place PairPiece) → IsPlaceAt self.old.pairs p index
            → OnOk result (self.new ≡ pair_taken_out read front self.old p) }
        ensures unchanged { OnErr result (self.new ≡ self.old) }
        ensures only { IsOkUnless result (Error.Memory alloc_error) }
    {
        let rest = self.rest_of(alloc, front, index, read)?;
        let pair = self.pairs.remove(index);
        drop(pair);
        self.put_new_end(index, rest);
        Ok(())
    }

    // The last parts of what stands before the pair at the index, without that pair.
    fn rest_of(
        &self,
        alloc: Global,
        front: char,
        index: usize,
        read: ParseOption,
    ) -> Result<NewEnd<'a>, Error>
        requires { index < length self.now.pairs }
        ensures put { (p : Place PairPiece) → IsPlaceAt self.now.pairs p index → IfOk result (λ new.
            end_put new self.now p.before p.after ≡ pair_taken_out read front self.now p) }
        ensures only { IsOkUnless result (Error.Memory alloc_error) }
    {
        let pair = &self.pairs[index];
        let end = pair.end(read);
        let last = self.last_before(front, index);
        if self.is_kept_apart(index, read) {
            let gap = after_empty_comment(alloc, "\n", end.gap)?;
            return self.rest_put(alloc, index, to_line_feed(last), gap.as_str(), read);
        }
        let mut lines = String::new(alloc);
        push_text(&mut lines, line_end_left(last, end, read))?;
        push_text(&mut lines, end.lines)?;
        self.rest_put(alloc, index, lines.as_str(), end.gap, read)
    }

    // Whether an empty comment is to keep apart a multiline value before the pair at the index, and what
    // follows the pair.
    fn is_kept_apart(&self, index: usize, read: ParseOption) -> bool
        requires { index < length self.now.pairs }
        ensures { (p : Place PairPiece) → IsPlaceAt self.now.pairs p index
            → result ≡ (follows_value read p.before && would_be_taken read p.here p.after) }
    {
        if !self.follows_value(index, read) {
            return false;
        }
        self.pairs[index].would_be_taken(self.is_before_blank(index), read)
    }

    /// A copy of the section without the pairs of a key, but for the first `kept` of them; `front` is the
    /// last character before the section.
    pub(crate) fn without(
        &self,
        alloc: Global,
        front: char,
        key: &str,
        kept: usize,
        read: ParseOption,
    ) -> Result<SourceSection<'a>, Error>
        ensures without { IfOk result (IsWithout read front (chars key.now) kept self.now) }
        ensures only { IsOkUnless result (Error.Memory alloc_error) }
    {
        let mut new = self.without_pairs(alloc)?;
        let mut left = kept;
        for (index, pair) in self.pairs.iter().enumerate() {
            if is_same_text(key, pair.key()) {
                if left == 0 {
                    let is_taken = pair.would_be_taken(self.is_before_blank(index), read);
                    new.push_rest_of(alloc, front, pair, is_taken, read)?;
                    continue;
                }
                left -= 1;
            }
            new.push(pair.copy(alloc)?)?;
        }
        Ok(new)
    }

    // Puts at the section's end what stays of a pair that stood there, before others, and is taken out.
    // Refused, some of it may be there.
    fn push_rest_of(
        &mut self,
        alloc: Global,
        front: char,
        pair: &SourcePair<'_>,
        is_taken: bool,
        read: ParseOption,
    ) -> Result<(), Error>
        ensures pushed { (after : List PairPiece) → is_taken ≡ would_be_taken read pair.now after
            → OnOk result (with_pairs self.new (self.new.pairs ++ after)
            ≡ pair_taken_out read front (with_pairs self.old (self.old.pairs ++ pair.now ∷ after))
            (record { before = self.old.pairs; here = pair.now; after = after })) }
        ensures only { IsOkUnless result (Error.Memory alloc_error) }
    {
        let end = pair.end(read);
        let last = self.last_char(front);
        if self.keeps_apart(is_taken, read) {
            let gap = after_empty_comment(alloc, "\n", end.gap)?;
            return self.push_rest(alloc, to_line_feed(last), "", gap.as_str(), read);
        }
        let left = line_end_left(last, end, read);
        self.push_rest(alloc, left, end.lines, end.gap, read)
    }

    // Whether an empty comment is to keep apart a multiline value at the section's end, and what it would
    // take.
    fn keeps_apart(&self, is_taken: bool, read: ParseOption) -> bool
        ensures { result ≡ (follows_value read self.now.pairs && is_taken) }
    {
        if !is_taken {
            return false;
        }
        self.follows_value(self.pairs.len(), read)
    }
}

// What stays of a pair's line end, after a front that ends so.
fn line_end_left(last: char, end: PairEnd<'_>, read: ParseOption) -> &'static str
    ensures { chars result.now ≡ left_after read.enabled_indented_mutiline_value last
        (chars end.entry.line_end.now) (chars end.entry.lines.now) (chars end.entry.gap.now) }
{
    if goes_with_line_end(last, end) {
        return "";
    }
    if takes_blank(last, end.line_end, read) {
        return " \r";
    }
    end.line_end
}

// Whether a blank goes before the line end: a CR alone, at which a multiline value would stop.
fn takes_blank(last: char, line_end: &str, read: ParseOption) -> bool
    ensures { result ≡ (read.enabled_indented_mutiline_value
        && (is_line_end last && is_text (chars line_end.now) (carriage_return ∷ []))) }
{
    read.enabled_indented_mutiline_value && is_line_end(last) && is_return(line_end)
}

// Whether a text is CR alone.
fn is_return(text: &str) -> bool
    ensures { result ≡ is_text (chars text.now) (carriage_return ∷ []) }
{
    is_same_text(text, "\r")
}

// Whether a pair's line end may go with it, after a front that ends so.
fn goes_with_line_end(last: char, end: PairEnd<'_>) -> bool
    ensures { result ≡ goes_after last (chars end.entry.line_end.now) (chars end.entry.lines.now)
        (chars end.entry.gap.now) }
{
    let is_marked = match split_first(end.lines) {
        Some((c, _)) => is_comment_mark(c),
        None => begins_with_comment(end.gap),
    };
    is_line_end(last) && (ends_alike(last, last_or(last, end.line_end)) || !is_marked)
}

// Whether both characters are line feeds, or neither is.
fn ends_alike(a: char, b: char) -> bool
    ensures { result ≡ ends_alike a b }
{
    if a == '\n' { b == '\n' } else { b != '\n' }
}
