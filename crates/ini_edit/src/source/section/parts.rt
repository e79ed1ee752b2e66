//! The parts of a section, one by one. This file knows no text of a part.
ghost use Rattle.std.specs.Prelude.{◌≡◌, ◌++◌, ◌≤◌, ◌<◌, List, [], Some, IfOk, IsOkUnless, OnErr};
ghost use Rattle.std.specs.Prelude.{◌+◌, OnOk, alloc_error, chars, drop, false, get_or, length, set, take};
ghost use Rattle.std.specs.Option.{option_map};
ghost use Rattle.ini.specs.Texts.{Text, is_text, str_text};
ghost use Rattle.ini_text.specs.Grammar.Positions.{last_or};
ghost use Rattle.ini_text.specs.Parsing.Items.{cow_text, string_text};
ghost use Rattle.ini_edit.specs.Inside.SourceEnds.{IsNthAt, IsPlaceAt, end_put, end_put_at, pair_changed_in};
ghost use Rattle.ini_edit.specs.Inside.SourceEnds.{style_before, style_of};
ghost use Rattle.ini_edit.specs.Inside.SourceSearches.{IsSearched};
ghost use Rattle.ini_edit.specs.SourceEdits.{with_pairs, with_value};
ghost use Rattle.ini_edit.specs.SourceEditsDelete.{begin_with_blank, ends_in_value, follows_value, rest_put};
ghost use Rattle.ini_edit.specs.SourceEditsSet.{with_separator};
ghost use Rattle.ini_edit.specs.SourcePlaces.{Place, gap_of, last_before_gap, text_up_to, with_after};
ghost use Rattle.ini_edit.specs.Sources.{PairPiece, has_separator, section_text};

use crate::append::{push_more, push_text};
use crate::source::lines::{LineEndSearch, is_empty, last_or};
use crate::source::pair::SourcePair;
use crate::source::pair::ends::NewEnd;
use crate::source::pair::kept::KeptParts;
use crate::source::section::SourceSection;
use crate::source::written::{PairStyle, is_indented};
use ini_text::{Error, ParseOption, is_line_end, is_same_text};
use std::alloc::{AllocError, Global};
use std::borrow::CowStr;

impl<'a> SourceSection<'a> {
    /// A section of this name and header, of which all is new.
    pub(crate) fn of_parts(
        name: String,
        header: String,
        after: String,
        pairs: Vec<SourcePair<'a>>,
    ) -> Self
        ensures { result ≡ record {
          name = Some (string_text name);
          header = string_text header;
          after = string_text after;
          pairs = pairs.entry.items;
        } }
    {
        SourceSection {
            name: Some(CowStr::Owned(name)),
            header: CowStr::Owned(header),
            after: CowStr::Owned(after),
            pairs,
        }
    }

    pub(crate) fn header(&self) -> &str
        ensures { str_text result ≡ self.now.header }
    {
        self.header.as_str()
    }

    pub(crate) fn after(&self) -> &str
        ensures { str_text result ≡ self.now.after }
    {
        self.after.as_str()
    }

    /// Another value of the pair at the index. Refused, the section stays.
    pub(crate) fn put_value_at(
        &mut self,
        alloc: Global,
        index: usize,
        raw_value: String,
        value: String,
    ) -> Result<(), Error>
        requires { index < length self.old.pairs }
        ensures put { (d : PairPiece) → OnOk result (self.new ≡ with_pairs self.old (set self.old.pairs index
            (with_value (string_text raw_value) (string_text value) (get_or self.old.pairs index d)))) }
        ensures unchanged { OnErr result (self.new ≡ self.old) }
        ensures only { IsOkUnless result (Error.Memory alloc_error) }
    {
        self.pairs[index].put_value(alloc, raw_value, value)
    }

    /// Puts a separator after the key alone at the index, and this value after that. Refused, the section
    /// stays.
    pub(crate) fn put_separator_at(
        &mut self,
        alloc: Global,
        index: usize,
        raw_value: String,
        value: String,
        read: ParseOption,
    ) -> Result<(), Error>
        requires index { index < length self.old.pairs }
        requires lone { (p : Place PairPiece) → IsPlaceAt self.old.pairs p index
            → has_separator p.here ≡ false }
        ensures put { (p : Place PairPiece) → IsPlaceAt self.old.pairs p index → OnOk result (self.new
            ≡ pair_changed_in (with_separator read (string_text raw_value) (string_text value) p.after)
            self.old p) }
        ensures unchanged { OnErr result (self.new ≡ self.old) }
        ensures only { IsOkUnless result (Error.Memory alloc_error) }
    {
        let is_taken = self.pairs[index].would_be_taken(self.is_before_blank(index), read);
        self.pairs[index].put_separator(alloc, raw_value, value, is_taken, read)
    }

    pub(crate) fn put_after(&mut self, after: String)
        ensures { self.new ≡ with_after (string_text after) self.old }
    {
        self.after = CowStr::Owned(after);
    }

    /// What follows the pair before the one at the index, or the header where there is none.
    pub(crate) fn gap_before(&self, index: usize) -> &str
        requires { index ≤ length self.now.pairs }
        ensures { str_text result ≡ gap_of self.now.after (take index self.now.pairs) }
    {
        match index.checked_sub(1) {
            Some(before) => self.pairs[before].after(),
            None => self.after(),
        }
    }

    /// The last character before that gap; `front` is that of what stands before the section.
    pub(crate) fn last_before_gap(&self, front: char, index: usize) -> char
        requires { index ≤ length self.now.pairs }
        ensures { result ≡ last_before_gap front self.now (take index self.now.pairs) }
    {
        let Some(before) = index.checked_sub(1) else {
            return last_or(front, self.header());
        };
        let pair = &self.pairs[before];
        if !pair.is_empty() {
            return pair.last_of_source(front);
        }
        let gap = last_or(self.last_before_gap(front, before), self.gap_before(before));
        pair.last_of_source(gap)
    }

    /// The last character before the pair at the index.
    pub(crate) fn last_before(&self, front: char, index: usize) -> char
        requires { index ≤ length self.now.pairs }
        ensures { result ≡ last_or front (text_up_to self.now (take index self.now.pairs)) }
    {
        last_or(self.last_before_gap(front, index), self.gap_before(index))
    }

    /// Whether a multiline value stands directly before the pair at the index.
    pub(crate) fn follows_value(&self, index: usize, read: ParseOption) -> bool
        requires { index ≤ length self.now.pairs }
        ensures { result ≡ follows_value read (take index self.now.pairs) }
    {
        self.ends_in_value(index, read) && is_empty(self.gap_before(index))
    }

    /// Whether the pair before the index is there, and goes on over lines.
    pub(crate) fn ends_in_value(&self, index: usize, read: ParseOption) -> bool
        requires { index ≤ length self.now.pairs }
        ensures { result ≡ ends_in_value read (take index self.now.pairs) }
    {
        match index.checked_sub(1) {
            Some(before) => self.pairs[before].is_multiline(read),
            None => false,
        }
    }

    /// Whether there is a pair after the index, and it is indented.
    pub(crate) fn is_before_blank(&self, index: usize) -> bool
        requires { index < length self.now.pairs }
        ensures { result ≡ begin_with_blank (drop (index + 1) self.now.pairs) }
    {
        match self.pairs.get(index + 1) {
            Some(next) => is_indented(next),
            None => false,
        }
    }

    /// The last character of the section; `front` is that of what stands before it.
    pub(crate) fn last_char(&self, front: char) -> char
        ensures { result ≡ last_or front (section_text self.now) }
    {
        self.last_before(front, self.pairs.len())
    }

    /// Where the pair of a key stands before which so many others of the key stand.
    pub(crate) fn nth(&self, key: &str, n: usize) -> Option<usize>
        ensures { IsNthAt (λ p. is_text (chars key.now) p.key) n self.now.pairs result }
    {
        let mut left = n;
        for (i, pair) in self.pairs.iter().enumerate() {
            if is_same_text(key, pair.key()) {
                if left == 0 {
                    return Some(i);
                }
                left -= 1;
            }
        }
        None
    }

    /// Lines and a gap that stood elsewhere, after the pair before the index, or after the header.
    pub(crate) fn rest_put(
        &self,
        alloc: Global,
        index: usize,
        lines: &str,
        gap: &str,
        read: ParseOption,
    ) -> Result<NewEnd<'a>, Error>
        requires { index ≤ length self.now.pairs }
        ensures put { IfOk result (λ new. (after : List PairPiece)
            → end_put new self.now (take index self.now.pairs) after
            ≡ rest_put read (chars lines.now) (chars gap.now) self.now (take index self.now.pairs) after) }
        ensures only { IsOkUnless result (Error.Memory alloc_error) }
    {
        if let Some(before) = index.checked_sub(1) {
            return self.pairs[before].with_rest(alloc, lines, gap, read);
        }
        let mut after = String::from_str(alloc, self.after())?;
        push_text(&mut after, lines)?;
        push_text(&mut after, gap)?;
        let room = KeptParts::room(alloc)?;
        Ok(NewEnd {
            last_word: None,
            trailing_lines: String::new(alloc),
            after,
            room,
        })
    }

    /// Puts lines and a gap, which stood elsewhere, at the section's end: a line end, and what follows it.
    /// Refused, some of them may be there.
    pub(crate) fn push_rest(
        &mut self,
        alloc: Global,
        line_end: &str,
        lines: &str,
        gap: &str,
        read: ParseOption,
    ) -> Result<(), Error>
        ensures pushed { OnOk result (self.new ≡ rest_put read (chars line_end.now ++ chars lines.now)
            (chars gap.now) self.old self.old.pairs []) }
        ensures only { IsOkUnless result (Error.Memory alloc_error) }
    {
        if let Some(last) = self.pairs.len().checked_sub(1) {
            return self.pairs[last].push_rest(alloc, line_end, lines, gap, read);
        }
        push_more(alloc, &mut self.after, line_end)?;
        push_more(alloc, &mut self.after, lines)?;
        push_more(alloc, &mut self.after, gap)
    }

    /// Puts the new end after the pair before the index, or after the header.
    pub(crate) fn put_new_end(&mut self, index: usize, end: NewEnd<'a>)
        requires { index ≤ length self.old.pairs }
        ensures { self.new ≡ end_put_at end.entry index self.old }
    {
        match index.checked_sub(1) {
            Some(before) => self.pairs[before].put_new_end(end),
            None => {
                let NewEnd {
                    last_word,
                    trailing_lines,
                    after,
                    room,
                } = end;
                drop(last_word);
                drop(trailing_lines);
                drop(room);
                self.put_after(after);
            }
        }
    }

    /// A search for the text's first line end gone on over the section.
    pub(crate) fn search_line_end(&self, search: LineEndSearch) -> LineEndSearch
        ensures { (front : Text) → IsSearched front search
            → IsSearched (front ++ section_text self.now) result }
    {
        let mut search = search.after(self.header()).after(self.after());
        for pair in &self.pairs {
            search = pair.search_line_end(search);
            if search.found().is_some() {
                return search;
            }
        }
        search
    }

    pub(crate) fn copy(&self, alloc: Global) -> Result<SourceSection<'a>, Error>
        ensures copied { IfOk result (λ copy. copy ≡ self.now) }
        ensures only { IsOkUnless result (Error.Memory alloc_error) }
    {
        let mut copy = self.without_pairs(alloc)?;
        copy.pairs = copy_pairs(alloc, &self.pairs)?;
        Ok(copy)
    }

    /// A copy of the section, of none of its pairs.
    pub(crate) fn without_pairs(&self, alloc: Global) -> Result<SourceSection<'a>, Error>
        ensures copied { IfOk result (λ copy. copy ≡ with_pairs self.now []) }
        ensures only { IsOkUnless result (Error.Memory alloc_error) }
    {
        let name = copy_name(&self.name)?;
        Ok(SourceSection {
            name,
            header: self.header.clone()?,
            after: self.after.clone()?,
            pairs: Vec::new(alloc),
        })
    }

    /// How the last pair before the index is written that begins a line and has a separator.
    pub(crate) fn style_before(
        &self,
        front: char,
        index: usize,
        read: ParseOption,
    ) -> Option<PairStyle<'_>>
        requires { index ≤ length self.now.pairs }
        ensures { option_map style_of result ≡ style_before read front self.now index }
    {
        let mut left = index;
        'pairs: while let Some(before) = left.checked_sub(1) {
            let pair = &self.pairs[before];
            if is_line_end(self.last_before(front, before)) && pair.has_separator() {
                return Some(pair.style(read));
            }
            left = before;
        }
        None
    }
}

fn copy_name<'a>(name: &Option<CowStr<'a>>) -> Result<Option<CowStr<'a>>, Error>
    ensures copied { IfOk result (λ copy. option_map cow_text copy ≡ option_map cow_text name.now) }
    ensures only { IsOkUnless result (Error.Memory alloc_error) }
{
    match name {
        Some(name) => Ok(Some(name.clone()?)),
        None => Ok(None),
    }
}

fn copy_pairs<'a>(alloc: Global, pairs: &[SourcePair<'a>]) -> Result<Vec<SourcePair<'a>>, Error>
    ensures copied { IfOk result (λ copy. copy.items ≡ pairs.now) }
    ensures only { IsOkUnless result (Error.Memory alloc_error) }
{
    let mut copy = Vec::with_capacity(alloc, pairs.len())?;
    for pair in pairs {
        copy.push(pair.copy(alloc)?).map_err(AllocError::from)?;
    }
    Ok(copy)
}
