//! The parts of a pair, each of which may be its own. This file knows no other pair, and no text of a part.
ghost use Rattle.std.specs.Prelude.{◌≡◌, ◌∷◌, ◌++◌, ◌&&◌, [], chars, if◌then◌else◌, not, IfOk, IsOkUnless};
ghost use Rattle.std.specs.Prelude.{OnOk, Some, alloc_error};
ghost use Rattle.ini.specs.Texts.{str_text};
ghost use Rattle.ini_text.specs.Grammar.CharacterKinds.{equals, space};
ghost use Rattle.ini_text.specs.Parsing.Items.{cow_text, string_text};
ghost use Rattle.ini_edit.specs.Inside.PairForms.{lent_piece};
ghost use Rattle.ini_edit.specs.Inside.SourceEnds.{word_of};
ghost use Rattle.ini_edit.specs.SourceEdits.{with_key, with_value};
ghost use Rattle.ini_edit.specs.SourceEditsDelete.{with_rest};
ghost use Rattle.ini_edit.specs.SourceLines.{is_empty};
ghost use Rattle.ini_edit.specs.SourcePlaces.{last_word, with_end, with_last_word};
ghost use Rattle.ini_edit.specs.Sources.{has_separator, is_multiline, placed_piece};

use crate::append::push_more;
use crate::source::lines::is_empty;
use crate::source::pair::lent::LentPair;
use ini_text::{Error, ParseOption, PlacedPair};
use std::alloc::Global;
use std::borrow::CowStr;
use std::marker::Model;

/// The parts of a pair.
#[derive(Debug, Drop)]
pub(crate) struct PairParts<'a> {
    pub(super) key: CowStr<'a>,
    pub(super) value: CowStr<'a>,
    pub(super) raw_key: CowStr<'a>,
    pub(super) separator: Option<char>,
    pub(super) space_before: CowStr<'a>,
    pub(super) raw_value: CowStr<'a>,
    pub(super) space_after: CowStr<'a>,
    pub(super) note: CowStr<'a>,
    pub(super) trailing_lines: CowStr<'a>,
    pub(super) after: CowStr<'a>,
}

impl<'a> Model for PairParts<'a> {
    ghost use Rattle.ini_text.specs.Parsing.Items.{cow_text};
    ghost use Rattle.ini_edit.specs.Sources.{PairPiece};

    ghost Value = { PairPiece };

    ghost view = { λ p. record {
      stretches = record {
        key = cow_text p.raw_key;
        separator = p.separator;
        space_before = cow_text p.space_before;
        raw_value = cow_text p.raw_value;
        space_after = cow_text p.space_after;
        note = cow_text p.note;
        trailing_lines = cow_text p.trailing_lines;
      };
      key = cow_text p.key;
      value = cow_text p.value;
      after = cow_text p.after;
    } };
}

impl<'a> PairParts<'a> {
    /// Those of a pair as the parser places it, and what follows it there.
    pub(crate) fn of_placed(pair: PlacedPair<'a>, after: &'a str) -> Self
        ensures { result ≡ placed_piece pair.entry (chars after.now) }
    {
        let places = pair.places;
        PairParts {
            key: pair.key,
            value: pair.value,
            raw_key: CowStr::Borrowed(places.key),
            separator: places.separator,
            space_before: CowStr::Borrowed(places.space_before),
            raw_value: CowStr::Borrowed(places.raw_value),
            space_after: CowStr::Borrowed(places.space_after),
            note: CowStr::Borrowed(places.note),
            trailing_lines: CowStr::Borrowed(places.trailing_lines),
            after: CowStr::Borrowed(after),
        }
    }

    /// Those of a pair that stands in the text.
    pub(crate) fn of_lent(pair: LentPair<'a>) -> Self
        ensures { result ≡ lent_piece pair.entry }
    {
        PairParts {
            key: CowStr::Borrowed(pair.key),
            value: CowStr::Borrowed(pair.raw_value),
            raw_key: CowStr::Borrowed(pair.raw_key),
            separator: pair.separator,
            space_before: CowStr::Borrowed(pair.space_before),
            raw_value: CowStr::Borrowed(pair.raw_value),
            space_after: CowStr::Borrowed(""),
            note: CowStr::Borrowed(""),
            trailing_lines: CowStr::Borrowed(pair.trailing_lines),
            after: CowStr::Borrowed(pair.after),
        }
    }

    /// Those of a pair with its value in one line and neither white space nor a note after it.
    pub(crate) fn of_new(
        key: String,
        value: String,
        raw_key: String,
        separator: char,
        space_before: CowStr<'a>,
        raw_value: String,
        trailing_lines: String,
        after: String,
    ) -> Self
        ensures { result ≡ record {
          stretches = record {
            key = string_text raw_key;
            separator = Some separator;
            space_before = cow_text space_before.entry;
            raw_value = string_text raw_value;
            space_after = [];
            note = [];
            trailing_lines = string_text trailing_lines;
          };
          key = string_text key;
          value = string_text value;
          after = string_text after;
        } }
    {
        PairParts {
            key: CowStr::Owned(key),
            value: CowStr::Owned(value),
            raw_key: CowStr::Owned(raw_key),
            separator: Some(separator),
            space_before,
            raw_value: CowStr::Owned(raw_value),
            space_after: CowStr::Borrowed(""),
            note: CowStr::Borrowed(""),
            trailing_lines: CowStr::Owned(trailing_lines),
            after: CowStr::Owned(after),
        }
    }

    /// Those of a pair without a character.
    pub(crate) fn nothing() -> PairParts<'static> {
        PairParts::of_lent(LentPair::nothing())
    }

    pub(crate) fn key(&self) -> &str
        ensures { str_text result ≡ self.now.key }
    {
        self.key.as_str()
    }

    pub(crate) fn value(&self) -> &str
        ensures { str_text result ≡ self.now.value }
    {
        self.value.as_str()
    }

    pub(crate) fn raw_key(&self) -> &str
        ensures { str_text result ≡ self.now.stretches.key }
    {
        self.raw_key.as_str()
    }

    pub(crate) fn separator(&self) -> Option<char>
        ensures { result ≡ self.now.stretches.separator }
    {
        self.separator
    }

    pub(crate) fn space_before(&self) -> &str
        ensures { str_text result ≡ self.now.stretches.space_before }
    {
        self.space_before.as_str()
    }

    pub(crate) fn raw_value(&self) -> &str
        ensures { str_text result ≡ self.now.stretches.raw_value }
    {
        self.raw_value.as_str()
    }

    pub(crate) fn space_after(&self) -> &str
        ensures { str_text result ≡ self.now.stretches.space_after }
    {
        self.space_after.as_str()
    }

    pub(crate) fn note(&self) -> &str
        ensures { str_text result ≡ self.now.stretches.note }
    {
        self.note.as_str()
    }

    pub(crate) fn trailing_lines(&self) -> &str
        ensures { str_text result ≡ self.now.stretches.trailing_lines }
    {
        self.trailing_lines.as_str()
    }

    pub(crate) fn after(&self) -> &str
        ensures { str_text result ≡ self.now.after }
    {
        self.after.as_str()
    }

    // Whether there is a separator, which a key alone lacks.
    fn has_separator(&self) -> bool
        ensures { result ≡ has_separator self.now }
    {
        self.separator.is_some()
    }

    // Whether the pair goes on over lines.
    fn is_multiline(&self, read: ParseOption) -> bool
        ensures { result ≡ is_multiline read self.now }
    {
        read.enabled_indented_mutiline_value && self.has_separator()
    }

    /// Another key, and another source of it.
    pub(crate) fn put_key(&mut self, raw_key: String, key: String)
        ensures { self.new ≡ with_key (string_text raw_key) (string_text key) self.old }
    {
        self.raw_key = CowStr::Owned(raw_key);
        self.key = CowStr::Owned(key);
    }

    /// Another source of the value. An empty one takes the note with it, which else stays behind a blank.
    pub(crate) fn put_value(&mut self, raw_value: String, value: String)
        ensures { self.new ≡ with_value (string_text raw_value) (string_text value) self.old }
    {
        if self.needs_space(raw_value.as_str()) {
            self.space_after = CowStr::Borrowed(" ");
        }
        if is_empty(raw_value.as_str()) {
            self.note = CowStr::Borrowed("");
        }
        self.raw_value = CowStr::Owned(raw_value);
        self.value = CowStr::Owned(value);
    }

    // Whether a note that stays beside this source of the value needs a blank before it.
    fn needs_space(&self, source: &str) -> bool
        ensures { result ≡ (is_empty self.now.stretches.space_after && (not (is_empty (chars source.now))
            && not (is_empty self.now.stretches.note))) }
    {
        is_empty(self.space_after()) && (!is_empty(source) && !is_empty(self.note()))
    }

    /// A separator after the key, or after another source of it, and this value directly after that, with
    /// nothing after it in its line but for a note.
    pub(crate) fn put_first_value(
        &mut self,
        raw_key: Option<String>,
        raw_value: String,
        value: String,
        note: String,
    )
        ensures { self.new ≡ record {
          stretches = record {
            key = word_of self.old.stretches.key raw_key;
            separator = Some equals;
            space_before = [];
            raw_value = string_text raw_value;
            space_after = if is_empty (string_text note) then [] else space ∷ [];
            note = string_text note;
            trailing_lines = [];
          };
          key = self.old.key;
          value = string_text value;
          after = self.old.after;
        } }
    {
        if let Some(word) = raw_key {
            self.raw_key = CowStr::Owned(word);
        }
        self.separator = Some('=');
        self.space_before = CowStr::Borrowed("");
        self.raw_value = CowStr::Owned(raw_value);
        self.space_after = CowStr::Borrowed(space_before(note.as_str()));
        self.note = CowStr::Owned(note);
        self.trailing_lines = CowStr::Borrowed("");
        self.value = CowStr::Owned(value);
    }

    /// Another source of the value, or of a key alone.
    pub(crate) fn put_last_word(&mut self, word: String)
        ensures { self.new ≡ with_last_word (string_text word) self.old }
    {
        if self.has_separator() {
            self.raw_value = CowStr::Owned(word);
        } else {
            self.raw_key = CowStr::Owned(word);
        }
    }

    /// Other lines after the value, and another gap.
    pub(crate) fn put_end(&mut self, trailing_lines: String, after: String)
        ensures { self.new ≡ with_end (string_text trailing_lines) (string_text after) self.old }
    {
        self.trailing_lines = CowStr::Owned(trailing_lines);
        self.after = CowStr::Owned(after);
    }

    /// The same, and another source of the value, or of a key alone, where there is one.
    pub(crate) fn put_last(&mut self, word: Option<String>, trailing_lines: String, after: String)
        ensures { self.new ≡ with_end (string_text trailing_lines) (string_text after)
            (with_last_word (word_of (last_word self.old) word) self.old) }
    {
        if let Some(word) = word {
            self.put_last_word(word);
        }
        self.put_end(trailing_lines, after);
    }

    /// Puts lines and a gap after the pair, which stood elsewhere: a line end, and what follows it. Refused,
    /// some of them may be there.
    pub(crate) fn push_rest(
        &mut self,
        alloc: Global,
        line_end: &str,
        lines: &str,
        gap: &str,
        read: ParseOption,
    ) -> Result<(), Error>
        ensures pushed { OnOk result (self.new
            ≡ with_rest read (chars line_end.now ++ chars lines.now) (chars gap.now) self.old) }
        ensures only { IsOkUnless result (Error.Memory alloc_error) }
    {
        if self.is_multiline(read) && is_empty(self.after.as_str()) {
            push_more(alloc, &mut self.trailing_lines, line_end)?;
            push_more(alloc, &mut self.trailing_lines, lines)?;
        } else {
            push_more(alloc, &mut self.after, line_end)?;
            push_more(alloc, &mut self.after, lines)?;
        }
        push_more(alloc, &mut self.after, gap)
    }

    pub(crate) fn copy(&self) -> Result<PairParts<'a>, Error>
        ensures copied { IfOk result (λ copy. copy ≡ self.now) }
        ensures only { IsOkUnless result (Error.Memory alloc_error) }
    {
        Ok(PairParts {
            key: self.key.clone()?,
            value: self.value.clone()?,
            raw_key: self.raw_key.clone()?,
            separator: self.separator,
            space_before: self.space_before.clone()?,
            raw_value: self.raw_value.clone()?,
            space_after: self.space_after.clone()?,
            note: self.note.clone()?,
            trailing_lines: self.trailing_lines.clone()?,
            after: self.after.clone()?,
        })
    }
}

// The white space before a note; none where there is none.
fn space_before(note: &str) -> &'static str
    ensures { chars result.now ≡ (if is_empty (chars note.now) then [] else space ∷ []) }
{
    if is_empty(note) { "" } else { " " }
}
