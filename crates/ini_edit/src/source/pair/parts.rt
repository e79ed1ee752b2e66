//! The parts of a pair, one by one. This file knows no text of a part.
ghost use Rattle.std.specs.Prelude.{◌≡◌, ◌++◌, ◌&&◌, IfOk, IsOkUnless, OnOk, alloc_error};
ghost use Rattle.ini.specs.Texts.{Text, str_text};
ghost use Rattle.ini_text.specs.Grammar.Places.{pair_source, separator_text};
ghost use Rattle.ini_text.specs.Grammar.Positions.{last_or};
ghost use Rattle.ini_text.specs.Parsing.Items.{string_text};
ghost use Rattle.ini_edit.specs.Inside.SourceSearches.{IsSearched};
ghost use Rattle.ini_edit.specs.SourceEditsComments.{pair_line};
ghost use Rattle.ini_edit.specs.SourceLines.{is_empty};
ghost use Rattle.ini_edit.specs.SourcePlaces.{last_word};
ghost use Rattle.ini_edit.specs.Sources.{has_separator, is_multiline, pair_text};

use crate::append::{push, push_text};
use crate::source::lines::{LineEndSearch, is_empty, last_or};
use crate::source::pair::{PairForm, SourcePair};
use ini_text::{Error, ParseOption};
use std::alloc::Global;

impl<'a> SourcePair<'a> {
    pub(crate) fn raw_key(&self) -> &str
        ensures { str_text result ≡ self.now.stretches.key }
    {
        match &self.form {
            PairForm::Lent(pair) => pair.raw_key,
            PairForm::Kept(kept) => kept.parts().raw_key(),
        }
    }

    pub(crate) fn separator(&self) -> Option<char>
        ensures { result ≡ self.now.stretches.separator }
    {
        match &self.form {
            PairForm::Lent(pair) => pair.separator,
            PairForm::Kept(kept) => kept.parts().separator(),
        }
    }

    /// Whether the pair has a separator, which a key alone lacks.
    pub(crate) fn has_separator(&self) -> bool
        ensures { result ≡ has_separator self.now }
    {
        self.separator().is_some()
    }

    /// Whether the pair goes on over lines.
    pub(crate) fn is_multiline(&self, read: ParseOption) -> bool
        ensures { result ≡ is_multiline read self.now }
    {
        read.enabled_indented_mutiline_value && self.has_separator()
    }

    pub(crate) fn space_before(&self) -> &str
        ensures { str_text result ≡ self.now.stretches.space_before }
    {
        match &self.form {
            PairForm::Lent(pair) => pair.space_before,
            PairForm::Kept(kept) => kept.parts().space_before(),
        }
    }

    pub(crate) fn raw_value(&self) -> &str
        ensures { str_text result ≡ self.now.stretches.raw_value }
    {
        match &self.form {
            PairForm::Lent(pair) => pair.raw_value,
            PairForm::Kept(kept) => kept.parts().raw_value(),
        }
    }

    pub(crate) fn space_after(&self) -> &str
        ensures { str_text result ≡ self.now.stretches.space_after }
    {
        match &self.form {
            PairForm::Lent(_) => "",
            PairForm::Kept(kept) => kept.parts().space_after(),
        }
    }

    pub(crate) fn note(&self) -> &str
        ensures { str_text result ≡ self.now.stretches.note }
    {
        match &self.form {
            PairForm::Lent(_) => "",
            PairForm::Kept(kept) => kept.parts().note(),
        }
    }

    pub(crate) fn trailing_lines(&self) -> &str
        ensures { str_text result ≡ self.now.stretches.trailing_lines }
    {
        match &self.form {
            PairForm::Lent(pair) => pair.trailing_lines,
            PairForm::Kept(kept) => kept.parts().trailing_lines(),
        }
    }

    pub(crate) fn after(&self) -> &str
        ensures { str_text result ≡ self.now.after }
    {
        match &self.form {
            PairForm::Lent(pair) => pair.after,
            PairForm::Kept(kept) => kept.parts().after(),
        }
    }

    /// The last character of the pair and what follows it; `front` is that of what stands before it.
    pub(crate) fn last_char(&self, front: char) -> char
        ensures { result ≡ last_or front (pair_text self.now) }
    {
        last_or(self.last_of_source(front), self.after())
    }

    /// The last character of the pair's source; `front` is that of what stands before it.
    pub(crate) fn last_of_source(&self, front: char) -> char
        ensures { result ≡ last_or front (pair_source self.now.stretches) }
    {
        let value = last_or(
            last_or(self.last_of_key(front), self.space_before()),
            self.raw_value(),
        );
        let line = last_or(last_or(value, self.space_after()), self.note());
        last_or(line, self.trailing_lines())
    }

    // The separator, or the last character of a key alone.
    fn last_of_key(&self, front: char) -> char
        ensures { result ≡ last_or front
            (self.now.stretches.key ++ separator_text self.now.stretches.separator) }
    {
        match self.separator() {
            Some(separator) => separator,
            None => last_or(front, self.raw_key()),
        }
    }

    /// Whether the pair's source has no character: what stands before it is then the last one.
    #[tactic(auto, using(crate::proofs::SourcePartLemmas::ends_in_front))]
    pub(crate) fn is_empty(&self) -> bool
        ensures { result ≡ is_empty (pair_source self.now.stretches) }
    {
        self.last_of_source('\n') != self.last_of_source('\r')
    }

    /// The source of the value, or of a key alone.
    pub(crate) fn last_word(&self) -> &str
        ensures { str_text result ≡ last_word self.now }
    {
        if self.has_separator() {
            self.raw_value()
        } else {
            self.raw_key()
        }
    }

    /// A search for the text's first line end gone on over the pair and what follows it.
    pub(crate) fn search_line_end(&self, search: LineEndSearch) -> LineEndSearch
        ensures { (front : Text) → IsSearched front search
            → IsSearched (front ++ pair_text self.now) result }
    {
        let search = search
            .after(self.raw_key())
            .after_separator(self.separator());
        let search = search.after(self.space_before()).after(self.raw_value());
        search
            .after(self.space_after())
            .after(self.note())
            .after(self.trailing_lines())
            .after(self.after())
    }

    /// Appends the pair's source.
    pub(crate) fn push_source(&self, out: &mut String) -> Result<(), Error>
        ensures pushed { OnOk result (string_text out.new ≡ string_text out.old
            ++ pair_source self.now.stretches) }
        ensures only { IsOkUnless result (Error.Memory alloc_error) }
    {
        self.push_line(out)?;
        push_text(out, self.trailing_lines())
    }

    /// Appends the pair's source, up to its trailing lines.
    pub(crate) fn push_line(&self, out: &mut String) -> Result<(), Error>
        ensures pushed { OnOk result (string_text out.new ≡ string_text out.old
            ++ pair_line self.now.stretches) }
        ensures only { IsOkUnless result (Error.Memory alloc_error) }
    {
        self.push_key(out)?;
        push_text(out, self.space_before())?;
        push_text(out, self.raw_value())?;
        push_text(out, self.space_after())?;
        push_text(out, self.note())
    }

    /// Appends the key's source, and the separator.
    pub(crate) fn push_key(&self, out: &mut String) -> Result<(), Error>
        ensures pushed { OnOk result (string_text out.new ≡ string_text out.old
            ++ (self.now.stretches.key ++ separator_text self.now.stretches.separator)) }
        ensures only { IsOkUnless result (Error.Memory alloc_error) }
    {
        push_text(out, self.raw_key())?;
        match self.separator() {
            Some(separator) => Ok(push(out, separator)?),
            None => Ok(()),
        }
    }

    pub(crate) fn copy(&self, alloc: Global) -> Result<SourcePair<'a>, Error>
        ensures copied { IfOk result (λ copy. copy ≡ self.now) }
        ensures only { IsOkUnless result (Error.Memory alloc_error) }
    {
        match &self.form {
            PairForm::Lent(pair) => Ok(SourcePair {
                form: PairForm::Lent(*pair),
            }),
            PairForm::Kept(kept) => SourcePair::kept(alloc, kept.parts().copy()?),
        }
    }
}
