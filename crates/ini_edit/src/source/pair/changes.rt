//! Changes of a pair: it gets parts of its own then. This file knows the forms of a pair, and no text.
ghost use Rattle.std.specs.Prelude.{◌≡◌, ◌++◌, IfOk, IsOkUnless, OnErr, OnOk, alloc_error, chars};
ghost use Rattle.ini_text.specs.Parsing.Items.{string_text};
ghost use Rattle.ini_edit.specs.Inside.SourceEnds.{with_new_end};
ghost use Rattle.ini_edit.specs.SourceEdits.{with_value};
ghost use Rattle.ini_edit.specs.SourceEditsDelete.{with_rest};

use crate::source::pair::ends::NewEnd;
use crate::source::pair::kept::KeptParts;
use crate::source::pair::lent::LentPair;
use crate::source::pair::own::PairParts;
use crate::source::pair::{PairForm, SourcePair};
use ini_text::{Error, ParseOption};
use std::alloc::Global;
use std::mem;

impl<'a> SourcePair<'a> {
    /// The parts of the pair, which has none then, and room for others. Refused, it stays.
    pub(crate) fn take_parts(
        &mut self,
        alloc: Global,
    ) -> Result<(PairParts<'a>, KeptParts<'a>), Error>
        ensures taken { IfOk result (λ taken. taken.0 ≡ self.old) }
        ensures unchanged { OnErr result (self.new ≡ self.old) }
        ensures only { IsOkUnless result (Error.Memory alloc_error) }
    {
        match mem::replace(&mut self.form, PairForm::Lent(LentPair::nothing())) {
            PairForm::Kept(kept) => Ok(kept.parted()),
            PairForm::Lent(pair) => {
                self.form = PairForm::Lent(pair);
                Ok((PairParts::of_lent(pair), KeptParts::room(alloc)?))
            }
        }
    }

    // The same, with this room where the pair stands in the text.
    fn take_parts_or(&mut self, room: KeptParts<'a>) -> (PairParts<'a>, KeptParts<'a>)
        ensures { result.0 ≡ self.old }
    {
        match mem::replace(&mut self.form, PairForm::Lent(LentPair::nothing())) {
            PairForm::Kept(kept) => kept.parted(),
            PairForm::Lent(pair) => (PairParts::of_lent(pair), room),
        }
    }

    /// Makes the pair one of these parts, in this room.
    pub(crate) fn put_parts(&mut self, parts: PairParts<'a>, room: KeptParts<'a>)
        ensures { self.new ≡ parts.entry }
    {
        self.form = PairForm::Kept(room.with(parts));
    }

    /// Another source of the value. An empty one takes the note with it, which else stays behind a blank.
    /// Refused, the pair stays.
    pub(crate) fn put_value(
        &mut self,
        alloc: Global,
        raw_value: String,
        value: String,
    ) -> Result<(), Error>
        ensures put { OnOk result (self.new
            ≡ with_value (string_text raw_value) (string_text value) self.old) }
        ensures unchanged { OnErr result (self.new ≡ self.old) }
        ensures only { IsOkUnless result (Error.Memory alloc_error) }
    {
        let (mut parts, room) = self.take_parts(alloc)?;
        parts.put_value(raw_value, value);
        self.put_parts(parts, room);
        Ok(())
    }

    /// Puts lines and a gap after the pair, which stood elsewhere: a line end, and what follows it. Refused,
    /// some of them may be there.
    pub(crate) fn push_rest(
        &mut self,
        alloc: Global,
        line_end: &str,
        lines: &str,
        gap: &str,
        read: ParseOption,
    ) -> Result<(), Error>
        ensures pushed { OnOk result (self.new
            ≡ with_rest read (chars line_end.now ++ chars lines.now) (chars gap.now) self.old) }
        ensures only { IsOkUnless result (Error.Memory alloc_error) }
    {
        let (mut parts, room) = self.take_parts(alloc)?;
        let pushed = parts.push_rest(alloc, line_end, lines, gap, read);
        self.put_parts(parts, room);
        pushed
    }

    /// Puts the new last parts in.
    pub(crate) fn put_new_end(&mut self, end: NewEnd<'a>)
        ensures { self.new ≡ with_new_end end.entry self.old }
    {
        let NewEnd {
            last_word,
            trailing_lines,
            after,
            room,
        } = end;
        let (mut parts, room) = self.take_parts_or(room);
        parts.put_last(last_word, trailing_lines, after);
        self.put_parts(parts, room);
    }
}
