//! A pair of a text in pieces. This file knows the stretches of a pair, and no section.
ghost use Rattle.std.specs.Prelude.{◌≡◌, ◌++◌, IfOk, IsOkUnless, OnErr, OnOk, alloc_error, chars};
ghost use Rattle.ini.specs.Texts.{str_text};
ghost use Rattle.ini_text.specs.Device.Gathering.{Sends};
ghost use Rattle.ini_text.specs.Device.Watched.{IsClear};
ghost use Rattle.ini_text.specs.Parsing.Items.{string_text};
ghost use Rattle.ini_edit.specs.Inside.SourceSteps.{RenamesPair};
ghost use Rattle.ini_edit.specs.Sources.{pair_text, placed_piece};

use crate::append::push_text;
use crate::key::push_key;
use crate::source::pair::kept::KeptParts;
use crate::source::pair::lent::LentPair;
use crate::source::pair::own::PairParts;
use crate::source::sending::{put_before, put_both};
use ini_text::{Error, EscapePolicy, Gatherer, ParseOption, PlacedPair, Watched};
use std::alloc::Global;
use std::io::Write;
use std::marker::Model;

mod changes;
pub(crate) mod ends;
pub(crate) mod kept;
pub(crate) mod lent;
pub(crate) mod own;
mod parts;

/// A pair of a `Source`: its key and its value, its source, and what follows that up to the next pair or
/// header.
#[derive(Debug, Drop)]
pub struct SourcePair<'a> {
    form: PairForm<'a>,
}

// A pair as it stands in the text, as most do, or with parts of its own.
#[derive(Debug, Drop)]
pub(crate) enum PairForm<'a> {
    Lent(LentPair<'a>),
    Kept(KeptParts<'a>),
}

impl<'a> Model for SourcePair<'a> {
    ghost use Rattle.ini_edit.specs.Inside.PairForms.{piece_of};
    ghost use Rattle.ini_edit.specs.Sources.{PairPiece};

    ghost Value = { PairPiece };

    ghost view = { λ p. piece_of p.form };
}

impl<'a> SourcePair<'a> {
    // A pair as it stands in a text, and what follows it there.
    pub(crate) fn new(alloc: Global, pair: PlacedPair<'a>, after: &'a str) -> Result<Self, Error>
        ensures placed { IfOk result (λ new. new ≡ placed_piece pair.entry (chars after.now)) }
        ensures only { IsOkUnless result (Error.Memory alloc_error) }
    {
        if let Some(lent) = LentPair::of_placed(&pair, after) {
            return Ok(SourcePair {
                form: PairForm::Lent(lent),
            });
        }
        SourcePair::kept(alloc, PairParts::of_placed(pair, after))
    }

    // A pair of these parts.
    pub(crate) fn kept(alloc: Global, parts: PairParts<'a>) -> Result<Self, Error>
        ensures kept { IfOk result (λ new. new ≡ parts.entry) }
        ensures only { IsOkUnless result (Error.Memory alloc_error) }
    {
        Ok(SourcePair {
            form: PairForm::Kept(KeptParts::new(alloc, parts)?),
        })
    }

    /// The key.
    pub fn key(&self) -> &str
        ensures { str_text result ≡ self.now.key }
    {
        match &self.form {
            PairForm::Lent(pair) => pair.key,
            PairForm::Kept(kept) => kept.parts().key(),
        }
    }

    /// The value, without quotes and escapes.
    pub fn value(&self) -> &str
        ensures { str_text result ≡ self.now.value }
    {
        match &self.form {
            PairForm::Lent(pair) => pair.raw_value,
            PairForm::Kept(kept) => kept.parts().value(),
        }
    }

    // Gives the pair another key, which the policy writes between the white space that stood around the old
    // one. Refused, the pair stays.
    pub(crate) fn rename(
        &mut self,
        alloc: Global,
        key: &str,
        policy: EscapePolicy,
        read: ParseOption,
    ) -> Result<(), Error>
        ensures renamed { OnOk result (RenamesPair read policy self.old self.new (chars key.now)) }
        ensures unchanged { OnErr result (self.new ≡ self.old) }
        ensures only { IsOkUnless result (Error.Memory alloc_error) }
    {
        let mut raw_key = String::new(alloc);
        push_key(alloc, &mut raw_key, self.raw_key(), key, policy, read)?;
        let key = String::from_str(alloc, key)?;
        let (mut parts, room) = self.take_parts(alloc)?;
        parts.put_key(raw_key, key);
        self.put_parts(parts, room);
        Ok(())
    }

    // Appends the pair's text, and what follows it.
    pub(crate) fn push_to(&self, out: &mut String) -> Result<(), Error>
        ensures pushed { OnOk result (string_text out.new ≡ string_text out.old ++ pair_text self.now) }
        ensures only { IsOkUnless result (Error.Memory alloc_error) }
    {
        self.push_key(out)?;
        push_text(out, self.space_before())?;
        push_text(out, self.raw_value())?;
        push_text(out, self.space_after())?;
        push_text(out, self.note())?;
        push_text(out, self.trailing_lines())?;
        push_text(out, self.after())
    }

    // Sends the same.
    pub(crate) fn send_to<W: Write>(
        &self,
        lines: &mut Gatherer,
        out: &mut Watched<'_, W>,
    ) -> Result<(), Error>
        requires { IsClear out.old }
        ensures { Sends W.contents out.old out.new lines.old lines.new result (pair_text self.now) }
    {
        put_before(lines, self.raw_key(), self.separator(), out)?;
        put_both(lines, self.space_before(), self.raw_value(), out)?;
        put_both(lines, self.space_after(), self.note(), out)?;
        put_both(lines, self.trailing_lines(), self.after(), out)
    }
}
