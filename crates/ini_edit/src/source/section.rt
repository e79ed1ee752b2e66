//! A section of a text in pieces. This file knows pairs by their calls.
ghost use Rattle.std.specs.Prelude.{◌≡◌, ◌<◌, ◌++◌, [], ◌∷◌, IfOk, IsOkUnless, None, OnErr, OnOk, Some};
ghost use Rattle.std.specs.Prelude.{MatchOption, alloc_error, chars, length, map};
ghost use Rattle.std.specs.Option.{option_map};
ghost use Rattle.ini.specs.Texts.{is_text, str_name, str_text};
ghost use Rattle.ini.specs.Properties.{first_value, values};
ghost use Rattle.ini_text.specs.Device.Gathering.{Sends};
ghost use Rattle.ini_text.specs.Device.Watched.{IsClear};
ghost use Rattle.ini_text.specs.Parsing.Items.{cow_text, string_text};
ghost use Rattle.ini_edit.specs.Inside.SourceEnds.{IsPlaceAt, IsRenamedAt};
ghost use Rattle.ini_edit.specs.Inside.SourceSteps.{HaveOwnSources, IsFirstAt, RenamesIn};
ghost use Rattle.ini_edit.specs.Sections.{header_of};
ghost use Rattle.ini_edit.specs.SourceEdits.{blanks_before_note, first_fitting, with_header};
ghost use Rattle.ini_edit.specs.SourcePlaces.{Place};
ghost use Rattle.ini_edit.specs.Sources.{PairPiece, given_pair, pairs_text, section_text};

use crate::append::{push, push_text};
use crate::escape::push_escaped;
use crate::source::lines::blanks_at_end;
use crate::source::pair::SourcePair;
use crate::source::sending::put_both;
use crate::text::begins_with_comment;
use ini_text::{Error, EscapePolicy, Gatherer, ParseOption, Watched, is_same_text};
use std::alloc::{AllocError, Global};
use std::borrow::CowStr;
use std::io::Write;
use std::marker::Model;

mod comments;
mod delete;
mod ends;
mod insert;
mod parts;

/// A section of a `Source`: its name, and its pairs in order.
#[derive(Debug, Drop)]
pub struct SourceSection<'a> {
    name: Option<CowStr<'a>>,
    header: CowStr<'a>,
    after: CowStr<'a>,
    pairs: Vec<SourcePair<'a>>,
}

impl<'a> Model for SourceSection<'a> {
    ghost use Rattle.std.specs.Prelude.{chars};
    ghost use Rattle.std.specs.Option.{option_map};
    ghost use Rattle.ini_text.specs.Parsing.Items.{cow_text};
    ghost use Rattle.ini_edit.specs.Sources.{SectionPiece};

    ghost Value = { SectionPiece };

    ghost view = { λ s. record {
      name = option_map cow_text s.name;
      header = cow_text s.header;
      after = cow_text s.after;
      pairs = s.pairs.items;
    } };
}

impl<'a> SourceSection<'a> {
    // The general section, without pairs, and what stands before the first of these.
    pub(crate) fn general(alloc: Global, after: &'a str) -> Self
        ensures { result ≡ record { name = None; header = []; after = chars after.now; pairs = [] } }
    {
        SourceSection {
            name: None,
            header: CowStr::Borrowed(""),
            after: CowStr::Borrowed(after),
            pairs: Vec::new(alloc),
        }
    }

    // A section of this name and header, without pairs, and what follows the header.
    pub(crate) fn new(alloc: Global, name: CowStr<'a>, header: &'a str, after: &'a str) -> Self
        ensures { result ≡ record {
          name = Some (cow_text name.entry);
          header = chars header.now;
          after = chars after.now;
          pairs = [];
        } }
    {
        SourceSection {
            name: Some(name),
            header: CowStr::Borrowed(header),
            after: CowStr::Borrowed(after),
            pairs: Vec::new(alloc),
        }
    }

    // Puts a pair last.
    pub(crate) fn push(&mut self, pair: SourcePair<'a>) -> Result<(), Error>
        ensures pushed { OnOk result (self.new ≡ record {
          name = self.old.name;
          header = self.old.header;
          after = self.old.after;
          pairs = self.old.pairs ++ pair.entry ∷ [];
        }) }
        ensures only { IsOkUnless result (Error.Memory alloc_error) }
    {
        match self.pairs.push(pair) {
            Ok(()) => Ok(()),
            Err(_) => Err(Error::Memory(AllocError)),
        }
    }

    // Gives back the room for pairs that the section has no use for.
    pub(crate) fn shrink(&mut self)
        ensures { self.new ≡ self.old }
    {
        self.pairs.shrink_to_fit();
    }

    /// The name; none is the general section's, with which a text begins.
    pub fn name(&self) -> Option<&str>
        ensures { str_name result ≡ self.now.name }
    {
        match &self.name {
            Some(name) => Some(name.as_str()),
            None => None,
        }
    }

    /// The pairs in order.
    pub fn pairs(&self) -> &[SourcePair<'a>]
        ensures { result.now ≡ self.now.pairs }
    {
        self.pairs.as_slice()
    }

    /// The value of the first pair of a key.
    pub fn get(&self, key: &str) -> Option<&str>
        ensures { option_map str_text result ≡ first_value (chars key.now) (map given_pair self.now.pairs) }
    {
        match position(&self.pairs, key) {
            Some(index) => Some(self.pairs[index].value()),
            None => None,
        }
    }

    /// All values of a key, in order.
    ///
    /// Refused only when out of memory.
    pub fn get_all(&self, alloc: Global, key: &str) -> Result<Vec<&str>, Error>
        ensures values { IfOk result (λ found. map str_text found.items
            ≡ values (chars key.now) (map given_pair self.now.pairs)) }
        ensures only { IsOkUnless result (Error.Memory alloc_error) }
    {
        let mut found = Vec::new(alloc);
        for pair in &self.pairs {
            if !is_same_text(key, pair.key()) {
                continue;
            }
            found.push(pair.value())?;
        }
        Ok(found)
    }

    // Gives the first pair of a key another one: whether there is that pair. Refused, the section stays.
    pub(crate) fn rename_key(
        &mut self,
        alloc: Global,
        old: &str,
        new: &str,
        policy: EscapePolicy,
        read: ParseOption,
    ) -> Result<bool, Error>
        ensures renamed { IfOk result
            (RenamesIn read policy self.old self.new (chars old.now) (chars new.now)) }
        ensures unchanged { OnErr result (self.new ≡ self.old) }
        ensures only { IsOkUnless result (Error.Memory alloc_error) }
    {
        let Some(index) = position(&self.pairs, old) else {
            return Ok(false);
        };
        self.pairs[index].rename(alloc, new, policy, read)?;
        Ok(true)
    }

    // Gives the pair at the index another key. Refused, the section stays.
    pub(crate) fn rename_at(
        &mut self,
        alloc: Global,
        index: usize,
        key: &str,
        policy: EscapePolicy,
        read: ParseOption,
    ) -> Result<(), Error>
        requires { index < length self.old.pairs }
        ensures renamed { (p : Place PairPiece) → IsPlaceAt self.old.pairs p index
            → OnOk result (IsRenamedAt read policy (chars key.now) self.old self.new p) }
        ensures unchanged { OnErr result (self.new ≡ self.old) }
        ensures only { IsOkUnless result (Error.Memory alloc_error) }
    {
        self.pairs[index].rename(alloc, key, policy, read)?;
        Ok(())
    }

    // Gives the section another name, in a header as the policy writes it. Refused, it stays.
    pub(crate) fn rename(
        &mut self,
        alloc: Global,
        name: &str,
        policy: EscapePolicy,
    ) -> Result<(), Error>
        ensures renamed { OnOk result
            (self.new ≡ with_header (header_of policy (chars name.now)) (chars name.now) self.old) }
        ensures unchanged { OnErr result (self.new ≡ self.old) }
        ensures only { IsOkUnless result (Error.Memory alloc_error) }
    {
        let mut header = written_header(alloc, name, policy)?;
        push_text(&mut header, self.blanks_before_note())?;
        let name = String::from_str(alloc, name)?;
        self.name = Some(CowStr::Owned(name));
        self.header = CowStr::Owned(header);
        Ok(())
    }

    // The blanks that end the header, where a note follows them.
    fn blanks_before_note(&self) -> &str
        ensures { chars result.now ≡ blanks_before_note self.now }
    {
        if begins_with_comment(self.after()) {
            return blanks_at_end(self.header());
        }
        ""
    }

    // Appends the section's text.
    pub(crate) fn push_to(&self, out: &mut String) -> Result<(), Error>
        ensures pushed { OnOk result (string_text out.new ≡ string_text out.old ++ section_text self.now) }
        ensures only { IsOkUnless result (Error.Memory alloc_error) }
    {
        push_text(out, self.header.as_str())?;
        push_text(out, self.after.as_str())?;
        for pair in &self.pairs {
            pair.push_to(out)?;
        }
        Ok(())
    }

    // Sends the same.
    pub(crate) fn send_to<W: Write>(
        &self,
        lines: &mut Gatherer,
        out: &mut Watched<'_, W>,
    ) -> Result<(), Error>
        requires { IsClear out.old }
        ensures { Sends W.contents out.old out.new lines.old lines.new result (section_text self.now) }
    {
        put_both(lines, self.header.as_str(), self.after.as_str(), out)?;
        send_pairs(lines, &self.pairs, out)
    }
}

// Sends the texts of pairs.
fn send_pairs<W: Write>(
    lines: &mut Gatherer,
    pairs: &[SourcePair<'_>],
    out: &mut Watched<'_, W>,
) -> Result<(), Error>
    requires { IsClear out.old }
    ensures { Sends W.contents out.old out.new lines.old lines.new result (pairs_text pairs.now) }
{
    for pair in pairs {
        pair.send_to(lines, out)?;
    }
    Ok(())
}

// A header, as the policy writes it.
pub(crate) fn written_header(
    alloc: Global,
    name: &str,
    policy: EscapePolicy,
) -> Result<String, Error>
    ensures written { IfOk result (λ header. string_text header ≡ header_of policy (chars name.now)) }
    ensures only { IsOkUnless result (Error.Memory alloc_error) }
{
    let mut header = String::new(alloc);
    push(&mut header, '[')?;
    push_escaped(alloc, &mut header, name, policy)?;
    push(&mut header, ']')?;
    Ok(header)
}

// Where the first pair of a key stands.
fn position(pairs: &[SourcePair<'_>], key: &str) -> Option<usize>
    ensures { MatchOption result (first_fitting (λ p. is_text (chars key.now) p.key) pairs.now ≡ None)
        (IsFirstAt (λ p. is_text (chars key.now) p.key) pairs.now) }
{
    for (i, pair) in pairs.iter().enumerate() {
        if is_same_text(key, pair.key()) {
            return Some(i);
        }
    }
    None
}
