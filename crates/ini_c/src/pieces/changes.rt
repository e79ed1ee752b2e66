//! Changes of settings that C gives, in the form in which they are listed. This file knows no text in pieces.
ghost use Rattle.std.specs.Prelude.{◌≡◌, ◌∷◌, [], ◌<◌, ◌↔◌, IfErr, IfNone, IfOk, IfSome, IsTrue, length, map};
ghost use Rattle.ini.specs.Texts.{str_name};
ghost use Rattle.ini_layers.specs.Differences.{setting_change};
ghost use Rattle.ini_c.specs.Changes.{AreChangesGiven, changes_given};
ghost use Rattle.ini_c.specs.Given.{AreTextsGiven, texts_given};
ghost use Rattle.ini_c.specs.Statuses.{is_among, no_memory, not_utf8};

use crate::listing::UNNAMED;
use crate::pieces::repeated::first_given;
use crate::{NO_MEMORY, NOT_UTF8};
use ini_layers::Change;
use std::alloc::Global;

// Texts that are left, of which each may be missing.
#[derive(Clone, Copy)]
struct Given<'a> {
    bytes: &'a [u8],
    counts: &'a [usize],
}

impl<'a> Given<'a> {
    // The first text, and what follows it; none where that is no text, or no text is left.
    fn text(self) -> Option<(Option<&'a str>, Given<'a>)>
        ensures texts { IfSome result (λ t. texts_given self.entry.bytes.now self.entry.counts.now
            ≡ str_name t.0 ∷ texts_given t.1.bytes.now t.1.counts.now) }
        ensures given { IfSome result (λ t. AreTextsGiven t.1.bytes.now t.1.counts.now
            ↔ AreTextsGiven self.entry.bytes.now self.entry.counts.now) }
        ensures fewer { IfSome result (λ t. length t.1.counts.now < length self.entry.counts.now) }
        ensures none { IfNone result (AreTextsGiven self.entry.bytes.now self.entry.counts.now
            → self.entry.counts.now ≡ []) }
    {
        let (count, counts) = self.counts.split_first()?;
        if *count == UNNAMED {
            let bytes = self.bytes;
            return Some((None, Given { bytes, counts }));
        }
        let (text, bytes) = first_given(self.bytes, *count)?;
        Some((Some(text), Given { bytes, counts }))
    }

    // The first change, and what follows it; none where that is no change, or no text is left.
    fn change(self) -> Option<(Change<'a>, Given<'a>)>
        ensures changes { IfSome result (λ t. changes_given self.entry.bytes.now self.entry.counts.now
            ≡ setting_change t.0 ∷ changes_given t.1.bytes.now t.1.counts.now) }
        ensures given { IfSome result (λ t. AreChangesGiven t.1.bytes.now t.1.counts.now
            ↔ AreChangesGiven self.entry.bytes.now self.entry.counts.now) }
        ensures fewer { IfSome result (λ t. length t.1.counts.now < length self.entry.counts.now) }
        ensures none { IfNone result (AreChangesGiven self.entry.bytes.now self.entry.counts.now
            → self.entry.counts.now ≡ []) }
    {
        let (name, rest) = self.text()?;
        let (key, rest) = rest.text()?;
        let key = key?;
        let (old, rest) = rest.text()?;
        let (new, rest) = rest.text()?;
        let change = Change {
            name,
            key,
            old,
            new,
        };
        Some((change, rest))
    }
}

// The changes that C gives, in order, or the status.
pub(crate) fn changes_given<'a>(
    alloc: Global,
    bytes: &'a [u8],
    counts: &'a [usize],
) -> Result<Vec<Change<'a>>, u32>
    ensures changes { IfOk result (λ changes. map setting_change changes.items
        ≡ changes_given bytes.now counts.now) }
    ensures given { IfOk result (λ changes. AreChangesGiven bytes.now counts.now) }
    ensures not_utf8 { IfErr result (λ status. status ≡ not_utf8 → ¬ AreChangesGiven bytes.now counts.now) }
    ensures statuses { IfErr result (λ status. IsTrue (is_among status (not_utf8 ∷ no_memory ∷ []))) }
{
    let mut changes = Vec::new(alloc);
    let mut given = Given { bytes, counts };
    'changes: while let Some((change, rest)) = given.change() {
        let Ok(()) = changes.push(change) else {
            return Err(NO_MEMORY);
        };
        given = rest;
    }
    if given.counts.is_empty() {
        Ok(changes)
    } else {
        Err(NOT_UTF8)
    }
}
