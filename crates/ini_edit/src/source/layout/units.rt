//! Pairs and sections with what stands directly above them: the parts in which a text is sorted. This file
//! knows pieces, and of orders the one of pairs.
ghost use Rattle.std.specs.Prelude.{◌≡◌, ◌++◌, [], if◌then◌else◌, true, IfOk, IsOkUnless, OnOk};
ghost use Rattle.std.specs.Prelude.{alloc_error, chars, map};
ghost use Rattle.std.specs.Option.{unwrap_or};
ghost use Rattle.ini_text.specs.Grammar.CharacterKinds.{line_feed};
ghost use Rattle.ini_text.specs.Parsing.Fronts.{IsRest};
ghost use Rattle.ini_text.specs.Parsing.Items.{string_text};
ghost use Rattle.ini_edit.specs.Inside.Sortings.{pair_unit_of, section_unit_of};
ghost use Rattle.ini_edit.specs.Sorting.{IsKeySorted, KeysSorted, above_after, above_header, above_in};
ghost use Rattle.ini_edit.specs.Sorting.{after_last_blank, first_above, lines_in, pair_unit_text};
ghost use Rattle.ini_edit.specs.Sorting.{pair_units, section_unit, section_unit_text, section_units};
ghost use Rattle.ini_edit.specs.Sorting.{units_text};
ghost use Rattle.ini_edit.specs.Sources.{joined};

use crate::append::push_text;
use crate::source::layout::sort::sort_pairs;
use crate::source::lines::{last_or, split_line};
use crate::source::pair::SourcePair;
use crate::source::section::SourceSection;
use ini_text::{Error, front_before, is_blank, split_first};
use std::alloc::Global;

/// A pair with what stands directly above it, and what stands after it up to what is above the next.
#[derive(Clone, Copy)]
pub(crate) struct PairUnit<'s, 'a> {
    pub(crate) above: &'s str,
    pub(crate) pair: &'s SourcePair<'a>,
    pub(crate) rest: &'s str,
}

/// A section with what stands directly above it, what stands after its header up to what is above the first
/// pair, and its pairs.
#[derive(Drop)]
pub(crate) struct SectionUnit<'s, 'a> {
    pub(crate) above: &'s str,
    pub(crate) section: &'s SourceSection<'a>,
    pub(crate) rest: &'s str,
    pub(crate) pairs: Vec<PairUnit<'s, 'a>>,
}

/// The units of sections, in order, each with its pairs sorted, or as they are.
pub(crate) fn section_units<'s, 'a>(
    alloc: Global,
    sections: &'s [SourceSection<'a>],
    sorts_keys: bool,
) -> Result<Vec<SectionUnit<'s, 'a>>, Error>
    ensures units { IfOk result (λ units. KeysSorted sorts_keys (section_units line_feed [] sections.now)
        (map section_unit_of units.items)) }
    ensures only { IsOkUnless result (Error.Memory alloc_error) }
{
    let mut units = Vec::new(alloc);
    let mut above = "";
    let mut front = '\n';
    for (i, section) in sections.iter().enumerate() {
        let is_last = i + 1 == sections.len();
        let unit = section.unit(alloc, above, front, is_last, sorts_keys)?;
        units.push(unit)?;
        above = section.above_header(front, is_last);
        front = section.last_char(front);
    }
    Ok(units)
}

impl<'a> SourceSection<'a> {
    // The section's unit, after this character, with these lines above it.
    fn unit<'s>(
        &'s self,
        alloc: Global,
        above: &'s str,
        front: char,
        is_last: bool,
        sorts_keys: bool,
    ) -> Result<SectionUnit<'s, 'a>, Error>
        ensures unit { IfOk result (λ unit. IsKeySorted sorts_keys
            (section_unit (chars above.now) front is_last self.now) (section_unit_of unit)) }
        ensures only { IsOkUnless result (Error.Memory alloc_error) }
    {
        let first = self.first_above(front, is_last);
        let mut pairs = pair_units(alloc, first, is_last, self.pairs())?;
        sort_pairs(&mut pairs, sorts_keys)?;
        Ok(SectionUnit {
            above,
            section: self,
            rest: front_before(self.after(), first),
            pairs,
        })
    }

    // What stands directly above the first pair, or where there is none above the header that follows.
    fn first_above(&self, front: char, is_last: bool) -> &str
        ensures above { chars result.now ≡ first_above front is_last self.now }
        ensures is_rest { IsRest self.now.after (chars result.now) }
    {
        if is_last && self.is_bare() {
            return "";
        }
        above_in(last_or(front, self.header()), self.after())
    }

    // What stands directly above the header that follows.
    fn above_header(&self, front: char, is_last: bool) -> &str
        ensures { chars result.now ≡ above_header front is_last self.now }
    {
        if is_last {
            return "";
        }
        let last = self.last_before_gap(front, self.pairs().len());
        above_in(last, self.last_gap())
    }
}

// The units of pairs, with these lines above the first.
fn pair_units<'s, 'a>(
    alloc: Global,
    first: &'s str,
    is_last: bool,
    pairs: &'s [SourcePair<'a>],
) -> Result<Vec<PairUnit<'s, 'a>>, Error>
    ensures units { IfOk result (λ units. map pair_unit_of units.items
        ≡ pair_units is_last (chars first.now) pairs.now) }
    ensures only { IsOkUnless result (Error.Memory alloc_error) }
{
    let mut units = Vec::new(alloc);
    let mut above = first;
    for (i, pair) in pairs.iter().enumerate() {
        let is_end = is_last && i + 1 == pairs.len();
        let next = pair.above_after(is_end);
        let rest = front_before(pair.after(), next);
        units.push(PairUnit { above, pair, rest })?;
        above = next;
    }
    Ok(units)
}

impl<'a> SourcePair<'a> {
    // What stands directly above what follows the pair; nothing follows the text's last one.
    fn above_after(&self, is_end: bool) -> &str
        ensures above { chars result.now ≡ above_after is_end self.now }
        ensures is_rest { IsRest self.now.after (chars result.now) }
    {
        if is_end {
            return "";
        }
        above_in(self.last_of_source('\n'), self.after())
    }
}

// What stands directly above what follows a gap: its lines, from the last blank one on.
fn above_in(before: char, gap: &str) -> &str
    ensures above { chars result.now ≡ above_in before (chars gap.now) }
    ensures is_rest { IsRest (chars gap.now) (chars result.now) }
{
    let lines = lines_in(before, gap);
    after_last_blank(lines)
}

// The lines that begin in a gap, after this character.
fn lines_in(before: char, gap: &str) -> &str
    ensures { chars result.now ≡ lines_in before (chars gap.now) }
{
    if before == '\n' {
        gap
    } else {
        split_line(gap).1
    }
}

// What follows the last blank line; all lines where none is blank.
#[tactic(auto, using(crate::proofs::UnitLemmas::or_kept))]
fn after_last_blank(lines: &str) -> &str
    ensures { chars result.now
        ≡ unwrap_or (after_last_blank true (chars lines.now)) (chars lines.now) }
{
    let mut rest = lines;
    let mut above = lines;
    let mut is_blank_line = true;
    'characters: while let Some((c, after)) = split_first(rest) {
        if c == '\n' {
            above = kept_after(is_blank_line, above, after);
            is_blank_line = true;
        } else {
            is_blank_line = is_blank_line && (is_blank(c) || c == '\r');
        }
        rest = after;
    }
    above
}

// What is kept after a line: what follows it, where it is blank.
fn kept_after<'t>(is_blank_line: bool, kept: &'t str, after: &'t str) -> &'t str
    ensures { result.now ≡ (if is_blank_line then after.now else kept.now) }
{
    if is_blank_line { after } else { kept }
}

/// The text of units.
pub(crate) fn units_text(alloc: Global, units: &[SectionUnit<'_, '_>]) -> Result<String, Error>
    ensures text { IfOk result
        (λ text. string_text text ≡ units_text (map section_unit_of units.now)) }
    ensures only { IsOkUnless result (Error.Memory alloc_error) }
{
    let mut out = String::new(alloc);
    for unit in units {
        push_section(&mut out, unit)?;
    }
    Ok(out)
}

// Appends a section's text.
fn push_section(out: &mut String, unit: &SectionUnit<'_, '_>) -> Result<(), Error>
    ensures pushed { OnOk result (string_text out.new
        ≡ string_text out.old ++ section_unit_text (section_unit_of unit.now)) }
    ensures only { IsOkUnless result (Error.Memory alloc_error) }
{
    push_text(out, unit.above)?;
    push_text(out, unit.section.header())?;
    push_text(out, unit.rest)?;
    push_pairs(out, unit.pairs.as_slice())
}

// Appends pairs.
fn push_pairs(out: &mut String, units: &[PairUnit<'_, '_>]) -> Result<(), Error>
    ensures pushed { OnOk result (string_text out.new ≡ string_text out.old
        ++ joined pair_unit_text (map pair_unit_of units.now)) }
    ensures only { IsOkUnless result (Error.Memory alloc_error) }
{
    for unit in units {
        push_pair(out, *unit)?;
    }
    Ok(())
}

// Appends a pair.
fn push_pair(out: &mut String, unit: PairUnit<'_, '_>) -> Result<(), Error>
    ensures pushed { OnOk result (string_text out.new
        ≡ string_text out.old ++ pair_unit_text (pair_unit_of unit.entry)) }
    ensures only { IsOkUnless result (Error.Memory alloc_error) }
{
    push_text(out, unit.above)?;
    unit.pair.push_source(out)?;
    push_text(out, unit.rest)
}
