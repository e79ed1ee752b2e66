//! A text sorted. This file knows the units of a text, in which order they go, and what two of them say.
ghost use Rattle.std.specs.Prelude.{◌≡◌, IfErr, IfOk, IsOkUnless, MatchOption, OnOk, alloc_error, chars};
ghost use Rattle.std.specs.Prelude.{map};
ghost use Rattle.std.specs.Cmp.Lexicographic.{slice_cmp};
ghost use Rattle.std.specs.Ordering.{nat_cmp};
ghost use Rattle.ini.specs.Texts.{str_name};
ghost use Rattle.ini_text.specs.Parsing.Items.{string_text};
ghost use Rattle.ini_edit.specs.Inside.Sortings.{pair_unit_of, says_same_pair_unit, says_same_section_unit};
ghost use Rattle.ini_edit.specs.Inside.Sortings.{section_unit_of};
ghost use Rattle.ini_edit.specs.Inside.SourceLayouts.{all_same};
ghost use Rattle.ini_edit.specs.Sorting.{IsOrdered, IsSortOf, IsSortedIf, KeepsAll, Misses, Says, name_key};
ghost use Rattle.ini_edit.specs.Sorting.{sorts_keys, sorts_sections, unit_key, unit_name, units_in};
ghost use Rattle.ini_edit.specs.WholeTexts.{IsRefusalOf};

use crate::source::layout::entries::{have_same_comments, have_same_comments_behind};
use crate::source::layout::units::{PairUnit, SectionUnit, section_units, units_text};
use crate::source::layout::{LaidOut, Loss};
use crate::source::{Source, is_same_name};
use ini_text::{Error, ParseOption, is_same_text, split_first};
use std::alloc::{AllocError, Global};
use std::cmp::Ordering;

/// What of a text is sorted.
#[derive(Clone, Copy, Debug)]
pub enum Sorting {
    /// The pairs of each section, by key.
    Keys,
    /// The sections, by name; pairs before the first header stay there.
    Sections,
    /// Both.
    Both,
}

impl Sorting {
    // Whether pairs are sorted.
    fn sorts_keys(self) -> bool
        ensures { result ≡ sorts_keys self }
    {
        matches!(self, Sorting::Keys | Sorting::Both)
    }

    // Whether sections are.
    fn sorts_sections(self) -> bool
        ensures { result ≡ sorts_sections self }
    {
        matches!(self, Sorting::Sections | Sorting::Both)
    }
}

/// A text sorted: pairs by key, section by section, or sections by name, each with what stands directly
/// above it, from the last blank line on. Those of one key, or of one name, keep their order, so that each
/// look-up answers as before; and no comment is lost. Keys and names go by the numbers of their characters.
///
/// The text is to end with a line end, as one that is laid out does. It is read again before it is given.
/// Where it would say something else it stays as it is, and the loss is told.
///
/// # Errors
///
/// Those of reading the text.
pub fn sort_text(
    alloc: Global,
    text: &str,
    read: ParseOption,
    sorting: Sorting,
) -> Result<LaidOut, Error>
    ensures sorted { IfOk result
        (λ new. IsSortOf read sorting new.loss (chars text.now) (string_text new.text)) }
    ensures keeps { IfOk result (λ new. KeepsAll read (chars text.now) (string_text new.text)) }
    ensures refused { IfErr result (IsRefusalOf read (chars text.now)) }
{
    let source = Source::read(alloc, text, read)?;
    let units = source.ordered_units(alloc, sorting)?;
    let sorted = units_text(alloc, units.as_slice())?;
    let loss = loss_of(alloc, sorted.as_str(), read, units.as_slice())?;
    match loss {
        Some(lost) => {
            let text = source.to_text(alloc)?;
            let loss = Some(lost);
            Ok(LaidOut { text, loss })
        }
        None => Ok(LaidOut {
            text: sorted,
            loss: None,
        }),
    }
}

impl<'a> Source<'a> {
    // The units, in the order that is asked for.
    fn ordered_units<'s>(
        &'s self,
        alloc: Global,
        sorting: Sorting,
    ) -> Result<Vec<SectionUnit<'s, 'a>>, Error>
        ensures ordered { IfOk result
            (λ units. IsOrdered sorting (units_in self.now) (map section_unit_of units.items)) }
        ensures only { IsOkUnless result (Error.Memory alloc_error) }
    {
        let mut units = section_units(alloc, self.sections(), sorting.sorts_keys())?;
        sort_sections(&mut units, sorting.sorts_sections())?;
        Ok(units)
    }
}

/// Sorts pairs by key, or leaves them as they are.
pub(crate) fn sort_pairs(units: &mut Vec<PairUnit<'_, '_>>, sorts: bool) -> Result<(), AllocError>
    ensures { OnOk result (IsSortedIf sorts unit_key (map pair_unit_of units.old.items)
        (map pair_unit_of units.new.items)) }
{
    if !sorts {
        return Ok(());
    }
    units.sort_by(|a, b| by_key(a, b))
}

// Sorts sections by name, or leaves them as they are.
fn sort_sections(units: &mut Vec<SectionUnit<'_, '_>>, sorts: bool) -> Result<(), AllocError>
    ensures { OnOk result (IsSortedIf sorts unit_name (map section_unit_of units.old.items)
        (map section_unit_of units.new.items)) }
{
    if !sorts {
        return Ok(());
    }
    units.sort_by(|a, b| by_name(a, b))
}

// The order of two pairs.
fn by_key(a: &PairUnit<'_, '_>, b: &PairUnit<'_, '_>) -> Ordering
    ensures { result
        ≡ slice_cmp nat_cmp (unit_key (pair_unit_of a.now)) (unit_key (pair_unit_of b.now)) }
{
    compare(a.pair.key(), b.pair.key())
}

// The order of two sections; the general one comes first.
fn by_name(a: &SectionUnit<'_, '_>, b: &SectionUnit<'_, '_>) -> Ordering
    ensures { result
        ≡ slice_cmp nat_cmp (unit_name (section_unit_of a.now)) (unit_name (section_unit_of b.now)) }
{
    compare_names(a.section.name(), b.section.name())
}

// The order of two names.
fn compare_names(a: Option<&str>, b: Option<&str>) -> Ordering
    ensures { result ≡ slice_cmp nat_cmp (name_key (str_name a.entry)) (name_key (str_name b.entry)) }
{
    match (a, b) {
        (Some(a), Some(b)) => compare(a, b),
        (Some(_), None) => Ordering::Greater,
        (None, Some(_)) => Ordering::Less,
        (None, None) => Ordering::Equal,
    }
}

// The order of two texts, by the numbers of their characters.
fn compare(a: &str, b: &str) -> Ordering
    ensures { result ≡ slice_cmp nat_cmp (chars a.now) (chars b.now) }
{
    let mut left = a;
    let mut right = b;
    'characters: while let Some((c, after)) = split_first(left) {
        let Some((d, others)) = split_first(right) else {
            return Ordering::Greater;
        };
        if c != d {
            return c.cmp(&d);
        }
        left = after;
        right = others;
    }
    match split_first(right) {
        Some(_) => Ordering::Less,
        None => Ordering::Equal,
    }
}

// What is lost in the text of units, which this is; none where it says what they say.
fn loss_of(
    alloc: Global,
    text: &str,
    read: ParseOption,
    units: &[SectionUnit<'_, '_>],
) -> Result<Option<Loss>, Error>
    ensures found { IfOk result (λ loss. MatchOption loss
        (Says read (chars text.now) (map section_unit_of units.now))
        (Misses read (chars text.now) (map section_unit_of units.now))) }
    ensures only { IsOkUnless result (Error.Memory alloc_error) }
{
    let new = match Source::read(alloc, text, read) {
        Ok(new) => new,
        Err(Error::Memory(refusal)) => return Err(Error::Memory(refusal)),
        Err(Error::Parse(_)) => return Ok(Some(Loss::Unreadable)),
        Err(Error::Io(_) | Error::NotUtf8 | Error::NoProgress) => {
            return Ok(Some(Loss::Unreadable));
        }
    };
    let read_again = section_units(alloc, new.sections(), false)?;
    if say_same_sections(alloc, read_again.as_slice(), units)? {
        return Ok(None);
    }
    Ok(Some(Loss::Different))
}

// Whether units of sections say the same as others.
fn say_same_sections(
    alloc: Global,
    units: &[SectionUnit<'_, '_>],
    others: &[SectionUnit<'_, '_>],
) -> Result<bool, Error>
    ensures same { IfOk result (λ same. same ≡ all_same says_same_section_unit units.now others.now) }
    ensures only { IsOkUnless result (Error.Memory alloc_error) }
{
    if units.len() != others.len() {
        return Ok(false);
    }
    for (i, unit) in units.iter().enumerate() {
        if !says_same_section(alloc, unit, &others[i])? {
            return Ok(false);
        }
    }
    Ok(true)
}

// Whether a section's unit says the same as another.
fn says_same_section(
    alloc: Global,
    unit: &SectionUnit<'_, '_>,
    other: &SectionUnit<'_, '_>,
) -> Result<bool, Error>
    ensures same { IfOk result (λ same. same ≡ says_same_section_unit unit.now other.now) }
    ensures only { IsOkUnless result (Error.Memory alloc_error) }
{
    if !is_same_name(unit.section.name(), other.section.name()) {
        return Ok(false);
    }
    if !have_same_comments(alloc, unit.above, other.above)? {
        return Ok(false);
    }
    if !have_same_comments(alloc, unit.rest, other.rest)? {
        return Ok(false);
    }
    say_same_pairs(alloc, unit.pairs.as_slice(), other.pairs.as_slice())
}

// Whether units of pairs say the same as others.
fn say_same_pairs(
    alloc: Global,
    units: &[PairUnit<'_, '_>],
    others: &[PairUnit<'_, '_>],
) -> Result<bool, Error>
    ensures same { IfOk result (λ same. same ≡ all_same says_same_pair_unit units.now others.now) }
    ensures only { IsOkUnless result (Error.Memory alloc_error) }
{
    if units.len() != others.len() {
        return Ok(false);
    }
    for (i, unit) in units.iter().enumerate() {
        if !says_same_pair(alloc, unit, &others[i])? {
            return Ok(false);
        }
    }
    Ok(true)
}

// Whether a pair's unit says the same as another.
fn says_same_pair(
    alloc: Global,
    unit: &PairUnit<'_, '_>,
    other: &PairUnit<'_, '_>,
) -> Result<bool, Error>
    ensures same { IfOk result (λ same. same ≡ says_same_pair_unit unit.now other.now) }
    ensures only { IsOkUnless result (Error.Memory alloc_error) }
{
    if !is_same_text(unit.pair.key(), other.pair.key()) {
        return Ok(false);
    }
    if !is_same_text(unit.pair.value(), other.pair.value()) {
        return Ok(false);
    }
    if !have_same_comments(alloc, unit.above, other.above)? {
        return Ok(false);
    }
    have_same_comments_behind(alloc, (unit.pair, unit.rest), (other.pair, other.rest))
}
