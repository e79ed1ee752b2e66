//! The columns in which separators stand that are aligned. This file knows pairs and the rules of a layout.
ghost use Rattle.std.specs.Prelude.{◌≡◌, IfOk, IsOkUnless, alloc_error, chars, length, max};
ghost use Rattle.ini_edit.specs.Inside.SourceLayouts.{rules_of};
ghost use Rattle.ini_edit.specs.SourceLayout.{column_after, column_at, joins, key_width, run_column};

use crate::source::layout::lines::{Follower, push_gap};
use crate::source::layout::rules::Rules;
use crate::source::lines::split_blanks;
use crate::source::pair::SourcePair;
use ini_text::{Error, is_same_text, past_note, split_first};
use std::alloc::Global;

/// The column of the first of pairs, which begins a line or not; before it is the column of the pair that is
/// joined to it, or 0.
pub(crate) fn column_at(
    alloc: Global,
    rules: &Rules<'_>,
    starts: bool,
    column: usize,
    pairs: &[SourcePair<'_>],
) -> Result<usize, Error>
    ensures column { IfOk result (λ here. here ≡ column_at (rules_of rules.now) starts column pairs.now) }
    ensures only { IsOkUnless result (Error.Memory alloc_error) }
{
    if !(rules.aligned && starts) {
        return Ok(0);
    }
    if column == 0 {
        return run_column(alloc, rules, pairs);
    }
    Ok(column)
}

// The column of the farthest separator of the pairs that are joined from the first one on.
fn run_column(alloc: Global, rules: &Rules<'_>, pairs: &[SourcePair<'_>]) -> Result<usize, Error>
    ensures column { IfOk result (λ column. column ≡ run_column (rules_of rules.now) pairs.now) }
    ensures only { IsOkUnless result (Error.Memory alloc_error) }
{
    let mut column = 0;
    for pair in pairs {
        column = larger(column, pair.key_width(alloc, rules)?);
        if !pair.joins(alloc, rules)? {
            return Ok(column);
        }
    }
    Ok(column)
}

// The larger one of two numbers.
fn larger(a: usize, b: usize) -> usize
    ensures { result ≡ max a b }
{
    if a < b { b } else { a }
}

impl<'a> SourcePair<'a> {
    /// The column after this pair: its own, where the next one is joined to it, and 0 elsewhere.
    pub(crate) fn column_after(
        &self,
        alloc: Global,
        rules: &Rules<'_>,
        column: usize,
    ) -> Result<usize, Error>
        ensures column { IfOk result (λ next. next ≡ column_after (rules_of rules.now) column self.now) }
        ensures only { IsOkUnless result (Error.Memory alloc_error) }
    {
        if column == 0 {
            return Ok(0);
        }
        if self.joins(alloc, rules)? {
            return Ok(column);
        }
        Ok(0)
    }

    // Whether nothing but a line end stands between the pair, with its note, and the next one, once it is
    // laid out.
    fn joins(&self, alloc: Global, rules: &Rules<'_>) -> Result<bool, Error>
        ensures joins { IfOk result (λ is. is ≡ joins (rules_of rules.now) self.now) }
        ensures only { IsOkUnless result (Error.Memory alloc_error) }
    {
        let mut lines = String::from_str(alloc, self.space_after())?;
        self.push_behind_value(&mut lines, self.after())?;
        let (_, bare) = split_blanks(lines.as_str());
        let mut laid = String::new(alloc);
        push_gap(
            &mut laid,
            rules,
            Follower::AsItIs,
            past_note(bare, rules.read),
        )?;
        Ok(is_same_text(laid.as_str(), rules.line_end.as_str()))
    }

    // How wide the key is before a separator, laid out at a line's start.
    fn key_width(&self, alloc: Global, rules: &Rules<'_>) -> Result<usize, Error>
        ensures width { IfOk result (λ width. width ≡ key_width (rules_of rules.now) self.now) }
        ensures only { IsOkUnless result (Error.Memory alloc_error) }
    {
        if !self.has_separator() {
            return Ok(0);
        }
        let mut key = String::new(alloc);
        self.push_laid_key(&mut key, rules, true)?;
        Ok(width(key.as_str()))
    }
}

/// How many characters a text has.
pub(crate) fn width(text: &str) -> usize
    ensures { result ≡ length (chars text.now) }
{
    let mut rest = text;
    let mut count = 0;
    'characters: while let Some((_, after)) = split_first(rest) {
        rest = after;
        count += 1;
    }
    count
}
