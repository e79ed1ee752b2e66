//! A section laid out. This file knows the parts of a section.
ghost use Rattle.std.specs.Prelude.{◌≡◌, ◌++◌, [], if◌then◌else◌, IsOkUnless, OnOk, alloc_error};
ghost use Rattle.std.specs.Prelude.{chars};
ghost use Rattle.ini_text.specs.Parsing.Fronts.{IsRest, front_of};
ghost use Rattle.ini_text.specs.Parsing.Items.{string_text};
ghost use Rattle.ini_edit.specs.Inside.SourceLayouts.{EndsInRest, rules_of};
ghost use Rattle.ini_edit.specs.SourceLayout.{above_next, first_lines, laid_gap, laid_pairs, laid_section};
ghost use Rattle.ini_edit.specs.SourcePlaces.{is_nil, last_gap};
ghost use Rattle.ini_edit.specs.declared.source.layout.lines.Follower.TheVariants as Followers;

use crate::append::push_text;
use crate::source::layout::columns::column_at;
use crate::source::layout::lines::{Follower, push_gap};
use crate::source::layout::rules::Rules;
use crate::source::lines::{last_or, split_blank_lines};
use crate::source::pair::SourcePair;
use crate::source::section::SourceSection;
use ini_text::{Error, front_before};
use std::alloc::Global;

impl<'a> SourceSection<'a> {
    /// Appends the section, laid out; `front` is the last character before it.
    pub(crate) fn push_laid(
        &self,
        alloc: Global,
        out: &mut String,
        rules: &Rules<'_>,
        front: char,
        is_last: bool,
    ) -> Result<(), Error>
        ensures pushed { OnOk result (string_text out.new
            ≡ string_text out.old ++ laid_section (rules_of rules.now) is_last front self.now) }
        ensures only { IsOkUnless result (Error.Memory alloc_error) }
    {
        let follower = follower_of(is_last);
        let rest = self.above_next(front, is_last);
        push_text(out, self.header())?;
        self.push_first_lines(out, rules, follower, rest)?;
        let last = last_or(last_or(front, self.header()), self.after());
        push_pairs(alloc, out, rules, follower, rest, last, self.pairs())?;
        push_gap(out, rules, Follower::AsItIs, rest)?;
        Ok(())
    }

    // The comments directly above the header that follows, and what indents that.
    fn above_next(&self, front: char, is_last: bool) -> &str
        ensures rest { chars result.now ≡ above_next is_last front self.now }
        ensures is_rest { IsRest (last_gap self.now) (chars result.now) }
    {
        if is_last {
            return "";
        }
        self.rest_before_header(front).gap
    }

    // Appends what follows the header, laid out.
    fn push_first_lines(
        &self,
        out: &mut String,
        rules: &Rules<'_>,
        follower: Follower,
        rest: &str,
    ) -> Result<(), Error>
        requires { IsRest (last_gap self.now) (chars rest.now) }
        ensures pushed { OnOk result (string_text out.new ≡ string_text out.old
            ++ laid_gap (rules_of rules.now) (if is_nil self.now.pairs then follower else Followers.AsItIs)
            (first_lines self.now (front_of self.now.after (if is_nil self.now.pairs then chars rest.now
            else [])))) }
        ensures only { IsOkUnless result (Error.Memory alloc_error) }
    {
        if self.is_bare() {
            let lines = front_before(self.after(), rest);
            push_gap(out, rules, follower, self.first_lines(lines))?;
            return Ok(());
        }
        push_gap(out, rules, Follower::AsItIs, self.first_lines(self.after()))?;
        Ok(())
    }

    // Whether there is no pair.
    pub(crate) fn is_bare(&self) -> bool
        ensures { result ≡ is_nil self.now.pairs }
    {
        self.pairs().is_empty()
    }

    // Lines after the header; at the text's front without the blank lines there.
    fn first_lines<'t>(&self, lines: &'t str) -> &'t str
        ensures { chars result.now ≡ first_lines self.now (chars lines.now) }
    {
        if self.name().is_none() {
            return split_blank_lines(lines).1;
        }
        lines
    }
}

// What follows a section's last gap.
fn follower_of(is_last: bool) -> Follower
    ensures { result ≡ (if is_last then Followers.End else Followers.Header) }
{
    if is_last {
        Follower::End
    } else {
        Follower::Header
    }
}

// Appends pairs, laid out, after the last character before them.
fn push_pairs(
    alloc: Global,
    out: &mut String,
    rules: &Rules<'_>,
    follower: Follower,
    rest: &str,
    last: char,
    pairs: &[SourcePair<'_>],
) -> Result<(), Error>
    requires { EndsInRest (chars rest.now) pairs.now }
    ensures pushed { OnOk result (string_text out.new ≡ string_text out.old
        ++ laid_pairs (rules_of rules.now) follower (chars rest.now) last 0 pairs.now) }
    ensures only { IsOkUnless result (Error.Memory alloc_error) }
{
    let mut last = last;
    let mut column = 0;
    for (i, pair) in pairs.iter().enumerate() {
        let starts = last == '\n';
        let here = column_at(alloc, rules, starts, column, &pairs[i..])?;
        pair.push_laid(alloc, out, rules, starts, here)?;
        let is_last = i + 1 == pairs.len();
        pair.push_laid_lines(alloc, out, rules, follower, rest, is_last)?;
        column = pair.column_after(alloc, rules, here)?;
        last = pair.last_char(last);
    }
    Ok(())
}
