//! A pair laid out. This file knows the stretches of a pair.
ghost use Rattle.std.specs.Prelude.{◌≡◌, ◌==◌, ◌++◌, ◌||◌, [], if◌then◌else◌, IsOkUnless, OnOk, alloc_error};
ghost use Rattle.std.specs.Prelude.{chars, replicate, true};
ghost use Rattle.std.specs.Option.{option_map};
ghost use Rattle.ini_text.specs.Grammar.CharacterKinds.{is_comment_mark, is_line_end, open_bracket, space};
ghost use Rattle.ini_text.specs.Grammar.CharacterKinds.{begins};
ghost use Rattle.ini_text.specs.Parsing.Fronts.{IsRest};
ghost use Rattle.ini_text.specs.Parsing.Items.{string_text};
ghost use Rattle.ini_edit.specs.Inside.SourceEnds.{style_of};
ghost use Rattle.ini_edit.specs.Inside.SourceLayouts.{rules_of};
ghost use Rattle.ini_edit.specs.Prevailing.{leaves_line_empty};
ghost use Rattle.ini_edit.specs.SourceEntries.{behind_value};
ghost use Rattle.ini_edit.specs.SourceLayout.{aligned_key, indent_for, indents, laid_gap, laid_key};
ghost use Rattle.ini_edit.specs.SourceLayout.{laid_pair, laid_space, lines_of, pad_for, separator_for};
ghost use Rattle.ini_edit.specs.SourceLayout.{style_of_key, without_pad};
ghost use Rattle.ini_edit.specs.SourceLines.{is_empty};
ghost use Rattle.ini_edit.specs.declared.source.layout.lines.Follower.TheVariants as Followers;

use crate::append::{push, push_text};
use crate::source::layout::columns::width;
use crate::source::layout::lines::{Follower, push_gap};
use crate::source::layout::rules::Rules;
use crate::source::lines::{blanks_at_end, is_empty, last_or, split_blanks};
use crate::source::pair::SourcePair;
use crate::source::written::PairStyle;
use crate::text::begins_with_comment;
use ini_text::{Error, ParseOption, front_before, is_comment_mark, is_line_end, split_first};
use std::alloc::Global;

impl<'a> SourcePair<'a> {
    /// Appends the pair, laid out up to the end of its value; `starts` says that it begins a line. Its
    /// separator stands in this column at least.
    pub(crate) fn push_laid(
        &self,
        alloc: Global,
        out: &mut String,
        rules: &Rules<'_>,
        starts: bool,
        column: usize,
    ) -> Result<(), Error>
        ensures pushed { OnOk result (string_text out.new
            ≡ string_text out.old ++ laid_pair (rules_of rules.now) starts column self.now) }
        ensures only { IsOkUnless result (Error.Memory alloc_error) }
    {
        let Some(separator) = self.separator() else {
            return self.push_laid_key(out, rules, starts);
        };
        self.push_aligned_key(alloc, out, rules, starts, column)?;
        push(out, separator_for(rules, separator))?;
        push_text(out, space_for(rules, self.raw_value(), self.space_before()))?;
        push_text(out, self.raw_value())
    }

    // Appends the key's source, laid out, with spaces up to this column.
    fn push_aligned_key(
        &self,
        alloc: Global,
        out: &mut String,
        rules: &Rules<'_>,
        starts: bool,
        column: usize,
    ) -> Result<(), Error>
        ensures pushed { OnOk result (string_text out.new ≡ string_text out.old ++ aligned_key column
            (laid_key (rules_of rules.now) starts self.now)) }
        ensures only { IsOkUnless result (Error.Memory alloc_error) }
    {
        if column == 0 {
            return self.push_laid_key(out, rules, starts);
        }
        let mut laid = String::new(alloc);
        self.push_laid_key(&mut laid, rules, starts)?;
        push_text(out, laid.as_str())?;
        push_spaces(out, column.saturating_sub(width(laid.as_str())))
    }

    /// Appends the key's source, laid out.
    pub(crate) fn push_laid_key(
        &self,
        out: &mut String,
        rules: &Rules<'_>,
        starts: bool,
    ) -> Result<(), Error>
        ensures pushed { OnOk result (string_text out.new
            ≡ string_text out.old ++ laid_key (rules_of rules.now) starts self.now) }
        ensures only { IsOkUnless result (Error.Memory alloc_error) }
    {
        let (indent, own) = split_blanks(self.raw_key());
        let pad = blanks_at_end(own);
        let bare = front_before(own, pad);
        push_indent(out, rules, starts, indent, own)?;
        push_text(out, bare)?;
        push_text(out, self.pad_for(rules, bare, pad))
    }

    // The blanks after the key, before a separator, before a note, or alone.
    fn pad_for<'t>(&self, rules: &Rules<'t>, bare: &str, pad: &'t str) -> &'t str
        ensures { chars result.now ≡ pad_for (rules_of rules.now).option
            (style_of_key self.now (rules_of rules.now).style) (chars bare.now) (chars pad.now) }
    {
        if self.has_separator() {
            return pad_by(rules.read, rules.style, bare, pad);
        }
        if begins_with_comment(self.after()) {
            return pad;
        }
        pad_by(rules.read, without_pad(rules.style), bare, pad)
    }

    /// Appends what stands after the pair's value, laid out: of a section's last pair up to a rest of it,
    /// which follows so.
    pub(crate) fn push_laid_lines(
        &self,
        alloc: Global,
        out: &mut String,
        rules: &Rules<'_>,
        follower: Follower,
        rest: &str,
        is_last: bool,
    ) -> Result<(), Error>
        requires { is_last ≡ true → IsRest self.now.after (chars rest.now) }
        ensures pushed { OnOk result (string_text out.new ≡ string_text out.old
            ++ laid_gap (rules_of rules.now) (if is_last then follower else Followers.AsItIs)
            (lines_of self.now (if is_last then chars rest.now else []))) }
        ensures only { IsOkUnless result (Error.Memory alloc_error) }
    {
        if is_last {
            let kept = front_before(self.after(), rest);
            return self.push_lines_up_to(alloc, out, rules, follower, kept);
        }
        self.push_lines_up_to(alloc, out, rules, Follower::AsItIs, self.after())
    }

    // Appends what stands after the pair's value, with this front of the gap, laid out.
    fn push_lines_up_to(
        &self,
        alloc: Global,
        out: &mut String,
        rules: &Rules<'_>,
        follower: Follower,
        kept: &str,
    ) -> Result<(), Error>
        ensures pushed { OnOk result (string_text out.new ≡ string_text out.old
            ++ laid_gap (rules_of rules.now) follower
            (self.now.stretches.space_after ++ behind_value self.now.stretches (chars kept.now))) }
        ensures only { IsOkUnless result (Error.Memory alloc_error) }
    {
        let mut lines = String::from_str(alloc, self.space_after())?;
        self.push_behind_value(&mut lines, kept)?;
        push_gap(out, rules, follower, lines.as_str())
    }

    /// Appends the note and the lines behind the value, and this front of the gap.
    pub(crate) fn push_behind_value(&self, out: &mut String, kept: &str) -> Result<(), Error>
        ensures pushed { OnOk result (string_text out.new
            ≡ string_text out.old ++ behind_value self.now.stretches (chars kept.now)) }
        ensures only { IsOkUnless result (Error.Memory alloc_error) }
    {
        push_text(out, self.note())?;
        push_text(out, self.trailing_lines())?;
        push_text(out, kept)
    }
}

// Appends what indents a key.
fn push_indent(
    out: &mut String,
    rules: &Rules<'_>,
    starts: bool,
    indent: &str,
    own: &str,
) -> Result<(), Error>
    ensures pushed { OnOk result (string_text out.new ≡ string_text out.old
        ++ indent_for (rules_of rules.now) (rules_of rules.now).indentation starts (chars indent.now)
        (chars own.now)) }
    ensures only { IsOkUnless result (Error.Memory alloc_error) }
{
    match rules.indentation {
        Some(count) => {
            if indents(rules, starts, count, own) {
                push_spaces(out, count as usize)
            } else {
                push_text(out, indent)
            }
        }
        None => push_text(out, indent),
    }
}

// Whether a key may have another indentation.
fn indents(rules: &Rules<'_>, starts: bool, count: u8, own: &str) -> bool
    ensures { result ≡ indents (rules_of rules.now) starts count (chars own.now) }
{
    starts
        && !rules.read.enabled_preserve_key_leading_whitespace
        && (count == 0 || !rules.read.enabled_indented_mutiline_value)
        && !begins_otherwise(own)
}

// Whether a text begins as a comment or a header does.
fn begins_otherwise(text: &str) -> bool
    ensures { result ≡ begins (λ c. is_comment_mark c || c == open_bracket) (chars text.now) }
{
    match split_first(text) {
        Some((c, _)) => is_comment_mark(c) || c == '[',
        None => false,
    }
}

// Appends spaces.
fn push_spaces(out: &mut String, count: usize) -> Result<(), Error>
    ensures pushed { OnOk result (string_text out.new ≡ string_text out.old ++ replicate count space) }
    ensures only { IsOkUnless result (Error.Memory alloc_error) }
{
    let mut left = count;
    'spaces: while left > 0 {
        push(out, ' ')?;
        left -= 1;
    }
    Ok(())
}

// The blanks after a key by such a style.
fn pad_by<'t>(read: ParseOption, style: Option<PairStyle<'t>>, bare: &str, pad: &'t str) -> &'t str
    ensures { chars result.now
        ≡ pad_for read (option_map style_of style.entry) (chars bare.now) (chars pad.now) }
{
    match style {
        Some(style) => {
            if read.begins_escape(last_or(' ', bare)) {
                pad
            } else {
                style.pad
            }
        }
        None => pad,
    }
}

// A style without blanks after a key.
fn without_pad<'t>(style: Option<PairStyle<'t>>) -> Option<PairStyle<'t>>
    ensures { option_map style_of result
        ≡ option_map without_pad (option_map style_of style.entry) }
{
    match style {
        Some(style) => Some(PairStyle { pad: "", ..style }),
        None => None,
    }
}

// The separator.
fn separator_for(rules: &Rules<'_>, separator: char) -> char
    ensures { result ≡ separator_for (rules_of rules.now).style separator }
{
    match rules.style {
        Some(style) => style.separator,
        None => separator,
    }
}

// The white space before a value.
fn space_for<'t>(rules: &Rules<'t>, raw_value: &str, before: &'t str) -> &'t str
    ensures { chars result.now
        ≡ laid_space (rules_of rules.now).style (chars raw_value.now) (chars before.now) }
{
    if leaves_line_empty(raw_value) {
        return "";
    }
    match rules.style {
        Some(style) => style.space_before,
        None => before,
    }
}

/// Whether a value gives its first line nothing.
pub(crate) fn leaves_line_empty(raw_value: &str) -> bool
    ensures { result ≡ leaves_line_empty (chars raw_value.now) }
{
    is_empty(raw_value) || begins_with_line_end(raw_value)
}

// Whether a line end begins a text.
fn begins_with_line_end(text: &str) -> bool
    ensures { result ≡ begins is_line_end (chars text.now) }
{
    match split_first(text) {
        Some((c, _)) => is_line_end(c),
        None => false,
    }
}
