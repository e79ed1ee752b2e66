//! The rules of a layout for one text. This file knows how separators are written, and no piece.
ghost use Rattle.std.specs.Prelude.{◌≡◌, ◌↔◌, ◌++◌, IfOk, IsOkUnless, OnOk, alloc_error, chars, true};
ghost use Rattle.std.specs.Option.{option_map};
ghost use Rattle.ini_text.specs.Parsing.Items.{string_text};
ghost use Rattle.ini_edit.specs.Inside.SourceEnds.{style_of};
ghost use Rattle.ini_edit.specs.Inside.SourceLayouts.{rules_of};
ghost use Rattle.ini_edit.specs.LaidOut.{HasPlainSeparator};
ghost use Rattle.ini_edit.specs.SourceLayout.{end_after, style_for, takes_no_end};

use crate::append::push_text;
use crate::source::layout::Separators;
use crate::source::layout::prevailing::prevailing_style;
use crate::source::lines::{is_empty, last_or};
use crate::source::section::SourceSection;
use crate::source::written::{PairStyle, separator_style};
use ini_text::{Error, LineSeparator, ParseOption, is_plain_separator};
use std::alloc::Global;

/// What a layout makes of one text: how separators are written and how many spaces indent pairs, each none
/// where it stays; the most blank lines; whether separators are aligned; and the line end.
#[derive(Clone, Copy)]
pub(crate) struct Rules<'l> {
    pub(crate) read: ParseOption,
    pub(crate) style: Option<PairStyle<'l>>,
    pub(crate) indentation: Option<u8>,
    pub(crate) blank_lines: u8,
    pub(crate) aligned: bool,
    pub(crate) line_end: LineSeparator,
}

impl<'l> Separators<'l> {
    /// Whether the separator that is given is plain, if one is.
    pub(crate) fn are_plain(self) -> bool
        ensures { (result ≡ true) ↔ HasPlainSeparator self.entry }
    {
        match self {
            Separators::Given(separator) => is_plain_separator(separator),
            Separators::Kept | Separators::Prevailing => true,
        }
    }

    /// How separators are written in a text of these sections, aligned or not; `None` where each stays.
    pub(crate) fn style(
        self,
        alloc: Global,
        aligned: bool,
        sections: &[SourceSection<'_>],
    ) -> Result<Option<PairStyle<'l>>, Error>
        requires { HasPlainSeparator self }
        ensures style { IfOk result
            (λ style. option_map style_of style ≡ style_for aligned sections.now self.entry) }
        ensures only { IsOkUnless result (Error.Memory alloc_error) }
    {
        match self {
            Separators::Given(separator) => Ok(Some(separator_style(separator))),
            Separators::Prevailing => prevailing_style(alloc, aligned, sections),
            Separators::Kept => Ok(None),
        }
    }
}

/// Ends a text that is laid out: with a line end, unless it is empty, or a backslash would take that.
pub(crate) fn push_end(out: &mut String, rules: &Rules<'_>) -> Result<(), Error>
    ensures pushed { OnOk result (string_text out.new
        ≡ string_text out.old ++ end_after (rules_of rules.now) (string_text out.old)) }
    ensures only { IsOkUnless result (Error.Memory alloc_error) }
{
    if takes_no_end(out.as_str(), rules.read) {
        return Ok(());
    }
    push_text(out, rules.line_end.as_str())?;
    Ok(())
}

// Whether a text is empty, or a backslash would take a line end after it.
fn takes_no_end(text: &str, read: ParseOption) -> bool
    ensures { result ≡ takes_no_end read (chars text.now) }
{
    is_empty(text) || read.begins_escape(last_or('\n', text))
}
