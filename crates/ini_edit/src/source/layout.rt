//! A text laid out: the white space around separators, what indents pairs, blank lines and line ends. This
//! file knows how texts are read in pieces, and by which rules these are laid out.
ghost use Rattle.std.specs.Prelude.{◌≡◌, IfErr, IfOk, IsOkUnless, MatchOption, alloc_error, chars};
ghost use Rattle.ini_text.specs.Parsing.Items.{string_text};
ghost use Rattle.ini_edit.specs.Inside.SourceLayouts.{KeepsBy, rules_of};
ghost use Rattle.ini_edit.specs.LaidOut.{HasPlainSeparator, IsLaidOut, LosesBy, RefusesLayout, SaysTheSame};
ghost use Rattle.ini_edit.specs.SourceLayout.{laid_text, rules_for};
ghost use Rattle.ini_edit.specs.WholeTexts.{LoadsEdited};

use crate::error::EditError;
use crate::source::Source;
use crate::source::layout::entries::say_same_sections;
use crate::source::layout::rules::{Rules, push_end};
use ini_text::{Error, LineSeparator, ParseOption, is_same_text};
use std::alloc::Global;

mod columns;
mod entries;
pub(crate) mod lines;
mod pair;
mod prevailing;
pub(crate) mod rules;
mod section;
pub(crate) mod sort;
mod units;

/// How the separators of a text are written, each with the blanks around it.
#[derive(Clone, Copy, Debug)]
pub enum Separators<'l> {
    /// Each as it is.
    Kept,
    /// As most pairs have it, with one blank or none on each side; of those that as many have, the first in
    /// the text. Pairs with a value in their line count. Where separators are aligned, the blanks after it
    /// stand before it too.
    Prevailing,
    /// So, one `=` or `:` with the blanks around it.
    Given(&'l str),
}

/// How a text is laid out.
#[derive(Clone, Copy, Debug)]
pub struct Layout<'l> {
    /// The separator of each pair.
    pub separator: Separators<'l>,
    /// How many spaces indent a pair that begins a line; none leaves each as it is. With kept indentation all
    /// stay; with multiline values none is indented anew.
    pub pair_indentation: Option<u8>,
    /// The most blank lines one after another. Before a header that begins a line there is one, and none at
    /// the text's front and end.
    pub blank_lines: u8,
    /// Whether the separators of neighbouring pairs stand below each other, counted in characters: pairs with
    /// no comment line, blank line or header between, each of which begins a line.
    pub aligned: bool,
}

/// Each separator and indentation as it is, and at most one blank line.
impl Default for Layout<'_> {
    fn default() -> Self {
        Layout {
            separator: Separators::Kept,
            pair_indentation: None,
            blank_lines: 1,
            aligned: false,
        }
    }
}

/// What a text would lose that is laid out.
#[derive(Clone, Copy, Debug)]
pub enum Loss {
    /// All: what it would become can't be read.
    Unreadable,
    /// A header, a pair or a comment, or the place of one.
    Different,
    /// Nothing, but it would be laid out anew.
    Unsteady,
}

/// What comes of a text that is laid out.
#[derive(Debug, Drop)]
pub struct LaidOut {
    /// The new text; the one that was given, where that would lose something.
    pub text: String,
    /// What would be lost, where the text is left as it is.
    pub loss: Option<Loss>,
}

/// A text laid out: it says the same, header by header, pair by pair and comment by comment, and laid out
/// again it stays. No white space stands at the end of a line that isn't a comment's, and all lines that no
/// value goes on over end as the first one does.
///
/// The text is read again before it is given. Where it would say something else, or would be laid out anew,
/// it stays as it is, and the loss is told.
///
/// # Errors
///
/// `Separator` where the layout's separator isn't plain, whatever the text is; `Text` where reading the text
/// stops, with line and column, or memory is refused.
pub fn lay_out(
    alloc: Global,
    text: &str,
    read: ParseOption,
    layout: &Layout<'_>,
) -> Result<LaidOut, EditError>
    ensures laid { IfOk result
        (λ new. IsLaidOut read layout.now new.loss (chars text.now) (string_text new.text)) }
    ensures same { IfOk result (λ new. SaysTheSame read (chars text.now) (string_text new.text)) }
    ensures document { IfOk result
        (λ new. LoadsEdited read (chars text.now) (string_text new.text) (λ d. d)) }
    ensures again { IfOk result
        (λ new. IsLaidOut read layout.now new.loss (string_text new.text) (string_text new.text)) }
    ensures refused { IfErr result (RefusesLayout read layout.now (chars text.now)) }
{
    if !layout.separator.are_plain() {
        return Err(EditError::Separator);
    }
    let source = Source::read(alloc, text, read)?;
    let laid = source.laid(alloc, layout)?;
    let loss = source.loss_in(alloc, laid.as_str(), layout)?;
    match loss {
        Some(lost) => {
            let text = source.to_text(alloc)?;
            let loss = Some(lost);
            Ok(LaidOut { text, loss })
        }
        None => Ok(LaidOut {
            text: laid,
            loss: None,
        }),
    }
}

impl<'a> Source<'a> {
    // What a layout makes of the text.
    fn rules<'l>(&self, alloc: Global, layout: &Layout<'l>) -> Result<Rules<'l>, Error>
        requires { HasPlainSeparator layout.now.separator }
        ensures rules { IfOk result
            (λ rules. rules_of rules ≡ rules_for self.now.option layout.now self.now.sections) }
        ensures only { IsOkUnless result (Error.Memory alloc_error) }
    {
        let style = layout
            .separator
            .style(alloc, layout.aligned, self.sections())?;
        Ok(Rules {
            read: self.option,
            style,
            indentation: layout.pair_indentation,
            blank_lines: layout.blank_lines,
            aligned: layout.aligned,
            line_end: self.line_end(LineSeparator::SystemDefault),
        })
    }

    // The text laid out.
    fn laid(&self, alloc: Global, layout: &Layout<'_>) -> Result<String, Error>
        requires { HasPlainSeparator layout.now.separator }
        ensures text { IfOk result (λ text. string_text text ≡ laid_text layout.now self.now) }
        ensures only { IsOkUnless result (Error.Memory alloc_error) }
    {
        let rules = self.rules(alloc, layout)?;
        let mut out = String::new(alloc);
        let mut front = '\n';
        let sections = self.sections();
        for (i, section) in sections.iter().enumerate() {
            let is_last = i + 1 == sections.len();
            section.push_laid(alloc, &mut out, &rules, front, is_last)?;
            front = section.last_char(front);
        }
        push_end(&mut out, &rules)?;
        Ok(out)
    }

    // What is lost in the text laid out, which this is; none where it says the same, and stays when it is
    // laid out again.
    fn loss_in(&self, alloc: Global, laid: &str, layout: &Layout<'_>) -> Result<Option<Loss>, Error>
        requires plain { HasPlainSeparator layout.now.separator }
        requires laid { chars laid.now ≡ laid_text layout.now self.now }
        ensures found { IfOk result (λ loss. MatchOption loss (KeepsBy self.now.option layout.now self.now)
            (LosesBy self.now.option layout.now self.now)) }
        ensures only { IsOkUnless result (Error.Memory alloc_error) }
    {
        let new = match Source::read(alloc, laid, self.option) {
            Ok(new) => new,
            Err(Error::Memory(refusal)) => return Err(Error::Memory(refusal)),
            Err(Error::Parse(_)) => return Ok(Some(Loss::Unreadable)),
            Err(Error::Io(_) | Error::NotUtf8 | Error::NoProgress) => {
                return Ok(Some(Loss::Unreadable));
            }
        };
        if !say_same_sections(alloc, new.sections(), self.sections())? {
            return Ok(Some(Loss::Different));
        }
        let again = new.laid(alloc, layout)?;
        if is_same_text(again.as_str(), laid) {
            return Ok(None);
        }
        Ok(Some(Loss::Unsteady))
    }
}
