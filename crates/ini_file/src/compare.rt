//! What differs between two files, setting by setting, as a function of their bytes. This file knows no word
//! of the program and no device.
ghost use Rattle.std.specs.Prelude.{◌≡◌, IfOk};
ghost use Rattle.ini_layers.specs.Differences.{difference};
ghost use Rattle.ini_layers.specs.Settings.{flat_by};
ghost use Rattle.ini_file.specs.Comparisons.{AreChangeLines, AreCommentsTold, AreLinesOf, AreTold};
ghost use Rattle.ini_file.specs.Comparisons.{HasCommentLines, HasComments, HasComparison, compare_status};
ghost use Rattle.ini_file.specs.Ruled.{ruled_of};

use crate::bytes::text_of;
use crate::change_lines::{change_lines, comment_lines};
use crate::edit_lines::edit_lines;
use crate::json_lines::json_lines;
use crate::manner::AnswerForm;
use crate::merge::load;
use crate::other_values::other_values;
use crate::ruled::Ruled;
use ini::{Error, Ini};
use ini_dialect::{AnyDocument, Lookup};
use ini_edit::Source;
use ini_layers::{SettingValue, commented, diff};
use std::alloc::{AllocError, Global};

/// How differences are told.
#[derive(Clone, Copy)]
pub struct Telling {
    /// The form of a line.
    pub form: AnswerForm,
    /// Whether lines have colours.
    pub is_colored: bool,
    /// Whether comments that differ are told too.
    pub with_comments: bool,
}

/// What is told of two files.
#[derive(Debug, Drop)]
pub struct ComparedFiles {
    /// A line for each setting that differs, and then one for each comment, where they are asked for.
    pub lines: Vec<u8>,
    /// A line on the first key of which several values differ, where one is compared; else empty.
    pub others: Vec<u8>,
}

/// How a comparison ended.
#[derive(Debug, Drop)]
pub enum CompareEnd {
    /// The files were compared.
    Done(ComparedFiles),
    /// The first file was refused; or memory was scarce.
    From(Error),
    /// The second file was refused.
    To(Error),
}

/// A line for each setting that differs under the rule, in the form: those of the second file in their order,
/// and then those that it lacks; and where comments are asked for, one for each setting of both files that
/// has another above the pair that counts. A mark (EF BB BF) at the front of either is no part of its text.
pub fn compare(
    alloc: Global,
    ruled: Ruled<'_>,
    telling: Telling,
    from: &[u8],
    to: &[u8],
) -> CompareEnd
    ensures { HasComparison (ruled_of ruled.entry) telling from.now to.now result }
{
    let first = match load(alloc, ruled.options.reading, from) {
        Ok(first) => first,
        Err(refused) => return CompareEnd::From(refused),
    };
    let second = match load(alloc, ruled.options.reading, to) {
        Ok(second) => second,
        Err(refused) => return CompareEnd::To(refused),
    };
    match told(alloc, ruled, telling, (from, &first), (to, &second)) {
        Ok(files) => CompareEnd::Done(files),
        Err(AllocError) => CompareEnd::From(Error::Memory(AllocError)),
    }
}

// What is told of files that have these documents.
fn told(
    alloc: Global,
    ruled: Ruled<'_>,
    telling: Telling,
    from: (&[u8], &Ini),
    to: (&[u8], &Ini),
) -> Result<ComparedFiles, AllocError>
    ensures { IfOk result (AreTold (ruled_of ruled.entry) telling from.entry.0.now to.entry.0.now
        from.entry.1.now to.entry.1.now) }
{
    let ((from, first), (to, second)) = (from, to);
    let mut lines = setting_lines(alloc, ruled, telling, first, second)?;
    let comments = comments_told(alloc, ruled, telling, from, to)?;
    lines.extend_from_slice(comments.as_slice())?;
    let others = other_values(alloc, ruled.which, ruled.rule, first, second)?;
    Ok(ComparedFiles { lines, others })
}

// A line for each setting that differs between two documents, which are copied but for the default rule.
#[tactic(auto, using(crate::proofs::PlainDifferenceLemmas::own_difference))]
fn setting_lines(
    alloc: Global,
    ruled: Ruled<'_>,
    telling: Telling,
    from: &Ini,
    to: &Ini,
) -> Result<Vec<u8>, AllocError>
    ensures { IfOk result
        (λ lines. AreChangeLines (ruled_of ruled.entry) telling from.now to.now lines.items) }
{
    let (which, rule) = (ruled.which, ruled.rule);
    if which == SettingValue::Counting && rule.is_own() {
        return lines_between(alloc, telling, from, to);
    }
    let Ok(from) = which.flat(alloc, rule, AnyDocument::Ini(from)) else {
        return Err(AllocError);
    };
    let Ok(to) = which.flat(alloc, rule, AnyDocument::Ini(to)) else {
        return Err(AllocError);
    };
    lines_between(alloc, telling, &from, &to)
}

// The same of documents in which the first section and the first value count, as in flattened ones.
fn lines_between(
    alloc: Global,
    telling: Telling,
    from: &Ini,
    to: &Ini,
) -> Result<Vec<u8>, AllocError>
    ensures { IfOk result (λ lines. AreLinesOf telling.form telling.is_colored
        (difference from.now to.now) lines.items) }
{
    let Ok(changes) = diff(alloc, from, to) else {
        return Err(AllocError);
    };
    let changes = changes.as_slice();
    match telling.form {
        AnswerForm::Json => json_lines(alloc, changes),
        AnswerForm::Edits => edit_lines(alloc, changes),
        _ => change_lines(alloc, telling.is_colored, changes),
    }
}

// The lines of the comments that differ, where they are asked for.
fn comments_told(
    alloc: Global,
    ruled: Ruled<'_>,
    telling: Telling,
    from: &[u8],
    to: &[u8],
) -> Result<Vec<u8>, AllocError>
    ensures { IfOk result (λ lines. AreCommentsTold telling.with_comments (ruled_of ruled.entry)
        telling.is_colored from.now to.now lines.items) }
{
    if telling.with_comments {
        lines_of_comments(alloc, ruled, telling.is_colored, from, to)
    } else {
        Ok(Vec::new(alloc))
    }
}

// A line for each comment that differs between files that have documents. What has one is refused when out of
// memory alone.
fn lines_of_comments(
    alloc: Global,
    ruled: Ruled<'_>,
    is_colored: bool,
    from: &[u8],
    to: &[u8],
) -> Result<Vec<u8>, AllocError>
    ensures { IfOk result
        (λ lines. HasCommentLines (ruled_of ruled.entry) is_colored from.now to.now lines.items) }
{
    let Ok(from) = comments_in(alloc, ruled, from) else {
        return Err(AllocError);
    };
    let Ok(to) = comments_in(alloc, ruled, to) else {
        return Err(AllocError);
    };
    let Ok(changes) = diff(alloc, &from, &to) else {
        return Err(AllocError);
    };
    comment_lines(alloc, is_colored, changes.as_slice())
}

// The comments above the pairs of a file that count.
fn comments_in(alloc: Global, ruled: Ruled<'_>, file: &[u8]) -> Result<Ini, Error>
    ensures { IfOk result (HasComments (ruled_of ruled.entry) file.now) }
{
    let (_, text) = text_of(file)?;
    let source = Source::read(alloc, text, ruled.options.reading)?;
    let comments = commented(alloc, &source)?;
    ruled.rule.flattened(alloc, AnyDocument::Ini(&comments))
}

/// The exit status of a comparison: 0 where no setting differs, 1 where one does, and 2 after a refusal.
pub fn compare_status(end: &CompareEnd) -> u8
    ensures { result ≡ compare_status end.now }
{
    match end {
        CompareEnd::Done(files) if files.lines.is_empty() => 0,
        CompareEnd::Done(_) => 1,
        _ => 2,
    }
}
