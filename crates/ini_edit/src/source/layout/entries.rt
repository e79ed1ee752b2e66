//! Whether two texts in pieces say the same: headers, pairs and comments, in order. This file knows the
//! parts of pairs and sections.
ghost use Rattle.std.specs.Prelude.{◌≡◌, ◌==◌, ◌&&◌, ◌||◌, ◌++◌, ◌∷◌, IfOk, IsOkUnless, alloc_error};
ghost use Rattle.std.specs.Prelude.{chars, false, true};
ghost use Rattle.ini.specs.Texts.{Text, is_text};
ghost use Rattle.ini_text.specs.Grammar.CharacterKinds.{carriage_return, is_line_feed};
ghost use Rattle.ini_text.specs.Grammar.CharacterKinds.{begins};
ghost use Rattle.ini_edit.specs.SourceLines.{is_empty};
ghost use Rattle.ini_text.specs.Parsing.Items.{string_text};
ghost use Rattle.ini_edit.specs.Inside.SourceLayouts.{all_same, says_same_pair, says_same_section};
ghost use Rattle.ini_edit.specs.SourceEntries.{behind_value, comments_from, comments_in};

use crate::append::push;
use crate::source::is_same_name;
use crate::source::lines::{begins_with_line_feed, is_empty};
use crate::source::pair::SourcePair;
use crate::source::section::SourceSection;
use ini_text::{Error, is_comment_mark, is_same_text, split_first};
use std::alloc::Global;

/// Whether sections say the same as others.
pub(crate) fn say_same_sections(
    alloc: Global,
    sections: &[SourceSection<'_>],
    others: &[SourceSection<'_>],
) -> Result<bool, Error>
    ensures same { IfOk result (λ same. same ≡ all_same says_same_section sections.now others.now) }
    ensures only { IsOkUnless result (Error.Memory alloc_error) }
{
    if sections.len() != others.len() {
        return Ok(false);
    }
    for (i, section) in sections.iter().enumerate() {
        if !says_same_section(alloc, section, &others[i])? {
            return Ok(false);
        }
    }
    Ok(true)
}

// Whether a section says the same as another.
fn says_same_section(
    alloc: Global,
    section: &SourceSection<'_>,
    other: &SourceSection<'_>,
) -> Result<bool, Error>
    ensures same { IfOk result (λ same. same ≡ says_same_section section.now other.now) }
    ensures only { IsOkUnless result (Error.Memory alloc_error) }
{
    if !is_same_name(section.name(), other.name()) {
        return Ok(false);
    }
    if !have_same_comments(alloc, section.after(), other.after())? {
        return Ok(false);
    }
    say_same_pairs(alloc, section.pairs(), other.pairs())
}

// Whether pairs say the same as others.
fn say_same_pairs(
    alloc: Global,
    pairs: &[SourcePair<'_>],
    others: &[SourcePair<'_>],
) -> Result<bool, Error>
    ensures same { IfOk result (λ same. same ≡ all_same says_same_pair pairs.now others.now) }
    ensures only { IsOkUnless result (Error.Memory alloc_error) }
{
    if pairs.len() != others.len() {
        return Ok(false);
    }
    for (i, pair) in pairs.iter().enumerate() {
        if !says_same_pair(alloc, pair, &others[i])? {
            return Ok(false);
        }
    }
    Ok(true)
}

// Whether a pair says the same as another.
fn says_same_pair(
    alloc: Global,
    pair: &SourcePair<'_>,
    other: &SourcePair<'_>,
) -> Result<bool, Error>
    ensures same { IfOk result (λ same. same ≡ says_same_pair pair.now other.now) }
    ensures only { IsOkUnless result (Error.Memory alloc_error) }
{
    if !is_same_text(pair.key(), other.key()) || !is_same_text(pair.value(), other.value()) {
        return Ok(false);
    }
    have_same_comments_behind(alloc, (pair, pair.after()), (other, other.after()))
}

/// Whether two pairs, each before such a rest, have the same comments behind their values.
pub(crate) fn have_same_comments_behind(
    alloc: Global,
    one: (&SourcePair<'_>, &str),
    other: (&SourcePair<'_>, &str),
) -> Result<bool, Error>
    ensures same { IfOk result (λ same. same
        ≡ is_text (comments_in (behind_value one.entry.0.now.stretches (chars one.entry.1.now)))
        (comments_in (behind_value other.entry.0.now.stretches (chars other.entry.1.now)))) }
    ensures only { IsOkUnless result (Error.Memory alloc_error) }
{
    let mut lines = String::new(alloc);
    one.0.push_behind_value(&mut lines, one.1)?;
    let mut others = String::new(alloc);
    other.0.push_behind_value(&mut others, other.1)?;
    have_same_comments(alloc, lines.as_str(), others.as_str())
}

/// Whether two gaps have the same comments.
pub(crate) fn have_same_comments(alloc: Global, gap: &str, other: &str) -> Result<bool, Error>
    ensures same { IfOk result (λ same. same
        ≡ is_text (comments_in (chars gap.now)) (comments_in (chars other.now))) }
    ensures only { IsOkUnless result (Error.Memory alloc_error) }
{
    let comments = comments_in(alloc, gap)?;
    let others = comments_in(alloc, other)?;
    Ok(is_same_text(comments.as_str(), others.as_str()))
}

// The comments of a gap, each after a line feed and without its line end.
fn comments_in(alloc: Global, gap: &str) -> Result<String, Error>
    ensures comments { IfOk result (λ comments. string_text comments ≡ comments_in (chars gap.now)) }
    ensures only { IsOkUnless result (Error.Memory alloc_error) }
{
    let mut comments = String::new(alloc);
    let mut rest = gap;
    let mut is_inside = false;
    'characters: while let Some((c, after)) = split_first(rest) {
        is_inside = push_comment_char(&mut comments, is_inside, c, after)?;
        rest = after;
    }
    Ok(comments)
}

// Appends what a character of a gap adds to the comments there, and answers whether a comment goes on after
// it.
fn push_comment_char(
    comments: &mut String,
    is_inside: bool,
    c: char,
    after: &str,
) -> Result<bool, Error>
    ensures pushed { IfOk result (λ inside. string_text comments.new ++ comments_from inside (chars after.now)
        ≡ string_text comments.old ++ comments_from is_inside (c ∷ chars after.now)) }
    ensures only { IsOkUnless result (Error.Memory alloc_error) }
{
    if is_inside {
        return push_inside(comments, c, after);
    }
    push_outside(comments, c)
}

// The same of a character outside of comments.
fn push_outside(comments: &mut String, c: char) -> Result<bool, Error>
    ensures pushed { IfOk result (λ inside. (cs : Text) → string_text comments.new ++ comments_from inside cs
        ≡ string_text comments.old ++ comments_from false (c ∷ cs)) }
    ensures only { IsOkUnless result (Error.Memory alloc_error) }
{
    if !is_comment_mark(c) {
        return Ok(false);
    }
    push(comments, '\n')?;
    push(comments, c)?;
    Ok(true)
}

// The same of a character of a comment.
fn push_inside(comments: &mut String, c: char, after: &str) -> Result<bool, Error>
    ensures pushed { IfOk result (λ inside. string_text comments.new ++ comments_from inside (chars after.now)
        ≡ string_text comments.old ++ comments_from true (c ∷ chars after.now)) }
    ensures only { IsOkUnless result (Error.Memory alloc_error) }
{
    if c == '\n' {
        return Ok(false);
    }
    if is_return_at_end(c, after) {
        return Ok(true);
    }
    push(comments, c)?;
    Ok(true)
}

// Whether a character is a CR that belongs to a comment's line end, or to the text's.
fn is_return_at_end(c: char, after: &str) -> bool
    ensures { result ≡ (c == carriage_return && (is_empty (chars after.now)
        || begins is_line_feed (chars after.now))) }
{
    c == '\r' && (is_empty(after) || begins_with_line_feed(after))
}
