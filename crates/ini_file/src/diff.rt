//! The change of a file's bytes as a unified diff without context. This file knows bytes and their lines,
//! and no device.
ghost use Rattle.std.specs.Prelude.{◌≡◌, ◌≤◌, ◌<◌, ◌^◌, ◌++◌, IfOk, IsOkUnless, OnOk, alloc_error, flat_map};
ghost use Rattle.std.specs.Prelude.{length, option_map, string_bytes};
ghost use Rattle.ini_text.specs.declared.error.Error.TheVariants.{Memory};
ghost use Rattle.ini_file.specs.Diffs.{DifferFirst, DifferLast, IsDiff, IsDiffBetween, hunk, hunk_head};
ghost use Rattle.ini_file.specs.Diffs.{hunk_where, lines_of, signed_line};
ghost use Rattle.ini_file.specs.Inside.Shared.{ShareFirst, ShareLast};

use crate::lines::{count_lines, split_first_line, split_last_line};
use ini::Error;
use std::alloc::Global;

/// The diff of the bytes that a file of this name has, and of those that it is to have: one hunk, which
/// `patch` takes; nothing where the bytes are the same. Where there is no file, it is reported as
/// `/dev/null`. Refused only when out of memory.
pub fn diff(alloc: Global, name: &str, old: Option<&[u8]>, new: &[u8]) -> Result<Vec<u8>, Error>
    ensures diff { IfOk result
        (λ diff. IsDiff name.now (option_map (λ b. b.now) old.entry) new.now diff.items) }
    ensures only { IsOkUnless result (Memory alloc_error) }
{
    match old {
        Some(old) => change(alloc, name, name, old, new),
        None => change(alloc, "/dev/null", name, b"", new),
    }
}

// The diff of old bytes, which have one name, and new ones, which have another.
fn change(alloc: Global, from: &str, to: &str, old: &[u8], new: &[u8]) -> Result<Vec<u8>, Error>
    ensures diff { IfOk result (λ diff. IsDiffBetween from.now to.now old.now new.now diff.items) }
    ensures only { IsOkUnless result (Memory alloc_error) }
{
    let (first, removed, added) = skip_first(old, new);
    let (removed, added) = skip_last(removed, added);
    let diff = hunk_of(alloc, from, to, first, removed, added)?;
    Ok(diff)
}

// The hunk after so many first lines, of the lines that go and those that come; nothing where there is none.
fn hunk_of(
    alloc: Global,
    from: &str,
    to: &str,
    first: usize,
    removed: &[u8],
    added: &[u8],
) -> Result<Vec<u8>, Error>
    requires { first < 2 ^ 63 }
    ensures hunk { IfOk result (λ diff. diff.items
        ≡ hunk_where from.now to.now first (lines_of removed.now) (lines_of added.now)) }
    ensures only { IsOkUnless result (Memory alloc_error) }
{
    let (removals, additions) = (count_lines(removed), count_lines(added));
    if removals == 0 && additions == 0 {
        return Ok(Vec::new(alloc));
    }
    write_hunk(alloc, from, to, first, removed, added)
}

// The hunk after so many first lines.
fn write_hunk(
    alloc: Global,
    from: &str,
    to: &str,
    first: usize,
    removed: &[u8],
    added: &[u8],
) -> Result<Vec<u8>, Error>
    requires { first < 2 ^ 63 }
    ensures hunk { IfOk result (λ diff. diff.items
        ≡ hunk from.now to.now first (lines_of removed.now) (lines_of added.now)) }
    ensures only { IsOkUnless result (Memory alloc_error) }
{
    let mut diff = Vec::new(alloc);
    let head = head_of(
        alloc,
        from,
        to,
        first,
        count_lines(removed),
        count_lines(added),
    )?;
    diff.extend_from_slice(head.as_bytes())?;
    add_signed_lines(&mut diff, b'-', removed)?;
    add_signed_lines(&mut diff, b'+', added)?;
    Ok(diff)
}

// How many first lines two texts share, and what follows these.
fn skip_first<'a>(old: &'a [u8], new: &'a [u8]) -> (usize, &'a [u8], &'a [u8])
    ensures shared { ShareFirst old.now new.now result.0 result.1.now result.2.now }
    ensures longest { DifferFirst (lines_of result.1.now) (lines_of result.2.now) }
    ensures count { result.0 ≤ length old.now }
{
    let mut count = 0;
    let mut removed = old;
    let mut added = new;
    'lines: while let (Some((one, after_one)), Some((other, after_other))) = (
        split_first_line(removed),
        split_first_line(added),
    ) {
        if one != other {
            break;
        }
        count += 1;
        removed = after_one;
        added = after_other;
    }
    (count, removed, added)
}

// What stands before the last lines that two texts share.
fn skip_last<'a>(old: &'a [u8], new: &'a [u8]) -> (&'a [u8], &'a [u8])
    ensures shared { ShareLast old.now new.now result.0.now result.1.now }
    ensures longest { DifferLast (lines_of result.0.now) (lines_of result.1.now) }
{
    let mut removed = old;
    let mut added = new;
    'lines: while let (Some((before_one, one)), Some((before_other, other))) = (
        split_last_line(removed),
        split_last_line(added),
    ) {
        if one != other {
            break;
        }
        removed = before_one;
        added = before_other;
    }
    (removed, added)
}

// The lines that stand before those of a hunk.
fn head_of(
    alloc: Global,
    from: &str,
    to: &str,
    first: usize,
    removed: usize,
    added: usize,
) -> Result<String, Error>
    requires { first < 2 ^ 63 }
    ensures head { IfOk result (λ head. string_bytes head ≡ hunk_head from.now to.now first removed added) }
    ensures only { IsOkUnless result (Memory alloc_error) }
{
    let removed_at = if removed == 0 { first } else { first + 1 };
    let added_at = if added == 0 { first } else { first + 1 };
    Ok(format!(in alloc;
        "--- {from}\n+++ {to}\n@@ -{removed_at},{removed} +{added_at},{added} @@\n"
    )?)
}

// Adds lines, each after the sign.
fn add_signed_lines(diff: &mut Vec<u8>, sign: u8, lines: &[u8]) -> Result<(), Error>
    ensures put { OnOk result (diff.new.items
        ≡ diff.old.items ++ flat_map (signed_line sign) (lines_of lines.now)) }
    ensures only { IsOkUnless result (Memory alloc_error) }
{
    let mut rest = lines;
    'lines: while let Some((line, following)) = split_first_line(rest) {
        add_signed_line(diff, sign, line)?;
        rest = following;
    }
    Ok(())
}

// Adds a line after the sign.
fn add_signed_line(diff: &mut Vec<u8>, sign: u8, line: &[u8]) -> Result<(), Error>
    ensures put { OnOk result (diff.new.items ≡ diff.old.items ++ signed_line sign line.now) }
    ensures only { IsOkUnless result (Memory alloc_error) }
{
    diff.push(sign)?;
    diff.extend_from_slice(line)?;
    if !line.contains(&b'\n') {
        diff.extend_from_slice(b"\n\\ No newline at end of file\n")?;
    }
    Ok(())
}
