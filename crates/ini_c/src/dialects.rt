//! The options of a dialect, by its name. This file knows their numbers, and not what a name stands for.
ghost use Rattle.std.specs.Prelude.{◌≡◌, ◌∷◌, [], ◌↔◌, IfSome, IsSome, IsSomeAnd, IsTrue, Some};
ghost use Rattle.std.specs.Prelude.{false, nat_le};
ghost use Rattle.std.specs.Str.{IsUtf8};
ghost use Rattle.ini_text.specs.Options.WriteOptions.{line_end};
ghost use Rattle.ini_dialect.specs.Dialects.{dialect_of};
ghost use Rattle.ini_c.specs.Choices.{line_end_if, lone_line_of, policy_of, separator_of};
ghost use Rattle.ini_c.specs.Named.{HasNumber, HasOptions, TellsPreset, TellsReading, has_number};
ghost use Rattle.ini_c.specs.Statuses.{absent, is_among, not_utf8, ok};

use crate::options::{ReadChoice, Reading, WriteChoice};
use crate::{ABSENT, NOT_UTF8, OK};
use ini_dialect::Dialect;
use ini_text::{EscapePolicy, LineSeparator, LoneLine, ParseOption};

// The number of a policy.
fn policy_number(policy: EscapePolicy) -> u32
    ensures { policy_of result ≡ policy }
{
    match policy {
        EscapePolicy::Nothing => 0,
        EscapePolicy::Basics => 1,
        EscapePolicy::BasicsUnicode => 2,
        EscapePolicy::BasicsUnicodeExtended => 3,
        EscapePolicy::Reserved => 4,
        EscapePolicy::ReservedUnicode => 5,
        EscapePolicy::ReservedUnicodeExtended => 6,
        EscapePolicy::Everything => 7,
    }
}

// Whether lines end with CR LF.
fn is_crlf(separator: LineSeparator) -> bool
    ensures { line_end (line_end_if result) ≡ line_end separator }
{
    match separator {
        LineSeparator::CRLF => true,
        LineSeparator::SystemDefault | LineSeparator::CR => false,
    }
}

// The number of what stands between a key and its value, if it has one.
fn separator_number(separator: &str) -> Option<u32>
    ensures number { IfSome result (λ number. separator_of number ≡ separator.now) }
    ensures there { IsSome result ↔ IsTrue (has_number separator.now) }
{
    if separator == "=" {
        Some(0)
    } else if separator == " = " {
        Some(1)
    } else if separator == ":" {
        Some(2)
    } else if separator == ": " {
        Some(3)
    } else {
        None
    }
}

// The number of what becomes of a line without separator.
fn lone_line_number(line: LoneLine) -> u8
    ensures { lone_line_of result ≡ Some line }
{
    match line {
        LoneLine::RunsOn => 0,
        LoneLine::Refused => 1,
        LoneLine::Key => 2,
    }
}

// Tells the options, as many as the struct has.
fn tell_reading(options: ParseOption, reading: &mut Reading)
    ensures told { HasOptions reading.new options }
    ensures size { reading.new.size ≡ reading.old.size }
    ensures lone_lines_stay { nat_le 8 reading.old.size ≡ false →
        reading.new.lone_lines ≡ reading.old.lone_lines }
    ensures indented_comments_stay { nat_le 9 reading.old.size ≡ false →
        reading.new.indented_comments ≡ reading.old.indented_comments }
    ensures inline_comments_stay { nat_le 10 reading.old.size ≡ false →
        reading.new.inline_comments ≡ reading.old.inline_comments }
{
    reading.quotes = options.enabled_quote;
    reading.escapes = options.enabled_escape;
    reading.multiline = options.enabled_indented_mutiline_value;
    reading.keep_indentation = options.enabled_preserve_key_leading_whitespace;
    reading.brackets = options.enabled_brackets_in_section_names;
    reading.raw_backslash = options.enabled_raw_backslash;
    if reading.size >= 8 {
        reading.lone_lines = lone_line_number(options.line_without_separator);
    }
    if reading.size >= 9 {
        reading.indented_comments = u8::from(options.enabled_indented_comment);
    }
    if reading.size >= 10 {
        reading.inline_comments = u8::from(options.enabled_inline_comment);
    }
}

/// Tells how the files of a dialect are read, by all options that the struct has, and how lines are written
/// into them: `ABSENT` where no dialect has the name. Refused, the two options stay; the size always does,
/// and what it doesn't reach.
#[unsafe(no_mangle)]
pub extern "C" fn bigrosk_ini_dialect_by(
    name: &[u8],
    reading: &mut Reading,
    write: &mut WriteChoice,
) -> u32
    ensures told { result ≡ ok → IsSomeAnd (dialect_of name.now) (TellsReading reading.new write.new) }
    ensures not_utf8 { result ≡ not_utf8 ↔ ¬ (IsUtf8 name.now) }
    ensures absent { result ≡ absent → ¬ (IsSomeAnd (dialect_of name.now) HasNumber) }
    ensures reading_stays { ¬ (result ≡ ok) → reading.new ≡ reading.old }
    ensures write_stays { ¬ (result ≡ ok) → write.new ≡ write.old }
    ensures size { reading.new.size ≡ reading.old.size }
    ensures lone_lines_stay { nat_le 8 reading.old.size ≡ false →
        reading.new.lone_lines ≡ reading.old.lone_lines }
    ensures indented_comments_stay { nat_le 9 reading.old.size ≡ false →
        reading.new.indented_comments ≡ reading.old.indented_comments }
    ensures inline_comments_stay { nat_le 10 reading.old.size ≡ false →
        reading.new.inline_comments ≡ reading.old.inline_comments }
    ensures statuses { IsTrue (is_among result (ok ∷ absent ∷ not_utf8 ∷ [])) }
{
    let Ok(name) = str::from_utf8(name) else {
        return NOT_UTF8;
    };
    let Some(dialect) = Dialect::of_name(name) else {
        return ABSENT;
    };
    let Some(separator) = separator_number(dialect.write.kv_separator) else {
        return ABSENT;
    };
    tell_reading(dialect.read, reading);
    write.policy = policy_number(dialect.write.escape_policy);
    write.crlf = is_crlf(dialect.write.line_separator);
    write.separator = separator;
    OK
}

/// Tells the same by the five options of version 0.3.0.
#[unsafe(no_mangle)]
pub extern "C" fn bigrosk_ini_dialect(
    name: &[u8],
    read: &mut ReadChoice,
    write: &mut WriteChoice,
) -> u32
    ensures told { result ≡ ok → IsSomeAnd (dialect_of name.now) (TellsPreset read.new write.new) }
    ensures not_utf8 { result ≡ not_utf8 ↔ ¬ (IsUtf8 name.now) }
    ensures absent { result ≡ absent → ¬ (IsSomeAnd (dialect_of name.now) HasNumber) }
    ensures read_stays { ¬ (result ≡ ok) → read.new ≡ read.old }
    ensures write_stays { ¬ (result ≡ ok) → write.new ≡ write.old }
    ensures statuses { IsTrue (is_among result (ok ∷ absent ∷ not_utf8 ∷ [])) }
{
    let mut reading = Reading {
        size: 7,
        quotes: read.quotes,
        escapes: read.escapes,
        multiline: read.multiline,
        keep_indentation: read.keep_indentation,
        brackets: read.brackets,
        raw_backslash: false,
        lone_lines: 0,
        indented_comments: 0,
        inline_comments: 0,
    };
    let status = bigrosk_ini_dialect_by(name, &mut reading, write);
    read.quotes = reading.quotes;
    read.escapes = reading.escapes;
    read.multiline = reading.multiline;
    read.keep_indentation = reading.keep_indentation;
    read.brackets = reading.brackets;
    status
}
