//! The warnings of one element. This file knows its places and its traps, and no other element.
ghost use Rattle.std.specs.Prelude.{◌≡◌, ◌++◌, ◌+◌, chars, drop, IsOkUnless, OnOk, Some, alloc_error};
ghost use Rattle.std.specs.Prelude.{length};
ghost use Rattle.ini_check.specs.Traps.Values.{space_of};
ghost use Rattle.ini.specs.Texts.{Text};
ghost use Rattle.ini_text.specs.Grammar.Places.{pair_source};
ghost use Rattle.ini_text.specs.Parsing.Places.{HasPlaces, stretches_of};
ghost use Rattle.ini_check.specs.Warnings.{Adds, ElementWarns, HeaderWarns, PairWarns, after_key_warnings};
ghost use Rattle.ini_check.specs.Warnings.{header_traps, key_traps};
ghost use Rattle.ini_check.specs.Warnings.{nothing_warnings, separator_trap, value_traps, value_warnings};
ghost use Rattle.ini_check.specs.Inside.Positions.{HasRoom, IsAt};

use crate::note::{warn_all, warn_character, warn_comment, warn_where, warn_within};
use crate::position::Position;
use crate::seen::Known;
use crate::trap::keys::{
    begins_like_comment, colon_separates, comment_runs_on, has_escape, has_key_escape,
    has_line_end, has_value_escape, is_empty, is_unplain, mark_begins_key, runs_on,
};
use crate::trap::lines::is_list;
use crate::trap::lost_lines::{begins_with_mark, drops_line};
use crate::trap::values::{has_comment_mark, has_odd_space, value_of};
use crate::warning::{Trap, Warning};
use ini_text::{
    Content, Error, EscapePolicy, ParseOption, PlacedElement, PlacedPair, is_plain_name,
    is_plain_pair, split_first,
};

/// Puts an element's warnings last; what is known of it from the elements before it is given.
pub(crate) fn warn_element(
    warnings: &mut Vec<Warning>,
    position: Position,
    element: &PlacedElement,
    known: Known,
    read: ParseOption,
) -> Result<(), Error>
    requires room { HasRoom (length (chars element.now.source.now)) position }
    requires places { (b : Text) × ((r : Text)
        × HasPlaces read b (chars element.now.source.now) r element.now.content) }
    ensures warned { OnOk result ((b : Text) → IsAt b position
        → Adds (ElementWarns read b known (chars element.now.source.now) element.now.content)
        warnings.old.items warnings.new.items) }
    ensures only { IsOkUnless result (Error.Memory alloc_error) }
{
    match &element.content {
        Content::Nothing => warn_nothing(warnings, position, element.source),
        Content::Header(name) => {
            warn_header(
                warnings,
                position,
                element.source,
                name.as_str(),
                known,
                read,
            )
        }
        Content::Pair(pair) => warn_pair(warnings, position, element.source, pair, known, read),
    }
}

// Of an element that gives nothing.
fn warn_nothing(warnings: &mut Vec<Warning>, position: Position, source: &str) -> Result<(), Error>
    requires room { HasRoom (length (chars source.now)) position }
    ensures warned { OnOk result ((b : Text) → IsAt b position
        → Adds (λ ws. ws ≡ nothing_warnings b (chars source.now))
        warnings.old.items warnings.new.items) }
    ensures only { IsOkUnless result (Error.Memory alloc_error) }
{
    if begins_with_mark(source) {
        warn_comment(warnings, position, source)?;
        return Ok(());
    }
    let is_dropped = drops_line(source);
    let ends = position.advance(source);
    warn_where(warnings, position, ends, is_dropped, Trap::DroppedLine)?;
    Ok(())
}

fn warn_header(
    warnings: &mut Vec<Warning>,
    position: Position,
    source: &str,
    name: &str,
    known: Known,
    read: ParseOption,
) -> Result<(), Error>
    requires room { HasRoom (length (chars source.now)) position }
    ensures warned { OnOk result ((b : Text) → IsAt b position
        → Adds (HeaderWarns read b known (chars source.now) (chars name.now))
        warnings.old.items warnings.new.items) }
    ensures only { IsOkUnless result (Error.Memory alloc_error) }
{
    let is_plain = is_plain_name(name, EscapePolicy::Basics, read);
    let traps = header_traps(read.enabled_escape, known, source, name, is_plain);
    warn_all(warnings, position, position.advance(source), &traps)?;
    Ok(())
}

// The traps of a header.
fn header_traps(
    escapes: bool,
    known: Known,
    source: &str,
    name: &str,
    is_plain: bool,
) -> [(bool, Trap); 7]
    ensures { result ≡ header_traps escapes known (chars source.now) (chars name.now) is_plain }
{
    [
        (known.is_after_header, Trap::AfterHeader),
        (has_line_end(source), Trap::UnclosedBracket),
        (is_empty(name), Trap::EmptyName),
        (has_escape(escapes, true, source), Trap::EscapeInName),
        (known.is_repeated, Trap::RepeatedSection),
        (known.differs_in_case, Trap::SectionCase),
        (is_unplain(escapes, is_plain, false), Trap::NotPlain),
    ]
}

fn warn_pair(
    warnings: &mut Vec<Warning>,
    position: Position,
    source: &str,
    pair: &PlacedPair,
    known: Known,
    read: ParseOption,
) -> Result<(), Error>
    requires room { HasRoom (length (chars source.now)) position }
    requires source { chars source.now ≡ pair_source (stretches_of pair.now.places) }
    ensures warned { OnOk result ((b : Text) → IsAt b position
        → Adds (PairWarns read b known pair.now) warnings.old.items warnings.new.items) }
    ensures only { IsOkUnless result (Error.Memory alloc_error) }
{
    let (key, value) = (pair.key.as_str(), pair.value.as_str());
    let is_plain = is_plain_pair(key, value, EscapePolicy::Basics, read);
    let key = pair.places.key;
    let traps = key_traps(read.enabled_escape, known, key, is_plain);
    let after_key = position.advance(key);
    warn_all(warnings, position, after_key, &traps)?;
    let Some(separator) = pair.places.separator else {
        return Ok(());
    };
    let value_source = after_separator(source, key);
    warn_after_key(warnings, after_key, key, separator, value_source, read)?;
    Ok(())
}

// Of a separator, which stands here, and of what stands after it.
fn warn_after_key(
    warnings: &mut Vec<Warning>,
    position: Position,
    key: &str,
    separator: char,
    source: &str,
    read: ParseOption,
) -> Result<(), Error>
    requires room { HasRoom (1 + length (chars source.now)) position }
    ensures warned { OnOk result ((b : Text) → IsAt b position → warnings.new.items
        ≡ warnings.old.items
        ++ after_key_warnings read b (chars key.now) (Some separator) (chars source.now)) }
    ensures only { IsOkUnless result (Error.Memory alloc_error) }
{
    let trap = separator_trap(read, key, separator, source);
    warn_character(warnings, position, separator, trap)?;
    warn_value(warnings, position.after(separator), key, source, read)?;
    Ok(())
}

/// What stands in a pair's source after its key and the separator.
pub(crate) fn after_separator<'a>(source: &'a str, key: &str) -> &'a str
    ensures { chars result.now ≡ drop 1 (drop (length (chars key.now)) (chars source.now)) }
{
    match split_first(after_front(source, key)) {
        Some((_, after)) => after,
        None => "",
    }
}

// What stands in a text after as many characters as a front has.
fn after_front<'a>(text: &'a str, front: &str) -> &'a str
    ensures { chars result.now ≡ drop (length (chars front.now)) (chars text.now) }
{
    let mut rest = text;
    let mut passed = front;
    'characters: while let Some((_, more)) = split_first(passed) {
        let Some((_, after)) = split_first(rest) else {
            return rest;
        };
        rest = after;
        passed = more;
    }
    rest
}

// The traps of a pair's key.
fn key_traps(escapes: bool, known: Known, source: &str, is_plain: bool) -> [(bool, Trap); 8]
    ensures { result ≡ key_traps escapes known (chars source.now) is_plain }
{
    let is_comment = begins_like_comment(source);
    [
        (known.is_after_header, Trap::AfterHeader),
        (runs_on(source), Trap::RunsOn),
        (comment_runs_on(source), Trap::CommentRunsOn),
        (mark_begins_key(source), Trap::MarkBeginsKey),
        (has_key_escape(escapes, source), Trap::EscapeInKey),
        (known.is_repeated, Trap::RepeatedKey),
        (known.differs_in_case, Trap::KeyCase),
        (is_unplain(escapes, is_plain, is_comment), Trap::NotPlain),
    ]
}

// The trap of a pair's separator, before this source.
fn separator_trap(read: ParseOption, key: &str, separator: char, source: &str) -> Option<Trap>
    ensures { result ≡ separator_trap read (chars key.now) separator (chars source.now) }
{
    if colon_separates(read, key, separator, source) {
        Some(Trap::ColonSeparates)
    } else {
        None
    }
}

// Of a pair's value, by what stands here, after the separator: of the whole, and then of each of its places.
fn warn_value(
    warnings: &mut Vec<Warning>,
    position: Position,
    key: &str,
    source: &str,
    read: ParseOption,
) -> Result<(), Error>
    requires room { HasRoom (length (chars source.now)) position }
    ensures warned { OnOk result ((b : Text) → IsAt b position → warnings.new.items
        ≡ warnings.old.items
        ++ value_warnings read (b ++ space_of (chars source.now)) (chars key.now) (chars source.now)) }
    ensures only { IsOkUnless result (Error.Memory alloc_error) }
{
    let value = value_of(source);
    let begins = position.over_space(source);
    let traps = value_traps(source, read);
    warn_all(warnings, begins, begins.over_line(value), &traps)?;
    let is_list = is_list(key, value);
    warn_within(warnings, begins, value, is_list, read)?;
    Ok(())
}

// The traps of a pair's value as a whole, by what stands after the separator.
fn value_traps(source: &str, read: ParseOption) -> [(bool, Trap); 3]
    ensures { result ≡ value_traps read (chars source.now) }
{
    let value = value_of(source);
    [
        (has_value_escape(read, value), Trap::Escape),
        (has_comment_mark(read, value), Trap::MarkInValue),
        (has_odd_space(read, source), Trap::OddSpace),
    ]
}
