//! A list of values as one text, one value a line, and back. This file knows texts and the values of a key.
ghost use Rattle.std.specs.Prelude.{◌≡◌, [], ◌∷◌, ◌++◌, IfOk, OnOk, Some, chars, map};
ghost use Rattle.std.specs.Option.{option_map};
ghost use Rattle.ini_text.specs.Grammar.CharacterKinds.{line_feed};
ghost use Rattle.ini.specs.Properties.{texts_of, values};
ghost use Rattle.ini.specs.Texts.{str_text, text_of};
ghost use Rattle.ini_dialect.specs.Lists.{list_text, list_values, listed_character, listed_value, meant};
ghost use Rattle.ini_dialect.specs.Lists.{with_line};

use crate::coding::push_character;
use ini::Properties;
use ini_text::split_first;
use std::alloc::{AllocError, Global};

/// The list of these values as one text: one a line, in which a backslash stands for itself after another,
/// and a line feed is `\n`. `None` where there are none. Refused when out of memory.
pub fn list_text(alloc: Global, values: &[&str]) -> Result<Option<String>, AllocError>
    ensures { IfOk result (λ list. option_map text_of list ≡ list_text (map str_text values.now)) }
{
    let mut list = None;
    for value in values {
        list = Some(with_line(alloc, list, value)?);
    }
    Ok(list)
}

// The list of a key's values.
pub(crate) fn list_in(
    alloc: Global,
    section: &Properties,
    key: &str,
) -> Result<Option<String>, AllocError>
    ensures { IfOk result (λ list. option_map text_of list ≡ list_text (values (chars key.now) section.now)) }
{
    let mut list = None;
    for value in section.get_all(key) {
        list = Some(with_line(alloc, list, value)?);
    }
    Ok(list)
}

// A value more, after those that may be there.
fn with_line(alloc: Global, list: Option<String>, value: &str) -> Result<String, AllocError>
    ensures { IfOk result (λ lines. Some (text_of lines)
        ≡ with_line (option_map text_of list) (chars value.now)) }
{
    let mut lines = match list {
        Some(before) => ended(before)?,
        None => String::new(alloc),
    };
    push_listed(&mut lines, value)?;
    Ok(lines)
}

// Lines with a line feed after them.
fn ended(lines: String) -> Result<String, AllocError>
    ensures { IfOk result (λ ended. text_of ended ≡ text_of lines ++ line_feed ∷ []) }
{
    let mut ended = lines;
    push_character(&mut ended, '\n')?;
    Ok(ended)
}

// Puts a value last.
fn push_listed(lines: &mut String, value: &str) -> Result<(), AllocError>
    ensures { OnOk result (text_of lines.new ≡ text_of lines.old ++ listed_value (chars value.now)) }
{
    let mut rest = value;
    'characters: while let Some((character, after)) = split_first(rest) {
        push_listed_character(lines, character)?;
        rest = after;
    }
    Ok(())
}

// Puts a character of a value last.
fn push_listed_character(lines: &mut String, character: char) -> Result<(), AllocError>
    ensures { OnOk result (text_of lines.new ≡ text_of lines.old ++ listed_character character) }
{
    match character {
        '\\' => push_two(lines, '\\', '\\'),
        '\n' => push_two(lines, '\\', 'n'),
        _ => push_character(lines, character),
    }
}

fn push_two(lines: &mut String, first: char, second: char) -> Result<(), AllocError>
    ensures { OnOk result (text_of lines.new ≡ text_of lines.old ++ first ∷ second ∷ []) }
{
    push_character(lines, first)?;
    push_character(lines, second)
}

/// The values of a list that `list_text` wrote, in order. In another text a backslash before a character that
/// it doesn't mark is left out, and one at the end stands for itself. Refused when out of memory.
pub fn list_values(alloc: Global, list: &str) -> Result<Vec<String>, AllocError>
    ensures { IfOk result (λ values. texts_of values.items ≡ list_values (chars list.now)) }
{
    let mut values = Vec::new(alloc);
    let mut value = String::new(alloc);
    let mut is_after_backslash = false;
    let mut rest = list;
    'characters: while let Some((character, after)) = split_first(rest) {
        if is_after_backslash {
            push_character(&mut value, meant(character))?;
            is_after_backslash = false;
        } else if character == '\\' {
            is_after_backslash = true;
        } else if character == '\n' {
            values.push(value)?;
            value = String::new(alloc);
        } else {
            push_character(&mut value, character)?;
        }
        rest = after;
    }
    if is_after_backslash {
        push_character(&mut value, '\\')?;
    }
    values.push(value)?;
    Ok(values)
}

// What stands after a backslash.
fn meant(character: char) -> char
    ensures { result ≡ meant character }
{
    if character == 'n' { '\n' } else { character }
}
