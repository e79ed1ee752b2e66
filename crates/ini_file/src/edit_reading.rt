//! Changes read from the lines that tell them. This file knows texts, and no document and no device.
ghost use Rattle.std.specs.Prelude.{◌≡◌, ◌∷◌, ◌<◌, ◌^◌, ◌++◌, [], IfErr, IfOk, IfSome, MatchOption, OnOk};
ghost use Rattle.std.specs.Prelude.{chars, flat_map};
ghost use Rattle.std.specs.Prelude.{ℕ, List, Option, length, map};
ghost use Rattle.std.specs.Option.{option_map};
ghost use Rattle.ini.specs.Texts.{str_name};
ghost use Rattle.ini_layers.specs.Differences.{SettingChange, setting_change};
ghost use Rattle.ini_text.specs.Escaping.Policies.{is_basic};
ghost use Rattle.ini_text.specs.Parsing.Items.{string_text};
ghost use Rattle.ini_file.specs.EditLines.{AreReadAs, RefusesEdits, change_read, edit_before, edit_text};
ghost use Rattle.ini_file.specs.EditLines.{field_before, in_brackets, signed};
ghost use Rattle.ini_file.specs.Inside.EditReading.{AreParts, HasParts, IsEnd, RefusesEdit, RefusesField};
ghost use Rattle.ini_file.specs.Inside.EditReading.{RefusesName, RefusesNext, RefusesParts, RefusesValue};
ghost use Rattle.ini_file.specs.Inside.EditReading.{character_at, coded_at};
ghost use Rattle.ini_file.specs.Inside.EditReading.{escape_at, low_digit, named, numbered, spelled_low};

use ini_layers::Change;
use ini_text::{EscapePolicy, split_first, split_last};
use std::alloc::{AllocError, Global};

/// A change whose texts are its own.
#[derive(Debug, Drop)]
pub struct OwnedChange {
    /// The name of the setting's section; `None` is the general section's.
    pub name: Option<String>,
    /// Its key.
    pub key: String,
    /// Its value before; `None` where it wasn't there.
    pub old: Option<String>,
    /// Its value after; `None` where it isn't there.
    pub new: Option<String>,
}

impl OwnedChange {
    /// The change, lent.
    pub fn lent(&self) -> Change<'_>
        ensures { setting_change result ≡ change_read self.now }
    {
        Change {
            name: self.name.as_deref(),
            key: self.key.as_str(),
            old: self.old.as_deref(),
            new: self.new.as_deref(),
        }
    }
}

/// Why edits can't be read.
#[derive(Clone, Copy, Debug)]
pub enum EditsFault {
    /// The line of this number, counted from 1, is no edit.
    Line(usize),
    /// Memory was refused.
    Memory,
}

impl From<AllocError> for EditsFault {
    ghost use Rattle.std.specs.Prelude.{◌≡◌};
    ghost use Rattle.ini_file.specs.declared.edit_reading.EditsFault.TheVariants.{Memory};

    ghost from_gives = { λ _ fault. fault ≡ Memory };

    fn from(_: AllocError) -> EditsFault {
        EditsFault::Memory
    }
}

// Why an edit, or a part of one, isn't read.
#[derive(Clone, Copy)]
enum Stop {
    // Something else stands there.
    Other,
    // Memory was refused.
    Memory,
}

impl From<AllocError> for Stop {
    ghost use Rattle.std.specs.Prelude.{◌≡◌};
    ghost use Rattle.ini_file.specs.declared.edit_reading.Stop.TheVariants.{Memory};

    ghost from_gives = { λ _ stop. stop ≡ Memory };

    fn from(_: AllocError) -> Stop {
        Stop::Memory
    }
}

/// The changes that the lines of a text tell, each in the form that `edit_lines` writes, and no other.
///
/// # Errors
///
/// `Line` with the first line that is no edit, be it for one character; and out of memory.
pub fn read_edits(alloc: Global, text: &str) -> Result<Vec<OwnedChange>, EditsFault>
    ensures edits { IfOk result
        (λ read. chars text.now ≡ flat_map edit_text (map change_read read.items)) }
    ensures refused { IfErr result (RefusesEdits (chars text.now)) }
    ensures same { (changes : List SettingChange) → chars text.now ≡ flat_map edit_text changes
        → AreReadAs changes result }
{
    let mut edits = Vec::new(alloc);
    let mut rest = text;
    'edits: while let Some((edit, after)) = next_edit(alloc, rest, edits.len())? {
        edits.push(edit).map_err(AllocError::from)?;
        rest = after;
    }
    Ok(edits)
}

// The change that the first line tells, if there is a line, and what follows it. So many lines were read.
fn next_edit(
    alloc: Global,
    text: &str,
    before: usize,
) -> Result<Option<(OwnedChange, &str)>, EditsFault>
    requires { before < 2 ^ 63 }
    ensures edit { IfOk result (λ next. MatchOption next (chars text.now ≡ [])
        (λ read. chars text.now ≡ edit_before (change_read read.0) (chars read.1.now))) }
    ensures shorter { IfOk result (λ next. IfSome next (λ read. length read.1.now < length text.now)) }
    ensures refused { IfErr result (RefusesNext before (chars text.now)) }
{
    let Some(_) = split_first(text) else {
        return Ok(None);
    };
    match read_edit(alloc, text) {
        Ok((edit, after)) => Ok(Some((edit, after))),
        Err(Stop::Other) => Err(EditsFault::Line(before + 1)),
        Err(Stop::Memory) => Err(EditsFault::Memory),
    }
}

// The change that the first line tells, and what follows that line.
fn read_edit(alloc: Global, text: &str) -> Result<(OwnedChange, &str), Stop>
    ensures edit { IfOk result
        (λ read. chars text.now ≡ edit_before (change_read read.0) (chars read.1.now)) }
    ensures shorter { IfOk result (λ read. length read.1.now < length text.now) }
    ensures refused { IfErr result (RefusesEdit (chars text.now)) }
{
    let (parts, rest) = read_parts(alloc, text)?;
    let edit = edit_of(alloc, parts)?;
    Ok((edit, rest))
}

// The texts of an edit's four parts.
#[derive(Drop)]
struct Parts {
    name: String,
    key: String,
    old: String,
    new: String,
}

// The parts of the first line, and what follows that line.
fn read_parts(alloc: Global, text: &str) -> Result<(Parts, &str), Stop>
    ensures parts { IfOk result (λ read. AreParts (chars text.now) (string_text read.0.name)
        (string_text read.0.key) (string_text read.0.old) (string_text read.0.new) (chars read.1.now)) }
    ensures shorter { IfOk result (λ read. length read.1.now < length text.now) }
    ensures refused { IfErr result (RefusesEdit (chars text.now)) }
{
    let (name, rest) = read_field(alloc, text, '\t')?;
    let (key, rest) = read_field(alloc, rest, '\t')?;
    let (old, rest) = read_field(alloc, rest, '\t')?;
    let (new, rest) = read_field(alloc, rest, '\n')?;
    let parts = Parts {
        name,
        key,
        old,
        new,
    };
    Ok((parts, rest))
}

// The change that has these parts.
fn edit_of(alloc: Global, parts: Parts) -> Result<OwnedChange, Stop>
    ensures edit { IfOk result (λ edit. HasParts (string_text parts.name) (string_text parts.key)
        (string_text parts.old) (string_text parts.new) (change_read edit)) }
    ensures refused { IfErr result (RefusesParts (string_text parts.name) (string_text parts.key)
        (string_text parts.old) (string_text parts.new)) }
{
    let name = name_of(&parts.name)?;
    let old = value_of(&parts.old, '-')?;
    let new = value_of(&parts.new, '+')?;
    let name = owned(alloc, name)?;
    let old = owned(alloc, old)?;
    let new = owned(alloc, new)?;
    Ok(OwnedChange {
        name,
        key: parts.key,
        old,
        new,
    })
}

// The name in brackets that a text is, if it is one.
fn name_of(field: &String) -> Result<Option<&str>, Stop>
    ensures name { IfOk result (λ name. string_text field.now ≡ in_brackets (str_name name)) }
    ensures refused { IfErr result (RefusesName (string_text field.now)) }
{
    match name_in(field.as_str()) {
        Some(name) => Ok(name),
        None => Err(Stop::Other),
    }
}

// The value after the sign that a text is, if it is one.
fn value_of(field: &String, sign: char) -> Result<Option<&str>, Stop>
    ensures value { IfOk result (λ value. string_text field.now ≡ signed sign (str_name value)) }
    ensures refused { IfErr result (RefusesValue sign (string_text field.now)) }
{
    match value_in(field.as_str(), sign) {
        Some(value) => Ok(value),
        None => Err(Stop::Other),
    }
}

// A copy of a text that may be there.
fn owned(alloc: Global, text: Option<&str>) -> Result<Option<String>, AllocError>
    ensures { IfOk result (λ copy. option_map string_text copy ≡ str_name text.entry) }
{
    match text {
        Some(text) => Ok(Some(String::from_str(alloc, text)?)),
        None => Ok(None),
    }
}

// The name that stands in brackets; `None` of an empty text.
fn name_in(field: &str) -> Option<Option<&str>>
    ensures { MatchOption result
        ((name : Option (List ℕ)) → chars field.now ≡ in_brackets name → ⊥)
        (λ name. chars field.now ≡ in_brackets (str_name name)) }
{
    let Some((first, following)) = split_first(field) else {
        return Some(None);
    };
    let (name, last) = split_last(following)?;
    if first == '[' && last == ']' {
        Some(Some(name))
    } else {
        None
    }
}

// The value that stands after the sign; `None` of an empty text.
fn value_in(field: &str, sign: char) -> Option<Option<&str>>
    ensures { MatchOption result
        ((value : Option (List ℕ)) → chars field.now ≡ signed sign value → ⊥)
        (λ value. chars field.now ≡ signed sign (str_name value)) }
{
    let Some((first, value)) = split_first(field) else {
        return Some(None);
    };
    if first == sign {
        Some(Some(value))
    } else {
        None
    }
}

// The text that stands, escaped, before the first such end, and what follows that.
fn read_field(alloc: Global, text: &str, end: char) -> Result<(String, &str), Stop>
    requires { IsEnd end }
    ensures field { IfOk result
        (λ read. chars text.now ≡ field_before (string_text read.0) end (chars read.1.now)) }
    ensures shorter { IfOk result (λ read. length read.1.now < length text.now) }
    ensures refused { IfErr result (RefusesField end (chars text.now)) }
{
    let mut field = String::new(alloc);
    let mut rest = text;
    'characters: while let Some((c, after)) = character_at(rest) {
        push(&mut field, c)?;
        rest = after;
    }
    match after_end(rest, end) {
        Some(after) => Ok((field, after)),
        None => Err(Stop::Other),
    }
}

// What follows the end, if it stands first.
fn after_end(text: &str, end: char) -> Option<&str>
    ensures found { MatchOption result ((following : List ℕ) → chars text.now ≡ end ∷ following → ⊥)
        (λ after. chars text.now ≡ end ∷ chars after.now) }
    ensures shorter { IfSome result (λ after. length after.now < length text.now) }
{
    let (first, after) = split_first(text)?;
    if first == end { Some(after) } else { None }
}

// Puts a character last: std's call, with a clause that speaks of characters.
fn push(text: &mut String, c: char) -> Result<(), AllocError>
    ensures { OnOk result (string_text text.new ≡ string_text text.old ++ c ∷ []) }
{
    text.push(c)
}

// The character that stands first, as it is or as its escape, and what follows it.
fn character_at(text: &str) -> Option<(char, &str)>
    ensures character { option_map (λ p. (p.0, chars p.1.now)) result ≡ character_at (chars text.now) }
    ensures shorter { IfSome result (λ p. length p.1.now < length text.now) }
{
    let (c, after) = split_first(text)?;
    if c == '\\' {
        escape_at(after)
    } else if EscapePolicy::Basics.should_escape(c) {
        None
    } else {
        Some((c, after))
    }
}

// The character whose escape goes on here after a backslash, and what follows it.
fn escape_at(text: &str) -> Option<(char, &str)>
    ensures character { option_map (λ p. (p.0, chars p.1.now)) result ≡ escape_at (chars text.now) }
    ensures shorter { IfSome result (λ p. length p.1.now < length text.now) }
{
    let (letter, after) = split_first(text)?;
    if letter == 'x' {
        return coded_at(after);
    }
    let c = named(letter)?;
    Some((c, after))
}

// The character that a backslash and this letter stand for.
fn named(letter: char) -> Option<char>
    ensures { result ≡ named letter }
{
    match letter {
        '\\' => Some('\\'),
        '0' => Some('\0'),
        'a' => Some('\x07'),
        'b' => Some('\x08'),
        't' => Some('\t'),
        'n' => Some('\n'),
        'v' => Some('\x0B'),
        'f' => Some('\x0C'),
        'r' => Some('\r'),
        _ => None,
    }
}

// The character that four digits spell, and what follows them.
fn coded_at(text: &str) -> Option<(char, &str)>
    ensures character { option_map (λ p. (p.0, chars p.1.now)) result ≡ coded_at (chars text.now) }
    ensures shorter { IfSome result (λ p. length p.1.now < length text.now) }
{
    let (a, after) = split_first(text)?;
    let (b, after) = split_first(after)?;
    let (c, after) = split_first(after)?;
    let (d, after) = split_first(after)?;
    if a != '0' || b != '0' {
        return None;
    }
    let c = spelled_low(c, d)?;
    Some((char::from(c), after))
}

// The control character that two digits spell.
fn spelled_low(c: char, d: char) -> Option<u8>
    ensures value { result ≡ spelled_low c d }
{
    match (c, d) {
        ('0', _) => numbered(low_digit(d)?),
        ('1', _) => numbered(16 + low_digit(d)?),
        ('7', 'f') => Some(0x7F),
        _ => None,
    }
}

// What a hexadecimal digit stands for, in lower case.
fn low_digit(c: char) -> Option<u8>
    ensures value { result ≡ low_digit c }
    ensures bound { IfSome result (λ digit. digit < 16) }
{
    match c {
        '0'..='9' => Some(c as u8 - b'0'),
        'a'..='f' => Some(c as u8 - 0x57),
        _ => None,
    }
}

// The number, if a control character is written as it.
fn numbered(number: u8) -> Option<u8>
    ensures { result ≡ numbered number }
{
    match number {
        0x01..=0x06 | 0x0E..=0x1F => Some(number),
        _ => None,
    }
}
