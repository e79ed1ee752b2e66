//! New pairs in a text in pieces. This file knows sections by their calls, and how pairs are written.
ghost use Rattle.std.specs.Prelude.{◌≡◌, [], IfErr, IfOk, OnErr, OnOk, chars};
ghost use Rattle.std.specs.Option.{option_map};
ghost use Rattle.ini.specs.Texts.{str_name};
ghost use Rattle.ini_text.specs.Laws.Plain.{IsPlainSeparator};
ghost use Rattle.ini_text.specs.Parsing.Items.{string_text};
ghost use Rattle.ini_edit.specs.Inside.SourceEnds.{style_at, style_in, style_of};
ghost use Rattle.ini_edit.specs.SourceEditsAdded.{InsertsAfter, InsertsBefore, IsAddedIn, RefusesAdding};
ghost use Rattle.ini_edit.specs.SourceEditsAdded.{RefusesToInsert};
ghost use Rattle.ini_edit.specs.SourceWritten.{IsFirstReadAs, IsWritableNew, RefusesNew, value_forms};

use crate::error::EditError;
use crate::source::Source;
use crate::source::written::{NewPair, PairStyle, first_form, option_style};
use ini_text::{ParseOption, WriteOption, is_plain_pair, is_plain_separator};
use std::alloc::Global;

impl<'a> Source<'a> {
    /// Adds a pair to the first section of a name, whatever pairs of the key are there; where there is no
    /// such section, in a new one, as `add_section` makes one. No name is the general section's.
    ///
    /// The pair stands in a line of its own, directly after the section's last pair. In a section without
    /// pairs that is after the header and the comments directly below it. In the general one it is after the
    /// comments at the text's front where an empty line ends these, else at the front.
    ///
    /// The pair is indented, and its separator has the blanks, as those of the last pair before it in the
    /// section that begins a line, else of the text's last one; else the options say. Its value is written
    /// in the first form that is read back: bare, in double quotes, in single quotes. The line ends with CR
    /// LF or LF, whichever is the first in the text, and where it has neither, as the options say.
    ///
    /// # Errors
    ///
    /// `Separator`, `Value` or `Key`, in this order, where that can't be written; then, where a section is
    /// new, `Name` where the name can't be written; `NoPlace` where values are multiline, and a key that the
    /// text's end cuts short leaves no place; `Text` where memory is refused. Nothing is changed then.
    pub fn add(
        &mut self,
        alloc: Global,
        write: &WriteOption,
        name: Option<&str>,
        key: &str,
        value: &str,
    ) -> Result<(), EditError>
        ensures added { OnOk result (IsAddedIn self.old.option write.now self.old self.new
            (str_name name.entry)
            (chars key.now) (chars value.now)) }
        ensures unchanged { OnErr result (self.new ≡ self.old) }
        ensures refused { IfErr result (RefusesAdding self.old.option write.now self.old.sections
            (str_name name.entry)
            (chars key.now) (chars value.now)) }
    {
        let read = self.option;
        let raw_value = checked_pair(alloc, key, value, read, write)?;
        let end = self.line_end(write.line_separator);
        let Some(section) = self.position(name) else {
            let name = name.ok_or(EditError::Name)?;
            let style = self.style(self.sections.len(), 0, write);
            let pair = NewPair::new(alloc, style, key, value, raw_value, write.escape_policy)?;
            self.add_new_section(alloc, write.escape_policy, end, name, Some(pair))?;
            return Ok(());
        };
        let pairs = self.sections[section].pairs().len();
        let style = self.style(section, pairs, write);
        let pair = NewPair::new(alloc, style, key, value, raw_value, write.escape_policy)?;
        let is_last = section + 1 == self.sections.len();
        self.sections[section].insert_last(alloc, pair, is_last, end, read)?;
        Ok(())
    }

    /// Puts a pair directly after the first pair of the key `place` in the first section of a name: whether
    /// there is that pair. It is written as `add` writes it.
    ///
    /// # Errors
    ///
    /// `Separator`, `Value` or `Key`, in this order, where that can't be written, whatever the text is;
    /// `Text` where memory is refused. Nothing is changed then.
    pub fn insert_after(
        &mut self,
        alloc: Global,
        write: &WriteOption,
        name: Option<&str>,
        place: &str,
        key: &str,
        value: &str,
    ) -> Result<bool, EditError>
        ensures inserted { IfOk result (InsertsAfter self.old.option write.now self.old self.new
            (str_name name.entry)
            (chars place.now) (chars key.now) (chars value.now) 0) }
        ensures unchanged { OnErr result (self.new ≡ self.old) }
        ensures writable { OnOk result (IsWritableNew self.old.option write.now (chars key.now)
            (chars value.now)) }
        ensures refused { IfErr result (RefusesNew self.old.option write.now (chars key.now)
            (chars value.now)) }
    {
        self.insert_after_nth(alloc, write, name, place, 0, key, value)
    }

    // The same after the pair of the key `place` before which so many others of the key stand.
    pub(crate) fn insert_after_nth(
        &mut self,
        alloc: Global,
        write: &WriteOption,
        name: Option<&str>,
        place: &str,
        n: usize,
        key: &str,
        value: &str,
    ) -> Result<bool, EditError>
        ensures inserted { IfOk result (InsertsAfter self.old.option write.now self.old self.new
            (str_name name.entry)
            (chars place.now) (chars key.now) (chars value.now) n) }
        ensures unchanged { OnErr result (self.new ≡ self.old) }
        ensures writable { OnOk result (IsWritableNew self.old.option write.now (chars key.now)
            (chars value.now)) }
        ensures refused { IfErr result (RefusesNew self.old.option write.now (chars key.now)
            (chars value.now)) }
    {
        let read = self.option;
        let raw_value = checked_pair(alloc, key, value, read, write)?;
        let Some((section, index)) = self.place(name, place, n) else {
            return Ok(false);
        };
        let end = self.line_end(write.line_separator);
        let before = self.sections[section].index_after(index);
        let style = self.style(section, before, write);
        let pair = NewPair::new(alloc, style, key, value, raw_value, write.escape_policy)?;
        self.sections[section].insert_after(alloc, index, pair, end, read)?;
        Ok(true)
    }

    /// Puts a pair before the first pair of the key `place` in the first section of a name, and before the
    /// comments that stand directly above that: whether there is that pair. It is written as `add` writes
    /// it.
    ///
    /// # Errors
    ///
    /// Those of `insert_after`; and `NoPlace` where values are multiline and that pair is indented with no
    /// comment above it, so that it would go on with a value before it. Nothing is changed then.
    pub fn insert_before(
        &mut self,
        alloc: Global,
        write: &WriteOption,
        name: Option<&str>,
        place: &str,
        key: &str,
        value: &str,
    ) -> Result<bool, EditError>
        ensures inserted { IfOk result (InsertsBefore self.old.option write.now self.old self.new
            (str_name name.entry)
            (chars place.now) (chars key.now) (chars value.now)) }
        ensures unchanged { OnErr result (self.new ≡ self.old) }
        ensures writable { OnOk result (IsWritableNew self.old.option write.now (chars key.now)
            (chars value.now)) }
        ensures refused { IfErr result (RefusesToInsert self.old.option write.now self.old.sections
            (str_name name.entry) (chars place.now) (chars key.now) (chars value.now)) }
    {
        let read = self.option;
        let raw_value = checked_pair(alloc, key, value, read, write)?;
        let Some((section, index)) = self.place(name, place, 0) else {
            return Ok(false);
        };
        let end = self.line_end(write.line_separator);
        let front = self.last_before(section);
        let style = self.style(section, index, write);
        let pair = NewPair::new(alloc, style, key, value, raw_value, write.escape_policy)?;
        self.sections[section].insert_before(alloc, front, index, pair, end, read)?;
        Ok(true)
    }

    /// How a pair before the one at the index in a section is written.
    pub(crate) fn style(&self, section: usize, index: usize, write: &WriteOption) -> PairStyle<'_>
        requires { IsPlainSeparator (chars write.now.kv_separator.now) }
        ensures { style_of result ≡ style_at self.now.option write.now self.now.sections section index }
    {
        let read = self.option;
        if let Some(style) = self.style_in(section, index, read) {
            return style;
        }
        let mut left = self.sections.len();
        'sections: while let Some(before) = left.checked_sub(1) {
            let pairs = self.sections[before].pairs().len();
            if let Some(style) = self.style_in(before, pairs, read) {
                return style;
            }
            left = before;
        }
        option_style(write)
    }

    // How the last pair before the index is written that begins a line of a section.
    fn style_in(&self, section: usize, index: usize, read: ParseOption) -> Option<PairStyle<'_>>
        ensures { option_map style_of result ≡ style_in read self.now.sections section index }
    {
        if section >= self.sections.len() {
            return None;
        }
        let front = self.last_before(section);
        let here = &self.sections[section];
        let before = index.min(here.pairs().len());
        here.style_before(front, before, read)
    }
}

/// The raw value of a pair that can be written.
pub(crate) fn checked_pair(
    alloc: Global,
    key: &str,
    value: &str,
    read: ParseOption,
    write: &WriteOption,
) -> Result<String, EditError>
    ensures form { IfOk result (λ source. IsFirstReadAs read (chars value.now)
        (value_forms write.now.escape_policy [] (chars value.now)) (string_text source)) }
    ensures writable { OnOk result (IsWritableNew read write.now (chars key.now) (chars value.now)) }
    ensures refused { IfErr result (RefusesNew read write.now (chars key.now) (chars value.now)) }
{
    if !is_plain_separator(write.kv_separator) {
        return Err(EditError::Separator);
    }
    let Some(raw_value) = first_form(alloc, "", value, write.escape_policy, read)? else {
        return Err(EditError::Value);
    };
    if !is_plain_pair(key, "", write.escape_policy, read) {
        return Err(EditError::Key);
    }
    Ok(raw_value)
}

/// Whether a new pair can be written.
pub(crate) fn check_pair(
    alloc: Global,
    key: &str,
    value: &str,
    read: ParseOption,
    write: &WriteOption,
) -> Result<(), EditError>
    ensures writable { OnOk result (IsWritableNew read write.now (chars key.now) (chars value.now)) }
    ensures refused { IfErr result (RefusesNew read write.now (chars key.now) (chars value.now)) }
{
    let raw_value = checked_pair(alloc, key, value, read, write)?;
    drop(raw_value);
    Ok(())
}
