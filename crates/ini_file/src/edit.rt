//! A file's bytes with an edit made in their text. This file knows no word of the program.
ghost use Rattle.std.specs.Prelude.{◌≡◌, IfErr, IfOk, MatchOption, OnOk, [], chars, false, true};
ghost use Rattle.ini_text.specs.Parsing.ByteOrderMarks.{has_byte_order_mark};
ghost use Rattle.ini_edit.specs.Editings.{editing_of};
ghost use Rattle.ini_text.specs.Parsing.Items.{string_text};
ghost use Rattle.ini_file.specs.Edits.{HasNothingBy, HasWritableWords, IsChanged, IsMadeBy, RefusesEdit};
ghost use Rattle.ini_file.specs.Edits.{RefusesMadeBy};
ghost use Rattle.ini_dialect.specs.Rules.{is_own};
ghost use Rattle.ini_file.specs.Writing.{word_of};

use crate::bytes::concat;
use crate::writing::writing;
use ini_dialect::Lookup;
use ini_edit::{Edit, EditError, make_edit};
use ini_text::{ParseOption, WriteOption, has_byte_order_mark};
use ini_words::Options;
use std::alloc::Global;

/// The bytes of a mark and of the text with the edit made in it under the rule; `None` where what it is about
/// isn't there. The separator stands between key and value of a new line.
///
/// # Errors
///
/// Those of `ini_edit`'s `make_edit`, under another rule than the crate's own those of the rule's, and out of
/// memory; and `Key` where the file has no mark and the new text begins with U+FEFF. That would be its mark,
/// so the key there wouldn't be read back.
pub fn change(
    alloc: Global,
    rule: Lookup,
    options: Options,
    separator: Option<&str>,
    edit: Edit<'_>,
    byte_order_mark: &[u8],
    text: &str,
) -> Result<Option<Vec<u8>>, EditError>
    ensures changed { IfOk result (λ bytes. MatchOption bytes
        (HasNothingBy (is_own rule) rule options.reading (editing_of edit.entry) (chars text.now))
        (λ bytes. IsChanged rule options (word_of separator.entry) (editing_of edit.entry)
        byte_order_mark.now (chars text.now) bytes.items)) }
    ensures writable { OnOk result (HasWritableWords (is_own rule) options.reading options.escape_policy
        (editing_of edit.entry)) }
    ensures refused { IfErr result (RefusesEdit rule options (word_of separator.entry)
        (editing_of edit.entry) byte_order_mark.now (chars text.now)) }
{
    let write = writing(alloc, options, separator)?;
    let own = rule.is_own();
    let Some(new) = made_by(alloc, own, rule, text, options.reading, &write, edit)? else {
        return Ok(None);
    };
    if gets_byte_order_mark(byte_order_mark, new.as_str()) {
        return Err(EditError::Key);
    }
    Ok(Some(concat(alloc, byte_order_mark, new.as_str())?))
}

// The text with the edit made in it under the rule, which may be the crate's own; `None` where what it is
// about isn't there.
fn made_by(
    alloc: Global,
    own: bool,
    rule: Lookup,
    text: &str,
    read: ParseOption,
    write: &WriteOption,
    edit: Edit<'_>,
) -> Result<Option<String>, EditError>
    ensures made { IfOk result (λ made. MatchOption made
        (HasNothingBy own rule read (editing_of edit.entry) (chars text.now))
        (λ new. IsMadeBy own rule read write.now (editing_of edit.entry) (chars text.now)
        (string_text new))) }
    ensures writable { OnOk result (HasWritableWords own read write.now.escape_policy
        (editing_of edit.entry)) }
    ensures refused { IfErr result
        (RefusesMadeBy own rule read write.now (editing_of edit.entry) (chars text.now)) }
{
    if own {
        make_edit(alloc, text, read, write, edit)
    } else {
        rule.make_edit(alloc, text, read, write, edit)
    }
}

/// Whether a file that has no mark, if it has none, gets one from the text.
pub fn gets_byte_order_mark(byte_order_mark: &[u8], text: &str) -> bool
    ensures yes { result ≡ true → (byte_order_mark.now ≡ []) × (has_byte_order_mark text.now ≡ true) }
    ensures no { result ≡ false → byte_order_mark.now ≡ [] → has_byte_order_mark text.now ≡ false }
{
    byte_order_mark.is_empty() && has_byte_order_mark(text.as_bytes())
}
