//! Edits of a text that are none of `ini_edit`'s list: each is made in the text's pieces, under a rule. This
//! file knows no word of the program.
ghost use Rattle.std.specs.Prelude.{IfErr, IfOk, MatchOption, chars};
ghost use Rattle.ini.specs.Texts.{str_name};
ghost use Rattle.ini_text.specs.Parsing.Items.{string_text};
ghost use Rattle.ini_dialect.specs.KeyEdits.{RefusesToCommentOutUnder};
ghost use Rattle.ini_dialect.specs.RuledTexts.{LacksUnder, RefusesInText};
ghost use Rattle.ini_file.specs.Further.{HasNothingFurther, HasSectionText, IsCommentedText};
ghost use Rattle.ini_file.specs.Further.{IsFurtherChanged, IsFurtherText, RefusesFurther};
ghost use Rattle.ini_file.specs.Further.{RefusesFurtherText, RefusesSection, further_of};
ghost use Rattle.ini_file.specs.ValueLists.{HasValuesText, RefusesValues, texts_in};
ghost use Rattle.ini_file.specs.Writing.{word_of};

use crate::bytes::concat;
use crate::edit::gets_byte_order_mark;
use crate::uncomment::uncommented;
use crate::value_list::set_values;
use crate::writing::writing;
use ini_dialect::{AnyDocument, CaseRule, Lookup};
use ini_edit::{Edit, EditError, Source};
use ini_text::{ParseOption, WriteOption};
use ini_words::Options;
use std::alloc::Global;

/// An edit of a text that is none of `ini_edit`'s list. No name is the general section's.
#[derive(Clone, Copy)]
pub enum FurtherEdit<'a> {
    /// Each pair of the key that is looked at is taken out.
    DeleteAll {
        name: Option<&'a str>,
        key: &'a str,
    },
    /// The key has these values, in order, and no others.
    SetAll {
        name: Option<&'a str>,
        key: &'a str,
        values: &'a [String],
    },
    /// An empty section of the name is put in, where there is none.
    AddSection {
        name: &'a str,
    },
    /// The pair of the key that counts is made a comment.
    CommentOut {
        name: Option<&'a str>,
        key: &'a str,
    },
    /// The first comment that holds a pair of the key is made that pair.
    Uncomment {
        name: Option<&'a str>,
        key: &'a str,
    },
}

/// The bytes of a mark and of the text with the edit made in it under the rule; `None` where what it is about
/// isn't there.
///
/// # Errors
///
/// Those of the calls of pieces; `NoPlace` where a comment can't be made a pair; out of memory; and `Key`
/// where the file has no mark and the new text begins with U+FEFF, which would be its mark.
pub fn change_further(
    alloc: Global,
    rule: Lookup,
    options: Options,
    separator: Option<&str>,
    edit: FurtherEdit<'_>,
    byte_order_mark: &[u8],
    text: &str,
) -> Result<Option<Vec<u8>>, EditError>
    ensures changed { IfOk result (λ bytes. MatchOption bytes
        (HasNothingFurther rule options.reading (further_of edit.entry) (chars text.now))
        (λ bytes. IsFurtherChanged rule options (word_of separator.entry) (further_of edit.entry)
        byte_order_mark.now (chars text.now) bytes.items)) }
    ensures refused { IfErr result (RefusesFurther rule options (word_of separator.entry)
        (further_of edit.entry) byte_order_mark.now (chars text.now)) }
{
    let write = writing(alloc, options, separator)?;
    let Some(new) = further_text(alloc, rule, text, options.reading, &write, edit)? else {
        return Ok(None);
    };
    if gets_byte_order_mark(byte_order_mark, new.as_str()) {
        return Err(EditError::Key);
    }
    Ok(Some(concat(alloc, byte_order_mark, new.as_str())?))
}

// The text with the edit made in it; `None` where what it is about isn't there.
fn further_text(
    alloc: Global,
    rule: Lookup,
    text: &str,
    read: ParseOption,
    write: &WriteOption,
    edit: FurtherEdit<'_>,
) -> Result<Option<String>, EditError>
    ensures made { IfOk result (λ made. MatchOption made
        (HasNothingFurther rule read (further_of edit.entry) (chars text.now))
        (λ new. IsFurtherText rule read write.now (further_of edit.entry) (chars text.now)
        (string_text new))) }
    ensures refused { IfErr result
        (RefusesFurtherText rule read write.now (further_of edit.entry) (chars text.now)) }
{
    match edit {
        FurtherEdit::DeleteAll { name, key } => {
            rule.make_edit(alloc, text, read, write, Edit::Delete { name, key })
        }
        FurtherEdit::SetAll { name, key, values } => {
            Ok(Some(with_values(alloc, rule, text, read, write, name, key, values)?))
        }
        FurtherEdit::AddSection { name } => {
            Ok(Some(with_section(alloc, rule.case, text, read, write, name)?))
        }
        FurtherEdit::CommentOut { name, key } => {
            commented_out(alloc, rule, text, read, name, key)
        }
        FurtherEdit::Uncomment { name, key } => uncommented(alloc, rule, text, read, name, key),
    }
}

// The text in which the key has the values, and no others.
fn with_values(
    alloc: Global,
    rule: Lookup,
    text: &str,
    read: ParseOption,
    write: &WriteOption,
    name: Option<&str>,
    key: &str,
    values: &[String],
) -> Result<String, EditError>
    ensures made { IfOk result (λ new. HasValuesText rule read write.now (str_name name.entry)
        (chars key.now) (texts_in values.now) (chars text.now) (string_text new)) }
    ensures refused { IfErr result (RefusesInText read (chars text.now)
        (RefusesValues rule write.now (str_name name.entry) (chars key.now) (texts_in values.now))) }
{
    let mut source = Source::read(alloc, text, read)?;
    set_values(alloc, rule, write, &mut source, name, key, values)?;
    Ok(source.to_text(alloc)?)
}

// The text with a section of the name.
fn with_section(
    alloc: Global,
    case: CaseRule,
    text: &str,
    read: ParseOption,
    write: &WriteOption,
    name: &str,
) -> Result<String, EditError>
    ensures made { IfOk result (λ new. HasSectionText case read write.now (chars name.now) (chars text.now)
        (string_text new)) }
    ensures refused { IfErr result (RefusesInText read (chars text.now)
        (RefusesSection write.now (chars name.now))) }
{
    let mut source = Source::read(alloc, text, read)?;
    if !case.has_section(AnyDocument::Source(&source), Some(name)) {
        source.add_section(alloc, write, name)?;
    }
    Ok(source.to_text(alloc)?)
}

// The text in which the pair of the key that counts is a comment; `None` where there is none.
fn commented_out(
    alloc: Global,
    rule: Lookup,
    text: &str,
    read: ParseOption,
    name: Option<&str>,
    key: &str,
) -> Result<Option<String>, EditError>
    ensures made { IfOk result (λ made. MatchOption made
        (LacksUnder rule read (chars text.now) (str_name name.entry) (chars key.now))
        (λ new. IsCommentedText rule read (str_name name.entry) (chars key.now) (chars text.now)
        (string_text new))) }
    ensures refused { IfErr result (RefusesInText read (chars text.now)
        (RefusesToCommentOutUnder rule (str_name name.entry) (chars key.now))) }
{
    let mut source = Source::read(alloc, text, read)?;
    if rule.comment_out_in_source(alloc, &mut source, name, key)? {
        return Ok(Some(source.to_text(alloc)?));
    }
    Ok(None)
}
