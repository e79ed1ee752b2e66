//! A key's source: the white space around the key, and which keys can be written in any pair's place. This
//! file knows white space, and no element.
ghost use Rattle.std.specs.Prelude.{◌≡◌, ◌↔◌, ◌==◌, IsOkUnless, IsTrue, OnOk, alloc_error, chars};
ghost use Rattle.ini_text.specs.Parsing.Items.{string_text};
ghost use Rattle.ini_text.specs.declared.error.Error.TheVariants.{Memory};
ghost use Rattle.ini_text.specs.Grammar.CharacterKinds.{space};
ghost use Rattle.ini_text.specs.Grammar.CharacterKinds.{begins};
ghost use Rattle.ini_edit.specs.Inside.KeyEdges.{IsKeyStart, IsSkipped, IsWhiteEnd, PutsKey};
ghost use Rattle.ini_edit.specs.Renamed.{HasEdges, IsPlainBareKey, is_key_white};

use crate::append::push_text;
use crate::escape::push_escaped;
use ini_text::{
    Error, EscapePolicy, LoneLine, ParseOption, front_before, is_line_end, is_plain_pair,
    split_first,
};
use std::alloc::Global;

/// The white space around a key in its source.
#[derive(Debug, Clone, Copy)]
pub(crate) struct KeyEdges<'a> {
    /// What stands before the key; nothing where keys keep their leading white space, which is their own.
    pub indent: &'a str,
    /// What stands after the key; where keys end with their line, no line end: a backslash takes that into
    /// the key.
    pub pad: &'a str,
}

/// The white space around a key in its source.
pub(crate) fn key_edges<'a>(source: &'a str, read: ParseOption) -> KeyEdges<'a>
    ensures { HasEdges read (chars source.now) (chars result.indent.now) (chars result.pad.now) }
{
    let start = key_start(source, read);
    KeyEdges {
        indent: front_before(source, start),
        pad: white_end(start, read.line_without_separator),
    }
}

// The source from where the key begins.
fn key_start(source: &str, read: ParseOption) -> &str
    ensures { IsKeyStart read (chars source.now) (chars result.now) }
{
    if read.enabled_preserve_key_leading_whitespace {
        source
    } else {
        skip_white(source)
    }
}

// What follows the white space with which a text begins.
fn skip_white(text: &str) -> &str
    ensures { IsSkipped (chars text.now) (chars result.now) }
{
    let mut rest = text;
    'characters: while let Some((c, after)) = split_first(rest) {
        if !c.is_whitespace() {
            return rest;
        }
        rest = after;
    }
    rest
}

// The white space with which a text ends, after a key.
fn white_end(text: &str, line: LoneLine) -> &str
    ensures { IsWhiteEnd line (chars text.now) (chars result.now) }
{
    let mut white = text;
    let mut rest = text;
    'characters: while let Some((c, after)) = split_first(rest) {
        if !is_key_white(c, line) {
            white = after;
        }
        rest = after;
    }
    white
}

// Whether a character is white space that may stand after a key.
fn is_key_white(c: char, line: LoneLine) -> bool
    ensures { result ≡ is_key_white line c }
{
    match line {
        LoneLine::RunsOn => c.is_whitespace(),
        LoneLine::Refused | LoneLine::Key => c.is_whitespace() && !is_line_end(c),
    }
}

/// Whether a key that the policy writes in any pair's place is read back under these options: it is plain,
/// and no space begins it. Some other keys are read back too, where they stand.
pub fn is_plain_bare_key(key: &str, policy: EscapePolicy, read: ParseOption) -> bool
    ensures { IsTrue result ↔ IsPlainBareKey read policy (chars key.now) }
{
    is_plain_pair(key, "", policy, read) && !begins_with_space(key)
}

fn begins_with_space(key: &str) -> bool
    ensures { result ≡ begins (λ c. c == space) (chars key.now) }
{
    match split_first(key) {
        Some((c, _)) => c == ' ',
        None => false,
    }
}

/// Appends a key between the white space that stands around another one in its source.
pub(crate) fn push_key(
    alloc: Global,
    out: &mut String,
    source: &str,
    key: &str,
    policy: EscapePolicy,
    read: ParseOption,
) -> Result<(), Error>
    ensures only { IsOkUnless result (Memory alloc_error) }
    ensures put { OnOk result (PutsKey read policy (chars source.now) (chars key.now) (string_text out.old)
        (string_text out.new)) }
{
    let edges = key_edges(source, read);
    push_text(out, edges.indent)?;
    push_escaped(alloc, out, key, policy)?;
    push_text(out, edges.pad)?;
    Ok(())
}
