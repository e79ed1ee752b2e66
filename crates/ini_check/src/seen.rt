//! What was seen of the elements before one: names, keys of the section, and whether a header's line goes on.
//! This file knows no trap but repetition.
ghost use Rattle.std.specs.Prelude.{◌≡◌, IfOk, IsOkUnless, OnOk, alloc_error, chars};
ghost use Rattle.ini_check.specs.Traps.Keys.{lower};
ghost use Rattle.ini_check.specs.Warnings.{and_lower, and_name, known, known_nothing, known_of};
ghost use Rattle.ini_check.specs.Warnings.{seen_after};
ghost use Rattle.ini_check.specs.Warnings.{seen_header, seen_key, seen_none, seen_nothing};

use crate::lower::lowered;
use crate::trap::keys::has_line_end;
use ini::Properties;
use ini_text::{Content, Error, PlacedElement, is_same_text};
use std::alloc::Global;

/// The elements before one. Names and keys stand as keys of pairs.
#[derive(Drop)]
pub(crate) struct Seen {
    /// The names of headers.
    pub(crate) names: Properties,
    /// Those that aren't in lower case, in it.
    pub(crate) lower_names: Properties,
    /// The keys of the section.
    pub(crate) keys: Properties,
    /// Those that aren't in lower case, in it.
    pub(crate) lower_keys: Properties,
    /// Whether the line of a header goes on.
    pub(crate) is_on_header_line: bool,
}

/// What is known of an element from those before it.
#[derive(Clone, Copy)]
pub(crate) struct Known {
    /// Its name, or its key, was there before.
    pub(crate) is_repeated: bool,
    /// Its name, or its key, was there before in another case alone.
    pub(crate) differs_in_case: bool,
    /// It stands on the line of a header.
    pub(crate) is_after_header: bool,
}

impl Seen {
    /// Nothing is seen yet.
    pub(crate) fn none(alloc: Global) -> Seen
        ensures { result ≡ seen_none }
    {
        Seen {
            names: Properties::new(alloc),
            lower_names: Properties::new(alloc),
            keys: Properties::new(alloc),
            lower_keys: Properties::new(alloc),
            is_on_header_line: false,
        }
    }

    /// Takes note of an element, and says what was known of it before.
    pub(crate) fn take_note(
        &mut self,
        alloc: Global,
        element: &PlacedElement,
    ) -> Result<Known, Error>
        ensures known { IfOk result (λ found. found ≡ known self.old element.now.content) }
        ensures seen { OnOk result (self.new
            ≡ seen_after self.old (chars element.now.source.now) element.now.content) }
        ensures only { IsOkUnless result (Error.Memory alloc_error) }
    {
        match &element.content {
            Content::Nothing => Ok(self.pass(element.source)),
            Content::Header(name) => self.note_header(alloc, name.as_str()),
            Content::Pair(pair) => self.note_key(alloc, pair.key.as_str()),
        }
    }

    // Goes over what gives nothing.
    fn pass(&mut self, source: &str) -> Known
        ensures known { result ≡ known_nothing }
        ensures seen { self.new ≡ seen_nothing self.old (chars source.now) }
    {
        self.is_on_header_line = self.is_on_header_line && !has_line_end(source);
        Known {
            is_repeated: false,
            differs_in_case: false,
            is_after_header: false,
        }
    }

    // Takes note of a header's name, after which the section has no keys yet.
    fn note_header(&mut self, alloc: Global, name: &str) -> Result<Known, Error>
        ensures known { IfOk result (λ found. found ≡ known_of (chars name.now) self.old.names
            self.old.lower_names self.old.is_on_header_line) }
        ensures seen { OnOk result (self.new ≡ seen_header self.old (chars name.now)) }
        ensures only { IsOkUnless result (Error.Memory alloc_error) }
    {
        let is_after_header = self.is_on_header_line;
        let known = note_text(
            alloc,
            &mut self.names,
            &mut self.lower_names,
            name,
            is_after_header,
        )?;
        self.keys = Properties::new(alloc);
        self.lower_keys = Properties::new(alloc);
        self.is_on_header_line = true;
        Ok(known)
    }

    // Takes note of a pair's key.
    fn note_key(&mut self, alloc: Global, key: &str) -> Result<Known, Error>
        ensures known { IfOk result (λ found. found ≡ known_of (chars key.now) self.old.keys
            self.old.lower_keys self.old.is_on_header_line) }
        ensures seen { OnOk result (self.new ≡ seen_key self.old (chars key.now)) }
        ensures only { IsOkUnless result (Error.Memory alloc_error) }
    {
        let is_after_header = self.is_on_header_line;
        self.is_on_header_line = false;
        note_text(
            alloc,
            &mut self.keys,
            &mut self.lower_keys,
            key,
            is_after_header,
        )
    }
}

// Takes note of a name, or of a key, among those before it, and says what was known of it.
fn note_text(
    alloc: Global,
    before: &mut Properties,
    lower_before: &mut Properties,
    text: &str,
    is_after_header: bool,
) -> Result<Known, Error>
    ensures known { IfOk result (λ found. found
        ≡ known_of (chars text.now) before.old lower_before.old is_after_header) }
    ensures before { OnOk result (before.new ≡ and_name before.old (chars text.now)) }
    ensures lower_before { OnOk result
        (lower_before.new ≡ and_lower lower_before.old (chars text.now)) }
    ensures only { IsOkUnless result (Error.Memory alloc_error) }
{
    let lower = lowered(alloc, text)?;
    let in_lower = lower.as_str();
    let known = known_of(before, lower_before, text, in_lower, is_after_header);
    before.append(text, "")?;
    note_lower(lower_before, text, in_lower)?;
    Ok(known)
}

// What is known of a name, or of a key, which is so in lower case, from those before it.
fn known_of(
    before: &Properties,
    lower_before: &Properties,
    text: &str,
    in_lower: &str,
    is_after_header: bool,
) -> Known
    requires in_lower { chars in_lower.now ≡ lower (chars text.now) }
    ensures { result ≡ known_of (chars text.now) before.now lower_before.now is_after_header }
{
    let is_repeated = before.contains_key(text);
    let is_like_one = before.contains_key(in_lower);
    let is_like_other = lower_before.contains_key(in_lower);
    Known {
        is_repeated,
        differs_in_case: !is_repeated && (is_like_one || is_like_other),
        is_after_header,
    }
}

// Takes note of a name, or of a key, in lower case, if it isn't so.
fn note_lower(lower_before: &mut Properties, text: &str, in_lower: &str) -> Result<(), Error>
    requires in_lower { chars in_lower.now ≡ lower (chars text.now) }
    ensures lower_before { OnOk result
        (lower_before.new ≡ and_lower lower_before.old (chars text.now)) }
    ensures only { IsOkUnless result (Error.Memory alloc_error) }
{
    if is_same_text(in_lower, text) {
        return Ok(());
    }
    lower_before.append(in_lower, "")?;
    Ok(())
}
