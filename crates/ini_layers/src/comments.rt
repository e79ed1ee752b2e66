//! The comments of a text, as the values of a document. This file knows the text by its calls.
ghost use Rattle.std.specs.Prelude.{◌≡◌, ◌++◌, ◌∷◌, ℕ, [], IfOk, IsOkUnless, OnOk, alloc_error, chars};
ghost use Rattle.ini_layers.specs.Comments.{comment_of, commented, commented_pairs};

use ini::{Error, Ini, Properties};
use ini_edit::{Source, SourceSection};
use std::alloc::Global;

/// A document in which each pair of the text has the comment lines directly above it for a value, as
/// `Source::comment_at` has them. What differs between two of these, flattened under a rule, is which
/// comments differ. Refused when out of memory alone.
pub fn commented(alloc: Global, source: &Source<'_>) -> Result<Ini, Error>
    ensures commented { IfOk result (λ document. document ≡ commented source.now) }
    ensures only_memory { IsOkUnless result (Error.Memory alloc_error) }
{
    let mut document = Ini::new(alloc)?;
    document.clear();
    for (index, section) in source.sections().iter().enumerate() {
        push_section(alloc, source, index, section, &mut document)?;
    }
    Ok(document)
}

// Puts a section last, the one of the text that has this index.
fn push_section(
    alloc: Global,
    source: &Source<'_>,
    index: usize,
    section: &SourceSection<'_>,
    document: &mut Ini,
) -> Result<(), Error>
    ensures put { OnOk result (document.new ≡ document.old ++ (
      section.now.name,
      commented_pairs (comment_of source.now.sections index) 0 section.now.pairs,
    ) ∷ []) }
    ensures only_memory { IsOkUnless result (Error.Memory alloc_error) }
{
    let mut pairs = Properties::new(alloc);
    for (place, pair) in section.pairs().iter().enumerate() {
        pairs.append(pair.key(), comment_of(source, index, place))?;
    }
    let name = match section.name() {
        Some(name) => Some(String::from_str(alloc, name)?),
        None => None,
    };
    document.append_section(name, pairs)?;
    Ok(())
}

// The comment lines directly above the pair at these indices.
fn comment_of<'s>(source: &'s Source<'_>, section: usize, pair: usize) -> &'s str
    ensures { chars result.now ≡ comment_of source.now.sections section pair }
{
    match source.comment_at(section, pair) {
        Some(comment) => comment,
        None => "",
    }
}
