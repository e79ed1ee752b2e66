//! Comments above keys of a text in pieces, copied out and set, and pairs made comments.
ghost use Rattle.std.specs.Prelude.{◌≡◌, ◌∷◌, [], ◌≤◌, ◌↔◌, IfErr, IfOk, IsSome, IsSomeAnd, IsTrue, None};
ghost use Rattle.std.specs.Prelude.{Some, length, slice_get, take, true};
ghost use Rattle.std.specs.Option.{option_and_then, option_map};
ghost use Rattle.std.specs.Str.{IsUtf8, chars};
ghost use Rattle.ini_edit.specs.SourceEditsComments.{CommentsOut, RefusesComment, RefusesToCommentOut};
ghost use Rattle.ini_edit.specs.SourceEditsComments.{SetsComment};
ghost use Rattle.ini_edit.specs.SourcePlaces.{pair_place};
ghost use Rattle.ini_edit.specs.declared.error.EditError.TheVariants.{NoPlace, Value};
ghost use Rattle.ini_c.specs.Held.{pieces_of};
ghost use Rattle.ini_c.specs.LookUps.{AreTexts, name_if, utf8_of};
ghost use Rattle.ini_c.specs.Statuses.{absent, is_among, no_document, no_memory, no_place, no_room};
ghost use Rattle.ini_c.specs.Statuses.{not_utf8, ok, unplain_value};
ghost use Rattle.ini_c.specs.Texts.{Asks, Changes, comments_in};

use crate::copies::{give, pair_of, place_of};
use crate::document::Text;
use crate::options::WriteChoice;
use crate::{ABSENT, NO_DOCUMENT, NO_MEMORY, NO_PLACE, NOT_UTF8, OK, UNPLAIN_VALUE};
use ini_edit::{EditError, Source};
use std::alloc::Global;

// The comment lines directly above the first pair of the key in the first section of the name; where there is
// no such pair, the status.
fn comment_at<'a>(
    source: &'a Source<'_>,
    named: bool,
    section: &[u8],
    key: &[u8],
) -> Result<&'a str, u32>
    ensures texts { IfOk result (λ comment. AreTexts section.now key.now) }
    ensures bytes { IfOk result (λ comment. utf8_of (comments_in (name_if named section.now) (chars key.now)
        source.now) ≡ Some comment.now) }
    ensures not_utf8 { IfErr result (λ status. status ≡ not_utf8 ↔ ¬ (AreTexts section.now key.now)) }
    ensures absent { IfErr result (λ status. status ≡ absent →
        comments_in (name_if named section.now) (chars key.now) source.now ≡ None) }
    ensures statuses { IfErr result (λ status. IsTrue (is_among status (absent ∷ not_utf8 ∷ []))) }
{
    let Some((name, key)) = place_of(named, section, key) else {
        return Err(NOT_UTF8);
    };
    match source.comment_of(name, key) {
        Some(comment) => Ok(comment),
        None => Err(ABSENT),
    }
}

/// Copies the comment lines out that stand directly above the first pair of the key in the first section
/// of the name, with their marks and line ends, and a 0 after them; no bytes where none stand there.
/// `count` is their number of bytes, where they fit and where they don't.
#[unsafe(no_mangle)]
pub extern "C" fn bigrosk_ini_text_comment(
    text: &mut Text,
    named: bool,
    section: &[u8],
    key: &[u8],
    out: &mut [u8],
    count: &mut usize,
) -> u32
    ensures stays { pieces_of text.new ≡ pieces_of text.old }
    ensures no_document { result ≡ no_document ↔ (pieces_of text.old ≡ None) }
    ensures not_utf8 { result ≡ not_utf8 ↔
        (IsSome (pieces_of text.old) × ¬ (AreTexts section.now key.now)) }
    ensures absent { result ≡ absent → option_and_then
        (comments_in (name_if named section.now) (chars key.now)) (pieces_of text.old) ≡ None }
    ensures comment { result ≡ ok → utf8_of (option_and_then
        (comments_in (name_if named section.now) (chars key.now)) (pieces_of text.old))
        ≡ Some (take count.new out.new) }
    ensures zero { result ≡ ok → slice_get out.new count.new ≡ Some 0 }
    ensures count { result ≡ no_room → option_map length (utf8_of (option_and_then
        (comments_in (name_if named section.now) (chars key.now)) (pieces_of text.old)))
        ≡ Some count.new }
    ensures no_room { result ≡ no_room → length out.old ≤ count.new }
    ensures rest { ¬ (result ≡ ok) → out.new ≡ out.old }
    ensures statuses { IsTrue (is_among result (ok ∷ absent ∷ no_room ∷ not_utf8 ∷ no_document ∷ [])) }
{
    let Some(tied) = text.tied() else {
        return NO_DOCUMENT;
    };
    tied.with_both(&mut (out, count), |source, (out, count)| {
        match comment_at(source, named, section, key) {
            Ok(comment) => give(comment, *out, *count),
            Err(status) => status,
        }
    })
}

/// Puts comment lines directly above the first pair of the key in the first section of the name, in place
/// of those that stand there. Each line begins with `;` or `#` and ends with LF; the last one gets a line
/// end where it has none. No bytes take the comments out.
///
/// `UNPLAIN_VALUE` where a line isn't a comment, whatever the text is; `NO_PLACE` where values are
/// multiline and without its comment the pair would go on with the value before it.
#[unsafe(no_mangle)]
pub extern "C" fn bigrosk_ini_text_set_comment(
    alloc: Global,
    text: &mut Text,
    write: &WriteChoice,
    named: bool,
    section: &[u8],
    key: &[u8],
    comment: &[u8],
) -> u32
    ensures no_document { result ≡ no_document ↔ (pieces_of text.old ≡ None) }
    ensures not_utf8 { result ≡ not_utf8 ↔
        (IsSome (pieces_of text.old) × ¬ (AreTexts section.now key.now × IsUtf8 comment.now)) }
    ensures set { result ≡ ok → Changes
        (λ old new. Asks write.now (λ w. SetsComment old.option w old new
        (name_if named section.now) (chars key.now) (chars comment.now) true))
        (pieces_of text.old) (pieces_of text.new) }
    ensures absent { result ≡ absent → IsSomeAnd (pieces_of text.old)
        (λ p. pair_place (name_if named section.now) (chars key.now) 0 p.sections ≡ None) }
    ensures unplain_value { result ≡ unplain_value → IsSomeAnd (pieces_of text.old)
        (λ p. Asks write.now (λ w. RefusesComment p.option w p.sections
        (name_if named section.now) (chars key.now) (chars comment.now) Value)) }
    ensures no_place { result ≡ no_place → IsSomeAnd (pieces_of text.old)
        (λ p. Asks write.now (λ w. RefusesComment p.option w p.sections
        (name_if named section.now) (chars key.now) (chars comment.now) NoPlace)) }
    ensures unchanged { ¬ (result ≡ ok) → pieces_of text.new ≡ pieces_of text.old }
    ensures statuses { IsTrue (is_among result (ok ∷ absent ∷ not_utf8 ∷ no_memory ∷ no_document
        ∷ unplain_value ∷ no_place
        ∷ [])) }
{
    let Some(tied) = text.tied() else {
        return NO_DOCUMENT;
    };
    tied.with(|source| {
        let Some((name, key, comment)) = pair_of(named, section, key, comment) else {
            return NOT_UTF8;
        };
        let option = write.to_option();
        match source.set_comment(alloc, &option, name, key, comment) {
            Ok(true) => OK,
            Ok(false) => ABSENT,
            Err(EditError::Value) => UNPLAIN_VALUE,
            Err(EditError::NoPlace) => NO_PLACE,
            Err(_) => NO_MEMORY,
        }
    })
}

/// Makes the first pair of the key in the first section of the name a comment, each of its lines after `;
/// `.
///
/// `NO_PLACE` where the pair isn't in column one, or a CR alone ends its line: no comment may stand there.
#[unsafe(no_mangle)]
pub extern "C" fn bigrosk_ini_text_comment_out(
    alloc: Global,
    text: &mut Text,
    named: bool,
    section: &[u8],
    key: &[u8],
) -> u32
    ensures no_document { result ≡ no_document ↔ (pieces_of text.old ≡ None) }
    ensures not_utf8 { result ≡ not_utf8 ↔
        (IsSome (pieces_of text.old) × ¬ (AreTexts section.now key.now)) }
    ensures commented { result ≡ ok → Changes
        (λ old new. CommentsOut old.option old new
        (name_if named section.now) (chars key.now) true)
        (pieces_of text.old) (pieces_of text.new) }
    ensures absent { result ≡ absent → IsSomeAnd (pieces_of text.old)
        (λ p. pair_place (name_if named section.now) (chars key.now) 0 p.sections ≡ None) }
    ensures no_place { result ≡ no_place → IsSomeAnd (pieces_of text.old)
        (λ p. RefusesToCommentOut p.option p.sections (name_if named section.now) (chars key.now) NoPlace) }
    ensures unchanged { ¬ (result ≡ ok) → pieces_of text.new ≡ pieces_of text.old }
    ensures statuses { IsTrue (is_among result (ok ∷ absent ∷ not_utf8 ∷ no_memory ∷ no_document ∷ no_place
        ∷ [])) }
{
    let Some(tied) = text.tied() else {
        return NO_DOCUMENT;
    };
    tied.with(|source| {
        let Some((name, key)) = place_of(named, section, key) else {
            return NOT_UTF8;
        };
        match source.comment_out(alloc, name, key) {
            Ok(true) => OK,
            Ok(false) => ABSENT,
            Err(EditError::NoPlace) => NO_PLACE,
            Err(_) => NO_MEMORY,
        }
    })
}
