//! How the lines of a text end. This file knows LF and CR, and no element.
ghost use Rattle.std.specs.Prelude.{◌≡◌, ◌≢◌, ◌↔◌, ◌∷◌, ◌++◌, [], true, chars, MatchOption};
ghost use Rattle.ini.specs.Texts.{Text};
ghost use Rattle.ini_edit.specs.NewSections.{EmptyLine, EndsEmpty};

use ini_text::{LineSeparator, is_column_one, split_last};

/// The empty line that goes before a new section after a front.
pub(crate) fn empty_line(front: &str, end: LineSeparator) -> &'static str
    ensures { EmptyLine end (chars front.now) (chars result.now) }
{
    if ends_empty(front) {
        return "";
    }
    end.as_str()
}

// Whether a front is empty, or an empty line stands last in it.
fn ends_empty(front: &str) -> bool
    ensures { (result ≡ true) ↔ EndsEmpty (chars front.now) }
{
    let Some(line) = without_last(front, '\n') else {
        return is_empty(front);
    };
    match without_last(line, '\r') {
        Some(line) => is_column_one(line),
        None => is_column_one(line),
    }
}

fn is_empty(text: &str) -> bool
    ensures { (result ≡ true) ↔ (chars text.now ≡ []) }
{
    split_last(text).is_none()
}

// A text without its last character, if it ends with this one.
fn without_last(text: &str, c: char) -> Option<&str>
    ensures { MatchOption result ((V : Text) → chars text.now ≢ V ++ c ∷ [])
        (λ before. chars text.now ≡ chars before.now ++ c ∷ []) }
{
    let (before, last) = split_last(text)?;
    if last == c {
        return Some(before);
    }
    None
}
