//! Comments' marks. This file knows no element.
ghost use Rattle.std.specs.Prelude.{◌≡◌, chars};
ghost use Rattle.ini_text.specs.Grammar.CharacterKinds.{is_comment_mark};
ghost use Rattle.ini_text.specs.Grammar.CharacterKinds.{begins};

use ini_text::split_first;

/// Whether a text begins as a comment does.
pub(crate) fn begins_with_comment(text: &str) -> bool
    ensures { result ≡ begins is_comment_mark (chars text.now) }
{
    match split_first(text) {
        Some((c, _)) => c == '#' || c == ';',
        None => false,
    }
}
