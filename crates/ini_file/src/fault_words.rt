//! The refusals of a text in words for people. This file knows no text.
ghost use Rattle.std.specs.Prelude.{◌≡◌};
ghost use Rattle.ini_file.specs.FaultWords.{fault_words};

use ini::ParseKind;

/// What is wrong, in words for people.
pub fn fault_words(kind: ParseKind) -> &'static str
    ensures { result.now ≡ fault_words kind }
{
    match kind {
        ParseKind::EndOfText => "the text ends within this",
        ParseKind::BrokenEscape => "a backslash stands among the four digits after \\x",
        ParseKind::UnknownCharacter => "no character has these four digits after \\x",
        ParseKind::InlineComment => "a comment begins only at the front of a line",
        ParseKind::MissingKey => "no key stands before this",
        ParseKind::CrAlone => "among the lines of a value a CR has no LF after it",
        ParseKind::HeaderEnd => "the line of a section's name doesn't end in ]",
        ParseKind::NoSeparator => "this key has no = or : after it in its line",
    }
}
