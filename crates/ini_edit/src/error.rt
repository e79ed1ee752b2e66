//! Why a text isn't edited. This file knows no text.
ghost use Rattle.std.specs.Prelude.{◌≡◌, alloc_error};

use ini_text::Error as TextError;
use std::alloc::AllocError;
use std::fmt;

/// Why a text isn't edited. Whatever the reason, the text that was handed in is as it was.
#[derive(Debug, Drop)]
pub enum EditError {
    /// The text is refused, with line and column; or memory is.
    Text(TextError),
    /// The name of a new section isn't plain: written, it wouldn't be read back just as it is.
    Name,
    /// The key of a new pair isn't plain.
    Key,
    /// The value, written, wouldn't be read back.
    Value,
    /// The separator of a new pair isn't plain.
    Separator,
    /// A new line can be put in nowhere: where it belongs the text's end cuts an indented key short, and a
    /// multiline value would take that in.
    NoPlace,
}

/// Prints the text's fault as it prints, or the refusal in words of its own.
impl fmt::Display for EditError {
    ghost use Rattle.ini_edit.specs.Messages.{words_of};

    ghost output = { words_of };

    fn fmt<W: fmt::Write>(&self, f: &mut fmt::Formatter<W>) -> fmt::Result {
        match self {
            EditError::Text(TextError::Parse(fault)) => write!(f, "{fault}"),
            EditError::Text(TextError::Memory(_)) => f.write_str("out of memory"),
            EditError::Text(refusal) => write!(f, "{refusal}"),
            EditError::Name => f.write_str("this name can't be written so that it is read back"),
            EditError::Key => f.write_str("this key can't be written so that it is read back"),
            EditError::Value => f.write_str("this value can't be written so that it is read back"),
            EditError::Separator => {
                f.write_str("this separator can't be written so that it is read back")
            }
            EditError::NoPlace => f.write_str(
                "an indented key that the text's end cuts short leaves no place for a new line",
            ),
        }
    }
}

impl std::error::Error for EditError {}

impl From<TextError> for EditError {
    ghost use Rattle.ini_edit.specs.declared.error.EditError.TheVariants.{Text};

    ghost from_gives = { λ refused e. e ≡ Text refused };

    fn from(refused: TextError) -> EditError {
        EditError::Text(refused)
    }
}

impl From<AllocError> for EditError {
    ghost use Rattle.ini_edit.specs.declared.error.EditError.TheVariants.{Text};
    ghost use Rattle.ini_text.specs.declared.error.Error.TheVariants.{Memory};

    ghost from_gives = { λ _ e. e ≡ Text (Memory alloc_error) };

    fn from(refused: AllocError) -> EditError {
        EditError::Text(TextError::from(refused))
    }
}
