//! What is refused, and why. This file knows no grammar, and of devices their faults alone.
ghost use Rattle.std.specs.Prelude.{◌≡◌, ◌≤◌, Some, alloc_error};

use std::alloc::{AllocError, AllocFailed};
use std::borrow::CowStr;
use std::io::ErrorKind;
use std::{fmt, io};
use thiserror::Error;

/// What is wrong where reading a text stops.
#[derive(Clone, Copy, PartialEq, Eq, Debug)]
pub enum ParseKind {
    /// The text ends within a name, a key, quotes or an escape; where keys may stand alone, an empty key.
    EndOfText,
    /// Among the four units of `\x`, a backslash is followed by a character other than LF.
    BrokenEscape,
    /// The four units of `\x` spell no character.
    UnknownCharacter,
    /// `;` or `#` stands where an item may begin, but not in column one, nor, with indented comments, where a
    /// line starts.
    InlineComment,
    /// A separator follows an empty key; where keys may stand alone, a line end.
    MissingKey,
    /// In a multiline value, CR without LF stands in the place of an empty line.
    CrAlone,
    /// With brackets in names, a header's line does not end in `]`.
    HeaderEnd,
    /// Where lines without separator are refused, a line ends before one.
    NoSeparator,
}

/// Where and why reading a text stopped.
///
/// The place is the one after the character that was looked at, or after the last one where the text
/// ended. Lines and columns count from 1, and columns count characters. LF alone ends a line here; CR
/// counts as a character.
#[derive(Debug, Drop)]
pub struct ParseError {
    /// The line of the place.
    pub line: usize,
    /// The column of the place, which is after the character that was looked at: `=v` is refused at 1:2.
    pub col: usize,
    /// The fault in words, always a constant.
    pub msg: CowStr<'static>,
    /// What is wrong, for a program to tell refusals apart.
    pub kind: ParseKind,
    pub ghost line_counts_from_one: { 1 ≤ line },
    pub ghost column_counts_from_one: { 1 ≤ col },
}

/// Prints the line, a colon, the column, a space and the message.
impl fmt::Display for ParseError {
    ghost use Rattle.ini_text.specs.Errors.ErrorForms.{printed_fault};

    ghost output = { λ e. Some (printed_fault e) };

    fn fmt<W: fmt::Write>(&self, f: &mut fmt::Formatter<W>) -> fmt::Result {
        write!(f, "{}:{} {}", self.line, self.col, self.msg)
    }
}

impl std::error::Error for ParseError {}

/// Every refusal of reading, editing and writing.
#[derive(Debug, Drop, Error)]
pub enum Error {
    /// A device answered a fault.
    #[error(transparent)]
    Io(#[from] io::Error),
    /// The text breaks the grammar.
    #[error(transparent)]
    Parse(#[from] ParseError),
    /// Memory was refused.
    #[error("out of memory")]
    Memory(AllocError),
    /// The bytes are no UTF-8.
    #[error("the input is not UTF-8")]
    NotUtf8,
    /// A write took no bytes of a piece that had some.
    #[error("a write took no bytes")]
    NoProgress,
}

impl From<AllocError> for Error {
    ghost use Rattle.ini_text.specs.declared.error.Error.TheVariants.{Memory};

    ghost from_gives = { λ _ e. e ≡ Memory alloc_error };

    fn from(refused: AllocError) -> Error {
        Error::Memory(refused)
    }
}

impl<T: Drop> From<AllocFailed<T>> for Error {
    ghost use Rattle.ini_text.specs.declared.error.Error.TheVariants.{Memory};

    ghost from_gives = { λ _ e. e ≡ Memory alloc_error };

    fn from(_refused: AllocFailed<T>) -> Error {
        Error::Memory(AllocError)
    }
}

/// A device's fault as it was. The rest by its kind: `InvalidData` for a text or bytes that are refused,
/// `OutOfMemory`, and `WriteZero`; where a text was refused, the line and the column are given up.
impl From<Error> for io::Error {
    ghost use Rattle.ini_text.specs.Errors.ErrorForms.{IsIoErrorOf};

    ghost from_gives = { IsIoErrorOf };

    fn from(refused: Error) -> io::Error {
        match refused {
            Error::Io(fault) => fault,
            Error::Parse(fault) => io::Error::new(ErrorKind::InvalidData, &fault.msg),
            Error::Memory(_) => io::Error::from(AllocError),
            Error::NotUtf8 => io::Error::new(ErrorKind::InvalidData, "the input is not UTF-8"),
            Error::NoProgress => io::Error::new(ErrorKind::WriteZero, "a write took no bytes"),
        }
    }
}
