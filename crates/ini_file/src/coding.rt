//! How the bytes of a file are those of its text, which the commands take in UTF-8. This file knows no
//! document and no device.
ghost use Rattle.std.specs.Prelude.{◌≡◌, [], ℕ, IfErr, IfOk, List, None, Option, chars};
ghost use Rattle.ini_dialect.specs.Encodings.{IsDecoded};
ghost use Rattle.ini_dialect.specs.declared.encoding.Encoding as encodings;
ghost use Rattle.ini_file.specs.Codings.{IsRead, IsUnread, IsUnwritten, IsWritten, WritesBack, coding_of};
ghost use Rattle.ini_file.specs.Codings.{mark_before, shown, text_after_mark};

use ini::Error;
use ini_dialect::{DecodeError, EncodeError, Encoding};
use ini_text::without_byte_order_mark;
use std::alloc::{AllocError, Global};
use std::fmt;

/// How the bytes of a file are those of its text.
#[derive(Clone, Copy)]
pub struct Coding {
    /// The encoding.
    pub encoding: Encoding,
    /// Whether a byte order mark stands before the text.
    pub has_mark: bool,
}

/// Why bytes aren't the text of a file, or a text can't be written into one, and where. The place doesn't
/// count a byte order mark.
#[derive(Clone, Copy, Debug)]
pub enum CodingError {
    /// No character of the encoding begins there.
    Malformed {
        /// The encoding.
        encoding: Encoding,
        /// The line, counted from one.
        line: usize,
        /// The column, counted from one, in characters.
        column: usize,
    },
    /// The encoding lacks the character there.
    NoBytes {
        /// The encoding.
        encoding: Encoding,
        /// The character.
        character: char,
        /// The line, counted from one.
        line: usize,
        /// The column, counted from one, in characters.
        column: usize,
    },
}

/// Prints the place, and what is wrong there.
impl fmt::Display for CodingError {
    fn fmt<W: fmt::Write>(&self, f: &mut fmt::Formatter<W>) -> fmt::Result {
        match *self {
            CodingError::Malformed {
                encoding,
                line,
                column,
            } => {
                let name = encoding.name();
                write!(f, "{line}:{column}: no character of {name} begins here")
            }
            CodingError::NoBytes {
                encoding,
                character,
                line,
                column,
            } => {
                let (name, code) = (encoding.name(), u32::from(character));
                write!(f, "{line}:{column}: {name} has no U+{code:04X}")
            }
        }
    }
}

/// What a file is refused with: a fault of the device, of memory or of a text; or one of its coding.
#[derive(Debug, Drop)]
pub enum FileError {
    /// One that is about no encoding.
    Text(Error),
    /// One that is.
    Coding(CodingError),
}

impl From<Error> for FileError {
    ghost use Rattle.std.specs.Prelude.{◌≡◌};
    ghost use Rattle.ini_file.specs.declared.coding.FileError.TheVariants.{Text};

    ghost from_gives = { λ refused e. e ≡ Text refused };

    fn from(refused: Error) -> FileError {
        FileError::Text(refused)
    }
}

impl From<AllocError> for FileError {
    ghost use Rattle.std.specs.Prelude.{◌≡◌, alloc_error};
    ghost use Rattle.ini_text.specs.declared.error.Error.TheVariants.{Memory};
    ghost use Rattle.ini_file.specs.declared.coding.FileError.TheVariants.{Text};

    ghost from_gives = { λ _ e. e ≡ Text (Memory alloc_error) };

    fn from(refused: AllocError) -> FileError {
        FileError::Text(Error::from(refused))
    }
}

impl Coding {
    /// That of a file's bytes: by the byte order mark at their front; without one, by the name of an
    /// encoding; without that, UTF-8.
    pub fn of_bytes(bytes: &[u8], named: Option<Encoding>) -> Coding
        ensures { result ≡ coding_of bytes.now named }
    {
        match Encoding::of_mark(bytes) {
            Some(encoding) => Coding {
                encoding,
                has_mark: true,
            },
            None => Coding {
                encoding: named.unwrap_or(Encoding::Utf8),
                has_mark: false,
            },
        }
    }

    /// That of what is told: UTF-8.
    pub fn told() -> Coding
        ensures { result ≡ coding_of [] None }
    {
        Coding::of_bytes(b"", None)
    }

    /// The text of a file's bytes, of which a byte order mark is the first character. `None` where it is in
    /// UTF-8, if the bytes are any: these are taken as they stand.
    ///
    /// # Errors
    ///
    /// `Malformed` exactly where the bytes are no text; out of memory.
    pub fn read(self, alloc: Global, bytes: &[u8]) -> Result<Option<String>, FileError>
        ensures read { IfOk result (IsRead self bytes.now) }
        ensures refused { IfErr result (IsUnread self bytes.now) }
    {
        if let Encoding::Utf8 = self.encoding {
            return Ok(None);
        }
        match self.encoding.decode(alloc, bytes) {
            Ok(text) => Ok(Some(text)),
            Err(DecodeError::Memory(refused)) => Err(FileError::from(refused)),
            Err(DecodeError::Malformed { line, column }) => {
                Err(FileError::Coding(CodingError::Malformed {
                    encoding: self.encoding,
                    line,
                    column: self.shown(line, column),
                }))
            }
        }
    }

    // The column of a place, without the byte order mark.
    fn shown(self, line: usize, column: usize) -> usize
        ensures { result ≡ shown self line column }
    {
        if self.has_mark && line == 1 {
            column.saturating_sub(1)
        } else {
            column
        }
    }

    /// The bytes of a text, with the byte order mark that its file had. `None` where they are those of
    /// UTF-8: the text's own. Those of a text that was read are the bytes that it was read of.
    ///
    /// # Errors
    ///
    /// `NoBytes` exactly where the encoding lacks one of the text's characters, at the first of them; out
    /// of memory.
    pub fn write(self, alloc: Global, text: &str) -> Result<Option<Vec<u8>>, FileError>
        ensures written { IfOk result (IsWritten self (chars text.now)) }
        ensures refused { IfErr result (IsUnwritten self (chars text.now)) }
        ensures back { (bytes : List ℕ) (named : Option encodings.Encoding) → coding_of bytes named ≡ self
            → IsDecoded self.encoding bytes (chars text.now) → WritesBack bytes result }
    {
        if let Encoding::Utf8 = self.encoding {
            return Ok(None);
        }
        match self.encoding.encode(alloc, self.after_mark(text)) {
            Ok(own) => {
                let mut bytes = Vec::from_slice(alloc, self.mark())?;
                bytes.extend_from_slice(own.as_slice())?;
                Ok(Some(bytes))
            }
            Err(EncodeError::Memory(refused)) => Err(FileError::from(refused)),
            Err(
                EncodeError::NoBytes {
                    character,
                    line,
                    column,
                },
            ) => {
                Err(FileError::Coding(CodingError::NoBytes {
                    encoding: self.encoding,
                    character,
                    line,
                    column,
                }))
            }
        }
    }

    // The text without the byte order mark that its file had.
    fn after_mark(self, text: &str) -> &str
        ensures { chars result.now ≡ text_after_mark self (chars text.now) }
    {
        if self.has_mark {
            without_byte_order_mark(text)
        } else {
            text
        }
    }

    // The bytes of the byte order mark that the file had; none where it had none.
    fn mark(self) -> &'static [u8]
        ensures { result.now ≡ mark_before self }
    {
        if self.has_mark {
            self.encoding.mark()
        } else {
            b""
        }
    }
}
