//! Texts from bytes and to bytes, and where either is refused. This file knows no document.
ghost use Rattle.std.specs.Prelude.{◌≡◌, chars, string_bytes, IfOk, None, Some, OnOk};
ghost use Rattle.std.specs.Prelude.{◌++◌, ◌∷◌, []};
ghost use Rattle.ini_text.specs.Grammar.Positions.{column_of, line_of};
ghost use Rattle.ini_dialect.specs.Encodings.{IfMalformed, IfNoBytes, IsDecoded, IsMalformedAt};
ghost use Rattle.ini_dialect.specs.Encodings.{IsNoText, IsUnencodableAt, encoded};

use crate::encoding::Encoding;
use ini_text::{front_before, split_first};
use std::alloc::{AllocError, AllocFailed, Global};
use thiserror::Error;

/// Why bytes weren't decoded.
#[derive(Debug, Drop, Error)]
pub enum DecodeError {
    /// Memory was refused.
    #[error("out of memory")]
    Memory(AllocError),
    /// No character begins at this line and column, each counted from 1, in characters.
    #[error("{line}:{column} no character of this encoding begins here")]
    Malformed {
        /// The line.
        line: usize,
        /// The column.
        column: usize,
    },
}

/// Why a text wasn't encoded.
#[derive(Debug, Drop, Error)]
pub enum EncodeError {
    /// Memory was refused.
    #[error("out of memory")]
    Memory(AllocError),
    /// The encoding lacks the character at this line and column, each counted from 1, in characters.
    #[error("{line}:{column} the encoding lacks this character")]
    NoBytes {
        /// The character.
        character: char,
        /// The line.
        line: usize,
        /// The column.
        column: usize,
    },
}

impl From<AllocError> for DecodeError {
    ghost use Rattle.std.specs.Prelude.{◌≡◌};
    ghost use Rattle.ini_dialect.specs.declared.coding.DecodeError.TheVariants.{Memory};

    ghost from_gives = { λ refused e. e ≡ Memory refused };

    fn from(refused: AllocError) -> DecodeError {
        DecodeError::Memory(refused)
    }
}

impl From<AllocError> for EncodeError {
    ghost use Rattle.std.specs.Prelude.{◌≡◌};
    ghost use Rattle.ini_dialect.specs.declared.coding.EncodeError.TheVariants.{Memory};

    ghost from_gives = { λ refused e. e ≡ Memory refused };

    fn from(refused: AllocError) -> EncodeError {
        EncodeError::Memory(refused)
    }
}

impl Encoding {
    /// The text that bytes are; `encode` gives the very bytes back. A byte order mark is a character of it.
    ///
    /// # Errors
    ///
    /// `Malformed` exactly where they are no text, at the first place where no character begins: in UTF-16
    /// at an odd byte or at half of a pair, in UTF-8 where std finds a fault. Latin-1 and Windows-1252 have
    /// a character for each byte.
    pub fn decode(self, alloc: Global, bytes: &[u8]) -> Result<String, DecodeError>
        ensures text { IfOk result (λ text. IsDecoded self bytes.now (chars (string_bytes text))) }
        ensures malformed { IfMalformed result (IsMalformedAt self bytes.now) }
        ensures no_text { IfMalformed result (λ _ _. IsNoText self bytes.now) }
    {
        let mut text = String::new(alloc);
        let mut rest = bytes;
        'characters: while let Some((character, after)) = self.split_first(rest) {
            push_character(&mut text, character)?;
            rest = after;
        }
        if rest.is_empty() {
            return Ok(text);
        }
        let (line, column) = position(text.as_str());
        Err(DecodeError::Malformed { line, column })
    }

    /// The bytes of a text; `decode` gives the very text back.
    ///
    /// # Errors
    ///
    /// `NoBytes` exactly where the encoding lacks one of its characters, at the first of them. UTF-8 and
    /// UTF-16 lack none.
    pub fn encode(self, alloc: Global, text: &str) -> Result<Vec<u8>, EncodeError>
        ensures bytes { IfOk result (λ bytes. encoded self (chars text.now) ≡ Some bytes.items) }
        ensures no_bytes { IfNoBytes result (IsUnencodableAt self (chars text.now)) }
        ensures lacks { IfNoBytes result (λ _ _ _. encoded self (chars text.now) ≡ None) }
    {
        let mut bytes = Vec::new(alloc);
        let mut rest = text;
        'characters: while let Some((character, after)) = split_first(rest) {
            if !self.push(character, &mut bytes)? {
                let (line, column) = position(front_before(text, rest));
                return Err(EncodeError::NoBytes {
                    character,
                    line,
                    column,
                });
            }
            rest = after;
        }
        Ok(bytes)
    }
}

// Puts a character last: std's call, with a clause that speaks of characters.
pub(crate) fn push_character(text: &mut String, character: char) -> Result<(), AllocError>
    ensures { OnOk result
        (chars (string_bytes text.new) ≡ chars (string_bytes text.old) ++ character ∷ []) }
{
    text.push(character)
}

// The line and the column at the end of a text.
fn position(front: &str) -> (usize, usize)
    ensures line { result.0 ≡ line_of (chars front.now) }
    ensures column { result.1 ≡ column_of (chars front.now) }
{
    let mut line = 1;
    let mut column = 1;
    let mut rest = front;
    'characters: while let Some((c, after)) = split_first(rest) {
        if c == '\n' {
            line += 1;
            column = 1;
        } else {
            column += 1;
        }
        rest = after;
    }
    (line, column)
}
