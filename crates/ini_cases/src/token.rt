//! The words and the texts of a line, as they are spelled. This file knows nothing of what they ask.
use ini::Error;
use std::alloc::Global;
use std::io::{self, ErrorKind};
use std::mem;

/// What stands in a line between blanks.
#[derive(Drop)]
pub enum Token {
    /// A word, as it stands.
    Word(String),
    /// What a text in quotes stands for: bytes, since `\xC3` is one byte.
    Text(Vec<u8>),
}

/// The refusal of a line that can't be read.
pub fn unreadable(why: &'static str) -> Error {
    Error::Io(io::Error::new(ErrorKind::InvalidInput, why))
}

/// The text that stands in quotes.
pub fn text_of(token: &Token) -> Result<&str, Error> {
    match token {
        Token::Word(_) => Err(unreadable("a word stands for a text")),
        Token::Text(bytes) => match str::from_utf8(bytes.as_slice()) {
            Ok(text) => Ok(text),
            Err(_) => Err(Error::NotUtf8),
        },
    }
}

// Where in a line a reader is.
#[derive(Clone, Copy)]
enum State {
    Between,
    Word,
    Text,
    Raw,
    Escape,
    Byte(Option<u32>),
    Brace,
    Scalar(u32),
}

#[derive(Drop)]
struct Reader {
    alloc: Global,
    tokens: Vec<Token>,
    bytes: Vec<u8>,
    state: State,
}

impl Reader {
    fn push(&mut self, c: char) -> Result<(), Error> {
        let mut encoded = [0u8; 4];
        self.bytes
            .extend_from_slice(c.encode_utf8(&mut encoded).as_bytes())?;
        Ok(())
    }

    fn end_word(&mut self) -> Result<State, Error> {
        let bytes = mem::replace(&mut self.bytes, Vec::new(self.alloc));
        match String::from_utf8(bytes) {
            Ok(word) => self.tokens.push(Token::Word(word))?,
            Err(_) => return Err(Error::NotUtf8),
        }
        Ok(State::Between)
    }

    fn end_text(&mut self) -> Result<State, Error> {
        let bytes = mem::replace(&mut self.bytes, Vec::new(self.alloc));
        self.tokens.push(Token::Text(bytes))?;
        Ok(State::Between)
    }

    // One character after a backslash.
    fn escape(&mut self, c: char) -> Result<State, Error> {
        let stands_for = match c {
            'n' => '\n',
            'r' => '\r',
            't' => '\t',
            '0' => '\0',
            '\\' | '"' | '\'' => c,
            'x' => return Ok(State::Byte(None)),
            'u' => return Ok(State::Brace),
            _ => return Err(unreadable("no escape")),
        };
        self.push(stands_for)?;
        Ok(State::Text)
    }

    // One of the two digits of a byte.
    fn byte(&mut self, high: Option<u32>, c: char) -> Result<State, Error> {
        let digit = c.to_digit(16).ok_or(unreadable("no digit"))?;
        let Some(high) = high else {
            return Ok(State::Byte(Some(digit)));
        };
        match u8::try_from(high.saturating_mul(16).saturating_add(digit)) {
            Ok(byte) => self.bytes.push(byte)?,
            Err(_) => return Err(unreadable("no byte")),
        }
        Ok(State::Text)
    }

    // A digit of a scalar, or the brace after it.
    fn scalar(&mut self, code: u32, c: char) -> Result<State, Error> {
        if c != '}' {
            let digit = c.to_digit(16).ok_or(unreadable("no digit"))?;
            return Ok(State::Scalar(code.saturating_mul(16).saturating_add(digit)));
        }
        let scalar = char::from_u32(code).ok_or(unreadable("no character"))?;
        self.push(scalar)?;
        Ok(State::Text)
    }

    // A character of a word, or what ends it.
    fn word(&mut self, c: char) -> Result<State, Error> {
        if c == ' ' {
            return self.end_word();
        }
        if c != '"' {
            self.push(c)?;
            return Ok(State::Word);
        }
        if self.bytes.as_slice() != b"r".as_slice() {
            return Err(unreadable("a word runs into a text"));
        }
        self.bytes.clear();
        Ok(State::Raw)
    }

    fn stay(&mut self, c: char) -> Result<State, Error> {
        self.push(c)?;
        Ok(self.state)
    }

    // Where the reader is after a character.
    fn take(&mut self, c: char) -> Result<State, Error> {
        match self.state {
            State::Between if c == ' ' => Ok(State::Between),
            State::Between if c == '"' => Ok(State::Text),
            State::Between | State::Word => self.word(c),
            State::Text | State::Raw if c == '"' => self.end_text(),
            State::Text if c == '\\' => Ok(State::Escape),
            State::Text | State::Raw => self.stay(c),
            State::Escape => self.escape(c),
            State::Byte(high) => self.byte(high, c),
            State::Brace if c == '{' => Ok(State::Scalar(0)),
            State::Brace => Err(unreadable("no brace")),
            State::Scalar(code) => self.scalar(code, c),
        }
    }
}

/// The words and the texts of a line, in order.
///
/// # Errors
///
/// A text with an escape that Rust has not, or with no end; and refused memory.
pub fn tokens(alloc: Global, line: &str) -> Result<Vec<Token>, Error> {
    let mut reader = Reader {
        alloc,
        tokens: Vec::new(alloc),
        bytes: Vec::new(alloc),
        state: State::Between,
    };
    for c in line.chars() {
        reader.state = reader.take(c)?;
    }
    match reader.state {
        State::Between => {}
        State::Word => {
            reader.end_word()?;
        }
        _ => return Err(unreadable("a text has no end")),
    }
    Ok(reader.tokens)
}
