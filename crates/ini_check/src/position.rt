//! Lines and columns, counted along a text. This file knows line ends and white space alone.
ghost use Rattle.std.specs.Prelude.{◌+◌, ◌++◌, ◌∷◌, [], ℕ, chars, length};
ghost use Rattle.ini.specs.Texts.{Text};
ghost use Rattle.ini_check.specs.Inside.Positions.{HasRoom, IsAt};
ghost use Rattle.ini_check.specs.Traps.Values.{first_line, space_of, value_of};

use crate::trap::values::is_inline_white;
use ini_text::{is_line_end, split_first};

/// A place of a text: its line and its column, counted from one, the column in characters.
#[derive(Clone, Copy)]
pub(crate) struct Position {
    pub(crate) line: usize,
    pub(crate) column: usize,
}

impl Position {
    /// The text's front.
    pub(crate) fn at_front() -> Position
        ensures { IsAt [] result }
    {
        Position { line: 1, column: 1 }
    }

    /// The place after a stretch that begins here.
    pub(crate) fn advance(self, passed: &str) -> Position
        requires { HasRoom (length (chars passed.now)) self }
        ensures room { (n : ℕ) → HasRoom (length (chars passed.now) + n) self → HasRoom n result }
        ensures at { (b : Text) → IsAt b self → IsAt (b ++ chars passed.now) result }
    {
        let mut line = self.line;
        let mut column = self.column;
        let mut rest = passed;
        'characters: while let Some((c, after)) = split_first(rest) {
            if c == '\n' {
                line += 1;
                column = 1;
            } else {
                column += 1;
            }
            rest = after;
        }
        Position { line, column }
    }

    /// The place after the white space, but for line ends, that begins a text here.
    pub(crate) fn over_space(self, text: &str) -> Position
        requires { HasRoom (length (chars text.now)) self }
        ensures room { HasRoom (length (value_of (chars text.now))) result }
        ensures at { (b : Text) → IsAt b self → IsAt (b ++ space_of (chars text.now)) result }
    {
        let mut position = self;
        let mut rest = text;
        'characters: while let Some((c, after)) = split_first(rest) {
            if !is_inline_white(c) {
                return position;
            }
            position = position.after(c);
            rest = after;
        }
        position
    }

    /// The place at the end of a line that begins here.
    pub(crate) fn over_line(self, text: &str) -> Position
        requires { HasRoom (length (chars text.now)) self }
        ensures { (b : Text) → IsAt b self → IsAt (b ++ first_line (chars text.now)) result }
    {
        let mut position = self;
        let mut rest = text;
        'characters: while let Some((c, after)) = split_first(rest) {
            if is_line_end(c) {
                return position;
            }
            position = position.after(c);
            rest = after;
        }
        position
    }

    /// The place after a character that stands here.
    pub(crate) fn after(self, c: char) -> Position
        requires { HasRoom 1 self }
        ensures room { (n : ℕ) → HasRoom (1 + n) self → HasRoom n result }
        ensures at { (b : Text) → IsAt b self → IsAt (b ++ c ∷ []) result }
    {
        if c == '\n' {
            Position {
                line: self.line + 1,
                column: 1,
            }
        } else {
            Position {
                line: self.line,
                column: self.column + 1,
            }
        }
    }
}
