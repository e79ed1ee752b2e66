//! Lines and columns, counted once a text is refused. This file knows LF alone, and not why reading stopped.
ghost use Rattle.std.specs.Prelude.{◌≡◌, chars};
ghost use Rattle.ini_text.specs.Grammar.Positions.{line_of, column_of};

use crate::text::split_first;

/// The line and the column at the end of a front.
pub(crate) fn position(front: &str) -> (usize, usize)
    ensures line { result.0 ≡ line_of (chars front.now) }
    ensures column { result.1 ≡ column_of (chars front.now) }
{
    let mut line = 1;
    let mut column = 1;
    let mut rest = front;
    'characters: while let Some((c, after)) = split_first(rest) {
        if c == '\n' {
            line += 1;
            column = 1;
        } else {
            column += 1;
        }
        rest = after;
    }
    (line, column)
}
