//! How a text ends: within a line, after a backslash, or after a line end. This file knows line ends and
//! backslashes, and no element.
ghost use Rattle.std.specs.Prelude.{◌≡◌, chars};
ghost use Rattle.ini_edit.specs.Endings.{ending, next_ending};
ghost use Rattle.ini_edit.specs.Inside.Lines.{ending_of};

use ini_text::{ParseOption, split_first};

// How a text ends: within a line, after a backslash that takes what follows, or after an LF that ends a
// line.
#[derive(Clone, Copy, Debug)]
pub(crate) enum TextEnd {
    Inside,
    Escape,
    Line,
}

/// How a text ends.
pub(crate) fn text_end(text: &str, read: ParseOption) -> TextEnd
    ensures { ending_of result ≡ ending read (chars text.now) }
{
    let mut end = TextEnd::Line;
    let mut rest = text;
    'characters: while let Some((c, after)) = split_first(rest) {
        end = next_end(end, c, read);
        rest = after;
    }
    end
}

fn next_end(end: TextEnd, c: char, read: ParseOption) -> TextEnd
    ensures { ending_of result ≡ next_ending read (ending_of end) c }
{
    match end {
        TextEnd::Escape => TextEnd::Inside,
        TextEnd::Inside | TextEnd::Line => {
            if read.begins_escape(c) {
                TextEnd::Escape
            } else if c == '\n' {
                TextEnd::Line
            } else {
                TextEnd::Inside
            }
        }
    }
}
