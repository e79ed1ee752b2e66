//! The lines of bytes, one by one from either end. This file knows line feeds alone.
ghost use Rattle.std.specs.Prelude.{◌≡◌, [], length, MatchOption};
ghost use Rattle.ini_file.specs.Diffs.{lines_of};
ghost use Rattle.ini_file.specs.Inside.Shared.{IsFirstLine, IsLastLine};

const LINE_FEED: u8 = b'\n';

/// The first line, with its line feed if it has one, and what follows it.
pub(crate) fn split_first_line(bytes: &[u8]) -> Option<(&[u8], &[u8])>
    ensures { MatchOption result (bytes.now ≡ []) (λ p. IsFirstLine bytes.now p.0.now p.1.now) }
{
    if bytes.is_empty() {
        return None;
    }
    for (at, byte) in bytes.iter().enumerate() {
        if *byte == LINE_FEED {
            return Some(bytes.split_at(at + 1));
        }
    }
    Some(bytes.split_at(bytes.len()))
}

/// What stands before the last line, and that line, with its line feed if it has one.
pub(crate) fn split_last_line(bytes: &[u8]) -> Option<(&[u8], &[u8])>
    ensures { MatchOption result (bytes.now ≡ []) (λ p. IsLastLine bytes.now p.0.now p.1.now) }
{
    if bytes.is_empty() {
        return None;
    }
    let mut at = bytes.len() - 1;
    'back: while at > 0 {
        if bytes[at - 1] == LINE_FEED {
            break;
        }
        at -= 1;
    }
    Some(bytes.split_at(at))
}

/// How many lines there are.
pub(crate) fn count_lines(bytes: &[u8]) -> usize
    ensures { result ≡ length (lines_of bytes.now) }
{
    let mut count = 0;
    let mut rest = bytes;
    'lines: while let Some((_, following)) = split_first_line(rest) {
        count += 1;
        rest = following;
    }
    count
}
