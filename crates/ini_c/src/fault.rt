//! Faults of a text as C sees them. This file knows the kinds of faults, and no grammar.
ghost use Rattle.std.specs.Prelude.{◌≡◌};
ghost use Rattle.ini_c.specs.Faults.{ShowsWords, TellsParseError, kind_number};

use crate::copies::copy_out;
use ini::{ParseError, ParseKind};

/// Where and why reading a text stopped.
#[repr(C)]
#[derive(Drop)]
pub struct Fault {
    /// The number of the kind, from 1 on.
    pub kind: u32,
    /// From 1 on.
    pub line: usize,
    /// From 1 on, in characters: the place after the character that was looked at.
    pub column: usize,
    /// In words, with a 0 after.
    pub message: [u8; 64],
}

fn number_of(kind: ParseKind) -> u32
    ensures { result ≡ kind_number kind }
{
    match kind {
        ParseKind::EndOfText => 1,
        ParseKind::BrokenEscape => 2,
        ParseKind::UnknownCharacter => 3,
        ParseKind::InlineComment => 4,
        ParseKind::MissingKey => 5,
        ParseKind::CrAlone => 6,
        ParseKind::HeaderEnd => 7,
        ParseKind::NoSeparator => 8,
    }
}

// As much of the words as there is room for, and a 0 after that.
fn show(words: &[u8], out: &mut [u8; 64])
    ensures { ShowsWords words.now out.new }
{
    let count = words.len().min(63);
    let mut copied = 0;
    copy_out(&words[..count], out, &mut copied);
}

// Tells C of a fault.
pub(crate) fn tell(refused: &ParseError, fault: &mut Fault)
    ensures { TellsParseError refused.now fault.new }
{
    fault.kind = number_of(refused.kind);
    fault.line = refused.line;
    fault.column = refused.col;
    show(refused.msg.as_bytes(), &mut fault.message);
}
