//! The options by which a document is written. This file knows line ends, and no device.
ghost use Rattle.std.specs.Prelude.{◌≡◌, Some};
ghost use Rattle.ini_text.specs.Options.WriteOptions.{line_end, IsDefaultWriteOption};

use crate::write::policy::EscapePolicy;
use std::fmt;

/// What ends a written line.
#[derive(Copy, Clone, Eq, PartialEq, Debug)]
pub enum LineSeparator {
    /// LF, on every platform.
    SystemDefault,
    /// LF, in spite of the name.
    CR,
    /// CR LF.
    CRLF,
}

impl LineSeparator {
    /// The line end as a text.
    pub fn as_str(self) -> &'static str
        ensures { result.now ≡ line_end self }
    {
        match self {
            LineSeparator::SystemDefault | LineSeparator::CR => "\n",
            LineSeparator::CRLF => "\r\n",
        }
    }
}

/// Prints the line end.
impl fmt::Display for LineSeparator {
    ghost output = { λ s. Some (line_end s) };

    fn fmt<W: fmt::Write>(&self, f: &mut fmt::Formatter<W>) -> fmt::Result {
        f.write_str(self.as_str())
    }
}

/// How a document is written.
#[derive(Clone, Debug, Drop)]
pub struct WriteOption {
    /// Which characters of names, keys and values are escaped.
    pub escape_policy: EscapePolicy,
    /// What ends each line.
    pub line_separator: LineSeparator,
    /// What stands between a key and its value. It is written as it is, and what was written loads back
    /// where it is one `=` or `:` with spaces and tabs alone around it; some other white space around it
    /// is trimmed too.
    pub kv_separator: &'static str,
}

/// The basic escapes, LF at line ends, and `=` alone between a key and its value.
impl Default for WriteOption {
    ghost is_default = { IsDefaultWriteOption };

    fn default() -> WriteOption {
        WriteOption {
            escape_policy: EscapePolicy::Basics,
            line_separator: LineSeparator::SystemDefault,
            kv_separator: "=",
        }
    }
}
