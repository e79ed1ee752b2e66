//! A value set in a text itself: its comments and its layout stay, and by contract the new text loads as the
//! edited document.
ghost use Rattle.std.specs.Prelude.{IfOk, Some, chars, codes};
ghost use Rattle.ini_text.specs.Options.ReadOptions.{default_parse_option};
ghost use Rattle.ini_text.specs.Parsing.Items.{string_text};
ghost use Rattle.ini.specs.Edits.{set_in};
ghost use Rattle.ini_edit.specs.WholeTexts.{LoadsEdited};

use ini::{ParseOption, WriteOption};
use ini_edit::{EditError, set};
use std::alloc::Global;

/// The text with the port of `[server]` set, in its own place or in a new line.
pub fn with_port(alloc: Global, text: &str, port: &str) -> Result<String, EditError>
    ensures { IfOk result (λ new. LoadsEdited default_parse_option (chars text.now) (string_text new)
        (set_in (Some (chars (codes "server"))) (chars (codes "port")) (chars port.now))) }
{
    let (read, write) = (ParseOption::default(), WriteOption::default());
    set(alloc, text, read, &write, Some("server"), "port", port)
}
