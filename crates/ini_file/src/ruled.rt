//! How files are read, looked up in and written, where a command is over several. This file knows options and
//! rules, and no document.
ghost use Rattle.std.specs.Prelude.{◌≡◌, IfOk, IsOkUnless, Some, alloc_error};
ghost use Rattle.ini_text.specs.declared.error.Error.TheVariants.{Memory};
ghost use Rattle.ini_file.specs.Writing.{IsWriting};

use crate::writing::writing;
use ini_dialect::Lookup;
use ini_layers::SettingValue;
use ini_text::{Error, WriteOption};
use ini_words::Options;
use std::alloc::Global;

/// How files are read, looked up in and written.
#[derive(Clone, Copy)]
pub struct Ruled<'a> {
    /// How they are read, and the one that is edited is written.
    pub options: Options,
    /// How their pairs are looked up, and set.
    pub rule: Lookup,
    /// What a setting's value is, where files are compared.
    pub which: SettingValue,
    /// What stands between key and value in new lines, where the file has nothing to go by.
    pub separator: &'a str,
}

impl<'a> Ruled<'a> {
    /// How new lines are written. Refused when out of memory alone.
    pub fn write_option(self, alloc: Global) -> Result<WriteOption, Error>
        ensures option { IfOk result (IsWriting self.entry.options (Some self.entry.separator.now)) }
        ensures only { IsOkUnless result (Memory alloc_error) }
    {
        writing(alloc, self.options, Some(self.separator))
    }
}
