//! How documents and new lines are written: by the program's options, and with a separator that its words
//! choose. This file knows no document.
ghost use Rattle.std.specs.Prelude.{◌≡◌, ◌↔◌, IfOk, IsOkUnless, IsTrue, alloc_error};
ghost use Rattle.ini_text.specs.declared.error.Error.TheVariants.{Memory};
ghost use Rattle.ini_file.specs.Writing.{IsWriting, Separates, word_of};

use ini::{Error, WriteOption, is_plain_separator};
use ini_words::Options;
use std::alloc::Global;

/// Whether what the separator separates is read back; where none is chosen it is.
pub fn separates(separator: Option<&str>) -> bool
    ensures { IsTrue result ↔ Separates (word_of separator.entry) }
{
    match separator {
        Some(separator) => is_plain_separator(separator),
        None => true,
    }
}

/// How the options have documents written, with the separator between a key and its value; where none is
/// chosen with `=` alone. Refused only when out of memory; another separator is copied, and never freed.
pub fn writing(
    alloc: Global,
    options: Options,
    separator: Option<&str>,
) -> Result<WriteOption, Error>
    ensures option { IfOk result (IsWriting options (word_of separator.entry)) }
    ensures only { IsOkUnless result (Memory alloc_error) }
{
    let option = options.write_option();
    let Some(separator) = separator else {
        return Ok(option);
    };
    if separator == option.kv_separator {
        return Ok(option);
    }
    Ok(WriteOption {
        kv_separator: leaked_copy(alloc, separator)?,
        ..option
    })
}

// A copy of the text that is never freed: a `WriteOption` has its separator for as long as the program runs.
fn leaked_copy(alloc: Global, text: &str) -> Result<&'static str, Error>
    ensures text { IfOk result (λ leaked_copy. leaked_copy.now ≡ text.now) }
    ensures only { IsOkUnless result (Memory alloc_error) }
{
    let bytes = Vec::from_slice(alloc, text.as_bytes())?;
    let leaked_copy: &'static [u8] = bytes.leak();
    Ok(str::from_utf8(leaked_copy).unwrap())
}
