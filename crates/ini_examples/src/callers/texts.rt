//! What is known of a document's text in memory.
ghost use Rattle.std.specs.Prelude.{◌≡◌, IfOk};
ghost use Rattle.ini.specs.DefaultOptions.{default_write_option};
ghost use Rattle.ini.specs.Loading.{IsDocumentOf};
ghost use Rattle.ini.specs.Plain.{IsPlain};
ghost use Rattle.ini.specs.Texts.{text_of};
ghost use Rattle.ini.specs.Written.{written};

use ini::laws::{loads_back, one_default};
use ini::{Error, Ini, ParseOption, WriteOption};
use std::alloc::Global;

/// The document's text by the default options: a clause names one value of them.
pub fn default_text(alloc: Global, document: &Ini) -> Result<String, Error>
    ensures { IfOk result (λ text. text_of text ≡ written document.now default_write_option) }
{
    one_default();
    document.to_text(alloc, WriteOption::default())
}

/// The text of a plain document, which loads as the document.
pub fn plain_text(
    alloc: Global,
    document: &Ini,
    write: WriteOption,
    read: ParseOption,
) -> Result<String, Error>
    requires { IsPlain document.now write read }
    ensures { IfOk result (λ text. IsDocumentOf read (text_of text) document.now) }
{
    loads_back(document, &write, read);
    document.to_text(alloc, write)
}
