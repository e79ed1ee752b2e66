//! What `get` writes: the value of a key that counts, all of them, or a default. This file knows no word
//! and no reader.
ghost use Rattle.ini_text.specs.Device.Watched.{IsClear};
ghost use Rattle.ini.specs.Texts.{str_name, str_text};
ghost use Rattle.ini_file.specs.Forms.{got};
ghost use Rattle.ini_words.specs.Prints.{Prints};

use crate::words::Wanted;
use ini::{Error, Watched};
use ini_dialect::AnyDocument;
use ini_view::View;
use ini_words::lines::{Form, entries, value};
use std::alloc::Global;
use std::io::Write;

/// Writes what is looked up, as it stands: the value of the key that counts, or all of them that are looked
/// at, in order, each with a line feed or NUL after it; where the key isn't there the default. Where there
/// is no default either, the answer is `false`, and nothing is written.
///
/// # Errors
///
/// `Io` where the writer answers a fault, `NoProgress` where it takes no bytes: a front was written then.
/// `Memory`, only where all values are asked for; nothing was written then.
#[tactic(auto, using(crate::proofs::ListedLemmas::lists))]
pub fn get<W: Write>(
    alloc: Global,
    document: &View<'_>,
    wanted: Wanted<'_>,
    out: &mut Watched<'_, W>,
) -> Result<bool, Error>
    requires { IsClear out.old }
    ensures { Prints W.contents out.old out.new result (got wanted.entry.rule wanted.entry.null
        wanted.entry.all (str_text wanted.entry.key) (str_name wanted.entry.section)
        (str_name wanted.entry.default) document.now) }
{
    let (rule, section, key) = (wanted.rule, wanted.section, wanted.key);
    let form = if wanted.null { Form::Null } else { Form::AsIs };
    let counting = rule.get(AnyDocument::View(document), section, key);
    if wanted.all && counting.is_some() {
        let values = rule.get_all(alloc, AnyDocument::View(document), section, key)?;
        return entries(values.as_slice(), form, out);
    }
    value(counting.or(wanted.default), form, out)
}
