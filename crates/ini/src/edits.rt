//! Edits of a document as values, and whole runs over them: from a text to a document, edited, to a text.
//! This file knows documents by their public calls alone.
ghost use Rattle.std.specs.Prelude.{◌≡◌, ◌<◌, ◌↔◌, ℕ, List, IfErr, IsOkUnless, OnErr, OnOk, alloc_error};
ghost use Rattle.std.specs.Prelude.{chars};
ghost use Rattle.ini_text.specs.Device.DeviceRefusals.{IsIo, IsNoProgress, failures_in, stalls_in};
ghost use Rattle.ini_text.specs.Device.Watched.{IsClear, SameDevice, WritesAll, WritesFront, device_now};
ghost use Rattle.ini_text.specs.Device.Watched.{failure_count, stall_count};
ghost use Rattle.ini.specs.Loading.{IfParse, IsStopOf};
ghost use Rattle.ini.specs.EditLists.{Grows, IsCutShort, IsEditRefusal, IsEditedText};
ghost use Rattle.ini.specs.EditLists.{OnDeviceRefusal, OnParseOrMemory, edited, edited_once};

use crate::document::Ini;
use ini_text::{Error, ParseOption, Watched, WriteOption};
use std::alloc::Global;
use std::io::Write;

/// An edit of a document. Each but `Clear` begins with the name of a section; `None` is the general
/// section's.
#[derive(Debug, Drop)]
pub enum Edit {
    /// Sets the value of a key, as the setter's `set` does.
    Set(Option<String>, String, String),
    /// Appends a pair, as the setter's `add` does.
    Add(Option<String>, String, String),
    /// Takes the first pair of a key out of every section of the name, as the setter's `delete` does.
    Delete(Option<String>, String),
    /// Takes the first pair of a key out of the first section of the name, as `Ini::delete_from` does.
    DeleteFrom(Option<String>, String),
    /// Takes out the first section of the name, as `Ini::delete` does.
    DeleteSection(Option<String>),
    /// Takes out every section, as `Ini::clear` does.
    Clear,
}

/// Makes the edits in order.
///
/// # Errors
///
/// `Memory` where an edit that puts in a pair was refused: the edits before it stand, and neither it nor a
/// later one is made.
pub fn apply(doc: &mut Ini, edits: &[Edit]) -> Result<(), Error>
    ensures edited { OnOk result (doc.new ≡ edited doc.old edits.now) }
    ensures cut_short { OnErr result (IsCutShort edits.now doc.old doc.new) }
    ensures only_memory { IsOkUnless result (Error.Memory alloc_error) }
{
    'edits: for edit in edits {
        make(doc, edit)?;
    }
    Ok(())
}

// One edit. Refused, it changes nothing.
fn make(doc: &mut Ini, edit: &Edit) -> Result<(), Error>
    ensures made { OnOk result (doc.new ≡ edited_once doc.old edit.now) }
    ensures unchanged { OnErr result (doc.new ≡ doc.old) }
    ensures grows { OnErr result (Grows edit.now) }
    ensures only_memory { IsOkUnless result (Error.Memory alloc_error) }
{
    match edit {
        Edit::Set(name, key, value) => {
            doc.with_section(name.as_deref()).set(key, value)?;
        }
        Edit::Add(name, key, value) => {
            doc.with_section(name.as_deref()).add(key, value)?;
        }
        Edit::Delete(name, key) => {
            doc.with_section(name.as_deref()).delete(key);
        }
        Edit::DeleteFrom(name, key) => {
            let _ = doc.delete_from(name.as_deref(), key);
        }
        Edit::DeleteSection(name) => {
            let _ = doc.delete(name.as_deref());
        }
        Edit::Clear => doc.clear(),
    }
    Ok(())
}

/// Loads a text, makes the edits in order, and writes what the document is then: from text to document to
/// bytes.
///
/// # Errors
///
/// The first refusal: `Parse` where reading the text stops; `Memory` where memory is refused; `Io` and
/// `NoProgress` as `Ini::write_watched` has them. `Parse` and `Memory` have written nothing; after a
/// refused write a front of the text went out.
pub fn edit_text<W: Write>(
    alloc: Global,
    text: &str,
    opt: ParseOption,
    edits: &[Edit],
    w: WriteOption,
    out: &mut Watched<'_, W>,
) -> Result<(), Error>
    requires { IsClear out.old }
    ensures same_device { SameDevice out.old out.new }
    ensures bytes { OnOk result ((output : List ℕ) × IsEditedText opt (chars text.now) edits.now w output
        × WritesAll W.contents out.old out.new output) }
    ensures fault { IfParse result (IsStopOf opt (chars text.now)) }
    ensures silent { OnParseOrMemory result (device_now out.new ≡ device_now out.old) }
    ensures front { OnDeviceRefusal result
        ((output : List ℕ) × IsEditedText opt (chars text.now) edits.now w output
        × WritesFront W.contents out.old out.new output) }
    ensures failures { failure_count out.new ≡ failures_in result }
    ensures stalls { stall_count out.new ≡ stalls_in result }
    ensures io { IsIo result ↔ (failure_count out.old < failure_count out.new) }
    ensures no_progress { IsNoProgress result ↔ (stall_count out.old < stall_count out.new) }
    ensures only { IfErr result IsEditRefusal }
{
    let mut document = Ini::load_from_str_opt(alloc, text, opt)?;
    apply(&mut document, edits)?;
    document.write_watched(out, w)
}
