//! Questions about a file: what it loads as, and what it holds once a document was written into it.
use crate::option::Options;
use crate::show::loaded;
use crate::token::unreadable;
use ini::{Error, Ini};
use std::fs;
use std::path::Path;

// The file that rows write and read, in the folder of its own that the program runs in.
const NAME: &'static str = "case.ini";

// What the file holds before a document is written into it.
const BEFORE: &'static str =
    "[before]\nkey=this file is longer than what is written of most of the documents\n";

fn load(rt: &HostRuntime, call: &str, options: &Options) -> Result<Ini, Error> {
    let (alloc, path) = (rt.alloc(), Path::new(NAME));
    match call {
        "load_from_file" => Ini::load_from_file(rt, alloc, path),
        "load_from_file_noescape" => Ini::load_from_file_noescape(rt, alloc, path),
        _ => Ini::load_from_file_opt(rt, alloc, path, options.reading),
    }
}

fn write(rt: &HostRuntime, call: &str, document: &Ini, options: &Options) -> Result<(), Error> {
    let (path, writing) = (Path::new(NAME), options.writing());
    match call {
        "write_to_file" => document.write_to_file(rt, path),
        "write_to_file_policy" => document.write_to_file_policy(rt, path, writing.escape_policy),
        _ => document.write_to_file_opt(rt, path, writing),
    }
}

/// What a file of the bytes loads as, or what a file holds once the document of the text that they are was
/// written over a longer one, by the form that the call names.
pub fn answer(
    rt: &HostRuntime,
    call: &str,
    bytes: &[u8],
    options: &Options,
) -> Result<String, Error> {
    if call.starts_with("load") {
        fs::write(rt, NAME, bytes)?;
        return loaded(rt.alloc(), load(rt, call, options));
    }
    if !call.starts_with("write") {
        return Err(unreadable("no such question"));
    }
    let mut reader = bytes;
    let document = Ini::read_from_opt(rt.alloc(), &mut reader, options.reading)?;
    fs::write(rt, NAME, BEFORE)?;
    write(rt, call, &document, options)?;
    Ok(fs::read_to_string(rt, NAME)?)
}
