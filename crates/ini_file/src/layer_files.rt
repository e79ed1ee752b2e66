//! Layers of files that are there: they are read, their document is handed on, and what is refused is
//! reported. A folder stands for its drop-ins. This file knows the process's streams, and no word of the
//! program.
//!
//! No contract says what a disk holds; `tests/program/layers.sh` tests it.

use crate::coding::{Coding, FileError};
use crate::files::{lock_place, read_input, write_output};
use crate::front::Call;
use crate::layer_origins::layers_with_origins;
use crate::layers::{LayersEnd, layered};
use crate::notes::note_reason;
use crate::reasons::Reason;
use crate::refusals::refuse;
use crate::run::Outcome;
use crate::target::Target;
use ini::Error;
use ini_dialect::Encoding;
use ini_edit::EditError;
use std::alloc::AllocError;
use std::{fs, io};

// Files that were read: their names and their texts, as many of the one as of the other.
#[derive(Drop)]
struct ReadFiles {
    names: Vec<String>,
    texts: Vec<Vec<u8>>,
}

impl ReadFiles {
    // Reads one file more.
    fn read(
        &mut self,
        rt: &HostRuntime,
        named: Option<Encoding>,
        name: &str,
    ) -> Result<(), FileError> {
        let input = read_input(rt, named, name)?;
        let name = String::from_str(rt.alloc(), name).map_err(AllocError::from)?;
        self.names.push(name).map_err(AllocError::from)?;
        self.texts.push(input.text).map_err(AllocError::from)?;
        Ok(())
    }
}

/// Lays the files over each other, and answers the exit status. All of them are read before anything is
/// written, and where one is refused nothing is. Their document is told in UTF-8.
pub fn layer_files(rt: &HostRuntime, named: Option<Encoding>, call: Call<'_>) -> u8 {
    let (target, read) = (Target::of_layers(call), call.options.reading);
    let _lock = match lock_place(rt, target) {
        Ok(lock) => lock,
        Err(refusal) => return refuse(rt, read, target.reported(), &[], &Outcome::from(refusal)),
    };
    let mut files = ReadFiles {
        names: Vec::new(rt.alloc()),
        texts: Vec::new(rt.alloc()),
    };
    for name in call.words {
        let status = read_layer(rt, named, call, name.as_str(), &mut files);
        if status != 0 {
            return status;
        }
    }
    layer_read(rt, call, &files)
}

// Reads a file, or the drop-ins of a folder, and answers the exit status.
fn read_layer(
    rt: &HostRuntime,
    named: Option<Encoding>,
    call: Call<'_>,
    name: &str,
    files: &mut ReadFiles,
) -> u8 {
    let read = call.options.reading;
    if !is_folder(rt, name) {
        return match files.read(rt, named, name) {
            Ok(()) => 0,
            Err(refusal) => refuse(rt, read, name, &[], &Outcome::from(refusal)),
        };
    }
    let found = match drop_ins(rt, name) {
        Ok(found) => found,
        Err(refusal) => return refuse(rt, read, name, &[], &Outcome::from(refusal)),
    };
    for file in &found {
        if let Err(refusal) = files.read(rt, named, file.as_str()) {
            return refuse(rt, read, file.as_str(), &[], &Outcome::from(refusal));
        }
    }
    0
}

// Whether there is a folder of the name; `-` is standard input.
fn is_folder(rt: &HostRuntime, name: &str) -> bool {
    if name == "-" {
        return false;
    }
    match fs::metadata(rt, name) {
        Ok(metadata) => metadata.is_dir(),
        Err(_) => false,
    }
}

// The drop-ins of a folder: what ends with `.conf` there, and doesn't begin with a dot; by the bytes of
// their names.
fn drop_ins(rt: &HostRuntime, folder: &str) -> Result<Vec<String>, Error> {
    let mut found = Vec::new(rt.alloc());
    for entry in fs::read_dir(rt, folder).map_err(Error::Io)? {
        let entry = entry.map_err(Error::Io)?;
        let name = entry.file_name();
        if name.ends_with(".conf") && !name.starts_with('.') {
            let path = String::from_str(rt.alloc(), entry.path().to_string_lossy())?;
            found.push(path).map_err(AllocError::from)?;
        }
    }
    found.sort_unstable();
    Ok(found)
}

// What comes of files that were read: their document, or its pairs with their places.
fn end_of(rt: &HostRuntime, call: Call<'_>, files: &ReadFiles) -> LayersEnd {
    let (options, rule, switches) = (call.options, call.dialect.lookup, call.choices.switches);
    let (names, texts) = (files.names.as_slice(), files.texts.as_slice());
    if switches.origin {
        return layers_with_origins(
            rt.alloc(),
            rule,
            options.reading,
            switches.null,
            names,
            texts,
        );
    }
    layered(rt.alloc(), rule, options, call.separator(), texts)
}

// Lays files over each other that were read, and hands on what comes of them.
fn layer_read(rt: &HostRuntime, call: Call<'_>, files: &ReadFiles) -> u8 {
    let (read, target) = (call.options.reading, Target::of_layers(call));
    match end_of(rt, call, files) {
        LayersEnd::Done(text) => {
            let coding = Coding::told();
            match write_output(rt, coding, target, None, text.as_slice()) {
                Ok(()) => 0,
                Err(refusal) => refuse(rt, read, target.reported(), &[], &Outcome::from(refusal)),
            }
        }
        LayersEnd::File(index, refusal) => {
            let name = files.names.get(index).map_or("", |name| name.as_str());
            let text = files
                .texts
                .get(index)
                .map_or(b"".as_slice(), |text| text.as_slice());
            refuse(rt, read, name, text, &Outcome::from(refusal))
        }
        LayersEnd::Refused(refusal) => {
            let is_of_separator = matches!(refusal, EditError::Separator);
            let status = refuse(rt, read, "", &[], &Outcome::Refused(refusal));
            if is_of_separator {
                note_reason(rt, Reason::NoSeparator, None);
            }
            status
        }
    }
}
