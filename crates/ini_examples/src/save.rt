//! Changing a settings file, so that a save that fails half way leaves the old one whole.
use crate::settings::is_safe_to_save;
use ini::{Error, Ini};
use std::alloc::Global;
use std::fs;
use std::path::Path;
use std::rt::Files;

/// Sets the port in the file `settings.ini`, by way of a file beside it. Answers whether what was saved
/// loads again as it is; where it doesn't, nothing is written.
pub fn set_port<R: Files>(rt: &R, alloc: Global, port: &str) -> Result<bool, Error> {
    let mut document = Ini::load_from_file(rt, alloc, Path::new("settings.ini"))?;
    document.with_general_section().set("port", port)?;
    if !is_safe_to_save(&document) {
        return Ok(false);
    }
    document.write_to_file(rt, Path::new("settings.ini.new"))?;
    fs::rename(rt, "settings.ini.new", "settings.ini").map_err(Error::Io)?;
    Ok(true)
}

/// The port in that file, as it stands there.
pub fn port_in_file<R: Files>(rt: &R, alloc: Global) -> Result<String, Error> {
    let document = Ini::load_from_file(rt, alloc, Path::new("settings.ini"))?;
    Ok(String::from_str(alloc, document.get_from_or(None, "port", "none"))?)
}
