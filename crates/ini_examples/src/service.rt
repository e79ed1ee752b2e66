//! A service's settings, typed, with what is known of them by contract.
ghost use Rattle.std.specs.Prelude.{◌≡◌, ◌<◌, None, IfErr, IfOk, chars, codes};
ghost use Rattle.ini_text.specs.Options.ReadOptions.{default_parse_option};
ghost use Rattle.ini.specs.Properties.{texts_of};
ghost use Rattle.ini.specs.Documents.{value_in};
ghost use Rattle.ini.specs.EditLaws.{values_in};
ghost use Rattle.ini.specs.Loading.{IfParse, IsParseOrMemory, IsStopOf};
ghost use Rattle.ini.specs.Texts.{str_name};
ghost use Rattle.ini_examples.specs.Services.{IsServiceOf};

use ini::{Error, Ini};
use std::alloc::{AllocError, Global};

/// A service's settings.
#[derive(Drop)]
pub struct Service {
    /// What it is called.
    pub name: String,
    /// Where it listens.
    pub port: u16,
    /// Whom it asks, in order.
    pub servers: Vec<String>,
}

/// The settings of a text: `name` and `port` of the general section, and every `server` of `[upstream]`.
pub fn load(alloc: Global, text: &str) -> Result<Service, Error>
    ensures service { IfOk result (IsServiceOf (chars text.now)) }
    ensures fault { IfParse result (IsStopOf default_parse_option (chars text.now)) }
    ensures only { IfErr result IsParseOrMemory }
{
    let document = Ini::load_from_str(alloc, text)?;
    let name = String::from_str(alloc, document.get_from_or(None, "name", "unnamed"))?;
    let port = port_of(&document);
    let servers = all_values(alloc, &document, Some("upstream"), "server")?;
    Ok(Service {
        name,
        port,
        servers,
    })
}

// The port, or 80 where none is given, or one that is no port.
fn port_of(document: &Ini) -> u16
    ensures port { 0 < result }
    ensures by_default { value_in None (chars (codes "port")) document.now ≡ None → result ≡ 80 }
{
    let Some(value) = document.get_from(None, "port") else {
        return 80;
    };
    match value.parse() {
        Ok(port) if port > 0 => port,
        _ => 80,
    }
}

// All values of a key in the first section of a name.
fn all_values(
    alloc: Global,
    document: &Ini,
    name: Option<&str>,
    key: &str,
) -> Result<Vec<String>, AllocError>
    ensures { IfOk result (λ found. texts_of found.items
        ≡ values_in (str_name name.entry) (chars key.now) document.now) }
{
    let mut found = Vec::new(alloc);
    let Some(section) = document.section(name) else {
        return Ok(found);
    };
    for value in section.get_all(key) {
        found.push(String::from_str(alloc, value)?)?;
    }
    Ok(found)
}
