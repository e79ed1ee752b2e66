//! A longer caller: typed look-ups with defaults, sections that repeat, and setters in a loop.
use crate::settings::written;
use ini::{Error, Ini, Properties};
use std::alloc::{AllocError, Global};
use std::fmt;

/// Two peers under one name, the second with its own port.
pub const TEXT: &str = "name = depot\n[peer]\nhost = a\n[peer]\nhost = b\nport = 81\nretry = no\n";

/// A peer as the program knows it.
#[derive(Drop)]
pub struct Peer {
    host: String,
    port: u16,
    retry: bool,
}

/// The settings of a fleet.
#[derive(Drop)]
pub struct Fleet {
    name: String,
    peers: Vec<Peer>,
}

/// The key's value as a number, or the default where it is missing or no such number.
fn number_or(section: &Properties, key: &str, default: u16) -> u16 {
    match section.get(key) {
        Some(value) => value.parse().unwrap_or(default),
        None => default,
    }
}

/// Whether the key's value says yes; the default where it is missing.
fn flag_or(section: &Properties, key: &str, default: bool) -> bool {
    match section.get(key) {
        Some(value) => matches!(value, "yes" | "true" | "on" | "1"),
        None => default,
    }
}

impl Peer {
    fn of(alloc: Global, section: &Properties) -> Result<Peer, AllocError> {
        Ok(Peer {
            host: String::from_str(alloc, section.get("host").unwrap_or("localhost"))?,
            port: number_or(section, "port", 80),
            retry: flag_or(section, "retry", true),
        })
    }
}

impl Fleet {
    /// The settings of a text: the name in the general section, and a peer for each section `[peer]`.
    pub fn load(alloc: Global, text: &str) -> Result<Fleet, Error> {
        let document = Ini::load_from_str(alloc, text)?;
        let mut peers = Vec::new(alloc);
        for section in document.section_all(Some("peer")) {
            peers.push(Peer::of(alloc, section)?)?;
        }
        let name = String::from_str(alloc, document.get_from_or(None, "name", "unnamed"))?;
        Ok(Fleet { name, peers })
    }
}

impl fmt::Display for Fleet {
    fn fmt<W: fmt::Write>(&self, f: &mut fmt::Formatter<W>) -> fmt::Result {
        write!(f, "{}:", self.name)?;
        for peer in &self.peers {
            write!(f, " {}:{} retry={}", peer.host, peer.port, peer.retry)?;
        }
        Ok(())
    }
}

/// The text of a document with a numbered key for each colour, in their order.
pub fn numbered(alloc: Global, colours: &[&str]) -> Result<String, Error> {
    let mut document = Ini::new(alloc)?;
    let mut setter = document.with_section(Some("colours"));
    for (number, colour) in colours.iter().enumerate() {
        let key = format!(in alloc; "colour{number}")?;
        setter = setter.set(&key, colour)?;
    }
    written(alloc, &document)
}
