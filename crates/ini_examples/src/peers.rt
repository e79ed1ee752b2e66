//! What the loops of `callers::walks` make of a document.
use crate::callers::walks::{keep, move_pairs, rename, upstreams};
use crate::settings::written;
use ini::{Error, Ini};
use std::alloc::Global;

/// Two sections of one name, and one without pairs between them.
const PEERS: &'static str = "[a]\nk=1\nk=2\n[b]\n[a]\nj=3\n";

/// The document without its empty section, with another name in place of a, and with the pairs of the first
/// section a moved to b; then the values of j that its sections a had.
pub fn walked(alloc: Global) -> Result<String, Error> {
    let mut document = Ini::load_from_str(alloc, PEERS)?;
    let kept = keep(alloc, &document)?;
    let renamed = rename(alloc, &document, "a", "c")?;
    let found = upstreams(alloc, &document, "a", "j")?;
    move_pairs(&mut document, "a", "b")?;
    let mut out = String::new(alloc);
    for part in [&kept, &renamed, &document] {
        out.push_str(&written(alloc, part)?)?;
        out.push_str("--\n")?;
    }
    for value in &found {
        out.push_str(value)?;
    }
    Ok(out)
}
