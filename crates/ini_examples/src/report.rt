//! Two layers of settings, and a value of them with the layer that gives it.
ghost use Rattle.std.specs.Prelude.{◌≡◌, ◌++◌, ◌∷◌, [], IfOk, IfSome, OnOk, chars};
ghost use Rattle.ini.specs.Texts.{str_name};
ghost use Rattle.ini_examples.specs.Reports.{IsReport};

use ini::{Error, Ini};
use ini_layers::Layers;
use std::alloc::{AllocError, Global};

/// A value, and the number of its layer: 0 is the system's, 1 the user's.
#[derive(Drop)]
pub struct Report {
    /// The value.
    pub value: String,
    /// Which layer gives it.
    pub layer: usize,
}

/// The value of a key over the system's text and the user's, and which of them gives it.
pub fn find_value(
    alloc: Global,
    system: &str,
    user: &str,
    name: Option<&str>,
    key: &str,
) -> Result<Option<Report>, Error>
    ensures { IfOk result (λ found. IfSome found
        (IsReport (chars system.now) (chars user.now) (str_name name.entry) (chars key.now))) }
{
    let mut layers = Layers::new(alloc);
    push(&mut layers, Ini::load_from_str(alloc, system)?)?;
    push(&mut layers, Ini::load_from_str(alloc, user)?)?;
    let Some(layer) = layers.origin(name, key) else {
        return Ok(None);
    };
    let Some(value) = layers.get_from(name, key) else {
        return Ok(None);
    };
    let value = String::from_str(alloc, value)?;
    Ok(Some(Report { value, layer }))
}

// Puts a document last.
fn push(layers: &mut Layers, document: Ini) -> Result<(), Error>
    ensures { OnOk result (layers.new ≡ layers.old ++ document ∷ []) }
{
    match layers.push(document) {
        Ok(()) => Ok(()),
        Err(_) => Err(Error::Memory(AllocError)),
    }
}
