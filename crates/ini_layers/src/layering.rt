//! One document over another: this file knows which values of a document count, and sets them.
ghost use Rattle.std.specs.Prelude.{◌≡◌, IsOkUnless, OnOk, alloc_error};
ghost use Rattle.ini.specs.Texts.{str_name};
ghost use Rattle.ini_layers.specs.Layering.{with_keys, with_layer};

use ini::{Error, Ini, Properties};
use std::alloc::Global;

/// Sets each key of the first section of each name to its first value there.
pub fn merge_document(alloc: Global, layer: &Ini, merged: &mut Ini) -> Result<(), Error>
    ensures set { OnOk result (merged.new ≡ with_layer merged.old layer.now) }
    ensures only_memory { IsOkUnless result (Error.Memory alloc_error) }
{
    for name in layer.sections() {
        if let Some(section) = layer.section(name) {
            merge_section(alloc, name, section, merged)?;
        }
    }
    Ok(())
}

// Sets each key of the section, in order, to its first value there.
fn merge_section(
    alloc: Global,
    name: Option<&str>,
    section: &Properties,
    merged: &mut Ini,
) -> Result<(), Error>
    ensures set { OnOk result (merged.new ≡ with_keys (str_name name.entry) section.now merged.old) }
    ensures only_memory { IsOkUnless result (Error.Memory alloc_error) }
{
    for (key, value) in section {
        let value = section.get(key).unwrap_or(value);
        let key = String::from_str(alloc, key)?;
        let value = String::from_str(alloc, value)?;
        merged.set_to(name, key, value)?;
    }
    Ok(())
}
