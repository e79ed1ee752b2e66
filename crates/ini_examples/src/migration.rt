//! A migration: names and keys changed in place, and what is given out loads as the migrated document.
ghost use Rattle.std.specs.Prelude.{◌≡◌, IfOk, IfSome, OnOk, chars};
ghost use Rattle.ini.specs.Texts.{text_of};
ghost use Rattle.ini_examples.specs.Migrations.{IsMigration, migrated};

use ini::laws::loads_back;
use ini::{Error, Ini, ParseOption, WriteOption};
use std::alloc::Global;

/// The text with `[database]` named `[db]`, its `hostname` named `host`, and without `[cache]`; nothing where
/// what would be given out doesn't load as that.
pub fn migrate(alloc: Global, text: &str) -> Result<Option<String>, Error>
    ensures { IfOk result (λ given. IfSome given
        (λ after. IsMigration (chars text.now) (text_of after))) }
{
    let mut document = Ini::load_from_str(alloc, text)?;
    migrate_document(&mut document)?;
    let (write, read) = (WriteOption::default(), ParseOption::default());
    if !document.is_plain(&write, read) {
        return Ok(None);
    }
    loads_back(&document, &write, read);
    Ok(Some(document.to_text(alloc, write)?))
}

// The document, migrated.
fn migrate_document(document: &mut Ini) -> Result<(), Error>
    ensures { OnOk result (document.new ≡ migrated document.old) }
{
    document.rename_section(Some("database"), Some("db"))?;
    document.rename_key_in(Some("db"), "hostname", "host")?;
    document.delete_all(Some("cache"));
    Ok(())
}
