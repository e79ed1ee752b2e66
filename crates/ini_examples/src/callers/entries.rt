//! Entries that are looked at and let go, and entries that are refused.
ghost use Rattle.std.specs.Prelude.{◌≡◌, is_some};
ghost use Rattle.ini.specs.Texts.{name_of};
ghost use Rattle.ini.specs.Documents.{first_section};
ghost use Rattle.ini.specs.Entries.{InSameDocument, occupied};

use ini::{Ini, Properties, SectionEntry, SectionKey, SectionOccupiedEntry};

/// Whether a section has the name. The document stays as it is.
pub fn is_occupied(document: &mut Ini, name: SectionKey) -> bool
    ensures same { document.new ≡ document.old }
    ensures there { result ≡ is_some (first_section (name_of name) document.old) }
{
    match document.entry(name) {
        SectionEntry::Occupied(entry) => {
            entry.into_document();
            true
        }
        SectionEntry::Vacant(entry) => {
            entry.into_document();
            false
        }
    }
}

/// Looks at the general section's place and lets it go.
pub fn look(document: &mut Ini)
    ensures { document.new ≡ document.old }
{
    document.entry(None).into_document();
}

/// Appends a section, if the name has one; whether it went in.
pub fn appended(entry: &mut SectionOccupiedEntry<'_>, section: Properties) -> bool
    ensures { InSameDocument (occupied entry.old) (occupied entry.new) }
{
    !entry.append(section).is_err()
}

/// Opens a section, if the name has none; whether it is there now.
pub fn opened(document: &mut Ini, name: SectionKey, section: Properties) -> bool {
    let SectionEntry::Vacant(entry) = document.entry(name) else {
        return true;
    };
    if entry.insert(section).is_err() {
        return false;
    }
    true
}
