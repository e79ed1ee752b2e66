//! Edits of a document, by names, keys and values as bytes.
ghost use Rattle.std.specs.Prelude.{◌≡◌, ◌∷◌, [], ◌↔◌, IsTrue, IsSome, None, OnOk, OnErr};
ghost use Rattle.std.specs.Str.{IsUtf8, chars};
ghost use Rattle.ini.specs.Texts.{str_name};
ghost use Rattle.ini.specs.Documents.{first_section, section_removed, value_in};
ghost use Rattle.ini.specs.Edits.{add_in, delete_in, set_in};
ghost use Rattle.ini_c.specs.LookUps.{AreTexts, name_if};
ghost use Rattle.ini_c.specs.Statuses.{absent, is_among, no_memory, not_utf8, ok};

use crate::copies::{name_of, pair_of, place_of};
use crate::{ABSENT, NO_MEMORY, NOT_UTF8, OK};
use ini::{Error, Ini};

// Sets the value of the key in the first section of the name, or opens one with the pair.
fn set_text(document: &mut Ini, name: Option<&str>, key: &str, value: &str) -> Result<(), Error>
    ensures set { OnOk result
        (document.new ≡ set_in (str_name name.entry) (chars key.now) (chars value.now) document.old) }
    ensures unchanged { OnErr result (document.new ≡ document.old) }
{
    document.with_section(name).set(key, value)?;
    Ok(())
}

// The same, of bytes.
pub(crate) fn set(document: &mut Ini, named: bool, section: &[u8], key: &[u8], value: &[u8]) -> u32
    ensures not_utf8 { result ≡ not_utf8 ↔ ¬ (AreTexts section.now key.now × IsUtf8 value.now) }
    ensures set { result ≡ ok → document.new
        ≡ set_in (name_if named section.now) (chars key.now) (chars value.now) document.old }
    ensures unchanged { ¬ (result ≡ ok) → document.new ≡ document.old }
    ensures statuses { IsTrue (is_among result (ok ∷ not_utf8 ∷ no_memory ∷ [])) }
{
    let Some((name, key, value)) = pair_of(named, section, key, value) else {
        return NOT_UTF8;
    };
    match set_text(document, name, key, value) {
        Ok(_) => OK,
        Err(_) => NO_MEMORY,
    }
}

// Appends the pair to the first section of the name, or opens one with it.
fn add_text(document: &mut Ini, name: Option<&str>, key: &str, value: &str) -> Result<(), Error>
    ensures added { OnOk result
        (document.new ≡ add_in (str_name name.entry) (chars key.now) (chars value.now) document.old) }
    ensures unchanged { OnErr result (document.new ≡ document.old) }
{
    document.with_section(name).add(key, value)?;
    Ok(())
}

// The same, of bytes.
pub(crate) fn add(document: &mut Ini, named: bool, section: &[u8], key: &[u8], value: &[u8]) -> u32
    ensures not_utf8 { result ≡ not_utf8 ↔ ¬ (AreTexts section.now key.now × IsUtf8 value.now) }
    ensures added { result ≡ ok → document.new
        ≡ add_in (name_if named section.now) (chars key.now) (chars value.now) document.old }
    ensures unchanged { ¬ (result ≡ ok) → document.new ≡ document.old }
    ensures statuses { IsTrue (is_among result (ok ∷ not_utf8 ∷ no_memory ∷ [])) }
{
    let Some((name, key, value)) = pair_of(named, section, key, value) else {
        return NOT_UTF8;
    };
    match add_text(document, name, key, value) {
        Ok(_) => OK,
        Err(_) => NO_MEMORY,
    }
}

// Takes the first pair of the key out of the first section of the name.
pub(crate) fn delete(document: &mut Ini, named: bool, section: &[u8], key: &[u8]) -> u32
    ensures not_utf8 { result ≡ not_utf8 ↔ ¬ (AreTexts section.now key.now) }
    ensures deleted { result ≡ ok → document.new
        ≡ delete_in (name_if named section.now) (chars key.now) document.old }
    ensures there { result ≡ ok →
        IsSome (value_in (name_if named section.now) (chars key.now) document.old) }
    ensures absent { result ≡ absent →
        value_in (name_if named section.now) (chars key.now) document.old ≡ None }
    ensures unchanged { ¬ (result ≡ ok) → document.new ≡ document.old }
    ensures statuses { IsTrue (is_among result (ok ∷ absent ∷ not_utf8 ∷ [])) }
{
    let Some((name, key)) = place_of(named, section, key) else {
        return NOT_UTF8;
    };
    if document.get_from(name, key).is_none() {
        return ABSENT;
    }
    let _value = document.delete_from(name, key);
    OK
}

// Takes the first section of the name out.
pub(crate) fn delete_section(document: &mut Ini, named: bool, section: &[u8]) -> u32
    ensures not_utf8 { result ≡ not_utf8 ↔ ¬ (IsUtf8 section.now) }
    ensures deleted { result ≡ ok → document.new ≡ section_removed (name_if named section.now) document.old }
    ensures there { result ≡ ok → IsSome (first_section (name_if named section.now) document.old) }
    ensures absent { result ≡ absent → first_section (name_if named section.now) document.old ≡ None }
    ensures unchanged { ¬ (result ≡ ok) → document.new ≡ document.old }
    ensures statuses { IsTrue (is_among result (ok ∷ absent ∷ not_utf8 ∷ [])) }
{
    let Ok(section) = str::from_utf8(section) else {
        return NOT_UTF8;
    };
    let name = name_of(named, section);
    if document.section(name).is_none() {
        return ABSENT;
    }
    let _section = document.delete(name);
    OK
}
