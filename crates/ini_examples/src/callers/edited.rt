//! What is known after edits, by the laws of edits.
ghost use Rattle.std.specs.Prelude.{◌≡◌, ◌≤◌, false, length, IsSome, OnOk, Some, None, chars};
ghost use Rattle.ini.specs.Texts.{is_name, is_text, str_name};
ghost use Rattle.ini.specs.Properties.{all_removed};
ghost use Rattle.ini.specs.Documents.{HasGeneral, first_section, sections_named, value_in};
ghost use Rattle.ini.specs.EditLaws.{apart_from, values_in};

use ini::laws::edits;
use ini::{Error, Ini, Properties};
use std::alloc::Global;

/// Sets a value, which is there then.
pub fn set_there(
    document: &mut Ini,
    name: Option<&str>,
    key: &str,
    value: &str,
) -> Result<(), Error>
    ensures { OnOk result
        (value_in (str_name name.entry) (chars key.now) document.new ≡ Some (chars value.now)) }
{
    edits::set_is_there();
    document.with_section(name).set(key, value)?;
    Ok(())
}

/// The length of the value that was just inserted: an index finds it.
pub fn insert_then_index(properties: &mut Properties, value: &str) -> Result<usize, Error> {
    edits::inserted_is_there();
    properties.insert("k", value)?;
    Ok(properties["k"].len())
}

/// Sets the log of the paths. The general section stays as it is.
pub fn move_log(document: &mut Ini, log: &str) -> Result<(), Error>
    ensures { first_section None document.new ≡ first_section None document.old }
{
    edits::other_names_stay();
    document.with_section(Some("paths")).set("log", log)?;
    Ok(())
}

/// Sets two keys of one section. The first one's value is there still.
pub fn set_two(
    document: &mut Ini,
    name: &str,
    key: &str,
    value: &str,
    other: &str,
) -> Result<(), Error>
    requires { is_text (chars key.now) (chars other.now) ≡ false }
    ensures { OnOk result
        (value_in (Some (chars name.now)) (chars key.now) document.new ≡ Some (chars value.now)) }
{
    edits::set_is_there();
    edits::other_keys_in_the_section_stay();
    document
        .with_section(Some(name))
        .set(key, value)?
        .set(other, "")?;
    Ok(())
}

/// Adds a pair to a section that is there. The rest of the document stays as it is, in order.
pub fn add_to(document: &mut Ini, name: &str, key: &str, value: &str) -> Result<(), Error>
    requires { IsSome (first_section (Some (chars name.now)) document.old) }
    ensures { apart_from (Some (chars name.now)) (chars key.now) document.new
        ≡ apart_from (Some (chars name.now)) (chars key.now) document.old }
{
    edits::rest_stays();
    document.with_section(Some(name)).add(key, value)?;
    Ok(())
}

/// Takes out the last pair of a key of a section. The key is gone, and the sections of another name stay,
/// all of them.
pub fn delete_last(document: &mut Ini, name: &str, key: &str, other: &str)
    requires last { length (values_in (Some (chars name.now)) (chars key.now) document.old) ≤ 1 }
    requires other { is_name (Some (chars other.now)) (Some (chars name.now)) ≡ false }
    ensures gone { value_in (Some (chars name.now)) (chars key.now) document.new ≡ None }
    ensures other { sections_named (Some (chars other.now)) document.new
        ≡ sections_named (Some (chars other.now)) document.old }
{
    edits::deleted_is_gone();
    edits::other_sections_stay();
    let _ = other;
    document.with_section(Some(name)).delete(key);
}

/// Inserts a pair. The pairs of the other keys stay as they are, in order.
pub fn insert_one(properties: &mut Properties, key: &str, value: &str) -> Result<(), Error>
    ensures { all_removed (chars key.now) properties.new ≡ all_removed (chars key.now) properties.old }
{
    edits::other_pairs_stay();
    properties.insert(key, value)?;
    Ok(())
}

/// Inserts a pair in a section that is lent. The general section stays as it is.
pub fn insert_lent(document: &mut Ini, log: &str) -> Result<(), Error>
    ensures { first_section None document.new ≡ first_section None document.old }
{
    edits::other_names_stay();
    if let Some(section) = document.section_mut(Some("paths")) {
        section.insert("log", log)?;
    }
    Ok(())
}

/// A document that keeps its general section.
#[derive(Drop)]
pub struct Settings {
    document: Ini,
    ghost general: { HasGeneral document },
}

impl Settings {
    /// The settings of a text.
    pub fn load(alloc: Global, text: &str) -> Result<Settings, Error> {
        let document = Ini::load_from_str(alloc, text)?;
        Ok(Settings { document })
    }

    /// Sets a value in a section, and another one after it.
    pub fn set(&mut self, name: &str, key: &str, value: &str) -> Result<(), Error> {
        edits::sections_stay_there();
        self.document
            .with_section(Some(name))
            .set(key, value)?
            .set("edited", "yes")?;
        Ok(())
    }

    /// The first value of a key of the general section.
    pub fn get(&self, key: &str) -> Option<&str> {
        self.document.general_section().get(key)
    }
}
