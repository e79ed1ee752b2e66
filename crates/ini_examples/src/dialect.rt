//! A value as git finds it: sections of one name are read as one, the last value counts, and case tells
//! neither names nor keys apart.
ghost use Rattle.std.specs.Prelude.{◌≡◌, Some, chars, codes, option_and_then};
ghost use Rattle.std.specs.Option.{option_map};
ghost use Rattle.ini.specs.Texts.{str_text};
ghost use Rattle.ini_dialect.specs.Dialects.{dialect_of};
ghost use Rattle.ini_dialect.specs.Lookups.{value_under};

use ini::Ini;
use ini_dialect::{AnyDocument, Dialect};

/// The value of the key that counts in the sections of the name.
pub fn git_value<'d>(document: &'d Ini, section: &str, key: &str) -> Option<&'d str>
    ensures { option_map str_text result ≡ option_and_then
        (λ git. value_under git.lookup (Some (chars section.now)) (chars key.now) document.now)
        (dialect_of (codes "git")) }
{
    let git = Dialect::of_name("git")?;
    git.lookup
        .get(AnyDocument::Ini(document), Some(section), key)
}
