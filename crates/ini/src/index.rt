//! Sections by `document[name]`. This file knows the calls of a document that answer a section.
ghost use Rattle.std.specs.Prelude.{◌≡◌, IsSome, Some, chars};
ghost use Rattle.std.specs.Borrow.{sem};
ghost use Rattle.ini.specs.Texts.{str_name, str_text};
ghost use Rattle.ini.specs.Documents.{first_section};
ghost use Rattle.ini.specs.Lends.{lends_found_section};

use crate::document::Ini;
use crate::properties::Properties;
use std::ops::{Index, IndexMut};

/// The first section of a name that is there: `section` is the test.
impl Index<Option<&str>> for Ini {
    type Output = Properties;

    ghost can_index = { λ d name. IsSome (first_section (str_name name) d) };

    ghost index_gives = { λ d name section. first_section (str_name name) d ≡ Some section };

    fn index(&self, name: Option<&str>) -> &Properties {
        self.section(name).unwrap()
    }
}

/// The first section of a name that is there, for writing. The rest stays.
impl IndexMut<Option<&str>> for Ini {
    fn index_mut(&mut self, name: Option<&str>) -> &mut Properties
        requires { IsSome (first_section (str_name name) self.old) }
        ensures* writes_back { sem 𝓛 (lends_found_section self.entry (str_name name.entry) result) }
        ensures section { first_section (str_name name.entry) self.old ≡ Some result.now }
    {
        self.section_mut(name).unwrap()
    }
}

/// As by `Some(name)`.
impl Index<&str> for Ini {
    type Output = Properties;

    ghost can_index = { λ d name. IsSome (first_section (Some (str_text name)) d) };

    ghost index_gives = { λ d name section. first_section (Some (str_text name)) d ≡ Some section };

    fn index(&self, name: &str) -> &Properties {
        self.section(Some(name)).unwrap()
    }
}

/// As by `Some(name)`.
impl IndexMut<&str> for Ini {
    fn index_mut(&mut self, name: &str) -> &mut Properties
        requires { IsSome (first_section (Some (chars name.now)) self.old) }
        ensures* writes_back { sem 𝓛 (lends_found_section self.entry (Some (chars name.now)) result) }
        ensures section { first_section (Some (chars name.now)) self.old ≡ Some result.now }
    {
        self.section_mut(Some(name)).unwrap()
    }
}
