//! Whether a document is plain, so that its text loads back as the document. This file knows the order of
//! sections, and leaves names, pairs and the separator to `ini_text`.
ghost use Rattle.std.specs.Prelude.{◌↔◌, All, IsTrue};
ghost use Rattle.ini.specs.Plain.{IsPlain};
ghost use Rattle.ini.specs.Inside.PlainSections.{ArePlainPairs, HasPlainName, IsPlainSection};
ghost use Rattle.ini.specs.Texts.{str_name};

use crate::document::Ini;
use crate::iter::SectionIter;
use crate::properties::Properties;
use ini_text::{
    EscapePolicy, ParseOption, WriteOption, is_plain_name, is_plain_pair, is_plain_separator,
};

impl Ini {
    /// Whether the document is plain: to be asked before it is saved. A plain document, written by `write`,
    /// loads by `read` as just this document; some that aren't plain do so too.
    ///
    /// It is plain where one general section stands at the front and each section after it has a name, the
    /// names and pairs are plain (`is_plain_name`, `is_plain_pair`), and so is what stands between keys and
    /// values (`is_plain_separator`). Nothing is written for the answer: it takes no memory, and time
    /// linear in the document.
    pub fn is_plain(&self, write: &WriteOption, read: ParseOption) -> bool
        ensures { IsTrue result ↔ IsPlain self.now write.now read }
    {
        let mut sections = self.iter();
        let Some((None, general)) = sections.next() else {
            return false;
        };
        is_plain_separator(write.kv_separator)
            && are_plain_pairs(general, write.escape_policy, read)
            && are_plain_sections(sections, write.escape_policy, read)
    }
}

// Whether each section that is left has a plain name and plain pairs.
fn are_plain_sections(
    mut sections: SectionIter<'_>,
    policy: EscapePolicy,
    read: ParseOption,
) -> bool
    ensures { IsTrue result ↔ All (IsPlainSection read policy) sections.entry }
{
    sections.all(|(name, pairs)| is_plain_section(name, pairs, policy, read))
}

fn is_plain_section(
    name: Option<&str>,
    pairs: &Properties,
    policy: EscapePolicy,
    read: ParseOption,
) -> bool
    ensures { IsTrue result ↔ IsPlainSection read policy (str_name name.entry, pairs.now) }
{
    has_plain_name(name, policy, read) && are_plain_pairs(pairs, policy, read)
}

// Whether there is a name, which is plain.
fn has_plain_name(name: Option<&str>, policy: EscapePolicy, read: ParseOption) -> bool
    ensures { IsTrue result ↔ HasPlainName read policy (str_name name.entry) }
{
    match name {
        Some(name) => is_plain_name(name, policy, read),
        None => false,
    }
}

fn are_plain_pairs(pairs: &Properties, policy: EscapePolicy, read: ParseOption) -> bool
    ensures { IsTrue result ↔ ArePlainPairs read policy pairs.now }
{
    pairs
        .iter()
        .all(|(key, value)| is_plain_pair(key, value, policy, read))
}
