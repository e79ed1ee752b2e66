//! Where a pair stands in a text in pieces, and what stands before a section. This file knows sections by
//! their calls.
ghost use Rattle.std.specs.Prelude.{◌≡◌, ◌≤◌, chars, length, MatchOption, None};
ghost use Rattle.ini.specs.Texts.{str_name};
ghost use Rattle.ini_edit.specs.NewLines.{line_end_of};
ghost use Rattle.ini_edit.specs.Inside.SourceEnds.{IsFound, IsPairAt, last_before};
ghost use Rattle.ini_edit.specs.SourcePlaces.{pair_place, section_place};
ghost use Rattle.ini_edit.specs.Sources.{text_in};

use crate::source::Source;
use crate::source::lines::LineEndSearch;
use ini_text::LineSeparator;

impl<'a> Source<'a> {
    // Where the pair of a key stands, in the first section of a name, before which so many others of the key
    // stand: the section, and the pair in it.
    pub(crate) fn place(&self, name: Option<&str>, key: &str, n: usize) -> Option<(usize, usize)>
        ensures { MatchOption result (pair_place (str_name name.entry) (chars key.now) n self.now.sections
            ≡ None)
            (λ at. IsPairAt (pair_place (str_name name.entry) (chars key.now) n self.now.sections)
            self.now.sections at.0 at.1) }
    {
        let section = self.position(name)?;
        let pair = self.sections[section].nth(key, n)?;
        Some((section, pair))
    }

    // Where the first section of a name stands.
    pub(crate) fn position(&self, name: Option<&str>) -> Option<usize>
        ensures { MatchOption result (section_place (str_name name.entry) self.now.sections ≡ None)
            (IsFound self.now.sections (section_place (str_name name.entry) self.now.sections)) }
    {
        crate::source::position(&self.sections, name)
    }

    // The last character before a section, and LF where nothing stands there.
    pub(crate) fn last_before(&self, section: usize) -> char
        requires { section ≤ length self.now.sections }
        ensures { result ≡ last_before self.now.sections section }
    {
        match section.checked_sub(1) {
            Some(before) => self.sections[before].last_char('\n'),
            None => '\n',
        }
    }

    // CR LF or LF, whichever is the first in the text; the other where it has neither.
    pub(crate) fn line_end(&self, other: LineSeparator) -> LineSeparator
        ensures { result ≡ line_end_of other (text_in self.now) }
    {
        let mut search = LineEndSearch::new();
        for section in &self.sections {
            search = section.search_line_end(search);
            if search.found().is_some() {
                return search.found().unwrap_or(other);
            }
        }
        other
    }
}
