//! Where a value stands in a text in pieces. This file knows sections and pairs by their calls.
ghost use Rattle.std.specs.Prelude.{◌≡◌, ◌≤◌, chars, length, take};
ghost use Rattle.ini.specs.Texts.{str_name};
ghost use Rattle.ini_edit.specs.Inside.SourceElementWalks.{passed};
ghost use Rattle.ini_edit.specs.SourceElements.{position_of, value_position};
ghost use Rattle.ini_edit.specs.SourcePlaces.{text_up_to};
ghost use Rattle.ini_edit.specs.Sources.{sections_text};

use crate::source::Source;
use crate::source::elements::{Position, end_of_pair, value_of_pair};
use crate::source::section::SourceSection;

impl<'a> Source<'a> {
    /// Where the value of the first pair of a key in the first section of a name begins, as it stands in the
    /// text, with its quotes; of an empty value that is where it would. `None` where there is no such pair.
    pub fn position_of_value(&self, name: Option<&str>, key: &str) -> Option<Position>
        ensures { result ≡ value_position (str_name name.entry) (chars key.now) self.now.sections }
    {
        let (section, pair) = self.place(name, key, 0)?;
        let position = self.end_of_sections(section);
        let here = &self.sections[section];
        let pairs = here.pairs();
        Some(value_of_pair(&pairs[pair], here.end_of_pairs(pair, position)))
    }

    // Where the text of so many sections ends.
    fn end_of_sections(&self, count: usize) -> Position
        requires { count ≤ length self.now.sections }
        ensures { result ≡ position_of (sections_text (take count self.now.sections)) }
    {
        let mut position = Position::first();
        for section in &self.sections[..count] {
            position = section.end_of_pairs(section.pairs().len(), position);
        }
        position
    }
}

impl<'a> SourceSection<'a> {
    // Where the section's text ends before the pair at the index, if it begins at the position.
    fn end_of_pairs(&self, index: usize, position: Position) -> Position
        requires { index ≤ length self.now.pairs }
        ensures { result ≡ passed position (text_up_to self.now (take index self.now.pairs)) }
    {
        let mut position = position.after(self.header()).after(self.after());
        for pair in &self.pairs()[..index] {
            position = end_of_pair(pair, position).after(pair.after());
        }
        position
    }
}
