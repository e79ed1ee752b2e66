//! The multimap: each call once, and the same calls on it and on a plain list, every reply and every walk
//! compared. The keys are made of texts.
use ini_multimap::MapKey;

mod both;
mod calls;
mod counting;
mod from_the_front;
mod list;
mod look_ups;
mod run;
mod walks;
mod walks_for_writing;

/// A key that is made of a text and shows it.
pub trait TextKey: MapKey + Drop {
    /// The key of a text.
    fn of_text(text: String) -> Self;

    /// Its text as it was given.
    fn text(&self) -> &str;
}

impl TextKey for String {
    fn of_text(text: String) -> Self {
        text
    }

    fn text(&self) -> &str {
        self.as_str()
    }
}

impl TextKey for crate::Flat {
    fn of_text(text: String) -> Self {
        crate::Flat(text)
    }

    fn text(&self) -> &str {
        self.0.as_str()
    }
}

impl TextKey for crate::NoCase {
    fn of_text(text: String) -> Self {
        crate::NoCase(text)
    }

    fn text(&self) -> &str {
        self.0.as_str()
    }
}
