//! Documents of INI files: texts in, edits, texts out.
//!
//! An `Ini` is seen as the list of its sections, each a name and the list of its pairs; a text as the
//! list of its characters. Loading puts the items of a text into sections, writing puts sections into a
//! text; what a text means and how a name, a key or a value is written is said by `ini_text`, where each
//! pair stands by `ini_multimap`.
#![tactic(auto)]

mod document;
pub mod edits;
mod entry;
mod file;
mod index;
mod items;
mod iter;
pub mod laws;
mod load;
mod name;
mod plain;
mod properties;
mod rename;
mod setter;
mod streaming;
mod write;

pub use document::Ini;
pub use entry::{NoRoom, SectionEntry, SectionOccupiedEntry, SectionVacantEntry};
pub use ini_text::{
    Error, EscapePolicy, Gatherer, Item, LineSeparator, ParseError, ParseKind, ParseOption, Parser,
    Watched, WriteOption, is_plain_name, is_plain_pair, is_plain_separator, write_escaped,
    write_raw,
};
pub use iter::{
    PropertiesIntoIter, PropertyIter, PropertyIterMut, PropertyValues, RemovedValues, SectionAll,
    SectionAllMut, SectionIntoIter, SectionIter, SectionIterMut, SectionNames,
};
pub use name::{LentName, SectionKey, SectionName};
pub use properties::{Properties, PropertyKey};
pub use setter::SectionSetter;
