//! Dialects: what a file means to the program that it belongs to, where this is no matter of reading.
//!
//! A `Lookup` is a rule: which sections of a name are looked at, which value of a key counts, whether case
//! tells keys apart. `get`, `set` and their like go by one. From the text of a value come bools, numbers,
//! sizes and spans of time. An `Encoding` makes a text of bytes that are no UTF-8, and bytes of a text.
#![tactic(auto)]

mod character;
mod coding;
mod comment_edit;
mod edit;
mod encoding;
mod flattened;
mod get;
mod guessing;
mod key_edit;
pub mod laws;
mod layers;
mod list_edit;
mod lists;
mod number;
mod presets;
mod rule;
mod ruled_text;
mod section_edit;
mod source;
mod typed;
mod walk;

pub use coding::{DecodeError, EncodeError};
pub use encoding::Encoding;
pub use guessing::{Guess, count_warnings, guesses};
pub use lists::{list_text, list_values};
pub use presets::{Dialect, NamedDialect, dialects};
pub use rule::{CaseRule, Lookup, SectionRule, ValueRule};
pub use source::PairNumber;
pub use typed::{as_bool, as_duration, as_float, as_integer, as_size};
pub use walk::AnyDocument;
