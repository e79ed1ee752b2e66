//! Several documents: in layers, as a program's settings come (the distribution's, the machine's, the
//! user's), of which the last one that has a key counts; and beside each other: what differs between two,
//! setting by setting, and three-way merges.
//!
//! `Layers` is seen as the list of its documents. What is said of differences is of look-ups alone: comments,
//! blanks, order and spelling are none. Under a dialect's rule documents are flattened before, and changes
//! are made by the rule's edits. A key's value is the one that counts, or the list of all.
#![tactic(auto)]

mod applying;
mod change;
mod comments;
mod difference;
mod documents;
mod finder;
mod iter;
pub mod laws;
mod layering;
mod layers;
mod merging;

pub use applying::{apply, apply_by, apply_in_place, apply_in_place_by};
pub use change::{Change, SettingValue};
pub use comments::commented;
pub use difference::diff;
pub use documents::to_document;
pub use iter::DocumentIter;
pub use layers::{Layers, NoLayer};
pub use merging::{Conflict, FlatSides, Side, merge};
