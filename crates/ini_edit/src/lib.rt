//! Where a pair stands in a text, laws of edited texts, of which one stretch was changed and every other
//! byte kept, and calls that set a key, add a pair, take a pair or a section out, and rename them, each alone
//! or as a list of edits.
#![tactic(auto)]

mod append;
mod edit_list;
mod edits;
mod error;
mod escape;
mod find;
mod glue;
mod key;
pub mod laws;
mod line_end;
mod quote;
mod source;
mod text;
mod walk;
mod whole_text;
mod writable;

pub use edit_list::{EditedText, RefusedEdit, make_edits};
pub use edits::{Edit, make_edit};
pub use error::EditError;
pub use find::{FoundPair, find_pair};
pub use key::is_plain_bare_key;
pub use source::Source;
pub use source::elements::{Position, SourceContent, SourceElement, SourceElements};
pub use source::layout::sort::{Sorting, sort_text};
pub use source::layout::{LaidOut, Layout, Loss, Separators, lay_out};
pub use source::pair::SourcePair;
pub use source::section::SourceSection;
pub use source::set::LaterPairs;
pub use whole_text::{add, delete, delete_section, rename_key, rename_section, set, set_existing};
pub use writable::is_writable_value;
