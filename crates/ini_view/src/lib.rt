//! Documents that are only read, and borrow their texts from the text that they were loaded from.
//!
//! A `View` is seen as an `Ini` is, as the list of its sections, and its clauses are those of `Ini`. The
//! crate knows the parser, the multimap and the public calls of `ini`.
#![tactic(auto)]

mod copy;
mod iter;
pub mod laws;
mod load;
mod section;
mod text;
mod view;

pub use iter::{ViewIter, ViewNames, ViewPairs, ViewValues};
pub use section::ViewSection;
pub use view::View;
