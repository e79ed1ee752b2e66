//! What the programs share: the words that they were started with, the options among these, the pages that
//! they ask for, how a fault names the stream where it arose, and the lines that they write of a document.
//! This crate knows no command.
#![tactic(auto)]

mod fault;
pub mod lines;
mod options;
mod page;
mod usage;
mod words;

pub use fault::with_name;
pub use options::{Options, lone_line_named, policy_named};
pub use page::{Page, page_of};
pub use words::words_of;
