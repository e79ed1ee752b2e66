//! Warnings of the format's traps: what a text says that its writer may not have meant. This crate knows
//! elements and their stretches, and writes nothing.
#![tactic(auto)]

pub mod laws;
mod lexical;
mod lower;
mod mends;
mod note;
mod position;
mod seen;
mod trap;
mod walk;
mod warn;
mod warning;

pub use mends::{mend, mended_traps};
pub use walk::check;
pub use warning::{Level, TRAPS, Trap, Warning};
