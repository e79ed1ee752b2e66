//! Tests that are hard on the library, over the public calls of the other crates: devices that fail at each
//! of their calls (`devices` has them), each request for memory refused in turn (`scarce` runs the heap
//! down), and the multimap beside a plain list (`compare`), whose keys are texts, and two odd types that are
//! lawful all the same: one whose code is always 7, and one that is equal without case.
//!
//! Expected answers come from the format's description and from the Rust crate, never from this program.
#![tactic(auto)]

#[cfg(test)]
mod bounded;
#[cfg(test)]
mod compare;
#[cfg(test)]
mod devices;
#[cfg(test)]
mod edits;
#[cfg(test)]
mod growth;
mod key;
#[cfg(test)]
mod layers;
#[cfg(test)]
mod loading;
#[cfg(test)]
mod long_texts;
#[cfg(test)]
mod multimap;
#[cfg(test)]
mod no_memory;
#[cfg(test)]
mod reading;
#[cfg(test)]
mod ruled;
#[cfg(test)]
mod scarce;
#[cfg(test)]
mod show;
#[cfg(test)]
mod sources;
#[cfg(test)]
mod watched;
#[cfg(test)]
mod writing;

pub use key::{Flat, NoCase};
