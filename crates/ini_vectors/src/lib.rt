//! Callers that write and load (`reloads`), which prove by the laws what they answer; and the tests over the
//! public calls of the other crates that take code.
//!
//! Expected answers come from the format's description and from the Rust crate, never from this program. A
//! test that has the name of one of the Rust crate's tests asks what that one asks.
#![tactic(auto)]

pub mod reloads;
#[cfg(test)]
mod tests;
