//! A multimap that keeps the order of insertion: pairs of a key and a value, of which several may
//! have one key.
//!
//! A `Multimap` is seen as the list of its pairs, and each call as a function on that list. Which
//! keys are the same is said by the key type alone (`MapKey`), and what a look-up asks for by a
//! `Probe`. The crate knows neither texts nor documents; it stands on `std` alone.
#![tactic(auto)]

mod iter;
mod key;
mod multimap;
mod slots;

pub use iter::{IntoIter, Iter, IterMut, Keys, Removed, Values, ValuesMut};
pub use key::{MapKey, Probe, code_of, is_same};
pub use multimap::{Multimap, Refused};
