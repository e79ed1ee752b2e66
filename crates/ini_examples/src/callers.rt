//! Functions as callers of `ini` write them, each proved from `ini`'s contracts and laws alone. They are to
//! be read; the program runs the loops of `walks` alone.
pub mod edited;
pub mod entries;
pub mod general;
pub mod loaded;
pub mod refusals;
pub mod refused;
pub mod texts;
pub mod walks;
