//! The calls of a text in pieces that stays open: parsed once, looked up and edited many times, and every
//! byte that an edit isn't about stays.

pub(crate) mod changes;
pub(crate) mod comments;
pub(crate) mod differences;
pub(crate) mod documents;
pub(crate) mod listing;
pub(crate) mod look_ups;
pub(crate) mod merging;
pub(crate) mod names;
pub(crate) mod opening;
pub(crate) mod repeated;
pub(crate) mod under_rules;
pub(crate) mod values;
