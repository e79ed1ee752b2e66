//! Whether a stretch of an element, or a place of a value, is a trap. These files know characters, and no
//! element.

pub(crate) mod keys;
pub(crate) mod lines;
pub(crate) mod lost_lines;
pub(crate) mod quotes;
pub(crate) mod values;
