//! The text of INI files: read one item at a time, and written, escaped, to devices that are watched.
#![tactic(auto)]

mod buffer;
mod byte_order_mark;
mod device;
mod error;
mod item;
mod lanes;
pub mod laws;
mod lines;
mod option;
mod parser;
mod plain;
mod text;
mod write;

pub use byte_order_mark::{
    BYTE_ORDER_MARK, has_byte_order_mark, text_bytes, without_byte_order_mark,
};
pub use device::Watched;
pub use error::{Error, ParseError, ParseKind};
pub use item::{BorrowedItem, Item};
pub use lines::whole_lines;
pub use option::{LoneLine, ParseOption};
pub use parser::Parser;
pub use parser::line::past_note;
pub use parser::placed::{Content, PairPlaces, PlacedElement, PlacedPair};
pub use plain::{is_plain_name, is_plain_pair, is_plain_separator, is_plain_value};
pub use text::{
    front_before, is_blank, is_column_one, is_comment_mark, is_line_end, is_same_text, split_first,
    split_last, starts_line,
};
pub use write::gather::Gatherer;
pub use write::option::{LineSeparator, WriteOption};
pub use write::policy::EscapePolicy;
pub use write::{write_escaped, write_raw};
