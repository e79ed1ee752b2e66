//! Items: what a text gives, one after another. This file knows no grammar.
ghost use Rattle.std.specs.Prelude.{◌≡◌, IfOk};
ghost use Rattle.ini_text.specs.Parsing.Items.{borrowed_item_of, item_of};

use std::alloc::{AllocError, Global};
use std::borrow::CowStr;

/// One item of a text.
#[derive(Debug, Drop)]
pub enum Item {
    /// The name of a section that begins here.
    Header(String),
    /// A key and its value, of the section that began last.
    Pair(String, String),
}

/// One item of a text. What stands there as it is read is borrowed; what doesn't, as a value with escapes, is
/// owned.
#[derive(Debug, Drop)]
pub enum BorrowedItem<'a> {
    /// The name of a section that begins here.
    Header(CowStr<'a>),
    /// A key and its value, of the section that began last.
    Pair(CowStr<'a>, CowStr<'a>),
}

impl BorrowedItem<'_> {
    /// The item in strings of its own. What is owned isn't copied. Refused when out of memory alone.
    #[inline(always)]
    pub fn into_owned(self, alloc: Global) -> Result<Item, AllocError>
        ensures { IfOk result (λ item. item_of item ≡ borrowed_item_of self.entry) }
    {
        match self {
            BorrowedItem::Header(name) => Ok(Item::Header(name.into_owned(alloc)?)),
            BorrowedItem::Pair(key, value) => {
                let key = key.into_owned(alloc)?;
                Ok(Item::Pair(key, value.into_owned(alloc)?))
            }
        }
    }
}
