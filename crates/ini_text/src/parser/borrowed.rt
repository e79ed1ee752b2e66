//! Items that borrow. This file knows what `parser` knows.
ghost use Rattle.std.specs.Prelude.{◌≡◌, None, Ok, IfSome, IsErrAnd, OnErr};
ghost use Rattle.ini_text.specs.Parsing.Parser.{AnswersBorrowed, KeepsRefusal, TellsRefusal};

use crate::error::Error;
use crate::item::BorrowedItem;
use crate::parser::{Parser, error_at, find_item};

impl<'a> Parser<'a> {
    /// The next item, and `None` at the text's end. What stands there as it is read is borrowed.
    ///
    /// The rest is as `next_item` has it. Owned are names, keys and values with escapes, values with quotes,
    /// and where they are enabled indented keys whose blanks are kept and values whose next line is empty or
    /// begins with a blank; nothing else takes memory.
    #[inline(always)]
    pub fn next_borrowed(&mut self) -> Result<Option<BorrowedItem<'a>>, Error>
        ensures option { self.new.option ≡ self.old.option }
        ensures text { self.new.text ≡ self.old.text }
        ensures item { self.old.refusal ≡ None
            → AnswersBorrowed self.old.option self.old.text self.old.front self.new.front result }
        ensures ended { self.old.refusal ≡ None → self.old.front ≡ self.old.text → result ≡ Ok None }

        // A refusal is kept, and reported again.
        ensures refused_again { IfSome self.old.refusal (λ refusal. IsErrAnd result (TellsRefusal refusal)) }
        ensures refusal { KeepsRefusal self.old.refusal self.new.refusal result }
        ensures stays { OnErr result (self.new.front ≡ self.old.front) }
    {
        if let Some(stop) = self.refusal {
            return Err(error_at(self.text, stop));
        }
        match find_item(
            self.alloc,
            &mut self.scratch,
            &mut self.rests,
            self.text,
            self.rest,
            &self.option,
        ) {
            Ok((item, rest)) => {
                self.rest = rest;
                Ok(item)
            }
            Err(stop) => Err(self.refuse(stop)),
        }
    }
}
