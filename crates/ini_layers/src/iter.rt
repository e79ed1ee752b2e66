//! The walk over documents, from both ends: front items and back items together are the list, each once.
ghost use Rattle.std.specs.Prelude.{◌≡◌, length, IfSome, Some};
ghost use Rattle.std.specs.Iterator.{YieldsFirstRef, YieldsLastRef, item_count, at_most, UpTo};
ghost use Rattle.std.specs.Iterator.SizeHint.{IsWithinCount};

use ini::Ini;
use std::marker::Model;
use std::slice;

/// Every document in order, lent. Seen as the list of the documents that are left.
#[derive(Drop)]
pub struct DocumentIter<'a> {
    rest: slice::Iter<'a, Ini>,
}

impl<'a> Model for DocumentIter<'a> {
    ghost use Rattle.std.specs.Prelude.{List};
    ghost use Rattle.std.specs.Slice.Iter.{iter_rest};
    ghost use Rattle.ini.specs.Documents.{Document};

    ghost Value = { List Document };

    ghost view = { λ it. iter_rest it.rest };
}

impl<'a> DocumentIter<'a> {
    pub(crate) fn new(documents: &'a [Ini]) -> Self
        ensures { result ≡ documents.now }
    {
        DocumentIter {
            rest: documents.iter(),
        }
    }
}

impl<'a> Iterator for DocumentIter<'a> {
    type Item = &'a Ini;

    ghost next_gives = { YieldsFirstRef (λ it. it) };

    ghost remaining = { item_count (λ it. it) };

    fn next(&mut self) -> Option<&'a Ini> {
        self.rest.next()
    }

    /// The number of documents left, twice.
    fn size_hint(&self) -> (usize, Option<usize>)
        ensures lower { IsWithinCount result.0 (at_most (length self.now)) }
        ensures upper { IfSome result.1 (UpTo (at_most (length self.now))) }
        ensures exact { result ≡ (length self.now, Some (length self.now)) }
    {
        let left = self.rest.len();
        (left, Some(left))
    }
}

impl<'a> DoubleEndedIterator for DocumentIter<'a> {
    ghost next_back_gives = { YieldsLastRef (λ it. it) };

    fn next_back(&mut self) -> Option<&'a Ini> {
        self.rest.next_back()
    }
}
