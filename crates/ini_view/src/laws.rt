//! The law of views, the contract of a function that does nothing.
ghost use Rattle.std.specs.Prelude.{◌≡◌, chars};
ghost use Rattle.ini.specs.Loading.{IsDocumentOf};

use crate::view::View;
use ini::{Ini, ParseOption};

/// A view and an `Ini` of the same text, by the same options, are the same document. Since the clauses of
/// both speak of the document alone, each call of the view answers what that of `Ini` answers.
pub fn same_document(text: &str, read: ParseOption, view: &View<'_>, document: &Ini)
    requires view { IsDocumentOf read (chars text.now) view.now }
    requires document { IsDocumentOf read (chars text.now) document.now }
    ensures { view.now ≡ document.now }
{}
