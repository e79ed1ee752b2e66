//! What a text in pieces answers under a rule, as a document.
ghost use Rattle.std.specs.Prelude.{◌≡◌, IfOk};
ghost use Rattle.ini_edit.specs.Sources.{document_in};
ghost use Rattle.ini_c.specs.Changes.{answers_under};

use crate::rule::SettingRule;
use ini::{Error, Ini};
use ini_dialect::AnyDocument;
use ini_edit::Source;
use ini_layers::to_document;
use std::alloc::Global;

// By the default rule, of values that count, that is the document that it means.
pub(crate) fn document_under(
    alloc: Global,
    rule: SettingRule,
    source: &Source<'_>,
) -> Result<Ini, Error>
    ensures { IfOk result
        (λ document. document ≡ answers_under rule.which rule.lookup (document_in source.now)) }
{
    if rule.is_own() {
        to_document(alloc, source)
    } else {
        let (which, lookup) = (rule.which, rule.lookup);
        which.flat(alloc, lookup, AnyDocument::Source(source))
    }
}
