//! Rows of documents in layers under a rule, and the text of their one document. It is read from the
//! definitions by hand.
use crate::tests::dialects::rule;
use crate::tests::layers::layers_of;
use ini::WriteOption;
use std::test::Fail;

type Texts = &'static [&'static str];

/// Sections and keys that come again.
const AGAIN: Texts = &["[a]\nk=1\nk=2\n[a]\nx=3\n", "[a]\ny=4\n"];

/// Names and keys of other case.
const OTHER_CASE: Texts = &["[A]\nk=1\n", "[a]\nK=2\n[a]\nk=3\n"];

/// A rule, the layers, and what is written of them as one document.
const WRITTEN: [(&'static str, Texts, &'static str); 7] = [
    ("ffk", AGAIN, "[a]\nk=1\ny=4\n"),
    ("flk", AGAIN, "[a]\nk=2\ny=4\n"),
    ("jlk", AGAIN, "[a]\nk=2\nx=3\ny=4\n"),
    ("ffi", OTHER_CASE, "[A]\nk=2\n"),
    ("jli", OTHER_CASE, "[A]\nk=3\n"),
    ("jlk", OTHER_CASE, "[A]\nk=1\n\n[a]\nK=2\nk=3\n"),
    ("jli", &[], ""),
];

#[test]
fn layers_are_merged_by_the_rule(rt: HostRuntime) -> Result<(), Fail> {
    let alloc = rt.alloc();
    for (letters, texts, want) in WRITTEN {
        let merged = rule(&rt, letters).merged(alloc, layers_of(&rt, texts).as_slice())?;
        let text = merged.to_text(alloc, WriteOption::default())?;
        assert!(rt; text.as_str() == want, "{letters}: {text}");
    }
    Ok(())
}
