//! What layers answer, and what is written of them once they are merged.
use ini::{Ini, WriteOption};
use ini_layers::Layers;
use std::panic::Expect;
use std::process::Abort;
use std::test::Fail;

/// The documents of the texts, in order.
pub(crate) fn layers_of(rt: &(impl Abort + AllocGlobal), texts: &[&'static str]) -> Layers {
    let alloc = rt.alloc();
    let mut layers = Layers::new(alloc);
    for text in texts {
        let document = Ini::load_from_str(alloc, text).expect(rt, "a document");
        assert!(rt; layers.push(document).is_ok());
    }
    layers
}

/// Texts of layers, in order.
type Texts = &'static [&'static str];

const SECTIONS_OF_ONE_NAME: Texts = &["k=1\n[a]\nx=1\n", "[a]\nx=2\ny=3\n[a]\nz=9\n"];

const THREE: Texts = &["k=1\n[a]\nx=1\n", "[a]\nx=2\ny=3\n[a]\nz=9\n", "[b]\nx=4\n"];

/// The first section of the name has the key in the first layer alone.
const WITHOUT_THE_KEY: Texts = &["[a]\nx=1\n", "[a]\n[a]\nx=2\n"];

const REPEATED_KEY: Texts = &["x=1\nx=2\n[e]\n"];

/// Layers, a name, a key, the value, and the number of the layer that it is of.
const VALUES: [(
    Texts,
    Option<&'static str>,
    &'static str,
    Option<&'static str>,
    Option<usize>,
); 14] = [
    (&[], None, "k", None, None),
    (SECTIONS_OF_ONE_NAME, Some("a"), "x", Some("2"), Some(1)),
    (SECTIONS_OF_ONE_NAME, Some("a"), "y", Some("3"), Some(1)),
    (SECTIONS_OF_ONE_NAME, Some("a"), "z", None, None),
    (SECTIONS_OF_ONE_NAME, Some("b"), "x", None, None),
    (SECTIONS_OF_ONE_NAME, None, "k", Some("1"), Some(0)),
    (SECTIONS_OF_ONE_NAME, None, "x", None, None),
    (THREE, Some("a"), "x", Some("2"), Some(1)),
    (THREE, Some("a"), "z", None, None),
    (THREE, Some("b"), "x", Some("4"), Some(2)),
    (THREE, None, "k", Some("1"), Some(0)),
    (THREE, None, "x", None, None),
    (WITHOUT_THE_KEY, Some("a"), "x", Some("1"), Some(0)),
    (REPEATED_KEY, None, "x", Some("1"), Some(0)),
];

#[test]
fn the_last_layer_that_has_the_key_counts(rt: HostRuntime) {
    for (texts, name, key, value, origin) in VALUES {
        let layers = layers_of(&rt, texts);
        let is_found = layers.get_from(name, key) == value && layers.origin(name, key) == origin;
        assert!(rt; is_found, "{texts:?} {key}");
    }
}

/// Layers, and what is written of them as one document.
const WRITTEN: [(Texts, &'static str); 8] = [
    (&[], ""),
    (SECTIONS_OF_ONE_NAME, "k=1\n\n[a]\nx=2\ny=3\n"),
    (WITHOUT_THE_KEY, "[a]\nx=1\n"),
    (REPEATED_KEY, "x=1\n"),
    (&["x=1\ny=1\n", "z=2\nx=2\n"], "x=2\ny=1\nz=2\n"),
    (
        &["[b]\nx=1\n", "[a]\ny=2\n[b]\nx=2\n"],
        "[b]\nx=2\n\n[a]\ny=2\n",
    ),
    (&["[a]\n[b]\nx=1\n", "[a]\ny=2\n"], "[b]\nx=1\n\n[a]\ny=2\n"),
    (&["[a]\nx=1\n", "k=2\n"], "k=2\n\n[a]\nx=1\n"),
];

#[test]
fn merged_layers_are_written(rt: HostRuntime) -> Result<(), Fail> {
    for (texts, want) in WRITTEN {
        let merged = layers_of(&rt, texts).merged()?;
        let text = merged.to_text(rt.alloc(), WriteOption::default())?;
        assert!(rt; text.as_str() == want, "{texts:?}");
    }
    Ok(())
}

#[test]
fn layers_without_values(rt: HostRuntime) -> Result<(), Fail> {
    let alloc = rt.alloc();
    let mut layers = Layers::new(alloc);
    assert!(rt; layers.is_empty() && layers.len() == 0);
    assert!(rt; layers.merged()?.len() == 1);
    let mut document = Ini::load_from_str(alloc, "k=1\n[a]\nx=1\n")?;
    document.clear();
    assert!(rt; layers.push(document).is_ok());
    let merged = layers.merged()?;
    assert!(rt; merged.len() == 1 && merged.general_section().is_empty());
    Ok(())
}

/// Whether the document that is there, if any, has this value.
fn is_value(document: Option<&Ini>, want: Option<&str>) -> bool {
    match document {
        Some(document) => document.get_from(None, "k") == want,
        None => want.is_none(),
    }
}

#[test]
fn documents_come_from_both_ends(rt: HostRuntime) {
    let layers = layers_of(&rt, &["k=1\n", "k=2\n", "k=3\n"]);
    assert!(rt; layers.len() == 3 && !layers.is_empty());
    let mut documents = layers.iter();
    assert!(rt; is_value(documents.next(), Some("1")));
    assert!(rt; is_value(documents.next_back(), Some("3")));
    assert!(rt; is_value(documents.next(), Some("2")));
    assert!(rt; is_value(documents.next_back(), None));
}

// So many layers: each sets x of section a, and opens a section of its own.
fn many_layers(rt: &(impl Abort + AllocGlobal), count: usize) -> Layers {
    let alloc = rt.alloc();
    let mut layers = Layers::new(alloc);
    for number in 0..count {
        let text = format!(in alloc; "[a]\nx={number}\n[{number}]\nk=v\n");
        let text = text.expect(rt, "memory");
        let document = Ini::load_from_str(alloc, &text).expect(rt, "a document");
        assert!(rt; layers.push(document).is_ok());
    }
    layers
}

#[test]
fn many_layers_are_merged(rt: HostRuntime) {
    for (count, last) in [(9, "8"), (17, "16"), (300, "299")] {
        let layers = many_layers(&rt, count);
        let is_last = layers.get_from(Some("a"), "x") == Some(last);
        assert!(rt;
            is_last && layers.get_from(Some("0"), "k") == Some("v"),
            "{count}"
        );
        let merged = layers.merged().expect(&rt, "memory");
        assert!(rt; merged.len() == count.saturating_add(2), "{count}");
        let is_last = merged.get_from(Some("a"), "x") == Some(last);
        assert!(rt;
            is_last && merged.get_from(Some(last), "k") == Some("v"),
            "{count}"
        );
    }
}
