//! Layers while memory is refused: a document that can't be pushed comes back, and layers that can't be
//! merged stay.
use crate::scarce::{Attempt, refusals, refused};
use crate::show::{expect_shown, loaded};
use ini::{Error, Ini};
use ini_layers::{Layers, NoLayer};
use std::alloc::Global;
use std::process::Abort;

/// Layers that a document is pushed on; where there is none, they are merged.
#[derive(Drop)]
struct Layering {
    layers: Layers,
    len: usize,
    document: Option<Ini>,
    merged: Option<Ini>,
}

impl Attempt for Layering {
    fn is_ready(&mut self, _alloc: Global) -> bool {
        self.layers.len() == self.len && self.merged.is_none()
    }

    fn make(&mut self, _alloc: Global) -> Result<(), Error> {
        if let Some(document) = self.document.take() {
            return match self.layers.push(document) {
                Ok(()) => Ok(()),
                Err(NoLayer { doc }) => {
                    let same = doc.get_from(None, "k") == Some("v");
                    self.document = Some(doc);
                    refused(same)
                }
            };
        }
        self.merged = Some(self.layers.merged()?);
        Ok(())
    }
}

// Layers without any document.
fn no_layers(rt: &impl AllocGlobal) -> Layering {
    Layering {
        layers: Layers::new(rt.alloc()),
        len: 0,
        document: None,
        merged: None,
    }
}

#[test]
fn each_request_of_push_is_refused(rt: HostRuntime) {
    let mut layering = no_layers(&rt);
    let mut refused: usize = 0;
    for len in 0..9 {
        layering.len = len;
        layering.document = Some(loaded(&rt, "k=v\n"));
        refused = refused.saturating_add(refusals(&rt, "push", 1, &mut layering));
    }
    assert!(rt; refused > 0 && layering.layers.len() == 9);
}

// Of the two layers the later one has a section twice.
#[test]
fn each_request_of_merged_is_refused(rt: HostRuntime) {
    let mut layering = no_layers(&rt);
    layering.len = 2;
    for text in ["k=1\n[a]\nx=1\n", "[a]\nx=2\ny=3\n[a]\nz=9\n"] {
        assert!(rt; layering.layers.push(loaded(&rt, text)).is_ok());
    }
    assert!(rt; refusals(&rt, "merged", 1, &mut layering) > 0);
    let merged = layering.merged.expect(&rt, "a document");
    expect_shown(&rt, &merged, "general: <k|1> [a]: <x|2> <y|3> ");
}
