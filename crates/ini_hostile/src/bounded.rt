//! Many calls in a heap of few bytes: what is dropped is given back, and what is streamed isn't kept.
use crate::devices::StepReader;
use crate::scarce::Famine;
use crate::show::{joined, numbered};
use ini::{Error, Ini, ParseOption, Properties, Watched};
use std::alloc::Global;
use std::panic::Expect;
use std::process::Abort;

/// How many blocks of 64 KB the documents have.
const BLOCKS: usize = 4;

/// How many documents are made: they would run out where each kept 32 bytes.
const MANY: usize = 10_000;

/// What is done with a document before it is dropped.
#[derive(Clone, Copy)]
enum Before {
    Nothing,
    Walk,
    Clear,
    Delete,
}

// Whether it is loaded and that is done.
fn is_done(alloc: Global, text: &str, before: Before) -> bool {
    let Ok(mut document) = Ini::load_from_str(alloc, text) else {
        return false;
    };
    match before {
        Before::Nothing => true,
        Before::Walk => document.into_iter().next().is_some(),
        Before::Clear => {
            document.clear();
            document.is_empty()
        }
        Before::Delete => document.delete(Some("section 19")).is_some(),
    }
}

// Twenty sections, and a section of twenty pairs: more than those that have no index.
#[test]
fn documents_that_are_dropped_give_their_memory_back(rt: HostRuntime) {
    let sections = numbered(&rt, "[section @]\nkey=value\n", 0, 20);
    let pairs = numbered(&rt, "key @=value @\n", 0, 20);
    let text = joined(&rt, &[sections.as_str(), pairs.as_str()]);
    let mut famine = Famine::new(&rt);
    famine.leave_blocks(&rt, BLOCKS);
    for _ in 0..MANY {
        for before in [Before::Nothing, Before::Walk, Before::Clear, Before::Delete] {
            assert!(rt; is_done(rt.alloc(), &text, before));
        }
    }
}

// Appends so many pairs, and takes each out again.
fn append_and_remove(pairs: &mut Properties, times: usize) -> Result<(), Error> {
    for _ in 0..times {
        pairs.append("key", "value")?;
        let _ = pairs.remove("key");
    }
    Ok(())
}

#[test]
fn holes_take_no_more_memory_than_pairs(rt: HostRuntime) {
    for count in [0, 20] {
        let mut pairs = Properties::new(rt.alloc());
        for number in 0..count {
            assert!(rt;
                pairs
                    .append(&numbered(&rt, "@", number, 1), "value")
                    .is_ok()
            );
        }
        let mut famine = Famine::new(&rt);
        famine.leave_blocks(&rt, 1);
        assert!(rt; append_and_remove(&mut pairs, 20_000).is_ok());
    }
}

/// How many bytes there are for a text that is streamed.
const ROOM: usize = 3_000_000;

// Reads the text, and answers the number of its pairs.
fn pairs_read(alloc: Global, reader: &mut StepReader<'_>) -> Result<usize, Error> {
    let mut input = Watched::new(reader);
    let document = Ini::read_watched(alloc, &mut input, ParseOption::default(), true)?;
    match document.section(None) {
        Some(section) => Ok(section.iter().size_hint().0),
        None => Ok(0),
    }
}

// A thousand pairs, each on a line of 10,000 bytes.
#[test]
fn a_long_text_goes_by_in_large_pieces(rt: HostRuntime) {
    let blanks = " ".repeat(rt.alloc(), 9_990).expect(&rt, "memory");
    let line = joined(&rt, &["key=value", blanks.as_str(), "\n"]);
    let text = line.repeat(rt.alloc(), 1000).expect(&rt, "memory");
    let mut reader = StepReader::new(text.as_bytes(), usize::MAX);
    let _famine = Famine::with_room(&rt, ROOM);
    let pairs = pairs_read(rt.alloc(), &mut reader);
    assert!(rt; matches!(pairs, Ok(1000)));
    assert!(rt; reader.least_asked >= 4096 && reader.calls <= text.len() / 4096);
}
