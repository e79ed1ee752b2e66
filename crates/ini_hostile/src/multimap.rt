//! Each request for memory of a growing call of the multimap refused in turn.
use crate::scarce::{Attempt, refusals, refused};
use crate::show::{expect, joined, numbered, text};
use ini::Error;
use ini_multimap::Multimap;
use std::alloc::{AllocError, Global};
use std::process::Abort;

/// Texts under texts.
type Map = Multimap<String, String>;

/// The growing calls.
#[derive(Clone, Copy)]
enum Call {
    Append,
    AppendUnindexed,
    MakeIndex,
    Insert,
    RemoveAll,
    Clone,
}

/// A call that is made at a key with the value `v` on a multimap of these pairs.
#[derive(Drop)]
struct Growth<'a> {
    call: Call,
    key: &'a str,
    map: Map,
    pairs: &'a str,
    given: Option<(String, String)>,
}

// What follows `<key|value>` at a text's front. None where that doesn't stand there.
fn after_pair<'t>(text: &'t str, key: &str, value: &str) -> Option<&'t str> {
    let rest = text.strip_prefix("<")?.strip_prefix(key)?;
    rest.strip_prefix("|")?
        .strip_prefix(value)?
        .strip_prefix(">")
}

impl Growth<'_> {
    // Whether the multimap has these pairs, in order.
    fn has(&self, want: &str) -> bool {
        let mut rest = want;
        for (key, value) in &self.map {
            match after_pair(rest, key.as_str(), value.as_str()) {
                Some(following) => rest = following,
                None => return false,
            }
        }
        rest.is_empty()
    }

    // Makes the call, which hands back what it was given.
    fn give(&mut self, key: String, value: String) -> Result<(), Error> {
        let answer = match self.call {
            Call::Append => self.map.append(key, value),
            Call::AppendUnindexed => self.map.append_unindexed(key, value),
            _ => match self.map.insert(key, value) {
                Ok(_) => Ok(()),
                Err(back) => Err(back),
            },
        };
        match answer {
            Ok(()) => Ok(()),
            Err(back) => refused(back.key.as_str() == self.key && back.value.as_str() == "v"),
        }
    }

    // Makes the call, which is given nothing. A copy takes the multimap's place.
    fn ask(&mut self) -> Result<(), AllocError> {
        match self.call {
            Call::MakeIndex => self.map.make_index(),
            Call::RemoveAll => match self.map.remove_all(self.key) {
                Ok(_) => Ok(()),
                Err(refused) => Err(refused),
            },
            _ => {
                self.map = self.map.clone()?;
                Ok(())
            }
        }
    }
}

// A key and a value.
fn pair(alloc: Global, key: &str) -> Result<(String, String), AllocError> {
    Ok((String::from_str(alloc, key)?, String::from_str(alloc, "v")?))
}

impl Attempt for Growth<'_> {
    fn is_ready(&mut self, alloc: Global) -> bool {
        self.given = pair(alloc, self.key).ok();
        self.has(self.pairs)
    }

    fn make(&mut self, _alloc: Global) -> Result<(), Error> {
        if matches!(self.call, Call::MakeIndex | Call::RemoveAll | Call::Clone) {
            self.ask()?;
            return Ok(());
        }
        match self.given.take() {
            Some((key, value)) => self.give(key, value),
            None => Err(Error::NotUtf8),
        }
    }
}

/// The pairs that each call is made on.
const PAIRS: &'static str = "<k|1><k|2><a|3><b|4>";

/// The calls with the key, and the pairs then: of the multimap, or of its copy.
const ROWS: [(Call, &'static str, &'static str); 6] = [
    (Call::Append, "k", "<k|1><k|2><a|3><b|4><k|v>"),
    (Call::AppendUnindexed, "k", "<k|1><k|2><a|3><b|4><k|v>"),
    (Call::Append, "j", "<k|1><k|2><a|3><b|4><j|v>"),
    (Call::Insert, "j", "<k|1><k|2><a|3><b|4><j|v>"),
    (Call::RemoveAll, "k", "<a|3><b|4>"),
    (Call::Clone, "k", PAIRS),
];

// Makes the call with more and more memory until it has enough and leaves these pairs, and answers how often
// it was refused.
fn grow(rt: &(impl Abort + AllocGlobal), growth: &mut Growth<'_>, call: Call, want: &str) -> usize {
    growth.call = call;
    let refused = refusals(rt, want, 1, growth);
    expect(rt, growth.has(want), want, refused);
    refused
}

// The pairs that each call is made on.
fn few<'a>(rt: &(impl Abort + AllocGlobal), key: &'a str) -> Growth<'a> {
    let mut map: Map = Multimap::new(rt.alloc());
    for (key, value) in [("k", "1"), ("k", "2"), ("a", "3"), ("b", "4")] {
        assert!(rt; map.append(text(rt, key), text(rt, value)).is_ok());
    }
    Growth {
        call: Call::Append,
        key,
        map,
        pairs: PAIRS,
        given: None,
    }
}

#[test]
fn each_request_of_a_multimap_is_refused(rt: HostRuntime) {
    let mut refused: usize = 0;
    for (call, key, want) in ROWS {
        refused = refused.saturating_add(grow(&rt, &mut few(&rt, key), call, want));
    }
    assert!(rt; refused > ROWS.len());
}

/// How many pairs there are without an index.
const MANY: u32 = 40;

// So many pairs without an index, each of a number and `v`, which are shown so.
fn many<'a>(rt: &(impl Abort + AllocGlobal), pairs: &'a str) -> Growth<'a> {
    let mut map: Map = Multimap::new(rt.alloc());
    for number in 0..MANY {
        let key = numbered(rt, "@", number, 1);
        assert!(rt; map.append_unindexed(key, text(rt, "v")).is_ok());
    }
    Growth {
        call: Call::Append,
        key: "k",
        map,
        pairs,
        given: None,
    }
}

// An index of so many pairs has eight bytes of links for each, of which sixteen more are given each time.
#[test]
fn each_request_of_an_index_is_refused(rt: HostRuntime) {
    let pairs = numbered(&rt, "<@|v>", 0, MANY);
    let more = joined(&rt, &[pairs.as_str(), "<k|v>"]);
    let mut growth = many(&rt, &pairs);
    assert!(rt; grow(&rt, &mut growth, Call::MakeIndex, &pairs) >= 20);
    assert!(rt; grow(&rt, &mut growth, Call::MakeIndex, &pairs) == 0);
    grow(&rt, &mut growth, Call::AppendUnindexed, &more);
    let mut growth = many(&rt, &pairs);
    assert!(rt; grow(&rt, &mut growth, Call::Append, &more) >= 20);
    let map = growth.map;
    assert!(rt; map.get("k").is_some() && map.get("7").is_some() && map.get("40").is_none());
}
