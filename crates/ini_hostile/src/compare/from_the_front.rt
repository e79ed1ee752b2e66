//! Pairs that are taken from the front one by one. A walk doesn't go over the holes there again, so a million
//! pairs take about a second; else they would take minutes, and a test has one.
use ini_multimap::Multimap;
use std::panic::Expect;
use std::process::Abort;

/// How many pairs there are.
const PAIRS: u32 = 1_000_000;

// The numbers below `PAIRS` in order, and texts of them for keys.
fn numbers(rt: &(impl Abort + AllocGlobal)) -> Multimap<String, u32> {
    let mut map = Multimap::new(rt.alloc());
    for number in 0..PAIRS {
        let key = format!(in rt.alloc(); "{number}").expect(rt, "memory");
        assert!(rt; map.append(key, number).is_ok());
    }
    map
}

// The first key, by the walk over the keys or over the pairs.
fn first(map: &Multimap<String, u32>, of_keys: bool) -> Option<&String> {
    if of_keys {
        return map.keys().next();
    }
    match map.iter().next() {
        Some((key, _)) => Some(key),
        None => None,
    }
}

// Takes out each first pair.
fn take_out(rt: &(impl Abort + AllocGlobal), of_keys: bool) {
    let mut map = numbers(rt);
    for number in 0..PAIRS {
        let key = first(&map, of_keys).expect(rt, "a pair");
        let key = key.clone().expect(rt, "memory");
        assert!(rt; map.remove(key.as_str()) == Some(number));
    }
    assert!(rt; map.is_empty());
}

#[test]
fn each_first_pair_of_a_million_is_taken_out(rt: HostRuntime) {
    take_out(&rt, false);
}

#[test]
fn each_first_key_of_a_million_is_taken_out(rt: HostRuntime) {
    take_out(&rt, true);
}
