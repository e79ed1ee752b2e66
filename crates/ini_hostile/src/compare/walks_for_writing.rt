//! A walk for writing changes what it lends: keys, order, number and all other values stay.
use super::calls::expect_pairs;
use crate::show::text;
use ini_multimap::Multimap;
use std::process::Abort;

// The keys of two pairs a, with pairs of two other keys before, between and after them; and the same with
// pairs that are taken out again.
const KEYS: [&'static str; 2] = ["y z a y z a z y", "- y z a y - z a z y -"];

// Pairs of the keys, numbered from 1 on; where dashes stand there are holes.
fn sample(rt: &(impl Abort + AllocGlobal), keys: &str) -> Multimap<String, u32> {
    let mut m: Multimap<String, u32> = Multimap::new(rt.alloc());
    let mut number: u32 = 0;
    for key in keys.split(' ') {
        number = number.saturating_add(u32::from(key != "-"));
        assert!(rt; m.append(text(rt, key), number).is_ok());
    }
    for _ in 0..3 {
        let _ = m.remove("-");
    }
    m
}

// A step of a walk: from the front where the letter is `f`, else from the back.
fn step<I: DoubleEndedIterator>(walk: &mut I, end: char) -> Option<I::Item>
    requires front { I.can_next walk.old }
    requires back { I.can_next_back walk.old }
{
    if end == 'f' {
        walk.next()
    } else {
        walk.next_back()
    }
}

// Adds 100 to what the walk over one key lends; each letter of `ends` is a step.
fn write_values(m: &mut Multimap<String, u32>, key: &str, ends: &str) {
    let mut walk = m.get_all_mut(key);
    for end in ends.chars() {
        let lent = step(&mut walk, end);
        if let Some(value) = lent {
            *value = value.wrapping_add(100);
        }
    }
}

// The same by the walk over all pairs.
fn write_pairs(m: &mut Multimap<String, u32>, ends: &str) {
    let mut walk = m.iter_mut();
    for end in ends.chars() {
        let lent = step(&mut walk, end);
        if let Some((_, value)) = lent {
            *value = value.wrapping_add(100);
        }
    }
}

/// The key that is walked over, or none for all pairs, the steps, and the pairs then.
const ROWS: [(Option<&'static str>, &'static str, &'static str); 16] = [
    (Some("a"), "", "y 1;z 2;a 3;y 4;z 5;a 6;z 7;y 8;"),
    (Some("a"), "f", "y 1;z 2;a 103;y 4;z 5;a 6;z 7;y 8;"),
    (Some("a"), "b", "y 1;z 2;a 3;y 4;z 5;a 106;z 7;y 8;"),
    (Some("a"), "fb", "y 1;z 2;a 103;y 4;z 5;a 106;z 7;y 8;"),
    (Some("a"), "bf", "y 1;z 2;a 103;y 4;z 5;a 106;z 7;y 8;"),
    (Some("a"), "fff", "y 1;z 2;a 103;y 4;z 5;a 106;z 7;y 8;"),
    (Some("a"), "bbb", "y 1;z 2;a 103;y 4;z 5;a 106;z 7;y 8;"),
    (Some("none"), "", "y 1;z 2;a 3;y 4;z 5;a 6;z 7;y 8;"),
    (Some("none"), "fb", "y 1;z 2;a 3;y 4;z 5;a 6;z 7;y 8;"),
    (None, "", "y 1;z 2;a 3;y 4;z 5;a 6;z 7;y 8;"),
    (None, "ff", "y 101;z 102;a 3;y 4;z 5;a 6;z 7;y 8;"),
    (None, "bb", "y 1;z 2;a 3;y 4;z 5;a 6;z 107;y 108;"),
    (None, "fbf", "y 101;z 102;a 3;y 4;z 5;a 6;z 7;y 108;"),
    (
        None,
        "fffffffff",
        "y 101;z 102;a 103;y 104;z 105;a 106;z 107;y 108;",
    ),
    (
        None,
        "bbbbbbbbb",
        "y 101;z 102;a 103;y 104;z 105;a 106;z 107;y 108;",
    ),
    (
        None,
        "fbfbfbfbfb",
        "y 101;z 102;a 103;y 104;z 105;a 106;z 107;y 108;",
    ),
];

#[test]
fn a_walk_changes_what_it_lends(rt: HostRuntime) {
    for (key, ends, want) in ROWS {
        for keys in KEYS {
            let mut m = sample(&rt, keys);
            match key {
                Some(key) => write_values(&mut m, key, ends),
                None => write_pairs(&mut m, ends),
            }
            expect_pairs(&rt, &m, want);
        }
    }
}
