//! What a look-up asks. Among many pairs, which have an index, the probe is asked at most once for a key that
//! is there, and never for a code that no key had, where the keys have codes of their own.
ghost use Rattle.std.proofs.Common.{sym};
ghost use Rattle.std.specs.Str.{bytes_eq};
ghost use Rattle.std.specs.Prelude.{string_bytes};
ghost use Rattle.std.specs.Cmp.Lexicographic.{nat_list_eq_equiv};
ghost use Rattle.ini_multimap.specs.Keys.{text_code};
ghost use Rattle.ini_multimap.specs.KeyLaws.{text_code-eq};

use crate::show::{expect, numbered};
use ini_multimap::{MapKey, Multimap, Probe};
use std::cell::Cell;
use std::panic::Expect;
use std::process::Abort;

/// A text that counts how often it is asked.
#[derive(Clone, Copy)]
struct Counting<'a> {
    text: &'a str,
    asked: &'a Cell<u32>,
}

impl Probe<String> for Counting<'_> {
    ghost fits = { λ q k. bytes_eq q.text.now (string_bytes k) };

    ghost probe_code = { λ q. text_code q.text.now };

    ghost one_class = { λ q a b. nat_list_eq_equiv.congr q.text.now (string_bytes a) (string_bytes b) };

    ghost same_code = { λ q k h. sym (text_code-eq q.text.now (string_bytes k) h) };

    fn is(&self, k: &String) -> bool {
        self.asked.set(self.asked.get().wrapping_add(1));
        self.text == k.as_str()
    }

    fn code(&self) -> u64 {
        let text = self.text;
        Probe::<String>::code(&text)
    }
}

/// Which numbers are keys.
#[derive(Clone, Copy)]
enum There {
    All,
    /// All but each third.
    NoThirds,
    None,
}

// Asks for so many numbers from `first` on, of which those that are there have their place among them for a
// value. The probe may be asked once, and never where none is there.
fn look_up(
    rt: &(impl Abort + AllocGlobal),
    map: &Multimap<String, u32>,
    (first, count): (u32, u32),
    there: There,
) {
    for number in 0..count {
        let text = numbered(rt, "@", first.wrapping_add(number), 1);
        let asked = Cell::new(0);
        let probe = Counting {
            text: &text,
            asked: &asked,
        };
        let is_there = match there {
            There::All => true,
            There::NoThirds => number % 3 != 0,
            There::None => false,
        };
        let want = if is_there { Some(number) } else { None };
        let most = u32::from(!matches!(there, There::None));
        let same = map.get(probe).copied() == want;
        expect(rt, same && asked.get() <= most, &text, asked.get() as usize);
    }
}

// A thousand keys are appended, and asked for, of a copy too; each third is taken out, and they are asked for
// again. No key has the code of another thousand.
#[test]
fn a_look_up_among_many_asks_at_most_once(rt: HostRuntime) {
    let mut map: Multimap<String, u32> = Multimap::new(rt.alloc());
    for number in 0..1000u32 {
        let key = numbered(&rt, "@", number.wrapping_add(1000), 1);
        assert!(rt; map.append(key, number).is_ok());
    }
    let copy = map.clone().expect(&rt, "memory");
    for map in [&map, &copy] {
        look_up(&rt, map, (1000, 1000), There::All);
        look_up(&rt, map, (2000, 1000), There::None);
    }
    for number in (0..1000u32).step_by(3) {
        let key = numbered(&rt, "@", number.wrapping_add(1000), 1);
        assert!(rt; map.remove(key.as_str()) == Some(number));
    }
    look_up(&rt, &map, (1000, 1000), There::NoThirds);
    look_up(&rt, &map, (2000, 1000), There::None);
}
