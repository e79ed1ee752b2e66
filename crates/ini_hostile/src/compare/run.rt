//! The comparison over one thousand keys, and a long run of calls that are drawn by a fixed generator.
use super::TextKey;
use super::both::Both;
use super::calls::Call;
use crate::show::numbered;
use crate::{Flat, NoCase};
use ini_multimap::Probe;
use std::panic::Expect;
use std::process::Abort;

// So many texts of each word and a number.
fn texts(rt: &(impl Abort + AllocGlobal), words: &[&str], count: u32) -> Vec<String> {
    let mut texts = Vec::new(rt.alloc());
    for word in words {
        for number in 0..count {
            texts
                .push(numbered(rt, word, number, 1))
                .expect(rt, "memory");
        }
    }
    texts
}

// One thousand keys are appended, each third is taken out, the index is made over what that leaves where
// there is none yet, each fifth is inserted anew or each fourth appended again.
fn compare<'t, K: TextKey>(rt: &(impl Abort + AllocGlobal), texts: &'t [String], indexed: bool)
where
    &'t str: Probe<K>,
{
    let mut both: Both<K> = Both::new(rt.alloc());
    for (number, text) in (0..).zip(texts) {
        let (append, unindexed) = (Call::Append(number), Call::AppendUnindexed(number));
        both.call(rt, if indexed { append } else { unindexed }, text.as_str());
    }
    both.same_walks(rt, "");
    for text in texts.iter().step_by(3) {
        both.call(rt, Call::Remove, text.as_str());
    }
    both.call(rt, Call::MakeIndex, "");
    both.same_walks(rt, "");
    for (number, text) in (0..).zip(texts) {
        if indexed && number % 5 == 0 {
            both.call(rt, Call::Insert(number), text.as_str());
        }
        if !indexed && number % 4 == 0 {
            both.call(rt, Call::AppendUnindexed(number), text.as_str());
        }
    }
    both.same_walks(rt, "");
    for text in texts {
        both.look_up(rt, text.as_str());
        both.look_up_key(rt, text.as_str());
    }
    both.same_items(rt);
}

/// A fixed generator: Knuth's multiplier for words of 64 bits, of which the upper bits are used.
#[derive(Drop)]
struct Chance {
    state: u64,
}

impl Chance {
    // A number below `end`, or 0 where that is 0.
    fn below(&mut self, end: usize) -> usize {
        self.state = self
            .state
            .wrapping_mul(6364136223846793005)
            .wrapping_add(1442695040888963407);
        ((self.state >> 33) as usize).checked_rem(end).unwrap_or(0)
    }
}

// One call, drawn with its key.
fn call<'t, K: TextKey>(
    rt: &(impl Abort + AllocGlobal),
    both: &mut Both<K>,
    chance: &mut Chance,
    text: &'t str,
    value: u32,
)
where
    &'t str: Probe<K>,
{
    let drawn = match chance.below(1000) {
        0 => Call::Clear,
        1..20 => Call::SetLast(value),
        20..150 => Call::Append(value),
        150..290 => Call::AppendUnindexed(value),
        290..300 => Call::MakeIndex,
        300..500 => Call::Insert(value),
        500..650 => Call::Remove,
        650..750 => return both.remove_all(rt, text),
        750..800 => Call::SetFirst(value),
        800..850 => Call::SetNth(chance.below(4), value),
        850..900 => return both.set_all(rt, text, value),
        900..950 => return both.look_up(rt, text),
        _ => return both.look_up_key(rt, text),
    };
    both.call(rt, drawn, text);
}

// Twenty thousand calls over the texts, with the walks compared every hundred calls.
fn run<'t, K: TextKey>(rt: &(impl Abort + AllocGlobal), texts: &'t [String])
where
    &'t str: Probe<K>,
{
    let mut chance = Chance { state: 1 };
    let mut both: Both<K> = Both::new(rt.alloc());
    for number in 0..20_000 {
        let Some(text) = texts.get(chance.below(texts.len())) else {
            panic!(rt; "no texts");
        };
        call(rt, &mut both, &mut chance, text.as_str(), number);
        if number % 100 == 99 {
            both.same_walks(rt, "");
        }
    }
    both.same_items(rt);
}

/// Texts that agree without case with none of the others, and texts that do.
const WORD: [&'static str; 1] = ["Key @"];

const CASES: [&'static str; 2] = ["Key @", "kEY @"];

// All comparisons over one type of keys.
fn compare_all<'t, K: TextKey>(
    rt: &(impl Abort + AllocGlobal),
    (thousand, halves): (&'t [String], &'t [String]),
    (few, many): (&'t [String], &'t [String]),
)
where
    &'t str: Probe<K>,
{
    compare::<K>(rt, thousand, true);
    compare::<K>(rt, halves, false);
    run::<K>(rt, few);
    run::<K>(rt, many);
}

#[test]
fn keys_of_each_type_are_compared(rt: HostRuntime) {
    let (thousand, halves) = (texts(&rt, &WORD, 1000), texts(&rt, &CASES, 500));
    let (few, many) = (texts(&rt, &CASES, 8), texts(&rt, &CASES, 100));
    let compared = (thousand.as_slice(), halves.as_slice());
    let drawn = (few.as_slice(), many.as_slice());
    compare_all::<String>(&rt, compared, drawn);
    compare_all::<Flat>(&rt, compared, drawn);
    compare_all::<NoCase>(&rt, compared, drawn);
}
