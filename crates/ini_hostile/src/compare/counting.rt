//! What calls ask of the keys: `code` and `==` a few times, however many pairs there are; among few pairs,
//! one code is made, and keys are compared from the first on that has its low byte.
ghost use Rattle.std.specs.Prelude.{string_bytes, bytes_eq};
ghost use Rattle.std.proofs.Common.{rules};
ghost use Rattle.std.specs.Cmp.Rules.{comparing};
ghost use Rattle.std.specs.Ordering.{on};
ghost use Rattle.std.specs.Cmp.Lexicographic.{nat_list_eq_equiv, pointwise};
ghost use Rattle.ini_multimap.specs.Keys.{text_code};
ghost use Rattle.ini_multimap.specs.KeyLaws.{text_code-eq};

use crate::show::{expect, numbered};
use ini_multimap::{MapKey, Multimap};
use std::cell::Cell;
use std::process::Abort;

/// A text that counts the calls of `code` and `==`, together with the other keys that share the count.
#[derive(Drop)]
struct Key<'a> {
    text: String,
    calls: &'a Cell<u32>,
}

impl Key<'_> {
    fn count(&self) {
        self.calls.set(self.calls.get().saturating_add(1));
    }
}

impl PartialEq for Key<'_> {
    ghost eq = { λ a b. bytes_eq (string_bytes a.text) (string_bytes b.text) };

    ghost laws = { Prim.search (comparing, rules) };

    fn eq(&self, other: &Self) -> bool {
        self.count();
        self.text.as_str() == other.text.as_str()
    }
}

impl Eq for Key<'_> {
    ghost laws = { Prim.search (comparing, rules) };
}

impl MapKey for Key<'_> {
    ghost key_code = { λ k. text_code (string_bytes k.text) };

    ghost equal_codes = { λ x y. text_code-eq (string_bytes x.text) (string_bytes y.text) };

    fn code(&self) -> u64 {
        self.count();
        self.text.code()
    }
}

/// Pairs whose keys share a count.
type Map<'a> = Multimap<Key<'a>, u32>;

/// How many pairs there are.
const PAIRS: u32 = 2000;

/// How many calls of `code` and `==` a call of the multimap may make.
const FEW: u32 = 8;

/// A call at the key of a number.
#[derive(Clone, Copy)]
enum Call {
    /// Answers the number, which is the value.
    Append,
    /// The same, by `append_unindexed`.
    AppendUnindexed,
    /// Answers the number, which is the value.
    Insert,
    Remove,
    /// Answers how many values were removed.
    RemoveAll,
    Get,
    /// Answers how many values there are.
    GetAll,
    GetMut,
    /// `get_nth_mut` of the second pair.
    GetSecond,
    /// Answers 0.
    MakeIndex,
    /// Answers how many keys there are, by a walk over them.
    Keys,
    LenKeys,
}

// A value that is lent for writing.
fn lent(value: Option<&mut u32>) -> Option<u32> {
    match value {
        Some(value) => Some(*value),
        None => None,
    }
}

// Makes the call at the key, which is the one of the number.
fn ask<'a>(map: &mut Map<'a>, call: Call, key: Key<'a>, number: u32) -> Option<u32> {
    match call {
        Call::Append => map.append(key, number).is_ok().then_some(number),
        Call::AppendUnindexed => map.append_unindexed(key, number).is_ok().then_some(number),
        Call::Insert => map.insert(key, number).is_ok().then_some(number),
        Call::Remove => map.remove(&key),
        Call::RemoveAll => match map.remove_all(&key) {
            Ok(removed) => u32::try_from(removed.count()).ok(),
            Err(_) => None,
        },
        Call::Get => map.get(&key).copied(),
        Call::GetAll => u32::try_from(map.get_all(&key).count()).ok(),
        Call::GetMut => lent(map.get_mut(&key)),
        Call::GetSecond => lent(map.get_nth_mut(&key, 1)),
        Call::MakeIndex => map.make_index().is_ok().then_some(0),
        Call::Keys => u32::try_from(map.keys().count()).ok(),
        Call::LenKeys => u32::try_from(map.len_keys()).ok(),
    }
}

/// What calls answer.
#[derive(Clone, Copy)]
enum Gives {
    /// The key's number.
    Number,
    Nothing,
    /// This one.
    Count(u32),
}

/// A call, the keys from one number up to another that it is made at, what it answers, and how many calls of
/// `code` and `==` it makes at most, at all keys.
type Row = (Call, u32, u32, Gives, u32);

/// Asks that the calls answer so, by at most so many calls of `code` and `==`, whose number it answers.
fn expect_few<'a>(
    rt: &(impl Abort + AllocGlobal),
    calls: &'a Cell<u32>,
    map: &mut Map<'a>,
    (call, first, end, gives, most): Row,
) -> u32 {
    calls.set(0);
    for number in first..end {
        let text = numbered(rt, "@", number.wrapping_add(1000), 1);
        let want = match gives {
            Gives::Number => Some(number),
            Gives::Nothing => None,
            Gives::Count(count) => Some(count),
        };
        let key = Key { text, calls };
        expect(
            rt,
            ask(map, call, key, number) == want,
            "number",
            number as usize,
        );
    }
    let made = calls.get();
    expect(rt, made <= most, "calls", made as usize);
    made
}

/// Look-ups among many pairs, of a key that is there and of one that isn't.
const LOOKS: [Row; 5] = [
    (Call::Get, 1900, 1901, Gives::Number, FEW),
    (Call::Get, 5000, 5001, Gives::Nothing, FEW),
    (Call::GetAll, 1900, 1901, Gives::Count(1), FEW),
    (Call::GetMut, 1900, 1901, Gives::Number, FEW),
    (Call::GetSecond, 1900, 1901, Gives::Nothing, FEW),
];

/// Edits that leave as many pairs.
const EDITS: [Row; 4] = [
    (Call::Insert, 1900, 1901, Gives::Number, 2 * FEW),
    (Call::Insert, 6000, 6001, Gives::Number, 2 * FEW),
    (Call::Remove, 6000, 6001, Gives::Number, FEW),
    (Call::RemoveAll, 6000, 6001, Gives::Count(0), FEW),
];

/// What is done with the pairs.
#[derive(Clone, Copy)]
enum Step {
    Clear,
    Row(Row),
    /// Look-ups, and walks over so many keys.
    Looks(u32),
    Edits,
    /// The keys from one number up to another are asked for, each by one call of `code` and one of `==`.
    Two(u32, u32),
    /// A pair is appended and taken out, so many times.
    InAndOut(u32),
}

// Looks keys up, and walks over them, of which there are so many.
fn expect_looks<'a>(
    rt: &(impl Abort + AllocGlobal),
    calls: &'a Cell<u32>,
    map: &mut Map<'a>,
    count: u32,
) {
    for row in LOOKS {
        expect_few(rt, calls, map, row);
    }
    let most = FEW.saturating_mul(count);
    for call in [Call::Keys, Call::LenKeys] {
        expect_few(rt, calls, map, (call, 0, 1, Gives::Count(count), most));
    }
}

// Appends a pair and takes it out, so many times.
fn append_and_remove<'a>(
    rt: &(impl Abort + AllocGlobal),
    calls: &'a Cell<u32>,
    map: &mut Map<'a>,
    times: u32,
) {
    let mut made: u32 = 0;
    for number in 0..times {
        let number = 3000 + number % 5000;
        for call in [Call::Append, Call::Remove] {
            let row = (
                call,
                number,
                number.wrapping_add(1),
                Gives::Number,
                u32::MAX,
            );
            made = made.saturating_add(expect_few(rt, calls, map, row));
        }
    }
    expect(
        rt,
        made <= times.saturating_mul(2 * FEW),
        "append and remove",
        made as usize,
    );
}

// Takes a step.
fn take<'a>(rt: &(impl Abort + AllocGlobal), calls: &'a Cell<u32>, map: &mut Map<'a>, step: Step) {
    match step {
        Step::Clear => map.clear(),
        Step::Row(row) => {
            expect_few(rt, calls, map, row);
        }
        Step::Looks(count) => expect_looks(rt, calls, map, count),
        Step::Edits => {
            for row in EDITS {
                expect_few(rt, calls, map, row);
            }
        }
        Step::Two(first, end) => {
            for number in first..end {
                let row = (Call::Get, number, number.wrapping_add(1), Gives::Number, 2);
                expect_few(rt, calls, map, row);
            }
        }
        Step::InAndOut(times) => append_and_remove(rt, calls, map, times),
    }
}

/// An append without an index asks the first keys for their codes, and no others.
const INDEXED: [Step; 4] = [
    Step::Row((Call::Append, 0, PAIRS, Gives::Number, FEW * PAIRS)),
    Step::Looks(PAIRS),
    Step::Edits,
    Step::Looks(PAIRS),
];

/// The same after pairs went in and out.
const IN_AND_OUT: [Step; 5] = [
    Step::Row((Call::Append, 0, PAIRS, Gives::Number, FEW * PAIRS)),
    Step::InAndOut(100_000),
    Step::Looks(PAIRS),
    Step::Edits,
    Step::Looks(PAIRS),
];

/// An index is made of pairs that have none, and further ones stay out of it.
const INDEXED_LATER: [Step; 5] = [
    Step::Row((Call::AppendUnindexed, 0, 1000, Gives::Number, 16)),
    Step::Row((Call::MakeIndex, 0, 1, Gives::Count(0), 1000)),
    Step::Row((Call::MakeIndex, 0, 1, Gives::Count(0), 0)),
    Step::Row((
        Call::AppendUnindexed,
        1000,
        PAIRS,
        Gives::Number,
        FEW * 1000,
    )),
    Step::Looks(PAIRS),
];

/// Where there is an index, the pair goes into it, and those before it too.
const LAST_INDEXED: [Step; 3] = [
    Step::Row((Call::AppendUnindexed, 0, PAIRS - 1, Gives::Number, 16)),
    Step::Row((Call::Append, PAIRS - 1, PAIRS, Gives::Number, PAIRS)),
    Step::Looks(PAIRS),
];

/// The keys differ in the low byte of their codes. Where a hole has it, those after it are compared, until
/// holes are closed.
const ON_FEW: [Step; 9] = [
    Step::Row((Call::Append, 0, 16, Gives::Number, u32::MAX)),
    Step::Two(0, 16),
    Step::Row((Call::Get, 16, 17, Gives::Nothing, 1)),
    Step::Row((Call::Remove, 0, 7, Gives::Number, u32::MAX)),
    Step::Two(7, 16),
    Step::Row((Call::Get, 6, 7, Gives::Nothing, 10)),
    Step::Row((Call::Remove, 7, 9, Gives::Number, u32::MAX)),
    Step::Two(9, 16),
    Step::Row((Call::Get, 8, 9, Gives::Nothing, 1)),
];

// Takes the steps on a multimap of their own.
fn take_all(rt: &(impl Abort + AllocGlobal), steps: &[Step]) {
    let calls = Cell::new(0);
    let mut map: Map<'_> = Multimap::new(rt.alloc());
    for step in steps {
        take(rt, &calls, &mut map, *step);
    }
}

// Holes are closed when half of the pairs are out; the pairs that are left stay few to ask.
fn take_out(rt: &(impl Abort + AllocGlobal), gone: u32) {
    let steps = [
        Step::Row((Call::Append, 0, PAIRS, Gives::Number, FEW * PAIRS)),
        Step::Clear,
        Step::Row((Call::Append, 0, PAIRS, Gives::Number, FEW * PAIRS)),
        Step::Row((Call::Remove, 0, gone, Gives::Number, FEW * PAIRS)),
        Step::Looks(PAIRS.saturating_sub(gone)),
    ];
    take_all(rt, &steps);
}

#[test]
fn calls_ask_few_keys(rt: HostRuntime) {
    take_all(&rt, &INDEXED);
    take_all(&rt, &IN_AND_OUT);
    take_all(&rt, &INDEXED_LATER);
    take_all(&rt, &LAST_INDEXED);
    take_all(&rt, &ON_FEW);
    for gone in [600, 1000, 1001, 1002, 1800] {
        take_out(&rt, gone);
    }
}
