//! Walks of a multimap under one trait, read from either end or from both in turn.
use super::TextKey;
use super::list::PlainList;
use crate::show::expect;
use ini_multimap::{IntoIter, Iter, IterMut, Keys, Multimap, Probe, Removed, Values, ValuesMut};
use std::process::Abort;

/// The key and the value of an item that is wanted, or none where the walk is to have ended.
pub type Wanted<'w> = Option<(&'w str, u32)>;

// Whether an item with this key and this value is wanted, as far as it has them.
fn is_wanted(want: Wanted<'_>, key: Option<&str>, value: Option<u32>) -> bool {
    match want {
        Some(want) => key.unwrap_or(want.0) == want.0 && value.unwrap_or(want.1) == want.1,
        None => false,
    }
}

// Takes an item from the front or the back.
fn take<I: DoubleEndedIterator>(walk: &mut I, from_back: bool) -> Option<I::Item>
    requires front { I.can_next walk.old }
    requires back { I.can_next_back walk.old }
{
    if from_back {
        walk.next_back()
    } else {
        walk.next()
    }
}

/// A walk over pairs, keys or values.
pub trait Walk: Drop {
    /// Takes an item from the front or the back. Whether it is the one that is wanted, in its key and its
    /// value as far as the walk gives them.
    fn gives(&mut self, from_back: bool, want: Wanted<'_>) -> bool;
}

impl<K: TextKey> Walk for Iter<'_, K, u32> {
    fn gives(&mut self, from_back: bool, want: Wanted<'_>) -> bool {
        match take(self, from_back) {
            Some((key, value)) => is_wanted(want, Some(key.text()), Some(*value)),
            None => want.is_none(),
        }
    }
}

impl<K: TextKey> Walk for IterMut<'_, K, u32> {
    fn gives(&mut self, from_back: bool, want: Wanted<'_>) -> bool {
        match take(self, from_back) {
            Some((key, value)) => is_wanted(want, Some(key.text()), Some(*value)),
            None => want.is_none(),
        }
    }
}

impl<K: TextKey> Walk for IntoIter<K, u32> {
    fn gives(&mut self, from_back: bool, want: Wanted<'_>) -> bool {
        match take(self, from_back) {
            Some((key, value)) => is_wanted(want, Some(key.text()), Some(value)),
            None => want.is_none(),
        }
    }
}

impl<K: TextKey> Walk for Keys<'_, K, u32> {
    fn gives(&mut self, from_back: bool, want: Wanted<'_>) -> bool {
        match take(self, from_back) {
            Some(key) => is_wanted(want, Some(key.text()), None),
            None => want.is_none(),
        }
    }
}

impl<K: TextKey, Q: Probe<K> + Copy> Walk for Values<'_, K, u32, Q> {
    fn gives(&mut self, from_back: bool, want: Wanted<'_>) -> bool {
        // Written out: the checker takes no call of `take` over a type that names a probe.
        let item = if from_back {
            self.next_back()
        } else {
            self.next()
        };
        match item {
            Some(value) => is_wanted(want, None, Some(*value)),
            None => want.is_none(),
        }
    }
}

impl<K: TextKey, Q: Probe<K> + Copy> Walk for ValuesMut<'_, K, u32, Q> {
    fn gives(&mut self, from_back: bool, want: Wanted<'_>) -> bool {
        // Written out: the checker takes no call of `take` over a type that names a probe.
        let item = if from_back {
            self.next_back()
        } else {
            self.next()
        };
        match item {
            Some(value) => is_wanted(want, None, Some(*value)),
            None => want.is_none(),
        }
    }
}

impl Walk for Removed<u32> {
    fn gives(&mut self, from_back: bool, want: Wanted<'_>) -> bool {
        match take(self, from_back) {
            Some(value) => is_wanted(want, None, Some(value)),
            None => want.is_none(),
        }
    }
}

/// Asks that the walk gives these items, each from the end that its letter names: `f` the front, `b` the
/// back. It gives none where there are more letters.
pub fn expect_walk<W: Walk>(rt: &impl Abort, walk: &mut W, ends: &str, want: &[(&str, u32)]) {
    for (turn, end) in ends.bytes().enumerate() {
        let same = walk.gives(end == b'b', want.get(turn).copied());
        expect(rt, same, ends, turn);
    }
}

/// From which end a walk is read.
#[derive(Clone, Copy)]
pub enum Order {
    Front,
    Back,
    BothInTurn,
}

pub const ORDERS: [Order; 3] = [Order::Front, Order::Back, Order::BothInTurn];

impl Order {
    // Whether item number `turn` of the reading comes from the back.
    fn is_from_back(self, turn: usize) -> bool {
        match self {
            Order::Front => false,
            Order::Back => true,
            Order::BothInTurn => turn % 2 == 1,
        }
    }

    // Where that item stands among `len` items.
    fn index(self, turn: usize, len: usize) -> usize {
        let from_its_end = match self {
            Order::Front | Order::Back => turn,
            Order::BothInTurn => turn / 2,
        };
        if self.is_from_back(turn) {
            len.saturating_sub(1).saturating_sub(from_its_end)
        } else {
            from_its_end
        }
    }
}

/// Asks that the walk gives the pairs that stand at these places of the list, as far as it gives them, and
/// then none from either end.
pub fn same_walk<K: TextKey, W: Walk>(
    rt: &impl Abort,
    order: Order,
    mut walk: W,
    list: &PlainList<K>,
    places: &[usize],
) {
    for turn in 0..places.len() {
        let want = match places.get(order.index(turn, places.len())) {
            Some(at) => list.reported(*at),
            None => None,
        };
        let same = want.is_some() && walk.gives(order.is_from_back(turn), want);
        expect(rt, same, "a walk", turn);
    }
    let ends = walk.gives(false, None) && walk.gives(true, None);
    assert!(rt; ends, "the end of a walk");
}

/// The same of the walk over the values of what a probe asks for.
pub fn same_values<K: TextKey, Q: Probe<K> + Copy>(
    rt: &impl Abort,
    order: Order,
    map: &Multimap<K, u32>,
    q: Q,
    list: &PlainList<K>,
    places: &[usize],
) {
    same_walk(rt, order, map.get_all(q), list, places);
}
