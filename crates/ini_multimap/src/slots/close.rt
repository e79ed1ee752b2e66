//! The closing of holes, in place: the slots that hold something move down, and then the chains are
//! made anew.
ghost use Rattle.std.specs.Prelude.{◌≡◌, ◌<◌, ◌^◌, length, None};
ghost use Rattle.std.specs.Bool.{OnTrue};
ghost use Rattle.ini_multimap.specs.Slots.{pairs_in, pairs_of};
ghost use Rattle.ini_multimap.specs.Inside.Fits.{holes_in, value_in};
ghost use Rattle.ini_multimap.specs.Inside.Chains.{IsIndexed};
ghost use Rattle.ini_multimap.specs.Inside.Moves.{MovesDown};

use super::Slots;
use super::chains::Chains;
use super::find::count_pairs;
use super::tags::Tags;
use crate::key::MapKey;

impl<K: MapKey, V> Slots<K, V> {
    // Closes the holes where they outnumber the slots that hold something. It takes no memory.
    pub(crate) fn close_if_sparse(&mut self)
    where
        K: Drop,
        ensures { pairs_of self.new ≡ pairs_of self.old }
    {
        if self.keys.len() - self.holes < self.holes {
            close_holes(&mut self.keys, &mut self.values, &mut self.index);
            self.holes = count_holes(self.keys.as_slice());
            self.leading = 0;
            let pairs = count_pairs(self.keys.as_slice(), self.values.as_slice());
            self.is_paired = pairs == self.keys.len() - self.holes;
            self.tags = Tags::of_keys(self.keys.as_slice());
        }
    }
}

// Closes the holes.
fn close_holes<K: MapKey + Drop, V>(
    keys: &mut Vec<Option<K>>,
    values: &mut Vec<Option<V>>,
    index: &mut Option<Box<Chains>>,
)
    requires long { length values.old.items ≡ length keys.old.items }
    requires indexed { IsIndexed K.key_code keys.old.items index.old }
    ensures long { length values.new.items ≡ length keys.new.items }
    ensures indexed { IsIndexed K.key_code keys.new.items index.new }
    ensures pairs { pairs_in keys.new.items values.new.items ≡ pairs_in keys.old.items values.old.items }
    ensures moves { MovesDown keys.old.items keys.new.items }
{
    move_down(keys, values);
    drop_last_holes(keys, values);
    if let Some(chains) = index {
        chains.relink(keys.as_slice());
    }
}

// How many slots have no key.
fn count_holes<K>(keys: &[Option<K>]) -> usize
    requires { length keys.now < 2 ^ 64 }
    ensures { result ≡ holes_in keys.now }
{
    let mut holes = 0;
    let mut rest = keys;
    while let Some((key, more)) = rest.split_first() {
        if key.is_none() {
            holes += 1;
        }
        rest = more;
    }
    holes
}

fn is_hole<K, V>(keys: &[Option<K>], values: &[Option<V>], s: usize) -> bool
    requires long { length values.now ≡ length keys.now }
    requires within { s < length keys.now }
    ensures { OnTrue result (value_in keys.now s ≡ None) }
{
    match (&keys[s], &values[s]) {
        (None, None) => true,
        _ => false,
    }
}

// Each slot that holds something changes places with the first hole before it.
fn move_down<K, V>(keys: &mut Vec<Option<K>>, values: &mut Vec<Option<V>>)
    requires long { length values.old.items ≡ length keys.old.items }
    ensures long { length values.new.items ≡ length keys.new.items }
    ensures pairs { pairs_in keys.new.items values.new.items ≡ pairs_in keys.old.items values.old.items }
    ensures keys { MovesDown keys.old.items keys.new.items }
{
    let mut full = 0;
    for s in 0..keys.len() {
        if !is_hole(keys.as_slice(), values.as_slice(), s) {
            keys.swap(full, s);
            values.swap(full, s);
            full += 1;
        }
    }
}

// The holes at the end go.
fn drop_last_holes<K: Drop, V>(keys: &mut Vec<Option<K>>, values: &mut Vec<Option<V>>)
    requires long { length values.old.items ≡ length keys.old.items }
    ensures long { length values.new.items ≡ length keys.new.items }
    ensures pairs { pairs_in keys.new.items values.new.items ≡ pairs_in keys.old.items values.old.items }
    ensures keys { MovesDown keys.old.items keys.new.items }
{
    while let Some(key) = keys.pop() {
        match values.pop() {
            Some(None) => {
                if key.is_some() {
                    keys.push_reserved(key);
                    values.push_reserved(None);
                    return;
                }
            }
            Some(Some(value)) => {
                keys.push_reserved(key);
                values.push_reserved(Some(value));
                return;
            }
            None => unreachable!(),
        }
    }
}
