//! Chains that are made whole: for keys that have none yet, in one walk, and for keys that have moved down.
ghost use Rattle.std.specs.Prelude.{◌≡◌, ◌<◌, ◌≤◌, ℕ, suc, ◌∷◌, ◌++◌, [], length, nat_eq, vec_capacity};
ghost use Rattle.std.specs.Prelude.{IfOk, IsSome};
ghost use Rattle.std.specs.Bool.{OnTrue};
ghost use Rattle.std.specs.HashMap.{get, spare};
ghost use Rattle.ini_multimap.specs.Inside.Fits.{IsInjective, IsToldBy, code_at};
ghost use Rattle.ini_multimap.specs.Inside.Chains.{AreChained, HasRoom, last_of, no_slot};
ghost use Rattle.ini_multimap.specs.Inside.Moves.{IsPutAnew, IsStale, known};

use super::chains::{Chains, Link, NO_SLOT, link_after, link_to, replace_ends};
use crate::key::MapKey;
use std::alloc::{AllocError, Global};
use std::collections::HashMap;

// The code of the key in slot s.
fn code_in<K: MapKey>(keys: &[Option<K>], s: usize) -> Option<u64>
    requires { s < length keys.now }
    ensures { result ≡ code_at K.key_code keys.now s }
{
    match &keys[s] {
        Some(key) => Some(key.code()),
        None => None,
    }
}

// Slot `at` is the last of the code, in chains that are made from the front. The last before it
// comes back. Ends that don't begin before `at` are old ones, and count as none.
fn put_anew(ends: &mut HashMap<u64, (u32, u32)>, code: u64, at: u32) -> Option<u32>
    requires { IsSome (get nat_eq ends.old code) }
    ensures last { result ≡ last_of (known at (get nat_eq ends.old)) code }
    ensures ends { IsPutAnew (get nat_eq ends.old) (get nat_eq ends.new) code at }
{
    match ends.insert(code, (at, at)) {
        Ok(Some((first, last))) => {
            if first < at {
                replace_ends(ends, code, (first, at));
                Some(last)
            } else {
                None
            }
        }
        Ok(None) => None,
        Err(_) => unreachable!(),
    }
}

// The chains of keys that have none yet, and whether each code is that of one key.
pub(super) fn chain<K: MapKey>(
    alloc: Global,
    keys: &[Option<K>],
) -> Result<(Box<Chains>, bool), AllocError>
    ensures chained { IfOk result (λ both. AreChained K.key_code keys.now both.0.value) }
    ensures room { IfOk result (λ both. HasRoom both.0.value) }
    ensures known { IfOk result (λ both. OnTrue both.1 (IsInjective K.eq K.key_code keys.now)) }
{
    let (chains, is_injective) = Chains::of_keys(alloc, keys)?;
    match Box::new(alloc, chains) {
        Ok(chains) => Ok((chains, is_injective)),
        Err(_) => Err(AllocError),
    }
}

impl Chains {
    // The same, before they are boxed. All room is made at once, for one slot more too, so that nothing grows
    // in the same edit. What codes that come again leave of it is given back.
    fn of_keys<K: MapKey>(alloc: Global, keys: &[Option<K>]) -> Result<(Chains, bool), AllocError>
        ensures chained { IfOk result (λ both. AreChained K.key_code keys.now both.0) }
        ensures room { IfOk result (λ both. HasRoom both.0) }
        ensures known { IfOk result (λ both. OnTrue both.1 (IsInjective K.eq K.key_code keys.now)) }
    {
        if keys.len() >= NO_SLOT as usize {
            return Err(AllocError);
        }
        let room = keys.len() + 1;
        let mut chains = Chains {
            links: Vec::with_capacity(alloc, room)?,
            ends: HashMap::with_capacity(alloc, room)?,
        };
        let mut is_injective = true;
        for s in 0..keys.len() {
            let is_reported = chains.push_slot(&keys[..s], &keys[s]);
            is_injective = is_injective && is_reported;
        }
        chains.give_back();
        Ok((chains, is_injective))
    }

    // Gives back the room of the map, where codes take less than a quarter of it, but for one more.
    fn give_back(&mut self)
        requires { 0 < spare self.old.ends }
        ensures links { self.new.links ≡ self.old.links }
        ensures ends { (c : ℕ) → get nat_eq self.new.ends c ≡ get nat_eq self.old.ends c }
        ensures room { 0 < spare self.new.ends }
    {
        let codes = self.ends.len();
        if codes < self.ends.capacity() / 4 {
            self.ends.shrink_to(codes + 1);
        }
    }

    // A slot comes after the others. Whether its key, where there is one, is that of the last before it of
    // its code comes back.
    fn push_slot<K: MapKey>(&mut self, keys: &[Option<K>], slot: &Option<K>) -> bool
        requires chained { AreChained K.key_code keys.now self.old }
        requires room { HasRoom self.old }
        ensures chained { AreChained K.key_code (keys.now ++ slot.now ∷ []) self.new }
        ensures same { OnTrue result (IsToldBy K.eq K.key_code keys.now slot.now) }
        ensures links { vec_capacity self.new.links ≡ vec_capacity self.old.links }
        ensures ends { spare self.old.ends ≤ suc (spare self.new.ends) }
    {
        match slot {
            Some(key) => self.link_last(keys, key),
            None => {
                self.links.push_reserved(Link {
                    prev: NO_SLOT,
                    next: NO_SLOT,
                });
                true
            }
        }
    }

    // Makes the chains anew, where the map has each code with a place that is no earlier than its first.
    pub(super) fn relink<K: MapKey>(&mut self, keys: &[Option<K>])
        requires few { length keys.now ≤ no_slot }
        requires long { length keys.now ≤ length self.old.links.items }
        requires stale { IsStale (length keys.now) K.key_code keys.now (get nat_eq self.old.ends) }
        ensures { AreChained K.key_code keys.now self.new }
    {
        self.links.truncate(keys.len());
        for at in 0..keys.len() {
            if let Some(code) = code_in(keys, at) {
                let n = at as u32;
                let last = put_anew(&mut self.ends, code, n);
                link_after(&mut self.links, last, Some(n));
                self.links[at] = Link {
                    prev: link_to(last),
                    next: NO_SLOT,
                };
            }
        }
    }
}
