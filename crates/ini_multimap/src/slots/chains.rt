//! The chains of the codes: each slot is linked to the slots before and after it with the same code,
//! and a map has the first and the last slot of each code.
ghost use Rattle.std.specs.Prelude.{◌≡◌, ◌<◌, ◌≤◌, ℕ, suc, ◌∷◌, ◌++◌, [], nat_eq, length};
ghost use Rattle.std.specs.Prelude.{slice_set, Some, None, OnOk, IfSome};
ghost use Rattle.std.specs.Prelude.{IsSome, vec_capacity};
ghost use Rattle.std.specs.Bool.{OnTrue};
ghost use Rattle.std.specs.HashMap.{IsUnique, get, hash_map_len, spare};
ghost use Rattle.ini_multimap.specs.Inside.Fits.{IsKeyOf, IsToldBy, code_at};
ghost use Rattle.ini_multimap.specs.Inside.Chains.{AreChained, AreClosed, AreSet, HasRoom, IsNextSet};
ghost use Rattle.ini_multimap.specs.Inside.Chains.{IsPrevSet, IsPutLast};
ghost use Rattle.ini_multimap.specs.Inside.Chains.{first_of, last_of, named, next_at, no_slot, prev_at};

use crate::key::MapKey;
use std::alloc::AllocError;
use std::collections::HashMap;
use std::collections::hash_map::Entry;

// The link that names no slot.
pub(super) const NO_SLOT: u32 = 4294967295;

// The slots before and after one with the same code.
#[derive(Debug, Clone, Copy)]
pub(crate) struct Link {
    pub(super) prev: u32,
    pub(super) next: u32,
}

/// The chains of the codes.
#[derive(Debug, Drop)]
pub(crate) struct Chains {
    pub(super) links: Vec<Link>,
    // The first and the last slot of each code.
    pub(super) ends: HashMap<u64, (u32, u32)>,
}

// The slot that a link names.
fn slot_of(link: u32) -> Option<u32>
    ensures { result ≡ named link }
{
    if link == NO_SLOT { None } else { Some(link) }
}

// The link that names a slot.
pub(super) fn link_to(slot: Option<u32>) -> u32
    requires { IfSome slot (λ s. s < no_slot) }
    ensures { named result ≡ slot }
{
    match slot {
        Some(s) => s,
        None => NO_SLOT,
    }
}

// `next` comes after slot `at`, where there is one.
pub(super) fn link_after(links: &mut Vec<Link>, at: Option<u32>, next: Option<u32>)
    requires within { IfSome at (λ s. s < length links.old.items) }
    requires slot { IfSome next (λ s. s < no_slot) }
    ensures links { IsNextSet links.old.items links.new.items at next }
    ensures capacity { vec_capacity links.new ≡ vec_capacity links.old }
{
    if let Some(s) = at {
        links[s as usize].next = link_to(next);
    }
}

// `prev` comes before slot `at`, where there is one.
fn link_before(links: &mut Vec<Link>, at: Option<u32>, prev: Option<u32>)
    requires within { IfSome at (λ s. s < length links.old.items) }
    requires slot { IfSome prev (λ s. s < no_slot) }
    ensures { IsPrevSet links.old.items links.new.items at prev }
{
    if let Some(s) = at {
        links[s as usize].prev = link_to(prev);
    }
}

// Slot `at` is the last of the code. The last before it comes back.
fn put_last(ends: &mut HashMap<u64, (u32, u32)>, code: u64, at: u32) -> Option<u32>
    requires { 0 < spare ends.old }
    ensures last { result ≡ last_of (get nat_eq ends.old) code }
    ensures ends { IsPutLast (get nat_eq ends.old) (get nat_eq ends.new) code at }
    ensures room { spare ends.old ≤ suc (spare ends.new) }
{
    match ends.entry(code) {
        Ok(Entry::Occupied(mut entry)) => {
            let (first, last) = *entry.get();
            entry.insert((first, at));
            Some(last)
        }
        Ok(Entry::Vacant(entry)) => {
            entry.insert((at, at));
            None
        }
        Err(_) => unreachable!(),
    }
}

// Whether the key is that in slot `at`, where there is one.
fn is_key_of<K: MapKey>(keys: &[Option<K>], at: Option<u32>, key: &K) -> bool
    requires { IfSome at (λ s. s < length keys.now) }
    ensures { OnTrue result (IsKeyOf K.eq keys.now at key.now) }
{
    let Some(s) = at else {
        return true;
    };
    match &keys[s as usize] {
        Some(other) => *other == *key,
        None => true,
    }
}

// A code that is there gets other ends, without memory.
pub(super) fn replace_ends(ends: &mut HashMap<u64, (u32, u32)>, code: u64, both: (u32, u32))
    requires { IsSome (get nat_eq ends.old code) }
    ensures { AreSet (get nat_eq ends.old) (get nat_eq ends.new) code (Some both) }
{
    match ends.insert(code, both) {
        Ok(_) => {}
        Err(_) => unreachable!(),
    }
}

fn drop_ends(ends: &mut HashMap<u64, (u32, u32)>, code: u64)
    ensures { AreSet (get nat_eq ends.old) (get nat_eq ends.new) code None }
{
    let _ = ends.remove(&code);
}

// What the ends of a code are once the slot between `prev` and `next` is gone.
fn close_ends(ends: &mut HashMap<u64, (u32, u32)>, code: u64, prev: Option<u32>, next: Option<u32>)
    requires { IsSome (get nat_eq ends.old code) }
    ensures { AreClosed (get nat_eq ends.old) (get nat_eq ends.new) code prev next }
{
    let (first, last) = match ends.get(&code) {
        Some(both) => *both,
        None => unreachable!(),
    };
    match (prev, next) {
        (None, None) => drop_ends(ends, code),
        (None, Some(after)) => replace_ends(ends, code, (after, last)),
        (Some(before), None) => replace_ends(ends, code, (first, before)),
        (Some(_), Some(_)) => {}
    }
}

impl Chains {
    // The first slot of the code.
    pub(super) fn first(&self, code: u64) -> Option<usize>
        ensures { result ≡ first_of (get nat_eq self.now.ends) code }
    {
        match self.ends.get(&code) {
            Some(both) => Some(both.0 as usize),
            None => None,
        }
    }

    // The last slot of the code.
    pub(super) fn last(&self, code: u64) -> Option<usize>
        ensures { result ≡ last_of (get nat_eq self.now.ends) code }
    {
        match self.ends.get(&code) {
            Some(both) => Some(both.1 as usize),
            None => None,
        }
    }

    // The slot after s with the same code.
    pub(super) fn next(&self, s: usize) -> Option<usize>
        requires { s < length self.now.links.items }
        ensures { result ≡ next_at self.now.links.items s }
    {
        match slot_of(self.links[s].next) {
            Some(next) => Some(next as usize),
            None => None,
        }
    }

    // The slot before s with the same code.
    pub(super) fn prev(&self, s: usize) -> Option<usize>
        requires { s < length self.now.links.items }
        ensures { result ≡ prev_at self.now.links.items s }
    {
        match slot_of(self.links[s].prev) {
            Some(prev) => Some(prev as usize),
            None => None,
        }
    }

    // How many codes there are.
    pub(crate) fn codes(&self) -> usize
        ensures count { result ≡ hash_map_len self.now.ends }
        ensures unique { IsUnique nat_eq self.now.ends }
    {
        self.ends.len()
    }

    // Room for one more slot. A number names so many slots and no more.
    pub(super) fn make_room(&mut self) -> Result<(), AllocError>
        ensures links { self.new.links.items ≡ self.old.links.items }
        ensures ends { (c : ℕ) → get nat_eq self.new.ends c ≡ get nat_eq self.old.ends c }
        ensures room { OnOk result (HasRoom self.new) }
    {
        if self.links.len() >= NO_SLOT as usize {
            return Err(AllocError);
        }
        self.links.reserve(1)?;
        self.ends.reserve(1)?;
        Ok(())
    }

    // A slot with the key comes after the others, and is the last of its code. Whether the key is that of
    // the last before it comes back.
    pub(super) fn link_last<K: MapKey>(&mut self, keys: &[Option<K>], key: &K) -> bool
        requires chained { AreChained K.key_code keys.now self.old }
        requires room { HasRoom self.old }
        ensures chained { AreChained K.key_code (keys.now ++ Some key.now ∷ []) self.new }
        ensures same { OnTrue result (IsToldBy K.eq K.key_code keys.now (Some key.now)) }
        ensures links { vec_capacity self.new.links ≡ vec_capacity self.old.links }
        ensures ends { spare self.old.ends ≤ suc (spare self.new.ends) }
    {
        let at = keys.len() as u32;
        let code = key.code();
        let last = put_last(&mut self.ends, code, at);
        link_after(&mut self.links, last, Some(at));
        self.links.push_reserved(Link {
            prev: link_to(last),
            next: NO_SLOT,
        });
        is_key_of(keys, last, key)
    }

    // Slot s, which has the code, is to be a hole.
    pub(crate) fn unlink<K: MapKey>(&mut self, keys: &[Option<K>], s: usize, code: u64)
        requires chained { AreChained K.key_code keys.now self.old }
        requires here { code_at K.key_code keys.now s ≡ Some code }
        ensures { AreChained K.key_code (slice_set keys.now s None) self.new }
    {
        let link = self.links[s];
        let prev = slot_of(link.prev);
        let next = slot_of(link.next);
        link_after(&mut self.links, prev, next);
        link_before(&mut self.links, next, prev);
        close_ends(&mut self.ends, code, prev, next);
    }
}
