//! Which slots are to be looked at for a code, the candidates: those of its chain where there are chains,
//! and else, of the few, each from the first on that has its tag. Whoever asks doesn't know of it.
ghost use Rattle.std.specs.Prelude.{◌≡◌, ◌<◌, ◌^◌, ◌∷◌, ◌++◌, [], ℕ, Some, None, suc, length, slice_set, false};
ghost use Rattle.std.specs.Prelude.{IfOk, IfSome, OnErr, OnOk, is_some, vec_len, vec_capacity};
ghost use Rattle.std.specs.Bool.{OnTrue};
ghost use Rattle.ini_multimap.specs.Inside.Candidates.{IsAhead, IsAfter, IsCandidate};
ghost use Rattle.ini_multimap.specs.Inside.Fits.{IsInjective, code_at};
ghost use Rattle.ini_multimap.specs.Inside.Chains.{HasRoom, IsIndexed};

use super::Slots;
use super::anew::chain;
use super::chains::Chains;
use crate::key::{MapKey, Probe};
use std::alloc::AllocError;

// So many slots need no chains.
pub(crate) const FEW: usize = 16;

// So many slots have room at first.
const FIRST: usize = 8;

impl<K: MapKey, V> Slots<K, V> {
    // The first candidate for the code that the probe has.
    #[inline(always)]
    pub(crate) fn first_candidate<Q: Probe<K> + Copy>(&self, q: Q) -> Option<usize>
        ensures { IsAhead self.now.is_chained K.key_code (Q.probe_code q) self.now.keys 0 result }
    {
        match &self.index {
            Some(chains) => chains.first(q.code()),
            None => self.first_tagged(q.code()),
        }
    }

    // The first slot that has the tag of the code, or that has no tag.
    #[inline(always)]
    fn first_tagged(&self, code: u64) -> Option<usize>
        ensures { IsAhead false K.key_code code self.now.keys 0 result }
    {
        let s = self.tags.first(code);
        if s < self.keys.len() { Some(s) } else { None }
    }

    // The last candidate for the code that the probe has.
    pub(crate) fn last_candidate<Q: Probe<K> + Copy>(&self, q: Q) -> Option<usize>
        ensures last { IsAfter self.now.is_chained K.key_code (Q.probe_code q) self.now.keys
            (length self.now.keys) result }
        ensures countable { length self.now.keys < 2 ^ 64 }
    {
        match &self.index {
            Some(chains) => chains.last(q.code()),
            None => self.keys.len().checked_sub(1),
        }
    }

    // The candidate after s, for each code for which s is one.
    #[inline(always)]
    pub(crate) fn candidate_after(&self, s: usize) -> Option<usize>
        requires { s < length self.now.keys }
        ensures { (c : ℕ) → IsCandidate self.now.is_chained K.key_code c self.now.keys s
            → IsAhead self.now.is_chained K.key_code c self.now.keys (suc s) result }
    {
        match &self.index {
            Some(chains) => chains.next(s),
            None if s + 1 < self.keys.len() => Some(s + 1),
            None => None,
        }
    }

    // The candidate before s, for each code for which s is one.
    #[inline(always)]
    pub(crate) fn candidate_before(&self, s: usize) -> Option<usize>
        requires { s < length self.now.keys }
        ensures { (c : ℕ) → IsCandidate self.now.is_chained K.key_code c self.now.keys s
            → IsAfter self.now.is_chained K.key_code c self.now.keys s result }
    {
        match &self.index {
            Some(chains) => chains.prev(s),
            None => s.checked_sub(1),
        }
    }
}

// Room for one more slot, before anything changes: for its key and its value, and for its link where there
// are chains. Slots that are as many as `many` and have no chains are chained, once nothing is left that may
// be refused. Whether each code is known to be that of one key comes back.
pub(super) fn make_room<K: MapKey, V>(
    keys: &mut Vec<Option<K>>,
    values: &mut Vec<Option<V>>,
    index: &mut Option<Box<Chains>>,
    was_injective: bool,
    many: usize,
) -> Result<bool, AllocError>
    requires indexed { IsIndexed K.key_code keys.old.items index.old }
    requires known { OnTrue was_injective (IsInjective K.eq K.key_code keys.old.items) }
    ensures keys { keys.new.items ≡ keys.old.items }
    ensures values { values.new.items ≡ values.old.items }
    ensures indexed { IsIndexed K.key_code keys.new.items index.new }
    ensures unchanged_if_refused { OnErr result (is_some index.new ≡ is_some index.old) }
    ensures key { OnOk result (vec_len keys.new < vec_capacity keys.new) }
    ensures value { OnOk result (vec_len values.new < vec_capacity values.new) }
    ensures chain { OnOk result (IfSome index.new (λ chains. HasRoom chains.value)) }
    ensures known { IfOk result (λ is. OnTrue is (IsInjective K.eq K.key_code keys.new.items)) }
{
    let more = if keys.is_empty() { FIRST } else { 1 };
    keys.reserve(more)?;
    values.reserve(more)?;
    match index {
        Some(chains) => chains.make_room()?,
        None if keys.len() < many => {}
        None => {
            let (chains, is_injective) = chain(*values.allocator(), keys.as_slice())?;
            *index = Some(chains);
            return Ok(is_injective);
        }
    }
    Ok(was_injective)
}

// A slot with the key is to come last. Whether each code is still known to be that of one key comes back.
pub(super) fn link_last<K: MapKey>(
    keys: &[Option<K>],
    index: &mut Option<Box<Chains>>,
    key: &K,
    was_injective: bool,
) -> bool
    requires indexed { IsIndexed K.key_code keys.now index.old }
    requires known { OnTrue was_injective (IsInjective K.eq K.key_code keys.now) }
    requires room { IfSome index.old (λ chains. HasRoom chains.value) }
    ensures indexed { IsIndexed K.key_code (keys.now ++ Some key.now ∷ []) index.new }
    ensures known { OnTrue result (IsInjective K.eq K.key_code (keys.now ++ Some key.now ∷ [])) }
{
    match index {
        Some(chains) => chains.link_last(keys, key) && was_injective,
        None => false,
    }
}

// Slot s, which has the code, is to be a hole.
pub(super) fn unlink<K: MapKey>(
    keys: &[Option<K>],
    index: &mut Option<Box<Chains>>,
    s: usize,
    code: u64,
)
    requires indexed { IsIndexed K.key_code keys.now index.old }
    requires here { code_at K.key_code keys.now s ≡ Some code }
    ensures { IsIndexed K.key_code (slice_set keys.now s None) index.new }
{
    if let Some(chains) = index {
        chains.unlink(keys, s, code);
    }
}
