//! Tags: the low byte of the code of each of the first keys. All of them are compared at once, so that a
//! look-up among few slots begins at a key that may fit. This file knows keys by their codes alone.
ghost use Rattle.std.specs.Prelude.{◌≡◌, ◌==◌, slice_set};
ghost use Rattle.std.specs.List.{position_or_len};
ghost use Rattle.ini_multimap.specs.Inside.Tags.{AreTagged, tag_of};

use crate::key::MapKey;
use std::simd::prelude::*;

// So many slots have a tag.
pub(super) const TAGS: usize = 16;

/// The tags of the first slots.
#[derive(Debug, Clone, Copy)]
pub(crate) struct Tags {
    of: [u8; 16],
}

// The tag of a code.
fn tag(code: u64) -> u8
    ensures { result ≡ tag_of code }
{
    (code % 256) as u8
}

impl Tags {
    // Tags of no slots.
    pub(super) fn new() -> Tags {
        Tags { of: [0; TAGS] }
    }

    // The first slot that has the tag of the code; where none has it, how many slots have a tag.
    #[inline(always)]
    pub(super) fn first(&self, code: u64) -> usize
        ensures { result ≡ position_or_len (λ t. t == tag_of code) self.now.of }
    {
        let bits = u8x16::from_array(self.of)
            .simd_eq(u8x16::splat(tag(code)))
            .to_bitmask();
        if bits == 0 {
            TAGS
        } else {
            bits.trailing_zeros() as usize
        }
    }

    // Slot s has the key. After the first slots no tag is kept.
    #[inline(always)]
    pub(super) fn put<K: MapKey>(&mut self, s: usize, key: &K)
        ensures { self.new.of ≡ slice_set self.old.of s (tag_of (K.key_code key.now)) }
    {
        if s < TAGS {
            self.of[s] = tag(key.code());
        }
    }

    // The tags of keys.
    pub(super) fn of_keys<K: MapKey>(keys: &[Option<K>]) -> Tags
        ensures { AreTagged K.key_code keys.now result.of }
    {
        let mut tags = Tags::new();
        for s in 0..keys.len().min(TAGS) {
            if let Some(key) = &keys[s] {
                tags.put(s, key);
            }
        }
        tags
    }
}
