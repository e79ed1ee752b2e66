//! Which keys are equal to none before them.
ghost use Rattle.std.specs.Prelude.{◌≡◌, ◌<◌, Some, take, length};
ghost use Rattle.std.specs.Option.{option_copied, option_to_list};
ghost use Rattle.std.specs.List.{list_any};
ghost use Rattle.ini_multimap.specs.Slots.{pairs_in};
ghost use Rattle.ini_multimap.specs.Inside.Fits.{code_at, fresh_at, pair_key, value_in};

use super::Slots;
use crate::key::MapKey;

impl<K: MapKey, V> Slots<K, V> {
    // Whether a pair before slot `at` has the key. Where there are chains, only pairs of its code are asked
    // about. Inlined, with what a walk over keys calls for each slot.
    #[inline(always)]
    fn has_key(&self, at: usize, key: &K) -> bool
        requires { code_at K.key_code self.now.keys at ≡ Some (K.key_code key.now) }
        ensures { result ≡ list_any (λ p. K.eq key.now p.0)
            (pairs_in (take at self.now.keys) (take at self.now.values)) }
    {
        let mut before = self.candidate_before(at);
        while let Some(s) = before {
            if self.fitting_value(s, key).is_some() {
                return true;
            }
            before = self.candidate_before(s);
        }
        false
    }

    // The key in a slot that holds a pair. Where each key has its value, the values aren't read.
    #[inline(always)]
    fn paired_key(&self, at: usize) -> Option<&K>
        requires { at < length self.now.keys }
        ensures { option_copied result ≡ pair_key (value_in self.now.keys at) (value_in self.now.values at) }
    {
        match &self.keys[at] {
            Some(key) if self.is_paired || self.values[at].is_some() => Some(key),
            _ => None,
        }
    }

    // The key in a slot, where it holds a pair and no pair before it has the key.
    #[inline(always)]
    pub(crate) fn new_key(&self, at: usize) -> Option<&K>
        requires { at < length self.now.keys }
        ensures { option_to_list (option_copied result) ≡ fresh_at K.eq at self.now.keys self.now.values }
    {
        match self.paired_key(at) {
            Some(key) if !self.has_key(at, key) => Some(key),
            _ => None,
        }
    }
}
