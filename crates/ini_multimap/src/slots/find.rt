//! The walks over the slots of one code, and over all.
ghost use Rattle.std.specs.Prelude.{◌≡◌, ◌<◌, true, length, is_some, IfSome, Some};
ghost use Rattle.ini_multimap.specs.Slots.{pairs_in};
ghost use Rattle.ini_multimap.specs.Inside.Fits.{IsNthFit, IsLastFull, fits_at, value_in};

use super::Slots;
use crate::key::{MapKey, Probe};

// Whether slot s holds a pair.
fn is_full<K, V>(keys: &[Option<K>], values: &[Option<V>], s: usize) -> bool
    requires long { length values.now ≡ length keys.now }
    requires within { s < length keys.now }
    ensures { result ≡ fits_at (λ _. true) keys.now values.now s }
{
    match (&keys[s], &values[s]) {
        (Some(_), Some(_)) => true,
        _ => false,
    }
}

// How many pairs the slots hold.
pub(crate) fn count_pairs<K, V>(keys: &[Option<K>], values: &[Option<V>]) -> usize
    requires { length values.now ≡ length keys.now }
    ensures { result ≡ length (pairs_in keys.now values.now) }
{
    let mut pairs = 0;
    for s in 0..keys.len() {
        if is_full(keys, values, s) {
            pairs += 1;
        }
    }
    pairs
}

impl<K: MapKey, V> Slots<K, V> {
    // The value in slot s, where it holds a pair that fits. No code is made of its key, and a value is read
    // only where its key fits: values lie elsewhere.
    #[inline(always)]
    pub(crate) fn fitting_value<Q: Probe<K> + Copy>(&self, s: usize, q: Q) -> Option<&V>
        requires { s < length self.now.keys }
        ensures fits { is_some result ≡ fits_at (Q.fits q) self.now.keys self.now.values s }
        ensures value { IfSome result (λ v. value_in self.now.values s ≡ Some v.now) }
    {
        let value = &self.values[s];
        match &self.keys[s] {
            Some(key) if q.is(key) => value.as_ref(),
            _ => None,
        }
    }

    // The slot of pair number n of those that fit.
    #[inline(always)]
    pub(crate) fn nth_slot<Q: Probe<K> + Copy>(&self, q: Q, n: usize) -> Option<usize>
        ensures { IsNthFit (Q.fits q) self.now.keys self.now.values n result }
    {
        let mut left = n;
        let mut at = self.first_candidate(q);
        while let Some(s) = at {
            if self.fitting_value(s, q).is_some() {
                if left == 0 {
                    return Some(s);
                }
                left -= 1;
            }
            at = self.candidate_after(s);
        }
        None
    }

    // The slot of the last pair.
    pub(crate) fn last_slot(&self) -> Option<usize>
        ensures { IsLastFull self.now.keys self.now.values result }
    {
        let mut s = self.len();
        while s > 0 {
            s -= 1;
            if is_full(self.keys.as_slice(), self.values.as_slice(), s) {
                return Some(s);
            }
        }
        None
    }
}
