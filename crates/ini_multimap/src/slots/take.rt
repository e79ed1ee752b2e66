//! A pair that is taken out, which leaves a hole.
ghost use Rattle.std.specs.Prelude.{◌≡◌, ◌<◌, IsSome, Some, None, slice_set, length};
ghost use Rattle.ini_multimap.specs.Inside.Fits.{HasLeadingHoles, code_at, value_in};

use super::Slots;
use super::index::unlink;
use crate::key::MapKey;

// How many slots at the front are holes, where so many are known to be.
fn count_leading<K>(keys: &[Option<K>], known: usize) -> usize
    requires { HasLeadingHoles keys.now known }
    ensures { HasLeadingHoles keys.now result }
{
    let mut leading = known;
    while leading < keys.len() && keys[leading].is_none() {
        leading += 1;
    }
    leading
}

impl<K: MapKey, V> Slots<K, V> {
    // Takes the pair out of slot s, where its key has the code.
    pub(crate) fn take(&mut self, s: usize, code: u64) -> Option<V>
    where
        K: Drop,
        requires key { code_at K.key_code self.old.keys s ≡ Some code }
        requires value { IsSome (value_in self.old.values s) }
        ensures value { result ≡ value_in self.old.values s }
        ensures keys { self.new.keys ≡ slice_set self.old.keys s None }
        ensures values { self.new.values ≡ slice_set self.old.values s None }
    {
        unlink(self.keys.as_slice(), &mut self.index, s, code);
        self.keys[s] = None;
        self.holes += 1;
        self.leading = count_leading(self.keys.as_slice(), self.leading);
        self.values[s].take()
    }
}
