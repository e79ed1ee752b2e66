//! Pairs that come last, whose room is made before anything changes, and the chains of slots that have
//! none yet.
ghost use Rattle.std.specs.Prelude.{◌≡◌, ◌∷◌, ◌++◌, [], IfErr, OnErr, OnOk};
ghost use Rattle.ini_multimap.specs.Slots.{pairs_of};

use super::Slots;
use super::anew::chain;
use super::index::{link_last, make_room};
use crate::key::MapKey;
use std::alloc::AllocError;

impl<K: MapKey, V> Slots<K, V> {
    // Puts the pair last, and into its chain where there are chains, or where the slots before it are as many
    // as `many`. Refused, it hands the pair back, and nothing has changed.
    #[inline(always)]
    pub(crate) fn append(&mut self, key: K, value: V, many: usize) -> Result<(), (K, V)>
        ensures ok { OnOk result (pairs_of self.new ≡ pairs_of self.old ++ (key, value) ∷ []) }
        ensures unchanged_if_refused { OnErr result (self.new ≡ self.old) }
        ensures handed_back { IfErr result (λ pair. pair ≡ (key, value)) }
    {
        match make_room(
            &mut self.keys,
            &mut self.values,
            &mut self.index,
            self.is_injective,
            many,
        ) {
            Err(_) => Err((key, value)),
            Ok(is_injective) => {
                let keys = self.keys.as_slice();
                self.tags.put(keys.len(), &key);
                self.is_injective = link_last(keys, &mut self.index, &key, is_injective);
                self.keys.push_reserved(Some(key));
                self.values.push_reserved(Some(value));
                Ok(())
            }
        }
    }

    // Chains the slots, where they are as many as that and have no chains yet. Refused, nothing has changed.
    pub(crate) fn chain_from(&mut self, many: usize) -> Result<(), AllocError>
        ensures pairs { pairs_of self.new ≡ pairs_of self.old }
        ensures unchanged_if_refused { OnErr result (self.new ≡ self.old) }
    {
        if self.keys.len() < many || self.index.is_some() {
            return Ok(());
        }
        let (chains, is_injective) = chain(self.alloc(), self.keys.as_slice())?;
        self.index = Some(chains);
        self.is_injective = is_injective;
        Ok(())
    }
}
