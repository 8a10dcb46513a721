//! Sets of pairs of a key and an id.

ghost use Rattle.std.specs.Prelude.{◌≡◌, ℕ, ◌+◌, ◌≤◌, false, length, OnOk};
ghost use Rattle.std.specs.List.Sorted.{IsStrictlySortedBy};
ghost use Rattle.std.specs.Ordering.{nat_cmp};
ghost use Rattle.pk_index.specs.Rows.{IsLeast};
ghost use Rattle.pk_index.specs.Shelves.{holds, PutsAt, TakesAt};

use crate::outside::is_outside;
use crate::steps::Steps;
use pk_values::Memory;
use std::alloc::Global;
use std::collections::BTreeSet;
use std::ops::Bound;
use std::sync::ledger::Ledger;

/// Ids by keys that are numbers, as pairs in the order of the keys and then of the ids. A pair takes no
/// block of memory of its own, and a search compares numbers alone.
#[derive(Drop)]
pub(crate) struct Shelf<K: Ord> {
    pairs: BTreeSet<(K, u64)>,
}

impl<K: Ord + Copy + Drop> Shelf<K> {
    /// A shelf that has no id.
    pub fn new(alloc: Global) -> Shelf<K>
        ensures { (key : K) (id : ℕ) → holds K.cmp result key id ≡ false }
    {
        Shelf {
            pairs: BTreeSet::new(alloc),
        }
    }

    /// Puts the id under the key. After `Memory` nothing is claimed of the shelf.
    pub fn put(&mut self, key: K, id: u64) -> Result<(), Memory>
        ensures { OnOk result (PutsAt K.cmp self.old self.new key id) }
    {
        self.pairs.insert((key, id))?;
        Ok(())
    }

    /// Takes the id out from under the key.
    pub fn take(&mut self, key: K, id: u64)
        ensures { TakesAt K.cmp self.old self.new key id }
    {
        self.pairs.remove(&(key, id));
    }

    /// Whether the id is under the key.
    pub fn has(&self, key: K, id: u64) -> bool
        ensures { result ≡ holds K.cmp self.now key id }
    {
        self.pairs.contains(&(key, id))
    }

    /// The least id under the key that isn't outside. Each id that is looked at is a step.
    pub fn least<L: Ledger>(&self, key: K, outside: &[u64], steps: &mut Steps<L>) -> Option<u64>
        requires { IsStrictlySortedBy nat_cmp outside.now }
        ensures least { IsLeast (holds K.cmp self.now key) outside.now result }
        ensures some { steps.old ≤ steps.new }
        ensures most { steps.new ≤ steps.old + (1 + length outside.now) }
    {
        let from_key = (Bound::Included((key, 0)), Bound::Unbounded);
        for pair in self.pairs.range(from_key) {
            if key != pair.0 {
                return None;
            }
            steps.tick();
            if !is_outside(outside, pair.1) {
                return Some(pair.1);
            }
        }
        None
    }
}
