//! Sets of ids by byte strings of any length.

ghost use Rattle.std.specs.Prelude.{◌≡◌, ℕ, ◌+◌, ◌≤◌, false, List, None, length, OnOk, IfOk};
ghost use Rattle.std.specs.List.Sorted.{IsStrictlySortedBy};
ghost use Rattle.std.specs.Ordering.{nat_cmp, eq_by_cmp};
ghost use Rattle.std.specs.BTreeMap.{get_by};
ghost use Rattle.std.specs.BTreeSet.{contains};
ghost use Rattle.std.specs.Cmp.Lexicographic.{slice_cmp};
ghost use Rattle.std.specs.Str.{bytes_eq};
ghost use Rattle.pk_index.specs.Rows.{IsLeast};
ghost use Rattle.pk_index.specs.Shelves.{set_has, SetPuts, SetTakes};

use crate::outside::is_outside;
use crate::steps::Steps;
use pk_values::Memory;
use std::alloc::Global;
use std::collections::{BTreeMap, BTreeSet};
use std::sync::ledger::Ledger;

/// Ids by byte strings. None of these has an empty set.
#[derive(Drop)]
pub(crate) struct Sets {
    alloc: Global,
    sets: BTreeMap<Vec<u8>, BTreeSet<u64>>,
}

impl Sets {
    /// No id under any bytes.
    pub fn new(alloc: Global) -> Sets
        ensures { (bytes : List ℕ) (id : ℕ) → set_has result bytes id ≡ false }
    {
        Sets {
            alloc,
            sets: BTreeMap::new(alloc),
        }
    }

    /// Files the id under these bytes. After `Memory` nothing is claimed of the sets.
    pub fn put(&mut self, bytes: &[u8], id: u64) -> Result<(), Memory>
        ensures { OnOk result (SetPuts self.old self.new (bytes_eq bytes.now) id) }
    {
        match self.sets.get_mut(bytes) {
            Some(ids) => {
                ids.insert(id)?;
                Ok(())
            }
            None => self.begin(bytes, id),
        }
    }

    // Files the id under bytes that have none yet.
    fn begin(&mut self, bytes: &[u8], id: u64) -> Result<(), Memory>
        requires { get_by (λ k. slice_cmp nat_cmp bytes.now k.items) self.old.sets ≡ None }
        ensures { OnOk result (SetPuts self.old self.new (bytes_eq bytes.now) id) }
    {
        let ids = one(self.alloc, id)?;
        let key = Vec::from_slice(self.alloc, bytes)?;
        self.sets.insert(key, ids)?;
        Ok(())
    }

    /// Takes the id out from under these bytes.
    pub fn take(&mut self, bytes: &[u8], id: u64)
        ensures { SetTakes self.old self.new (bytes_eq bytes.now) id }
    {
        let Some(ids) = self.sets.get_mut(bytes) else {
            return;
        };
        ids.remove(&id);
        if ids.is_empty() {
            self.sets.remove(bytes);
        }
    }

    /// Whether the id is filed under these bytes.
    pub fn has(&self, bytes: &[u8], id: u64) -> bool
        ensures { result ≡ set_has self.now bytes.now id }
    {
        match self.sets.get(bytes) {
            Some(ids) => ids.contains(&id),
            None => false,
        }
    }

    /// The least id under these bytes that isn't outside. Each id that is looked at is a step.
    pub fn least<L: Ledger>(
        &self,
        bytes: &[u8],
        outside: &[u64],
        steps: &mut Steps<L>,
    ) -> Option<u64>
        requires { IsStrictlySortedBy nat_cmp outside.now }
        ensures least { IsLeast (set_has self.now bytes.now) outside.now result }
        ensures some { steps.old ≤ steps.new }
        ensures most { steps.new ≤ steps.old + (1 + length outside.now) }
    {
        match self.sets.get(bytes) {
            Some(ids) => least_in(ids, outside, steps),
            None => None,
        }
    }
}

// The set of this id.
fn one(alloc: Global, id: u64) -> Result<BTreeSet<u64>, Memory>
    ensures { IfOk result (λ ids. (j : ℕ) → contains nat_cmp ids j ≡ eq_by_cmp nat_cmp j id) }
{
    let mut ids = BTreeSet::new(alloc);
    ids.insert(id)?;
    Ok(ids)
}

// The least of the ids that isn't outside.
fn least_in<L: Ledger>(ids: &BTreeSet<u64>, outside: &[u64], steps: &mut Steps<L>) -> Option<u64>
    requires { IsStrictlySortedBy nat_cmp outside.now }
    ensures least { IsLeast (contains nat_cmp ids.now) outside.now result }
    ensures some { steps.old ≤ steps.new }
    ensures most { steps.new ≤ steps.old + (1 + length outside.now) }
{
    for id in ids.iter() {
        steps.tick();
        if !is_outside(outside, *id) {
            return Some(*id);
        }
    }
    None
}
