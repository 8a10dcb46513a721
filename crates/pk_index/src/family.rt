//! Ids by the byte strings under which they are filed.

ghost use Rattle.std.specs.Prelude.{◌≡◌, ℕ, ◌+◌, ◌<◌, ◌≤◌, false, List, length, IsTrue, OnOk};
ghost use Rattle.std.specs.List.Sorted.{IsStrictlySortedBy};
ghost use Rattle.std.specs.Ordering.{nat_cmp};
ghost use Rattle.std.specs.Str.{bytes_eq};
ghost use Rattle.pk_values.specs.Values.{are_bytes};
ghost use Rattle.pk_index.specs.Rows.{IsLeast};
ghost use Rattle.pk_index.specs.Filing.{width_of, has, Puts, Takes};

use crate::packing::{six_words, three_words, two_words};
use crate::sets::Sets;
use crate::shelf::Shelf;
use crate::steps::Steps;
use pk_values::Memory;
use std::alloc::Global;
use std::sync::ledger::Ledger;

/// Ids by byte strings. Short ones are filed as numbers, which takes less memory and time.
#[derive(Drop)]
pub(crate) struct Family {
    two: Shelf<(u64, u64)>,
    three: Shelf<(u64, u64, u64)>,
    six: Shelf<(u64, u64, u64, u64, u64, u64)>,
    long: Sets,
}

/// How many words a byte string takes as numbers; `Long` is one that is kept as it is.
#[derive(Clone, Copy)]
pub(crate) enum Width {
    Two,
    Three,
    Six,
    Long,
}

impl Family {
    /// A family that has no id.
    pub fn new(alloc: Global) -> Family
        ensures { (bytes : List ℕ) (id : ℕ) → has result bytes id ≡ false }
    {
        Family {
            two: Shelf::new(alloc),
            three: Shelf::new(alloc),
            six: Shelf::new(alloc),
            long: Sets::new(alloc),
        }
    }

    /// Files the id under these bytes. After `Memory` nothing is claimed of the family.
    pub fn put(&mut self, bytes: &[u8], id: u64) -> Result<(), Memory>
        ensures { OnOk result (Puts self.old self.new (bytes_eq bytes.now) id) }
    {
        match width_of(bytes) {
            Width::Two => self.two.put(two_words(bytes), id),
            Width::Three => self.three.put(three_words(bytes), id),
            Width::Six => self.six.put(six_words(bytes), id),
            Width::Long => self.long.put(bytes, id),
        }
    }

    /// Takes the id out from under these bytes.
    pub fn take(&mut self, bytes: &[u8], id: u64)
        ensures { Takes self.old self.new (bytes_eq bytes.now) id }
    {
        match width_of(bytes) {
            Width::Two => self.two.take(two_words(bytes), id),
            Width::Three => self.three.take(three_words(bytes), id),
            Width::Six => self.six.take(six_words(bytes), id),
            Width::Long => self.long.take(bytes, id),
        }
    }

    /// Whether the id is filed under these bytes.
    pub fn has(&self, bytes: &[u8], id: u64) -> bool
        ensures { result ≡ has self.now bytes.now id }
    {
        match width_of(bytes) {
            Width::Two => self.two.has(two_words(bytes), id),
            Width::Three => self.three.has(three_words(bytes), id),
            Width::Six => self.six.has(six_words(bytes), id),
            Width::Long => self.long.has(bytes, id),
        }
    }

    /// The least id under these bytes that isn't outside. The look-up is one step, and each id that is
    /// looked at another.
    pub fn least<L: Ledger>(
        &self,
        bytes: &[u8],
        outside: &[u64],
        steps: &mut Steps<L>,
    ) -> Option<u64>
        requires { IsStrictlySortedBy nat_cmp outside.now }
        ensures least { IsLeast (has self.now bytes.now) outside.now result }
        ensures some { steps.old < steps.new }
        ensures most { steps.new ≤ steps.old + (2 + length outside.now) }
    {
        steps.tick();
        match width_of(bytes) {
            Width::Two => self.two.least(two_words(bytes), outside, steps),
            Width::Three => self.three.least(three_words(bytes), outside, steps),
            Width::Six => self.six.least(six_words(bytes), outside, steps),
            Width::Long => self.long.least(bytes, outside, steps),
        }
    }
}

// How the bytes are filed.
fn width_of(bytes: &[u8]) -> Width
    ensures width { result ≡ width_of (length bytes.now) }
    ensures bytes { IsTrue (are_bytes bytes.now) }
{
    let len = bytes.len();
    if len < 16 {
        Width::Two
    } else if len < 24 {
        Width::Three
    } else if len < 48 {
        Width::Six
    } else {
        Width::Long
    }
}
