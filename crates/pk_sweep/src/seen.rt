ghost use Rattle.std.specs.Prelude.{◌≡◌, ◌<◌, [], ◌∷◌, length, OnOk, IfOk};
ghost use Rattle.pk_sweep.specs.declared.seen.TheConstants.{SLOTS};
ghost use Rattle.pk_sweep.specs.Meeting.{SameMembers, Adds, AreKept};

use pk_values::Memory;
use std::alloc::Global;
use std::marker::Model;

// How many numbers are remembered.
const SLOTS: usize = 65_536;

/// Numbers that are met, mostly again and again. Contracts see it as a list with each of them, in
/// whatever order and at least once.
///
/// A number that was met shortly before is passed over by one look at the slot that it has. The list is
/// rid of what stands twice as often as it has doubled, so that it grows with the distinct numbers.
#[derive(Drop)]
pub(crate) struct Seen {
    recent: Vec<Option<u32>>,
    kept: Vec<u32>,
    room: usize,
}

impl Model for Seen {
    ghost use Rattle.std.specs.Prelude.{◌≡◌, ℕ, List, length};
    ghost use Rattle.pk_sweep.specs.declared.seen.TheConstants.{SLOTS};
    ghost use Rattle.pk_sweep.specs.Meeting.{AreKept};

    ghost Value = { List ℕ };

    ghost view = { λ seen. seen.kept.items };

    ghost invariant = { λ seen. (length seen.recent.items ≡ SLOTS) × AreKept seen.kept.items seen.recent.items };
}

impl Seen {
    /// No number yet.
    pub(crate) fn new(alloc: Global) -> Result<Seen, Memory>
        ensures { IfOk result (λ seen. seen ≡ []) }
    {
        Ok(Seen {
            recent: nothing(alloc)?,
            kept: Vec::new(alloc),
            room: SLOTS,
        })
    }

    /// Meets the number.
    pub(crate) fn meet(&mut self, number: u32) -> Result<(), Memory>
        ensures { OnOk result (Adds self.old (number ∷ []) self.new) }
    {
        let slot = slot(number);
        if self.recent[slot] == Some(number) {
            return Ok(());
        }
        self.kept.push(number)?;
        self.recent[slot] = Some(number);
        if self.kept.len() >= self.room {
            self.room = thinned(&mut self.kept);
        }
        Ok(())
    }

    /// The numbers that were met.
    pub(crate) fn into_kept(self) -> Vec<u32>
        ensures { result.items ≡ self }
    {
        let Seen {
            recent: _recent,
            kept,
            room: _room,
        } = self;
        kept
    }
}

// A slot for each number that is remembered, and nothing in it.
fn nothing(alloc: Global) -> Result<Vec<Option<u32>>, Memory>
    ensures { IfOk result (λ recent. (length recent.items ≡ SLOTS) × AreKept [] recent.items) }
{
    let mut recent = Vec::with_capacity(alloc, SLOTS)?;
    for _ in 0..SLOTS {
        recent.push(None)?;
    }
    Ok(recent)
}

// Where the number is remembered: numbers below 65,536 have slots of their own.
fn slot(number: u32) -> usize
    ensures { result < SLOTS }
{
    ((number ^ number >> 16) % 65_536) as usize
}

// Leaves each number once, and tells how many there may be until the next time.
fn thinned(kept: &mut Vec<u32>) -> usize
    ensures { SameMembers kept.old.items kept.new.items }
{
    kept.sort_unstable();
    kept.dedup();
    kept.len().saturating_mul(2).max(SLOTS)
}
