//! What changes make of a table.

ghost use Rattle.std.specs.Prelude.{◌≡◌, OnOk};

use crate::rows::{put_all, take_out};
use crate::table::Stored;
use pk_values::{Changes, Memory};

impl Stored {
    ghost use Rattle.pk_guard.specs.Changed.{IdsAscend, RowsAscend};
    ghost use Rattle.pk_engine.specs.Base.{added_by, changed_by};

    /// How many of the rows that are put are new.
    pub fn added(&self, changes: &Changes) -> u64
        ensures { result ≡ added_by self.now changes.now }
    {
        let next = self.next;
        let put = changes.put.as_slice();
        put.iter().filter(|placed| next <= placed.id).count() as u64
    }

    /// Makes the changes. Rows that go are taken out in one walk, and only where there are any; each row
    /// that is put costs a search. A next id of 2^64 is answered as want of memory: the limit on ids lies
    /// far below.
    #[tactic(auto, unfolding(crate::specs::Base::changed_by))]
    pub fn change(&mut self, changes: Changes) -> Result<(), Memory>
        requires ascend { RowsAscend self.old.rows }
        requires gone { IdsAscend changes.gone }
        ensures { OnOk result (self.new ≡ changed_by changes self.old) }
    {
        let Some(next) = self.next.checked_add(self.added(&changes)) else {
            return Err(Memory);
        };
        let Changes { gone, put } = changes;
        take_out(&mut self.rows, gone.as_slice());
        put_all(&mut self.rows, put)?;
        self.next = next;
        Ok(())
    }
}
