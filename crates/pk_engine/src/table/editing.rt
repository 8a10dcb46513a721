//! What a statement makes of the rows of a table, or finds among them.

ghost use Rattle.std.specs.Prelude.{◌≡◌, length, IfOk, IsTrue, ◌&&◌};
ghost use Rattle.std.specs.List.{list_all};

use crate::outcome::Outcome;
use crate::table::Stored;
use pk_exec::{ExecErr, InsertErr, ListView, Selected, Work};
use pk_syntax::{Delete, Insert, Select, Update};
use pk_values::Memory;

// The number of the one table that the work of a statement is about.
const TABLE: u32 = 1;

impl Stored {
    ghost use Rattle.pk_syntax.specs.Given.{has_utf8, cond_has_utf8};
    ghost use Rattle.pk_bind.specs.Conditions.{cond_asked};
    ghost use Rattle.pk_bind.specs.Select.{select_refusals};
    ghost use Rattle.pk_exec.specs.Answers.{Answers};
    ghost use Rattle.pk_exec.specs.Edits.{taken};
    ghost use Rattle.pk_exec.specs.Refusals.{work_insert_refusals, work_update_refusals, work_delete_refusals};
    ghost use Rattle.pk_exec.specs.Seen.{Covers, entries_of};
    ghost use Rattle.pk_engine.specs.Valid.{IsValidTable};
    ghost use Rattle.pk_engine.specs.Edits.{entries_in, changes_in, insert_entries, update_entries, delete_entries};
    ghost use Rattle.pk_engine.specs.Select.{found};
    ghost use Rattle.pk_engine.specs.Outcome.{IsDone};

    /// What an INSERT makes of the rows.
    pub fn insert(&self, insert: &Insert) -> Result<Outcome, Memory>
        requires valid { IsValidTable self.now }
        requires texts { IsTrue (list_all (list_all has_utf8) insert.now.rows) }
        ensures { IfOk result (λ done. IsDone (work_insert_refusals self.now.shape 0 insert.now) (length insert.now.rows) (changes_in self.now (insert_entries self.now insert.now)) done) }
    {
        let mut work = Work::new(*self.rows.allocator());
        match work.insert(&self.schema, TABLE, insert) {
            Ok(n) => self.done(&mut work, n),
            Err(InsertErr::Refused(refusal)) => Ok(Outcome::Refused(refusal)),
            Err(InsertErr::Memory) => Err(Memory),
        }
    }

    /// What an UPDATE makes of the rows.
    pub fn update(&self, update: &Update) -> Result<Outcome, Memory>
        requires valid { IsValidTable self.now }
        requires texts { IsTrue (list_all (λ s. has_utf8 s.value) update.now.sets && cond_has_utf8 update.now.cond) }
        ensures { IfOk result (λ done. IsDone (work_update_refusals self.now.shape 0 self.now.rows (entries_in self.now) update.now) (length (taken (cond_asked self.now.shape.columns update.now.cond) (entries_in self.now))) (changes_in self.now (update_entries self.now update.now)) done) }
    {
        let mut work = Work::new(*self.rows.allocator());
        let mut view = ListView::new(self.rows.as_slice());
        match work.update(&self.schema, TABLE, &mut view, update) {
            Ok(n) => self.done(&mut work, n),
            Err(ExecErr::Refused(refusal)) => Ok(Outcome::Refused(refusal)),
            Err(ExecErr::Disk | ExecErr::Changed | ExecErr::Memory) => Err(Memory),
        }
    }

    /// What a DELETE makes of the rows.
    pub fn delete(&self, delete: &Delete) -> Result<Outcome, Memory>
        requires valid { IsValidTable self.now }
        requires texts { IsTrue (cond_has_utf8 delete.now.cond) }
        ensures { IfOk result (λ done. IsDone (work_delete_refusals self.now.shape 0 self.now.rows (entries_in self.now) delete.now) (length (taken (cond_asked self.now.shape.columns delete.now.cond) (entries_in self.now))) (changes_in self.now (delete_entries self.now delete.now)) done) }
    {
        let mut work = Work::new(*self.rows.allocator());
        let mut view = ListView::new(self.rows.as_slice());
        match work.delete(&self.schema, TABLE, &mut view, delete) {
            Ok(n) => self.done(&mut work, n),
            Err(ExecErr::Refused(refusal)) => Ok(Outcome::Refused(refusal)),
            Err(ExecErr::Disk | ExecErr::Changed | ExecErr::Memory) => Err(Memory),
        }
    }

    // The changes of a statement that took so many rows.
    fn done(&self, work: &mut Work, n: u64) -> Result<Outcome, Memory>
        requires valid { IsValidTable self.now }
        requires covers { Covers work.old TABLE self.now.rows }
        ensures { IfOk result (λ done. done ≡ Outcome.Done n (changes_in self.now (entries_of work.old TABLE self.now.rows))) }
    {
        let changes = work.take_changes(TABLE, self.next)?;
        Ok(Outcome::Done { n, changes })
    }

    /// What a SELECT finds, or the first refusal that stands.
    pub fn select(&self, select: &Select) -> Result<Selected, ExecErr>
        requires valid { IsValidTable self.now }
        requires texts { IsTrue (cond_has_utf8 select.now.cond) }
        ensures { Answers (select_refusals self.now.shape select.now) (found self.now select.now) result }
    {
        let work = Work::new(*self.rows.allocator());
        let mut view = ListView::new(self.rows.as_slice());
        work.select(&self.schema, TABLE, &mut view, select)
    }
}
