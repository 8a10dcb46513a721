//! UPDATE and DELETE.

ghost use Rattle.std.specs.Prelude.{◌≡◌, ◌+◌, ◌&&◌, length, not, nat_le, IsTrue, OnOk};
ghost use Rattle.std.specs.List.{list_all};
ghost use Rattle.pk_syntax.specs.Given.{has_utf8, cond_has_utf8};
ghost use Rattle.pk_schema.specs.Shapes.{Shape};
ghost use Rattle.pk_bind.specs.Conditions.{cond_asked};
ghost use Rattle.pk_bind.specs.Update.{edit_of};
ghost use Rattle.pk_exec.specs.Edits.{taken, updated, deleted};
ghost use Rattle.pk_exec.specs.Works.{most_changes, SameElsewhere, size_elsewhere};
ghost use Rattle.pk_exec.specs.Seen.{Covers, Fits, entries_of};
ghost use Rattle.pk_exec.specs.Drafts.{change_fits};
ghost use Rattle.pk_exec.specs.Settling.{IsSettled, IsChanged};
ghost use Rattle.pk_exec.specs.Refusals.{work_update_refusals, work_delete_refusals};
ghost use Rattle.pk_exec.specs.Answers.{Answers, OnUndone};
ghost use Rattle.pk_exec.specs.Views.{IsLeft, HasCause};

use crate::change::Change;
use crate::draft::{Draft, drafted};
use crate::exec_err::ExecErr;
use crate::table_edits::TableEdits;
use crate::view::View;
use crate::work::{MOST_CHANGES, Work};
use pk_bind::{Bound, bind_delete, bind_update};
use pk_schema::Schema;
use pk_syntax::{Delete, Update};
use pk_values::Refusal;

impl Work {
    /// Changes the rows that an UPDATE takes, and tells how many. A refused one leaves the edits as they
    /// were, and so does one that the store failed; after `Memory` nothing is claimed of them.
    pub fn update<V: View>(
        &mut self,
        schema: &Schema,
        table: u32,
        view: &mut V,
        update: &Update,
    ) -> Result<u64, ExecErr>
        requires view { V.fits view.old schema.now }
        requires fits { Fits self.old schema.now table }
        requires covers { Covers self.old table (V.rows view.old) }
        requires texts { IsTrue (list_all (λ s. has_utf8 s.value) update.now.sets && cond_has_utf8 update.now.cond) }
        ensures answer { IsTrue (V.tells view.old) → Answers (work_update_refusals schema.now (size_elsewhere self.old table) (V.rows view.old) (entries_of self.old table (V.rows view.old)) update.now) (length (taken (edit_of schema.now.columns update.now).cond (entries_of self.old table (V.rows view.old)))) result }
        ensures entries { OnOk result (IsTrue (V.tells view.old) → entries_of self.new table (V.rows view.old) ≡ updated (edit_of schema.now.columns update.now) (entries_of self.old table (V.rows view.old))) }
        ensures covers { OnOk result (Covers self.new table (V.rows view.old)) }
        ensures others { OnOk result (SameElsewhere table self.old self.new) }
        ensures fits { OnOk result (Fits self.new schema.now table) }
        ensures undone { OnUndone result (self.new ≡ self.old) }
        ensures view { IsLeft V.View view.old view.new }
        ensures cause { HasCause V.View view.old view.new result }
    {
        match bind_update(self.alloc, schema, update)? {
            Bound::Refused(refusal) => Err(ExecErr::Refused(refusal)),
            Bound::Ready(edit) => self.change(table, view, &Change::of_edit(edit)),
        }
    }

    /// Takes away the rows that a DELETE takes, and tells how many. A refused one leaves the edits as
    /// they were, and so does one that the store failed; after `Memory` nothing is claimed of them.
    pub fn delete<V: View>(
        &mut self,
        schema: &Schema,
        table: u32,
        view: &mut V,
        delete: &Delete,
    ) -> Result<u64, ExecErr>
        requires view { V.fits view.old schema.now }
        requires fits { Fits self.old schema.now table }
        requires covers { Covers self.old table (V.rows view.old) }
        requires texts { IsTrue (cond_has_utf8 delete.now.cond) }
        ensures answer { IsTrue (V.tells view.old) → Answers (work_delete_refusals schema.now (size_elsewhere self.old table) (V.rows view.old) (entries_of self.old table (V.rows view.old)) delete.now) (length (taken (cond_asked schema.now.columns delete.now.cond) (entries_of self.old table (V.rows view.old)))) result }
        ensures entries { OnOk result (IsTrue (V.tells view.old) → entries_of self.new table (V.rows view.old) ≡ deleted (cond_asked schema.now.columns delete.now.cond) (entries_of self.old table (V.rows view.old))) }
        ensures covers { OnOk result (Covers self.new table (V.rows view.old)) }
        ensures others { OnOk result (SameElsewhere table self.old self.new) }
        ensures fits { OnOk result (Fits self.new schema.now table) }
        ensures undone { OnUndone result (self.new ≡ self.old) }
        ensures view { IsLeft V.View view.old view.new }
        ensures cause { HasCause V.View view.old view.new result }
    {
        match bind_delete(self.alloc, schema, delete)? {
            Bound::Refused(refusal) => Err(ExecErr::Refused(refusal)),
            Bound::Ready(cond) => self.change(table, view, &Change::removal(cond)),
        }
    }

    // Makes the change, unless it would pass a limit, and tells how many rows it took.
    fn change<V: View>(&mut self, table: u32, view: &mut V, change: &Change) -> Result<u64, ExecErr>
        requires can { (s : Shape) × V.fits view.old s × Fits self.old s table × IsTrue (change_fits s.columns change.now) }
        ensures told { IsTrue (V.tells view.old) → IsChanged change.now table (V.rows view.old) self.old self.new result }
        ensures covers { OnOk result (Covers self.new table (V.rows view.old)) }
        ensures others { OnOk result (SameElsewhere table self.old self.new) }
        ensures fits { OnOk result ((s : Shape) → V.fits view.old s → Fits self.old s table → IsTrue (change_fits s.columns change.now) → Fits self.new s table) }
        ensures undone { OnUndone result (self.new ≡ self.old) }
        ensures view { IsLeft V.View view.old view.new }
        ensures cause { HasCause V.View view.old view.new result }
    {
        let (edited, added) = self.edits_of(table);
        let draft = drafted(self.alloc, view, edited, added, change)?;
        self.settle(table, draft)
    }

    // Puts the draft in place of the edits of the table, unless too many rows would be changed.
    fn settle(&mut self, table: u32, draft: Draft) -> Result<u64, ExecErr>
        ensures { IsSettled table draft self.old self.new result }
    {
        if is_too_much(
            self.size_elsewhere(table),
            draft.edited.len(),
            draft.added.len(),
        ) {
            return Err(ExecErr::Refused(Refusal::ManyChanges));
        }
        let Draft {
            edited,
            added,
            taken,
        } = draft;
        self.put(TableEdits {
            table,
            edited,
            added,
        })?;
        Ok(taken)
    }
}

// Whether so many changed rows of other tables, edits of the base and new rows are too many.
fn is_too_much(elsewhere: u64, edited: usize, added: usize) -> bool
    ensures { result ≡ not (nat_le (elsewhere + (edited + added)) most_changes) }
{
    u128::from(elsewhere) + edited as u128 + added as u128 > u128::from(MOST_CHANGES)
}
