ghost use Rattle.std.specs.Prelude.{◌≡◌, true, ◌+◌, ℕ, List, [], ◌∷◌, ◌++◌, length, All, IsTrue, IfOk, IfSome, OnOk, None, Some};
ghost use Rattle.pk_values.specs.declared.value.Value.{Value};
ghost use Rattle.pk_schema.specs.Shapes.{Shape};
ghost use Rattle.pk_schema.specs.Admits.{Admits};
ghost use Rattle.pk_exec.specs.Rows.{ids_of};
ghost use Rattle.pk_exec.specs.Fates.{CanChange, fate_of, fate_refusal};
ghost use Rattle.pk_exec.specs.Bases.{base_rows, edits_in};
ghost use Rattle.pk_exec.specs.Drafts.{change_fits, row_taken, row_refusal, taken_by, added_by_fate, changed_edits, changed_added, added_taken, added_refusal, IsDraft, Adds, BaseDrafts, IsDrafted};
ghost use Rattle.pk_exec.specs.Works.{edit_ids};
ghost use Rattle.pk_exec.specs.Seen.{IsAdmitted, is_part};
ghost use Rattle.pk_exec.specs.Views.{IsLeft, HasCause};

use crate::base::{BaseRow, base_row, edits_behind};
use crate::change::{Change, Fate};
use crate::exec_err::ExecErr;
use crate::table_edits::EditedRow;
use crate::view::View;
use pk_values::{Memory, Refusal, Row};
use std::alloc::Global;

/// The edits of a table after a change that isn't settled yet, and how many rows it took.
#[derive(Debug, Drop)]
pub(crate) struct Draft {
    pub(crate) edited: Vec<EditedRow>,
    pub(crate) added: Vec<Row>,
    pub(crate) taken: u64,
}

/// The draft of a change over a view, a table's edits of it and its new rows.
pub(crate) fn drafted<V: View>(
    alloc: Global,
    view: &mut V,
    edited: &[EditedRow],
    added: &[Row],
    change: &Change,
) -> Result<Draft, ExecErr>
    requires can { (s : Shape) × V.fits view.old s × All (IsAdmitted s) edited.now × All (Admits s) added.now × IsTrue (change_fits s.columns change.now) }
    ensures told { IsTrue (V.tells view.old) → IsDrafted change.now (base_rows edited.now (V.rows view.old)) added.now result }
    ensures part { IfOk result (λ d. is_part (edit_ids d.edited.items) (ids_of (V.rows view.old)) ≡ true) }
    ensures edited { IfOk result (λ d. (s : Shape) → V.fits view.old s → All (IsAdmitted s) edited.now → IsTrue (change_fits s.columns change.now) → All (IsAdmitted s) d.edited.items) }
    ensures added { IfOk result (λ d. (s : Shape) → All (Admits s) added.now → IsTrue (change_fits s.columns change.now) → All (Admits s) d.added.items) }
    ensures view { IsLeft V.View view.old view.new }
    ensures cause { HasCause V.View view.old view.new result }
{
    let mut draft = base_draft(alloc, view, edited, change)?;
    draft.change_added(added, change)?;
    Ok(draft)
}

// The draft of the rows of the base, in the order of their ids.
fn base_draft<V: View>(
    alloc: Global,
    view: &mut V,
    edited: &[EditedRow],
    change: &Change,
) -> Result<Draft, ExecErr>
    requires can { (s : Shape) × V.fits view.old s × All (IsAdmitted s) edited.now × IsTrue (change_fits s.columns change.now) }
    ensures told { IsTrue (V.tells view.old) → BaseDrafts change.now (base_rows edited.now (V.rows view.old)) result }
    ensures part { IfOk result (λ d. is_part (edit_ids d.edited.items) (ids_of (V.rows view.old)) ≡ true) }
    ensures edited { IfOk result (λ d. (s : Shape) → V.fits view.old s → All (IsAdmitted s) edited.now → IsTrue (change_fits s.columns change.now) → All (IsAdmitted s) d.edited.items) }
    ensures added { IfOk result (λ d. d.added.items ≡ []) }
    ensures view { IsLeft V.View view.old view.new }
    ensures cause { HasCause V.View view.old view.new result }
{
    let mut draft = Draft::empty(alloc);
    let mut at = 0;
    let mut left = edited;
    while let Some(id) = view.next_after(at)? {
        let base = base_row(view, id, left)?;
        left = edits_behind(left, id);
        at = id;
        draft.change_row(base, change)?;
    }
    Ok(draft)
}

impl Draft {
    // Nothing is edited.
    fn empty(alloc: Global) -> Draft
        ensures { IsDraft result [] [] 0 }
    {
        Draft {
            edited: Vec::new(alloc),
            added: Vec::new(alloc),
            taken: 0,
        }
    }

    // Changes a row of the base.
    fn change_row(&mut self, base: BaseRow, change: &Change) -> Result<(), ExecErr>
        requires { IfSome base.row (CanChange change.now) }
        ensures { Adds (row_refusal change.now base.row) (changed_edits change.now (base ∷ [])) [] (row_taken change.now base.row) self.old self.new result }
    {
        let BaseRow { id, edited, row } = base;
        let Some(row) = row else {
            return self.leave(id, edited, None);
        };
        match change.fate(row)? {
            Fate::Left(row) => self.leave(id, edited, Some(row)),
            Fate::Put(row) => self.push_edit(id, Some(row), 1),
            Fate::Gone => self.push_edit(id, None, 1),
            Fate::Long(bytes) => Err(ExecErr::Refused(Refusal::LongRow { bytes })),
        }
    }

    // A row of the base that isn't taken stays as the edits left it.
    fn leave(&mut self, id: u64, edited: bool, row: Option<Row>) -> Result<(), ExecErr>
        ensures { Adds None (edits_in (record { id = id; edited = edited; row = row } ∷ [])) [] 0 self.old self.new result }
    {
        if edited {
            return self.push_edit(id, row, 0);
        }
        Ok(())
    }

    // Puts an edit, for which so many rows were taken.
    fn push_edit(&mut self, id: u64, row: Option<Row>, taken: u64) -> Result<(), ExecErr>
        ensures { Adds None (record { id = id; row = row } ∷ []) [] taken self.old self.new result }
    {
        self.count(taken)?;
        self.edited.push(EditedRow { id, row })?;
        Ok(())
    }

    // Changes the new rows, in their order.
    fn change_added(&mut self, added: &[Row], change: &Change) -> Result<(), ExecErr>
        requires { All (CanChange change.now) added.now }
        ensures { Adds (added_refusal change.now added.now) [] (changed_added change.now added.now) (added_taken change.now added.now) self.old self.new result }
    {
        for row in added {
            self.change_new(row.copy()?, change)?;
        }
        Ok(())
    }

    // Changes a new row.
    fn change_new(&mut self, row: Row, change: &Change) -> Result<(), ExecErr>
        requires { CanChange change.now row }
        ensures { Adds (fate_refusal (fate_of change.now row)) [] (added_by_fate (fate_of change.now row)) (taken_by (fate_of change.now row)) self.old self.new result }
    {
        match change.fate(row)? {
            Fate::Left(row) => self.push_added(row, 0),
            Fate::Put(row) => self.push_added(row, 1),
            Fate::Gone => Ok(self.count(1)?),
            Fate::Long(bytes) => Err(ExecErr::Refused(Refusal::LongRow { bytes })),
        }
    }

    // Puts a new row, for which so many rows were taken.
    fn push_added(&mut self, row: Row, taken: u64) -> Result<(), ExecErr>
        ensures { Adds None [] (row ∷ []) taken self.old self.new result }
    {
        self.count(taken)?;
        self.added.push(row)?;
        Ok(())
    }

    // Counts rows that are taken. A count of 2^64 is answered as want of memory, as no machine holds so
    // many rows.
    fn count(&mut self, taken: u64) -> Result<(), Memory>
        ensures edited { self.new.edited.items ≡ self.old.edited.items }
        ensures added { self.new.added.items ≡ self.old.added.items }
        ensures taken { OnOk result (self.new.taken ≡ self.old.taken + taken) }
    {
        let Some(sum) = self.taken.checked_add(taken) else {
            return Err(Memory);
        };
        self.taken = sum;
        Ok(())
    }
}
