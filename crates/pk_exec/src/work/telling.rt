//! What becomes of the base.

ghost use Rattle.std.specs.Prelude.{◌≡◌, ◌≤◌, ◌+◌, ◌^◌, List, ◌++◌, length, All, IfOk};
ghost use Rattle.pk_values.specs.declared.placed.Placed.{Placed};
ghost use Rattle.pk_schema.specs.Shapes.{Shape};
ghost use Rattle.pk_schema.specs.Admits.{Admits};
ghost use Rattle.pk_exec.specs.Rows.{AscendFrom};
ghost use Rattle.pk_exec.specs.Changes.{changes_of, placed_from};
ghost use Rattle.pk_exec.specs.Works.{SameElsewhere, edits_at, edited_ids, no_edits_of};
ghost use Rattle.pk_exec.specs.Seen.{Covers, Fits, entries_of};
ghost use Rattle.pk_exec.specs.Told.{gone_edits, put_edits};

use crate::table_edits::{EditedRow, TableEdits};
use crate::work::Work;
use pk_values::{Changes, Items, Memory, Placed, Row};
use std::alloc::Global;
use std::mem;

impl Work {
    /// What is changed of the table, where new rows get the ids from `next` on. The rows are moved into the
    /// changes, so that the edits have none of the table from then on.
    pub fn take_changes(&mut self, table: u32, next: u64) -> Result<Changes, Memory>
        requires { next ≤ 2 ^ 62 }
        ensures changes { IfOk result (λ changes. (rows : List Placed) → AscendFrom 1 rows → Covers self.old table rows → changes ≡ changes_of rows next (entries_of self.old table rows)) }
        ensures admitted { IfOk result (λ changes. (s : Shape) → Fits self.old s table → All (λ p. Admits s p.row) changes.put) }
        ensures emptied { edits_at self.new table ≡ no_edits_of table }
        ensures others { SameElsewhere table self.old self.new }
    {
        let TableEdits { edited, added, .. } = self.take_edits(table);
        Ok(Changes {
            gone: gone_ids(self.alloc, edited.as_slice())?,
            put: put_rows(self.alloc, edited, added, next)?,
        })
    }

    // The edits of the table, which has none from then on.
    fn take_edits(&mut self, table: u32) -> TableEdits
        ensures taken { result ≡ edits_at self.old table }
        ensures emptied { edits_at self.new table ≡ no_edits_of table }
        ensures others { SameElsewhere table self.old self.new }
    {
        let place = self.place_of(table);
        let none = TableEdits::none(self.alloc, table);
        if self.is_at(place, table) {
            return mem::replace(&mut self.tables[place], none);
        }
        none
    }

    /// The ids of the rows of the base that are edited, in their order.
    pub fn touched(&self, table: u32) -> Result<Vec<u64>, Memory>
        ensures { IfOk result (λ ids. ids.items ≡ edited_ids self.now table) }
    {
        let (edited, _) = self.edits_of(table);
        let mut ids = Vec::with_capacity(self.alloc, edited.len())?;
        for edit in edited {
            ids.push(edit.id)?;
        }
        Ok(ids)
    }
}

// The ids of the rows that are gone.
fn gone_ids(alloc: Global, edited: &[EditedRow]) -> Result<Items<u64>, Memory>
    ensures { IfOk result (λ ids. ids ≡ gone_edits edited.now) }
{
    let mut ids = Vec::new(alloc);
    for edit in edited {
        if edit.row.is_none() {
            ids.push(edit.id)?;
        }
    }
    Ok(Items::from_vec(ids))
}

// The rows that are put: the new rows of edits, and those that are added, which get the ids from `next`
// on.
fn put_rows(
    alloc: Global,
    edited: Vec<EditedRow>,
    added: Vec<Row>,
    next: u64,
) -> Result<Items<Placed>, Memory>
    requires { next + length added.items ≤ 2 ^ 63 }
    ensures { IfOk result (λ rows. rows ≡ put_edits edited.items ++ placed_from next added.items) }
{
    let mut rows = edited_rows(alloc, edited)?;
    let mut id = next;
    for row in added {
        rows.push(Placed { id, row })?;
        id += 1;
    }
    Ok(Items::from_vec(rows))
}

// The new rows of edits.
fn edited_rows(alloc: Global, edited: Vec<EditedRow>) -> Result<Vec<Placed>, Memory>
    ensures { IfOk result (λ rows. rows.items ≡ put_edits edited.items) }
{
    let mut rows = Vec::new(alloc);
    for edit in edited {
        let EditedRow { id, row } = edit;
        if let Some(row) = row {
            rows.push(Placed { id, row })?;
        }
    }
    Ok(rows)
}
