ghost use Rattle.std.specs.Prelude.{◌≡◌, ℕ, ◌+◌, ◌≤◌, List, IfOk, OnOk, nat_le};
ghost use Rattle.std.specs.List.Sorted.{IsStrictlySortedBy};
ghost use Rattle.std.specs.Ordering.{nat_cmp};
ghost use Rattle.std.specs.List.{position};
ghost use Rattle.pk_values.specs.declared.placed.Placed.{Placed};
ghost use Rattle.pk_schema.specs.Shapes.{Shape};
ghost use Rattle.pk_exec.specs.Entries.{kept_entries};
ghost use Rattle.pk_exec.specs.Seen.{Covers, Fits, entries_of};
ghost use Rattle.pk_exec.specs.Works.{IsWork, most_changes, no_edits, edits_at, edit_count, work_size, size_elsewhere, changed_tables, with_table, place_in, stands_at};

use crate::table_edits::{EditedRow, TableEdits};
use pk_values::{Memory, Row};
use std::alloc::Global;
use std::marker::Model;

mod changing;
mod inserting;
mod selecting;
mod telling;

/// How many rows a transaction may change.
pub const MOST_CHANGES: u64 = 20_000;

/// The edits of one transaction. Contracts see them as `Edits`.
#[derive(Debug, Drop)]
pub struct Work {
    alloc: Global,
    // In the order of their numbers, no two for one table.
    tables: Vec<TableEdits>,
}

impl Model for Work {
    ghost use Rattle.pk_exec.specs.Works.{Edits, IsWork};

    ghost Value = { Edits };

    ghost view = { λ w. record { tables = w.tables.items } };

    ghost invariant = { λ w. IsWork (record { tables = w.tables.items }) };
}

impl Work {
    /// No edits: it sees the rows of the base as they are.
    pub fn new(alloc: Global) -> Work
        ensures edits { result ≡ no_edits }
        ensures entries { (table : ℕ) (rows : List Placed) → entries_of result table rows ≡ kept_entries rows }
        ensures covers { (table : ℕ) (rows : List Placed) → Covers result table rows }
        ensures fits { (s : Shape) (table : ℕ) → Fits result s table }
        ensures elsewhere { (table : ℕ) → size_elsewhere result table ≡ 0 }
        ensures size { work_size result ≡ 0 }
    {
        Work {
            alloc,
            tables: Vec::new(alloc),
        }
    }

    /// How many rows are changed.
    pub fn size(&self) -> u64
        ensures size { result ≡ work_size self.now }
        ensures most { result ≤ most_changes }
        ensures work { IsWork self.now }
    {
        let mut size = 0;
        for table in &self.tables {
            size += table.size();
        }
        size
    }

    /// The tables of which rows are changed, ascending.
    pub fn tables(&self) -> Result<Vec<u32>, Memory>
        ensures tables { IfOk result (λ tables. tables.items ≡ changed_tables self.now) }
        ensures ascend { IfOk result (λ tables. IsStrictlySortedBy nat_cmp tables.items) }
    {
        let mut tables = Vec::with_capacity(self.alloc, self.tables.len())?;
        for edits in &self.tables {
            if edits.has_edits() {
                tables.push(edits.table)?;
            }
        }
        Ok(tables)
    }

    // How many rows of other tables are changed.
    #[tactic(auto, unfolding(crate::specs::Works::size_elsewhere))]
    fn size_elsewhere(&self, table: u32) -> u64
        ensures size { result ≡ size_elsewhere self.now table }
        ensures most { result ≤ most_changes }
    {
        let mut size = 0;
        for edits in &self.tables {
            if edits.table != table {
                size += edits.size();
            }
        }
        size
    }

    // The edits of the table: those of the rows of the base, and the new rows.
    #[tactic(auto, unfolding(crate::specs::Works::edits_at))]
    fn edits_of(&self, table: u32) -> (&[EditedRow], &[Row])
        ensures edited { result.0.now ≡ (edits_at self.now table).edited }
        ensures added { result.1.now ≡ (edits_at self.now table).added }
    {
        for edits in &self.tables {
            if edits.table == table {
                return (edits.edited.as_slice(), edits.added.as_slice());
            }
        }
        (&[], &[])
    }

    // The place of the first table with this number or a higher one, or that behind the last.
    fn place_of(&self, table: u32) -> usize
        ensures { result ≡ place_in table self.now.tables }
    {
        match self.first_from(table) {
            Some(place) => place,
            None => self.tables.len(),
        }
    }

    // The place of the first table with this number or a higher one.
    fn first_from(&self, table: u32) -> Option<usize>
        ensures { result ≡ position (λ t. nat_le table t.table) self.now.tables }
    {
        self.tables.iter().position(|edits| edits.table >= table)
    }

    // Whether the edits of this table stand at the place.
    fn is_at(&self, place: usize, table: u32) -> bool
        ensures { result ≡ stands_at table self.now.tables place }
    {
        match self.tables.get(place) {
            Some(edits) => edits.table == table,
            None => false,
        }
    }

    // Puts the edits of a table in place of those that it had.
    fn put(&mut self, edits: TableEdits) -> Result<(), Memory>
        requires { size_elsewhere self.old edits.table + edit_count edits ≤ most_changes }
        ensures { OnOk result (self.new ≡ with_table edits self.old) }
    {
        let place = self.place_of(edits.table);
        if self.is_at(place, edits.table) {
            self.tables[place] = edits;
            return Ok(());
        }
        self.tables.insert(place, edits)?;
        Ok(())
    }
}
