//! INSERT.

ghost use Rattle.std.specs.Prelude.{◌≡◌, ◌+◌, ◌≤◌, ◌∷◌, [], List, length, IsTrue, OnOk};
ghost use Rattle.std.specs.List.{list_all};
ghost use Rattle.pk_values.specs.declared.placed.Placed.{Placed};
ghost use Rattle.pk_syntax.specs.Given.{has_utf8};
ghost use Rattle.pk_bind.specs.Insert.{new_rows};
ghost use Rattle.pk_exec.specs.Edits.{inserted_into};
ghost use Rattle.pk_exec.specs.Works.{most_changes, SameElsewhere, work_size, edits_at, edit_count, with_table, add_rows};
ghost use Rattle.pk_exec.specs.Seen.{Covers, Fits, entries_of};
ghost use Rattle.pk_exec.specs.Refusals.{work_insert_refusals, many_changes};
ghost use Rattle.pk_exec.specs.Answers.{InsertAnswers, OnInsertRefusal};

use crate::insert_err::InsertErr;
use crate::table_edits::TableEdits;
use crate::work::{MOST_CHANGES, Work};
use pk_bind::{Bound, bind_insert};
use pk_schema::Schema;
use pk_syntax::Insert;
use pk_values::{Items, Memory, Refusal, Row};

impl Work {
    /// Puts the rows of an INSERT behind all others, and tells how many. A refused one leaves the edits
    /// as they were; after `Memory` nothing is claimed of them.
    pub fn insert(&mut self, schema: &Schema, table: u32, insert: &Insert) -> Result<u64, InsertErr>
        requires fits { Fits self.old schema.now table }
        requires texts { IsTrue (list_all (list_all has_utf8) insert.now.rows) }
        ensures answer { InsertAnswers (work_insert_refusals schema.now (work_size self.old) insert.now) (length insert.now.rows) result }
        ensures entries { OnOk result ((rows : List Placed) → entries_of self.new table rows ≡ inserted_into (new_rows schema.now.columns insert.now) (entries_of self.old table rows)) }
        ensures covers { OnOk result ((rows : List Placed) → Covers self.old table rows → Covers self.new table rows) }
        ensures others { OnOk result (SameElsewhere table self.old self.new) }
        ensures fits { OnOk result (Fits self.new schema.now table) }
        ensures refused { OnInsertRefusal result (self.new ≡ self.old) }
    {
        match bind_insert(self.alloc, schema, insert)? {
            Bound::Refused(refusal) => Err(InsertErr::Refused(refusal)),
            Bound::Ready(rows) => self.add(table, rows),
        }
    }

    // Puts these rows behind all others, unless they are too many.
    fn add(&mut self, table: u32, rows: Items<Row>) -> Result<u64, InsertErr>
        ensures answer { InsertAnswers (many_changes (work_size self.old + length rows) ∷ []) (length rows) result }
        ensures edits { OnOk result (self.new ≡ with_table (add_rows rows (edits_at self.old table)) self.old) }
        ensures refused { OnInsertRefusal result (self.new ≡ self.old) }
    {
        let rows = rows.into_vec();
        let n = rows.len() as u64;
        if n > MOST_CHANGES - self.size() {
            return Err(InsertErr::Refused(Refusal::ManyChanges));
        }
        self.append(table, rows)?;
        Ok(n)
    }

    // Puts these rows behind all others.
    fn append(&mut self, table: u32, rows: Vec<Row>) -> Result<(), Memory>
        requires { work_size self.old + length rows.items ≤ most_changes }
        ensures { OnOk result (self.new ≡ with_table (add_rows rows.items (edits_at self.old table)) self.old) }
    {
        let place = self.place_of(table);
        if self.is_at(place, table) {
            return self.tables[place].append(rows);
        }
        self.put(TableEdits {
            table,
            edited: Vec::new(self.alloc),
            added: rows,
        })
    }
}
