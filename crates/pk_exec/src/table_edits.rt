ghost use Rattle.std.specs.Prelude.{◌≡◌, ◌≤◌, OnOk, OnErr};
ghost use Rattle.pk_exec.specs.Works.{most_changes, edit_count, has_edits, add_rows, no_edits_of};

use pk_values::{Memory, Row};
use std::alloc::Global;
use std::marker::Model;

/// A row of the base that is edited: its new row, or `None` where it is gone.
#[derive(Debug, Drop)]
pub struct EditedRow {
    pub id: u64,
    pub row: Option<Row>,
}

/// The edits of one table. Contracts see them as the record of their parts.
#[derive(Debug, Drop)]
pub(crate) struct TableEdits {
    pub(crate) table: u32,
    // In the order of their ids.
    pub(crate) edited: Vec<EditedRow>,
    // In the order in which they came.
    pub(crate) added: Vec<Row>,
}

impl Model for TableEdits {
    ghost use Rattle.pk_exec.specs.Works.{TableEdits as Edits};

    ghost Value = { Edits };

    ghost view = { λ t. record { table = t.table; edited = t.edited.items; added = t.added.items } };
}

impl TableEdits {
    /// No edits of the table.
    pub(crate) fn none(alloc: Global, table: u32) -> TableEdits
        ensures { result ≡ no_edits_of table }
    {
        TableEdits {
            table,
            edited: Vec::new(alloc),
            added: Vec::new(alloc),
        }
    }

    /// How many rows are changed.
    pub(crate) fn size(&self) -> u64
        requires { edit_count self.now ≤ most_changes }
        ensures count { result ≡ edit_count self.now }
        ensures most { result ≤ most_changes }
    {
        self.edited.len() as u64 + self.added.len() as u64
    }

    /// Whether any row is changed.
    pub(crate) fn has_edits(&self) -> bool
        ensures { result ≡ has_edits self.now }
    {
        !self.edited.is_empty() || !self.added.is_empty()
    }

    /// Puts these rows behind all others.
    pub(crate) fn append(&mut self, rows: Vec<Row>) -> Result<(), Memory>
        ensures ok { OnOk result (self.new ≡ add_rows rows.items self.old) }
        ensures err { OnErr result (self.new ≡ self.old) }
    {
        let mut rows = rows;
        self.added.append(&mut rows)?;
        Ok(())
    }
}
