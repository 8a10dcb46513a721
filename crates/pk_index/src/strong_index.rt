ghost use Rattle.std.specs.Prelude.{◌≡◌, ◌+◌, ◌<◌, ◌≤◌, Some, None, [], length, IsTrue, OnOk};
ghost use Rattle.std.specs.List.Sorted.{IsStrictlySortedBy};
ghost use Rattle.std.specs.Ordering.{nat_cmp};
ghost use Rattle.std.specs.FinMap as rows;
ghost use Rattle.pk_values.specs.ColumnSet.{columns};
ghost use Rattle.pk_values.specs.Records.{AreStorable};
ghost use Rattle.pk_similar.specs.Similarity.{are_below};
ghost use Rattle.pk_index.specs.Rows.{Marks, values_on, are_known, mark_of, passes, same_mark, is_strong_with, IsLeast};
ghost use Rattle.pk_index.specs.Filing.{mark_record};
ghost use Rattle.pk_index.specs.Shown.{ShowsMarks, strong_key_of};

use crate::family::Family;
use crate::projection::{Projection, push_row, push_value};
use crate::steps::Steps;
use pk_values::{ColSet, Memory, Row, Value};
use smallvec::SmallVec;
use std::alloc::Global;
use std::sync::ledger::Ledger;

/// The rows of a table as a possible key sees them. Contracts see it as the map from the ids held to
/// the values of their rows on the key's columns or, where one of these is null, to the mark of that
/// (`ShowsMarks`).
#[derive(Drop)]
pub struct StrongIndex {
    alloc: Global,
    columns: ColSet,
    filed: Family,
}

impl StrongIndex {
    /// An index that holds no row, for the key on these columns.
    pub fn new(alloc: Global, key: ColSet) -> StrongIndex
        ensures shows { ShowsMarks result rows.empty }
        ensures key { strong_key_of result ≡ key }
    {
        StrongIndex {
            alloc,
            columns: key,
            filed: Family::new(alloc),
        }
    }

    /// Puts in the row, under an id that isn't held. After `Memory` nothing is claimed of the index.
    pub fn put(&mut self, id: u64, row: &Row) -> Result<(), Memory>
        requires wide { IsTrue (are_below (length row.now) (columns (strong_key_of self.old))) }
        ensures shows { OnOk result ((held : Marks) → ShowsMarks self.old held → rows.get held id ≡ None
            → ShowsMarks self.new (rows.insert held id (mark_of (values_on (columns (strong_key_of self.old)) row.now)))) }
        ensures key { strong_key_of self.new ≡ strong_key_of self.old }
    {
        let mut bytes = SmallVec::new(self.alloc);
        let _known = push_mark(&mut bytes, row, self.columns);
        self.filed.put(bytes.as_slice(), id)
    }

    /// Whether the id is held with the values of this row on the key's columns or, where one of them is
    /// null, with the mark of that. It takes no memory.
    pub fn holds(&self, id: u64, row: &Row) -> bool
        requires wide { IsTrue (are_below (length row.now) (columns (strong_key_of self.now))) }
        ensures { (held : Marks) → ShowsMarks self.now held
            → result ≡ passes (λ mark. same_mark mark (mark_of (values_on (columns (strong_key_of self.now)) row.now))) (rows.get held id) }
    {
        let mut bytes = SmallVec::new(self.alloc);
        let _known = push_mark(&mut bytes, row, self.columns);
        self.filed.has(bytes.as_slice(), id)
    }

    /// Drops the id, which is held with the values of this row or their mark. It takes no memory.
    pub fn drop_row(&mut self, id: u64, row: &Row)
        requires wide { IsTrue (are_below (length row.now) (columns (strong_key_of self.old))) }
        ensures shows { (held : Marks) → ShowsMarks self.old held
            → rows.get held id ≡ Some (mark_of (values_on (columns (strong_key_of self.old)) row.now))
            → ShowsMarks self.new (rows.remove held id) }
        ensures key { strong_key_of self.new ≡ strong_key_of self.old }
    {
        let mut bytes = SmallVec::new(self.alloc);
        let _known = push_mark(&mut bytes, row, self.columns);
        self.filed.take(bytes.as_slice(), id);
    }

    /// The least id, not among those outside, of a row that is strongly similar to the probe on the
    /// key's columns; `None` exactly where there is none. It is one look-up, and one step more for each
    /// id that this finds and that is looked at; a probe with a null is similar to no row, which counts
    /// as the look-up. It takes no memory.
    pub fn least<L: Ledger>(
        &self,
        probe: &Row,
        outside: &[u64],
        steps: &mut Steps<L>,
    ) -> Option<u64>
        requires wide { IsTrue (are_below (length probe.now) (columns (strong_key_of self.now))) }
        requires ascending { IsStrictlySortedBy nat_cmp outside.now }
        ensures least { (held : Marks) → ShowsMarks self.now held
            → IsLeast (λ id. passes (is_strong_with (columns (strong_key_of self.now)) probe.now) (rows.get held id)) outside.now result }
        ensures some { steps.old < steps.new }
        ensures most { steps.new ≤ steps.old + (2 + length outside.now) }
    {
        let mut bytes = SmallVec::new(self.alloc);
        if !push_mark(&mut bytes, probe, self.columns) {
            steps.tick();
            return None;
        }
        self.filed.least(bytes.as_slice(), outside, steps)
    }
}

// Writes the bytes for the values of the row or, where one of them is null, for the mark of that. Tells
// whether none is null.
fn push_mark(bytes: &mut Projection, row: &Row, cols: ColSet) -> bool
    requires wide { IsTrue (are_below (length row.now) (columns cols)) }
    requires empty { bytes.old.items ≡ [] }
    requires inline { bytes.old.capacity ≡ 8224 }
    ensures items { bytes.new.items ≡ mark_record (mark_of (values_on (columns cols) row.now)) }
    ensures storable { AreStorable (values_on (columns cols) row.now) }
    ensures known { result ≡ are_known (values_on (columns cols) row.now) }
{
    if push_row(bytes, row, cols) {
        return true;
    }
    bytes.clear();
    push_value(bytes, &Value::Null);
    false
}
