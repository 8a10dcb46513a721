ghost use Rattle.std.specs.Prelude.{◌≡◌, ℕ, ◌+◌, ◌*◌, ◌<◌, ◌≤◌, Some, None, length, IsTrue, OnOk, IfOk, is_some};
ghost use Rattle.std.specs.List.Sorted.{IsStrictlySortedBy};
ghost use Rattle.std.specs.Ordering.{nat_cmp};
ghost use Rattle.std.specs.FinMap as rows;
ghost use Rattle.pk_values.specs.ColumnSet.{columns, is_subset};
ghost use Rattle.pk_values.specs.Records.{AreStorable};
ghost use Rattle.pk_similar.specs.Similarity.{are_below};
ghost use Rattle.pk_index.specs.Rows.{Rows, values_on, is_known_outside, passes, same_values, is_weak_with, IsLeast};
ghost use Rattle.pk_index.specs.Filing.{Puts, Takes, is_filed_behind, may_open};
ghost use Rattle.pk_index.specs.Shown.{ShowsRows, key_of, nullable_of};

use crate::family::Family;
use crate::projection::{Projection, is_known, push_asked, push_open, push_row, push_value};
use crate::steps::Steps;
use pk_values::{ColSet, Memory, Row, Value};
use smallvec::SmallVec;
use std::alloc::Global;
use std::collections::BTreeMap;
use std::sync::ledger::Ledger;

/// The rows of a table as a certain key sees them. Contracts see it as the map from the ids held to
/// the values of their rows on the key's columns (`ShowsRows`).
#[derive(Drop)]
pub struct PatternIndex {
    alloc: Global,
    columns: ColSet,
    nullable: ColSet,
    held: BTreeMap<u64, Row>,
    filed: Family,
}

impl PatternIndex {
    /// An index that holds no row, for the key on these columns, of which at most five are nullable.
    pub fn new(alloc: Global, key: ColSet, nullable: ColSet) -> PatternIndex
        requires inside { IsTrue (is_subset nullable key) }
        requires few { length (columns nullable) ≤ 5 }
        ensures shows { ShowsRows result rows.empty }
        ensures key { key_of result ≡ key }
        ensures nullable { nullable_of result ≡ nullable }
    {
        PatternIndex {
            alloc,
            columns: key,
            nullable,
            held: BTreeMap::new(alloc),
            filed: Family::new(alloc),
        }
    }

    /// The columns of the key that are nullable.
    pub fn nullable(&self) -> ColSet
        ensures { result ≡ nullable_of self.now }
    {
        self.nullable
    }

    /// Puts in the row, under an id that isn't held. After `Memory` nothing is claimed of the index.
    pub fn put(&mut self, id: u64, row: &Row) -> Result<(), Memory>
        requires wide { IsTrue (are_below (length row.now) (columns (key_of self.old))) }
        ensures shows { OnOk result ((held : Rows) → ShowsRows self.old held → rows.get held id ≡ None
            → ShowsRows self.new (rows.insert held id (values_on (columns (key_of self.old)) row.now))) }
        ensures key { key_of self.new ≡ key_of self.old }
        ensures nullable { nullable_of self.new ≡ nullable_of self.old }
    {
        let values = part(self.alloc, row, self.columns)?;
        let mut bytes = SmallVec::new(self.alloc);
        put_each(
            &mut self.filed,
            &mut bytes,
            id,
            row,
            self.columns,
            self.nullable,
        )?;
        self.held.insert(id, values)?;
        Ok(())
    }

    /// Whether the id is held with the values of this row on the key's columns. It takes no memory.
    pub fn holds(&self, id: u64, row: &Row) -> bool
        requires wide { IsTrue (are_below (length row.now) (columns (key_of self.now))) }
        ensures { (held : Rows) → ShowsRows self.now held
            → result ≡ passes (λ vs. same_values vs (values_on (columns (key_of self.now)) row.now)) (rows.get held id) }
    {
        let mut bytes = SmallVec::new(self.alloc);
        let _known = push_row(&mut bytes, row, self.columns);
        self.filed.has(bytes.as_slice(), id)
    }

    /// Drops the id, which is held with the values of this row. It takes no memory.
    pub fn drop_row(&mut self, id: u64, row: &Row)
        requires wide { IsTrue (are_below (length row.now) (columns (key_of self.old))) }
        ensures shows { (held : Rows) → ShowsRows self.old held → rows.get held id ≡ Some (values_on (columns (key_of self.old)) row.now)
            → ShowsRows self.new (rows.remove held id) }
        ensures key { key_of self.new ≡ key_of self.old }
        ensures nullable { nullable_of self.new ≡ nullable_of self.old }
    {
        let mut bytes = SmallVec::new(self.alloc);
        take_each(
            &mut self.filed,
            &mut bytes,
            id,
            row,
            self.columns,
            self.nullable,
        );
        self.held.remove(&id);
    }

    /// The values of a held id on the key's columns, in the order of the columns.
    pub fn values(&self, id: u64) -> Result<Row, Memory>
        requires { (held : Rows) × ShowsRows self.now held × IsTrue (is_some (rows.get held id)) }
        ensures { (held : Rows) → ShowsRows self.now held → IfOk result (λ row. rows.get held id ≡ Some row) }
    {
        self.held.get(&id).unwrap().copy()
    }

    /// The least id, not among those outside, of a row that is null on just the columns of the pattern
    /// and weakly similar to the probe on the key's columns; `None` exactly where there is none. It is
    /// one look-up, and one step more for each id that this finds and that is looked at. It takes no
    /// memory.
    pub fn least<L: Ledger>(
        &self,
        probe: &Row,
        pattern: ColSet,
        outside: &[u64],
        steps: &mut Steps<L>,
    ) -> Option<u64>
        requires wide { IsTrue (are_below (length probe.now) (columns (key_of self.now))) }
        requires known { IsTrue (is_known_outside (nullable_of self.now) (columns (key_of self.now)) probe.now) }
        requires inside { IsTrue (is_subset pattern (nullable_of self.now)) }
        requires ascending { IsStrictlySortedBy nat_cmp outside.now }
        ensures least { (held : Rows) → ShowsRows self.now held
            → IsLeast (λ id. passes (is_weak_with pattern (columns (key_of self.now)) probe.now) (rows.get held id)) outside.now result }
        ensures some { steps.old < steps.new }
        ensures most { steps.new ≤ steps.old + (2 + length outside.now) }
    {
        let mut bytes = SmallVec::new(self.alloc);
        push_asked(&mut bytes, probe, self.columns, pattern);
        self.filed.least(bytes.as_slice(), outside, steps)
    }
}

// The values of the row on the columns.
fn part(alloc: Global, row: &Row, cols: ColSet) -> Result<Row, Memory>
    requires wide { IsTrue (are_below (length row.now) (columns cols)) }
    ensures { IfOk result (λ part. part ≡ values_on (columns cols) row.now) }
{
    let mut values = Vec::with_capacity(alloc, cols.len() as usize)?;
    let mut rest = cols;
    while let Some(c) = rest.first() {
        rest = rest.without(c);
        values.push(row.value(c).copy()?)?;
    }
    Ok(Row::make(values))
}

// Files the id under all projections of the row that begin with these bytes. `rest` are the columns
// that they have still to tell.
fn put_each(
    filed: &mut Family,
    bytes: &mut Projection,
    id: u64,
    row: &Row,
    rest: ColSet,
    nullable: ColSet,
) -> Result<(), Memory>
    requires wide { IsTrue (are_below (length row.now) (columns rest)) }
    requires inline { bytes.old.capacity ≡ 8224 }
    requires room { length bytes.old.items + 257 * length (columns rest) ≤ 8224 }
    ensures filed { OnOk result (Puts filed.old filed.new (is_filed_behind bytes.old.items nullable (columns rest) (values_on (columns rest) row.now)) id) }
    ensures items { OnOk result (bytes.new.items ≡ bytes.old.items) }
    ensures capacity { OnOk result (bytes.new.capacity ≡ bytes.old.capacity) }
    ensures storable { OnOk result (AreStorable (values_on (columns rest) row.now)) }
{
    let Some(c) = rest.first() else {
        return filed.put(bytes.as_slice(), id);
    };
    let value = row.value(c);
    let others = rest.without(c);
    let len = bytes.len();
    push_value(bytes, value);
    put_each(filed, bytes, id, row, others, nullable)?;
    bytes.truncate(len);
    if !may_open(nullable, c, value) {
        return Ok(());
    }
    push_open(bytes);
    put_each(filed, bytes, id, row, others, nullable)?;
    bytes.truncate(len);
    Ok(())
}

// Takes the id out from under all projections of the row that begin with these bytes.
fn take_each(
    filed: &mut Family,
    bytes: &mut Projection,
    id: u64,
    row: &Row,
    rest: ColSet,
    nullable: ColSet,
)
    requires wide { IsTrue (are_below (length row.now) (columns rest)) }
    requires inline { bytes.old.capacity ≡ 8224 }
    requires room { length bytes.old.items + 257 * length (columns rest) ≤ 8224 }
    ensures filed { Takes filed.old filed.new (is_filed_behind bytes.old.items nullable (columns rest) (values_on (columns rest) row.now)) id }
    ensures items { bytes.new.items ≡ bytes.old.items }
    ensures capacity { bytes.new.capacity ≡ bytes.old.capacity }
{
    let Some(c) = rest.first() else {
        filed.take(bytes.as_slice(), id);
        return;
    };
    let value = row.value(c);
    let others = rest.without(c);
    let len = bytes.len();
    push_value(bytes, value);
    take_each(filed, bytes, id, row, others, nullable);
    bytes.truncate(len);
    if !may_open(nullable, c, value) {
        return;
    }
    push_open(bytes);
    take_each(filed, bytes, id, row, others, nullable);
    bytes.truncate(len);
}

// Whether the row is filed with the column left open too.
fn may_open(nullable: ColSet, c: u32, value: &Value) -> bool
    ensures { result ≡ may_open nullable c value.now }
{
    nullable.has(c) && is_known(value)
}
