ghost use Rattle.std.specs.Prelude.{◌≡◌, ◌≤◌, ◌<◌, Some, length, vec_len, IfOk, slice_get, slice_set};
ghost use Rattle.pk_values.specs.Records.{row_record};
ghost use Rattle.pk_values.specs.declared.row.TheConstants.{MOST_COLUMNS};

use crate::memory::Memory;
use crate::value::Value;
use std::alloc::Global;
use std::marker::Model;

/// How many columns a table has at most, and so how many values a row.
pub const MOST_COLUMNS: usize = 32;

/// A row: its values in the order of its table's columns, at most 32. Contracts see it as the list
/// of its values.
#[derive(Debug, Drop)]
pub struct Row {
    values: Vec<Value>,
}

impl Model for Row {
    ghost use Rattle.std.specs.Prelude.{List, ◌≤◌, length};
    ghost use Rattle.pk_values.specs.declared.value.Value.{Value as Entry};
    ghost use Rattle.pk_values.specs.declared.row.TheConstants.{MOST_COLUMNS};

    ghost Value = { List Entry };

    ghost view = { λ r. r.values.items };

    ghost invariant = { λ r. length r.values.items ≤ MOST_COLUMNS };
}

impl Row {
    /// The row of these values.
    pub fn make(values: Vec<Value>) -> Row
        requires { vec_len values ≤ MOST_COLUMNS }
        ensures { result ≡ values.items }
    {
        Row { values }
    }

    /// How many values the row has, at most 32.
    pub fn width(&self) -> u32
        ensures width { result ≡ length self.now }
        ensures most { result ≤ MOST_COLUMNS }
    {
        self.values.len() as u32
    }

    /// The value in column `c`, counted from 0.
    pub fn value(&self, c: u32) -> &Value
        requires { c < length self.now }
        ensures { slice_get self.now c ≡ Some result.now }
    {
        &self.values[c as usize]
    }

    /// The values, in the order of the columns.
    pub fn as_slice(&self) -> &[Value]
        ensures values { result.now ≡ self.now }
        ensures most { length result.now ≤ MOST_COLUMNS }
    {
        self.values.as_slice()
    }

    /// The values again as a `Vec`.
    pub fn into_values(self) -> Vec<Value>
        ensures values { result.items ≡ self }
        ensures most { vec_len result ≤ MOST_COLUMNS }
    {
        let Row { values } = self;
        values
    }

    /// Puts the value into column `c`, counted from 0.
    pub fn set(&mut self, c: u32, value: Value)
        requires { c < length self.old }
        ensures { self.new ≡ slice_set self.old c value }
    {
        self.values[c as usize] = value;
    }

    /// How many bytes files keep the row in: those of its values, at most 8,224.
    pub fn record_len(&self) -> u32
        ensures bytes { result ≡ length (row_record self.now) }
        ensures most { result ≤ 8224 }
    {
        let mut bytes = 0;
        for value in &self.values {
            bytes += value.record_len();
        }
        bytes
    }

    /// An equal row.
    pub fn copy(&self) -> Result<Row, Memory>
        ensures { IfOk result (λ row. row ≡ self.now) }
    {
        let values = copies(*self.values.allocator(), self.values.as_slice())?;
        Ok(Row { values })
    }
}

// Equal values, in the same order.
fn copies(alloc: Global, values: &[Value]) -> Result<Vec<Value>, Memory>
    ensures { IfOk result (λ v. v.items ≡ values.now) }
{
    let mut copies = Vec::with_capacity(alloc, values.len())?;
    for value in values {
        copies.push(value.copy()?)?;
    }
    Ok(copies)
}
