//! Rows by numbers: for each column, a number for each row, which two rows share exactly where they have
//! the same value there; and for each row the set of its nulls.

ghost use Rattle.std.specs.Prelude.{◌≡◌, ◌<◌, ◌^◌, cond, All, IfOk, length, map};
ghost use Rattle.std.specs.List.{AllZip};
ghost use Rattle.pk_values.specs.Values.{value_at, is_null};
ghost use Rattle.pk_sweep.specs.Pairs.{AreWide};
ghost use Rattle.pk_sweep.specs.Coding.{IsCoded, null_set};

use crate::ranks::codes;
use pk_values::{Memory, Row, Value};
use std::alloc::Global;

/// A column by numbers.
#[derive(Drop)]
pub(crate) struct CodedColumn {
    /// The set of this column alone.
    pub(crate) bit: u32,
    /// A number for each row. Two are equal exactly where the rows have the same value in the column.
    pub(crate) codes: Vec<u32>,
}

/// The columns by numbers.
pub(crate) fn coded_columns(
    alloc: Global,
    rows: &[Row],
    columns: &[u32],
) -> Result<Vec<CodedColumn>, Memory>
    requires low { All (λ c. c < 32) columns.now }
    requires wide { AreWide columns.now rows.now }
    ensures { IfOk result (λ coded. AllZip (IsCoded rows.now) columns.now coded.items) }
{
    let mut coded = Vec::with_capacity(alloc, columns.len())?;
    for c in columns {
        coded.push(coded_column(alloc, rows, *c)?)?;
    }
    Ok(coded)
}

fn coded_column(alloc: Global, rows: &[Row], c: u32) -> Result<CodedColumn, Memory>
    requires low { c < 32 }
    requires wide { All (λ row. c < length row) rows.now }
    ensures { IfOk result (IsCoded rows.now c) }
{
    Ok(CodedColumn {
        bit: alone(c),
        codes: codes(alloc, rows, c)?,
    })
}

// The set of this column alone, as a number.
fn alone(c: u32) -> u32
    requires { c < 32 }
    ensures { result ≡ 2 ^ c }
{
    1 << c
}

/// The set of the columns in which each row is null, as a number.
pub(crate) fn null_sets(alloc: Global, rows: &[Row], columns: &[u32]) -> Result<Vec<u32>, Memory>
    requires low { All (λ c. c < 32) columns.now }
    requires wide { AreWide columns.now rows.now }
    ensures { IfOk result (λ nulls. nulls.items ≡ map (null_set columns.now) rows.now) }
{
    let mut nulls = Vec::with_capacity(alloc, rows.len())?;
    for row in rows {
        nulls.push(null_set(row, columns))?;
    }
    Ok(nulls)
}

fn null_set(row: &Row, columns: &[u32]) -> u32
    requires low { All (λ c. c < 32) columns.now }
    requires wide { All (λ c. c < length row.now) columns.now }
    ensures { result ≡ null_set columns.now row.now }
{
    let mut set = 0;
    for c in columns {
        set |= null_bit(row, *c);
    }
    set
}

// The set of this column alone where the row is null in it, and no column else.
fn null_bit(row: &Row, c: u32) -> u32
    requires low { c < 32 }
    requires wide { c < length row.now }
    ensures { result ≡ cond (is_null (value_at row.now c)) (2 ^ c) 0 }
{
    if is_null(row.value(c)) { alone(c) } else { 0 }
}

fn is_null(value: &Value) -> bool
    ensures { result ≡ is_null value.now }
{
    matches!(value, Value::Null)
}
