//! The values of one column, by their places in order.

ghost use Rattle.std.specs.Prelude.{◌<◌, All, IfOk, length};
ghost use Rattle.std.specs.List.Sorted.{IsSorted};
ghost use Rattle.pk_values.specs.Values.{value_cmp};
ghost use Rattle.pk_sweep.specs.Coding.{IsRank, IsOrdered, StandFor};

use pk_values::{Memory, Row, Value};
use std::alloc::Global;

/// A number for each row, which two rows share exactly where they have the same value in column `c`: how
/// many rows have a lesser value there.
pub(crate) fn codes(alloc: Global, rows: &[Row], c: u32) -> Result<Vec<u32>, Memory>
    requires { All (λ row. c < length row) rows.now }
    ensures { IfOk result (λ codes. StandFor rows.now c codes.items) }
{
    let ordered = ordered_values(alloc, rows, c)?;
    let mut codes = Vec::with_capacity(alloc, rows.len())?;
    for row in rows {
        codes.push(rank(ordered.as_slice(), row.value(c))?)?;
    }
    Ok(codes)
}

// The values of the column, in order.
fn ordered_values(alloc: Global, rows: &[Row], c: u32) -> Result<Vec<Value>, Memory>
    requires { All (λ row. c < length row) rows.now }
    ensures { IfOk result (λ values. IsOrdered c rows.now values.items) }
{
    let mut values = Vec::with_capacity(alloc, rows.len())?;
    for row in rows {
        values.push(row.value(c).copy()?)?;
    }
    values.sort_by(|a, b| a.compare(b))?;
    Ok(values)
}

// How many of the ordered values are less than this one.
fn rank(ordered: &[Value], value: &Value) -> Result<u32, Memory>
    requires { IsSorted value_cmp ordered.now }
    ensures { IfOk result (IsRank ordered.now value.now) }
{
    let place = ordered.partition_point(|other| other.compare(value).is_lt());
    match u32::try_from(place) {
        Ok(number) => Ok(number),
        Err(_) => Err(Memory),
    }
}
