ghost use Rattle.std.specs.Prelude.{◌≡◌, ◌<◌, List, [], ℕ, map, replicate, All, IfOk, length};
ghost use Rattle.pk_values.specs.Values.{value_at};
ghost use Rattle.pk_syntax.specs.Declarations.{names_of};
ghost use Rattle.pk_exec.specs.Selecting.{name_of, values_at};

use pk_schema::Column;
use pk_values::{Items, Memory, Name, Row, Value};
use std::alloc::Global;

/// The names of these columns.
pub(crate) fn header(
    alloc: Global,
    columns: &[Column],
    shown: &[u32],
) -> Result<Items<Name>, Memory>
    requires { All (λ c. c < length columns.now) shown.now }
    ensures { IfOk result (λ header. header ≡ map (name_of (names_of columns.now)) shown.now) }
{
    let mut names = Vec::with_capacity(alloc, shown.len())?;
    for column in shown {
        names.push(columns[*column as usize].name.copy()?)?;
    }
    Ok(Items::from_vec(names))
}

/// The values of these columns in each row.
pub(crate) fn shown_rows(
    alloc: Global,
    rows: &[Row],
    shown: &[u32],
) -> Result<Items<Items<Value>>, Memory>
    ensures { IfOk result (λ all. all ≡ map (values_at shown.now) rows.now) }
{
    let mut all = Vec::with_capacity(alloc, rows.len())?;
    for row in rows {
        all.push(shown_values(alloc, row, shown)?)?;
    }
    Ok(Items::from_vec(all))
}

// The values of these columns in a row.
fn shown_values(alloc: Global, row: &Row, shown: &[u32]) -> Result<Items<Value>, Memory>
    ensures { IfOk result (λ values. values ≡ values_at shown.now row.now) }
{
    let mut values = Vec::with_capacity(alloc, shown.len())?;
    for column in shown {
        values.push(shown_value(row, *column)?)?;
    }
    Ok(Items::from_vec(values))
}

// The value in the column; null where the row has no such column.
fn shown_value(row: &Row, column: u32) -> Result<Value, Memory>
    ensures { IfOk result (λ value. value ≡ value_at row.now column) }
{
    if column < row.width() {
        row.value(column).copy()
    } else {
        Ok(Value::Null)
    }
}

/// So many rows without a value.
pub(crate) fn empty_rows(alloc: Global, n: u64) -> Result<Items<Items<Value>>, Memory>
    ensures { IfOk result (λ rows. rows ≡ replicate n []) }
{
    let mut rows = Vec::new(alloc);
    for _row in 0..n {
        rows.push(Items::from_vec(Vec::new(alloc)))?;
    }
    Ok(Items::from_vec(rows))
}
