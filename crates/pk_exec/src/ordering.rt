ghost use Rattle.std.specs.Prelude.{◌≡◌, IfOk, OnOk};
ghost use Rattle.pk_values.specs.declared.value.Value.TheVariants as values;
ghost use Rattle.pk_values.specs.Values.{value_at};
ghost use Rattle.pk_exec.specs.Selecting.{row_cmp, column_cmp, sorted_by};

use pk_bind::OrderBy;
use pk_values::{Memory, Row, Value};
use std::cmp::Ordering;

/// Puts the rows in order. Rows that tie stay as they stood.
pub(crate) fn sort_rows(rows: &mut Vec<Row>, order: &[OrderBy]) -> Result<(), Memory>
    ensures { OnOk result (rows.new.items ≡ sorted_by order.now rows.old.items) }
{
    rows.sort_by(|a, b| row_cmp(order, a, b))?;
    Ok(())
}

// How two rows stand: the first column that tells them apart decides.
#[tactic(auto, using(crate::proofs::RowLemmas::decides), unfolding(crate::specs::Selecting::row_cmp))]
fn row_cmp(order: &[OrderBy], a: &Row, b: &Row) -> Ordering
    ensures { result ≡ row_cmp order.now a.now b.now }
{
    for by in order {
        let ordering = column_cmp(*by, a, b);
        if ordering != Ordering::Equal {
            return ordering;
        }
    }
    Ordering::Equal
}

// How two rows stand by one column.
fn column_cmp(by: OrderBy, a: &Row, b: &Row) -> Ordering
    ensures { result ≡ column_cmp by a.now b.now }
{
    let null = Value::Null;
    let ordering = entry(a, by.column, &null).compare(entry(b, by.column, &null));
    if by.down {
        ordering.reverse()
    } else {
        ordering
    }
}

// What stands in the column; null where the row has no such column.
fn entry<'a>(row: &'a Row, column: u32, null: &'a Value) -> &'a Value
    requires { null.now ≡ values.Null }
    ensures { result.now ≡ value_at row.now column }
{
    if column < row.width() {
        row.value(column)
    } else {
        null
    }
}
