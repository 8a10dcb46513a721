//! The rows that the tuples of an INSERT make.

ghost use Rattle.std.specs.Prelude.{◌≡◌, ◌≤◌, length, map, slice_get, IfOk, IsTrue};
ghost use Rattle.std.specs.List.{list_all};
ghost use Rattle.std.specs.Option.{option_map_or};
ghost use Rattle.pk_values.specs.declared.row.TheConstants.{MOST_COLUMNS};
ghost use Rattle.pk_bind.specs.Insert.{sources, given, made_row, made_rows};
ghost use Rattle.pk_bind.specs.Literals.{has_words, stored_value};

use crate::literals::stored_value;
use pk_schema::{Column, column_place};
use pk_syntax::Literal;
use pk_values::{Items, Memory, Row, Value};
use std::alloc::Global;

/// The rows that tuples for these columns make.
pub(crate) fn made_rows(
    alloc: Global,
    columns: &[Column],
    listed: &[Column],
    rows: &[Items<Literal>],
) -> Result<Vec<Row>, Memory>
    requires few { length columns.now ≤ MOST_COLUMNS }
    requires words { IsTrue (list_all (list_all has_words) rows.now) }
    ensures { IfOk result (λ v. v.items ≡ made_rows columns.now listed.now rows.now) }
{
    let sources = sources(alloc, columns, listed)?;
    rows_from(alloc, sources.as_slice(), rows)
}

// The rows of tuples whose literals go to the columns from these places.
fn rows_from(
    alloc: Global,
    sources: &[Option<usize>],
    rows: &[Items<Literal>],
) -> Result<Vec<Row>, Memory>
    requires few { length sources.now ≤ MOST_COLUMNS }
    requires words { IsTrue (list_all (list_all has_words) rows.now) }
    ensures { IfOk result (λ v. v.items ≡ map (made_row sources.now) rows.now) }
{
    let mut made = Vec::with_capacity(alloc, rows.len())?;
    for row in rows {
        made.push(made_row(alloc, sources, row.as_slice())?)?;
    }
    Ok(made)
}

// For each column of the table, the place of its literal in a tuple.
fn sources(
    alloc: Global,
    columns: &[Column],
    listed: &[Column],
) -> Result<Vec<Option<usize>>, Memory>
    ensures { IfOk result (λ v. v.items ≡ sources columns.now listed.now) }
{
    let mut sources = Vec::with_capacity(alloc, columns.len())?;
    for column in columns {
        sources.push(column_place(listed, &column.name))?;
    }
    Ok(sources)
}

// The row of a tuple.
#[tactic(auto, unfolding(crate::specs::Insert::made_row))]
fn made_row(alloc: Global, sources: &[Option<usize>], row: &[Literal]) -> Result<Row, Memory>
    requires few { length sources.now ≤ MOST_COLUMNS }
    requires words { IsTrue (list_all has_words row.now) }
    ensures { IfOk result (λ made. made ≡ made_row sources.now row.now) }
{
    let mut values = Vec::with_capacity(alloc, sources.len())?;
    for source in sources {
        values.push(given(alloc, row, *source)?)?;
    }
    Ok(Row::make(values))
}

// The literal at this place, stored; null where there is none.
fn given(alloc: Global, row: &[Literal], source: Option<usize>) -> Result<Value, Memory>
    requires { IsTrue (list_all has_words row.now) }
    ensures { IfOk result (λ value. value ≡ given row.now source) }
{
    match source {
        None => Ok(Value::Null),
        Some(place) => stored_or_null(alloc, row, place),
    }
}

fn stored_or_null(alloc: Global, row: &[Literal], place: usize) -> Result<Value, Memory>
    requires { IsTrue (list_all has_words row.now) }
    ensures { IfOk result (λ value. value ≡ option_map_or stored_value (slice_get row.now place) Value.Null) }
{
    if place < row.len() {
        stored_value(alloc, &row[place])
    } else {
        Ok(Value::Null)
    }
}
