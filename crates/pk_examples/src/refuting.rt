//! Two rows that agree on a key as far as it is known, and nowhere else.

ghost use Rattle.std.specs.Prelude.{◌≡◌, ℕ, ◌^◌, ◌≤◌, ◌<◌, [], ◌∷◌, not, ◌&&◌, length, IsFalse, IfOk};
ghost use Rattle.pk_values.specs.ColumnSet.{IsColumnSet, has_column};
ghost use Rattle.pk_schema.specs.Shapes.{kinds_of, not_null_of, all_of};
ghost use Rattle.pk_schema.specs.Admits.{Admits};
ghost use Rattle.pk_rule.specs.Plain.{plain_of};
ghost use Rattle.pk_rule.specs.Rule.{is_implied};
ghost use Rattle.pk_rule.specs.Tables.{Refutes};
ghost use Rattle.pk_rule.specs.TwoRows.{mark, is_left_null, row_from, low_row, high_row};
ghost use Rattle.pk_examples.specs.Entries.{entry_by};

use pk_schema::{Column, Schema};
use pk_values::{ColSet, KeyDecl, Kind, Memory, Row, Sort, Value, Words};
use std::alloc::Global;

/// A table of two rows.
#[derive(Debug, Drop)]
pub struct TwoRows {
    /// It has 0 or the empty text where it isn't null.
    pub low: Row,
    /// It has 1 or `a` in each column outside the key.
    pub high: Row,
}

/// The two rows of a key. Both have 0 or the empty text on the key's columns, by their kinds, but for a
/// certain key both are null in those of them that may be null. In every other column `low` has 0 or the
/// empty text, and `high` 1 or `a`.
///
/// For a key over the schema's columns that isn't implied they are a table of the schema in which the
/// key fails. The schema admits both rows, whatever the key. `Memory` may come at any key.
pub fn two_rows(alloc: Global, schema: &Schema, key: KeyDecl) -> Result<TwoRows, Memory>
    ensures low { IfOk result (λ rows. rows.low ≡ low_row (plain_of schema.now) key) }
    ensures high { IfOk result (λ rows. rows.high ≡ high_row (plain_of schema.now) key) }
    ensures refute { IfOk result (λ rows. key.columns < 2 ^ length schema.now.columns → IsFalse (is_implied (plain_of schema.now) key) → Refutes (plain_of schema.now) key (rows.low ∷ rows.high ∷ [])) }
    ensures low_admitted { IfOk result (λ rows. Admits schema.now rows.low) }
    ensures high_admitted { IfOk result (λ rows. Admits schema.now rows.high) }
{
    let nulls = left_null(schema, key);
    Ok(TwoRows {
        low: row_of(alloc, schema.columns(), nulls, ColSet::empty())?,
        high: row_of(alloc, schema.columns(), nulls, outside(schema, key))?,
    })
}

// The columns that the key leaves null: for a certain key those of its own that may be null.
fn left_null(schema: &Schema, key: KeyDecl) -> ColSet
    ensures set { IsColumnSet result }
    ensures members { (c : ℕ) → has_column result c ≡ is_left_null (not_null_of schema.now.columns) key c }
{
    match key.sort {
        Sort::Certain => key.columns.minus(schema.not_null()),
        Sort::Possible => ColSet::empty(),
    }
}

// The columns that aren't the key's.
fn outside(schema: &Schema, key: KeyDecl) -> ColSet
    ensures set { IsColumnSet result }
    ensures members { (c : ℕ) → has_column result c ≡ (has_column (all_of schema.now.columns) c && not (has_column key.columns c)) }
{
    schema.all().minus(key.columns)
}

// The row that is null in the columns of one set and has 1 or 'a' in those of the other, if it isn't
// null there; elsewhere it has 0 or ''.
fn row_of(alloc: Global, columns: &[Column], nulls: ColSet, marked: ColSet) -> Result<Row, Memory>
    requires { length columns.now ≤ 32 }
    ensures { IfOk result (λ row. row ≡ row_from (entry_by nulls marked) 0 (kinds_of columns.now)) }
{
    let mut values = Vec::with_capacity(alloc, columns.len())?;
    for (i, column) in columns.iter().enumerate() {
        values.push(entry(alloc, column.kind, i as u32, nulls, marked)?)?;
    }
    Ok(Row::make(values))
}

fn entry(alloc: Global, kind: Kind, c: u32, nulls: ColSet, marked: ColSet) -> Result<Value, Memory>
    ensures { IfOk result (λ value. value ≡ entry_by nulls marked kind c) }
{
    if nulls.has(c) {
        Ok(Value::Null)
    } else if marked.has(c) {
        mark(alloc, kind)
    } else {
        Ok(Value::blank(alloc, kind))
    }
}

// 1 or the text 'a'.
fn mark(alloc: Global, kind: Kind) -> Result<Value, Memory>
    ensures { IfOk result (λ value. value ≡ mark kind) }
{
    match kind {
        Kind::Integer => Ok(Value::Integer(1)),
        Kind::Text => text(alloc, b"a"),
    }
}

// The text of these bytes, which are short and UTF-8.
fn text(alloc: Global, bytes: &[u8]) -> Result<Value, Memory>
    ensures { IfOk result (λ value. value ≡ Value.Text bytes.now) }
{
    match Words::read(alloc, bytes) {
        Ok(words) => Ok(Value::Text(words)),
        Err(_) => Err(Memory),
    }
}
