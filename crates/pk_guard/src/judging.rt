//! The first break of a table's keys, among rows of which some are changed.

ghost use Rattle.std.specs.Prelude.{◌≡◌, All, IfOk, IsTrue, None, length, option_map};
ghost use Rattle.pk_values.specs.ColumnSet.{columns as numbers};
ghost use Rattle.pk_similar.specs.Similarity.{are_below};
ghost use Rattle.pk_schema.specs.Admits.{Admits};
ghost use Rattle.pk_schema.specs.Shapes.{kinds_of};
ghost use Rattle.pk_guard.specs.Breaks.{breaks, break_of, first_break, first_pair};
ghost use Rattle.pk_guard.specs.Changed.{IdsAscend, RowsAscend, standing};
ghost use Rattle.pk_guard.specs.Holds.{KeysHold};
ghost use Rattle.pk_guard.specs.Splits.{is_wide, AreWide};

use crate::pairs::first_pair;
use pk_schema::{Column, Schema};
use pk_similar::fill;
use pk_values::{Break, KeyDecl, Kind, Memory, Placed};
use std::alloc::Global;

/// The first break of the rows as they will stand: `rows` without those that are gone, and those that
/// are put in their places. The rows break no key as they are.
pub(crate) fn first_break(
    alloc: Global,
    schema: &Schema,
    rows: &[Placed],
    gone: &[u64],
    put: &[Placed],
) -> Result<Option<Break>, Memory>
    requires rows_ascend { RowsAscend rows.now }
    requires rows_admitted { All (λ p. Admits schema.now p.row) rows.now }
    requires hold { KeysHold schema.now rows.now }
    requires gone_ascend { IdsAscend gone.now }
    requires put_ascend { RowsAscend put.now }
    requires put_admitted { All (λ p. Admits schema.now p.row) put.now }
    ensures { IfOk result (λ b. b ≡ first_break schema.now (standing gone.now put.now rows.now)) }
{
    let columns = schema.columns();
    let mut place = 1;
    for key in schema.keys() {
        if let Some(broken) = key_break(alloc, columns, place, key, rows, gone, put)? {
            return Ok(Some(broken));
        }
        place += 1;
    }
    Ok(None)
}

// The first break of the key at this place.
fn key_break(
    alloc: Global,
    columns: &[Column],
    place: u32,
    key: &KeyDecl,
    rows: &[Placed],
    gone: &[u64],
    put: &[Placed],
) -> Result<Option<Break>, Memory>
    requires columns_wide { IsTrue (are_below (length columns.now) (numbers key.now.columns)) }
    requires rows_wide { AreWide key.now rows.now }
    requires put_wide { AreWide key.now put.now }
    requires rows_ascend { RowsAscend rows.now }
    requires gone_ascend { IdsAscend gone.now }
    requires put_ascend { RowsAscend put.now }
    requires unbroken { first_pair key.now rows.now ≡ None }
    ensures { IfOk result (λ b. b ≡ option_map (break_of (kinds_of columns.now) place key.now) (first_pair key.now (standing gone.now put.now rows.now))) }
{
    match first_pair(key, rows, gone, put) {
        Some((low, high)) => Ok(Some(break_of(alloc, columns, place, key, low, high)?)),
        None => Ok(None),
    }
}

// What is told of two rows that break the key at this place.
fn break_of(
    alloc: Global,
    columns: &[Column],
    place: u32,
    key: &KeyDecl,
    low: &Placed,
    high: &Placed,
) -> Result<Break, Memory>
    requires columns_wide { IsTrue (are_below (length columns.now) (numbers key.now.columns)) }
    requires low_wide { IsTrue (is_wide key.now low.now) }
    requires high_wide { IsTrue (is_wide key.now high.now) }
    requires broken { IsTrue (breaks key.now low.now high.now) }
    ensures { IfOk result (λ b. b ≡ break_of (kinds_of columns.now) place key.now (low.now, high.now)) }
{
    let kinds = kinds_of(alloc, columns)?;
    Ok(Break {
        key: place,
        sort: key.sort,
        low: low.id,
        high: high.id,
        values: fill(alloc, &low.row, &high.row, kinds.as_slice(), key.columns)?,
    })
}

fn kinds_of(alloc: Global, columns: &[Column]) -> Result<Vec<Kind>, Memory>
    ensures { IfOk result (λ kinds. kinds.items ≡ kinds_of columns.now) }
{
    let kinds = columns.iter().map(|column| column.kind).collect(alloc)?;
    Ok(kinds)
}
