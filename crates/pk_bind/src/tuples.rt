//! What the tuples of an INSERT are refused for.

ghost use Rattle.std.specs.Prelude.{◌≡◌, ◌∷◌, [], length, is_none, IfOk};
ghost use Rattle.std.specs.List.{find};
ghost use Rattle.std.specs.Option.{option_copied, option_map};
ghost use Rattle.pk_values.specs.Refusals.{first_some, first_by, or_else};
ghost use Rattle.pk_syntax.specs.declared.declaration.ColumnDecl.{ColumnDecl};
ghost use Rattle.pk_bind.specs.Insert.{miscounted, tuple_fault, is_left_null, null_value, literals_refusals, long_row};

use crate::literals::{Check, passes, stored_fault};
use pk_schema::{Column, column_place};
use pk_syntax::Literal;
use pk_values::{Items, Memory, Refusal, Row};

// How many bytes a row has at most.
const MOST_ROW: u32 = 4000;

/// The first refusal of the literals of tuples for these listed columns.
pub(crate) fn tuples_refusal(
    columns: &[Column],
    listed: &[Column],
    rows: &[Items<Literal>],
) -> Result<Option<Refusal>, Memory>
    ensures { IfOk result (λ r. r ≡ first_some (literals_refusals columns.now listed.now rows.now)) }
{
    if let Some(refusal) = miscounted(listed.len(), rows) {
        return Ok(Some(refusal));
    }
    if let Some(refusal) = first_fault(Check::Kind, listed, rows)? {
        return Ok(Some(refusal));
    }
    if let Some(refusal) = first_fault(Check::Wide, listed, rows)? {
        return Ok(Some(refusal));
    }
    if let Some(refusal) = first_fault(Check::Length, listed, rows)? {
        return Ok(Some(refusal));
    }
    first_null(columns, listed, rows)
}

// The first tuple that hasn't one literal for each of so many columns.
fn miscounted(columns: usize, rows: &[Items<Literal>]) -> Option<Refusal>
    ensures { result ≡ first_by (miscounted columns) rows.now }
{
    for row in rows {
        let values = row.as_slice().len();
        if values != columns {
            return Some(Refusal::ValueCount {
                values: values as u64,
                columns: columns as u64,
            });
        }
    }
    None
}

// The first literal that fails the check, tuple by tuple and from left to right.
fn first_fault(
    check: Check,
    listed: &[Column],
    rows: &[Items<Literal>],
) -> Result<Option<Refusal>, Memory>
    ensures { IfOk result (λ r. r ≡ first_by (tuple_fault check listed.now) rows.now) }
{
    for row in rows {
        if !tuple_passes(check, listed, row.as_slice()) {
            return tuple_fault(check, listed, row.as_slice());
        }
    }
    Ok(None)
}

// Whether the check finds nothing in the tuple.
fn tuple_passes(check: Check, listed: &[Column], row: &[Literal]) -> bool
    ensures { result ≡ is_none (tuple_fault check listed.now row.now) }
{
    for (i, literal) in row.iter().enumerate() {
        let Some(column) = listed.get(i) else {
            return true;
        };
        if !passes(check, column, literal) {
            return false;
        }
    }
    true
}

fn tuple_fault(check: Check, listed: &[Column], row: &[Literal]) -> Result<Option<Refusal>, Memory>
    ensures { IfOk result (λ r. r ≡ tuple_fault check listed.now row.now) }
{
    for (i, literal) in row.iter().enumerate() {
        let Some(column) = listed.get(i) else {
            return Ok(None);
        };
        if let Some(refusal) = stored_fault(check, column, literal)? {
            return Ok(Some(refusal));
        }
    }
    Ok(None)
}

// The first tuple that gives null to a column without.
fn first_null(
    columns: &[Column],
    listed: &[Column],
    rows: &[Items<Literal>],
) -> Result<Option<Refusal>, Memory>
    ensures { IfOk result (λ r. r ≡ first_by (null_value columns.now listed.now) rows.now) }
{
    let left = left_null(columns, listed);
    for row in rows {
        if left.is_some() || !tuple_passes(Check::Null, listed, row.as_slice()) {
            return null_value(listed, left, row.as_slice());
        }
    }
    Ok(None)
}

// The first column without null that isn't listed.
fn left_null<'a>(columns: &'a [Column], listed: &[Column]) -> Option<&'a Column>
    ensures { option_copied result ≡ find (is_left_null listed.now) columns.now }
{
    for column in columns {
        if is_left_null(listed, column) {
            return Some(column);
        }
    }
    None
}

fn is_left_null(listed: &[Column], column: &Column) -> bool
    ensures { result ≡ is_left_null listed.now column.now }
{
    column.not_null && column_place(listed, &column.name).is_none()
}

// Null for a listed column without, or else for the column that is left.
fn null_value(
    listed: &[Column],
    left: Option<&Column>,
    row: &[Literal],
) -> Result<Option<Refusal>, Memory>
    ensures { IfOk result (λ r. r ≡ or_else (tuple_fault Check.Null listed.now row.now) (option_map (λ (c : ColumnDecl). Refusal.NullValue c.name) (option_copied left.entry))) }
{
    if let Some(refusal) = tuple_fault(Check::Null, listed, row)? {
        return Ok(Some(refusal));
    }
    match left {
        None => Ok(None),
        Some(column) => Ok(Some(Refusal::NullValue {
            column: column.name.copy()?,
        })),
    }
}

/// The first row of more than 4,000 bytes.
pub(crate) fn long_row(rows: &[Row]) -> Option<Refusal>
    ensures { result ≡ first_by long_row rows.now }
{
    for row in rows {
        let bytes = row.record_len();
        if bytes > MOST_ROW {
            return Some(Refusal::LongRow {
                bytes: u64::from(bytes),
            });
        }
    }
    None
}
