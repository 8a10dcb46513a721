//! What is wrong with a row.

ghost use Rattle.std.specs.Prelude.{◌≡◌, ◌<◌, length, [], ◌∷◌, IfSome};
ghost use Rattle.pk_syntax.specs.Declarations.{first_of};
ghost use Rattle.pk_values.specs.Values.{are_bytes, fits_kind, is_null, value_at};
ghost use Rattle.pk_schema.specs.Admits.{text_length, first_wrong, width_fault, kind_fault, long_fault, null_fault, size_fault};
ghost use Rattle.pk_schema.specs.Checks.{wrong_of};

use pk_syntax::ColumnDecl;
use pk_values::{Kind, Row, Value};

/// What is wrong with a row, in the order in which it is looked for. Columns count from 0.
#[derive(Clone, Copy, Debug, PartialEq, Eq)]
pub enum RowFault {
    /// The row has so many values, and not one for each column.
    Width { values: u32 },
    /// The value of this column is of another kind.
    Kind { column: u32 },
    /// The text in this column has so many bytes, more than the column allows.
    Long { column: u32, bytes: u32 },
    /// This column is NOT NULL and has no known value.
    Null { column: u32 },
    /// Files would keep the row in so many bytes, more than 4,000.
    Size { bytes: u32 },
}

/// What a value is judged by.
#[derive(Clone, Copy, Debug, PartialEq, Eq)]
pub(crate) enum Check {
    /// It has the kind of its column.
    Kind,
    /// It is no longer than its column allows.
    Length,
    /// It is known where its column is NOT NULL.
    Known,
}

/// How many bytes a row has at most.
const MOST_ROW: u32 = 4000;

/// The row hasn't one value for each column.
#[tactic(auto, unfolding(crate::specs::Admits::width_fault))]
pub(crate) fn width_fault(columns: &[ColumnDecl], row: &Row) -> Option<RowFault>
    ensures { result ≡ width_fault columns.now row.now }
{
    let values = row.width();
    if values as usize == columns.len() {
        None
    } else {
        Some(RowFault::Width { values })
    }
}

/// Files would keep the row in more than 4,000 bytes.
#[tactic(auto, unfolding(crate::specs::Admits::size_fault))]
pub(crate) fn size_fault(row: &Row) -> Option<RowFault>
    ensures { result ≡ size_fault row.now }
{
    let bytes = row.record_len();
    if bytes <= MOST_ROW {
        None
    } else {
        Some(RowFault::Size { bytes })
    }
}

/// What is wrong with the row's values.
pub(crate) fn value_fault(columns: &[ColumnDecl], row: &Row) -> Option<RowFault>
    ensures { result ≡ first_of (kind_fault columns.now row.now ∷ long_fault columns.now row.now ∷ null_fault columns.now row.now ∷ []) }
{
    if let Some(column) = first_wrong(Check::Kind, columns, row) {
        return Some(RowFault::Kind { column });
    }
    if let Some(column) = first_wrong(Check::Length, columns, row) {
        let bytes = text_length_at(row, column);
        return Some(RowFault::Long { column, bytes });
    }
    let column = first_wrong(Check::Known, columns, row)?;
    Some(RowFault::Null { column })
}

// The first column whose value fails the check.
fn first_wrong(check: Check, columns: &[ColumnDecl], row: &Row) -> Option<u32>
    ensures column { result ≡ first_wrong (wrong_of check) columns.now row.now }
    ensures within { IfSome result (λ column. column < length row.now) }
{
    let place = wrong_place(check, columns, row.as_slice())?;
    Some(place as u32)
}

#[tactic(auto, unfolding(crate::specs::Admits::first_wrong))]
fn wrong_place(check: Check, columns: &[ColumnDecl], values: &[Value]) -> Option<usize>
    ensures place { result ≡ first_wrong (wrong_of check) columns.now values.now }
    ensures within { IfSome result (λ place. place < length values.now) }
{
    columns
        .iter()
        .zip(values)
        .position(|(column, value)| is_wrong(check, column, value))
}

fn is_wrong(check: Check, column: &ColumnDecl, value: &Value) -> bool
    ensures { result ≡ wrong_of check column.now value.now }
{
    match check {
        Check::Kind => !fits_kind(column.kind, value),
        Check::Length => text_length(value) > u32::from(column.max),
        Check::Known => column.not_null && is_null(value),
    }
}

// How many bytes the text in this column has.
#[tactic(auto, using(pk_values::proofs::RowLemmas::value_read))]
fn text_length_at(row: &Row, column: u32) -> u32
    requires { column < length row.now }
    ensures { result ≡ text_length (value_at row.now column) }
{
    text_length(row.value(column))
}

// How many bytes a text has.
fn text_length(value: &Value) -> u32
    ensures { result ≡ text_length value.now }
{
    match value {
        Value::Null | Value::Integer(_) => 0,
        Value::Text(words) => words.len(),
    }
}

fn is_null(value: &Value) -> bool
    ensures { result ≡ is_null value.now }
{
    match value {
        Value::Null => true,
        Value::Integer(_) | Value::Text(_) => false,
    }
}

// Whether the value is null, or of the kind.
fn fits_kind(kind: Kind, value: &Value) -> bool
    ensures { result ≡ fits_kind kind value.now }
{
    match (kind, value) {
        (Kind::Integer, Value::Null | Value::Integer(_)) | (Kind::Text, Value::Null) => true,
        (Kind::Integer, Value::Text(_)) | (Kind::Text, Value::Integer(_)) => false,
        (Kind::Text, Value::Text(words)) => are_bytes(words.as_slice()),
    }
}

// A text is one of bytes, as each slice of them is by its type.
fn are_bytes(bytes: &[u8]) -> bool
    ensures { result ≡ are_bytes bytes.now }
{
    let _any = bytes;
    true
}
