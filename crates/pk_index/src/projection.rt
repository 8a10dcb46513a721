//! Projections of rows: the bytes under which an index files them. They are written in place, and a
//! list of 8,224 places holds each, so that none takes memory.

ghost use Rattle.std.specs.Prelude.{◌≡◌, ◌+◌, ◌≤◌, ◌*◌, ◌∷◌, ◌++◌, not, length, IsTrue};
ghost use Rattle.std.specs.Int.{w64, cast_unsigned, to_be_bytes};
ghost use Rattle.pk_values.specs.ColumnSet.{columns, has_column};
ghost use Rattle.pk_values.specs.Records.{value_record, row_record, AreStorable};
ghost use Rattle.pk_values.specs.Values.{IsStorable, is_null};
ghost use Rattle.pk_similar.specs.Similarity.{are_below};
ghost use Rattle.pk_index.specs.Rows.{values_on, are_known};
ghost use Rattle.pk_index.specs.Filing.{open_record, asked_record, probe_record};

use pk_values::{ColSet, Row, Value, Words};
use smallvec::SmallVec;

/// The bytes of a projection, or of the front of one. There are at most 8,224: those of 32 texts of 255
/// bytes, each with two more.
pub(crate) type Projection = SmallVec<u8, 8224>;

/// Appends what leaves a column open.
pub(crate) fn push_open(bytes: &mut Projection)
    requires inline { bytes.old.capacity ≡ 8224 }
    requires room { length bytes.old.items + 1 ≤ 8224 }
    ensures items { bytes.new.items ≡ bytes.old.items ++ open_record }
    ensures capacity { bytes.new.capacity ≡ bytes.old.capacity }
{
    bytes.push_reserved(3);
}

/// Appends the bytes of the value.
pub(crate) fn push_value(bytes: &mut Projection, value: &Value)
    requires inline { bytes.old.capacity ≡ 8224 }
    requires room { length bytes.old.items + 257 ≤ 8224 }
    ensures items { bytes.new.items ≡ bytes.old.items ++ value_record value.now }
    ensures most { length (value_record value.now) ≤ 257 }
    ensures capacity { bytes.new.capacity ≡ bytes.old.capacity }
    ensures storable { IsStorable value.now }
{
    let _kind = value.kind();
    let _len = value.record_len();
    match value {
        Value::Null => bytes.push_reserved(0),
        Value::Integer(n) => push_number(bytes, *n),
        Value::Text(words) => push_text(bytes, words),
    }
}

fn push_number(bytes: &mut Projection, n: i64)
    requires inline { bytes.old.capacity ≡ 8224 }
    requires room { length bytes.old.items + 9 ≤ 8224 }
    ensures items { bytes.new.items ≡ bytes.old.items ++ 1 ∷ to_be_bytes w64 (cast_unsigned w64 n) }
    ensures capacity { bytes.new.capacity ≡ bytes.old.capacity }
{
    bytes.push_reserved(1);
    bytes
        .extend_from_slice(&n.cast_unsigned().to_be_bytes())
        .unwrap();
}

fn push_text(bytes: &mut Projection, words: &Words)
    requires inline { bytes.old.capacity ≡ 8224 }
    requires room { length bytes.old.items + 257 ≤ 8224 }
    ensures items { bytes.new.items ≡ bytes.old.items ++ 2 ∷ length words.now ∷ words.now }
    ensures capacity { bytes.new.capacity ≡ bytes.old.capacity }
{
    bytes.push_reserved(2);
    bytes.push_reserved(words.len() as u8);
    bytes.extend_from_slice(words.as_slice()).unwrap();
}

/// Appends the values of the row on the columns, and tells whether none of them is null.
pub(crate) fn push_row(bytes: &mut Projection, row: &Row, cols: ColSet) -> bool
    requires wide { IsTrue (are_below (length row.now) (columns cols)) }
    requires inline { bytes.old.capacity ≡ 8224 }
    requires room { length bytes.old.items + 257 * length (columns cols) ≤ 8224 }
    ensures items { bytes.new.items ≡ bytes.old.items ++ row_record (values_on (columns cols) row.now) }
    ensures capacity { bytes.new.capacity ≡ bytes.old.capacity }
    ensures storable { AreStorable (values_on (columns cols) row.now) }
    ensures known { result ≡ are_known (values_on (columns cols) row.now) }
{
    let Some(c) = cols.first() else {
        return true;
    };
    let value = row.value(c);
    push_value(bytes, value);
    let others = push_row(bytes, row, cols.without(c));
    is_known(value) & others
}

/// Appends the bytes that a look-up asks for: null in the columns of the pattern, anything known in
/// the others that the row doesn't know, and the row's values in the rest.
pub(crate) fn push_asked(bytes: &mut Projection, row: &Row, cols: ColSet, pattern: ColSet)
    requires wide { IsTrue (are_below (length row.now) (columns cols)) }
    requires inline { bytes.old.capacity ≡ 8224 }
    requires room { length bytes.old.items + 257 * length (columns cols) ≤ 8224 }
    ensures items { bytes.new.items ≡ bytes.old.items ++ probe_record pattern (columns cols) row.now }
    ensures storable { AreStorable (values_on (columns cols) row.now) }
{
    let Some(c) = cols.first() else {
        return;
    };
    push_asked_value(bytes, row.value(c), pattern.has(c));
    push_asked(bytes, row, cols.without(c), pattern);
}

// Appends what is asked of one column.
fn push_asked_value(bytes: &mut Projection, value: &Value, in_pattern: bool)
    requires inline { bytes.old.capacity ≡ 8224 }
    requires room { length bytes.old.items + 257 ≤ 8224 }
    ensures items { bytes.new.items ≡ bytes.old.items ++ asked_record in_pattern value.now }
    ensures most { length (asked_record in_pattern value.now) ≤ 257 }
    ensures capacity { bytes.new.capacity ≡ bytes.old.capacity }
    ensures storable { IsStorable value.now }
{
    let _kind = value.kind();
    if in_pattern {
        push_value(bytes, &Value::Null);
    } else if is_known(value) {
        push_value(bytes, value);
    } else {
        push_open(bytes);
    }
}

/// Whether the value isn't null.
pub(crate) fn is_known(value: &Value) -> bool
    ensures { result ≡ not (is_null value.now) }
{
    match value {
        Value::Null => false,
        Value::Integer(_) => true,
        Value::Text(_) => true,
    }
}
