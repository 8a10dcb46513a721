//! The records of rows: their values, one behind the other.

ghost use Rattle.std.specs.Prelude.{◌≡◌, ◌++◌, ◌≤◌, IfOk, OnOk};
ghost use Rattle.pk_values.specs.Records.{value_record, row_record, AreStorable};
ghost use Rattle.pk_values.specs.Values.{IsStorable};
ghost use Rattle.pk_schema.specs.Shapes.{Shape};
ghost use Rattle.pk_schema.specs.Admits.{Admits};
ghost use Rattle.pk_catalog.specs.Records.{IsRowRecord, Gets};
ghost use Rattle.pk_catalog.specs.Reading.{Finds, Reads, value_at, row_at};

use crate::cat_err::CatErr;
use crate::parts::{Part, all_of};
use crate::reading::{Found, u64_of, words_of};
use pk_schema::{Schema, admitted_rows_fit};
use pk_values::{Bytes, Memory, Row, Value};
use std::alloc::Global;

// What the record of a value begins with.
const NULL: u8 = 0;

const INTEGER: u8 = 1;

const TEXT: u8 = 2;

/// The record of a row: by each schema that admits the row these bytes are its record.
pub fn put_row(alloc: Global, row: &Row) -> Result<Bytes, Memory>
    ensures spelled { IfOk result (λ bytes. bytes ≡ row_record row.now) }
    ensures record { IfOk result (λ bytes. (s : Shape) → Admits s row.now → IsRowRecord s bytes row.now) }
{
    let mut out = Vec::with_capacity(alloc, row.record_len() as usize)?;
    put_values(&mut out, row.as_slice())?;
    Ok(Bytes::from_vec(out))
}

fn put_values(out: &mut Vec<u8>, values: &[Value]) -> Result<(), Memory>
    ensures spelled { OnOk result (out.new.items ≡ out.old.items ++ row_record values.now) }
    ensures storable { OnOk result (AreStorable values.now) }
{
    for value in values {
        put_value(out, value)?;
    }
    Ok(())
}

fn put_value(out: &mut Vec<u8>, value: &Value) -> Result<(), Memory>
    ensures spelled { OnOk result (out.new.items ≡ out.old.items ++ value_record value.now) }
    ensures storable { OnOk result (IsStorable value.now) }
{
    match value {
        Value::Null => out.push(NULL)?,
        Value::Integer(number) => {
            out.push(INTEGER)?;
            out.extend_from_slice(&number.to_be_bytes())?;
        }
        Value::Text(words) => {
            out.push(TEXT)?;
            out.push(words.len() as u8)?;
            out.extend_from_slice(words.as_slice())?;
        }
    }
    Ok(())
}

/// The row of a table with this schema whose record the bytes are. `Bad` comes exactly where they are no such record:
/// where they are cut short or go on, where they hold what is no value, and where the schema doesn't admit the row.
pub fn get_row(alloc: Global, schema: &Schema, bytes: &[u8]) -> Result<Row, CatErr>
    ensures { Gets (IsRowRecord schema.now bytes.now) result }
{
    admitted_rows_fit();
    let row = match row_of(alloc, schema.columns().len(), bytes) {
        Ok(row) => row,
        Err(error) => return Err(error),
    };
    match schema.admits(&row) {
        Ok(()) => Ok(row),
        Err(_) => Err(CatErr::Bad),
    }
}

// A row of so many values, and nothing behind it.
#[tactic(auto, unfolding(crate::specs::Reading::row_at))]
fn row_of(alloc: Global, width: usize, bytes: &[u8]) -> Result<Row, CatErr>
    requires { width ≤ 32 }
    ensures { Reads result (row_at width bytes.now) }
{
    let (values, rest) = all_of(alloc, width, bytes)?;
    if !rest.is_empty() {
        return Err(CatErr::Bad);
    }
    Ok(Row::make(values.into_vec()))
}

impl Part for Value {
    ghost at = { value_at };

    fn read(alloc: Global, bytes: &[u8]) -> Found<'_, Value> {
        value_of(alloc, bytes)
    }
}

#[tactic(auto, unfolding(crate::specs::Reading::value_at))]
fn value_of(alloc: Global, bytes: &[u8]) -> Found<'_, Value>
    ensures { Finds result (value_at bytes.now) }
{
    match bytes {
        [] => Err(CatErr::Bad),
        [0, rest @ ..] => Ok((Value::Null, rest)),
        [1, rest @ ..] => {
            let (number, rest) = u64_of(rest)?;
            Ok((Value::Integer(number.cast_signed()), rest))
        }
        [2, rest @ ..] => {
            let (words, rest) = words_of(alloc, rest)?;
            Ok((Value::Text(words), rest))
        }
        [_, ..] => Err(CatErr::Bad),
    }
}
