//! The columns of a table in its record.

ghost use Rattle.std.specs.Prelude.{◌≡◌, ◌++◌, ◌≤◌, length, All, OnOk};
ghost use Rattle.pk_catalog.specs.Records.{name_record, column_record, kind_byte, list_record};
ghost use Rattle.pk_catalog.specs.Reading.{Finds, column_at, flag_at, kind_at};

use crate::cat_err::CatErr;
use crate::parts::Part;
use crate::reading::{Found, byte_of, name_of};
use pk_schema::Column;
use pk_values::{Kind, Memory, Name};
use std::alloc::Global;

// What stands for the kinds.
const INTEGER: u8 = 1;

const TEXT: u8 = 2;

impl Part for Column {
    ghost at = { column_at };

    fn read(alloc: Global, bytes: &[u8]) -> Found<'_, Column> {
        column_of(alloc, bytes)
    }
}

#[tactic(auto, unfolding(crate::specs::Reading::column_at))]
fn column_of(alloc: Global, bytes: &[u8]) -> Found<'_, Column>
    ensures { Finds result (column_at bytes.now) }
{
    let (name, rest) = name_of(alloc, bytes)?;
    let (kind, rest) = kind_of(rest)?;
    let (max, rest) = byte_of(rest)?;
    let (not_null, rest) = flag_of(rest)?;
    let column = Column {
        name,
        kind,
        max,
        not_null,
    };
    Ok((column, rest))
}

#[tactic(auto, unfolding(crate::specs::Reading::kind_at))]
fn kind_of(bytes: &[u8]) -> Found<'_, Kind>
    ensures { Finds result (kind_at bytes.now) }
{
    match bytes {
        [1, rest @ ..] => Ok((Kind::Integer, rest)),
        [2, rest @ ..] => Ok((Kind::Text, rest)),
        [] | [_, ..] => Err(CatErr::Bad),
    }
}

#[tactic(auto, unfolding(crate::specs::Reading::flag_at))]
fn flag_of(bytes: &[u8]) -> Found<'_, bool>
    ensures { Finds result (flag_at bytes.now) }
{
    match bytes {
        [0, rest @ ..] => Ok((false, rest)),
        [1, rest @ ..] => Ok((true, rest)),
        [] | [_, ..] => Err(CatErr::Bad),
    }
}

/// Appends the columns behind their number.
pub(crate) fn put_columns(out: &mut Vec<u8>, columns: &[Column]) -> Result<(), Memory>
    requires few { length columns.now ≤ 32 }
    requires short { All (λ c. length c.name ≤ 255) columns.now }
    ensures { OnOk result (out.new.items ≡ out.old.items ++ list_record column_record columns.now) }
{
    out.push(columns.len() as u8)?;
    for column in columns {
        put_column(out, column)?;
    }
    Ok(())
}

fn put_column(out: &mut Vec<u8>, column: &Column) -> Result<(), Memory>
    requires { length column.now.name ≤ 255 }
    ensures { OnOk result (out.new.items ≡ out.old.items ++ column_record column.now) }
{
    put_name(out, &column.name)?;
    out.push(kind_byte(column.kind))?;
    out.push(column.max)?;
    out.push(u8::from(column.not_null))?;
    Ok(())
}

fn kind_byte(kind: Kind) -> u8
    ensures { result ≡ kind_byte kind }
{
    match kind {
        Kind::Integer => INTEGER,
        Kind::Text => TEXT,
    }
}

/// Appends a name behind the number of its bytes.
pub(crate) fn put_name(out: &mut Vec<u8>, name: &Name) -> Result<(), Memory>
    requires { length name.now ≤ 255 }
    ensures { OnOk result (out.new.items ≡ out.old.items ++ name_record name.now) }
{
    let bytes = name.as_slice();
    out.push(bytes.len() as u8)?;
    out.extend_from_slice(bytes)?;
    Ok(())
}
