//! The bytes of small bases, spelled out.

use crate::spelled::bytes_of;
use pk_catalog::{CatErr, TableRecord, get_base, get_row, get_table, put_base, put_row, put_table};
use pk_values::{Kind, Row, Value, Words};
use std::alloc::Global;
use std::test::Fail;

// The table t of a column a of numbers, with no row yet.
const TABLE: &[u8] = b"01 0000000000000001 01 74 01 01 61 01 00 00 00";

// The table u of two columns of numbers and one of texts of at most 2 bytes.
const WIDE_TABLE: &[u8] =
    b"01 0000000000000002 01 75 03 01 61 01 00 00 01 62 01 00 00 01 63 02 02 00 01 02 00000005";

// The row (1, NULL, 'ab').
const ROW: &[u8] = b"01 0000000000000001 00 02 02 6162";

#[test]
fn a_table_is_kept_in_these_bytes(rt: HostRuntime) -> Result<(), Fail> {
    let alloc = rt.alloc();
    let bytes = bytes_of(alloc, TABLE)?;
    let table = get_table(alloc, bytes.as_slice())?;
    assert!(rt; is_example(&table));
    let again = put_table(alloc, &table)?;
    assert!(rt; again.as_slice() == bytes.as_slice());
    Ok(())
}

fn is_example(table: &TableRecord) -> bool {
    let columns = table.schema.columns();
    table.next == 1
        && table.name.as_slice() == b"t".as_slice()
        && table.schema.keys().is_empty()
        && columns.len() == 1
        && columns[0].name.as_slice() == b"a".as_slice()
        && columns[0].kind == Kind::Integer
        && !columns[0].not_null
}

#[test]
fn a_row_is_kept_in_these_bytes(rt: HostRuntime) -> Result<(), Fail> {
    let alloc = rt.alloc();
    let bytes = bytes_of(alloc, ROW)?;
    let put = put_row(alloc, &example_row(alloc)?)?;
    assert!(rt; put.as_slice() == bytes.as_slice());
    let table = get_table(alloc, bytes_of(alloc, WIDE_TABLE)?.as_slice())?;
    let got = get_row(alloc, &table.schema, bytes.as_slice())?;
    let again = put_row(alloc, &got)?;
    assert!(rt; got.width() == 3 && again.as_slice() == bytes.as_slice());
    Ok(())
}

fn example_row(alloc: Global) -> Result<Row, Fail> {
    let words = Words::read(alloc, b"ab").map_err(|_| CatErr::Memory)?;
    let values = vec![in alloc; Value::Integer(1), Value::Null, Value::Text(words)]?;
    Ok(Row::make(values))
}

#[test]
fn a_base_is_kept_in_these_bytes(rt: HostRuntime) -> Result<(), Fail> {
    let alloc = rt.alloc();
    let bytes = bytes_of(alloc, b"01 0000000000000001")?;
    let put = put_base(alloc, 1)?;
    assert!(rt; put.as_slice() == bytes.as_slice());
    assert!(rt; get_base(put.as_slice()) == Some(1));
    Ok(())
}
