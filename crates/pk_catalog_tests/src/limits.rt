//! Records at the limits, and just past them. That types cross threads.

use crate::grammar::{is_row, is_table};
use crate::spelled::bytes_of;
use pk_catalog::{CatErr, TableRecord, get_base, get_row, get_table, put_row, put_table};
use pk_values::{MOST_COLUMNS, Memory, Row, Value};
use std::alloc::Global;
use std::test::Fail;

fn crosses<T: Send + Sync>() {}

#[test]
fn records_cross_threads(_rt: HostRuntime) {
    crosses::<TableRecord>();
    crosses::<CatErr>();
}

// Whether each is read: `+` where it is, and `-` where it isn't.
const TABLES: &[u8] = b"\
+ 01 0000000000000001 01 74 01 01 61 01 00 00 00
- 02 0000000000000001 01 74 01 01 61 01 00 00 00
- 01 0000000000000000 01 74 01 01 61 01 00 00 00
+ 01 4000000000000000 01 74 01 01 61 01 00 00 00
- 01 4000000000000001 01 74 01 01 61 01 00 00 00
- 01 8000000000000000 01 74 01 01 61 01 00 00 00
- 01 ffffffffffffffff 01 74 01 01 61 01 00 00 00
- 01 0000000000000001 05 7461626c65 01 01 61 01 00 00 00
+ 01 0000000000000001 06 7461626c6573 01 01 61 01 00 00 00
- 01 0000000000000001 01 54 01 01 61 01 00 00 00
- 01 0000000000000001 01 31 01 01 61 01 00 00 00
- 01 0000000000000001 00 01 01 61 01 00 00 00
- 01 0000000000000001 01 74 00 00
- 01 0000000000000001 01 74 01 02 6279 01 00 00 00
- 01 0000000000000001 01 74 01 01 61 00 00 00 00
- 01 0000000000000001 01 74 01 01 61 03 00 00 00
- 01 0000000000000001 01 74 01 01 61 01 01 00 00
- 01 0000000000000001 01 74 01 01 61 02 00 00 00
- 01 0000000000000001 01 74 01 01 61 01 00 02 00
- 01 0000000000000001 01 74 02 01 61 01 00 00 01 61 01 00 00 00
+ 01 0000000000000001 01 74 01 01 61 01 00 00 01 01 00000001
+ 01 0000000000000001 01 74 01 01 61 01 00 00 01 02 00000000
- 01 0000000000000001 01 74 01 01 61 01 00 00 01 00 00000001
- 01 0000000000000001 01 74 01 01 61 01 00 00 01 03 00000001
- 01 0000000000000001 01 74 01 01 61 01 00 00 01 01 00000002
- 01 0000000000000001 01 74 01 01 61 01 00 00 01 01 80000001";

#[test]
fn tables_are_read_up_to_their_limits(rt: HostRuntime) -> Result<(), Fail> {
    let alloc = rt.alloc();
    for line in TABLES.split(|b| *b == b'\n') {
        let bytes = bytes_of(alloc, line)?;
        let text = str::from_utf8(line).unwrap_or("no text");
        assert!(rt;
            are_read(alloc, bytes.as_slice())? == line.starts_with(b"+"),
            "{text}"
        );
    }
    Ok(())
}

// Whether the bytes are those of a table, where the plain grammar says the same.
fn are_read(alloc: Global, bytes: &[u8]) -> Result<bool, Fail> {
    let is_read = match get_table(alloc, bytes) {
        Ok(table) => put_table(alloc, &table)?.as_slice() == bytes,
        Err(CatErr::Bad) => false,
        Err(CatErr::Memory) => return Err(Memory.into()),
    };
    if is_read == is_table(alloc, bytes)? {
        Ok(is_read)
    } else {
        Err("the grammar says otherwise".into())
    }
}

#[test]
fn long_tables_are_read_up_to_their_limits(rt: HostRuntime) -> Result<(), Fail> {
    let alloc = rt.alloc();
    // Columns, keys, bytes of the table's name and of each column's, and whether such a table is read.
    let tables = [
        (32, 32, 1, 2, true),
        (33, 0, 1, 2, false),
        (32, 33, 1, 2, false),
        (1, 0, 255, 2, true),
        (1, 0, 1, 30, true),
        (1, 0, 1, 31, false),
        (255, 0, 1, 2, false),
        (1, 255, 1, 2, false),
    ];
    for (columns, keys, table_name, column_name, is_right) in tables {
        let bytes = long_table(alloc, columns, keys, table_name, column_name)?;
        let is_read = are_read(alloc, bytes.as_slice())?;
        assert!(rt;
            is_read == is_right,
            "{columns} {keys} {table_name} {column_name}"
        );
    }
    Ok(())
}

// A name of 256 bytes has no length: that of its low byte stands in front, which is 0.
#[test]
fn a_name_of_256_bytes_is_none(rt: HostRuntime) -> Result<(), Fail> {
    let alloc = rt.alloc();
    let mut bytes = bytes_of(alloc, b"01 0000000000000001 00")?;
    bytes.resize(266, b'n')?;
    bytes.extend_from_slice(b"\x01\x01a\x01\x00\x00\x00")?;
    assert!(rt; !are_read(alloc, bytes.as_slice())?);
    Ok(())
}

// A table with so many columns of numbers and possible keys over the first of them, and names of so many bytes.
fn long_table(
    alloc: Global,
    columns: u8,
    keys: u8,
    table_name: u8,
    column_name: u8,
) -> Result<Vec<u8>, Memory> {
    let mut bytes = bytes_of(alloc, b"01 0000000000000001")?;
    push_name(&mut bytes, table_name, b'n')?;
    bytes.push(columns)?;
    for c in 0..columns {
        push_name(&mut bytes, column_name, b'a' + c % 26)?;
        // Names differ in their last byte, which is another letter from the 27th column on.
        let last = bytes.len().saturating_sub(1);
        if c >= 26 && last < bytes.len() {
            bytes[last] = b'_';
        }
        bytes.extend_from_slice(b"\x01\x00\x00")?;
    }
    bytes.push(keys)?;
    for _ in 0..keys {
        bytes.extend_from_slice(b"\x02\x00\x00\x00\x01")?;
    }
    Ok(bytes)
}

fn push_name(bytes: &mut Vec<u8>, len: u8, letter: u8) -> Result<(), Memory> {
    bytes.push(len)?;
    for _ in 0..len {
        bytes.push(letter)?;
    }
    Ok(())
}

#[test]
fn bases_are_read_up_to_their_limit(rt: HostRuntime) -> Result<(), Fail> {
    let alloc = rt.alloc();
    assert!(rt; get_base(bytes_of(alloc, b"01 4000000000000000")?.as_slice()) == Some(1 << 62));
    assert!(rt; get_base(bytes_of(alloc, b"01 4000000000000001")?.as_slice()).is_none());
    assert!(rt; get_base(bytes_of(alloc, b"01 ffffffffffffffff")?.as_slice()).is_none());
    assert!(rt; get_base(bytes_of(alloc, b"02 0000000000000001")?.as_slice()).is_none());
    Ok(())
}

// ---- rows

// A table of a number without null, and a text of at most 2 bytes.
const ROWS_TABLE: &[u8] = b"01 0000000000000001 01 74 02 01 61 01 00 01 01 62 02 02 00 00";

const ROWS: &[u8] = b"\
+ 01 0000000000000001 00
+ 01 0000000000000001 02 02 c3a4
- 00 00
- 01 0000000000000001
- 01 0000000000000001 00 00
- 02 01 61 00
- 01 0000000000000001 01 0000000000000001
- 01 0000000000000001 02 03 616263
- 01 0000000000000001 02 02 61
- 01 0000000000000001 02 01 ff
- 01 0000000000000001 02 02 c328
- 01 0000000000000001 03";

#[test]
fn rows_are_read_where_their_schema_admits_them(rt: HostRuntime) -> Result<(), Fail> {
    let alloc = rt.alloc();
    let table = get_table(alloc, bytes_of(alloc, ROWS_TABLE)?.as_slice())?;
    for line in ROWS.split(|b| *b == b'\n') {
        let bytes = bytes_of(alloc, line)?;
        let is_read = is_row_read(alloc, &table, bytes.as_slice())?;
        let text = str::from_utf8(line).unwrap_or("no text");
        assert!(rt; is_read == line.starts_with(b"+"), "{text}");
        assert!(rt;
            is_read == is_row(table.schema.columns(), bytes.as_slice()),
            "{text}"
        );
    }
    Ok(())
}

fn is_row_read(alloc: Global, table: &TableRecord, bytes: &[u8]) -> Result<bool, Memory> {
    match get_row(alloc, &table.schema, bytes) {
        Ok(row) => Ok(put_row(alloc, &row)?.as_slice() == bytes),
        Err(CatErr::Bad) => Ok(false),
        Err(CatErr::Memory) => Err(Memory),
    }
}

// A row of 32 numbers.
#[test]
fn a_row_of_most_columns_is_kept(rt: HostRuntime) -> Result<(), Fail> {
    let alloc = rt.alloc();
    let bytes = long_table(alloc, 32, 0, 1, 2)?;
    let table = get_table(alloc, bytes.as_slice())?;
    let row = numbers(alloc)?;
    let bytes = put_row(alloc, &row)?;
    assert_eq!(rt; bytes.as_slice().len(), 288);
    assert!(rt; is_row_read(alloc, &table, bytes.as_slice())?);
    Ok(())
}

fn numbers(alloc: Global) -> Result<Row, Memory> {
    let mut values = Vec::new(alloc);
    for _ in 0..32 {
        values.push(Value::Integer(-1))?;
    }
    Ok(of_values(alloc, values))
}

// The row of these values, and none where they are too many.
fn of_values(alloc: Global, values: Vec<Value>) -> Row {
    if values.len() > MOST_COLUMNS {
        Row::make(Vec::new(alloc))
    } else {
        Row::make(values)
    }
}
