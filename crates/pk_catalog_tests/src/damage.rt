//! Records that are damaged in each way that concerns a single byte: cut at each, with one more, and with each changed to
//! each other. What is read of them is compared with the plain grammar, and what is read is put again as it was.

use crate::grammar::{is_base, is_row, is_table};
use crate::spelled::bytes_of;
use pk_catalog::{CatErr, get_base, get_row, get_table, put_base, put_row, put_table};
use pk_schema::Schema;
use pk_values::Memory;
use std::alloc::Global;
use std::test::Fail;

// What is damaged.
#[derive(Drop)]
enum Sort<'a> {
    Base,
    Table,
    Row(&'a Schema),
}

// How often what was read agreed with the grammar, how often a record was read, and how often they differed.
#[derive(Clone, Copy, Debug)]
struct Tally {
    cases: u32,
    read: u32,
    wrong: u32,
}

// Tables: t of a number, k with a certain key, w of texts and a possible key, and one with a long name.
const TABLES: &[u8] = b"\
01 0000000000000001 01 74 01 01 61 01 00 00 00
01 4000000000000000 02 6b31 02 01 61 01 00 01 01 62 02 ff 00 01 01 00000003
01 00000000000000ff 01 77 03 01 61 02 01 00 02 6261 02 0a 01 01 7a 01 00 00 03 02 00000007 01 00000001 02 00000000
01 0000000000010000 0b 6c6f6e675f6e616d655f39 01 1e 616161616161616161616161616161616161616161616161616161616161 01 00 01 00
01 0000000000000002 01 73 06 01 61 01 00 00 01 62 01 00 00 01 63 01 00 00 01 64 01 00 00 01 65 01 00 00 01 66 01 00 01 02 01 0000003f 02 0000003f";

// A table of a number, a text of at most 3 bytes without null, and a number without null, and rows of it.
const ROWS_TABLE: &[u8] =
    b"01 0000000000000009 01 72 03 01 61 01 00 00 01 62 02 03 01 01 63 01 00 01 00";

const ROWS: &[u8] = b"\
01 0000000000000001 02 00 01 ffffffffffffffff
00 02 03 616263 01 8000000000000000
00 02 02 c3a4 01 0000000000000000
01 7fffffffffffffff 02 03 e282ac 01 0102030405060708";

const BASES: &[u8] = b"\
01 0000000000000000
01 0000000000000001
01 3fffffffffffffff
01 4000000000000000";

#[test]
fn damaged_tables_are_read_by_the_grammar(rt: HostRuntime) -> Result<(), Fail> {
    let alloc = rt.alloc();
    let tally = tally_of(alloc, &Sort::Table, TABLES)?;
    assert_eq!(rt; tally.wrong, 0);
    assert_eq!(rt; tally.cases, 52741);
    assert_eq!(rt; tally.read, 10295);
    Ok(())
}

#[test]
fn damaged_rows_are_read_by_the_grammar(rt: HostRuntime) -> Result<(), Fail> {
    let alloc = rt.alloc();
    let table = get_table(alloc, bytes_of(alloc, ROWS_TABLE)?.as_slice())?;
    let tally = tally_of(alloc, &Sort::Row(&table.schema), ROWS)?;
    assert_eq!(rt; tally.wrong, 0);
    assert_eq!(rt; tally.cases, 19460);
    assert_eq!(rt; tally.read, 12857);
    Ok(())
}

#[test]
fn damaged_bases_are_read_by_the_grammar(rt: HostRuntime) -> Result<(), Fail> {
    let alloc = rt.alloc();
    let tally = tally_of(alloc, &Sort::Base, BASES)?;
    assert_eq!(rt; tally.wrong, 0);
    assert_eq!(rt; tally.cases, 10244);
    assert_eq!(rt; tally.read, 5613);
    Ok(())
}

// All damage to the records of these lines.
fn tally_of(alloc: Global, sort: &Sort<'_>, lines: &[u8]) -> Result<Tally, Memory> {
    let mut tally = Tally {
        cases: 0,
        read: 0,
        wrong: 0,
    };
    for line in lines.split(|b| *b == b'\n') {
        let mut bytes = bytes_of(alloc, line)?;
        cut(alloc, sort, bytes.as_slice(), &mut tally)?;
        change(alloc, sort, bytes.as_mut_slice(), &mut tally)?;
        extend(alloc, sort, &mut bytes, &mut tally)?;
    }
    Ok(tally)
}

// The whole, and each front.
fn cut(alloc: Global, sort: &Sort<'_>, bytes: &[u8], tally: &mut Tally) -> Result<(), Memory> {
    for len in 0..=bytes.len() {
        count(alloc, sort, &bytes[..len], tally)?;
    }
    Ok(())
}

// Each byte as each other.
fn change(
    alloc: Global,
    sort: &Sort<'_>,
    bytes: &mut [u8],
    tally: &mut Tally,
) -> Result<(), Memory> {
    for at in 0..bytes.len() {
        let right = bytes[at];
        for step in 1..=255 {
            bytes[at] = right.wrapping_add(step);
            count(alloc, sort, bytes, tally)?;
        }
        bytes[at] = right;
    }
    Ok(())
}

// One byte more, which is each.
fn extend(
    alloc: Global,
    sort: &Sort<'_>,
    bytes: &mut Vec<u8>,
    tally: &mut Tally,
) -> Result<(), Memory> {
    for last in 0..=255 {
        bytes.push(last)?;
        count(alloc, sort, bytes.as_slice(), tally)?;
        let _last = bytes.pop();
    }
    Ok(())
}

// Reads the bytes, and counts whether they were read as the grammar says.
fn count(alloc: Global, sort: &Sort<'_>, bytes: &[u8], tally: &mut Tally) -> Result<(), Memory> {
    let (is_read, is_right) = match sort {
        Sort::Base => (base_kept(alloc, bytes)?, is_base(bytes)),
        Sort::Table => (table_kept(alloc, bytes)?, is_table(alloc, bytes)?),
        Sort::Row(schema) => (
            row_kept(alloc, schema, bytes)?,
            is_row(schema.columns(), bytes),
        ),
    };
    tally.cases = tally.cases.saturating_add(1);
    tally.read = tally.read.saturating_add(u32::from(is_read));
    tally.wrong = tally.wrong.saturating_add(u32::from(is_read != is_right));
    Ok(())
}

// Whether the bytes are read, and what is read is put in the same bytes.
fn base_kept(alloc: Global, bytes: &[u8]) -> Result<bool, Memory> {
    match get_base(bytes) {
        Some(commits) => Ok(put_base(alloc, commits)?.as_slice() == bytes),
        None => Ok(false),
    }
}

fn table_kept(alloc: Global, bytes: &[u8]) -> Result<bool, Memory> {
    match get_table(alloc, bytes) {
        Ok(table) => Ok(put_table(alloc, &table)?.as_slice() == bytes),
        Err(CatErr::Bad) => Ok(false),
        Err(CatErr::Memory) => Err(Memory),
    }
}

fn row_kept(alloc: Global, schema: &Schema, bytes: &[u8]) -> Result<bool, Memory> {
    match get_row(alloc, schema, bytes) {
        Ok(row) => Ok(put_row(alloc, &row)?.as_slice() == bytes),
        Err(CatErr::Bad) => Ok(false),
        Err(CatErr::Memory) => Err(Memory),
    }
}
