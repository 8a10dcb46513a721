//! Discovery at its limits, with ample memory.

use crate::spelled::{assert_told, of_values, told_keys};
use pk_sweep::NoMeet;
use pk_values::{ColSet, Memory, Row, Value};
use std::alloc::Global;
use std::test::Fail;

// As many rows as are wanted, each with its own number.
fn numbered(alloc: Global, count: i64) -> Result<Vec<Row>, Memory> {
    let mut rows = Vec::new(alloc);
    for n in 0..count {
        rows.push(number(alloc, n)?)?;
    }
    Ok(rows)
}

fn number(alloc: Global, n: i64) -> Result<Row, Memory> {
    let mut values = Vec::new(alloc);
    values.push(Value::Integer(n))?;
    Ok(of_values(alloc, values))
}

#[test]
fn rows_are_too_many_above_8192(rt: HostRuntime) -> Result<(), Fail> {
    let alloc = rt.alloc();
    let most = numbered(alloc, 8_192)?;
    let told = told_keys(&rt, alloc, most.as_slice(), ColSet::below(1), &NoMeet)?;
    assert_told(&rt, b"most rows", told.as_slice(), b"(0)/(0)");
    let more = numbered(alloc, 8_193)?;
    let told = told_keys(&rt, alloc, more.as_slice(), ColSet::below(1), &NoMeet)?;
    assert_told(&rt, b"more rows", told.as_slice(), b"8193 rows");
    Ok(())
}

// A row of zeros, and for each of so many pairs of columns one that has another value there.
fn pairs(alloc: Global, columns: u32, count: u32, other: &[u8]) -> Result<Vec<Row>, Memory> {
    let mut rows = Vec::new(alloc);
    for pair in 0..=count {
        rows.push(zeros_but(alloc, columns, pair, other)?)?;
    }
    Ok(rows)
}

fn zeros_but(alloc: Global, columns: u32, pair: u32, other: &[u8]) -> Result<Row, Memory> {
    let mut values = Vec::new(alloc);
    for c in 0..columns {
        values.push(value_at(c / 2 + 1 == pair, other))?;
    }
    Ok(of_values(alloc, values))
}

// The other value where it is wanted: 1, or null where no byte is given.
fn value_at(wanted: bool, other: &[u8]) -> Value {
    if !wanted {
        Value::Integer(0)
    } else if other.is_empty() {
        Value::Null
    } else {
        Value::Integer(1)
    }
}

#[test]
fn sets_are_too_many_above_4096(rt: HostRuntime) -> Result<(), Fail> {
    let alloc = rt.alloc();
    let certain = pairs(alloc, 26, 13, b"1")?;
    let told = told_keys(&rt, alloc, certain.as_slice(), ColSet::below(26), &NoMeet)?;
    assert_told(&rt, b"13 pairs apart", told.as_slice(), b"certain at 13");
    let possible = pairs(alloc, 26, 13, b"")?;
    let told = told_keys(&rt, alloc, possible.as_slice(), ColSet::below(26), &NoMeet)?;
    assert_told(&rt, b"13 pairs null", told.as_slice(), b"possible at 13");
    let most = pairs(alloc, 24, 12, b"1")?;
    let told = told_keys(&rt, alloc, most.as_slice(), ColSet::below(24), &NoMeet)?;
    assert_eq!(rt; told.len(), 2 * 4_096 * 14 + 1);
    Ok(())
}

#[test]
fn rows_have_32_columns(rt: HostRuntime) -> Result<(), Fail> {
    let alloc = rt.alloc();
    let rows = pairs(alloc, 32, 1, b"1")?;
    let told = told_keys(&rt, alloc, rows.as_slice(), ColSet::below(32), &NoMeet)?;
    assert_told(&rt, b"two columns of 32", told.as_slice(), b"(0)(1)/(0)(1)");
    let rows = pairs(alloc, 32, 16, b"")?;
    let told = told_keys(&rt, alloc, rows.as_slice(), ColSet::below(32), &NoMeet)?;
    assert_told(&rt, b"16 pairs null", told.as_slice(), b"possible at 13");
    Ok(())
}
