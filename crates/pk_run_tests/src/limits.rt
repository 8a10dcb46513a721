//! The limits of rows, tables and bases, reached and passed by one.

use crate::running::{create_tables, repeat, run};
use pk_run::Status;
use std::alloc::Global;
use std::test::Fail;

// CREATE TABLE with so many columns.
fn wide(alloc: Global, columns: u32) -> Result<Vec<u8>, Fail> {
    let mut script = b"CREATE TABLE t (c0 INTEGER".to_vec(alloc)?;
    for c in 1..columns {
        script.extend_from_slice(format!(in alloc; ", c{c} INTEGER")?.as_bytes())?;
    }
    script.extend_from_slice(b")")?;
    Ok(script)
}

// INSERT of fifteen texts of 255 bytes and one of so many.
fn long(alloc: Global, last: usize) -> Result<Vec<u8>, Fail> {
    let mut script = b"CREATE TABLE t (c0 TEXT".to_vec(alloc)?;
    for c in 1..16 {
        script.extend_from_slice(format!(in alloc; ", c{c} TEXT")?.as_bytes())?;
    }
    script.extend_from_slice(b"); INSERT INTO t VALUES (")?;
    for _ in 0..15 {
        script.push(b'\'')?;
        repeat(&mut script, b"x", 255)?;
        script.extend_from_slice(b"', ")?;
    }
    script.push(b'\'')?;
    repeat(&mut script, b"x", last)?;
    script.extend_from_slice(b"')")?;
    Ok(script)
}

#[test]
fn a_row_has_at_most_4000_bytes(rt: HostRuntime) -> Result<(), Fail> {
    let alloc = rt.alloc();
    for (last, told) in [
        (143, b"created t\ninserted 1\n".as_slice()),
        (
            144,
            b"created t\nrefused: row of 4001 bytes, at most 4000\n",
        ),
    ] {
        let got = run(alloc, &long(alloc, last)?, 4096, &[], &[])?;
        assert_eq!(rt; got.1.as_slice(), told);
    }
    Ok(())
}

#[test]
fn a_table_has_at_most_32_columns(rt: HostRuntime) -> Result<(), Fail> {
    let alloc = rt.alloc();
    let most = run(alloc, &wide(alloc, 32)?, 4096, &[], &[])?;
    assert_eq!(rt; most.0, Status::Done);
    assert_eq!(rt; most.1.as_slice(), b"created t\n".as_slice());
    let more = run(alloc, &wide(alloc, 33)?, 4096, &[], &[])?;
    assert_eq!(rt; more.0, Status::Refused);
    assert_eq!(rt;
        more.1.as_slice(),
        b"refused: limit columns 32\n".as_slice()
    );
    Ok(())
}

// INSERT of so many rows of one null.
fn insert_nulls(script: &mut Vec<u8>, rows: usize) -> Result<(), Fail> {
    script.extend_from_slice(b"INSERT INTO t VALUES (NULL)")?;
    repeat(script, b",(NULL)", rows.saturating_sub(1))?;
    script.extend_from_slice(b";")?;
    Ok(())
}

#[test]
fn limits_are_told(rt: HostRuntime) -> Result<(), Fail> {
    let alloc = rt.alloc();
    let mut script = b"CREATE TABLE t (a INT);".to_vec(alloc)?;
    let mut told = b"created t\n".to_vec(alloc)?;
    // 20,000 rows are changed by one statement, and not one more.
    insert_nulls(&mut script, 20001)?;
    told.extend_from_slice(b"refused: limit changes 20000\n")?;
    for _ in 0..10 {
        insert_nulls(&mut script, 20000)?;
        told.extend_from_slice(b"inserted 20000\n")?;
    }
    // The base holds 200,000 rows, and not one more.
    script.extend_from_slice(
        b"INSERT INTO t VALUES (1);\
          DROP TABLE t; UPDATE t SET a = 1; DELETE FROM t; SELECT COUNT(*) FROM t;",
    )?;
    told.extend_from_slice(
        b"refused: limit rows 200000\nrefused: limit changes 20000\nrefused: limit changes 20000\n\
          refused: limit changes 20000\ncount\n200000\nrows 1\n",
    )?;
    let got = run(alloc, &script, 65536, &[], &[])?;
    assert!(rt; got.1.as_slice() == told.as_slice());
    Ok(())
}

#[test]
fn a_base_has_at_most_256_tables(rt: HostRuntime) -> Result<(), Fail> {
    let alloc = rt.alloc();
    let mut script = Vec::new(alloc);
    create_tables(&mut script, alloc, 257)?;
    script.extend_from_slice(b"DROP TABLE t7; CREATE TABLE u (a INT);")?;
    let mut told = Vec::new(alloc);
    for n in 0..256 {
        told.extend_from_slice(format!(in alloc; "created t{n}\n")?.as_bytes())?;
    }
    told.extend_from_slice(b"refused: limit tables 256\ndropped t7\ncreated u\n")?;
    let got = run(alloc, &script, 4096, &[], &[])?;
    assert!(rt; got.1.as_slice() == told.as_slice());
    Ok(())
}
