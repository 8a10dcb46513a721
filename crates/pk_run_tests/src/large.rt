//! Statements at the sizes that people use: what want of memory would show in.

use crate::running::{repeat, run};
use std::alloc::Global;
use std::process::Abort;
use std::test::Fail;

// The part so many times, with the number from 1 on for each `#` in it.
fn numbered(text: &mut Vec<u8>, alloc: Global, count: u32, part: &[u8]) -> Result<(), Fail> {
    for n in 1..=count {
        let digits = n.to_string(alloc)?;
        write_part(text, digits.as_bytes(), part)?;
    }
    Ok(())
}

fn write_part(text: &mut Vec<u8>, digits: &[u8], part: &[u8]) -> Result<(), Fail> {
    for byte in part {
        match *byte {
            b'#' => text.extend_from_slice(digits)?,
            other => text.push(other)?,
        }
    }
    Ok(())
}

// Fails where something else is told of the script. The message is the end of what was told.
fn assert_run(rt: &impl Abort, alloc: Global, script: &[u8], want: &[u8]) -> Result<(), Fail> {
    let got = run(alloc, script, 65536, &[], &[])?;
    let told = got.1.as_slice();
    let end = &told[told.len().saturating_sub(200)..];
    assert!(rt;
        told == want,
        "{}",
        str::from_utf8(end).unwrap_or("no text")
    );
    Ok(())
}

// 32 columns, numbers and texts, under a key of each; the last key is the certain one.
fn create_wide(alloc: Global) -> Result<Vec<u8>, Fail> {
    let mut script = b"CREATE TABLE t (".to_vec(alloc)?;
    numbered(&mut script, alloc, 16, b"a# INTEGER, b# TEXT, ")?;
    numbered(&mut script, alloc, 16, b"POSSIBLE KEY (a#), ")?;
    numbered(&mut script, alloc, 15, b"POSSIBLE KEY (b#), ")?;
    script.extend_from_slice(b"CERTAIN KEY (b16));")?;
    Ok(script)
}

// A row of nulls but for its last value, and 300 rows without a null.
fn fill_wide(script: &mut Vec<u8>, alloc: Global) -> Result<(), Fail> {
    let mut row = b", (".to_vec(alloc)?;
    repeat(&mut row, b"#, '#', ", 15)?;
    row.extend_from_slice(b"#, '#')")?;
    script.extend_from_slice(b"INSERT INTO t VALUES (")?;
    repeat(script, b"NULL, ", 31)?;
    script.extend_from_slice(b"'0')")?;
    numbered(script, alloc, 300, row.as_slice())?;
    script.extend_from_slice(b";")?;
    Ok(())
}

#[test]
fn a_table_of_32_columns_has_32_keys(rt: HostRuntime) -> Result<(), Fail> {
    let alloc = rt.alloc();
    let create = create_wide(alloc)?;
    let mut script = Vec::from_slice(alloc, create.as_slice())?;
    fill_wide(&mut script, alloc)?;
    script.extend_from_slice(
        b"INSERT INTO t (b16) VALUES ('300'); SELECT COUNT(*) FROM t; SHOW CREATE TABLE t; \
          IMPLIES t CERTAIN KEY (b15, b16); IMPLIES t POSSIBLE KEY (b16); COVER OF t;",
    )?;
    let mut told = b"created t\ninserted 301\n\
        refused: certain key 32 of t: rows 301 and 302 agree in the completion ('300')\n\
        count\n301\nrows 1\n"
        .to_vec(alloc)?;
    told.extend_from_slice(create.as_slice())?;
    told.extend_from_slice(
        b"\nimplied by key 32 by extension\nimplied by key 32 by weakening\nCERTAIN KEY (b16)\n",
    )?;
    numbered(
        &mut told,
        alloc,
        15,
        b"POSSIBLE KEY (a#)\nPOSSIBLE KEY (b#)\n",
    )?;
    told.extend_from_slice(b"POSSIBLE KEY (a16)\nkeys 32\n")?;
    assert_run(&rt, alloc, script.as_slice(), told.as_slice())
}

#[test]
fn thousands_of_rows_are_judged_at_once(rt: HostRuntime) -> Result<(), Fail> {
    let alloc = rt.alloc();
    let mut script =
        b"CREATE TABLE t (a INT, b INT, CERTAIN KEY (a), POSSIBLE KEY (b)); INSERT INTO t VALUES (0, NULL)".to_vec(
            alloc,
        )?;
    numbered(&mut script, alloc, 4999, b", (#, #)")?;
    script.extend_from_slice(b"; INSERT INTO t VALUES (5000, 4999); SELECT COUNT(*) FROM t;")?;
    assert_run(
        &rt,
        alloc,
        script.as_slice(),
        b"created t\ninserted 5000\nrefused: possible key 2 of t: rows 5000 and 5001 agree on (4999)\n\
          count\n5000\nrows 1\n",
    )
}

#[test]
fn thousands_of_rows_are_told_and_changed(rt: HostRuntime) -> Result<(), Fail> {
    let alloc = rt.alloc();
    let mut script = b"CREATE TABLE t (a INT, b TEXT);".to_vec(alloc)?;
    for _ in 0..5 {
        script.extend_from_slice(b"INSERT INTO t VALUES (0, 'x')")?;
        numbered(&mut script, alloc, 9999, b", (#, 'x')")?;
        script.extend_from_slice(b";")?;
    }
    script.extend_from_slice(
        b"SELECT * FROM t; UPDATE t SET b = 'y' WHERE a < 3000; DELETE FROM t WHERE a >= 7000; \
          SELECT COUNT(*) FROM t WHERE b = 'y';",
    )?;
    let mut told = b"created t\n".to_vec(alloc)?;
    repeat(&mut told, b"inserted 10000\n", 5)?;
    told.extend_from_slice(b"a|b\n")?;
    for _ in 0..5 {
        told.extend_from_slice(b"0|'x'\n")?;
        numbered(&mut told, alloc, 9999, b"#|'x'\n")?;
    }
    told.extend_from_slice(b"rows 50000\nupdated 15000\ndeleted 15000\ncount\n15000\nrows 1\n")?;
    assert_run(&rt, alloc, script.as_slice(), told.as_slice())
}

// Ids aren't given again, whatever goes.
#[test]
fn ids_pass_300000(rt: HostRuntime) -> Result<(), Fail> {
    let alloc = rt.alloc();
    let mut turn = b"INSERT INTO t VALUES (NULL)".to_vec(alloc)?;
    repeat(&mut turn, b",(NULL)", 99)?;
    turn.extend_from_slice(b";DELETE FROM t;")?;
    let mut script = b"CREATE TABLE t (a INT, POSSIBLE KEY (a));".to_vec(alloc)?;
    repeat(&mut script, turn.as_slice(), 3000)?;
    script.extend_from_slice(b"INSERT INTO t VALUES (1), (1);")?;
    let mut told = b"created t\n".to_vec(alloc)?;
    repeat(&mut told, b"inserted 100\ndeleted 100\n", 3000)?;
    told.extend_from_slice(b"refused: possible key 1 of t: rows 300001 and 300002 agree on (1)\n")?;
    assert_run(&rt, alloc, script.as_slice(), told.as_slice())
}
