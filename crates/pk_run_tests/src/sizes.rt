//! Runs of everyday sizes, which ample memory is enough for.

use crate::running::{create_tables, repeat, run};
use pk_run::Status;
use std::test::Fail;

// With ample memory no run of an everyday size ends for want of it.
#[test]
fn everyday_sizes_find_memory(rt: HostRuntime) -> Result<(), Fail> {
    let alloc = rt.alloc();
    let mut script = Vec::new(alloc);
    // A word of 1,000 bytes, which is no statement.
    repeat(&mut script, b"w", 1000)?;
    script.extend_from_slice(b";")?;
    create_tables(&mut script, alloc, 100)?;
    // A number of 1,000 digits.
    script.extend_from_slice(b"INSERT INTO t0 VALUES (")?;
    repeat(&mut script, b"0", 999)?;
    script.extend_from_slice(b"7);")?;
    // 1,001 values for one column.
    script.extend_from_slice(b"INSERT INTO t0 VALUES (0")?;
    repeat(&mut script, b", 1", 1000)?;
    script.extend_from_slice(b");")?;
    // 1,000 rows, each from a piece of its own.
    repeat(&mut script, b"INSERT INTO t0 VALUES (5);", 1000)?;
    script.extend_from_slice(b"SELECT * FROM t0")?;
    let got = run(alloc, &script, 4096, &[], &[])?;
    assert_eq!(rt; got.0, Status::Refused);

    let mut told = Vec::from_slice(alloc, b"refused: not a statement on line 1\n")?;
    for n in 0..100 {
        told.extend_from_slice(format!(in alloc; "created t{n}\n")?.as_bytes())?;
    }
    told.extend_from_slice(b"inserted 1\nrefused: 1001 values for 1 columns\n")?;
    repeat(&mut told, b"inserted 1\n", 1000)?;
    told.extend_from_slice(b"a\n7\n")?;
    repeat(&mut told, b"5\n", 1000)?;
    told.extend_from_slice(b"rows 1001\n")?;
    assert!(rt; got.1.as_slice() == told.as_slice());
    Ok(())
}
