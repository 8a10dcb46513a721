//! Tables of two columns of numbers and one of texts. Rows, changes and breaks are spelled by letters.

ghost use Rattle.std.specs.Prelude.{All, IsTrue};
ghost use Rattle.pk_schema.specs.Admits.{Admits};
ghost use Rattle.pk_guard.specs.Changed.{IdsAscend, RowsAscend};

use crate::declared::{assert_told, cut, digit, schema, sort_letter, value, write_values};
use pk_guard::{BuildErr, Guard, keys_hold_where_nothing_breaks};
use pk_schema::Schema;
use pk_values::{Break, Changes, Items, MOST_COLUMNS, Memory, Placed, Row, Value};
use std::alloc::Global;
use std::test::Fail;

const COLUMNS: &[u8] = b"a INTEGER, b INTEGER, c VARCHAR(9)";

// Keys, rows, and their first break.
const BUILT: [&[u8]; 18] = [
    b" | 111x211x |",
    b"+() | |",
    b"+() | 1--e |",
    b"+() | 111x222y | 1+12",
    b"?() | 111x |",
    b"?() | 1---222y | 1?12",
    b"+(a, b) | 11-x212y | 1+1212",
    b"?(a, b) | 11-x212y |",
    b"+(a, b) | 11-x21-x | 1+1210",
    b"?(a, b) | 11-x21-x |",
    b"?(a, b) | 112x313y412x | 1?1412",
    b"+(a, b) | 111x222x32-x41-x | 1+1411",
    b"+(a, b) | 111x222x32-x42-x | 1+2322",
    b"+(a, b)?(c) | 112x212x | 1+1212",
    b"+(a, b)?(c) | 112x213x | 2?12x",
    b"?(c)+(a, b) | 112x212x | 1?12x",
    b"?(c)+(a, b) | 112x222y33-x412y | 1?13x",
    b"+(a, c) | 11--21-- | 1+121e",
];

#[test]
fn first_break_of_rows_is_told(rt: HostRuntime) -> Result<(), Fail> {
    let alloc = rt.alloc();
    for case in &BUILT {
        let (keys, rest) = cut(case);
        let (rows, want) = cut(rest);
        let schema = schema(alloc, COLUMNS, keys)?;
        let rows = rows_of(alloc, rows)?;
        let told = built(alloc, &schema, rows.as_slice())?;
        assert_told(&rt, case, told.as_slice(), want);
    }
    Ok(())
}

// Keys, rows, the ids that go, the rows that are put, and the first break.
const CHANGED: [&[u8]; 18] = [
    b" | 111x | | 211x |",
    b"+(a, b) | 111x222x | 2 | |",
    b"+(a, b) | 111x222x | | 211x | 1+1211",
    b"+(a, b) | 111x222x | | 31-x | 1+1311",
    b"+(a, b) | 111x222x | 1 | 31-x |",
    b"+(a, b) | 111x222x | 019 | 122x | 1+1222",
    b"+(a, b) | 111x222x | 1 | 133x |",
    b"+(a, b) | 111x222x | | 122x211x |",
    b"+(a, b) | 511x | | 21-x | 1+2511",
    b"+(a, b) | | | 111x211x | 1+1211",
    b"+(a, b) | 111x222x | | 322x411x | 1+1411",
    b"+(a, b) | 111x222x | 1 | 322x411x | 1+2322",
    b"?(a, b) | 11-x | | 21-x |",
    b"+(a, b)?(c) | 111x | | 222x | 2?12x",
    b"+(a, b)?(c) | 111x | | 21-x | 1+1211",
    b"?() | 111x | | 222y | 1?12",
    b"?() | 111x | 1 | 222y |",
    b"+(a, c) | 11-- | | 31-- | 1+131e",
];

#[test]
fn first_break_of_changes_is_told(rt: HostRuntime) -> Result<(), Fail> {
    let alloc = rt.alloc();
    for case in &CHANGED {
        let (keys, rest) = cut(case);
        let (rows, rest) = cut(rest);
        let (gone, rest) = cut(rest);
        let (put, want) = cut(rest);
        let schema = schema(alloc, COLUMNS, keys)?;
        let rows = rows_of(alloc, rows)?;
        let told = changed_by(alloc, &schema, rows.as_slice(), gone, put)?;
        assert_told(&rt, case, told.as_slice(), want);
    }
    Ok(())
}

// ---- what is spelled

// The rows, of four letters each: the letter that is its id, and three values.
fn rows_of(alloc: Global, letters: &[u8]) -> Result<Vec<Placed>, Fail> {
    let mut rows = Vec::new(alloc);
    for four in letters.chunks(4) {
        rows.push(placed(alloc, four)?)?;
    }
    Ok(rows)
}

fn placed(alloc: Global, letters: &[u8]) -> Result<Placed, Fail> {
    let (id, values) = letters.split_first().ok_or("no row")?;
    Ok(Placed {
        id: u64::from(*id),
        row: row(alloc, values)?,
    })
}

fn row(alloc: Global, letters: &[u8]) -> Result<Row, Fail> {
    let mut values = Vec::new(alloc);
    read_values(&mut values, letters)?;
    if values.len() > MOST_COLUMNS {
        return Err("no row".into());
    }
    Ok(Row::make(values))
}

fn read_values(values: &mut Vec<Value>, letters: &[u8]) -> Result<(), Memory> {
    let alloc = *values.allocator();
    for letter in letters {
        values.push(value(alloc, *letter)?)?;
    }
    Ok(())
}

fn changes(alloc: Global, gone: &[u8], put: &[u8]) -> Result<Changes, Fail> {
    Ok(Changes {
        gone: Items::from_vec(ids_of(alloc, gone)?),
        put: Items::from_vec(rows_of(alloc, put)?),
    })
}

fn ids_of(alloc: Global, letters: &[u8]) -> Result<Vec<u64>, Memory> {
    let mut ids = Vec::new(alloc);
    for id in letters {
        ids.push(u64::from(*id))?;
    }
    Ok(ids)
}

// ---- what the calls require

fn ids_ascend(ids: &[u64]) -> bool
    ensures { IsTrue result → IdsAscend ids.now }
{
    for k in 1..ids.len() {
        if ids[k - 1] >= ids[k] {
            return false;
        }
    }
    true
}

fn rows_ascend(rows: &[Placed]) -> bool
    ensures { IsTrue result → RowsAscend rows.now }
{
    for k in 1..rows.len() {
        if rows[k - 1].id >= rows[k].id {
            return false;
        }
    }
    true
}

fn are_admitted(schema: &Schema, rows: &[Placed]) -> bool
    ensures { IsTrue result → All (λ p. Admits schema.now p.row) rows.now }
{
    rows.iter().all(|placed| schema.admits(&placed.row).is_ok())
}

// ---- what is told

// The first break of the rows, and nothing where there is none.
fn built(alloc: Global, schema: &Schema, rows: &[Placed]) -> Result<Vec<u8>, Fail> {
    if !rows_ascend(rows) || !are_admitted(schema, rows) {
        return Err("no rows of a table".into());
    }
    match Guard::build(alloc, schema, rows) {
        Ok(_) => Ok(Vec::new(alloc)),
        Err(BuildErr::Broken(broken)) => Ok(told(alloc, &broken)?),
        Err(BuildErr::Memory) => Err("out of memory".into()),
    }
}

// The first break of the rows without those that go and with those that are put.
fn changed_by(
    alloc: Global,
    schema: &Schema,
    rows: &[Placed],
    gone: &[u8],
    put: &[u8],
) -> Result<Vec<u8>, Fail> {
    let changes = changes(alloc, gone, put)?;
    changed(alloc, schema, rows, &changes)
}

// The first break of the rows with these changes, where no key is broken without them.
fn changed(
    alloc: Global,
    schema: &Schema,
    rows: &[Placed],
    changes: &Changes,
) -> Result<Vec<u8>, Fail> {
    let gone = changes.gone.as_slice();
    let put = changes.put.as_slice();
    if !rows_ascend(rows) || !are_admitted(schema, rows) {
        return Err("no rows of a table".into());
    }
    if !ids_ascend(gone) || !rows_ascend(put) || !are_admitted(schema, put) {
        return Err("no changes".into());
    }
    let Ok(guard) = Guard::build(alloc, schema, rows) else {
        return Err("a broken table".into());
    };
    let _keys = schema.keys();
    keys_hold_where_nothing_breaks();
    match guard.first_break(alloc, schema, rows, changes)? {
        Some(broken) => Ok(told(alloc, &broken)?),
        None => Ok(Vec::new(alloc)),
    }
}

// The key's place and sort, the two ids, and the values.
fn told(alloc: Global, broken: &Break) -> Result<Vec<u8>, Memory> {
    let mut letters = Vec::new(alloc);
    letters.extend_from_slice(&[
        digit(u64::from(broken.key)),
        sort_letter(broken.sort),
        id_letter(broken.low),
        id_letter(broken.high),
    ])?;
    write_values(&mut letters, broken.values.as_slice())?;
    Ok(letters)
}

fn id_letter(id: u64) -> u8 {
    u8::try_from(id).unwrap_or(b'?')
}
