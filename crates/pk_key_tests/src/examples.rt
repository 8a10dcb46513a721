//! Keys of declared tables, and the rows that are shown for them.

use crate::declared::{assert_told, cut, question, schema, write_values};
use pk_examples::{TwoRows, two_rows};
use pk_schema::{Schema, key_of};
use pk_syntax::TableDecl;
use pk_values::{ColSet, KeyDecl, Memory, Sort};
use std::alloc::Global;
use std::test::Fail;

const MIXED: &[u8] = b"a INTEGER, b TEXT, c INTEGER NOT NULL, d TEXT NOT NULL";

const THREE: &[u8] = b"a INTEGER, b TEXT, c INTEGER NOT NULL";

const SHORT: &[u8] = b"a VARCHAR(1)";

const WIDE: &[u8] = b"\
    a INT, b INT, c INT, d INT, e INT, f INT, g INT, h INT, i INT, j INT, k INT, l INT, m INT, n INT, \
    o INT, p INT, q INT, r INT, s INT, t INT, u INT, v INT, w INT, x INT, y INT, z INT, a1 INT, a2 INT, \
    a3 INT, a4 INT, a5 INT, a6 INT NOT NULL";

// Columns, and then declared keys, a key that is asked about, and its two rows.
const SHOWN: [[&[u8]; 2]; 15] = [
    [MIXED, b" | ?() | 0e0e 1a1a"],
    [MIXED, b" | +() | 0e0e 1a1a"],
    [MIXED, b" | ?(a) | 0e0e 0a1a"],
    [MIXED, b" | +(a) | -e0e -a1a"],
    [MIXED, b" | ?(b) | 0e0e 1e1a"],
    [MIXED, b" | +(b) | 0-0e 1-1a"],
    [MIXED, b" | +(c) | 0e0e 1a0a"],
    [MIXED, b" | +(c, d) | 0e0e 1a0e"],
    [MIXED, b" | +(a, d) | -e0e -a1e"],
    [MIXED, b" | ?(a, b, c, d) | 0e0e 0e0e"],
    [MIXED, b" | +(a, b, c, d) | --0e --0e"],
    [THREE, b"?(a, b) | +(a, b) | --0 --1"],
    [SHORT, b" | ?() | e a"],
    [
        WIDE,
        b" | ?() | 00000000000000000000000000000000 11111111111111111111111111111111",
    ],
    [
        WIDE,
        b" | +(a1, a2, a3, a4) | 00000000000000000000000000----00 11111111111111111111111111----11",
    ],
];

#[test]
fn rows_are_shown_for_keys(rt: HostRuntime) -> Result<(), Fail> {
    let alloc = rt.alloc();
    for [columns, case] in &SHOWN {
        let (declared, rest) = cut(case);
        let (key, rows) = cut(rest);
        let told = shown(alloc, columns, declared, key)?;
        assert_told(&rt, case, told.as_slice(), rows);
    }
    Ok(())
}

fn shown(alloc: Global, columns: &[u8], declared: &[u8], key: &[u8]) -> Result<Vec<u8>, Fail> {
    let schema = schema(alloc, columns, declared)?;
    let question = question(alloc, key)?;
    rows_of(alloc, &schema, &question)
}

// The two rows of the key that is asked about.
fn rows_of(alloc: Global, schema: &Schema, question: &TableDecl) -> Result<Vec<u8>, Fail> {
    let key = question.keys.as_slice().first().ok_or("no key")?;
    let rows = two_rows(alloc, schema, key_of(schema.columns(), key))?;
    Ok(spelled(alloc, &rows)?)
}

fn spelled(alloc: Global, rows: &TwoRows) -> Result<Vec<u8>, Memory> {
    let mut letters = Vec::new(alloc);
    write_values(&mut letters, rows.low.as_slice())?;
    letters.push(b' ')?;
    write_values(&mut letters, rows.high.as_slice())?;
    Ok(letters)
}

fn crosses<T: Send + Sync>(_: &T) {}

#[test]
fn rows_may_cross_threads(rt: HostRuntime) -> Result<(), Fail> {
    let alloc = rt.alloc();
    let schema = schema(alloc, SHORT, b"")?;
    let columns = ColSet::empty();
    let sort = Sort::Possible;
    crosses(&two_rows(alloc, &schema, KeyDecl { sort, columns })?);
    Ok(())
}
