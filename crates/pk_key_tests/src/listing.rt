//! What declared tables leave open, as it is listed.

use crate::declared::{assert_told, cut, schema, write_values};
use pk_examples::{Case, FamilyErr, family};
use pk_values::{ColSet, Memory, Sort};
use std::alloc::Global;
use std::fmt;
use std::io::Write;
use std::test::Fail;

const TWO: &[u8] = b"a INT NOT NULL, b INT";

const LETTERS: &[u8] = b"\
    a INT, b INT, c INT, d INT, e INT, f INT, g INT, h INT, i INT, j INT, k INT, l INT, m INT, \
    n INT, o INT, p INT, q INT, r INT, s INT, t INT, u INT, v INT, w INT, x INT, y INT, z INT";

// Columns, and then declared keys and the cases: the sort, the columns' numbers and two rows of each.
const LISTED: [[&[u8]; 2]; 11] = [
    [TWO, b" | +01 0- 0-;?01 00 00;"],
    [TWO, b"?() | "],
    [TWO, b"?(a) | +1 0- 1-;?1 00 10;"],
    [TWO, b"?(b) | +01 0- 0-;?0 00 01;"],
    [TWO, b"+(b) | +0 00 01;?0 00 01;"],
    [TWO, b"?(a)+(b) | + 00 11;? 00 11;"],
    [TWO, b"?(a, b) | +01 0- 0-;?1 00 10;?0 00 01;"],
    [TWO, b"+(a, b) | +1 0- 1-;+0 00 01;?1 00 10;?0 00 01;"],
    [TWO, b"+(a, b)?(a) | +1 0- 1-;?1 00 10;"],
    [
        LETTERS,
        b"+(a, b)+(c, d)+(e, f)+(g, h)+(i, j)+(k, l)+(m, n)+(o, p)+(q, r)+(s, t)+(u, v)+(w, x)+(y, z) | too many + at 13",
    ],
    [
        LETTERS,
        b"?(a, b)?(c, d)?(e, f)?(g, h)?(i, j)?(k, l)?(m, n)?(o, p)?(q, r)?(s, t)?(u, v)?(w, x)?(y, z) | too many ? at 13",
    ],
];

#[test]
fn open_sets_are_listed(rt: HostRuntime) -> Result<(), Fail> {
    let alloc = rt.alloc();
    for [columns, case] in &LISTED {
        let (declared, cases) = cut(case);
        let told = listed(alloc, columns, declared)?;
        assert_told(&rt, case, told.as_slice(), cases);
    }
    Ok(())
}

fn listed(alloc: Global, columns: &[u8], declared: &[u8]) -> Result<Vec<u8>, Fail> {
    let schema = schema(alloc, columns, declared)?;
    match family(alloc, &schema) {
        Ok(cases) => Ok(spelled(alloc, cases.as_slice())?),
        Err(FamilyErr::TooMany { sort, edge }) => Ok(too_many(alloc, sort, edge)?),
        Err(FamilyErr::Memory) => Err(Fail::from("no memory")),
    }
}

fn too_many(alloc: Global, sort: Sort, edge: u32) -> Result<Vec<u8>, Memory> {
    let mut text = Vec::from_slice(alloc, b"too many ")?;
    text.push(letter(sort))?;
    text.extend_from_slice(b" at ")?;
    write_number(&mut text, edge)?;
    Ok(text)
}

fn letter(sort: Sort) -> u8 {
    match sort {
        Sort::Certain => b'+',
        Sort::Possible => b'?',
    }
}

fn spelled(alloc: Global, cases: &[Case]) -> Result<Vec<u8>, Memory> {
    let mut text = Vec::new(alloc);
    for case in cases {
        write_case(&mut text, case)?;
    }
    Ok(text)
}

fn write_case(text: &mut Vec<u8>, case: &Case) -> Result<(), Memory> {
    text.push(letter(case.sort))?;
    write_columns(text, case.columns)?;
    text.push(b' ')?;
    write_values(text, case.low.as_slice())?;
    text.push(b' ')?;
    write_values(text, case.high.as_slice())?;
    Ok(text.push(b';')?)
}

fn write_columns(text: &mut Vec<u8>, columns: ColSet) -> Result<(), Memory> {
    for c in 0..32 {
        if columns.has(c) {
            write_number(text, c)?;
        }
    }
    Ok(())
}

fn write_number(text: &mut Vec<u8>, n: u32) -> Result<(), Memory> {
    write!(text, "{n}").map_err(|_| Memory)
}

const TWELVE_PAIRS: &[u8] = b"\
    ?(a, b)?(c, d)?(e, f)?(g, h)?(i, j)?(k, l)?(m, n)?(o, p)?(q, r)?(s, t)?(u, v)?(w, x)";

// One of certain keys, and as many of possible ones as are listed at most.
#[test]
fn the_most_cases_are_listed(rt: HostRuntime) -> Result<(), Fail> {
    let alloc = rt.alloc();
    let schema = schema(alloc, LETTERS, TWELVE_PAIRS)?;
    let cases = family(alloc, &schema).ok().ok_or("no cases")?;
    assert_eq!(rt; cases.len(), 4_097);
    Ok(())
}

fn crosses<T: Send + Sync>() {}

#[test]
fn cases_may_cross_threads() {
    crosses::<Case>();
    crosses::<FamilyErr>();
}
