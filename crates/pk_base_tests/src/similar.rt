//! Pairs of rows, on columns of both.
//!
//! A case is a line: two rows of letters, columns, and what is told of them, with bars between. A column is the letter
//! so many places behind `0`, from `0` to `O`.

ghost use Rattle.std.specs.Prelude.{IsTrue, length};
ghost use Rattle.pk_values.specs.ColumnSet.{columns};
ghost use Rattle.pk_similar.specs.Similarity.{are_below};

use crate::cases::{assert_told, cut};
use crate::spelled::{row, tell_values};
use pk_similar::{apart, fill, lies_below, not_same, strong, weak};
use pk_values::{ColSet, Kind, Memory, Row};
use std::alloc::Global;
use std::test::Fail;

fn set(letters: &[u8]) -> Result<ColSet, Fail> {
    let mut set = ColSet::empty();
    for letter in letters {
        let c = u32::from(letter.saturating_sub(b'0'));
        if c >= 32 {
            return Err("no column".into());
        }
        set = set.with(c);
    }
    Ok(set)
}

// ---- similar rows

// What is told: `w` where the rows are weakly similar, `s` where they are strongly, `/` and the columns in
// which they are apart, and `/` and those in which they aren't the same.
const PAIRS: &[u8] = b"\
 | | | ws//
1 | 2 | | ws//
1 | 1 | 0 | ws//
1 | 2 | 0 | /0/0
1 | - | 0 | w//0
- | - | 0 | w//0
1- | -2 | 01 | w//01
12- | 32- | 012 | /0/02
12- | 32- | 12 | w//2
12- | 32- | 1 | ws//
<> | <> | 01 | ws//
<> | >< | 01 | /01/01
ex | ex | 01 | ws//
ex | xs | 01 | /01/01
00000000000000000000000000000000 | 00000000000000000000000000000000 \
    | 0123456789:;<=>?@ABCDEFGHIJKLMNO | ws//
00000000000000000000000000000000 | -------------------------------- \
    | 0123456789:;<=>?@ABCDEFGHIJKLMNO | w//0123456789:;<=>?@ABCDEFGHIJKLMNO";

#[test]
fn rows_are_compared_on_columns(rt: HostRuntime) -> Result<(), Fail> {
    let alloc = rt.alloc();
    for case in PAIRS.split(|byte| *byte == b'\n') {
        let (a, rest) = cut(case);
        let (b, rest) = cut(rest);
        let (columns, want) = cut(rest);
        let told = compared(alloc, a, b, columns)?;
        let swapped = compared(alloc, b, a, columns)?;
        assert_told(&rt, case, told.as_slice(), want);
        assert_told(&rt, case, swapped.as_slice(), want);
    }
    Ok(())
}

fn compared(alloc: Global, a: &[u8], b: &[u8], columns: &[u8]) -> Result<Vec<u8>, Fail> {
    let x = set(columns)?;
    let a = row(alloc, a)?;
    let b = row(alloc, b)?;
    told(alloc, &a, &b, x)
}

fn told(alloc: Global, a: &Row, b: &Row, x: ColSet) -> Result<Vec<u8>, Fail> {
    if !lies_below(x, a.width()) || !lies_below(x, b.width()) {
        return Err("no columns of both".into());
    }
    let mut text = Vec::new(alloc);
    tell(&mut text, a, b, x)?;
    Ok(text)
}

fn tell(text: &mut Vec<u8>, a: &Row, b: &Row, x: ColSet) -> Result<(), Memory>
    requires a_wide { IsTrue (are_below (length a.now) (columns x)) }
    requires b_wide { IsTrue (are_below (length b.now) (columns x)) }
{
    tell_where(text, weak(a, b, x), b"w")?;
    tell_where(text, strong(a, b, x), b"s")?;
    tell_columns(text, apart(a, b, x))?;
    tell_columns(text, not_same(a, b, x))
}

fn tell_where(text: &mut Vec<u8>, is_so: bool, letter: &[u8]) -> Result<(), Memory> {
    if is_so {
        text.extend_from_slice(letter)?;
    }
    Ok(())
}

fn tell_columns(text: &mut Vec<u8>, set: ColSet) -> Result<(), Memory> {
    text.push(b'/')?;
    for c in 0..32u8 {
        tell_where(text, set.has(u32::from(c)), &[b'0'.saturating_add(c)])?;
    }
    Ok(())
}

// ---- filled rows

// The rows are of a number, a text and a number. What is told: the values of both on the columns.
const FILLED: &[u8] = b"\
1e2 | 3x4 | |
1-- | --2 | 02 | 12
1-- | --2 | 2 | 2
1-- | --2 | 012 | 1e2
--- | --- | 012 | 0e0
7-8 | 7x8 | 01 | 7x
-e5 | --6 | 01 | 0e
<-1 | -s> | 01 | <s";

#[test]
fn similar_rows_are_filled(rt: HostRuntime) -> Result<(), Fail> {
    let alloc = rt.alloc();
    for case in FILLED.split(|byte| *byte == b'\n') {
        let (a, rest) = cut(case);
        let (b, rest) = cut(rest);
        let (columns, want) = cut(rest);
        let filled = filled(alloc, a, b, columns)?;
        let told = letters_of(alloc, &filled)?;
        assert_told(&rt, case, told.as_slice(), want);
    }
    Ok(())
}

fn filled(alloc: Global, a: &[u8], b: &[u8], columns: &[u8]) -> Result<Row, Fail> {
    let x = set(columns)?;
    let a = row(alloc, a)?;
    let b = row(alloc, b)?;
    filled_on(alloc, &a, &b, x)
}

fn filled_on(alloc: Global, a: &Row, b: &Row, x: ColSet) -> Result<Row, Fail> {
    let kinds = [Kind::Integer, Kind::Text, Kind::Integer];
    if !lies_below(x, 3) || !lies_below(x, a.width()) || !lies_below(x, b.width()) {
        return Err("no columns of both".into());
    }
    if !weak(a, b, x) {
        return Err("rows that aren't similar".into());
    }
    Ok(fill(alloc, a, b, &kinds, x)?)
}

fn letters_of(alloc: Global, row: &Row) -> Result<Vec<u8>, Memory> {
    let mut letters = Vec::new(alloc);
    tell_values(&mut letters, row.as_slice())?;
    Ok(letters)
}
