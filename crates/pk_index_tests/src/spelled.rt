//! What the tests share: rows, columns and ids as letters, and cases as texts with marks between their parts.
//!
//! A digit of a row is that number, `-` is null, a small letter is a text, and a capital letter a text of 255 bytes.

ghost use Rattle.std.specs.Prelude.{IfOk};
ghost use Rattle.std.specs.List.Sorted.{IsStrictlySortedBy};
ghost use Rattle.std.specs.Ordering.{nat_cmp};

use pk_values::{ColSet, MOST_COLUMNS, Memory, Row, Value, Words};
use std::alloc::Global;
use std::process::Abort;
use std::test::Fail;

/// The row of these letters, at most 32.
pub(crate) fn row(alloc: Global, letters: &[u8]) -> Result<Row, Fail> {
    let mut values = Vec::new(alloc);
    for letter in letters {
        values.push(value(alloc, *letter)?)?;
    }
    if values.len() > MOST_COLUMNS {
        return Err("no row".into());
    }
    Ok(Row::make(values))
}

fn value(alloc: Global, letter: u8) -> Result<Value, Memory> {
    match letter {
        b'-' => Ok(Value::Null),
        b'0'..=b'9' => Ok(Value::Integer(i64::from(letter - b'0'))),
        b'A'..=b'Z' => text(alloc, letter, 255),
        _ => text(alloc, letter, 1),
    }
}

fn text(alloc: Global, letter: u8, len: usize) -> Result<Value, Memory> {
    let bytes = vec![in alloc; letter; len]?;
    match Words::read(alloc, bytes.as_slice()) {
        Ok(words) => Ok(Value::Text(words)),
        Err(_) => Err(Memory),
    }
}

/// The columns of these digits.
pub(crate) fn set(digits: &[u8]) -> Result<ColSet, Fail> {
    let mut set = ColSet::empty();
    for digit in digits {
        let c = u32::from(digit.saturating_sub(b'0'));
        if c >= 32 {
            return Err("no column".into());
        }
        set = set.with(c);
    }
    Ok(set)
}

/// The ids of these digits, in ascending order, each once.
pub(crate) fn ids(alloc: Global, digits: &[u8]) -> Result<Vec<u64>, Fail>
    ensures { IfOk result (λ ids. IsStrictlySortedBy nat_cmp ids.items) }
{
    let mut ids = Vec::new(alloc);
    for digit in digits {
        ids.push(id(*digit))?;
    }
    ids.sort()?;
    ids.dedup();
    Ok(ids)
}

/// The id of the digit.
pub(crate) fn id(digit: u8) -> u64 {
    u64::from(digit.saturating_sub(b'0'))
}

/// What stands before the first of the mark and behind it.
pub(crate) fn cut(text: &[u8], mark: u8) -> (&[u8], &[u8]) {
    match text.iter().position(|byte| *byte == mark) {
        Some(i) => (text[..i].trim_ascii(), text[i + 1..].trim_ascii()),
        None => (text, b""),
    }
}

/// Fails where another thing was told of the case than what is wanted.
pub(crate) fn assert_told(rt: &impl Abort, case: &[u8], told: &[u8], want: &[u8]) {
    let text = str::from_utf8(case).unwrap_or("a case");
    assert!(rt; told == want, "{text}");
}

/// How an id, or none, is told.
pub(crate) fn told_id(found: Option<u64>) -> u8 {
    match found {
        Some(0) => b'0',
        Some(1) => b'1',
        Some(2) => b'2',
        Some(3) => b'3',
        Some(4) => b'4',
        Some(_) => b'9',
        None => b'.',
    }
}

/// How an answer is told.
pub(crate) fn told_answer(is_so: bool) -> u8 {
    if is_so { b'y' } else { b'n' }
}
