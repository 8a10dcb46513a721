//! Rows and sets as letters, and keys that are told. A digit of a row is that number, and `-` is null. A set is the letters
//! of its columns: the digits are the columns 0 to 9, and `a` to `v` are those from 10 to 31.

ghost use Rattle.std.specs.Prelude.{◌≡◌, length};
ghost use Rattle.std.specs.List.{list_all};
ghost use Rattle.pk_values.specs.ColumnSet.{columns as numbers};
ghost use Rattle.pk_similar.specs.Similarity.{are_below};

use pk_discover::{DiscErr, Keys, discover};
use pk_similar::lies_below;
use pk_sweep::{Meet, Sets, sweep};
use pk_values::{COLUMN_LIMIT, ColSet, MOST_COLUMNS, Memory, Row, Sort, Value};
use std::alloc::Global;
use std::io::Write;
use std::process::Abort;
use std::test::Fail;
use std::thread::Threads;

/// Fails where another thing was told of the case than what is wanted.
pub(crate) fn assert_told(rt: &impl Abort, case: &[u8], told: &[u8], want: &[u8]) {
    let text = str::from_utf8(case).unwrap_or("a case");
    assert!(rt; told == want, "{text}");
}

/// What stands in the text before its first `|` and behind it, without the blanks around each.
pub(crate) fn cut(text: &[u8]) -> (&[u8], &[u8]) {
    match text.iter().position(|byte| *byte == b'|') {
        Some(i) => (text[..i].trim_ascii(), text[i + 1..].trim_ascii()),
        None => (text, b""),
    }
}

/// The rows of these words.
pub(crate) fn rows(alloc: Global, words: &[u8]) -> Result<Vec<Row>, Memory> {
    let mut rows = Vec::new(alloc);
    for word in words.split(|byte| *byte == b' ') {
        add_row(&mut rows, word)?;
    }
    Ok(rows)
}

fn add_row(rows: &mut Vec<Row>, word: &[u8]) -> Result<(), Memory> {
    if word.is_empty() || word.len() > MOST_COLUMNS {
        return Ok(());
    }
    let alloc = *rows.allocator();
    rows.push(row(alloc, word)?)?;
    Ok(())
}

// The row of these letters, and none where they are too many.
fn row(alloc: Global, word: &[u8]) -> Result<Row, Memory> {
    let mut values = Vec::new(alloc);
    for letter in word {
        values.push(value(*letter))?;
    }
    Ok(of_values(alloc, values))
}

/// The row of these values, and none where they are too many.
pub(crate) fn of_values(alloc: Global, values: Vec<Value>) -> Row {
    if values.len() > MOST_COLUMNS {
        Row::make(Vec::new(alloc))
    } else {
        Row::make(values)
    }
}

fn value(letter: u8) -> Value {
    match letter {
        b'0'..=b'9' => Value::Integer(i64::from(letter - b'0')),
        _ => Value::Null,
    }
}

/// The set of these letters.
pub(crate) fn set_of(letters: &[u8]) -> ColSet {
    let mut set = ColSet::empty();
    for letter in letters {
        set = set.with(column(*letter) % COLUMN_LIMIT);
    }
    set
}

fn column(letter: u8) -> u32 {
    match letter {
        b'0'..=b'9' => u32::from(letter - b'0'),
        _ => u32::from(letter.saturating_sub(b'a')) + 10,
    }
}

/// What is told of the rows' keys: the certain ones, and behind a bar the possible ones, or why none are.
pub(crate) fn told_keys<R: Threads, M: Meet>(
    rt: &R,
    alloc: Global,
    rows: &[Row],
    columns: ColSet,
    meet: &M,
) -> Result<Vec<u8>, Fail> {
    if !are_wide(rows, columns) {
        return Err("no columns of all rows".into());
    }
    let mut text = Vec::new(alloc);
    match discover(rt, alloc, rows, columns, meet) {
        Ok(keys) => tell_keys(&mut text, &keys)?,
        Err(why) => tell_why(&mut text, why)?,
    }
    Ok(text)
}

/// What is told of the sets in which rows differ: where they are apart, and behind a bar where they aren't the same.
pub(crate) fn told_sets<R: Threads, M: Meet>(
    rt: &R,
    alloc: Global,
    rows: &[Row],
    columns: ColSet,
    meet: &M,
) -> Result<Vec<u8>, Fail> {
    if !are_wide(rows, columns) {
        return Err("no columns of all rows".into());
    }
    let sets = sweep(rt, alloc, rows, columns, meet)?;
    Ok(tell_both(alloc, &sets)?)
}

fn tell_both(alloc: Global, sets: &Sets) -> Result<Vec<u8>, Memory> {
    let mut text = Vec::new(alloc);
    tell_sets(&mut text, sets.apart.as_slice())?;
    text.push(b'/')?;
    tell_sets(&mut text, sets.not_same.as_slice())?;
    Ok(text)
}

// Whether each row has all of the columns.
fn are_wide(rows: &[Row], columns: ColSet) -> bool
    ensures { result ≡ list_all (λ row. are_below (length row) (numbers columns)) rows.now }
{
    rows.iter().all(|row| lies_below(columns, row.width()))
}

fn tell_keys(text: &mut Vec<u8>, keys: &Keys) -> Result<(), Memory> {
    tell_sets(text, keys.certain.as_slice())?;
    text.push(b'/')?;
    tell_sets(text, keys.possible.as_slice())
}

fn tell_why(text: &mut Vec<u8>, why: DiscErr) -> Result<(), Memory> {
    match why {
        DiscErr::TooManyRows { n } => write!(text, "{n} rows").map_err(|_| Memory),
        DiscErr::TooMany { sort, edge } => tell_edge(text, sort, edge),
        DiscErr::Memory => Err(Memory),
    }
}

fn tell_edge(text: &mut Vec<u8>, sort: Sort, edge: u32) -> Result<(), Memory> {
    match sort {
        Sort::Certain => write!(text, "certain at {edge}").map_err(|_| Memory),
        Sort::Possible => write!(text, "possible at {edge}").map_err(|_| Memory),
    }
}

/// Tells the sets, each in parentheses.
pub(crate) fn tell_sets(text: &mut Vec<u8>, sets: &[ColSet]) -> Result<(), Memory> {
    for set in sets {
        tell_set(text, *set)?;
    }
    Ok(())
}

fn tell_set(text: &mut Vec<u8>, set: ColSet) -> Result<(), Memory> {
    text.push(b'(')?;
    for c in 0..32u8 {
        tell_column(text, set, c)?;
    }
    text.push(b')')?;
    Ok(())
}

fn tell_column(text: &mut Vec<u8>, set: ColSet, c: u8) -> Result<(), Memory> {
    if set.has(u32::from(c)) {
        text.push(letter(c))?;
    }
    Ok(())
}

fn letter(c: u8) -> u8 {
    if c < 10 {
        b'0' + c
    } else {
        (b'a' - 10).saturating_add(c)
    }
}
