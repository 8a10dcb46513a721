//! Snapshots by scripts. A line is the life of one book over two tables, 1 and 2, whose rows have a letter
//! each; ids are digits. A word is a call, and what the calls tell stands behind a colon:
//!
//! `R1ab` table 1 has the rows 1: a and 2: b · `Bx` session x begins now, `Fx` it finishes · `C12B13-21z` a
//! commit puts B into row 2 of table 1, removes its row 3, and puts z into row 1 of table 2 · `Wx1` all that
//! x sees of table 1 · `Jx1:20` in one snapshot the row behind 2, and then that behind 0. `.` is no row, and
//! `!` a session without a transaction.

ghost use Rattle.std.specs.Prelude.{◌≡◌, IsTrue, IfOk, IfSome};
ghost use Rattle.pk_exec.specs.Rows.{AscendFrom};

use crate::snapshot::Snapshot;
use pk_exec::View;
use pk_txn::{Before, Book, MOST_OPEN, Seen};
use pk_values::{Items, Memory, Name, Placed, Row, Value};
use pk_world::StoreErr;
use std::alloc::Global;
use std::test::Fail;

const SCRIPT: &[u8] = b"\
R1abc Bx Wx1 Jx1:0123
R1abc Bx C12B Wx1 C12D Wx1
R1abc Bx C12- Wx1 Jx1:10
R1abc Bx C14d C15e Wx1 Jx1:3425
R1a-c Bx C12b Wx1 C12- Wx1
R1abc Bx C11-12-13- Wx1
R1ab Bx C11-12-13c14d Wx1
Bx C11a12b Wx1
R1ab R2xyz Bx C11A22Y C23-21X Wx1 Wx2
R1abc Bx C11A By C12B13- Wx1 Wy1 C11-14d Wx1 Wy1 Fx Wy1 Wx1
R1a C11b Bx C11c Wx1 Fx Bx Wx1
R1abcdefg Bx C11-13C14-18h16F Wx1 Jx1:654321076 Jx1:4433
";

const TOLD: &[u8] = b"\
: 1a2b3c 1a2b3c.
: 1a2b3c 1a2b3c
: 1a2b3c 2b1a
: 1a2b3c ..3c.
: 1a3c 1a3c
: 1a2b3c
: 1a2b
: .
: 1a2b 1x2y3z
: 1a2b3c 1A2b3c 1a2b3c 1A2b3c 1A2b3c !
: 1b 1c
: 1a2b3c4d5e6f7g 7g6f5e4d3c2b1a.7g 5e5e4d4d
";

#[test]
fn snapshots_are_the_rows_at_the_begin(rt: HostRuntime) -> Result<(), Fail> {
    let alloc = rt.alloc();
    let mut told = Vec::new(alloc);
    for line in SCRIPT.split(|b| *b == b'\n') {
        tell_line(alloc, line, &mut told)?;
    }
    let text = str::from_utf8(told.as_slice()).unwrap_or("no text");
    assert!(rt; told.as_slice() == TOLD, "{text}");
    Ok(())
}

// What the calls of a line tell, behind a colon.
fn tell_line(alloc: Global, line: &[u8], told: &mut Vec<u8>) -> Result<(), Fail> {
    if line.is_empty() {
        return Ok(());
    }
    let mut book = Book::new(alloc);
    let mut letters = Vec::from_slice(alloc, b"-----------------------------")?;
    told.push(b':')?;
    for word in line.split(|b| *b == b' ') {
        call(alloc, &mut book, &mut letters, word, told)?;
    }
    told.push(b'\n')?;
    Ok(())
}

// Makes the call that the word spells. The letter of row 7 of table 2 stands at place 27.
fn call(
    alloc: Global,
    book: &mut Book,
    letters: &mut Vec<u8>,
    word: &[u8],
    told: &mut Vec<u8>,
) -> Result<(), Fail> {
    match at(word, 0) {
        b'R' => {
            put_all(letters, at(word, 1), word.get(2..).unwrap_or(b""));
            Ok(())
        }
        b'C' => commit(alloc, book, letters, word.get(1..).unwrap_or(b"")),
        b'B' => begin(book, &name(alloc, word)?),
        b'F' => {
            finish(book, &name(alloc, word)?);
            Ok(())
        }
        _ => {
            let session = name(alloc, word)?;
            let rows = rows(alloc, letters, at(word, 2))?;
            told.push(b' ')?;
            tell(rows.as_slice(), book, &session, word, told)
        }
    }
}

// What the session sees, by the word.
fn tell(
    rows: &[Placed],
    book: &Book,
    session: &Name,
    word: &[u8],
    told: &mut Vec<u8>,
) -> Result<(), Fail> {
    let Some(mut view) = snapshot(rows, book, session, number(at(word, 2))) else {
        told.push(b'!')?;
        return Ok(());
    };
    if at(word, 0) == b'W' {
        return tell_all(&mut view, told);
    }
    for id in word.get(4..).unwrap_or(b"") {
        let row = next_row(&mut view, u64::from(number(*id)))?;
        tell_row(row, told)?;
    }
    Ok(())
}

fn tell_all<V: View>(view: &mut V, told: &mut Vec<u8>) -> Result<(), Fail> {
    let mut row = next_row(view, 0)?;
    if row.is_none() {
        told.push(b'.')?;
    }
    for _ in 0..9 {
        let Some(placed) = row else {
            return Ok(());
        };
        let id = placed.id;
        tell_row(Some(placed), told)?;
        row = next_row(view, id)?;
    }
    Ok(())
}

fn tell_row(row: Option<Placed>, told: &mut Vec<u8>) -> Result<(), Fail> {
    match row {
        None => told.push(b'.')?,
        Some(placed) => {
            told.push(b'0' + (placed.id.min(9) as u8))?;
            told.push(u8::try_from(value(&placed.row)).unwrap_or(b'?'))?;
        }
    }
    Ok(())
}

// ---- commits

fn begin(book: &mut Book, session: &Name) -> Result<(), Fail> {
    if book.has(session) || book.count() as usize >= MOST_OPEN {
        return Ok(());
    }
    match book.last() {
        Some(last) => book.begin(session, last)?,
        None => book.begin(session, 1)?,
    }
    Ok(())
}

fn finish(book: &mut Book, session: &Name) {
    if book.has(session) {
        book.finish(session);
    }
}

// Puts the letters of a commit, three bytes a row: its table, its id, and its letter.
fn commit(alloc: Global, book: &mut Book, letters: &mut [u8], bytes: &[u8]) -> Result<(), Fail> {
    let mut before = Vec::new(alloc);
    for row in bytes.chunks(3) {
        let place = place(at(row, 0), at(row, 1));
        before.push(Before {
            table: number(at(row, 0)),
            id: u64::from(number(at(row, 1))),
            row: letter_row(alloc, letters.get(place).copied().unwrap_or(b'-'))?,
        })?;
        put(letters, place, at(row, 2));
    }
    note(book, &Items::from_vec(before))
}

fn note(book: &mut Book, before: &Items<Before>) -> Result<(), Fail> {
    match book.last() {
        None => book.note(2, before)?,
        Some(last) => {
            if last < 1_000 {
                book.note(last + 1, before)?;
            }
        }
    }
    Ok(())
}

// ---- rows

fn rows(alloc: Global, letters: &[u8], table: u8) -> Result<Vec<Placed>, Fail> {
    let mut rows = Vec::new(alloc);
    for id in 1..=9u8 {
        let letter = letters.get(place(table, b'0' + id)).copied();
        if let Some(row) = letter_row(alloc, letter.unwrap_or(b'-'))? {
            rows.push(Placed {
                id: u64::from(id),
                row,
            })?;
        }
    }
    Ok(rows)
}

fn letter_row(alloc: Global, letter: u8) -> Result<Option<Row>, Memory> {
    if letter == b'-' {
        return Ok(None);
    }
    Ok(Some(row_of(alloc, u64::from(letter))?))
}

fn row_of(alloc: Global, value: u64) -> Result<Row, Memory> {
    let mut values = Vec::new(alloc);
    values.push(Value::Integer(value.min(1_000_000) as i64))?;
    Ok(Row::make(values))
}

// The number of a row, and 0 where it has none.
fn value(row: &Row) -> i64 {
    match row.as_slice().first() {
        Some(Value::Integer(number)) => *number,
        _ => 0,
    }
}

// ---- views

// The view, where the session has a transaction open and the rows are in order.
#[tactic(auto, using(crate::proofs::WalkLemmas::none_back, crate::proofs::WalkLemmas::absent_back))]
fn snapshot<'a>(
    rows: &'a [Placed],
    book: &'a Book,
    session: &'a Name,
    table: u32,
) -> Option<Snapshot<'a>> {
    if !book.has(session) || !ascends(rows) {
        return None;
    }
    match book.view_row(session, table, 0) {
        Seen::Was(_) => None,
        Seen::Current => Some(Snapshot::new(rows, book, session, table)),
        Seen::Absent => Some(Snapshot::new(rows, book, session, table)),
    }
}

// Whether the ids ascend from 1.
fn ascends(rows: &[Placed]) -> bool
    ensures { IsTrue result → AscendFrom 1 rows.now }
{
    let mut last = 0;
    for placed in rows {
        if placed.id <= last {
            return false;
        }
        last = placed.id;
    }
    true
}

// The row behind the id.
fn next_row<V: View>(view: &mut V, id: u64) -> Result<Option<Placed>, Fail> {
    match next_placed(view, id) {
        Ok(row) => Ok(row),
        Err(_) => Err("the view failed".into()),
    }
}

fn next_placed<V: View>(view: &mut V, id: u64) -> Result<Option<Placed>, StoreErr> {
    let Some(id) = view.next_after(id)? else {
        return Ok(None);
    };
    let row = view.row(id)?;
    Ok(Some(Placed { id, row }))
}

// ---- how things are spelled

fn at(word: &[u8], i: usize) -> u8 {
    word.get(i).copied().unwrap_or(b'0')
}

fn number(digit: u8) -> u32 {
    u32::from(digit.saturating_sub(b'0'))
}

fn name(alloc: Global, word: &[u8]) -> Result<Name, Fail> {
    Ok(Name::read(alloc, &[at(word, 1)])?.ok_or("no name")?)
}

fn place(table: u8, id: u8) -> usize {
    10 * usize::from(table.saturating_sub(b'0')) + usize::from(id.saturating_sub(b'0'))
}

fn put(letters: &mut [u8], place: usize, letter: u8) {
    if place < letters.len() {
        letters[place] = letter;
    }
}

fn put_all(letters: &mut [u8], table: u8, given: &[u8]) {
    let first = place(table, b'1');
    for (i, letter) in given.iter().enumerate() {
        put(letters, first.saturating_add(i), *letter);
    }
}

// ---- at the sizes that people use

const OLD_ROWS: u64 = 20_000;

#[test]
fn a_large_snapshot_is_the_old_rows(rt: HostRuntime) -> Result<(), Fail> {
    let alloc = rt.alloc();
    let session = name(alloc, b"Bx")?;
    let mut book = Book::new(alloc);
    begin(&mut book, &session)?;
    note(&mut book, &large_before(alloc)?)?;
    let rows = large_rows(alloc)?;
    let Some(mut view) = snapshot(rows.as_slice(), &book, &session, 1) else {
        return Err("no snapshot".into());
    };
    assert_eq!(rt; old_rows(&mut view)?, OLD_ROWS);
    Ok(())
}

// A third of the old rows stands, a third is changed, a third is gone, and 5,000 are new.
fn large_rows(alloc: Global) -> Result<Vec<Placed>, Memory> {
    let mut rows = Vec::new(alloc);
    for id in 1..=OLD_ROWS + 5_000 {
        if id % 3 != 0 || id > OLD_ROWS {
            let value = if id % 3 == 1 { id } else { 0 };
            rows.push(Placed {
                id,
                row: row_of(alloc, value)?,
            })?;
        }
    }
    Ok(rows)
}

fn large_before(alloc: Global) -> Result<Items<Before>, Memory> {
    let mut before = Vec::new(alloc);
    for id in 1..=OLD_ROWS + 5_000 {
        if id % 3 != 1 || id > OLD_ROWS {
            before.push(Before {
                table: 1,
                id,
                row: old_row(alloc, id)?,
            })?;
        }
    }
    Ok(Items::from_vec(before))
}

// The number of an old row was its id.
fn old_row(alloc: Global, id: u64) -> Result<Option<Row>, Memory> {
    if id > OLD_ROWS {
        return Ok(None);
    }
    Ok(Some(row_of(alloc, id)?))
}

// How many rows the view has, if they are the old ones.
fn old_rows<V: View>(view: &mut V) -> Result<u64, Fail> {
    let mut last = 0;
    for _ in 0..=OLD_ROWS {
        let Some(placed) = next_row(view, last)? else {
            return Ok(last);
        };
        if placed.id != last.saturating_add(1)
            || value(&placed.row) != placed.id.min(1_000_000) as i64
        {
            return Err("not an old row".into());
        }
        last = placed.id;
    }
    Ok(last)
}
