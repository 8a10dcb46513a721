//! Books by scripts: each line is the life of one book, a word for each call, and what the calls answer.
//! Sessions and rows are letters, and tables, ids and commits are digits.
//!
//! `Bx1` session x begins at base 1 · `Fx` it finishes · `N2:11a12-` commit 2 changed row 1 of table 1,
//! which was a, and row 2, which wasn't there · `Vx11` how row 1 of table 1 stood for x, `=` as it is now ·
//! `Ix10` the next image above row 0 of table 1 · `Cx1:123` the first conflict of x in table 1 among rows
//! 1, 2 and 3, and its commit · `Sx1` what changed table 1 since x began · `Ax` the base of x · `L` the
//! least session · `#` how many are open, `@` for 16 · `M` the greatest commit noted. `.` is None, and `!`
//! what a book doesn't take.

use crate::calls::{begin, finish, note, row_of};
use pk_txn::{Before, Book, Seen};
use pk_values::{Items, Memory, Name, Value};
use std::alloc::Global;
use std::test::Fail;

const SCRIPT: &[u8] = b"\
Bx1 N2:11a Vx11 Cx1:1
Bx1 N2:11a12- Vx11 Vx12 Vx13 Vx21 Ix10 Ix11 Ix20
Bx1 N2:11a N3:11b N4:12c Vx11 Cx1:12 Cx1:2 Cx1:3 Cx1: Cx2:1
Bx1 N2:11a By2 N3:11b12c Vx11 Vy11 Vx12 Vy12 Cx1:1 Cy1:1 Sx1 Sy1 Sx2
Bx1 N2:11- N3:11a Vx11 Ix10 By3 N4:11b Vy11 Iy10 Ix10
Bx1 N2:11a13-15b27c Ix10 Ix11 Ix15 Ix20 Ix27
Bx1 By1 N2:11a Fx Vy11 Fy Bx2 Vx11 Cx1:1 Sx1
By1 Bx1 Bz1 L # Fx L # Fy Fz L #
Bx5 Ax Ay Bx5 M N3:11a N2:11a N5:11b Vx11 N6:11c Vx11 M
N7:11a M Bx6 Bx7 Vx11 Fx Fx
Bx1 N2:11b21a N3:12c Sx1 Sx2 Sx3 Ix10
Ba1 Bb1 Bc1 Bd1 Be1 Bf1 Bg1 Bh1 Bi1 Bj1 Bk1 Bl1 Bm1 Bn1 Bo1 Bp1 # Bq1 N2:11r Vp11 Fa Bq2 Vq11 Vb11 #";

const TOLD: &[u8] = b"\
: a 12
: a - = = 1 . .
: a 12 24 . . .
: a b c c 12 13 2 3 .
: - . b 1 .
: 1 5 . 7 .
: a = . .
: x 3 y 2 . 0
: 5 . ! . ! = c 6
: 7 ! = !
: 2 2 . 1
: @ ! r = r @
";

#[test]
fn books_tell_what_transactions_see(rt: HostRuntime) -> Result<(), Fail> {
    let alloc = rt.alloc();
    let mut told = Vec::new(alloc);
    for line in SCRIPT.split(|b| *b == b'\n') {
        tell_line(alloc, line, &mut told)?;
    }
    let text = str::from_utf8(told.as_slice()).unwrap_or("no text");
    assert!(rt; told.as_slice() == TOLD, "{text}");
    Ok(())
}

// What the calls of a line answer, behind a colon.
fn tell_line(alloc: Global, line: &[u8], told: &mut Vec<u8>) -> Result<(), Memory> {
    let mut book = Book::new(alloc);
    told.push(b':')?;
    for word in line.split(|b| *b == b' ') {
        call(alloc, &mut book, word, told)?;
    }
    told.push(b'\n')?;
    Ok(())
}

// Makes the call that the word spells.
fn call(alloc: Global, book: &mut Book, word: &[u8], out: &mut Vec<u8>) -> Result<(), Memory> {
    match at(word, 0) {
        b'L' => tell(
            out,
            book.least().map_or(b'.', |name| at(name.as_slice(), 0)),
        ),
        b'#' => tell(out, sign(u64::from(book.count()))),
        b'M' => tell_number(out, book.last()),
        b'N' => {
            let before = befores(alloc, word)?;
            let taken = note(book, digit(word, 1), &before)?;
            tell_taken(out, taken)
        }
        letter => match Name::read(alloc, &[at(word, 1)])? {
            None => Ok(()),
            Some(session) => call_of(book, letter, &session, word, out),
        },
    }
}

// A call about one session.
fn call_of(
    book: &mut Book,
    letter: u8,
    session: &Name,
    word: &[u8],
    out: &mut Vec<u8>,
) -> Result<(), Memory> {
    match letter {
        b'B' => {
            let taken = begin(book, session, digit(word, 2))?;
            tell_taken(out, taken)
        }
        b'F' => {
            let taken = finish(book, session);
            tell_taken(out, taken)
        }
        b'A' => tell_number(out, book.base(session)),
        _ => ask(book, letter, session, word, out),
    }
}

// A question of a session's transaction.
fn ask(
    book: &Book,
    letter: u8,
    session: &Name,
    word: &[u8],
    out: &mut Vec<u8>,
) -> Result<(), Memory> {
    let table = u32::from(at(word, 2).saturating_sub(b'0'));
    let Some(base) = book.base(session) else {
        return tell(out, b'!');
    };
    match letter {
        b'V' => tell(out, seen(&book.view_row(session, table, digit(word, 3)))),
        b'I' => tell_number(out, book.next_image(session, table, digit(word, 3))),
        b'S' => tell_number(out, book.changed_since(table, base)),
        _ => conflict(book, session, table, word, out),
    }
}

fn conflict(
    book: &Book,
    session: &Name,
    table: u32,
    word: &[u8],
    out: &mut Vec<u8>,
) -> Result<(), Memory> {
    let mut ids = Vec::new(*out.allocator());
    for i in 4..word.len() {
        ids.push(digit(word, i))?;
    }
    if !book.has(session) {
        return tell(out, b'!');
    }
    match book.conflict(session, table, ids.as_slice()) {
        None => tell(out, b'.'),
        Some(conflict) => {
            tell(out, sign(conflict.id))?;
            out.push(sign(conflict.commit))?;
            Ok(())
        }
    }
}

// ---- how things are spelled

fn at(word: &[u8], i: usize) -> u8 {
    word.get(i).copied().unwrap_or(b'0')
}

fn digit(word: &[u8], i: usize) -> u64 {
    u64::from(at(word, i).saturating_sub(b'0'))
}

fn sign(number: u64) -> u8 {
    b'0' + u8::try_from(number).unwrap_or(0).min(99)
}

// Three bytes a row from the third on: its table, its id, and the letter that it was, or `-`.
fn befores(alloc: Global, word: &[u8]) -> Result<Items<Before>, Memory> {
    let mut befores = Vec::new(alloc);
    for row in word.get(3..).unwrap_or(b"").chunks(3) {
        let letter = at(row, 2);
        befores.push(Before {
            table: u32::from(at(row, 0).saturating_sub(b'0')),
            id: digit(row, 1),
            row: if letter == b'-' {
                None
            } else {
                Some(row_of(alloc, i64::from(letter))?)
            },
        })?;
    }
    Ok(Items::from_vec(befores))
}

fn seen(seen: &Seen<'_>) -> u8 {
    match seen {
        Seen::Current => b'=',
        Seen::Absent => b'-',
        Seen::Was(row) => match row.as_slice().first() {
            Some(Value::Integer(letter)) => u8::try_from(*letter).unwrap_or(b'?'),
            _ => b'?',
        },
    }
}

fn tell(out: &mut Vec<u8>, answer: u8) -> Result<(), Memory> {
    out.push(b' ')?;
    out.push(answer)?;
    Ok(())
}

fn tell_number(out: &mut Vec<u8>, number: Option<u64>) -> Result<(), Memory> {
    tell(out, number.map_or(b'.', sign))
}

// Nothing where the book took the call.
fn tell_taken(out: &mut Vec<u8>, taken: bool) -> Result<(), Memory> {
    if taken { Ok(()) } else { tell(out, b'!') }
}
