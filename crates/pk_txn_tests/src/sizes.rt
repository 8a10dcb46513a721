//! Books at the sizes that people use, with ample memory, and that they cross threads.

use crate::calls::{begin, finish, note, row_of};
use pk_txn::{Before, Book, Conflict, Seen};
use pk_values::{Items, Memory, Name};
use std::alloc::Global;
use std::test::Fail;

const MOST_ROWS: u64 = 20_000;

fn crosses<T: Send + Sync>() {}

#[test]
fn books_cross_threads(_rt: HostRuntime) {
    crosses::<Book>();
    crosses::<Before>();
    crosses::<Conflict>();
    crosses::<Seen<'_>>();
}

#[test]
fn a_large_commit_is_seen_and_given_up(rt: HostRuntime) -> Result<(), Fail> {
    let alloc = rt.alloc();
    let mut book = Book::new(alloc);
    let old = Name::read(alloc, b"old")?.ok_or("no name")?;
    assert!(rt; begin(&mut book, &old, 1)?);
    assert!(rt; note(&mut book, 2, &rows(alloc)?)?);
    assert_eq!(rt; images(&book, &old), MOST_ROWS);
    assert!(rt;
        conflict(&book, &old, &[0, MOST_ROWS])
            == Some(Conflict {
                id: MOST_ROWS,
                commit: 2
            })
    );
    // Beside it transactions begin and finish.
    let new = Name::read(alloc, b"new")?.ok_or("no name")?;
    assert_eq!(rt; begun_and_finished(&mut book, &new, 2)?, 100_000);
    assert_eq!(rt; images(&book, &old), MOST_ROWS);
    assert!(rt; finish(&mut book, &old));
    assert!(rt; begin(&mut book, &old, 2)?);
    assert_eq!(rt; images(&book, &old), 0);
    Ok(())
}

// How often the session began and finished.
fn begun_and_finished(book: &mut Book, session: &Name, base: u64) -> Result<u32, Memory> {
    let mut times = 0u32;
    for _ in 0..100_000 {
        if begin(book, session, base)? && finish(book, session) {
            times = times.saturating_add(1);
        }
    }
    Ok(times)
}

// How many rows of table 1 the session is told by their images.
fn images(book: &Book, session: &Name) -> u64 {
    let mut found = 0u64;
    let mut at = 0;
    for _ in 0..=MOST_ROWS {
        if let Some(id) = next(book, session, at) {
            found = found.saturating_add(1);
            at = id;
        }
    }
    found
}

// The next row of table 1 that has an image for the session, if that tells a row.
fn next(book: &Book, session: &Name, at: u64) -> Option<u64> {
    if !book.has(session) {
        return None;
    }
    let id = book.next_image(session, 1, at)?;
    match book.view_row(session, 1, id) {
        Seen::Was(_) => Some(id),
        _ => None,
    }
}

fn conflict(book: &Book, session: &Name, ids: &[u64]) -> Option<Conflict> {
    if !book.has(session) {
        return None;
    }
    book.conflict(session, 1, ids)
}

// As many rows of table 1 as a commit changes at most, each with its id.
fn rows(alloc: Global) -> Result<Items<Before>, Memory> {
    let mut rows = Vec::new(alloc);
    for id in 1..=MOST_ROWS {
        rows.push(Before {
            table: 1,
            id,
            row: Some(row_of(alloc, 7)?),
        })?;
    }
    Ok(Items::from_vec(rows))
}
