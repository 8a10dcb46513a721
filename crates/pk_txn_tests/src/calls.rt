//! Calls of a book that are made where it takes them, and a row to note.

use pk_txn::{Before, Book, MOST_OPEN};
use pk_values::{Items, Memory, Name, Row, Value};
use std::alloc::Global;

/// Opens a transaction of the session, where the book takes one, and whether it did.
pub(crate) fn begin(book: &mut Book, session: &Name, base: u64) -> Result<bool, Memory> {
    if book.has(session) || book.count() as usize >= MOST_OPEN {
        return Ok(false);
    }
    match book.last() {
        Some(last) if base < last => Ok(false),
        _ => {
            book.begin(session, base)?;
            Ok(true)
        }
    }
}

/// Notes a commit above all earlier ones, and whether it was one.
pub(crate) fn note(book: &mut Book, commit: u64, before: &Items<Before>) -> Result<bool, Memory> {
    match book.last() {
        Some(last) if commit <= last => Ok(false),
        _ => {
            book.note(commit, before)?;
            Ok(true)
        }
    }
}

/// Closes the session's transaction, where it has one, and whether it had.
pub(crate) fn finish(book: &mut Book, session: &Name) -> bool {
    let has = book.has(session);
    if has {
        book.finish(session);
    }
    has
}

/// The row of one number.
pub(crate) fn row_of(alloc: Global, number: i64) -> Result<Row, Memory> {
    let mut values = Vec::new(alloc);
    values.push(Value::Integer(number))?;
    Ok(Row::make(values))
}
