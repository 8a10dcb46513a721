use crate::row::Row;

/// A row of a table with its id, a number from 1 that no other row of the table has had.
#[derive(Debug, Drop)]
pub struct Placed {
    pub id: u64,
    pub row: Row,
}
