use crate::key::Sort;
use crate::row::Row;

/// Two rows that break a key of their table.
#[derive(Debug, Drop)]
pub struct Break {
    /// The key's place among those of the table, counted from 1.
    pub key: u32,
    pub sort: Sort,
    /// The lower of the two rows' ids.
    pub low: u64,
    /// The higher of the two rows' ids.
    pub high: u64,
    /// On each column of the key, ascending, the value on which the rows agree: for a certain key in a
    /// completion, for a possible key as they are.
    pub values: Row,
}
