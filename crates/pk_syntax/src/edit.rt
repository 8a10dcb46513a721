use crate::condition::Test;
use crate::literal::Literal;
use pk_values::{Items, Name};

/// The rows that an INSERT puts at the end of a table.
#[derive(Debug, Drop)]
pub struct Insert {
    pub table: Name,
    /// The columns that the tuples give values to, or `None` where the statement lists none: all
    /// columns in order.
    pub columns: Option<Items<Name>>,
    /// At least one tuple of at least one literal, in the order of the text.
    pub rows: Items<Items<Literal>>,
}

/// A column and the value that an UPDATE gives it.
#[derive(Debug, Drop)]
pub struct SetPart {
    pub column: Name,
    pub value: Literal,
}

/// What an UPDATE changes, in the rows that meet its condition, or in all rows where it has none.
#[derive(Debug, Drop)]
pub struct Update {
    pub table: Name,
    /// At least one, in the order of the text.
    pub sets: Items<SetPart>,
    pub cond: Option<Test>,
}

/// A DELETE of the rows that meet its condition, or of all rows where it has none.
#[derive(Debug, Drop)]
pub struct Delete {
    pub table: Name,
    pub cond: Option<Test>,
}
