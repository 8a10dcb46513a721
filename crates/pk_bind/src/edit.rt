use pk_logic::Cond;
use pk_values::{Items, Value};

/// A column, counted from 0, and its new value.
#[derive(Debug, Drop)]
pub struct SetTo {
    pub column: u32,
    pub value: Value,
}

/// What an UPDATE changes, in the rows of which its condition is true, or in all rows where it has none.
#[derive(Debug, Drop)]
pub struct Edit {
    /// At least one, in the order of the text.
    pub sets: Items<SetTo>,
    pub cond: Option<Cond>,
}
