use pk_logic::Cond;
use pk_values::Items;

/// What is shown of each row.
#[derive(Debug, Drop)]
pub enum Shown {
    /// These columns, counted from 0, in this order.
    Columns(Items<u32>),
    /// Nothing of the rows but their number.
    Count,
}

/// A column, counted from 0, by which rows are put in order.
#[derive(Clone, Copy, Debug, PartialEq, Eq)]
pub struct OrderBy {
    pub column: u32,
    /// Whether the greatest value comes first.
    pub down: bool,
}

/// What a SELECT asks for, of the rows of which its condition is true, or of all rows where it has none.
#[derive(Debug, Drop)]
pub struct Selection {
    pub cond: Option<Cond>,
    pub shown: Shown,
    /// The first column decides, and each other where those before it leave two rows alike. Empty where
    /// no order is asked for.
    pub order: Items<OrderBy>,
}
