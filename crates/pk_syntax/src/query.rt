use crate::condition::Test;
use pk_values::{Items, Name};

/// What a SELECT tells of each row.
#[derive(Debug, Drop)]
pub enum What {
    /// `*`: all columns, in the order of the table.
    All,
    /// These columns, at least one, in the order of the text.
    Columns(Items<Name>),
    /// `COUNT(*)`: nothing of the rows but their number.
    Count,
}

/// A column by which rows are put in order.
#[derive(Debug, Drop)]
pub struct OrderPart {
    pub column: Name,
    /// Whether the greatest value comes first.
    pub down: bool,
}

/// A SELECT of the rows that meet its condition, or of all rows where it has none.
#[derive(Debug, Drop)]
pub struct Select {
    pub table: Name,
    pub what: What,
    pub cond: Option<Test>,
    /// Empty where no order is asked for.
    pub order: Items<OrderPart>,
}
