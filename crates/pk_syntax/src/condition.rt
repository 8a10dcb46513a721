use crate::literal::Literal;
use pk_values::{Items, Name};
use sqlite_items::Boxed;

/// How a comparison compares.
#[derive(Clone, Copy, Debug, PartialEq, Eq)]
pub enum Op {
    Equal,
    Unequal,
    Less,
    AtMost,
    Greater,
    AtLeast,
}

/// What a column is compared with.
#[derive(Debug, Drop)]
pub enum Operand {
    Known(Literal),
    /// Another column of the same row, or the same column.
    Column(Name),
}

/// A condition on a row, as it is written; parentheses leave no part of their own.
#[derive(Debug, Drop)]
pub enum Test {
    Compare { column: Name, op: Op, with: Operand },
    /// `a IS NULL`, or `a IS NOT NULL` where `not` is true.
    IsNull { column: Name, not: bool },
    Not(Boxed<Test>),
    /// Members joined by AND, at least two, in the order of the text.
    All(Items<Test>),
    /// Members joined by OR, at least two, in the order of the text.
    Any(Items<Test>),
}
