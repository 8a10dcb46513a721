ghost use Rattle.std.specs.Prelude.{◌≡◌};
ghost use Rattle.pk_logic.specs.Conditions.{op_holds};

use pk_values::{Items, Value};
use sqlite_items::Boxed;
use std::cmp::Ordering;

/// How a comparison compares.
#[derive(Clone, Copy, Debug, PartialEq, Eq)]
pub enum Op {
    Equal,
    Unequal,
    Less,
    AtMost,
    Greater,
    AtLeast,
}

impl Op {
    // Whether the operator holds of two values, the first of which stands so to the second.
    pub(crate) fn holds(self, order: Ordering) -> bool
        ensures { result ≡ op_holds self order }
    {
        match self {
            Op::Equal => order.is_eq(),
            Op::Unequal => order.is_ne(),
            Op::Less => order.is_lt(),
            Op::AtMost => order.is_le(),
            Op::Greater => order.is_gt(),
            Op::AtLeast => order.is_ge(),
        }
    }
}

/// What a column is compared with.
#[derive(Debug, Drop)]
pub enum Side {
    /// A value, which may be null.
    Known(Value),
    /// What stands in that column of the same row, counted from 0.
    Column(u32),
}

/// A condition on a row. Columns are counted from 0.
#[derive(Debug, Drop)]
pub enum Cond {
    /// The column's value stands so to the other side.
    Compare { column: u32, op: Op, with: Side },
    /// The column is null, or isn't where `not` is true.
    IsNull { column: u32, not: bool },
    /// The condition is denied.
    Not(Boxed<Cond>),
    /// Each member holds: AND.
    All(Items<Cond>),
    /// Some member holds: OR.
    Any(Items<Cond>),
}
