//! Conditions on rows with nulls, in SQL's three truth values.
//!
//! `judge` tells whether a condition is false, unknown or true on a row. Its one clause says that the
//! answer is `truth` of `specs/Conditions.antt`, which goes by one case for each form of condition:
//! a comparison with a null on either side is unknown, and else as the order of the two values
//! decides; `IS NULL` is false or true; NOT exchanges false and true; AND is the least and OR the
//! greatest of its members, in the order false, unknown, true. A row is taken where its condition is
//! true, and on nothing else.
//!
//! `laws` proves what a reader of SQL expects of that definition, for every row and every condition:
//! IS NULL is never unknown, AND and OR mirror each other under NOT, a comparison of known values is
//! decided by their order alone, and a condition without IS NULL that is true or false of a row stays
//! so whatever the row's nulls are filled with.
#![tactic(auto)]

mod condition;
mod fitting;
mod judging;
mod laws;
mod truth;

pub use condition::{Cond, Op, Side};
pub use fitting::is_judgeable;
pub use judging::judge;
pub use laws::{
    conditions_over_kinds_are_judgeable, examples_are_judged, filling_keeps_the_known,
    members_decide, not_exchanges, not_mirrors, null_is_not_compared, null_tests_are_known,
    null_tests_change, order_decides,
};
pub use truth::Truth;
