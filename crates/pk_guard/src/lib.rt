//! The keys of one table: which two rows break one, and which break comes first.
//!
//! A key holds by all completions of its table, as pk_similar says, and that is so exactly where no two
//! rows break it. `Guard::build` judges a table's rows, and `Guard::first_break` what changes would make
//! of rows whose keys hold. Both tell the first break: the key that comes first in the table's text, then
//! the lowest of the two ids, then the highest, with the values that the two rows have in common. What
//! that says of completions is in `laws`.
//!
//! A `Guard` keeps nothing yet, so contracts say nothing of it; rows are lists of `Placed`.
#![tactic(auto)]

mod by_id;
mod guard;
mod judging;
mod laws;
mod pairs;

pub use guard::{BuildErr, Guard};
pub use laws::{
    breaks_show_two_rows, definitions_at_their_edges, first_breaks_are_least,
    keys_hold_where_nothing_breaks,
};
