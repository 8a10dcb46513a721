//! What a schema really promises: which keys hold in every table of it, beyond those that it declares.
//!
//! A table of a schema has rows that fit its columns, no null in a NOT NULL column, and every declared
//! key holds in it over all its completions. A key is implied where it holds in each such table. The
//! definitions say so of tables without limits; what is proved of them:
//!
//! - a key is implied exactly where some declared key alone implies it, by extension, weakening or
//!   strengthening, which sets of columns tell (`the_rule_is_the_truth`, `one_key_alone_implies`);
//! - a key that isn't implied fails in a table of two rows, which is one of the schema
//!   (`two_rows_refute`);
//! - each step is sound over all tables (`extension`, `weakening`, `strengthening`).
//!
//! There are no limits on the sets: no column and all columns are keys too, and the schema may have no
//! key at all. The crate has no code: `is_implied`, `low_row` and `high_row` are what others compute.
#![tactic(auto)]

mod laws;

pub use laws::{
    columns_have_distinct_names, definitions_at_their_edges, extension, one_key_alone_implies,
    shapes_are_plain, strengthening, the_rule_is_the_truth, two_rows_refute, weakening,
};
