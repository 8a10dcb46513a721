//! Example tables that show which keys a schema doesn't imply.
//!
//! A user who asks whether a key holds in every table of a schema, and is told no, is shown why: a table
//! of two rows that the schema allows and in which the key fails. `two_rows` gives these rows for any
//! key; that they refute each key that isn't implied, over all completions, is a clause of it, and that
//! they could be stored is another. Contracts see a `TwoRows` as its two rows, each the list of its values.
//!
//! A user who asks for all that a schema leaves open is given the largest sets of columns whose key it
//! doesn't imply, each with its two rows: `family` lists them, and by `laws` they tell of every key over
//! the schema's columns whether it is implied.
#![tactic(auto)]

mod case;
mod family_err;
mod laws;
mod listing;
mod refuting;

pub use case::Case;
pub use family_err::FamilyErr;
pub use laws::{
    definitions_at_their_edges, examples_are_largest, examples_refute, examples_tell_the_keys,
    two_rows_are_admitted,
};
pub use listing::{MOST_CASES, family};
pub use refuting::{TwoRows, two_rows};
