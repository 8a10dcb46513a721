//! The sets of columns in which rows differ, over all pairs of rows. It stands on pk_similar and
//! pk_values.
//!
//! Two rows may be equal on some columns exactly where they are apart in none of these, and are known to
//! be equal exactly where they are the same in all of these. So keys over rows are told by the sets of
//! columns in which two rows are apart, or aren't the same. What is proved:
//!
//! - `sweep` gives these sets for the rows at all pairs of distinct places (`pairs_are_of_places`), in
//!   order and each once, whatever `meet` does and wherever the pairs are split in two;
//! - each set has just the columns in which two rows differ (`sets_have_their_columns`).
//!
//! Rows are compared by numbers, two of which are equal exactly where two rows have the same value in a
//! column. Contracts see a set as the number with a bit for each of its columns.
//!
//! Not proved is that two threads run at once.
#![tactic(auto)]

mod coding;
mod laws;
mod meet;
mod ordering;
mod pairs;
mod ranks;
mod seen;
mod sets;
mod sweeping;

pub use laws::{definitions_at_their_edges, pairs_are_of_places, sets_have_their_columns};
pub use meet::{Meet, NoMeet};
pub use sets::Sets;
pub use sweeping::sweep;
