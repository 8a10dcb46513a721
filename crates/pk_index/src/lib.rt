//! Indexes over the rows of a table that tell, for one key, the least row that a row would break it with.
//! It stands on pk_values and pk_similar.
//!
//! A certain key is broken by two rows that are weakly similar on its columns, a possible key by two
//! that are strongly similar. A `PatternIndex` holds the rows of a table for a certain key, a
//! `StrongIndex` for a possible key, and `least` gives the least id of a similar row without looking at
//! the others: one look-up, and one id more for each id that is to be passed over.
//!
//! A row is filed under byte strings, its projections: for each of the key's columns the bytes of its
//! value, which tell the value and where it ends, or a byte that begins no value, which leaves the
//! column open. A row of a certain key is filed once for each set of nullable columns that it knows and
//! leaves open, so that a look-up that leaves open what the probe doesn't know finds all that it may
//! equal. Projections of less than 48 bytes are kept as numbers, beside the id in one ordered set, so that
//! a search compares numbers alone; longer ones stay byte strings.
//!
//! Contracts see an index as a finite map from ids to the values on the key's columns (`ShowsRows`) or,
//! for a possible key, to these values or the mark that one is null (`ShowsMarks`). No call but `put`
//! and `values` takes memory.
#![tactic(auto)]

mod family;
mod laws;
mod outside;
mod packing;
mod pattern_index;
mod projection;
mod sets;
mod shelf;
mod steps;
mod strong_index;

pub use laws::{projections_tell_rows, similarity_is_of_values};
pub use pattern_index::PatternIndex;
pub use steps::Steps;
pub use strong_index::StrongIndex;
