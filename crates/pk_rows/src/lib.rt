//! Stored rows: bytes at places, and the one trait by which a base is kept, in memory or in files.
//!
//! A place is the number of a table and an id in it. What is stored is a finite map from places to bytes, and a commit takes
//! some places out of it and puts bytes at others. `Rows` says what a holder of such a map promises, together with a
//! `Station` that it may keep it in: contracts speak of the map that the two stand for, of the files that a crash may leave
//! meanwhile, and of what each error means. `MemoryRows` keeps the map itself and calls no station.
//!
//! `specs/Maps.antt` says what maps and commits are, and `laws` what stands at each place after a commit.
#![tactic(auto)]

mod batch;
mod laws;
mod memory_rows;
mod place;
mod rows;
mod stored;

pub use batch::Batch;
pub use laws::{commits_are_told_by_place, example_is_run, run_batches};
pub use memory_rows::MemoryRows;
pub use place::Place;
pub use rows::Rows;
pub use stored::Stored;

#[cfg(test)]
mod tests;
