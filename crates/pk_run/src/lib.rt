//! The run of the program, from script bytes to reply bytes: `run_keytab`, and how it ends.
//!
//! Its clauses speak of `told`, the bytes that a machine of plain lists tells for a script, which
//! `specs/Told.antt` defines over the definitions of the crates below.
//!
//! Contracts see a `Status` as plain data, a source and a station by the ghost members of their traits,
//! and what each status says of them in `specs/Run.antt`.
#![tactic(auto)]

mod laws;
mod running;
mod scripts;
mod status;
mod top;

pub use laws::{
    edges_are_told, example_is_told, fronts_are_fronts, printed_schemas_read_back,
    refusals_change_nothing, runs_in_halves, runs_pass_valid_states,
};
pub use status::Status;
pub use top::run_keytab;
