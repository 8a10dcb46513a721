//! The machine that answers statements: its definitions in `specs/`, and an engine over plain lists
//! that is proved to be that machine. Contracts tie an `Engine` to a state of the machine by
//! `StandsFor`, and see nothing else of it.
#![tactic(auto)]

mod answered;
mod engine;
mod laws;
mod outcome;
mod rows;
mod table;

pub use answered::is_answered;
pub use engine::Engine;
pub use laws::{
    answers_keep_bases_valid, definitions_at_their_edges, deletes_leave_the_rest,
    entries_are_committed, implies_tells_the_truth, inserts_add_rows,
    keys_are_judged_by_completions, refusals_change_nothing, rows_are_put_in_order,
    selects_change_nothing, selects_tell_their_rows, set_rows_keep_other_columns,
    statements_leave_other_tables, statements_make_entries, tables_are_made_and_dropped,
    the_cover_is_told, updates_set_rows,
};
