//! What a statement says over the columns of a schema, or the first refusal that stands. A statement
//! is bound once, before any row is looked at: names become places, and literals values.
//!
//! Each call has one clause on what it makes: `IsBound` of the statement's refusals, in their order, and
//! of its meaning where none stands. What is ready may be done on every row that the schema admits:
//! conditions are over the kinds of the columns, places lie within the row, and new rows are admitted.
//!
//! Contracts see a `Bound` as what is ready or the refusal, and an `Edit`, a `Selection` and their parts as
//! plain data: columns by their places, values as they are stored, and conditions as pk_logic's.
#![tactic(auto)]

mod bound;
mod columns;
mod conditions;
mod deleting;
mod edges;
mod edit;
mod insertion;
mod laws;
mod literals;
mod new_rows;
mod searching;
mod selecting;
mod selection;
mod tuples;
mod updating;

pub use bound::Bound;
pub use deleting::bind_delete;
pub use edges::{
    conditions_at_their_edges, edits_and_queries_at_their_edges, inserts_at_their_edges,
};
pub use edit::{Edit, SetTo};
pub use insertion::bind_insert;
pub use laws::{
    as_many_rows_as_tuples, conditions_are_judgeable, literals_land_in_their_columns,
    named_columns_are_found, new_rows_are_admitted, set_rows_are_admitted, what_is_bound_fits,
};
pub use selecting::bind_select;
pub use selection::{OrderBy, Selection, Shown};
pub use updating::bind_update;
