//! A table's rows as an open transaction sees them: as they stood when it began.
//!
//! Nothing is copied at a begin. A `Snapshot` is a view that joins the rows as they are now with the
//! before-images that a `Book` keeps for the session: a row that no commit since has changed is read from
//! the rows of now, any other from its image. Contracts see it as the list of rows that it stands for,
//! `rows_seen`. That these are the rows that the transaction found is stated in `laws`.
#![tactic(auto)]

mod laws;
mod places;
mod snapshot;

pub use laws::{
    commits_leave_what_is_seen, definitions_at_their_edges, rows_are_known_by_their_ids,
    rows_begun_are_by_their_ids, transactions_see_their_base,
};
pub use snapshot::Snapshot;

#[cfg(test)]
mod tests;
