//! The open transactions, and the rows as they stood when each began.
//!
//! BEGIN copies nothing. A transaction sees the base as it stood when the transaction began, and what
//! later commits changed is kept for it as before-images: for each row the first commit after its begin
//! that put or removed the row, with the row as it was before that commit. A row without an image stands
//! in the base as it did then. So a `Book` answers three questions of an open transaction: how a row
//! stood at its begin, which commit changed a row since, and which changed a table since.
//!
//! Contracts see a `Book` as the list of its open transactions, each with its session, its base and its
//! images in the order of their rows, and the greatest commit number noted. Nothing else is kept: an
//! image that no open transaction sees isn't in that list. What this says of rows is in `laws`.
#![tactic(auto)]

mod before;
mod book;
mod conflict;
mod image;
mod laws;
mod row_key;
mod seen;
mod shared_row;
mod transaction;

pub use before::Before;
pub use book::{Book, MOST_OPEN};
pub use conflict::Conflict;
pub use laws::{
    definitions_at_their_edges, images_are_first_changes, rows_stand_as_they_began,
    sessions_are_apart,
};
pub use row_key::RowKey;
pub use seen::Seen;
