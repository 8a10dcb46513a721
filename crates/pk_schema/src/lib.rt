//! Schemas: the columns and keys of a table, valid by their type.
//!
//! A `Schema` is made from a declaration by `make`, which says what a declaration is refused for, and in
//! which order. Contracts see it as a `Shape`: the declared columns, and the keys as sets of them.
//! `admits` tells what is wrong with a row, if anything is.
#![tactic(auto)]

mod admitting;
mod declaring;
mod known;
mod laws;
mod making;
mod named;
mod schema;
mod sets;

pub use admitting::RowFault;
pub use laws::{
    admitted_rows_fit, declarations_make_shapes, declarations_make_the_same,
    definitions_at_their_edges, first_cause_is_told, sets_are_inside, sets_hold_their_columns,
};
pub use making::MakeErr;
pub use named::{Named, column_named, column_place, copied_column, copied_columns, twice};
pub use pk_syntax::ColumnDecl as Column;
pub use schema::Schema;
pub use sets::key_of;
