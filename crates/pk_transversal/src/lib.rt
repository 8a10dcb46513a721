//! The minimal sets of columns that meet every edge, where an edge is a set of columns too. It stands on
//! pk_values alone.
//!
//! A set meets an edge where they share a column, and is minimal where no other set that meets every edge
//! lies inside it. What is proved:
//!
//! - `minimal` gives all of them, each once, in the order of sets, which is the list `transversals`
//!   (`transversals_are_listed`, `one_list_of_transversals`); or it tells the first number of edges that have more
//!   of them than a limit, counted over the edges that contain no other edge, in their order;
//! - these edges have the same minimal sets as all edges (`minimal_edges_say_the_same`), and it changes
//!   nothing in which order edges stand or whether one stands twice (`order_tells_nothing`).
//!
//! The edges are taken one by one: a set that meets the next edge stays, and each other one takes each of
//! its columns, unless that makes a set with a smaller one inside. Contracts see a set as the number with
//! a bit for each of its columns.
#![tactic(auto)]

mod laws;
mod minimal_sets;
mod multiplying;
mod product;
mod trans_err;

pub use laws::{
    definitions_at_their_edges, minimal_edges_say_the_same, minimal_sets_are_listed,
    one_list_of_transversals, order_tells_nothing, transversals_are_listed,
};
pub use multiplying::minimal;
pub use trans_err::TransErr;
