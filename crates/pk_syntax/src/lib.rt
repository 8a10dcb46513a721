//! What statements are: declarations, edits, queries, conditions and literals, as they are written, before anything
//! is known of a base. Contracts see a `Statement` as plain data: names as lists of bytes, and `Items` as lists.
//!
//! `is_reserved` tells the words that are no names, and `print_table` the canonical text of a declaration. How
//! a statement is spelled is no matter of this crate.
#![tactic(auto)]

mod condition;
mod declaration;
mod edit;
mod laws;
mod literal;
mod printing;
mod query;
mod statement;
mod words;

pub use condition::{Op, Operand, Test};
pub use declaration::{ColumnDecl, KeyText, TableDecl};
pub use edit::{Delete, Insert, SetPart, Update};
pub use laws::definitions_at_their_edges;
pub use literal::Literal;
pub use printing::print_table;
pub use query::{OrderPart, Select, What};
pub use statement::Statement;
pub use words::is_reserved;
