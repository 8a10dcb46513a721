//! From the tokens of a piece to its statement, as pk_syntax has it.
//!
//! `statements`, `create`, `edits`, `queries`, `conditions` and `literals` read what their names say. Each reader
//! takes tokens and gives what stands at their front and the tokens behind it.
#![tactic(auto)]

mod conditions;
mod create;
mod declared;
mod edits;
mod law;
mod lists;
mod literals;
mod miss;
mod parsing;
mod queries;
mod statements;
mod table_part;
mod tokens;
mod where_clause;

pub use conditions::{conditions_are_read, conditions_at_their_edges};
pub use law::{edges_are_read, grammar_is_read, printed_tables_read_back, what_is_parsed_is_given};
pub use parsing::{ParseErr, parse};
