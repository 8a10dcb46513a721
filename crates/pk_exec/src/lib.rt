//! A transaction's edits, over any view of a table's rows.
//!
//! A `View` stands for the rows that a session sees of a table before its own edits. A `Work` is those
//! edits: for each table the rows of the base that it changed or took away, and its new rows. Contracts
//! see it as `Edits`. What the two show together is a list of entries, `entries_of`, and each statement
//! is one function on such lists: `inserted_into`, `updated`, `deleted`, `selected`. At a commit
//! `changes` tells what becomes of the base.
#![tactic(auto)]

mod base;
mod change;
mod conditions;
mod draft;
mod exec_err;
mod insert_err;
mod laws;
mod list_view;
mod ordering;
mod reading;
mod selected;
mod setting;
mod showing;
mod table_edits;
mod view;
mod work;

pub use exec_err::ExecErr;
pub use insert_err::InsertErr;
pub use laws::{covered_rows_are_there, ids_are_no_lower, orders_are_total};
pub use list_view::ListView;
pub use selected::Selected;
pub use view::View;
pub use work::{MOST_CHANGES, Work};
