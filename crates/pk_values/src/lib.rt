//! Values, rows, names, sets of columns, keys and refusals: the words that every other crate of Keytab
//! speaks in.
//!
//! Contracts see `Items` as a list, `Bytes`, `Name` and `Words` as lists of bytes, `Row` as a list of
//! values, and `ColSet` as the number with a bit for each of its columns, which `columns` lists.
//! `Value`, `Placed`, `Refusal` and the others are plain data whose parts show so, and two of them are
//! equal where they read the same. `laws` says what holds of sets and of the order of values.
#![tactic(auto)]

mod broken;
mod bytes;
mod changes;
mod column_set;
mod items;
mod key;
mod kind;
mod laws;
mod memory;
mod name;
mod placed;
mod refusal;
mod row;
mod rule;
mod value;
mod words;

pub use broken::Break;
pub use bytes::Bytes;
pub use changes::Changes;
pub use column_set::{COLUMN_LIMIT, ColSet};
pub use items::Items;
pub use key::{KeyDecl, Sort};
pub use kind::Kind;
pub use laws::{
    columns_are_the_members, example_is_kept, records_tell_rows, same_columns_are_one_set,
    sets_are_ordered, subset_is_inclusion, values_are_ordered,
};
pub use memory::Memory;
pub use name::Name;
pub use placed::Placed;
pub use refusal::{BaseLimitName, LimitName, Refusal, SetsName};
pub use row::{MOST_COLUMNS, Row};
pub use rule::Rule;
pub use value::Value;
pub use words::{MOST_BYTES, Words, WordsErr};
