//! Whether two rows with nulls may be equal on some columns, or must be, and what that says of keys.
//! It stands on pk_values alone.
//!
//! A completion of a table replaces each null by itself, by any whole number or any list of bytes, as
//! its column's kind says. A certain key holds where in every completion no two rows agree on its
//! columns, and a possible key where this is so in some completion. What is proved, for rows that fit
//! their kinds and columns below the width, for tables of any length and also for no columns:
//!
//! - `weak` and `strong` are the definitions, and so tell whether some completion, or every one, has the
//!   two rows agree (`weak_rows_may_agree`, `strong_rows_must_agree`);
//! - a certain key holds exactly where no two distinct places have weakly similar rows, and a possible
//!   key exactly where no two have strongly similar ones (`certain_keys_have_no_weak_pair`,
//!   `possible_keys_have_no_strong_pair`); the first implies the second (`certain_keys_are_possible`);
//! - `fill` gives the values that both rows have in some completion, and those that strongly similar
//!   rows have already (`fill_gives_what_is_common`);
//! - `apart` and `not_same` give the columns that keep two rows from being similar
//!   (`similar_rows_meet_no_difference`).
//!
//! A call visits the columns of its set in ascending order, and stops at the first that decides. None
//! but `fill` takes memory. Contracts hand `columns x`, the list of a set's columns, to definitions over
//! lists, and see a row as the list of its values.
#![tactic(auto)]

mod differences;
mod filling;
mod laws;
mod similarity;
mod width;

pub use differences::{apart, not_same};
pub use filling::fill;
pub use laws::{
    certain_keys_are_possible, certain_keys_have_no_weak_pair, examples_are_computed,
    fill_gives_what_is_common, pairs_stand_at_places, possible_keys_have_no_strong_pair,
    similar_rows_meet_no_difference, similarity_is_symmetric, strong_rows_must_agree,
    weak_rows_may_agree,
};
pub use similarity::{strong, weak};
pub use width::lies_below;
