//! The minimal keys that some rows have. It stands on pk_sweep and pk_transversal, and on pk_similar and
//! pk_values below them.
//!
//! A set of columns is a certain key of rows where no two of them may be equal on it, and a possible key
//! where no two are known to be equal on it; it is minimal where no other such set lies inside it. What is
//! proved:
//!
//! - `discover` gives all minimal keys of both sorts among the subsets of some columns, each once, in the
//!   order of sets (`minimal_keys_are_listed`); or it says exactly where there are too many rows, or too
//!   many sets on the way;
//! - for rows that fit their kinds these are the minimal sets over which a key holds in every completion
//!   of the rows, or in some (`minimal_keys_hold_in_completions`);
//! - the keys are the minimal sets that meet each set of columns in which two rows differ, whatever order
//!   these are met in (`minimal_keys_are_transversals`).
//!
//! Contracts see a set as the number with a bit for each of its columns, and the lists of keys as lists
//! of such numbers.
#![tactic(auto)]

mod disc_err;
mod discovering;
mod keys;
mod laws;

pub use disc_err::DiscErr;
pub use discovering::discover;
pub use keys::Keys;
pub use laws::{
    definitions_at_their_edges, minimal_keys_are_listed, minimal_keys_are_transversals,
    minimal_keys_hold_in_completions,
};
