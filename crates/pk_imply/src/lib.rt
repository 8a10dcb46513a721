//! What the declared keys of a schema imply: which of them implies another key, by which rules, and the
//! least keys that say the same.
//!
//! A key is implied where it holds in every table of the schema (`Implied` of pk_rule), and the code
//! looks at sets of columns alone. What is proved:
//!
//! - `asked_key` tells which key is asked about, by the names of its columns, or why there is none;
//! - `implies` tells the first declared key that alone implies another, over all tables, and none exactly
//!   where all declared keys together don't imply it (`places_are_true_of_tables`);
//! - `derive` tells the rules that lead from that key to the other (`rules_lead_to_the_key`), and whatever
//!   rules lead to a key, it is implied (`derivations_are_sound`);
//! - `cover` gives the cover: the keys over minimal sets of columns, without the possible keys that a
//!   certain one makes superfluous. There is one such list (`one_list_is_the_cover`), which the columns of
//!   the declared keys compute (`the_cover_is_computed`). It implies what the declared keys imply
//!   (`the_cover_implies_the_same`), none of its keys is implied by the others
//!   (`the_cover_has_none_to_spare`), and they all are in each list that implies the same and names as
//!   certain what is (`the_cover_is_in_each_equal`).
//!
//! `implies` takes no memory. Contracts see a schema as its shape, and `plain_of` that as its kinds, its
//! NOT NULL columns and its keys.
#![tactic(auto)]

mod asking;
mod covering;
mod derivation;
mod implying;
mod laws;
mod least_sets;

pub use asking::{AskErr, asked_key};
pub use covering::cover;
pub use derivation::derive;
pub use implying::implies;
pub use laws::{
    definitions_at_their_edges, derivations_are_sound, examples_are_computed,
    one_list_is_the_cover, places_are_true_of_tables, rules_lead_to_the_key,
    the_cover_has_none_to_spare, the_cover_implies_the_same, the_cover_is_computed,
    the_cover_is_in_each_equal, the_rule_tells_the_cover,
};
