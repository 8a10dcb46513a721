//! The gated log: a list of payloads in a file, to which payloads are appended one by one.
//!
//! Each payload lies in a frame behind a gate, a byte that is 1 where the frame counts. An append writes its frame and a
//! closed gate behind it while its own gate is closed, syncs, and only then opens the gate and syncs again. So whatever
//! moment a crash falls into, the file holds the whole list, or that list and the payload that was being appended.
//!
//! A `Log` doesn't hold the list: it stands for one together with its station (`Stands` of `specs/Stands.antt`), and each
//! clause is for whatever list that is. `LogHolds` of `specs/Format.antt` says which bytes hold which list.
#![tactic(auto)]

mod extent;
mod laws;
mod log;
mod log_err;
mod opening;
mod steps;

pub use laws::{a_log_has_one_list, counts_are_the_lists, example_is_held};
pub use log::{Log, MOST_PAYLOAD};
pub use log_err::LogErr;

#[cfg(test)]
mod tests;
