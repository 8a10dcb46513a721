//! Replies, and the one place where a reply becomes bytes. Contracts see a `Reply` as plain data and
//! its text as a list of bytes. `laws` shows every reply and every refusal by its bytes.
#![tactic(auto)]

mod example;
mod keys;
mod laws;
mod line;
mod naming;
mod part;
mod refusing;
mod reply;
mod reporting;
mod shown;

pub use example::Example;
pub use laws::{refusals_are_spelled, replies_are_spelled};
pub use reply::Reply;
pub use reporting::reply_text;
