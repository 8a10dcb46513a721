//! Tests of what statements do to rows: `bind` tries what pk_bind says of them over a schema, `exec` what
//! pk_exec makes of them in a transaction. Statements and schemas come from `scripts`, and what is told
//! of them is spelled in bytes, by `telling`.
//!
//! The tests stand apart from what they try, so that no edit of a test has those crates proved anew.
#![tactic(auto)]

#[cfg(test)]
mod bind;
#[cfg(test)]
mod exec;
#[cfg(test)]
mod scripts;
#[cfg(test)]
mod telling;
