//! The tests of the crates that speak of a table's columns and keys: pk_schema, pk_imply, pk_examples and
//! pk_guard. They stand in a crate of their own, on which nothing stands, so that what they try is proved
//! once, and not once more with its tests.
//!
//! Tables and keys come from scripts, and rows and answers are spelled by letters (`declared`), so that
//! each test is a table of short texts.
#![tactic(auto)]

#[cfg(test)]
mod declared;
#[cfg(test)]
mod examples;
#[cfg(test)]
mod guard;
#[cfg(test)]
mod imply;
#[cfg(test)]
mod listing;
#[cfg(test)]
mod schema;
