//! Tests of pk_parse, in a crate of their own on which nothing stands, so that neither a changed test
//! nor the proof of the tests has pk_parse proved again.
//!
//! `telling` has what the others share: what a script is read as, told in few words.
#![tactic(auto)]

#[cfg(test)]
mod conditions;
#[cfg(test)]
mod printing;
#[cfg(test)]
mod statements;
#[cfg(test)]
mod telling;
