//! Tests of the run of the program: scripts of every statement, and all their replies. They stand apart from
//! pk_run, which needn't be proved again for them.
#![tactic(auto)]

#[cfg(test)]
mod bytes;
#[cfg(test)]
mod edits;
#[cfg(test)]
mod guide;
#[cfg(test)]
mod keys;
#[cfg(test)]
mod large;
#[cfg(test)]
mod limits;
#[cfg(test)]
mod outside;
#[cfg(test)]
mod running;
#[cfg(test)]
mod scripts;
#[cfg(test)]
mod sizes;
