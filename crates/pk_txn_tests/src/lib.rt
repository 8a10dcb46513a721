//! Tests of pk_txn. They stand apart from it, so that it needn't be proved again for them.
#![tactic(auto)]

#[cfg(test)]
mod calls;
#[cfg(test)]
mod scripts;
#[cfg(test)]
mod sizes;
