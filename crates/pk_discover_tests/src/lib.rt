//! Tests of pk_discover, and of pk_sweep and pk_transversal below it. They stand apart from these crates,
//! so that they needn't be proved again for them.
#![tactic(auto)]

#[cfg(test)]
mod cases;
#[cfg(test)]
mod halves;
#[cfg(test)]
mod sets;
#[cfg(test)]
mod sizes;
#[cfg(test)]
mod spelled;
