//! Tests of pk_catalog. They stand apart from it, so that it needn't be proved again for them.
#![tactic(auto)]

#[cfg(test)]
mod damage;
#[cfg(test)]
mod examples;
#[cfg(test)]
mod grammar;
#[cfg(test)]
mod limits;
#[cfg(test)]
mod spelled;
