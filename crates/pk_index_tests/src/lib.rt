//! Tests of pk_index. They stand apart from it, so that it needn't be proved again for them.
#![tactic(auto)]

#[cfg(test)]
mod certain;
#[cfg(test)]
mod possible;
#[cfg(test)]
mod spelled;
