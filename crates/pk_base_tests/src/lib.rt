//! Tests of the crates that stand on pk_values alone, and of pk_values itself. They stand apart from these crates, which
//! needn't be proved again for them.
#![tactic(auto)]

#[cfg(test)]
mod cases;
#[cfg(test)]
mod lex;
#[cfg(test)]
mod logic;
#[cfg(test)]
mod report;
#[cfg(test)]
mod sets;
#[cfg(test)]
mod similar;
#[cfg(test)]
mod spelled;
#[cfg(test)]
mod threads;
#[cfg(test)]
mod values;
