use pk_values::{Changes, Refusal};

/// What comes of an INSERT, an UPDATE or a DELETE over the rows of its table.
#[derive(Debug, Drop)]
pub enum Outcome {
    /// It takes so many rows, and changes these.
    Done { n: u64, changes: Changes },
    /// It is refused.
    Refused(Refusal),
}
