use pk_values::Row;

/// How a row stood when a transaction began.
#[derive(Debug, Drop)]
pub enum Seen<'a> {
    /// As it stands in the base: no later commit changed it.
    Current,
    /// As this row.
    Was(&'a Row),
    /// It wasn't there.
    Absent,
}
