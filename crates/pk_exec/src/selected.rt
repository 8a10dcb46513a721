use pk_values::{Items, Name, Value};

/// What a SELECT tells.
#[derive(Debug, Drop)]
pub struct Selected {
    /// The names of the columns that are told; none where rows are counted alone.
    pub header: Items<Name>,
    /// The values of these columns in each row taken, in order; an empty row for each where they are
    /// counted alone.
    pub rows: Items<Items<Value>>,
}
