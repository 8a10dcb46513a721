use pk_values::{ColSet, Row, Sort};

/// A largest set of columns whose key of this sort a schema doesn't imply, and a table of the schema in
/// which that key fails.
#[derive(Debug, Drop)]
pub struct Case {
    pub sort: Sort,
    pub columns: ColSet,
    /// The two rows of the table, as `two_rows` gives them for the key.
    pub low: Row,
    pub high: Row,
}
