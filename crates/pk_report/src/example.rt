use pk_values::{ColSet, Row, Sort};

/// A key that a schema doesn't imply, with two rows that are a table of the schema and break it.
#[derive(Debug, Drop)]
pub struct Example {
    pub sort: Sort,
    pub columns: ColSet,
    pub low: Row,
    pub high: Row,
}
