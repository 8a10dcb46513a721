use crate::column_set::ColSet;

/// What a key promises.
#[derive(Clone, Copy, Debug, PartialEq, Eq)]
pub enum Sort {
    /// In every completion of the table no two rows agree on the key.
    Certain,
    /// In some completion of the table no two rows agree on the key.
    Possible,
}

/// A key over columns of a table.
#[derive(Clone, Copy, Debug, PartialEq, Eq)]
pub struct KeyDecl {
    pub sort: Sort,
    pub columns: ColSet,
}
