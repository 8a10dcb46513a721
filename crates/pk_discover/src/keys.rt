use pk_values::{ColSet, Items};

/// The minimal keys of some rows.
#[derive(Debug, Drop)]
pub struct Keys {
    /// The minimal sets of columns on which no two rows may be equal, in order, each once.
    pub certain: Items<ColSet>,
    /// The minimal sets of columns on which no two rows are known to be equal, in order, each once.
    pub possible: Items<ColSet>,
}
