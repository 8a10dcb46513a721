use pk_values::{ColSet, Items};

/// The sets of columns in which two rows of a table differ, over all pairs of distinct places.
#[derive(Debug, Drop)]
pub struct Sets {
    /// The sets of columns in which neither value is null and they differ, in order, each once. Two rows
    /// may be equal on the columns that meet none of theirs.
    pub apart: Items<ColSet>,
    /// The sets of columns in which the values aren't both known and equal, in order, each once.
    pub not_same: Items<ColSet>,
}
