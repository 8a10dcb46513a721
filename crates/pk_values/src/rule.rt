use crate::column_set::ColSet;

/// A step of the derivation of a key from a declared one.
#[derive(Clone, Copy, Debug, PartialEq, Eq)]
pub enum Rule {
    /// The key with this place, counted from 1, is declared.
    Declared { key: u32 },
    /// A possible key over columns without null is certain.
    Strengthen,
    /// A certain key is possible.
    Weaken,
    /// A key stays one with more columns, here with all of these.
    Extend { to: ColSet },
}
