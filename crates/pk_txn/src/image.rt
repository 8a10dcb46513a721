use crate::shared_row::SharedRow;

/// What the first commit after a transaction's begin changed at a row.
#[derive(Drop)]
pub(crate) struct Image {
    /// The commit's number.
    pub(crate) commit: u64,
    /// The row before it, `None` where it wasn't there.
    pub(crate) row: Option<SharedRow>,
}
