use crate::items::Items;
use crate::placed::Placed;

/// What a commit changes of one table: both lists ascend by id and have no id in common.
#[derive(Debug, Drop)]
pub struct Changes {
    /// The ids of the rows that go.
    pub gone: Items<u64>,
    /// The rows that are put, in place of the row with their id where there is one.
    pub put: Items<Placed>,
}
