ghost use Rattle.std.specs.Prelude.{◌≡◌};
ghost use Rattle.pk_txn.specs.Contents.{key_of};

use crate::row_key::RowKey;
use pk_values::Row;

/// A row as it was before a commit that changed it.
#[derive(Debug, Drop)]
pub struct Before {
    /// The number of its table in the file.
    pub table: u32,
    pub id: u64,
    /// The row, `None` where it wasn't there.
    pub row: Option<Row>,
}

impl Before {
    /// Which row it was.
    pub(crate) fn key(&self) -> RowKey
        ensures { result ≡ key_of self.now }
    {
        RowKey {
            table: self.table,
            id: self.id,
        }
    }
}
