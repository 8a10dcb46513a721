/// Which row: the number of its table in the file, and its id. By table first, then by id.
#[derive(Clone, Copy, Debug, PartialEq, Eq, PartialOrd, Ord)]
pub struct RowKey {
    pub table: u32,
    pub id: u64,
}
