/// Where something is stored: the number of a table, and an id in it. By table first, then by id.
#[derive(Clone, Copy, Debug, PartialEq, Eq, PartialOrd, Ord)]
pub struct Place {
    pub table: u32,
    pub id: u64,
}
