/// A row that a commit changed after a transaction began, and the number of the first such commit.
#[derive(Clone, Copy, Debug, PartialEq, Eq)]
pub struct Conflict {
    pub id: u64,
    pub commit: u64,
}
