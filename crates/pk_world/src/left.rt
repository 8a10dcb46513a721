/// How the bytes that were written since a file's last sync come out of a crash.
#[derive(Clone, Copy, Debug, PartialEq, Eq)]
pub enum Left {
    /// As they were at the sync, and the file is as long as it was then.
    Old,
    /// As they were written.
    New,
    /// Each as this byte.
    Fill(u8),
}
