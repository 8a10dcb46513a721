use crate::station::Which;

// A call that a station in memory has had. `done` is false where it failed.
#[derive(Debug, Drop)]
pub enum Call {
    // The size of a file, or a part of it, was asked for.
    Look,
    Write {
        which: Which,
        at: u64,
        bytes: Vec<u8>,
        done: bool,
    },
    Sync {
        which: Which,
        done: bool,
    },
    Tell {
        bytes: Vec<u8>,
        done: bool,
    },
}
