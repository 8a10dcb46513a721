//! The outside: where a script comes from, the two files of a base, where replies go, and all of it in memory.
//!
//! A `Source` and a `Station` may be real, and then nobody can say which bytes come or arrive. So each
//! has a ghost member `tells`, and what a clause says of bytes stands under the premise that it is
//! true. Each counts its own faults, and an answer that blames the outside shows a count that rose.
//!
//! What a crash may leave is said of a `Station` that is honest: `specs/Disk.antt` has the model in plain words, and
//! `a_station_in_memory_is_honest` that the one in memory keeps to it. Nobody can prove that of a real disk.
#![tactic(auto)]

mod call;
mod crash;
mod device_err;
mod laws;
mod left;
mod memory_files;
mod memory_source;
mod memory_station;
mod open_err;
mod page;
mod recording;
mod source;
mod station;
mod store_err;
mod through;

pub use device_err::DeviceErr;
pub use laws::a_station_in_memory_is_honest;
pub use left::Left;
pub use memory_source::MemorySource;
pub use memory_station::MemoryStation;
pub use open_err::OpenErr;
pub use page::{PAGE_BYTES, Page};
pub use source::{Pull, Source};
pub use station::{Failed, Station, Which};
pub use store_err::StoreErr;
pub use through::{look, write_through};

#[cfg(test)]
mod tests;
