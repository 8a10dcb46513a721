//! The bytes of a base: how files keep its tables and rows, and which bytes stand for which base.
//!
//! Three sorts of records are written and read: a base has one, each table has one, and each row. A record is read
//! exactly where its bytes are in the grammar of `specs/Records.antt`; all other bytes are `Bad`, and nothing is guessed.
//! What was written is read again, a row by each schema that admits it.
//!
//! `specs/Bases.antt` says which map from places to records stands for which base, `specs/BaseMaps.antt` what such maps are,
//! said of the maps alone, and `specs/Batches.antt` what a commit does to a map. Places are pairs of numbers there, so that
//! this crate knows nothing of how maps are kept.
#![tactic(auto)]

mod base_record;
mod cat_err;
mod columns;
mod keys;
mod laws;
mod making;
mod parts;
mod reading;
mod row_record;
mod table_parts;
mod table_record;

pub use base_record::{get_base, put_base};
pub use cat_err::CatErr;
pub use laws::{
    a_map_stands_for_one_base, bases_at_their_edges, bases_have_maps, batches_are_commits,
    maps_of_bases, maps_of_no_base, new_tables_have_numbers, records_at_their_edges,
    records_tell_one, rows_have_records,
};
pub use row_record::{get_row, put_row};
pub use table_record::{TableRecord, get_table, put_table};
