//! The parts of a table in its record, which needn't make a table.

ghost use Rattle.std.specs.Prelude.{◌≡◌};
ghost use Rattle.pk_catalog.specs.Reading.{Finds, Reads, parts_at, table_at};

use crate::cat_err::CatErr;
use crate::parts::list_of;
use crate::reading::{Found, name_of, u64_of, version_of};
use pk_schema::Column;
use pk_values::{Items, KeyDecl, Name};
use std::alloc::Global;

/// What the record of a table says.
#[derive(Debug, Drop)]
pub struct TableParts {
    pub name: Name,
    pub columns: Items<Column>,
    pub keys: Items<KeyDecl>,
    pub next: u64,
}

/// The parts that the bytes are, with nothing behind them.
#[tactic(auto, unfolding(crate::specs::Reading::table_at))]
pub(crate) fn table_parts(alloc: Global, bytes: &[u8]) -> Result<TableParts, CatErr>
    ensures { Reads result (table_at bytes.now) }
{
    let (parts, rest) = parts_of(alloc, bytes)?;
    if rest.is_empty() {
        Ok(parts)
    } else {
        Err(CatErr::Bad)
    }
}

#[tactic(auto, unfolding(crate::specs::Reading::parts_at))]
fn parts_of(alloc: Global, bytes: &[u8]) -> Found<'_, TableParts>
    ensures { Finds result (parts_at bytes.now) }
{
    let (_version, rest) = version_of(bytes)?;
    let (next, rest) = u64_of(rest)?;
    let (name, rest) = name_of(alloc, rest)?;
    let (columns, rest) = list_of(alloc, rest)?;
    let (keys, rest) = list_of(alloc, rest)?;
    let parts = TableParts {
        name,
        columns,
        keys,
        next,
    };
    Ok((parts, rest))
}
