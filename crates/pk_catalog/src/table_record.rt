//! The records of tables: what is known of one but its rows.

ghost use Rattle.std.specs.Prelude.{◌≡◌, ◌≤◌, length, IfOk, IsTrue};
ghost use Rattle.pk_catalog.specs.Records.{IsTable, IsTableRecord, Gets};
ghost use Rattle.pk_catalog.specs.Making.{IsOfParts, is_head};
ghost use Rattle.pk_values.specs.Name.{is_name};

use crate::base_record::MOST_NUMBER;
use crate::cat_err::CatErr;
use crate::columns::{put_columns, put_name};
use crate::keys::put_keys;
use crate::making::schema_of;
use crate::reading::VERSION;
use crate::table_parts::{TableParts, table_parts};
use pk_schema::Schema;
use pk_syntax::is_reserved;
use pk_values::{Bytes, Memory, Name};
use std::alloc::Global;

/// A table without its rows.
#[derive(Debug, Drop)]
pub struct TableRecord {
    pub name: Name,
    pub schema: Schema,
    /// The id of the row that is put next, from 1 to 2^62.
    pub next: u64,
}

/// The record of a table, of a name of at most 255 bytes that is no word of the grammar and of a next id from 1 to 2^62.
pub fn put_table(alloc: Global, table: &TableRecord) -> Result<Bytes, Memory>
    requires { IsTable table.now }
    ensures { IfOk result (λ bytes. IsTableRecord bytes table.now) }
{
    let mut out = Vec::new(alloc);
    out.push(VERSION)?;
    out.extend_from_slice(&table.next.to_be_bytes())?;
    put_name(&mut out, &table.name)?;
    put_columns(&mut out, table.schema.columns())?;
    put_keys(&mut out, table.schema.keys())?;
    Ok(Bytes::from_vec(out))
}

/// The table whose record the bytes are. `Bad` comes exactly where they are no such record: where they are cut short or go
/// on, where a name is none or a word of the grammar, where the next id is out of its range, and where the columns and
/// keys make no schema.
pub fn get_table(alloc: Global, bytes: &[u8]) -> Result<TableRecord, CatErr>
    ensures { Gets (IsTableRecord bytes.now) result }
{
    match table_parts(alloc, bytes) {
        Ok(parts) => table_of(alloc, parts),
        Err(error) => Err(error),
    }
}

// The table that has these parts.
fn table_of(alloc: Global, parts: TableParts) -> Result<TableRecord, CatErr>
    requires { length parts.name ≤ 255 }
    ensures { Gets (IsOfParts parts) result }
{
    if has_head(&parts) {
        headed(alloc, parts)
    } else {
        Err(CatErr::Bad)
    }
}

// Whether a table may have this next id and this name, which isn't too long.
fn has_head(parts: &TableParts) -> bool
    ensures head { result ≡ is_head parts.now.next parts.now.name }
    ensures name { IsTrue (is_name parts.now.name) }
{
    let name = parts.name.as_slice();
    parts.next >= 1 && (parts.next <= MOST_NUMBER && !is_reserved(name))
}

// The table of parts that begin as one.
#[tactic(auto, using(crate::proofs::TableMaking::table_made, crate::proofs::TableMaking::table_unmade))]
fn headed(alloc: Global, parts: TableParts) -> Result<TableRecord, CatErr>
    requires short { length parts.name ≤ 255 }
    requires head { IsTrue (is_head parts.next parts.name) }
    requires name { IsTrue (is_name parts.name) }
    ensures { Gets (IsOfParts parts) result }
{
    let TableParts {
        name,
        columns,
        keys,
        next,
    } = parts;
    match schema_of(alloc, columns, keys.as_slice()) {
        Ok(schema) => Ok(TableRecord { name, schema, next }),
        Err(error) => Err(error),
    }
}
