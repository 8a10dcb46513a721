//! Keys that are asked about, by the names of their columns.

ghost use Rattle.std.specs.Prelude.{◌≡◌, ◌<◌, ◌^◌, length, IfOk};
ghost use Rattle.std.specs.Option.{option_copied};
ghost use Rattle.pk_values.specs.Refusals.{first_some};
ghost use Rattle.pk_imply.specs.Asking.{Asks, ask_refusals, missing_in};

use pk_schema::{Schema, column_place, key_of, twice};
use pk_syntax::{ColumnDecl, KeyText};
use pk_values::{KeyDecl, Memory, Name, Refusal};

/// Why no key is asked about.
#[derive(Debug, Drop)]
pub enum AskErr {
    /// Its names are refused.
    Refused(Refusal),
    /// Memory ran out.
    Memory,
}

/// The key over the columns of the schema that are named, in whatever order.
///
/// It is refused by `NoColumn`, in this table, for the first name that is no column, or else by
/// `ColumnTwice` for the first name that has stood before. `Memory` may come at any key.
///
/// Each name is compared with at most 32 columns and 32 other names.
pub fn asked_key(schema: &Schema, table: &Name, key: &KeyText) -> Result<KeyDecl, AskErr>
    ensures asks { Asks table.now schema.now key.now result }
    ensures within { IfOk result (λ asked. asked.columns < 2 ^ length schema.now.columns) }
{
    let columns = schema.columns();
    match refusal(columns, table, key.columns.as_slice()) {
        Ok(None) => Ok(key_of(columns, key)),
        Ok(Some(refusal)) => Err(AskErr::Refused(refusal)),
        Err(_) => Err(AskErr::Memory),
    }
}

// The first refusal of the names that stands.
fn refusal(columns: &[ColumnDecl], table: &Name, names: &[Name]) -> Result<Option<Refusal>, Memory>
    ensures { IfOk result (λ r. r ≡ first_some (ask_refusals table.now columns.now names.now)) }
{
    if let Some(name) = missing_in(columns, names) {
        let column = name.copy()?;
        let table = table.copy()?;
        return Ok(Some(Refusal::NoColumn { column, table }));
    }
    match twice(names) {
        Some(name) => Ok(Some(Refusal::ColumnTwice {
            column: name.copy()?,
        })),
        None => Ok(None),
    }
}

// The first of the names that is no column.
fn missing_in<'a>(columns: &[ColumnDecl], names: &'a [Name]) -> Option<&'a Name>
    ensures { option_copied result ≡ missing_in columns.now names.now }
{
    names
        .iter()
        .find(|name| column_place(columns, name).is_none())
}
