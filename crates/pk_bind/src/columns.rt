//! Columns that a statement names.

ghost use Rattle.std.specs.Prelude.{◌≡◌, IfOk};
ghost use Rattle.std.specs.Option.{option_copied, option_map};
ghost use Rattle.pk_values.specs.Refusals.{first_by};
ghost use Rattle.pk_bind.specs.Columns.{no_column, column_at};

use pk_schema::{Column, Schema, column_named};
use pk_values::{Memory, Name, Refusal};

/// The name is no column of the table.
pub(crate) fn no_column(
    columns: &[Column],
    table: &Name,
    name: &Name,
) -> Result<Option<Refusal>, Memory>
    ensures { IfOk result (λ r. r ≡ no_column columns.now table.now name.now) }
{
    match column_named(columns, name) {
        Some(_) => Ok(None),
        None => Ok(Some(Refusal::NoColumn {
            column: name.copy()?,
            table: table.copy()?,
        })),
    }
}

/// The first name that is no column of the table.
pub(crate) fn missing_column(
    columns: &[Column],
    table: &Name,
    names: &[Name],
) -> Result<Option<Refusal>, Memory>
    ensures { IfOk result (λ r. r ≡ first_by (no_column columns.now table.now) names.now) }
{
    for name in names {
        if let Some(refusal) = no_column(columns, table, name)? {
            return Ok(Some(refusal));
        }
    }
    Ok(None)
}

/// The refusal of the name that stands twice.
pub(crate) fn twice_refused(name: Option<&Name>) -> Result<Option<Refusal>, Memory>
    ensures { IfOk result (λ r. r ≡ option_map (λ column. Refusal.ColumnTwice column) (option_copied name.entry)) }
{
    match name {
        None => Ok(None),
        Some(name) => Ok(Some(Refusal::ColumnTwice {
            column: name.copy()?,
        })),
    }
}

/// The place of the column of this name. A name that is no column is refused before, so that the place
/// given for it is never used.
pub(crate) fn column_at(schema: &Schema, name: &Name) -> u32
    ensures { result ≡ column_at schema.now.columns name.now }
{
    schema.column_place(name).unwrap_or(0)
}
