ghost use Rattle.std.specs.Prelude.{◌≡◌, ◌++◌, codes, OnOk};
ghost use Rattle.std.specs.List.{flat_map, join_by};
ghost use Rattle.pk_values.specs.ColumnSet.{columns};
ghost use Rattle.pk_report.specs.Text.{name_at, set_text};

use crate::shown::write_bytes;
use pk_values::{ColSet, Memory, Name};

/// Writes the names of the set's columns in parentheses, ascending, with a comma and a blank between
/// each two. Where a column has no name, nothing stands in its place.
pub(crate) fn write_columns(out: &mut Vec<u8>, names: &[Name], set: ColSet) -> Result<(), Memory>
    ensures { OnOk result (out.new.items ≡ out.old.items ++ set_text names.now set) }
{
    out.push(b'(')?;
    write_names(out, names, set)?;
    out.push(b')')?;
    Ok(())
}

// Writes the names with a comma and a blank between each two.
fn write_names(out: &mut Vec<u8>, names: &[Name], set: ColSet) -> Result<(), Memory>
    ensures { OnOk result (out.new.items ≡ out.old.items ++ join_by (name_at names.now) (codes ", ") (columns set)) }
{
    let Some((first, rest)) = set.split_first() else {
        return Ok(());
    };
    write_name(out, names, first)?;
    write_other_names(out, names, rest)
}

// Writes each name with a comma and a blank before it.
fn write_other_names(out: &mut Vec<u8>, names: &[Name], set: ColSet) -> Result<(), Memory>
    ensures { OnOk result (out.new.items ≡ out.old.items ++ flat_map (λ c. codes ", " ++ name_at names.now c) (columns set)) }
{
    let mut left = set;
    while let Some((c, rest)) = left.split_first() {
        out.extend_from_slice(b", ")?;
        write_name(out, names, c)?;
        left = rest;
    }
    Ok(())
}

// Writes the name of a column.
fn write_name(out: &mut Vec<u8>, names: &[Name], c: u32) -> Result<(), Memory>
    ensures { OnOk result (out.new.items ≡ out.old.items ++ name_at names.now c) }
{
    match names.get(c as usize) {
        Some(name) => write_bytes(out, name.as_slice()),
        None => Ok(()),
    }
}
