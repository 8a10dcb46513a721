ghost use Rattle.std.specs.Prelude.{◌≡◌, ◌++◌, codes, OnOk};
ghost use Rattle.std.specs.List.{flat_map, join_by};
ghost use Rattle.pk_report.specs.Text.{line, barred};
ghost use Rattle.pk_report.specs.Part.{part_text};

use crate::part::Part;
use crate::shown::Shown;
use pk_values::Memory;

/// Writes the parts one behind the other, as a line.
pub(crate) fn write_line(out: &mut Vec<u8>, parts: &[Part<'_>]) -> Result<(), Memory>
    ensures { OnOk result (out.new.items ≡ out.old.items ++ line (flat_map part_text parts.now)) }
{
    for part in parts {
        part.write_to(out)?;
    }
    out.push(b'\n')?;
    Ok(())
}

/// Writes the items with a bar between each two, as a line.
pub(crate) fn write_barred<T: Shown>(out: &mut Vec<u8>, items: &[T]) -> Result<(), Memory>
    ensures { OnOk result (out.new.items ≡ out.old.items ++ barred T.text items.now) }
{
    write_joined(out, b"|", items)?;
    out.push(b'\n')?;
    Ok(())
}

/// Writes the items with these bytes between each two.
pub(crate) fn write_joined<T: Shown>(
    out: &mut Vec<u8>,
    between: &[u8],
    items: &[T],
) -> Result<(), Memory>
    ensures { OnOk result (out.new.items ≡ out.old.items ++ join_by T.text between.now items.now) }
{
    let Some((first, rest)) = items.split_first() else {
        return Ok(());
    };
    first.write_to(out)?;
    write_others(out, between, rest)
}

// Writes each item with these bytes before it.
fn write_others<T: Shown>(out: &mut Vec<u8>, between: &[u8], items: &[T]) -> Result<(), Memory>
    ensures { OnOk result (out.new.items ≡ out.old.items ++ flat_map (λ x. between.now ++ T.text x) items.now) }
{
    for item in items {
        out.extend_from_slice(between)?;
        item.write_to(out)?;
    }
    Ok(())
}
