ghost use Rattle.std.specs.Prelude.{◌≡◌, IfOk};
ghost use Rattle.pk_bind.specs.Fitting.{with_sets};
ghost use Rattle.pk_exec.specs.Fates.{CanSet};

use pk_bind::SetTo;
use pk_values::{Memory, Row};

/// The row with each new value in its column, from left to right.
pub(crate) fn set_values(sets: &[SetTo], row: Row) -> Result<Row, Memory>
    requires { CanSet sets.now row }
    ensures { IfOk result (λ new. new ≡ with_sets sets.now row) }
{
    let mut row = row;
    for set in sets {
        row.set(set.column, set.value.copy()?);
    }
    Ok(row)
}
