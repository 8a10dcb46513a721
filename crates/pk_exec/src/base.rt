ghost use Rattle.std.specs.Prelude.{◌≡◌, List, All, IsTrue, IfOk, Some};
ghost use Rattle.std.specs.Option.{option_copied};
ghost use Rattle.pk_values.specs.declared.value.Value.{Value};
ghost use Rattle.pk_schema.specs.Shapes.{Shape};
ghost use Rattle.pk_exec.specs.Rows.{has_id, row_of};
ghost use Rattle.pk_exec.specs.Bases.{edit_for, edits_behind, base_at, IsRowAdmitted};
ghost use Rattle.pk_exec.specs.Seen.{IsAdmitted};
ghost use Rattle.pk_exec.specs.Views.{IsLeft, HasStoreCause};

use crate::table_edits::EditedRow;
use crate::view::View;
use pk_values::{Memory, Row};
use pk_world::StoreErr;

/// A row of the base as the edits leave it: no row where it is gone.
#[derive(Debug, Drop)]
pub(crate) struct BaseRow {
    pub(crate) id: u64,
    /// Whether there is an edit of it.
    pub(crate) edited: bool,
    pub(crate) row: Option<Row>,
}

/// The row of this id of the view as the edits leave it. No edit to come is of a lower id.
pub(crate) fn base_row<V: View>(
    view: &mut V,
    id: u64,
    left: &[EditedRow],
) -> Result<BaseRow, StoreErr>
    requires { IsTrue (has_id (V.rows view.old) id) }
    ensures id { IfOk result (λ base. base.id ≡ id) }
    ensures row { IfOk result (λ base. IsTrue (V.tells view.old) → (row : List Value) → row_of (V.rows view.old) id ≡ Some row → base ≡ base_at left.now (record { id = id; row = row })) }
    ensures admitted { IfOk result (λ base. (s : Shape) → V.fits view.old s → All (IsAdmitted s) left.now → IsRowAdmitted s base.row) }
    ensures view { IsLeft V.View view.old view.new }
    ensures cause { HasStoreCause V.View view.old view.new result }
{
    match edit_for(left, id) {
        Some(edit) => Ok(BaseRow {
            id,
            edited: true,
            row: copied(&edit.row)?,
        }),
        None => Ok(BaseRow {
            id,
            edited: false,
            row: Some(view.row(id)?),
        }),
    }
}

// The first edit, if it is of this row.
fn edit_for(left: &[EditedRow], id: u64) -> Option<&EditedRow>
    ensures { option_copied result ≡ edit_for left.now id }
{
    let (first, _) = left.split_first()?;
    if first.id == id { Some(first) } else { None }
}

/// The edits without that of this row, which is the first if there is one.
pub(crate) fn edits_behind(left: &[EditedRow], id: u64) -> &[EditedRow]
    ensures { result.now ≡ edits_behind left.now id }
{
    match left.split_first() {
        Some((first, rest)) => { if first.id == id { rest } else { left } }
        None => left,
    }
}

fn copied(row: &Option<Row>) -> Result<Option<Row>, Memory>
    ensures { IfOk result (λ copy. copy ≡ row.now) }
{
    match row {
        Some(row) => Ok(Some(row.copy()?)),
        None => Ok(None),
    }
}
