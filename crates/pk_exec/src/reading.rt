ghost use Rattle.std.specs.Prelude.{◌≡◌, ◌+◌, ◌++◌, [], length, All, IsTrue, IfOk, OnOk, if◌then◌else◌};
ghost use Rattle.pk_schema.specs.Shapes.{Shape};
ghost use Rattle.pk_schema.specs.Admits.{Admits};
ghost use Rattle.pk_exec.specs.Bases.{base_rows, rows_in};
ghost use Rattle.pk_exec.specs.Fates.{CanJudge};
ghost use Rattle.pk_exec.specs.Reading.{kept_rows, row_list, CanTake, CanJudgeRow};
ghost use Rattle.pk_exec.specs.Seen.{IsAdmitted};
ghost use Rattle.pk_exec.specs.Views.{IsLeft, HasStoreCause};

use crate::base::{base_row, edits_behind};
use crate::conditions::takes;
use crate::table_edits::EditedRow;
use crate::view::View;
use pk_logic::Cond;
use pk_values::{Memory, Row};
use pk_world::StoreErr;
use std::alloc::Global;

/// The rows that meet the condition: those of the base as the edits leave them, then the new ones.
pub(crate) fn taken_rows<V: View>(
    alloc: Global,
    view: &mut V,
    edited: &[EditedRow],
    added: &[Row],
    cond: &Option<Cond>,
) -> Result<Vec<Row>, StoreErr>
    requires can { CanTake V.View view.old edited.now added.now cond.now }
    ensures told { IfOk result (λ rows. IsTrue (V.tells view.old) → rows.items ≡ kept_rows cond.now (rows_in (base_rows edited.now (V.rows view.old)) ++ added.now)) }
    ensures admitted { IfOk result (λ rows. (s : Shape) → V.fits view.old s → All (IsAdmitted s) edited.now → All (Admits s) added.now → All (Admits s) rows.items) }
    ensures view { IsLeft V.View view.old view.new }
    ensures cause { HasStoreCause V.View view.old view.new result }
{
    let mut rows = Vec::new(alloc);
    take_base(&mut rows, view, edited, cond)?;
    take_added(&mut rows, added, cond)?;
    Ok(rows)
}

// Takes the rows of the base, in the order of their ids.
fn take_base<V: View>(
    rows: &mut Vec<Row>,
    view: &mut V,
    edited: &[EditedRow],
    cond: &Option<Cond>,
) -> Result<(), StoreErr>
    requires can { CanTake V.View view.old edited.now [] cond.now }
    ensures told { OnOk result (IsTrue (V.tells view.old) → rows.new.items ≡ rows.old.items ++ kept_rows cond.now (rows_in (base_rows edited.now (V.rows view.old)))) }
    ensures admitted { OnOk result ((s : Shape) → V.fits view.old s → All (IsAdmitted s) edited.now → All (Admits s) rows.old.items → All (Admits s) rows.new.items) }
    ensures view { IsLeft V.View view.old view.new }
    ensures cause { HasStoreCause V.View view.old view.new result }
{
    let mut at = 0;
    let mut left = edited;
    while let Some(id) = view.next_after(at)? {
        let base = base_row(view, id, left)?;
        left = edits_behind(left, id);
        at = id;
        take_row(rows, base.row, cond)?;
    }
    Ok(())
}

// Takes the new rows, in their order.
fn take_added(rows: &mut Vec<Row>, added: &[Row], cond: &Option<Cond>) -> Result<(), Memory>
    requires { All (CanJudge cond.now) added.now }
    ensures { OnOk result (rows.new.items ≡ rows.old.items ++ kept_rows cond.now added.now) }
{
    for row in added {
        if takes(cond, row) {
            rows.push(row.copy()?)?;
        }
    }
    Ok(())
}

// Takes the row, where there is one and it meets the condition.
fn take_row(rows: &mut Vec<Row>, row: Option<Row>, cond: &Option<Cond>) -> Result<(), Memory>
    requires { CanJudgeRow cond.now row }
    ensures { OnOk result (rows.new.items ≡ rows.old.items ++ kept_rows cond.now (row_list row)) }
{
    let Some(row) = row else {
        return Ok(());
    };
    if takes(cond, &row) {
        rows.push(row)?;
    }
    Ok(())
}

/// How many rows meet the condition.
pub(crate) fn counted_rows<V: View>(
    view: &mut V,
    edited: &[EditedRow],
    added: &[Row],
    cond: &Option<Cond>,
) -> Result<u64, StoreErr>
    requires can { CanTake V.View view.old edited.now added.now cond.now }
    ensures told { IfOk result (λ n. IsTrue (V.tells view.old) → n ≡ length (kept_rows cond.now (rows_in (base_rows edited.now (V.rows view.old)))) + length (kept_rows cond.now added.now)) }
    ensures view { IsLeft V.View view.old view.new }
    ensures cause { HasStoreCause V.View view.old view.new result }
{
    let mut count = 0;
    count_base(&mut count, view, edited, cond)?;
    count_added(&mut count, added, cond)?;
    Ok(count)
}

// Counts the rows of the base, in the order of their ids.
fn count_base<V: View>(
    count: &mut u64,
    view: &mut V,
    edited: &[EditedRow],
    cond: &Option<Cond>,
) -> Result<(), StoreErr>
    requires can { CanTake V.View view.old edited.now [] cond.now }
    ensures told { OnOk result (IsTrue (V.tells view.old) → count.new ≡ count.old + length (kept_rows cond.now (rows_in (base_rows edited.now (V.rows view.old))))) }
    ensures view { IsLeft V.View view.old view.new }
    ensures cause { HasStoreCause V.View view.old view.new result }
{
    let mut at = 0;
    let mut left = edited;
    while let Some(id) = view.next_after(at)? {
        let base = base_row(view, id, left)?;
        left = edits_behind(left, id);
        at = id;
        count_row(count, base.row, cond)?;
    }
    Ok(())
}

// Counts the new rows.
fn count_added(count: &mut u64, added: &[Row], cond: &Option<Cond>) -> Result<(), Memory>
    requires { All (CanJudge cond.now) added.now }
    ensures { OnOk result (count.new ≡ count.old + length (kept_rows cond.now added.now)) }
{
    for row in added {
        count_if(count, takes(cond, row))?;
    }
    Ok(())
}

// Counts the row, where there is one and it meets the condition.
fn count_row(count: &mut u64, row: Option<Row>, cond: &Option<Cond>) -> Result<(), Memory>
    requires { CanJudgeRow cond.now row }
    ensures { OnOk result (count.new ≡ count.old + length (kept_rows cond.now (row_list row))) }
{
    let Some(row) = row else {
        return Ok(());
    };
    count_if(count, takes(cond, &row))
}

// Counts one more, where it is taken. A count of 2^64 is answered as want of memory, as no machine holds
// so many rows.
fn count_if(count: &mut u64, taken: bool) -> Result<(), Memory>
    ensures { OnOk result (count.new ≡ count.old + (if taken then 1 else 0)) }
{
    if !taken {
        return Ok(());
    }
    let Some(sum) = count.checked_add(1) else {
        return Err(Memory);
    };
    *count = sum;
    Ok(())
}
