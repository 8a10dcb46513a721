//! SELECT, and all rows.

ghost use Rattle.std.specs.Prelude.{◌≡◌, [], map, All, IsTrue, IfOk};
ghost use Rattle.pk_syntax.specs.Declarations.{names_of};
ghost use Rattle.pk_syntax.specs.Given.{cond_has_utf8};
ghost use Rattle.pk_schema.specs.Shapes.{Shape};
ghost use Rattle.pk_schema.specs.Admits.{Admits};
ghost use Rattle.pk_bind.specs.Fitting.{shown_fits};
ghost use Rattle.pk_bind.specs.Select.{select_refusals, selection_of};
ghost use Rattle.pk_exec.specs.Entries.{row_in};
ghost use Rattle.pk_bind.specs.declared.selection.Shown.TheVariants.{Count};
ghost use Rattle.pk_exec.specs.Reading.{CanTake, seen_rows};
ghost use Rattle.pk_exec.specs.Selecting.{selected, shown, sorted_by};
ghost use Rattle.pk_exec.specs.Works.{edits_at};
ghost use Rattle.pk_exec.specs.Seen.{Covers, Fits, entries_of};
ghost use Rattle.pk_exec.specs.Answers.{Answers};
ghost use Rattle.pk_exec.specs.Views.{IsLeft, HasCause, HasStoreCause};

use crate::exec_err::ExecErr;
use crate::ordering::sort_rows;
use crate::reading::{counted_rows, taken_rows};
use crate::selected::Selected;
use crate::showing::{empty_rows, header, shown_rows};
use crate::view::View;
use crate::work::Work;
use pk_bind::{Bound, OrderBy, Selection, Shown, bind_select};
use pk_logic::Cond;
use pk_schema::{Column, Schema};
use pk_syntax::Select;
use pk_values::{Items, Row};
use pk_world::StoreErr;

impl Work {
    /// What a SELECT tells.
    pub fn select<V: View>(
        &self,
        schema: &Schema,
        table: u32,
        view: &mut V,
        select: &Select,
    ) -> Result<Selected, ExecErr>
        requires view { V.fits view.old schema.now }
        requires fits { Fits self.now schema.now table }
        requires covers { Covers self.now table (V.rows view.old) }
        requires texts { IsTrue (cond_has_utf8 select.now.cond) }
        ensures answer { IsTrue (V.tells view.old) → Answers (select_refusals schema.now select.now) (selected (selection_of schema.now.columns select.now) (names_of schema.now.columns) (entries_of self.now table (V.rows view.old))) result }
        ensures view { IsLeft V.View view.old view.new }
        ensures cause { HasCause V.View view.old view.new result }
    {
        match bind_select(self.alloc, schema, select)? {
            Bound::Refused(refusal) => Err(ExecErr::Refused(refusal)),
            Bound::Ready(selection) => Ok(self.told(schema.columns(), table, view, &selection)?),
        }
    }

    /// All rows that the transaction sees.
    pub fn rows<V: View>(&self, table: u32, view: &mut V) -> Result<Items<Row>, StoreErr>
        requires covers { Covers self.now table (V.rows view.old) }
        ensures rows { IfOk result (λ rows. IsTrue (V.tells view.old) → rows ≡ map row_in (entries_of self.now table (V.rows view.old))) }
        ensures admitted { IfOk result (λ rows. (s : Shape) → V.fits view.old s → Fits self.now s table → All (Admits s) rows) }
        ensures view { IsLeft V.View view.old view.new }
        ensures cause { HasStoreCause V.View view.old view.new result }
    {
        let (edited, added) = self.edits_of(table);
        let rows = taken_rows(self.alloc, view, edited, added, &None)?;
        Ok(Items::from_vec(rows))
    }

    // What the selection tells.
    fn told<V: View>(
        &self,
        columns: &[Column],
        table: u32,
        view: &mut V,
        selection: &Selection,
    ) -> Result<Selected, StoreErr>
        requires can { CanTake V.View view.old (edits_at self.now table).edited (edits_at self.now table).added selection.now.cond }
        requires shown { IsTrue (shown_fits columns.now selection.now.shown) }
        ensures told { IfOk result (λ told. IsTrue (V.tells view.old) → told ≡ shown selection.now.shown (names_of columns.now) selection.now.order (seen_rows self.now table (V.rows view.old) selection.now.cond)) }
        ensures view { IsLeft V.View view.old view.new }
        ensures cause { HasStoreCause V.View view.old view.new result }
    {
        let order = selection.order.as_slice();
        match &selection.shown {
            Shown::Columns(shown) => {
                let header = header(self.alloc, columns, shown.as_slice())?;
                let rows = self.ordered(table, view, &selection.cond, order)?;
                Ok(Selected {
                    header,
                    rows: shown_rows(self.alloc, rows.as_slice(), shown.as_slice())?,
                })
            }
            Shown::Count => self.counted(table, view, &selection.cond),
        }
    }

    // The rows that meet the condition, in order.
    fn ordered<V: View>(
        &self,
        table: u32,
        view: &mut V,
        cond: &Option<Cond>,
        order: &[OrderBy],
    ) -> Result<Vec<Row>, StoreErr>
        requires can { CanTake V.View view.old (edits_at self.now table).edited (edits_at self.now table).added cond.now }
        ensures told { IfOk result (λ rows. IsTrue (V.tells view.old) → rows.items ≡ sorted_by order.now (seen_rows self.now table (V.rows view.old) cond.now)) }
        ensures view { IsLeft V.View view.old view.new }
        ensures cause { HasStoreCause V.View view.old view.new result }
    {
        let (edited, added) = self.edits_of(table);
        let mut rows = taken_rows(self.alloc, view, edited, added, cond)?;
        sort_rows(&mut rows, order)?;
        Ok(rows)
    }

    // An empty row for each that meets the condition.
    fn counted<V: View>(
        &self,
        table: u32,
        view: &mut V,
        cond: &Option<Cond>,
    ) -> Result<Selected, StoreErr>
        requires can { CanTake V.View view.old (edits_at self.now table).edited (edits_at self.now table).added cond.now }
        ensures told { IfOk result (λ told. IsTrue (V.tells view.old) → told ≡ shown Count [] [] (seen_rows self.now table (V.rows view.old) cond.now)) }
        ensures view { IsLeft V.View view.old view.new }
        ensures cause { HasStoreCause V.View view.old view.new result }
    {
        let (edited, added) = self.edits_of(table);
        let n = counted_rows(view, edited, added, cond)?;
        Ok(Selected {
            header: Items::from_vec(Vec::new(self.alloc)),
            rows: empty_rows(self.alloc, n)?,
        })
    }
}
