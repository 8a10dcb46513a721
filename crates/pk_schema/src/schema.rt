ghost use Rattle.std.specs.Prelude.{◌≡◌, ◌<◌, length, None, IsTrue, IfOk, IfSome};
ghost use Rattle.pk_values.specs.Refusals.{first_some};
ghost use Rattle.std.specs.List.{range_with_len};
ghost use Rattle.std.specs.Result.{result_err};
ghost use Rattle.pk_values.specs.ColumnSet.{IsColumnSet, columns};
ghost use Rattle.pk_syntax.specs.Declarations.{is_plain};
ghost use Rattle.pk_schema.specs.Shapes.{IsShape, shape_of, all_of, not_null_of, place_of_column, decl_of};
ghost use Rattle.pk_schema.specs.Making.{Makes, schema_refusals};
ghost use Rattle.pk_schema.specs.Admits.{row_fault};

use crate::admitting::{RowFault, size_fault, value_fault, width_fault};
use crate::declaring::key_texts;
use crate::making::{MakeErr, schema_refusal};
use crate::named::{column_place, copied_columns};
use crate::sets::{all_of, keys_of, not_null_of};
use pk_syntax::{ColumnDecl, TableDecl};
use pk_values::{ColSet, Items, KeyDecl, Memory, Name, Row};
use std::alloc::Global;
use std::marker::Model;

/// The columns of a table and the keys over them. Contracts see it as a `Shape`, and each is one that
/// `IsShape` allows.
#[derive(Debug, Drop)]
pub struct Schema {
    columns: Vec<ColumnDecl>,
    keys: Vec<KeyDecl>,
}

impl Model for Schema {
    ghost use Rattle.pk_schema.specs.Shapes.{Shape, IsShape};

    ghost Value = { Shape };

    ghost view = { λ s. record { columns = s.columns.items; keys = s.keys.items } };

    ghost invariant = { λ s. IsShape (record { columns = s.columns.items; keys = s.keys.items }) };
}

impl Schema {
    /// The schema of a declaration, or the first refusal of it that stands. `Memory` may come at any
    /// declaration.
    pub fn make(alloc: Global, decl: &TableDecl) -> Result<Schema, MakeErr>
        requires { IsTrue (is_plain decl.now) }
        ensures { Makes decl.now result }
    {
        match schema_refusal(alloc, decl) {
            Ok(Some(refusal)) => Err(MakeErr::Refused(refusal)),
            Ok(None) => Schema::unrefused(alloc, decl),
            Err(_) => Err(MakeErr::Memory),
        }
    }

    // The schema of a declaration that nothing refuses.
    fn unrefused(alloc: Global, decl: &TableDecl) -> Result<Schema, MakeErr>
        requires plain { IsTrue (is_plain decl.now) }
        requires unrefused { first_some (schema_refusals decl.now) ≡ None }
        ensures { Makes decl.now result }
    {
        match Schema::of(alloc, decl) {
            Ok(schema) => Ok(schema),
            Err(_) => Err(MakeErr::Memory),
        }
    }

    fn of(alloc: Global, decl: &TableDecl) -> Result<Schema, Memory>
        requires plain { IsTrue (is_plain decl.now) }
        requires unrefused { first_some (schema_refusals decl.now) ≡ None }
        ensures { IfOk result (λ schema. schema ≡ shape_of decl.now) }
    {
        let columns = copied_columns(alloc, decl.columns.as_slice())?;
        let keys = keys_of(alloc, columns.as_slice(), decl.keys.as_slice())?;
        Ok(Schema { columns, keys })
    }

    /// The columns, in their order.
    pub fn columns(&self) -> &[ColumnDecl]
        ensures columns { result.now ≡ self.now.columns }
        ensures shape { IsShape self.now }
    {
        self.columns.as_slice()
    }

    /// The keys, in their order.
    pub fn keys(&self) -> &[KeyDecl]
        ensures keys { result.now ≡ self.now.keys }
        ensures shape { IsShape self.now }
    {
        self.keys.as_slice()
    }

    /// The columns that are NOT NULL.
    pub fn not_null(&self) -> ColSet
        ensures set { IsColumnSet result }
        ensures columns { result ≡ not_null_of self.now.columns }
    {
        not_null_of(self.columns.as_slice())
    }

    /// All columns.
    pub fn all(&self) -> ColSet
        ensures set { IsColumnSet result }
        ensures columns { result ≡ all_of self.now.columns }
        ensures listed { columns result ≡ range_with_len 0 (length self.now.columns) }
    {
        all_of(self.columns.as_slice())
    }

    /// The place of the column of this name, counted from 0.
    pub fn column_place(&self, name: &Name) -> Option<u32>
        ensures place { result ≡ place_of_column self.now.columns name.now }
        ensures within { IfSome result (λ place. place < length self.now.columns) }
    {
        let place = column_place(self.columns.as_slice(), name)?;
        Some(place as u32)
    }

    /// The declaration of a table of this name.
    pub fn decl(&self, table: &Name) -> Result<TableDecl, Memory>
        ensures { IfOk result (λ decl. decl ≡ decl_of table.now self.now) }
    {
        let alloc = *self.columns.allocator();
        let columns = self.columns.as_slice();
        Ok(TableDecl {
            table: table.copy()?,
            columns: Items::from_vec(copied_columns(alloc, columns)?),
            keys: key_texts(alloc, columns, self.keys.as_slice())?,
        })
    }

    /// An equal schema.
    pub fn copy(&self) -> Result<Schema, Memory>
        ensures { IfOk result (λ copy. copy ≡ self.now) }
    {
        let columns = copied_columns(*self.columns.allocator(), self.columns.as_slice())?;
        let keys = Vec::from_slice(*self.keys.allocator(), self.keys.as_slice())?;
        Ok(Schema { columns, keys })
    }

    /// What is wrong with the row, if anything is: exactly `row_fault`.
    #[tactic(auto, unfolding(crate::specs::Admits::row_fault))]
    pub fn admits(&self, row: &Row) -> Result<(), RowFault>
        ensures { result_err result ≡ row_fault self.now row.now }
    {
        let columns = self.columns.as_slice();
        if let Some(fault) = width_fault(columns, row) {
            return Err(fault);
        }
        if let Some(fault) = value_fault(columns, row) {
            return Err(fault);
        }
        match size_fault(row) {
            Some(fault) => Err(fault),
            None => Ok(()),
        }
    }
}
