ghost use Rattle.std.specs.Prelude.{◌≡◌, length, IfOk};
ghost use Rattle.std.specs.Option.{option_map};
ghost use Rattle.pk_values.specs.declared.refusal.Refusal.TheVariants.{BrokenKey};

use pk_guard::{BuildErr, Guard};
use pk_schema::Schema;
use pk_syntax::print_table;
use pk_values::{Break, Bytes, Changes, Memory, Name, Placed, Refusal};
use std::alloc::Global;
use std::cmp::Ordering;
use std::marker::Model;

mod changing;
mod editing;
mod reasoning;

/// A table of the base. Contracts see it as the record of its parts.
#[derive(Debug, Drop)]
pub struct Stored {
    name: Name,
    schema: Schema,
    // Of the keys of `schema` over `rows`.
    guard: Guard,
    next: u64,
    rows: Vec<Placed>,
}

impl Model for Stored {
    ghost use Rattle.pk_engine.specs.Base.{Table};

    ghost Value = { Table };

    ghost view = { λ t. record { name = t.name; shape = t.schema; next = t.next; rows = t.rows.items } };
}

impl Stored {
    ghost use Rattle.std.specs.Ordering.{nat_cmp};
    ghost use Rattle.std.specs.Cmp.Lexicographic.{slice_cmp};
    ghost use Rattle.pk_syntax.specs.Printing.{table_text};
    ghost use Rattle.pk_schema.specs.Shapes.{decl_of};
    ghost use Rattle.pk_engine.specs.Base.{changed_by};
    ghost use Rattle.pk_engine.specs.Entries.{AreOf};
    ghost use Rattle.pk_engine.specs.Keys.{key_broken};
    ghost use Rattle.pk_engine.specs.State.{made_table};
    ghost use Rattle.pk_engine.specs.Valid.{IsValidTable};

    /// A new table, without a row.
    pub fn make(alloc: Global, name: Name, schema: Schema) -> Result<Stored, Memory>
        ensures { IfOk result (λ table. table ≡ made_table name schema) }
    {
        let guard = guard_of_none(alloc, &schema)?;
        Ok(Stored {
            name,
            schema,
            guard,
            next: 1,
            rows: Vec::new(alloc),
        })
    }

    /// How the table's name compares with this one, byte by byte.
    pub fn cmp_name(&self, name: &Name) -> Ordering
        ensures { result ≡ slice_cmp nat_cmp self.now.name name.now }
    {
        self.name.as_slice().cmp(name.as_slice())
    }

    /// How many rows the table has.
    pub fn row_count(&self) -> u64
        ensures { result ≡ length self.now.rows }
    {
        self.rows.len() as u64
    }

    /// The id that the next new row gets.
    pub fn next(&self) -> u64
        ensures { result ≡ self.now.next }
    {
        self.next
    }

    /// What changes of the table are refused for by its keys, which are judged on the rows as they would be.
    pub fn broken_key(&self, changes: &Changes) -> Result<Option<Refusal>, Memory>
        requires valid { IsValidTable self.now }
        requires of { AreOf self.now changes.now }
        ensures { IfOk result (λ r. r ≡ key_broken (changed_by changes.now self.now)) }
    {
        let alloc = *self.rows.allocator();
        let rows = self.rows.as_slice();
        let broken = self.guard.first_break(alloc, &self.schema, rows, changes)?;
        refusal_of(&self.name, broken)
    }

    /// The canonical text of the table's declaration.
    pub fn text(&self) -> Result<Bytes, Memory>
        ensures { IfOk result (λ bytes. bytes ≡ table_text (decl_of self.now.name self.now.shape)) }
    {
        print_table(*self.rows.allocator(), &self.schema.decl(&self.name)?)
    }
}

// The guard of a table without rows, which break no key.
fn guard_of_none(alloc: Global, schema: &Schema) -> Result<Guard, Memory> {
    match Guard::build(alloc, schema, &[]) {
        Ok(guard) => Ok(guard),
        Err(BuildErr::Broken(_)) => unreachable!(),
        Err(BuildErr::Memory) => Err(Memory),
    }
}

// The refusal that shows the break, if there is one, of a key of the table of this name.
fn refusal_of(table: &Name, broken: Option<Break>) -> Result<Option<Refusal>, Memory>
    ensures { IfOk result (λ r. r ≡ option_map (BrokenKey table.now) broken) }
{
    let Some(broken) = broken else {
        return Ok(None);
    };
    let table = table.copy()?;
    Ok(Some(Refusal::BrokenKey { table, broken }))
}
