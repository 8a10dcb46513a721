ghost use Rattle.std.specs.Prelude.{◌≡◌, All, IfOk};
ghost use Rattle.pk_schema.specs.Admits.{Admits};
ghost use Rattle.pk_guard.specs.Breaks.{first_break};
ghost use Rattle.pk_guard.specs.Changed.{IdsAscend, RowsAscend, changed_rows};
ghost use Rattle.pk_guard.specs.Holds.{KeysHold};

use crate::judging;
use pk_schema::Schema;
use pk_values::{Break, Changes, Memory, Placed};
use std::alloc::Global;

/// Why there is no guard.
#[derive(Debug, Drop)]
pub enum BuildErr {
    /// Two rows break a key: the first break.
    Broken(Break),
    /// Memory ran out.
    Memory,
}

/// Watches the keys of one table.
///
/// It keeps nothing yet: rows are compared in pairs. Later it keeps indexes of the rows, behind the
/// same clauses.
#[derive(Debug, Drop)]
pub struct Guard {}

impl Guard {
    ghost use Rattle.pk_guard.specs.Builds.{Builds};

    /// The guard of these rows, which ascend by their ids; or their first break, exactly where some key
    /// of the table doesn't hold. All pairs of rows are compared.
    pub fn build(alloc: Global, schema: &Schema, rows: &[Placed]) -> Result<Guard, BuildErr>
        requires ascend { RowsAscend rows.now }
        requires admitted { All (λ p. Admits schema.now p.row) rows.now }
        ensures { Builds schema.now rows.now result }
    {
        match judging::first_break(alloc, schema, &[], &[], rows) {
            Ok(None) => Ok(Guard {}),
            Ok(Some(broken)) => Err(BuildErr::Broken(broken)),
            Err(_) => Err(BuildErr::Memory),
        }
    }

    /// The first break of these rows with the changes made; `None` exactly where every key of the table
    /// then holds. The keys hold of the rows as they are, so that only pairs of which one row is put are
    /// compared. A row may be put and among those that go at once, and is then put; ids that no row has
    /// go without effect.
    pub fn first_break(
        &self,
        alloc: Global,
        schema: &Schema,
        rows: &[Placed],
        changes: &Changes,
    ) -> Result<Option<Break>, Memory>
        requires ascend { RowsAscend rows.now }
        requires admitted { All (λ p. Admits schema.now p.row) rows.now }
        requires hold { KeysHold schema.now rows.now }
        requires gone_ascend { IdsAscend changes.now.gone }
        requires put_ascend { RowsAscend changes.now.put }
        requires put_admitted { All (λ p. Admits schema.now p.row) changes.now.put }
        ensures { IfOk result (λ b. b ≡ first_break schema.now (changed_rows changes.now rows.now)) }
    {
        let gone = changes.gone.as_slice();
        let put = changes.put.as_slice();
        judging::first_break(alloc, schema, rows, gone, put)
    }
}
