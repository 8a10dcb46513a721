ghost use Rattle.std.specs.Prelude.{◌≡◌, IfOk};

use pk_values::{Memory, Row};
use std::alloc::Global;
use std::marker::Model;
use std::sync::Arc;

/// A row that the images of several transactions have in common. Contracts see it as the list of its
/// values.
#[derive(Drop)]
pub(crate) struct SharedRow {
    row: Arc<Row, Global>,
}

impl Model for SharedRow {
    ghost use Rattle.std.specs.Prelude.{List};
    ghost use Rattle.std.specs.Arc.{arc_value};
    ghost use Rattle.pk_values.specs.declared.value.Value.{Value as Entry};

    ghost Value = { List Entry };

    ghost view = { λ s. arc_value s.row };
}

impl SharedRow {
    /// An equal row, to be shared.
    pub(crate) fn of(alloc: Global, row: &Row) -> Result<SharedRow, Memory>
        ensures { IfOk result (λ shared. shared ≡ row.now) }
    {
        let row = Arc::new(alloc, row.copy()?)?;
        Ok(SharedRow { row })
    }

    /// The same row once more.
    pub(crate) fn copy(&self) -> Result<SharedRow, Memory>
        ensures { IfOk result (λ shared. shared ≡ self.now) }
    {
        let row = Arc::try_clone(&self.row)?;
        Ok(SharedRow { row })
    }

    pub(crate) fn row(&self) -> &Row
        ensures { result.now ≡ self.now }
    {
        &self.row
    }
}
