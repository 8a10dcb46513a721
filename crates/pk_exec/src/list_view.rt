ghost use Rattle.std.specs.Prelude.{◌≡◌};
ghost use Rattle.pk_exec.specs.Rows.{AscendFrom, AscendFrom-prop};

use crate::view::View;
use pk_values::{Placed, Row};
use pk_world::StoreErr;

/// A view of rows in memory. It tells them, and never fails but for want of memory.
#[derive(Debug, Drop)]
pub struct ListView<'a> {
    rows: &'a [Placed],
    ghost ascend: { AscendFrom 1 rows.now } by { AscendFrom-prop 1 rows.now },
}

impl<'a> ListView<'a> {
    ghost use Rattle.pk_exec.specs.ListViews.{listed};

    /// The view of these rows.
    pub fn new(rows: &'a [Placed]) -> ListView<'a>
        requires { AscendFrom 1 rows.now }
        ensures { listed result ≡ rows.now }
    {
        ListView { rows }
    }
}

impl<'a> View for ListView<'a> {
    ghost use Rattle.std.specs.Prelude.{true, All, []};
    ghost use Rattle.pk_schema.specs.Admits.{Admits};
    ghost use Rattle.pk_exec.specs.ListViews.{listed};

    ghost rows = { listed };

    ghost tells = { λ _. true };

    ghost fits = { λ view s. All (λ p. Admits s p.row) (listed view) };

    ghost faults = { λ _. 0 };

    ghost strays = { λ _. 0 };

    ghost held = { λ _. [] };

    ghost ascend = { λ view. view.ascend };

    fn next_after(&mut self, id: u64) -> Result<Option<u64>, StoreErr> {
        let place = self.rows.partition_point(|placed| placed.id <= id);
        match self.rows.get(place) {
            Some(placed) => Ok(Some(placed.id)),
            None => Ok(None),
        }
    }

    fn row(&mut self, id: u64) -> Result<Row, StoreErr> {
        let place = self.rows.partition_point(|placed| placed.id < id);
        Ok(self.rows[place].row.copy()?)
    }
}
