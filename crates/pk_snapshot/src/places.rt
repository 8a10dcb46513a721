//! Places in rows whose ids ascend.

ghost use Rattle.std.specs.Prelude.{◌≡◌, IsTrue};
ghost use Rattle.pk_exec.specs.Rows.{AscendFrom};
ghost use Rattle.pk_snapshot.specs.Walks.{is_reached, IsPlaceBehind};

use pk_values::Placed;

/// Whether the id isn't before that of the next image.
pub(crate) fn is_reached(next: Option<u64>, id: u64) -> bool
    ensures { result ≡ is_reached next id }
{
    match next {
        None => false,
        Some(next) => next <= id,
    }
}

/// Whether the rows before the place are those up to the id, and the others those behind it.
pub(crate) fn is_place_behind(rows: &[Placed], place: usize, id: u64) -> bool
    requires { AscendFrom 1 rows.now }
    ensures { IsTrue result → IsPlaceBehind rows.now id place }
{
    if place > rows.len() {
        return false;
    }
    if place > 0 && rows[place - 1].id > id {
        return false;
    }
    if place < rows.len() && rows[place].id <= id {
        return false;
    }
    true
}

/// The place of the first row behind the id, by a search through all rows.
pub(crate) fn searched(rows: &[Placed], id: u64) -> usize
    requires { AscendFrom 1 rows.now }
    ensures { IsPlaceBehind rows.now id result }
{
    rows.partition_point(|placed| placed.id <= id)
}
