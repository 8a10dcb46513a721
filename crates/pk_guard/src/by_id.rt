//! Rows by their ids, which ascend.

ghost use Rattle.std.specs.Prelude.{◌≡◌};
ghost use Rattle.pk_guard.specs.Changed.{IdsAscend, RowsAscend, stays};
ghost use Rattle.pk_guard.specs.Splits.{below_id, above_id};

use pk_values::Placed;

/// Whether the row isn't among those that go, by a binary search.
pub(crate) fn stays(row: &Placed, gone: &[u64]) -> bool
    requires { IdsAscend gone.now }
    ensures { result ≡ stays gone.now row.now }
{
    gone.binary_search(&row.id).is_err()
}

/// The rows below an id, and those above it, by a binary search.
pub(crate) fn split_at_id(rows: &[Placed], id: u64) -> (&[Placed], &[Placed])
    requires { RowsAscend rows.now }
    ensures below { result.0.now ≡ below_id id rows.now }
    ensures above { result.1.now ≡ above_id id rows.now }
{
    match rows.binary_search_by(|row| row.id.cmp(&id)) {
        Ok(place) => (&rows[..place], &rows[place + 1..]),
        Err(place) => (&rows[..place], &rows[place..]),
    }
}
