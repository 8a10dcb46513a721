//! Rows in the order of their ids, and what changes do to them.

ghost use Rattle.std.specs.Prelude.{◌≡◌, ◌==◌, ℕ, filter, OnOk};
ghost use Rattle.std.specs.List.{list_any};
ghost use Rattle.pk_guard.specs.Changed.{IdsAscend, RowsAscend, put_row, put_rows, stays};

use pk_values::{Items, Memory, Placed};

/// Takes out the rows of these ids, in one walk where there are any.
pub(crate) fn take_out(rows: &mut Vec<Placed>, ids: &[u64])
    requires { IdsAscend ids.now }
    ensures { rows.new.items ≡ filter (stays ids.now) rows.old.items }
{
    if !ids.is_empty() {
        rows.retain(
            |placed| -> bool
                requires { IdsAscend ids.now }
                ensures { result ≡ stays ids.entry.now placed.now }
            { !is_among(ids, placed.id) },
        );
    }
}

fn is_among(ids: &[u64], id: u64) -> bool
    requires { IdsAscend ids.now }
    ensures { result ≡ list_any (λ k. k == id) ids.now }
{
    ids.binary_search(&id).is_ok()
}

/// Puts the rows, one behind the other; each costs a search.
#[tactic(auto, using(crate::proofs::RowLemmas::put_ascends, crate::proofs::RowLemmas::put_each_is))]
pub(crate) fn put_all(rows: &mut Vec<Placed>, put: Items<Placed>) -> Result<(), Memory>
    requires { RowsAscend rows.old.items }
    ensures { OnOk result (rows.new.items ≡ put_rows put rows.old.items) }
{
    for placed in put.into_vec() {
        put_row(rows, placed)?;
    }
    Ok(())
}

// Puts the row in the place of the one with its id, or at its own place among the others.
fn put_row(rows: &mut Vec<Placed>, placed: Placed) -> Result<(), Memory>
    requires { RowsAscend rows.old.items }
    ensures { OnOk result (rows.new.items ≡ put_row placed rows.old.items) }
{
    let id = placed.id;
    match rows.binary_search_by(|row| row.id.cmp(&id)) {
        Ok(place) => {
            rows[place] = placed;
            Ok(())
        }
        Err(place) => {
            rows.insert(place, placed)?;
            Ok(())
        }
    }
}
