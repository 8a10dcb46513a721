//! Numbers of sets, as sets in order.

ghost use Rattle.std.specs.Prelude.{◌≡◌, ℕ, ◌++◌, ◌<◌, ◌&&◌, ◌||◌, ◌==◌, IfOk, OnOk};
ghost use Rattle.pk_values.specs.ColumnSet.{has_column};
ghost use Rattle.pk_sweep.specs.Pairs.{InOrder};

use pk_values::{COLUMN_LIMIT, ColSet, Items, Memory};
use std::alloc::Global;

/// The sets that either list has as numbers, in order, each once.
pub(crate) fn in_order(
    alloc: Global,
    first: &[u32],
    second: &[u32],
) -> Result<Items<ColSet>, Memory>
    ensures { IfOk result (λ sets. InOrder (first.now ++ second.now) sets) }
{
    let mut sets = Vec::new(alloc);
    add_sets(&mut sets, first)?;
    add_sets(&mut sets, second)?;
    sets.sort()?;
    sets.dedup();
    Ok(Items::from_vec(sets))
}

// Puts the sets of these numbers behind the others.
fn add_sets(sets: &mut Vec<ColSet>, numbers: &[u32]) -> Result<(), Memory>
    ensures { OnOk result (sets.new.items ≡ sets.old.items ++ numbers.now) }
{
    for number in numbers {
        sets.push(set_of(*number))?;
    }
    Ok(())
}

// The set with a column for each bit of the number.
fn set_of(number: u32) -> ColSet
    ensures { result ≡ number }
{
    let mut set = ColSet::empty();
    for c in 0..COLUMN_LIMIT {
        set = with_if(set, c, number >> c & 1 == 1);
    }
    set
}

// The set, with this column besides where it is wanted.
fn with_if(set: ColSet, c: u32, wanted: bool) -> ColSet
    requires { c < 32 }
    ensures { (k : ℕ) → has_column result k ≡ ((wanted && k == c) || has_column set k) }
{
    if wanted { set.with(c) } else { set }
}
