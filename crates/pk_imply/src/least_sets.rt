//! The least of some sets of columns.

ghost use Rattle.std.specs.Prelude.{◌≡◌, not, ◌&&◌, ◌==◌, filter, Contains, IfOk};
ghost use Rattle.pk_values.specs.ColumnSet.{is_subset};
ghost use Rattle.pk_imply.specs.Cover.{ListsAll};
ghost use Rattle.pk_imply.specs.Candidates.{candidates, has_part, IsLeast};

use crate::implying::alone_implies;
use pk_values::{ColSet, KeyDecl, Memory, Sort};
use std::alloc::Global;

/// The least sets of columns over which a key of this sort follows from the declared ones, in order.
pub(crate) fn least_sets(
    alloc: Global,
    keys: &[KeyDecl],
    known: ColSet,
    sort: Sort,
) -> Result<Vec<ColSet>, Memory>
    ensures { IfOk result (λ sets. ListsAll (IsLeast (candidates known sort keys.now)) sets.items) }
{
    let sets = candidates(alloc, keys, known, sort)?;
    let least = least_of(alloc, sets.as_slice())?;
    in_order(least)
}

// The columns of the keys that imply the key of this sort over the same columns.
fn candidates(
    alloc: Global,
    keys: &[KeyDecl],
    known: ColSet,
    sort: Sort,
) -> Result<Vec<ColSet>, Memory>
    ensures { IfOk result (λ sets. sets.items ≡ candidates known sort keys.now) }
{
    let mut sets = Vec::with_capacity(alloc, keys.len())?;
    for key in keys {
        let columns = key.columns;
        if alone_implies(known, key, &KeyDecl { sort, columns }) {
            sets.push(columns)?;
        }
    }
    Ok(sets)
}

// Those inside which no other lies.
fn least_of(alloc: Global, sets: &[ColSet]) -> Result<Vec<ColSet>, Memory>
    ensures { IfOk result (λ least. least.items ≡ filter (λ x. not (has_part sets.now x)) sets.now) }
{
    let mut least = Vec::new(alloc);
    for set in sets {
        if !has_part(sets, *set) {
            least.push(*set)?;
        }
    }
    Ok(least)
}

// Whether one of the sets lies inside this one, and isn't the same.
fn has_part(sets: &[ColSet], whole: ColSet) -> bool
    ensures { result ≡ has_part sets.now whole }
{
    sets.iter().any(|set| is_part(*set, whole))
}

fn is_part(set: ColSet, whole: ColSet) -> bool
    ensures { result ≡ (is_subset set whole && not (set == whole)) }
{
    set.is_inside(whole) && set != whole
}

// The same sets in order, each once.
fn in_order(mut sets: Vec<ColSet>) -> Result<Vec<ColSet>, Memory>
    ensures { IfOk result (λ ordered. ListsAll (Contains sets.items) ordered.items) }
{
    sets.sort()?;
    sets.dedup();
    Ok(sets)
}
