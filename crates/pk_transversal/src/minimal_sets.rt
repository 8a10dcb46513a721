//! The minimal ones of some sets of columns.

ghost use Rattle.std.specs.Prelude.{◌≡◌, [], All, Contains, IfOk};
ghost use Rattle.pk_values.specs.ColumnSet.{IsColumnSet};
ghost use Rattle.pk_transversal.specs.Minimal.{minimal_of};
ghost use Rattle.pk_transversal.specs.Steps.{has_inside, sifted};

use pk_values::{ColSet, Memory};
use std::alloc::Global;

/// Those of the sets inside which no other of them lies, in order, each once.
///
/// It sorts the sets, and then compares each with those found before it, so that what is compared grows
/// with the sets times the minimal ones.
pub(crate) fn minimal_of(alloc: Global, sets: &[ColSet]) -> Result<Vec<ColSet>, Memory>
    ensures { IfOk result (λ found. All IsColumnSet sets.now × (found.items ≡ minimal_of sets.now)) }
{
    let mut ordered = copied(alloc, sets)?;
    ordered.sort()?;
    ordered.dedup();
    sifted(alloc, ordered.as_slice())
}

// The same sets. That they are sets is a promise of `plus`, and of no argument.
fn copied(alloc: Global, sets: &[ColSet]) -> Result<Vec<ColSet>, Memory>
    ensures { IfOk result (λ copies. All IsColumnSet sets.now × (copies.items ≡ sets.now)) }
{
    let mut copies = Vec::with_capacity(alloc, sets.len())?;
    for set in sets {
        copies.push(set.plus(*set))?;
    }
    Ok(copies)
}

// Those of the sets inside which none lies that stands before them. In their order a set stands behind
// all that lie inside it.
fn sifted(alloc: Global, ordered: &[ColSet]) -> Result<Vec<ColSet>, Memory>
    ensures { IfOk result (λ found. found.items ≡ sifted [] ordered.now) }
{
    let mut found = Vec::new(alloc);
    for set in ordered {
        if !has_inside(found.as_slice(), *set) {
            found.push(*set)?;
        }
    }
    Ok(found)
}

/// Whether one of the sets lies inside this one.
pub(crate) fn has_inside(sets: &[ColSet], whole: ColSet) -> bool
    ensures { result ≡ has_inside sets.now whole }
{
    sets.iter().any(|set| set.is_inside(whole))
}
