//! Sets that meet some edges, made to meet one more.

ghost use Rattle.std.specs.Prelude.{◌≡◌, ◌++◌, Contains, IfOk, OnOk};
ghost use Rattle.pk_values.specs.ColumnSet.{IsColumnSet, columns as numbers};
ghost use Rattle.pk_transversal.specs.Minimal.{Lists};
ghost use Rattle.pk_transversal.specs.Transversals.{meets};
ghost use Rattle.pk_transversal.specs.Steps.{grown, all_grown, meeting, missing, product};

use crate::minimal_sets::has_inside;
use pk_values::{ColSet, Memory};
use std::alloc::Global;

/// The sets that meet the edge, and each of the others with each of its columns, but where one of the
/// first lies inside that; in order. Where the sets are the minimal ones that meet some edges, these are
/// the minimal ones that meet this edge too.
pub(crate) fn product(alloc: Global, sets: &[ColSet], edge: ColSet) -> Result<Vec<ColSet>, Memory>
    requires { IsColumnSet edge }
    ensures { IfOk result (λ made. Lists (Contains (product sets.now edge)) made.items) }
{
    let kept = meeting(alloc, sets, edge)?;
    let others = missing(alloc, sets, edge)?;
    let mut made = grown(alloc, kept.as_slice(), edge, others.as_slice())?;
    made.sort()?;
    made.dedup();
    Ok(made)
}

// Whether the set and the edge share a column.
fn meets(set: ColSet, edge: ColSet) -> bool
    requires { IsColumnSet edge }
    ensures { result ≡ meets set edge }
{
    set.minus(edge) != set
}

fn meeting(alloc: Global, sets: &[ColSet], edge: ColSet) -> Result<Vec<ColSet>, Memory>
    requires { IsColumnSet edge }
    ensures { IfOk result (λ kept. kept.items ≡ meeting edge sets.now) }
{
    let mut kept = Vec::new(alloc);
    for set in sets {
        if meets(*set, edge) {
            kept.push(*set)?;
        }
    }
    Ok(kept)
}

fn missing(alloc: Global, sets: &[ColSet], edge: ColSet) -> Result<Vec<ColSet>, Memory>
    requires { IsColumnSet edge }
    ensures { IfOk result (λ others. others.items ≡ missing edge sets.now) }
{
    let mut others = Vec::new(alloc);
    for set in sets {
        if !meets(*set, edge) {
            others.push(*set)?;
        }
    }
    Ok(others)
}

// The kept sets, and behind them each of the others with each column of the edge.
fn grown(
    alloc: Global,
    kept: &[ColSet],
    edge: ColSet,
    others: &[ColSet],
) -> Result<Vec<ColSet>, Memory>
    ensures { IfOk result (λ made. made.items ≡ kept.now ++ all_grown kept.now (numbers edge) others.now) }
{
    let mut made = Vec::from_slice(alloc, kept)?;
    for set in others {
        grow(&mut made, kept, *set, edge)?;
    }
    Ok(made)
}

// Puts the set with each column of the edge behind the others, but where a kept set lies inside that.
fn grow(made: &mut Vec<ColSet>, kept: &[ColSet], set: ColSet, edge: ColSet) -> Result<(), Memory>
    ensures { OnOk result (made.new.items ≡ made.old.items ++ grown kept.now (numbers edge) set) }
{
    let mut rest = edge;
    while let Some(c) = rest.first() {
        rest = rest.without(c);
        let larger = set.with(c);
        if !has_inside(kept, larger) {
            made.push(larger)?;
        }
    }
    Ok(())
}
