ghost use Rattle.std.specs.Prelude.{◌≡◌, ◌≤◌, ◌-◌, IfOk, length};
ghost use Rattle.std.specs.List.{range_with_len};
ghost use Rattle.pk_values.specs.ColumnSet.{columns as numbers};
ghost use Rattle.pk_sweep.specs.Pairs.{InOrder, AreWide, apart_sets, not_same_sets};
ghost use Rattle.pk_sweep.specs.Coding.{AreLong, IsMet, AreMerged, AreOfPairs};

use crate::coding::{CodedColumn, coded_columns, null_sets};
use crate::meet::Meet;
use crate::ordering::in_order;
use crate::pairs::{Met, pairs};
use crate::sets::Sets;
use pk_values::{ColSet, Memory, Row};
use std::alloc::Global;
use std::thread::{Threads, join};

/// The sets of those of the columns in which the rows at two distinct places differ, over all pairs of
/// places. They are the same whatever `meet` does. `Memory` may come at any rows.
///
/// Two threads take about half of the pairs each, and each enters `meet` once. A pair costs a comparison
/// of two numbers for each column, and memory grows with the rows and the distinct sets.
pub fn sweep<R: Threads, M: Meet>(
    rt: &R,
    alloc: Global,
    rows: &[Row],
    columns: ColSet,
    meet: &M,
) -> Result<Sets, Memory>
    requires { AreWide (numbers columns) rows.now }
    ensures apart { IfOk result (λ sets. InOrder (apart_sets (numbers columns) rows.now) sets.apart) }
    ensures not_same { IfOk result (λ sets. InOrder (not_same_sets (numbers columns) rows.now) sets.not_same) }
{
    let listed = listed(alloc, columns)?;
    let coded = coded_columns(alloc, rows, listed.as_slice())?;
    let nulls = null_sets(alloc, rows, listed.as_slice())?;
    in_halves(rt, alloc, coded.as_slice(), nulls.as_slice(), meet)
}

// The columns of the set, ascending.
fn listed(alloc: Global, set: ColSet) -> Result<Vec<u32>, Memory>
    ensures { IfOk result (λ listed. listed.items ≡ numbers set) }
{
    let mut listed = Vec::with_capacity(alloc, set.len() as usize)?;
    let mut rest = set;
    while let Some(c) = rest.first() {
        rest = rest.without(c);
        listed.push(c)?;
    }
    Ok(listed)
}

// The sets of all pairs of places, by two threads.
fn in_halves<R: Threads, M: Meet>(
    rt: &R,
    alloc: Global,
    columns: &[CodedColumn],
    nulls: &[u32],
    meet: &M,
) -> Result<Sets, Memory>
    requires { AreLong columns.now nulls.now }
    ensures { IfOk result (AreOfPairs columns.now nulls.now) }
{
    let middle = middle(nulls.len());
    let (first, second) = halves(rt, alloc, columns, nulls, middle, meet);
    merged(alloc, &first?, &second?)
}

// What two threads meet: one the pairs whose first place is before the middle, one all others.
fn halves<R: Threads, M: Meet>(
    rt: &R,
    alloc: Global,
    columns: &[CodedColumn],
    nulls: &[u32],
    middle: usize,
    meet: &M,
) -> (Result<Met, Memory>, Result<Met, Memory>)
    requires within { middle ≤ length nulls.now }
    requires long { AreLong columns.now nulls.now }
    ensures first { IfOk result.0 (IsMet columns.now nulls.now (range_with_len 0 middle)) }
    ensures second { IfOk result.1 (IsMet columns.now nulls.now (range_with_len middle (length nulls.now - middle))) }
{
    join(
        rt,
        || -> Result<Met, Memory>
            requires { AreLong columns.now nulls.now × (middle ≤ length nulls.now) }
            ensures { IfOk result (IsMet columns.entry.now nulls.entry.now (range_with_len 0 middle)) }
        { half(alloc, columns, nulls, 0, middle, meet, 0) },
        || -> Result<Met, Memory>
            requires { AreLong columns.now nulls.now × (middle ≤ length nulls.now) }
            ensures { IfOk result (IsMet columns.entry.now nulls.entry.now (range_with_len middle (length nulls.entry.now - middle))) }
        { half(alloc, columns, nulls, middle, nulls.len(), meet, 1) },
    )
}

// Where the pairs of the places before are about as many as those of the others: at 1 less the root of
// a half, or 75 of 256 parts.
fn middle(count: usize) -> usize
    ensures { result ≤ count }
{
    count / 256 * 75 + count % 256 * 75 / 256
}

// One half, which begins with the call of `meet`.
fn half<M: Meet>(
    alloc: Global,
    columns: &[CodedColumn],
    nulls: &[u32],
    from: usize,
    to: usize,
    meet: &M,
    number: u32,
) -> Result<Met, Memory>
    requires order { from ≤ to }
    requires within { to ≤ length nulls.now }
    requires long { AreLong columns.now nulls.now }
    ensures { IfOk result (IsMet columns.now nulls.now (range_with_len from (to - from))) }
{
    meet.enter(number);
    pairs(alloc, columns, nulls, from, to)
}

// The sets of both halves.
fn merged(alloc: Global, first: &Met, second: &Met) -> Result<Sets, Memory>
    ensures { IfOk result (AreMerged first.now second.now) }
{
    Ok(Sets {
        apart: in_order(alloc, first.apart.as_slice(), second.apart.as_slice())?,
        not_same: in_order(alloc, first.not_same.as_slice(), second.not_same.as_slice())?,
    })
}
