//! The sets of columns in which the rows at two places differ, as numbers.

ghost use Rattle.std.specs.Prelude.{◌≡◌, ◌==◌, ◌<◌, ◌≤◌, ◌+◌, ◌-◌, cond, All, IfOk, OnOk, length, map};
ghost use Rattle.std.specs.List.{range_with_len};
ghost use Rattle.pk_sweep.specs.Coding.{code_at, differing, apart_at, not_same_at, IsMet, AreLong};
ghost use Rattle.pk_sweep.specs.Meeting.{Adds};

use crate::coding::CodedColumn;
use crate::seen::Seen;
use pk_values::Memory;
use std::alloc::Global;

/// The sets of some pairs, each at least once.
#[derive(Drop)]
pub(crate) struct Met {
    pub(crate) apart: Vec<u32>,
    pub(crate) not_same: Vec<u32>,
}

/// The sets of each pair whose first place is one of these.
pub(crate) fn pairs(
    alloc: Global,
    columns: &[CodedColumn],
    nulls: &[u32],
    from: usize,
    to: usize,
) -> Result<Met, Memory>
    requires order { from ≤ to }
    requires within { to ≤ length nulls.now }
    requires long { AreLong columns.now nulls.now }
    ensures { IfOk result (IsMet columns.now nulls.now (range_with_len from (to - from))) }
{
    let mut apart = Seen::new(alloc)?;
    let mut not_same = Seen::new(alloc)?;
    for i in from..to {
        meet_behind(columns, nulls, i, &mut apart, &mut not_same)?;
    }
    Ok(Met {
        apart: apart.into_kept(),
        not_same: not_same.into_kept(),
    })
}

// Meets the sets of this place and each behind it.
fn meet_behind(
    columns: &[CodedColumn],
    nulls: &[u32],
    i: usize,
    apart: &mut Seen,
    not_same: &mut Seen,
) -> Result<(), Memory>
    requires within { i < length nulls.now }
    requires long { AreLong columns.now nulls.now }
    ensures apart { OnOk result (Adds apart.old (map (apart_at columns.now nulls.now i) (range_with_len (i + 1) (length nulls.now - (i + 1)))) apart.new) }
    ensures not_same { OnOk result (Adds not_same.old (map (not_same_at columns.now nulls.now i) (range_with_len (i + 1) (length nulls.now - (i + 1)))) not_same.new) }
{
    for j in i + 1..nulls.len() {
        let differing = differing(columns, i, j);
        let null = nulls[i] | nulls[j];
        apart.meet(differing & !null)?;
        not_same.meet(differing | null)?;
    }
    Ok(())
}

// The columns in which the numbers of two rows differ.
fn differing(columns: &[CodedColumn], i: usize, j: usize) -> u32
    requires { All (λ k. (i < length k.codes.items) × (j < length k.codes.items)) columns.now }
    ensures { result ≡ differing columns.now i j }
{
    let mut set = 0;
    for column in columns {
        set |= differing_bit(column, i, j);
    }
    set
}

// The set of this column alone where the numbers of two rows differ, and no column else.
fn differing_bit(column: &CodedColumn, i: usize, j: usize) -> u32
    requires first { i < length column.now.codes.items }
    requires second { j < length column.now.codes.items }
    ensures { result ≡ cond (code_at column.now.codes.items i == code_at column.now.codes.items j) 0 column.now.bit }
{
    if column.codes[i] == column.codes[j] {
        0
    } else {
        column.bit
    }
}
