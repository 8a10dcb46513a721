ghost use Rattle.std.specs.Prelude.{◌≡◌, None, IfOk, IfErr};
ghost use Rattle.pk_values.specs.declared.key.Sort.TheVariants as sorts;
ghost use Rattle.pk_values.specs.ColumnSet.{IsColumnSet, columns as numbers};
ghost use Rattle.pk_sweep.specs.Pairs.{AreWide};
ghost use Rattle.pk_transversal.specs.Transversals.{transversals, edge_limit};
ghost use Rattle.pk_discover.specs.Keys.{minimal_keys};
ghost use Rattle.pk_discover.specs.Limits.{refusal, either_beyond, beyond, IsTold};

use crate::disc_err::DiscErr;
use crate::keys::Keys;
use crate::laws::minimal_keys_are_transversals;
use pk_sweep::{Meet, Sets, sweep};
use pk_transversal::{TransErr, minimal};
use pk_values::{ColSet, Items, Row, Sort};
use std::alloc::Global;
use std::thread::Threads;

// How many rows there may be.
const MOST_ROWS: usize = 8_192;

// How many minimal transversals there may be at each edge.
const MOST_SETS: u32 = 4_096;

/// All minimal subsets of the columns that are keys of the rows, certain ones and possible ones, each
/// once, in order. On no columns a key says that there is at most one row.
///
/// `TooManyRows` comes exactly above 8,192 rows. `TooMany` comes exactly where more than 4,096 sets are
/// minimal among those that meet the first edges, in their order; the edges are the sets of columns in
/// which two rows are apart, for certain keys and tried first, or aren't the same, for possible ones.
/// `Memory` may come at any rows.
///
/// The answer is the same whatever `meet` does: two threads take about half of the pairs of rows each,
/// and each enters it once at its start. A pair costs a comparison of two numbers for each column.
pub fn discover<R: Threads, M: Meet>(
    rt: &R,
    alloc: Global,
    rows: &[Row],
    columns: ColSet,
    meet: &M,
) -> Result<Keys, DiscErr>
    requires { AreWide (numbers columns) rows.now }
    ensures certain { IfOk result (λ keys. keys.certain ≡ minimal_keys sorts.Certain columns rows.now) }
    ensures possible { IfOk result (λ keys. keys.possible ≡ minimal_keys sorts.Possible columns rows.now) }
    ensures few { IfOk result (λ keys. refusal columns rows.now ≡ None) }
    ensures cause { IfErr result (IsTold (refusal columns rows.now)) }
{
    if rows.len() > MOST_ROWS {
        return Err(DiscErr::TooManyRows { n: rows.len() });
    }
    let all = known_set(columns);
    minimal_keys_are_transversals();
    let sets = sweep(rt, alloc, rows, all, meet)?;
    keys_of(alloc, &sets)
}

// The same set. That it is one is a promise of `plus`, and of no argument.
fn known_set(columns: ColSet) -> ColSet
    ensures set { IsColumnSet columns }
    ensures same { result ≡ columns }
{
    columns.plus(columns)
}

// The minimal sets that meet each set in which two rows are apart, and in which they aren't the same.
fn keys_of(alloc: Global, sets: &Sets) -> Result<Keys, DiscErr>
    ensures certain { IfOk result (λ keys. keys.certain ≡ transversals sets.now.apart) }
    ensures possible { IfOk result (λ keys. keys.possible ≡ transversals sets.now.not_same) }
    ensures few { IfOk result (λ keys. either_beyond sets.now.apart sets.now.not_same ≡ None) }
    ensures cause { IfErr result (IsTold (either_beyond sets.now.apart sets.now.not_same)) }
{
    Ok(Keys {
        certain: meeting_all(alloc, Sort::Certain, sets.apart.as_slice())?,
        possible: meeting_all(alloc, Sort::Possible, sets.not_same.as_slice())?,
    })
}

// The minimal sets that meet every edge.
fn meeting_all(alloc: Global, sort: Sort, edges: &[ColSet]) -> Result<Items<ColSet>, DiscErr>
    ensures sets { IfOk result (λ sets. sets ≡ transversals edges.now) }
    ensures few { IfOk result (λ sets. beyond sort edges.now ≡ None) }
    ensures cause { IfErr result (IsTold (beyond sort edges.now)) }
{
    match minimal(alloc, edges, MOST_SETS) {
        Ok(sets) => Ok(Items::from_vec(sets)),
        Err(TransErr::TooMany { edge }) => Err(DiscErr::TooMany { sort, edge }),
        Err(TransErr::Memory) => Err(DiscErr::Memory),
    }
}
