ghost use Rattle.std.specs.Prelude.{◌≡◌, [], ◌∷◌, None, All, nat_lt, length, IfOk, IfErr};
ghost use Rattle.pk_values.specs.ColumnSet.{IsColumnSet};
ghost use Rattle.pk_transversal.specs.Transversals.{transversals, first_beyond, edge_limit, IsTold, IsCount};

use crate::minimal_sets::minimal_of;
use crate::product::product;
use crate::trans_err::TransErr;
use pk_values::{ColSet, Memory};
use std::alloc::Global;

/// All minimal sets of columns that meet every edge, each once, in order. A set meets an edge where they
/// share a column. No edge gives the empty set alone, and an empty edge gives no set.
///
/// Take the edges that contain no other edge, in order. `TooMany` comes exactly where some number of them,
/// from the first on, have more than `limit` minimal transversals, and names the least such number; this
/// is 0 only for the limit 0, since no edge has one transversal. `Memory` may come at any edges.
///
/// The work grows with the minimal edges times the square of the transversals that the edges before have,
/// which are no more than the limit.
pub fn minimal(alloc: Global, edges: &[ColSet], limit: u32) -> Result<Vec<ColSet>, TransErr>
    ensures sets { IfOk result (λ sets. sets.items ≡ transversals edges.now) }
    ensures few { IfOk result (λ sets. edge_limit limit edges.now ≡ None) }
    ensures cause { IfErr result (IsTold (edge_limit limit edges.now)) }
{
    let minimal_edges = minimal_of(alloc, edges)?;
    multiplied(alloc, minimal_edges.as_slice(), limit)
}

// The same for these edges, taken as they stand.
fn multiplied(alloc: Global, edges: &[ColSet], limit: u32) -> Result<Vec<ColSet>, TransErr>
    requires { All IsColumnSet edges.now }
    ensures sets { IfOk result (λ sets. sets.items ≡ transversals edges.now) }
    ensures few { IfOk result (λ sets. first_beyond limit edges.now ≡ None) }
    ensures cause { IfErr result (IsTold (first_beyond limit edges.now)) }
{
    let mut sets = no_columns(alloc)?;
    if limit == 0 {
        return Err(TransErr::TooMany { edge: 0 });
    }
    let mut count: usize = 0;
    for edge in edges {
        sets = product(alloc, sets.as_slice(), *edge)?;
        count += 1;
        if is_above(sets.as_slice(), limit) {
            return Err(too_many(count));
        }
    }
    Ok(sets)
}

// The one set that meets no edge.
fn no_columns(alloc: Global) -> Result<Vec<ColSet>, Memory>
    ensures { IfOk result (λ sets. sets.items ≡ 0 ∷ []) }
{
    let mut sets = Vec::new(alloc);
    sets.push(ColSet::empty())?;
    Ok(sets)
}

fn is_above(sets: &[ColSet], limit: u32) -> bool
    ensures { result ≡ nat_lt limit (length sets.now) }
{
    sets.len() > limit as usize
}

// What is told at this number of edges. One above 32 bits can't be told, and would want 16 gigabytes of
// edges, none of which contains another.
fn too_many(count: usize) -> TransErr
    ensures { IsCount count result }
{
    match u32::try_from(count) {
        Ok(edge) => TransErr::TooMany { edge },
        Err(_) => TransErr::Memory,
    }
}
