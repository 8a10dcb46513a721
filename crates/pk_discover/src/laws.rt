//! What minimal keys are. A law is a contract; its function does nothing, or cites the laws that it rests
//! on.

ghost use Rattle.pk_discover.specs.Laws.{MinimalKeysAreListed, MinimalKeysHoldInCompletions, MinimalKeysAreTransversals};
ghost use Rattle.pk_discover.specs.Edges.{KeysAtTheirEdges, LimitsAtTheirEdges};

use pk_similar::{
    certain_keys_have_no_weak_pair, pairs_stand_at_places, possible_keys_have_no_strong_pair,
    similar_rows_meet_no_difference,
};
use pk_sweep::{pairs_are_of_places, sets_have_their_columns};
use pk_transversal::{minimal_sets_are_listed, one_list_of_transversals, order_tells_nothing};

/// The minimal keys of some rows are the sets of columns on which no two rows are similar, and inside
/// which no other such set lies.
pub fn minimal_keys_are_listed()
    ensures { MinimalKeysAreListed }
{
    minimal_sets_are_listed();
}

/// The minimal keys of rows that fit their kinds are the sets over which a key holds in every completion
/// of the rows (certain) or in some (possible), and inside which no other such set lies.
pub fn minimal_keys_hold_in_completions()
    ensures { MinimalKeysHoldInCompletions }
{
    minimal_keys_are_listed();
    certain_keys_have_no_weak_pair();
    possible_keys_have_no_strong_pair();
}

/// The minimal keys are the minimal sets that meet each set of columns in which two rows differ, no other
/// list has just them, and that these are too many doesn't depend on how they are found.
pub fn minimal_keys_are_transversals()
    ensures { MinimalKeysAreTransversals }
{
    minimal_keys_are_listed();
    similar_rows_meet_no_difference();
    pairs_stand_at_places();
    pairs_are_of_places();
    sets_have_their_columns();
    one_list_of_transversals();
    order_tells_nothing();
}

/// Minimal keys and limits at their edges.
pub fn definitions_at_their_edges()
    ensures keys { KeysAtTheirEdges }
    ensures limits { LimitsAtTheirEdges }
{}
