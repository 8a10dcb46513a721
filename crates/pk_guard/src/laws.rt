//! What the first break says of keys. A law is a contract; its function does nothing.

ghost use Rattle.pk_guard.specs.Laws.{KeysHoldWhereNothingBreaks, FirstBreaksAreLeast, BreaksShowTwoRows};
ghost use Rattle.pk_guard.specs.Edges.{BreaksAtTheirEdges, ChangesAtTheirEdges};

use pk_similar::{strong_rows_must_agree, weak_rows_may_agree};

/// All keys of a table hold, over all completions of its rows, exactly where nothing breaks.
pub fn keys_hold_where_nothing_breaks()
    ensures { KeysHoldWhereNothingBreaks }
{}

/// Where there is a first break, it is the least of all: by the key's place, then by the lower id, then
/// by the higher. Where there is none, no two rows break a key. Two rows break a certain key where some
/// completion of the two agrees on its columns, a possible key where every completion of the two does.
pub fn first_breaks_are_least()
    ensures { FirstBreaksAreLeast }
{
    weak_rows_may_agree();
    strong_rows_must_agree();
}

/// A first break shows two rows that break its key and values that they have in common, for a certain
/// key in some completion of theirs and for a possible key as they are; so the key doesn't hold. No other
/// break comes before it.
pub fn breaks_show_two_rows()
    ensures { BreaksShowTwoRows }
{
    weak_rows_may_agree();
    strong_rows_must_agree();
}

/// What the definitions give at their edges, computed: no row and no column, the last of 32 keys, and
/// two breaks or two changes of one row at once.
pub fn definitions_at_their_edges()
    ensures breaks { BreaksAtTheirEdges }
    ensures changes { ChangesAtTheirEdges }
{}
