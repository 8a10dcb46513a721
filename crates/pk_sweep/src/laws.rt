//! What the sets of pairs are. A law is a contract; its function does nothing.

ghost use Rattle.pk_sweep.specs.Laws.{PairsAreOfPlaces, SetsHaveTheirColumns};
ghost use Rattle.pk_sweep.specs.Edges.{PairsAtTheirEdges};

/// The sets of pairs are those of the rows at any two distinct places.
pub fn pairs_are_of_places()
    ensures { PairsAreOfPlaces }
{}

/// The set in which two rows differ has just the columns in which they differ.
pub fn sets_have_their_columns()
    ensures { SetsHaveTheirColumns }
{}

/// Pairs of rows at their edges.
pub fn definitions_at_their_edges()
    ensures { PairsAtTheirEdges }
{}
