//! What the computed lists of sets are. A law is a contract; its function does nothing.

ghost use Rattle.pk_transversal.specs.Laws.{MinimalSetsAreListed, TransversalsAreListed, MinimalEdgesSayTheSame, OneListOfTransversals, OrderTellsNothing};
ghost use Rattle.pk_transversal.specs.Edges.{TransversalsAtTheirEdges, MinimalSetsAtTheirEdges, LimitsAtTheirEdges};

/// The minimal ones of some sets are those inside which no other of them lies.
pub fn minimal_sets_are_listed()
    ensures { MinimalSetsAreListed }
{}

/// The transversals of some edges are the minimal ones of all sets of columns that meet every edge.
pub fn transversals_are_listed()
    ensures { TransversalsAreListed }
{}

/// The edges that contain no other edge have the same transversals as all edges.
pub fn minimal_edges_say_the_same()
    ensures { MinimalEdgesSayTheSame }
{}

/// There is one list of the minimal sets that meet every edge, in order and each once.
pub fn one_list_of_transversals()
    ensures { OneListOfTransversals }
{}

/// In which order edges stand, and whether one stands twice, changes nothing.
pub fn order_tells_nothing()
    ensures { OrderTellsNothing }
{}

/// Transversals, minimal sets and limits at their edges.
pub fn definitions_at_their_edges()
    ensures transversals { TransversalsAtTheirEdges }
    ensures minimal_sets { MinimalSetsAtTheirEdges }
    ensures limits { LimitsAtTheirEdges }
{}
