//! Statements at their edges, computed from the definitions: each function is the proof of its clauses.

ghost use Rattle.pk_bind.specs.Edges.{InsertsAtTheirEdges, RowsAreMade, RowsAtTheirEdge, ConditionsAtTheirEdges, ConditionsSayPlaces, UpdatesAtTheirEdges, SelectsAtTheirEdges};

/// What an INSERT is refused for, and the rows that it makes.
pub fn inserts_at_their_edges()
    ensures refusals { InsertsAtTheirEdges }
    ensures rows { RowsAreMade }
    ensures longest { RowsAtTheirEdge }
{}

/// What a condition is refused for, and what it says of the columns.
pub fn conditions_at_their_edges()
    ensures refusals { ConditionsAtTheirEdges }
    ensures places { ConditionsSayPlaces }
{}

/// What an UPDATE and a SELECT are refused for.
pub fn edits_and_queries_at_their_edges()
    ensures updates { UpdatesAtTheirEdges }
    ensures selects { SelectsAtTheirEdges }
{}
