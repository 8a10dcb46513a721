//! What a schema implies, told of all its tables. A law is a contract; its function does nothing.

ghost use Rattle.pk_rule.specs.Laws.{TheRuleIsTheTruth, OneKeyAloneImplies, TwoRowsRefute, ColumnsHaveDistinctNames, ShapesArePlain, Extension, Weakening, Strengthening};
ghost use Rattle.pk_rule.specs.Edges.{RuleAtItsEdges, TwoRowsAtTheirEdges, KnownAtItsEdges};

/// A key holds in every table of a schema exactly where some declared key alone implies it: its columns
/// are among the key's, and for a certain key it is certain or has only NOT NULL columns.
pub fn the_rule_is_the_truth()
    ensures { TheRuleIsTheTruth }
{}

/// A declared key alone implies a key exactly where that holds in every table in which the declared key
/// does, whatever the other keys of the schema are.
pub fn one_key_alone_implies()
    ensures { OneKeyAloneImplies }
{}

/// A key that isn't implied fails in the table of its low and its high row, in which every declared key
/// holds.
pub fn two_rows_refute()
    ensures { TwoRowsRefute }
{}

/// No two columns of a schema have the same name.
pub fn columns_have_distinct_names()
    ensures { ColumnsHaveDistinctNames }
{}

/// The columns and keys of a valid schema are a plain schema, so that all this holds of it.
pub fn shapes_are_plain()
    ensures { ShapesArePlain }
{}

/// A key holds over more columns too.
pub fn extension()
    ensures { Extension }
{}

/// A certain key holds as a possible key too.
pub fn weakening()
    ensures { Weakening }
{}

/// A possible key holds as a certain key too where no row is null in its columns.
pub fn strengthening()
    ensures { Strengthening }
{}

/// What the definitions give at their edges, computed: no key, no column, all of 32, and two causes at
/// once.
pub fn definitions_at_their_edges()
    ensures rule { RuleAtItsEdges }
    ensures rows { TwoRowsAtTheirEdges }
    ensures known { KnownAtItsEdges }
{}
