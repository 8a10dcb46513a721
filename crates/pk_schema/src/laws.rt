//! What holds of schemas, in words that don't retrace how they are made. A law is a contract; its
//! function does nothing.

ghost use Rattle.pk_schema.specs.Laws.{AdmittedRowsFit, SetsHoldTheirColumns, SetsAreInside, FirstCauseIsTold, DeclarationsMakeShapes, DeclarationsMakeTheSame};
ghost use Rattle.pk_schema.specs.Edges.{DefinitionsAtTheirEdges};

/// Nothing is wrong with just those rows that have one value for each column, null or of its kind, no
/// text too long, no null where there may be none, and at most 4,000 bytes.
pub fn admitted_rows_fit()
    ensures { AdmittedRowsFit }
{}

/// A set that is made by a test of columns has those columns that pass it, by their places.
pub fn sets_hold_their_columns()
    ensures { SetsHoldTheirColumns }
{}

/// Such a set is one of columns that there are.
pub fn sets_are_inside()
    ensures { SetsAreInside }
{}

/// Of the causes to refuse a declaration the first is told: a key's name that is no column, a column
/// twice, a long name, many columns, many keys, and many columns of a certain key that may be null.
pub fn first_cause_is_told()
    ensures { FirstCauseIsTold }
{}

/// A declaration that is plain, whose names are names and which is refused nothing has a name that a table
/// may have, and makes a schema.
pub fn declarations_make_shapes()
    ensures { DeclarationsMakeShapes }
{}

/// What is declared for a schema is plain, has its keys in column order, is refused nothing, and makes the
/// same schema.
pub fn declarations_make_the_same()
    ensures { DeclarationsMakeTheSame }
{}

/// What the definitions give at their edges, computed.
pub fn definitions_at_their_edges()
    ensures { DefinitionsAtTheirEdges }
{}
