ghost use Rattle.pk_parse.specs.Edges.{EdgesAreRead};
ghost use Rattle.pk_parse.specs.Grammar.{ReadsTheGrammar};
ghost use Rattle.pk_parse.specs.Parsed.{WhatIsParsedIsGiven};
ghost use Rattle.pk_parse.specs.PrintLaw.{PrintedTablesReadBack};

/// Tokens are read as a statement exactly where the grammar, which says by cases how each statement
/// is spelled, has them as that statement.
pub fn grammar_is_read()
    ensures { ReadsTheGrammar }
{}

/// The statement of a piece of a script has only texts that are UTF-8, names that are names, numbers of 64 bits, and a
/// plain declaration where it has one.
pub fn what_is_parsed_is_given()
    ensures { WhatIsParsedIsGiven }
{}

/// What the definitions give at their edges: of no token, at both ends of 64 bits and beyond, at the
/// lengths of VARCHAR, and of keys before their columns.
pub fn edges_are_read()
    ensures { EdgesAreRead }
{}

/// What is printed for a plain declaration whose keys name their columns in the order of the table
/// reads as the CREATE TABLE of the same declaration.
pub fn printed_tables_read_back()
    ensures { PrintedTablesReadBack }
{}
