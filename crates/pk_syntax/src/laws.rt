//! What holds of the definitions, in words that don't retrace the code. A law is a contract; its function does
//! nothing.

ghost use Rattle.pk_syntax.specs.DeclarationEdges.{DeclarationsAtTheirEdges};
ghost use Rattle.pk_syntax.specs.WordEdges.{WordsAtTheirEdges};

/// What is said of declarations, their canonical text, and which words are reserved, computed at the edges.
pub fn definitions_at_their_edges()
    ensures declarations { DeclarationsAtTheirEdges }
    ensures words { WordsAtTheirEdges }
{}
