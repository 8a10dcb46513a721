//! What example rows are to a schema. A law is a contract; its function does nothing.

ghost use Rattle.pk_examples.specs.Laws.{TwoRowsAreAdmitted, ExamplesAreLargest, ExamplesRefute, ExamplesTellTheKeys};
ghost use Rattle.pk_examples.specs.Edges.{ExamplesAtTheirEdges};

use pk_rule::{extension, the_rule_is_the_truth, two_rows_refute};
use pk_transversal::transversals_are_listed;

/// The rows of any key are rows that the schema admits.
pub fn two_rows_are_admitted()
    ensures { TwoRowsAreAdmitted }
{}

/// The examples of a schema are its largest sets of columns whose key fails in some table of the schema,
/// each once.
pub fn examples_are_largest()
    ensures { ExamplesAreLargest }
{
    the_rule_is_the_truth();
    transversals_are_listed();
}

/// The two rows of each example are a table of the schema in which its key fails.
pub fn examples_refute()
    ensures { ExamplesRefute }
{
    the_rule_is_the_truth();
    two_rows_refute();
    transversals_are_listed();
}

/// A key over a schema's columns holds in every table of the schema exactly where it holds in the two
/// rows of each example.
pub fn examples_tell_the_keys()
    ensures { ExamplesTellTheKeys }
{
    the_rule_is_the_truth();
    two_rows_refute();
    extension();
    transversals_are_listed();
}

/// What the definitions give at their edges, computed: no column, no key, a key over no column, keys that
/// bear on one sort alone, several sets in their order, and 32 columns.
pub fn definitions_at_their_edges()
    ensures { ExamplesAtTheirEdges }
{}
