//! What holds of every run, stated in `specs/`: each function is the proof of its clause.

ghost use Rattle.pk_run.specs.Laws.{RunsInHalves, RefusalsChangeNothing, RunsPassValidStates, PrintedSchemasReadBack, FrontsAreFronts};
ghost use Rattle.pk_run.specs.Example.{ExampleIsTold};
ghost use Rattle.pk_run.specs.Edges.{EdgesAreTold};

use pk_engine::answers_keep_bases_valid;
use pk_lex::pieces_are_lexed;
use pk_parse::{printed_tables_read_back, what_is_parsed_is_given};
use pk_schema::declarations_make_the_same;

/// A run may be cut anywhere: its second half goes on from the state that the first left.
pub fn runs_in_halves()
    ensures { RunsInHalves }
{}

/// A piece that is refused changes nothing.
pub fn refusals_change_nothing()
    ensures { RefusalsChangeNothing }
{
    pk_engine::refusals_change_nothing();
}

/// Every state that a run from the empty base passes through is a valid one, whatever the bytes of the script: its names
/// are names and its values fit, since what is parsed of a piece of a script has no others.
pub fn runs_pass_valid_states()
    ensures { RunsPassValidStates }
{
    pieces_are_lexed();
    what_is_parsed_is_given();
    answers_keep_bases_valid();
}

/// The text that is printed for a schema reads as the CREATE TABLE that makes the same schema.
pub fn printed_schemas_read_back()
    ensures { PrintedSchemasReadBack }
{
    printed_tables_read_back();
    declarations_make_the_same();
}

/// What is called a front of the replies is one.
pub fn fronts_are_fronts()
    ensures { FrontsAreFronts }
{}

/// The script of the first example is answered by the bytes that its definition shows.
pub fn example_is_told()
    ensures { ExampleIsTold }
{}

/// The definitions at their edges give what the page on definitions says.
pub fn edges_are_told()
    ensures { EdgesAreTold }
{}
