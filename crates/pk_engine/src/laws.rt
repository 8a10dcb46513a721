//! What holds of the machine whatever statements come, stated in `specs/`: each function is the
//! proof of its clauses.

ghost use Rattle.pk_engine.specs.Base.{empty_base};
ghost use Rattle.pk_engine.specs.Valid.{IsValid, AnswersKeepValid};
ghost use Rattle.pk_engine.specs.KeyLaws.{KeysAreJudgedByCompletions};
ghost use Rattle.pk_engine.specs.ReasonLaws.{ImpliesTellsTheTruth, CoverIsTold};
ghost use Rattle.pk_engine.specs.Edges.{TablesAtTheirEdges, ChangesAtTheirEdges, LimitsAtTheirEdges, RestAtItsEdges};
ghost use Rattle.pk_engine.specs.Laws.{SelectsChangeNothing, RefusalsChangeNothing, OtherTablesStay, CreatedTablesAreThere, DroppedTablesAreGone, InsertsAddRows, UpdatesSetRows, OtherColumnsStay, SetColumnsAreSet, DeletesLeaveTheRest, StatementsMakeEntries, EntriesAreCommitted, SelectsTellTheirRows, WholeRowsAreTold, RowsArePutInOrder, CountsAreOfTheRowsShown};

use pk_bind::{
    named_columns_are_found, new_rows_are_admitted, set_rows_are_admitted, what_is_bound_fits,
};
use pk_exec::orders_are_total;
use pk_guard::{breaks_show_two_rows, keys_hold_where_nothing_breaks};
use pk_imply::{places_are_true_of_tables, rules_lead_to_the_key, the_cover_is_computed};
use pk_rule::{shapes_are_plain, the_rule_is_the_truth, two_rows_refute};
use pk_schema::{admitted_rows_fit, declarations_make_shapes, sets_are_inside};

/// From the empty base on, every base is within its limits and has its tables in strict byte order of
/// their names, each of them a name that a table may have. Every table has its rows in strict order of
/// their ids, which begin at 1, each of them one that its schema admits, with values that may be kept;
/// and its keys hold over all completions.
pub fn answers_keep_bases_valid()
    ensures empty { IsValid empty_base }
    ensures kept { AnswersKeepValid }
{
    keys_hold_where_nothing_breaks();
    declarations_make_shapes();
    statements_make_entries();
}

/// A SELECT changes nothing.
pub fn selects_change_nothing()
    ensures { SelectsChangeNothing }
{}

/// A statement that is refused changes nothing.
pub fn refusals_change_nothing()
    ensures { RefusalsChangeNothing }
{}

/// A statement leaves every table but its own as it was.
pub fn statements_leave_other_tables()
    ensures { OtherTablesStay }
{}

/// A table that was created is there, without a row; one that was dropped is there no more.
pub fn tables_are_made_and_dropped()
    ensures made { CreatedTablesAreThere }
    ensures dropped { DroppedTablesAreGone }
{}

/// INSERT adds a row for each tuple behind the others, under the next ids, and changes no other row.
pub fn inserts_add_rows()
    ensures { InsertsAddRows }
{}

/// UPDATE sets the rows that its condition takes, and changes no other row.
pub fn updates_set_rows()
    ensures { UpdatesSetRows }
{}

/// A row that is set has the new values in the columns that are set, and its old ones in all others.
pub fn set_rows_keep_other_columns()
    ensures others { OtherColumnsStay }
    ensures set { SetColumnsAreSet }
{}

/// DELETE takes out the rows that its condition takes, and changes no other row.
pub fn deletes_leave_the_rest()
    ensures { DeletesLeaveTheRest }
{}

/// What INSERT, UPDATE and DELETE that aren't refused change of a table is what entries change of it, each
/// with a row that the schema admits and values that may be kept.
pub fn statements_make_entries()
    ensures { StatementsMakeEntries }
{
    new_rows_are_admitted();
    what_is_bound_fits();
    set_rows_are_admitted();
    admitted_rows_fit();
}

/// The law behind the three: the changes of any entries over the rows of a table leave exactly the
/// rows of the entries.
pub fn entries_are_committed()
    ensures { EntriesAreCommitted }
{}

/// SELECT tells the columns asked for of the rows that meet its condition, in its order. COUNT(*) is
/// the number of the rows that the same SELECT shows.
pub fn selects_tell_their_rows()
    ensures columns { SelectsTellTheirRows }
    ensures all { WholeRowsAreTold }
    ensures count { CountsAreOfTheRowsShown }
{
    named_columns_are_found();
    admitted_rows_fit();
}

/// ORDER BY only moves rows, puts them in order, and leaves those that tie as they stood.
pub fn rows_are_put_in_order()
    ensures { RowsArePutInOrder }
{
    orders_are_total();
}

/// An INSERT, UPDATE or DELETE that nothing else refuses is refused for a key exactly where some declared
/// key fails over all completions of the whole table as it would be, and is done where all hold. What a
/// refusal shows is the least break of that table: two rows that agree on the key's columns in some
/// completion of the two for a certain key, in every one for a possible key, with the values in which they
/// do.
pub fn keys_are_judged_by_completions()
    ensures { KeysAreJudgedByCompletions }
{
    keys_hold_where_nothing_breaks();
    breaks_show_two_rows();
    statements_make_entries();
}

/// The reply to IMPLIES is that the key is implied exactly where it holds in every table of the schema. It
/// names the first declared key that alone implies it, with rules that lead from that key to it; the two
/// rows that are shown otherwise are a table of the schema in which the key fails.
pub fn implies_tells_the_truth()
    ensures { ImpliesTellsTheTruth }
{
    the_rule_is_the_truth();
    two_rows_refute();
    shapes_are_plain();
    sets_are_inside();
    places_are_true_of_tables();
    rules_lead_to_the_key();
}

/// The reply to COVER tells the cover of the table's keys.
pub fn the_cover_is_told()
    ensures { CoverIsTold }
{
    shapes_are_plain();
    the_cover_is_computed();
}

/// What the definitions give at their edges, computed: none and the first of what there may be, each
/// limit and one past it, and two causes at once.
pub fn definitions_at_their_edges()
    ensures tables { TablesAtTheirEdges }
    ensures changes { ChangesAtTheirEdges }
    ensures limits { LimitsAtTheirEdges }
    ensures rest { RestAtItsEdges }
{}
