//! INSERT.

ghost use Rattle.std.specs.Prelude.{◌≡◌, ◌≤◌, ◌++◌, [], length, map, IfOk, OnOk, IsTrue, All};
ghost use Rattle.std.specs.List.{list_all, filter_map, cons_option};
ghost use Rattle.std.specs.Option.{option_copied};
ghost use Rattle.pk_values.specs.declared.row.TheConstants.{MOST_COLUMNS};
ghost use Rattle.pk_values.specs.Refusals.{first_some, first_by};
ghost use Rattle.pk_syntax.specs.Given.{has_utf8};
ghost use Rattle.pk_schema.specs.Admits.{Admits};
ghost use Rattle.pk_schema.specs.Shapes.{column_named};
ghost use Rattle.pk_bind.specs.Bound.{IsBound, IfReady};
ghost use Rattle.pk_bind.specs.Columns.{no_column};
ghost use Rattle.pk_bind.specs.Literals.{keeps_words};
ghost use Rattle.pk_bind.specs.Insert.{targets, missing_target, target_twice, targets_refusals, tuples_refusals, insert_refusals, made_rows, new_rows};

use crate::bound::Bound;
use crate::columns::{missing_column, twice_refused};
use crate::new_rows::made_rows;
use crate::tuples::{long_row, tuples_refusal};
use pk_schema::{Column, Schema, column_named, copied_column, twice};
use pk_syntax::{Insert, Literal};
use pk_values::{Items, Memory, Name, Refusal, Row};
use std::alloc::Global;

/// The new rows of an INSERT, or the first refusal that stands. The schema admits each of them.
pub fn bind_insert(
    alloc: Global,
    schema: &Schema,
    insert: &Insert,
) -> Result<Bound<Items<Row>>, Memory>
    requires { IsTrue (list_all (list_all has_utf8) insert.now.rows) }
    ensures bound { IfOk result (λ b. IsBound (insert_refusals schema.now insert.now) (new_rows schema.now.columns insert.now) b) }
    ensures admitted { IfOk result (λ b. IfReady b (λ rows. All (Admits schema.now) rows)) }
{
    let _few = schema.columns();
    bound_rows(alloc, schema, insert)
}

#[tactic(auto, unfolding(crate::specs::Insert::insert_refusals))]
fn bound_rows(alloc: Global, schema: &Schema, insert: &Insert) -> Result<Bound<Items<Row>>, Memory>
    requires { IsTrue (list_all (list_all has_utf8) insert.now.rows) }
    ensures { IfOk result (λ b. IsBound (insert_refusals schema.now insert.now) (new_rows schema.now.columns insert.now) b) }
{
    match targets_refusal(schema, insert)? {
        Some(refusal) => Ok(Bound::Refused(refusal)),
        None => from_targets(alloc, schema, insert),
    }
}

// What comes of the tuples, where the listed columns aren't refused.
fn from_targets(
    alloc: Global,
    schema: &Schema,
    insert: &Insert,
) -> Result<Bound<Items<Row>>, Memory>
    requires { IsTrue (list_all (list_all has_utf8) insert.now.rows) }
    ensures { IfOk result (λ b. let listed = targets schema.now.columns insert.now.columns in IsBound (tuples_refusals schema.now.columns listed insert.now.rows) (made_rows schema.now.columns listed insert.now.rows) b) }
{
    let columns = schema.columns();
    let rows = insert.rows.as_slice();
    match &insert.columns {
        None => from_tuples(alloc, columns, columns, rows),
        Some(names) => from_listed(alloc, columns, names.as_slice(), rows),
    }
}

// The first refusal of the listed columns that stands.
fn targets_refusal(schema: &Schema, insert: &Insert) -> Result<Option<Refusal>, Memory>
    ensures { IfOk result (λ r. r ≡ first_some (targets_refusals schema.now.columns insert.now)) }
{
    if let Some(refusal) = missing_target(schema.columns(), insert)? {
        return Ok(Some(refusal));
    }
    target_twice(insert)
}

#[tactic(auto, unfolding(crate::specs::Insert::missing_target))]
fn missing_target(columns: &[Column], insert: &Insert) -> Result<Option<Refusal>, Memory>
    ensures { IfOk result (λ r. r ≡ missing_target columns.now insert.now.table insert.now.columns) }
{
    match &insert.columns {
        None => Ok(None),
        Some(names) => missing_column(columns, &insert.table, names.as_slice()),
    }
}

#[tactic(auto, unfolding(crate::specs::Insert::target_twice))]
fn target_twice(insert: &Insert) -> Result<Option<Refusal>, Memory>
    ensures { IfOk result (λ r. r ≡ target_twice insert.now.columns) }
{
    match &insert.columns {
        None => Ok(None),
        Some(names) => twice_refused(twice(names.as_slice())),
    }
}

// What comes of tuples for the columns of these names.
fn from_listed(
    alloc: Global,
    columns: &[Column],
    names: &[Name],
    rows: &[Items<Literal>],
) -> Result<Bound<Items<Row>>, Memory>
    requires few { length columns.now ≤ MOST_COLUMNS }
    requires short { IsTrue (list_all keeps_words columns.now) }
    requires texts { IsTrue (list_all (list_all has_utf8) rows.now) }
    ensures { IfOk result (λ b. let listed = filter_map (column_named columns.now) names.now in IsBound (tuples_refusals columns.now listed rows.now) (made_rows columns.now listed rows.now) b) }
{
    let listed = listed_columns(alloc, columns, names)?;
    from_tuples(alloc, columns, listed.as_slice(), rows)
}

// The columns of these names.
#[tactic(auto, using(crate::proofs::TupleLemmas::filter_map_more))]
fn listed_columns(alloc: Global, columns: &[Column], names: &[Name]) -> Result<Vec<Column>, Memory>
    ensures { IfOk result (λ v. v.items ≡ filter_map (column_named columns.now) names.now) }
{
    let mut listed = Vec::new(alloc);
    for name in names {
        push_column(&mut listed, column_named(columns, name))?;
    }
    Ok(listed)
}

// Puts an equal column at the end, where there is one.
fn push_column(columns: &mut Vec<Column>, column: Option<&Column>) -> Result<(), Memory>
    ensures { OnOk result (columns.new.items ≡ columns.old.items ++ cons_option (option_copied column.entry) []) }
{
    match column {
        None => Ok(()),
        Some(column) => Ok(columns.push(copied_column(column)?)?),
    }
}

// What comes of tuples for these columns.
fn from_tuples(
    alloc: Global,
    columns: &[Column],
    listed: &[Column],
    rows: &[Items<Literal>],
) -> Result<Bound<Items<Row>>, Memory>
    requires few { length columns.now ≤ MOST_COLUMNS }
    requires short { IsTrue (list_all keeps_words listed.now) }
    requires texts { IsTrue (list_all (list_all has_utf8) rows.now) }
    ensures { IfOk result (λ b. IsBound (tuples_refusals columns.now listed.now rows.now) (made_rows columns.now listed.now rows.now) b) }
{
    if let Some(refusal) = tuples_refusal(columns, listed, rows)? {
        return Ok(Bound::Refused(refusal));
    }
    let made = made_rows(alloc, columns, listed, rows)?;
    match long_row(made.as_slice()) {
        Some(refusal) => Ok(Bound::Refused(refusal)),
        None => Ok(Bound::Ready(Items::from_vec(made))),
    }
}
